//! A table of nodes alone.

use crate::part::RootPart;
use crate::sizes::Sizes;

/// No table of roots: pairs alone, and a history in which nobody calls.
pub struct NoRoot;

impl<const W: u32, const F: u32> RootPart<W, F> for NoRoot {
    ghost use Rattle.std.specs.Prelude.{◌≡◌, [], refl};
    ghost use Rattle.pair_rule.specs.NoRoots.{no_roots, nothing_seen};

    type View = ();

    ghost part = { no_roots };

    ghost holds = { λ about log ws views. log ≡ [] };

    ghost first = { λ about. tt };

    ghost spent = { tt };

    fn first_out(_sizes: &Sizes) -> Option<u32> {
        None
    }

    fn words(_sizes: &Sizes) -> usize {
        0
    }

    ghost keeps = { λ about log ws views id v w kept at grown. kept };

    ghost keeps_split = { λ about log ws views id v kept at. kept };

    ghost keeps_join = { λ about log ws views nodes id other v w kept at there apart idle rest fits fits_too. kept };

    ghost starts = { λ about ws width flags is_about long zero. refl };

    ghost sounds = { λ about log ws nodes views id v kept legal at fits live. nothing_seen log v.seen kept fits.seen };

    ghost houses = { λ about log ws nodes views id v kept legal at fits live all. tt };

    ghost sound_parent = { λ about v sound. sound };

    ghost sound_child = { λ about v sound. sound };

    ghost ids_small = { λ about v sound id pair there. absurd there };

    ghost roots_first = { λ about. refl };

    ghost roots_spent = { λ about. refl };

    ghost roots_split = { λ about h t. refl };

    ghost roots_join = { λ about g h t u before after. ((λ i pair there. there), (λ i pair there. there)) };

    ghost roots_either = { λ about g h t u id pair there. absurd there };
}
