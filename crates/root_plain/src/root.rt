//! The root table of plain mode as a part of the rule.

use pair_rule::{RootPart, Sizes};
use std::collections::LinkedList;

/// What a pass knows of a plain root table: identifiers, each with the root's pair as one number. No value is
/// made: it is what contracts see behind a seat.
pub struct Roots {
    /// Each an identifier, and the root's pair as one number.
    pub roots: LinkedList<(u64, u64)>,
}

/// The table of roots of plain mode: a word for each root, whose place is the root's identifier.
///
/// It has `2^roots` buckets with `roots` from 3 to 24, in lines of 8. A root stands on its pair's path, as a
/// node does, and its word also has the vector's flags.
pub struct PlainRoot<const W: u32, const F: u32>;

impl<const W: u32, const F: u32> RootPart<W, F> for PlainRoot<W, F> {
    ghost use Rattle.std.specs.Prelude.{◌≡◌, refl};
    ghost use Rattle.pair_rule.specs.View.{parent_view, child_view};
    ghost use Rattle.root_plain.specs.Plain.{nothing_known, plain, Plain};
    ghost use Rattle.root_plain.specs.Laws.{plain_keeps, plain_keeps_split, plain_keeps_join, plain_starts};
    ghost use Rattle.root_plain.specs.Laws.{plain_sounds, plain_houses, told_same, plain_ids_below, roots_both, roots_either};

    type View = Roots;

    ghost part = { plain };

    ghost holds = { Plain };

    ghost first = { λ about. nothing_known };

    ghost spent = { nothing_known };

    fn first_out(sizes: &Sizes) -> Option<u32> {
        if 3 <= sizes.roots && sizes.roots <= 24 {
            None
        } else {
            Some(2)
        }
    }

    fn words(sizes: &Sizes) -> usize {
        1 << sizes.roots
    }

    ghost keeps = { plain_keeps };

    ghost keeps_split = { plain_keeps_split };

    ghost keeps_join = { plain_keeps_join };

    ghost starts = { λ about ws width flags is long zero. plain_starts about ws is zero };

    ghost sounds = { λ about log ws nodes views id v kept legal at fits live. plain_sounds about log ws views id v kept at };

    ghost houses = { λ about log ws nodes views id v kept legal at fits live all.
        plain_houses about log ws nodes views id v kept at fits all };

    ghost sound_parent = { λ about v sound. told_same about v (parent_view v) refl sound };

    ghost sound_child = { λ about v sound. told_same about v (child_view (λ t. t) v) refl sound };

    ghost ids_small = { plain_ids_below };

    ghost roots_first = { λ about. refl };

    ghost roots_spent = { λ about. refl };

    ghost roots_split = { λ about h t. refl };

    ghost roots_join = { λ about g h t u before after. roots_both t u };

    ghost roots_either = { λ about g h t u id pair there. roots_either t u id pair there };
}
