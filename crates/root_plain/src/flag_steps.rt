//! The atomic steps on the flags in a named root's word, one function each.
ghost use Rattle.std.specs.Prelude.{◌≡◌, ◌<◌, not};
ghost use Rattle.packed_word.specs.Word.{flag_bits};
ghost use Rattle.pair_rule.specs.Paths.{root_buckets, size};
ghost use Rattle.pair_rule.specs.Rest.{AtRest, view, KnowsName};
ghost use Rattle.root_plain.specs.Plain.{plain};
ghost use Rattle.root_plain.specs.Plays.{DoesTo, flag_in};
ghost use Rattle.tdb_base.specs.History.{Set, Clear, Look};

use crate::plays::{ClearingFlag, ReadingFlags, SettingFlag};
use crate::root::PlainRoot;
use crate::steps::root_word;
use packed_word::Layout;
use pair_rule::{PairTable, Pass};

// Sets flag `b` in the word of the bucket `at`, which is a name; answers the word that was there.
#[inline]
pub(crate) fn set_in_word<const W: u32, const F: u32>(
    table: &PairTable<PlainRoot<W, F>, W, F>,
    pass: &mut Pass<PlainRoot<W, F>, W, F>,
    at: u64,
    b: u32,
) -> u64
    requires rest { AtRest plain table.now pass.old }
    requires inside { at < size (root_buckets table.now.about) }
    requires named { KnowsName pass.old at }
    requires bit { b < F }
    ensures rest { AtRest plain table.now pass.new }
    ensures told { DoesTo (Set b (not (flag_in W F result b))) at (view pass.old) (view pass.new) }
    ensures tree { pass.new ≡ record pass.old { seat = pass.new.seat } }
{
    let sizes = table.sizes();
    let place = root_word(sizes.nodes, at);
    let mask = Layout::<W, F>::flag_mask(b);
    let shared = table.shared();
    shared.fetch_or::<SettingFlag>(&mut pass.seat, place, mask)
}

// Clears flag `b` there; answers the word that was there.
#[inline]
pub(crate) fn clear_in_word<const W: u32, const F: u32>(
    table: &PairTable<PlainRoot<W, F>, W, F>,
    pass: &mut Pass<PlainRoot<W, F>, W, F>,
    at: u64,
    b: u32,
) -> u64
    requires rest { AtRest plain table.now pass.old }
    requires inside { at < size (root_buckets table.now.about) }
    requires named { KnowsName pass.old at }
    requires bit { b < F }
    ensures rest { AtRest plain table.now pass.new }
    ensures told { DoesTo (Clear b (flag_in W F result b)) at (view pass.old) (view pass.new) }
    ensures tree { pass.new ≡ record pass.old { seat = pass.new.seat } }
{
    let sizes = table.sizes();
    let place = root_word(sizes.nodes, at);
    let mask = Layout::<W, F>::flag_mask(b);
    let shared = table.shared();
    shared.fetch_and::<ClearingFlag>(&mut pass.seat, place, !mask)
}

// Loads the word there, to read its flags.
#[inline]
pub(crate) fn read_word<const W: u32, const F: u32>(
    table: &PairTable<PlainRoot<W, F>, W, F>,
    pass: &mut Pass<PlainRoot<W, F>, W, F>,
    at: u64,
) -> u64
    requires rest { AtRest plain table.now pass.old }
    requires inside { at < size (root_buckets table.now.about) }
    requires named { KnowsName pass.old at }
    ensures rest { AtRest plain table.now pass.new }
    ensures told { DoesTo (Look (flag_bits W F result)) at (view pass.old) (view pass.new) }
    ensures tree { pass.new ≡ record pass.old { seat = pass.new.seat } }
{
    let sizes = table.sizes();
    let place = root_word(sizes.nodes, at);
    let shared = table.shared();
    shared.load::<ReadingFlags>(&mut pass.seat, place)
}
