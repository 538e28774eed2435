//! The flags of a named vector: each is set, cleared or read by one atomic step on the root's word.
ghost use Rattle.std.specs.Prelude.{◌≡◌, ◌<◌};
ghost use Rattle.packed_word.specs.Word.{IsLayout};
ghost use Rattle.pair_nodes.specs.Roots.{RootActed};
ghost use Rattle.pair_rule.specs.Rest.{AtRest, KnowsName};
ghost use Rattle.root_plain.specs.Plain.{plain};
ghost use Rattle.root_plain.specs.Plays.{flag_in};
ghost use Rattle.tdb_base.specs.History.{Set, Clear, Look};

use crate::flag_steps::{clear_in_word, read_word, set_in_word};
use crate::root::PlainRoot;
use packed_word::Layout;
use pair_nodes::{Nodes, has_flag};
use pair_rule::Pass;

// Whether flag `b` of a word is set.
#[inline]
fn is_set<const W: u32, const F: u32>(word: u64, b: u32) -> bool
    requires layout { IsLayout W F }
    requires bit { b < F }
    ensures { result ≡ flag_in W F word b }
{
    has_flag(Layout::<W, F>::flags(word), b)
}

/// Sets flag `b` of the vector with this identifier, which is one that the pass has seen named: whether it
/// was clear. It is one call of the history, made at one atomic step. It waits for nobody and takes no
/// memory.
pub fn set_flag<const W: u32, const F: u32>(
    nodes: &Nodes<PlainRoot<W, F>, W, F>,
    pass: &mut Pass<PlainRoot<W, F>, W, F>,
    id: u64,
    b: u32,
) -> bool
    requires rest { AtRest plain nodes.now pass.old }
    requires named { KnowsName pass.old id }
    requires bit { b < nodes.now.about.flags }
    ensures { RootActed plain nodes.now (Set b result) id pass.old pass.new }
{
    let word = set_in_word(nodes.table(), pass, id, b);
    !is_set::<W, F>(word, b)
}

/// Clears flag `b` of the vector with this identifier, which is one that the pass has seen named: whether it
/// was set. It is one call of the history, made at one atomic step. It waits for nobody and takes no memory.
pub fn clear_flag<const W: u32, const F: u32>(
    nodes: &Nodes<PlainRoot<W, F>, W, F>,
    pass: &mut Pass<PlainRoot<W, F>, W, F>,
    id: u64,
    b: u32,
) -> bool
    requires rest { AtRest plain nodes.now pass.old }
    requires named { KnowsName pass.old id }
    requires bit { b < nodes.now.about.flags }
    ensures { RootActed plain nodes.now (Clear b result) id pass.old pass.new }
{
    let word = clear_in_word(nodes.table(), pass, id, b);
    is_set::<W, F>(word, b)
}

/// The flags of the vector with this identifier, which is one that the pass has seen named, as one number. It
/// is one call of the history, made at one atomic step. It waits for nobody and takes no memory.
pub fn flags<const W: u32, const F: u32>(
    nodes: &Nodes<PlainRoot<W, F>, W, F>,
    pass: &mut Pass<PlainRoot<W, F>, W, F>,
    id: u64,
) -> u64
    requires rest { AtRest plain nodes.now pass.old }
    requires named { KnowsName pass.old id }
    ensures { RootActed plain nodes.now (Look result) id pass.old pass.new }
{
    let word = read_word(nodes.table(), pass, id);
    Layout::<W, F>::flags(word)
}
