//! A name's root is found by its identifier.
ghost use Rattle.std.specs.Prelude.{◌≡◌, ◌^◌, ◌<◌, ◌≤◌, ◌↔◌, IsTrue, Some, MatchOption};
ghost use Rattle.pair_nodes.specs.Roots.{RootFound, RootUnknown, RootRead};
ghost use Rattle.pair_rule.specs.Rest.{AtRest, KnowsName};
ghost use Rattle.root_plain.specs.Plain.{plain};

use crate::plays::Wanted;
use crate::root::PlainRoot;
use crate::steps::look;
use packed_word::Layout;
use pair_nodes::Nodes;
use pair_rule::Pass;

// Whether a table of `2^roots` buckets has this one.
#[inline]
fn has_bucket(roots: u32, id: u64) -> bool
    requires { roots ≤ 24 }
    ensures { IsTrue result ↔ (id < 2 ^ roots) }
{
    id < 1 << roots
}

/// The root, as its two parts, of the vector with this identifier, if it is some vector's.
///
/// `Some` is one call of the table's history, made at one atomic step, which found that vector. `None` makes
/// no call, and says that no vector has the identifier in the history that the pass has then seen. It waits
/// for nobody and takes no memory.
pub fn find_id<const W: u32, const F: u32>(
    nodes: &Nodes<PlainRoot<W, F>, W, F>,
    pass: &mut Pass<PlainRoot<W, F>, W, F>,
    id: u64,
) -> Option<(u64, u64)>
    requires rest { AtRest plain nodes.now pass.old }
    ensures { MatchOption result (RootUnknown plain nodes.now id pass.old pass.new)
        (λ parts. RootFound plain nodes.now id parts pass.old pass.new) }
{
    let table = nodes.table();
    let sizes = table.sizes();
    if !has_bucket(sizes.roots, id) {
        return None;
    }
    let word = look(table, pass, id, &Wanted::Each);
    if word == 0 {
        return None;
    }
    Some((Layout::<W, F>::left(word), Layout::<W, F>::right(word)))
}

/// The root, as its two parts, of the vector with this identifier, which is one that the pass has seen named.
/// It makes no call, waits for nobody and takes no memory.
pub fn root_pair<const W: u32, const F: u32>(
    nodes: &Nodes<PlainRoot<W, F>, W, F>,
    pass: &mut Pass<PlainRoot<W, F>, W, F>,
    id: u64,
) -> (u64, u64)
    requires rest { AtRest plain nodes.now pass.old }
    requires named { KnowsName pass.old id }
    ensures { RootRead plain nodes.now id result pass.old pass.new }
{
    let word = look(nodes.table(), pass, id, &Wanted::Nothing);
    (Layout::<W, F>::left(word), Layout::<W, F>::right(word))
}
