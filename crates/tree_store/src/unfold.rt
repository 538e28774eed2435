//! A vector's tree is read from its root pair down to its slots.
ghost use Rattle.std.specs.Prelude.{◌≡◌, ℕ, ◌+◌, ◌*◌, ◌^◌, ◌<◌, ◌≤◌, drop, length, slice_set};
ghost use Rattle.packed_word.specs.Word.{pair_of};
ghost use Rattle.tree_shape.specs.Tree.{RootStands};
ghost use Rattle.tdb_base.specs.History.{Vector};
ghost use Rattle.pair_rule.specs.Rest.{AtRest, view};
ghost use Rattle.pair_nodes.specs.Probe.{Probed};
ghost use Rattle.pair_rule.specs.Calls.{IsSomeRoot};
ghost use Rattle.tree_store.specs.Vectors.{StandsTo, KeepsLast};

use pair_nodes::Nodes;
use pair_rule::{Pass, PassOf, RootPart};

// Notes the parts of the pair at the position `p`.
fn note_parts<T>(pass: &mut PassOf<T>, p: usize, left: u64, right: u64)
    requires inside { 2 * p + 1 < length pass.old.next_tree.items }
    requires few { length pass.old.next_tree.items ≤ 2048 }
    requires parts { (left < 2 ^ 32) × (right < 2 ^ 32) }
    ensures rest { pass.new ≡ record pass.old { next_tree = pass.new.next_tree } }
    ensures tree { pass.new.next_tree.items ≡ slice_set (slice_set pass.old.next_tree.items (2 * p) left)
        (2 * p + 1) right }
{
    pass.next_tree[2 * p] = left as u32;
    pass.next_tree[2 * p + 1] = right as u32;
}

// Reads the pair of the inner position `p` of a tree whose earlier positions were read.
#[inline]
fn open_position<R: RootPart<W, F>, const W: u32, const F: u32>(
    nodes: &Nodes<R, W, F>,
    pass: &mut Pass<R, W, F>,
    p: usize,
)
    requires rest { AtRest R.part nodes.now pass.old }
    requires inner { (2 ≤ p) × (p < nodes.now.about.slots) }
    requires stands { (v : Vector)
        × StandsTo nodes.now.about v (2 * p) (view pass.old).known pass.old.next_tree.items }
    ensures rest { AtRest R.part nodes.now pass.new }
    ensures keeps { KeepsLast pass.old pass.new }
    ensures puts_none { Probed 0 (view pass.old) (view pass.new) }
    ensures stands { (v : Vector)
        → StandsTo nodes.now.about v (2 * p) (view pass.old).known pass.old.next_tree.items
        → StandsTo nodes.now.about v (2 * p + 2) (view pass.new).known pass.new.next_tree.items }
{
    let index = pass.next_tree[p] as u64;
    let (left, right) = nodes.pair_at(pass, index);
    note_parts(pass, p, left, right);
}

// Reads all pairs of a tree whose root pair was read.
fn open_all<R: RootPart<W, F>, const W: u32, const F: u32>(
    nodes: &Nodes<R, W, F>,
    pass: &mut Pass<R, W, F>,
    slots: usize,
)
    requires rest { AtRest R.part nodes.now pass.old }
    requires slots { slots ≡ nodes.now.about.slots }
    requires stands { (v : Vector)
        × StandsTo nodes.now.about v 4 (view pass.old).known pass.old.next_tree.items }
    ensures rest { AtRest R.part nodes.now pass.new }
    ensures keeps { KeepsLast pass.old pass.new }
    ensures puts_none { Probed 0 (view pass.old) (view pass.new) }
    ensures stands { (v : Vector)
        → StandsTo nodes.now.about v 4 (view pass.old).known pass.old.next_tree.items
        → StandsTo nodes.now.about v (2 * slots) (view pass.new).known pass.new.next_tree.items }
{
    for p in 2..slots {
        open_position(nodes, pass, p);
    }
}

// Copies the slots of the tree that was read.
fn copy_slots<T>(pass: &PassOf<T>, slots: usize, out: &mut [u32])
    requires tree { length pass.now.next_tree.items ≡ 2 * slots }
    requires out { length out.old ≡ slots }
    requires few { slots ≤ 1024 }
    ensures { out.new ≡ drop slots pass.now.next_tree.items }
{
    out.copy_from_slice(&pass.next_tree[slots..]);
}

// Reads the vector with the root `(left, right)`, which is some vector's in the nodes that the pass knows.
pub(crate) fn unfold<R: RootPart<W, F>, const W: u32, const F: u32>(
    nodes: &Nodes<R, W, F>,
    pass: &mut Pass<R, W, F>,
    left: u64,
    right: u64,
    out: &mut [u32],
)
    requires rest { AtRest R.part nodes.now pass.old }
    requires parts { (left < 2 ^ nodes.now.about.width) × (right < 2 ^ nodes.now.about.width) }
    requires stands { IsSomeRoot nodes.now.about (view pass.old).known
        (pair_of nodes.now.about.width left right) }
    requires out { length out.old ≡ nodes.now.about.slots }
    ensures rest { AtRest R.part nodes.now pass.new }
    ensures keeps { KeepsLast pass.old pass.new }
    ensures puts_none { Probed 0 (view pass.old) (view pass.new) }
    ensures vector { let about = nodes.now.about in (v : Vector)
        → RootStands about.width about.slots (view pass.old).known
        (pair_of nodes.now.about.width left right) v → length v ≡ about.slots → out.new ≡ v }
{
    let slots = nodes.table().slots();
    note_parts(pass, 1, left, right);
    open_all(nodes, pass, slots);
    copy_slots(pass, slots, out);
}
