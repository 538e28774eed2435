//! The inner nodes of a vector's tree, put from the last position down to position 2.
ghost use Rattle.std.specs.Prelude.{◌≡◌, ℕ, ◌+◌, ◌-◌, ◌*◌, ◌^◌, ◌<◌, ◌≤◌, ◌↔◌, drop, length, IfOk};
ghost use Rattle.std.specs.Prelude.{OnErr, option_map};
ghost use Rattle.tree_shape.specs.Changed.{IsChanged, IsMarked, marked_count, changed_count};
ghost use Rattle.tdb_base.specs.Fakes.{counted};
ghost use Rattle.pair_rule.specs.Rest.{AtRest, view};
ghost use Rattle.pair_nodes.specs.Probe.{Probed};
ghost use Rattle.tree_store.specs.Vectors.{IsVector, slots_of, IsBlockedInside, StandsFrom, Building};
ghost use Rattle.tree_store.specs.Vectors.{Refused, raised, RaisedWithin, KeepsLast, KeepsOthers};
ghost use Rattle.tree_store.specs.Vectors.{compared, puts_after};

use crate::marked::put_marked;
use pair_nodes::Nodes;
use pair_rule::{NodesFull, Pass, PassOf, RootPart};
use tdb_base::{Ledger, Steps};
use tree_shape::Shape;

/// Puts the node of the inner position `p` into the tree that is being put, whose later positions all stand
/// for parts of the vector in its slots.
#[inline]
pub(crate) fn put_position<R: RootPart<W, F>, L: Ledger, const W: u32, const F: u32>(
    nodes: &Nodes<R, W, F>,
    pass: &mut Pass<R, W, F>,
    p: usize,
    steps: &mut Steps<L>,
) -> Result<(), NodesFull>
    requires rest { AtRest R.part nodes.now pass.old }
    requires inner { (2 ≤ p) × (p < nodes.now.about.slots) }
    requires vector { IsVector nodes.now.about (slots_of nodes.now.about pass.old.next_tree.items) }
    requires stands { StandsFrom nodes.now.about (slots_of nodes.now.about pass.old.next_tree.items) (p + 1)
        (view pass.old).known pass.old.next_tree.items }
    ensures rest { AtRest R.part nodes.now pass.new }
    ensures tick { L.count steps.new ≡ option_map counted (L.count steps.old) }
    ensures keeps { KeepsLast pass.old pass.new }
    ensures vector { slots_of nodes.now.about pass.new.next_tree.items ≡ slots_of nodes.now.about
        pass.old.next_tree.items }
    ensures others { KeepsOthers p pass.old.next_tree.items pass.new.next_tree.items }
    ensures marks { pass.new.marks ≡ pass.old.marks }
    ensures stands { IfOk result
        (λ done. StandsFrom nodes.now.about (slots_of nodes.now.about pass.old.next_tree.items) p
        (view pass.new).known pass.new.next_tree.items) }
    ensures put { IfOk result
        (λ done. Building nodes.now.about (slots_of nodes.now.about pass.old.next_tree.items) 1
        (view pass.old) (view pass.new)) }
    ensures full { OnErr result
        (IsBlockedInside nodes.now.about (view pass.new).known
        (slots_of nodes.now.about pass.old.next_tree.items)) }
    ensures full_puts_none { OnErr result (Probed 1 (view pass.old) (view pass.new)) }
{
    let left = pass.next_tree[2 * p] as u64;
    let right = pass.next_tree[2 * p + 1] as u64;
    let Ok(index) = nodes.find_or_put(pass, left, right, steps) else {
        return Err(NodesFull);
    };
    pass.next_tree[p] = index as u32;
    Ok(())
}

// Puts all inner nodes of the vector in the slots of the tree that is being put.
pub(crate) fn put_all<R: RootPart<W, F>, L: Ledger, const W: u32, const F: u32>(
    nodes: &Nodes<R, W, F>,
    pass: &mut Pass<R, W, F>,
    slots: usize,
    steps: &mut Steps<L>,
) -> Result<(), NodesFull>
    requires rest { AtRest R.part nodes.now pass.old }
    requires slots { slots ≡ nodes.now.about.slots }
    requires vector { IsVector nodes.now.about (slots_of nodes.now.about pass.old.next_tree.items) }
    requires leaves { StandsFrom nodes.now.about (slots_of nodes.now.about pass.old.next_tree.items) slots
        (view pass.old).known pass.old.next_tree.items }
    ensures rest { AtRest R.part nodes.now pass.new }
    ensures keeps { KeepsLast pass.old pass.new }
    ensures vector { slots_of nodes.now.about pass.new.next_tree.items ≡ slots_of nodes.now.about
        pass.old.next_tree.items }
    ensures stands { IfOk result
        (λ done. StandsFrom nodes.now.about (slots_of nodes.now.about pass.old.next_tree.items) 2
        (view pass.new).known pass.new.next_tree.items) }
    ensures put { IfOk result
        (λ done. Building nodes.now.about (slots_of nodes.now.about pass.old.next_tree.items) (slots - 2)
        (view pass.old) (view pass.new)) }
    ensures ticks { IfOk result (λ done. L.count steps.new ≡ raised (slots - 2) (L.count steps.old)) }
    ensures full { OnErr result
        (Refused nodes.now.about (slots_of nodes.now.about pass.old.next_tree.items) (slots - 2)
        (view pass.old) (view pass.new)) }
    ensures full_ticks { OnErr result (RaisedWithin (slots - 2) (L.count steps.old) (L.count steps.new)) }
{
    for i in 2..slots {
        let Ok(()) = put_position(nodes, pass, slots + 1 - i, steps) else {
            return Err(NodesFull);
        };
    }
    Ok(())
}

// Marks the inner positions above the slots in which the vector of the tree that is being put differs from
// that of the last tree.
fn mark_changes<T>(pass: &mut PassOf<T>, shape: &Shape) -> usize
    requires last { length pass.old.last_tree.items ≡ 2 * shape.now }
    requires next { length pass.old.next_tree.items ≡ 2 * shape.now }
    requires marks { length pass.old.marks.items ≡ shape.now }
    ensures rest { pass.new ≡ record pass.old { marks = pass.new.marks } }
    ensures marks { length pass.new.marks.items ≡ shape.now }
    ensures marked { (p : ℕ)
        → IsMarked pass.new.marks.items p ↔ IsChanged shape.now (drop shape.now pass.old.last_tree.items)
        (drop shape.now pass.old.next_tree.items) p }
    ensures count { marked_count pass.new.marks.items ≡ changed_count shape.now
        (drop shape.now pass.old.last_tree.items) (drop shape.now pass.old.next_tree.items) }
{
    let k = shape.slots();
    shape.changed(&pass.last_tree[k..], &pass.next_tree[k..], &mut pass.marks)
}

// Puts the inner nodes of the vector in the slots of the tree that is being put: all, or, if asked to, only
// those above slots in which the last tree has others.
pub(crate) fn put_nodes<R: RootPart<W, F>, L: Ledger, const W: u32, const F: u32>(
    nodes: &Nodes<R, W, F>,
    shape: &Shape,
    pass: &mut Pass<R, W, F>,
    from_last: bool,
    steps: &mut Steps<L>,
) -> Result<(), NodesFull>
    requires rest { AtRest R.part nodes.now pass.old }
    requires shape { shape.now ≡ nodes.now.about.slots }
    requires vector { IsVector nodes.now.about (slots_of nodes.now.about pass.old.next_tree.items) }
    requires leaves { StandsFrom nodes.now.about (slots_of nodes.now.about pass.old.next_tree.items) shape.now
        (view pass.old).known pass.old.next_tree.items }
    ensures rest { AtRest R.part nodes.now pass.new }
    ensures keeps { KeepsLast pass.old pass.new }
    ensures vector { slots_of nodes.now.about pass.new.next_tree.items ≡ slots_of nodes.now.about
        pass.old.next_tree.items }
    ensures stands { IfOk result
        (λ done. StandsFrom nodes.now.about (slots_of nodes.now.about pass.old.next_tree.items) 2
        (view pass.new).known pass.new.next_tree.items) }
    ensures put { IfOk result
        (λ done. let v = slots_of nodes.now.about pass.old.next_tree.items in Building nodes.now.about v
        (puts_after nodes.now.about (compared from_last pass.old) v) (view pass.old) (view pass.new)) }
    ensures ticks { IfOk result
        (λ done. L.count steps.new ≡ raised
        (puts_after nodes.now.about (compared from_last pass.old)
        (slots_of nodes.now.about pass.old.next_tree.items)) (L.count steps.old)) }
    ensures full { OnErr result
        (let v = slots_of nodes.now.about pass.old.next_tree.items in Refused nodes.now.about v
        (puts_after nodes.now.about (compared from_last pass.old) v) (view pass.old) (view pass.new)) }
    ensures full_ticks { OnErr result
        (RaisedWithin (puts_after nodes.now.about (compared from_last pass.old)
        (slots_of nodes.now.about pass.old.next_tree.items)) (L.count steps.old) (L.count steps.new)) }
{
    if from_last && pass.has_last {
        let _ = mark_changes(pass, shape);
        return put_marked(nodes, pass, shape.slots(), steps);
    }
    put_all(nodes, pass, shape.slots(), steps)
}
