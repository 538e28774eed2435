//! The inner nodes of a vector's tree, put where it differs from the last tree, and taken over elsewhere.
ghost use Rattle.std.specs.Prelude.{◌≡◌, ℕ, ◌+◌, ◌*◌, ◌<◌, ◌≤◌, IsTrue, true, drop, length, IfOk, OnErr};
ghost use Rattle.std.specs.Prelude.{MatchOption, slice_index};
ghost use Rattle.tree_shape.specs.Changed.{IsMarked};
ghost use Rattle.pair_rule.specs.Rest.{AtRest, view};
ghost use Rattle.tree_store.specs.Vectors.{IsVector, slots_of, StandsFrom, Building, Refused, raised};
ghost use Rattle.tree_store.specs.Vectors.{RaisedWithin, MarksChanges, marks_from, NoneMarked, KeepsLast};
ghost use Rattle.tree_store.specs.Vectors.{IsLastMarked, IsTakenOver};

use crate::tree::put_position;
use pair_nodes::Nodes;
use pair_rule::{NodesFull, Pass, PassOf, RootPart};
use tdb_base::{Ledger, Steps};

// Whether none of the eight positions before `end` is marked.
#[inline]
fn are_eight_unmarked(marks: &[bool], end: usize) -> bool
    requires { (8 ≤ end) × (end ≤ length marks.now) }
    ensures { IsTrue result → (from : ℕ) → from + 8 ≡ end → NoneMarked marks.now from end }
{
    !(marks[end - 1]
        | marks[end - 2]
        | marks[end - 3]
        | marks[end - 4]
        | marks[end - 5]
        | marks[end - 6]
        | marks[end - 7]
        | marks[end - 8])
}

// The end of the positions before `end` that are left when unmarked ones are dropped, eight at a time.
fn drop_eights(marks: &[bool], end: usize) -> usize
    requires { end ≤ length marks.now }
    ensures range { result ≤ end }
    ensures none { NoneMarked marks.now result end }
{
    let mut at = end;
    while at >= 8 && are_eight_unmarked(marks, at) {
        at -= 8;
    }
    at
}

// The last marked position from 2 on and before `end`.
fn last_marked(marks: &[bool], end: usize) -> Option<usize>
    requires { end ≤ length marks.now }
    ensures { MatchOption result (NoneMarked marks.now 2 end) (IsLastMarked marks.now end) }
{
    let mut at = drop_eights(marks, end);
    while at > 2 {
        at -= 1;
        if marks[at] {
            return Some(at);
        }
    }
    None
}

// Takes the numbers of all inner positions of a tree of so many slots over from the last one.
fn copy_inner(next: &mut [u32], last: &[u32], slots: usize)
    requires slots { 2 ≤ slots }
    requires next { length next.old ≡ 2 * slots }
    requires last { length last.now ≡ 2 * slots }
    ensures { IsTakenOver slots last.now next.old next.new }
{
    next[2..slots].copy_from_slice(&last[2..slots]);
}

// The same for the tree that is being put.
fn take_inner<T>(pass: &mut PassOf<T>, slots: usize)
    requires slots { 2 ≤ slots }
    requires next { length pass.old.next_tree.items ≡ 2 * slots }
    requires last { length pass.old.last_tree.items ≡ 2 * slots }
    ensures tree { pass.new ≡ record pass.old { next_tree = pass.new.next_tree } }
    ensures taken { IsTakenOver slots pass.old.last_tree.items pass.old.next_tree.items
        pass.new.next_tree.items }
{
    copy_inner(&mut pass.next_tree, &pass.last_tree, slots);
}

// The last position from 2 on and before `end` that the pass has marked.
fn last_mark<T>(pass: &PassOf<T>, end: usize) -> Option<usize>
    requires { end ≤ length pass.now.marks.items }
    ensures { MatchOption result (NoneMarked pass.now.marks.items 2 end) (IsLastMarked pass.now.marks.items end) }
{
    last_marked(&pass.marks, end)
}

/// Puts the inner nodes of the vector in the slots of the tree that is being put, at the marked positions;
/// takes the others from the last tree.
pub(crate) fn put_marked<R: RootPart<W, F>, L: Ledger, const W: u32, const F: u32>(
    nodes: &Nodes<R, W, F>,
    pass: &mut Pass<R, W, F>,
    slots: usize,
    steps: &mut Steps<L>,
) -> Result<(), NodesFull>
    requires rest { AtRest R.part nodes.now pass.old }
    requires slots { slots ≡ nodes.now.about.slots }
    requires vector { IsVector nodes.now.about (slots_of nodes.now.about pass.old.next_tree.items) }
    requires leaves { StandsFrom nodes.now.about (slots_of nodes.now.about pass.old.next_tree.items) slots
        (view pass.old).known pass.old.next_tree.items }
    requires last { pass.old.has_last ≡ true }
    requires marks { MarksChanges nodes.now.about pass.old.marks.items pass.old.last_tree.items
        pass.old.next_tree.items }
    ensures rest { AtRest R.part nodes.now pass.new }
    ensures keeps { KeepsLast pass.old pass.new }
    ensures vector { slots_of nodes.now.about pass.new.next_tree.items ≡ slots_of nodes.now.about
        pass.old.next_tree.items }
    ensures stands { IfOk result
        (λ done. StandsFrom nodes.now.about (slots_of nodes.now.about pass.old.next_tree.items) 2
        (view pass.new).known pass.new.next_tree.items) }
    ensures put { IfOk result
        (λ done. Building nodes.now.about (slots_of nodes.now.about pass.old.next_tree.items)
        (marks_from 2 pass.old.marks.items) (view pass.old) (view pass.new)) }
    ensures ticks { IfOk result
        (λ done. L.count steps.new ≡ raised (marks_from 2 pass.old.marks.items) (L.count steps.old)) }
    ensures full { OnErr result
        (Refused nodes.now.about (slots_of nodes.now.about pass.old.next_tree.items)
        (marks_from 2 pass.old.marks.items) (view pass.old) (view pass.new)) }
    ensures full_ticks { OnErr result
        (RaisedWithin (marks_from 2 pass.old.marks.items) (L.count steps.old) (L.count steps.new)) }
{
    take_inner(pass, slots);
    let mut end = slots;
    while let Some(p) = last_mark(pass, end) {
        let Ok(()) = put_position(nodes, pass, p, steps) else {
            return Err(NodesFull);
        };
        end = p;
    }
    Ok(())
}
