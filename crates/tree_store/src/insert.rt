//! A vector is inserted into a store: its slots, its inner nodes, and then its root.
ghost use Rattle.std.specs.Prelude.{◌≡◌, ◌*◌, ◌<◌, ◌≤◌, true, None, drop, length, option_map};
ghost use Rattle.tdb_base.specs.Fakes.{counted};
ghost use Rattle.pair_rule.specs.Rest.{AtRest, view, last_vector};
ghost use Rattle.tree_store.specs.Vectors.{IsVector, slots_of, StandsFrom, compared, puts_after};
ghost use Rattle.tree_store.specs.Store.{naming, IsAnswered, AreTicked, RootIsAnswered};

use crate::store::TreeStore;
use crate::tree::put_nodes;
use pair_nodes::{Nodes, RootTable, look_or_put};
use pair_rule::{Pass, PassOf, RootsFull};
use std::mem;
use tdb_base::{Ledger, Reply, Steps};
use tree_shape::Shape;

// Copies the vector into the slots of the tree that is being put.
fn fill_slots<T>(pass: &mut PassOf<T>, slots: usize, vector: &[u32])
    requires tree { length pass.old.next_tree.items ≡ 2 * slots }
    requires vector { length vector.now ≡ slots }
    requires few { slots ≤ 1024 }
    ensures tree { pass.new ≡ record pass.old { next_tree = pass.new.next_tree } }
    ensures length { length pass.new.next_tree.items ≡ 2 * slots }
    ensures slots { drop slots pass.new.next_tree.items ≡ vector.now }
{
    pass.next_tree[slots..].copy_from_slice(vector);
}

// The tree that was put is the last one from now on.
fn keep_tree<T>(pass: &mut PassOf<T>)
    ensures { pass.new ≡ record pass.old {
      last_tree = pass.old.next_tree;
      next_tree = pass.old.last_tree;
      has_last = true;
    } }
{
    mem::swap(&mut pass.last_tree, &mut pass.next_tree);
    pass.has_last = true;
}

// What a call is answered that named its vector.
fn reply(fresh: bool, id: u64) -> Reply
    ensures { result ≡ naming fresh id }
{
    if fresh {
        Reply::New(id)
    } else {
        Reply::Seen(id)
    }
}

// Puts the root of the vector whose inner nodes all stand in the tree that was put, which becomes the last
// one if there was a place.
fn put_tree_root<D: RootTable<W, F>, L: Ledger, const W: u32, const F: u32>(
    roots: &D,
    pass: &mut Pass<D::Part, W, F>,
    steps: &mut Steps<L>,
) -> Reply
    requires rest { AtRest D.Part.part (D.store roots.now) pass.old }
    requires vector { IsVector (D.store roots.now).about
        (slots_of (D.store roots.now).about pass.old.next_tree.items) }
    requires stands { let about = (D.store roots.now).about in
        StandsFrom about (slots_of about pass.old.next_tree.items) 2
        (view pass.old).known pass.old.next_tree.items }
    ensures rest { AtRest D.Part.part (D.store roots.now) pass.new }
    ensures answered { RootIsAnswered D.Part.part (D.store roots.now)
        (slots_of (D.store roots.now).about pass.old.next_tree.items) result pass.old pass.new }
    ensures tick { L.count steps.new ≡ option_map counted (L.count steps.old) }
{
    let left = pass.next_tree[2] as u64;
    let right = pass.next_tree[3] as u64;
    match look_or_put(roots, pass, left, right, steps) {
        Ok((id, fresh)) => {
            keep_tree(pass);
            reply(fresh, id)
        }
        Err(RootsFull) => Reply::FullRoots,
    }
}

/// Inserts the vector: its slots, its inner nodes (all, or only those that the last tree doesn't have), and
/// its root.
pub(crate) fn put_vector<D: RootTable<W, F>, L: Ledger, const W: u32, const F: u32>(
    roots: &D,
    nodes: &Nodes<D::Part, W, F>,
    shape: &Shape,
    pass: &mut Pass<D::Part, W, F>,
    vector: &[u32],
    from_last: bool,
    steps: &mut Steps<L>,
) -> Reply
    requires roots { D.store roots.now ≡ nodes.now }
    requires shape { shape.now ≡ nodes.now.about.slots }
    requires rest { AtRest D.Part.part nodes.now pass.old }
    requires vector { IsVector nodes.now.about vector.now }
    ensures rest { AtRest D.Part.part nodes.now pass.new }
    ensures answered { IsAnswered D.Part.part nodes.now
        (compared from_last pass.old) vector.now result pass.old pass.new }
    ensures ticks { AreTicked (puts_after nodes.now.about (compared from_last pass.old) vector.now) result
        (L.count steps.old) (L.count steps.new) }
{
    fill_slots(pass, shape.slots(), vector);
    let Ok(()) = put_nodes(nodes, shape, pass, from_last, steps) else {
        return Reply::FullNodes;
    };
    put_tree_root(roots, pass, steps)
}

/// Gives the vector a name, or finds its name, through a store's root table. Only those inner nodes are put
/// below which the vector differs from that of the pass's last tree, if it has one: `TreeStore::insert_from`
/// over any root table.
pub fn insert_from_last<D: RootTable<W, F>, L: Ledger, const W: u32, const F: u32>(
    roots: &D,
    store: &TreeStore<D::Part, W, F>,
    pass: &mut Pass<D::Part, W, F>,
    vector: &[u32],
    steps: &mut Steps<L>,
) -> Reply
    requires roots { D.store roots.now ≡ store.now }
    requires rest { AtRest D.Part.part store.now pass.old }
    requires vector { IsVector store.now.about vector.now }
    ensures rest { AtRest D.Part.part store.now pass.new }
    ensures answered { IsAnswered D.Part.part store.now
        (last_vector pass.old) vector.now result pass.old pass.new }
    ensures ticks { AreTicked (puts_after store.now.about (last_vector pass.old) vector.now) result
        (L.count steps.old) (L.count steps.new) }
{
    let nodes = &store.nodes;
    let shape = &store.shape;
    put_vector(roots, nodes, shape, pass, vector, true, steps)
}
