//! What a pass counts.
ghost use Rattle.std.specs.Prelude.{◌≡◌, ℕ, ◌+◌, ◌*◌, length, count_by};
ghost use Rattle.tdb_base.specs.History.{is_fresh};
ghost use Rattle.tree_shape.specs.Tree.{Has};
ghost use Rattle.pair_rule.specs.Numbers.{NoRepeats};
ghost use Rattle.pair_rule.specs.Rest.{AtRest, Whole, names_of_callers, view};

use crate::store::TreeStore;
use pair_nodes::RootNames;
use pair_rule::{Pass, RootPart};

impl<R: RootPart<W, F>, const W: u32, const F: u32> TreeStore<R, W, F> {
    /// How many nodes were put by the pass and by those that were joined into it. Those of a pass that stands
    /// for all passes are all that there are.
    pub fn nodes_made(&self, pass: &Pass<R, W, F>) -> u64
        requires rest { AtRest R.part self.now pass.now }
        ensures made { result ≡ length (view pass.now).made }
        ensures once { NoRepeats (view pass.now).made }
        ensures all { Whole (view pass.now) → (index pair : ℕ) → Has (index, pair) (view pass.now).known
            → Has index (view pass.now).made }
    {
        let _ = self;
        pass.nodes_count
    }

    /// How many vectors got their names by calls of the pass and of those that were joined into it. Those of
    /// a pass that stands for all passes are all that there are.
    pub fn names_made(&self, pass: &Pass<R, W, F>) -> u64
        requires rest { AtRest R.part self.now pass.now }
        ensures made { result ≡ names_of_callers (view pass.now).numbers (view pass.now).seen }
        ensures all { Whole (view pass.now) → result ≡ count_by (λ e. is_fresh e.act) (view pass.now).seen }
    {
        let _ = self;
        pass.names_count
    }
}

/// How many bytes the nodes and names take that the pass counts: 8 for each node, and for names what their
/// root table says.
pub fn stored_bytes_of<N: RootNames<W, F>, const W: u32, const F: u32>(
    names: &N,
    store: &TreeStore<N::Part, W, F>,
    pass: &Pass<N::Part, W, F>,
) -> u64
    requires names { N.store names.now ≡ store.now }
    requires rest { AtRest N.Part.part store.now pass.now }
    ensures { result ≡ 8 * length (view pass.now).made + N.Part.part.bytes store.now.about
        (names_of_callers (view pass.now).numbers (view pass.now).seen) }
{
    8 * store.nodes_made(pass) + names.name_bytes(store.names_made(pass))
}

/// How many bytes the vectors take whose names the pass counts, at 4 a slot.
pub fn raw_bytes_of<N: RootNames<W, F>, const W: u32, const F: u32>(
    _names: &N,
    store: &TreeStore<N::Part, W, F>,
    pass: &Pass<N::Part, W, F>,
) -> u64
    requires rest { AtRest N.Part.part store.now pass.now }
    ensures { result ≡ 4 * store.now.about.slots * names_of_callers (view pass.now).numbers
        (view pass.now).seen }
{
    let shape = &store.shape;
    4 * shape.slots() as u64 * store.names_made(pass)
}
