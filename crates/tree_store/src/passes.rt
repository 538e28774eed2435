//! How the passes of a store are split, joined, and told of one another.
ghost use Rattle.std.specs.Prelude.{◌≡◌, All, IfOk, OnErr, length, map};
ghost use Rattle.pair_rule.specs.Callers.{AreSplitCallers, AreJoined, Unused};
ghost use Rattle.pair_rule.specs.Rest.{AtRest};
ghost use Rattle.pair_rule.specs.Splits.{IsSplit, IsJoined, IsTold};

use crate::store::TreeStore;
use pair_rule::{Caller, Pass, RootPart};
use std::alloc::Global;
use tdb_base::NoMemory;

impl<R: RootPart<W, F>, const W: u32, const F: u32> TreeStore<R, W, F> {
    /// A further pass, which has seen what `pass` had, and has no call of its own, no node, no probe and no
    /// tree.
    ///
    /// Its number was none of `pass`'s before, nor of those that had been split from one of these, and nobody
    /// had called under it. After `NoMemory` the pass is unchanged.
    pub fn split(&self, alloc: Global, pass: &mut Pass<R, W, F>) -> Result<Pass<R, W, F>, NoMemory>
        requires { AtRest R.part self.now pass.old }
        ensures split { IfOk result (IsSplit R.part self.now pass.old pass.new) }
        ensures refused { OnErr result (pass.new ≡ pass.old) }
    {
        let nodes = &self.nodes;
        nodes.table().split(alloc, pass)
    }

    /// `pass` takes in `other`: it has then seen the longer of both histories, of which each is a front; it
    /// keeps the calls of both under their numbers, and has the nodes, the root pairs, the nodes made and the
    /// probes of both. Its last tree stays.
    pub fn join(&self, pass: &mut Pass<R, W, F>, other: Pass<R, W, F>)
        requires pass { AtRest R.part self.now pass.old }
        requires other { AtRest R.part self.now other }
        ensures { IsJoined R.part self.now pass.old other pass.new }
    {
        let nodes = &self.nodes;
        nodes.table().join(pass, other);
    }

    /// So many callers, say a thread's each, with a pass of their own that is split from this one, and this to
    /// keep.
    ///
    /// After `NoMemory` the passes that were split are joined back.
    pub fn split_callers<A: Copy>(
        &self,
        alloc: Global,
        pass: &mut Pass<R, W, F>,
        count: u64,
        kept: A,
    ) -> Result<Vec<Caller<R::View, A>>, NoMemory>
        requires { AtRest R.part self.now pass.old }
        ensures split { IfOk result (λ callers.
            AreSplitCallers R.part self.now kept pass.old pass.new callers.items) }
        ensures all { IfOk result (λ callers. length callers.items ≡ count) }
        ensures callers { IfOk result (λ callers. All (λ c. AtRest R.part self.now c.pass) callers.items) }
        ensures refused { OnErr result (Unused pass.old pass.new) }
        ensures rest { AtRest R.part self.now pass.new }
    {
        let nodes = &self.nodes;
        nodes.table().split_callers(alloc, pass, count, kept)
    }

    /// The passes of all callers are joined into this one, and what they kept is dropped.
    pub fn join_callers<A: Drop>(&self, pass: &mut Pass<R, W, F>, callers: Vec<Caller<R::View, A>>)
        requires pass { AtRest R.part self.now pass.old }
        requires callers { All (λ c. AtRest R.part self.now c.pass) callers.items }
        ensures { AreJoined R.part self.now pass.old pass.new (map (λ c. c.pass) callers.items) }
    {
        let nodes = &self.nodes;
        nodes.table().join_callers(pass, callers);
    }

    /// `hearer` has then seen at least what `teller` had: a seat is split from the teller's and joined into
    /// the hearer's, without buffers.
    pub fn meet(&self, teller: &mut Pass<R, W, F>, hearer: &mut Pass<R, W, F>)
        requires teller { AtRest R.part self.now teller.old }
        requires hearer { AtRest R.part self.now hearer.old }
        ensures { IsTold R.part self.now teller.old hearer.old teller.new hearer.new }
    {
        let nodes = &self.nodes;
        nodes.table().meet(teller, hearer);
    }
}
