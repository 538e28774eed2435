//! A store that workers share.
ghost use Rattle.pair_rule.specs.Rest.{AtRest, KnowsName};
ghost use Rattle.pair_rule.specs.Splits.{IsJoined};
ghost use Rattle.region_root.specs.Compact.{compact};
ghost use Rattle.root_plain.specs.Plain.{plain};

use pair_rule::PassOf;
use region_root::Regions;
use root_plain::Roots;
use std::alloc::Global;
use std::sync::Wait;
use tdb_base::{Kept, NoMemory, Reply, Steps};
use tree_store::{CompactStore, PlainStore};

/// A store that workers share, each with a pass of its own.
pub(crate) trait Shared: Sync {
    ghost use Rattle.std.specs.Prelude.{◌≡◌, ℕ, ◌<◌, Some, IfOk, OnErr};
    ghost use Rattle.tdb_base.specs.History.{Vector, Set, name_of};
    ghost use Rattle.pair_nodes.specs.Roots.{Refusals, RootActed};
    ghost use Rattle.pair_rule.specs.Part.{Part, Store};
    ghost use Rattle.pair_rule.specs.Rest.{AtRest, view, last_vector};
    ghost use Rattle.pair_rule.specs.Splits.{IsSplit, IsJoined};
    ghost use Rattle.tree_store.specs.Store.{IsAnswered};
    ghost use Rattle.tree_store.specs.Vectors.{IsVector};

    /// What a pass of the store knows of its roots.
    type View: Send;

    // What the store's root table gives to contracts, and which store it is.
    ghost part: { Part Self.View };

    ghost store: { Self → Store };

    /// A pass of its own for one more worker.
    fn split(
        &self,
        alloc: Global,
        pass: &mut PassOf<Self::View>,
    ) -> Result<PassOf<Self::View>, NoMemory>
        requires { AtRest part (store self.now) pass.old }
        ensures split { IfOk result (IsSplit part (store self.now) pass.old pass.new) }
        ensures refused { OnErr result (pass.new ≡ pass.old) };

    /// Joins a pass into the other one.
    fn join(&self, pass: &mut PassOf<Self::View>, other: PassOf<Self::View>)
        requires pass { AtRest part (store self.now) pass.old }
        requires other { AtRest part (store self.now) other }
        ensures { IsJoined part (store self.now) pass.old other pass.new };

    /// Inserts a line, from the pass's last tree.
    fn insert_from(
        &self,
        pass: &mut PassOf<Self::View>,
        line: &[u32],
        steps: &mut Steps<Kept>,
    ) -> Reply
        requires rest { AtRest part (store self.now) pass.old }
        requires vector { IsVector (store self.now).about line.now }
        ensures rest { AtRest part (store self.now) pass.new }
        ensures answered { IsAnswered part (store self.now) (last_vector pass.old) line.now result
            pass.old pass.new };

    /// Sets a flag of the vector with this identifier: whether it was clear.
    fn set_flag(&self, pass: &mut PassOf<Self::View>, id: u64, flag: u32) -> bool
        requires rest { AtRest part (store self.now) pass.old }
        requires named { KnowsName pass.old id }
        requires bit { flag < (store self.now).about.flags }
        ensures { RootActed part (store self.now) (Set flag result) id pass.old pass.new };

    // A line that is refused stays refused.
    ghost refusals: { Refusals part };
}

/// A plain store.
#[derive(Drop)]
pub(crate) struct Plain<'a, const W: u32, const F: u32> {
    pub(crate) store: &'a PlainStore<W, F>,
}

impl<'a, const W: u32, const F: u32> Shared for Plain<'a, W, F> {
    ghost use Rattle.root_plain.specs.Plain.{plain};
    ghost use Rattle.root_plain.specs.Refused.{plain_refusals};

    type View = Roots;

    ghost part = { plain };

    ghost store = { λ t. t.store.now };

    fn split(&self, alloc: Global, pass: &mut PassOf<Roots>) -> Result<PassOf<Roots>, NoMemory> {
        self.store.split(alloc, pass)
    }

    fn join(&self, pass: &mut PassOf<Roots>, other: PassOf<Roots>)
        requires pass { AtRest plain self.now.store.now pass.old }
        requires other { AtRest plain self.now.store.now other }
        ensures { IsJoined plain self.now.store.now pass.old other pass.new }
    {
        self.store.join(pass, other);
    }

    fn insert_from(
        &self,
        pass: &mut PassOf<Roots>,
        line: &[u32],
        steps: &mut Steps<Kept>,
    ) -> Reply {
        self.store.insert_from(pass, line, steps)
    }

    fn set_flag(&self, pass: &mut PassOf<Roots>, id: u64, flag: u32) -> bool {
        self.store.set_flag(pass, id, flag)
    }

    ghost refusals = { plain_refusals };
}

/// A compact store. By `H` its calls may wait for the lock of a region.
#[derive(Drop)]
pub(crate) struct Compact<'a, H, const W: u32, const F: u32> {
    pub(crate) rt: &'a H,
    pub(crate) store: &'a CompactStore<W, F>,
}

impl<'a, H: Wait + Sync, const W: u32, const F: u32> Shared for Compact<'a, H, W, F> {
    ghost use Rattle.region_root.specs.Compact.{compact};
    ghost use Rattle.region_root.specs.Refused.{compact_refusals};

    type View = Regions;

    ghost part = { compact W F };

    ghost store = { λ t. t.store.now };

    fn split(
        &self,
        alloc: Global,
        pass: &mut PassOf<Regions>,
    ) -> Result<PassOf<Regions>, NoMemory> {
        self.store.split(alloc, pass)
    }

    fn join(&self, pass: &mut PassOf<Regions>, other: PassOf<Regions>)
        requires pass { AtRest (compact W F) self.now.store.now pass.old }
        requires other { AtRest (compact W F) self.now.store.now other }
        ensures { IsJoined (compact W F) self.now.store.now pass.old other pass.new }
    {
        self.store.join(pass, other);
    }

    fn insert_from(
        &self,
        pass: &mut PassOf<Regions>,
        line: &[u32],
        steps: &mut Steps<Kept>,
    ) -> Reply {
        self.store.insert_from(self.rt, pass, line, steps)
    }

    fn set_flag(&self, pass: &mut PassOf<Regions>, id: u64, flag: u32) -> bool {
        self.store.set_flag(self.rt, pass, id, flag)
    }

    ghost refusals = { compact_refusals W F };
}
