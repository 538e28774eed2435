//! A compact store: the calls on any store, with its roots in cells of regions.
ghost use Rattle.std.specs.Prelude.{◌≡◌, ℕ, ◌+◌, ◌*◌, ◌<◌, None, length};
ghost use Rattle.tdb_base.specs.History.{Set, Clear, Look};
ghost use Rattle.pair_nodes.specs.Roots.{RootActed};
ghost use Rattle.pair_rule.specs.Rest.{AtRest, names_of_callers, view, last_vector, KnowsName};
ghost use Rattle.region_root.specs.Compact.{compact};
ghost use Rattle.tree_store.specs.Vectors.{IsVector, puts_after};
ghost use Rattle.tree_store.specs.Store.{IsAnswered, AreTicked};
ghost use Rattle.tree_store.specs.Reading.{IsRead, IsLookedUp};

use crate::counts::{raw_bytes_of, stored_bytes_of};
use crate::insert::{insert_from_last, put_vector};
use crate::read::{find_vector, read_vector};
use crate::store::TreeStore;
use pair_rule::Pass;
use region_root::{CompactRoot, CompactTable};
use std::sync::Wait;
use tdb_base::{Ledger, Reply, Steps};

/// A store whose roots stand in cells of regions: an identifier is the root itself, as one number below
/// `2^(2W)`.
pub type CompactStore<const W: u32, const F: u32> = TreeStore<CompactRoot<W, F>, W, F>;

/// A caller's token of a compact store.
pub type CompactPass<const W: u32, const F: u32> = Pass<CompactRoot<W, F>, W, F>;

impl<const W: u32, const F: u32> TreeStore<CompactRoot<W, F>, W, F> {
    /// As `insert` of a plain store, but it looks for the root once without a lock. Where that look found
    /// that the root is absent, or nothing since another call held the region, the root is put under the lock
    /// of its region, for which it waits. `FullRoots` comes only where each of the region's `2^region` cells
    /// has another root.
    pub fn insert<H: Wait, L: Ledger>(
        &self,
        rt: &H,
        pass: &mut CompactPass<W, F>,
        vector: &[u32],
        steps: &mut Steps<L>,
    ) -> Reply
        requires rest { AtRest (compact W F) self.now pass.old }
        requires vector { IsVector self.now.about vector.now }
        ensures rest { AtRest (compact W F) self.now pass.new }
        ensures answered { IsAnswered (compact W F) self.now None vector.now result pass.old pass.new }
        ensures ticks { AreTicked (puts_after self.now.about None vector.now) result
            (L.count steps.old) (L.count steps.new) }
    {
        let nodes = &self.nodes;
        let shape = &self.shape;
        put_vector(
            &CompactTable::over(rt, nodes),
            nodes,
            shape,
            pass,
            vector,
            false,
            steps,
        )
    }

    /// The same, but only those inner nodes are put below which the vector differs from that of the pass's
    /// last tree, if it has one.
    pub fn insert_from<H: Wait, L: Ledger>(
        &self,
        rt: &H,
        pass: &mut CompactPass<W, F>,
        vector: &[u32],
        steps: &mut Steps<L>,
    ) -> Reply
        requires rest { AtRest (compact W F) self.now pass.old }
        requires vector { IsVector self.now.about vector.now }
        ensures rest { AtRest (compact W F) self.now pass.new }
        ensures answered { IsAnswered (compact W F) self.now
            (last_vector pass.old) vector.now result pass.old pass.new }
        ensures ticks { AreTicked (puts_after self.now.about (last_vector pass.old) vector.now) result
            (L.count steps.old) (L.count steps.new) }
    {
        insert_from_last(
            &CompactTable::over(rt, self.nodes()),
            self,
            pass,
            vector,
            steps,
        )
    }

    /// As `read` of a plain store. It waits for nobody: the root's parts are the identifier's own.
    pub fn read(&self, pass: &mut CompactPass<W, F>, id: u64, out: &mut [u32])
        requires rest { AtRest (compact W F) self.now pass.old }
        requires named { KnowsName pass.old id }
        requires out { length out.old ≡ self.now.about.slots }
        ensures rest { AtRest (compact W F) self.now pass.new }
        ensures read { IsRead (compact W F) id out.new pass.old pass.new }
    {
        read_vector(&CompactTable::over(&(), self.nodes()), self, pass, id, out);
    }

    /// As `lookup` of a plain store, but it waits for the lock of the root's region, which it takes once if
    /// the number can be a root.
    pub fn lookup<H: Wait>(
        &self,
        rt: &H,
        pass: &mut CompactPass<W, F>,
        id: u64,
        out: &mut [u32],
    ) -> bool
        requires rest { AtRest (compact W F) self.now pass.old }
        requires out { length out.old ≡ self.now.about.slots }
        ensures rest { AtRest (compact W F) self.now pass.new }
        ensures found { IsLookedUp (compact W F) id result out.old out.new pass.old pass.new }
    {
        find_vector(&CompactTable::over(rt, self.nodes()), self, pass, id, out)
    }

    /// How many bytes the nodes and names take that the pass counts: 8 for each node, and for the names their
    /// cells' bits, rounded up once.
    pub fn stored_bytes(&self, pass: &CompactPass<W, F>) -> u64
        requires rest { AtRest (compact W F) self.now pass.now }
        ensures { result ≡ 8 * length (view pass.now).made + (compact W F).bytes self.now.about
            (names_of_callers (view pass.now).numbers (view pass.now).seen) }
    {
        stored_bytes_of(&CompactTable::over(&(), self.nodes()), self, pass)
    }

    /// How many bytes the vectors take whose names the pass counts, at 4 a slot.
    pub fn raw_bytes(&self, pass: &CompactPass<W, F>) -> u64
        requires rest { AtRest (compact W F) self.now pass.now }
        ensures { result ≡ 4 * self.now.about.slots * names_of_callers (view pass.now).numbers
            (view pass.now).seen }
    {
        raw_bytes_of(&CompactTable::over(&(), self.nodes()), self, pass)
    }

    /// As `set_flag` of a plain store, but it waits for the lock of the root's region, which it takes once.
    pub fn set_flag<H: Wait>(&self, rt: &H, pass: &mut CompactPass<W, F>, id: u64, b: u32) -> bool
        requires rest { AtRest (compact W F) self.now pass.old }
        requires named { KnowsName pass.old id }
        requires bit { b < self.now.about.flags }
        ensures { RootActed (compact W F) self.now (Set b result) id pass.old pass.new }
    {
        region_root::set_flag(rt, self.nodes(), pass, id, b)
    }

    /// As `clear_flag` of a plain store, in the same way.
    pub fn clear_flag<H: Wait>(&self, rt: &H, pass: &mut CompactPass<W, F>, id: u64, b: u32) -> bool
        requires rest { AtRest (compact W F) self.now pass.old }
        requires named { KnowsName pass.old id }
        requires bit { b < self.now.about.flags }
        ensures { RootActed (compact W F) self.now (Clear b result) id pass.old pass.new }
    {
        region_root::clear_flag(rt, self.nodes(), pass, id, b)
    }

    /// As `flags` of a plain store, in the same way.
    pub fn flags<H: Wait>(&self, rt: &H, pass: &mut CompactPass<W, F>, id: u64) -> u64
        requires rest { AtRest (compact W F) self.now pass.old }
        requires named { KnowsName pass.old id }
        ensures { RootActed (compact W F) self.now (Look result) id pass.old pass.new }
    {
        region_root::flags(rt, self.nodes(), pass, id)
    }
}
