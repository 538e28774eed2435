//! A plain store: the calls on any store, with its roots in a plain table.
ghost use Rattle.std.specs.Prelude.{◌≡◌, ℕ, ◌+◌, ◌*◌, ◌<◌, None, length};
ghost use Rattle.tdb_base.specs.History.{Set, Clear, Look};
ghost use Rattle.pair_nodes.specs.Roots.{RootActed};
ghost use Rattle.pair_rule.specs.Rest.{AtRest, names_of_callers, view, last_vector, KnowsName};
ghost use Rattle.root_plain.specs.Plain.{plain};
ghost use Rattle.tree_store.specs.Vectors.{IsVector, puts_after};
ghost use Rattle.tree_store.specs.Store.{IsAnswered, AreTicked};
ghost use Rattle.tree_store.specs.Reading.{IsRead, IsLookedUp};

use crate::counts::{raw_bytes_of, stored_bytes_of};
use crate::insert::{insert_from_last, put_vector};
use crate::read::{find_vector, read_vector};
use crate::store::TreeStore;
use pair_rule::Pass;
use root_plain::{PlainRoot, PlainTable};
use tdb_base::{Ledger, Reply, Steps};

/// A store whose roots stand in a plain table: an identifier is a bucket's number, below `2^roots`.
pub type PlainStore<const W: u32, const F: u32> = TreeStore<PlainRoot<W, F>, W, F>;

/// A caller's token of a plain store.
pub type PlainPass<const W: u32, const F: u32> = Pass<PlainRoot<W, F>, W, F>;

impl<const W: u32, const F: u32> TreeStore<PlainRoot<W, F>, W, F> {
    /// Gives the vector a name, or finds its name. It puts all inner nodes of the vector's tree, from the
    /// last position down, and then the root.
    ///
    /// The vector fits the store: it has the store's slots, each below `2^W`. With `New` and `Seen` the
    /// answer is one call of the store's history, at one atomic step; the pass has then seen that history up
    /// to it, its last tree is this vector's, and a step was counted for each inner position and for the
    /// root. `FullNodes` comes only where on the path of some pair of the tree each bucket has another pair,
    /// `FullRoots` only where this is so of the root: then the vector never gets a name, no call is made, the
    /// last tree stays, and nodes that were put before stay. It waits for nobody and takes no memory.
    pub fn insert<L: Ledger>(
        &self,
        pass: &mut PlainPass<W, F>,
        vector: &[u32],
        steps: &mut Steps<L>,
    ) -> Reply
        requires rest { AtRest plain self.now pass.old }
        requires vector { IsVector self.now.about vector.now }
        ensures rest { AtRest plain self.now pass.new }
        ensures answered { IsAnswered plain self.now None vector.now result pass.old pass.new }
        ensures ticks { AreTicked (puts_after self.now.about None vector.now) result
            (L.count steps.old) (L.count steps.new) }
    {
        let nodes = &self.nodes;
        let shape = &self.shape;
        put_vector(
            &PlainTable::over(nodes),
            nodes,
            shape,
            pass,
            vector,
            false,
            steps,
        )
    }

    /// The same, but only those inner nodes are put below which the vector differs from that of the pass's
    /// last tree, if it has one. A step is counted for each of these and for the root.
    pub fn insert_from<L: Ledger>(
        &self,
        pass: &mut PlainPass<W, F>,
        vector: &[u32],
        steps: &mut Steps<L>,
    ) -> Reply
        requires rest { AtRest plain self.now pass.old }
        requires vector { IsVector self.now.about vector.now }
        ensures rest { AtRest plain self.now pass.new }
        ensures answered { IsAnswered plain self.now
            (last_vector pass.old) vector.now result pass.old pass.new }
        ensures ticks { AreTicked (puts_after self.now.about (last_vector pass.old) vector.now) result
            (L.count steps.old) (L.count steps.new) }
    {
        insert_from_last(&PlainTable::over(self.nodes()), self, pass, vector, steps)
    }

    /// Puts the vector with this identifier into `out`, which has the store's slots. The pass has seen that
    /// the identifier was given.
    ///
    /// It makes no call, puts no node and counts no step. It waits for nobody and takes no memory.
    pub fn read(&self, pass: &mut PlainPass<W, F>, id: u64, out: &mut [u32])
        requires rest { AtRest plain self.now pass.old }
        requires named { KnowsName pass.old id }
        requires out { length out.old ≡ self.now.about.slots }
        ensures rest { AtRest plain self.now pass.new }
        ensures read { IsRead plain id out.new pass.old pass.new }
    {
        read_vector(&PlainTable::over(self.nodes()), self, pass, id, out);
    }

    /// Puts the vector with this identifier into `out`, which has the store's slots, if it is some vector's.
    ///
    /// True is one call of the store's history, made at one atomic step, which found the vector in `out`.
    /// False makes no call, leaves `out`, and says that no vector has the identifier in the history that the
    /// pass has then seen. It waits for nobody and takes no memory.
    pub fn lookup(&self, pass: &mut PlainPass<W, F>, id: u64, out: &mut [u32]) -> bool
        requires rest { AtRest plain self.now pass.old }
        requires out { length out.old ≡ self.now.about.slots }
        ensures rest { AtRest plain self.now pass.new }
        ensures found { IsLookedUp plain id result out.old out.new pass.old pass.new }
    {
        find_vector(&PlainTable::over(self.nodes()), self, pass, id, out)
    }

    /// How many bytes the nodes and names take that the pass counts: 8 for each.
    pub fn stored_bytes(&self, pass: &PlainPass<W, F>) -> u64
        requires rest { AtRest plain self.now pass.now }
        ensures { result ≡ 8 * length (view pass.now).made + 8 * names_of_callers (view pass.now).numbers
            (view pass.now).seen }
    {
        stored_bytes_of(&PlainTable::over(self.nodes()), self, pass)
    }

    /// How many bytes the vectors take whose names the pass counts, at 4 a slot.
    pub fn raw_bytes(&self, pass: &PlainPass<W, F>) -> u64
        requires rest { AtRest plain self.now pass.now }
        ensures { result ≡ 4 * self.now.about.slots * names_of_callers (view pass.now).numbers
            (view pass.now).seen }
    {
        raw_bytes_of(&PlainTable::over(self.nodes()), self, pass)
    }

    /// Sets flag `b`, which is below `F`, of the vector with this identifier, which is one that the pass has
    /// seen named: whether it was clear. It is one call of the store's history, made at one atomic step; the
    /// last tree stays. It waits for nobody and takes no memory.
    pub fn set_flag(&self, pass: &mut PlainPass<W, F>, id: u64, b: u32) -> bool
        requires rest { AtRest plain self.now pass.old }
        requires named { KnowsName pass.old id }
        requires bit { b < self.now.about.flags }
        ensures { RootActed plain self.now (Set b result) id pass.old pass.new }
    {
        root_plain::set_flag(self.nodes(), pass, id, b)
    }

    /// Clears the flag, in the same way: whether it was set.
    pub fn clear_flag(&self, pass: &mut PlainPass<W, F>, id: u64, b: u32) -> bool
        requires rest { AtRest plain self.now pass.old }
        requires named { KnowsName pass.old id }
        requires bit { b < self.now.about.flags }
        ensures { RootActed plain self.now (Clear b result) id pass.old pass.new }
    {
        root_plain::clear_flag(self.nodes(), pass, id, b)
    }

    /// The flags of the vector with this identifier, which is one that the pass has seen named: bit `b` of
    /// the number is flag `b`. It is one call of the store's history, made at one atomic step.
    pub fn flags(&self, pass: &mut PlainPass<W, F>, id: u64) -> u64
        requires rest { AtRest plain self.now pass.old }
        requires named { KnowsName pass.old id }
        ensures { RootActed plain self.now (Look result) id pass.old pass.new }
    {
        root_plain::flags(self.nodes(), pass, id)
    }
}
