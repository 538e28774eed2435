//! Find or put a node; read one back.
ghost use Rattle.std.specs.Prelude.{◌≡◌, ◌<◌, ◌^◌, ℕ, IfOk, OnErr, option_map};
ghost use Rattle.tree_shape.specs.Tree.{Has};
ghost use Rattle.packed_word.specs.Word.{pair_of};
ghost use Rattle.tdb_base.specs.Fakes.{counted};
ghost use Rattle.pair_rule.specs.Part.{IsTable};
ghost use Rattle.pair_rule.specs.Paths.{node_buckets, Blocked};
ghost use Rattle.pair_rule.specs.Rest.{AtRest, view};
ghost use Rattle.pair_nodes.specs.Probe.{Probed, PutAt, KeepsTree};

use crate::probe::probe;
use crate::steps::look;
use packed_word::Layout;
use pair_rule::{NodesFull, PairTable, Pass, RootPart};
use probe_path::Path;
use std::marker::Model;
use tdb_base::{Ledger, Steps};

/// The nodes of a store: pairs of parts below `2^W`, each once, named by its place in the table, its index.
///
/// Contracts see it as the store, as they do the table.
pub struct Nodes<R: RootPart<W, F>, const W: u32, const F: u32> {
    table: PairTable<R, W, F>,
}

impl<R: RootPart<W, F>, const W: u32, const F: u32> Model for Nodes<R, W, F> {
    ghost use Rattle.pair_rule.specs.Part.{Store, IsTable};

    ghost Value = { Store };

    ghost view = { λ n. n.table };

    ghost invariant = { λ n. IsTable W F R.part n.table };
}

// The present bit.
const PRESENT: u64 = 1 << 63;

impl<R: RootPart<W, F>, const W: u32, const F: u32> Nodes<R, W, F> {
    /// The nodes of this table.
    pub fn over(table: PairTable<R, W, F>) -> Nodes<R, W, F>
        ensures { result ≡ table }
    {
        // What the table is about is told by its accessors.
        let _ = table.slots();
        Nodes { table }
    }

    /// The table, of which passes are split and in which they are joined.
    pub fn table(&self) -> &PairTable<R, W, F>
        ensures table { result.now ≡ self.now }
        ensures store { IsTable W F R.part self.now }
    {
        &self.table
    }

    /// The index of a pair of parts below `2^W`, for good: that of the bucket of its path that has it, or
    /// which now gets it.
    ///
    /// Ticks once and begins one probe. Neither waits nor takes memory. `NodesFull`: each bucket of the
    /// pair's whole path has another pair; names and calls are as before.
    pub fn find_or_put<L: Ledger>(
        &self,
        pass: &mut Pass<R, W, F>,
        left: u64,
        right: u64,
        steps: &mut Steps<L>,
    ) -> Result<u64, NodesFull>
        requires rest { AtRest R.part self.now pass.old }
        requires left { left < 2 ^ self.now.about.width }
        requires right { right < 2 ^ self.now.about.width }
        ensures rest { AtRest R.part self.now pass.new }
        ensures tree { KeepsTree pass.old pass.new }
        ensures tick { L.count steps.new ≡ option_map counted (L.count steps.old) }
        ensures known { IfOk result
            (λ index. Has (index, pair_of self.now.about.width left right) (view pass.new).known) }
        ensures put { IfOk result (λ index. PutAt index 1 (view pass.old) (view pass.new)) }
        ensures full { OnErr result
            (Blocked (node_buckets self.now.about) (view pass.new).known
            (pair_of self.now.about.width left right)) }
        ensures full_puts_none { OnErr result (Probed 1 (view pass.old) (view pass.new)) }
    {
        steps.tick();
        let table = &self.table;
        let word = Layout::<W, F>::pack(left, right);
        let sizes = table.sizes();
        let path = Path::<W>::new(word - PRESENT, sizes.nodes, sizes.probe);
        match probe(table, pass, &path, word) {
            Some(index) => Ok(index),
            None => Err(NodesFull),
        }
    }

    /// The pair of an index that the pass knows. It begins no probe, and neither waits nor takes memory.
    pub fn pair_at(&self, pass: &mut Pass<R, W, F>, index: u64) -> (u64, u64)
        requires rest { AtRest R.part self.now pass.old }
        requires known { (pair : ℕ) × Has (index, pair) (view pass.old).known }
        ensures rest { AtRest R.part self.now pass.new }
        ensures tree { KeepsTree pass.old pass.new }
        ensures pair { Has (index, pair_of self.now.about.width result.0 result.1) (view pass.old).known }
        ensures parts { (result.0 < 2 ^ self.now.about.width) × (result.1 < 2 ^ self.now.about.width) }
        ensures puts_none { Probed 0 (view pass.old) (view pass.new) }
    {
        let table = &self.table;
        let word = look(table, pass, index);
        (Layout::<W, F>::left(word), Layout::<W, F>::right(word))
    }
}

impl<R: RootPart<W, F>, const W: u32, const F: u32> Drop for Nodes<R, W, F> {
    fn drop(self) {
        let Self { table: _ } = self;
    }
}
