//! Compact roots as a store uses them: a look takes no lock, and what else asks for a root waits for the lock
//! of its region.
ghost use Rattle.std.specs.Prelude.{◌≡◌, ℕ, ◌*◌, ◌^◌, ◌<◌, ◌≤◌, IfOk, OnErr, MatchOption, Some};
ghost use Rattle.std.specs.Prelude.{option_map, is_some, false};
ghost use Rattle.packed_word.specs.Word.{pair_of};
ghost use Rattle.tdb_base.specs.Fakes.{counted};
ghost use Rattle.pair_nodes.specs.Roots.{RootPut, RootRefused, RootUnseen, RootFound, RootUnknown, RootRead};
ghost use Rattle.pair_nodes.specs.Roots.{IsUnlooked, ticked_if};
ghost use Rattle.pair_rule.specs.Rest.{AtRest, view, KnowsName};
ghost use Rattle.pair_rule.specs.Calls.{IsSomeRoot};
ghost use Rattle.region_root.specs.Compact.{compact};

use crate::find::{find_id, root_pair};
use crate::peek::{Peek, peek_root};
use crate::put::put_root;
use crate::root::CompactRoot;
use crate::words::root_bytes;
use pair_nodes::{Nodes, RootNames, RootTable};
use pair_rule::{Pass, RootPart, RootsFull};
use std::sync::Wait;
use tdb_base::{Ledger, Steps};

/// The root table of compact mode, over a store's nodes. By `H` a call may wait for the lock of a region.
#[derive(Drop)]
pub struct CompactTable<'a, H, const W: u32, const F: u32> {
    rt: &'a H,
    nodes: &'a Nodes<CompactRoot<W, F>, W, F>,
}

impl<'a, H, const W: u32, const F: u32> CompactTable<'a, H, W, F> {
    /// The roots of the store with these nodes.
    pub fn over(rt: &'a H, nodes: &'a Nodes<CompactRoot<W, F>, W, F>) -> Self
        ensures { result.nodes.now ≡ nodes.now }
    {
        CompactTable { rt, nodes }
    }
}

impl<'a, H, const W: u32, const F: u32> RootNames<W, F> for CompactTable<'a, H, W, F> {
    ghost use Rattle.region_root.specs.Refused.{few_compact_names};

    type Part = CompactRoot<W, F>;

    ghost store = { λ t. t.nodes.now };

    fn read(&self, pass: &mut Pass<CompactRoot<W, F>, W, F>, id: u64) -> (u64, u64)
        requires rest { AtRest (compact W F) self.now.nodes.now pass.old }
        requires named { KnowsName pass.old id }
        ensures read { RootRead (compact W F) self.now.nodes.now id result pass.old pass.new }
        ensures no_look { IsUnlooked (compact W F) (view pass.old).root (view pass.new).root }
    {
        root_pair(self.nodes, pass, id)
    }

    fn name_bytes(&self, names: u64) -> u64
        requires { names ≤ 16777216 }
        ensures all { result ≡ (compact W F).bytes self.now.nodes.now.about names }
        ensures most { result ≤ 8 * names }
    {
        root_bytes(self.nodes.table(), names)
    }

    ghost few_names = { few_compact_names W F };
}

impl<'a, H: Wait, const W: u32, const F: u32> RootTable<W, F> for CompactTable<'a, H, W, F> {
    ghost use Rattle.region_root.specs.Refused.{compact_refusals};

    type Part = CompactRoot<W, F>;

    ghost store = { λ t. t.nodes.now };

    fn look<L: Ledger>(
        &self,
        pass: &mut Pass<CompactRoot<W, F>, W, F>,
        left: u64,
        right: u64,
        steps: &mut Steps<L>,
    ) -> Option<u64>
        requires rest { AtRest (compact W F) self.now.nodes.now pass.old }
        requires left { left < 2 ^ self.now.nodes.now.about.width }
        requires right { right < 2 ^ self.now.nodes.now.about.width }
        requires stands { IsSomeRoot self.now.nodes.now.about (view pass.old).known
            (pair_of self.now.nodes.now.about.width left right) }
        ensures seen { MatchOption result (RootUnseen (compact W F) self.now.nodes.now pass.old pass.new)
            (λ id. RootPut (compact W F) self.now.nodes.now
            (pair_of self.now.nodes.now.about.width left right) id false pass.old pass.new) }
        ensures look { (compact W F).after_look self.now.nodes.now.about
            (pair_of self.now.nodes.now.about.width left right) (is_some result)
            (view pass.old).root (view pass.new).root }
        ensures tick { L.count steps.new ≡ ticked_if (is_some result) (L.count steps.old) }
    {
        match peek_root(self.nodes, pass, left, right, steps) {
            Peek::Seen(id) => Some(id),
            Peek::Absent => None,
            Peek::Changed => None,
        }
    }

    fn put<L: Ledger>(
        &self,
        pass: &mut Pass<CompactRoot<W, F>, W, F>,
        left: u64,
        right: u64,
        steps: &mut Steps<L>,
    ) -> Result<(u64, bool), RootsFull>
        requires rest { AtRest (compact W F) self.now.nodes.now pass.old }
        requires left { left < 2 ^ self.now.nodes.now.about.width }
        requires right { right < 2 ^ self.now.nodes.now.about.width }
        requires stands { IsSomeRoot self.now.nodes.now.about (view pass.old).known
            (pair_of self.now.nodes.now.about.width left right) }
        ensures put { IfOk result (λ a. RootPut (compact W F) self.now.nodes.now
            (pair_of self.now.nodes.now.about.width left right) a.0 a.1 pass.old pass.new) }
        ensures refused { OnErr result (RootRefused (compact W F) self.now.nodes.now
            (pair_of self.now.nodes.now.about.width left right) pass.old pass.new) }
        ensures call { (compact W F).after_call (view pass.old).root (view pass.new).root }
        ensures tick { L.count steps.new ≡ option_map counted (L.count steps.old) }
    {
        put_root(self.rt, self.nodes, pass, left, right, steps)
    }

    fn find(&self, pass: &mut Pass<CompactRoot<W, F>, W, F>, id: u64) -> Option<(u64, u64)>
        requires { AtRest (compact W F) self.now.nodes.now pass.old }
        ensures found { MatchOption result (RootUnknown (compact W F) self.now.nodes.now id pass.old pass.new)
            (λ parts. RootFound (compact W F) self.now.nodes.now id parts pass.old pass.new) }
        ensures no_look { IsUnlooked (compact W F) (view pass.old).root (view pass.new).root }
    {
        find_id(self.rt, self.nodes, pass, id)
    }

    ghost refusals = { compact_refusals W F };
}
