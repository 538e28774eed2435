//! Plain roots as a store uses them: nobody waits.
ghost use Rattle.std.specs.Prelude.{◌≡◌, ℕ, ◌*◌, ◌^◌, ◌<◌, ◌≤◌, IfOk, OnErr, MatchOption};
ghost use Rattle.std.specs.Prelude.{option_map, is_some, false};
ghost use Rattle.packed_word.specs.Word.{pair_of};
ghost use Rattle.tdb_base.specs.Fakes.{counted};
ghost use Rattle.pair_nodes.specs.Roots.{RootPut, RootRefused, RootUnseen, RootFound, RootUnknown, RootRead};
ghost use Rattle.pair_nodes.specs.Roots.{IsUnlooked, ticked_if};
ghost use Rattle.pair_rule.specs.Rest.{AtRest, view, KnowsName};
ghost use Rattle.pair_rule.specs.Calls.{IsSomeRoot};
ghost use Rattle.root_plain.specs.Plain.{plain};

use crate::find::{find_id, root_pair};
use crate::put::put_root;
use crate::root::PlainRoot;
use pair_nodes::{Nodes, RootNames, RootTable};
use pair_rule::{Pass, RootPart, RootsFull};
use tdb_base::{Ledger, Steps};

/// The root table of plain mode, over a store's nodes.
#[derive(Drop)]
pub struct PlainTable<'a, const W: u32, const F: u32> {
    nodes: &'a Nodes<PlainRoot<W, F>, W, F>,
}

impl<'a, const W: u32, const F: u32> PlainTable<'a, W, F> {
    /// The roots of the store with these nodes.
    pub fn over(nodes: &'a Nodes<PlainRoot<W, F>, W, F>) -> Self
        ensures { result.nodes.now ≡ nodes.now }
    {
        PlainTable { nodes }
    }
}

impl<'a, const W: u32, const F: u32> RootNames<W, F> for PlainTable<'a, W, F> {
    ghost use Rattle.root_plain.specs.Refused.{few_plain_names};

    type Part = PlainRoot<W, F>;

    ghost store = { λ t. t.nodes.now };

    fn read(&self, pass: &mut Pass<PlainRoot<W, F>, W, F>, id: u64) -> (u64, u64)
        requires rest { AtRest plain self.now.nodes.now pass.old }
        requires named { KnowsName pass.old id }
        ensures read { RootRead plain self.now.nodes.now id result pass.old pass.new }
        ensures no_look { IsUnlooked plain (view pass.old).root (view pass.new).root }
    {
        root_pair(self.nodes, pass, id)
    }

    fn name_bytes(&self, names: u64) -> u64
        requires { names ≤ 16777216 }
        ensures all { result ≡ 8 * names }
        ensures most { result ≤ 8 * names }
    {
        8 * names
    }

    ghost few_names = { few_plain_names };
}

impl<'a, const W: u32, const F: u32> RootTable<W, F> for PlainTable<'a, W, F> {
    ghost use Rattle.root_plain.specs.Refused.{plain_refusals};

    type Part = PlainRoot<W, F>;

    ghost store = { λ t. t.nodes.now };

    fn look<L: Ledger>(
        &self,
        _pass: &mut Pass<PlainRoot<W, F>, W, F>,
        _left: u64,
        _right: u64,
        _steps: &mut Steps<L>,
    ) -> Option<u64>
        requires rest { AtRest plain self.now.nodes.now _pass.old }
        requires left { _left < 2 ^ self.now.nodes.now.about.width }
        requires right { _right < 2 ^ self.now.nodes.now.about.width }
        requires stands { IsSomeRoot self.now.nodes.now.about (view _pass.old).known
            (pair_of self.now.nodes.now.about.width _left _right) }
        ensures seen { MatchOption result (RootUnseen plain self.now.nodes.now _pass.old _pass.new)
            (λ id. RootPut plain self.now.nodes.now
            (pair_of self.now.nodes.now.about.width _left _right) id false _pass.old _pass.new) }
        ensures look { plain.after_look self.now.nodes.now.about
            (pair_of self.now.nodes.now.about.width _left _right) (is_some result)
            (view _pass.old).root (view _pass.new).root }
        ensures tick { L.count _steps.new ≡ ticked_if (is_some result) (L.count _steps.old) }
    {
        None
    }

    fn put<L: Ledger>(
        &self,
        pass: &mut Pass<PlainRoot<W, F>, W, F>,
        left: u64,
        right: u64,
        steps: &mut Steps<L>,
    ) -> Result<(u64, bool), RootsFull>
        requires rest { AtRest plain self.now.nodes.now pass.old }
        requires left { left < 2 ^ self.now.nodes.now.about.width }
        requires right { right < 2 ^ self.now.nodes.now.about.width }
        requires stands { IsSomeRoot self.now.nodes.now.about (view pass.old).known
            (pair_of self.now.nodes.now.about.width left right) }
        ensures put { IfOk result (λ a. RootPut plain self.now.nodes.now
            (pair_of self.now.nodes.now.about.width left right) a.0 a.1 pass.old pass.new) }
        ensures refused { OnErr result (RootRefused plain self.now.nodes.now
            (pair_of self.now.nodes.now.about.width left right) pass.old pass.new) }
        ensures call { plain.after_call (view pass.old).root (view pass.new).root }
        ensures tick { L.count steps.new ≡ option_map counted (L.count steps.old) }
    {
        put_root(self.nodes, pass, left, right, steps)
    }

    fn find(&self, pass: &mut Pass<PlainRoot<W, F>, W, F>, id: u64) -> Option<(u64, u64)>
        requires { AtRest plain self.now.nodes.now pass.old }
        ensures found { MatchOption result (RootUnknown plain self.now.nodes.now id pass.old pass.new)
            (λ parts. RootFound plain self.now.nodes.now id parts pass.old pass.new) }
        ensures no_look { IsUnlooked plain (view pass.old).root (view pass.new).root }
    {
        find_id(self.nodes, pass, id)
    }

    ghost refusals = { plain_refusals };
}
