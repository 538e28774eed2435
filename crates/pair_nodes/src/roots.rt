//! The one way from a store to its roots, whatever table they stand in.
ghost use Rattle.std.specs.Prelude.{◌≡◌, ◌^◌, ◌<◌, IfOk, OnErr, MatchResult, false, option_map};
ghost use Rattle.packed_word.specs.Word.{pair_of};
ghost use Rattle.tdb_base.specs.Fakes.{counted};
ghost use Rattle.pair_rule.specs.Rest.{AtRest, view, KnowsName};
ghost use Rattle.pair_rule.specs.Calls.{IsSomeRoot};
ghost use Rattle.pair_nodes.specs.Roots.{RootPut, RootRefused, IsFoundOrPut, IsPutAfterLook};

use pair_rule::{Pass, RootPart, RootsFull};
use tdb_base::{Ledger, Steps};

/// What a store's names tell without a call, as the store above uses it: their roots, and the bytes that they
/// take.
pub trait RootNames<const W: u32, const F: u32> {
    ghost use Rattle.std.specs.Prelude.{◌≡◌, ℕ, Some, ◌*◌, ◌≤◌};
    ghost use Rattle.tdb_base.specs.History.{Vector, name_of};
    ghost use Rattle.pair_rule.specs.Part.{Store};
    ghost use Rattle.pair_rule.specs.Rest.{AtRest, view};
    ghost use Rattle.pair_nodes.specs.Roots.{RootRead, HasFewNames, IsUnlooked};

    /// What the root table adds to the rule.
    type Part: RootPart<W, F>;

    /// The store whose names these are.
    ghost store: { Self → Store };

    /// The root, as its two parts, of the vector with this identifier, which the pass has seen named.
    fn read(&self, pass: &mut Pass<Self::Part, W, F>, id: u64) -> (u64, u64)
        requires rest { AtRest Self.Part.part (store self.now) pass.old }
        requires named { KnowsName pass.old id }
        ensures read { RootRead Self.Part.part (store self.now) id result pass.old pass.new }
        ensures no_look { IsUnlooked Self.Part.part (view pass.old).root (view pass.new).root };

    /// How many bytes so many names take.
    fn name_bytes(&self, names: u64) -> u64
        requires { names ≤ 16777216 }
        ensures all { result ≡ Self.Part.part.bytes (store self.now).about names }
        ensures most { result ≤ 8 * names };

    // A pass counts at most 2^24 names.
    ghost few_names: { HasFewNames Self.Part.part };
}

/// A root table, as the store above it uses it. Each answer is one call of the store's history.
pub trait RootTable<const W: u32, const F: u32> {
    ghost use Rattle.std.specs.Prelude.{◌≡◌, ℕ, ◌^◌, ◌<◌, IfOk, OnErr, MatchOption, Some, option_map, false, ◌*◌, ◌≤◌, is_some};
    ghost use Rattle.packed_word.specs.Word.{pair_of};
    ghost use Rattle.tdb_base.specs.Fakes.{counted};
    ghost use Rattle.tdb_base.specs.History.{Vector, name_of};
    ghost use Rattle.pair_rule.specs.Part.{Store};
    ghost use Rattle.pair_rule.specs.Rest.{AtRest, view};
    ghost use Rattle.pair_rule.specs.Calls.{IsSomeRoot};
    ghost use Rattle.pair_nodes.specs.Roots.{RootPut, RootRefused, RootUnseen, RootFound, RootUnknown};
    ghost use Rattle.pair_nodes.specs.Roots.{Refusals, IsUnlooked, ticked_if};

    /// What the root table adds to the rule.
    type Part: RootPart<W, F>;

    /// The store whose roots these are.
    ghost store: { Self → Store };

    /// The identifier of the vector with the root `(left, right)`, where a look that waits for nobody finds
    /// its name. `None` says nothing of the root: a table that has no such look answers it always.
    fn look<L: Ledger>(
        &self,
        pass: &mut Pass<Self::Part, W, F>,
        left: u64,
        right: u64,
        steps: &mut Steps<L>,
    ) -> Option<u64>
        requires rest { AtRest Self.Part.part (store self.now) pass.old }
        requires left { left < 2 ^ (store self.now).about.width }
        requires right { right < 2 ^ (store self.now).about.width }
        requires stands { IsSomeRoot (store self.now).about (view pass.old).known
            (pair_of (store self.now).about.width left right) }
        ensures seen { MatchOption result (RootUnseen Self.Part.part (store self.now) pass.old pass.new)
            (λ id. RootPut Self.Part.part (store self.now)
            (pair_of (store self.now).about.width left right) id false pass.old pass.new) }
        ensures look { Self.Part.part.after_look (store self.now).about
            (pair_of (store self.now).about.width left right) (is_some result)
            (view pass.old).root (view pass.new).root }
        ensures tick { L.count steps.new ≡ ticked_if (is_some result) (L.count steps.old) };

    /// Gives the vector with the root `(left, right)` a name, or finds its name: its identifier, and whether
    /// it is new.
    fn put<L: Ledger>(
        &self,
        pass: &mut Pass<Self::Part, W, F>,
        left: u64,
        right: u64,
        steps: &mut Steps<L>,
    ) -> Result<(u64, bool), RootsFull>
        requires rest { AtRest Self.Part.part (store self.now) pass.old }
        requires left { left < 2 ^ (store self.now).about.width }
        requires right { right < 2 ^ (store self.now).about.width }
        requires stands { IsSomeRoot (store self.now).about (view pass.old).known
            (pair_of (store self.now).about.width left right) }
        ensures put { IfOk result (λ a. RootPut Self.Part.part (store self.now)
            (pair_of (store self.now).about.width left right) a.0 a.1 pass.old pass.new) }
        ensures refused { OnErr result (RootRefused Self.Part.part (store self.now)
            (pair_of (store self.now).about.width left right) pass.old pass.new) }
        ensures call { Self.Part.part.after_call (view pass.old).root (view pass.new).root }
        ensures tick { L.count steps.new ≡ option_map counted (L.count steps.old) };

    /// The root, as its two parts, of the vector with this identifier, if it is some vector's.
    fn find(&self, pass: &mut Pass<Self::Part, W, F>, id: u64) -> Option<(u64, u64)>
        requires { AtRest Self.Part.part (store self.now) pass.old }
        ensures found { MatchOption result (RootUnknown Self.Part.part (store self.now) id pass.old pass.new)
            (λ parts. RootFound Self.Part.part (store self.now) id parts pass.old pass.new) }
        ensures no_look { IsUnlooked Self.Part.part (view pass.old).root (view pass.new).root };

    // A refusal lasts.
    ghost refusals: { Refusals Self.Part.part };
}

/// Looks for the name of the root `(left, right)`, and where that finds none puts the root, as
/// `RootTable::put` does.
pub fn look_or_put<D: RootTable<W, F>, L: Ledger, const W: u32, const F: u32>(
    roots: &D,
    pass: &mut Pass<D::Part, W, F>,
    left: u64,
    right: u64,
    steps: &mut Steps<L>,
) -> Result<(u64, bool), RootsFull>
    requires rest { AtRest D.Part.part (D.store roots.now) pass.old }
    requires left { left < 2 ^ (D.store roots.now).about.width }
    requires right { right < 2 ^ (D.store roots.now).about.width }
    requires stands { IsSomeRoot (D.store roots.now).about (view pass.old).known
        (pair_of (D.store roots.now).about.width left right) }
    ensures put { IfOk result (λ a. RootPut D.Part.part (D.store roots.now)
        (pair_of (D.store roots.now).about.width left right) a.0 a.1 pass.old pass.new) }
    ensures refused { OnErr result (RootRefused D.Part.part (D.store roots.now)
        (pair_of (D.store roots.now).about.width left right) pass.old pass.new) }
    ensures looked { let about = (D.store roots.now).about in
        let before = (view pass.old).root in
        let after = (view pass.new).root in
        MatchResult result
        (λ a. IsFoundOrPut D.Part.part about (pair_of about.width left right) a.1 before after)
        (λ _. IsPutAfterLook D.Part.part about (pair_of about.width left right) before after) }
    ensures tick { L.count steps.new ≡ option_map counted (L.count steps.old) }
{
    match roots.look(pass, left, right, steps) {
        Some(id) => Ok((id, false)),
        None => roots.put(pass, left, right, steps),
    }
}
