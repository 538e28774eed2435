//! A root is put under the lock of its region, or found there.
ghost use Rattle.std.specs.Prelude.{◌≡◌, ◌≢◌, ℕ, suc, ◌+◌, ◌^◌, ◌<◌, List, [], ◌∷◌, Some, None};
ghost use Rattle.std.specs.Prelude.{IfOk, OnErr, MatchResult, option_map};
ghost use Rattle.tree_shape.specs.Tree.{Has};
ghost use Rattle.packed_word.specs.Word.{pair_of};
ghost use Rattle.tdb_base.specs.Fakes.{counted};
ghost use Rattle.tdb_base.specs.History.{Put};
ghost use Rattle.pair_nodes.specs.Roots.{RootPut, RootRefused};
ghost use Rattle.pair_rule.specs.Calls.{IsSomeRoot, KeepsBuffers};
ghost use Rattle.pair_rule.specs.Rest.{AtRest, view};
ghost use Rattle.region_root.specs.declared.root.Holding.{Holding};
ghost use Rattle.region_root.specs.Layout.{place, most, IsPacked, KeepsRoots};
ghost use Rattle.region_root.specs.Compact.{LockedOnce, compact};
ghost use Rattle.region_root.specs.Told.{PutTold};
ghost use Rattle.region_root.specs.Work.{AtWork};

use crate::held::add_root;
use crate::lock::lock_region;
use crate::root::CompactRoot;
use crate::steps::unlock;
use crate::words::{pack_root, root_place};
use mix_hash::Place;
use pair_nodes::Nodes;
use pair_rule::{PairTable, Pass, RootsFull};
use std::sync::Wait;
use tdb_base::{Act, Ledger, Steps};

// From the lock, of which this is the odd value, to the unlock.
#[inline]
fn put_locked<const W: u32, const F: u32>(
    table: &PairTable<CompactRoot<W, F>, W, F>,
    pass: &mut Pass<CompactRoot<W, F>, W, F>,
    lock: u64,
    pair: u64,
    at: &Place,
) -> Result<bool, RootsFull>
    requires root { IsPacked table.now.about pair × (at.now ≡ place table.now.about pair) }
    requires stands { IsSomeRoot table.now.about (view pass.old).known pair }
    requires work { (h : Holding) × AtWork W F table.now h pass.old × (h.region ≡ at.now.region)
        × (h.lock ≡ lock) × KeepsRoots table.now.about h.copy h.base }
    ensures rest { AtRest (compact W F) table.now pass.new }
    ensures root { (view pass.new).root ≡ record (view pass.old).root { held = [] } }
    ensures told { (h : Holding) → (view pass.old).root.held ≡ h ∷ []
        → PutTold table.now.about pair result h (view pass.old) (view pass.new) }
    ensures buffers { KeepsBuffers pass.old pass.new }
{
    let Ok(fresh) = add_root(table, pass, pair, at) else {
        unlock(table, pass, at.region, lock, &None);
        return Err(RootsFull);
    };
    unlock(table, pass, at.region, lock, &Some((pair, Act::Put(fresh))));
    Ok(fresh)
}

// Puts the root under the lock of its region, for which it waits.
#[inline]
fn put_pair<H: Wait, const W: u32, const F: u32>(
    rt: &H,
    table: &PairTable<CompactRoot<W, F>, W, F>,
    pass: &mut Pass<CompactRoot<W, F>, W, F>,
    pair: u64,
) -> Result<bool, RootsFull>
    requires rest { AtRest (compact W F) table.now pass.old }
    requires packed { IsPacked table.now.about pair }
    requires stands { IsSomeRoot table.now.about (view pass.old).known pair }
    ensures put { IfOk result (λ fresh. RootPut (compact W F) table.now pair pair fresh pass.old pass.new) }
    ensures refused { OnErr result (RootRefused (compact W F) table.now pair pass.old pass.new) }
    ensures locked { LockedOnce (view pass.old).root (view pass.new).root }
{
    let at = root_place(table, pair);
    let lock = lock_region(rt, table, pass, at.region);
    put_locked(table, pass, lock, pair, &at)
}

/// Gives the vector with the root `(left, right)` a name, or finds its name: the identifier, which is the
/// root as one number, and whether it is new.
///
/// Waits for the lock of the root's region, and takes it once. Ticks once, and takes no memory. `RootsFull`:
/// each cell of the region has another root; no call was made.
#[inline]
pub fn put_root<H: Wait, L: Ledger, const W: u32, const F: u32>(
    rt: &H,
    nodes: &Nodes<CompactRoot<W, F>, W, F>,
    pass: &mut Pass<CompactRoot<W, F>, W, F>,
    left: u64,
    right: u64,
    steps: &mut Steps<L>,
) -> Result<(u64, bool), RootsFull>
    requires rest { AtRest (compact W F) nodes.now pass.old }
    requires left { left < 2 ^ nodes.now.about.width }
    requires right { right < 2 ^ nodes.now.about.width }
    requires stands { IsSomeRoot nodes.now.about (view pass.old).known
        (pair_of nodes.now.about.width left right) }
    ensures put { IfOk result (λ a. RootPut (compact W F) nodes.now
        (pair_of nodes.now.about.width left right) a.0 a.1 pass.old pass.new) }
    ensures itself { IfOk result (λ a. a.0 ≡ pair_of nodes.now.about.width left right) }
    ensures refused { OnErr result (RootRefused (compact W F) nodes.now
        (pair_of nodes.now.about.width left right) pass.old pass.new) }
    ensures locked { LockedOnce (view pass.old).root (view pass.new).root }
    ensures tick { L.count steps.new ≡ option_map counted (L.count steps.old) }
{
    steps.tick();
    let table = nodes.table();
    let pair = pack_root(table, left, right);
    let Ok(fresh) = put_pair(rt, table, pass, pair) else {
        return Err(RootsFull);
    };
    Ok((pair, fresh))
}
