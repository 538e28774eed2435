//! A name's root is found by its identifier, which is the root itself.
ghost use Rattle.std.specs.Prelude.{◌≡◌, ℕ, ◌+◌, ◌*◌, ◌^◌, ◌<◌, ◌↔◌, [], ◌∷◌, IsTrue, Some, None, false};
ghost use Rattle.std.specs.Prelude.{MatchBool, MatchOption};
ghost use Rattle.tree_shape.specs.Tree.{Has};
ghost use Rattle.packed_word.specs.Word.{pair_of};
ghost use Rattle.tdb_base.specs.History.{Put};
ghost use Rattle.pair_nodes.specs.Roots.{RootFound, RootUnknown, RootRead};
ghost use Rattle.pair_rule.specs.Calls.{Called, IsNoName, KeepsBuffers};
ghost use Rattle.pair_rule.specs.Plays.{Caught};
ghost use Rattle.pair_rule.specs.Rest.{AtRest, view, KnowsName};
ghost use Rattle.region_root.specs.declared.root.Holding.{Holding};
ghost use Rattle.region_root.specs.Layout.{place, IsPacked, KeepsRoots};
ghost use Rattle.region_root.specs.Compact.{LockedOnce, compact};
ghost use Rattle.region_root.specs.Told.{FindTold};
ghost use Rattle.region_root.specs.Work.{AtWork};

use crate::held::has_root;
use crate::lock::lock_region;
use crate::root::CompactRoot;
use crate::steps::unlock;
use crate::words::root_place;
use mix_hash::Place;
use pair_nodes::Nodes;
use pair_rule::{PairTable, Pass};
use std::sync::Wait;
use tdb_base::Act;

// Whether a number is a pair of two parts of `W` bits.
#[inline]
fn is_packed<const W: u32>(id: u64) -> bool
    requires { W < 32 }
    ensures { IsTrue result ↔ (id < 2 ^ (2 * W)) }
{
    id < 1 << (2 * W)
}

// From the lock, of which this is the odd value, to the unlock: whether the root was there.
fn find_locked<const W: u32, const F: u32>(
    table: &PairTable<CompactRoot<W, F>, W, F>,
    pass: &mut Pass<CompactRoot<W, F>, W, F>,
    lock: u64,
    pair: u64,
    at: &Place,
) -> bool
    requires root { IsPacked table.now.about pair × (at.now ≡ place table.now.about pair) }
    requires work { (h : Holding) × AtWork W F table.now h pass.old × (h.region ≡ at.now.region)
        × (h.lock ≡ lock) × KeepsRoots table.now.about h.copy h.base }
    ensures rest { AtRest (compact W F) table.now pass.new }
    ensures root { (view pass.new).root ≡ record (view pass.old).root { held = [] } }
    ensures told { (h : Holding) → (view pass.old).root.held ≡ h ∷ []
        → FindTold pair result h (view pass.old) (view pass.new) }
    ensures buffers { KeepsBuffers pass.old pass.new }
{
    if has_root(table, pass, pair, at) {
        unlock(table, pass, at.region, lock, &Some((pair, Act::Put(false))));
        return true;
    }
    unlock(table, pass, at.region, lock, &None);
    false
}

// Looks for a root under the lock of its region, for which it waits: whether some vector has it.
fn find_pair<H: Wait, const W: u32, const F: u32>(
    rt: &H,
    table: &PairTable<CompactRoot<W, F>, W, F>,
    pass: &mut Pass<CompactRoot<W, F>, W, F>,
    pair: u64,
) -> bool
    requires rest { AtRest (compact W F) table.now pass.old }
    requires packed { IsPacked table.now.about pair }
    ensures rest { AtRest (compact W F) table.now pass.new }
    ensures found { MatchBool result (Called (compact W F) false pair pair (view pass.old) (view pass.new))
        (Caught (compact W F) [] (view pass.old) (view pass.new) × IsNoName pair (view pass.new).seen) }
    ensures locked { LockedOnce (view pass.old).root (view pass.new).root }
    ensures others { pass.new ≡ record pass.old { seat = pass.new.seat } }
{
    let at = root_place(table, pair);
    let lock = lock_region(rt, table, pass, at.region);
    find_locked(table, pass, lock, pair, &at)
}

// The two parts of a root.
#[inline]
fn parts_of<const W: u32>(pair: u64) -> (u64, u64)
    requires { (W < 32) × (pair < 2 ^ (2 * W)) }
    ensures whole { pair_of W result.0 result.1 ≡ pair }
    ensures parts { (result.0 < 2 ^ W) × (result.1 < 2 ^ W) }
{
    (pair / (1 << W), pair % (1 << W))
}

/// The root, as its two parts, of the vector with this identifier, if it is some vector's.
///
/// `Some` is one call of the table's history, which found that vector. `None` makes no call, and says that no
/// vector has the identifier in the history that the pass has then seen. It waits for the lock of the root's
/// region, which it takes once; for a number that is no root's it makes no step. It takes no memory.
pub fn find_id<H: Wait, const W: u32, const F: u32>(
    rt: &H,
    nodes: &Nodes<CompactRoot<W, F>, W, F>,
    pass: &mut Pass<CompactRoot<W, F>, W, F>,
    id: u64,
) -> Option<(u64, u64)>
    requires rest { AtRest (compact W F) nodes.now pass.old }
    ensures found { MatchOption result (RootUnknown (compact W F) nodes.now id pass.old pass.new)
        (λ parts. RootFound (compact W F) nodes.now id parts pass.old pass.new) }
    ensures locked { IsPacked nodes.now.about id → LockedOnce (view pass.old).root (view pass.new).root }
    ensures still { (IsPacked nodes.now.about id → ⊥) → pass.new ≡ pass.old }
{
    let table = nodes.table();
    if !is_packed::<W>(id) {
        return None;
    }
    if !find_pair(rt, table, pass, id) {
        return None;
    }
    Some(parts_of::<W>(id))
}

/// The root, as its two parts, of the vector with this identifier, which is one that the pass has seen named:
/// the identifier's own parts. It makes no step.
pub fn root_pair<const W: u32, const F: u32>(
    nodes: &Nodes<CompactRoot<W, F>, W, F>,
    pass: &mut Pass<CompactRoot<W, F>, W, F>,
    id: u64,
) -> (u64, u64)
    requires rest { AtRest (compact W F) nodes.now pass.old }
    requires named { KnowsName pass.old id }
    ensures read { RootRead (compact W F) nodes.now id result pass.old pass.new }
    ensures still { pass.new ≡ pass.old }
{
    let _ = nodes.table();
    let _ = &pass.seat;
    parts_of::<W>(id)
}
