//! A root is looked for in its region without a lock.
ghost use Rattle.std.specs.Prelude.{◌≡◌, ◌≢◌, ℕ, ◌^◌, ◌<◌, ◌⊎◌, [], ◌∷◌, true, false};
ghost use Rattle.packed_word.specs.Word.{pair_of};
ghost use Rattle.pair_rule.specs.Calls.{IsSomeRoot};
ghost use Rattle.pair_rule.specs.Rest.{AtRest, view};
ghost use Rattle.region_root.specs.declared.root.Reading.{Reading};
ghost use Rattle.region_root.specs.Layout.{place, regions, IsPacked};
ghost use Rattle.region_root.specs.Compact.{IsEven, IsOdd, last, Looked, compact};
ghost use Rattle.region_root.specs.Told.{FindsRoot, PeekTold, finds, ticked};
ghost use Rattle.region_root.specs.Work.{ReadsOn};

use crate::access::Reader;
use crate::root::CompactRoot;
use crate::steps::{close_peek, open_peek};
use crate::words::{pack_root, region_at, root_place};
use mix_hash::Place;
use pair_nodes::Nodes;
use pair_rule::{PairTable, Pass};
use tdb_base::{Ledger, Steps};

/// What a look without a lock found.
#[derive(Clone, Copy, Debug, PartialEq, Eq)]
pub enum Peek {
    /// The root, by its identifier.
    Seen(u64),
    /// That it was not there.
    Absent,
    /// Nothing: another call may have changed the region.
    Changed,
}

// The last even value of a lock word, which may come again.
const LAST: u64 = u64::MAX - 1;

// Whether a reader may believe what it finds while the lock word has this value.
#[inline]
fn is_believable(lock: u64) -> bool
    ensures yes { result ≡ true → IsEven lock × (lock < last) }
    ensures no { result ≡ false → (lock ≡ last) ⊎ IsOdd lock }
{
    if lock >= LAST {
        return false;
    }
    lock % 2 == 0
}

// Whether the root is in the region that the pass reads, by words that it loads one at a time.
#[inline]
fn look_for<const W: u32, const F: u32>(
    table: &PairTable<CompactRoot<W, F>, W, F>,
    pass: &mut Pass<CompactRoot<W, F>, W, F>,
    pair: u64,
    at: &Place,
) -> bool
    requires root { IsPacked table.now.about pair × (at.now ≡ place table.now.about pair) }
    requires inside { at.now.region < regions table.now.about }
    requires rest { AtRest (compact W F) table.now pass.old }
    requires reader { (q : Reading) × ((view pass.old).root.reader ≡ q ∷ []) × (q.region ≡ at.now.region) }
    ensures reads { ReadsOn W F table.now pass.old pass.new }
    ensures finds { FindsRoot table.now.about pair pass.new result }
{
    let (region, from) = region_at(table, at.region);
    region.find_in(&mut Reader { table, pass, from }, at.home, at.quotient)
}

// One look at the root's region.
#[inline]
fn peek_pair<const W: u32, const F: u32>(
    table: &PairTable<CompactRoot<W, F>, W, F>,
    pass: &mut Pass<CompactRoot<W, F>, W, F>,
    pair: u64,
) -> Peek
    requires rest { AtRest (compact W F) table.now pass.old }
    requires packed { IsPacked table.now.about pair }
    ensures told { PeekTold W F table.now pair pass.old pass.new result }
    ensures looked { Looked table.now.about pair (finds result) (view pass.old).root (view pass.new).root }
{
    let at = root_place(table, pair);
    let first = open_peek(table, pass, at.region, pair);
    if !is_believable(first) {
        return Peek::Changed;
    }
    let found = look_for(table, pass, pair, &at);
    if close_peek(table, pass, at.region) != first {
        return Peek::Changed;
    }
    if found {
        Peek::Seen(pair)
    } else {
        Peek::Absent
    }
}

/// Looks for the root `(left, right)` without a lock: it waits for nobody and takes no memory.
///
/// `Seen` is one call of the history, which found the vector's name; it ticks once. `Absent` and `Changed`
/// make no call and tick nothing. `Absent`: at one moment the root was not there, and its vector has no name
/// that the pass has then seen. `Changed`: the region was held, or its lock word was another at the second
/// look, or is at its last even value.
#[inline]
pub fn peek_root<L: Ledger, const W: u32, const F: u32>(
    nodes: &Nodes<CompactRoot<W, F>, W, F>,
    pass: &mut Pass<CompactRoot<W, F>, W, F>,
    left: u64,
    right: u64,
    steps: &mut Steps<L>,
) -> Peek
    requires rest { AtRest (compact W F) nodes.now pass.old }
    requires left { left < 2 ^ nodes.now.about.width }
    requires right { right < 2 ^ nodes.now.about.width }
    requires stands { IsSomeRoot nodes.now.about (view pass.old).known
        (pair_of nodes.now.about.width left right) }
    ensures told { PeekTold W F nodes.now (pair_of nodes.now.about.width left right)
        pass.old pass.new result }
    ensures looked { Looked nodes.now.about (pair_of nodes.now.about.width left right) (finds result)
        (view pass.old).root (view pass.new).root }
    ensures tick { L.count steps.new ≡ ticked result (L.count steps.old) }
{
    let table = nodes.table();
    let pair = pack_root(table, left, right);
    let answer = peek_pair(table, pass, pair);
    if let Peek::Seen(_) = answer {
        steps.tick();
    }
    answer
}
