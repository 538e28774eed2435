//! A key is inserted: where it goes, and what moves for it.

ghost use Rattle.std.specs.Prelude.{◌≡◌, ℕ, ◌+◌, ◌-◌, ◌^◌, ◌<◌, ◌≤◌, List, length, MatchBool, MatchResult, ⊤};
ghost use Rattle.cleary_core.specs.Access.{HasReached};
ghost use Rattle.cleary_core.specs.Answers.{Tells, Answered};
ghost use Rattle.cleary_core.specs.Cells.{IsRegion, cell_at, word_count};
ghost use Rattle.cleary_core.specs.Change.{Belongs, InOneRun};
ghost use Rattle.cleary_core.specs.Map.{Key, Keeps, KeepsMap};
ghost use Rattle.cleary_core.specs.Search.{IsGroupPlace, ReachesEnd, ReachesRow, ReachesRun};

use crate::access::{ReadWords, WriteWords};
use crate::cells::Sizes;
use crate::reading::{group_place, group_seek, read_marks, run_end, run_front};
use crate::writing::{put_alone, put_key, shift_down, shift_up};
use thiserror::Error;

/// Every cell of the region is occupied by another key.
#[derive(Clone, Copy, Debug, PartialEq, Eq, Drop, Error)]
#[error("the region is full")]
pub struct RegionFull;

// Where a new key of a home belongs in the home's run.
#[derive(Clone, Copy)]
pub(crate) struct Gap {
    // The first cell of the run.
    start: u64,
    // The first cell of the home's group, or of what stands after it.
    place: u64,
    // Whether the home has no group yet.
    fresh: bool,
}

// Whether the group at `place` has the quotient. A home that isn't virgin has none.
#[inline]
fn group_has<A: ReadWords>(
    sizes: &Sizes,
    access: &mut A,
    virgin: bool,
    place: u64,
    quotient: u64,
) -> bool
    requires region { IsRegion sizes.now }
    requires words { A.spans access.old (word_count sizes.now) }
    requires inside { place ≤ sizes.now.cells }
    ensures tells { (words : List ℕ) (keys : List Key) (start home : ℕ)
        → HasReached (A.reached access.new) words
        → (k : Keeps sizes.now.cells (cell_at sizes.now words) keys)
        → IsGroupPlace sizes.now.cells (cell_at sizes.now words) k.slots start place home virgin
        → Tells result keys home quotient }
    ensures near { (words : List ℕ) (keys : List Key) (start home : ℕ)
        → HasReached (A.reached access.new) words
        → (k : Keeps sizes.now.cells (cell_at sizes.now words) keys)
        → IsGroupPlace sizes.now.cells (cell_at sizes.now words) k.slots start place home virgin
        → ReachesRow (A.reached access.old) (A.reached access.new) sizes.now (cell_at sizes.now words) place }
    ensures reads { A.reads access.old access.new }
    ensures words { A.spans access.new (word_count sizes.now) }
{
    if !virgin {
        return false;
    }
    match group_seek(sizes, access, place, quotient) {
        Some(_) => true,
        None => false,
    }
}

// Adds a key that the map hasn't: the keys from its place on move by one towards the run's end, or those
// before it towards the run's start.
#[inline]
fn add_key<A: WriteWords>(
    sizes: &Sizes,
    access: &mut A,
    gap: &Gap,
    home: u64,
    quotient: u64,
) -> Result<bool, RegionFull>
    requires region { IsRegion sizes.now }
    requires words { A.spans access.old (word_count sizes.now) }
    requires inside { (home < sizes.now.cells) × (gap.now.place ≤ sizes.now.cells) }
    requires small { quotient < 2 ^ sizes.now.quotient }
    requires kept { (keys : List Key) × KeepsMap sizes.now (A.words access.old) keys }
    requires gap { (keys : List Key) (k : Keeps sizes.now.cells (cell_at sizes.now (A.words access.old)) keys)
        → Belongs sizes.now.cells (cell_at sizes.now (A.words access.old)) k.slots keys
        gap.now.start gap.now.place home quotient gap.now.fresh }
    ensures answer { (keys : List Key) → KeepsMap sizes.now (A.words access.old) keys
        → Answered result sizes.now keys home quotient (A.words access.new) }
    ensures unchanged { MatchResult result
        (λ fresh. MatchBool fresh ⊤ (A.words access.new ≡ A.words access.old)) (λ _.
        A.words access.new ≡ A.words access.old) }
    ensures others { InOneRun sizes.now.cells (cell_at sizes.now (A.words access.old))
        (cell_at sizes.now (A.words access.new)) home }
    ensures near { ReachesEnd (A.reached access.old) (A.reached access.new) sizes.now
        (cell_at sizes.now (A.words access.old)) gap.now.start home }
    ensures words { A.spans access.new (word_count sizes.now) }
    ensures writes { A.writes access.old access.new }
{
    let end = run_end(sizes, access, gap.place.max(home + 1));
    if end < sizes.cells {
        shift_up(sizes, access, gap.place, end);
        put_key(sizes, access, gap.place, home, quotient, gap.fresh);
        return Ok(true);
    }
    if gap.start > 0 {
        shift_down(sizes, access, gap.start - 1, gap.place - 1);
        put_key(sizes, access, gap.place - 1, home, quotient, gap.fresh);
        return Ok(true);
    }
    Err(RegionFull)
}

// Adds a key, if the map hasn't it.
#[inline]
pub(crate) fn insert_key<A: WriteWords>(
    sizes: &Sizes,
    access: &mut A,
    home: u64,
    quotient: u64,
) -> Result<bool, RegionFull>
    requires region { IsRegion sizes.now }
    requires words { A.spans access.old (word_count sizes.now) }
    requires inside { home < sizes.now.cells }
    requires small { quotient < 2 ^ sizes.now.quotient }
    requires kept { (keys : List Key) × KeepsMap sizes.now (A.words access.old) keys }
    ensures answer { (keys : List Key) → KeepsMap sizes.now (A.words access.old) keys
        → Answered result sizes.now keys home quotient (A.words access.new) }
    ensures unchanged { MatchResult result
        (λ fresh. MatchBool fresh ⊤ (A.words access.new ≡ A.words access.old)) (λ _.
        A.words access.new ≡ A.words access.old) }
    ensures others { InOneRun sizes.now.cells (cell_at sizes.now (A.words access.old))
        (cell_at sizes.now (A.words access.new)) home }
    ensures near { ReachesRun (A.reached access.old) (A.reached access.new) sizes.now
        (cell_at sizes.now (A.words access.old)) home }
    ensures words { A.spans access.new (word_count sizes.now) }
    ensures writes { A.writes access.old access.new }
{
    let here = read_marks(sizes, access, home);
    if !here.occupied {
        put_alone(sizes, access, home, quotient);
        return Ok(true);
    }
    let front = run_front(sizes, access, home);
    let place = group_place(sizes, access, front.from, front.groups);
    if group_has(sizes, access, here.virgin, place, quotient) {
        return Ok(false);
    }
    let gap = Gap {
        start: front.start,
        place,
        fresh: !here.virgin,
    };
    add_key(sizes, access, &gap, home, quotient)
}
