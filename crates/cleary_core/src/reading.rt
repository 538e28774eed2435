//! What is read of a run: its ends, its groups, and where a key stands.

ghost use Rattle.std.specs.Prelude.{◌≡◌, ℕ, suc, true, false, ◌+◌, ◌-◌, ◌*◌, ◌<◌, ◌≤◌, List, MatchBool};
ghost use Rattle.std.specs.Prelude.{MatchOption, ⊤};
ghost use Rattle.cleary_core.specs.Access.{HasReached, Reaches};
ghost use Rattle.cleary_core.specs.Cells.{width, IsRegion, Small, cell_at, word_count, mark_of, cell_marks};
ghost use Rattle.cleary_core.specs.Map.{Key, Slots, Keeps, KeepsMap};
ghost use Rattle.cleary_core.specs.Search.{Front, InRun, Placed, OnTheWay, HasChange, EndsGroup, RunEnd};
ghost use Rattle.cleary_core.specs.Search.{Searched, Located, ReachesRun, ReachesGroup};

use crate::access::ReadWords;
use crate::cells::{Cell, CellMarks, Sizes, mark, start_of, unmark, unpack};
use packed_word::Bits;

// A cell, of which one or two words are read.
#[inline]
pub(crate) fn read_cell<A: ReadWords>(sizes: &Sizes, access: &mut A, i: u64) -> Cell
    requires region { IsRegion sizes.now }
    requires words { A.spans access.old (word_count sizes.now) }
    requires inside { i < sizes.now.cells }
    ensures value { (words : List ℕ) → HasReached (A.reached access.new) words
        → cell_at sizes.now words i ≡ result }
    ensures small { Small sizes.now result }
    ensures near { Reaches (A.reached access.old) (A.reached access.new) sizes.now i (suc i) }
    ensures reads { A.reads access.old access.new }
    ensures words { A.spans access.new (word_count sizes.now) }
{
    let at = start_of(sizes, i);
    let bits = 3 + sizes.flags + sizes.quotient;
    let place = (at / 64) as usize;
    let offset = (at % 64) as u32;
    let low = access.get(place);
    if offset + bits <= 64 {
        return unpack(sizes, Bits::get(&[low], offset as u64, bits));
    }
    let high = access.get(place + 1);
    unpack(sizes, Bits::get(&[low, high], offset as u64, bits))
}

// The marks of a cell, of which one word is read, or two where the marks lie in both.
#[inline]
pub(crate) fn read_marks<A: ReadWords>(sizes: &Sizes, access: &mut A, i: u64) -> CellMarks
    requires region { IsRegion sizes.now }
    requires words { A.spans access.old (word_count sizes.now) }
    requires inside { i < sizes.now.cells }
    ensures value { (words : List ℕ) → HasReached (A.reached access.new) words
        → cell_marks (cell_at sizes.now words i) ≡ result }
    ensures near { Reaches (A.reached access.old) (A.reached access.new) sizes.now i (suc i) }
    ensures reads { A.reads access.old access.new }
    ensures words { A.spans access.new (word_count sizes.now) }
{
    let at = start_of(sizes, i);
    let place = (at / 64) as usize;
    let offset = (at % 64) as u32;
    let low = access.get(place);
    if offset + 3 <= 64 {
        return unmark(Bits::get(&[low], offset as u64, 3));
    }
    let high = access.get(place + 1);
    unmark(Bits::get(&[low, high], offset as u64, 3))
}

// What stands before a home in its run.
#[derive(Clone, Copy)]
pub(crate) struct RunFront {
    // The first cell of the run.
    pub(crate) start: u64,
    // A cell from there up to the home, where a group ended before it or the run begins.
    pub(crate) from: u64,
    // How many groups stand between that cell and the home's group.
    pub(crate) groups: u64,
}

// Where the last group ended before a home, once the cell before `start` is read too: the cell after that
// group, or the first cell that was read where none has ended.
#[inline]
fn edge_after(ends: u64, edge: u64, start: u64, change: bool) -> u64
    requires { 0 < start }
    ensures first { ends ≡ 0 → result ≡ start - 1 + mark_of change }
    ensures later { 0 < ends → result ≡ edge }
{
    if ends == 0 {
        start - 1 + mark(change)
    } else {
        edge
    }
}

// What stands before a home, of which so many before it have a group and so many groups have ended, the last
// before `edge`. More groups than those have ended where the home's own began to the left of it.
#[inline]
fn front_of(start: u64, edge: u64, groups: u64, ends: u64) -> RunFront
    ensures start { result.start ≡ start }
    ensures near { ends ≤ groups → (result.from ≡ edge) × (result.groups + ends ≡ groups) }
    ensures far { groups < ends → (result.from ≡ start) × (result.groups ≡ groups) }
{
    if ends <= groups {
        RunFront {
            start,
            from: edge,
            groups: groups - ends,
        }
    } else {
        RunFront {
            start,
            from: start,
            groups,
        }
    }
}

// What stands in the run of an occupied `home` before it.
#[inline]
pub(crate) fn run_front<A: ReadWords>(sizes: &Sizes, access: &mut A, home: u64) -> RunFront
    requires region { IsRegion sizes.now }
    requires words { A.spans access.old (word_count sizes.now) }
    requires inside { home < sizes.now.cells }
    ensures low { result.start ≤ home }
    ensures from { (result.start ≤ result.from) × (result.from ≤ home) }
    ensures front { (words : List ℕ) → HasReached (A.reached access.new) words
        → Front (cell_at sizes.now words) result.start result.from result.groups home }
    ensures near { Reaches (A.reached access.old) (A.reached access.new) sizes.now (result.start - 1) home }
    ensures reads { A.reads access.old access.new }
    ensures words { A.spans access.new (word_count sizes.now) }
{
    let mut start = home;
    let mut edge = home;
    let mut groups = 0;
    let mut ends = 0;
    while start > 0 {
        let left = read_marks(sizes, access, start - 1);
        if !left.occupied {
            return front_of(start, edge, groups, ends);
        }
        edge = edge_after(ends, edge, start, left.change);
        groups += mark(left.virgin);
        ends += mark(left.change);
        start -= 1;
    }
    front_of(start, edge, groups, ends)
}

// Where the group that stands from `from` on ends: the cell after its last, or the number of cells.
#[inline]
fn group_end<A: ReadWords>(sizes: &Sizes, access: &mut A, from: u64) -> u64
    requires region { IsRegion sizes.now }
    requires words { A.spans access.old (word_count sizes.now) }
    requires inside { from ≤ sizes.now.cells }
    ensures bounds { (from ≤ result) × (result ≤ sizes.now.cells) }
    ensures end { (words : List ℕ) → HasReached (A.reached access.new) words
        → HasChange sizes.now.cells (cell_at sizes.now words) from
        → EndsGroup (cell_at sizes.now words) from result }
    ensures near { Reaches (A.reached access.old) (A.reached access.new) sizes.now from result }
    ensures reads { A.reads access.old access.new }
    ensures words { A.spans access.new (word_count sizes.now) }
{
    let mut at = from;
    while at < sizes.cells {
        let cell = read_marks(sizes, access, at);
        at += 1;
        if cell.change {
            return at;
        }
    }
    at
}

// Where the group of a home begins, or would begin, in its run: from `from` on, after so many other groups.
#[inline]
pub(crate) fn group_place<A: ReadWords>(
    sizes: &Sizes,
    access: &mut A,
    from: u64,
    groups: u64,
) -> u64
    requires region { IsRegion sizes.now }
    requires words { A.spans access.old (word_count sizes.now) }
    requires inside { from ≤ sizes.now.cells }
    ensures bounds { (from ≤ result) × (result ≤ sizes.now.cells) }
    ensures place { (words : List ℕ) (slots : Slots) (start home : ℕ) → HasReached (A.reached access.new) words
        → InRun sizes.now.cells (cell_at sizes.now words) slots start home
        → OnTheWay sizes.now.cells (cell_at sizes.now words) slots start from home groups
        → Placed sizes.now.cells slots start result home }
    ensures near { Reaches (A.reached access.old) (A.reached access.new) sizes.now from result }
    ensures reads { A.reads access.old access.new }
    ensures words { A.spans access.new (word_count sizes.now) }
{
    let mut at = from;
    for _ in 0..groups {
        at = group_end(sizes, access, at);
    }
    at
}

// The cell from `from` to the end of its group that has the quotient.
#[inline]
pub(crate) fn group_seek<A: ReadWords>(
    sizes: &Sizes,
    access: &mut A,
    from: u64,
    quotient: u64,
) -> Option<u64>
    requires region { IsRegion sizes.now }
    requires words { A.spans access.old (word_count sizes.now) }
    requires inside { from ≤ sizes.now.cells }
    ensures bounds { MatchOption result ⊤ (λ at. at < sizes.now.cells) }
    ensures sought { (words : List ℕ) → HasReached (A.reached access.new) words
        → HasChange sizes.now.cells (cell_at sizes.now words) from
        → Searched result sizes.now.cells (cell_at sizes.now words) from quotient }
    ensures near { ReachesGroup (A.reached access.old) (A.reached access.new) sizes.now from }
    ensures reads { A.reads access.old access.new }
    ensures words { A.spans access.new (word_count sizes.now) }
{
    let mut at = from;
    while at < sizes.cells {
        let here = read_cell(sizes, access, at);
        if here.quotient == quotient {
            return Some(at);
        }
        if here.change {
            return None;
        }
        at += 1;
    }
    None
}

// The first cell from `from` on that isn't occupied, or the number of cells.
#[inline]
pub(crate) fn run_end<A: ReadWords>(sizes: &Sizes, access: &mut A, from: u64) -> u64
    requires region { IsRegion sizes.now }
    requires words { A.spans access.old (word_count sizes.now) }
    requires inside { from ≤ sizes.now.cells }
    ensures bounds { (from ≤ result) × (result ≤ sizes.now.cells) }
    ensures end { (words : List ℕ) → HasReached (A.reached access.new) words
        → RunEnd sizes.now.cells (cell_at sizes.now words) from result }
    ensures near { Reaches (A.reached access.old) (A.reached access.new) sizes.now from (suc result) }
    ensures reads { A.reads access.old access.new }
    ensures words { A.spans access.new (word_count sizes.now) }
{
    let mut end = from;
    while end < sizes.cells {
        let here = read_marks(sizes, access, end);
        if !here.occupied {
            return end;
        }
        end += 1;
    }
    end
}

// The cell that has the key.
#[inline]
pub(crate) fn locate<A: ReadWords>(
    sizes: &Sizes,
    access: &mut A,
    home: u64,
    quotient: u64,
) -> Option<u64>
    requires region { IsRegion sizes.now }
    requires words { A.spans access.old (word_count sizes.now) }
    requires inside { home < sizes.now.cells }
    ensures bounds { MatchOption result ⊤ (λ at. at < sizes.now.cells) }
    ensures found { (words : List ℕ) (keys : List Key) → HasReached (A.reached access.new) words
        → (k : Keeps sizes.now.cells (cell_at sizes.now words) keys)
        → Located result k.slots keys home quotient }
    ensures near { (words : List ℕ) (keys : List Key) → HasReached (A.reached access.new) words
        → KeepsMap sizes.now words keys
        → ReachesRun (A.reached access.old) (A.reached access.new) sizes.now (cell_at sizes.now words) home }
    ensures reads { A.reads access.old access.new }
    ensures words { A.spans access.new (word_count sizes.now) }
{
    let here = read_marks(sizes, access, home);
    if !here.virgin {
        return None;
    }
    let front = run_front(sizes, access, home);
    let place = group_place(sizes, access, front.from, front.groups);
    group_seek(sizes, access, place, quotient)
}
