//! Cells are written: one alone, and those that move over by one.

ghost use Rattle.std.specs.Prelude.{◌≡◌, ◌≢◌, ◌⊎◌, ℕ, suc, true, ◌+◌, ◌-◌, ◌*◌, ◌^◌, ◌<◌, ◌≤◌, length};
ghost use Rattle.std.specs.Prelude.{slice_index, slice_set};
ghost use Rattle.cleary_core.specs.Access.{HasBits, Reaches};
ghost use Rattle.cleary_core.specs.Cells.{width, IsRegion, Small, cell_at, word_count, carried, cell_marks};
ghost use Rattle.cleary_core.specs.Change.{BitsPut, Put, ShiftedUp, ShiftedDown};

use crate::access::WriteWords;
use crate::cells::{Cell, CellMarks, Sizes, pack, start_of};
use crate::reading::{read_cell, read_marks};
use packed_word::Bits;

// The word at a place.
#[inline]
fn word_at<A: WriteWords>(sizes: &Sizes, access: &mut A, place: usize) -> u64
    requires words { A.spans access.old (word_count sizes.now) }
    requires inside { place < word_count sizes.now }
    ensures value { slice_index (A.words access.old) place ≡ result }
    ensures same { A.words access.new ≡ A.words access.old }
    ensures words { A.spans access.new (word_count sizes.now) }
    ensures only { (i m : ℕ) → A.reached access.new i m → A.reached access.old i m ⊎ (i ≡ place) }
    ensures writes { A.writes access.old access.new }
{
    access.get(place)
}

// Puts a word, if another stands there.
#[inline]
fn set_word<A: WriteWords>(sizes: &Sizes, access: &mut A, place: usize, had: u64, value: u64)
    requires words { A.spans access.old (word_count sizes.now) }
    requires inside { place < word_count sizes.now }
    requires had { slice_index (A.words access.old) place ≡ had }
    ensures put { A.words access.new ≡ slice_set (A.words access.old) place value }
    ensures words { A.spans access.new (word_count sizes.now) }
    ensures only { (i m : ℕ) → A.reached access.new i m → A.reached access.old i m ⊎ (i ≡ place) }
    ensures writes { A.writes access.old access.new }
{
    if value != had {
        access.put(place, value);
    }
}

// A cell, as the words are.
#[inline]
pub(crate) fn own_cell<A: WriteWords>(sizes: &Sizes, access: &mut A, i: u64) -> Cell
    requires region { IsRegion sizes.now }
    requires words { A.spans access.old (word_count sizes.now) }
    requires inside { i < sizes.now.cells }
    ensures value { result ≡ cell_at sizes.now (A.words access.old) i }
    ensures small { Small sizes.now result }
    ensures same { A.words access.new ≡ A.words access.old }
    ensures words { A.spans access.new (word_count sizes.now) }
    ensures near { Reaches (A.reached access.old) (A.reached access.new) sizes.now i (suc i) }
    ensures writes { A.writes access.old access.new }
{
    read_cell(sizes, access, i)
}

// The marks of a cell, as the words are.
#[inline]
fn own_marks<A: WriteWords>(sizes: &Sizes, access: &mut A, i: u64) -> CellMarks
    requires region { IsRegion sizes.now }
    requires words { A.spans access.old (word_count sizes.now) }
    requires inside { i < sizes.now.cells }
    ensures value { result ≡ cell_marks (cell_at sizes.now (A.words access.old) i) }
    ensures same { A.words access.new ≡ A.words access.old }
    ensures words { A.spans access.new (word_count sizes.now) }
    ensures near { Reaches (A.reached access.old) (A.reached access.new) sizes.now i (suc i) }
    ensures writes { A.writes access.old access.new }
{
    read_marks(sizes, access, i)
}

// Writes a number of so many bits from bit `at` on: of the one or two words that have them, those that change.
#[inline]
fn write_bits<A: WriteWords>(sizes: &Sizes, access: &mut A, at: u64, bits: u32, number: u64)
    requires words { A.spans access.old (word_count sizes.now) }
    requires bits { (1 ≤ bits) × (bits ≤ 64) }
    requires inside { at + bits ≤ 64 * word_count sizes.now }
    requires small { number < 2 ^ bits }
    ensures words { A.spans access.new (word_count sizes.now) }
    ensures put { BitsPut (A.words access.old) (A.words access.new) at bits number }
    ensures near { (i m : ℕ) → A.reached access.new i m → A.reached access.old i m ⊎ HasBits at bits i }
    ensures writes { A.writes access.old access.new }
{
    let place = (at / 64) as usize;
    let offset = (at % 64) as u32;
    let low = word_at(sizes, access, place);
    if offset + bits <= 64 {
        let mut part = [low];
        Bits::put(&mut part, offset as u64, bits, number);
        set_word(sizes, access, place, low, part[0]);
        return;
    }
    let high = word_at(sizes, access, place + 1);
    let mut part = [low, high];
    Bits::put(&mut part, offset as u64, bits, number);
    set_word(sizes, access, place, low, part[0]);
    set_word(sizes, access, place + 1, high, part[1]);
}

// Writes a cell: of the one or two words that have it, those that change.
#[inline]
pub(crate) fn write_cell<A: WriteWords>(sizes: &Sizes, access: &mut A, i: u64, cell: Cell)
    requires region { IsRegion sizes.now }
    requires words { A.spans access.old (word_count sizes.now) }
    requires inside { i < sizes.now.cells }
    requires small { Small sizes.now cell }
    ensures words { A.spans access.new (word_count sizes.now) }
    ensures here { cell_at sizes.now (A.words access.new) i ≡ cell }
    ensures others { (j : ℕ) → j ≢ i
        → cell_at sizes.now (A.words access.new) j ≡ cell_at sizes.now (A.words access.old) j }
    ensures near { Reaches (A.reached access.old) (A.reached access.new) sizes.now i (suc i) }
    ensures writes { A.writes access.old access.new }
{
    let at = start_of(sizes, i);
    let number = pack(sizes, &cell);
    write_bits(sizes, access, at, 3 + sizes.flags + sizes.quotient, number);
}

// Marks a cell as the home of a key: one bit, and of the words only the one that has it.
#[inline]
fn mark_home<A: WriteWords>(sizes: &Sizes, access: &mut A, home: u64)
    requires region { IsRegion sizes.now }
    requires words { A.spans access.old (word_count sizes.now) }
    requires inside { home < sizes.now.cells }
    ensures words { A.spans access.new (word_count sizes.now) }
    ensures here { cell_at sizes.now (A.words access.new) home
        ≡ carried true (cell_at sizes.now (A.words access.old) home) }
    ensures others { (j : ℕ) → j ≢ home
        → cell_at sizes.now (A.words access.new) j ≡ cell_at sizes.now (A.words access.old) j }
    ensures near { Reaches (A.reached access.old) (A.reached access.new) sizes.now home (suc home) }
    ensures writes { A.writes access.old access.new }
{
    let at = start_of(sizes, home) + 1;
    write_bits(sizes, access, at, 1, 1);
}

// Writes a key into its home, which is empty and then its group's only cell.
#[inline]
pub(crate) fn put_alone<A: WriteWords>(sizes: &Sizes, access: &mut A, home: u64, quotient: u64)
    requires region { IsRegion sizes.now }
    requires words { A.spans access.old (word_count sizes.now) }
    requires inside { home < sizes.now.cells }
    requires small { quotient < 2 ^ sizes.now.quotient }
    ensures words { A.spans access.new (word_count sizes.now) }
    ensures put { Put (cell_at sizes.now (A.words access.old))
        (cell_at sizes.now (A.words access.new)) home home quotient true }
    ensures near { Reaches (A.reached access.old) (A.reached access.new) sizes.now home (suc home) }
    ensures writes { A.writes access.old access.new }
{
    let cell = Cell {
        occupied: true,
        virgin: true,
        change: true,
        flags: 0,
        quotient,
    };
    write_cell(sizes, access, home, cell);
}

// Writes a key into a cell, and marks its home.
#[inline]
pub(crate) fn put_key<A: WriteWords>(
    sizes: &Sizes,
    access: &mut A,
    place: u64,
    home: u64,
    quotient: u64,
    fresh: bool,
)
    requires region { IsRegion sizes.now }
    requires words { A.spans access.old (word_count sizes.now) }
    requires inside { (place < sizes.now.cells) × (home < sizes.now.cells) }
    requires small { quotient < 2 ^ sizes.now.quotient }
    ensures words { A.spans access.new (word_count sizes.now) }
    ensures put { Put (cell_at sizes.now (A.words access.old))
        (cell_at sizes.now (A.words access.new)) place home quotient fresh }
    ensures near { (low high : ℕ) → low ≤ place → place < high → low ≤ home → home < high
        → Reaches (A.reached access.old) (A.reached access.new) sizes.now low high }
    ensures writes { A.writes access.old access.new }
{
    let before = own_marks(sizes, access, place);
    let key = Cell {
        occupied: true,
        virgin: before.virgin,
        change: fresh,
        flags: 0,
        quotient,
    };
    write_cell(sizes, access, place, key);
    mark_home(sizes, access, home);
}

// Moves the keys from `place` up to `free` by one cell. The virgin marks stay.
#[inline]
pub(crate) fn shift_up<A: WriteWords>(sizes: &Sizes, access: &mut A, place: u64, free: u64)
    requires region { IsRegion sizes.now }
    requires words { A.spans access.old (word_count sizes.now) }
    requires inside { (place ≤ free) × (free < sizes.now.cells) }
    ensures words { A.spans access.new (word_count sizes.now) }
    ensures shifted { ShiftedUp (cell_at sizes.now (A.words access.old))
        (cell_at sizes.now (A.words access.new)) place free }
    ensures near { Reaches (A.reached access.old) (A.reached access.new) sizes.now place (suc free) }
    ensures writes { A.writes access.old access.new }
{
    let mut virgin = own_marks(sizes, access, free).virgin;
    let mut at = free;
    while at > place {
        let left = own_cell(sizes, access, at - 1);
        write_cell(sizes, access, at, Cell { virgin, ..left });
        virgin = left.virgin;
        at -= 1;
    }
}

// Moves the keys from `free` to `place` down by one cell. The virgin marks stay.
pub(crate) fn shift_down<A: WriteWords>(sizes: &Sizes, access: &mut A, free: u64, place: u64)
    requires region { IsRegion sizes.now }
    requires words { A.spans access.old (word_count sizes.now) }
    requires inside { (free ≤ place) × (place < sizes.now.cells) }
    ensures words { A.spans access.new (word_count sizes.now) }
    ensures shifted { ShiftedDown (cell_at sizes.now (A.words access.old))
        (cell_at sizes.now (A.words access.new)) free place }
    ensures near { Reaches (A.reached access.old) (A.reached access.new) sizes.now free (suc place) }
    ensures writes { A.writes access.old access.new }
{
    let mut virgin = own_marks(sizes, access, free).virgin;
    let mut at = free;
    while at < place {
        let right = own_cell(sizes, access, at + 1);
        write_cell(sizes, access, at, Cell { virgin, ..right });
        virgin = right.virgin;
        at += 1;
    }
}
