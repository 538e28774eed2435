//! A cell, and the number that it is written as.

ghost use Rattle.std.specs.Prelude.{◌≡◌, ◌+◌, ◌*◌, ◌^◌, ◌<◌, ◌≤◌};
ghost use Rattle.cleary_core.specs.Cells.{width, Small, mark_of, packed, unpacked, marks_in};

/// The sizes of a region.
#[derive(Clone, Copy)]
pub struct Sizes {
    /// How many cells: a multiple of 64, at most 4096.
    pub cells: u64,
    /// How many bits a cell has for flags: at least 1, and with the quotient's at most 60.
    pub flags: u32,
    /// How many it has for a quotient: at least 1.
    pub quotient: u32,
}

/// One cell: three marks, and the flags and the quotient of the key that stands here.
#[derive(Clone, Copy)]
pub struct Cell {
    /// Whether a key stands here. All other bits of a cell where none does are 0.
    pub occupied: bool,
    /// Whether some key has this cell as its home, wherever that key stands.
    pub virgin: bool,
    /// Whether this is the last cell of a group.
    pub change: bool,
    /// The key's flags as one number.
    pub flags: u64,
    /// The key's quotient.
    pub quotient: u64,
}

// The marks of a cell, without its flags and its quotient.
#[derive(Clone, Copy)]
pub(crate) struct CellMarks {
    pub(crate) occupied: bool,
    pub(crate) virgin: bool,
    pub(crate) change: bool,
}

// The first bit of a cell.
#[inline]
pub(crate) fn start_of(sizes: &Sizes, i: u64) -> u64
    requires { (sizes.now.flags + sizes.now.quotient ≤ 60) × (i < 4096) }
    ensures value { result ≡ i * width sizes.now }
    ensures small { result < 2 ^ 31 }
{
    i * (3 + (sizes.flags as u64) + (sizes.quotient as u64))
}

// The cell that is written as this number.
#[inline]
pub(crate) fn unpack(sizes: &Sizes, word: u64) -> Cell
    requires few { sizes.now.flags + sizes.now.quotient ≤ 60 }
    requires small { word < 2 ^ width sizes.now }
    ensures value { result ≡ unpacked sizes.now word }
    ensures small { Small sizes.now result }
{
    let rest = word / 8;
    Cell {
        occupied: word % 2 == 1,
        virgin: word / 2 % 2 == 1,
        change: word / 4 % 2 == 1,
        flags: rest & ((1u64 << sizes.flags) - 1),
        quotient: rest >> sizes.flags,
    }
}

// The marks of the cell whose number has these lowest bits.
#[inline]
pub(crate) fn unmark(word: u64) -> CellMarks
    ensures { result ≡ marks_in word }
{
    CellMarks {
        occupied: word % 2 == 1,
        virgin: word / 2 % 2 == 1,
        change: word / 4 % 2 == 1,
    }
}

// A mark as a number.
#[inline]
pub(crate) fn mark(set: bool) -> u64
    ensures value { result ≡ mark_of set }
    ensures small { result < 2 }
{
    if set { 1 } else { 0 }
}

// The quotient and the flags as one number.
#[inline]
fn join(sizes: &Sizes, flags: u64, quotient: u64) -> u64
    requires few { sizes.now.flags + sizes.now.quotient ≤ 60 }
    requires small { (flags < 2 ^ sizes.now.flags) × (quotient < 2 ^ sizes.now.quotient) }
    ensures value { result ≡ quotient * 2 ^ sizes.now.flags + flags }
    ensures small { result < 2 ^ (sizes.now.flags + sizes.now.quotient) }
    ensures room { result < 2 ^ 60 }
{
    (quotient << sizes.flags) | flags
}

// The number that a cell is written as.
#[inline]
pub(crate) fn pack(sizes: &Sizes, cell: &Cell) -> u64
    requires few { sizes.now.flags + sizes.now.quotient ≤ 60 }
    requires small { Small sizes.now cell.now }
    ensures value { result ≡ packed sizes.now cell.now }
    ensures small { result < 2 ^ width sizes.now }
{
    let rest = join(sizes, cell.flags, cell.quotient);
    mark(cell.occupied) + 2 * (mark(cell.virgin) + 2 * (mark(cell.change) + 2 * rest))
}
