//! The lines of a trace, in one flat list.
ghost use Rattle.std.specs.Prelude.{◌≡◌, ◌*◌, ◌^◌, ◌<◌, ◌≤◌, ℕ, List, All, Some, length, slice_get, vec_len};
ghost use Rattle.trace_csv.specs.Pieces.{AreLines, pieces};

use std::marker::Model;

/// The lines of a trace: vectors of one length, at least one of them. Contracts see the list of the lines.
#[derive(Drop)]
pub struct Trace {
    numbers: Vec<u32>,
    slots: usize,
    lines: u64,
}

impl Model for Trace {
    ghost Value = { List (List ℕ) };

    ghost view = { λ t. pieces t.slots t.lines t.numbers.items };

    ghost invariant = { λ t. AreLines (vec_len t.numbers) t.slots t.lines };
}

impl Trace {
    // The lines that stand one after the other in one list.
    pub(crate) fn of_numbers(numbers: Vec<u32>, slots: usize, lines: u64) -> Trace
        requires { AreLines (vec_len numbers) slots lines }
        ensures { result ≡ pieces slots lines numbers.items }
    {
        Trace {
            numbers,
            slots,
            lines,
        }
    }

    /// How many lines there are, at least 1.
    pub fn len(&self) -> u64
        ensures count { result ≡ length self.now }
        ensures some { 0 < result }
    {
        self.lines
    }

    /// How many slots each line has, 2 to 1024. All lines together have less than 2^63.
    pub fn slots(&self) -> usize
        ensures each { All (λ line. length line ≡ result) self.now }
        ensures some { 0 < length self.now }
        ensures least { 2 ≤ result }
        ensures most { result ≤ 1024 }
        ensures numbers { length self.now * result < 2 ^ 63 }
    {
        self.slots
    }

    /// The line of this number, counted from 0.
    pub fn line(&self, i: u64) -> &[u32]
        requires { i < length self.now }
        ensures { slice_get self.now i ≡ Some result.now }
    {
        let (_, rest) = self.numbers.split_at(i as usize * self.slots);
        let (line, _) = rest.split_at(self.slots);
        line
    }
}
