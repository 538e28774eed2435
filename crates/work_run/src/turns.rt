//! A worker's lines one after another, without a division for each.

ghost use Rattle.std.specs.Prelude.{◌≡◌, ◌<◌, ◌≤◌, ◌^◌};
ghost use Rattle.tdb_base.specs.Lines.{mine};

use crate::supply::Supply;
use std::marker::Model;

/// The lines that are dealt to a worker and that it still has to take, in rising order. Contracts see the list
/// of their numbers.
#[derive(Drop)]
pub(crate) struct Turns {
    lines: u64,
    block: u64,
    // From the end of one of the worker's blocks to the beginning of the next.
    gap: u64,
    next: u64,
    block_end: u64,
}

impl Model for Turns {
    ghost use Rattle.std.specs.Prelude.{ℕ, List};
    ghost use Rattle.work_run.specs.ToCome.{lines_to_come, AreUnderway};

    ghost Value = { List ℕ };

    ghost view = { λ t. lines_to_come t.lines t.block t.gap t.next t.block_end };

    ghost invariant = { λ t. AreUnderway t.lines t.block t.gap t.next t.block_end };
}

impl Turns {
    /// All lines of worker number `worker`, from 0, of 1 to 64. There are at most `2^32` lines, and 1 to
    /// 65536 in a block.
    pub(crate) fn new(lines: u64, workers: u64, block: u64, worker: u64) -> Self
        requires workers { (worker < workers) × (workers ≤ 64) }
        requires block { (1 ≤ block) × (block ≤ 65536) }
        requires few { lines ≤ 2 ^ 32 }
        ensures { result ≡ mine lines workers block worker }
    {
        let next = worker * block;
        Turns {
            lines,
            block,
            gap: (workers - 1) * block,
            next,
            block_end: next + block,
        }
    }
}

impl Supply for Turns {
    ghost use Rattle.work_run.specs.ToCome.{dealt_lines, dealt_lines_add_up};

    ghost giving = { dealt_lines };

    fn next(&mut self) -> Option<u64> {
        let line = self.next;
        if line >= self.lines {
            return None;
        }
        self.next += 1;
        if self.next == self.block_end {
            self.next += self.gap;
            self.block_end = self.next + self.block;
        }
        Some(line)
    }

    ghost adds_up = { dealt_lines_add_up };
}
