//! Blocks of lines that the workers draw.
ghost use Rattle.std.specs.Prelude.{◌≡◌, ◌+◌, ◌<◌, All, length, slice_index};
ghost use Rattle.block_claims.specs.Drawers.{IsNew};
ghost use Rattle.work_run.specs.BlockLines.{AreBlocksOf, IsFreshLines};

use crate::block_lines::BlockLines;
use crate::dealt::{Dealing, Owners};
use block_claims::{Claims, Drawer};
use std::alloc::Global;
use tdb_base::NoMemory;

/// Each worker draws its next block when it is through with the last: it has a drawer of the same claims.
#[derive(Drop)]
pub(crate) struct Drawn<'a> {
    pub(crate) claims: &'a Claims,
    /// Those that no worker has yet.
    pub(crate) drawers: Vec<Drawer>,
    pub(crate) workers: u64,
    /// At most `2^32`.
    pub(crate) lines: u64,
    /// How many lines are in a block, 1 to 65536.
    pub(crate) block: u64,
}

impl<'a> Dealing for Drawn<'a> {
    ghost use Rattle.std.specs.Prelude.{◌≡◌};
    ghost use Rattle.work_run.specs.Drew.{CanHandOut};
    ghost use Rattle.work_run.specs.BlockLines.{IsFreshLines};

    type Lines = BlockLines<'a>;

    ghost count = { λ d. d.workers };

    ghost is_next = { λ d number. CanHandOut d.claims.now d.drawers.items d.workers d.lines d.block number };

    ghost begins = { λ d number lines. IsFreshLines d.claims.now d.lines d.block lines };

    fn room(&self, _number: u64) -> u64 {
        self.lines
    }

    fn lines_of(&mut self, alloc: Global, _number: u64) -> Result<BlockLines<'a>, NoMemory> {
        let Some(drawer) = self.drawers.pop() else {
            unreachable!()
        };
        BlockLines::new(alloc, self.claims, drawer, self.lines, self.block)
    }
}

/// The worker of each line, as they were drawn.
#[derive(Drop)]
pub(crate) struct DrawnBy {
    pub(crate) workers: Vec<u32>,
}

impl Owners for DrawnBy {
    ghost use Rattle.std.specs.Prelude.{◌<◌, length, slice_index};

    ghost owner = { λ d. slice_index d.workers.items };

    ghost knows = { λ d line. line < length d.workers.items };

    fn owner_of(&self, line: u64) -> u64 {
        self.workers[line as usize] as u64
    }
}
