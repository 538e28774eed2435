//! A worker's lines one after another, block by block, where it draws its next block when it is through with
//! the last.
ghost use Rattle.std.specs.Prelude.{◌≡◌, ◌≤◌, ◌^◌, IfOk};
ghost use Rattle.block_claims.specs.Drawers.{IsNew};
ghost use Rattle.work_run.specs.BlockLines.{AreBlocksOf, IsFreshLines, block_count, blocks_of};
ghost use Rattle.work_run.specs.Drew.{IsDrawnTrace};

use crate::supply::Supply;
use block_claims::{Claims, Drawer};
use std::alloc::Global;
use std::marker::Model;
use tdb_base::NoMemory;

/// The lines of the blocks that a worker draws, in rising order. It keeps which blocks these were.
#[derive(Drop)]
pub(crate) struct BlockLines<'a> {
    claims: &'a Claims,
    drawer: Drawer,
    // The blocks that it drew, with room for all blocks.
    blocks: Vec<u32>,
    lines: u64,
    block: u64,
    next: u64,
    block_end: u64,
}

impl<'a> Model for BlockLines<'a> {
    ghost use Rattle.std.specs.Prelude.{vec_capacity};
    ghost use Rattle.work_run.specs.BlockLines.{LinesDrawn, KeepsBlocks};

    ghost Value = { LinesDrawn };

    ghost view = { λ d. record {
      pool = d.claims.now;
      drawer = d.drawer;
      lines = d.lines;
      block = d.block;
      next = d.next;
      block_end = d.block_end;
    } };

    ghost invariant = { λ d. KeepsBlocks (record {
      pool = d.claims.now;
      drawer = d.drawer;
      lines = d.lines;
      block = d.block;
      next = d.next;
      block_end = d.block_end;
    }) d.blocks.items (vec_capacity d.blocks) };
}

/// How many blocks so many lines have: as many as have a line.
pub(crate) fn block_count(lines: u64, block: u64) -> u64
    requires numbers { IsDrawnTrace lines block }
    ensures count { result ≡ block_count lines block }
    ensures blocks { AreBlocksOf result lines block }
    ensures range { (1 ≤ result) × (result ≤ 2 ^ 32) }
{
    (lines - 1) / block + 1
}

impl<'a> BlockLines<'a> {
    /// The lines of the blocks that this drawer will draw, of a trace of so many lines: there are at most
    /// `2^32`, and 1 to 65536 in a block.
    pub(crate) fn new(
        alloc: Global,
        claims: &'a Claims,
        drawer: Drawer,
        lines: u64,
        block: u64,
    ) -> Result<Self, NoMemory>
        requires new { IsNew claims.now drawer }
        requires count { claims.now.totals.blocks ≡ block_count lines block }
        requires numbers { IsDrawnTrace lines block }
        ensures { IfOk result (IsFreshLines claims.entry.now lines block) }
    {
        let room = Vec::with_capacity(alloc, block_count(lines, block) as usize)?;
        Ok(BlockLines {
            claims,
            drawer,
            blocks: room,
            lines,
            block,
            next: 0,
            block_end: 0,
        })
    }

    /// The drawer, and the blocks that it drew.
    pub(crate) fn into_parts(self) -> (Drawer, Vec<u32>)
        ensures drawer { result.0 ≡ self.entry.drawer }
        ensures blocks { result.1.items ≡ blocks_of self.entry }
    {
        let Self {
            claims: _,
            drawer,
            blocks,
            lines: _,
            block: _,
            next: _,
            block_end: _,
        } = self;
        (drawer, blocks)
    }
}

impl<'a> Supply for BlockLines<'a> {
    ghost use Rattle.work_run.specs.BlockLines.{drawn_blocks, drawn_blocks_add_up};

    ghost giving = { drawn_blocks };

    fn next(&mut self) -> Option<u64> {
        if self.next < self.block_end {
            let line = self.next;
            self.next += 1;
            return Some(line);
        }
        if self.claims.has_ended(&self.drawer) {
            return None;
        }
        let block = self.claims.draw(&mut self.drawer)?;
        let Ok(()) = self.blocks.push(block as u32) else {
            unreachable!()
        };
        let first = block * self.block;
        self.next = first + 1;
        self.block_end = (first + self.block).min(self.lines);
        Some(first)
    }

    ghost adds_up = { drawn_blocks_add_up };
}
