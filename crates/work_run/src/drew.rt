//! Which worker drew which lines, found when all lines are answered.
ghost use Rattle.std.specs.Prelude.{◌≡◌, ℕ, ◌<◌, ◌≤◌, ◌/◌, [], All, IfOk, length, map, slice_index};
ghost use Rattle.std.specs.Prelude.{vec_capacity, vec_len};
ghost use Rattle.pair_rule.specs.Rest.{AtRest};
ghost use Rattle.work_run.specs.BlockLines.{block_count, blocks_of};
ghost use Rattle.work_run.specs.Drew.{AnswerTheirLines, AreDrawnBy, AreMarked, ArePlaced, HasDrawnFrom};
ghost use Rattle.work_run.specs.Drew.{HasMarked, IsDrawnTrace, OwnTheirLines};
ghost use Rattle.work_run.specs.Rooms.{IsPrepared, IsRoomFor};
ghost use Rattle.pair_rule.specs.Callers.{AreJoined};

use crate::block_lines::{BlockLines, block_count};
use crate::drawn::DrawnBy;
use crate::place::place;
use crate::room::Room;
use crate::shared::Shared;
use crate::worker::Worker;
use crate::workers::join_workers;
use block_claims::{Claims, Drawer};
use pair_rule::PassOf;
use std::alloc::Global;
use tdb_base::NoMemory;

/// What so many workers need to draw the blocks of a trace: claims, a drawer for each, and room for what is
/// told when all lines are answered.
pub(crate) fn prepare<T, A: Copy>(
    alloc: Global,
    lines: u64,
    workers: u64,
    block: u64,
) -> Result<(Claims, Vec<Drawer>, Room<T, A>), NoMemory>
    requires numbers { IsDrawnTrace lines block }
    requires workers { (1 ≤ workers) × (workers ≤ 64) }
    ensures { IfOk result (λ made. IsPrepared workers lines block made.0 made.1.items made.2) }
{
    let blocks = block_count(lines, block);
    let rest = Vec::with_capacity(alloc, workers as usize)?;
    let drawers = Vec::with_capacity(alloc, workers as usize)?;
    let marks = vec![in alloc; 0u32; blocks as usize]?;
    let drawn = Vec::with_capacity(alloc, lines as usize)?;
    let room = Room {
        rest,
        drawers,
        marks,
        drawn,
    };
    let (claims, drawers) = Claims::create(alloc, blocks, workers)?;
    Ok((claims, drawers, room))
}

// The workers with the blocks that they drew, and their drawers.
fn part_from_drawers<'a, T, A: Copy>(
    all_workers: Vec<Worker<T, BlockLines<'a>, A>>,
    rest: &mut Vec<Worker<T, Vec<u32>, A>>,
    drawers: &mut Vec<Drawer>,
)
    requires empty { (rest.old.items ≡ []) × (drawers.old.items ≡ []) }
    requires room { vec_len all_workers ≤ vec_capacity rest.old }
    requires drawers_room { vec_len all_workers ≤ vec_capacity drawers.old }
    ensures passes { map (λ w. w.pass) rest.new.items ≡ map (λ w. w.pass) all_workers.entry.items }
    ensures answers { map (λ w. w.answers.items) rest.new.items
        ≡ map (λ w. w.answers.items) all_workers.entry.items }
    ensures blocks { map (λ w. w.lines.items) rest.new.items
        ≡ map (λ w. blocks_of w.lines) all_workers.entry.items }
    ensures drawers { drawers.new.items ≡ map (λ w. w.lines.drawer) all_workers.entry.items }
{
    for worker in all_workers {
        let (number, pass, lines, answers) = worker.into_parts();
        let (drawer, blocks) = lines.into_parts();
        let Ok(()) = rest.push(Worker::new(number, pass, blocks, answers)) else {
            unreachable!()
        };
        let Ok(()) = drawers.push(drawer) else {
            unreachable!()
        };
    }
}

// Marks these blocks.
fn mark_blocks(blocks: &[u32], mark: u32, marks: &mut [u32])
    requires below { All (λ b. b < length marks.old) blocks.now }
    ensures { HasMarked blocks.now mark marks.old marks.new }
{
    for block in blocks {
        marks[*block as usize] = mark;
    }
}

// Marks each block with the number of a worker that drew it.
fn mark_all<T, A: Copy>(all_workers: &[Worker<T, Vec<u32>, A>], marks: &mut [u32])
    requires few { length all_workers.now ≤ 64 }
    requires below { All (λ w. All (λ b. b < length marks.old) w.lines.items) all_workers.now }
    ensures marked { AreMarked (length all_workers.now) (map (λ w. w.lines.items) all_workers.now) marks.new }
    ensures long { length marks.new ≡ length marks.old }
{
    for number in 0..all_workers.len() {
        let blocks = all_workers[number].lines.as_slice();
        mark_blocks(blocks, number as u32, marks);
    }
}

// Appends the mark of each line's block.
fn tell_lines(lines: u64, block: u64, marks: &[u32], drawn: &mut Vec<u32>)
    requires block { 1 ≤ block }
    requires inside { (i : ℕ) → i < lines → i / block < length marks.now }
    requires empty { drawn.old.items ≡ [] }
    requires room { lines ≤ vec_capacity drawn.old }
    ensures all { length drawn.new.items ≡ lines }
    ensures told { (i : ℕ) → i < lines → slice_index drawn.new.items i ≡ slice_index marks.now (i / block) }
{
    for i in 0..lines {
        let Ok(()) = drawn.push(marks[(i / block) as usize]) else {
            unreachable!()
        };
    }
}

// The worker of each line, and the workers without their drawers. Each worker has drawn all that it could.
fn tell_workers<'a, T, A: Copy>(
    claims: &Claims,
    all_workers: Vec<Worker<T, BlockLines<'a>, A>>,
    room: Room<T, A>,
    lines: u64,
    block: u64,
) -> (Vec<Worker<T, Vec<u32>, A>>, DrawnBy)
    requires drawn { All (λ w. HasDrawnFrom claims.now lines block w.lines) all_workers.items }
    requires all { vec_len all_workers ≡ claims.now.totals.drawers }
    requires some { (1 ≤ vec_len all_workers) × (vec_len all_workers ≤ 64) }
    requires blocks { claims.now.totals.blocks ≡ block_count lines block }
    requires numbers { IsDrawnTrace lines block }
    requires room { IsRoomFor (vec_len all_workers) lines (block_count lines block) room }
    ensures passes { map (λ w. w.pass) result.0.items ≡ map (λ w. w.pass) all_workers.entry.items }
    ensures answers { map (λ w. w.answers.items) result.0.items
        ≡ map (λ w. w.answers.items) all_workers.entry.items }
    ensures drew { AreDrawnBy lines (vec_len all_workers.entry) block result.1.workers.items }
    ensures own { OwnTheirLines lines block (map (λ w. blocks_of w.lines) all_workers.entry.items)
        result.1.workers.items }
{
    let Room {
        mut rest,
        mut drawers,
        mut marks,
        mut drawn,
    } = room;
    part_from_drawers(all_workers, &mut rest, &mut drawers);
    claims.gather(drawers);
    mark_all(rest.as_slice(), marks.as_mut_slice());
    tell_lines(lines, block, marks.as_slice(), &mut drawn);
    (rest, DrawnBy { workers: drawn })
}

/// The worker of each line; appends the answer to each line, in the order of the lines, and joins the workers'
/// passes into the pass.
pub(crate) fn finish_drawn<'a, S: Shared, A: Copy>(
    claims: &Claims,
    store: &S,
    pass: &mut PassOf<S::View>,
    all_workers: Vec<Worker<S::View, BlockLines<'a>, A>>,
    room: Room<S::View, A>,
    lines: u64,
    block: u64,
    answers: &mut Vec<A>,
) -> Vec<u32>
    requires rest { AtRest S.part (S.store store.now) pass.old }
    requires rests { All (λ w. AtRest S.part (S.store store.now) w.pass) all_workers.items }
    requires drawn { All (λ w. HasDrawnFrom claims.now lines block w.lines) all_workers.items }
    requires answered { AnswerTheirLines lines block all_workers.items }
    requires all { vec_len all_workers ≡ claims.now.totals.drawers }
    requires some { (1 ≤ vec_len all_workers) × (vec_len all_workers ≤ 64) }
    requires blocks { claims.now.totals.blocks ≡ block_count lines block }
    requires numbers { IsDrawnTrace lines block }
    requires room { IsRoomFor (vec_len all_workers) lines (block_count lines block) room }
    requires empty { answers.old.items ≡ [] }
    requires answers_room { lines ≤ vec_capacity answers.old }
    ensures placed { ArePlaced lines (vec_len all_workers.entry) block all_workers.entry.items answers.new.items
        result.items }
    ensures joined { AreJoined S.part (S.store store.now) pass.old pass.new (map (λ w. w.pass) all_workers.entry.items) }
{
    let (rest, drawn) = tell_workers(claims, all_workers, room, lines, block);
    place(&rest, lines, &drawn, answers);
    join_workers(store, pass, rest);
    let DrawnBy { workers } = drawn;
    workers
}
