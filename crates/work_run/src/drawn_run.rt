//! Workers do a task with the lines of a trace, in blocks that they draw; and insert them, without more.
ghost use Rattle.std.specs.Prelude.{◌≤◌, ◌^◌, IfOk, OnErr, All, length};
ghost use Rattle.pair_rule.specs.Paths.{root_buckets};
ghost use Rattle.pair_rule.specs.Rest.{AtRest, view};
ghost use Rattle.region_root.specs.Compact.{compact};
ghost use Rattle.region_root.specs.Layout.{most};
ghost use Rattle.root_plain.specs.Plain.{plain};
ghost use Rattle.tree_store.specs.Vectors.{IsVector};
ghost use Rattle.work_run.specs.Drew.{HasRunDrawn, HasRunDrawnTask};
ghost use Rattle.work_run.specs.Enough.{HasBucketsFor, NoRootIsFull};
ghost use Rattle.pair_rule.specs.Callers.{Unused};

use crate::drawn::Drawn;
use crate::drew::{finish_drawn, prepare};
use crate::shared::{Compact, Plain, Shared};
use crate::task::{Insertion, Task};
use crate::work::work_at_once;
use crate::workers::split_workers;
use pair_rule::PassOf;
use std::alloc::Global;
use std::sync::Wait;
use std::thread::Threads;
use tdb_base::{Gate, NoMemory, Reply};
use trace_csv::Trace;
use tree_store::{CompactPass, CompactStore, PlainPass, PlainStore};

/// Lets 1 to 64 workers do the task with the lines of a trace, as `run_task` does, but each worker draws its
/// next block when it is through with the last: the answer to each line, and the number of the worker that
/// drew it.
pub(crate) fn run_drawn_task<R: Threads + Sync, S: Shared, T: Task, G: Gate>(
    rt: &R,
    alloc: Global,
    store: &S,
    task: &T,
    pass: &mut PassOf<S::View>,
    trace: &Trace,
    workers: u64,
    block: u64,
    gate: &G,
) -> Result<(Vec<T::Answer>, Vec<u32>), NoMemory>
    requires fits { T.fits task.now (S.store store.now).about.flags }
    requires rest { AtRest S.part (S.store store.now) pass.old }
    requires lines { length trace.now ≤ 2 ^ 32 }
    requires fit { All (IsVector (S.store store.now).about) trace.now }
    requires workers { (1 ≤ workers) × (workers ≤ 64) }
    requires block { (1 ≤ block) × (block ≤ 65536) }
    ensures rest { AtRest S.part (S.store store.now) pass.new }
    ensures ran { IfOk result (λ made. HasRunDrawnTask (T.telling task.now) S.part (S.store store.now).about
        trace.now made.0.items made.1.items workers block pass.old pass.new) }
    ensures refused { OnErr result (Unused pass.old pass.new) }
{
    let lines = trace.len();
    let mut answers = Vec::with_capacity(alloc, lines as usize)?;
    let (claims, drawers, room) = prepare(alloc, lines, workers, block)?;
    let mut dealing = Drawn {
        claims: &claims,
        drawers,
        workers,
        lines,
        block,
    };
    let mut all_workers = split_workers(alloc, store, pass, &mut dealing, workers)?;
    work_at_once(rt, store, task, trace, &mut all_workers, gate);
    let drawn = finish_drawn(
        &claims,
        store,
        pass,
        all_workers,
        room,
        lines,
        block,
        &mut answers,
    );
    Ok((answers, drawn))
}

/// Lets 1 to 64 workers insert the lines of a trace, as `run_lines` does, but each worker draws its next
/// block when it is through with the last: the reply to each line, and the number of the worker that drew it.
///
/// A worker may draw every block, so each has room for the replies to all lines. All memory is taken before
/// the first line is inserted: after `NoMemory` none was, and the pass has what it had. It waits for nobody.
pub fn run_drawn<R: Threads + Sync, G: Gate, const W: u32, const F: u32>(
    rt: &R,
    alloc: Global,
    store: &PlainStore<W, F>,
    pass: &mut PlainPass<W, F>,
    trace: &Trace,
    workers: u64,
    block: u64,
    gate: &G,
) -> Result<(Vec<Reply>, Vec<u32>), NoMemory>
    requires rest { AtRest plain store.now pass.old }
    requires lines { length trace.now ≤ 2 ^ 32 }
    requires fit { All (IsVector store.now.about) trace.now }
    requires workers { (1 ≤ workers) × (workers ≤ 64) }
    requires block { (1 ≤ block) × (block ≤ 65536) }
    ensures rest { AtRest plain store.now pass.new }
    ensures ran { IfOk result (λ made. HasRunDrawn plain store.now.about trace.now made.0.items
        made.1.items workers block pass.old pass.new) }
    ensures enough_roots { IfOk result (λ made. NoRootIsFull (view pass.old)
        (HasBucketsFor (length trace.now) (root_buckets store.now.about)) made.0.items) }
    ensures refused { OnErr result (Unused pass.old pass.new) }
{
    let shared = Plain { store };
    run_drawn_task(
        rt, alloc, &shared, &Insertion, pass, trace, workers, block, gate,
    )
}

/// The same over a compact store, but an insertion may wait for the lock of a root's region.
pub fn run_drawn_waiting<R: Threads + Wait + Sync, G: Gate, const W: u32, const F: u32>(
    rt: &R,
    alloc: Global,
    store: &CompactStore<W, F>,
    pass: &mut CompactPass<W, F>,
    trace: &Trace,
    workers: u64,
    block: u64,
    gate: &G,
) -> Result<(Vec<Reply>, Vec<u32>), NoMemory>
    requires rest { AtRest (compact W F) store.now pass.old }
    requires lines { length trace.now ≤ 2 ^ 32 }
    requires fit { All (IsVector store.now.about) trace.now }
    requires workers { (1 ≤ workers) × (workers ≤ 64) }
    requires block { (1 ≤ block) × (block ≤ 65536) }
    ensures rest { AtRest (compact W F) store.now pass.new }
    ensures ran { IfOk result (λ made. HasRunDrawn (compact W F) store.now.about trace.now made.0.items
        made.1.items workers block pass.old pass.new) }
    ensures enough_roots { IfOk result (λ made. NoRootIsFull (view pass.old)
        (length trace.now ≤ most store.now.about) made.0.items) }
    ensures refused { OnErr result (Unused pass.old pass.new) }
{
    let shared = Compact { rt, store };
    run_drawn_task(
        rt, alloc, &shared, &Insertion, pass, trace, workers, block, gate,
    )
}
