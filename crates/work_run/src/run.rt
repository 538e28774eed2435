//! Workers do a task with the lines of a trace, which are dealt out to them; and insert them, without more.
ghost use Rattle.std.specs.Prelude.{◌≡◌, ◌≤◌, ◌^◌, IfOk, OnErr, All, length};
ghost use Rattle.pair_rule.specs.Paths.{root_buckets};
ghost use Rattle.pair_rule.specs.Rest.{AtRest, view};
ghost use Rattle.region_root.specs.Compact.{compact};
ghost use Rattle.region_root.specs.Layout.{most};
ghost use Rattle.root_plain.specs.Plain.{plain};
ghost use Rattle.tree_store.specs.Vectors.{IsVector};
ghost use Rattle.work_run.specs.Enough.{HasBucketsFor, NoRootIsFull};
ghost use Rattle.pair_rule.specs.Callers.{Unused};
ghost use Rattle.work_run.specs.Ran.{HasRun, HasRunTask, FewPuts};

use crate::dealt::Dealt;
use crate::place::place;
use crate::shared::{Compact, Plain, Shared};
use crate::task::{Insertion, Task};
use crate::work::work_at_once;
use crate::workers::{join_workers, split_workers};
use pair_rule::PassOf;
use std::alloc::Global;
use std::sync::Wait;
use std::thread::Threads;
use tdb_base::{Gate, NoMemory, Reply};
use trace_csv::Trace;
use tree_store::{CompactPass, CompactStore, PlainPass, PlainStore};

/// Lets 1 to 64 workers do the task with the lines of a trace, each with a pass of its own that is split from
/// `pass` and joined into it again: the answer to each line. All memory is taken before the first line: after
/// `NoMemory` nothing was done with any, and the pass has what it had.
pub(crate) fn run_task<R: Threads + Sync, S: Shared, T: Task, G: Gate>(
    rt: &R,
    alloc: Global,
    store: &S,
    task: &T,
    pass: &mut PassOf<S::View>,
    trace: &Trace,
    workers: u64,
    block: u64,
    gate: &G,
) -> Result<Vec<T::Answer>, NoMemory>
    requires fits { T.fits task.now (S.store store.now).about.flags }
    requires rest { AtRest S.part (S.store store.now) pass.old }
    requires lines { length trace.now ≤ 2 ^ 32 }
    requires fit { All (IsVector (S.store store.now).about) trace.now }
    requires workers { (1 ≤ workers) × (workers ≤ 64) }
    requires block { (1 ≤ block) × (block ≤ 65536) }
    ensures rest { AtRest S.part (S.store store.now) pass.new }
    ensures ran { IfOk result (λ answers. HasRunTask (T.telling task.now) S.part (S.store store.now).about
        trace.now answers.items workers block pass.old pass.new) }
    ensures refused { OnErr result (Unused pass.old pass.new) }
{
    let dealt = Dealt {
        lines: trace.len(),
        workers,
        block,
    };
    let mut dealing = dealt;
    let mut answers = Vec::with_capacity(alloc, trace.len() as usize)?;
    let mut all_workers = split_workers(alloc, store, pass, &mut dealing, workers)?;
    work_at_once(rt, store, task, trace, &mut all_workers, gate);
    place(&all_workers, trace.len(), &dealt, &mut answers);
    join_workers(store, pass, all_workers);
    Ok(answers)
}

/// Lets 1 to 64 workers insert the lines of a trace, each with a pass of its own that is split from `pass`
/// and joined into it again: the reply to each line.
///
/// The lines are those of the store, at most `2^32`, and are dealt out in blocks of 1 to 65536. The replies
/// form one history with what the pass had seen, each worker's lines once and in their order. A line is full
/// only where a pair of its vector's tree has no place then, and never in a new store with room for all lines.
/// The gate is called round each line, with the
/// worker's number from 0, the line's from 1, and the steps of its insertion. All memory is taken before the
/// first line is inserted: after `NoMemory` none was, and the pass has what it had. It waits for nobody.
pub fn run_lines<R: Threads + Sync, G: Gate, const W: u32, const F: u32>(
    rt: &R,
    alloc: Global,
    store: &PlainStore<W, F>,
    pass: &mut PlainPass<W, F>,
    trace: &Trace,
    workers: u64,
    block: u64,
    gate: &G,
) -> Result<Vec<Reply>, NoMemory>
    requires rest { AtRest plain store.now pass.old }
    requires lines { length trace.now ≤ 2 ^ 32 }
    requires fit { All (IsVector store.now.about) trace.now }
    requires workers { (1 ≤ workers) × (workers ≤ 64) }
    requires block { (1 ≤ block) × (block ≤ 65536) }
    ensures rest { AtRest plain store.now pass.new }
    ensures ran { IfOk result (λ replies.
        HasRun plain store.now.about trace.now replies.items workers block pass.old pass.new) }
    ensures enough_roots { IfOk result (λ replies. NoRootIsFull (view pass.old)
        (HasBucketsFor (length trace.now) (root_buckets store.now.about)) replies.items) }
    ensures refused { OnErr result (Unused pass.old pass.new) }
{
    let shared = Plain { store };
    run_task(
        rt, alloc, &shared, &Insertion, pass, trace, workers, block, gate,
    )
}

/// The same over a compact store, but an insertion may wait for the lock of a root's region. A line is full
/// only where a pair of its vector's tree has no place then, or its root has none in its region.
pub fn run_lines_waiting<R: Threads + Wait + Sync, G: Gate, const W: u32, const F: u32>(
    rt: &R,
    alloc: Global,
    store: &CompactStore<W, F>,
    pass: &mut CompactPass<W, F>,
    trace: &Trace,
    workers: u64,
    block: u64,
    gate: &G,
) -> Result<Vec<Reply>, NoMemory>
    requires rest { AtRest (compact W F) store.now pass.old }
    requires lines { length trace.now ≤ 2 ^ 32 }
    requires fit { All (IsVector store.now.about) trace.now }
    requires workers { (1 ≤ workers) × (workers ≤ 64) }
    requires block { (1 ≤ block) × (block ≤ 65536) }
    ensures rest { AtRest (compact W F) store.now pass.new }
    ensures ran { IfOk result (λ replies.
        HasRun (compact W F) store.now.about trace.now replies.items workers block pass.old pass.new) }
    ensures enough_roots { IfOk result (λ replies. NoRootIsFull (view pass.old)
        (length trace.now ≤ most store.now.about) replies.items) }
    ensures refused { OnErr result (Unused pass.old pass.new) }
{
    let shared = Compact { rt, store };
    run_task(
        rt, alloc, &shared, &Insertion, pass, trace, workers, block, gate,
    )
}

/// A tree has `slots - 2` inner positions, and no line has to be put at more: that bounds the nodes that a
/// run has to put, whoever inserts the lines.
pub fn puts_are_few()
    ensures { FewPuts }
{}
