//! Workers insert the lines of a trace, and set a flag of each line's vector.
ghost use Rattle.std.specs.Prelude.{◌≡◌, ◌<◌, ◌≤◌, ◌^◌, [], IfOk, OnErr, All, length, map};
ghost use Rattle.std.specs.Prelude.{vec_capacity, vec_len};
ghost use Rattle.pair_rule.specs.Paths.{root_buckets};
ghost use Rattle.pair_rule.specs.Rest.{AtRest, view};
ghost use Rattle.region_root.specs.Compact.{compact};
ghost use Rattle.region_root.specs.Layout.{most};
ghost use Rattle.root_plain.specs.Plain.{plain};
ghost use Rattle.tree_store.specs.Vectors.{IsVector};
ghost use Rattle.work_run.specs.Enough.{HasBucketsFor, NoRootIsFull};
ghost use Rattle.work_run.specs.Marks.{HasRunMarked, MarkersMayBeRenumbered, MarksAreCounted};
ghost use Rattle.pair_rule.specs.Callers.{Unused};

use crate::run::run_task;
use crate::shared::{Compact, Plain, Shared};
use crate::task::Marking;
use pair_rule::PassOf;
use std::alloc::Global;
use std::sync::Wait;
use std::thread::Threads;
use tdb_base::{Gate, NoMemory, Reply};
use trace_csv::Trace;
use tree_store::{CompactPass, CompactStore, PlainPass, PlainStore};

// The replies and the marks, each in a list of its own.
fn part_marks(answers: &[(Reply, bool)], replies: &mut Vec<Reply>, firsts: &mut Vec<bool>)
    requires empty { (replies.old.items ≡ []) × (firsts.old.items ≡ []) }
    requires room { length answers.now ≤ vec_capacity replies.old }
    requires firsts_room { length answers.now ≤ vec_capacity firsts.old }
    ensures replies { replies.new.items ≡ map (λ a. a.0) answers.now }
    ensures firsts { firsts.new.items ≡ map (λ a. a.1) answers.now }
{
    for (reply, first) in answers {
        let Ok(()) = replies.push(*reply) else {
            unreachable!()
        };
        let Ok(()) = firsts.push(*first) else {
            unreachable!()
        };
    }
}

// Workers insert the lines and mark their vectors, in any store.
fn mark_all<R: Threads + Sync, S: Shared, G: Gate>(
    rt: &R,
    alloc: Global,
    store: &S,
    pass: &mut PassOf<S::View>,
    trace: &Trace,
    workers: u64,
    block: u64,
    flag: u32,
    gate: &G,
) -> Result<(Vec<Reply>, Vec<bool>), NoMemory>
    requires rest { AtRest S.part (S.store store.now) pass.old }
    requires lines { length trace.now ≤ 2 ^ 32 }
    requires fit { All (IsVector (S.store store.now).about) trace.now }
    requires workers { (1 ≤ workers) × (workers ≤ 64) }
    requires block { (1 ≤ block) × (block ≤ 65536) }
    requires flag { flag < (S.store store.now).about.flags }
    ensures rest { AtRest S.part (S.store store.now) pass.new }
    ensures ran { IfOk result (λ made. HasRunMarked S.part (S.store store.now).about trace.now made.0.items
        made.1.items workers block flag pass.old pass.new) }
    ensures refused { OnErr result (Unused pass.old pass.new) }
{
    let mut replies = Vec::with_capacity(alloc, trace.len() as usize)?;
    let mut firsts = Vec::with_capacity(alloc, trace.len() as usize)?;
    let task = Marking { flag };
    let answers = run_task(rt, alloc, store, &task, pass, trace, workers, block, gate)?;
    part_marks(answers.as_slice(), &mut replies, &mut firsts);
    Ok((replies, firsts))
}

/// Lets 1 to 64 workers insert the lines of a trace, as `run_lines` does, and set a flag of each line's
/// vector right after it: the reply to each line, and whether the flag was clear when it was set for the
/// line.
///
/// The flag is below `F`. Setting it is a call of its own on the identifier that the line was answered. A
/// line that is answered full is not marked, and its mark is false. A line may be new and find its flag set,
/// since another worker may have set it in between. The steps that the gate gets are those of the insertion.
/// All memory is taken before the first line is inserted: after `NoMemory` none was, and the pass has what it
/// had. It waits for nobody.
pub fn mark_lines<R: Threads + Sync, G: Gate, const W: u32, const F: u32>(
    rt: &R,
    alloc: Global,
    store: &PlainStore<W, F>,
    pass: &mut PlainPass<W, F>,
    trace: &Trace,
    workers: u64,
    block: u64,
    flag: u32,
    gate: &G,
) -> Result<(Vec<Reply>, Vec<bool>), NoMemory>
    requires rest { AtRest plain store.now pass.old }
    requires lines { length trace.now ≤ 2 ^ 32 }
    requires fit { All (IsVector store.now.about) trace.now }
    requires workers { (1 ≤ workers) × (workers ≤ 64) }
    requires block { (1 ≤ block) × (block ≤ 65536) }
    requires flag { flag < store.now.about.flags }
    ensures rest { AtRest plain store.now pass.new }
    ensures ran { IfOk result (λ made. HasRunMarked plain store.now.about trace.now made.0.items
        made.1.items workers block flag pass.old pass.new) }
    ensures enough_roots { IfOk result (λ made. NoRootIsFull (view pass.old)
        (HasBucketsFor (length trace.now) (root_buckets store.now.about)) made.0.items) }
    ensures refused { OnErr result (Unused pass.old pass.new) }
{
    let shared = Plain { store };
    mark_all(rt, alloc, &shared, pass, trace, workers, block, flag, gate)
}

/// The same over a compact store, but inserting a line and setting its flag may each wait for the lock of a
/// root's region.
pub fn mark_lines_waiting<R: Threads + Wait + Sync, G: Gate, const W: u32, const F: u32>(
    rt: &R,
    alloc: Global,
    store: &CompactStore<W, F>,
    pass: &mut CompactPass<W, F>,
    trace: &Trace,
    workers: u64,
    block: u64,
    flag: u32,
    gate: &G,
) -> Result<(Vec<Reply>, Vec<bool>), NoMemory>
    requires rest { AtRest (compact W F) store.now pass.old }
    requires lines { length trace.now ≤ 2 ^ 32 }
    requires fit { All (IsVector store.now.about) trace.now }
    requires workers { (1 ≤ workers) × (workers ≤ 64) }
    requires block { (1 ≤ block) × (block ≤ 65536) }
    requires flag { flag < store.now.about.flags }
    ensures rest { AtRest (compact W F) store.now pass.new }
    ensures ran { IfOk result (λ made. HasRunMarked (compact W F) store.now.about trace.now made.0.items
        made.1.items workers block flag pass.old pass.new) }
    ensures enough_roots { IfOk result (λ made. NoRootIsFull (view pass.old)
        (length trace.now ≤ most store.now.about) made.0.items) }
    ensures refused { OnErr result (Unused pass.old pass.new) }
{
    let shared = Compact { rt, store };
    mark_all(rt, alloc, &shared, pass, trace, workers, block, flag, gate)
}

/// Where nobody called before the run, as many lines are marked first as there are names, which are as many
/// as are answered new, and each vector that has a name is marked first once.
pub fn marks_are_counted()
    ensures { MarksAreCounted }
{}

/// Such a run's callers may be told under the numbers of the workers, from 0.
pub fn markers_may_be_renumbered()
    ensures { MarkersMayBeRenumbered }
{}
