//! The lines of a trace are inserted into a store, in blocks that are dealt out to the workers, or that they
//! draw; or inserted and marked.
ghost use Rattle.std.specs.Prelude.{◌≡◌, ◌≤◌, ◌^◌, All, IfOk, OnErr, length};
ghost use Rattle.pair_rule.specs.Paths.{root_buckets};
ghost use Rattle.pair_rule.specs.Rest.{AtRest, view};
ghost use Rattle.region_root.specs.Compact.{compact};
ghost use Rattle.region_root.specs.Layout.{most};
ghost use Rattle.root_plain.specs.Plain.{plain};
ghost use Rattle.tree_store.specs.Vectors.{IsVector};
ghost use Rattle.work_run.specs.Enough.{HasBucketsFor, NoRootIsFull};
ghost use Rattle.pair_rule.specs.Callers.{Unused};
ghost use Rattle.command_line.specs.Rules.{flag_count};
ghost use Rattle.command_line.specs.Valid.{IsValid};
ghost use Rattle.treedb.specs.Filling.{HasInserted};
ghost use Rattle.treedb.specs.Sharing.{way_of};

use command_line::{Choice, Job};
use std::alloc::Global;
use std::sync::Wait;
use std::thread::Threads;
use tdb_base::{Gate, NoMemory, Reply};
use trace_csv::Trace;
use tree_store::{CompactPass, CompactStore, PlainPass, PlainStore};
use work_run::{
    mark_lines, mark_lines_waiting, run_drawn, run_drawn_waiting, run_lines, run_lines_waiting,
};

/// What is done with the lines of a trace.
#[derive(Clone, Copy)]
pub enum Way {
    /// Blocks are dealt out to the workers, and the lines inserted.
    Deal,
    /// Each worker draws its blocks, and the lines are inserted.
    Draw,
    /// Blocks are dealt out, and a flag of each line's vector is set right after its insertion.
    Mark,
}

/// What is told of each line beside its reply.
#[derive(Drop)]
pub enum Beside {
    /// No more than the reply.
    Nothing,
    /// The worker that drew it.
    Drawers(Vec<u32>),
    /// Whether its vector's flag was clear when it was set for the line.
    Marks(Vec<bool>),
}

/// The reply to each line, and what is told beside it.
#[derive(Drop)]
pub struct LineReplies {
    /// The reply to each line.
    pub replies: Vec<Reply>,
    /// What is told of each line beside its reply.
    pub beside: Beside,
}

// What a choice does with its lines.
fn way_of(choice: &Choice) -> Way
    ensures { result ≡ way_of choice.now }
{
    match choice.job {
        Job::Insert | Job::Bench => { if choice.claims { Way::Draw } else { Way::Deal } }
        Job::Distinct | Job::Check => Way::Deal,
        Job::Mark => Way::Mark,
    }
}

/// Inserts the lines into a plain store, as the choice says. After `NoMemory` no line was inserted.
pub fn insert_plainly<R: Threads + Sync, G: Gate, const W: u32, const F: u32>(
    rt: &R,
    alloc: Global,
    store: &PlainStore<W, F>,
    pass: &mut PlainPass<W, F>,
    choice: &Choice,
    trace: &Trace,
    gate: &G,
) -> Result<LineReplies, NoMemory>
    requires valid { IsValid choice.now }
    requires flags { store.now.about.flags ≡ flag_count choice.now.profile }
    requires rest { AtRest plain store.now pass.old }
    requires lines { length trace.now ≤ 2 ^ 32 }
    requires fit { All (IsVector store.now.about) trace.now }
    ensures rest { AtRest plain store.now pass.new }
    ensures inserted { IfOk result
        (HasInserted plain choice.now store.now.about trace.now pass.old pass.new) }
    ensures enough_roots { IfOk result (λ made. NoRootIsFull (view pass.old)
        (HasBucketsFor (length trace.now) (root_buckets store.now.about)) made.replies.items) }
    ensures refused { OnErr result (Unused pass.old pass.new) }
{
    let workers = choice.workers;
    let block = choice.block;
    match way_of(choice) {
        Way::Deal => {
            let replies = run_lines(rt, alloc, store, pass, trace, workers, block, gate)?;
            let beside = Beside::Nothing;
            Ok(LineReplies { replies, beside })
        }
        Way::Draw => {
            let (replies, drawn) = run_drawn(rt, alloc, store, pass, trace, workers, block, gate)?;
            let beside = Beside::Drawers(drawn);
            Ok(LineReplies { replies, beside })
        }
        Way::Mark => {
            let flag = choice.flag;
            let (replies, firsts) = mark_lines(
                rt, alloc, store, pass, trace, workers, block, flag, gate,
            )?;
            let beside = Beside::Marks(firsts);
            Ok(LineReplies { replies, beside })
        }
    }
}

/// The same over a compact store, but an insertion may wait for the lock of a root's region.
pub fn insert_waiting<R: Threads + Wait + Sync, G: Gate, const W: u32, const F: u32>(
    rt: &R,
    alloc: Global,
    store: &CompactStore<W, F>,
    pass: &mut CompactPass<W, F>,
    choice: &Choice,
    trace: &Trace,
    gate: &G,
) -> Result<LineReplies, NoMemory>
    requires valid { IsValid choice.now }
    requires flags { store.now.about.flags ≡ flag_count choice.now.profile }
    requires rest { AtRest (compact W F) store.now pass.old }
    requires lines { length trace.now ≤ 2 ^ 32 }
    requires fit { All (IsVector store.now.about) trace.now }
    ensures rest { AtRest (compact W F) store.now pass.new }
    ensures inserted { IfOk result
        (HasInserted (compact W F) choice.now store.now.about trace.now pass.old pass.new) }
    ensures enough_roots { IfOk result (λ made. NoRootIsFull (view pass.old)
        (length trace.now ≤ most store.now.about) made.replies.items) }
    ensures refused { OnErr result (Unused pass.old pass.new) }
{
    let workers = choice.workers;
    let block = choice.block;
    match way_of(choice) {
        Way::Deal => {
            let replies = run_lines_waiting(rt, alloc, store, pass, trace, workers, block, gate)?;
            let beside = Beside::Nothing;
            Ok(LineReplies { replies, beside })
        }
        Way::Draw => {
            let (replies, drawn) = run_drawn_waiting(
                rt, alloc, store, pass, trace, workers, block, gate,
            )?;
            let beside = Beside::Drawers(drawn);
            Ok(LineReplies { replies, beside })
        }
        Way::Mark => {
            let flag = choice.flag;
            let (replies, firsts) = mark_lines_waiting(
                rt, alloc, store, pass, trace, workers, block, flag, gate,
            )?;
            let beside = Beside::Marks(firsts);
            Ok(LineReplies { replies, beside })
        }
    }
}
