//! Counts the locks that the workers take who insert a trace into a compact store.
ghost use Rattle.std.specs.Prelude.{◌≡◌, ◌≤◌, true, All};
ghost use Rattle.tree_store.specs.Vectors.{IsVector};

use crate::input::{FLAGS, WIDTH, all_fit, read_input};
use pair_rule::Sizes;
use region_root::locks_taken;
use std::alloc::Global;
use std::io;
use std::process::ExitCode;
use std::sync::Wait;
use std::thread::Threads;
use tdb_base::NoGate;
use trace_csv::Trace;
use tree_shape::Shape;
use tree_store::CompactStore;
use work_run::run_lines_waiting;

// The lines of a block that a worker is dealt.
const BLOCK: u64 = 64;

// How often a lock was taken, and how many vectors have a name, after so many workers inserted the trace into
// a new store; None where it has no room or memory.
fn insert<H: Threads + Wait + Sync>(
    handle: &H,
    alloc: Global,
    trace: &Trace,
    sizes: &Sizes,
    workers: u64,
) -> Option<(u64, u64)>
    requires { (1 ≤ workers) × (workers ≤ 64) }
{
    let shape = Shape::new(trace.slots()).ok()?;
    let (store, mut pass) = CompactStore::<WIDTH, FLAGS>::create(alloc, shape, sizes).ok()?;
    if trace.len() > 1 << 32 || !all_fit(&store, trace) {
        return None;
    }
    let replies = run_lines_waiting(
        handle, alloc, &store, &mut pass, trace, workers, BLOCK, &NoGate,
    )
    .ok()?;
    if replies.iter().any(|reply| reply.is_full()) {
        return None;
    }
    Some((locks_taken(store.nodes()), store.names_made(&pass)))
}

/// Inserts the trace that standard input gives, by so many workers, into a compact store of these sizes, and
/// prints how many vectors got a name and how often a lock was taken.
pub fn count<H: Threads + Wait + Sync>(
    rt: &HostRuntime,
    handle: &H,
    sizes: &Sizes,
    workers: u64,
) -> io::Result<ExitCode>
    requires { (1 ≤ workers) × (workers ≤ 64) }
{
    let Some(trace) = read_input(rt)? else {
        return Ok(ExitCode::from(1));
    };
    let Some((locks, names)) = insert(handle, rt.alloc(), &trace, sizes, workers) else {
        eprintln!(rt; "measure: a line had no room, or memory ran out")?;
        return Ok(ExitCode::from(1));
    };
    eprintln!(rt;
        "locks {} lines, {} names, {} locks taken",
        trace.len(),
        names,
        locks
    )?;
    Ok(ExitCode::from(0))
}
