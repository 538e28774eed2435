//! Times the insertion of a trace into plain stores, in blocks that are dealt out and in blocks that workers
//! draw.
ghost use Rattle.std.specs.Prelude.{◌≡◌, ◌≤◌, true, All, IfSome};
ghost use Rattle.tree_store.specs.Vectors.{IsVector};

use crate::clock::nanoseconds_since;
use crate::input::{FLAGS, WIDTH, all_fit, read_input};
use pair_rule::Sizes;
use std::alloc::Global;
use std::io;
use std::process::ExitCode;
use std::thread::Threads;
use std::time::Instant;
use tdb_base::NoGate;
use trace_csv::Trace;
use tree_shape::Shape;
use tree_store::{PlainPass, PlainStore};
use work_run::{run_drawn, run_lines};

// How the lines are shared out, and among how many workers.
#[derive(Clone, Copy)]
pub struct Sharing {
    /// How many workers: 1 to 64.
    pub workers: u64,
    /// The lines of a block: 1 to 65536.
    pub block: u64,
}

// The least exponent from 3 up whose power of two reaches a need, but `most` where none below does.
fn exponent_for(need: u64, most: u32) -> u32
    requires { most ≤ 25 }
    ensures { result ≤ 25 }
{
    for exponent in 3..most {
        if need <= 1 << exponent {
            return exponent;
        }
    }
    most
}

// The nanoseconds in which a new store took the lines, by workers that draw blocks or are dealt them; None
// where it has no room or memory.
fn insert<H: Threads + Sync>(
    rt: &HostRuntime,
    handle: &H,
    trace: &Trace,
    sharing: Sharing,
    draws: bool,
) -> Option<u64>
    requires workers { (1 ≤ sharing.workers) × (sharing.workers ≤ 64) }
    requires block { (1 ≤ sharing.block) × (sharing.block ≤ 65536) }
{
    let alloc = rt.alloc();
    let sizes = Sizes {
        nodes: exponent_for(trace.slots() as u64 * trace.len(), 25),
        roots: exponent_for(trace.len(), 24),
        region: 6,
        probe: 4_194_304,
    };
    let shape = Shape::new(trace.slots()).ok()?;
    let (store, mut pass) = PlainStore::<WIDTH, FLAGS>::create(alloc, shape, &sizes).ok()?;
    if trace.len() > 1 << 32 || !all_fit(&store, trace) {
        return None;
    }
    let start = Instant::now(rt).ok()?;
    let full = if draws {
        let (replies, _) = run_drawn(
            handle,
            alloc,
            &store,
            &mut pass,
            trace,
            sharing.workers,
            sharing.block,
            &NoGate,
        )
        .ok()?;
        replies.iter().any(|reply| reply.is_full())
    } else {
        let replies = run_lines(
            handle,
            alloc,
            &store,
            &mut pass,
            trace,
            sharing.workers,
            sharing.block,
            &NoGate,
        )
        .ok()?;
        replies.iter().any(|reply| reply.is_full())
    };
    let took = nanoseconds_since(rt, &start).ok()?;
    if full { None } else { Some(took) }
}

/// Inserts the trace that standard input gives so many times in each way, in turn, and prints how long each
/// insertion took.
pub fn time<H: Threads + Sync>(
    rt: &HostRuntime,
    handle: &H,
    sharing: Sharing,
    rounds: u64,
) -> io::Result<ExitCode>
    requires workers { (1 ≤ sharing.workers) × (sharing.workers ≤ 64) }
    requires block { (1 ≤ sharing.block) × (sharing.block ≤ 65536) }
{
    let Some(trace) = read_input(rt)? else {
        return Ok(ExitCode::from(1));
    };
    for _ in 0..rounds {
        for draws in [false, true] {
            let Some(took) = insert(rt, handle, &trace, sharing, draws) else {
                eprintln!(rt; "measure: a line had no room, or memory ran out")?;
                return Ok(ExitCode::from(1));
            };
            let way = if draws { "drawn" } else { "dealt" };
            eprintln!(rt;
                "claims {} lines, {} workers, block {}, {}: {} us",
                trace.len(),
                sharing.workers,
                sharing.block,
                way,
                took / 1000
            )?;
        }
    }
    Ok(ExitCode::from(0))
}
