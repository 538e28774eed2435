//! Times the shared table of pairs, without roots.

ghost use Rattle.std.specs.Prelude.{◌≡◌, ◌≤◌, ◌<◌, ◌^◌, All};
ghost use Rattle.pair_rule.specs.Rest.{AtRest};
ghost use Rattle.pair_rule.specs.NoRoots.{no_roots};

use crate::callers::{Share, missed_by};
use crate::clock::nanoseconds_since;
use pair_nodes::Nodes;
use pair_rule::{Caller, NoRoot, PairTable, Pass, Sizes};
use std::process::ExitCode;
use std::thread::Threads;
use std::time::Instant;
use std::{io, thread};
use tdb_base::{NoMemory, Silent, Steps};

type Table = PairTable<NoRoot, 28, 7>;

// How many pairs are put.
const PAIRS: u64 = 1 << 19;

// Finds or puts the pairs with these numbers; answers how often the table was full.
fn put_all(nodes: &Nodes<NoRoot, 28, 7>, pass: &mut Pass<NoRoot, 28, 7>, from: u64, to: u64) -> u64
    requires width { nodes.now.about.width ≡ 28 }
    requires rest { AtRest no_roots nodes.now pass.old }
    ensures { AtRest no_roots nodes.now pass.new }
{
    let mut steps = Steps::new(Silent);
    let mut full = 0u64;
    for number in from..to {
        let (left, right) = (number >> 9 & 0xFFFFF, number & 0x1FF);
        if nodes.find_or_put(pass, left, right, &mut steps).is_err() {
            full = full.saturating_add(1);
        }
    }
    full
}

// Each caller its share, or all of the pairs, in a thread of its own.
fn put_shares<H: Threads + Sync>(
    handle: &H,
    nodes: &Nodes<NoRoot, 28, 7>,
    callers: &mut [Caller<(), Share>],
    all: bool,
)
    requires width { nodes.now.about.width ≡ 28 }
    requires callers { All (λ c. AtRest no_roots nodes.now c.pass) callers.old }
    ensures { All (λ c. AtRest no_roots nodes.now c.pass) callers.new }
{
    let count = callers.len();
    if count > 0 {
        thread::for_each_mut(
            handle,
            callers,
            count,
            &|_, caller: &mut Caller<(), Share>|
                requires width { nodes.now.about.width ≡ 28 }
                requires rest { AtRest no_roots nodes.now caller.now.pass }
                ensures { AtRest no_roots nodes.entry.now caller.exit.now.pass }
            {
                let (from, to) = if all {
                    (0, PAIRS)
                } else {
                    caller.kept.range(caller.number)
                };
                caller.kept.missed = put_all(nodes, &mut caller.pass, from, to);
            },
        );
    }
}

/// Makes a table of `2^exponent` buckets, and prints how long that took; then so many threads put pairs into
/// a table, and each looks all of them up.
pub fn time<H: Threads + Sync>(
    rt: &HostRuntime,
    handle: &H,
    exponent: u32,
    threads: u64,
) -> io::Result<ExitCode>
    requires exponent { (3 ≤ exponent) × (exponent ≤ 25) }
    requires threads { (1 ≤ threads) × (threads ≤ 64) }
{
    time_create(rt, exponent)?;
    match time_pairs(rt, handle, threads) {
        Ok((put, found, 0)) => eprintln!(rt;
            "{} pairs by {} threads: put {} us, found by each {} us",
            PAIRS, threads, put, found
        )?,
        Ok((_, _, full)) => eprintln!(rt; "measure: full for {} pairs", full)?,
        Err(NoMemory) => eprintln!(rt; "measure: no memory")?,
    }
    Ok(ExitCode::from(0))
}

// Microseconds for the making of a table of 2^exponent buckets.
fn time_create(rt: &HostRuntime, exponent: u32) -> io::Result<()>
    requires { (3 ≤ exponent) × (exponent ≤ 25) }
{
    let sizes = sizes_of(exponent);
    let start = Instant::now(rt)?;
    let made = Table::create(rt.alloc(), &sizes, 16);
    let took = nanoseconds_since(rt, &start)? / 1000;
    match made {
        Ok(_) => eprintln!(rt; "create 2^{} buckets: {} us", exponent, took),
        Err(NoMemory) => eprintln!(rt; "measure: no memory"),
    }
}

fn sizes_of(nodes: u32) -> Sizes
    ensures { result ≡ record { nodes = nodes; roots = 3; region = 6; probe = 4194304 } }
{
    Sizes {
        nodes,
        roots: 3,
        region: 6,
        probe: 4_194_304,
    }
}

// Microseconds for the pairs put by the threads together, and for all of them looked up by each; and for how
// many of these the table was full.
fn time_pairs<H: Threads + Sync>(
    rt: &HostRuntime,
    handle: &H,
    threads: u64,
) -> Result<(u64, u64, u64), NoMemory>
    requires { (1 ≤ threads) × (threads ≤ 64) }
{
    let (table, mut pass) = Table::create(rt.alloc(), &sizes_of(20), 16)?;
    let nodes = Nodes::over(table);
    let share = Share::of(threads, PAIRS);
    let mut callers = nodes
        .table()
        .split_callers(rt.alloc(), &mut pass, threads, share)?;
    Ok(time_rounds(rt, handle, &nodes, callers.as_mut_slice()))
}

// The same of these callers.
fn time_rounds<H: Threads + Sync>(
    rt: &HostRuntime,
    handle: &H,
    nodes: &Nodes<NoRoot, 28, 7>,
    callers: &mut [Caller<(), Share>],
) -> (u64, u64, u64)
    requires width { nodes.now.about.width ≡ 28 }
    requires callers { All (λ c. AtRest no_roots nodes.now c.pass) callers.old }
{
    let put = timed(rt, handle, nodes, callers, false);
    let found = timed(rt, handle, nodes, callers, true);
    (put, found, missed_by(callers))
}

// Microseconds for one round of all callers.
fn timed<H: Threads + Sync>(
    rt: &HostRuntime,
    handle: &H,
    nodes: &Nodes<NoRoot, 28, 7>,
    callers: &mut [Caller<(), Share>],
    all: bool,
) -> u64
    requires width { nodes.now.about.width ≡ 28 }
    requires callers { All (λ c. AtRest no_roots nodes.now c.pass) callers.old }
    ensures { All (λ c. AtRest no_roots nodes.now c.pass) callers.new }
{
    let start = Instant::now(rt);
    put_shares(handle, nodes, callers, all);
    match start {
        Ok(start) => nanoseconds_since(rt, &start).unwrap_or(0) / 1000,
        Err(_) => 0,
    }
}
