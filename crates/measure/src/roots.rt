//! Times a table of roots as a store reaches it: roots that are put, put again, and looked for.

ghost use Rattle.std.specs.Prelude.{◌≡◌, ℕ, ◌≤◌, ◌<◌, ◌^◌, All};
ghost use Rattle.pair_rule.specs.Rest.{AtRest};
ghost use Rattle.measure.specs.Asked.{IsAsked};

use crate::callers::{Share, missed_by};
use crate::calls::{CompactCalls, PlainCalls, RootCalls};
use crate::clock::nanoseconds_since;
use pair_nodes::Nodes;
use pair_rule::{Caller, PairTable, PassOf, Sizes};
use region_root::CompactRoot;
use root_plain::PlainRoot;
use std::process::ExitCode;
use std::sync::Wait;
use std::thread::Threads;
use std::time::Instant;
use std::{io, thread};
use tdb_base::NoMemory;

/// What is asked of a table of `2^roots` roots: to how many percent it is filled, how often all roots are
/// then put again and looked for, and by how many threads. Each thread has its share of the roots.
#[derive(Clone, Copy)]
pub struct Asked {
    /// The exponent of the table: 6 to 18.
    pub roots: u32,
    /// The exponent of a region: 6 to 12, at most that of the table.
    pub region: u32,
    /// To how many percent it is filled.
    pub fill: u64,
    /// How often all roots are put again.
    pub puts: u64,
    /// How often all are looked for.
    pub looks: u64,
    /// By how many threads: 1 to 64.
    pub threads: u64,
}

// How many roots are asked for.
fn count_of(asked: Asked) -> u64
    requires { IsAsked asked }
    ensures { result ≤ 524288 }
{
    (1u64 << asked.roots) * asked.fill / 100
}

// Microseconds for roots that are new, put again and looked for, and for how many calls there was no place or
// no name.
#[derive(Clone, Copy)]
struct Times {
    new: u64,
    again: u64,
    looked: u64,
    missed: u64,
}

// What is done with a root.
#[derive(Clone, Copy)]
enum Call {
    Put,
    Look,
}

// Does it so often with the roots of one caller's share.
fn call_all<D: RootCalls>(roots: &D, caller: &mut Caller<D::View, Share>, call: Call, rounds: u64)
    requires width { (D.store roots.now).about.width ≡ 28 }
    requires slots { (D.store roots.now).about.slots ≡ 2 }
    requires rest { AtRest D.part (D.store roots.now) caller.old.pass }
    ensures { AtRest D.part (D.store roots.now) caller.new.pass }
{
    let (from, to) = caller.kept.range(caller.number);
    for _ in 0..rounds {
        let missed = match call {
            Call::Put => put_all(roots, &mut caller.pass, from, to),
            Call::Look => look_all(roots, &mut caller.pass, from, to),
        };
        caller.kept.missed = caller.kept.missed.saturating_add(missed);
    }
}

// Puts the roots with these numbers; answers for how many there was no place.
fn put_all<D: RootCalls>(roots: &D, pass: &mut PassOf<D::View>, from: u64, to: u64) -> u64
    requires width { (D.store roots.now).about.width ≡ 28 }
    requires slots { (D.store roots.now).about.slots ≡ 2 }
    requires rest { AtRest D.part (D.store roots.now) pass.old }
    ensures { AtRest D.part (D.store roots.now) pass.new }
{
    let mut missed = 0u64;
    for number in from..to {
        let found = roots.put(pass, number >> 9 & 0xFFFFF, number & 0x1FF);
        missed = missed.saturating_add(u64::from(!found));
    }
    missed
}

// Looks for them; answers for how many it found no name.
fn look_all<D: RootCalls>(roots: &D, pass: &mut PassOf<D::View>, from: u64, to: u64) -> u64
    requires width { (D.store roots.now).about.width ≡ 28 }
    requires slots { (D.store roots.now).about.slots ≡ 2 }
    requires rest { AtRest D.part (D.store roots.now) pass.old }
    ensures { AtRest D.part (D.store roots.now) pass.new }
{
    let mut missed = 0u64;
    for number in from..to {
        let found = roots.look(pass, number >> 9 & 0xFFFFF, number & 0x1FF);
        missed = missed.saturating_add(u64::from(!found));
    }
    missed
}

// All callers at once, each in a thread of its own: the microseconds that they took.
fn call_at_once<H: Threads + Sync, D: RootCalls>(
    rt: &HostRuntime,
    handle: &H,
    roots: &D,
    callers: &mut [Caller<D::View, Share>],
    call: Call,
    rounds: u64,
) -> io::Result<u64>
    requires width { (D.store roots.now).about.width ≡ 28 }
    requires slots { (D.store roots.now).about.slots ≡ 2 }
    requires callers { All (λ c. AtRest D.part (D.store roots.now) c.pass) callers.old }
    ensures { All (λ c. AtRest D.part (D.store roots.now) c.pass) callers.new }
{
    let start = Instant::now(rt)?;
    call_in_threads(handle, roots, callers, call, rounds);
    Ok(nanoseconds_since(rt, &start)? / 1000)
}

fn call_in_threads<H: Threads + Sync, D: RootCalls>(
    handle: &H,
    roots: &D,
    callers: &mut [Caller<D::View, Share>],
    call: Call,
    rounds: u64,
)
    requires width { (D.store roots.now).about.width ≡ 28 }
    requires slots { (D.store roots.now).about.slots ≡ 2 }
    requires callers { All (λ c. AtRest D.part (D.store roots.now) c.pass) callers.old }
    ensures { All (λ c. AtRest D.part (D.store roots.now) c.pass) callers.new }
{
    let count = callers.len();
    if count > 0 {
        thread::for_each_mut(
            handle,
            callers,
            count,
            &|_, caller: &mut Caller<D::View, Share>|
                requires width { (D.store roots.now).about.width ≡ 28 }
                requires slots { (D.store roots.now).about.slots ≡ 2 }
                requires rest { AtRest D.part (D.store roots.now) caller.now.pass }
                ensures { AtRest D.part (D.store roots.entry.now) caller.exit.now.pass }
            {
                call_all(roots, caller, call, rounds);
            },
        );
    }
}

// All that is asked, of one table.
fn time_table<H: Threads + Sync, D: RootCalls>(
    rt: &HostRuntime,
    handle: &H,
    roots: &D,
    callers: &mut [Caller<D::View, Share>],
    asked: Asked,
) -> io::Result<Times>
    requires width { (D.store roots.now).about.width ≡ 28 }
    requires slots { (D.store roots.now).about.slots ≡ 2 }
    requires callers { All (λ c. AtRest D.part (D.store roots.now) c.pass) callers.old }
{
    let new = call_at_once(rt, handle, roots, callers, Call::Put, 1)?;
    let again = call_at_once(rt, handle, roots, callers, Call::Put, asked.puts)?;
    let looked = call_at_once(rt, handle, roots, callers, Call::Look, asked.looks)?;
    Ok(Times {
        new,
        again,
        looked,
        missed: missed_by(callers),
    })
}

fn sizes_of(asked: Asked) -> Sizes
    ensures { result ≡ record {
      nodes = 3;
      roots = asked.roots;
      region = asked.region;
      probe = 4194304;
    } }
{
    Sizes {
        nodes: 3,
        roots: asked.roots,
        region: asked.region,
        probe: 4_194_304,
    }
}

fn time_plain<H: Threads + Sync>(
    rt: &HostRuntime,
    handle: &H,
    asked: Asked,
) -> Result<io::Result<Times>, NoMemory>
    requires { IsAsked asked }
{
    let sizes = sizes_of(asked);
    let (table, mut pass) = PairTable::<PlainRoot<28, 7>, 28, 7>::create(rt.alloc(), &sizes, 2)?;
    let share = Share::of(asked.threads, count_of(asked));
    let mut callers = table.split_callers(rt.alloc(), &mut pass, asked.threads, share)?;
    let nodes = Nodes::over(table);
    let roots = PlainCalls { nodes: &nodes };
    Ok(time_table(rt, handle, &roots, callers.as_mut_slice(), asked))
}

fn time_compact<H: Threads + Wait + Sync>(
    rt: &HostRuntime,
    handle: &H,
    asked: Asked,
) -> Result<io::Result<Times>, NoMemory>
    requires { IsAsked asked }
{
    let sizes = sizes_of(asked);
    let (table, mut pass) = PairTable::<CompactRoot<28, 7>, 28, 7>::create(rt.alloc(), &sizes, 2)?;
    let share = Share::of(asked.threads, count_of(asked));
    let mut callers = table.split_callers(rt.alloc(), &mut pass, asked.threads, share)?;
    let nodes = Nodes::over(table);
    let roots = CompactCalls {
        rt: handle,
        nodes: &nodes,
    };
    Ok(time_table(rt, handle, &roots, callers.as_mut_slice(), asked))
}

// Prints what was measured of a table.
fn tell(
    rt: &HostRuntime,
    table: &str,
    measured: Result<io::Result<Times>, NoMemory>,
) -> io::Result<()> {
    match measured {
        Ok(times) => {
            let t = times?;
            eprintln!(rt; "{} {} {} {} {}", table, t.new, t.again, t.looked, t.missed)
        }
        Err(NoMemory) => eprintln!(rt; "measure: no memory"),
    }
}

/// Times plain roots, compact ones, or both, and prints for each the microseconds for the roots that are put,
/// put again and looked for, and for how many calls there was no place or no name.
pub fn time<H: Threads + Wait + Sync>(
    rt: &HostRuntime,
    handle: &H,
    plain: bool,
    compact: bool,
    asked: Asked,
) -> io::Result<ExitCode>
    requires { IsAsked asked }
{
    if plain {
        tell(rt, "plain", time_plain(rt, handle, asked))?;
    }
    if compact {
        tell(rt, "compact", time_compact(rt, handle, asked))?;
    }
    Ok(ExitCode::from(0))
}
