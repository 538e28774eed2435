//! Many schedules of 2 to 8 workers over small tables and ample ones: what they answered is compared line by
//! line, and read back.
ghost use Rattle.std.specs.Prelude.{◌≡◌, ◌<◌, ◌≤◌, length};
ghost use Rattle.pair_rule.specs.Rest.{AtRest};
ghost use Rattle.root_plain.specs.Plain.{plain};

use crate::tests::crowd::{Store, StorePass, lines, run_or_retry, store};
use std::alloc::Global;
use std::process::Abort;
use std::sync::atomic::{AtomicU64, Ordering};
use std::test::Fail;
use std::thread;
use std::thread::Threads;
use tdb_base::{Gate, NoGate, Reply};
use trace_csv::Trace;

// Holds each worker at its first line until all have begun, or for so many looks; and keeps for which of
// forty lines it was called.
#[derive(Drop)]
struct Watch {
    workers: u64,
    block: u64,
    begun: AtomicU64,
    before: AtomicU64,
    after: AtomicU64,
    faults: AtomicU64,
}

impl Watch {
    fn new(workers: u64, block: u64) -> Watch {
        Watch {
            workers,
            block,
            begun: AtomicU64::new(0),
            before: AtomicU64::new(0),
            after: AtomicU64::new(0),
            faults: AtomicU64::new(0),
        }
    }

    // A line comes once, and from the worker that has it.
    fn see(&self, lines: &AtomicU64, worker: u64, line: u64) {
        let bit = 1 << line % 64;
        let again = lines.fetch_or(bit, Ordering::SeqCst) & bit != 0;
        let of_block = line.wrapping_sub(1).checked_div(self.block).unwrap_or(0);
        if again || of_block.checked_rem(self.workers) != Some(worker) {
            self.faults.fetch_add(1, Ordering::SeqCst);
        }
    }

    // It was called once before and once after each of the lines 1 to 40.
    fn saw_forty_lines(&self) -> bool {
        let all = (1 << 41) - 2;
        self.faults.load(Ordering::SeqCst) == 0
            && self.before.load(Ordering::SeqCst) == all
            && self.after.load(Ordering::SeqCst) == all
    }
}

impl Gate for Watch {
    fn before(&self, worker: u64, line: u64) {
        self.see(&self.before, worker, line);
        if line != worker.wrapping_mul(self.block).wrapping_add(1) {
            return;
        }
        self.begun.fetch_add(1, Ordering::SeqCst);
        for _ in 0..10_000u64 {
            if self.begun.load(Ordering::SeqCst) == self.workers {
                return;
            }
            thread::yield_now();
        }
    }

    fn after(&self, worker: u64, line: u64, _ticks: u64) {
        self.see(&self.after, worker, line);
    }
}

// A run that is tried: a store, and how its lines are dealt out.
#[derive(Clone, Copy)]
struct Schedule {
    slots: usize,
    nodes: u32,
    roots: u32,
    workers: u64,
    block: u64,
}

// One of the digits 0, 1 and 2, most often 0, and the generator's next state.
fn digit(state: &mut u64) -> u8 {
    *state = state
        .wrapping_mul(6_364_136_223_846_793_005)
        .wrapping_add(1_442_695_040_888_963_407);
    b"000012"[(*state >> 33) as usize % 6]
}

// Forty lines of digits, many of them equal.
pub(crate) fn forty_lines(alloc: Global, slots: usize, state: &mut u64) -> Result<Vec<u8>, Fail> {
    let mut text = Vec::new(alloc);
    for _ in 0..40u64 {
        for slot in 0..slots {
            text.push(digit(state))?;
            text.push(if slot + 1 < slots { b',' } else { b'\n' })?;
        }
    }
    Ok(text)
}

// How many of the lines with this line's vector were answered that it is new, where all of them were answered
// alike, and no other line has its identifier.
fn fresh_among(trace: &Trace, replies: &[Reply], i: u64) -> Option<u64>
    requires lines { i < length trace.now }
    requires replies { length replies.now ≡ length trace.now }
{
    let one = replies[i as usize];
    let mut fresh = 0u64;
    for j in 0..trace.len() {
        let other = replies[j as usize];
        let same = trace.line(i) == trace.line(j);
        let alike = one.id() == other.id();
        if same && !alike || !same && alike && !one.is_full() {
            return None;
        }
        if same && other.is_new() {
            fresh = fresh.saturating_add(1);
        }
    }
    Some(fresh)
}

// Each vector that has a name was named once, and no two have one name: how many names there are, and how
// many lines have none.
pub(crate) fn count_names(rt: &impl Abort, trace: &Trace, replies: &[Reply]) -> (u64, u64)
    requires { length replies.now ≡ length trace.now }
{
    let mut names = 0u64;
    let mut full = 0u64;
    for i in 0..trace.len() {
        let one = replies[i as usize];
        let Some(fresh) = fresh_among(trace, replies, i) else {
            panic!(rt; "two answers to one vector, or two vectors of one name")
        };
        assert!(rt; fresh == !one.is_full() as u64);
        if one.is_new() {
            names = names.saturating_add(1);
        }
        if one.is_full() {
            full = full.saturating_add(1);
        }
    }
    (names, full)
}

// The line is found under its identifier, if it was answered one.
fn read_back(rt: &impl Abort, store: &Store, pass: &mut StorePass, line: &[u32], reply: Reply)
    requires { AtRest plain store.now pass.old }
    ensures { AtRest plain store.now pass.new }
{
    let Some(id) = reply.id() else {
        return;
    };
    let slots = store.slots();
    assert!(rt; slots <= 5);
    let mut out = [9; 5];
    assert!(rt; store.lookup(pass, id, &mut out[..slots]));
    assert!(rt; out[..slots] == line[..]);
}

// All lines are.
pub(crate) fn read_all_back(
    rt: &impl Abort,
    store: &Store,
    pass: &mut StorePass,
    trace: &Trace,
    replies: &[Reply],
)
    requires rest { AtRest plain store.now pass.old }
    requires replies { length replies.now ≡ length trace.now }
    ensures { AtRest plain store.now pass.new }
{
    for i in 0..trace.len() {
        read_back(rt, store, pass, trace.line(i), replies[i as usize]);
    }
}

// Two runs on one store: the second one names nothing, and answers the identifiers of the first. How many
// lines were full.
fn try_schedule<R: Threads + Abort + Sync>(
    rt: &R,
    alloc: Global,
    schedule: Schedule,
    state: &mut u64,
) -> Result<u64, Fail> {
    let Schedule {
        slots,
        nodes,
        roots,
        workers,
        block,
    } = schedule;
    let (store, mut pass) = store(alloc, slots, nodes, roots)?;
    let text = forty_lines(alloc, slots, state)?;
    let trace = lines(rt, alloc, &store, text.as_slice())?;
    let gate = Watch::new(workers, block);
    let first = run_or_retry(rt, alloc, &store, &mut pass, &trace, workers, block, &gate)?;
    assert!(rt; gate.saw_forty_lines());
    let (names, full) = count_names(rt, &trace, first.as_slice());
    assert!(rt; store.names_made(&pass) == names && roots <= 24 && names <= 1 << roots);
    read_all_back(rt, &store, &mut pass, &trace, first.as_slice());
    let second = run_or_retry(
        rt, alloc, &store, &mut pass, &trace, workers, block, &NoGate,
    )?;
    for i in 0..first.len() {
        assert!(rt; i < second.len() && !second[i].is_new());
        assert_eq!(rt; second[i].id(), first[i].id());
    }
    assert!(rt; store.names_made(&pass) == names);
    Ok(full)
}

// All schedules of stores of this size: how many lines were full.
fn try_schedules<R: Threads + Abort + Sync>(
    rt: &R,
    alloc: Global,
    nodes: u32,
    roots: u32,
    seed: u64,
) -> Result<u64, Fail> {
    let mut state = seed;
    let mut full = 0u64;
    for slots in [3, 4, 5] {
        for workers in 2..9 {
            for block in [1, 2, 3] {
                let schedule = Schedule {
                    slots,
                    nodes,
                    roots,
                    workers,
                    block,
                };
                full = full.saturating_add(try_schedule(rt, alloc, schedule, &mut state)?);
            }
        }
    }
    Ok(full)
}

#[test]
fn small_tables_grow_full(rt: HostRuntime) -> Result<(), Fail> {
    for (nodes, roots) in [(3, 3), (3, 4), (4, 3), (4, 4)] {
        for seed in 0..3 {
            assert!(rt; try_schedules(&rt, rt.alloc(), nodes, roots, seed)? > 0);
        }
    }
    Ok(())
}

#[test]
fn ample_tables_name_all(rt: HostRuntime) -> Result<(), Fail> {
    for seed in 0..3 {
        assert!(rt; try_schedules(&rt, rt.alloc(), 10, 10, seed)? == 0);
    }
    Ok(())
}
