//! Runs of one to 64 workers, looked at from the outside: what they answered to which lines, and when the
//! gate was called.
ghost use Rattle.std.specs.Prelude.{◌≡◌, ◌<◌, ◌≤◌, All, IfOk, length};
ghost use Rattle.pair_rule.specs.Rest.{AtRest};
ghost use Rattle.root_plain.specs.Plain.{plain};
ghost use Rattle.tree_store.specs.Vectors.{IsVector};

use crate::run_lines;
use pair_rule::Sizes;
use root_plain::PlainRoot;
use std::alloc::Global;
use std::process::Abort;
use std::sync::atomic::{AtomicU64, Ordering};
use std::test::Fail;
use std::thread::Threads;
use tdb_base::{Gate, NoGate, NoMemory, Reply, TurnGate};
use trace_csv::{Trace, read_trace};
use tree_shape::Shape;
use tree_store::{PlainPass, PlainStore, TreeStore};

pub(crate) type Store = PlainStore<16, 8>;

pub(crate) type StorePass = PlainPass<16, 8>;

// A store of vectors of so many slots, with `2^nodes` and `2^roots` buckets, and its pass.
pub(crate) fn store(
    alloc: Global,
    slots: usize,
    nodes: u32,
    roots: u32,
) -> Result<(Store, StorePass), Fail>
    ensures width { IfOk result (λ made. made.0.about.width ≡ 16) }
    ensures flags { IfOk result (λ made. made.0.about.flags ≡ 8) }
    ensures rest { IfOk result (λ made. AtRest plain made.0 made.1) }
{
    let sizes = Sizes {
        nodes,
        roots,
        region: 0,
        probe: 4_194_304,
    };
    let shape = Shape::new(slots)?;
    Ok(TreeStore::<PlainRoot<16, 8>, 16, 8>::create(alloc, shape, &sizes)?)
}

// The lines that the text writes, which the store can keep.
pub(crate) fn lines(
    rt: &impl Abort,
    alloc: Global,
    store: &Store,
    text: &[u8],
) -> Result<Trace, Fail>
    requires width { store.now.about.width ≡ 16 }
    ensures fit { IfOk result (λ trace. All (IsVector store.now.about) trace) }
{
    let trace = read_trace(alloc, text, 16)?;
    assert!(rt; trace.slots() == store.slots());
    Ok(trace)
}

// The replies of so many workers.
fn run<R: Threads + Abort + Sync, G: Gate>(
    rt: &R,
    alloc: Global,
    store: &Store,
    pass: &mut StorePass,
    trace: &Trace,
    workers: u64,
    block: u64,
    gate: &G,
) -> Result<Vec<Reply>, NoMemory>
    requires rest { AtRest plain store.now pass.old }
    requires fit { All (IsVector store.now.about) trace.now }
    ensures rest { AtRest plain store.now pass.new }
    ensures all { IfOk result (λ replies. length replies.items ≡ length trace.now) }
{
    assert!(rt; trace.len() <= 4_294_967_296);
    assert!(rt; 1 <= workers && workers <= 64);
    assert!(rt; 1 <= block && block <= 65_536);
    let replies = run_lines(rt, alloc, store, pass, trace, workers, block, gate)?;
    assert!(rt; replies.len() as u64 == trace.len());
    Ok(replies)
}

// The same, tried once more where it is refused: nothing was taken in then.
pub(crate) fn run_or_retry<R: Threads + Abort + Sync, G: Gate>(
    rt: &R,
    alloc: Global,
    store: &Store,
    pass: &mut StorePass,
    trace: &Trace,
    workers: u64,
    block: u64,
    gate: &G,
) -> Result<Vec<Reply>, NoMemory>
    requires rest { AtRest plain store.now pass.old }
    requires fit { All (IsVector store.now.about) trace.now }
    ensures rest { AtRest plain store.now pass.new }
    ensures all { IfOk result (λ replies. length replies.items ≡ length trace.now) }
{
    let names = store.names_made(pass);
    let Ok(replies) = run(rt, alloc, store, pass, trace, workers, block, gate) else {
        assert!(rt; store.names_made(pass) == names);
        return run(rt, alloc, store, pass, trace, workers, block, gate);
    };
    Ok(replies)
}

// Keeps, digit by digit, for which lines it was called before and after, and with how many steps; and the sum
// of the workers' numbers.
#[derive(Drop)]
struct Diary {
    before: AtomicU64,
    after: AtomicU64,
    steps: AtomicU64,
    workers: AtomicU64,
}

impl Diary {
    fn new() -> Diary {
        Diary {
            before: AtomicU64::new(0),
            after: AtomicU64::new(0),
            steps: AtomicU64::new(0),
            workers: AtomicU64::new(0),
        }
    }
}

fn add_digit(digits: &AtomicU64, digit: u64) {
    let old = digits.load(Ordering::SeqCst);
    digits.store(old.wrapping_mul(10).wrapping_add(digit), Ordering::SeqCst);
}

impl Gate for Diary {
    fn before(&self, worker: u64, line: u64) {
        add_digit(&self.before, line);
        self.workers.fetch_add(worker, Ordering::SeqCst);
    }

    fn after(&self, worker: u64, line: u64, ticks: u64) {
        add_digit(&self.after, line);
        add_digit(&self.steps, ticks);
        self.workers.fetch_add(worker, Ordering::SeqCst);
    }
}

// A tree of three slots has a node, the pair of the last two, and a root. The second vector differs in its
// first slot alone, so only its root is put.
#[test]
fn tells_the_gate_of_each_line(rt: HostRuntime) -> Result<(), Fail> {
    let (store, mut pass) = store(rt.alloc(), 3, 3, 3)?;
    let trace = lines(&rt, rt.alloc(), &store, b"5,0,0\n6,0,0\n6,0,1\n")?;
    let diary = Diary::new();
    let replies = run_or_retry(&rt, rt.alloc(), &store, &mut pass, &trace, 1, 1, &diary)?;
    for reply in replies {
        assert!(rt; reply.is_new());
    }
    assert!(rt; diary.before.load(Ordering::SeqCst) == 123);
    assert!(rt; diary.after.load(Ordering::SeqCst) == 123);
    assert!(rt; diary.steps.load(Ordering::SeqCst) == 212);
    assert!(rt; diary.workers.load(Ordering::SeqCst) == 0);
    Ok(())
}

// Whether so many workers, who all insert the same line, kept the order that a gate asks for: the line that
// is held went on when the other one was done, and so isn't the one that is new.
fn keep_order<R: Threads + Abort + Sync>(
    rt: &R,
    alloc: Global,
    workers: u64,
    held: u64,
    until: u64,
) -> Result<bool, Fail> {
    let (store, mut pass) = store(alloc, 2, 3, 3)?;
    let mut text = Vec::new(alloc);
    for _ in 0..workers {
        text.extend_from_slice(b"3,5\n")?;
    }
    let trace = lines(rt, alloc, &store, text.as_slice())?;
    let gate = TurnGate::new(held, until, 1_000_000_000);
    let replies = run(rt, alloc, &store, &mut pass, &trace, workers, 1, &gate)?;
    let Some(reply) = replies.get((held as usize).wrapping_sub(1)) else {
        return Ok(false);
    };
    Ok(!gate.timed_out() && !reply.is_new())
}

#[test]
fn workers_run_at_once(rt: HostRuntime) -> Result<(), Fail> {
    for workers in [2, 8, 64] {
        for (held, until) in [(1, 2), (2, 1), (1, workers), (workers, 1)] {
            assert!(rt; keep_order(&rt, rt.alloc(), workers, held, until)?);
        }
    }
    let alone = TurnGate::new(1, 2, 1000);
    let (store, mut pass) = store(rt.alloc(), 2, 3, 3)?;
    let trace = lines(&rt, rt.alloc(), &store, b"3,5\n3,5\n")?;
    run(&rt, rt.alloc(), &store, &mut pass, &trace, 1, 1, &alone)?;
    assert!(rt; alone.timed_out());
    Ok(())
}

#[test]
fn names_one_vector_once(rt: HostRuntime) -> Result<(), Fail> {
    let (store, mut pass) = store(rt.alloc(), 2, 3, 3)?;
    let mut text = Vec::new(rt.alloc());
    for _ in 0..1000u64 {
        text.extend_from_slice(b"3,5\n")?;
    }
    let trace = lines(&rt, rt.alloc(), &store, text.as_slice())?;
    let replies = run(&rt, rt.alloc(), &store, &mut pass, &trace, 8, 1, &NoGate)?;
    let mut fresh = 0u64;
    let mut seen = 0u64;
    for reply in replies {
        assert_eq!(rt; reply.id(), Some(0));
        match reply {
            Reply::New(_) => fresh = fresh.saturating_add(1),
            _ => seen = seen.saturating_add(1),
        }
    }
    assert!(rt; fresh == 1 && seen == 999);
    Ok(())
}
