//! Runs over a compact store, of workers to whom blocks are dealt and of workers who draw them.
ghost use Rattle.std.specs.Prelude.{◌≡◌, ◌<◌, ◌≤◌, All, IfOk, length};
ghost use Rattle.pair_rule.specs.Rest.{AtRest};
ghost use Rattle.region_root.specs.Compact.{compact};
ghost use Rattle.tree_store.specs.Vectors.{IsVector};

use super::drawn::are_drawn_by;
use super::schedules::{count_names, forty_lines};
use crate::{run_drawn_waiting, run_lines_waiting};
use pair_rule::Sizes;
use region_root::CompactRoot;
use std::alloc::Global;
use std::process::Abort;
use std::sync::Wait;
use std::test::Fail;
use std::thread::Threads;
use tdb_base::{Gate, NoGate, Reply, TurnGate};
use trace_csv::{Trace, read_trace};
use tree_shape::Shape;
use tree_store::{CompactPass, CompactStore, TreeStore};

pub(crate) type Store = CompactStore<28, 7>;

pub(crate) type StorePass = CompactPass<28, 7>;

// A store of vectors of so many slots, with regions of 64 cells, and its pass.
pub(crate) fn store(
    alloc: Global,
    slots: usize,
    nodes: u32,
    roots: u32,
) -> Result<(Store, StorePass), Fail>
    ensures width { IfOk result (λ made. made.0.about.width ≡ 28) }
    ensures flags { IfOk result (λ made. made.0.about.flags ≡ 7) }
    ensures rest { IfOk result (λ made. AtRest (compact 28 7) made.0 made.1) }
{
    let sizes = Sizes {
        nodes,
        roots,
        region: 6,
        probe: 4_194_304,
    };
    let shape = Shape::new(slots)?;
    Ok(TreeStore::<CompactRoot<28, 7>, 28, 7>::create(alloc, shape, &sizes)?)
}

// The lines that the text writes, which the store can keep.
pub(crate) fn lines(
    rt: &impl Abort,
    alloc: Global,
    store: &Store,
    text: &[u8],
) -> Result<Trace, Fail>
    requires width { store.now.about.width ≡ 28 }
    ensures fit { IfOk result (λ trace. All (IsVector store.now.about) trace) }
{
    let trace = read_trace(alloc, text, 28)?;
    assert!(rt; trace.slots() == store.slots());
    Ok(trace)
}

// The replies of so many workers, who draw their blocks or have them dealt.
fn run<R: Threads + Wait + Abort + Sync, G: Gate>(
    rt: &R,
    alloc: Global,
    store: &Store,
    pass: &mut StorePass,
    trace: &Trace,
    way: (u64, u64, bool),
    gate: &G,
) -> Result<Vec<Reply>, Fail>
    requires rest { AtRest (compact 28 7) store.now pass.old }
    requires fit { All (IsVector store.now.about) trace.now }
    ensures rest { AtRest (compact 28 7) store.now pass.new }
    ensures all { IfOk result (λ replies. length replies.items ≡ length trace.now) }
{
    let (workers, block, draws) = way;
    assert!(rt; trace.len() <= 4_294_967_296);
    assert!(rt; 1 <= workers && workers <= 64);
    assert!(rt; 1 <= block && block <= 65_536);
    if !draws {
        let replies = run_lines_waiting(rt, alloc, store, pass, trace, workers, block, gate)?;
        assert!(rt; replies.len() as u64 == trace.len());
        return Ok(replies);
    }
    let (replies, drawn) = run_drawn_waiting(rt, alloc, store, pass, trace, workers, block, gate)?;
    assert!(rt; replies.len() as u64 == trace.len());
    assert!(rt; are_drawn_by(&drawn, trace.len(), workers, block));
    Ok(replies)
}

// The line is found under its identifier, if it has one.
fn read_back<R: Wait + Abort>(
    rt: &R,
    store: &Store,
    pass: &mut StorePass,
    line: &[u32],
    reply: Reply,
)
    requires slots { store.now.about.slots ≡ 3 }
    requires rest { AtRest (compact 28 7) store.now pass.old }
    ensures { AtRest (compact 28 7) store.now pass.new }
{
    let Some(id) = reply.id() else {
        return;
    };
    let mut out = [9; 3];
    assert!(rt; store.lookup(rt, pass, id, &mut out));
    assert!(rt; out[..] == line[..]);
}

// All lines that have an identifier are found under it.
fn read_all_back<R: Wait + Abort>(
    rt: &R,
    store: &Store,
    pass: &mut StorePass,
    trace: &Trace,
    replies: &[Reply],
)
    requires rest { AtRest (compact 28 7) store.now pass.old }
    requires replies { length replies.now ≡ length trace.now }
    ensures { AtRest (compact 28 7) store.now pass.new }
{
    assert!(rt; store.slots() == 3);
    for i in 0..trace.len() {
        read_back(rt, store, pass, trace.line(i), replies[i as usize]);
    }
}

// Forty lines, twice on one store: the second time no line is new, and each has its identifier.
fn insert_forty_lines<R: Threads + Wait + Abort + Sync>(
    rt: &R,
    alloc: Global,
    way: (u64, u64, bool),
    state: &mut u64,
) -> Result<(), Fail> {
    let (store, mut pass) = store(alloc, 3, 10, 8)?;
    let text = forty_lines(alloc, 3, state)?;
    let trace = lines(rt, alloc, &store, text.as_slice())?;
    let first = run(rt, alloc, &store, &mut pass, &trace, way, &NoGate)?;
    let (names, full) = count_names(rt, &trace, first.as_slice());
    assert!(rt; full == 0 && store.names_made(&pass) == names);
    read_all_back(rt, &store, &mut pass, &trace, first.as_slice());
    let second = run(rt, alloc, &store, &mut pass, &trace, way, &NoGate)?;
    for i in 0..first.len() {
        assert!(rt; i < second.len() && !second[i].is_new());
        assert!(rt; second[i].id() == first[i].id());
    }
    Ok(())
}

#[test]
fn insert_in_many_ways(rt: HostRuntime) -> Result<(), Fail> {
    let mut state = 3;
    for workers in [1, 2, 3, 8, 64] {
        for block in [1, 7, 64] {
            for draws in [false, true] {
                insert_forty_lines(&rt, rt.alloc(), (workers, block, draws), &mut state)?;
            }
        }
    }
    Ok(())
}

// 3 and 5 in a profile of 28 bits: 3 * 2^28 + 5.
#[test]
fn roots_are_named_by_themselves(rt: HostRuntime) -> Result<(), Fail> {
    let alloc = rt.alloc();
    for draws in [false, true] {
        let (store, mut pass) = store(alloc, 2, 3, 6)?;
        let trace = lines(&rt, alloc, &store, b"3,5\n3,5\n")?;
        let replies = run(
            &rt,
            alloc,
            &store,
            &mut pass,
            &trace,
            (1, 1, draws),
            &NoGate,
        )?;
        assert!(rt; replies.get(0) == Some(&Reply::New(805_306_373)));
        assert!(rt; replies.get(1) == Some(&Reply::Seen(805_306_373)));
    }
    Ok(())
}

#[test]
fn workers_over_a_compact_store_run_at_once(rt: HostRuntime) -> Result<(), Fail> {
    let alloc = rt.alloc();
    for (held, until) in [(1, 2), (2, 1)] {
        for draws in [false, true] {
            let (store, mut pass) = store(alloc, 2, 3, 6)?;
            let trace = lines(&rt, alloc, &store, b"1,2\n3,4\n")?;
            let gate = TurnGate::new(held, until, 1_000_000_000);
            run(&rt, alloc, &store, &mut pass, &trace, (2, 1, draws), &gate)?;
            assert!(rt; !gate.timed_out());
        }
    }
    Ok(())
}
