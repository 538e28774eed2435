//! Runs whose workers draw their blocks, over a plain store: what they answered, and whose each line is told to
//! be.
ghost use Rattle.std.specs.Prelude.{◌≡◌, ◌≤◌, ◌^◌, All, IfOk, length};
ghost use Rattle.pair_rule.specs.Rest.{AtRest};
ghost use Rattle.root_plain.specs.Plain.{plain};
ghost use Rattle.tree_store.specs.Vectors.{IsVector};

use super::crowd::{Store, StorePass, lines, store};
use super::schedules::{count_names, forty_lines, read_all_back};
use crate::run_drawn;
use std::alloc::Global;
use std::process::Abort;
use std::test::Fail;
use std::thread::Threads;
use tdb_base::{Gate, NoGate, NoMemory, Reply, TurnGate};
use trace_csv::Trace;

// The replies of so many workers, and who drew each line.
fn run<R: Threads + Abort + Sync, G: Gate>(
    rt: &R,
    alloc: Global,
    store: &Store,
    pass: &mut StorePass,
    trace: &Trace,
    workers: u64,
    block: u64,
    gate: &G,
) -> Result<(Vec<Reply>, Vec<u32>), NoMemory>
    requires rest { AtRest plain store.now pass.old }
    requires fit { All (IsVector store.now.about) trace.now }
    ensures rest { AtRest plain store.now pass.new }
    ensures all { IfOk result (λ made. length made.0.items ≡ length trace.now) }
{
    assert!(rt; trace.len() <= 4_294_967_296);
    assert!(rt; 1 <= workers && workers <= 64);
    assert!(rt; 1 <= block && block <= 65_536);
    let (replies, drawn) = run_drawn(rt, alloc, store, pass, trace, workers, block, gate)?;
    assert!(rt; replies.len() as u64 == trace.len());
    assert!(rt; are_drawn_by(&drawn, trace.len(), workers, block));
    Ok((replies, drawn))
}

// Each line has one of the workers, and all lines of a block have one.
pub(crate) fn are_drawn_by(drawn: &[u32], lines: u64, workers: u64, block: u64) -> bool {
    let mut first = 0usize;
    for i in 0..drawn.len() {
        if (i as u64).checked_rem(block) == Some(0) {
            first = i;
        }
        if drawn[i] as u64 >= workers || drawn.get(first) != Some(&drawn[i]) {
            return false;
        }
    }
    drawn.len() as u64 == lines
}

// Forty lines, twice on one store: the second time no line is new, and each has its identifier.
fn draw_forty_lines<R: Threads + Abort + Sync>(
    rt: &R,
    alloc: Global,
    workers: u64,
    block: u64,
    state: &mut u64,
) -> Result<(), Fail> {
    let (store, mut pass) = store(alloc, 3, 10, 10)?;
    let text = forty_lines(alloc, 3, state)?;
    let trace = lines(rt, alloc, &store, text.as_slice())?;
    let (first, _) = run(
        rt, alloc, &store, &mut pass, &trace, workers, block, &NoGate,
    )?;
    let (names, full) = count_names(rt, &trace, first.as_slice());
    assert!(rt; full == 0 && store.names_made(&pass) == names);
    read_all_back(rt, &store, &mut pass, &trace, first.as_slice());
    let (second, _) = run(
        rt, alloc, &store, &mut pass, &trace, workers, block, &NoGate,
    )?;
    for i in 0..first.len() {
        assert!(rt; i < second.len() && !second[i].is_new());
        assert!(rt; second[i].id() == first[i].id());
    }
    Ok(())
}

#[test]
fn draw_in_many_ways(rt: HostRuntime) -> Result<(), Fail> {
    let mut state = 7;
    for workers in [1, 2, 3, 8, 17, 64] {
        for block in [1, 2, 7, 64] {
            draw_forty_lines(&rt, rt.alloc(), workers, block, &mut state)?;
        }
    }
    Ok(())
}

// Whether a held line, which one of two workers drew, sees another line done while it waits.
fn sees_another_done<R: Threads + Abort + Sync>(
    rt: &R,
    alloc: Global,
    text: &[u8],
    held: u64,
    until: u64,
) -> Result<bool, Fail> {
    let (store, mut pass) = store(alloc, 2, 3, 3)?;
    let trace = lines(rt, alloc, &store, text)?;
    let gate = TurnGate::new(held, until, 1_000_000_000);
    run(rt, alloc, &store, &mut pass, &trace, 2, 1, &gate)?;
    Ok(!gate.timed_out())
}

#[test]
fn drawing_workers_run_at_once(rt: HostRuntime) -> Result<(), Fail> {
    assert!(rt; sees_another_done(&rt, rt.alloc(), b"1,2\n3,4\n", 1, 2)?);
    assert!(rt; sees_another_done(&rt, rt.alloc(), b"1,2\n3,4\n", 2, 1)?);
    Ok(())
}

// Were the blocks dealt in turn, the third line would belong to the worker that holds the first.
#[test]
fn a_worker_draws_what_another_leaves(rt: HostRuntime) -> Result<(), Fail> {
    assert!(rt; sees_another_done(&rt, rt.alloc(), b"1,2\n3,4\n5,6\n", 1, 3)?);
    Ok(())
}

#[test]
fn drawers_name_one_vector_once(rt: HostRuntime) -> Result<(), Fail> {
    let (store, mut pass) = store(rt.alloc(), 2, 3, 3)?;
    let mut text = Vec::new(rt.alloc());
    for _ in 0..1000u64 {
        text.extend_from_slice(b"3,5\n")?;
    }
    let trace = lines(&rt, rt.alloc(), &store, text.as_slice())?;
    let (replies, _) = run(&rt, rt.alloc(), &store, &mut pass, &trace, 8, 1, &NoGate)?;
    let mut fresh = 0u64;
    for reply in replies {
        assert!(rt; reply.id() == Some(0));
        if reply.is_new() {
            fresh = fresh.saturating_add(1);
        }
    }
    assert!(rt; fresh == 1);
    Ok(())
}
