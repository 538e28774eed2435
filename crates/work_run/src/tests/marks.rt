//! Runs that mark their lines, over a plain store and over small regions, looked at from the outside: which
//! lines are told to be the first of their vectors.
ghost use Rattle.std.specs.Prelude.{◌≡◌, ◌<◌, All, IfOk, length};
ghost use Rattle.pair_rule.specs.Rest.{AtRest};
ghost use Rattle.region_root.specs.Compact.{compact};
ghost use Rattle.root_plain.specs.Plain.{plain};
ghost use Rattle.tree_store.specs.Vectors.{IsVector};

use super::schedules::{count_names, forty_lines};
use super::{crowd, waiting};
use crate::{mark_lines, mark_lines_waiting};
use std::alloc::Global;
use std::process::Abort;
use std::sync::Wait;
use std::test::Fail;
use std::thread::Threads;
use tdb_base::{NoGate, Reply};
use trace_csv::Trace;

// How many of the lines with this line's vector are told to be the first.
fn firsts_among(trace: &Trace, firsts: &[bool], i: u64) -> u64
    requires line { i < length trace.now }
    requires marks { length firsts.now ≡ length trace.now }
{
    let mut count = 0u64;
    for j in 0..trace.len() {
        if trace.line(i) == trace.line(j) && firsts[j as usize] {
            count = count.saturating_add(1);
        }
    }
    count
}

// Of the lines of each vector that has a name so many are told to be the first, and of the others none.
fn expect_marks(rt: &impl Abort, trace: &Trace, replies: &[Reply], firsts: &[bool], each: u64)
    requires replies { length replies.now ≡ length trace.now }
    requires marks { length firsts.now ≡ length trace.now }
{
    for i in 0..trace.len() {
        let of_name = if replies[i as usize].is_full() {
            0
        } else {
            each
        };
        assert!(rt; firsts_among(trace, firsts, i) == of_name);
    }
}

// How lines are marked: by so many workers, in blocks, with a flag.
#[derive(Clone, Copy)]
struct Way {
    workers: u64,
    block: u64,
    flag: u32,
}

// The marks of a plain store's lines.
fn mark<R: Threads + Abort + Sync>(
    rt: &R,
    alloc: Global,
    store: &crowd::Store,
    pass: &mut crowd::StorePass,
    trace: &Trace,
    way: Way,
) -> Result<(Vec<Reply>, Vec<bool>), Fail>
    requires rest { AtRest plain store.now pass.old }
    requires flags { store.now.about.flags ≡ 8 }
    requires fit { All (IsVector store.now.about) trace.now }
    ensures rest { AtRest plain store.now pass.new }
    ensures all { IfOk result (λ made. (length made.0.items ≡ length trace.now)
        × (length made.1.items ≡ length trace.now)) }
{
    let Way {
        workers,
        block,
        flag,
    } = way;
    assert!(rt; trace.len() <= 4_294_967_296 && flag < 7);
    assert!(rt; 1 <= workers && workers <= 64);
    assert!(rt; 1 <= block && block <= 65_536);
    let (replies, firsts) = mark_lines(
        rt, alloc, store, pass, trace, workers, block, flag, &NoGate,
    )?;
    assert!(rt; replies.len() as u64 == trace.len() && firsts.len() as u64 == trace.len());
    Ok((replies, firsts))
}

// Those of a compact store's lines.
fn mark_waiting<R: Threads + Wait + Abort + Sync>(
    rt: &R,
    alloc: Global,
    store: &waiting::Store,
    pass: &mut waiting::StorePass,
    trace: &Trace,
    way: Way,
) -> Result<(Vec<Reply>, Vec<bool>), Fail>
    requires rest { AtRest (compact 28 7) store.now pass.old }
    requires flags { store.now.about.flags ≡ 7 }
    requires fit { All (IsVector store.now.about) trace.now }
    ensures rest { AtRest (compact 28 7) store.now pass.new }
    ensures all { IfOk result (λ made. (length made.0.items ≡ length trace.now)
        × (length made.1.items ≡ length trace.now)) }
{
    let Way {
        workers,
        block,
        flag,
    } = way;
    assert!(rt; trace.len() <= 4_294_967_296 && flag < 7);
    assert!(rt; 1 <= workers && workers <= 64);
    assert!(rt; 1 <= block && block <= 65_536);
    let (replies, firsts) = mark_lines_waiting(
        rt, alloc, store, pass, trace, workers, block, flag, &NoGate,
    )?;
    assert!(rt; replies.len() as u64 == trace.len() && firsts.len() as u64 == trace.len());
    Ok((replies, firsts))
}

// Forty lines in small tables, marked twice with one flag and once with another: each vector that has a name
// is first once, then never, and with the other flag once.
fn mark_plain_lines<R: Threads + Abort + Sync>(
    rt: &R,
    alloc: Global,
    way: Way,
    state: &mut u64,
) -> Result<u64, Fail> {
    let (store, mut pass) = crowd::store(alloc, 3, 4, 4)?;
    let text = forty_lines(alloc, 3, state)?;
    let trace = crowd::lines(rt, alloc, &store, text.as_slice())?;
    let (replies, firsts) = mark(rt, alloc, &store, &mut pass, &trace, way)?;
    let (names, full) = count_names(rt, &trace, &replies);
    assert!(rt; store.names_made(&pass) == names);
    expect_marks(rt, &trace, &replies, &firsts, 1);
    let (replies, firsts) = mark(rt, alloc, &store, &mut pass, &trace, way)?;
    expect_marks(rt, &trace, &replies, &firsts, 0);
    let other = Way { flag: 6, ..way };
    let (replies, firsts) = mark(rt, alloc, &store, &mut pass, &trace, other)?;
    expect_marks(rt, &trace, &replies, &firsts, 1);
    Ok(full)
}

// The same over regions of 64 cells.
fn mark_compact_lines<R: Threads + Wait + Abort + Sync>(
    rt: &R,
    alloc: Global,
    way: Way,
    state: &mut u64,
) -> Result<(), Fail> {
    let (store, mut pass) = waiting::store(alloc, 3, 10, 6)?;
    let text = forty_lines(alloc, 3, state)?;
    let trace = waiting::lines(rt, alloc, &store, text.as_slice())?;
    let (replies, firsts) = mark_waiting(rt, alloc, &store, &mut pass, &trace, way)?;
    let (names, full) = count_names(rt, &trace, &replies);
    assert!(rt; full == 0 && store.names_made(&pass) == names);
    expect_marks(rt, &trace, &replies, &firsts, 1);
    let (replies, firsts) = mark_waiting(rt, alloc, &store, &mut pass, &trace, way)?;
    expect_marks(rt, &trace, &replies, &firsts, 0);
    let other = Way { flag: 6, ..way };
    let (replies, firsts) = mark_waiting(rt, alloc, &store, &mut pass, &trace, other)?;
    expect_marks(rt, &trace, &replies, &firsts, 1);
    Ok(())
}

#[test]
fn each_name_is_marked_first_once(rt: HostRuntime) -> Result<(), Fail> {
    let mut state = 7;
    let mut full = 0u64;
    for workers in [1, 2, 8, 64] {
        for block in [1, 3] {
            let way = Way {
                workers,
                block,
                flag: 2,
            };
            full = full.saturating_add(mark_plain_lines(&rt, rt.alloc(), way, &mut state)?);
            mark_compact_lines(&rt, rt.alloc(), way, &mut state)?;
        }
    }
    assert!(rt; full > 0);
    Ok(())
}

// 3 and 5 in a profile of 28 bits are 3 * 2^28 + 5, and 5 and 3 are 5 * 2^28 + 3.
#[test]
fn marks_of_one_worker(rt: HostRuntime) -> Result<(), Fail> {
    let alloc = rt.alloc();
    let (store, mut pass) = waiting::store(alloc, 2, 3, 6)?;
    let trace = waiting::lines(&rt, alloc, &store, b"3,5\n5,3\n3,5\n")?;
    let way = Way {
        workers: 1,
        block: 1,
        flag: 0,
    };
    let (replies, firsts) = mark_waiting(&rt, alloc, &store, &mut pass, &trace, way)?;
    assert!(rt;
        replies[..]
            == [
                Reply::New(805_306_373),
                Reply::New(1_342_177_283),
                Reply::Seen(805_306_373)
            ]
    );
    assert!(rt; firsts[..] == [true, true, false]);
    Ok(())
}
