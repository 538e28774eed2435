//! Answers worked out outside, and many callers at once.
ghost use Rattle.std.specs.Prelude.{◌≡◌, ◌≤◌, ◌^◌, All, IfOk};
ghost use Rattle.pair_rule.specs.Laws.{InRange};
ghost use Rattle.pair_rule.specs.NoRoots.{no_roots};
ghost use Rattle.pair_rule.specs.Rest.{AtRest};

use super::Nodes;
use pair_rule::{Caller, NoRoot, NodesFull, PairTable, Pass, RootPart, Sizes};
use std::alloc::Global;
use std::process::Abort;
use std::test::Fail;
use std::thread;
use std::thread::Threads;
use tdb_base::{Kept, Ledger, NoMemory, Silent, Steps};

// All lines of a path are walked.
const SIZES_OF_8: Sizes = Sizes {
    nodes: 3,
    roots: 3,
    region: 6,
    probe: 4194304,
};

const SIZES_OF_64: Sizes = Sizes {
    nodes: 6,
    roots: 3,
    region: 6,
    probe: 4194304,
};

// Puts so many of the pairs (0, 0) to (0, 11), from one of them on and around, and keeps the answers.
fn put_pairs<L: Ledger, R: RootPart<W, F>, const W: u32, const F: u32>(
    nodes: &Nodes<R, W, F>,
    pass: &mut Pass<R, W, F>,
    begins: u64,
    count: u64,
    answers: &mut Answers,
    steps: &mut Steps<L>,
)
    requires rest { AtRest R.part nodes.now pass.old }
    requires width { nodes.now.about.width ≡ W }
    requires wide { 12 ≤ 2 ^ W }
    ensures { AtRest R.part nodes.now pass.new }
{
    let count = count.min(12).max(1);
    for turn in 0..count {
        let right = (begins % 12 + turn) % count;
        answers[right as usize] = nodes.find_or_put(pass, 0, right, steps).ok();
    }
}

// What a caller was answered for each pair.
type Answers = [Option<u64>; 12];

// All callers put so many pairs, each in a thread of its own.
fn put_at_once<H: Threads + Sync>(
    rt: &H,
    nodes: &Nodes<NoRoot, 16, 8>,
    callers: &mut [Caller<(), Answers>],
    pairs: u64,
)
    requires width { nodes.now.about.width ≡ 16 }
    requires callers { All (λ c. AtRest no_roots nodes.now c.pass) callers.old }
    ensures { All (λ c. AtRest no_roots nodes.now c.pass) callers.new }
{
    let count = callers.len();
    if count > 0 {
        thread::for_each_mut(
            rt,
            callers,
            count,
            &|_, caller: &mut Caller<(), Answers>|
                requires width { nodes.now.about.width ≡ 16 }
                requires rest { AtRest no_roots nodes.now caller.now.pass }
                ensures { AtRest no_roots nodes.entry.now caller.exit.now.pass }
            {
                let mut steps = Steps::new(Silent);
                put_pairs::<Silent, NoRoot, 16, 8>(
                    nodes,
                    &mut caller.pass,
                    5 * (caller.number % 12),
                    pairs,
                    &mut caller.kept,
                    &mut steps,
                );
            },
        );
    }
}

// Whether all callers were answered alike, and different pairs differently; and how many pairs have an index.
fn alike(callers: &[Caller<(), Answers>]) -> Option<u64> {
    let first = callers.get(0)?;
    let mut found = 0u64;
    for (i, answer) in first.kept.iter().enumerate() {
        for caller in callers {
            if caller.kept[i] != *answer {
                return None;
            }
        }
        if answer.is_some() {
            found = u64::saturating_add(found, 1);
            for j in 0..i {
                if first.kept[j] == *answer {
                    return None;
                }
            }
        }
    }
    Some(found)
}

#[test]
fn finds_what_it_put(rt: HostRuntime) -> Result<(), Fail> {
    let (table, mut pass) = PairTable::<NoRoot, 16, 8>::create(rt.alloc(), &SIZES_OF_64, 4)?;
    let nodes = Nodes::over(table);
    let mut steps = Steps::new(Silent);
    assert!(rt; nodes.find_or_put(&mut pass, 0, 1, &mut steps) == Ok(59));
    let Ok(index) = nodes.find_or_put(&mut pass, 0, 1, &mut steps) else {
        panic!(rt; "full")
    };
    assert!(rt; index == 59 && pass.nodes_count == 1);
    assert!(rt; nodes.pair_at(&mut pass, index) == (0, 1));
    Ok(())
}

#[test]
fn fills_up(rt: HostRuntime) -> Result<(), Fail> {
    let (table, mut pass) = PairTable::<NoRoot, 16, 8>::create(rt.alloc(), &SIZES_OF_8, 4)?;
    let nodes = Nodes::over(table);
    let mut caller = Caller::new(0, pass, [None; 12]);
    let mut steps = Steps::new(Silent);
    put_pairs::<Silent, NoRoot, 16, 8>(
        &nodes,
        &mut caller.pass,
        0,
        12,
        &mut caller.kept,
        &mut steps,
    );
    for (i, answer) in caller.kept.iter().enumerate() {
        assert!(rt; answer.is_some() == (i < 8));
    }
    let pass = &caller.pass;
    assert!(rt; pass.nodes_count == 8);
    let callers = [caller];
    assert!(rt; alike(&callers) == Some(8));
    Ok(())
}

#[test]
fn ticks_when_full(rt: HostRuntime) -> Result<(), Fail> {
    let (table, mut pass) = PairTable::<NoRoot, 16, 8>::create(rt.alloc(), &SIZES_OF_8, 4)?;
    let nodes = Nodes::over(table);
    let mut answers = [None; 12];
    let mut steps = Steps::new(Kept { shown: 0 });
    put_pairs::<Kept, NoRoot, 16, 8>(&nodes, &mut pass, 0, 12, &mut answers, &mut steps);
    assert!(rt; steps.shown() == 12);
    assert!(rt; nodes.find_or_put(&mut pass, 0, 8, &mut steps).is_err());
    assert!(rt; steps.shown() == 13);
    assert!(rt; nodes.find_or_put(&mut pass, 0, 7, &mut steps) == answers[7].ok_or(NodesFull));
    assert!(rt; steps.shown() == 14);
    Ok(())
}

// So many callers put so many pairs at once into a table of these sizes: all are answered alike, and the
// table has as many pairs as it has room for.
fn compare<H: Threads + Abort + Sync>(
    rt: &H,
    alloc: Global,
    sizes: &Sizes,
    count: u64,
    pairs: u64,
    room: u64,
) -> Result<(), Fail>
    requires { InRange 16 8 (λ s. Unit {0}) sizes.now 4 }
{
    let (table, mut pass) = PairTable::<NoRoot, 16, 8>::create(alloc, sizes, 4)?;
    let nodes = Nodes::over(table);
    let mut callers = split_callers(alloc, &nodes, &mut pass, count)?;
    put_at_once(rt, &nodes, callers.as_mut_slice(), pairs);
    assert!(rt; alike(callers.as_slice()) == Some(room));
    assert!(rt; join_callers(&nodes, &mut pass, callers) == room);
    Ok(())
}

// So many callers that were answered nothing yet.
fn split_callers(
    alloc: Global,
    nodes: &Nodes<NoRoot, 16, 8>,
    pass: &mut Pass<NoRoot, 16, 8>,
    count: u64,
) -> Result<Vec<Caller<(), Answers>>, NoMemory>
    requires { AtRest no_roots nodes.now pass.old }
    ensures rest { AtRest no_roots nodes.now pass.new }
    ensures callers { IfOk result (λ v. All (λ c. AtRest no_roots nodes.now c.pass) v.items) }
{
    nodes.table().split_callers(alloc, pass, count, [None; 12])
}

// All callers are joined; answers how many nodes they put.
fn join_callers(
    nodes: &Nodes<NoRoot, 16, 8>,
    pass: &mut Pass<NoRoot, 16, 8>,
    callers: Vec<Caller<(), Answers>>,
) -> u64
    requires rest { AtRest no_roots nodes.now pass.old }
    requires callers { All (λ c. AtRest no_roots nodes.now c.pass) callers.items }
{
    nodes.table().join_callers(pass, callers);
    pass.nodes_count
}

#[test]
fn two_to_eight_threads(rt: HostRuntime) -> Result<(), Fail> {
    for count in [2, 4, 8] {
        compare(&rt, rt.alloc(), &SIZES_OF_64, count, 12, 12)?;
        compare(&rt, rt.alloc(), &SIZES_OF_8, count, 12, 8)?;
    }
    Ok(())
}

#[test]
fn two_threads_put_one_pair(rt: HostRuntime) -> Result<(), Fail> {
    let (table, mut pass) = PairTable::<NoRoot, 16, 8>::create(rt.alloc(), &SIZES_OF_64, 4)?;
    let nodes = Nodes::over(table);
    let mut callers = split_callers(rt.alloc(), &nodes, &mut pass, 2)?;
    put_at_once(&rt, &nodes, callers.as_mut_slice(), 2);
    for caller in &callers {
        assert!(rt; caller.kept[0] == Some(0) && caller.kept[1] == Some(59));
    }
    assert!(rt; join_callers(&nodes, &mut pass, callers) == 2);
    Ok(())
}
