//! Two to 64 threads put roots, look for them and turn their flags, and what each saw is compared.
ghost use Rattle.std.specs.Prelude.{◌≡◌, ◌<◌, ◌≤◌, All, IfOk};
ghost use Rattle.pair_rule.specs.Rest.{AtRest};
ghost use Rattle.region_root.specs.Compact.{compact};

use super::{Store, StorePass, peek, put, store, turn};
use crate::{Peek, Regions};
use pair_rule::Caller;
use std::alloc::Global;
use std::process::Abort;
use std::sync::Wait;
use std::test::Fail;
use std::thread;
use std::thread::Threads;
use tdb_base::{NoMemory, Silent, Steps};

// What a caller was answered for each of twelve roots, whether it was the first to set each one's flag, how
// often it was the first to set another flag and to clear it, and whether it once missed a root that it had
// been told of.
#[derive(Clone, Copy)]
struct Findings {
    answers: [Option<(u64, bool)>; 12],
    firsts: [bool; 12],
    set: u64,
    cleared: u64,
    missed: bool,
}

const NOTHING_YET: Findings = Findings {
    answers: [None; 12],
    firsts: [false; 12],
    set: 0,
    cleared: 0,
    missed: false,
};

type Finder = Caller<Regions, Findings>;

// Puts one root, sets its flag and looks for it: the answer, whether the flag was first set, and whether the
// root was missed.
fn put_one<H: Wait>(
    rt: &H,
    store: &Store,
    pass: &mut StorePass,
    slot: u64,
) -> (Option<(u64, bool)>, bool, bool)
    requires width { store.now.about.width ≡ 16 }
    requires flags { store.now.about.flags ≡ 8 }
    requires slots { store.now.about.slots ≡ 3 }
    requires rest { AtRest (compact 16 8) store.now pass.old }
    requires small { slot < 64 }
    ensures { AtRest (compact 16 8) store.now pass.new }
{
    let mut steps = Steps::new(Silent);
    let Some((id, fresh)) = put(rt, store, pass, slot, &mut steps) else {
        return (None, false, false);
    };
    let first = turn(rt, store, pass, id, 3, true);
    let missed = peek(store, pass, slot, &mut steps) == Some(Peek::Absent);
    (Some((id, fresh)), first, missed)
}

// Puts the twelve roots, from one of them on and around, and keeps the answers.
fn put_twelve<H: Wait>(rt: &H, store: &Store, caller: &mut Finder)
    requires width { store.now.about.width ≡ 16 }
    requires flags { store.now.about.flags ≡ 8 }
    requires slots { store.now.about.slots ≡ 3 }
    requires rest { AtRest (compact 16 8) store.now caller.old.pass }
    ensures { AtRest (compact 16 8) store.now caller.new.pass }
{
    for turn in 0..12u64 {
        let slot = (5 * (caller.number % 12) + turn) % 12;
        let (answer, first, missed) = put_one(rt, store, &mut caller.pass, slot);
        caller.kept.answers[slot as usize] = answer;
        caller.kept.firsts[slot as usize] = first;
        caller.kept.missed |= missed;
    }
}

// Turns a flag of one root so often, each time set or cleared, and counts how often it changed.
fn turn_each<H: Wait>(rt: &H, store: &Store, caller: &mut Finder, turns: &[bool])
    requires width { store.now.about.width ≡ 16 }
    requires flags { store.now.about.flags ≡ 8 }
    requires slots { store.now.about.slots ≡ 3 }
    requires rest { AtRest (compact 16 8) store.now caller.old.pass }
    ensures { AtRest (compact 16 8) store.now caller.new.pass }
{
    let mut steps = Steps::new(Silent);
    for set in turns {
        let Some((id, _)) = put(rt, store, &mut caller.pass, 5, &mut steps) else {
            caller.kept.missed = true;
            return;
        };
        let first = turn(rt, store, &mut caller.pass, id, 6, *set);
        caller.kept.set = caller.kept.set.saturating_add(u64::from(first & *set));
        caller.kept.cleared = caller.kept.cleared.saturating_add(u64::from(first & !*set));
    }
}

// Fills its quarter of a region of 64 with roots that no other caller puts.
fn fill_quarter<H: Wait>(rt: &H, store: &Store, caller: &mut Finder, number: u64)
    requires width { store.now.about.width ≡ 16 }
    requires slots { store.now.about.slots ≡ 3 }
    requires rest { AtRest (compact 16 8) store.now caller.old.pass }
    requires number { number < 4 }
    ensures { AtRest (compact 16 8) store.now caller.new.pass }
{
    let mut steps = Steps::new(Silent);
    for turn in 0..16u64 {
        let slot = 4 * turn + number;
        let answer = put(rt, store, &mut caller.pass, slot, &mut steps);
        caller.kept.missed |= answer != Some((slot, true));
    }
}

// Whether no look can be answered so: another root's identifier, or that a root is absent which the caller
// was told of.
fn is_wrong(answer: Option<Peek>, slot: u64, told: bool) -> bool {
    match answer {
        Some(Peek::Seen(id)) => id != slot,
        Some(Peek::Absent) => told,
        Some(Peek::Changed) => false,
        None => true,
    }
}

// Looks for the region's roots, one after another and around, without a lock.
fn read_around(store: &Store, caller: &mut Finder)
    requires width { store.now.about.width ≡ 16 }
    requires slots { store.now.about.slots ≡ 3 }
    requires rest { AtRest (compact 16 8) store.now caller.old.pass }
    ensures { AtRest (compact 16 8) store.now caller.new.pass }
{
    let mut steps = Steps::new(Silent);
    let mut told = [false; 64];
    for look in 0..6400u64 {
        let slot = look % 64;
        let answer = peek(store, &mut caller.pass, slot, &mut steps);
        caller.kept.missed |= is_wrong(answer, slot, told[slot as usize]);
        told[slot as usize] |= answer == Some(Peek::Seen(slot));
    }
}

// One of eight callers: the first four fill a region, and the others read it meanwhile.
fn fill_or_read<H: Wait>(rt: &H, store: &Store, caller: &mut Finder, number: u64)
    requires width { store.now.about.width ≡ 16 }
    requires slots { store.now.about.slots ≡ 3 }
    requires rest { AtRest (compact 16 8) store.now caller.old.pass }
    ensures { AtRest (compact 16 8) store.now caller.new.pass }
{
    if number < 4 {
        fill_quarter(rt, store, caller, number);
    } else {
        read_around(store, caller);
    }
}

// What a caller does.
#[derive(Drop)]
enum Task<'a> {
    /// It puts the twelve roots.
    Put,
    /// It turns a flag so often, each time set or cleared.
    Turn(&'a [bool]),
    /// It fills a region, or reads it.
    FillOrRead,
}

// One caller does its task.
fn act<H: Wait>(rt: &H, store: &Store, caller: &mut Finder, number: u64, task: &Task)
    requires width { store.now.about.width ≡ 16 }
    requires flags { store.now.about.flags ≡ 8 }
    requires slots { store.now.about.slots ≡ 3 }
    requires rest { AtRest (compact 16 8) store.now caller.old.pass }
    ensures { AtRest (compact 16 8) store.now caller.new.pass }
{
    match task {
        Task::Put => put_twelve(rt, store, caller),
        Task::Turn(turns) => turn_each(rt, store, caller, turns),
        Task::FillOrRead => fill_or_read(rt, store, caller, number),
    }
}

// All callers do the task at once, each in a thread of its own.
fn act_at_once<H: Threads + Wait + Sync>(rt: &H, store: &Store, callers: &mut [Finder], task: &Task)
    requires width { store.now.about.width ≡ 16 }
    requires flags { store.now.about.flags ≡ 8 }
    requires slots { store.now.about.slots ≡ 3 }
    requires callers { All (λ c. AtRest (compact 16 8) store.now c.pass) callers.old }
    ensures { All (λ c. AtRest (compact 16 8) store.now c.pass) callers.new }
{
    let count = callers.len();
    if count > 0 {
        thread::for_each_mut(
            rt,
            callers,
            count,
            &|number, caller: &mut Finder|
                requires width { store.now.about.width ≡ 16 }
                requires flags { store.now.about.flags ≡ 8 }
                requires slots { store.now.about.slots ≡ 3 }
                requires rest { AtRest (compact 16 8) store.now caller.now.pass }
                ensures { AtRest (compact 16 8) store.entry.now caller.exit.now.pass }
            {
                act(rt, store, caller, number as u64, task);
            },
        );
    }
}

// So many callers that found nothing yet.
fn split_callers(
    alloc: Global,
    store: &Store,
    pass: &mut StorePass,
    count: u64,
) -> Result<Vec<Finder>, NoMemory>
    requires { AtRest (compact 16 8) store.now pass.old }
    ensures rest { AtRest (compact 16 8) store.now pass.new }
    ensures callers { IfOk result (λ v. All (λ c. AtRest (compact 16 8) store.now c.pass) v.items) }
{
    store.table().split_callers(alloc, pass, count, NOTHING_YET)
}

// How many callers gave a root its name, and how many were the first to set its flag, if all were answered
// its identifier and none missed a root.
fn named_by(callers: &[Finder], slot: usize) -> Option<(u64, u64)>
    requires { slot < 12 }
{
    let mut fresh = 0u64;
    let mut first = 0u64;
    for caller in callers {
        let (id, new) = caller.kept.answers[slot]?;
        if id != slot as u64 || caller.kept.missed {
            return None;
        }
        if new {
            fresh = fresh.saturating_add(1);
        }
        if caller.kept.firsts[slot] {
            first = first.saturating_add(1);
        }
    }
    Some((fresh, first))
}

// So many callers put the roots at once into `2^roots` cells in regions of 64.
fn compare<H: Threads + Wait + Abort + Sync>(
    rt: &H,
    alloc: Global,
    roots: u32,
    count: u64,
) -> Result<(), Fail>
    requires { (6 ≤ roots) × (roots ≤ 24) }
{
    let (store, mut pass) = store(alloc, roots)?;
    let mut callers = split_callers(alloc, &store, &mut pass, count)?;
    act_at_once(rt, &store, callers.as_mut_slice(), &Task::Put);
    for slot in 0..12usize {
        assert!(rt; named_by(callers.as_slice(), slot) == Some((1, 1)));
    }
    Ok(())
}

#[test]
fn two_to_eight_threads(rt: HostRuntime) -> Result<(), Fail> {
    for count in [2, 4, 8] {
        compare(&rt, rt.alloc(), 6, count)?;
        compare(&rt, rt.alloc(), 12, count)?;
    }
    Ok(())
}

#[test]
fn sixty_four_threads_on_one_region(rt: HostRuntime) -> Result<(), Fail> {
    compare(&rt, rt.alloc(), 6, 64)
}

// So often a flag is set and then cleared.
fn alternate(alloc: Global, count: u32) -> Result<Vec<bool>, NoMemory> {
    let mut turns = Vec::new(alloc);
    for _ in 0..count {
        turns.push(true)?;
        turns.push(false)?;
    }
    Ok(turns)
}

// How often the flag was first set, and first cleared, if no caller missed the root.
fn turned_by(callers: &[Finder]) -> Option<(u64, u64)> {
    let mut set = 0u64;
    let mut cleared = 0u64;
    for caller in callers {
        if caller.kept.missed {
            return None;
        }
        set = set.saturating_add(caller.kept.set);
        cleared = cleared.saturating_add(caller.kept.cleared);
    }
    Some((set, cleared))
}

// The callers set one flag at once, and then clear it at once, and so on: each time one of them is the first.
fn take_turns<H: Threads + Wait + Abort + Sync>(rt: &H, store: &Store, callers: &mut [Finder])
    requires width { store.now.about.width ≡ 16 }
    requires flags { store.now.about.flags ≡ 8 }
    requires slots { store.now.about.slots ≡ 3 }
    requires callers { All (λ c. AtRest (compact 16 8) store.now c.pass) callers.old }
{
    for round in 0..20u64 {
        act_at_once(rt, store, callers, &Task::Turn(&[true]));
        assert!(rt; turned_by(callers) == Some((round + 1, round)));
        act_at_once(rt, store, callers, &Task::Turn(&[false]));
        assert!(rt; turned_by(callers) == Some((round + 1, round + 1)));
    }
}

#[test]
fn one_is_first_between_two_clearings(rt: HostRuntime) -> Result<(), Fail> {
    let alloc = rt.alloc();
    let (store, mut pass) = store(alloc, 6)?;
    let mut callers = split_callers(alloc, &store, &mut pass, 8)?;
    take_turns(&rt, &store, callers.as_mut_slice());
    Ok(())
}

// Eight callers each set the flag and clear it a hundred times: it is first set as often as it is first
// cleared, and at least once, since each caller's last turn clears it.
#[test]
fn settings_and_clearings_alternate(rt: HostRuntime) -> Result<(), Fail> {
    let alloc = rt.alloc();
    let (store, mut pass) = store(alloc, 6)?;
    let mut callers = split_callers(alloc, &store, &mut pass, 8)?;
    let turns = alternate(alloc, 100)?;
    let task = Task::Turn(turns.as_slice());
    act_at_once(&rt, &store, callers.as_mut_slice(), &task);
    let Some((set, cleared)) = turned_by(callers.as_slice()) else {
        panic!(rt; "missed")
    };
    assert!(rt; set == cleared && set > 0);
    Ok(())
}

// Four callers fill a region while four read it: each root is new to its one caller, and no reader is told of
// another root, or misses one that it was told of.
#[test]
fn readers_while_writers_fill(rt: HostRuntime) -> Result<(), Fail> {
    let alloc = rt.alloc();
    for _ in 0..10u32 {
        let (store, mut pass) = store(alloc, 6)?;
        let mut callers = split_callers(alloc, &store, &mut pass, 8)?;
        act_at_once(&rt, &store, callers.as_mut_slice(), &Task::FillOrRead);
        assert!(rt; turned_by(callers.as_slice()).is_some());
    }
    Ok(())
}
