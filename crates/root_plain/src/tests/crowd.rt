//! Two to eight threads put the same roots and different ones into small tables, and what each saw is
//! compared.
ghost use Rattle.std.specs.Prelude.{◌≡◌, ◌<◌, ◌≤◌, All, IfOk};
ghost use Rattle.pair_rule.specs.Rest.{AtRest};
ghost use Rattle.root_plain.specs.Plain.{plain};

use super::{Store, StorePass, put, store};
use crate::Roots;
use pair_rule::Caller;
use std::alloc::Global;
use std::process::Abort;
use std::test::Fail;
use std::thread;
use std::thread::Threads;
use tdb_base::{NoMemory, Silent, Steps};

// What a caller was answered for each of the roots (0, 0) to (0, 11).
type Answers = [Option<(u64, bool)>; 12];

type Asker = Caller<Roots, Answers>;

// Puts the twelve roots, from one of them on and around, and keeps the answers.
fn put_twelve(store: &Store, pass: &mut StorePass, begins: u64, answers: &mut Answers)
    requires width { store.now.about.width ≡ 16 }
    requires slots { store.now.about.slots ≡ 2 }
    requires rest { AtRest plain store.now pass.old }
    ensures { AtRest plain store.now pass.new }
{
    let mut steps = Steps::new(Silent);
    for turn in 0..12u64 {
        let right = (begins % 12 + turn) % 12;
        answers[right as usize] = put(store, pass, 0, right, &mut steps);
    }
}

// All callers put the roots, each in a thread of its own.
fn put_at_once<H: Threads + Sync>(rt: &H, store: &Store, callers: &mut [Asker])
    requires width { store.now.about.width ≡ 16 }
    requires slots { store.now.about.slots ≡ 2 }
    requires callers { All (λ c. AtRest plain store.now c.pass) callers.old }
    ensures { All (λ c. AtRest plain store.now c.pass) callers.new }
{
    let count = callers.len();
    if count > 0 {
        thread::for_each_mut(
            rt,
            callers,
            count,
            &|_, caller: &mut Asker|
                requires width { store.now.about.width ≡ 16 }
                requires slots { store.now.about.slots ≡ 2 }
                requires rest { AtRest plain store.now caller.now.pass }
                ensures { AtRest plain store.entry.now caller.exit.now.pass }
            {
                let begins = 5 * (caller.number % 12);
                put_twelve(store, &mut caller.pass, begins, &mut caller.kept);
            },
        );
    }
}

// So many callers that were answered nothing yet.
fn split_callers(
    alloc: Global,
    store: &Store,
    pass: &mut StorePass,
    count: u64,
) -> Result<Vec<Asker>, NoMemory>
    requires { AtRest plain store.now pass.old }
    ensures rest { AtRest plain store.now pass.new }
    ensures callers { IfOk result (λ v. All (λ c. AtRest plain store.now c.pass) v.items) }
{
    store.table().split_callers(alloc, pass, count, [None; 12])
}

// All callers are joined; answers how many names they gave.
fn join_callers(store: &Store, pass: &mut StorePass, callers: Vec<Asker>) -> u64
    requires rest { AtRest plain store.now pass.old }
    requires callers { All (λ c. AtRest plain store.now c.pass) callers.items }
{
    store.table().join_callers(pass, callers);
    pass.names_count
}

// How many callers were answered that they gave the root its name, if all were answered the same identifier,
// or all that there is no place.
fn named_by(callers: &[Asker], root: usize) -> Option<(Option<u64>, u64)>
    requires { root < 12 }
{
    let first = callers.get(0)?;
    let id = first.kept[root].map(|answer| answer.0);
    let mut fresh = 0u64;
    for caller in callers {
        let answer = caller.kept[root];
        if answer.map(|answer| answer.0) != id {
            return None;
        }
        if let Some((_, true)) = answer {
            fresh = fresh.saturating_add(1);
        }
    }
    Some((id, fresh))
}

// So many callers put the roots at once into a table for so many: all see the same identifiers, different
// roots have different ones, and each name is given once.
fn compare<H: Threads + Abort + Sync>(
    rt: &H,
    alloc: Global,
    roots: u32,
    count: u64,
    room: u64,
) -> Result<(), Fail>
    requires { (3 ≤ roots) × (roots ≤ 24) }
{
    let (store, mut pass) = store(alloc, roots)?;
    let mut callers = split_callers(alloc, &store, &mut pass, count)?;
    put_at_once(rt, &store, callers.as_mut_slice());
    let mut buckets = 0u64;
    let mut named = 0u64;
    for root in 0..12usize {
        let Some((id, fresh)) = named_by(callers.as_slice(), root) else {
            panic!(rt; "callers differ")
        };
        assert!(rt; fresh == id.is_some() as u64);
        if let Some(id) = id {
            assert!(rt; id < 64 && buckets & (1 << id) == 0);
            buckets |= 1 << id;
            named = named.saturating_add(1);
        }
    }
    assert!(rt; named == room);
    assert!(rt; join_callers(&store, &mut pass, callers) == room);
    Ok(())
}

#[test]
fn two_to_eight_threads(rt: HostRuntime) -> Result<(), Fail> {
    for count in [2, 4, 8] {
        compare(&rt, rt.alloc(), 6, count, 12)?;
        compare(&rt, rt.alloc(), 3, count, 8)?;
    }
    Ok(())
}
