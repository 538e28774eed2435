//! Two to eight threads insert the same vectors into a compact store, and what each was answered is compared.
ghost use Rattle.std.specs.Prelude.{◌≡◌, ◌<◌, ◌≤◌, All, length};
ghost use Rattle.pair_rule.specs.Rest.{AtRest};
ghost use Rattle.region_root.specs.Compact.{compact};

use super::compact::{put, store};
use crate::CompactStore;
use pair_rule::Caller;
use region_root::Regions;
use std::alloc::Global;
use std::process::Abort;
use std::sync::Wait;
use std::test::Fail;
use std::thread;
use std::thread::Threads;
use tdb_base::{Reply, Silent, Steps};

type Store = CompactStore<16, 8>;

// A caller that keeps what it was answered for each of twelve vectors.
type Inserter = Caller<Regions, [Reply; 12]>;

// Inserts the twelve vectors, from one of them on and around, and keeps the answers.
fn put_twelve<H: Wait + Abort>(rt: &H, store: &Store, caller: &mut Inserter)
    requires rest { AtRest (compact 16 8) store.now caller.old.pass }
    ensures { AtRest (compact 16 8) store.now caller.new.pass }
{
    let mut steps = Steps::new(Silent);
    for turn in 0..12u64 {
        let slot = (5 * (caller.number % 12) + turn) % 12;
        let vector = [slot as u32 % 4, slot as u32 / 4, 0];
        let answer = put(rt, store, &mut caller.pass, &vector, &mut steps);
        caller.kept[slot as usize] = answer;
    }
}

// All callers insert the vectors, each in a thread of its own.
fn put_at_once<H: Threads + Wait + Abort + Sync>(rt: &H, store: &Store, callers: &mut [Inserter])
    requires callers { All (λ c. AtRest (compact 16 8) store.now c.pass) callers.old }
    ensures callers { All (λ c. AtRest (compact 16 8) store.now c.pass) callers.new }
{
    let count = callers.len();
    if count > 0 {
        thread::for_each_mut(
            rt,
            callers,
            count,
            &|_, caller: &mut Inserter|
                requires rest { AtRest (compact 16 8) store.now caller.now.pass }
                ensures { AtRest (compact 16 8) store.entry.now caller.exit.now.pass }
            {
                put_twelve(rt, store, caller);
            },
        );
    }
}

// How many callers were answered that the vector is new, if all were answered one identifier.
fn named_by(callers: &[Inserter], slot: usize) -> Option<u64>
    requires { slot < 12 }
{
    let mut fresh = 0u64;
    for caller in callers {
        let answer = caller.kept[slot];
        if answer.id()? != callers[0].kept[slot].id()? {
            return None;
        }
        if answer.is_new() {
            fresh = fresh.saturating_add(1);
        }
    }
    Some(fresh)
}

// So many callers insert the vectors at once into `2^roots` cells in regions of 64.
fn compare<H: Threads + Wait + Abort + Sync>(
    rt: &H,
    alloc: Global,
    roots: u32,
    count: u64,
) -> Result<(), Fail> {
    let (store, mut pass) = store::<16, 8>(rt, alloc, 3, 3, roots);
    let mut callers = store.split_callers(alloc, &mut pass, count, [Reply::FullNodes; 12])?;
    put_at_once(rt, &store, callers.as_mut_slice());
    for slot in 0..12usize {
        assert!(rt; named_by(callers.as_slice(), slot) == Some(1));
    }
    store.join_callers(&mut pass, callers);
    assert!(rt; store.names_made(&pass) == 12 && store.nodes_made(&pass) == 3);
    Ok(())
}

#[test]
fn two_to_eight_threads(rt: HostRuntime) -> Result<(), Fail> {
    for count in [2, 4, 8] {
        compare(&rt, rt.alloc(), 6, count)?;
        compare(&rt, rt.alloc(), 12, count)?;
    }
    Ok(())
}
