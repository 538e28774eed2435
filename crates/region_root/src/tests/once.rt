//! A call takes the lock of a root's region once, or never: a lock and an unlock raise its word by one each.
ghost use Rattle.std.specs.Prelude.{◌≡◌, Some};
ghost use Rattle.pair_rule.specs.Rest.{AtRest, KnowsName};
ghost use Rattle.region_root.specs.Compact.{compact};

use super::{Store, StorePass, peek, put, put_some, read, store, turn};
use crate::words::lock_word;
use crate::{Peek, find_id, locks_taken, root_pair};
use std::process::Abort;
use std::sync::Wait;
use std::test::Fail;
use tdb_base::{Silent, Steps};

// By how much the lock word of the one region rose since this value of it.
fn rise(store: &Store, last: &mut u64) -> u64 {
    let table = store.table();
    let now = table.shared().peek(lock_word(table, 0));
    let by = now.wrapping_sub(*last);
    *last = now;
    by
}

// The root with this identifier.
fn find<H: Wait>(rt: &H, store: &Store, pass: &mut StorePass, id: u64) -> Option<(u64, u64)>
    requires rest { AtRest (compact 16 8) store.now pass.old }
    ensures { AtRest (compact 16 8) store.now pass.new }
{
    match find_id(rt, store, pass, id) {
        Some(parts) => Some(parts),
        None => None,
    }
}

// Puts, looks and searches: each that waits for the lock takes it once, also where nothing is found.
fn asks_once<H: Wait + Abort>(rt: &H, store: &Store, pass: &mut StorePass, lock: &mut u64)
    requires width { store.now.about.width ≡ 16 }
    requires slots { store.now.about.slots ≡ 3 }
    requires rest { AtRest (compact 16 8) store.now pass.old }
    ensures { AtRest (compact 16 8) store.now pass.new }
{
    let mut steps = Steps::new(Silent);
    let absent = peek(store, pass, 9, &mut steps);
    assert!(rt; absent == Some(Peek::Absent) && rise(store, lock) == 0);
    let new = put(rt, store, pass, 9, &mut steps);
    assert!(rt; new == Some((9, true)) && rise(store, lock) == 2);
    let again = put(rt, store, pass, 9, &mut steps);
    assert!(rt; again == Some((9, false)) && rise(store, lock) == 2);
    let seen = peek(store, pass, 9, &mut steps);
    assert!(rt; seen == Some(Peek::Seen(9)) && rise(store, lock) == 0);
    let found = find(rt, store, pass, 9);
    assert!(rt; found == Some((0, 9)) && rise(store, lock) == 2);
    let unknown = find(rt, store, pass, 10);
    assert!(rt; unknown == None && rise(store, lock) == 2);
    let no_root = find(rt, store, pass, 1 << 32);
    assert!(rt; no_root == None && rise(store, lock) == 0);
}

// The calls on a named vector: each on its flags takes the lock once, and its root is read without one.
fn turns_once<H: Wait + Abort>(rt: &H, store: &Store, pass: &mut StorePass, lock: &mut u64, id: u64)
    requires flags { store.now.about.flags ≡ 8 }
    requires rest { AtRest (compact 16 8) store.now pass.old }
    requires named { KnowsName pass.old id }
    ensures { AtRest (compact 16 8) store.now pass.new }
{
    let pair = root_pair(store, pass, id);
    assert!(rt; pair == (0, id) && rise(store, lock) == 0);
    let set = turn(rt, store, pass, id, 3, true);
    assert!(rt; set && rise(store, lock) == 2);
    let set_again = turn(rt, store, pass, id, 3, true);
    assert!(rt; !set_again && rise(store, lock) == 2);
    let flags = read(rt, store, pass, id);
    assert!(rt; flags == 8 && rise(store, lock) == 2);
    let cleared = turn(rt, store, pass, id, 3, false);
    assert!(rt; cleared && rise(store, lock) == 2);
}

#[test]
fn takes_a_lock_once(rt: HostRuntime) -> Result<(), Fail> {
    let (store, mut pass) = store(rt.alloc(), 6)?;
    let mut steps = Steps::new(Silent);
    let mut lock = 0;
    asks_once(&rt, &store, &mut pass, &mut lock);
    let Some((id, _)) = put(&rt, &store, &mut pass, 9, &mut steps) else {
        panic!(rt; "full")
    };
    assert!(rt; id == 9 && rise(&store, &mut lock) == 2);
    turns_once(&rt, &store, &mut pass, &mut lock, id);
    // The region has 64 cells, of which one is occupied.
    put_some(&rt, &store, &mut pass, 0, 64);
    assert!(rt; rise(&store, &mut lock) == 128);
    let full = put(&rt, &store, &mut pass, 64, &mut steps);
    assert!(rt; full.is_none() && rise(&store, &mut lock) == 2);
    assert_eq!(rt; locks_taken(&store), 74);
    Ok(())
}
