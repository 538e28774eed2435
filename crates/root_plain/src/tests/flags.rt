//! Flags of a root, set, cleared and read by one caller: what each call answers, worked out from what the
//! calls before it did.
ghost use Rattle.std.specs.Prelude.{◌≡◌, ◌^◌, ◌<◌, ◌≤◌};
ghost use Rattle.pair_rule.specs.Rest.{AtRest};
ghost use Rattle.root_plain.specs.Plain.{plain};

use super::{Store, StorePass, put, store};
use crate::{clear_flag, flags, set_flag};
use std::process::Abort;
use std::test::Fail;
use tdb_base::{Silent, Steps};

// What is done to flags.
#[derive(Clone, Copy)]
enum Doing {
    Set(u32),
    Clear(u32),
    Read,
}

// The root `(0, right)` is put, and this is done to its flags: 1 where a flag changed, and 0 where it was so
// before, or the flags that are read. `None` if the root has no place.
fn turn(store: &Store, pass: &mut StorePass, right: u64, act: Doing) -> Option<u64>
    requires width { store.now.about.width ≡ 16 }
    requires flags { store.now.about.flags ≡ 8 }
    requires slots { store.now.about.slots ≡ 2 }
    requires rest { AtRest plain store.now pass.old }
    requires right { right < 2 ^ 16 }
    ensures { AtRest plain store.now pass.new }
{
    let mut steps = Steps::new(Silent);
    let (id, _) = put(store, pass, 0, right, &mut steps)?;
    match act {
        Doing::Set(b) => Some(u64::from(set_flag(store, pass, id, b % 8))),
        Doing::Clear(b) => Some(u64::from(clear_flag(store, pass, id, b % 8))),
        Doing::Read => Some(flags(store, pass, id)),
    }
}

// What is done to the flags of which root, in turn, and what that answers.
static TURNS: [(u64, Doing, u64); 16] = [
    (5, Doing::Read, 0),
    (5, Doing::Set(6), 1),
    (5, Doing::Set(6), 0),
    (5, Doing::Read, 64),
    (3, Doing::Read, 0),
    (3, Doing::Set(7), 1),
    (5, Doing::Set(0), 1),
    (5, Doing::Read, 65),
    (5, Doing::Clear(6), 1),
    (5, Doing::Clear(6), 0),
    (5, Doing::Clear(7), 0),
    (5, Doing::Read, 1),
    (3, Doing::Read, 128),
    (5, Doing::Clear(0), 1),
    (5, Doing::Read, 0),
    (3, Doing::Read, 128),
];

#[test]
fn flags_are_set_cleared_and_read(rt: HostRuntime) -> Result<(), Fail> {
    let (store, mut pass) = store(rt.alloc(), 3)?;
    for (right, act, answer) in &TURNS {
        assert!(rt; turn(&store, &mut pass, *right, *act) == Some(*answer));
    }
    Ok(())
}

// Puts so many roots, from `(0, 100)` on.
fn put_many(rt: &impl Abort, store: &Store, pass: &mut StorePass, count: u64)
    requires width { store.now.about.width ≡ 16 }
    requires slots { store.now.about.slots ≡ 2 }
    requires rest { AtRest plain store.now pass.old }
    requires small { count ≤ 10000 }
    ensures { AtRest plain store.now pass.new }
{
    let mut steps = Steps::new(Silent);
    for number in 0..count {
        assert!(rt; put(store, pass, 0, 100 + number, &mut steps).is_some());
    }
}

#[test]
fn flags_outlive_insertions(rt: HostRuntime) -> Result<(), Fail> {
    let (store, mut pass) = store(rt.alloc(), 14)?;
    assert!(rt; turn(&store, &mut pass, 5, Doing::Set(6)) == Some(1));
    put_many(&rt, &store, &mut pass, 10_000);
    assert!(rt; turn(&store, &mut pass, 5, Doing::Read) == Some(64));
    assert!(rt; turn(&store, &mut pass, 100, Doing::Read) == Some(0));
    assert!(rt; turn(&store, &mut pass, 10_099, Doing::Read) == Some(0));
    Ok(())
}
