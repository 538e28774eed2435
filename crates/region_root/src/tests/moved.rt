//! Flags go with their roots wherever a region's cells move while it fills.
ghost use Rattle.std.specs.Prelude.{◌≡◌, ◌^◌, ◌<◌, ◌≤◌};
ghost use Rattle.pair_rule.specs.Rest.{AtRest};
ghost use Rattle.region_root.specs.Compact.{compact};

use super::{Store, StorePass, put, read, store, turn};
use std::process::Abort;
use std::sync::Wait;
use std::test::Fail;
use tdb_base::{Silent, Steps};

// Puts a root and sets one of its flags: whether both are new.
fn put_flagged<H: Wait>(rt: &H, store: &Store, pass: &mut StorePass, slot: u64) -> Option<bool>
    requires width { store.now.about.width ≡ 16 }
    requires slots { store.now.about.slots ≡ 3 }
    requires flags { store.now.about.flags ≡ 8 }
    requires rest { AtRest (compact 16 8) store.now pass.old }
    requires slot { slot < 2 ^ 16 }
    ensures { AtRest (compact 16 8) store.now pass.new }
{
    let mut steps = Steps::new(Silent);
    let (id, fresh) = put(rt, store, pass, slot, &mut steps)?;
    let first = turn(rt, store, pass, id, (slot % 8) as u32, true);
    Some(fresh && first)
}

// The flags of a root that is there.
fn flags_of<H: Wait>(rt: &H, store: &Store, pass: &mut StorePass, slot: u64) -> Option<u64>
    requires width { store.now.about.width ≡ 16 }
    requires slots { store.now.about.slots ≡ 3 }
    requires rest { AtRest (compact 16 8) store.now pass.old }
    requires slot { slot < 2 ^ 16 }
    ensures { AtRest (compact 16 8) store.now pass.new }
{
    let mut steps = Steps::new(Silent);
    let (id, _) = put(rt, store, pass, slot, &mut steps)?;
    Some(read(rt, store, pass, id))
}

// Each of the first roots has the one flag that was set.
fn check_first<H: Wait + Abort>(rt: &H, store: &Store, pass: &mut StorePass, count: u64)
    requires width { store.now.about.width ≡ 16 }
    requires slots { store.now.about.slots ≡ 3 }
    requires count { count ≤ 2 ^ 16 }
    requires rest { AtRest (compact 16 8) store.now pass.old }
    ensures { AtRest (compact 16 8) store.now pass.new }
{
    for slot in 0..count {
        assert!(rt; flags_of(rt, store, pass, slot) == Some(1 << (slot % 8)));
    }
}

// Until the region is full, each root that is put may move others, and all are looked at after each.
#[test]
fn flags_move_with_their_roots(rt: HostRuntime) -> Result<(), Fail> {
    let (store, mut pass) = store(rt.alloc(), 6)?;
    for slot in 0..64u64 {
        assert!(rt; put_flagged(&rt, &store, &mut pass, slot) == Some(true));
        check_first(&rt, &store, &mut pass, slot + 1);
    }
    assert!(rt; put_flagged(&rt, &store, &mut pass, 64).is_none());
    check_first(&rt, &store, &mut pass, 64);
    Ok(())
}
