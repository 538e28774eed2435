//! Roots asked for as a store asks: a look, and then a put where that found none.
ghost use Rattle.std.specs.Prelude.{◌≡◌, ◌^◌, ◌<◌, IfSome, Some};
ghost use Rattle.pair_rule.specs.Rest.{AtRest, KnowsName};
ghost use Rattle.region_root.specs.Compact.{compact};

use super::{Store, StorePass, store, zeros};
use crate::CompactTable;
use pair_nodes::{RootNames, RootTable, look_or_put};
use std::process::Abort;
use std::sync::Wait;
use std::test::Fail;
use tdb_base::{Kept, Ledger, Steps};

// What a look found of the vector's root, and then its identifier and whether it is new.
fn ask<H: Wait, L: Ledger>(
    roots: &CompactTable<H, 16, 8>,
    store: &Store,
    pass: &mut StorePass,
    slot: u64,
    steps: &mut Steps<L>,
) -> Option<(u64, bool)>
    requires same { roots.now.nodes.now ≡ store.now }
    requires width { store.now.about.width ≡ 16 }
    requires slots { store.now.about.slots ≡ 3 }
    requires rest { AtRest (compact 16 8) store.now pass.old }
    requires slot { slot < 2 ^ 16 }
    ensures rest { AtRest (compact 16 8) store.now pass.new }
    ensures named { IfSome result
        (λ a. KnowsName pass.new a.0) }
{
    let node = zeros(store, pass)?;
    match look_or_put(roots, pass, node, slot, steps) {
        Ok(found) => Some(found),
        Err(_) => None,
    }
}

// Callers in other threads may be lent it.
fn is_lent<T: Sync>(_table: &T) -> bool {
    true
}

#[test]
fn answers_a_store(rt: HostRuntime) -> Result<(), Fail> {
    let (store, mut pass) = store(rt.alloc(), 6)?;
    let mut steps = Steps::new(Kept { shown: 0 });
    let roots = CompactTable::over(&rt, &store);
    assert!(rt; is_lent(&roots));
    assert!(rt; ask(&roots, &store, &mut pass, 5, &mut steps) == Some((5, true)));
    assert!(rt; ask(&roots, &store, &mut pass, 7, &mut steps) == Some((7, true)));
    assert!(rt; ask(&roots, &store, &mut pass, 5, &mut steps) == Some((5, false)));
    assert!(rt; steps.shown() == 3);
    assert!(rt; roots.find(&mut pass, 7) == Some((0, 7)));
    assert!(rt; roots.find(&mut pass, 6) == None);
    let Some((id, fresh)) = ask(&roots, &store, &mut pass, 7, &mut steps) else {
        panic!(rt; "full")
    };
    assert!(rt; !fresh && roots.read(&mut pass, id) == (0, 7));
    Ok(())
}

// A cell has 32 - 6 + 3 + 8 = 37 bits.
#[test]
fn rounds_bytes_up_once(rt: HostRuntime) -> Result<(), Fail> {
    let (store, _) = store(rt.alloc(), 6)?;
    let roots = CompactTable::over(&rt, &store);
    assert!(rt; roots.name_bytes(0) == 0);
    assert!(rt; roots.name_bytes(1) == 5);
    assert!(rt; roots.name_bytes(3) == 14);
    assert!(rt; roots.name_bytes(64) == 296);
    Ok(())
}
