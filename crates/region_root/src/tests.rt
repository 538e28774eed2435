//! Stores of three slots, whose last two are 0: a root's left part is then one node, and its right part the
//! first slot.
ghost use Rattle.std.specs.Prelude.{◌≡◌, ◌^◌, ◌<◌, ◌≤◌, IfOk, IfSome, Some};
ghost use Rattle.tree_shape.specs.Tree.{Has};
ghost use Rattle.pair_rule.specs.Calls.{IsSomeRoot};
ghost use Rattle.packed_word.specs.Word.{pair_of};
ghost use Rattle.pair_rule.specs.Rest.{AtRest, view, KnowsName};
ghost use Rattle.region_root.specs.Compact.{compact};

mod crowd;
mod door;
mod moved;
mod once;

use crate::steps::next_even;
use crate::{
    CompactRoot, Peek, clear_flag, find_id, flags, peek_root, put_root, root_pair, set_flag,
};
use pair_nodes::Nodes;
use pair_rule::{PairTable, Pass, Sizes};
use std::alloc::Global;
use std::process::Abort;
use std::sync::Wait;
use std::test::Fail;
use tdb_base::{Kept, Ledger, NoMemory, Silent, Steps};

pub(crate) type Store = Nodes<CompactRoot<16, 8>, 16, 8>;

pub(crate) type StorePass = Pass<CompactRoot<16, 8>, 16, 8>;

// A store of vectors of three slots, with `2^roots` cells in regions of 64, and its pass.
pub(crate) fn store(alloc: Global, roots: u32) -> Result<(Store, StorePass), NoMemory>
    requires { (6 ≤ roots) × (roots ≤ 24) }
    ensures width { IfOk result (λ made. made.0.about.width ≡ 16) }
    ensures flags { IfOk result (λ made. made.0.about.flags ≡ 8) }
    ensures slots { IfOk result (λ made. made.0.about.slots ≡ 3) }
    ensures rest { IfOk result (λ made. AtRest (compact 16 8) made.0 made.1) }
{
    let sizes = Sizes {
        nodes: 3,
        roots,
        region: 6,
        probe: 4_194_304,
    };
    let (table, pass) = PairTable::create(alloc, &sizes, 3)?;
    Ok((Nodes::over(table), pass))
}

// The node of two zeros.
pub(crate) fn zeros(store: &Store, pass: &mut StorePass) -> Option<u64>
    requires width { store.now.about.width ≡ 16 }
    requires rest { AtRest (compact 16 8) store.now pass.old }
    ensures rest { AtRest (compact 16 8) store.now pass.new }
    ensures small { IfSome result (λ node. node < 2 ^ 16) }
    ensures known { IfSome result (λ node. Has (node, 0) (view pass.new).known) }
{
    let mut steps = Steps::new(Silent);
    let Ok(node) = store.find_or_put(pass, 0, 0, &mut steps) else {
        return None;
    };
    if node < 1 << 16 { Some(node) } else { None }
}

// The answer of the vector's root: its identifier, and whether it is new.
pub(crate) fn put<H: Wait, L: Ledger>(
    rt: &H,
    store: &Store,
    pass: &mut StorePass,
    slot: u64,
    steps: &mut Steps<L>,
) -> Option<(u64, bool)>
    requires width { store.now.about.width ≡ 16 }
    requires slots { store.now.about.slots ≡ 3 }
    requires rest { AtRest (compact 16 8) store.now pass.old }
    requires slot { slot < 2 ^ 16 }
    ensures rest { AtRest (compact 16 8) store.now pass.new }
    ensures named { IfSome result
        (λ a. KnowsName pass.new a.0) }
{
    let node = zeros(store, pass)?;
    match put_root(rt, store, pass, node, slot, steps) {
        Ok(found) => Some(found),
        Err(_) => None,
    }
}

// A look without a lock.
pub(crate) fn peek<L: Ledger>(
    store: &Store,
    pass: &mut StorePass,
    slot: u64,
    steps: &mut Steps<L>,
) -> Option<Peek>
    requires width { store.now.about.width ≡ 16 }
    requires slots { store.now.about.slots ≡ 3 }
    requires rest { AtRest (compact 16 8) store.now pass.old }
    requires slot { slot < 2 ^ 16 }
    ensures { AtRest (compact 16 8) store.now pass.new }
{
    let node = zeros(store, pass)?;
    Some(peek_root(store, pass, node, slot, steps))
}

#[test]
fn answers_roots(rt: HostRuntime) -> Result<(), Fail> {
    let (store, mut pass) = store(rt.alloc(), 6)?;
    let mut steps = Steps::new(Kept { shown: 0 });
    assert!(rt; peek(&store, &mut pass, 5, &mut steps) == Some(Peek::Absent));
    assert!(rt; steps.shown() == 0);
    assert!(rt; put(&rt, &store, &mut pass, 5, &mut steps) == Some((5, true)));
    assert!(rt; put(&rt, &store, &mut pass, 7, &mut steps) == Some((7, true)));
    assert!(rt; put(&rt, &store, &mut pass, 5, &mut steps) == Some((5, false)));
    assert!(rt; steps.shown() == 3);
    assert!(rt; peek(&store, &mut pass, 5, &mut steps) == Some(Peek::Seen(5)));
    assert!(rt; steps.shown() == 4);
    assert!(rt; peek(&store, &mut pass, 6, &mut steps) == Some(Peek::Absent));
    assert!(rt; steps.shown() == 4);
    assert!(rt; find_id(&rt, &store, &mut pass, 7) == Some((0, 7)));
    assert!(rt; find_id(&rt, &store, &mut pass, 6) == None);
    assert!(rt; find_id(&rt, &store, &mut pass, 1 << 32) == None);
    let Some((id, fresh)) = put(&rt, &store, &mut pass, 7, &mut steps) else {
        panic!(rt; "full")
    };
    assert!(rt; !fresh && root_pair(&store, &mut pass, id) == (0, 7));
    assert!(rt; pass.names_count == 2);
    Ok(())
}

#[test]
fn unlocks_to_an_even_value(rt: HostRuntime) {
    assert!(rt; next_even(1) == 2);
    assert!(rt; next_even(u64::MAX - 2) == u64::MAX - 1);
    assert!(rt; next_even(u64::MAX) == u64::MAX - 1);
}

// Every cell of the one region gets a root, and one more finds no place.
#[test]
fn fills_up(rt: HostRuntime) -> Result<(), Fail> {
    let (store, mut pass) = store(rt.alloc(), 6)?;
    let mut steps = Steps::new(Kept { shown: 0 });
    for slot in 0..64u64 {
        assert!(rt; put(&rt, &store, &mut pass, slot, &mut steps) == Some((slot, true)));
    }
    assert!(rt; put(&rt, &store, &mut pass, 64, &mut steps).is_none());
    assert!(rt; steps.shown() == 65);
    for slot in 0..64u64 {
        assert!(rt; peek(&store, &mut pass, slot, &mut steps) == Some(Peek::Seen(slot)));
    }
    assert!(rt; peek(&store, &mut pass, 64, &mut steps) == Some(Peek::Absent));
    assert!(rt; put(&rt, &store, &mut pass, 63, &mut steps) == Some((63, false)));
    Ok(())
}

// Sets a flag, or clears it.
pub(crate) fn turn<H: Wait>(
    rt: &H,
    store: &Store,
    pass: &mut StorePass,
    id: u64,
    b: u32,
    set: bool,
) -> bool
    requires flags { (store.now.about.flags ≡ 8) × (b < 8) }
    requires rest { AtRest (compact 16 8) store.now pass.old }
    requires named { KnowsName pass.old id }
    ensures rest { AtRest (compact 16 8) store.now pass.new }
    ensures named { KnowsName pass.new id }
{
    if set {
        return set_flag(rt, store, pass, id, b);
    }
    clear_flag(rt, store, pass, id, b)
}

// The flags.
fn read<H: Wait>(rt: &H, store: &Store, pass: &mut StorePass, id: u64) -> u64
    requires rest { AtRest (compact 16 8) store.now pass.old }
    requires named { KnowsName pass.old id }
    ensures rest { AtRest (compact 16 8) store.now pass.new }
    ensures named { KnowsName pass.new id }
{
    flags(rt, store, pass, id)
}

// A flag is first set once, and first cleared once, and the vector's other flags stay.
fn turns_flags<H: Wait + Abort>(rt: &H, store: &Store, pass: &mut StorePass, id: u64)
    requires flags { store.now.about.flags ≡ 8 }
    requires rest { AtRest (compact 16 8) store.now pass.old }
    requires named { KnowsName pass.old id }
    ensures rest { AtRest (compact 16 8) store.now pass.new }
{
    let set_first = turn(rt, store, pass, id, 3, true);
    let set_again = turn(rt, store, pass, id, 3, true);
    let other = turn(rt, store, pass, id, 7, true);
    let both = read(rt, store, pass, id);
    let cleared_first = turn(rt, store, pass, id, 3, false);
    let cleared_again = turn(rt, store, pass, id, 3, false);
    let left = read(rt, store, pass, id);
    assert!(rt; set_first && !set_again && other && both == 136);
    assert!(rt; cleared_first && !cleared_again && left == 128);
}

// Puts the vectors of some slots.
fn put_some<H: Wait + Abort>(rt: &H, store: &Store, pass: &mut StorePass, from: u64, to: u64)
    requires width { store.now.about.width ≡ 16 }
    requires slots { store.now.about.slots ≡ 3 }
    requires rest { AtRest (compact 16 8) store.now pass.old }
    requires small { to ≤ 64 }
    ensures { AtRest (compact 16 8) store.now pass.new }
{
    let mut steps = Steps::new(Silent);
    for slot in from..to {
        assert!(rt; put(rt, store, pass, slot, &mut steps).is_some());
    }
}

// Flags stay with their vector while other roots come into the region.
#[test]
fn keeps_flags(rt: HostRuntime) -> Result<(), Fail> {
    let (store, mut pass) = store(rt.alloc(), 6)?;
    let mut steps = Steps::new(Silent);
    let Some((id, _)) = put(&rt, &store, &mut pass, 9, &mut steps) else {
        panic!(rt; "full")
    };
    turns_flags(&rt, &store, &mut pass, id);
    put_some(&rt, &store, &mut pass, 0, 64);
    let Some((id, fresh)) = put(&rt, &store, &mut pass, 9, &mut steps) else {
        panic!(rt; "full")
    };
    assert!(rt; !fresh && read(&rt, &store, &mut pass, id) == 128);
    let Some((id, _)) = put(&rt, &store, &mut pass, 4, &mut steps) else {
        panic!(rt; "full")
    };
    assert!(rt; read(&rt, &store, &mut pass, id) == 0);
    Ok(())
}
