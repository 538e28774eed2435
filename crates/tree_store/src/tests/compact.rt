//! Compact stores, whose identifiers are roots: two nodes or slots as one number.
ghost use Rattle.std.specs.Prelude.{◌≡◌, ◌≤◌};
ghost use Rattle.packed_word.specs.Word.{IsLayout};
ghost use Rattle.pair_rule.specs.Rest.{AtRest, KnowsName};
ghost use Rattle.region_root.specs.Compact.{compact};
ghost use Rattle.tree_store.specs.Store.{IfNamed};

use super::open;
use crate::{CompactPass, CompactStore};
use pair_rule::Sizes;
use region_root::{CompactRoot, locks_taken};
use std::alloc::Global;
use std::process::Abort;
use std::sync::Wait;
use std::test::Fail;
use tdb_base::{Kept, Ledger, Reply, Silent, Steps};

// A store of vectors of `slots` slots, with `2^roots` cells in regions of 64, and its pass.
pub(crate) fn store<const W: u32, const F: u32>(
    rt: &impl Abort,
    alloc: Global,
    slots: usize,
    nodes: u32,
    roots: u32,
) -> (CompactStore<W, F>, CompactPass<W, F>)
    requires layout { IsLayout W F }
    ensures slots { result.0.about.slots ≡ slots }
    ensures flags { result.0.about.flags ≡ F }
    ensures rest { AtRest (compact W F) result.0 result.1 }
{
    let sizes = Sizes {
        nodes,
        roots,
        region: 6,
        probe: 4_194_304,
    };
    open::<CompactRoot<W, F>, W, F>(rt, alloc, slots, &sizes)
}

// The answer of the vector, which the store can keep.
pub(crate) fn put<H: Wait + Abort, L: Ledger, const W: u32, const F: u32>(
    rt: &H,
    store: &CompactStore<W, F>,
    pass: &mut CompactPass<W, F>,
    vector: &[u32],
    steps: &mut Steps<L>,
) -> Reply
    requires rest { AtRest (compact W F) store.now pass.old }
    ensures rest { AtRest (compact W F) store.now pass.new }
    ensures named { IfNamed result (λ fresh id. KnowsName pass.new id) }
{
    assert!(rt; store.fits(vector));
    store.insert_from(rt, pass, vector, steps)
}

#[test]
fn names_two_slots_by_both(rt: HostRuntime) -> Result<(), Fail> {
    let (store, mut pass) = store::<28, 7>(&rt, rt.alloc(), 2, 3, 6);
    let mut steps = Steps::new(Kept { shown: 0 });
    assert!(rt; put(&rt, &store, &mut pass, &[3, 5], &mut steps) == Reply::New(805_306_373));
    assert!(rt; put(&rt, &store, &mut pass, &[5, 3], &mut steps) == Reply::New(1_342_177_283));
    let again = put(&rt, &store, &mut pass, &[3, 5], &mut steps);
    assert!(rt; again == Reply::Seen(805_306_373) && steps.shown() == 3);
    assert!(rt; store.nodes_made(&pass) == 0 && store.names_made(&pass) == 2);
    assert!(rt; store.stored_bytes(&pass) == 15 && store.raw_bytes(&pass) == 16);
    Ok(())
}

#[test]
fn counts_changed_positions(rt: HostRuntime) -> Result<(), Fail> {
    let (store, mut pass) = store::<16, 8>(&rt, rt.alloc(), 3, 3, 6);
    let mut steps = Steps::new(Kept { shown: 0 });
    assert!(rt; put(&rt, &store, &mut pass, &[5, 0, 0], &mut steps) == Reply::New(5));
    assert!(rt; steps.shown() == 2);
    let mut out = [7, 7, 7];
    assert!(rt; !store.lookup(&rt, &mut pass, 9, &mut out) && out == [7, 7, 7]);
    assert!(rt; !store.lookup(&rt, &mut pass, 4_294_967_296, &mut out) && out == [7, 7, 7]);
    assert!(rt; store.lookup(&rt, &mut pass, 5, &mut out) && out == [5, 0, 0]);
    assert!(rt; put(&rt, &store, &mut pass, &[6, 0, 0], &mut steps) == Reply::New(6));
    assert!(rt; steps.shown() == 3);
    assert!(rt; put(&rt, &store, &mut pass, &[6, 0, 1], &mut steps) == Reply::New(196_614));
    assert!(rt; steps.shown() == 5);
    let whole = store.insert(&rt, &mut pass, &[6, 0, 1], &mut steps);
    assert!(rt; whole == Reply::Seen(196_614) && steps.shown() == 7);
    Ok(())
}

// Positions 2 and 3 of four slots share their nodes.
#[test]
fn counts_cells_of_37_bits(rt: HostRuntime) -> Result<(), Fail> {
    let (store, mut pass) = store::<16, 8>(&rt, rt.alloc(), 4, 4, 6);
    let mut steps = Steps::new(Silent);
    assert!(rt; put(&rt, &store, &mut pass, &[0, 0, 0, 0], &mut steps) == Reply::New(0));
    assert!(rt; put(&rt, &store, &mut pass, &[0, 1, 0, 0], &mut steps) == Reply::New(720_896));
    assert!(rt; put(&rt, &store, &mut pass, &[0, 1, 1, 0], &mut steps) == Reply::New(720_911));
    assert!(rt; put(&rt, &store, &mut pass, &[0, 0, 1, 0], &mut steps) == Reply::New(15));
    let Reply::Seen(id) = put(&rt, &store, &mut pass, &[0, 0, 0, 0], &mut steps) else {
        panic!(rt; "not seen")
    };
    let mut out = [7, 7, 7, 7];
    store.read(&mut pass, id, &mut out);
    assert!(rt; id == 0 && out == [0, 0, 0, 0] && store.nodes_made(&pass) == 3);
    assert!(rt; store.stored_bytes(&pass) == 43 && store.raw_bytes(&pass) == 64);
    Ok(())
}

// Every cell of the one region gets a root, and one more finds no place.
#[test]
fn answers_full_roots(rt: HostRuntime) -> Result<(), Fail> {
    let (store, mut pass) = store::<28, 7>(&rt, rt.alloc(), 2, 3, 6);
    let mut steps = Steps::new(Kept { shown: 0 });
    for right in 0..64u32 {
        let answer = put(&rt, &store, &mut pass, &[0, right], &mut steps);
        assert!(rt; answer == Reply::New(u64::from(right)));
    }
    assert!(rt; put(&rt, &store, &mut pass, &[0, 64], &mut steps) == Reply::FullRoots);
    assert!(rt; steps.shown() == 65);
    assert!(rt; put(&rt, &store, &mut pass, &[0, 0], &mut steps) == Reply::Seen(0));
    assert!(rt; store.names_made(&pass) == 64);
    Ok(())
}

// A vector that is new takes its region's lock once; reading it back, and inserting it again, take none.
#[test]
fn reads_take_no_lock(rt: HostRuntime) -> Result<(), Fail> {
    let (store, mut pass) = store::<28, 7>(&rt, rt.alloc(), 3, 3, 6);
    let mut steps = Steps::new(Silent);
    let Reply::New(id) = put(&rt, &store, &mut pass, &[3, 5, 7], &mut steps) else {
        panic!(rt; "not new")
    };
    assert_eq!(rt; locks_taken(store.nodes()), 1);
    let mut out = [0, 0, 0];
    store.read(&mut pass, id, &mut out);
    assert!(rt; out == [3, 5, 7]);
    assert!(rt; put(&rt, &store, &mut pass, &[3, 5, 7], &mut steps) == Reply::Seen(id));
    assert_eq!(rt; locks_taken(store.nodes()), 1);
    Ok(())
}
