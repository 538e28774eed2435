//! Stores of two slots, whose roots are the vectors themselves, with buckets of hashes computed by hand.
ghost use Rattle.std.specs.Prelude.{◌≡◌, ◌^◌, ◌<◌, ◌≤◌, IfOk, MatchOption, Some};
ghost use Rattle.pair_rule.specs.Rest.{AtRest, KnowsName};
ghost use Rattle.root_plain.specs.Plain.{plain};

mod crowd;
mod flags;

use crate::{PlainRoot, find_id, put_root, root_pair};
use pair_nodes::Nodes;
use pair_rule::{PairTable, Pass, RootsFull, Sizes};
use std::alloc::Global;
use std::process::Abort;
use std::test::Fail;
use std::thread;
use tdb_base::{Kept, Ledger, NoMemory, Silent, Steps};

pub(crate) type Store = Nodes<PlainRoot<16, 8>, 16, 8>;

pub(crate) type StorePass = Pass<PlainRoot<16, 8>, 16, 8>;

// A store of vectors of two slots, with `2^roots` buckets for roots, and its pass.
pub(crate) fn store(alloc: Global, roots: u32) -> Result<(Store, StorePass), NoMemory>
    requires { (3 ≤ roots) × (roots ≤ 24) }
    ensures width { IfOk result (λ made. made.0.about.width ≡ 16) }
    ensures flags { IfOk result (λ made. made.0.about.flags ≡ 8) }
    ensures slots { IfOk result (λ made. made.0.about.slots ≡ 2) }
    ensures rest { IfOk result (λ made. AtRest plain made.0 made.1) }
{
    let sizes = Sizes {
        nodes: 3,
        roots,
        region: 6,
        probe: 4_194_304,
    };
    let (table, pass) = PairTable::create(alloc, &sizes, 2)?;
    Ok((Nodes::over(table), pass))
}

// The answer of the pair's root: its bucket, and whether it is new.
pub(crate) fn put<L: Ledger>(
    store: &Store,
    pass: &mut StorePass,
    left: u64,
    right: u64,
    steps: &mut Steps<L>,
) -> Option<(u64, bool)>
    requires width { store.now.about.width ≡ 16 }
    requires slots { store.now.about.slots ≡ 2 }
    requires rest { AtRest plain store.now pass.old }
    requires parts { (left < 2 ^ 16) × (right < 2 ^ 16) }
    ensures rest { AtRest plain store.now pass.new }
    ensures named { MatchOption result (Unit {0})
        (λ a. KnowsName pass.new a.0) }
{
    match put_root(store, pass, left, right, steps) {
        Ok(found) => Some(found),
        Err(RootsFull) => None,
    }
}

#[test]
fn answers_buckets_of_paths(rt: HostRuntime) -> Result<(), Fail> {
    let (store, mut pass) = store(rt.alloc(), 3)?;
    let mut steps = Steps::new(Silent);
    assert_eq!(rt; put(&store, &mut pass, 3, 5, &mut steps), Some((0, true)));
    assert_eq!(rt; put(&store, &mut pass, 5, 3, &mut steps), Some((6, true)));
    let Some((id, fresh)) = put(&store, &mut pass, 3, 5, &mut steps) else {
        panic!(rt; "full")
    };
    assert!(rt; id == 0 && !fresh);
    assert_eq!(rt; root_pair(&store, &mut pass, id), (3, 5));
    assert_eq!(rt; find_id(&store, &mut pass, 6), Some((5, 3)));
    assert_eq!(rt; find_id(&store, &mut pass, 1), None);
    assert_eq!(rt; find_id(&store, &mut pass, 8), None);
    assert!(rt; pass.names_count == 2);
    Ok(())
}

// So many roots fill a table of so many buckets, and one more finds no place.
fn fills(rt: &impl Abort, alloc: Global, roots: u32, count: u64) -> Result<(), NoMemory>
    requires { (3 ≤ roots) × (roots ≤ 24) × (count < 64) }
{
    let (store, mut pass) = store(alloc, roots)?;
    let mut steps = Steps::new(Kept { shown: 0 });
    let mut buckets = 0u64;
    for right in 0..count {
        let Some((id, fresh)) = put(&store, &mut pass, 0, right, &mut steps) else {
            panic!(rt; "full")
        };
        assert!(rt; fresh && id < count);
        buckets |= 1 << id;
    }
    assert!(rt; buckets == (1 << count) - 1);
    assert!(rt; put(&store, &mut pass, 0, count, &mut steps).is_none());
    assert!(rt; steps.shown() == count + 1);
    Ok(())
}

#[test]
fn fills_up(rt: HostRuntime) -> Result<(), Fail> {
    fills(&rt, rt.alloc(), 3, 8)?;
    fills(&rt, rt.alloc(), 4, 16)?;
    Ok(())
}

// Puts three roots and answers for each its bucket and whether it is new.
fn put_three(
    store: &Store,
    pass: &mut StorePass,
    first: u64,
) -> (
    Option<(u64, bool)>,
    Option<(u64, bool)>,
    Option<(u64, bool)>,
)
    requires width { store.now.about.width ≡ 16 }
    requires slots { store.now.about.slots ≡ 2 }
    requires rest { AtRest plain store.now pass.old }
    requires small { first < 2 ^ 15 }
    ensures rest { AtRest plain store.now pass.new }
{
    let mut steps = Steps::new(Silent);
    let a = put(store, pass, 0, first, &mut steps);
    let b = put(store, pass, 0, first + 1, &mut steps);
    let c = put(store, pass, 0, first + 2, &mut steps);
    (a, b, c)
}

// Both threads have the same identifier, and one of them was the first.
fn agrees(rt: &impl Abort, one: Option<(u64, bool)>, other: Option<(u64, bool)>) {
    let (Some((id, fresh)), Some((other_id, other_fresh))) = (one, other) else {
        panic!(rt; "full")
    };
    assert!(rt; id == other_id && fresh != other_fresh);
}

#[test]
fn two_threads_agree(rt: HostRuntime) -> Result<(), Fail> {
    let (store, mut first) = store(rt.alloc(), 3)?;
    let mut second = store.table().split(rt.alloc(), &mut first)?;
    let (one, two) = thread::join(
        &rt,
        || -> (
            (
                Option<(u64, bool)>,
                Option<(u64, bool)>,
                Option<(u64, bool)>,
            ),
            StorePass,
        )
            requires width { store.about.width ≡ 16 }
            requires slots { store.about.slots ≡ 2 }
            requires rest { AtRest plain store first }
            ensures { AtRest plain store result.1 }
        {
            let found = put_three(&store, &mut first, 1);
            (found, first)
        },
        || -> (
            (
                Option<(u64, bool)>,
                Option<(u64, bool)>,
                Option<(u64, bool)>,
            ),
            StorePass,
        )
            requires width { store.about.width ≡ 16 }
            requires slots { store.about.slots ≡ 2 }
            requires rest { AtRest plain store second }
            ensures { AtRest plain store result.1 }
        {
            let found = put_three(&store, &mut second, 2);
            (found, second)
        },
    );
    let ((_, first_b, first_c), mut first) = one;
    let ((second_b, second_c, last), second) = two;
    agrees(&rt, first_b, second_b);
    agrees(&rt, first_c, second_c);
    store.table().join(&mut first, second);
    let Some((id, fresh)) = last else {
        panic!(rt; "full")
    };
    assert!(rt; fresh && first.names_count == 4);
    assert_eq!(rt; find_id(&store, &mut first, id), Some((0, 4)));
    Ok(())
}
