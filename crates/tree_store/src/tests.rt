//! Stores of small sizes, whose answers were worked out by hand: the identifiers are buckets of hashes, and
//! which lines are full is a matter of counting nodes and roots.
ghost use Rattle.std.specs.Prelude.{◌≡◌};
ghost use Rattle.packed_word.specs.Word.{IsLayout};
ghost use Rattle.pair_rule.specs.Rest.{AtRest, KnowsName};
ghost use Rattle.root_plain.specs.Plain.{plain};
ghost use Rattle.tree_store.specs.Store.{IfNamed};

mod compact;
mod crowd;
mod flagged;
mod flags;

use crate::{CreateError, PlainPass, PlainStore, TreeStore};
use pair_rule::{Pass, RootPart, Sizes};
use region_root::CompactRoot;
use root_plain::PlainRoot;
use std::alloc::Global;
use std::process::Abort;
use std::test::Fail;
use tdb_base::{Kept, Ledger, Reply, Silent, Steps};
use tree_shape::Shape;

// A store of vectors of `slots` slots, and its pass.
pub(crate) fn open<R: RootPart<W, F>, const W: u32, const F: u32>(
    rt: &impl Abort,
    alloc: Global,
    slots: usize,
    sizes: &Sizes,
) -> (TreeStore<R, W, F>, Pass<R, W, F>)
    requires layout { IsLayout W F }
    ensures slots { result.0.about.slots ≡ slots }
    ensures flags { result.0.about.flags ≡ F }
    ensures rest { AtRest R.part result.0 result.1 }
{
    let Ok(shape) = Shape::new(slots) else {
        panic!(rt; "no shape")
    };
    let Ok(made) = TreeStore::<R, W, F>::create(alloc, shape, sizes) else {
        panic!(rt; "no store")
    };
    made
}

// A plain store of 8 roots.
fn store<const W: u32, const F: u32>(
    rt: &impl Abort,
    alloc: Global,
    slots: usize,
    nodes: u32,
) -> (PlainStore<W, F>, PlainPass<W, F>)
    requires layout { IsLayout W F }
    ensures slots { result.0.about.slots ≡ slots }
    ensures flags { result.0.about.flags ≡ F }
    ensures rest { AtRest plain result.0 result.1 }
{
    let sizes = Sizes {
        nodes,
        roots: 3,
        region: 0,
        probe: 4_194_304,
    };
    open::<PlainRoot<W, F>, W, F>(rt, alloc, slots, &sizes)
}

// The answer of the vector, which the store can keep.
fn put<L: Ledger, const W: u32, const F: u32>(
    rt: &impl Abort,
    store: &PlainStore<W, F>,
    pass: &mut PlainPass<W, F>,
    vector: &[u32],
    steps: &mut Steps<L>,
) -> Reply
    requires rest { AtRest plain store.now pass.old }
    ensures rest { AtRest plain store.now pass.new }
    ensures named { IfNamed result (λ fresh id. KnowsName pass.new id) }
{
    assert!(rt; store.fits(vector));
    store.insert_from(pass, vector, steps)
}

// The number of the size that is refused, or 0.
fn refused<R: RootPart<16, 8>>(
    rt: &impl Abort,
    alloc: Global,
    nodes: u32,
    roots: u32,
    region: u32,
    probe: u64,
) -> u32 {
    let sizes = Sizes {
        nodes,
        roots,
        region,
        probe,
    };
    let Ok(shape) = Shape::new(2) else {
        panic!(rt; "no shape")
    };
    match TreeStore::<R, 16, 8>::create(alloc, shape, &sizes) {
        Ok(_) => 0,
        Err(CreateError::Sizes(number)) => number,
        Err(CreateError::NoMemory) => 9,
    }
}

#[test]
fn refuses_sizes(rt: HostRuntime) -> Result<(), Fail> {
    assert!(rt; refused::<PlainRoot<16, 8>>(&rt, rt.alloc(), 2, 3, 6, 1) == 1);
    assert!(rt; refused::<PlainRoot<16, 8>>(&rt, rt.alloc(), 17, 3, 6, 1) == 1);
    assert!(rt; refused::<PlainRoot<16, 8>>(&rt, rt.alloc(), 3, 25, 6, 1) == 2);
    assert!(rt; refused::<PlainRoot<16, 8>>(&rt, rt.alloc(), 3, 3, 0, 0) == 4);
    assert!(rt; refused::<PlainRoot<16, 8>>(&rt, rt.alloc(), 3, 3, 0, 1) == 0);
    assert!(rt; refused::<CompactRoot<16, 8>>(&rt, rt.alloc(), 2, 3, 6, 1) == 1);
    assert!(rt; refused::<CompactRoot<16, 8>>(&rt, rt.alloc(), 3, 25, 6, 1) == 2);
    assert!(rt; refused::<CompactRoot<16, 8>>(&rt, rt.alloc(), 3, 6, 7, 1) == 3);
    assert!(rt; refused::<CompactRoot<16, 8>>(&rt, rt.alloc(), 3, 6, 6, 0) == 4);
    assert!(rt; refused::<CompactRoot<16, 8>>(&rt, rt.alloc(), 3, 6, 6, 1) == 0);
    Ok(())
}

#[test]
fn passes_tell_one_another(rt: HostRuntime) -> Result<(), Fail> {
    let (store, mut first) = store::<16, 8>(&rt, rt.alloc(), 2, 3);
    let mut second = store.split(rt.alloc(), &mut first)?;
    let mut steps = Steps::new(Silent);
    assert_eq!(rt;
        put(&rt, &store, &mut first, &[3, 5], &mut steps),
        Reply::New(0)
    );
    store.meet(&mut first, &mut second);
    let Reply::Seen(id) = put(&rt, &store, &mut second, &[3, 5], &mut steps) else {
        panic!(rt; "not seen")
    };
    assert!(rt; id == 0);
    let mut out = [0, 0];
    store.read(&mut second, id, &mut out);
    assert!(rt; out == [3, 5]);
    store.join(&mut first, second);
    assert!(rt; store.names_made(&first) == 1);
    Ok(())
}

#[test]
fn keeps_five_zeros_as_one_node(rt: HostRuntime) -> Result<(), Fail> {
    let (store, mut pass) = store::<28, 7>(&rt, rt.alloc(), 5, 3);
    assert!(rt;
        store.fits(&[0, 0, 0, 0, 0])
            && !store.fits(&[0, 0, 0, 0])
            && !store.fits(&[0, 0, 0, 0, 1 << 28])
    );
    assert_eq!(rt;
        store.insert(&mut pass, &[0, 0, 0, 0, 0], &mut Steps::new(Silent)),
        Reply::New(0)
    );
    assert!(rt;
        store.nodes_made(&pass) == 1
            && store.stored_bytes(&pass) == 16
            && store.raw_bytes(&pass) == 20
    );
    let mut out = [7, 7, 7, 7, 7];
    assert!(rt; !store.lookup(&mut pass, 1, &mut out) && out == [7, 7, 7, 7, 7]);
    assert!(rt; store.lookup(&mut pass, 0, &mut out) && out == [0, 0, 0, 0, 0]);
    Ok(())
}

#[test]
fn counts_changed_positions(rt: HostRuntime) -> Result<(), Fail> {
    let (store, mut pass) = store::<16, 8>(&rt, rt.alloc(), 3, 3);
    let mut steps = Steps::new(Kept { shown: 0 });
    let first = put(&rt, &store, &mut pass, &[5, 0, 0], &mut steps);
    assert!(rt; first.is_new() && steps.shown() == 2);
    let second = put(&rt, &store, &mut pass, &[6, 0, 0], &mut steps);
    assert!(rt; second.is_new() && steps.shown() == 3);
    let third = put(&rt, &store, &mut pass, &[6, 0, 1], &mut steps);
    assert!(rt; third.is_new() && steps.shown() == 5);
    let again = put(&rt, &store, &mut pass, &[6, 0, 1], &mut steps);
    assert!(rt; !again.is_new() && again.id() == third.id() && steps.shown() == 6);
    let mut other = store.split(rt.alloc(), &mut pass)?;
    assert!(rt; put(&rt, &store, &mut other, &[6, 0, 1], &mut steps) == again);
    assert!(rt; steps.shown() == 8 && store.nodes_made(&pass) == 2);
    Ok(())
}

#[test]
fn answers_full_nodes(rt: HostRuntime) -> Result<(), Fail> {
    let (store, mut pass) = store::<28, 7>(&rt, rt.alloc(), 4, 3);
    let mut steps = Steps::new(Silent);
    let first = put(&rt, &store, &mut pass, &[0, 1, 2, 3], &mut steps);
    assert!(rt; first.is_new());
    assert!(rt; put(&rt, &store, &mut pass, &[4, 5, 6, 7], &mut steps).is_new());
    assert!(rt; put(&rt, &store, &mut pass, &[8, 9, 10, 11], &mut steps).is_new());
    assert!(rt; put(&rt, &store, &mut pass, &[12, 13, 14, 15], &mut steps).is_new());
    assert_eq!(rt;
        put(&rt, &store, &mut pass, &[16, 17, 18, 19], &mut steps),
        Reply::FullNodes
    );
    let again = put(&rt, &store, &mut pass, &[0, 1, 2, 3], &mut steps);
    assert!(rt; !again.is_new() && again.id() == first.id());
    assert_eq!(rt;
        put(&rt, &store, &mut pass, &[16, 17, 18, 19], &mut steps),
        Reply::FullNodes
    );
    assert!(rt; put(&rt, &store, &mut pass, &[0, 1, 6, 7], &mut steps).is_new());
    Ok(())
}

#[test]
fn answers_full_roots(rt: HostRuntime) -> Result<(), Fail> {
    let (store, mut pass) = store::<28, 7>(&rt, rt.alloc(), 2, 3);
    let mut steps = Steps::new(Kept { shown: 0 });
    assert_eq!(rt;
        put(&rt, &store, &mut pass, &[0, 0], &mut steps),
        Reply::New(0)
    );
    for right in 1..8 {
        assert!(rt; put(&rt, &store, &mut pass, &[0, right], &mut steps).is_new());
    }
    assert!(rt; steps.shown() == 8);
    assert_eq!(rt;
        put(&rt, &store, &mut pass, &[0, 8], &mut steps),
        Reply::FullRoots
    );
    assert!(rt; steps.shown() == 9);
    Ok(())
}

#[test]
fn errors_tell_what_is_wrong(rt: HostRuntime) -> Result<(), Fail> {
    let alloc = rt.alloc();
    assert!(rt;
        CreateError::Sizes(2).to_string(alloc)?.as_str()
            == "size 2 is out of range, of nodes, roots, region and probe"
    );
    assert!(rt; CreateError::NoMemory.to_string(alloc)?.as_str() == "no memory");
    Ok(())
}
