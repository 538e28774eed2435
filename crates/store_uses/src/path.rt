//! A shortest path to an error: states are kept in a compact store and expanded in the order in which they
//! were found, and those along the path are read back.
ghost use Rattle.std.specs.Prelude.{◌≡◌, ◌<◌, ℕ, All, IfOk, IfSome};
ghost use Rattle.pair_rule.specs.Rest.{AtRest, KnowsName};
ghost use Rattle.region_root.specs.Compact.{compact};
ghost use Rattle.store_uses.specs.Known.{IsStored};

use crate::peterson::{Protocol, START, State, both_critical, step};
use crate::search::SearchError;
use pair_rule::Sizes;
use std::alloc::Global;
use std::sync::Wait;
use tdb_base::{Reply, Silent, Steps};
use tree_shape::Shape;
use tree_store::{CompactPass, CompactStore};

type Store = CompactStore<28, 7>;

type Pass = CompactPass<28, 7>;

// How many states are expanded before the search is given up.
const MOST: usize = 1_000_000;

// A state that was found: its identifier, and the place of the one that it was first found from.
#[derive(Clone, Copy)]
struct Reached {
    id: u64,
    from: usize,
}

// Inserts a state: its identifier, if it is new.
fn insert_new<H: Wait>(
    rt: &H,
    store: &Store,
    pass: &mut Pass,
    state: &[u32],
) -> Result<Option<u64>, SearchError>
    requires rest { AtRest (compact 28 7) store.now pass.old }
    ensures rest { AtRest (compact 28 7) store.now pass.new }
    ensures known { IfOk result (λ new. IfSome new (KnowsName pass.new)) }
    ensures stay { (id : ℕ) → KnowsName pass.old id → KnowsName pass.new id }
{
    if !store.fits(state) {
        return Err(SearchError::Unfit);
    }
    match store.insert_from(rt, pass, state, &mut Steps::new(Silent)) {
        Reply::New(id) => Ok(Some(id)),
        Reply::Seen(_) => Ok(None),
        Reply::FullNodes | Reply::FullRoots => Err(SearchError::Full),
    }
}

// Inserts the state after a step of this process from the one at this place, if it can make one: a new state
// is put behind those that were found.
fn follow<H: Wait>(
    rt: &H,
    store: &Store,
    pass: &mut Pass,
    next: Option<State>,
    from: usize,
    found: &mut Vec<Reached>,
) -> Result<(), SearchError>
    requires rest { AtRest (compact 28 7) store.now pass.old }
    requires found { All (λ r. KnowsName pass.old r.id) found.old.items }
    ensures rest { AtRest (compact 28 7) store.now pass.new }
    ensures found { IfOk result (λ done. All (λ r. KnowsName pass.new r.id) found.new.items) }
{
    let Some(next) = next else {
        return Ok(());
    };
    if let Some(id) = insert_new(rt, store, pass, &next)? {
        found.push(Reached { id, from })?;
    }
    Ok(())
}

// Expands the states in the order in which they were found, from the first on: the place of the first one in
// which both processes are critical, if there is one.
fn find_error<H: Wait>(
    rt: &H,
    store: &Store,
    pass: &mut Pass,
    protocol: Protocol,
    found: &mut Vec<Reached>,
) -> Result<Option<usize>, SearchError>
    requires slots { store.now.about.slots ≡ 5 }
    requires rest { AtRest (compact 28 7) store.now pass.old }
    requires found { All (λ r. KnowsName pass.old r.id) found.old.items }
    ensures rest { AtRest (compact 28 7) store.now pass.new }
    ensures found { IfOk result (λ at. All (λ r. KnowsName pass.new r.id) found.new.items) }
{
    let mut state = START;
    for at in 0..MOST {
        let Some(reached) = found.get(at).copied() else {
            return Ok(None);
        };
        store.read(pass, reached.id, &mut state);
        if both_critical(&state) {
            return Ok(Some(at));
        }
        follow(rt, store, pass, step(protocol, &state, 0), at, found)?;
        follow(rt, store, pass, step(protocol, &state, 1), at, found)?;
    }
    Err(SearchError::TooManySteps)
}

// Reads the states from the one at this place back to the first, each by its identifier.
fn read_back(
    store: &Store,
    pass: &mut Pass,
    found: &[Reached],
    last: usize,
    path: &mut Vec<State>,
) -> Result<(), SearchError>
    requires slots { store.now.about.slots ≡ 5 }
    requires rest { AtRest (compact 28 7) store.now pass.old }
    requires found { All (λ r. KnowsName pass.old r.id) found.now }
    requires stored { All (IsStored pass.old) path.old.items }
    ensures rest { AtRest (compact 28 7) store.now pass.new }
    ensures stored { IfOk result (λ done. All (IsStored pass.new) path.new.items) }
{
    let mut at = last;
    for _ in 0..found.len() {
        let Some(reached) = found.get(at).copied() else {
            return Ok(());
        };
        let mut state = START;
        store.read(pass, reached.id, &mut state);
        path.push(state)?;
        if at == 0 {
            return Ok(());
        }
        at = reached.from;
    }
    Ok(())
}

// The states from the first one to that at this place.
fn read_path(
    alloc: Global,
    store: &Store,
    pass: &mut Pass,
    found: &[Reached],
    last: usize,
) -> Result<Vec<State>, SearchError>
    requires slots { store.now.about.slots ≡ 5 }
    requires rest { AtRest (compact 28 7) store.now pass.old }
    requires found { All (λ r. KnowsName pass.old r.id) found.now }
    ensures rest { AtRest (compact 28 7) store.now pass.new }
    ensures stored { IfOk result (λ path. All (IsStored pass.new) path.items) }
{
    let mut path = Vec::new(alloc);
    read_back(store, pass, found, last, &mut path)?;
    path.reverse();
    Ok(path)
}

// A shortest path to a state in which both processes are critical, over a store in which nothing stands yet.
fn search<H: Wait>(
    rt: &H,
    alloc: Global,
    store: &Store,
    pass: &mut Pass,
    protocol: Protocol,
) -> Result<Option<Vec<State>>, SearchError>
    requires slots { store.now.about.slots ≡ 5 }
    requires rest { AtRest (compact 28 7) store.now pass.old }
    ensures rest { AtRest (compact 28 7) store.now pass.new }
    ensures stored { IfOk result (λ found. IfSome found (λ path. All (IsStored pass.new) path.items)) }
{
    let mut found = Vec::new(alloc);
    follow(rt, store, pass, Some(START), 0, &mut found)?;
    let Some(at) = find_error(rt, store, pass, protocol, &mut found)? else {
        return Ok(None);
    };
    Ok(Some(read_path(alloc, store, pass, found.as_slice(), at)?))
}

/// A shortest path of a protocol from the first state to one in which both processes are critical, if there is
/// one, by a search in a new compact store of `2^roots` cells, all in one region.
pub fn path_to_error<H: Wait>(
    rt: &H,
    alloc: Global,
    protocol: Protocol,
    roots: u32,
) -> Result<Option<Vec<State>>, SearchError> {
    let sizes = Sizes {
        nodes: 10,
        roots,
        region: roots,
        probe: 4_194_304,
    };
    let shape = Shape::new(START.len()).unwrap();
    let (store, mut pass) = Store::create(alloc, shape, &sizes).map_err(SearchError::Create)?;
    search(rt, alloc, &store, &mut pass, protocol)
}
