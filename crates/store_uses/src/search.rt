//! A search of all states, which are kept in a plain store; what is still to be expanded are identifiers.
ghost use Rattle.std.specs.Prelude.{◌≡◌, ◌<◌, ℕ, All, IfOk};
ghost use Rattle.pair_rule.specs.Rest.{AtRest, view, names_of_callers, KnowsName};
ghost use Rattle.root_plain.specs.Plain.{plain};

use crate::peterson::{Protocol, START, State, both_critical, step};
use pair_rule::Sizes;
use std::alloc::{AllocError, Global};
use tdb_base::{Reply, Silent, Steps};
use thiserror::Error;
use tree_shape::Shape;
use tree_store::{CreateError, PlainPass, PlainStore};

pub(crate) type Store = PlainStore<28, 7>;

pub(crate) type Pass = PlainPass<28, 7>;

// The flag of a state that some caller has expanded.
const EXPANDED: u32 = 0;

// How many identifiers are looked at before the search is given up.
const MOST: u64 = 1_000_000;

/// Why a search found no answer.
#[derive(Clone, Copy, Debug, PartialEq, Eq, Drop, Error)]
pub enum SearchError {
    /// There is no store of these sizes, or no memory for it.
    #[error("no store: {0}")]
    Create(CreateError),
    /// A state has other slots than the store, or a slot is too large for it.
    #[error("a state does not fit the store")]
    Unfit,
    /// The store has no place for a further state.
    #[error("the store is full")]
    Full,
    /// A million identifiers were looked at, and there are more.
    #[error("too many steps")]
    TooManySteps,
    /// Memory ran out.
    #[error("no memory")]
    Memory(#[from(alloc)] AllocError),
}

/// What a search found.
#[derive(Clone, Copy, Debug, PartialEq, Eq)]
pub struct Found {
    /// How many states can be reached.
    pub states: u64,
    /// Whether both processes are critical in one of them.
    pub both_critical: bool,
}

// Inserts a state: its identifier.
pub(crate) fn insert(store: &Store, pass: &mut Pass, state: &[u32]) -> Result<u64, SearchError>
    requires rest { AtRest plain store.now pass.old }
    ensures rest { AtRest plain store.now pass.new }
    ensures known { IfOk result (KnowsName pass.new) }
    ensures stay { (id : ℕ) → KnowsName pass.old id → KnowsName pass.new id }
{
    if !store.fits(state) {
        return Err(SearchError::Unfit);
    }
    match store.insert_from(pass, state, &mut Steps::new(Silent)) {
        Reply::New(id) | Reply::Seen(id) => Ok(id),
        Reply::FullNodes | Reply::FullRoots => Err(SearchError::Full),
    }
}

// Inserts the state after a step of this process, if it can make one, and puts it into the frontier.
fn follow(
    store: &Store,
    pass: &mut Pass,
    state: &State,
    me: usize,
    frontier: &mut Vec<u64>,
) -> Result<(), SearchError>
    requires process { me < 2 }
    requires rest { AtRest plain store.now pass.old }
    requires frontier { All (KnowsName pass.old) frontier.old.items }
    ensures rest { AtRest plain store.now pass.new }
    ensures frontier { IfOk result (λ done. All (KnowsName pass.new) frontier.new.items) }
{
    let Some(next) = step(Protocol::Peterson, state, me) else {
        return Ok(());
    };
    let id = insert(store, pass, &next)?;
    frontier.push(id)?;
    Ok(())
}

// Expands the state with this identifier, unless a caller did so before: its successors are inserted, and
// put into the frontier. Whether both processes are critical in it.
fn expand(
    store: &Store,
    pass: &mut Pass,
    id: u64,
    frontier: &mut Vec<u64>,
) -> Result<bool, SearchError>
    requires sizes { (store.now.about.slots ≡ 5) × (store.now.about.flags ≡ 7) }
    requires rest { AtRest plain store.now pass.old }
    requires known { KnowsName pass.old id }
    requires frontier { All (KnowsName pass.old) frontier.old.items }
    ensures rest { AtRest plain store.now pass.new }
    ensures frontier { IfOk result (λ done. All (KnowsName pass.new) frontier.new.items) }
{
    if !store.set_flag(pass, id, EXPANDED) {
        return Ok(false);
    }
    let mut state = START;
    store.read(pass, id, &mut state);
    follow(store, pass, &state, 0, frontier)?;
    follow(store, pass, &state, 1, frontier)?;
    Ok(both_critical(&state))
}

// Expands all states that can be reached from those in the frontier. Whether both processes are critical in
// one of them.
pub(crate) fn expand_all(
    store: &Store,
    pass: &mut Pass,
    frontier: &mut Vec<u64>,
) -> Result<bool, SearchError>
    requires sizes { (store.now.about.slots ≡ 5) × (store.now.about.flags ≡ 7) }
    requires rest { AtRest plain store.now pass.old }
    requires frontier { All (KnowsName pass.old) frontier.old.items }
    ensures rest { AtRest plain store.now pass.new }
{
    let mut both = false;
    for _ in 0..MOST {
        let Some(id) = frontier.pop() else {
            return Ok(both);
        };
        both |= expand(store, pass, id, frontier)?;
    }
    Err(SearchError::TooManySteps)
}

// Searches from the first state on. The states are those that got their names by this pass.
fn search(alloc: Global, store: &Store, pass: &mut Pass) -> Result<Found, SearchError>
    requires sizes { (store.now.about.slots ≡ 5) × (store.now.about.flags ≡ 7) }
    requires rest { AtRest plain store.now pass.old }
    ensures rest { AtRest plain store.now pass.new }
    ensures states { IfOk result
        (λ found. found.states ≡ names_of_callers (view pass.new).numbers (view pass.new).seen) }
{
    let mut frontier = Vec::new(alloc);
    frontier.push(insert(store, pass, &START)?)?;
    let both_critical = expand_all(store, pass, &mut frontier)?;
    Ok(Found {
        states: store.names_made(pass),
        both_critical,
    })
}

// A new store of `2^roots` roots, and its pass.
pub(crate) fn create(alloc: Global, roots: u32) -> Result<(Store, Pass), SearchError>
    ensures sizes { IfOk result (λ made. (made.0.about.slots ≡ 5) × (made.0.about.flags ≡ 7)) }
    ensures rest { IfOk result (λ made. AtRest plain made.0 made.1) }
{
    let sizes = Sizes {
        nodes: 10,
        roots,
        region: 0,
        probe: 4_194_304,
    };
    let shape = Shape::new(START.len()).unwrap();
    Store::create(alloc, shape, &sizes).map_err(SearchError::Create)
}

/// Searches all states of Peterson's protocol for two processes, in a new store of `2^roots` roots: how many
/// there are, and whether both processes are critical in one of them.
pub fn search_peterson(alloc: Global, roots: u32) -> Result<Found, SearchError> {
    let (store, mut pass) = create(alloc, roots)?;
    search(alloc, &store, &mut pass)
}
