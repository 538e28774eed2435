//! The same search by two threads, each with a pass and a frontier of its own: whoever sets a state's flag
//! first expands it.
ghost use Rattle.std.specs.Prelude.{◌≡◌, All, IfOk};
ghost use Rattle.pair_rule.specs.Rest.{AtRest, KnowsName};
ghost use Rattle.root_plain.specs.Plain.{plain};
ghost use Rattle.store_uses.specs.Known.{IsReady};

use crate::peterson::START;
use crate::search::{Found, Pass, SearchError, Store, create, expand_all, insert};
use std::alloc::{AllocError, Global};
use std::thread;
use std::thread::Threads;

// A thread's pass, its frontier, and what it found.
#[derive(Drop)]
struct Worker {
    pass: Pass,
    frontier: Vec<u64>,
    found: Result<bool, SearchError>,
}

// A worker that begins with the state that has this identifier.
fn begin_with(alloc: Global, pass: Pass, id: u64) -> Result<Worker, SearchError>
    requires known { KnowsName pass id }
    ensures pass { IfOk result (λ worker. worker.pass ≡ pass) }
    ensures frontier { IfOk result (λ worker. All (KnowsName pass) worker.frontier.items) }
{
    let mut frontier = Vec::new(alloc);
    frontier.push(id)?;
    Ok(Worker {
        pass,
        frontier,
        found: Ok(false),
    })
}

// Both workers search, each in a thread of its own.
fn expand_at_once<H: Threads + Sync>(rt: &H, store: &Store, workers: &mut [Worker])
    requires sizes { (store.now.about.slots ≡ 5) × (store.now.about.flags ≡ 7) }
    requires ready { All (λ w. IsReady store.now w.pass w.frontier.items) workers.old }
    ensures { All (λ w. AtRest plain store.now w.pass) workers.new }
{
    let count = workers.len();
    if count > 0 {
        thread::for_each_mut(
            rt,
            workers,
            count,
            &|_, worker: &mut Worker|
                requires sizes { (store.now.about.slots ≡ 5) × (store.now.about.flags ≡ 7) }
                requires ready { IsReady store.now worker.now.pass worker.now.frontier.items }
                ensures { AtRest plain store.entry.now worker.exit.now.pass }
            {
                worker.found = expand_all(store, &mut worker.pass, &mut worker.frontier);
            },
        );
    }
}

/// The same search as `search_peterson`, by two threads.
pub fn search_together<H: Threads + Sync>(
    rt: &H,
    alloc: Global,
    roots: u32,
) -> Result<Found, SearchError> {
    let (store, mut pass) = create(alloc, roots)?;
    let id = insert(&store, &mut pass, &START)?;
    let Ok(other) = store.split(alloc, &mut pass) else {
        return Err(SearchError::Memory(AllocError));
    };
    let mut workers = [begin_with(alloc, pass, id)?, begin_with(alloc, other, id)?];
    expand_at_once(rt, &store, &mut workers);
    let [first, second] = workers;
    let Worker {
        mut pass,
        found,
        ..
    } = first;
    let Worker {
        pass: other,
        found: other_found,
        ..
    } = second;
    store.join(&mut pass, other);
    let both_critical = found? | other_found?;
    Ok(Found {
        states: store.names_made(&pass),
        both_critical,
    })
}
