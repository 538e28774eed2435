//! Workers are made, each with a pass that is split from one pass, and their passes are joined into it again.
ghost use Rattle.std.specs.Prelude.{◌≡◌, ◌+◌, ◌<◌, ◌≤◌, ℕ, IfOk, OnOk, OnErr, All, length, map};
ghost use Rattle.pair_rule.specs.Rest.{AtRest, view};
ghost use Rattle.pair_rule.specs.View.{parent_view};
ghost use Rattle.pair_rule.specs.Callers.{AreJoined, Unused};
ghost use Rattle.work_run.specs.Workers.{IsSplitWorker, AreSplitWorkers};

use crate::dealt::Dealing;
use crate::shared::Shared;
use crate::worker::Worker;
use pair_rule::PassOf;
use std::alloc::Global;
use tdb_base::NoMemory;

// The worker with this number, which is the next one, with a pass of its own and room for its answers.
fn split_worker<S: Shared, P: Dealing, A: Copy>(
    alloc: Global,
    store: &S,
    pass: &mut PassOf<S::View>,
    dealing: &mut P,
    number: u64,
) -> Result<Worker<S::View, P::Lines, A>, NoMemory>
    requires rest { AtRest S.part (S.store store.now) pass.old }
    requires next { P.is_next dealing.old number }
    requires inside { number < P.count dealing.old }
    ensures rest { AtRest S.part (S.store store.now) pass.new }
    ensures split { IfOk result (IsSplitWorker S.part (S.store store.now)
        P.Lines.giving.left (P.begins dealing.old) (view pass.old) number) }
    ensures view { OnOk result (view pass.new ≡ parent_view (view pass.old)) }
    ensures pass { OnOk result (pass.new ≡ record pass.old { seat = pass.new.seat }) }
    ensures refused { OnErr result (pass.new ≡ pass.old) }
    ensures next { OnOk result (P.is_next dealing.new (number + 1)) }
    ensures count { P.count dealing.new ≡ P.count dealing.old }
    ensures others { (n : ℕ) (lines : P.Lines) → P.begins dealing.new n lines → P.begins dealing.old n lines }
{
    let room = dealing.room(number);
    let lines = dealing.lines_of(alloc, number)?;
    let answers = Vec::with_capacity(alloc, room as usize)?;
    let pass = store.split(alloc, pass)?;
    Ok(Worker::new(number, pass, lines, answers))
}

/// So many workers, each with a pass that is split from this one, the lines that it is dealt, and room for
/// the answers to them. After `NoMemory` the passes that were split are joined back.
pub(crate) fn split_workers<S: Shared, P: Dealing, A: Copy>(
    alloc: Global,
    store: &S,
    pass: &mut PassOf<S::View>,
    dealing: &mut P,
    workers: u64,
) -> Result<Vec<Worker<S::View, P::Lines, A>>, NoMemory>
    requires rest { AtRest S.part (S.store store.now) pass.old }
    requires first { P.is_next dealing.old 0 }
    requires workers { P.count dealing.old ≡ workers }
    requires few { workers ≤ 64 }
    ensures split { IfOk result (λ all_workers. AreSplitWorkers S.part (S.store store.now)
        P.Lines.giving.left (P.begins dealing.old) pass.old pass.new all_workers.items) }
    ensures all { IfOk result (λ all_workers. length all_workers.items ≡ workers) }
    ensures refused { OnErr result (Unused pass.old pass.new) }
    ensures refused_rest { OnErr result (AtRest S.part (S.store store.now) pass.new) }
{
    let mut all_workers = Vec::with_capacity(alloc, workers as usize)?;
    for number in 0..workers {
        let Ok(worker) = split_worker(alloc, store, pass, dealing, number) else {
            join_workers(store, pass, all_workers);
            return Err(NoMemory);
        };
        let Ok(()) = all_workers.push(worker) else {
            unreachable!()
        };
    }
    Ok(all_workers)
}

/// The passes of the workers are joined into the pass, and their answers are dropped.
pub(crate) fn join_workers<S: Shared, P: Drop, A: Copy>(
    store: &S,
    pass: &mut PassOf<S::View>,
    all_workers: Vec<Worker<S::View, P, A>>,
)
    requires rest { AtRest S.part (S.store store.now) pass.old }
    requires all_workers { All (λ w. AtRest S.part (S.store store.now) w.pass) all_workers.items }
    ensures { AreJoined S.part (S.store store.now) pass.old pass.new (map (λ w. w.pass) all_workers.items) }
{
    let mut left = all_workers;
    while let Some(worker) = left.pop() {
        store.join(pass, worker.into_pass());
    }
}
