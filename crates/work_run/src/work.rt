//! Workers work through their lines, all at once.
ghost use Rattle.std.specs.Prelude.{◌≡◌, ℕ, ◌<◌, ◌≤◌, ◌^◌, All, length, slice_index_or};
ghost use Rattle.tree_store.specs.Vectors.{IsVector};
ghost use Rattle.work_run.specs.Work.{CanWork, HasWorked};

use crate::shared::Shared;
use crate::supply::Supply;
use crate::task::Task;
use crate::worker::Worker;
use std::thread;
use std::thread::Threads;
use tdb_base::{Gate, Kept, Steps};
use trace_csv::Trace;

// The worker takes its lines one after the other, does the task with each, and keeps the answers. The gate is
// called before and after each line.
fn work_through<S: Shared, T: Task, P: Supply, G: Gate>(
    store: &S,
    task: &T,
    trace: &Trace,
    worker: &mut Worker<S::View, P, T::Answer>,
    gate: &G,
)
    requires fits { T.fits task.now (S.store store.now).about.flags }
    requires lines { length trace.now ≤ 2 ^ 32 }
    requires fit { All (IsVector (S.store store.now).about) trace.now }
    requires ready { CanWork S.part (S.store store.now) P.giving (length trace.now) worker.old }
    ensures { HasWorked S.part (S.store store.now) P.giving (T.telling task.now) trace.now
        worker.old worker.new }
{
    while let Some(i) = worker.lines.next() {
        gate.before(worker.number, i + 1);
        let mut steps = Steps::new(Kept { shown: 0 });
        let answer = task.answer(store, &mut worker.pass, trace.line(i), &mut steps);
        let Ok(()) = worker.answers.push(answer) else {
            unreachable!()
        };
        gate.after(worker.number, i + 1, steps.shown());
    }
}

/// Each worker works through its lines, in a thread of its own where one can be started.
pub(crate) fn work_at_once<R: Threads + Sync, S: Shared, T: Task, P: Supply + Send, G: Gate>(
    rt: &R,
    store: &S,
    task: &T,
    trace: &Trace,
    all_workers: &mut Vec<Worker<S::View, P, T::Answer>>,
    gate: &G,
)
    requires fits { T.fits task.now (S.store store.now).about.flags }
    requires lines { length trace.now ≤ 2 ^ 32 }
    requires fit { All (IsVector (S.store store.now).about) trace.now }
    requires ready { All (CanWork S.part (S.store store.now) P.giving (length trace.now))
        all_workers.old.items }
    ensures worked { (j : ℕ) (d : _) → j < length all_workers.old.items
        → HasWorked S.part (S.store store.now) P.giving (T.telling task.now) trace.now
        (slice_index_or all_workers.old.items j d) (slice_index_or all_workers.new.items j d) }
    ensures all { length all_workers.new.items ≡ length all_workers.old.items }
{
    let count = all_workers.len();
    if count > 0 {
        thread::for_each_mut(
            rt,
            all_workers.as_mut_slice(),
            count,
            &|_, worker: &mut Worker<S::View, P, T::Answer>|
                requires fits { T.fits task.now (S.store store.now).about.flags }
                requires lines { length trace.now ≤ 2 ^ 32 }
                requires fit { All (IsVector (S.store store.now).about) trace.now }
                requires ready { CanWork S.part (S.store store.now) P.giving (length trace.now) worker.now }
                ensures { HasWorked S.part (S.store store.entry.now) P.giving (T.telling task.entry.now)
                    trace.entry.now worker.entry.now worker.exit.now }
            {
                work_through(store, task, trace, worker, gate);
            },
        );
    }
}
