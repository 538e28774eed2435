//! What a choice does: its lines are taken, inserted and answered, or a report is checked.
ghost use Rattle.std.specs.Prelude.{◌≡◌, Some};
ghost use Rattle.command_line.specs.Valid.{IsValid};
ghost use Rattle.treedb.specs.Outcome.{EndsAs};

use crate::check::check;
use crate::ended::Ended;
use crate::fill::{insert_lines, insert_lines_waiting};
use crate::input::take_lines;
use crate::output::write_answered;
use command_line::{Choice, Job, Mode};
use std::alloc::Global;
use std::sync::Wait;
use std::thread::Threads;
use tdb_base::{Gate, Sink, Source};

/// Does the job of a choice of plain mode. It waits for nobody.
pub fn do_job<R: Threads + Sync, S: Source, K: Sink, G: Gate>(
    rt: &R,
    alloc: Global,
    choice: &Choice,
    source: &mut S,
    sink: &mut K,
    gate: &G,
) -> Ended
    requires valid { IsValid choice.now }
    requires plain { choice.now.mode ≡ Mode.Plain }
    ensures { EndsAs (Some choice.now)
        (record { left = S.left; faults = S.faults; old = source.old; new = source.new })
        (record { taken = K.taken; faults = K.faults; settled = K.settled; old = sink.old; new = sink.new })
        result }
{
    if choice.job == Job::Check {
        return check(alloc, choice, source, sink);
    }
    let trace = match take_lines(alloc, choice, source) {
        Ok(trace) => trace,
        Err(ended) => return ended,
    };
    let Ok(answered) = insert_lines(rt, alloc, choice, &trace, gate) else {
        return Ended::NoMemory;
    };
    write_answered(choice, &answered, sink)
}

/// Does the job of a choice of compact mode, in which workers may wait for one another.
pub fn do_job_waiting<R: Threads + Wait + Sync, S: Source, K: Sink, G: Gate>(
    rt: &R,
    alloc: Global,
    choice: &Choice,
    source: &mut S,
    sink: &mut K,
    gate: &G,
) -> Ended
    requires valid { IsValid choice.now }
    requires compact { choice.now.mode ≡ Mode.Compact }
    ensures { EndsAs (Some choice.now)
        (record { left = S.left; faults = S.faults; old = source.old; new = source.new })
        (record { taken = K.taken; faults = K.faults; settled = K.settled; old = sink.old; new = sink.new })
        result }
{
    if choice.job == Job::Check {
        return check(alloc, choice, source, sink);
    }
    let trace = match take_lines(alloc, choice, source) {
        Ok(trace) => trace,
        Err(ended) => return ended,
    };
    let Ok(answered) = insert_lines_waiting(rt, alloc, choice, &trace, gate) else {
        return Ended::NoMemory;
    };
    write_answered(choice, &answered, sink)
}
