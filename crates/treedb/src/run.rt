//! What the program does: the words choose, the job is done, and a note tells of the end.
ghost use Rattle.std.specs.Prelude.{◌≡◌, Some, IfOk, IfErr, false, map, string_bytes, true};
ghost use Rattle.tdb_base.specs.Causes.{Rose};
ghost use Rattle.command_line.specs.Choose.{chosen};
ghost use Rattle.command_line.specs.Valid.{IsValid};
ghost use Rattle.treedb.specs.Note.{has_note, status_of};
ghost use Rattle.treedb.specs.Chosen.{EndsUnchosen, chosen_plain};
ghost use Rattle.treedb.specs.Outcome.{IsNoted, RunEnds};

use crate::ended::Ended;
use crate::job::{do_job, do_job_waiting};
use crate::notes::write_note;
use command_line::{Choice, ChoiceError, Mode, choose};
use std::alloc::Global;
use std::sync::Wait;
use std::thread::Threads;
use tdb_base::{Gate, Sink, Source, Status};

// What the words choose, or how the run ends where they choose nothing.
fn read_words(alloc: Global, words: &[String]) -> Result<Choice, Ended>
    ensures chosen { IfOk result (λ choice. chosen (map string_bytes words.now) ≡ Some choice) }
    ensures valid { IfOk result IsValid }
    ensures none { IfErr result (EndsUnchosen (chosen (map string_bytes words.now))) }
{
    match choose(alloc, words) {
        Ok(choice) => Ok(choice),
        Err(ChoiceError::Usage) => Err(Ended::Usage),
        Err(ChoiceError::NoMemory) => Err(Ended::NoMemory),
    }
}

// Writes the note of the end: the status.
fn tell<N: Sink>(ended: Ended, notes: &mut N) -> Status
    ensures status { result ≡ status_of ended }
    ensures noted { IsNoted
        (record {
          taken = N.taken;
          faults = N.faults;
          settled = N.settled;
          old = notes.old;
          new =
              notes.new;
        }) ended }
    ensures settled { has_note (status_of ended) ≡ true
        → (Rose (N.faults notes.old) (N.faults notes.new) → ⊥) → N.settled notes.new ≡ true }
    ensures none { has_note (status_of ended) ≡ false → notes.new ≡ notes.old }
{
    write_note(&ended, notes);
    ended.status()
}

/// What the program does in plain mode: the words choose a job, and that is done.
///
/// The first refusal is the answer, and then the sink is as it was: `Usage` for words that choose nothing,
/// and for compact mode; `ReadFault` and `TooMuch` (more than 67,108,864 bytes) for the input; `BadTrace` for
/// bytes that are no trace, and for a check `BadReport` for an input without a report of its trace.
/// `NoMemory` comes before the first line is inserted, which no clause here can say, since no store is seen.
/// `WriteFault` leaves a front of the text. `Full` is the answer where some line is full and the whole text
/// was written, and `Refuted` where no history has the report that is checked. The note of the end goes to
/// `notes` last, and a fault there changes nothing. It waits for nobody.
pub fn run_plain<R: Threads + Sync, S: Source, K: Sink, N: Sink, G: Gate>(
    rt: &R,
    alloc: Global,
    words: &[String],
    source: &mut S,
    sink: &mut K,
    notes: &mut N,
    gate: &G,
) -> Status
    ensures { RunEnds (chosen_plain (map string_bytes words.now))
        (record { left = S.left; faults = S.faults; old = source.old; new = source.new })
        (record { taken = K.taken; faults = K.faults; settled = K.settled; old = sink.old; new = sink.new })
        (record { taken = N.taken; faults = N.faults; settled = N.settled; old = notes.old; new = notes.new })
        result }
{
    match read_words(alloc, words) {
        Ok(choice) => match choice.mode {
            Mode::Plain => tell(do_job(rt, alloc, &choice, source, sink, gate), notes),
            Mode::Compact => tell(Ended::Usage, notes),
        },
        Err(ended) => tell(ended, notes),
    }
}

/// All that the program does, in either mode: `run_plain` says how a run goes and ends.
///
/// In compact mode workers may wait for the locks of regions of roots. A report is checked alike in both
/// modes.
pub fn run<R: Threads + Wait + Sync, S: Source, K: Sink, N: Sink, G: Gate>(
    rt: &R,
    alloc: Global,
    words: &[String],
    source: &mut S,
    sink: &mut K,
    notes: &mut N,
    gate: &G,
) -> Status
    ensures { RunEnds (chosen (map string_bytes words.now))
        (record { left = S.left; faults = S.faults; old = source.old; new = source.new })
        (record { taken = K.taken; faults = K.faults; settled = K.settled; old = sink.old; new = sink.new })
        (record { taken = N.taken; faults = N.faults; settled = N.settled; old = notes.old; new = notes.new })
        result }
{
    match read_words(alloc, words) {
        Ok(choice) => match choice.mode {
            Mode::Plain => run_plain(rt, alloc, words, source, sink, notes, gate),
            Mode::Compact => tell(
                do_job_waiting(rt, alloc, &choice, source, sink, gate),
                notes,
            ),
        },
        Err(ended) => tell(ended, notes),
    }
}
