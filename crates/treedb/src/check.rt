//! The job `check`: a trace and a report of it are read, and the verdict on the report is written.
ghost use Rattle.std.specs.Prelude.{◌≡◌, ◌≢◌, ◌≤◌, ◌++◌, IfErr, IfOk, MatchOption, Some, Err, codes};
ghost use Rattle.std.specs.Prelude.{length, true};
ghost use Rattle.std.specs.Fmt.{decimal};
ghost use Rattle.std.specs.Io.KnownBytes.{IsAtEnd};
ghost use Rattle.tdb_base.specs.Causes.{Rose};
ghost use Rattle.command_line.specs.Valid.{IsValid};
ghost use Rattle.treedb.specs.Check.{Judged, WritesVerdict, ended_with_verdict, verdict_text};
ghost use Rattle.run_check.specs.Cut.{IsWhole};
ghost use Rattle.trace_csv.specs.Input.{limit};
ghost use Rattle.treedb.specs.Lines.{IsCutInto};
ghost use Rattle.treedb.specs.Outcome.{EndsAs};
ghost use Rattle.treedb.specs.Reading.{EndsReading, GaveWithin, ReadsToEnd, RefusesInput};

use crate::ended::Ended;
use crate::input::{bytes_of, lines_of};
use crate::line_text::LineText;
use command_line::{Choice, Job};
use run_check::{ReportError, Verdict, divide, read_report};
use std::alloc::Global;
use tdb_base::{Sink, Source};
use trace_csv::{WriteFault, write_text};

// The trace and the report of an input.
fn cut(bytes: &[u8]) -> Option<(&[u8], &[u8])>
    ensures { MatchOption result (IsWhole bytes.now) (λ r. IsCutInto bytes.now r.0.now r.1.now) }
{
    let place = divide(bytes)?;
    let (text, rest) = bytes.split_at(place);
    let (_, report) = rest.split_at(2);
    Some((text, report))
}

// The verdict on an input, or how the run ends where it has no trace or no report of its lines.
fn judge(alloc: Global, choice: &Choice, bytes: &[u8]) -> Result<Verdict, Ended>
    requires valid { IsValid choice.now }
    requires job { choice.now.job ≡ Job.Check }
    requires within { length bytes.now ≤ limit }
    ensures judged { IfOk result (Judged choice.now (Some bytes.now)) }
    ensures refused { IfErr result (RefusesInput choice.now bytes.now) }
{
    let Some((text, report)) = cut(bytes) else {
        return Err(Ended::NoReport);
    };
    let trace = match lines_of(alloc, choice, text) {
        Ok(trace) => trace,
        Err(ended) => return Err(ended),
    };
    let replies = match read_report(alloc, report, trace.len()) {
        Ok(replies) => replies,
        Err(ReportError::Syntax(line)) => return Err(Ended::WrongReport(line)),
        Err(ReportError::NoMemory) => return Err(Ended::NoMemory),
    };
    match run_check::check(alloc, &trace, &replies, choice.workers, choice.block) {
        Ok(verdict) => Ok(verdict),
        Err(_) => Err(Ended::NoMemory),
    }
}

// The verdict on a source's input, or how the run ends where there is none.
fn read_verdict<S: Source>(alloc: Global, choice: &Choice, source: &mut S) -> Result<Verdict, Ended>
    requires valid { IsValid choice.now }
    requires job { choice.now.job ≡ Job.Check }
    ensures judged { IfOk result (Judged choice.now (S.left source.old)) }
    ensures gave { GaveWithin (S.left source.old) (S.left source.new) result }
    ensures fault { result ≡ Err Ended.ReadFault → Rose (S.faults source.old) (S.faults source.new) }
    ensures refused { IfErr result (EndsReading choice.now (S.left source.old)) }
    ensures end { ReadsToEnd result → IsAtEnd (S.left source.new) }
{
    let bytes = match bytes_of(alloc, source) {
        Ok(bytes) => bytes,
        Err(ended) => return Err(ended),
    };
    judge(alloc, choice, &bytes)
}

// The line of a verdict.
fn verdict_line(verdict: Verdict) -> LineText
    ensures { result ≡ verdict_text verdict }
{
    match verdict {
        Verdict::Yes => LineText::of(b"yes\n"),
        Verdict::Twice(first, second) => {
            let mut text = LineText::of(b"no twice ");
            text.add_number(first);
            text.add(b" ");
            text.add_number(second);
            text.add(b"\n");
            text
        }
        Verdict::Lone(line) => refuted_line(b"no lone ", line),
        Verdict::FullNamed(line) => refuted_line(b"no full ", line),
        Verdict::Stuck(line) => refuted_line(b"no stuck ", line),
    }
}

// The line of a verdict on one line of the trace.
fn refuted_line(word: &[u8], line: u64) -> LineText
    requires { length word.now ≤ 40 }
    ensures { result ≡ word.now ++ decimal line ++ codes "\n" }
{
    let mut text = LineText::of(word);
    text.add_number(line);
    text.add(b"\n");
    text
}

// How a run ends that wrote a verdict.
fn ended(verdict: Verdict) -> Ended
    ensures { result ≡ ended_with_verdict verdict }
{
    match verdict {
        Verdict::Yes => Ended::Done,
        _ => Ended::Refuted,
    }
}

// Writes the line of a verdict. The sink is finished then.
fn write_verdict<K: Sink>(verdict: Verdict, sink: &mut K) -> Ended
    ensures written { WritesVerdict verdict (K.taken sink.old) (K.taken sink.new) result }
    ensures settled { result ≢ Ended.WriteFault → K.settled sink.new ≡ true }
    ensures fault { result ≡ Ended.WriteFault → Rose (K.faults sink.old) (K.faults sink.new) }
{
    match write_text(verdict_line(verdict).as_slice(), sink) {
        Ok(()) => ended(verdict),
        Err(WriteFault) => Ended::WriteFault,
    }
}

/// Reads a trace and a report of its lines from the source, and writes the verdict on the report.
///
/// The first refusal is the answer: `ReadFault` and `TooMuch` for the source, `NoReport` where no line is `#`
/// alone, `BadTrace` for what stands before that line, `WrongReport` for what stands after it. `Done` says
/// that some history has the replies, and `Refuted` that none has.
pub fn check<S: Source, K: Sink>(
    alloc: Global,
    choice: &Choice,
    source: &mut S,
    sink: &mut K,
) -> Ended
    requires valid { IsValid choice.now }
    requires job { choice.now.job ≡ Job.Check }
    ensures { EndsAs (Some choice.now)
        (record { left = S.left; faults = S.faults; old = source.old; new = source.new })
        (record { taken = K.taken; faults = K.faults; settled = K.settled; old = sink.old; new = sink.new })
        result }
{
    match read_verdict(alloc, choice, source) {
        Ok(verdict) => write_verdict(verdict, sink),
        Err(ended) => ended,
    }
}
