//! The input of a run: its bytes, and the lines that they write, or that are drawn.
ghost use Rattle.std.specs.Prelude.{◌≡◌, ◌≢◌, ◌≤◌, ◌<◌, ◌^◌, ◌⊎◌, ℕ, List, false, true};
ghost use Rattle.std.specs.Prelude.{All, IfOk, IfErr, IfSome, OnOk};
ghost use Rattle.std.specs.Prelude.{Ok, Err, Some, length, vec_len};
ghost use Rattle.std.specs.Io.KnownBytes.{IsAtEnd};
ghost use Rattle.tdb_base.specs.Causes.{Rose};
ghost use Rattle.trace_csv.specs.Input.{limit};
ghost use Rattle.trace_csv.specs.Trace.{trace_of};
ghost use Rattle.command_line.specs.Valid.{IsValid};
ghost use Rattle.treedb.specs.Chosen.{is_check};
ghost use Rattle.treedb.specs.Lines.{AreLinesOf, IsReadable, IsTraceFor, IsTraceText, drawn_lines, form_of};
ghost use Rattle.treedb.specs.Lines.{is_reader, read_lines, slot_bits};
ghost use Rattle.treedb.specs.Reading.{EndsReading, GaveWithin, ReadsToEnd, RefusesInput};

use crate::ended::Ended;
use command_line::{Choice, Job};
use std::alloc::Global;
use tdb_base::Source;
use trace_csv::{Form, InError, Trace, TraceError, generate, read_all, read_signed, read_trace};

/// How the trace of a choice writes its numbers.
pub fn form_of(choice: &Choice) -> Form
    ensures { result ≡ form_of choice.now }
{
    if choice.signed && choice.job != Job::Bench {
        return Form::Signed;
    }
    Form::Unsigned(choice.profile)
}

// The lines that bytes write in a form, or the first refusal.
fn read_form(alloc: Global, form: Form, bytes: &[u8]) -> Result<Trace, TraceError>
    requires { IsReadable form }
    ensures lines { IfOk result (λ trace. trace_of form bytes.now ≡ Ok trace) }
    ensures numbers { IfOk result (AreLinesOf form) }
    ensures below { IfOk result (λ trace. All (λ line. All (λ n. n < 2 ^ slot_bits form) line) trace) }
    ensures refused { IfErr result (λ e. e ≢ TraceError.NoMemory → trace_of form bytes.now ≡ Err e) }
{
    match form {
        Form::Unsigned(width) => read_trace(alloc, bytes, width),
        Form::Signed => read_signed(alloc, bytes),
    }
}

/// The lines that bytes write, or how the run ends where they write none. The bytes are an input, or what
/// stands of it before a report.
pub fn lines_of(alloc: Global, choice: &Choice, bytes: &[u8]) -> Result<Trace, Ended>
    requires { IsValid choice.now }
    ensures lines { IfOk result (λ trace. trace_of (form_of choice.now) bytes.now ≡ Ok trace) }
    ensures numbers { IfOk result (AreLinesOf (form_of choice.now)) }
    ensures few { IfOk result (λ trace. length trace ≤ length bytes.now) }
    ensures below { IfOk result (λ trace. All (λ line. All (λ n. n < 2 ^ choice.now.profile) line) trace) }
    ensures refused { (input : List ℕ) → IsTraceText choice.now.job input bytes.now
        → IfErr result (RefusesInput choice.now input) }
{
    let form = form_of(choice);
    match read_form(alloc, form, bytes) {
        Ok(trace) => Ok(trace),
        Err(TraceError::NoMemory) => Err(Ended::NoMemory),
        Err(error) => Err(Ended::BadTrace(form, error)),
    }
}

/// All bytes of the source, or how the run ends where they can't be had.
pub fn bytes_of<S: Source>(alloc: Global, source: &mut S) -> Result<Vec<u8>, Ended>
    ensures bytes { IfOk result (λ v. IfSome (S.left source.old) (λ b. v.items ≡ b)) }
    ensures within { IfOk result (λ v. vec_len v ≤ limit) }
    ensures end { OnOk result (IsAtEnd (S.left source.new)) }
    ensures gave { GaveWithin (S.left source.old) (S.left source.new) result }
    ensures fault { result ≡ Err Ended.ReadFault → Rose (S.faults source.old) (S.faults source.new) }
    ensures answer { IfErr result
        (λ ended. (ended ≡ Ended.ReadFault) ⊎ ((ended ≡ Ended.TooMuch) ⊎ (ended ≡ Ended.NoMemory))) }
{
    match read_all(alloc, source) {
        Ok(bytes) => Ok(bytes),
        Err(InError::ReadFault) => Err(Ended::ReadFault),
        Err(InError::TooMuch) => Err(Ended::TooMuch),
        Err(InError::NoMemory) => Err(Ended::NoMemory),
    }
}

/// The lines of a source's bytes, or how the run ends where there are none.
///
/// The source is read to its end first: `ReadFault` comes only where its count of faults rose, `TooMuch` for
/// more than 67,108,864 bytes, `BadTrace` for bytes that write no trace. `NoMemory` may come anywhere.
fn read_lines<S: Source>(alloc: Global, choice: &Choice, source: &mut S) -> Result<Trace, Ended>
    requires valid { IsValid choice.now }
    requires whole { (bytes : List ℕ) → IsTraceText choice.now.job bytes bytes }
    ensures lines { IfOk result
        (λ trace. IfSome (S.left source.old) (λ bytes. read_lines choice.now bytes ≡ Some trace)) }
    ensures numbers { IfOk result (AreLinesOf (form_of choice.now)) }
    ensures few { IfOk result (λ trace. length trace ≤ 2 ^ 32) }
    ensures below { IfOk result (λ trace. All (λ line. All (λ n. n < 2 ^ choice.now.profile) line) trace) }
    ensures gave { GaveWithin (S.left source.old) (S.left source.new) result }
    ensures fault { result ≡ Err Ended.ReadFault → Rose (S.faults source.old) (S.faults source.new) }
    ensures refused { IfErr result (EndsReading choice.now (S.left source.old)) }
    ensures end { ReadsToEnd result → IsAtEnd (S.left source.new) }
{
    let bytes = match bytes_of(alloc, source) {
        Ok(bytes) => bytes,
        Err(ended) => return Err(ended),
    };
    lines_of(alloc, choice, &bytes)
}

// The lines that the choice draws.
fn draw_lines(alloc: Global, choice: &Choice) -> Result<Trace, Ended>
    requires valid { IsValid choice.now }
    requires bench { choice.now.job ≡ Job.Bench }
    ensures lines { IfOk result (λ trace. trace ≡ drawn_lines choice.now) }
    ensures numbers { IfOk result (AreLinesOf (form_of choice.now)) }
    ensures few { IfOk result (λ trace. length trace ≤ 2 ^ 32) }
    ensures below { IfOk result (λ trace. All (λ line. All (λ n. n < 2 ^ choice.now.profile) line) trace) }
    ensures refused { IfErr result (λ ended. ended ≡ Ended.NoMemory) }
{
    match generate(
        alloc,
        choice.lines,
        choice.slots,
        choice.values,
        choice.seed,
    ) {
        Ok(trace) => Ok(trace),
        Err(_) => Err(Ended::NoMemory),
    }
}

/// The lines that a choice inserts, or how the run ends where there are none. For `bench` they are drawn, and
/// the source is not read; else they are those of the source, which is read to its end first.
pub fn take_lines<S: Source>(alloc: Global, choice: &Choice, source: &mut S) -> Result<Trace, Ended>
    requires valid { IsValid choice.now }
    requires inserts { is_check choice.now.job ≡ false }
    ensures lines { IfOk result (IsTraceFor choice.now (S.left source.old) choice.now.job) }
    ensures numbers { IfOk result (AreLinesOf (form_of choice.now)) }
    ensures few { IfOk result (λ trace. length trace ≤ 2 ^ 32) }
    ensures below { IfOk result (λ trace. All (λ line. All (λ n. n < 2 ^ choice.now.profile) line) trace) }
    ensures gave { GaveWithin (S.left source.old) (S.left source.new) result }
    ensures fault { result ≡ Err Ended.ReadFault → Rose (S.faults source.old) (S.faults source.new) }
    ensures refused { IfErr result (EndsReading choice.now (S.left source.old)) }
    ensures reads { IfErr result (λ ended. ended ≢ Ended.NoMemory → is_reader choice.now.job ≡ true) }
    ensures end { is_reader choice.now.job ≡ true → ReadsToEnd result → IsAtEnd (S.left source.new) }
    ensures drawn { is_reader choice.now.job ≡ false → source.new ≡ source.old }
{
    if choice.job == Job::Bench {
        return draw_lines(alloc, choice);
    }
    read_lines(alloc, choice, source)
}
