//! The note of how a run ended, as it is written.
ghost use Rattle.std.specs.Prelude.{◌≡◌, ◌≤◌, ◌++◌, codes, length, true, false};
ghost use Rattle.std.specs.Fmt.{decimal};
ghost use Rattle.std.specs.Io.KnownBytes.{Appends};
ghost use Rattle.tdb_base.specs.Causes.{Rose};
ghost use Rattle.trace_csv.specs.Output.{TakesFront};
ghost use Rattle.treedb.specs.Note as note;

use crate::ended::Ended;
use crate::line_text::LineText;
use command_line::USAGE;
use tdb_base::Sink;
use trace_csv::{Form, TraceError, write_text};

/// Writes the note of a run's end, and hands it on. `Done` and `Refuted` have none.
///
/// A fault of the notes ends the writing, so that they took a prefix of it, and changes nothing else.
pub fn write_note<N: Sink>(ended: &Ended, notes: &mut N)
    ensures none { note.has_note (note.status_of ended.now) ≡ false → notes.new ≡ notes.old }
    ensures front { TakesFront (N.taken notes.old) (N.taken notes.new) (note.note_text ended.now) }
    ensures exact { (Rose (N.faults notes.old) (N.faults notes.new) → ⊥)
        → Appends (N.taken notes.old) (N.taken notes.new) (note.note_text ended.now) }
    ensures settled { note.has_note (note.status_of ended.now) ≡ true
        → (Rose (N.faults notes.old) (N.faults notes.new) → ⊥) → N.settled notes.new ≡ true }
    ensures later { N.faults notes.old ≤ N.faults notes.new }
{
    match ended {
        Ended::Usage => put_note(USAGE.as_bytes(), notes),
        Ended::BadTrace(form, error) => put_note(trace_text(*form, *error).as_slice(), notes),
        Ended::TooMuch => put_note(b"treedb: input is over 67108864 bytes\n", notes),
        Ended::Full(lines) => put_note(full_text(*lines).as_slice(), notes),
        Ended::ReadFault => put_note(b"treedb: read fault\n", notes),
        Ended::WriteFault => put_note(b"treedb: write fault\n", notes),
        Ended::NoMemory => put_note(b"treedb: no memory\n", notes),
        Ended::NoReport => put_note(b"treedb: no report\n", notes),
        Ended::WrongReport(line) => put_note(report_text(*line).as_slice(), notes),
        Ended::Done | Ended::Refuted => {}
    }
}

// Writes a note, as far as the notes take it.
fn put_note<N: Sink>(text: &[u8], notes: &mut N)
    ensures front { TakesFront (N.taken notes.old) (N.taken notes.new) text.now }
    ensures exact { (Rose (N.faults notes.old) (N.faults notes.new) → ⊥)
        → Appends (N.taken notes.old) (N.taken notes.new) text.now }
    ensures settled { (Rose (N.faults notes.old) (N.faults notes.new) → ⊥) → N.settled notes.new ≡ true }
    ensures later { N.faults notes.old ≤ N.faults notes.new }
{
    // There is nobody left to tell of a fault.
    let _ = write_text(text, notes);
}

// What is said of a number that is out of its range.
fn range_text(form: Form) -> &'static [u8]
    ensures text { result.now ≡ note.range_text form }
    ensures short { length result.now ≤ 40 }
{
    match form {
        Form::Unsigned(_) => b" is too big\n",
        Form::Signed => b" is out of range\n",
    }
}

// What is said of a first record with too few fields, or too many.
fn fields_text(form: Form) -> &'static [u8]
    ensures text { result.now ≡ note.fields_text form }
    ensures short { length result.now ≤ 40 }
{
    match form {
        Form::Unsigned(_) => b" fields, 2 to 1024 are allowed\n",
        Form::Signed => b" fields, 2 to 512 are allowed\n",
    }
}

fn trace_text(form: Form, error: TraceError) -> LineText
    ensures { result ≡ note.trace_text form error }
{
    match error {
        TraceError::NotANumber(row, field) => field_text(row, field, b" is not a number\n"),
        TraceError::TooBig(row, field) => field_text(row, field, range_text(form)),
        TraceError::Ragged(row, fields, first) => {
            let mut text = count_text(row, fields, b" fields, the first has ");
            text.add_number(first);
            text.add(b"\n");
            text
        }
        TraceError::Length(row, fields) => count_text(row, fields, fields_text(form)),
        TraceError::NoRecords => LineText::of(b"treedb: no records\n"),
        TraceError::NoMemory => LineText::of(b"treedb: no memory\n"),
    }
}

// A fault of a field.
fn field_text(row: u64, field: u64, fault: &[u8]) -> LineText
    requires { length fault.now ≤ 40 }
    ensures { result ≡
        codes "treedb: record " ++ decimal row ++ codes " field " ++ decimal field ++ fault.now }
{
    let mut text = LineText::of(b"treedb: record ");
    text.add_number(row);
    text.add(b" field ");
    text.add_number(field);
    text.add(fault);
    text
}

// The count of a record's fields, and what is wrong with it.
fn count_text(row: u64, fields: u64, fault: &[u8]) -> LineText
    requires { length fault.now ≤ 40 }
    ensures text { result ≡ codes "treedb: record " ++ decimal row ++ codes " has " ++ decimal fields ++
        fault.now }
    ensures short { length result ≤ 100 }
{
    let mut text = LineText::of(b"treedb: record ");
    text.add_number(row);
    text.add(b" has ");
    text.add_number(fields);
    text.add(fault);
    text
}

fn report_text(line: u64) -> LineText
    ensures { result ≡ codes "treedb: report line " ++ decimal line ++ codes " is wrong\n" }
{
    let mut text = LineText::of(b"treedb: report line ");
    text.add_number(line);
    text.add(b" is wrong\n");
    text
}

fn full_text(lines: u64) -> LineText
    ensures { result ≡ codes "treedb: " ++ decimal lines ++ codes " lines full\n" }
{
    let mut text = LineText::of(b"treedb: ");
    text.add_number(lines);
    text.add(b" lines full\n");
    text
}
