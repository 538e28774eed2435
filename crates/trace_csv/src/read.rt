//! A trace's bytes as lines of numbers: read directly where they are plain, and else by `csv`.
ghost use Rattle.std.specs.Prelude.{◌≡◌, ◌≢◌, ◌≤◌, ◌<◌, ◌+◌, ◌*◌, ◌^◌, ◌∷◌, ◌⊎◌, [], true, length};
ghost use Rattle.std.specs.Prelude.{All, Ok, Err, IfOk, IfErr, vec_len, vec_capacity};
ghost use Rattle.csv.specs.Reading.{has_failed};
ghost use Rattle.csv.specs.Records.{fields_of};
ghost use Rattle.trace_csv.specs.Rows.{IsReading, rows_left};
ghost use Rattle.trace_csv.specs.Signed.{AreHalves};
ghost use Rattle.trace_csv.specs.Trace.{AddsLine, Signed, Unsigned, even_lines, line_of, trace_of};
ghost use Rattle.trace_csv.specs.Words.{AreRead, FitsWord, slots_in};

use crate::direct::read_directly;
use crate::field::word;
use crate::number::add_word;
use crate::rows::{next_row, open_rows};
use crate::{Form, Trace, TraceError};
use csv::{ByteRecord, Reader};
use std::alloc::Global;

/// The lines of numbers that the bytes write, each number below 2^width.
///
/// The bytes are records of comma-separated fields, with no header row. A line ends in LF, CRLF or
/// CR, the last one may lack its end, and an empty line is no record. Fields may be quoted. A UTF-8
/// byte order mark at the very start is dropped. A field is 1 to 10 digits with any number of spaces
/// before and after, and leading zeros are taken. All records have as many fields as the first one,
/// which has 2 to 1024.
///
/// Records are read in order, in each first the count of its fields and then the fields, and the
/// first fault is the answer. Records and fields are counted from 1. `NoMemory` says that memory ran
/// out, which may be at any record.
pub fn read_trace(alloc: Global, bytes: &[u8], width: u32) -> Result<Trace, TraceError>
    requires some { 1 ≤ width }
    requires fits { width ≤ 31 }
    ensures lines { IfOk result (λ trace. trace_of (Unsigned width) bytes.now ≡ Ok trace) }
    ensures below { IfOk result (λ trace. All (λ line. All (λ n. n < 2 ^ width) line) trace) }
    // Each number takes two bytes at least, but for the last line's end.
    ensures short { IfOk result (λ trace.
        All (λ line. 2 * length line * length trace ≤ length bytes.now + 1) trace) }
    ensures refused { IfErr result (λ e.
        e ≢ TraceError.NoMemory → trace_of (Unsigned width) bytes.now ≡ Err e) }
{
    read_form(alloc, bytes, Form::Unsigned(width))
}

/// The lines of the halves of the signed numbers that the bytes write, from -2147483648 to 2147483647.
///
/// The bytes are read as in `read_trace`, but for the fields: right before its digits a field may have one
/// minus, and `-0` is 0. The first record has 2 to 512 fields. Each number is two slots of 16 bits: with the
/// number taken modulo 2^32, first its high bits and then its low ones. So a line has twice as many slots as
/// its record has fields.
pub fn read_signed(alloc: Global, bytes: &[u8]) -> Result<Trace, TraceError>
    ensures lines { IfOk result (λ trace. trace_of Signed bytes.now ≡ Ok trace) }
    ensures halves { IfOk result (λ trace. All AreHalves trace) }
    ensures below { IfOk result (λ trace. All (λ line. All (λ n. n < 2 ^ 16) line) trace) }
    ensures least { IfOk result (λ trace. All (λ line. 4 ≤ length line) trace) }
    // Each number has two slots, and takes two bytes at least, but for the last line's end.
    ensures short { IfOk result (λ trace.
        All (λ line. length line * length trace ≤ length bytes.now + 1) trace) }
    ensures refused { IfErr result (λ e.
        e ≢ TraceError.NoMemory → trace_of Signed bytes.now ≡ Err e) }
{
    read_form(alloc, bytes, Form::Signed)
}

// The lines of the slots of the numbers that the bytes write.
fn read_form(alloc: Global, bytes: &[u8], form: Form) -> Result<Trace, TraceError>
    requires { FitsWord form }
    ensures lines { IfOk result (λ trace. trace_of form bytes.now ≡ Ok trace) }
    ensures refused { IfErr result (λ e.
        e ≢ TraceError.NoMemory → trace_of form bytes.now ≡ Err e) }
{
    if let Some(trace) = read_directly(alloc, bytes, form) {
        return Ok(trace);
    }
    read_rows(alloc, bytes, form)
}

// The same by `csv`, for any bytes.
fn read_rows(alloc: Global, bytes: &[u8], form: Form) -> Result<Trace, TraceError>
    requires { FitsWord form }
    ensures lines { IfOk result (λ trace. trace_of form bytes.now ≡ Ok trace) }
    ensures refused { IfErr result (λ e.
        e ≢ TraceError.NoMemory → trace_of form bytes.now ≡ Err e) }
{
    let mut reader = open_rows(alloc, bytes);
    let mut row = ByteRecord::new(alloc);
    if !next_row(&mut reader, &mut row)? {
        return Err(TraceError::NoRecords);
    }
    let fields = row.len();
    if fields < 2 || fields > form.most_fields() {
        return Err(TraceError::Length(1, fields as u64));
    }
    let mut numbers = Vec::new(alloc);
    let lines = add_lines(&mut reader, &mut row, form, fields, &mut numbers)?;
    Ok(Trace::of_numbers(numbers, form.slots(fields), lines))
}

// Adds the lines of the record at hand and of those that the reader has left, and says how many they are.
//
// `NoMemory` comes only where the reader stopped, or where the numbers have no room for a line more.
fn add_lines(
    reader: &mut Reader<&[u8]>,
    row: &mut ByteRecord,
    form: Form,
    fields: usize,
    numbers: &mut Vec<u32>,
) -> Result<u64, TraceError>
    requires fits { FitsWord form }
    requires narrow { fields ≤ 1024 }
    requires reading { IsReading reader.old }
    requires few { length (rows_left reader.old) < 2 ^ 63 }
    requires none { numbers.old.items ≡ [] }
    ensures count { IfOk result (λ lines. lines ≡ length (rows_left reader.old) + 1) }
    ensures read { IfOk result (λ _.
        AreRead form fields (fields_of row.old ∷ rows_left reader.old) numbers.new.items) }
    ensures refused { IfErr result (λ e. e ≢ TraceError.NoMemory →
        even_lines form fields (fields_of row.old ∷ rows_left reader.old) ≡ Err e) }
    ensures memory { result ≡ Err TraceError.NoMemory → (has_failed reader.new ≡ true)
        ⊎ (vec_capacity numbers.new < vec_len numbers.new + slots_in form fields) }
{
    for number in 1..u64::MAX {
        add_line(row, form, fields, number, numbers)?;
        if !next_row(reader, row)? {
            return Ok(number);
        }
    }
    unreachable!()
}

// Adds the line of a record to the numbers.
//
// `NoMemory` comes only where the numbers have no room for a line more.
fn add_line(
    row: &ByteRecord,
    form: Form,
    fields: usize,
    number: u64,
    numbers: &mut Vec<u32>,
) -> Result<(), TraceError>
    requires fits { FitsWord form }
    requires narrow { fields ≤ 1024 }
    ensures added { IfOk result (λ _.
        AddsLine (line_of form fields number (fields_of row.now))
        numbers.old.items numbers.new.items) }
    ensures refused { IfErr result (λ e.
        e ≢ TraceError.NoMemory → line_of form fields number (fields_of row.now) ≡ Err e) }
    ensures memory { result ≡ Err TraceError.NoMemory →
        vec_capacity numbers.new < vec_len numbers.new + slots_in form fields }
{
    if row.len() != fields {
        return Err(TraceError::Ragged(number, row.len() as u64, fields as u64));
    }
    if numbers.reserve(form.slots(fields)).is_err() {
        return Err(TraceError::NoMemory);
    }
    for i in 0..fields {
        let Some(text) = row.get(i) else {
            unreachable!()
        };
        let word = word(text, form, number, i as u64 + 1)?;
        let Ok(()) = add_word(word, form, numbers) else {
            unreachable!()
        };
    }
    Ok(())
}

#[cfg(test)]
mod tests;
