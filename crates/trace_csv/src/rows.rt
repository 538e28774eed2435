//! The records of a trace, as `csv` reads them.
ghost use Rattle.std.specs.Prelude.{◌≡◌, ◌∷◌, [], Ok, OnErr, IfErr, true, false};
ghost use Rattle.csv.specs.Reading.{has_failed};
ghost use Rattle.csv.specs.Records.{fields_of};
ghost use Rattle.trace_csv.specs.Rows.{IsReading, csv_rows, rows_left};

use crate::TraceError;
use csv::{ByteRecord, ErrorKind, Reader, ReaderBuilder};
use std::alloc::Global;

// A reader of all records of some bytes.
pub(crate) fn open_rows<'a>(alloc: Global, bytes: &'a [u8]) -> Reader<&'a [u8]>
    ensures reading { IsReading result }
    ensures rows { rows_left result ≡ csv_rows bytes.now }
{
    ReaderBuilder::new()
        .has_headers(false)
        .flexible(true)
        .from_reader(alloc, bytes)
}

// Reads the next record, if there is one.
//
// `NoMemory` comes only where `csv` stopped: memory ran out, or the source failed, which a source of bytes in
// memory doesn't, though no clause of `csv` says so.
pub(crate) fn next_row(reader: &mut Reader<&[u8]>, row: &mut ByteRecord) -> Result<bool, TraceError>
    requires { IsReading reader.old }
    ensures reading { result ≡ Ok true → IsReading reader.new }
    ensures row { result ≡ Ok true → rows_left reader.old ≡ fields_of row.new ∷ rows_left reader.new }
    ensures end { result ≡ Ok false → rows_left reader.old ≡ [] }
    ensures memory { IfErr result (λ e. e ≡ TraceError.NoMemory) }
    ensures stopped { OnErr result (has_failed reader.new ≡ true) }
{
    match reader.read_byte_record(row) {
        Ok(found) => Ok(found),
        Err(error) => match error.kind() {
            ErrorKind::OutOfMemory | ErrorKind::Io(_) => Err(TraceError::NoMemory),
            _ => unreachable!(),
        },
    }
}
