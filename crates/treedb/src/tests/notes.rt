//! Each end of a run, with its exit status and its note.

use crate::ended::Ended;
use crate::notes::write_note;
use run_check::ReportError;
use std::test::Fail;
use tdb_base::MemSink;
use trace_csv::{Form, TraceError};

// The form of a run that isn't signed.
const UNSIGNED: Form = Form::Unsigned(28);

// Each end of a run, with its exit status and its note.
const NOTES: [(Ended, u8, &str); 22] = [
    (Ended::Done, 0, ""),
    (
        Ended::Usage,
        2,
        "usage: treedb insert|distinct|bench|check|mark [--mode plain|compact] [--profile 16|28|31]
  [--workers N] [--block N] [--nodes D] [--roots R] [--region S] [--probe P]
  [--stats] [--lines N] [--slots K] [--values M] [--seed S]
  [--signed] [--claims] [--flag B]
",
    ),
    (
        Ended::BadTrace(UNSIGNED, TraceError::NotANumber(2, 3)),
        3,
        "treedb: record 2 field 3 is not a number\n",
    ),
    (
        Ended::BadTrace(UNSIGNED, TraceError::TooBig(4, 1)),
        3,
        "treedb: record 4 field 1 is too big\n",
    ),
    (
        Ended::BadTrace(UNSIGNED, TraceError::Ragged(12, 3, 1000)),
        3,
        "treedb: record 12 has 3 fields, the first has 1000\n",
    ),
    (
        Ended::BadTrace(UNSIGNED, TraceError::Ragged(u64::MAX, u64::MAX, u64::MAX)),
        3,
        "treedb: record 18446744073709551615 has 18446744073709551615 fields, the first has 18446744073709551615\n",
    ),
    (
        Ended::BadTrace(UNSIGNED, TraceError::Length(1, 1025)),
        3,
        "treedb: record 1 has 1025 fields, 2 to 1024 are allowed\n",
    ),
    (
        Ended::BadTrace(UNSIGNED, TraceError::NoRecords),
        3,
        "treedb: no records\n",
    ),
    (
        Ended::BadTrace(Form::Signed, TraceError::NotANumber(2, 3)),
        3,
        "treedb: record 2 field 3 is not a number\n",
    ),
    (
        Ended::BadTrace(Form::Signed, TraceError::TooBig(4, 1)),
        3,
        "treedb: record 4 field 1 is out of range\n",
    ),
    (
        Ended::BadTrace(Form::Signed, TraceError::Ragged(12, 3, 500)),
        3,
        "treedb: record 12 has 3 fields, the first has 500\n",
    ),
    (
        Ended::BadTrace(Form::Signed, TraceError::Length(1, 513)),
        3,
        "treedb: record 1 has 513 fields, 2 to 512 are allowed\n",
    ),
    (
        Ended::BadTrace(Form::Signed, TraceError::NoRecords),
        3,
        "treedb: no records\n",
    ),
    (Ended::TooMuch, 4, "treedb: input is over 67108864 bytes\n"),
    (Ended::Full(1), 5, "treedb: 1 lines full\n"),
    (Ended::ReadFault, 6, "treedb: read fault\n"),
    (Ended::WriteFault, 7, "treedb: write fault\n"),
    (Ended::NoMemory, 8, "treedb: no memory\n"),
    (Ended::NoReport, 9, "treedb: no report\n"),
    (Ended::WrongReport(2), 9, "treedb: report line 2 is wrong\n"),
    (
        Ended::WrongReport(u64::MAX),
        9,
        "treedb: report line 18446744073709551615 is wrong\n",
    ),
    (Ended::Refuted, 10, ""),
];

#[test]
fn each_end_has_its_note(rt: HostRuntime) -> Result<(), Fail> {
    let alloc = rt.alloc();
    for (ended, code, text) in NOTES {
        let mut notes = MemSink::new(alloc, 512, Vec::new(alloc), 7)?;
        write_note(&ended, &mut notes);
        assert_eq!(rt; notes.bytes(), text.as_bytes(), "{text}");
        assert_eq!(rt; ended.status().code(), code, "{text}");
    }
    Ok(())
}

#[test]
fn a_fault_leaves_a_prefix(rt: HostRuntime) -> Result<(), Fail> {
    let alloc = rt.alloc();
    for (ended, _, text) in NOTES {
        for place in 0..text.len() {
            let fails = vec![in alloc; place as u64 + 1]?;
            let mut notes = MemSink::new(alloc, 512, fails, 1)?;
            write_note(&ended, &mut notes);
            assert_eq!(rt; notes.bytes(), &text.as_bytes()[..place], "{text}");
        }
    }
    Ok(())
}

// A report's error says of itself what the note says.
#[test]
fn a_note_is_the_error_that_it_tells(rt: HostRuntime) -> Result<(), Fail> {
    let alloc = rt.alloc();
    for (ended, error) in [
        (Ended::WrongReport(7), ReportError::Syntax(7)),
        (Ended::NoMemory, ReportError::NoMemory),
    ] {
        let mut notes = MemSink::new(alloc, 512, Vec::new(alloc), 7)?;
        write_note(&ended, &mut notes);
        let text = format!(in alloc; "treedb: {error}\n")?;
        assert_eq!(rt; notes.bytes(), text.as_bytes());
    }
    Ok(())
}
