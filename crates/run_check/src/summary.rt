//! A report's summary.

ghost use Rattle.std.specs.Prelude.{◌≤◌, ◌<◌, ◌+◌, ◌^◌, IfErr, OnOk};
ghost use Rattle.trace_csv.specs.Report.{named_line};
ghost use Rattle.run_check.specs.Reading.{IsReplyWord, Reads, ReadsWord};
ghost use Rattle.run_check.specs.Refusal.{ReadsFixed, ReadsLine, RefusesAfter};
ghost use Rattle.run_check.specs.Text.{IsSummary};

use crate::refusal::{ReportError, wrong_line};
use crate::word::{Fault, after, after_number, number};

// The summary of so many lines, of which so many are new, and nothing after it.
pub(crate) fn read_summary(text: &[u8], lines: u64, distinct: u64) -> Result<(), ReportError>
    requires few { lines ≤ 2 ^ 32 }
    requires fewer { distinct ≤ lines }
    ensures read { OnOk result (IsSummary lines distinct text.now) }
    ensures wrong { IfErr result (RefusesAfter lines distinct text.now) }
{
    let counts = read_fixed(text, b"lines ", lines, lines + 1)?;
    let stats = read_fixed(counts, b"distinct ", distinct, lines + 2)?;
    if stats.is_empty() {
        return Ok(());
    }
    let (_, stored) = read_count(stats, b"nodes ", lines + 3)?;
    let (_, raw) = read_count(stored, b"stored ", lines + 4)?;
    let (_, end) = read_count(raw, b"raw ", lines + 5)?;
    if end.is_empty() {
        return Ok(());
    }
    Err(ReportError::Syntax(lines + 6))
}

// What follows the text line with this number, which has a name and this count.
fn read_fixed<'a>(
    text: &'a [u8],
    name: &[u8],
    count: u64,
    line: u64,
) -> Result<&'a [u8], ReportError>
    requires { line + 1 < 2 ^ 64 }
    ensures { ReadsFixed (named_line name.now count) text.now line result }
{
    match after_count(text, name, count) {
        Ok(rest) => Ok(rest),
        Err(fault) => Err(ReportError::Syntax(wrong_line(fault, text, line))),
    }
}

// The count of the text line with this number, which has a name, and what follows the line.
fn read_count<'a>(text: &'a [u8], name: &[u8], line: u64) -> Result<(u64, &'a [u8]), ReportError>
    requires { line + 1 < 2 ^ 64 }
    ensures { ReadsLine (named_line name.now) IsReplyWord text.now line result }
{
    match any_count(text, name) {
        Ok(read) => Ok(read),
        Err(fault) => Err(ReportError::Syntax(wrong_line(fault, text, line))),
    }
}

// What follows a line of a name and this count.
fn after_count<'a>(text: &'a [u8], name: &[u8], count: u64) -> Result<&'a [u8], Fault>
    ensures { ReadsWord (named_line name.now count) text.now result }
{
    let named = after(text, name)?;
    let end = after_number(named, count)?;
    after(end, b"\n")
}

// The count of a line with a name, and what follows the line.
fn any_count<'a>(text: &'a [u8], name: &[u8]) -> Result<(u64, &'a [u8]), Fault>
    ensures { Reads (named_line name.now) IsReplyWord text.now result }
{
    let named = after(text, name)?;
    number(named, b'\n')
}
