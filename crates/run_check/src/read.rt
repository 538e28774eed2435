//! A report is read back.

ghost use Rattle.std.specs.Prelude.{◌≡◌, ◌≤◌, ◌<◌, ◌+◌, ◌^◌, ◌++◌, ◌∷◌, [], ℕ, List, Err, IfErr, IfOk, IfSome};
ghost use Rattle.std.specs.Prelude.{count_by};
ghost use Rattle.tdb_base.specs.Replies.{is_new};
ghost use Rattle.tdb_base.specs.declared.reply.Reply.{Reply};
ghost use Rattle.trace_csv.specs.OneReport.{HasWordId};
ghost use Rattle.trace_csv.specs.Report.{reply_line};
ghost use Rattle.run_check.specs.Refusal.{GivesKept, GivesReplies, IsFront, ReadsLine, Refuses};
ghost use Rattle.run_check.specs.declared.refusal.ReportError.TheVariants as e;
ghost use Rattle.run_check.specs.Text.{IsReportOf, IsWrongAt};

use crate::refusal::{ReportError, wrong_line};
use crate::reply_line::read_reply_line;
use crate::summary::read_summary;
use std::alloc::Global;
use tdb_base::Reply;

/// The replies of a report of so many lines, at most 2^32.
///
/// `Ok` is the answer exactly where the bytes are such a report, byte for byte: the lines numbered from 1,
/// the summary with the counts of these replies, the three counts of a store or none, all numbers of 64 bits
/// in decimal without leading zeros, and each line with its LF. `Syntax` tells the first text line to whose
/// end the bytes begin no such report, or the number after the last one where all of them do. `NoMemory` may
/// come for the replies of such a report alone, since bytes that are none are judged without memory.
pub fn read_report(alloc: Global, bytes: &[u8], lines: u64) -> Result<Vec<Reply>, ReportError>
    requires few { lines ≤ 2 ^ 32 }
    ensures read { IfOk result (λ replies. IsReportOf lines bytes.now replies.items) }
    ensures refused { IfErr result (Refuses lines bytes.now) }
    ensures whole { (r : List Reply) → IsReportOf lines bytes.now r → GivesReplies (λ v. v.items) result r }
    ensures wrong { (n : ℕ) → IsWrongAt lines bytes.now n → result ≡ Err (e.Syntax n) }
{
    read(alloc, bytes, lines)
}

// The same; that there is one answer follows.
fn read(alloc: Global, bytes: &[u8], lines: u64) -> Result<Vec<Reply>, ReportError>
    requires few { lines ≤ 2 ^ 32 }
    ensures read { IfOk result (λ replies. IsReportOf lines bytes.now replies.items) }
    ensures refused { IfErr result (Refuses lines bytes.now) }
{
    let room = Vec::with_capacity(alloc, lines as usize).ok();
    let (replies, new, summary) = read_replies(room, bytes, lines)?;
    read_summary(summary, lines, new)?;
    kept(replies)
}

// The replies, if there was memory for them.
fn kept(replies: Option<Vec<Reply>>) -> Result<Vec<Reply>, ReportError>
    ensures { GivesKept replies result }
{
    match replies {
        Some(replies) => Ok(replies),
        None => Err(ReportError::NoMemory),
    }
}

// The replies of so many lines, where a list is there for them, how many are new, and what follows them.
fn read_replies(
    room: Option<Vec<Reply>>,
    bytes: &[u8],
    lines: u64,
) -> Result<(Option<Vec<Reply>>, u64, &[u8]), ReportError>
    requires few { lines ≤ 2 ^ 32 }
    requires empty { IfSome room (λ v. v.items ≡ []) }
    ensures read { IfOk result (λ r. IsFront (λ v. v.items) lines bytes.now r.0 r.1 r.2.now) }
    ensures refused { IfErr result (Refuses lines bytes.now) }
{
    let mut replies = room;
    let mut new = 0;
    let mut text = bytes;
    for i in 0..lines {
        let (reply, rest) = next_reply(text, i + 1)?;
        replies = with_reply(replies, reply);
        new = counted(new, reply);
        text = rest;
    }
    Ok((replies, new, text))
}

// The replies with one more, where there are any and memory for it.
fn with_reply(replies: Option<Vec<Reply>>, reply: Reply) -> Option<Vec<Reply>>
    ensures { (old : List Reply) → IfSome replies (λ v. v.items ≡ old)
        → IfSome result (λ v. v.items ≡ old ++ reply ∷ []) }
{
    let mut all = replies?;
    all.push(reply).ok()?;
    Some(all)
}

// The count of new replies with one reply more.
fn counted(new: u64, reply: Reply) -> u64
    requires { new + 1 < 2 ^ 64 }
    ensures { (old : List Reply) → new ≡ count_by is_new old → result ≡ count_by is_new (old ++ reply ∷ []) }
{
    if reply.is_new() { new + 1 } else { new }
}

// The reply of the text line with this number, and what follows the line.
fn next_reply(text: &[u8], line: u64) -> Result<(Reply, &[u8]), ReportError>
    requires { line + 1 < 2 ^ 64 }
    ensures { ReadsLine (reply_line line) HasWordId text.now line result }
{
    match read_reply_line(text, line) {
        Ok(read) => Ok(read),
        Err(fault) => Err(ReportError::Syntax(wrong_line(fault, text, line))),
    }
}
