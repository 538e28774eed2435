//! A report's line of a reply.

ghost use Rattle.std.specs.Prelude.{◌≡◌, ◌++◌, codes, if◌then◌else◌};
ghost use Rattle.std.specs.Fmt.{decimal};
ghost use Rattle.tdb_base.specs.declared.reply.Reply.TheVariants as r;
ghost use Rattle.trace_csv.specs.OneReport.{HasWordId};
ghost use Rattle.trace_csv.specs.Report.{answer, reply_line};
ghost use Rattle.run_check.specs.Reading.{Always, Reads, ReadsWord, one_of};

use crate::word::{Fault, after, after_number, number};
use tdb_base::Reply;

// The reply of the line with this number, at the front of a text, and what follows the line.
pub(crate) fn read_reply_line(text: &[u8], number: u64) -> Result<(Reply, &[u8]), Fault>
    ensures { Reads (reply_line number) HasWordId text.now result }
{
    let text = after_line_number(text, number)?;
    read_answer(text)
}

// What follows a line's number and the comma after it.
fn after_line_number(text: &[u8], number: u64) -> Result<&[u8], Fault>
    ensures { ReadsWord (decimal number ++ codes ",") text.now result }
{
    let text = after_number(text, number)?;
    after(text, b",")
}

// The identifier, if there is one, the word and the line's end.
fn read_answer(text: &[u8]) -> Result<(Reply, &[u8]), Fault>
    ensures { Reads answer HasWordId text.now result }
{
    if text.starts_with(b",") {
        let (nodes, rest) = either(text, b",full-nodes\n", b",full-roots\n")?;
        return Ok((full_reply(nodes), rest));
    }
    let (id, text) = number(text, b',')?;
    let (new, rest) = either(text, b"new\n", b"seen\n")?;
    Ok((named_reply(new, id), rest))
}

// The reply that a table was full.
fn full_reply(nodes: bool) -> Reply
    ensures { result ≡ (if nodes then r.FullNodes else r.FullRoots) }
{
    if nodes {
        Reply::FullNodes
    } else {
        Reply::FullRoots
    }
}

// The reply that gives an identifier.
fn named_reply(new: bool, id: u64) -> Reply
    ensures { result ≡ (if new then r.New id else r.Seen id) }
{
    if new { Reply::New(id) } else { Reply::Seen(id) }
}

// Which of two words stands at the front, and what follows it.
fn either<'a>(text: &'a [u8], first: &[u8], second: &[u8]) -> Result<(bool, &'a [u8]), Fault>
    ensures { Reads (one_of first.now second.now) Always text.now result }
{
    match after(text, first) {
        Ok(rest) => Ok((true, rest)),
        Err(Fault::Short) => Err(Fault::Short),
        Err(Fault::Wrong) => {
            let rest = after(text, second)?;
            Ok((false, rest))
        }
    }
}
