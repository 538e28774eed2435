//! Whether some history has the replies to a trace's lines, by a search through all lists of calls that the
//! replies tell of: a plain slow function, to try small reports.

ghost use Rattle.std.specs.Prelude.{◌≡◌, ◌<◌, ◌+◌, ◌^◌, ◌↔◌, All, IfOk, IsTrue, OnOk, length, map};
ghost use Rattle.std.specs.List.{range_with_len};
ghost use Rattle.tdb_base.specs.Agrees.{entry_of};
ghost use Rattle.tdb_base.specs.Plain.{FlagsBelow32};
ghost use Rattle.run_check.specs.Search.{AgreesIn, GoesOnIn, IsFit, line_call};
ghost use Rattle.run_check.specs.Sentences.{HasHistory};

use std::alloc::{AllocError, Global};
use tdb_base::plain::agrees::agrees;
use tdb_base::plain::is_legal;
use tdb_base::{Act, Entry, Reply};

// A trace with its replies, and how its lines are dealt out to these callers.
#[derive(Drop)]
struct Dealt<'a> {
    trace: &'a [Vec<u32>],
    replies: &'a [Reply],
    workers: u64,
    block: u64,
    callers: &'a [u64],
}

impl Dealt<'_> {
    // Whether these calls are a history that has the replies.
    fn agrees(&self, history: &[Entry]) -> bool
        requires fit { IsFit self.now }
        requires few { length history.now < 2 ^ 32 }
        requires low { All FlagsBelow32 history.now }
        ensures { IsTrue result ↔ AgreesIn self.now history.now }
    {
        agrees(
            self.trace,
            self.replies,
            self.workers,
            self.block,
            &[],
            history,
            self.callers,
            0,
        )
    }

    // The call that the reply to a line tells of, if it tells of one.
    fn call(&self, alloc: Global, i: usize) -> Result<Option<Entry>, AllocError>
        requires fit { IsFit self.now }
        requires within { i < length self.now.trace.now }
        ensures { IfOk result (λ call. call ≡ line_call self.now i) }
    {
        let caller = i as u64 / self.block % self.workers;
        call_of(alloc, caller, &self.trace[i], self.replies[i])
    }

    // Whether so many calls at most make a history of these that has the replies. They are as they were then.
    fn goes_on(
        &self,
        alloc: Global,
        history: &mut Vec<Entry>,
        left: usize,
    ) -> Result<bool, AllocError>
        requires fit { IsFit self.now }
        requires few { length history.old.items + left < 2 ^ 32 }
        requires low { All FlagsBelow32 history.old.items }
        ensures kept { OnOk result (history.new.items ≡ history.old.items) }
        ensures found { IfOk result (λ found. IsTrue found ↔ GoesOnIn self.now history.old.items left) }
    {
        if self.agrees(history) {
            return Ok(true);
        }
        if left == 0 {
            return Ok(false);
        }
        if !is_legal(history, 0) {
            return Ok(false);
        }
        for i in 0..self.trace.len() {
            let Some(call) = self.call(alloc, i)? else {
                continue;
            };
            history.push(call)?;
            let found = self.goes_on(alloc, history, left - 1)?;
            history.pop();
            if found {
                return Ok(true);
            }
        }
        Ok(false)
    }
}

// The call of a caller that the reply to a vector tells of, if it tells of one.
fn call_of(
    alloc: Global,
    caller: u64,
    vector: &[u32],
    reply: Reply,
) -> Result<Option<Entry>, AllocError>
    ensures { IfOk result (λ call. call ≡ entry_of caller vector.now reply) }
{
    let (fresh, id) = match reply {
        Reply::New(id) => (true, id),
        Reply::Seen(id) => (false, id),
        Reply::FullNodes | Reply::FullRoots => return Ok(None),
    };
    let own = vector.to_vec(alloc)?;
    Ok(Some(Entry::new(caller, Act::Put(fresh), own, id)))
}

// The numbers below a count.
fn numbers(alloc: Global, count: u64) -> Result<Vec<u64>, AllocError>
    ensures { IfOk result (λ v. v.items ≡ range_with_len 0 count) }
{
    let mut all = Vec::new(alloc);
    for number in 0..count {
        all.push(number)?;
    }
    Ok(all)
}

/// Whether some history has the replies to a trace's lines, dealt out in blocks of `block` lines to so many
/// workers: all lists of calls that the replies tell of are tried, so a few lines are the most.
pub fn has_history(
    alloc: Global,
    trace: &[Vec<u32>],
    replies: &[Reply],
    workers: u64,
    block: u64,
) -> Result<bool, AllocError>
    requires one_each { length replies.now ≡ length trace.now }
    requires few { length trace.now < 2 ^ 32 }
    requires some { 0 < workers }
    requires block { 0 < block }
    ensures { IfOk result (λ found.
        IsTrue found ↔ HasHistory 0 (map (λ v. v.items) trace.now) replies.now workers block) }
{
    let callers = numbers(alloc, workers)?;
    let dealt = Dealt {
        trace,
        replies,
        workers,
        block,
        callers: &callers,
    };
    let mut history = Vec::new(alloc);
    dealt.goes_on(alloc, &mut history, trace.len())
}
