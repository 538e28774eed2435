//! Reports of this program's own runs by many workers, changed in one place.
use super::checks::{lines_of, own_run};
use super::{SOUND, run_plain_on};
use run_check::read_report;
use std::alloc::Global;
use std::test::Fail;
use std::thread::Threads;
use tdb_base::{NoGate, Reply, Status};

// The lines that are changed, from 0; the lines from 60 on have vectors that came before.
static CHANGED: [usize; 4] = [0, 59, 60, 198];

// An identifier that no vector has.
const NOBODYS: u64 = u64::MAX;

// The replies of this program's own run by so many workers.
fn own_replies<R: Threads + Sync>(
    rt: &R,
    alloc: Global,
    workers: &str,
) -> Result<Option<Vec<Reply>>, Fail> {
    let mut front = lines_of(alloc)?;
    front.extend_from_slice(b"#\n")?;
    let input = own_run(rt, alloc, workers, "1", "8")?;
    let Some(report) = input.strip_prefix(front.as_slice()) else {
        return Ok(None);
    };
    Ok(read_report(alloc, report, 200).ok())
}

// How many replies are new.
fn count_new(replies: &[Reply]) -> u64 {
    replies.iter().filter(|reply| reply.is_new()).count() as u64
}

// The text line of a reply.
fn line_of(alloc: Global, number: u64, reply: Reply) -> Result<String, Fail> {
    let line = match reply {
        Reply::New(id) => format!(in alloc; "{number},{id},new\n")?,
        Reply::Seen(id) => format!(in alloc; "{number},{id},seen\n")?,
        Reply::FullNodes => format!(in alloc; "{number},,full-nodes\n")?,
        Reply::FullRoots => format!(in alloc; "{number},,full-roots\n")?,
    };
    Ok(line)
}

// How a check of a report with these replies ends, whose summary counts so many as new.
fn ends<R: Threads + Sync>(
    rt: &R,
    alloc: Global,
    workers: &str,
    replies: &[Reply],
    distinct: u64,
) -> Result<Status, Fail> {
    let mut input = lines_of(alloc)?;
    input.extend_from_slice(b"#\n")?;
    for i in 0..replies.len() {
        let line = line_of(alloc, i as u64 + 1, replies[i])?;
        input.extend_from_slice(line.as_bytes())?;
    }
    let summary = format!(in alloc; "lines {}\ndistinct {distinct}\n", replies.len())?;
    input.extend_from_slice(summary.as_bytes())?;
    let words = ["check", "--workers", workers, "--block", "1"];
    let ran = run_plain_on(rt, alloc, &words, input, SOUND, &NoGate)?;
    Ok(ran.status)
}

// The reply with its word turned.
fn turned(reply: Reply) -> Reply {
    match reply {
        Reply::New(id) => Reply::Seen(id),
        Reply::Seen(id) => Reply::New(id),
        other => other,
    }
}

// The reply with this identifier in place of its own.
fn with_id(reply: Reply, id: u64) -> Reply {
    match reply {
        Reply::New(_) => Reply::New(id),
        Reply::Seen(_) => Reply::Seen(id),
        other => other,
    }
}

// These replies with one in place of another.
fn replaced(alloc: Global, replies: &[Reply], i: usize, reply: Reply) -> Result<Vec<Reply>, Fail> {
    let mut all = replies.to_vec(alloc)?;
    if let Some(place) = all.get_mut(i) {
        *place = reply;
    }
    Ok(all)
}

// These replies with a number that nobody has in place of an identifier.
fn renamed(alloc: Global, replies: &[Reply], id: Option<u64>) -> Result<Vec<Reply>, Fail> {
    let mut all = Vec::new(alloc);
    for reply in replies {
        let next = if reply.id() == id {
            with_id(*reply, NOBODYS)
        } else {
            *reply
        };
        all.push(next)?;
    }
    Ok(all)
}

// The ways in which a line is changed do what they should.
fn line_is_judged<R: Threads + Sync>(
    rt: &R,
    alloc: Global,
    workers: &str,
    replies: &[Reply],
    i: usize,
) -> Result<bool, Fail> {
    let (Some(reply), Some(next)) = (replies.get(i), replies.get(i.saturating_add(1))) else {
        return Ok(false);
    };
    let Some(other) = next.id() else {
        return Ok(false);
    };
    let count = count_new(replies);
    let other_word = replaced(alloc, replies, i, turned(*reply))?;
    let other_id = replaced(alloc, replies, i, with_id(*reply, other))?;
    let other_name = renamed(alloc, replies, reply.id())?;
    Ok(
        ends(rt, alloc, workers, &other_word, count)? == Status::BadReport
            && ends(rt, alloc, workers, &other_word, count_new(&other_word))? == Status::Refuted
            && ends(rt, alloc, workers, &other_id, count)? == Status::Refuted
            && ends(rt, alloc, workers, &other_name, count)? == Status::Done,
    )
}

#[test]
fn changed_reports_of_own_runs_are_refuted(rt: HostRuntime) -> Result<(), Fail> {
    let alloc = rt.alloc();
    for workers in ["1", "2", "7", "64"] {
        let replies = own_replies(&rt, alloc, workers)?;
        assert!(rt; replies.is_some());
        if let Some(replies) = replies {
            assert!(rt; ends(&rt, alloc, workers, &replies, 60)? == Status::Done);
            for k in 0..CHANGED.len() {
                assert!(rt; line_is_judged(&rt, alloc, workers, &replies, CHANGED[k])?);
            }
        }
    }
    Ok(())
}
