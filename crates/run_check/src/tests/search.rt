//! Every report of at most four lines over two vectors and two identifiers, by one or two workers, against the
//! plain slow verdict, line and all, and against a search through all lists of calls.

use crate::plain::search::has_history;
use crate::{Verdict, check, plain};
use std::alloc::{AllocError, Global};
use std::process::Abort;
use std::test::Fail;
use tdb_base::Reply;
use trace_csv::{Trace, read_trace};

// The most lines of a report.
const MOST: usize = 4;

// What a line may be answered.
static REPLIES: [Reply; 6] = [
    Reply::New(7),
    Reply::New(9),
    Reply::Seen(7),
    Reply::Seen(9),
    Reply::FullNodes,
    Reply::FullRoots,
];

// The lines of a report: which of the two vectors each has, and its reply.
#[derive(Clone, Copy)]
struct Lines {
    count: usize,
    vectors: [usize; MOST],
    replies: [Reply; MOST],
}

// The trace of some lines.
fn trace_of(alloc: Global, lines: &Lines) -> Result<Option<Trace>, AllocError> {
    let mut text = Vec::new(alloc);
    for i in 0..MOST {
        if i < lines.count {
            let line: &[u8] = if lines.vectors[i] == 0 {
                b"1,2\n"
            } else {
                b"2,1\n"
            };
            text.extend_from_slice(line)?;
        }
    }
    Ok(read_trace(alloc, &text, 28).ok())
}

// The vectors of some lines.
fn vectors_of(alloc: Global, lines: &Lines) -> Result<Vec<Vec<u32>>, AllocError> {
    let mut vectors = Vec::new(alloc);
    for i in 0..MOST {
        if i < lines.count {
            let first = if lines.vectors[i] == 0 { 1 } else { 2 };
            vectors.push(vec![in alloc; first, 3 - first]?)?;
        }
    }
    Ok(vectors)
}

// Tries all cuttings of some lines.
fn try_cuttings(rt: &impl Abort, alloc: Global, lines: &Lines) -> Result<(), Fail> {
    assert!(rt; lines.count <= MOST);
    let trace = trace_of(alloc, lines)?;
    assert!(rt; trace.is_some());
    let Some(trace) = trace else {
        return Ok(());
    };
    let (replies, _) = lines.replies.split_at(lines.count);
    assert!(rt; replies.len() as u64 == trace.len());
    let vectors = vectors_of(alloc, lines)?;
    assert!(rt; vectors.len() == replies.len());
    for block in 1..MOST as u64 + 1 {
        let verdict = check(alloc, &trace, replies, 2, block);
        let wanted = plain::verdict(alloc, &trace, replies, 2, block)?;
        assert!(rt; verdict == Ok(wanted));
        let found = has_history(alloc, &vectors, replies, 2, block)?;
        assert!(rt; (wanted == Verdict::Yes) == found);
    }
    Ok(())
}

// The lines that a number below 12^4 stands for, a digit a line.
fn lines_of(count: usize, number: usize) -> Lines {
    let mut lines = Lines {
        count,
        vectors: [0; MOST],
        replies: [Reply::FullNodes; MOST],
    };
    let mut rest = number;
    for i in 0..MOST {
        lines.vectors[i] = rest % 2;
        lines.replies[i] = REPLIES[rest / 2 % 6];
        rest /= 12;
    }
    lines
}

#[test]
fn small_reports_are_judged(rt: HostRuntime) -> Result<(), Fail> {
    for (count, numbers) in [(1, 12), (2, 144), (3, 1728), (4, 20736)] {
        for number in 0..numbers {
            try_cuttings(&rt, rt.alloc(), &lines_of(count, number))?;
        }
    }
    Ok(())
}
