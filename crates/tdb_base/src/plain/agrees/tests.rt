//! Agreement on small runs, which were worked out by hand.

use super::{agrees, agrees_among_others};
use crate::plain::tests::{A, B, C, Call, FRESH, SEEN, history, vectors};
use crate::tests::all_right;
use crate::{Act, Reply};
use std::alloc::{AllocError, Global};
use std::process::Abort;
use std::test::Fail;

#[derive(Clone, Copy)]
struct Run {
    trace: &'static [&'static [u32]],
    replies: &'static [Reply],
    workers: u64,
    block: u64,
    earlier: &'static [Call],
    later: &'static [Call],
    callers: &'static [u64],
    flag_count: u32,
}

// Two workers: one has the lines 0, 1 and 4, the other 2 and 3.
const GOOD: Run = Run {
    trace: &[A, B, B, C, A],
    replies: &[
        Reply::New(10),
        Reply::Seen(20),
        Reply::Seen(20),
        Reply::FullRoots,
        Reply::Seen(10),
    ],
    workers: 2,
    block: 2,
    earlier: &[(5, FRESH, B, 20), (5, Act::Set(0, true), B, 20)],
    later: &[
        (5, FRESH, B, 20),
        (5, Act::Set(0, true), B, 20),
        (7, FRESH, A, 10),
        (8, SEEN, B, 20),
        (7, SEEN, B, 20),
        (7, SEEN, A, 10),
    ],
    callers: &[7, 8],
    flag_count: 1,
};

// One worker, who put a vector.
const SMALL: Run = Run {
    trace: &[A],
    replies: &[Reply::New(10)],
    workers: 1,
    block: 1,
    earlier: &[],
    later: &[(7, FRESH, A, 10)],
    callers: &[7],
    flag_count: 0,
};

// No line, and two workers.
const IDLE: Run = Run {
    trace: &[],
    replies: &[],
    workers: 2,
    block: 1,
    earlier: &[],
    later: &[],
    callers: &[7, 8],
    flag_count: 0,
};

// Whether the run agrees, and whether it does where others may have called too.
fn is_agreed(rt: &impl Abort, alloc: Global, run: Run) -> Result<(bool, bool), AllocError> {
    assert!(rt; run.workers > 0 && run.block > 0);
    let trace = vectors(alloc, run.trace)?;
    let earlier = history(rt, alloc, run.earlier)?;
    let later = history(rt, alloc, run.later)?;
    let whole = agrees(
        &trace,
        run.replies,
        run.workers,
        run.block,
        &earlier,
        &later,
        run.callers,
        run.flag_count,
    );
    let among = agrees_among_others(
        &trace,
        run.replies,
        run.workers,
        run.block,
        &earlier,
        &later,
        run.callers,
        run.flag_count,
    );
    Ok((whole, among))
}

static AGREE: [Run; 7] = [
    GOOD,
    SMALL,
    IDLE,
    // the calls of the two workers, another way between one another
    Run {
        later: &[
            (5, FRESH, B, 20),
            (5, Act::Set(0, true), B, 20),
            (8, SEEN, B, 20),
            (7, FRESH, A, 10),
            (7, SEEN, B, 20),
            (7, SEEN, A, 10),
        ],
        ..GOOD
    },
    // the full line was full of nodes
    Run {
        replies: &[
            Reply::New(10),
            Reply::Seen(20),
            Reply::Seen(20),
            Reply::FullNodes,
            Reply::Seen(10),
        ],
        ..GOOD
    },
    // who called earlier may go on under another number
    Run {
        replies: &[Reply::Seen(10)],
        earlier: &[(6, FRESH, A, 10)],
        later: &[(6, FRESH, A, 10), (7, SEEN, A, 10)],
        ..SMALL
    },
    // nothing was named
    Run {
        replies: &[Reply::FullNodes],
        later: &[],
        ..SMALL
    },
];

// Somebody else called after the earlier history: after the worker, before it, and between two workers.
static WITH_OTHERS: [Run; 3] = [
    Run {
        later: &[(7, FRESH, A, 10), (9, SEEN, A, 10)],
        ..SMALL
    },
    Run {
        replies: &[Reply::Seen(10)],
        later: &[(9, FRESH, A, 10), (7, SEEN, A, 10)],
        ..SMALL
    },
    Run {
        later: &[
            (5, FRESH, B, 20),
            (5, Act::Set(0, true), B, 20),
            (7, FRESH, A, 10),
            (5, Act::Set(0, false), B, 20),
            (8, SEEN, B, 20),
            (7, SEEN, B, 20),
            (7, SEEN, A, 10),
        ],
        ..GOOD
    },
];

static OTHER_LINES: [Run; 11] = [
    // a reply too few, and one too many
    Run {
        replies: &[
            Reply::New(10),
            Reply::Seen(20),
            Reply::Seen(20),
            Reply::FullRoots,
        ],
        ..GOOD
    },
    Run {
        trace: &[],
        ..SMALL
    },
    Run {
        trace: &[C],
        replies: &[Reply::FullRoots, Reply::FullRoots],
        later: &[],
        ..SMALL
    },
    // a line seen before is told as new, and a new one as seen before
    Run {
        replies: &[
            Reply::New(10),
            Reply::New(20),
            Reply::Seen(20),
            Reply::FullRoots,
            Reply::Seen(10),
        ],
        ..GOOD
    },
    Run {
        replies: &[Reply::Seen(10)],
        ..SMALL
    },
    // another identifier, another vector
    Run {
        replies: &[Reply::New(11)],
        ..SMALL
    },
    Run {
        trace: &[B],
        ..SMALL
    },
    // a full line whose vector has a name, and a line told as full that has an entry
    Run {
        trace: &[A, B, B, A, A],
        ..GOOD
    },
    Run {
        replies: &[Reply::FullNodes],
        ..SMALL
    },
    // dealt out in other blocks, and to other workers
    Run { block: 3, ..GOOD },
    Run {
        callers: &[8, 7],
        ..GOOD
    },
];

static OTHER_HISTORY: [Run; 12] = [
    // callers: one too few, one too many, equal, one with an earlier call
    Run {
        callers: &[7],
        ..IDLE
    },
    Run {
        callers: &[7, 8, 9],
        ..IDLE
    },
    Run {
        callers: &[7, 7],
        ..IDLE
    },
    Run {
        earlier: &[(7, FRESH, A, 10)],
        ..SMALL
    },
    // a call told by no line, one missing, and two in the wrong order
    Run {
        later: &[(7, FRESH, A, 10), (7, SEEN, A, 10)],
        ..SMALL
    },
    Run {
        later: &[],
        ..SMALL
    },
    Run {
        later: &[
            (5, FRESH, B, 20),
            (5, Act::Set(0, true), B, 20),
            (7, FRESH, A, 10),
            (8, SEEN, B, 20),
            (7, SEEN, A, 10),
            (7, SEEN, B, 20),
        ],
        ..GOOD
    },
    // a later history that does not begin with the earlier one, or is shorter
    Run {
        earlier: &[(5, FRESH, B, 20), (5, Act::Set(0, false), B, 20)],
        ..GOOD
    },
    Run {
        earlier: &[(5, FRESH, B, 20), (6, Act::Set(0, true), B, 20)],
        ..GOOD
    },
    Run {
        earlier: &[(5, FRESH, B, 20)],
        ..IDLE
    },
    // an illegal one: a flag too high, and an identifier given twice
    Run {
        flag_count: 0,
        ..GOOD
    },
    Run {
        trace: &[A, B],
        replies: &[Reply::New(10), Reply::New(10)],
        later: &[(7, FRESH, A, 10), (7, FRESH, B, 10)],
        ..SMALL
    },
];

// The first run that is answered otherwise.
fn try_runs(
    rt: &impl Abort,
    alloc: Global,
    runs: &'static [Run],
    whole: bool,
    among: bool,
) -> Result<Option<usize>, AllocError> {
    for i in 0..runs.len() {
        let (is_whole, is_among) = is_agreed(rt, alloc, runs[i])?;
        if is_whole != whole || is_among != among {
            return Ok(Some(i));
        }
    }
    Ok(None)
}

#[test]
fn runs_agree_or_differ(rt: HostRuntime) -> Result<(), Fail> {
    let alloc = rt.alloc();
    all_right(&rt, try_runs(&rt, alloc, &AGREE, true, true)?);
    all_right(&rt, try_runs(&rt, alloc, &WITH_OTHERS, false, true)?);
    all_right(&rt, try_runs(&rt, alloc, &OTHER_LINES, false, false)?);
    all_right(&rt, try_runs(&rt, alloc, &OTHER_HISTORY, false, false)?);
    Ok(())
}
