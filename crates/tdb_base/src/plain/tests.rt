//! The definitions on small cases, whose answers were worked out by hand.

ghost use Rattle.std.specs.Prelude.{◌^◌, ◌<◌, ◌↔◌, All, IfOk, IsTrue, length};
ghost use Rattle.tdb_base.specs.Acts.{act_of};
ghost use Rattle.tdb_base.specs.Plain.{BitBelow32, FlagsBelow32};

use super::{distinct_count, flags_of, is_legal, mine, name_of};
use crate::tests::all_right;
use crate::{Act, Entry};
use std::alloc::{AllocError, Global};
use std::process::Abort;
use std::test::Fail;

pub type Call = (u64, Act, &'static [u32], u64);

pub const FRESH: Act = Act::Put(true);

pub const SEEN: Act = Act::Put(false);

pub const A: &[u32] = &[5, 6];

pub const B: &[u32] = &[6, 5];

pub const C: &[u32] = &[5];

// Whether the act names no flag from 32 on.
fn is_low(act: Act) -> bool
    ensures { IsTrue result ↔ BitBelow32 (act_of act) }
{
    match act {
        Act::Set(bit, _) | Act::Clear(bit, _) => bit < 32,
        _ => true,
    }
}

// The calls as entries.
pub fn history(rt: &impl Abort, alloc: Global, calls: &[Call]) -> Result<Vec<Entry>, AllocError>
    ensures few { IfOk result (λ v. length v.items < 2 ^ 32) }
    ensures low { IfOk result (λ v. All FlagsBelow32 v.items) }
{
    assert!(rt; calls.len() < 100);
    let mut entries = Vec::new(alloc);
    for i in 0..calls.len() {
        let (caller, act, vector, id) = calls[i];
        assert!(rt; is_low(act));
        entries.push(Entry::new(caller, act, vector.to_vec(alloc)?, id))?;
    }
    Ok(entries)
}

// The vectors, each in memory of its own.
pub fn vectors(alloc: Global, slots: &[&[u32]]) -> Result<Vec<Vec<u32>>, AllocError> {
    let mut copies = Vec::new(alloc);
    for i in 0..slots.len() {
        copies.push(slots[i].to_vec(alloc)?)?;
    }
    Ok(copies)
}

// A call that names a vector, one for another vector, and one that sets a flag.
const PUT_A: Call = (1, FRESH, A, 10);

const PUT_B: Call = (2, FRESH, B, 20);

const SET: Call = (1, Act::Set(3, true), A, 10);

// Calls, a vector, and its name and its flags after them.
type Named = (&'static [Call], &'static [u32], Option<u64>, Option<u64>);

static NAMES: [Named; 14] = [
    (&[], A, None, None),
    (&[PUT_A], A, Some(10), Some(0)),
    (&[PUT_A], B, None, None),
    (&[(1, SEEN, A, 10)], A, None, None),
    (&[SET], A, None, None),
    (&[PUT_A, (1, SEEN, A, 99)], A, Some(10), Some(0)),
    (&[PUT_A, SET], A, Some(10), Some(8)),
    (&[PUT_A, SET, SET], A, Some(10), Some(8)),
    (
        &[
            PUT_A,
            SET,
            (2, Act::Set(0, true), A, 10),
            (2, Act::Clear(3, true), A, 10),
        ],
        A,
        Some(10),
        Some(1),
    ),
    (
        &[PUT_A, (1, Act::Clear(2, true), A, 10)],
        A,
        Some(10),
        Some(0),
    ),
    (
        &[PUT_A, SET, (1, Act::Look(77), A, 10)],
        A,
        Some(10),
        Some(8),
    ),
    (&[PUT_A, SET, (2, FRESH, A, 11)], A, Some(11), Some(0)),
    (
        &[PUT_A, PUT_B, (1, Act::Set(1, true), B, 20)],
        A,
        Some(10),
        Some(0),
    ),
    (
        &[PUT_A, PUT_B, (1, Act::Set(1, true), B, 20)],
        B,
        Some(20),
        Some(2),
    ),
];

// The first case that has another name or other flags.
fn tell_names(
    rt: &impl Abort,
    alloc: Global,
    cases: &'static [Named],
) -> Result<Option<usize>, AllocError> {
    for i in 0..cases.len() {
        let (calls, vector, name, flags) = cases[i];
        let entries = history(rt, alloc, calls)?;
        if name_of(&entries, vector) != name || flags_of(&entries, vector) != flags {
            return Ok(Some(i));
        }
    }
    Ok(None)
}

// Histories of vectors with four flags.
static LEGAL: [&[Call]; 7] = [
    &[],
    &[PUT_A],
    &[PUT_A, (2, SEEN, A, 10)],
    &[
        PUT_A,
        PUT_B,
        (1, SEEN, B, 20),
        (2, SEEN, A, 10),
        (1, SEEN, A, 10),
    ],
    &[
        PUT_A,
        SET,
        (2, Act::Set(3, false), A, 10),
        (1, Act::Look(8), A, 10),
    ],
    &[
        PUT_A,
        SET,
        (2, Act::Clear(3, true), A, 10),
        (1, Act::Clear(3, false), A, 10),
        (1, Act::Look(0), A, 10),
    ],
    &[PUT_A, PUT_B, SET, (2, Act::Look(0), B, 20)],
];

static ILLEGAL: [&[Call]; 16] = [
    // a vector named twice, and an identifier given twice
    &[PUT_A, (1, FRESH, A, 11)],
    &[PUT_A, PUT_A],
    &[PUT_A, (1, FRESH, B, 10)],
    // no name yet, and another's name
    &[(1, SEEN, A, 10)],
    &[(1, SEEN, A, 10), PUT_A],
    &[SET],
    &[PUT_A, PUT_B, (1, SEEN, A, 20)],
    &[PUT_A, PUT_B, (1, Act::Look(0), A, 20)],
    // whether the flag changed is told wrongly
    &[PUT_A, (1, Act::Set(3, false), A, 10)],
    &[PUT_A, SET, SET],
    &[PUT_A, (1, Act::Clear(3, true), A, 10)],
    &[PUT_A, SET, (1, Act::Clear(3, false), A, 10)],
    // a fifth flag
    &[PUT_A, (1, Act::Set(4, true), A, 10)],
    &[PUT_A, (1, Act::Clear(4, false), A, 10)],
    // the flags are told wrongly
    &[PUT_A, SET, (1, Act::Look(0), A, 10)],
    &[PUT_A, PUT_B, SET, (2, Act::Look(8), B, 20)],
];

// The first history that isn't as it should be.
fn try_legal(
    rt: &impl Abort,
    alloc: Global,
    cases: &'static [&'static [Call]],
    legal: bool,
) -> Result<Option<usize>, AllocError> {
    for i in 0..cases.len() {
        let entries = history(rt, alloc, cases[i])?;
        if is_legal(&entries, 4) != legal {
            return Ok(Some(i));
        }
    }
    Ok(None)
}

// Vectors, and how many different ones there are.
static COUNTS: [(&[&[u32]], usize); 6] = [
    (&[], 0),
    (&[A], 1),
    (&[A, A], 1),
    (&[A, B, A, B], 2),
    (&[A, B, C, A], 3),
    (&[&[], &[]], 1),
];

// Lines, workers, the lines of a block, a worker, and its lines.
type Dealt = (u64, u64, u64, u64, &'static [u64]);

static DEALT: [Dealt; 7] = [
    (7, 2, 2, 1, &[2, 3, 6]),
    (7, 2, 2, 0, &[0, 1, 4, 5]),
    (7, 2, 2, 2, &[]),
    (4, 1, 3, 0, &[0, 1, 2, 3]),
    (4, 2, 9, 1, &[]),
    (5, 3, 1, 1, &[1, 4]),
    (0, 1, 1, 0, &[]),
];

// The first case that has another count.
fn count_lines(
    alloc: Global,
    cases: &'static [(&'static [&'static [u32]], usize)],
) -> Result<Option<usize>, AllocError> {
    for i in 0..cases.len() {
        let (slots, count) = cases[i];
        if distinct_count(&vectors(alloc, slots)?) != count {
            return Ok(Some(i));
        }
    }
    Ok(None)
}

// The first case whose worker has other lines.
fn deal_lines(alloc: Global, cases: &'static [Dealt]) -> Result<Option<usize>, AllocError> {
    for i in 0..cases.len() {
        let (lines, workers, block, worker, numbers) = cases[i];
        if workers < 1 || block < 1 {
            return Ok(Some(i));
        }
        let own = mine(alloc, lines, workers, block, worker)?;
        if own.as_slice() != numbers {
            return Ok(Some(i));
        }
    }
    Ok(None)
}

#[test]
fn small_cases(rt: HostRuntime) -> Result<(), Fail> {
    let alloc = rt.alloc();
    all_right(&rt, tell_names(&rt, alloc, &NAMES)?);
    all_right(&rt, try_legal(&rt, alloc, &LEGAL, true)?);
    all_right(&rt, try_legal(&rt, alloc, &ILLEGAL, false)?);
    all_right(&rt, count_lines(alloc, &COUNTS)?);
    all_right(&rt, deal_lines(alloc, &DEALT)?);
    Ok(())
}
