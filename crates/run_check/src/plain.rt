//! The sentences of the verdicts as plain slow functions, to try the checker on small cases.

ghost use Rattle.std.specs.Prelude.{◌≡◌, ◌<◌, ◌+◌, ◌^◌, ◌↔◌, ◌||◌, ℕ, false};
ghost use Rattle.std.specs.Prelude.{IfOk, IfSome, IsTrue, MatchOption, get_or, length};
ghost use Rattle.tdb_base.specs.declared.reply.Reply.TheVariants as r;
ghost use Rattle.run_check.specs.Claim.{HasNext, IsFirst};
ghost use Rattle.run_check.specs.Plain.{AreReached, HasMark, IsToMark, NewHasMark};
ghost use Rattle.run_check.specs.Reached.{Line, owner};
ghost use Rattle.run_check.specs.Sentences.{IsFirstTwice, IsFullNamed, IsLone, IsSecond};
ghost use Rattle.run_check.specs.Sentences.{IsTwice, IsVerdict, IsYesWhereHistory, NoTwice};

pub mod search;

use crate::verdict::Verdict;
use std::alloc::{AllocError, Global};
use tdb_base::Reply;
use trace_csv::Trace;

/// The verdict on the replies to a trace's lines, dealt out in blocks of `block` lines to so many workers:
/// each sentence is tried on each line. There is a worker, and a block has a line.
pub fn verdict(
    alloc: Global,
    trace: &Trace,
    replies: &[Reply],
    workers: u64,
    block: u64,
) -> Result<Verdict, AllocError>
    requires one_each { length replies.now ≡ length trace.now }
    requires some { 0 < workers }
    requires block { 0 < block }
    ensures sentence { IfOk result (IsVerdict trace.now replies.now workers block) }
    ensures yes { IfOk result (IsYesWhereHistory trace.now replies.now workers block) }
{
    judged(alloc, trace, replies, workers, block)
}

// The same, with the sentence alone.
fn judged(
    alloc: Global,
    trace: &Trace,
    replies: &[Reply],
    workers: u64,
    block: u64,
) -> Result<Verdict, AllocError>
    requires one_each { length replies.now ≡ length trace.now }
    requires some { 0 < workers }
    requires block { 0 < block }
    ensures { IfOk result (IsVerdict trace.now replies.now workers block) }
{
    if let Some((first, second)) = first_twice(trace, replies) {
        return Ok(Verdict::Twice(first + 1, second + 1));
    }
    if let Some(i) = first_lone(trace, replies) {
        return Ok(Verdict::Lone(i + 1));
    }
    if let Some(i) = first_full_named(trace, replies) {
        return Ok(Verdict::FullNamed(i + 1));
    }
    let marks = reached_lines(alloc, trace, replies, workers, block)?;
    if let Some(i) = first_unmarked(&marks) {
        return Ok(Verdict::Stuck(i + 1));
    }
    Ok(Verdict::Yes)
}

/// The lines that are reached: each has a mark. There is a worker, and a block has a line.
pub fn reached_lines(
    alloc: Global,
    trace: &Trace,
    replies: &[Reply],
    workers: u64,
    block: u64,
) -> Result<Vec<bool>, AllocError>
    requires one_each { length replies.now ≡ length trace.now }
    requires some { 0 < workers }
    requires block { 0 < block }
    ensures { IfOk result (λ marks. AreReached trace.now replies.now workers block marks.items) }
{
    let mut marks = vec![in alloc; false; trace.len() as usize]?;
    while let Some(i) = next_reached(trace, replies, workers, block, &marks) {
        marks[i as usize] = true;
    }
    Ok(marks)
}

// The first two lines that go together, from 0.
fn first_twice(trace: &Trace, replies: &[Reply]) -> Option<(u64, u64)>
    requires one_each { length replies.now ≡ length trace.now }
    ensures few { IfSome result (λ p. (p.0 + 1 < 2 ^ 64) × (p.1 + 1 < 2 ^ 64)) }
    ensures first { MatchOption result (NoTwice trace.now replies.now)
        (λ p. IsFirstTwice trace.now replies.now p.0 p.1) }
{
    for second in 0..trace.len() {
        if let Some(first) = partner(trace, replies, second) {
            return Some((first, second));
        }
    }
    None
}

// The first line that goes with a later one.
fn partner(trace: &Trace, replies: &[Reply], second: u64) -> Option<u64>
    requires one_each { length replies.now ≡ length trace.now }
    requires within { second < length trace.now }
    ensures few { IfSome result (λ first. first < second) }
    ensures first { IsFirst result (IsTwice trace.now replies.now second) }
{
    for first in 0..second {
        if is_twice(trace, replies, first, second) {
            return Some(first);
        }
    }
    None
}

// Whether both lines are answered new, with equal vectors or equal identifiers.
fn is_twice(trace: &Trace, replies: &[Reply], first: u64, second: u64) -> bool
    requires one_each { length replies.now ≡ length trace.now }
    requires before { first < second }
    requires within { second < length trace.now }
    ensures { IsTrue result ↔ IsTwice trace.now replies.now second first }
{
    let Reply::New(id) = replies[first as usize] else {
        return false;
    };
    let Reply::New(next) = replies[second as usize] else {
        return false;
    };
    either(trace.line(first) == trace.line(second), id == next)
}

// Whether one of the two holds.
fn either(a: bool, b: bool) -> bool
    ensures { result ≡ (a || b) }
{
    a || b
}

// The first lone line, from 0.
fn first_lone(trace: &Trace, replies: &[Reply]) -> Option<u64>
    requires one_each { length replies.now ≡ length trace.now }
    ensures few { HasNext result }
    ensures first { IsFirst result (IsLone trace.now replies.now) }
{
    for i in 0..trace.len() {
        if is_lone(trace, replies, i) {
            return Some(i);
        }
    }
    None
}

// Whether the line is answered seen, and none with its vector is answered new with its identifier.
fn is_lone(trace: &Trace, replies: &[Reply], i: u64) -> bool
    requires one_each { length replies.now ≡ length trace.now }
    requires within { i < length trace.now }
    ensures { IsTrue result ↔ IsLone trace.now replies.now i }
{
    let Reply::Seen(id) = replies[i as usize] else {
        return false;
    };
    for k in 0..trace.len() {
        if is_named(trace, replies, k, trace.line(i), id) {
            return false;
        }
    }
    true
}

// Whether the line has this vector and is answered new with this identifier.
fn is_named(trace: &Trace, replies: &[Reply], k: u64, vector: &[u32], id: u64) -> bool
    requires one_each { length replies.now ≡ length trace.now }
    requires within { k < length trace.now }
    ensures { IsTrue result ↔ Line trace.now replies.now k vector.now (r.New id) }
{
    let Reply::New(other) = replies[k as usize] else {
        return false;
    };
    if other != id {
        return false;
    }
    trace.line(k) == vector
}

// The first line that is full and named, from 0.
fn first_full_named(trace: &Trace, replies: &[Reply]) -> Option<u64>
    requires one_each { length replies.now ≡ length trace.now }
    ensures few { HasNext result }
    ensures first { IsFirst result (IsFullNamed trace.now replies.now) }
{
    for i in 0..trace.len() {
        if is_full_named(trace, replies, i) {
            return Some(i);
        }
    }
    None
}

// Whether the line is answered full, and its vector new.
fn is_full_named(trace: &Trace, replies: &[Reply], i: u64) -> bool
    requires one_each { length replies.now ≡ length trace.now }
    requires within { i < length trace.now }
    ensures { IsTrue result ↔ IsFullNamed trace.now replies.now i }
{
    if !replies[i as usize].is_full() {
        return false;
    }
    for k in 0..trace.len() {
        if is_new_of(trace, replies, k, trace.line(i)) {
            return true;
        }
    }
    false
}

// Whether the line has this vector and is answered new.
fn is_new_of(trace: &Trace, replies: &[Reply], k: u64, vector: &[u32]) -> bool
    requires one_each { length replies.now ≡ length trace.now }
    requires within { k < length trace.now }
    ensures { IsTrue result ↔ ((id : ℕ) × Line trace.now replies.now k vector.now (r.New id)) }
{
    let Reply::New(_) = replies[k as usize] else {
        return false;
    };
    trace.line(k) == vector
}

// The first line that has no mark though it may have one, from 0.
fn next_reached(
    trace: &Trace,
    replies: &[Reply],
    workers: u64,
    block: u64,
    marks: &[bool],
) -> Option<u64>
    requires one_each { length replies.now ≡ length trace.now }
    requires some { 0 < workers }
    requires block { 0 < block }
    requires count { length marks.now ≡ length trace.now }
    ensures within { IfSome result (λ i. i < length trace.now) }
    ensures next { MatchOption result
        ((i : ℕ) → i < length trace.now → IsToMark trace.now replies.now workers block marks.now i → ⊥)
        (IsToMark trace.now replies.now workers block marks.now) }
{
    for i in 0..trace.len() {
        if is_to_mark(trace, replies, workers, block, marks, i) {
            return Some(i);
        }
    }
    None
}

// Whether the line has no mark and may have one.
fn is_to_mark(
    trace: &Trace,
    replies: &[Reply],
    workers: u64,
    block: u64,
    marks: &[bool],
    i: u64,
) -> bool
    requires one_each { length replies.now ≡ length trace.now }
    requires some { 0 < workers }
    requires block { 0 < block }
    requires count { length marks.now ≡ length trace.now }
    requires within { i < length trace.now }
    ensures { IsTrue result ↔ IsToMark trace.now replies.now workers block marks.now i }
{
    if marks[i as usize] {
        return false;
    }
    if !earlier_marked(workers, block, marks, i) {
        return false;
    }
    let Reply::Seen(_) = replies[i as usize] else {
        return true;
    };
    new_marked(trace, replies, marks, trace.line(i))
}

// Whether all earlier lines of a line's worker have marks.
fn earlier_marked(workers: u64, block: u64, marks: &[bool], i: u64) -> bool
    requires some { 0 < workers }
    requires block { 0 < block }
    requires within { i < length marks.now }
    ensures { IsTrue result ↔ ((k : ℕ) → k < i → owner workers block k ≡ owner workers block i
        → HasMark marks.now k) }
{
    for k in 0..i {
        if !is_done_for(workers, block, marks, i, k) {
            return false;
        }
    }
    true
}

// Whether an earlier line is another worker's, or has a mark.
fn is_done_for(workers: u64, block: u64, marks: &[bool], i: u64, k: u64) -> bool
    requires some { 0 < workers }
    requires block { 0 < block }
    requires within { k < length marks.now }
    ensures { IsTrue result ↔ (owner workers block k ≡ owner workers block i → HasMark marks.now k) }
{
    if k / block % workers != i / block % workers {
        return true;
    }
    marks[k as usize]
}

// Whether some line with this vector that is answered new has a mark.
fn new_marked(trace: &Trace, replies: &[Reply], marks: &[bool], vector: &[u32]) -> bool
    requires one_each { length replies.now ≡ length trace.now }
    requires count { length marks.now ≡ length trace.now }
    ensures { IsTrue result ↔ NewHasMark trace.now replies.now marks.now vector.now }
{
    for m in 0..trace.len() {
        if is_marked_new(trace, replies, marks, vector, m) {
            return true;
        }
    }
    false
}

// Whether the line has this vector, is answered new and has a mark.
fn is_marked_new(trace: &Trace, replies: &[Reply], marks: &[bool], vector: &[u32], m: u64) -> bool
    requires one_each { length replies.now ≡ length trace.now }
    requires count { length marks.now ≡ length trace.now }
    requires within { m < length trace.now }
    ensures { IsTrue result ↔
        ((id : ℕ) × Line trace.now replies.now m vector.now (r.New id) × HasMark marks.now m) }
{
    if !marks[m as usize] {
        return false;
    }
    is_new_of(trace, replies, m, vector)
}

// The first line that has no mark, from 0.
fn first_unmarked(marks: &[bool]) -> Option<u64>
    ensures few { HasNext result }
    ensures first { IsFirst result (λ i. (i < length marks.now) × (get_or marks.now i false ≡ false)) }
{
    for i in 0..marks.len() {
        if !marks[i] {
            return Some(i as u64);
        }
    }
    None
}
