//! Whether the replies to a trace form one history, as plain slow functions, to try runs of small cases.

ghost use Rattle.std.specs.Prelude.{[], ◌≡◌, ◌++◌, ◌&&◌, ◌↔◌, ◌<◌, ◌^◌, ℕ, Some, None, Contains, IsTrue, All};
ghost use Rattle.std.specs.Prelude.{length, map, not, slice_get, true, false};
ghost use Rattle.std.specs.List.{filter_map};
ghost use Rattle.std.specs.Option.{option_copied};
ghost use Rattle.tdb_base.specs.Agrees.{Agrees, AgreesAmongOthers, entry_of, entry_of_line};
ghost use Rattle.tdb_base.specs.History as h;
ghost use Rattle.tdb_base.specs.Legal.{Extends};
ghost use Rattle.tdb_base.specs.Lines as lines;
ghost use Rattle.tdb_base.specs.Acts.{act_of};
ghost use Rattle.tdb_base.specs.Plain.{FlagsBelow32};
ghost use Rattle.tdb_base.specs.Replies as answers;
ghost use Rattle.tdb_base.specs.declared.reply.Reply.{Reply};

#[cfg(test)]
mod tests;

use crate::plain::{is_legal, name_of};
use crate::{Act, Entry, Reply};

/// Whether the replies to the lines of a trace, dealt out in blocks of `block` lines to so many workers, who
/// are these callers, form one history that goes on from an earlier one, of vectors with so many flags, and
/// nobody else called after that.
///
/// There is a worker, and a block has a line. The flags that the calls of the later history name are below
/// 32.
pub fn agrees(
    trace: &[Vec<u32>],
    replies: &[Reply],
    workers: u64,
    block: u64,
    earlier: &[Entry],
    later: &[Entry],
    callers: &[u64],
    flag_count: u32,
) -> bool
    requires few { length later.now < 2 ^ 32 }
    requires low { All FlagsBelow32 later.now }
    requires some { 0 < workers }
    requires block { 0 < block }
    ensures { IsTrue result ↔ Agrees flag_count
        (map (λ v. v.items) trace.now) replies.now workers block earlier.now later.now callers.now }
{
    if !agrees_among_others(
        trace, replies, workers, block, earlier, later, callers, flag_count,
    ) {
        return false;
    }
    no_others(earlier, later, callers)
}

/// Whether `agrees` holds but for who else called: others may have called after the earlier history too.
///
/// There is a worker, and a block has a line. The flags that the calls of the later history name are below
/// 32.
pub fn agrees_among_others(
    trace: &[Vec<u32>],
    replies: &[Reply],
    workers: u64,
    block: u64,
    earlier: &[Entry],
    later: &[Entry],
    callers: &[u64],
    flag_count: u32,
) -> bool
    requires few { length later.now < 2 ^ 32 }
    requires low { All FlagsBelow32 later.now }
    requires some { 0 < workers }
    requires block { 0 < block }
    ensures { IsTrue result ↔ AgreesAmongOthers flag_count
        (map (λ v. v.items) trace.now) replies.now workers block earlier.now later.now callers.now }
{
    if replies.len() != trace.len() || callers.len() as u64 != workers {
        return false;
    }
    if !is_legal(later, flag_count) || !extends(earlier, later) {
        return false;
    }
    if !callers_differ(callers) || !callers_new(callers, earlier) {
        return false;
    }
    if !all_in_order(trace, replies, workers, block, later, callers) {
        return false;
    }
    full_unnamed(trace, replies, later)
}

// Whether the call is by this caller, did this with this vector, and got this identifier.
fn is_call(call: &Entry, caller: u64, act: Act, vector: &[u32], id: u64) -> bool
    ensures { IsTrue result ↔
        (call.now ≡ record { caller = caller; act = act_of act; vector = vector.now; id = id }) }
{
    call.caller == caller && call.act == act && call.vector.as_slice() == vector && call.id == id
}

// Whether the later calls begin with the earlier ones.
fn extends(earlier: &[Entry], later: &[Entry]) -> bool
    ensures { IsTrue result ↔ Extends earlier.now later.now }
{
    if later.len() < earlier.len() {
        return false;
    }
    for i in 0..earlier.len() {
        let old = &earlier[i];
        if !is_call(&later[i], old.caller, old.act, &old.vector, old.id) {
            return false;
        }
    }
    true
}

// Whether no two callers are the same.
fn callers_differ(callers: &[u64]) -> bool
    ensures { IsTrue result ↔
        ((j k c : ℕ) → slice_get callers.now j ≡ Some c → slice_get callers.now k ≡ Some c → j ≡ k) }
{
    for i in 0..callers.len() {
        let (before, _) = callers.split_at(i);
        if is_among(before, callers[i]) {
            return false;
        }
    }
    true
}

// Whether a number is one of these.
fn is_among(numbers: &[u64], number: u64) -> bool
    ensures { IsTrue result ↔ Contains numbers.now number }
{
    numbers.contains(&number)
}

// Whether none of the earlier calls is by one of these callers.
fn callers_new(callers: &[u64], earlier: &[Entry]) -> bool
    ensures { IsTrue result ↔ ((c : ℕ) → Contains callers.now c → h.calls earlier.now c ≡ []) }
{
    for call in earlier {
        if is_among(callers, call.caller) {
            return false;
        }
    }
    true
}

// Whether the calls of each caller are those that the replies to its lines tell of.
fn all_in_order(
    trace: &[Vec<u32>],
    replies: &[Reply],
    workers: u64,
    block: u64,
    later: &[Entry],
    callers: &[u64],
) -> bool
    requires one_each { length replies.now ≡ length trace.now }
    requires some { 0 < workers }
    requires block { 0 < block }
    ensures { IsTrue result ↔ ((j c : ℕ) → slice_get callers.now j ≡ Some c
        → h.calls later.now c ≡ filter_map (entry_of_line c (map (λ v. v.items) trace.now) replies.now)
        (lines.mine (length (map (λ v. v.items) trace.now)) workers block j)) }
{
    for j in 0..callers.len() {
        if !in_order(trace, replies, workers, block, j as u64, later, callers[j]) {
            return false;
        }
    }
    true
}

// Whether the calls of a caller, who is the worker of this number, are those that the replies to its lines
// tell of.
fn in_order(
    trace: &[Vec<u32>],
    replies: &[Reply],
    workers: u64,
    block: u64,
    worker: u64,
    later: &[Entry],
    caller: u64,
) -> bool
    requires one_each { length replies.now ≡ length trace.now }
    requires some { 0 < workers }
    requires block { 0 < block }
    ensures { IsTrue result ↔ (h.calls later.now caller
        ≡ filter_map (entry_of_line caller (map (λ v. v.items) trace.now) replies.now)
        (lines.mine (length (map (λ v. v.items) trace.now)) workers block worker)) }
{
    let mut fine = true;
    let mut number = 0;
    for i in 0..trace.len() {
        let reply = replies[i];
        if is_told(reply, i as u64 / block % workers == worker) {
            fine &= is_number(later, caller, number, &trace[i], reply);
            number += 1;
        }
    }
    fine && call_at(later, caller, number).is_none()
}

// Whether a line has a call of one's own: it is one's own, and was not answered full.
fn is_told(reply: Reply, own: bool) -> bool
    ensures { result ≡ (own && not (answers.is_full reply)) }
{
    own && !reply.is_full()
}

// Whether the call of this number of the caller's is the one that the reply to a vector tells of.
fn is_number(history: &[Entry], caller: u64, number: usize, vector: &[u32], reply: Reply) -> bool
    requires { answers.is_full reply ≡ false }
    ensures { IsTrue result ↔
        (slice_get (h.calls history.now caller) number ≡ entry_of caller vector.now reply) }
{
    match call_at(history, caller, number) {
        Some(call) => tells(call, caller, vector, reply),
        None => false,
    }
}

// Whether the reply to a vector tells of this call.
fn tells(call: &Entry, caller: u64, vector: &[u32], reply: Reply) -> bool
    ensures { IsTrue result ↔ (entry_of caller vector.now reply ≡ Some call.now) }
{
    match reply {
        Reply::New(id) => is_call(call, caller, Act::Put(true), vector, id),
        Reply::Seen(id) => is_call(call, caller, Act::Put(false), vector, id),
        Reply::FullNodes | Reply::FullRoots => false,
    }
}

// The call of this number, from 0, among the caller's calls, if there are so many.
fn call_at<'a>(history: &'a [Entry], caller: u64, number: usize) -> Option<&'a Entry>
    ensures { option_copied result ≡ slice_get (h.calls history.now caller) number }
{
    let mut left = number;
    for call in history {
        if call.caller == caller {
            if left == 0 {
                return Some(call);
            }
            left -= 1;
        }
    }
    None
}

// Whether no line that was answered full has a vector with a name.
fn full_unnamed(trace: &[Vec<u32>], replies: &[Reply], later: &[Entry]) -> bool
    requires { length replies.now ≡ length trace.now }
    ensures { IsTrue result ↔
        ((i : ℕ) (v : h.Vector) (reply : Reply) → slice_get (map (λ v. v.items) trace.now) i ≡ Some v
        → slice_get replies.now i ≡ Some reply
        → answers.is_full reply ≡ true → h.name_of later.now v ≡ None) }
{
    for i in 0..trace.len() {
        if replies[i].is_full() && name_of(later, &trace[i]).is_some() {
            return false;
        }
    }
    true
}

// Whether each call after the earlier ones is by one of these callers.
fn no_others(earlier: &[Entry], later: &[Entry], callers: &[u64]) -> bool
    requires { Extends earlier.now later.now }
    ensures { IsTrue result ↔
        ((more : h.History) → later.now ≡ earlier.now ++ more → (e : h.Entry) → Contains more e
        → Contains callers.now e.caller) }
{
    for i in earlier.len()..later.len() {
        let call = &later[i];
        if !is_among(callers, call.caller) {
            return false;
        }
    }
    true
}
