//! The definitions of a history as plain slow functions, to try them on small cases.

ghost use Rattle.std.specs.Prelude.{◌≡◌, ◌++◌, ◌∷◌, [], OnOk, ℕ, Some, None, ◌<◌, ◌≤◌, ◌^◌, ◌+◌, ◌↔◌, IsTrue};
ghost use Rattle.std.specs.Prelude.{IfOk, All, if◌then◌else◌, unwrap_or, length, map};
ghost use Rattle.tdb_base.specs.History as h;
ghost use Rattle.tdb_base.specs.Acts.{act_of};
ghost use Rattle.tdb_base.specs.Plain.{BitBelow32, FlagsBelow32};
ghost use Rattle.std.specs.List.{list_any};
ghost use Rattle.tdb_base.specs.Legal.{Allows, IsLegal};
ghost use Rattle.tdb_base.specs.Lines.{distinct, mine};

pub mod agrees;
#[cfg(test)]
mod tests;

use crate::{Act, Entry};
use std::alloc::{AllocError, Global};

impl Entry {
    ghost use Rattle.tdb_base.specs.Plain.{FlagsBelow32};

    // Whether the call gives this vector a name.
    fn names(&self, vector: &[u32]) -> bool
        ensures { result ≡ h.names self.now vector.now }
    {
        match self.act {
            Act::Put(fresh) => fresh && self.vector.as_slice() == vector,
            _ => false,
        }
    }

    // The vector's identifier after this call.
    fn name_after(&self, name: Option<u64>, vector: &[u32]) -> Option<u64>
        ensures { result ≡ (if h.names self.now vector.now then Some self.now.id else name) }
    {
        if self.names(vector) {
            Some(self.id)
        } else {
            name
        }
    }

    // The vector's flags after this call.
    fn flags_after(&self, flags: Option<u64>, vector: &[u32]) -> Option<u64>
        requires low { FlagsBelow32 self.now }
        requires room { unwrap_or flags 0 + 2 ^ 31 < 2 ^ 64 }
        ensures value { result ≡
            (if h.same self.now.vector vector.now then h.flags_after self.now.act flags else flags) }
        ensures grows { unwrap_or result 0 ≤ unwrap_or flags 0 + 2 ^ 31 }
    {
        if self.vector.as_slice() == vector {
            flags_after(self.act, flags)
        } else {
            flags
        }
    }
}

/// The identifier of a vector after these calls, if it has one.
pub fn name_of(history: &[Entry], vector: &[u32]) -> Option<u64>
    ensures { result ≡ h.name_of history.now vector.now }
{
    let mut name = None;
    for call in history {
        name = call.name_after(name, vector);
    }
    name
}

/// The flags of a vector after these calls, as one number, if it has a name. The flags that the calls name
/// are below 32.
pub fn flags_of(history: &[Entry], vector: &[u32]) -> Option<u64>
    requires few { length history.now < 2 ^ 32 }
    requires low { All FlagsBelow32 history.now }
    ensures { result ≡ h.flags_of history.now vector.now }
{
    let mut flags = None;
    for call in history {
        flags = call.flags_after(flags, vector);
    }
    flags
}

/// Whether these calls form a legal history of a set whose vectors have so many flags. The flags that the
/// calls name are below 32.
pub fn is_legal(history: &[Entry], flag_count: u32) -> bool
    requires few { length history.now < 2 ^ 32 }
    requires low { All FlagsBelow32 history.now }
    ensures { IsTrue result ↔ IsLegal flag_count history.now }
{
    for i in 0..history.len() {
        let (before, _) = history.split_at(i);
        if !may_follow(before, &history[i], flag_count) {
            return false;
        }
    }
    true
}

/// How many different vectors there are.
pub fn distinct_count(vectors: &[Vec<u32>]) -> usize
    ensures { result ≡ length (distinct (map (λ v. v.items) vectors.now)) }
{
    let mut count = 0;
    for i in 0..vectors.len() {
        let (before, _) = vectors.split_at(i);
        count = counted(count, holds(before, &vectors[i]));
    }
    count
}

// A count of different vectors, with a vector more that was there before or not.
fn counted(count: usize, again: bool) -> usize
    requires { count + 1 < 2 ^ 64 }
    ensures { result ≡ count + (if again then 0 else 1) }
{
    if again { count } else { count + 1 }
}

// Whether the vector is one of these.
fn holds(vectors: &[Vec<u32>], vector: &[u32]) -> bool
    ensures { result ≡ list_any (λ v. h.same v.items vector.now) vectors.now }
{
    vectors.iter().any(|v| v.as_slice() == vector)
}

/// The numbers, from 0, of the lines of one of so many workers, to whom blocks of `block` lines are dealt out
/// in turn. There is a worker, and a block has a line.
pub fn mine(
    alloc: Global,
    lines: u64,
    workers: u64,
    block: u64,
    worker: u64,
) -> Result<Vec<u64>, AllocError>
    requires some { 0 < workers }
    requires block { 0 < block }
    ensures { IfOk result (λ v. v.items ≡ mine lines workers block worker) }
{
    let mut numbers = Vec::new(alloc);
    for i in 0..lines {
        push_own(&mut numbers, i, i / block % workers == worker)?;
    }
    Ok(numbers)
}

// Adds the number of a line, where it is one's own.
fn push_own(numbers: &mut Vec<u64>, number: u64, own: bool) -> Result<(), AllocError>
    ensures { OnOk result (numbers.new.items ≡ numbers.old.items ++ (if own then number ∷ [] else [])) }
{
    if own {
        numbers.push(number)?;
    }
    Ok(())
}

// Whether a call may come after some others.
fn may_follow(before: &[Entry], call: &Entry, flag_count: u32) -> bool
    requires few { length before.now < 2 ^ 32 }
    requires low { All FlagsBelow32 before.now }
    requires here { FlagsBelow32 call.now }
    ensures { IsTrue result ↔ Allows flag_count before.now call.now.vector call.now.id call.now.act }
{
    match call.act {
        Act::Put(true) => is_unnamed(before, call) && !is_given(before, call.id),
        Act::Put(false) => is_named(before, call),
        Act::Set(bit, first) => {
            is_named(before, call) && bit < flag_count && is_flag(before, call, bit, !first)
        }
        Act::Clear(bit, first) => {
            is_named(before, call) && bit < flag_count && is_flag(before, call, bit, first)
        }
        Act::Look(flags) => is_named(before, call) && has_flags(before, call, flags),
    }
}

// Whether the call's vector has the call's identifier after some others.
fn is_named(before: &[Entry], call: &Entry) -> bool
    ensures { IsTrue result ↔ (h.name_of before.now call.now.vector ≡ Some call.now.id) }
{
    has_name(before, call.vector(), call.id)
}

// Whether a vector has this identifier after these calls.
fn has_name(history: &[Entry], vector: &[u32], id: u64) -> bool
    ensures { IsTrue result ↔ (h.name_of history.now vector.now ≡ Some id) }
{
    name_of(history, vector) == Some(id)
}

// Whether the call's vector has no identifier after some others.
fn is_unnamed(before: &[Entry], call: &Entry) -> bool
    ensures { IsTrue result ↔ (h.name_of before.now call.now.vector ≡ None) }
{
    name_of(before, call.vector()).is_none()
}

// Whether the call's vector has just these flags after some others.
fn has_flags(before: &[Entry], call: &Entry, flags: u64) -> bool
    requires few { length before.now < 2 ^ 32 }
    requires low { All FlagsBelow32 before.now }
    ensures { IsTrue result ↔ (h.flags_of before.now call.now.vector ≡ Some flags) }
{
    flags_of(before, call.vector()) == Some(flags)
}

// Whether the call's vector has flags, and this one of them is set or not, as wanted.
fn is_flag(before: &[Entry], call: &Entry, bit: u32, wanted: bool) -> bool
    requires few { length before.now < 2 ^ 32 }
    requires low { All FlagsBelow32 before.now }
    requires bit { bit < 32 }
    ensures { IsTrue result ↔
        ((flags : ℕ) × (h.flags_of before.now call.now.vector ≡ Some flags)
        × (wanted ≡ h.has_bit flags bit)) }
{
    match flags_of(before, call.vector()) {
        None => false,
        Some(flags) => has_bit(flags, bit) == wanted,
    }
}

// Whether some vector has this identifier after these calls.
fn is_given(history: &[Entry], id: u64) -> bool
    ensures { IsTrue result ↔ ((v : h.Vector) × (h.name_of history.now v ≡ Some id)) }
{
    for call in history {
        if has_name(history, call.vector(), id) {
            return true;
        }
    }
    false
}

// The flags of a vector after one more act on it.
fn flags_after(act: Act, flags: Option<u64>) -> Option<u64>
    requires low { BitBelow32 (act_of act) }
    requires room { unwrap_or flags 0 + 2 ^ 31 < 2 ^ 64 }
    ensures value { result ≡ h.flags_after (act_of act) flags }
    ensures grows { unwrap_or result 0 ≤ unwrap_or flags 0 + 2 ^ 31 }
{
    match act {
        Act::Put(true) => Some(0),
        Act::Set(bit, _) => flags.map(|n| if has_bit(n, bit) { n } else { n + (1 << bit) }),
        Act::Clear(bit, _) => flags.map(|n| if has_bit(n, bit) { n - (1 << bit) } else { n }),
        _ => flags,
    }
}

// Whether the bit of a number is set.
fn has_bit(number: u64, bit: u32) -> bool
    requires { bit < 64 }
    ensures { result ≡ h.has_bit number bit }
{
    (number >> bit) % 2 == 1
}
