//! A hash table of a trace's lines that are answered new, looked up by their vectors or by their identifiers.

ghost use Rattle.std.specs.Prelude.{◌≡◌, ◌<◌, ◌+◌, ◌^◌, ◌↔◌, ℕ, List, IsTrue, IfOk, OnOk, length, replicate};
ghost use Rattle.run_check.specs.Table.{AreWithin, HasKey, IsFound, StoredAt, folded_key, key_hash, line_of_place};
ghost use Rattle.run_check.specs.Table.{mixed, spread, vector_hash};

use std::alloc::Global;
use std::marker::Model;
use tdb_base::{NoMemory, Reply};
use trace_csv::Trace;

// What a line is looked up by.
#[derive(Clone, Copy)]
pub(crate) enum Key<'a> {
    Vector(&'a [u32]),
    Identifier(u64),
}

impl Key<'_> {
    // Whether a line is answered new and has this key.
    fn is_of(self, trace: &Trace, replies: &[Reply], line: u64) -> bool
        requires one_each { length replies.now ≡ length trace.now }
        requires within { line < length trace.now }
        ensures { IsTrue result ↔ HasKey trace.now replies.now line self.entry }
    {
        let Reply::New(id) = replies[line as usize] else {
            return false;
        };
        match self {
            Key::Vector(vector) => trace.line(line) == vector,
            Key::Identifier(wanted) => id == wanted,
        }
    }

    // Where the search for it begins, before it is cut to a table's size.
    fn hash(self) -> u64
        ensures { result ≡ key_hash self.entry }
    {
        match self {
            Key::Vector(vector) => spread(vector_hash(vector)),
            Key::Identifier(id) => spread(id),
        }
    }
}

fn vector_hash(vector: &[u32]) -> u64
    ensures { result ≡ vector_hash vector.now }
{
    let mut hash = 0;
    for slot in vector {
        hash = mixed(hash, u64::from(*slot));
    }
    hash
}

fn mixed(hash: u64, slot: u64) -> u64
    ensures { result ≡ mixed hash slot }
{
    hash.wrapping_mul(0x9E37_79B9_7F4A_7C15).wrapping_add(slot)
}

// Keys that are multiples of one number lie as at random here, whatever a table's size is: after one
// multiplication alone they lie in steps, of which some sizes make long chains.
fn spread(hash: u64) -> u64
    ensures { result ≡ spread hash }
{
    mixed(folded_key(mixed(folded_key(hash), 0)), 0) >> 32
}

fn folded_key(hash: u64) -> u64
    ensures { result ≡ folded_key hash }
{
    hash ^ (hash >> 32)
}

// Where a key stands in a table.
#[derive(Clone, Copy)]
pub(crate) enum Place {
    // This line has it.
    Line(u64),
    // No line has it, and one that has would stand here.
    Free(usize),
    // No line has it, and there is no room.
    Full,
}

impl Place {
    // The line that has the key.
    pub(crate) fn line(self) -> Option<u64>
        ensures { result ≡ line_of_place self }
    {
        match self {
            Place::Line(line) => Some(line),
            Place::Free(_) | Place::Full => None,
        }
    }
}

// A line's number plus 1, or 0, in each slot. A line stands at the first slot from its hash on that was free.
#[derive(Drop)]
pub(crate) struct LineTable {
    slots: Vec<u32>,
}

impl Model for LineTable {
    ghost Value = { List ℕ };

    ghost view = { λ t. t.slots.items };
}

impl LineTable {
    // An empty table, with room for half as many lines again as are asked for.
    pub(crate) fn new(alloc: Global, lines: usize) -> Result<LineTable, NoMemory>
        requires { lines < 2 ^ 62 }
        ensures { IfOk result (λ t. (n : ℕ) × (t ≡ replicate (n + 1) 0)) }
    {
        let slots = vec![in alloc; 0u32; lines + lines / 2 + 1]?;
        Ok(LineTable { slots })
    }

    // Where a key stands.
    pub(crate) fn find(&self, trace: &Trace, replies: &[Reply], key: Key<'_>) -> Place
        requires one_each { length replies.now ≡ length trace.now }
        requires some { 0 < length self.now }
        requires within { AreWithin (length trace.now) self.now }
        ensures { IsFound trace.now replies.now key.entry self.now result }
    {
        let size = self.slots.len();
        let start = (key.hash() % size as u64) as usize;
        for step in 0..size {
            let slot = (start + step) % size;
            let entry = self.slots[slot];
            if entry == 0 {
                return Place::Free(slot);
            }
            let line = u64::from(entry) - 1;
            if key.is_of(trace, replies, line) {
                return Place::Line(line);
            }
        }
        Place::Full
    }

    // Puts a line where its key was looked for. A table is never full, since it has more room than lines, and
    // no trace has 2^32 lines; both would be answered as want of memory.
    pub(crate) fn put(&mut self, place: Place, line: u64) -> Result<(), NoMemory>
        ensures { OnOk result (StoredAt self.old place line self.new) }
    {
        let Place::Free(slot) = place else {
            return Err(NoMemory);
        };
        let Ok(entry) = u32::try_from(line) else {
            return Err(NoMemory);
        };
        if entry == u32::MAX || slot >= self.slots.len() {
            return Err(NoMemory);
        }
        self.slots[slot] = entry + 1;
        Ok(())
    }
}
