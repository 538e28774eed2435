//! Where bytes go to: the trait, and the sinks in memory.

ghost use Rattle.std.specs.Prelude.{◌≡◌, ◌<◌, ◌≤◌, ◌-◌, ◌||◌, ◌&&◌, ◌==◌, ℕ, Bool, true, false, List, Option};
ghost use Rattle.std.specs.Prelude.{Some, None, length, [], min, IfOk, IsOk, is_err, nat_lt, if◌then◌else◌};
ghost use Rattle.std.specs.Io.{WritesAtMost};
ghost use Rattle.std.specs.Io.KnownBytes.{WriteAppends, Keeps};
ghost use Rattle.tdb_base.specs.Causes.{HasCause, settled_after_write, settled_after_finish};
ghost use Rattle.tdb_base.specs.Fakes.{fails_at, counted};

#[cfg(test)]
mod tests;

use crate::{Failed, NoMemory};
use std::alloc::Global;
use std::marker::Model;

/// Where bytes go to.
///
/// A sink may tell the bytes that it took (`taken`) or not; the clauses on bytes speak of one that does.
pub trait Sink {
    /// The bytes taken so far, where it tells them.
    ghost taken: { Self → Option (List ℕ) };

    /// A number that never falls, and rises where a call fails.
    ghost faults: { Self → ℕ };

    /// Whether all that was taken was handed on.
    ghost settled: { Self → Bool };

    /// Takes the first bytes of the piece, at least one where there is one, and answers how many.
    ///
    /// `Failed` comes only where the faults rose, and takes no byte.
    fn write(&mut self, piece: &[u8]) -> Result<usize, Failed>
        ensures bound { WritesAtMost result piece.now }
        ensures some { IfOk result (λ n. 0 < length piece.now → 0 < n) }
        ensures bytes { WriteAppends (taken self.old) (taken self.new) result piece.now }
        ensures cause { HasCause (faults self.old) (faults self.new) result }
        ensures settles { settled self.new ≡ settled_after_write result (settled self.old) };

    /// Hands on what is kept back. `Failed` comes only where the faults rose.
    fn finish(&mut self) -> Result<(), Failed>
        ensures bytes { Keeps (taken self.old) (taken self.new) }
        ensures cause { HasCause (faults self.old) (faults self.new) result }
        ensures settles { settled self.new ≡ settled_after_finish result (settled self.old) };
}

/// A sink in memory that takes at most `piece` bytes a call. Its writes are numbered from 1; those that
/// `fails` lists fail, and so does a write of some bytes where no room is left.
#[derive(Drop)]
pub struct MemSink {
    bytes: Vec<u8>,
    room: usize,
    fails: Vec<u64>,
    piece: usize,
    calls: u64,
    faults: u64,
    settled: bool,
}

impl Model for MemSink {
    ghost use Rattle.std.specs.Prelude.{◌<◌, ◌≤◌, vec_len, vec_capacity};
    ghost use Rattle.tdb_base.specs.Fakes.{MemSinkState};

    ghost Value = { MemSinkState };

    ghost view = { λ s. record { taken = s.bytes.items; room = s.room; fails = s.fails.items; piece = s.piece; calls = s.calls; faults = s.faults; settled = s.settled } };

    ghost invariant = { λ s. (0 < s.piece) × (s.room ≤ vec_capacity s.bytes) × (vec_len s.bytes ≤ s.room) };
}

impl MemSink {
    /// An empty sink with room for so many bytes, which are reserved here. A piece has at least one byte.
    pub fn new(
        alloc: Global,
        room: usize,
        fails: Vec<u64>,
        piece: usize,
    ) -> Result<MemSink, NoMemory>
        requires { 0 < piece }
        ensures { IfOk result
            (λ s. s ≡ record {
              taken = [];
              room = room;
              fails = fails.items;
              piece = piece;
              calls =
                  0;
              faults = 0;
              settled = true;
            }) }
    {
        let bytes = Vec::with_capacity(alloc, room)?;
        Ok(MemSink {
            bytes,
            room,
            fails,
            piece,
            calls: 0,
            faults: 0,
            settled: true,
        })
    }

    /// The bytes taken.
    pub fn bytes(&self) -> &[u8]
        ensures { result.now ≡ self.now.taken }
    {
        &self.bytes
    }
}

impl Sink for MemSink {
    ghost taken = { λ s. Some s.taken };

    ghost faults = { λ s. s.faults };

    ghost settled = { λ s. s.settled };

    fn write(&mut self, piece: &[u8]) -> Result<usize, Failed>
        ensures bound { WritesAtMost result piece.now }
        ensures some { IfOk result (λ n. 0 < length piece.now → 0 < n) }
        ensures bytes { WriteAppends (Some self.old.taken) (Some self.new.taken) result piece.now }
        ensures cause { HasCause self.old.faults self.new.faults result }
        ensures settles { self.new.settled ≡ settled_after_write result self.old.settled }
        ensures exact { is_err result ≡ (fails_at self.old.fails (counted self.old.calls)
            || (nat_lt 0 (length piece.now) && (self.old.room - length self.old.taken == 0))) }
        ensures count { IfOk result
            (λ n. n ≡ min (min (length piece.now) self.old.piece) (self.old.room - length self.old.taken)) }
        ensures calls { self.new.calls ≡ counted self.old.calls }
        ensures faults { self.new.faults ≡
            (if is_err result then counted self.old.faults else self.old.faults) }
        ensures fails { self.new.fails ≡ self.old.fails }
        ensures piece { self.new.piece ≡ self.old.piece }
        ensures room { self.new.room ≡ self.old.room }
    {
        self.calls = self.calls.saturating_add(1);
        let free = self.room - self.bytes.len();
        if self.fails.contains(&self.calls) || (!piece.is_empty() && free == 0) {
            self.faults = self.faults.saturating_add(1);
            return Err(Failed);
        }
        let count = piece.len().min(self.piece).min(free);
        let Ok(()) = self.bytes.extend_from_slice(&piece[..count]) else {
            unreachable!()
        };
        if count > 0 {
            self.settled = false;
        }
        Ok(count)
    }

    fn finish(&mut self) -> Result<(), Failed>
        ensures bytes { Keeps (Some self.old.taken) (Some self.new.taken) }
        ensures cause { HasCause self.old.faults self.new.faults result }
        ensures settles { self.new.settled ≡ settled_after_finish result self.old.settled }
        ensures sure { IsOk result }
        ensures kept { self.new ≡ record self.old { settled = true } }
    {
        self.settled = true;
        Ok(())
    }
}

/// A sink that takes everything, keeps nothing and never fails. It doesn't tell what it took.
#[derive(Drop)]
pub struct SureSink {
    settled: bool,
}

impl Model for SureSink {
    ghost use Rattle.std.specs.Prelude.{Bool};

    ghost Value = { Bool };

    ghost view = { λ s. s.settled };
}

impl SureSink {
    /// A settled sink.
    pub fn new() -> SureSink
        ensures { result ≡ true }
    {
        SureSink { settled: true }
    }
}

impl Sink for SureSink {
    ghost taken = { λ s. None };

    ghost faults = { λ s. 0 };

    ghost settled = { λ s. s };

    fn write(&mut self, piece: &[u8]) -> Result<usize, Failed>
        ensures bound { WritesAtMost result piece.now }
        ensures some { IfOk result (λ n. 0 < length piece.now → 0 < n) }
        ensures bytes { WriteAppends None None result piece.now }
        ensures cause { HasCause 0 0 result }
        ensures settles { self.new ≡ settled_after_write result self.old }
        ensures whole { IfOk result (λ n. n ≡ length piece.now) }
        ensures sure { IsOk result }
    {
        if !piece.is_empty() {
            self.settled = false;
        }
        Ok(piece.len())
    }

    fn finish(&mut self) -> Result<(), Failed>
        ensures bytes { Keeps None None }
        ensures cause { HasCause 0 0 result }
        ensures settles { self.new ≡ settled_after_finish result self.old }
        ensures sure { IsOk result }
    {
        self.settled = true;
        Ok(())
    }
}
