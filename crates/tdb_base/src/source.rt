//! Sources of bytes: the trait, and one in memory.
ghost use Rattle.std.specs.Prelude.{◌≡◌, ◌<◌, ◌≤◌, ℕ, List, Option, Some, None, [], drop, take, length};
ghost use Rattle.std.specs.Prelude.{vec_len, min, is_err, IfOk, IsOk, if◌then◌else◌};
ghost use Rattle.std.specs.Io.{ReadsAtMost};
ghost use Rattle.std.specs.Io.KnownBytes.{ReadConsumes};
ghost use Rattle.tdb_base.specs.Causes.{HasCause};
ghost use Rattle.tdb_base.specs.Fakes.{fails_at, counted};

#[cfg(test)]
mod tests;

use crate::Failed;
use std::marker::Model;

/// Where bytes come from.
///
/// A source may tell its bytes (`left`) or not; the clauses on bytes speak of one that does.
pub trait Source {
    /// The bytes still to come, where it tells them.
    ghost left: { Self → Option (List ℕ) };

    /// A number that never falls, and rises where a call fails.
    ghost faults: { Self → ℕ };

    /// Puts the next bytes at the front of `buf`, and answers how many.
    ///
    /// None of a `buf` with room is the end of the input. `Failed` comes only where the faults rose, and
    /// takes no byte.
    fn read(&mut self, buf: &mut [u8]) -> Result<usize, Failed>
        ensures bound { ReadsAtMost result buf.new }
        ensures bytes { ReadConsumes (left self.old) (left self.new) result buf.new }
        ensures cause { HasCause (faults self.old) (faults self.new) result };
}

/// A source over bytes in memory, at most `piece` of them a call. Its calls are numbered from 1, and those
/// that `fails` lists fail.
#[derive(Drop)]
pub struct MemSource {
    bytes: Vec<u8>,
    at: usize,
    fails: Vec<u64>,
    piece: usize,
    calls: u64,
    faults: u64,
}

impl Model for MemSource {
    ghost use Rattle.std.specs.Prelude.{◌<◌, ◌≤◌, drop, vec_len};
    ghost use Rattle.tdb_base.specs.Fakes.{MemSourceState};

    ghost Value = { MemSourceState };

    ghost view = { λ s. record { left = drop s.at s.bytes.items; fails = s.fails.items; piece = s.piece; calls = s.calls; faults = s.faults } };

    ghost invariant = { λ s. (0 < s.piece) × (s.at ≤ vec_len s.bytes) };
}

impl MemSource {
    /// A source of all the bytes. A piece has at least one byte.
    pub fn new(bytes: Vec<u8>, fails: Vec<u64>, piece: usize) -> MemSource
        requires { 0 < piece }
        ensures { result ≡ record {
          left = bytes.items;
          fails = fails.items;
          piece = piece;
          calls =
              0;
          faults = 0;
        } }
    {
        MemSource {
            bytes,
            at: 0,
            fails,
            piece,
            calls: 0,
            faults: 0,
        }
    }
}

impl Source for MemSource {
    ghost left = { λ s. Some s.left };

    ghost faults = { λ s. s.faults };

    fn read(&mut self, buf: &mut [u8]) -> Result<usize, Failed>
        ensures bound { ReadsAtMost result buf.new }
        ensures bytes { ReadConsumes (Some self.old.left) (Some self.new.left) result buf.new }
        ensures cause { HasCause self.old.faults self.new.faults result }
        ensures exact { is_err result ≡ fails_at self.old.fails (counted self.old.calls) }
        ensures count { IfOk result
            (λ n. n ≡ min (min (length buf.old) self.old.piece) (length self.old.left)) }
        ensures calls { self.new.calls ≡ counted self.old.calls }
        ensures faults { self.new.faults ≡
            (if is_err result then counted self.old.faults else self.old.faults) }
        ensures fails { self.new.fails ≡ self.old.fails }
        ensures piece { self.new.piece ≡ self.old.piece }
    {
        self.calls = self.calls.saturating_add(1);
        if self.fails.contains(&self.calls) {
            self.faults = self.faults.saturating_add(1);
            return Err(Failed);
        }
        let room = buf.len().min(self.piece);
        let count = room.min(self.bytes.len() - self.at);
        fill(buf, &self.bytes[self.at..], count);
        self.at += count;
        Ok(count)
    }
}

// The first bytes of `from` go to the front of `buf`.
fn fill(buf: &mut [u8], from: &[u8], count: usize)
    requires room { count ≤ length buf.old }
    requires enough { count ≤ length from.now }
    ensures { take count buf.new ≡ take count from.now }
{
    buf[..count].copy_from_slice(&from[..count]);
}

/// A source over bytes in memory that never fails, and gives as many a call as fit.
#[derive(Drop)]
pub struct SureSource {
    bytes: Vec<u8>,
    at: usize,
}

impl Model for SureSource {
    ghost use Rattle.std.specs.Prelude.{◌≤◌, ℕ, List, drop, vec_len};

    ghost Value = { List ℕ };

    ghost view = { λ s. drop s.at s.bytes.items };

    ghost invariant = { λ s. s.at ≤ vec_len s.bytes };
}

impl SureSource {
    /// A source of all the bytes.
    pub fn new(bytes: Vec<u8>) -> SureSource
        ensures { result ≡ bytes.items }
    {
        SureSource { bytes, at: 0 }
    }
}

impl Source for SureSource {
    ghost left = { λ s. Some s };

    ghost faults = { λ s. 0 };

    fn read(&mut self, buf: &mut [u8]) -> Result<usize, Failed>
        ensures bound { ReadsAtMost result buf.new }
        ensures bytes { ReadConsumes (Some self.old) (Some self.new) result buf.new }
        ensures cause { HasCause 0 0 result }
        ensures sure { IsOk result }
    {
        let count = buf.len().min(self.bytes.len() - self.at);
        fill(buf, &self.bytes[self.at..], count);
        self.at += count;
        Ok(count)
    }
}
