//! Sources and sinks over std's readers and writers.

ghost use Rattle.std.specs.Prelude.{◌≡◌, ◌<◌, true, length, is_err, IfOk, if◌then◌else◌};
ghost use Rattle.std.specs.Io.{ReadsAtMost, WritesAtMost};
ghost use Rattle.std.specs.Io.KnownBytes.{ReadConsumes, WriteAppends, Keeps};
ghost use Rattle.tdb_base.specs.Causes.{HasCause, settled_after_write, settled_after_finish};
ghost use Rattle.tdb_base.specs.Fakes.{counted};

#[cfg(test)]
mod tests;

use crate::{Failed, Sink, Source};
use std::io::{Read, Write};
use std::marker::Model;

/// A source over a reader of std, with a count of its errors. It tells the bytes that the reader tells: none
/// over standard input.
#[derive(Drop)]
pub struct StdSource<R> {
    inner: R,
    faults: u64,
}

impl<R> Model for StdSource<R> {
    ghost use Rattle.tdb_base.specs.Fakes.{StdSourceState};

    ghost Value = { StdSourceState R };

    ghost view = { λ s. record { inner = s.inner; faults = s.faults } };
}

impl<R: Read> StdSource<R> {
    /// A source over the reader, whose errors are counted from here on.
    pub fn new(inner: R) -> StdSource<R>
        ensures { result ≡ record { inner = inner; faults = 0 } }
    {
        StdSource { inner, faults: 0 }
    }
}

impl<R: Read> Source for StdSource<R> {
    ghost left = { λ s. R.remaining s.inner };

    ghost faults = { λ s. s.faults };

    fn read(&mut self, buf: &mut [u8]) -> Result<usize, Failed>
        ensures bound { ReadsAtMost result buf.new }
        ensures bytes { ReadConsumes (R.remaining self.old.inner)
            (R.remaining self.new.inner) result buf.new }
        ensures cause { HasCause self.old.faults self.new.faults result }
        ensures counts { self.new.faults ≡
            (if is_err result then counted self.old.faults else self.old.faults) }
    {
        match self.inner.read(buf) {
            Ok(count) => Ok(count),
            Err(_) => {
                self.faults = self.faults.saturating_add(1);
                Err(Failed)
            }
        }
    }
}

/// A sink over a writer of std, with a count of its errors. A write that takes no byte of a piece that has
/// some counts as one. It tells the bytes that the writer tells: none over standard output.
#[derive(Drop)]
pub struct StdSink<T> {
    inner: T,
    faults: u64,
    settled: bool,
}

impl<T> Model for StdSink<T> {
    ghost use Rattle.tdb_base.specs.Fakes.{StdSinkState};

    ghost Value = { StdSinkState T };

    ghost view = { λ s. record { inner = s.inner; faults = s.faults; settled = s.settled } };
}

impl<T: Write> StdSink<T> {
    /// A settled sink over the writer, whose errors are counted from here on.
    pub fn new(inner: T) -> StdSink<T>
        ensures { result ≡ record { inner = inner; faults = 0; settled = true } }
    {
        StdSink {
            inner,
            faults: 0,
            settled: true,
        }
    }
}

impl<T: Write> Sink for StdSink<T> {
    ghost taken = { λ s. T.contents s.inner };

    ghost faults = { λ s. s.faults };

    ghost settled = { λ s. s.settled };

    fn write(&mut self, piece: &[u8]) -> Result<usize, Failed>
        ensures bound { WritesAtMost result piece.now }
        ensures some { IfOk result (λ n. 0 < length piece.now → 0 < n) }
        ensures bytes { WriteAppends (T.contents self.old.inner)
            (T.contents self.new.inner) result piece.now }
        ensures cause { HasCause self.old.faults self.new.faults result }
        ensures settles { self.new.settled ≡ settled_after_write result self.old.settled }
        ensures counts { self.new.faults ≡
            (if is_err result then counted self.old.faults else self.old.faults) }
    {
        match self.inner.write(piece) {
            Ok(count) if count > 0 => {
                self.settled = false;
                Ok(count)
            }
            Ok(_) if piece.is_empty() => Ok(0),
            _ => {
                self.faults = self.faults.saturating_add(1);
                Err(Failed)
            }
        }
    }

    fn finish(&mut self) -> Result<(), Failed>
        ensures bytes { Keeps (T.contents self.old.inner) (T.contents self.new.inner) }
        ensures cause { HasCause self.old.faults self.new.faults result }
        ensures settles { self.new.settled ≡ settled_after_finish result self.old.settled }
        ensures counts { self.new.faults ≡
            (if is_err result then counted self.old.faults else self.old.faults) }
    {
        match self.inner.flush() {
            Ok(()) => {
                self.settled = true;
                Ok(())
            }
            Err(_) => {
                self.faults = self.faults.saturating_add(1);
                Err(Failed)
            }
        }
    }
}
