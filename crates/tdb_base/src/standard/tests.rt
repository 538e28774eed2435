//! A reader and a writer of std that fail are counted as faults.

use super::{StdSink, StdSource};
use crate::Sink;
use crate::tests::{gives, takes};
use std::io;
use std::io::{Read, Write};
use std::test::Fail;

// Gives the number of the call as a byte, and fails at the second call.
#[derive(Drop)]
struct FailsOnce {
    calls: u8,
}

impl Read for FailsOnce {
    fn read(&mut self, buf: &mut [u8]) -> io::Result<usize> {
        self.calls = self.calls.saturating_add(1);
        if self.calls == 2 {
            return Err(io::Error::from(io::ErrorKind::BrokenPipe));
        }
        match buf.first_mut() {
            Some(place) => {
                *place = self.calls;
                Ok(1)
            }
            None => Ok(0),
        }
    }
}

#[test]
fn errors_of_a_reader_are_counted(rt: HostRuntime) {
    let bytes: &[u8] = b"123";
    let mut plain = StdSource::new(bytes);
    gives(&rt, &mut plain, 2, Some(b"12"));
    gives(&rt, &mut plain, 8, Some(b"3"));
    gives(&rt, &mut plain, 8, Some(b""));
    assert!(rt; plain.faults == 0);
    let mut source = StdSource::new(FailsOnce { calls: 0 });
    gives(&rt, &mut source, 8, Some(&[1]));
    gives(&rt, &mut source, 8, None);
    assert!(rt; source.faults == 1);
    gives(&rt, &mut source, 8, Some(&[3]));
    assert!(rt; source.faults == 1);
}

// Takes at most three bytes a call, fails at the second write, takes nothing at the third, and fails at the
// first flush.
#[derive(Drop)]
struct Choppy {
    got: Vec<u8>,
    writes: u8,
    flushes: u8,
}

impl Write for Choppy {
    fn write(&mut self, buf: &[u8]) -> io::Result<usize> {
        self.writes = self.writes.saturating_add(1);
        if self.writes == 2 {
            return Err(io::Error::from(io::ErrorKind::BrokenPipe));
        }
        if self.writes == 3 {
            return Ok(0);
        }
        let count = buf.len().min(3);
        self.got.extend_from_slice(&buf[..count])?;
        Ok(count)
    }

    fn flush(&mut self) -> io::Result<()> {
        self.flushes = self.flushes.saturating_add(1);
        if self.flushes == 1 {
            return Err(io::Error::from(io::ErrorKind::BrokenPipe));
        }
        Ok(())
    }
}

#[test]
fn errors_of_a_writer_are_counted(rt: HostRuntime) -> Result<(), Fail> {
    let mut sink = StdSink::new(Choppy {
        got: Vec::new(rt.alloc()),
        writes: 0,
        flushes: 0,
    });
    takes(&rt, &mut sink, b"abcd", Some(3));
    assert!(rt; !sink.settled);
    takes(&rt, &mut sink, b"d", None);
    assert!(rt; sink.faults == 1);
    takes(&rt, &mut sink, b"d", None);
    assert!(rt; sink.faults == 2);
    takes(&rt, &mut sink, b"d", Some(1));
    takes(&rt, &mut sink, b"", Some(0));
    assert!(rt; sink.finish().is_err());
    assert!(rt; sink.faults == 3 && !sink.settled);
    assert!(rt; sink.finish().is_ok());
    assert!(rt; sink.faults == 3 && sink.settled);
    assert!(rt; sink.inner.got.as_slice() == b"abcd".as_slice());
    Ok(())
}
