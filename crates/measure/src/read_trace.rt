//! Times `read_trace` on what standard input gives.

use crate::clock::nanoseconds_since;
use std::io;
use std::process::ExitCode;
use std::time::Instant;
use tdb_base::StdSource;
use trace_csv::{read_all, read_trace};

// The bits of a slot.
const WIDTH: u32 = 28;

/// Reads standard input to its end, and then reads it as a trace, so many times.
pub fn time(rt: &HostRuntime, tries: u64) -> io::Result<ExitCode> {
    let alloc = rt.alloc();
    let Ok(bytes) = read_all(alloc, &mut StdSource::new(rt.reader())) else {
        eprintln!(rt; "measure: the input was not read")?;
        return Ok(ExitCode::from(1));
    };
    for _ in 0..tries {
        let start = Instant::now(rt)?;
        let read = read_trace(alloc, &bytes, WIDTH);
        let took = nanoseconds_since(rt, &start)?;
        let Ok(trace) = read else {
            eprintln!(rt; "measure: the input is no trace")?;
            return Ok(ExitCode::from(1));
        };
        eprintln!(rt;
            "read-trace {} bytes, {} lines of {} slots: {} ms",
            bytes.len(),
            trace.len(),
            trace.slots(),
            took / 1_000_000
        )?;
    }
    Ok(ExitCode::from(0))
}
