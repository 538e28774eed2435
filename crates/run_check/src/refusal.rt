//! Why bytes are no report.

ghost use Rattle.std.specs.Prelude.{◌≡◌, ◌<◌, ◌+◌, ◌^◌};
ghost use Rattle.run_check.specs.Reading as reading;

use crate::word::Fault;
use thiserror::Error;

/// Why bytes are no report of a trace's lines.
#[derive(Clone, Copy, Debug, PartialEq, Eq, Drop, Error)]
pub enum ReportError {
    /// The first text line, from 1, to whose end the bytes begin no such report; or the number after the last
    /// one, where they end too soon.
    #[error("report line {0} is wrong")]
    Syntax(u64),
    /// Memory ran out.
    #[error("no memory")]
    NoMemory,
}

// The number of the text line that is wrong, where the line with this number begins such a text.
pub(crate) fn wrong_line(fault: Fault, text: &[u8], line: u64) -> u64
    requires { line + 1 < 2 ^ 64 }
    ensures { result ≡ reading.wrong_line line text.now fault }
{
    match fault {
        Fault::Wrong => line,
        Fault::Short if text.is_empty() => line,
        Fault::Short => line + 1,
    }
}
