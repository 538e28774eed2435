//! How a run ended, and its exit status.
ghost use Rattle.std.specs.Prelude.{◌≡◌};
ghost use Rattle.treedb.specs.Note.{status_of};

use tdb_base::Status;
use trace_csv::{Form, TraceError};

/// How a run ended, with what its note tells.
#[derive(Clone, Copy, Debug, PartialEq, Eq)]
pub enum Ended {
    /// The text was written, and no line was answered full; or a report has a history.
    Done,
    /// The words of the command line are faulty.
    Usage,
    /// The input is no trace in the form that the words choose: why it is refused, which is never `NoMemory`.
    BadTrace(Form, TraceError),
    /// The input is over the limit.
    TooMuch,
    /// The text was written, and so many lines, at least one, were answered full.
    Full(u64),
    /// The source failed.
    ReadFault,
    /// The sink failed.
    WriteFault,
    /// Memory ran out.
    NoMemory,
    /// The input has no report.
    NoReport,
    /// This text line of the report, from 1, is wrong.
    WrongReport(u64),
    /// The verdict was written, that the report has no history.
    Refuted,
}

impl Ended {
    /// The status that the run is answered.
    pub fn status(&self) -> Status
        ensures { result ≡ status_of self.now }
    {
        match self {
            Ended::Done => Status::Done,
            Ended::Usage => Status::Usage,
            Ended::BadTrace(_, _) => Status::BadTrace,
            Ended::TooMuch => Status::TooMuch,
            Ended::Full(_) => Status::Full,
            Ended::ReadFault => Status::ReadFault,
            Ended::WriteFault => Status::WriteFault,
            Ended::NoMemory => Status::NoMemory,
            Ended::NoReport | Ended::WrongReport(_) => Status::BadReport,
            Ended::Refuted => Status::Refuted,
        }
    }
}
