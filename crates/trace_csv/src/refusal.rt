//! Why bytes are no trace.
use thiserror::Error;

/// Why some bytes are no trace. Records and fields are counted from 1.
#[derive(Clone, Copy, Debug, PartialEq, Eq, Drop, Error)]
pub enum TraceError {
    /// This field of this record is not 1 to 10 digits with spaces before and after, in the signed form with
    /// at most one minus right before the digits.
    #[error("record {0} field {1} is not a number")]
    NotANumber(u64, u64),
    /// The number of this field of this record is 2^width or more, in the signed form less than -2147483648 or
    /// more than 2147483647.
    #[error("record {0} field {1} is too big")]
    TooBig(u64, u64),
    /// This record has so many fields, and the first one had so many others.
    #[error("record {0} has {1} fields, the first has {2}")]
    Ragged(u64, u64, u64),
    /// The first record has so many fields, where 2 to 1024 are allowed, and 2 to 512 in the signed form.
    #[error("record {0} has {1} fields, too few or too many")]
    Length(u64, u64),
    /// There is no record.
    #[error("no records")]
    NoRecords,
    /// Memory ran out.
    #[error("no memory")]
    NoMemory,
}
