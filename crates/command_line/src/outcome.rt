//! What the words choose.

use thiserror::Error;

/// The usage text, four lines that each end in LF.
pub const USAGE: &str =
    "usage: treedb insert|distinct|bench|check|mark [--mode plain|compact] [--profile 16|28|31]\n  [--workers N] [--block N] [--nodes D] [--roots R] [--region S] [--probe P]\n  [--stats] [--lines N] [--slots K] [--values M] [--seed S]\n  [--signed] [--claims] [--flag B]\n";

/// What the program does.
#[derive(Clone, Copy, Debug, PartialEq, Eq)]
pub enum Job {
    /// Inserts the lines of a trace, and reports each reply.
    Insert,
    /// Inserts the lines of a trace, and writes the distinct vectors.
    Distinct,
    /// Inserts a generated trace, and writes the summary.
    Bench,
    /// Judges a report of a trace, and writes the verdict.
    Check,
    /// Inserts the lines of a trace and sets a flag of each line's vector, and reports both.
    Mark,
}

/// The kind of the root table.
#[derive(Clone, Copy, Debug, PartialEq, Eq)]
pub enum Mode {
    /// One word of 64 bits a root.
    Plain,
    /// A compact hash table of quotients (Cleary 1984).
    Compact,
}

/// The value of each word: as given, or the word's default.
#[derive(Clone, Copy, Debug, PartialEq, Eq)]
pub struct Choice {
    /// The job.
    pub job: Job,
    /// The kind of the root table, plain by default.
    pub mode: Mode,
    /// The width of a slot and of a node's index in bits: 16, 28 or 31, by default 28.
    pub profile: u32,
    /// Whether the numbers of a trace are signed, from -2147483648 to 2147483647, each kept as two slots of 16
    /// bits; by default not. It has an effect for `insert`, `distinct`, `check` and `mark`.
    pub signed: bool,
    /// How many workers: 1 to 64, by default 1.
    pub workers: u64,
    /// How many lines a worker takes at a time: 1 to 65536, by default 64.
    pub block: u64,
    /// Whether each worker draws its next block when it is through with the last, by default not: blocks are
    /// then dealt out in turn. It has an effect for `insert` and `bench`.
    pub claims: bool,
    /// The number of the flag that `mark` sets: 0 to 7, by default 0, and for `mark` less than the profile has
    /// flags.
    pub flag: u32,
    /// The node table has two to this power buckets: 3 to 25 and at most `profile`, if given.
    pub nodes: Option<u32>,
    /// The root table has two to this power places: 3 to 24, if given, and in compact mode at least 6.
    pub roots: Option<u32>,
    /// A region of the compact root table has two to this power cells: 6 to 12, if given, and in compact
    /// mode at most `roots` where that is given too.
    pub region: Option<u32>,
    /// How many lines of buckets a path walks at most: 1 to 4194304, by default 4194304.
    pub probe: u64,
    /// Whether the summary has its three further lines, by default not.
    pub stats: bool,
    /// How many lines `bench` generates: 1 to 4194304, by default 1000.
    pub lines: u64,
    /// How many slots a line of `bench` has: 2 to 1024, by default 8.
    pub slots: usize,
    /// How many values a slot of `bench` takes: 1 to 65536, by default 4.
    pub values: u64,
    /// The seed of the generator of `bench`: any number of 64 bits, by default 1.
    pub seed: u64,
}

/// Why nothing is chosen.
#[derive(Clone, Copy, Debug, PartialEq, Eq, Drop, Error)]
pub enum ChoiceError {
    /// The command doesn't take the words, or they break one of its rules.
    #[error("the words choose nothing")]
    Usage,
    /// There was no memory for reading the words.
    #[error("no memory")]
    NoMemory,
}
