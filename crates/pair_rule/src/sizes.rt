//! The sizes of a store, and what its table is about.

/// How large the tables of a store are, and how far a path goes.
#[derive(Clone, Copy, Debug, PartialEq, Eq)]
pub struct Sizes {
    /// The table of nodes has 2 to this power buckets: 3 to 25, and at most the width of a slot.
    pub nodes: u32,
    /// The table of roots has 2 to this power buckets or cells.
    pub roots: u32,
    /// A region of a compact table of roots has 2 to this power cells.
    pub region: u32,
    /// A path walks at most so many lines of 8 buckets: 1 to 4194304.
    pub probe: u64,
}

/// What a table is about. It is fixed when the table is made.
#[derive(Clone, Copy, Debug, PartialEq, Eq)]
pub struct About {
    /// How large the tables are, and how far a path goes.
    pub sizes: Sizes,
    /// The number of slots of a vector: 2 to 1024.
    pub slots: usize,
    /// How many words the root table has.
    pub root_words: usize,
    /// How many bits a slot, and a part of a pair, has: 1 to 31.
    pub width: u32,
    /// How many flags a vector has.
    pub flags: u32,
}
