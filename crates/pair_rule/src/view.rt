//! What a pass knows of the table. No value of these types is made: they are what contracts see behind a
//! seat.

use crate::sizes::About;
use std::collections::LinkedList;
use tdb_base::Entry;

/// What one of two views knew that were joined.
pub struct Old {
    /// The front of the table's history that it had seen.
    pub seen: LinkedList<Entry>,
    /// Its number, and those of the passes that had been joined into it.
    pub numbers: LinkedList<u64>,
}

/// What a pass knows. `T` is what it knows of the root table.
pub struct View<T> {
    /// Whether it is some pass's, and was not joined into another.
    pub live: bool,
    /// Whether a call on the root table is under way that must end before a split or a join.
    pub busy: bool,
    /// Whether a probe of nodes has begun that has put no pair yet.
    pub probing: bool,
    /// What the table is about.
    pub about: About,
    /// The caller that it steps as.
    pub number: u64,
    /// How many passes were split from it.
    pub splits: u64,
    /// Its number, and those of the passes that were joined into it.
    pub numbers: LinkedList<u64>,
    /// The numbers of the passes that were split from one of those.
    pub born: LinkedList<u64>,
    /// The front of the table's history that it has seen.
    pub seen: LinkedList<Entry>,
    /// Nodes: each an index, and the pair there as one number.
    pub known: LinkedList<(u64, u64)>,
    /// The indexes of the nodes that it put there.
    pub made: LinkedList<u64>,
    /// How many probes of nodes it began.
    pub probes: u64,
    /// After two views were joined, and until the load that follows: what both had seen.
    pub olds: LinkedList<Old>,
    /// What it knows of the root table.
    pub root: T,
}
