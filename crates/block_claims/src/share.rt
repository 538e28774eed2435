//! What a seat at the table knows. No value of `Share` is made: it is what contracts see behind a seat.

use std::collections::LinkedList;

/// How many blocks there are to draw, and how many drawers. It is fixed when the table is made.
#[derive(Clone, Copy, Debug, PartialEq, Eq)]
pub struct Totals {
    /// 1 to 2^32.
    pub blocks: u64,
    /// 1 to 64.
    pub drawers: u64,
}

/// What a seat knows: the blocks that the drawers drew for which it stands.
pub struct Share {
    /// How many blocks and drawers there are, which a step cannot read from the table itself.
    pub totals: Totals,
    /// The blocks that were drawn, in rising order.
    pub drawn: LinkedList<u64>,
    /// How many drawers it stands for.
    pub drawers: u64,
    /// How many of these have ended.
    pub ended: u64,
}
