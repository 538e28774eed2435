//! One region of a compact hash table: bit-packed cells that keep a map from (home, quotient) to flags
//! (Cleary 1984).
#![tactic(auto)]

mod access;
mod cells;
mod insertion;
pub mod laws;
mod reading;
mod region;
mod writing;

pub use access::{ReadWords, WriteWords};
pub use cells::{Cell, Sizes};
pub use insertion::RegionFull;
pub use region::Region;

#[cfg(test)]
mod tests;
