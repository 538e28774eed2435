//! The root table of compact mode: roots in the cells of regions, each region under a lock of one word.
#![tactic(auto)]

mod access;
mod find;
mod flag;
mod held;
pub mod laws;
mod lock;
mod peek;
mod plays;
mod put;
mod root;
mod steps;
mod table;
mod taken;
mod words;

pub use find::{find_id, root_pair};
pub use flag::{clear_flag, flags, set_flag};
pub use peek::{Peek, peek_root};
pub use put::put_root;
pub use root::{CompactRoot, Holding, Reading, Regions};
pub use table::CompactTable;
pub use taken::locks_taken;

#[cfg(test)]
mod tests;
