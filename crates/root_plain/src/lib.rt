//! The root table of plain mode: a word for each named vector, whose place is the vector's identifier for
//! good.
//!
//! Each answer is one call of one history, made at one atomic step. The words stand in the shared table
//! behind those of the nodes, and are filled without a lock (after Laarman, van de Pol and Weber 2010).
#![tactic(auto)]

mod find;
mod flag;
mod flag_steps;
pub mod laws;
mod plays;
mod put;
mod root;
mod steps;
mod table;

pub use find::{find_id, root_pair};
pub use flag::{clear_flag, flags, set_flag};
pub use put::put_root;
pub use root::{PlainRoot, Roots};
pub use table::PlainTable;

#[cfg(test)]
mod tests;
