//! Pairs that each stand once in the shared table: find or put a node, without a lock (after Laarman, van de
//! Pol and Weber 2010).
#![tactic(auto)]

mod flag;
pub mod laws;
mod nodes;
mod probe;
mod roots;
mod steps;

pub use flag::has_flag;
pub use nodes::Nodes;
pub use roots::{RootNames, RootTable, look_or_put};

#[cfg(test)]
mod tests;
