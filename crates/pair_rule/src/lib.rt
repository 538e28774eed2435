//! The one table of shared words, and the rule that holds between any two atomic steps of any number of
//! callers.
//!
//! Word 0 is kept for making, splitting and joining passes. Then follow the words of the nodes, each 0 or a
//! pair of parts (after the hash table of Laarman, van de Pol and Weber 2010), and the words of a root table.
//! What a root table adds to the rule is its `RootPart`.
#![tactic(auto)]

mod callers;
mod full;
mod no_root;
mod opening;
mod part;
mod pass;
pub mod plays;
mod rule;
mod sizes;
mod splits;
mod table;
mod view;
mod witness;

pub use callers::Caller;
pub use full::{NodesFull, RootsFull};
pub use no_root::NoRoot;
pub use opening::Opening;
pub use part::RootPart;
pub use pass::{Pass, PassOf};
pub use rule::NodeRule;
pub use sizes::{About, Sizes};
pub use table::PairTable;
pub use view::{Old, View};
pub use witness::Witness;

#[cfg(test)]
mod tests;
