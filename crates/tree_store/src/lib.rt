//! Vectors of 2 to 1024 slots, each kept as a balanced tree of pairs in one shared table (after Laarman, van
//! de Pol and Weber 2011).
#![tactic(auto)]

mod compact;
mod counts;
mod create;
mod fits;
mod insert;
mod marked;
mod passes;
mod plain;
mod read;
mod store;
mod tree;
mod unfold;

pub use compact::{CompactPass, CompactStore};
pub use counts::{raw_bytes_of, stored_bytes_of};
pub use create::CreateError;
pub use insert::insert_from_last;
pub use plain::{PlainPass, PlainStore};
pub use read::read_vector;
pub use store::TreeStore;

#[cfg(test)]
mod tests;
