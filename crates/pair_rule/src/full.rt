//! That a table has no place for one more: the table of nodes, or that of roots.

use thiserror::Error;

/// The table of nodes is full for a pair: each bucket of the pair's path has another one.
#[derive(Clone, Copy, Debug, PartialEq, Eq, Drop, Error)]
#[error("the table of nodes is full")]
pub struct NodesFull;

/// The root table has no place for a root. What that says is told by the root part: in a plain table each
/// bucket of the root's path has another one.
#[derive(Clone, Copy, Debug, PartialEq, Eq, Drop, Error)]
#[error("the root table is full")]
pub struct RootsFull;
