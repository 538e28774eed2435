//! The store at work: a page of code that searches the states of a small protocol, to be copied.
#![tactic(auto)]

mod first;
mod path;
mod peterson;
mod search;
mod together;

pub use first::insert_and_read;
pub use path::path_to_error;
pub use peterson::{Protocol, State};
pub use search::{Found, SearchError, search_peterson};
pub use together::search_together;

#[cfg(test)]
mod tests;
