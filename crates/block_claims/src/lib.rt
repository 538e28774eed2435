//! Blocks of work that many callers draw from one count: each block is drawn once, and none is left out.
//!
//! Word 0 of the table is kept for splitting and joining seats, and word 1 is the count. A drawer draws by a
//! fetch and add of 1 on the count. The rule that holds between any two steps is in specs/Rule.antt.
#![tactic(auto)]

mod claims;
mod draw;
mod drawer;
mod gather;
pub mod laws;
mod plays;
mod rule;
mod share;

pub use claims::Claims;
pub use drawer::Drawer;
pub use rule::ClaimsRule;
pub use share::{Share, Totals};

#[cfg(test)]
mod tests;
