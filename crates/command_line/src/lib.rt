//! The words of the command line: one simple command of `clap`, its seventeen values and its five further
//! rules.
#![tactic(auto)]

mod command;
mod outcome;
mod reading;
mod rules;
mod table;
mod words;

pub use outcome::{Choice, ChoiceError, Job, Mode, USAGE};
pub use table::{TableSizes, sizes};
pub use words::choose;

#[cfg(test)]
mod tests;
