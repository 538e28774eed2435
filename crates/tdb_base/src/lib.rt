//! The outside as traits with a written meaning, the sources and sinks in memory, replies and statuses, and
//! the definitions of a history that all layers share.
#![tactic(auto)]

mod gate;
mod history;
mod laws;
pub mod plain;
mod reply;
mod sink;
mod source;
mod standard;
mod steps;

pub use gate::{Gate, NoGate, TurnGate};
pub use history::{Act, Entry};
pub use laws::{
    callers_may_be_renumbered, names_are_given_by_entries, names_are_kept, puts_need_no_flags,
    replies_tell_of_lines,
};
pub use reply::{Failed, NoMemory, Reply, Status};
pub use sink::{MemSink, Sink, SureSink};
pub use source::{MemSource, Source, SureSource};
pub use standard::{StdSink, StdSource};
pub use steps::{Kept, Ledger, Silent, Steps};

#[cfg(test)]
mod tests;
