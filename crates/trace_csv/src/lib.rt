//! The trace as it comes in or is drawn, and the report and the vectors as they go out.
//!
//! A trace is text of comma-separated numbers, a vector a record (`read_all`, `read_trace`), or a walk that
//! is drawn (`generate`). A report has a line for each vector's reply and then a summary (`write_report`,
//! `write_summary`, with each line's worker `write_drawn`, and with its mark `write_marks`); vectors have a line each (`write_vectors`).
#![tactic(auto)]

mod direct;
mod field;
mod form;
mod input;
pub mod laws;
mod number;
mod one_report;
mod output;
mod page;
mod read;
mod refusal;
mod report;
mod rows;
mod trace;
mod vectors;
mod walk;
mod whole_text;

pub use form::Form;
pub use input::{InError, read_all};
pub use one_report::{
    one_drawn_report_of_replies, one_marked_report_of_replies, one_report_of_replies,
};
pub use output::WriteFault;
pub use read::{read_signed, read_trace};
pub use refusal::TraceError;
pub use report::{Stats, Summary, write_drawn, write_marks, write_report, write_summary};
pub use trace::Trace;
pub use vectors::{write_signed, write_vectors};
pub use walk::generate;
pub use whole_text::write_text;

#[cfg(test)]
mod tests;
