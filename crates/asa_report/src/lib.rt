//! The text of the report: the history of all changes and each answer with the length of the prefix at which it holds;
//! and the texts that tell why a session is refused.
//!
//! `write_report` appends exactly the text of the report. `fault_text`, `kind_text` and `refused_line` give the texts
//! of their definitions, in buffers of a fixed size, so they take no memory.
#![tactic(auto)]

mod refusals;
mod report;
#[cfg(test)]
mod tests;
mod words;

pub use refusals::{
    ReasonText, StatusLine, fault_text, kind_text, refused_line, too_long_text, write_failed_line,
};
pub use report::write_report;
