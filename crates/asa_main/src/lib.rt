//! The top of the engine: a run of the program over its words, its input and its output, and the line that tells how it
//! ended.
#![tactic(auto)]

#[cfg(test)]
mod examples;
mod findings;
mod form;
mod input;
#[cfg(test)]
mod policies;
mod program;
#[cfg(test)]
mod shadows;
mod statuses;
#[cfg(test)]
mod tests;
mod writing;

pub use program::{run, shadow};
pub use statuses::{Reason, Status, exit_code, write_status};
