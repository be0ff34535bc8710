//! What the lines of access lists expand to: boxes, one for each source, destination and service of a line, and the
//! number of prefix pairs that a compiled list has.
//!
//! `boxes` are those of the definition (`value`) and have as many prefix pairs as the list (`pairs`). `line_pairs` and
//! `list_pairs` count prefix pairs without making them (`value`).
#![tactic(auto)]

mod expansion;
mod list_boxes;
mod pairs;
#[cfg(test)]
mod tests;

pub use asa_base::Meaning;
pub use list_boxes::boxes;
pub use pairs::{line_pairs, list_pairs};
