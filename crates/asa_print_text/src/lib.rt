//! Printing of the configuration line by line. Each line is words, of which its reader finds just these again, and blocks
//! of printed lines are cut from their text as they were printed.
#![tactic(auto)]

mod services;
mod word;

pub use services::{push_ports, push_protocol};
pub use word::{Word, push_inner, push_top, push_words};

#[cfg(test)]
mod tests;
