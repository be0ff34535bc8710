//! Flows: the keys by which their packets are known, what deciding one can come to, and what a firewall is asked.
//!
//! `key_of`, `reply_key`, `header_of`, `tracked` and `rewrite` are their definitions (`value`); copies are equal to what
//! is copied.
#![tactic(auto)]

mod command;
mod keys;
mod outcomes;
#[cfg(test)]
mod tests;

pub use command::Command;
pub use keys::{header_of, key_of, reply_key, rewrite, tracked};
pub use outcomes::{Decision, Detail, DropReason, Phase, Route, SourceMap, Step, Trail, copy_of};
