//! The policy machine of one thread: what it answers to a command, what an entry of its history changes, and the
//! serial run of a session.
//!
//! `reply` and `change` answer what the machine of the definition does at a state, and `apply` makes its step
//! (`applied`). `run_serial` gives the reports of the serial run (`serial`). In it each connection that is opened has
//! the number of entries before its own, plus 1, as its id (`numbered`).
#![tactic(auto)]

mod answers;
mod history;
mod serial;
mod state;

pub use answers::{change, reply};
pub use history::{Answer, Conn, Entry, Given, Load, PhaseReport};
pub use serial::run_serial;
pub use state::{State, apply};

#[cfg(test)]
mod tests;
