//! The script of a session: its phases, each with the commands of its lanes.
#![tactic(auto)]

mod draft;
mod lanes;
mod phase;
mod reader;
#[cfg(test)]
mod tests;

pub use asa_session_lines::{ScriptFault, Table};
pub use phase::{PhaseEnd, PhaseText, ScriptError};
pub use reader::read_script;
