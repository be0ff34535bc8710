//! A session: the startup configuration and the script, with the commands of each phase.
//!
//! `read_session` gives the session that the definition `session_of` says of the text, or its refusal at its least
//! refused line (`judged`), and what the machine needs of a session (`ready`). `read_startup` does the same for a startup
//! configuration without a script, by the definition `startup_of`.
#![tactic(auto)]

mod commands;
mod flows;
mod opening;
mod reader;
mod refusals;
mod session;
mod startup;
mod startup_text;

pub use asa_text::Shared;
pub use reader::read_session;
pub use session::{Command, PhaseEnd, PhaseText, Session, SessionError, SessionKind};
pub use startup_text::read_startup;

#[cfg(test)]
mod tests;
