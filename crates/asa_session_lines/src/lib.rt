//! The lines of a session's script: what each says. A line is judged in its form first, then its interface, then its
//! numbers.
#![tactic(auto)]

mod flags;
mod line;
mod packet;
#[cfg(test)]
mod tests;
mod words;

pub use line::{ScriptFault, ScriptLine, Table, edit_text, script_line};
