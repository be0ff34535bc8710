//! Two published copies of a machine's state: one writer adds entries to a history that only grows, and readers beside
//! it open the state after a beginning of that history without waiting.
//!
//! It stands on `left_right`, which keeps the two copies, and on `logbook`, which keeps the one list of entries in proofs.
//!
//! `Writer::add` extends the history by its entry (`added`) and makes the machine's step (`state`); after want of
//! memory both stay (`err`). `Reader::read` waits for nobody, takes no memory, and opens the state after a list of
//! entries that has all that it had seen as a prefix (`read`, `on`). `meet` tells which list is a prefix of which
//! (`tells`).
#![tactic(auto)]

mod deed;
mod door;
mod front;
mod machine;
mod meetings;
mod reader;
mod rule;
mod start;
mod writer;

pub use deed::Deed;
pub use machine::Machine;
pub use meetings::{Meeting, meet};
pub use reader::{Away, Reader};
pub use start::open_live;
pub use writer::Writer;

#[cfg(test)]
mod tests;
#[cfg(test)]
mod toys;
