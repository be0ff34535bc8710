//! The table of live connections, which are found by either key and by id. It takes its memory when it is made.
//!
//! `ConnTable` is seen as the list of the connections by rising id, and each call is the plain list's (`value`). Ids rise
//! and all keys are distinct (`len`, `sound`).
#![tactic(auto)]

mod conn;
mod hash;
mod shelf;
mod table;
#[cfg(test)]
mod tests;
mod wanted;

pub use conn::{Conn, Side, Xlate};
pub use table::ConnTable;
