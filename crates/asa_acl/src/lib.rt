//! Access lists: their lines in order, and the removal of equal lines. It hands on what a line says and how it is read.
//!
//! `insert` puts a line where the definition puts it (`ok`), leaves the list after a refusal (`err`), and refuses
//! exactly at 65,536 lines (`full`). `place_of_equal`, `remove_at` and `remove_equal` are the definition's. A removal
//! compares fingerprints before lines; no clause says how long it takes.
#![tactic(auto)]

mod acl;
mod fingerprint;
mod held_line;
#[cfg(test)]
mod tests;

pub use acl::{Acl, AclFault, MOST_LINES};
pub use asa_acl_line::{Ace, AclLine, AddrRef, PortRef, ServiceRef, acl_line, parse_ace};
pub use held_line::HeldLine;
