//! Lines of access lists: what an access control entry or a remark says, when two lines are equal, which objects and
//! groups a line uses, and how a line is read.
//!
//! `acl_line` and `parse_ace` read the whole grammar of a list line, each fault at its column (`MayRead`, `MayParse`);
//! of want of memory nothing is said. `AclLine::is_same` is equality of values (`test`, `equal`). `uses` is the
//! definition's.
#![tactic(auto)]

mod ace;
mod grammar;
mod parts;
#[cfg(test)]
mod tests;

pub use ace::{Ace, AclLine, AddrRef, PortRef, ServiceRef};
pub use grammar::{acl_line, parse_ace};
