//! What access lists and levels say of a packet: the list of its input, the list of all inputs, the level rule, and the
//! list of its egress.
//!
//! `Access::inbound` and `Access::outbound` answer the verdict over the compiled lists, by the first match of each list
//! that is asked (`value`): the interface's list, the global list, the implicit deny, the levels. They read at most
//! 2,244 and 1,122 nodes, and as many entries as cover the packet (`reads`). `Access::build`: for every packet these
//! are the verdicts over the lists that were compiled (`inbound`, `outbound`), with as many entries (`inbound_reads`,
//! `outbound_reads`).
#![tactic(auto)]

mod access;
mod compiled;
mod list;
mod rules;
#[cfg(test)]
mod tests;
mod verdict;

pub use access::Access;
pub use list::AccessList;
pub use verdict::AccessVerdict;
