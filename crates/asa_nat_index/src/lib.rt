//! The cases of NAT rules compiled for look-ups: entries of tries, by the interfaces of their cases.
//!
//! `NatIndex::build`: for every packet the look-ups answer the first case in order that holds it. `NatIndex::destination`
//! asks two tries and `NatIndex::source` four; each reads at most 1,122 nodes, and the entries that cover the packet.
#![tactic(auto)]

mod entries;
mod index;
mod part;
mod plain;
mod shelves;
#[cfg(test)]
mod tests;
mod tries;

pub use index::NatIndex;
pub use plain::{destination_listed, source_listed};
