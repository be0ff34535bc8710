//! Entries of pairs of prefixes compiled for look-ups: a trie of their sources, and for each source prefix a trie of the
//! destinations.
//!
//! `PairTrie::build`: the value holds just the given entries, in some order. `PairTrie::first` answers the least rank
//! of the entries that hold the packet (`value`). It reads at most 1,122 nodes, and as many entries as cover the
//! packet's addresses (`reads`).
#![tactic(auto)]

mod arenas;
mod chains;
mod entries;
mod growth;
mod halves;
mod lookup;
mod plain;
#[cfg(test)]
mod tests;

pub use arenas::PairTrie;
pub use entries::Entry;
pub use plain::first_listed;
