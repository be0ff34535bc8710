//! Boxes as entries of a trie: for each prefix of a box's source and each of its destination one entry, in order.
//!
//! `entries_of`: for every packet the first match of the entries is the first match of the boxes (`first`), and as many
//! entries cover it as prefix pairs of the boxes do (`covering`).
#![tactic(auto)]

mod entries;

pub use entries::{Ranked, entries_of};
