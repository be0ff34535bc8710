//! What the tries of networks share: the bits of addresses and prefixes, and the theory of a trie that is built by
//! dividing a block of addresses into its halves.
//!
//! `height`, `covers`, `bit_below`, `is_here`, `is_low` and `is_high` answer what their definitions say. `over` gives
//! the block of a level that has an address (`length`, `level`, `block`). The theory holds of every way to join values
//! that is a commutative monoid: what a walk along the bits of an address finds is the join of the items that cover it.
#![tactic(auto)]

mod bits;
#[cfg(test)]
mod tests;

pub use bits::{bit_below, covers, height, is_here, is_high, is_low, over};
