//! Static maps of NAT compiled for look-ups: the k-th address of a first list of ranges becomes the k-th of a second.
//!
//! `StaticMap::sent`: what an address becomes, found by two searches where no ranges meet. `StaticMap::is_reached`: whether
//! some real address becomes a mapped one. `Places`: the ranges of one side, numbered.
#![tactic(auto)]

mod map;
mod piece;
mod places;
#[cfg(test)]
mod tests;

pub use map::StaticMap;
pub use places::Places;
