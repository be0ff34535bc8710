//! The order in which NAT rules are asked: the manual rules as they stand, the rules of objects by rank, and last the manual
//! rules that the configuration puts after these.
#![tactic(auto)]

mod keys;
mod sections;
#[cfg(test)]
mod tests;

pub use keys::{AutoRank, NatKey};
pub use sections::order;
