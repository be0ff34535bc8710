//! Routes compiled for look-ups: a trie of their prefixes.
//!
//! `Fib::lookup` answers the number of the best of the value's routes that cover the address: longest prefix, then
//! distance, then number (`value`). It reads at most 33 nodes (`reads`). `Fib::build`: each route of the value is one
//! of the given ones (`given`), and for every address the best of the value's routes is the best of the given ones
//! (`best`).
#![tactic(auto)]

mod fib;
mod growth;
mod plain;
mod route;
#[cfg(test)]
mod tests;

pub use fib::Fib;
pub use plain::route_listed;
pub use route::Route;
