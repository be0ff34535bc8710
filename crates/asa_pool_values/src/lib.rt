//! The pools of dynamic NAT rules: the mapped addresses that a flow may get, and which ports an address gives.
#![tactic(auto)]

mod pool;
mod reserved;

pub use pool::{PatSpan, Pool, PortRule};
pub use reserved::Reserved;
