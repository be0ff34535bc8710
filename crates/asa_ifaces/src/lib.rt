//! Interface blocks, routes, timeouts and the traffic between interfaces of one level: what a configuration holds of
//! them, and the step by one block or line.
//!
//! Each call on interfaces, routes, idle times and permits makes the step that its definition says, or gives its
//! refusal and leaves the value (`Makes`, `Changes`). At most 64 interfaces and 4,096 routes hold of every value
//! (`few`), and each route leaves by one of the interfaces (`leave`).
#![tactic(auto)]

mod iface;
mod iface_block;
mod ifaces;
mod permits;
mod route;
mod stated;
#[cfg(test)]
mod tests;
mod timeouts;

pub use iface::{Iface, IfaceFault, Permits, RouteLine, Timeouts};
pub use ifaces::Ifaces;
pub use permits::read_permits;
