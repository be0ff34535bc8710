//! The configuration of the firewall: its interfaces, routes, objects, groups, access lists and access groups, the step of a
//! configuration by one block, and readers of its parts.
#![tactic(auto)]

mod bindings;
mod config;
mod limits;
mod lines;
mod net;
mod objects;
mod places;
mod readers;
mod steps;
#[cfg(test)]
mod tests;

pub use asa_config_edit::{Class, EditFault, EditRefusal, class_of};
pub use asa_ifaces::{Iface, Ifaces, RouteLine, Timeouts};
pub use asa_objects::Objects;
pub use asa_text::cut_blocks;
pub use config::Config;
