//! What the names of a configuration's objects and groups stand for: the members of each in their order, the changes that a
//! block makes of them, what the readers of lines ask of them, and why a block is refused.
#![tactic(auto)]

mod draft;
mod faults;
mod item_order;
mod kinds;
mod sizes;
mod value;

pub use draft::{Change, Draft, item_of_value};
pub use faults::ObjectFault;
pub use item_order::OrderedItems;
pub use kinds::{kind_in, port_proto_in, service_range_in};
pub use sizes::{address_count, subnet_count};
pub use value::{Stated, group_of, name_in};
