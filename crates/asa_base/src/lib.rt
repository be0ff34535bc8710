//! The values that every layer speaks of: names, networks, ranges, packets and their keys, and values that are read only
//! at a count. It stands on the text layer and hands its types on.
#![tactic(auto)]

mod boxes;
mod counter;
mod flow;
mod kinds;
mod lookup;
mod meanings;
mod names;
mod order;
mod prefix;
mod prefixes;
mod range;
mod readers;
mod service_words;
#[cfg(test)]
mod tests;

pub use asa_text::{Addr, LineFault, WordFault, parse_addr, parse_mask, parse_number};
pub use asa_text_names::{parse_icmp_type, parse_port, parse_proto};
pub use boxes::{LineBox, Service};
pub use counter::{Counter, Sealed};
pub use flow::{AccessBy, Header, Key, NatPlace, Packet};
pub use kinds::{Kind, Names, PortProto};
pub use lookup::{interface, named};
pub use meanings::Meaning;
pub use names::Name;
pub use prefix::{Prefix, same_network};
pub use prefixes::{prefix_count, prefixes_of};
pub use range::{Member, PortRange, Ports, Range};
pub use readers::{name, network, route_network, zero_or_address, zero_or_mask};
pub use service_words::{icmp_code, icmp_type, port, ports, protocol, states_ports};
