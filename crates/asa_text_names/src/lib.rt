//! The names of ports, protocols and ICMP types, and what a word means as one of these.
#![tactic(auto)]

mod lookup;
mod parsers;
mod tables;

pub use parsers::{parse_icmp_type, parse_port, parse_proto};

#[cfg(test)]
mod tests;
