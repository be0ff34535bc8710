//! NAT rules: what a `nat` line says, when two rules are equal, and how a line is read, in the block of a network object
//! or by itself.
#![tactic(auto)]

mod grammar;
mod mapped;
mod options;
mod pair;
mod pool;
mod rule;
mod service;
#[cfg(test)]
mod tests;

pub use asa_pool_values::PortRule;
pub use grammar::{NatLine, NewRule, manual_rule, own_rule, parse_nat, removed_rule};
pub use rule::{MappedRef, NatRule, PoolRef, RealRef, RuleFields, ServicePart};
