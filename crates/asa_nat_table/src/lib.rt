//! The NAT rules of a configuration: manual rules before and after those of objects, what uses a name, which rule is at
//! fault, and the cases of all rules in NAT order.
#![tactic(auto)]

mod fault;
mod held_rule;
mod own_rules;
mod section;
mod table;
#[cfg(test)]
mod tests;

pub use fault::RuleFault;
pub use held_rule::HeldRule;
pub use table::NatTable;
