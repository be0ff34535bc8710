//! The cases of NAT rules, why a rule has none, and what its maps do.
#![tactic(auto)]

mod case;
mod fault;
mod maps;
mod meaning;
mod names;
mod pairs;
mod pools;
mod ports;
mod sets;
#[cfg(test)]
mod tests;

pub use asa_nat_lines::{
    MappedRef, NatLine, NatRule, NewRule, PoolRef, PortRule, RealRef, RuleFields, ServicePart,
    manual_rule, own_rule, parse_nat, removed_rule,
};
pub use case::{Case, CaseMap, cases_of, forward_case, opposite_case};
pub use fault::{NatFault, fault_of};
pub use maps::opposite_undoes;
pub use meaning::NatMeaning;
pub use names::{names_of, uses};
pub use pairs::rule_pairs;
