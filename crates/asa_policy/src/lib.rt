//! The access policy: a configuration compiled for deciding flows, and the decision of a packet step by step.
//!
//! `compile` gives the policy of that configuration. `Policy::decide` answers the definition's decision or drop
//! (`decided`), appends exactly its steps to the trail (`steps`), and reads at most so many entries and nodes
//! (`reads`). The definition speaks of lists and of routes, and never of tries.
#![tactic(auto)]

mod access_lists;
mod decision;
mod levels;
mod policy;
#[cfg(test)]
mod tests;

pub use asa_access::AccessVerdict;
pub use asa_flow::{Decision, Detail, DropReason, Phase, Route, SourceMap, Step, Trail};
pub use decision::begun_trail;
pub use policy::{Policy, compile};
