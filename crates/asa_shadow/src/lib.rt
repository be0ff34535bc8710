//! Shadowed lines of a list, each with a certificate that a small checker accepts, and a packet for each line that some
//! packet first matches.
#![tactic(auto)]

mod box_at;
mod certificate;
mod finding;
mod finding_text;
mod judgement;
mod node;
mod region;
#[cfg(test)]
mod tests;
mod walk;

pub use box_at::{BoxAt, regions};
pub use certificate::check_trees;
pub use finding::Finding;
pub use finding_text::write_finding;
pub use judgement::judge;
pub use node::Node;
pub use region::{Region, Span};
