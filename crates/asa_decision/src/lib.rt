//! The steps of a decision, each a small test of its own, and the trail that notes what they find.
//!
//! Each test answers the detail that its step notes, or the reason of the drop. `check` notes it, and ends the decision at
//! the first drop.
#![tactic(auto)]

mod steps;
#[cfg(test)]
mod tests;
mod trail;
mod way;

pub use steps::{reversed, routed, state, translated};
pub use trail::{begun_trail, check};
pub use way::Way;
