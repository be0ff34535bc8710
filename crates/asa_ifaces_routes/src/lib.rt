//! The routes of a configuration: the networks of its interfaces and its route lines, compiled for look-ups.
//!
//! `Routes::build` gives the candidates of that configuration. `Routes::best` answers the best of those that cover the
//! address (`value`), with at most 33 reads (`reads`).
#![tactic(auto)]

mod candidates;
mod routes;

pub use candidates::Candidate;
pub use routes::Routes;
