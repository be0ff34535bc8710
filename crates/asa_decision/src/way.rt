//! How a packet leaves.
use asa_flow::Route;

/// The interface that a packet leaves by, and how it was found.
#[derive(Clone, Copy, Debug, PartialEq, Eq)]
pub struct Way {
    pub route: Route,
    /// The number of the interface.
    pub egress: u8,
}
