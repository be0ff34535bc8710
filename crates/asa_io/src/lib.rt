//! The outside of the engine: where bytes come from, where they go, and the gate that a test may hold.
//!
//! The engine knows its input, its output and its gate by the traits `Source`, `Sink` and `Gate` alone.
//! `read_all` and `write_all` move whole texts. The types in memory tell their bytes and fail where they
//! are told to; the standard streams tell no bytes.
#![tactic(auto)]

mod gates;
mod memory;
mod streams;
#[cfg(test)]
mod tests;
mod traits;
mod whole;

pub use gates::{Gate, OpenGate, Place};
pub use memory::{MemorySink, MemorySource};
pub use streams::{StdSink, StdSource};
pub use traits::{Failed, Sink, Source};
pub use whole::{ReadError, WriteError, read_all, write_all};
