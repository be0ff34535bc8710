//! Places that the engine's threads pass, where a test may hold one until another is passed.
use std::sync::Wait;

/// A place that a thread passes.
#[derive(Clone, Copy, Debug, PartialEq, Eq)]
pub enum Place {
    /// A new configuration is about to be compiled.
    BeforeCompile,
    /// A compiled configuration is about to be published.
    BeforePublish,
    /// The lane of this number has answered a command.
    AfterAnswer(u8),
}

/// What a thread passes at each place. It may hold the thread.
pub trait Gate {
    /// Returns once the thread may go on.
    fn pass<R: Wait>(&self, rt: &R, place: Place);
}

/// The gate of the program: it holds no thread.
#[derive(Clone, Copy, Debug)]
pub struct OpenGate;

impl Gate for OpenGate {
    /// Returns at once.
    fn pass<R: Wait>(&self, _rt: &R, _place: Place) {}
}
