//! What the engine asks of its input and of its output.
//!
//! Both may tell their bytes, and then a caller's contract can speak of them. Of bytes that aren't told nothing is said.
ghost use Rattle.std.specs.Prelude.{◌+◌, ◌≤◌, ◌<◌, ℕ, List, Option, length, take, IfOk, OnErr, OnOk};
ghost use Rattle.std.specs.Io.KnownBytes.{Appends, Consumes, Keeps};
ghost use Rattle.asa_io.specs.Faults.{HasCause};
ghost use Rattle.asa_io.specs.Told.{EndsExactly};

use std::error::Error;
use std::fmt;

/// A read, a write or a flush failed. Nothing more is known of the cause.
#[derive(Clone, Copy, Debug, PartialEq, Eq)]
pub struct Failed;

impl fmt::Display for Failed {
    fn fmt<W: fmt::Write>(&self, f: &mut fmt::Formatter<W>) -> fmt::Result {
        write!(f, "input or output failed")
    }
}

impl Error for Failed {}

/// Where bytes come from.
pub trait Source {
    /// The bytes still to come, where the source tells them.
    ghost left: { Self → Option (List ℕ) };

    /// How many reads failed so far. The count never falls.
    ghost faults: { Self → ℕ };

    /// How many reads were made so far, where the source counts them.
    ghost reads: { Self → ℕ } = { λ _. 0 };

    /// Puts the next bytes at the front of the piece, and answers how many; 0 is the end of input.
    /// After a failure the told bytes are still to come.
    fn read(&mut self, piece: &mut [u8]) -> Result<usize, Failed>
        requires { 0 < length piece.old }
        ensures bound { IfOk result (λ n. n ≤ length piece.new) }
        ensures given { IfOk result (λ n. Consumes (left self.old) (left self.new) (take n piece.new)) }
        ensures end { IfOk result (EndsExactly (left self.old)) }
        ensures kept { OnErr result (Keeps (left self.old) (left self.new)) }
        ensures cause { HasCause result (faults self.old) (faults self.new) }
        ensures later { faults self.old ≤ faults self.new }
        ensures counted { reads self.new ≤ reads self.old + 1 };
}

/// Where bytes go.
pub trait Sink {
    /// The bytes given so far, where the sink tells them.
    ghost given: { Self → Option (List ℕ) };

    /// How many writes and flushes failed so far. The count never falls.
    ghost faults: { Self → ℕ };

    /// What was given has been passed on, where the sink knows it.
    ghost is_flushed: { Self → Type 0 } = { λ _. Unit {0} };

    /// Takes one or more of the first bytes of the piece, and answers how many.
    fn write(&mut self, piece: &[u8]) -> Result<usize, Failed>
        requires { 0 < length piece.now }
        ensures some { IfOk result (λ n. 0 < n) }
        ensures bound { IfOk result (λ n. n ≤ length piece.now) }
        ensures given { IfOk result (λ n. Appends (given self.old) (given self.new) (take n piece.now)) }
        ensures kept { OnErr result (Keeps (given self.old) (given self.new)) }
        ensures cause { HasCause result (faults self.old) (faults self.new) }
        ensures later { faults self.old ≤ faults self.new };

    /// Passes on what was taken.
    fn flush(&mut self) -> Result<(), Failed>
        ensures flushed { OnOk result (is_flushed self.new) }
        ensures kept { Keeps (given self.old) (given self.new) }
        ensures cause { HasCause result (faults self.old) (faults self.new) }
        ensures later { faults self.old ≤ faults self.new };
}
