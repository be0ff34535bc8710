//! Sources and sinks in memory: they tell their bytes, and fail at the calls that they are made to fail at.
ghost use Rattle.std.specs.Prelude.{◌≡◌, ◌++◌, ◌≤◌, ◌<◌, [], Some, IfOk, IsTrue, OnErr, drop, length, take, true};
ghost use Rattle.asa_io.specs.InMemory.{after_call, after_flush, after_read, after_write, fails_or, is_named, read_answer, write_answer};

use super::traits::{Failed, Sink, Source};
use std::alloc::{AllocError, Global};
use std::marker::Model;

// The calls of a source or of a sink, numbered from 1, of which those with the given numbers are to fail.
#[derive(Debug, Drop)]
struct Numbered {
    fail_at: Vec<u32>,
    made: u64,
    failed: u64,
}

impl Model for Numbered {
    ghost use Rattle.asa_io.specs.InMemory.{Calls};

    ghost Value = { Calls };

    ghost view = { λ c. record { fail_at = c.fail_at.items; made = c.made; failed = c.failed } };
}

impl Numbered {
    fn new(fail_at: Vec<u32>) -> Self
        ensures { result ≡ record { fail_at = fail_at.items; made = 0; failed = 0 } }
    {
        Numbered {
            fail_at,
            made: 0,
            failed: 0,
        }
    }

    // The next call is to fail.
    fn is_next_named(&self) -> bool
        ensures { result ≡ is_named self.now }
    {
        let number = self.made.saturating_add(1);
        self.fail_at.iter().any(|k| u64::from(*k) == number)
    }

    // Counts a call, which failed or didn't.
    fn count(&mut self, failed: bool)
        ensures after { self.new ≡ after_call failed self.old }
        ensures later { self.old.failed ≤ self.new.failed }
    {
        self.made = self.made.saturating_add(1);
        if failed {
            self.failed = self.failed.saturating_add(1);
        }
    }
}

/// Reads bytes in memory, and fails at the reads that it is made to fail at. It tells its bytes.
#[derive(Debug, Drop)]
pub struct MemorySource {
    bytes: Vec<u8>,
    at: usize,
    calls: Numbered,
}

impl Model for MemorySource {
    ghost use Rattle.std.specs.Prelude.{◌≤◌, drop, length};
    ghost use Rattle.asa_io.specs.InMemory.{Input};

    ghost Value = { Input };

    ghost view = { λ s. record { left = drop s.at s.bytes.items; calls = s.calls } };

    ghost invariant = { λ s. s.at ≤ length s.bytes.items };
}

impl MemorySource {
    /// Gives these bytes. Reads are numbered from 1, and those whose numbers `fail_at` has fail, no other.
    pub fn new(bytes: Vec<u8>, fail_at: Vec<u32>) -> Self
        ensures { result ≡ record { left = bytes.items; calls = record { fail_at = fail_at.items; made = 0; failed = 0 } } }
    {
        MemorySource {
            bytes,
            at: 0,
            calls: Numbered::new(fail_at),
        }
    }
}

impl Source for MemorySource {
    ghost left = { λ s. Some s.left };

    ghost faults = { λ s. s.calls.failed };

    ghost reads = { λ s. s.calls.made };

    /// Gives as much as fits into the piece. A read that fails leaves the piece as it was.
    fn read(&mut self, piece: &mut [u8]) -> Result<usize, Failed>
        requires { 0 < length piece.old }
        ensures answer { result ≡ read_answer self.old (length piece.old) }
        ensures after { self.new ≡ after_read self.old (length piece.old) }
        ensures failed { OnErr result (piece.new ≡ piece.old) }
        ensures piece { IfOk result (λ n. piece.new ≡ take n self.old.left ++ drop n piece.old) }
        ensures later { self.old.calls.failed ≤ self.new.calls.failed }
    {
        let fails = self.calls.is_next_named();
        self.calls.count(fails);
        if fails {
            return Err(Failed);
        }
        let n = piece.len().min(self.bytes.len() - self.at);
        let end = self.at + n;
        piece[..n].copy_from_slice(&self.bytes[self.at..end]);
        self.at = end;
        Ok(n)
    }
}

/// Takes bytes into memory, up to its room, and fails at the calls that it is made to fail at. It tells its bytes.
#[derive(Debug, Drop)]
pub struct MemorySink {
    given: Vec<u8>,
    room: u32,
    flushed: bool,
    calls: Numbered,
}

impl Model for MemorySink {
    ghost use Rattle.std.specs.Prelude.{◌≤◌, vec_capacity, vec_len};
    ghost use Rattle.asa_io.specs.InMemory.{Output};

    ghost Value = { Output };

    ghost view = { λ s. record { given = s.given.items; room = s.room; flushed = s.flushed; calls = s.calls } };

    ghost invariant = { λ s. (vec_len s.given ≤ s.room) × (s.room ≤ vec_capacity s.given) };
}

impl MemorySink {
    /// Takes as many bytes as the room, which is reserved here. Writes and flushes are numbered together from 1.
    /// The calls whose numbers `fail_at` has fail, and writes where the room is used up, and no other call.
    pub fn new(alloc: Global, fail_at: Vec<u32>, room: u32) -> Result<Self, AllocError>
        ensures { IfOk result (λ s. s ≡ record { given = []; room = room; flushed = true; calls = record { fail_at = fail_at.items; made = 0; failed = 0 } }) }
    {
        let given = Vec::with_capacity(alloc, room as usize)?;
        Ok(MemorySink {
            given,
            room,
            flushed: true,
            calls: Numbered::new(fail_at),
        })
    }

    /// The bytes that were given so far.
    pub fn given(&self) -> &[u8]
        ensures { result.now ≡ self.now.given }
    {
        self.given.as_slice()
    }
}

impl Sink for MemorySink {
    ghost given = { λ s. Some s.given };

    ghost faults = { λ s. s.calls.failed };

    ghost is_flushed = { λ s. IsTrue s.flushed };

    /// Takes the whole piece, or what fits into the room.
    fn write(&mut self, piece: &[u8]) -> Result<usize, Failed>
        requires { 0 < length piece.now }
        ensures answer { result ≡ write_answer self.old piece.now }
        ensures after { self.new ≡ after_write self.old piece.now }
        ensures later { self.old.calls.failed ≤ self.new.calls.failed }
    {
        let spare = self.room as usize - self.given.len();
        let fails = self.calls.is_next_named() || spare == 0;
        self.calls.count(fails);
        if fails {
            return Err(Failed);
        }
        self.flushed = false;
        let n = piece.len().min(spare);
        match self.given.extend_from_slice(&piece[..n]) {
            Ok(()) => Ok(n),
            Err(_) => unreachable!(),
        }
    }

    fn flush(&mut self) -> Result<(), Failed>
        ensures answer { result ≡ fails_or (is_named self.old.calls) tt }
        ensures after { self.new ≡ after_flush self.old }
        ensures later { self.old.calls.failed ≤ self.new.calls.failed }
    {
        let fails = self.calls.is_next_named();
        self.calls.count(fails);
        if fails {
            return Err(Failed);
        }
        self.flushed = true;
        Ok(())
    }
}
