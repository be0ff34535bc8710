//! The standard streams as a source and as a sink. They are the trusted edge: they tell no bytes, so what a terminal,
//! a pipe or a file held is known to no contract. What is proved of them is how they count their failures. A contract
//! sees each of them as that count.
ghost use Rattle.std.specs.Prelude.{◌≡◌, ◌<◌, ◌≤◌, None, IfOk, length};
ghost use Rattle.asa_io.specs.Faults.{Counts, one_more};

use super::traits::{Failed, Sink, Source};
use std::io;
use std::io::{Read, Stderr, Stdin, Stdout, Write};
use std::marker::Model;

/// Standard input.
#[derive(Drop)]
pub struct StdSource {
    input: Stdin,
    faults: u64,
}

impl Model for StdSource {
    ghost use Rattle.std.specs.Prelude.{ℕ};

    ghost Value = { ℕ };

    ghost view = { λ s. s.faults };
}

impl StdSource {
    /// No read has failed yet.
    pub fn new(rt: &HostRuntime) -> Self
        ensures { result ≡ 0 }
    {
        StdSource {
            input: rt.stdin(),
            faults: 0,
        }
    }
}

impl Source for StdSource {
    ghost left = { λ _. None };

    ghost faults = { λ count. count };

    fn read(&mut self, piece: &mut [u8]) -> Result<usize, Failed>
        requires { 0 < length piece.old }
        ensures bound { IfOk result (λ n. n ≤ length piece.new) }
        ensures counts { Counts result self.old self.new }
        ensures later { self.old ≤ self.new }
    {
        match self.input.read(piece) {
            Ok(n) => Ok(n),
            Err(_) => {
                self.faults = self.faults.saturating_add(1);
                Err(Failed)
            }
        }
    }
}

#[derive(Clone, Copy)]
enum Stream {
    Output(Stdout),
    Error(Stderr),
}

impl Stream {
    fn write(&mut self, piece: &[u8]) -> io::Result<usize>
        ensures { IfOk result (λ n. n ≤ length piece.now) }
    {
        match self {
            Stream::Output(stream) => stream.write(piece),
            Stream::Error(stream) => stream.write(piece),
        }
    }

    fn flush(&mut self) -> io::Result<()> {
        match self {
            Stream::Output(stream) => stream.flush(),
            Stream::Error(stream) => stream.flush(),
        }
    }
}

/// Standard output or standard error.
#[derive(Drop)]
pub struct StdSink {
    stream: Stream,
    faults: u64,
}

impl Model for StdSink {
    ghost use Rattle.std.specs.Prelude.{ℕ};

    ghost Value = { ℕ };

    ghost view = { λ s. s.faults };
}

impl StdSink {
    /// Standard error where `error` is true, else standard output. No write has failed yet.
    pub fn new(rt: &HostRuntime, error: bool) -> Self
        ensures { result ≡ 0 }
    {
        let stream = if error {
            Stream::Error(rt.stderr())
        } else {
            Stream::Output(rt.stdout())
        };
        StdSink { stream, faults: 0 }
    }

    fn fail(&mut self) -> Failed
        ensures after { self.new ≡ one_more self.old }
        ensures later { self.old ≤ self.new }
    {
        self.faults = self.faults.saturating_add(1);
        Failed
    }
}

impl Sink for StdSink {
    ghost given = { λ _. None };

    ghost faults = { λ count. count };

    /// A write that takes nothing has failed.
    fn write(&mut self, piece: &[u8]) -> Result<usize, Failed>
        requires { 0 < length piece.now }
        ensures some { IfOk result (λ n. 0 < n) }
        ensures bound { IfOk result (λ n. n ≤ length piece.now) }
        ensures counts { Counts result self.old self.new }
        ensures later { self.old ≤ self.new }
    {
        match self.stream.write(piece) {
            Ok(n) if n > 0 => Ok(n),
            _ => Err(self.fail()),
        }
    }

    fn flush(&mut self) -> Result<(), Failed>
        ensures counts { Counts result self.old self.new }
        ensures later { self.old ≤ self.new }
    {
        match self.stream.flush() {
            Ok(()) => Ok(()),
            Err(_) => Err(self.fail()),
        }
    }
}
