//! Reading a source to its end, and writing a text whole.
ghost use Rattle.std.specs.Prelude.{◌≡◌, ◌+◌, ◌≤◌, ◌<◌, ◌++◌, length, take, max, IfOk, IfErr, OnOk, IsErrOf, vec_len, vec_capacity};
ghost use Rattle.std.specs.Io.KnownBytes.{Appends, Consumes, Keeps};
ghost use Rattle.asa_io.specs.declared.whole.ReadError.TheVariants.{NoMemory as no_memory, Failed as read_failed};
ghost use Rattle.asa_io.specs.Faults.{HasCause, Rose};
ghost use Rattle.asa_io.specs.Told.{EndsExactly, Exceeds, TakesAll, TakesAtMost};
ghost use Rattle.asa_io.specs.Whole.{written_of};

use super::traits::{Failed, Sink, Source};
use std::alloc::{AllocError, Global};
use std::error::Error;
use std::fmt;

// A read asks for at most so many bytes.
const PIECE: usize = 8192;

/// Why a source wasn't read to its end.
#[derive(Clone, Copy, Debug, PartialEq, Eq)]
pub enum ReadError {
    /// A read failed.
    Failed,
    /// There were more bytes than the limit.
    TooLong,
    /// There was no memory for the bytes.
    NoMemory,
}

impl fmt::Display for ReadError {
    fn fmt<W: fmt::Write>(&self, f: &mut fmt::Formatter<W>) -> fmt::Result {
        match self {
            ReadError::Failed => write!(f, "reading failed"),
            ReadError::TooLong => write!(f, "the input is too long"),
            ReadError::NoMemory => write!(f, "out of memory"),
        }
    }
}

impl Error for ReadError {}

impl From<Failed> for ReadError {
    ghost from_gives = { λ _ e. e ≡ read_failed };

    fn from(_: Failed) -> Self {
        ReadError::Failed
    }
}

impl From<AllocError> for ReadError {
    ghost from_gives = { λ _ e. e ≡ no_memory };

    fn from(_: AllocError) -> Self {
        ReadError::NoMemory
    }
}

/// Why a text wasn't written whole.
#[derive(Clone, Copy, Debug, PartialEq, Eq)]
pub enum WriteError {
    /// A write or the flush failed, after this many bytes of the text were given.
    Failed { written: u64 },
}

impl fmt::Display for WriteError {
    fn fmt<W: fmt::Write>(&self, f: &mut fmt::Formatter<W>) -> fmt::Result {
        match self {
            WriteError::Failed { written } => write!(f, "writing failed after {written} bytes"),
        }
    }
}

impl Error for WriteError {}

// Makes room for n more bytes: twice the room, or all that the limit allows, so that few moves are made.
fn make_room(bytes: &mut Vec<u8>, n: usize, limit: u64) -> Result<(), AllocError>
    requires { vec_len bytes.old + n ≤ limit }
    ensures items { bytes.new.items ≡ bytes.old.items }
    ensures room { OnOk result (vec_len bytes.new + n ≤ vec_capacity bytes.new) }
    ensures within { vec_capacity bytes.new ≤ max (vec_capacity bytes.old) limit }
{
    let len = bytes.len();
    if n <= bytes.capacity() - len {
        return Ok(());
    }
    let spare = limit - len as u64;
    let more = if spare < len as u64 {
        spare as usize
    } else {
        len
    };
    bytes.reserve_exact(more.max(n))
}

fn append(bytes: &mut Vec<u8>, more: &[u8], limit: u64) -> Result<(), AllocError>
    requires { vec_len bytes.old + length more.now ≤ limit }
    ensures { OnOk result (bytes.new.items ≡ bytes.old.items ++ more.now) }
{
    make_room(bytes, more.len(), limit)?;
    bytes.extend_from_slice(more)
}

// Reads once, at most one byte past what may still come.
fn read_within<S: Source>(src: &mut S, piece: &mut [u8], spare: u64) -> Result<usize, ReadError>
    requires { 0 < length piece.old }
    ensures bound { IfOk result (λ n. n ≤ length piece.new) }
    ensures within { IfOk result (λ n. n ≤ spare) }
    ensures given { IfOk result (λ n. Consumes (S.left src.old) (S.left src.new) (take n piece.new)) }
    ensures end { IfOk result (EndsExactly (S.left src.old)) }
    ensures failed { IsErrOf result ReadError.Failed → Keeps (S.left src.old) (S.left src.new) }
    ensures cause { IsErrOf result ReadError.Failed → Rose (S.faults src.old) (S.faults src.new) }
    ensures too_long { IsErrOf result ReadError.TooLong → Exceeds spare (S.left src.old) (S.left src.new) }
    ensures memory { IsErrOf result ReadError.NoMemory → ⊥ }
    ensures later { S.faults src.old ≤ S.faults src.new }
    ensures counted { S.reads src.new ≤ S.reads src.old + 1 }
{
    let n = if spare < piece.len() as u64 {
        src.read(&mut piece[..spare as usize + 1])?
    } else {
        src.read(piece)?
    };
    if n as u64 > spare {
        return Err(ReadError::TooLong);
    }
    Ok(n)
}

/// Reads a source to its end, up to a limit, in pieces of some KiB. It takes at most one byte past the limit.
pub fn read_all<S: Source>(alloc: Global, src: &mut S, limit: u64) -> Result<Vec<u8>, ReadError>
    ensures within { IfOk result (λ bytes. vec_len bytes ≤ limit) }
    ensures all { IfOk result (λ bytes. TakesAll (S.left src.old) (S.left src.new) bytes.items) }
    ensures too_long { IsErrOf result ReadError.TooLong → Exceeds limit (S.left src.old) (S.left src.new) }
    ensures failed { IsErrOf result ReadError.Failed → TakesAtMost limit (S.left src.old) (S.left src.new) }
    ensures memory { IsErrOf result ReadError.NoMemory → TakesAtMost limit (S.left src.old) (S.left src.new) }
    ensures cause { IsErrOf result ReadError.Failed → Rose (S.faults src.old) (S.faults src.new) }
    ensures later { S.faults src.old ≤ S.faults src.new }
    ensures few_reads { S.reads src.new ≤ S.reads src.old + limit + 1 }
{
    let mut bytes = Vec::new(alloc);
    let mut piece = [0u8; PIECE];
    loop {
        let n = read_within(src, &mut piece, limit - bytes.len() as u64)?;
        if n == 0 {
            return Ok(bytes);
        }
        append(&mut bytes, &piece[..n], limit)?;
    }
}

/// Gives a sink all the bytes, and flushes it. After a failure some of the first bytes were given, as many as the error says.
pub fn write_all<K: Sink>(sink: &mut K, bytes: &[u8]) -> Result<(), WriteError>
    ensures all { OnOk result (Appends (K.given sink.old) (K.given sink.new) bytes.now) }
    ensures flushed { OnOk result (K.is_flushed sink.new) }
    ensures bound { IfErr result (λ e. written_of e ≤ length bytes.now) }
    ensures front { IfErr result (λ e. Appends (K.given sink.old) (K.given sink.new) (take (written_of e) bytes.now)) }
    ensures cause { HasCause result (K.faults sink.old) (K.faults sink.new) }
    ensures later { K.faults sink.old ≤ K.faults sink.new }
{
    let mut written = 0usize;
    while written < bytes.len() {
        match sink.write(&bytes[written..]) {
            Ok(n) => written += n,
            Err(Failed) => return Err(failed_after(written)),
        }
    }
    match sink.flush() {
        Ok(()) => Ok(()),
        Err(Failed) => Err(failed_after(written)),
    }
}

fn failed_after(written: usize) -> WriteError
    ensures { written_of result ≡ written }
{
    WriteError::Failed {
        written: written as u64,
    }
}
