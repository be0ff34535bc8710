ghost use Rattle.std.specs.Prelude.{◌≡◌, List, [], ℕ, Some, take, IfSome};
ghost use Rattle.std.specs.Io.KnownBytes.{Appends};
ghost use Rattle.asa_io.specs.Faults.{Rose};
ghost use Rattle.asa_io.specs.Told.{Exceeds};

use super::*;
use std::alloc::{AllocError, Global};
use std::sync::Wait;
use std::test::Fail;

#[derive(Clone, Copy, Debug, PartialEq, Eq)]
enum Ended {
    Done,
    TooLong,
    ReadFault,
    WriteFault(u64),
    Memory,
}

// Copies a source to a sink. What became of the two follows, at any types, from the calls' contracts alone.
fn copy<S: Source, K: Sink>(alloc: Global, src: &mut S, sink: &mut K, limit: u64) -> Ended
    ensures source_ended { result ≡ Ended.Done → IfSome (S.left src.old) (λ _. S.left src.new ≡ Some []) }
    ensures sink_given { result ≡ Ended.Done → IfSome (S.left src.old) (Appends (K.given sink.old) (K.given sink.new)) }
    ensures too_long { result ≡ Ended.TooLong → Exceeds limit (S.left src.old) (S.left src.new) }
    ensures read_fault { result ≡ Ended.ReadFault → Rose (S.faults src.old) (S.faults src.new) }
    ensures write_fault { (n : ℕ) → result ≡ Ended.WriteFault n → Rose (K.faults sink.old) (K.faults sink.new) }
    ensures front { (n : ℕ) → result ≡ Ended.WriteFault n → IfSome (S.left src.old) (λ text. Appends (K.given sink.old) (K.given sink.new) (take n text)) }
{
    let text = match read_all(alloc, src, limit) {
        Ok(text) => text,
        Err(ReadError::Failed) => return Ended::ReadFault,
        Err(ReadError::TooLong) => return Ended::TooLong,
        Err(ReadError::NoMemory) => return Ended::Memory,
    };
    match write_all(sink, text.as_slice()) {
        Ok(()) => Ended::Done,
        Err(WriteError::Failed { written }) => Ended::WriteFault(written),
    }
}

// So many bytes, of which neighbours differ.
fn text_of(alloc: Global, len: usize) -> Result<Vec<u8>, AllocError> {
    (0..len).map(|i| (i % 251) as u8).collect(alloc)
}

// How a copy of 10,000 bytes ends, and how many of the first bytes the sink then has; none where it has others.
// A read number or a write number of 0 names no call.
fn copy_ends(
    alloc: Global,
    failing_read: u32,
    failing_write: u32,
    room: u32,
    limit: u64,
) -> Result<(Ended, Option<usize>), AllocError> {
    let text = text_of(alloc, 10_000)?;
    let mut src = MemorySource::new(text.clone()?, vec![in alloc; failing_read]?);
    let mut sink = MemorySink::new(alloc, vec![in alloc; failing_write]?, room)?;
    let ended = copy(alloc, &mut src, &mut sink, limit);
    let given = sink.given();
    let is_front = text.starts_with(given);
    Ok((ended, is_front.then_some(given.len())))
}

// A read gives 8,192 bytes at most, so the third finds the end. The writes take all that there is room for.
#[test]
fn a_copy_ends_with_all_the_bytes_or_names_the_fault(rt: HostRuntime) -> Result<(), Fail> {
    let ample = 10_000;
    let done = copy_ends(rt.alloc(), 0, 0, ample, 10_000)?;
    assert_eq!(rt; done, (Ended::Done, Some(10_000)));
    let over_the_limit = copy_ends(rt.alloc(), 0, 0, ample, 9_999)?;
    assert_eq!(rt; over_the_limit, (Ended::TooLong, Some(0)));
    let amid_the_text = copy_ends(rt.alloc(), 2, 0, ample, 10_000)?;
    assert_eq!(rt; amid_the_text, (Ended::ReadFault, Some(0)));
    let at_the_end = copy_ends(rt.alloc(), 3, 0, ample, 10_000)?;
    assert_eq!(rt; at_the_end, (Ended::ReadFault, Some(0)));
    let at_the_first_write = copy_ends(rt.alloc(), 0, 1, ample, 10_000)?;
    assert_eq!(rt; at_the_first_write, (Ended::WriteFault(0), Some(0)));
    let at_the_flush = copy_ends(rt.alloc(), 0, 2, ample, 10_000)?;
    assert_eq!(rt; at_the_flush, (Ended::WriteFault(10_000), Some(10_000)));
    let past_the_room = copy_ends(rt.alloc(), 0, 0, 9_999, 10_000)?;
    assert_eq!(rt; past_the_room, (Ended::WriteFault(9_999), Some(9_999)));
    Ok(())
}

#[test]
fn a_failed_read_loses_no_byte(rt: HostRuntime) -> Result<(), Fail> {
    let text = text_of(rt.alloc(), 10_000)?;
    let mut src = MemorySource::new(text.clone()?, vec![in rt.alloc(); 2]?);
    assert_eq!(rt;
        read_all(rt.alloc(), &mut src, 10_000).err(),
        Some(ReadError::Failed)
    );
    let rest = read_all(rt.alloc(), &mut src, 10_000)?;
    assert_eq!(rt; rest.len(), 10_000 - 8_192);
    assert!(rt; text.ends_with(rest.as_slice()));
    Ok(())
}

#[test]
fn the_standard_streams_serve(rt: HostRuntime) -> Result<(), Fail> {
    let mut input = StdSource::new(&rt);
    assert_eq!(rt; read_all(rt.alloc(), &mut input, 100)?.len(), 0);
    for error in [false, true] {
        let mut stream = StdSink::new(&rt, error);
        assert_eq!(rt;
            write_all(&mut stream, b"written whole\n"),
            Ok(()),
            "error {error}"
        );
    }
    Ok(())
}

// How many places were passed.
fn pass_all<G: Gate, R: Wait>(gate: &G, rt: &R, places: &[Place]) -> usize {
    let mut passed = 0usize;
    for place in places {
        gate.pass(rt, *place);
        passed = passed.saturating_add(1);
    }
    passed
}

#[test]
fn the_open_gate_holds_nobody(rt: HostRuntime) {
    let places = [
        Place::BeforeCompile,
        Place::BeforePublish,
        Place::AfterAnswer(8),
    ];
    assert_eq!(rt; pass_all(&OpenGate, &rt, &places), 3);
}

#[test]
fn errors_say_what_happened(rt: HostRuntime) -> Result<(), Fail> {
    assert_eq!(rt;
        Failed.to_string(rt.alloc())?.as_str(),
        "input or output failed"
    );
    assert_eq!(rt;
        ReadError::TooLong.to_string(rt.alloc())?.as_str(),
        "the input is too long"
    );
    let error = WriteError::Failed { written: 5 };
    assert_eq!(rt;
        error.to_string(rt.alloc())?.as_str(),
        "writing failed after 5 bytes"
    );
    Ok(())
}
