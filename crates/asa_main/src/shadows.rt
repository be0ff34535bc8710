//! Findings of shadowed lines over startups in memory. The expected ones are worked by hand.
use crate::examples::{SHADOWED_LINES, SHADOWED_LINES_FINDINGS};
use crate::tests::{Outcome, joined, ran};
use crate::{Reason, Status, exit_code, shadow};
use asa_config::EditFault;
use asa_io::{MemorySink, MemorySource};
use asa_session::SessionKind;
use std::alloc::{AllocError, Global};
use std::test::Fail;

const TWO_LISTS: &[u8] = b"access-list X extended permit tcp any host 10.0.0.80 eq 80
access-list X extended permit ip any any
access-list X extended deny udp any any
access-list Y extended permit tcp any any range 0 99
access-list Y extended permit tcp any any gt 99
access-list Y extended deny tcp any any
: end
";

const TWO_LISTS_FINDINGS: &[u8] = b"shadow X 1 no tcp 0.0.0.0 0 10.0.0.80 80 -
shadow X 2 no icmp 0.0.0.0 0 0 0 0.0.0.0
shadow X 3 yes 0
k b2
shadow Y 1 no tcp 0.0.0.0 0 0.0.0.0 0 -
shadow Y 2 no tcp 0.0.0.0 0 0.0.0.0 100 -
shadow Y 3 yes 1
k c5:99 b1 b2
done
";

// A call over an input, whose read with this number fails (0: none), and an output of this room, whose call with this
// number fails.
fn found(
    alloc: Global,
    input: &[&[u8]],
    fails: (u32, u32),
    room: u32,
) -> Result<Outcome, AllocError> {
    let mut source = MemorySource::new(joined(alloc, input)?, Vec::from_slice(alloc, &[fails.0])?);
    let mut sink = MemorySink::new(alloc, Vec::from_slice(alloc, &[fails.1])?, room)?;
    let status = shadow(alloc, &mut source, &mut sink);
    let written = Vec::from_slice(alloc, sink.given())?;
    Ok(Outcome { status, written })
}

// The line of a refusal by Syntax, or 0.
fn out_of_form(outcome: &Outcome) -> u32 {
    match outcome.status {
        Status::Refused {
            line,
            reason: Reason::Session(SessionKind::Syntax),
        } => line,
        _ => 0,
    }
}

#[test]
fn each_active_line_has_its_finding(rt: HostRuntime) -> Result<(), Fail> {
    let r = found(rt.alloc(), &[TWO_LISTS], (0, 0), 10_000)?;
    assert!(rt; matches!(r.status, Status::Done));
    assert_eq!(rt; r.written.as_slice(), TWO_LISTS_FINDINGS);
    Ok(())
}

#[test]
fn the_word_asks_for_the_findings(rt: HostRuntime) -> Result<(), Fail> {
    let alloc = rt.alloc();
    let r = ran(&rt, alloc, &["shadow"], &[TWO_LISTS], (0, 0), 10_000)?;
    assert_eq!(rt;
        (exit_code(&r.status), r.written.as_slice()),
        (0, TWO_LISTS_FINDINGS)
    );
    let r = ran(&rt, alloc, &["shadow", "X"], &[TWO_LISTS], (0, 0), 10_000)?;
    assert_eq!(rt; (exit_code(&r.status), r.written.len()), (2, 0));
    Ok(())
}

#[test]
fn remarks_and_inactive_lines_have_no_finding(rt: HostRuntime) -> Result<(), Fail> {
    let r = found(rt.alloc(), &[SHADOWED_LINES], (0, 0), 10_000)?;
    assert!(rt; matches!(r.status, Status::Done));
    assert_eq!(rt; r.written.as_slice(), SHADOWED_LINES_FINDINGS);
    Ok(())
}

#[test]
fn without_lists_there_is_the_last_line_alone(rt: HostRuntime) -> Result<(), Fail> {
    let r = found(rt.alloc(), &[b"\n: end\n! nothing\n\n"], (0, 0), 100)?;
    assert!(rt; matches!(r.status, Status::Done));
    assert_eq!(rt; r.written.as_slice(), b"done\n".as_slice());
    Ok(())
}

#[test]
fn a_script_is_out_of_form(rt: HostRuntime) -> Result<(), Fail> {
    let r = found(rt.alloc(), &[TWO_LISTS, b"\nlane 9\n"], (0, 0), 10_000)?;
    assert_eq!(rt; (out_of_form(&r), r.written.len()), (9, 0));
    let r = found(rt.alloc(), &[b" indented\n"], (0, 0), 10_000)?;
    assert_eq!(rt; (out_of_form(&r), r.written.len()), (1, 0));
    Ok(())
}

#[test]
fn a_startup_that_cannot_stand_is_refused_before_a_list_is_judged(
    rt: HostRuntime,
) -> Result<(), Fail> {
    let bad = b"access-list X extended permit ip any any 7\n: end\n";
    let r = found(rt.alloc(), &[bad], (0, 0), 10_000)?;
    let is_bad = matches!(
        r.status,
        Status::Refused {
            line: 1,
            reason: Reason::Session(SessionKind::Startup(EditFault::Bad { column: 42 }))
        }
    );
    assert_eq!(rt; (is_bad, r.written.len()), (true, 0));
    let r = found(rt.alloc(), &[b"access-list X remark Y\n"], (0, 0), 10_000)?;
    let is_endless = matches!(
        r.status,
        Status::Refused {
            line: 2,
            reason: Reason::Session(SessionKind::NoEnd)
        }
    );
    assert_eq!(rt; (is_endless, r.written.len()), (true, 0));
    Ok(())
}

// A startup with so many blank lines after `: end`.
fn blank_lines(alloc: Global, count: u32) -> Result<Vec<u8>, AllocError> {
    let mut text = Vec::from_slice(alloc, b": end\n")?;
    for _ in 0..count {
        text.push(b'\n')?;
    }
    Ok(text)
}

#[test]
fn lines_after_the_end_are_counted(rt: HostRuntime) -> Result<(), Fail> {
    let text = blank_lines(rt.alloc(), 262_144)?;
    let r = found(rt.alloc(), &[text.as_slice()], (0, 0), 100)?;
    assert!(rt; matches!(r.status, Status::Done));
    let r = found(rt.alloc(), &[text.as_slice(), b"\n"], (0, 0), 100)?;
    let is_too_many = matches!(
        r.status,
        Status::Refused {
            line: 262_146,
            reason: Reason::Session(SessionKind::TooManyLines)
        }
    );
    assert_eq!(rt; (is_too_many, r.written.len()), (true, 0));
    let r = found(rt.alloc(), &[text.as_slice(), b"sync\n"], (0, 0), 100)?;
    assert_eq!(rt; (out_of_form(&r), r.written.len()), (262_146, 0));
    Ok(())
}

#[test]
fn a_failing_sink_leaves_the_stated_part_of_the_findings(rt: HostRuntime) -> Result<(), Fail> {
    let r = found(rt.alloc(), &[TWO_LISTS], (0, 0), 50)?;
    assert!(rt; matches!(r.status, Status::WriteFault { written: 50 }));
    assert_eq!(rt; r.written.as_slice(), TWO_LISTS_FINDINGS.split_at(50).0);
    let r = found(rt.alloc(), &[TWO_LISTS], (0, 1), 10_000)?;
    assert!(rt; matches!(r.status, Status::WriteFault { written: 0 }));
    assert!(rt; r.written.is_empty());
    Ok(())
}

#[test]
fn a_failing_source_leaves_the_findings_unwritten(rt: HostRuntime) -> Result<(), Fail> {
    let r = found(rt.alloc(), &[TWO_LISTS], (1, 0), 10_000)?;
    assert!(rt; matches!(r.status, Status::ReadFault));
    assert!(rt; r.written.is_empty());
    Ok(())
}
