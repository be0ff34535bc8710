//! Whole runs over bytes in memory. The expected reports are worked by hand.
use crate::examples::{DMZ, DMZ_ANSWERS, ROUTING, ROUTING_ANSWERS};
use crate::{Reason, Status, exit_code, run, write_status};
use asa_config::EditFault;
use asa_io::{MemorySink, MemorySource, OpenGate};
use asa_session::SessionKind;
use std::alloc::{AllocError, Global};
use std::sync::Wait;
use std::test::Fail;
use std::thread::Threads;

pub const BASE: &[u8] = b"interface GigabitEthernet0/0
 nameif outside
 security-level 0
 ip address 203.0.113.2 255.255.255.0
interface GigabitEthernet0/1
 nameif inside
 security-level 100
 ip address 10.0.0.1 255.255.255.0
route outside 0.0.0.0 0.0.0.0 203.0.113.1 1
";

pub const WEB_LIST: &[u8] = b"access-list OUT extended permit tcp any host 10.0.0.80 eq 80
access-group OUT in interface outside
";

const THREE_PACKETS: &[u8] = b": end
lane 1
packet outside tcp 198.51.100.9 50000 10.0.0.80 80 S
packet outside tcp 198.51.100.9 50001 10.0.0.80 22 S
packet inside tcp 10.0.0.5 40000 198.51.100.9 443 S
";

const THREE_ANSWERS: &[u8] = b"startup 5 accepted 0 passed
phase 1
e 0 1.1 open 1
e 1 1.3 open 2
a 1.1 0 open 1 to inside 198.51.100.9:50000 > 10.0.0.80:80 policy 5 unnat - route connected in OUT 1 nat - out -
a 1.2 1 drop acl-in policy 5 implicit
a 1.3 1 open 2 to outside 10.0.0.5:40000 > 198.51.100.9:443 policy 5 unnat - route static 1 in level nat - out -
done 2
";

// What a run does: how it ends, and what it writes.
#[derive(Drop)]
pub struct Outcome {
    pub status: Status,
    pub written: Vec<u8>,
}

// A run of the words over an input, whose read with this number fails (0: none), and an output of this room, whose
// call with this number fails.
pub fn ran<R: Threads + Wait + Sync>(
    rt: &R,
    alloc: Global,
    words: &[&str],
    input: &[&[u8]],
    fails: (u32, u32),
    room: u32,
) -> Result<Outcome, AllocError> {
    let mut source = MemorySource::new(joined(alloc, input)?, Vec::from_slice(alloc, &[fails.0])?);
    let mut sink = MemorySink::new(alloc, Vec::from_slice(alloc, &[fails.1])?, room)?;
    let words = owned(alloc, words)?;
    let status = run(
        rt,
        alloc,
        words.as_slice(),
        &mut source,
        &mut sink,
        &OpenGate,
    );
    let written = Vec::from_slice(alloc, sink.given())?;
    Ok(Outcome { status, written })
}

pub fn joined(alloc: Global, parts: &[&[u8]]) -> Result<Vec<u8>, AllocError> {
    let mut all = Vec::new(alloc);
    for part in parts {
        all.extend_from_slice(part)?;
    }
    Ok(all)
}

fn owned(alloc: Global, words: &[&str]) -> Result<Vec<String>, AllocError> {
    let mut all = Vec::new(alloc);
    for word in words {
        all.push(String::from_str(alloc, word)?)?;
    }
    Ok(all)
}

fn refused_at(status: &Status, wanted: u32) -> bool {
    match status {
        Status::Refused { line, .. } => *line == wanted,
        _ => false,
    }
}

#[test]
fn three_packets_are_decided_by_list_and_level(rt: HostRuntime) -> Result<(), Fail> {
    let r = ran(
        &rt,
        rt.alloc(),
        &["run"],
        &[BASE, WEB_LIST, THREE_PACKETS],
        (0, 0),
        10_000,
    )?;
    assert!(rt; matches!(r.status, Status::Done));
    assert_eq!(rt; r.written.as_slice(), THREE_ANSWERS);
    Ok(())
}

#[test]
fn a_dmz_is_reached_by_the_lists_of_its_neighbours(rt: HostRuntime) -> Result<(), Fail> {
    let r = ran(&rt, rt.alloc(), &["run"], &[DMZ], (0, 0), 10_000)?;
    assert!(rt; matches!(r.status, Status::Done));
    assert_eq!(rt; r.written.as_slice(), DMZ_ANSWERS);
    Ok(())
}

#[test]
fn packets_leave_by_the_longest_prefix_then_the_least_distance(
    rt: HostRuntime,
) -> Result<(), Fail> {
    let r = ran(&rt, rt.alloc(), &["run"], &[ROUTING], (0, 0), 10_000)?;
    assert!(rt; matches!(r.status, Status::Done));
    assert_eq!(rt; r.written.as_slice(), ROUTING_ANSWERS);
    Ok(())
}

#[test]
fn empty_input_has_no_end_at_line_1_and_writes_nothing(rt: HostRuntime) -> Result<(), Fail> {
    let r = ran(&rt, rt.alloc(), &["run"], &[], (0, 0), 100)?;
    assert!(rt;
        matches!(
            r.status,
            Status::Refused {
                line: 1,
                reason: Reason::Session(SessionKind::NoEnd)
            }
        )
    );
    assert!(rt; r.written.is_empty());
    Ok(())
}

#[test]
fn a_udp_packet_is_refused_at_its_line(rt: HostRuntime) -> Result<(), Fail> {
    let script = b": end
lane 1
packet outside udp 198.51.100.9 50000 10.0.0.80 80
";
    let r = ran(
        &rt,
        rt.alloc(),
        &["run"],
        &[BASE, WEB_LIST, script],
        (0, 0),
        100,
    )?;
    assert!(rt;
        matches!(
            r.status,
            Status::Refused {
                line: 14,
                reason: Reason::Session(SessionKind::NotBuilt)
            }
        )
    );
    assert!(rt; r.written.is_empty());
    let mut errors = MemorySink::new(rt.alloc(), Vec::new(rt.alloc()), 100)?;
    assert!(rt; write_status(&r.status, &mut errors).is_ok());
    assert_eq!(rt; errors.given(), b"asa: line 14: not-built\n".as_slice());
    Ok(())
}

#[test]
fn a_refused_startup_block_refuses_the_session(rt: HostRuntime) -> Result<(), Fail> {
    let r = ran(
        &rt,
        rt.alloc(),
        &["run"],
        &[
            BASE,
            b"access-list A permit ip any host 10.0.0.300\n",
            THREE_PACKETS,
        ],
        (0, 0),
        100,
    )?;
    assert!(rt;
        matches!(
            r.status,
            Status::Refused {
                line: 10,
                reason: Reason::Session(SessionKind::Startup(EditFault::Bad { column: 34 }))
            }
        )
    );
    assert!(rt; r.written.is_empty());
    Ok(())
}

#[test]
fn a_failing_sink_leaves_the_stated_part_of_the_report(rt: HostRuntime) -> Result<(), Fail> {
    let r = ran(
        &rt,
        rt.alloc(),
        &["run"],
        &[BASE, WEB_LIST, THREE_PACKETS],
        (0, 1),
        10_000,
    )?;
    assert!(rt; matches!(r.status, Status::WriteFault { written: 0 }));
    assert!(rt; r.written.is_empty());
    let r = ran(
        &rt,
        rt.alloc(),
        &["run"],
        &[BASE, WEB_LIST, THREE_PACKETS],
        (0, 0),
        10,
    )?;
    assert!(rt; matches!(r.status, Status::WriteFault { written: 10 }));
    assert_eq!(rt; r.written.as_slice(), b"startup 5 ".as_slice());
    Ok(())
}

#[test]
fn a_failing_source_writes_nothing(rt: HostRuntime) -> Result<(), Fail> {
    let r = ran(
        &rt,
        rt.alloc(),
        &["run"],
        &[BASE, WEB_LIST, THREE_PACKETS],
        (1, 0),
        10_000,
    )?;
    assert!(rt; matches!(r.status, Status::ReadFault));
    assert!(rt; r.written.is_empty());
    Ok(())
}

#[test]
fn other_words_are_the_usage_line(rt: HostRuntime) -> Result<(), Fail> {
    let lists: [&[&str]; 5] = [&[], &["Run"], &["run", "run"], &["run", ""], &["--help"]];
    for words in lists {
        let r = ran(&rt, rt.alloc(), words, &[BASE, THREE_PACKETS], (0, 0), 100)?;
        assert!(rt; matches!(r.status, Status::Usage));
        assert_eq!(rt; exit_code(&r.status), 2);
    }
    Ok(())
}
