use crate::{fault_text, kind_text, refused_line, too_long_text, write_failed_line, write_report};
use asa_base::{AccessBy, Header, Name, NatPlace};
use asa_config::{Config, EditFault};
use asa_core::{Answer, Entry, Given, PhaseReport};
use asa_flow::{Decision, DropReason, Route, SourceMap};
use asa_session::{Session, SessionKind, Shared};
use asa_text::{Addr, Items, cut_blocks};
use std::alloc::{AllocError, Global};
use std::process::Abort;
use std::test::Fail;

const STARTUP: &[u8] = b"interface GigabitEthernet0/0
 nameif outside
 security-level 0
 ip address 203.0.113.2 255.255.255.0
interface GigabitEthernet0/1
 nameif inside
 security-level 100
 ip address 10.0.0.1 255.255.255.0
route outside 0.0.0.0 0.0.0.0 203.0.113.1 1
access-list OUT extended permit tcp any host 10.0.0.80 eq 80
access-group OUT in interface outside
";

const OUTSIDE: u8 = 0;

const INSIDE: u8 = 1;

// A session with the startup blocks of this text, whose first two are the interfaces `outside` and `inside`.
fn session_of(rt: &impl Abort, alloc: Global, startup: &[u8]) -> Result<Session, Fail> {
    assert!(rt; startup.len() < 10_000);
    let startup = cut_blocks(alloc, startup, 1)?.expect(rt, "the first line begins a block");
    let mut config = Config::empty(alloc);
    for block in startup.as_slice().iter().take(2) {
        config = config.step(block, true)?;
    }
    Ok(Session {
        startup,
        passed: 0,
        config: Shared::new(alloc, config)?,
        phases: Items::new(alloc),
    })
}

fn name(rt: &impl Abort, text: &[u8]) -> Name {
    Name::new(text).expect(rt, "the text is a name")
}

fn address(a: u8, b: u8, c: u8, d: u8) -> Addr {
    Addr(u32::from_be_bytes([a, b, c, d]))
}

// A flow from the web's address to the inside host's, or back.
fn header_to(egress: u8) -> Header {
    let web = address(198, 51, 100, 9);
    if egress == INSIDE {
        Header {
            src: web,
            sport: 50000,
            dst: address(10, 0, 0, 80),
            dport: 80,
        }
    } else {
        Header {
            src: address(10, 0, 0, 5),
            sport: 40000,
            dst: web,
            dport: 443,
        }
    }
}

fn plain_decision(egress: u8, route: Route, inbound: AccessBy) -> Decision {
    let header = header_to(egress);
    Decision {
        egress,
        dst: header.dst,
        dport: header.dport,
        source: SourceMap::Plain,
        unnat: None,
        route,
        inbound,
        outbound: AccessBy::NoList,
    }
}

fn opened(index: u32, number: u64, id: u64, decision: Decision) -> Given {
    Given {
        lane: 1,
        index,
        number,
        answer: Answer::Opened {
            id,
            egress: decision.egress,
            out: header_to(decision.egress),
            policy: 5,
            decision,
        },
    }
}

fn dropped(index: u32, number: u64, reason: DropReason) -> Given {
    Given {
        lane: 1,
        index,
        number,
        answer: Answer::Dropped { reason, policy: 5 },
    }
}

fn entry(index: u32, id: u64) -> Entry {
    Entry::Opened { lane: 1, index, id }
}

fn phase(
    alloc: Global,
    entries: Vec<Entry>,
    given: Vec<Given>,
    table: &[u8],
) -> Result<PhaseReport, AllocError> {
    Ok(PhaseReport {
        entries: Items::from(entries),
        given: Items::from(given),
        table: Items::from(table.to_vec(alloc)?),
    })
}

#[test]
fn three_packets_make_one_phase(rt: HostRuntime) -> Result<(), Fail> {
    let alloc = rt.alloc();
    let session = session_of(&rt, alloc, STARTUP)?;
    let listed = AccessBy::List {
        name: name(&rt, b"OUT"),
        line: 1,
    };
    let entries = vec![in alloc; entry(1, 1), entry(3, 2)]?;
    let given = vec![in alloc;
        opened(1, 0, 1, plain_decision(INSIDE, Route::Connected, listed)),
        dropped(
            2,
            1,
            DropReason::AclIn {
                by: AccessBy::Implicit
            }
        ),
        opened(
            3,
            1,
            2,
            plain_decision(OUTSIDE, Route::Static(1), AccessBy::Level)
        ),
    ]?;
    let phases = vec![in alloc; phase(alloc, entries, given, b"")?]?;
    let mut out = Vec::new(alloc);
    write_report(&session, phases.as_slice(), &mut out)?;
    let want = b"startup 5 accepted 0 passed
phase 1
e 0 1.1 open 1
e 1 1.3 open 2
a 1.1 0 open 1 to inside 198.51.100.9:50000 > 10.0.0.80:80 policy 5 unnat - route connected in OUT 1 nat - out -
a 1.2 1 drop acl-in policy 5 implicit
a 1.3 1 open 2 to outside 10.0.0.5:40000 > 198.51.100.9:443 policy 5 unnat - route static 1 in level nat - out -
done 2
";
    assert_eq!(rt; out.as_slice(), want.as_slice());
    Ok(())
}

#[test]
fn a_run_without_phases_has_two_lines(rt: HostRuntime) -> Result<(), Fail> {
    let alloc = rt.alloc();
    let session = session_of(&rt, alloc, b"")?;
    let mut out = b"before\n".to_vec(alloc)?;
    write_report(&session, &[], &mut out)?;
    let want = b"before\nstartup 0 accepted 0 passed\ndone 0\n";
    assert_eq!(rt; out.as_slice(), want.as_slice());
    Ok(())
}

#[test]
fn entries_are_numbered_through_the_phases(rt: HostRuntime) -> Result<(), Fail> {
    let alloc = rt.alloc();
    let session = session_of(&rt, alloc, b"")?;
    let first = phase(
        alloc,
        vec![in alloc; entry(1, 1), entry(2, 2)]?,
        vec![in alloc]?,
        b"s first\n",
    )?;
    let second = phase(
        alloc,
        vec![in alloc; entry(4, 3)]?,
        vec![in alloc; dropped(3, 2, DropReason::NoRoute)]?,
        b"",
    )?;
    let phases = vec![in alloc; first, second]?;
    let mut out = Vec::new(alloc);
    write_report(&session, phases.as_slice(), &mut out)?;
    let want = b"startup 0 accepted 0 passed
phase 1
e 0 1.1 open 1
e 1 1.2 open 2
s first
phase 2
e 2 1.4 open 3
a 1.3 2 drop no-route policy 5
done 3
";
    assert_eq!(rt; out.as_slice(), want.as_slice());
    Ok(())
}

// A drop of each kind that no list decides.
fn drops(alloc: Global) -> Result<Vec<Given>, AllocError> {
    let place = NatPlace {
        section: 2,
        place: 30,
    };
    Ok(vec![in alloc;
        dropped(1, 0, DropReason::NotSyn),
        dropped(2, 0, DropReason::ToTheBox { ifc: INSIDE }),
        dropped(3, 0, DropReason::InterInterface),
        dropped(4, 0, DropReason::IntraInterface),
        dropped(5, 0, DropReason::Level),
        dropped(6, 0, DropReason::NatProto { place }),
        dropped(
            7,
            0,
            DropReason::ReversePath {
                unnat: None,
                reply: Some(place)
            }
        ),
        dropped(8, 0, DropReason::ConnLimit),
        dropped(9, 0, DropReason::PoolExhausted { place }),
        dropped(10, 0, DropReason::Collision { id: None }),
        dropped(11, 0, DropReason::Collision { id: Some(77) }),
    ]?)
}

#[test]
fn each_drop_has_its_word_and_detail(rt: HostRuntime) -> Result<(), Fail> {
    let alloc = rt.alloc();
    let session = session_of(&rt, alloc, STARTUP)?;
    let mut given = drops(alloc)?;
    let global = AccessBy::Global {
        name: name(&rt, b"G"),
        line: 7,
    };
    given
        .push(dropped(12, 0, DropReason::AclOut { by: global }))
        .map_err(AllocError::from)?;
    let phases = vec![in alloc; phase(alloc, vec![in alloc]?, given, b"")?]?;
    let mut out = Vec::new(alloc);
    write_report(&session, phases.as_slice(), &mut out)?;
    let want = b"startup 5 accepted 0 passed
phase 1
a 1.1 0 drop not-syn policy 5
a 1.2 0 drop to-the-box policy 5 inside
a 1.3 0 drop inter-interface policy 5
a 1.4 0 drop intra-interface policy 5
a 1.5 0 drop level policy 5
a 1.6 0 drop nat-proto policy 5 2.30
a 1.7 0 drop reverse-path policy 5 - 2.30
a 1.8 0 drop conn-limit policy 5
a 1.9 0 drop pool-exhausted policy 5 2.30
a 1.10 0 drop collision policy 5 self
a 1.11 0 drop collision policy 5 77
a 1.12 0 drop acl-out policy 5 global G 7
done 0
";
    assert_eq!(rt; out.as_slice(), want.as_slice());
    Ok(())
}

#[test]
fn a_decision_names_its_rules(rt: HostRuntime) -> Result<(), Fail> {
    let alloc = rt.alloc();
    let session = session_of(&rt, alloc, STARTUP)?;
    let mut decision = plain_decision(INSIDE, Route::Nat, AccessBy::NoList);
    decision.unnat = Some(NatPlace {
        section: 1,
        place: 2,
    });
    decision.source = SourceMap::Dynamic {
        place: NatPlace {
            section: 3,
            place: 4,
        },
        pool: 9,
    };
    decision.outbound = AccessBy::Implicit;
    let phases = vec![in alloc;
        phase(
            alloc,
            vec![in alloc]?,
            vec![in alloc; opened(1, 0, 1, decision)]?,
            b""
        )?,
    ]?;
    let mut out = Vec::new(alloc);
    write_report(&session, phases.as_slice(), &mut out)?;
    let want = b"startup 5 accepted 0 passed
phase 1
a 1.1 0 open 1 to inside 198.51.100.9:50000 > 10.0.0.80:80 policy 5 unnat 1.2 route nat in - nat 3.4 out implicit
done 0
";
    assert_eq!(rt; out.as_slice(), want.as_slice());
    Ok(())
}

#[test]
fn each_fault_has_its_text(rt: HostRuntime) {
    let largest = u64::MAX;
    for (fault, want) in [
        (
            EditFault::Bad {
                column: 4_294_967_295,
            },
            "bad 4294967295",
        ),
        (EditFault::Unsupported { column: 12 }, "unsupported 12"),
        (EditFault::Unknown { column: 1 }, "unknown 1"),
        (
            EditFault::NoSuchInterface { column: 7 },
            "no-such-interface 7",
        ),
        (EditFault::NameTaken, "name-taken"),
        (EditFault::NotAfterStartup, "not-after-startup"),
        (EditFault::NoSuchLine, "no-such-line"),
        (EditFault::NotBound, "not-bound"),
        (
            EditFault::InUse {
                by: name(&rt, b"nat"),
            },
            "in-use nat",
        ),
        (EditFault::Cycle, "cycle"),
        (EditFault::TooMany, "too-many"),
        (
            EditFault::SizeDiffers {
                real: largest,
                mapped: largest,
            },
            "size-differs 18446744073709551615 18446744073709551615",
        ),
        (EditFault::SubnetPool, "subnet-pool"),
        (EditFault::TooLarge { pairs: 30 }, "too-large 30"),
        (EditFault::NotBuilt, "not-built"),
    ] {
        assert_eq!(rt; fault_text(&fault).as_bytes(), want.as_bytes());
    }
}

#[test]
fn each_refusal_has_its_text(rt: HostRuntime) {
    for (kind, want) in [
        (SessionKind::Startup(EditFault::Bad { column: 3 }), "bad 3"),
        (SessionKind::Syntax, "syntax"),
        (SessionKind::UnknownInterface, "unknown-interface"),
        (SessionKind::BadNumber, "bad-number"),
        (SessionKind::TooManyLanes, "too-many-lanes"),
        (SessionKind::TooManyLines, "too-many-lines"),
        (SessionKind::NoEnd, "no-end"),
        (SessionKind::NotBuilt, "not-built"),
    ] {
        assert_eq!(rt; kind_text(&kind).as_bytes(), want.as_bytes());
    }
}

#[test]
fn a_status_line_has_its_number(rt: HostRuntime) {
    let longest = name(
        &rt,
        b"0123456789012345678901234567890123456789012345678901234567890123",
    );
    let reason = fault_text(&EditFault::InUse { by: longest });
    for (line, want) in [
        (
            refused_line(14, &kind_text(&SessionKind::NotBuilt)),
            "asa: line 14: not-built\n",
        ),
        (refused_line(0, &too_long_text()), "asa: line 0: too-long\n"),
        (
            refused_line(4_294_967_295, &reason),
            "asa: line 4294967295: in-use 0123456789012345678901234567890123456789012345678901234567890123\n",
        ),
        (
            write_failed_line(8192),
            "asa: write failed after 8192 bytes\n",
        ),
    ] {
        assert_eq!(rt; line.as_bytes(), want.as_bytes());
    }
}
