//! What no clause says: that the definitions mean what the description of a session says, and that each call that
//! allocates can succeed.
use crate::{Command, PhaseEnd, Session, SessionError, SessionKind, Shared, read_session};
use asa_base::Packet;
use asa_config::EditFault;
use asa_text::{Addr, push_bytes, push_number};
use std::alloc::{AllocError, Global};
use std::process::Abort;
use std::test::Fail;

// Two interfaces in five lines, without the end of the startup part.
const TWO_INTERFACES: &[u8] =
    b"interface G0\n nameif outside\ninterface G1\n nameif inside\n ip address 10.0.0.1 255.255.255.0\n";

// A text of the two interfaces, which ends the startup part at line 6, and a script, which begins at line 7.
fn with_script(alloc: Global, script: &[u8]) -> Result<Vec<u8>, AllocError> {
    let mut text = Vec::new(alloc);
    push_bytes(&mut text, TWO_INTERFACES)?;
    push_bytes(&mut text, b": end\n")?;
    push_bytes(&mut text, script)?;
    Ok(text)
}

fn read(rt: &impl Abort, alloc: Global, text: &[u8]) -> Result<Session, SessionError> {
    assert!(rt; text.len() < 0x100_0000);
    read_session(alloc, text)
}

// The line and the kind of the refusal; line 0 where the text is accepted or memory ran out.
fn refusal(rt: &impl Abort, alloc: Global, text: &[u8]) -> (u32, Option<SessionKind>) {
    match read(rt, alloc, text).err() {
        Some(SessionError::At { line, kind }) => (line, Some(kind)),
        _ => (0, None),
    }
}

fn script_refusal(
    rt: &impl Abort,
    alloc: Global,
    script: &[u8],
) -> Result<(u32, Option<SessionKind>), AllocError> {
    let text = with_script(alloc, script)?;
    Ok(refusal(rt, alloc, &text))
}

fn is_accepted(rt: &impl Abort, alloc: Global, text: &[u8]) -> bool {
    read(rt, alloc, text).is_ok()
}

#[test]
fn a_startup_and_packets_are_read(rt: HostRuntime) -> Result<(), Fail> {
    let text = with_script(
        rt.alloc(),
        b"!\n\nlane 1\r\npacket inside tcp 10.0.0.5 0040000 198.51.100.9 65535 S  \n\n: comment\n\
packet\toutside tcp 198.51.100.9 65535 10.0.0.5 40001 S",
    )?;
    let session = read(&rt, rt.alloc(), &text)?;
    assert_eq!(rt; session.startup.len(), 2);
    assert_eq!(rt; session.passed, 0);
    assert_eq!(rt; session.config.get().ifaces().ifaces().len(), 2);
    let first = Packet {
        ifc: 1,
        proto: 6,
        src: Addr(0x0a00_0005),
        sport: 40000,
        dst: Addr(0xc633_6409),
        dport: 65535,
        flags: 1,
        itype: 0,
        icode: 0,
    };
    let second = Packet {
        ifc: 0,
        src: Addr(0xc633_6409),
        sport: 65535,
        dst: Addr(0x0a00_0005),
        dport: 40001,
        ..first
    };
    assert_eq!(rt; session.phases.len(), 1);
    for phase in session.phases.as_slice() {
        assert_eq!(rt; phase.end, PhaseEnd::Input);
        assert_eq!(rt;
            phase.commands.as_slice(),
            [
                (1, 1, Command::Packet(first)),
                (1, 2, Command::Packet(second))
            ]
            .as_slice()
        );
    }
    Ok(())
}

#[test]
fn a_session_without_a_command_has_no_phase(rt: HostRuntime) -> Result<(), Fail> {
    let text = with_script(rt.alloc(), b"lane 1\n\n! nothing\n")?;
    let session = read(&rt, rt.alloc(), &text)?;
    assert_eq!(rt; session.phases.len(), 0);
    let empty = read(&rt, rt.alloc(), b": end")?;
    assert_eq!(rt; empty.startup.len(), 0);
    assert_eq!(rt; empty.phases.len(), 0);
    Ok(())
}

#[test]
fn a_startup_line_is_refused_at_its_number(rt: HostRuntime) {
    for (line, kind, text) in [
        (
            1,
            SessionKind::Syntax,
            b" nameif outside\n: end\n".as_slice(),
        ),
        (1, SessionKind::Syntax, b" : end\n: end\n"),
        (
            3,
            SessionKind::Syntax,
            b"!\n\n\tnameif outside\ninterface G0\n: end\n",
        ),
        (
            3,
            SessionKind::Startup(EditFault::NotBuilt),
            b"interface G0\n nameif outside\nnat (any,any) source static any any\n: end\n",
        ),
        (
            3,
            SessionKind::Startup(EditFault::Bad { column: 17 }),
            b"interface G0\n nameif outside\n security-level 101\n",
        ),
        (
            3,
            SessionKind::Startup(EditFault::NoSuchLine),
            b"interface G0\n nameif outside\nno route outside 0 0 10.0.0.9\n",
        ),
        (
            1,
            SessionKind::Startup(EditFault::Bad { column: 6 }),
            b"route\n: end\nlane 2\n",
        ),
    ] {
        assert_eq!(rt;
            refusal(&rt, rt.alloc(), text),
            (line, Some(kind)),
            "in {text:?}"
        );
    }
}

#[test]
fn passed_blocks_are_counted_and_take_nothing_from_the_others(rt: HostRuntime) -> Result<(), Fail> {
    let text =
        b": Saved\nhostname fw1\ninterface G0\n nameif outside\nmtu outside 1500\npolicy-map P\n class C\n  \
inspect dns\ninterface G1\n nameif inside\n: end\n";
    let session = read(&rt, rt.alloc(), text)?;
    assert_eq!(rt; session.startup.len(), 2);
    assert_eq!(rt; session.passed, 3);
    assert_eq!(rt; session.config.get().ifaces().ifaces().len(), 2);
    Ok(())
}

#[test]
fn a_missing_end_stands_after_the_last_line(rt: HostRuntime) {
    for (line, text) in [
        (1, b"".as_slice()),
        (2, b"\n"),
        (2, b": ended"),
        (3, b"interface G0\n nameif outside"),
        (3, b"interface G0\n nameif outside\n"),
        (4, b"interface G0\n nameif outside\n! : end\n"),
    ] {
        assert_eq!(rt;
            refusal(&rt, rt.alloc(), text),
            (line, Some(SessionKind::NoEnd)),
            "in {text:?}"
        );
    }
}

#[test]
fn a_script_line_is_refused_at_its_number(rt: HostRuntime) -> Result<(), Fail> {
    for (line, script) in [
        (7, b"sync\n".as_slice()),
        (8, b"lane 1\nlane 2\n"),
        (7, b"lane 01\n"),
        (7, b"lane 1 1\n"),
        (9, b"\n! lane 2\n lane 1\n"),
        (7, b"> route inside 0 0 10.0.0.9\n"),
        (7, b"packet dmz tcp 10.0.0.5 1 10.0.0.6 2 S\n"),
        (7, b"packet inside udp 10.0.0.5 1 10.0.0.6 2\n"),
        (7, b"packet inside tcp 10.0.0.5 1 10.0.0.6 2 A\n"),
        (7, b"packet inside tcp 10.0.0.5 1 10.0.0.6 2\n"),
        (7, b"packet inside tcp 10.0.0.5 1 10.0.0.6 65536 S\n"),
        (7, b"packet inside tcp 10.0.0.5 1 10.0.0.300 2 S\n"),
        (7, b"packet inside tcp 10.0.0.5 1 10.0.0.6 2 S S\n"),
        (7, b"packet inside tcp 10.0.0.5 1 10.0.0.5 1 S\n"),
        (
            8,
            b"packet inside tcp 10.0.0.5 1 10.0.0.6 2 S\npacket inside tcp 10.0.0.5 1 10.0.0.6 2 S\n",
        ),
        (
            9,
            b"packet inside tcp 10.0.0.5 1 10.0.0.6 2 S\n\npacket outside tcp 10.0.0.6 2 10.0.0.5 1 S\n",
        ),
    ] {
        let refused = script_refusal(&rt, rt.alloc(), script)?;
        assert_eq!(rt;
            refused,
            (line, Some(SessionKind::NotBuilt)),
            "in {script:?}"
        );
    }
    Ok(())
}

#[test]
fn packets_with_other_ends_are_accepted(rt: HostRuntime) -> Result<(), Fail> {
    let text = with_script(
        rt.alloc(),
        b"packet inside tcp 10.0.0.5 1 10.0.0.6 2 S\npacket inside tcp 10.0.0.5 2 10.0.0.6 1 S\n\
packet inside tcp 10.0.0.5 1 10.0.0.5 2 S\npacket inside tcp 10.0.0.5 3 10.0.0.6 3 S\n",
    )?;
    let session = read(&rt, rt.alloc(), &text)?;
    for phase in session.phases.as_slice() {
        assert_eq!(rt; phase.commands.len(), 4);
    }
    Ok(())
}

// The startup part of the two interfaces and of so many route lines, which are one route.
fn with_routes(alloc: Global, routes: u32) -> Result<Vec<u8>, AllocError> {
    let mut text = Vec::new(alloc);
    push_bytes(&mut text, TWO_INTERFACES)?;
    for _ in 0..routes {
        push_bytes(&mut text, b"route outside 0 0 10.0.0.9\n")?;
    }
    push_bytes(&mut text, b": end\n")?;
    Ok(text)
}

#[test]
fn a_startup_of_more_blocks_than_a_history_holds_is_read(rt: HostRuntime) -> Result<(), Fail> {
    let text = with_routes(rt.alloc(), 1500)?;
    let session = read(&rt, rt.alloc(), &text)?;
    assert_eq!(rt; session.startup.len(), 1502);
    Ok(())
}

// So many packets, each from a port of its own.
fn with_packets(alloc: Global, packets: u32) -> Result<Vec<u8>, AllocError> {
    let mut script = Vec::new(alloc);
    for port in 0..packets {
        push_bytes(&mut script, b"packet inside tcp 10.0.0.5 ")?;
        push_number(&mut script, u64::from(port))?;
        push_bytes(&mut script, b" 198.51.100.9 443 S\n")?;
    }
    with_script(alloc, &script)
}

#[test]
fn a_script_has_at_most_8192_packets(rt: HostRuntime) -> Result<(), Fail> {
    let most = with_packets(rt.alloc(), 8192)?;
    assert!(rt; is_accepted(&rt, rt.alloc(), &most));
    let more = with_packets(rt.alloc(), 8193)?;
    assert_eq!(rt;
        refusal(&rt, rt.alloc(), &more),
        (6 + 8193, Some(SessionKind::NotBuilt))
    );
    Ok(())
}

// A script of so many comments.
fn with_comments(alloc: Global, comments: u32) -> Result<Vec<u8>, AllocError> {
    let mut script = Vec::new(alloc);
    for _ in 0..comments {
        push_bytes(&mut script, b"!\n")?;
    }
    with_script(alloc, &script)
}

#[test]
fn a_script_has_at_most_262144_lines(rt: HostRuntime) -> Result<(), Fail> {
    let most = with_comments(rt.alloc(), 262_144)?;
    assert!(rt; is_accepted(&rt, rt.alloc(), &most));
    let more = with_comments(rt.alloc(), 262_145)?;
    assert_eq!(rt;
        refusal(&rt, rt.alloc(), &more),
        (6 + 262_145, Some(SessionKind::NotBuilt))
    );
    Ok(())
}

#[test]
fn a_shared_value_is_the_value(rt: HostRuntime) -> Result<(), Fail> {
    let first = Shared::new(rt.alloc(), 7u32)?;
    let second = first.share()?;
    assert_eq!(rt; *first.get(), 7);
    drop(first);
    assert_eq!(rt; *second.get(), 7);
    Ok(())
}
