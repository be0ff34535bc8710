//! Sessions run from their texts, and the calls of the machine one by one.
ghost use Rattle.std.specs.Prelude.{◌≡◌};

use crate::{Answer, Entry, Load, State, apply, change, run_serial};
use asa_base::{AccessBy, Addr, Header, Name, Packet};
use asa_flow::{Decision, DropReason, Route, SourceMap, reply_key};
use asa_policy::compile;
use asa_session::{Command, read_session};
use std::test::Fail;

const THREE_PACKETS: &[u8] = b"interface GigabitEthernet0/0
 nameif outside
 security-level 0
 ip address 203.0.113.2 255.255.255.0
interface GigabitEthernet0/1
 nameif inside
 security-level 100
 ip address 10.0.0.1 255.255.255.0
route outside 0.0.0.0 0.0.0.0 203.0.113.1 1
access-list OUT extended permit tcp any host 10.0.0.80 eq 80
access-group OUT in interface outside
: end
lane 1
packet outside tcp 198.51.100.9 50000 10.0.0.80 80 S
packet outside tcp 198.51.100.9 50001 10.0.0.80 22 S
packet inside tcp 10.0.0.5 40000 198.51.100.9 443 S
";

const SERVER: Addr = Addr(0x0a000050);

const CLIENT: Addr = Addr(0x0a000005);

const STRANGER: Addr = Addr(0xc6336409);

/// The header of the first packet, which is let in to the server.
const FIRST_HEADER: Header = Header {
    src: STRANGER,
    sport: 50000,
    dst: SERVER,
    dport: 80,
};

/// What is decided for the first packet.
fn first_decision(name: Name) -> Decision {
    Decision {
        egress: 1,
        dst: SERVER,
        dport: 80,
        source: SourceMap::Plain,
        unnat: None,
        route: Route::Connected,
        inbound: AccessBy::List { name, line: 1 },
        outbound: AccessBy::NoList,
    }
}

/// What is decided for the third packet, which the levels let out.
fn third_decision() -> Decision {
    Decision {
        egress: 0,
        dst: STRANGER,
        dport: 443,
        source: SourceMap::Plain,
        unnat: None,
        route: Route::Static(1),
        inbound: AccessBy::Level,
        outbound: AccessBy::NoList,
    }
}

#[test]
fn an_answer_names_the_entries_before_its_own(rt: HostRuntime) -> Result<(), Fail> {
    let session = read_session(rt.alloc(), THREE_PACKETS)?;
    let reports = run_serial(rt.alloc(), &session)?;
    let reports = reports.as_slice();
    assert_eq!(rt; reports.len(), 1);
    let entries = reports[0].entries.as_slice();
    assert_eq!(rt; entries.len(), 2);
    assert_eq!(rt;
        entries[0],
        Entry::Opened {
            lane: 1,
            index: 1,
            id: 1
        }
    );
    assert_eq!(rt;
        entries[1],
        Entry::Opened {
            lane: 1,
            index: 3,
            id: 2
        }
    );
    assert!(rt; reports[0].table.is_empty());
    let given = reports[0].given.as_slice();
    assert_eq!(rt; given.len(), 3);
    for (answered, (index, number)) in given.iter().zip([(1, 0), (2, 1), (3, 1)].iter()) {
        assert_eq!(rt; answered.lane, 1);
        assert_eq!(rt; answered.index, *index);
        assert_eq!(rt; answered.number, *number);
    }
    Ok(())
}

#[test]
fn the_first_is_let_in_by_the_list_the_second_denied_the_third_let_out_by_level(
    rt: HostRuntime,
) -> Result<(), Fail> {
    let session = read_session(rt.alloc(), THREE_PACKETS)?;
    let reports = run_serial(rt.alloc(), &session)?;
    let reports = reports.as_slice();
    assert_eq!(rt; reports.len(), 1);
    let given = reports[0].given.as_slice();
    assert_eq!(rt; given.len(), 3);
    let name = Name::new(b"OUT").ok_or("OUT is a name")?;
    let first = Answer::Opened {
        id: 1,
        egress: 1,
        out: FIRST_HEADER,
        policy: 5,
        decision: first_decision(name),
    };
    assert_eq!(rt; given[0].answer, first);
    let second = Answer::Dropped {
        reason: DropReason::AclIn {
            by: AccessBy::Implicit,
        },
        policy: 5,
    };
    assert_eq!(rt; given[1].answer, second);
    let third = Answer::Opened {
        id: 2,
        egress: 0,
        out: Header {
            src: CLIENT,
            sport: 40000,
            dst: STRANGER,
            dport: 443,
        },
        policy: 5,
        decision: third_decision(),
    };
    assert_eq!(rt; given[2].answer, third);
    Ok(())
}

#[test]
fn a_session_without_commands_has_no_phase(rt: HostRuntime) -> Result<(), Fail> {
    let session = read_session(rt.alloc(), b": end\n")?;
    let reports = run_serial(rt.alloc(), &session)?;
    assert!(rt; reports.is_empty());
    Ok(())
}

/// The first packet.
fn first_packet() -> Packet
    ensures { result.ifc ≡ 0 }
{
    Packet {
        ifc: 0,
        proto: 6,
        src: STRANGER,
        sport: 50000,
        dst: SERVER,
        dport: 80,
        flags: 1,
        itype: 0,
        icode: 0,
    }
}

#[test]
fn an_entry_adds_its_connection_where_its_id_is_the_next_and_there_is_room(
    rt: HostRuntime,
) -> Result<(), Fail> {
    let session = read_session(rt.alloc(), THREE_PACKETS)?;
    let policy = compile(rt.alloc(), session.config.get())?;
    assert!(rt; policy.is_named(0));
    let command = Command::Packet(first_packet());
    let mut state = State::new(rt.alloc(), &session, policy, 1)?;
    let (entry, load) = change(&state, 1, 1, &command).ok_or("the list lets it in")?;
    assert_eq!(rt;
        entry,
        Entry::Opened {
            lane: 1,
            index: 1,
            id: 1
        }
    );
    apply(&mut state, &entry, Load::Nothing);
    assert!(rt; state.conns().is_empty());
    apply(
        &mut state,
        &Entry::Opened {
            lane: 1,
            index: 1,
            id: 2,
        },
        load,
    );
    assert!(rt; state.conns().is_empty());
    let (entry, load) = change(&state, 1, 1, &command).ok_or("the list lets it in")?;
    apply(&mut state, &entry, load);
    assert_eq!(rt; state.conns().len(), 1);
    assert_eq!(rt; state.conns()[0].id, 1);
    assert_eq!(rt;
        state.conns()[0].reply,
        reply_key(&first_packet(), FIRST_HEADER, 1)
    );
    assert_eq!(rt; state.next_id(), 2);
    let (entry, load) = change(&state, 1, 2, &command).ok_or("no end is looked at")?;
    apply(&mut state, &entry, load);
    assert_eq!(rt; state.next_id(), 2);
    Ok(())
}

#[test]
fn a_reply_leaves_the_state_and_a_change_repeats_it(rt: HostRuntime) -> Result<(), Fail> {
    let session = read_session(rt.alloc(), THREE_PACKETS)?;
    let policy = compile(rt.alloc(), session.config.get())?;
    assert!(rt; policy.is_named(0));
    let command = Command::Packet(first_packet());
    let state = State::new(rt.alloc(), &session, policy, 1)?;
    let answer = crate::reply(&state, &command);
    let name = Name::new(b"OUT").ok_or("OUT is a name")?;
    let wanted = Answer::Opened {
        id: 1,
        egress: 1,
        out: FIRST_HEADER,
        policy: 5,
        decision: first_decision(name),
    };
    assert_eq!(rt; answer, wanted);
    assert_eq!(rt;
        (state.published(), state.clock(), state.next_id()),
        (5, 0, 1)
    );
    assert!(rt; change(&state, 1, 1, &command).is_some());
    Ok(())
}
