//! What lies outside the contracts: keys from the rules.
use crate::{header_of, key_of, reply_key, rewrite, tracked};
use asa_base::{Addr, Header, Key, Packet};

const CLIENT: Addr = Addr(0x0a00_0005);

const STRANGER: Addr = Addr(0xc633_6409);

/// An ICMP packet from the client to the stranger.
fn icmp(itype: u8, sport: u16, dport: u16) -> Packet {
    Packet {
        ifc: 1,
        proto: 1,
        src: CLIENT,
        sport,
        dst: STRANGER,
        dport,
        flags: 0,
        itype,
        icode: 0,
    }
}

#[test]
fn an_echo_is_answered_by_an_echo_reply(rt: HostRuntime) {
    let echo = icmp(8, 7, 0);
    let back = reply_key(&echo, header_of(&echo), 0);
    let expected = Key {
        ifc: 0,
        proto: 1,
        kind: 2,
        src: STRANGER,
        sport: 0,
        dst: CLIENT,
        dport: 7,
    };
    assert_eq!(rt; back, expected);
    assert_eq!(rt;
        (
            key_of(&echo).kind,
            key_of(&icmp(0, 0, 7)).kind,
            key_of(&icmp(3, 0, 0)).kind
        ),
        (1, 2, 3)
    );
}

#[test]
fn of_icmp_only_an_echo_has_a_connection(rt: HostRuntime) {
    let udp = Packet {
        proto: 17,
        ..icmp(0, 5000, 53)
    };
    assert_eq!(rt;
        (
            tracked(&icmp(8, 7, 0)),
            tracked(&icmp(0, 0, 7)),
            tracked(&icmp(3, 0, 0)),
            tracked(&udp)
        ),
        (true, false, false, true)
    );
}

#[test]
fn a_translated_packet_keeps_what_its_header_does_not_have(rt: HostRuntime) {
    let out = Header {
        src: Addr(0xcb00_7102),
        sport: 1024,
        dst: STRANGER,
        dport: 0,
    };
    let expected = Packet {
        src: Addr(0xcb00_7102),
        sport: 1024,
        ..icmp(8, 7, 0)
    };
    assert_eq!(rt; rewrite(out, &icmp(8, 7, 0)), expected);
}
