//! The keys by which connections are found, and the headers of packets.
ghost use Rattle.std.specs.Prelude.{◌≡◌};
ghost use Rattle.asa_flow.specs.Keys;

use asa_base::{Header, Key, Packet};

/// What kind of ICMP packet it is.
fn kind_of(p: &Packet) -> u8
    ensures { result ≡ Keys.kind_of p.now }
{
    if p.proto != 1 {
        return 0;
    }
    match p.itype {
        8 => 1,
        0 => 2,
        _ => 3,
    }
}

/// The kind of the packets that answer packets of a kind.
fn reply_kind(kind: u8) -> u8
    ensures { result ≡ Keys.reply_kind kind }
{
    if kind == 1 { 2 } else { kind }
}

/// The key of a packet: its own fields and its kind.
pub fn key_of(p: &Packet) -> Key
    ensures { result ≡ Keys.key_of p.now }
{
    Key {
        ifc: p.ifc,
        proto: p.proto,
        kind: kind_of(p),
        src: p.src,
        sport: p.sport,
        dst: p.dst,
        dport: p.dport,
    }
}

/// The key of the packets that answer a packet which leaves on `egress` with the header `out`.
pub fn reply_key(p: &Packet, out: Header, egress: u8) -> Key
    ensures { result ≡ Keys.reply_key p.now out egress }
{
    Key {
        ifc: egress,
        proto: p.proto,
        kind: reply_kind(kind_of(p)),
        src: out.dst,
        sport: out.dport,
        dst: out.src,
        dport: out.sport,
    }
}

/// The addresses and ports of a packet as they are.
pub fn header_of(p: &Packet) -> Header
    ensures { result ≡ Keys.header_of p.now }
{
    Header {
        src: p.src,
        sport: p.sport,
        dst: p.dst,
        dport: p.dport,
    }
}

/// Whether the packet has a connection: all have but ICMP packets that aren't echoes.
pub fn tracked(p: &Packet) -> bool
    ensures { result ≡ Keys.tracked p.now }
{
    p.proto != 1 || p.itype == 8
}

/// The packet with the addresses and ports of a header; its other fields stay.
pub fn rewrite(out: Header, p: &Packet) -> Packet
    ensures value { result ≡ Keys.rewrite out p.now }
    ensures header { Keys.header_of result ≡ out }
{
    Packet {
        src: out.src,
        sport: out.sport,
        dst: out.dst,
        dport: out.dport,
        ..*p
    }
}
