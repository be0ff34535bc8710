//! The packets that lines of the script state.
ghost use Rattle.std.specs.Prelude.{◌≡◌, ◌≤◌, IfOk};
ghost use Rattle.asa_session_lines.specs.Packets as spec;

use crate::flags::flags_of;
use crate::line::ScriptFault;
use crate::words::{address_at, count_is, interface_at, number_at, text_at, word_is};
use asa_base::{Names, Packet};
use asa_text::{Addr, Words};

/// The protocols that have forms of their own.
const ICMP: u8 = 1;

const TCP: u8 = 6;

const UDP: u8 = 17;

/// The flag S.
const SYN: u8 = 1;

/// The addresses and ports of a packet.
#[derive(Clone, Copy, Debug, PartialEq, Eq)]
struct Ends {
    src: Addr,
    sport: u16,
    dst: Addr,
    dport: u16,
}

/// `A SPORT A DPORT` from a place on.
#[tactic(auto, unfolding(crate::specs::Packets::ends_at))]
fn ends_at(words: &Words<'_>, place: u32) -> Result<Ends, ScriptFault>
    requires { place ≤ 16 }
    ensures { result ≡ spec.ends_at words.now.words place }
{
    let src = address_at(words, place)?;
    let sport = number_at(words, place + 1, 0, 65_535)?;
    let dst = address_at(words, place + 2)?;
    let dport = number_at(words, place + 3, 0, 65_535)?;
    Ok(Ends {
        src,
        sport: sport as u16,
        dst,
        dport: dport as u16,
    })
}

/// A packet with ports, whose interface stands at a place.
#[tactic(auto, unfolding(crate::specs::Packets::with_ports))]
fn with_ports<N: Names>(
    words: &Words<'_>,
    names: &N,
    place: u32,
    proto: u8,
    flags: u8,
) -> Result<Packet, ScriptFault>
    requires { place ≤ 8 }
    ensures { result ≡ spec.with_ports (N.known names.now) words.now.words place proto flags }
{
    let ifc = interface_at(words, names, place)?;
    let ends = ends_at(words, place + 2)?;
    Ok(Packet {
        ifc,
        proto,
        src: ends.src,
        sport: ends.sport,
        dst: ends.dst,
        dport: ends.dport,
        flags,
        itype: 0,
        icode: 0,
    })
}

/// An ICMP packet: `I icmp A TYPE CODE ID A` from a place on. The identifier of an echo reply is its destination port,
/// of any other packet its source port.
#[tactic(auto, unfolding(crate::specs::Packets::icmp_at))]
fn icmp_at<N: Names>(words: &Words<'_>, names: &N, place: u32) -> Result<Packet, ScriptFault>
    requires { place ≤ 8 }
    ensures { result ≡ spec.icmp_at (N.known names.now) words.now.words place }
{
    let ifc = interface_at(words, names, place)?;
    let src = address_at(words, place + 2)?;
    let itype = number_at(words, place + 3, 0, 255)?;
    let icode = number_at(words, place + 4, 0, 255)?;
    let id = number_at(words, place + 5, 0, 65_535)?;
    let dst = address_at(words, place + 6)?;
    let is_reply = itype == 0;
    Ok(Packet {
        ifc,
        proto: ICMP,
        src,
        sport: if is_reply { 0 } else { id as u16 },
        dst,
        dport: if is_reply { id as u16 } else { 0 },
        flags: 0,
        itype: itype as u8,
        icode: icode as u8,
    })
}

/// The number of a protocol without a form of its own.
fn other_protocol(words: &Words<'_>, place: u32) -> Result<u8, ScriptFault>
    ensures { result ≡ spec.other_protocol words.now.words place }
{
    let number = number_at(words, place, 1, 255)?;
    let proto = number as u8;
    if proto == ICMP || proto == TCP || proto == UDP {
        return Err(ScriptFault::BadNumber);
    }
    Ok(proto)
}

/// A packet of another protocol: `I PROTO A A` from a place on.
#[tactic(auto, unfolding(crate::specs::Packets::other_at))]
fn other_at<N: Names>(words: &Words<'_>, names: &N, place: u32) -> Result<Packet, ScriptFault>
    requires { place ≤ 8 }
    ensures { result ≡ spec.other_at (N.known names.now) words.now.words place }
{
    let ifc = interface_at(words, names, place)?;
    let proto = other_protocol(words, place + 1)?;
    let src = address_at(words, place + 2)?;
    let dst = address_at(words, place + 3)?;
    Ok(Packet {
        ifc,
        proto,
        src,
        sport: 0,
        dst,
        dport: 0,
        flags: 0,
        itype: 0,
        icode: 0,
    })
}

/// The TCP packet of a line `packet I tcp A SPORT A DPORT FLAGS`.
#[tactic(auto, unfolding(crate::specs::Packets::tcp_line))]
fn tcp<N: Names>(words: &Words<'_>, names: &N) -> Result<Packet, ScriptFault>
    ensures { result ≡ spec.tcp_line (N.known names.now) words.now.words }
{
    match flags_of(text_at(words, 7)) {
        Some(flags) if count_is(words, 8) => with_ports(words, names, 1, TCP, flags),
        _ => Err(ScriptFault::Syntax),
    }
}

/// The packet of a line `packet ..`.
#[tactic(auto, unfolding(crate::specs::Packets::packet_line))]
pub(crate) fn packet<N: Names>(words: &Words<'_>, names: &N) -> Result<Packet, ScriptFault>
    ensures { result ≡ spec.packet_line (N.known names.now) words.now.words }
{
    if word_is(words, 2, b"tcp") {
        return tcp(words, names);
    }
    if word_is(words, 2, b"udp") {
        return if count_is(words, 7) {
            with_ports(words, names, 1, UDP, 0)
        } else {
            Err(ScriptFault::Syntax)
        };
    }
    if word_is(words, 2, b"icmp") {
        return if count_is(words, 8) {
            icmp_at(words, names, 1)
        } else {
            Err(ScriptFault::Syntax)
        };
    }
    if count_is(words, 5) {
        other_at(words, names, 1)
    } else {
        Err(ScriptFault::Syntax)
    }
}

/// The packet after `packet-tracer input`; the flags of a TCP packet are `S`.
#[tactic(auto, unfolding(crate::specs::Packets::input_line))]
fn input<N: Names>(words: &Words<'_>, names: &N) -> Result<Packet, ScriptFault>
    ensures { result ≡ spec.input_line (N.known names.now) words.now.words }
{
    if word_is(words, 3, b"tcp") && count_is(words, 8) {
        return with_ports(words, names, 2, TCP, SYN);
    }
    if word_is(words, 3, b"udp") && count_is(words, 8) {
        return with_ports(words, names, 2, UDP, 0);
    }
    if word_is(words, 3, b"icmp") && count_is(words, 9) {
        return icmp_at(words, names, 2);
    }
    Err(ScriptFault::Syntax)
}

/// The packet of a line `packet-tracer input ..`.
#[tactic(auto, unfolding(crate::specs::Packets::traced_line))]
pub(crate) fn traced_packet<N: Names>(words: &Words<'_>, names: &N) -> Result<Packet, ScriptFault>
    ensures { result ≡ spec.traced_line (N.known names.now) words.now.words }
{
    if word_is(words, 1, b"input") {
        input(words, names)
    } else {
        Err(ScriptFault::Syntax)
    }
}
