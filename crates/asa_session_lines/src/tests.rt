//! What lies outside the contracts: that the clauses mean what they should, at lines from the rules.
ghost use Rattle.std.specs.Prelude.{◌≡◌, ◌==◌, Some, None, codes, if◌then◌else◌};
ghost use Rattle.std.specs.Str.{bytes_eq};

use crate::{ScriptFault, ScriptLine, Table, edit_text, script_line};
use asa_base::{Addr, Kind, Name, Names, Packet, PortProto, Service};
use asa_text::Words;
use std::process::Abort;
use std::test::Fail;

/// Two interfaces: `outside` (0) and `inside` (1).
#[derive(Drop)]
struct Interfaces;

/// Whether the name is this text.
fn is(name: &Name, text: &[u8]) -> bool
    ensures { result ≡ bytes_eq name.now text.now }
{
    name.bytes() == text
}

impl Names for Interfaces {
    ghost known = { λ _. record {
      kind_of = λ _. None;
      interface_of = λ n. if bytes_eq n (codes "inside") then Some 1 else (if bytes_eq n (codes "outside") then Some 0 else None);
      port_proto = λ _. None;
      service_range = λ _. None;
      address_of = λ _. None;
    } };

    fn kind_of(&self, _name: &Name) -> Option<Kind> {
        None
    }

    fn interface_of(&self, name: &Name) -> Option<u8> {
        if is(name, b"inside") {
            Some(1)
        } else if is(name, b"outside") {
            Some(0)
        } else {
            None
        }
    }

    fn port_proto(&self, _name: &Name) -> Option<PortProto> {
        None
    }

    fn service_range(&self, _name: &Name) -> Option<Service> {
        None
    }

    fn address_of(&self, _ifc: u8) -> Option<Addr> {
        None
    }
}

/// What a line says.
fn said(text: &'static [u8]) -> Result<Result<ScriptLine, ScriptFault>, Fail> {
    if text.len() > 200 {
        return Err("a long line")?;
    }
    Ok(script_line(&Words::of(text), &Interfaces))
}

/// 10.0.0.5.
const HOST: Addr = Addr(0x0a00_0005);

/// 198.51.100.9.
const SERVER: Addr = Addr(0xc633_6409);

/// A packet from the host to the server.
const fn outward(proto: u8, sport: u16, dport: u16, flags: u8) -> Packet {
    Packet {
        ifc: 1,
        proto,
        src: HOST,
        sport,
        dst: SERVER,
        dport,
        flags,
        itype: 0,
        icode: 0,
    }
}

/// An ICMP packet from the host to the server.
const fn icmp(itype: u8, icode: u8, sport: u16, dport: u16) -> Packet {
    Packet {
        ifc: 1,
        proto: 1,
        src: HOST,
        sport,
        dst: SERVER,
        dport,
        flags: 0,
        itype,
        icode,
    }
}

#[test]
fn packets_of_every_form_are_read(rt: HostRuntime) -> Result<(), Fail> {
    let lines: [(&'static [u8], Packet); 12] = [
        (
            b"packet inside tcp 10.0.0.5 1024 198.51.100.9 443 S",
            outward(6, 1024, 443, 1),
        ),
        (
            b"packet inside tcp 10.0.0.5 0 198.51.100.9 65535 -",
            outward(6, 0, 65535, 0),
        ),
        (
            b"packet inside tcp 10.0.0.5 1 198.51.100.9 2 SAFR",
            outward(6, 1, 2, 15),
        ),
        (
            b"packet inside tcp 10.0.0.5 1 198.51.100.9 2 A",
            outward(6, 1, 2, 2),
        ),
        (
            b"packet inside tcp 10.0.0.5 1 198.51.100.9 2 FR",
            outward(6, 1, 2, 12),
        ),
        (
            b"packet inside udp 10.0.0.5 53 198.51.100.9 53",
            outward(17, 53, 53, 0),
        ),
        (
            b"packet inside icmp 10.0.0.5 8 0 7 198.51.100.9",
            icmp(8, 0, 7, 0),
        ),
        (
            b"packet inside icmp 10.0.0.5 0 0 7 198.51.100.9",
            icmp(0, 0, 0, 7),
        ),
        (
            b"packet inside icmp 10.0.0.5 3 1 65535 198.51.100.9",
            icmp(3, 1, 65535, 0),
        ),
        (
            b"packet inside 47 10.0.0.5 198.51.100.9",
            outward(47, 0, 0, 0),
        ),
        (
            b"packet inside 255 10.0.0.5 198.51.100.9",
            outward(255, 0, 0, 0),
        ),
        (
            b"\tpacket  inside 2 10.0.0.5\t198.51.100.9 ",
            outward(2, 0, 0, 0),
        ),
    ];
    for (text, packet) in lines {
        assert_eq!(rt; said(text)?, Ok(ScriptLine::Packet(packet)));
    }
    Ok(())
}

#[test]
fn a_traced_tcp_packet_opens_a_connection(rt: HostRuntime) -> Result<(), Fail> {
    let lines: [(&'static [u8], Packet); 3] = [
        (
            b"packet-tracer input inside tcp 10.0.0.5 1024 198.51.100.9 443",
            outward(6, 1024, 443, 1),
        ),
        (
            b"packet-tracer input inside udp 10.0.0.5 53 198.51.100.9 53",
            outward(17, 53, 53, 0),
        ),
        (
            b"packet-tracer input inside icmp 10.0.0.5 8 0 7 198.51.100.9",
            icmp(8, 0, 7, 0),
        ),
    ];
    for (text, packet) in lines {
        assert_eq!(rt; said(text)?, Ok(ScriptLine::Trace(packet)));
    }
    Ok(())
}

#[test]
fn the_other_lines_have_one_form_each(rt: HostRuntime) -> Result<(), Fail> {
    let lines: [(&'static [u8], ScriptLine); 10] = [
        (b"lane 1", ScriptLine::Lane(1)),
        (b"lane 8", ScriptLine::Lane(8)),
        (b"clear conn", ScriptLine::Clear),
        (b"sync", ScriptLine::Sync),
        (b"advance 1", ScriptLine::Advance(1)),
        (b"advance 4000000", ScriptLine::Advance(4_000_000)),
        (b"show conn", ScriptLine::Show(Table::Conn)),
        (b"show xlate", ScriptLine::Show(Table::Xlate)),
        (b"show nat", ScriptLine::Show(Table::Nat)),
        (
            b"show running-config",
            ScriptLine::Show(Table::RunningConfig),
        ),
    ];
    for (text, line) in lines {
        assert_eq!(rt; said(text)?, Ok(line));
    }
    Ok(())
}

/// Asserts that each of these lines has the fault.
fn assert_faults(rt: &impl Abort, lines: &[&'static [u8]], fault: ScriptFault) -> Result<(), Fail> {
    for text in lines {
        assert_eq!(rt; said(text)?, Err(fault));
    }
    Ok(())
}

#[test]
fn a_line_out_of_form_is_told_before_its_interface_and_its_numbers(
    rt: HostRuntime,
) -> Result<(), Fail> {
    let lines: [&'static [u8]; 29] = [
        b"packet",
        b"packet inside",
        b"packet nowhere tcp x 1 10.0.0.1 2 Q",
        b"packet inside tcp 10.0.0.5 1 198.51.100.9 2",
        b"packet inside tcp 10.0.0.5 1 198.51.100.9 2 S S",
        b"packet inside tcp 10.0.0.5 1 198.51.100.9 2 AS",
        b"packet inside tcp 10.0.0.5 1 198.51.100.9 2 SS",
        b"packet inside tcp 10.0.0.5 1 198.51.100.9 2 --",
        b"packet inside tcp 10.0.0.5 1 198.51.100.9 2 s",
        b"packet inside tcp 10.0.0.5 198.51.100.9",
        b"packet inside udp 10.0.0.5 1 198.51.100.9 2 S",
        b"packet inside icmp 10.0.0.5 8 0 198.51.100.9",
        b"packet inside icmp 10.0.0.5 198.51.100.9",
        b"packet inside 47 10.0.0.5",
        b"packet inside 47 10.0.0.5 198.51.100.9 1",
        b"packet-tracer inside tcp 10.0.0.5 1 198.51.100.9 2",
        b"packet-tracer input inside tcp 10.0.0.5 1 198.51.100.9 2 S",
        b"packet-tracer input inside 47 10.0.0.5 198.51.100.9",
        b"lane",
        b"lane 1 2",
        b"clear",
        b"clear xlate",
        b"clear conn all",
        b"sync 1",
        b"advance",
        b"show",
        b"show conn 1",
        b"show route",
        b"ping",
    ];
    assert_faults(&rt, &lines, ScriptFault::Syntax)
}

#[test]
fn an_interface_that_nobody_has_is_told_before_the_numbers(rt: HostRuntime) -> Result<(), Fail> {
    let lines: [&'static [u8]; 4] = [
        b"packet nowhere tcp x 1 10.0.0.1 2 S",
        b"packet nowhere 1 10.0.0.5 198.51.100.9",
        b"packet in\x01side udp 10.0.0.5 1 198.51.100.9 2",
        b"packet-tracer input Inside icmp 10.0.0.5 8 0 7 198.51.100.9",
    ];
    assert_faults(&rt, &lines, ScriptFault::UnknownInterface)
}

#[test]
fn numbers_and_addresses_are_in_range(rt: HostRuntime) -> Result<(), Fail> {
    let lines: [&'static [u8]; 17] = [
        b"packet inside tcp 10.0.0.300 1 198.51.100.9 2 S",
        b"packet inside tcp 10.0.0.5 65536 198.51.100.9 2 S",
        b"packet inside tcp 10.0.0.5 www 198.51.100.9 2 S",
        b"packet inside tcp 10.0.0.5 1 198.51.100 2 S",
        b"packet inside udp 10.0.0.5 1 198.51.100.9 -1",
        b"packet inside icmp 10.0.0.5 256 0 7 198.51.100.9",
        b"packet inside icmp 10.0.0.5 8 256 7 198.51.100.9",
        b"packet inside icmp 10.0.0.5 8 0 65536 198.51.100.9",
        b"packet inside 0 10.0.0.5 198.51.100.9",
        b"packet inside 1 10.0.0.5 198.51.100.9",
        b"packet inside 6 10.0.0.5 198.51.100.9",
        b"packet inside 17 10.0.0.5 198.51.100.9",
        b"packet inside 256 10.0.0.5 198.51.100.9",
        b"packet inside gre 10.0.0.5 198.51.100.9",
        b"advance 0",
        b"advance 4000001",
        b"advance x",
    ];
    assert_faults(&rt, &lines, ScriptFault::BadNumber)
}

#[test]
fn every_lane_but_1_to_8_is_one_too_many(rt: HostRuntime) -> Result<(), Fail> {
    let lines: [&'static [u8]; 4] = [
        b"lane 0",
        b"lane 9",
        b"lane x",
        b"lane 18446744073709551617",
    ];
    assert_faults(&rt, &lines, ScriptFault::TooManyLanes)
}

#[test]
fn a_line_of_a_block_stands_after_the_mark_and_a_space(rt: HostRuntime) {
    let cases: [(&'static [u8], Option<&'static [u8]>); 7] = [
        (
            b"> route outside 0 0 203.0.113.1",
            Some(b"route outside 0 0 203.0.113.1"),
        ),
        (b">  host 10.0.0.5", Some(b" host 10.0.0.5")),
        (b"> ", Some(b"")),
        (b">", Some(b"")),
        (b">route", None),
        (b">\troute", None),
        (b"sync", None),
    ];
    for (line, text) in cases {
        assert_eq!(rt; edit_text(line), text);
    }
}
