//! What lies outside the contracts: that the clauses mean what they should, at lines from the rules.
ghost use Rattle.std.specs.Prelude.{◌≡◌, ◌==◌, Some, None, codes, if◌then◌else◌};
ghost use Rattle.std.specs.Str.{bytes_eq};
ghost use Rattle.asa_base.specs.declared.kinds.Kind.TheVariants as kinds;
ghost use Rattle.asa_base.specs.Ranges.{only_port, all_ports};

use crate::{
    MappedRef, NatRule, PoolRef, PortRule, RealRef, RuleFields, ServicePart, manual_rule, own_rule,
    removed_rule,
};
use asa_base::{Addr, Kind, Name, Names, PortProto, PortRange, Service};
use asa_text::{LineFault, Words};
use std::process::Abort;
use std::test::Fail;

/// The network object `N`, the service objects `S` (source port 80 of tcp), `D` (destination port 80 of tcp) and `U`
/// (source port 80 of udp), a service object `X` without one range, and two interfaces: `inside` (1) and `outside` (0),
/// of which `outside` has an address.
#[derive(Drop)]
struct Table;

/// Whether the name is this text.
fn is(name: &Name, text: &[u8]) -> bool
    ensures { result ≡ bytes_eq name.now text.now }
{
    name.bytes() == text
}

/// A service with ports.
fn service(proto: u8, sport: PortRange, dport: PortRange) -> Service
    ensures { result ≡ record { proto = Some proto; sport = sport; dport = dport; itype = None; icode = None } }
{
    Service {
        proto: Some(proto),
        sport,
        dport,
        itype: None,
        icode: None,
    }
}

impl Names for Table {
    ghost known = { λ _. record {
      kind_of = λ n. if bytes_eq n (codes "N") then Some kinds.NetObject
          else (if bytes_eq n (codes "S") then Some kinds.ServiceObject
          else (if bytes_eq n (codes "D") then Some kinds.ServiceObject
          else (if bytes_eq n (codes "U") then Some kinds.ServiceObject
          else (if bytes_eq n (codes "X") then Some kinds.ServiceObject else None))));
      interface_of = λ n. if bytes_eq n (codes "inside") then Some 1 else (if bytes_eq n (codes "outside") then Some 0 else None);
      port_proto = λ _. None;
      service_range = λ n.
          if bytes_eq n (codes "S") then Some (record { proto = Some 6; sport = only_port 80; dport = all_ports; itype = None; icode = None })
          else (if bytes_eq n (codes "D") then Some (record { proto = Some 6; sport = all_ports; dport = only_port 80; itype = None; icode = None })
          else (if bytes_eq n (codes "U") then Some (record { proto = Some 17; sport = only_port 80; dport = all_ports; itype = None; icode = None })
          else None));
      address_of = λ ifc. if ifc == 0 then Some (record { 0 = 1 }) else None;
    } };

    fn kind_of(&self, name: &Name) -> Option<Kind> {
        if is(name, b"N") {
            Some(Kind::NetObject)
        } else if is(name, b"S") {
            Some(Kind::ServiceObject)
        } else if is(name, b"D") {
            Some(Kind::ServiceObject)
        } else if is(name, b"U") {
            Some(Kind::ServiceObject)
        } else if is(name, b"X") {
            Some(Kind::ServiceObject)
        } else {
            None
        }
    }

    fn interface_of(&self, name: &Name) -> Option<u8> {
        if is(name, b"inside") {
            Some(1)
        } else if is(name, b"outside") {
            Some(0)
        } else {
            None
        }
    }

    fn port_proto(&self, _name: &Name) -> Option<PortProto> {
        None
    }

    fn service_range(&self, name: &Name) -> Option<Service> {
        if is(name, b"S") {
            Some(service(6, PortRange::only(80), PortRange::all()))
        } else if is(name, b"D") {
            Some(service(6, PortRange::all(), PortRange::only(80)))
        } else if is(name, b"U") {
            Some(service(17, PortRange::only(80), PortRange::all()))
        } else {
            None
        }
    }

    fn address_of(&self, ifc: u8) -> Option<Addr> {
        if ifc == 0 { Some(Addr(1)) } else { None }
    }
}

fn name(text: &[u8]) -> Result<Name, Fail> {
    Ok(Name::new(text).ok_or("no name")?)
}

fn bad(column: u32) -> LineFault {
    LineFault::Bad { column }
}

fn unsupported(column: u32) -> LineFault {
    LineFault::Unsupported { column }
}

fn unknown(column: u32) -> LineFault {
    LineFault::Unknown { column }
}

fn no_interface(column: u32) -> LineFault {
    LineFault::NoSuchInterface { column }
}

/// A cursor over a line of a test.
fn cursor(text: &'static [u8]) -> Result<Words<'static>, Fail> {
    if text.len() > 200 {
        return Err("a long line")?;
    }
    Ok(Words::of(text))
}

/// What a manual line says, after the word `nat`.
fn manual(text: &'static [u8]) -> Result<Result<NatRule, LineFault>, Fail> {
    let mut words = cursor(text)?;
    match manual_rule(&mut words, &Table) {
        Ok(new) => Ok(Ok(new.rule)),
        Err(fault) => Ok(Err(fault)),
    }
}

/// What a line of the object `N` says, after the word `nat`.
fn own(text: &'static [u8]) -> Result<Result<NatRule, LineFault>, Fail> {
    let mut words = cursor(text)?;
    Ok(own_rule(&mut words, &Table, &name(b"N")?))
}

/// Asserts that a line is refused so.
fn assert_fault(
    rt: &impl Abort,
    read: Result<NatRule, LineFault>,
    fault: LineFault,
) -> Result<(), Fail> {
    match read {
        Ok(_) => Err("a line that is refused was read")?,
        Err(found) => assert_eq!(rt; found, fault),
    }
    Ok(())
}

#[test]
fn manual_lines_are_refused_at_their_columns(rt: HostRuntime) -> Result<(), Fail> {
    let lines: [(&'static [u8], LineFault); 45] = [
        (b"", bad(1)),
        (b"(inside,outside", bad(1)),
        (b"(inside)", bad(1)),
        (b"(,outside) source static N N", bad(1)),
        (b"(inside,outside,any) source static N N", bad(1)),
        (b"((inside),outside) source static N N", bad(1)),
        (b"(lan,(outside)) source static N N", bad(1)),
        (b"(lan,outside) source static N N", no_interface(1)),
        (b"(inside,lan) source static N N", no_interface(1)),
        (b"0 source static N N", bad(1)),
        (b"8193 source static N N", bad(1)),
        (b"1 2 source static N N", bad(3)),
        (b"1 after-auto source static N N", bad(3)),
        (b"source", bad(7)),
        (b"source any N N", bad(8)),
        (b"source static", bad(14)),
        (b"source static M N", unknown(15)),
        (b"source static S N", bad(15)),
        (b"source static N", bad(16)),
        (b"source static any N", bad(19)),
        (b"source static any M", bad(19)),
        (b"source static N any", bad(17)),
        (b"source static N interface", bad(17)),
        (b"(any,inside) source static N interface", bad(30)),
        (b"source static N 10.0.0.1", unknown(17)),
        (b"source dynamic N", bad(17)),
        (b"source dynamic N 10.0.0.1", unknown(18)),
        (b"source dynamic N flat", unknown(18)),
        (b"source dynamic N N pat-pool", bad(28)),
        (b"source dynamic N pat-pool interface", unknown(27)),
        (
            b"source dynamic N pat-pool N flat extended",
            unsupported(34),
        ),
        (b"source dynamic N N flat", unsupported(20)),
        (b"source dynamic N N interface", bad(20)),
        (b"source dynamic N N route-lookup", bad(20)),
        (b"source static N N destination N N", bad(31)),
        (
            b"source static N N destination static interface N",
            unsupported(38),
        ),
        (b"source static N N destination static N any", unknown(40)),
        (b"source static N N service S", bad(28)),
        (b"source static N N service N S", bad(27)),
        (b"source static N N service X S", bad(27)),
        (b"source static N N service S U", bad(29)),
        (b"source static N N service D D", bad(27)),
        (b"source dynamic N N service S S", bad(28)),
        (b"source static N N dns", unsupported(19)),
        (b"source static N N unidirectional both", bad(34)),
    ];
    for (text, fault) in lines {
        assert_fault(&rt, manual(text)?, fault)?;
    }
    let mut numbered = cursor(b"1 source static N N")?;
    let removed = removed_rule(&mut numbered, &Table);
    assert_fault(&rt, removed, bad(1))
}

#[test]
fn lines_of_objects_are_refused_at_their_columns(rt: HostRuntime) -> Result<(), Fail> {
    let lines: [(&'static [u8], LineFault); 15] = [
        (b"(inside,outside) source static N N", bad(18)),
        (b"static", bad(7)),
        (b"static any", unknown(8)),
        (b"static 10.0.0.300", unknown(8)),
        (b"static 2001:db8::1", unsupported(8)),
        (b"static interface", bad(8)),
        (b"static N service 6 80 80", bad(18)),
        (b"static N service tcp 80", bad(24)),
        (b"static N service udp 80 65536", bad(25)),
        (b"static N inactive", bad(10)),
        (b"static N unidirectional", bad(10)),
        (b"static N block-allocation", unsupported(10)),
        (b"dynamic 2001:db8::1", unsupported(9)),
        (b"dynamic N service tcp 80 80", bad(11)),
        (b"dynamic pat-pool N round-robin", unsupported(20)),
    ];
    for (text, fault) in lines {
        assert_fault(&rt, own(text)?, fault)?;
    }
    Ok(())
}

/// A manual rule of section 3 on (inside,outside) with all parts.
fn wanted_manual() -> Result<RuleFields, Fail> {
    Ok(RuleFields {
        section: 3,
        owner: None,
        real_ifc: Some(1),
        mapped_ifc: Some(0),
        is_static: true,
        real: RealRef::Named(name(b"N")?),
        mapped: MappedRef::Interface,
        dest: Some((name(b"N")?, name(b"N")?)),
        service: ServicePart::Named {
            first: name(b"S")?,
            second: name(b"S")?,
        },
        unidirectional: true,
        inactive: true,
        route_lookup: true,
    })
}

#[test]
fn a_manual_rule_has_the_parts_of_its_line(rt: HostRuntime) -> Result<(), Fail> {
    let mut words = cursor(
        b"(inside,outside) after-auto 7 source static N interface destination static N N service S S unidirectional inactive route-lookup",
    )?;
    match manual_rule(&mut words, &Table) {
        Ok(new) => {
            assert_eq!(rt; new.place, Some(7));
            assert!(rt; *new.rule.fields() == wanted_manual()?);
        }
        Err(_) => return Err("a line that is right was refused")?,
    }
    Ok(())
}

/// The rule of the object `N` on (any,outside) with a pool.
fn wanted_own() -> Result<RuleFields, Fail> {
    Ok(RuleFields {
        section: 2,
        owner: Some(name(b"N")?),
        real_ifc: None,
        mapped_ifc: Some(0),
        is_static: false,
        real: RealRef::Named(name(b"N")?),
        mapped: MappedRef::Pool {
            first: Some(PoolRef::Addr(Addr(0x0a00_0001))),
            pat_pool: Some(name(b"N")?),
            interface: true,
            ports: PortRule::FlatReserve,
            extended: true,
        },
        dest: None,
        service: ServicePart::None,
        unidirectional: false,
        inactive: false,
        route_lookup: false,
    })
}

#[test]
fn include_reserve_says_the_same_without_flat(rt: HostRuntime) -> Result<(), Fail> {
    let lines: [&'static [u8]; 2] = [
        b"(any,outside) dynamic 10.0.0.1 pat-pool N extended include-reserve interface no-proxy-arp",
        b"(any,outside) dynamic 10.0.0.1 pat-pool N extended flat include-reserve interface description dns",
    ];
    for text in lines {
        match own(text)? {
            Ok(rule) => assert!(rt; *rule.fields() == wanted_own()?),
            Err(_) => return Err("a line that is right was refused")?,
        }
    }
    Ok(())
}
