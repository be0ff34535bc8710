//! What lies outside the contracts: that the clauses mean what they should, at values from the rules.
ghost use Rattle.std.specs.Prelude.{◌==◌, ◌<◌, length, codes, Some, None, if◌then◌else◌};
ghost use Rattle.std.specs.Str.{bytes_eq};
ghost use Rattle.asa_base.specs.declared.kinds.Kind.TheVariants.{PortGroup};
ghost use Rattle.asa_base.specs.declared.kinds.PortProto.TheVariants.{Udp};

use crate::{
    Counter, Kind, LineBox, Member, Name, Names, Packet, PortProto, PortRange, Ports, Prefix,
    Range, Sealed, Service, icmp_code, icmp_type, interface, name, named, network, port, ports,
    prefix_count, prefixes_of, protocol, route_network, states_ports, zero_or_address,
    zero_or_mask,
};
use arrayvec::ArrayVec;
use asa_text::{Addr, LineFault, Words};
use std::collections::HashMap;
use std::test::Fail;

#[test]
fn a_name_has_1_to_64_printing_bytes(rt: HostRuntime) {
    let long = [b'n'; 65];
    assert!(rt; Name::new(&long[..64]).is_some());
    assert!(rt; Name::new(&long).is_none());
    assert!(rt; Name::new(b"").is_none());
    assert!(rt; Name::new(b"a b").is_none());
    assert!(rt; Name::new(b"!~").is_some());
    assert!(rt; Name::new(b"\x7f").is_none());
}

#[test]
fn names_are_equal_by_their_bytes(rt: HostRuntime) -> Result<(), Fail> {
    let inside = Name::new(b"inside").ok_or("no name")?;
    let other = Name::new(b"Inside").ok_or("no name")?;
    assert!(rt; inside.copy() == inside);
    assert!(rt; inside.clone()? == inside);
    assert!(rt; inside != other);
    assert_eq!(rt; inside.bytes(), b"inside".as_slice());
    Ok(())
}

#[test]
fn a_network_covers_the_addresses_with_its_leading_bits(rt: HostRuntime) -> Result<(), Fail> {
    // 10.0.0.0 with 24 ones, and everything.
    let lan = Prefix::new(Addr(0x0a00_0000), 24).ok_or("no network")?;
    assert!(rt; lan.covers(Addr(0x0a00_00ff)));
    assert!(rt; !lan.covers(Addr(0x0a00_0100)));
    let all = Prefix::new(Addr(0), 0).ok_or("no network")?;
    assert!(rt; all.covers(Addr(u32::MAX)));
    assert!(rt; Prefix::new(Addr(0x0a00_0001), 24).is_none());
    assert!(rt; Prefix::new(Addr(0x0a00_0001), 32).is_some());
    assert!(rt; Prefix::new(Addr(0), 33).is_none());
    Ok(())
}

#[test]
fn readers_take_the_words_of_a_route(rt: HostRuntime) -> Result<(), Fail> {
    let mut words = Words::of(b"outside 0 0 203.0.113.1");
    assert!(rt; name(&mut words).is_ok());
    let everything = route_network(&mut words).map_err(|_| "no network")?;
    assert_eq!(rt; everything, Prefix::new(Addr(0), 0).ok_or("no network")?);
    assert_eq!(rt; zero_or_address(&mut words), Ok(Addr(0xcb00_7101)));
    assert_eq!(rt;
        zero_or_mask(&mut words),
        Err(LineFault::Bad { column: 24 })
    );
    Ok(())
}

#[test]
fn host_bits_are_told_at_the_mask(rt: HostRuntime) {
    let mut words = Words::of(b"10.0.0.1 255.255.255.0");
    assert_eq!(rt; network(&mut words), Err(LineFault::Bad { column: 10 }));
}

#[test]
fn a_sealed_value_is_read(rt: HostRuntime) {
    let mut counter = Counter::new();
    let sealed = Sealed::new(7u8);
    assert_eq!(rt; *sealed.read(&mut counter), 7);
}

#[test]
fn ranges_have_their_ends(rt: HostRuntime) -> Result<(), Fail> {
    let range = Range::new(Addr(5), Addr(9)).ok_or("no range")?;
    assert!(rt; range.holds(Addr(5)) && range.holds(Addr(9)));
    assert!(rt; !range.holds(Addr(4)) && !range.holds(Addr(10)));
    assert!(rt; Range::new(Addr(9), Addr(5)).is_none());
    assert!(rt; Range::all().holds(Addr(u32::MAX)));
    let web = PortRange::new(80, 443).ok_or("no range")?;
    assert!(rt; web.holds(80) && web.holds(443) && !web.holds(444));
    assert!(rt; PortRange::new(443, 80).is_none());
    assert!(rt; PortRange::all().holds(0));
    Ok(())
}

#[test]
fn a_member_is_a_range(rt: HostRuntime) -> Result<(), Fail> {
    // 10.0.0.0 with 24 ones.
    let lan = Prefix::new(Addr(0x0a00_0000), 24).ok_or("no network")?;
    assert_eq!(rt; lan.last(), Addr(0x0a00_00ff));
    assert_eq!(rt; Prefix::over(Addr(0x0a00_0007), 24), lan);
    let range = Range::new(Addr(0x0a00_0000), Addr(0x0a00_00ff)).ok_or("no range")?;
    assert_eq!(rt; Member::Subnet(lan).range(), range);
    assert_eq!(rt; Range::of_prefix(lan), range);
    assert_eq!(rt; Member::Host(Addr(7)).range(), Range::only(Addr(7)));
    assert_eq!(rt; Member::Span(range).prefix_count(), 1);
    Ok(())
}

fn web_packet() -> Packet {
    Packet {
        ifc: 0,
        proto: 6,
        src: Addr(7),
        sport: 1024,
        dst: Addr(9),
        dport: 80,
        flags: 1,
        itype: 0,
        icode: 0,
    }
}

#[test]
fn a_box_holds_a_packet_by_all_its_parts(rt: HostRuntime) {
    let packet = web_packet();
    let web = Service {
        proto: Some(6),
        dport: PortRange::only(80),
        ..Service::any()
    };
    assert!(rt; web.holds(&packet));
    let all = LineBox {
        source: Range::all(),
        dest: Range::only(Addr(9)),
        service: web,
        line: 1,
        permit: true,
    };
    assert!(rt; all.holds(&packet));
    let udp = Service {
        proto: Some(17),
        ..web
    };
    assert!(rt; !udp.holds(&packet));
    let unreachable = Service {
        icode: Some(1),
        ..Service::any()
    };
    assert!(rt; !unreachable.holds(&packet));
}

/// One group of ports, GAMES, and one interface, inside.
struct Office;

impl Names for Office {
    ghost known = { λ _. record {
      kind_of = λ n. if bytes_eq n (codes "GAMES") then Some PortGroup else None;
      interface_of = λ n. if bytes_eq n (codes "inside") then Some 3 else None;
      port_proto = λ n. if bytes_eq n (codes "GAMES") then Some Udp else None;
      service_range = λ _. None;
      address_of = λ ifc. if ifc == 3 then Some (record { 0 = 7 }) else None;
    } };

    fn kind_of(&self, name: &Name) -> Option<Kind> {
        (name.bytes() == b"GAMES".as_slice()).then_some(Kind::PortGroup)
    }

    fn interface_of(&self, name: &Name) -> Option<u8> {
        (name.bytes() == b"inside".as_slice()).then_some(3)
    }

    fn port_proto(&self, name: &Name) -> Option<PortProto> {
        (name.bytes() == b"GAMES".as_slice()).then_some(PortProto::Udp)
    }

    fn service_range(&self, _name: &Name) -> Option<Service> {
        None
    }

    fn address_of(&self, ifc: u8) -> Option<Addr> {
        (ifc == 3).then_some(Addr(7))
    }
}

/// What any names know of the group, and of the interface by its number.
fn known_of<N: Names>(
    names: &N,
    group: &Name,
) -> (Option<PortProto>, Option<Service>, Option<Addr>) {
    (
        names.port_proto(group),
        names.service_range(group),
        names.address_of(3),
    )
}

#[test]
fn names_are_looked_up(rt: HostRuntime) -> Result<(), Fail> {
    let mut words = Words::of(b"inside GAMES GAMES outside WORDS");
    assert_eq!(rt; interface(&mut words, &Office), Ok(3));
    let (group, kind) = named(&mut words, &Office, &[Kind::NetGroup, Kind::PortGroup]).map_err(
        |_| "no name",
    )?;
    assert_eq!(rt; kind, Kind::PortGroup);
    assert_eq!(rt;
        known_of(&Office, &group),
        (Some(PortProto::Udp), None, Some(Addr(7)))
    );
    assert!(rt;
        named(&mut words, &Office, &[Kind::NetGroup]) == Err(LineFault::Bad { column: 14 })
    );
    assert_eq!(rt;
        interface(&mut words, &Office),
        Err(LineFault::NoSuchInterface { column: 20 })
    );
    assert!(rt;
        named(&mut words, &Office, &[Kind::NetGroup]) == Err(LineFault::Unknown { column: 28 })
    );
    Ok(())
}

#[test]
fn names_are_ordered_by_their_bytes(rt: HostRuntime) -> Result<(), Fail> {
    let upper = Name::new(b"Zone").ok_or("no name")?;
    let lower = Name::new(b"inside").ok_or("no name")?;
    assert!(rt; upper < lower);
    Ok(())
}

#[test]
fn services_are_read_by_name_and_number(rt: HostRuntime) {
    let mut words = Words::of(b"gre ip www 8080 echo 3 256");
    assert_eq!(rt; protocol(&mut words), Ok(Some(47)));
    assert_eq!(rt; protocol(&mut words), Ok(None));
    assert_eq!(rt; port(&mut words), Ok(80));
    assert_eq!(rt; port(&mut words), Ok(8080));
    assert_eq!(rt; icmp_type(&mut words), Ok(8));
    assert_eq!(rt; icmp_code(&mut words), Ok(3));
    assert_eq!(rt; icmp_code(&mut words), Err(LineFault::Bad { column: 24 }));
}

fn ports_of(line: &[u8]) -> Result<Ports, LineFault>
    requires { length line.now < 100 }
{
    ports(&mut Words::of(line))
}

#[test]
fn ports_are_stated_by_five_words(rt: HostRuntime) -> Result<(), Fail> {
    let low = PortRange::new(0, 1023).ok_or("no range")?;
    let high = PortRange::new(1025, 65535).ok_or("no range")?;
    assert_eq!(rt; ports_of(b"eq www"), Ok(Ports::one(PortRange::only(80))));
    assert_eq!(rt; ports_of(b"lt 1024"), Ok(Ports::one(low)));
    assert_eq!(rt; ports_of(b"gt 1024"), Ok(Ports::one(high)));
    assert_eq!(rt; ports_of(b"neq 1024"), Ok(Ports::two(low, high)));
    assert_eq!(rt; ports_of(b"range 1025 65535"), Ok(Ports::one(high)));
    assert_eq!(rt; Ports::two(low, high).ranges(), (low, Some(high)));
    assert_eq!(rt; ports_of(b"lt 0"), Err(LineFault::Bad { column: 4 }));
    assert_eq!(rt; ports_of(b"gt 65535"), Err(LineFault::Bad { column: 4 }));
    assert_eq!(rt;
        ports_of(b"range 81 80"),
        Err(LineFault::Bad { column: 10 })
    );
    assert_eq!(rt; ports_of(b"ge 80"), Err(LineFault::Bad { column: 1 }));
    assert!(rt; states_ports(&Words::of(b"neq 5")));
    assert!(rt; !states_ports(&Words::of(b"log")));
    Ok(())
}

#[test]
fn a_range_has_at_most_62_networks(rt: HostRuntime) -> Result<(), Fail> {
    // 10.0.0.1 to 10.0.0.6: one address, two pairs, one address.
    let range = Range::new(Addr(0x0a00_0001), Addr(0x0a00_0006)).ok_or("no range")?;
    let mut out: ArrayVec<Prefix, 62> = ArrayVec::new();
    prefixes_of(range, &mut out);
    let expected = [
        Prefix::over(Addr(0x0a00_0001), 32),
        Prefix::over(Addr(0x0a00_0002), 31),
        Prefix::over(Addr(0x0a00_0004), 31),
        Prefix::over(Addr(0x0a00_0006), 32),
    ];
    assert_eq!(rt; out.as_slice(), expected.as_slice());
    prefixes_of(Range::all(), &mut out);
    assert_eq!(rt; out.as_slice(), [Prefix::over(Addr(0), 0)].as_slice());
    let most = Range::new(Addr(1), Addr(u32::MAX - 1)).ok_or("no range")?;
    assert_eq!(rt; prefix_count(most), 62);
    assert_eq!(rt; prefix_count(range), 4);
    Ok(())
}

/// An enum over the types of ranges and services, as a key of a map.
#[derive(Clone, Copy, Debug, PartialEq, Eq, Hash)]
enum Entry {
    Network(Member),
    Ported(Ports, PortRange),
    Served(Service),
    Boxed(LineBox),
    Group(Kind, PortProto),
}

#[test]
fn ranges_and_services_are_keys_of_a_map(rt: HostRuntime) -> Result<(), Fail> {
    let web = PortRange::only(80);
    let member = Entry::Network(Member::Host(Addr(7)));
    let ports = Entry::Ported(Ports::one(web), PortRange::all());
    let service = Entry::Served(Service::any());
    let mut places = HashMap::new(rt.alloc());
    places.insert(member, 1)?;
    places.insert(ports, 2)?;
    places.insert(service, 3)?;
    assert_eq!(rt; places.get(&ports), Some(&2));
    assert_eq!(rt;
        places.get(&Entry::Group(Kind::PortGroup, PortProto::Tcp)),
        None
    );
    Ok(())
}
