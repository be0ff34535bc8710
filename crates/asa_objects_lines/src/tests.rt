//! What lies outside the contracts: that the clauses mean what they should, line by line of the grammar.
ghost use Rattle.std.specs.Prelude.{◌≡◌, ◌<◌, ◌-◌, ◌^◌, length, None, Some, if◌then◌else◌};
ghost use Rattle.std.specs.Str.{bytes_eq};

use crate::{
    BlockKind, GroupKind, Item, ObjectValue, Removal, ServiceProtocol, ServiceValue, Statement,
    Top, read_removal, read_statement, read_top,
};
use asa_base::{
    Addr, Kind, Member, Name, Names, PortProto, PortRange, Ports, Prefix, Range, Service,
};
use asa_text::{LineFault, Words};
use std::process::Abort;
use std::test::Fail;

const NETWORK: BlockKind = BlockKind::Group(GroupKind::Network);

const SERVICE: BlockKind = BlockKind::Group(GroupKind::Service);

const PORT: BlockKind = BlockKind::Group(GroupKind::Port(PortProto::Tcp));

const PROTOCOL: BlockKind = BlockKind::Group(GroupKind::Protocol);

const ICMP: BlockKind = BlockKind::Group(GroupKind::IcmpType);

/// The only name that is known.
#[derive(Drop)]
struct Only {
    name: Name,
    kind: Kind,
    ports: Option<PortProto>,
}

/// Whether the two names are the same.
fn is_same(name: &Name, other: &Name) -> bool
    ensures { result ≡ bytes_eq name.now other.now }
{
    name.bytes() == other.bytes()
}

impl Names for Only {
    ghost known = { λ o. record {
      kind_of = λ n. if bytes_eq o.name n then Some o.kind else None;
      interface_of = λ _. None;
      port_proto = λ n. if bytes_eq o.name n then o.ports else None;
      service_range = λ _. None;
      address_of = λ _. None;
    } };

    fn kind_of(&self, name: &Name) -> Option<Kind> {
        if is_same(&self.name, name) {
            Some(self.kind)
        } else {
            None
        }
    }

    fn interface_of(&self, _name: &Name) -> Option<u8> {
        None
    }

    fn port_proto(&self, name: &Name) -> Option<PortProto> {
        if is_same(&self.name, name) {
            self.ports
        } else {
            None
        }
    }

    fn service_range(&self, _name: &Name) -> Option<Service> {
        None
    }

    fn address_of(&self, _ifc: u8) -> Option<Addr> {
        None
    }
}

fn name(text: &[u8]) -> Result<Name, Fail> {
    Ok(Name::new(text).ok_or("no name")?)
}

/// The name `N` is known, as this.
fn knowing(kind: Kind, ports: Option<PortProto>) -> Result<Only, Fail> {
    let name = name(b"N")?;
    Ok(Only { name, kind, ports })
}

/// What an indented line says where `N` is known.
fn says(names: &Only, block: BlockKind, text: &[u8]) -> Result<Statement, LineFault>
    requires { length text.now < 2 ^ 32 - 1 }
{
    read_statement(&mut Words::of(text), names, block)
}

/// What the first line of a block defines.
fn top(text: &[u8]) -> Result<Top, LineFault>
    requires { length text.now < 2 ^ 32 - 1 }
{
    read_top(&mut Words::of(text))
}

/// What a line removes where `N` is known.
fn removal(names: &Only, text: &[u8]) -> Result<Removal, LineFault>
    requires { length text.now < 2 ^ 32 - 1 }
{
    read_removal(&mut Words::of(text), names)
}

fn bad<T>(column: u32) -> Result<T, LineFault> {
    Err(LineFault::Bad { column })
}

fn unsupported<T>(column: u32) -> Result<T, LineFault> {
    Err(LineFault::Unsupported { column })
}

fn unknown<T>(column: u32) -> Result<T, LineFault> {
    Err(LineFault::Unknown { column })
}

fn range(first: u16, last: u16) -> Result<PortRange, Fail> {
    Ok(PortRange::new(first, last).ok_or("no range")?)
}

#[test]
fn a_network_object_is_refused_at_the_word_that_is_wrong(rt: HostRuntime) -> Result<(), Fail> {
    let names = knowing(Kind::NetObject, None)?;
    let block = BlockKind::NetObject;
    assert_eq!(rt; says(&names, block, b" host"), bad(6));
    assert_eq!(rt; says(&names, block, b" host 10.0.0"), bad(7));
    assert_eq!(rt; says(&names, block, b" host fe80::1"), unsupported(7));
    assert_eq!(rt; says(&names, block, b" host 10.0.0.1 x"), bad(16));
    assert_eq!(rt;
        says(&names, block, b" subnet 10.0.0.1 255.255.255.0"),
        bad(18)
    );
    assert_eq!(rt;
        says(&names, block, b" subnet 10.0.0.0 255.0.255.0"),
        bad(18)
    );
    assert_eq!(rt; says(&names, block, b" range 10.0.0.9 10.0.0.1"), bad(17));
    assert_eq!(rt; says(&names, block, b" fqdn host.example"), unsupported(2));
    assert_eq!(rt; says(&names, block, b" no host 10.0.0.1"), bad(2));
    assert_eq!(rt; says(&names, block, b" no"), bad(2));
    assert_eq!(rt; says(&names, block, b" network-object object N"), bad(2));
    Ok(())
}

#[test]
fn a_service_object_is_refused_at_the_word_that_is_wrong(rt: HostRuntime) -> Result<(), Fail> {
    let names = knowing(Kind::ServiceObject, None)?;
    let block = BlockKind::ServiceObject;
    assert_eq!(rt; says(&names, block, b" service"), bad(9));
    assert_eq!(rt; says(&names, block, b" service tcp-udp"), bad(10));
    assert_eq!(rt; says(&names, block, b" service tcp source lt 0"), bad(24));
    assert_eq!(rt;
        says(&names, block, b" service udp destination gt 65535"),
        bad(29)
    );
    assert_eq!(rt;
        says(&names, block, b" service tcp destination range 90 80"),
        bad(35)
    );
    assert_eq!(rt; says(&names, block, b" service icmp 256"), bad(15));
    assert_eq!(rt; says(&names, block, b" service icmp echo 0 0"), bad(22));
    assert_eq!(rt; says(&names, block, b" service 47 source eq 1"), bad(13));
    assert_eq!(rt; says(&names, block, b" no description x"), bad(2));
    assert_eq!(rt; says(&names, block, b" host 10.0.0.1"), bad(2));
    Ok(())
}

#[test]
fn a_network_group_is_refused_at_the_word_that_is_wrong(rt: HostRuntime) -> Result<(), Fail> {
    let names = knowing(Kind::ServiceObject, None)?;
    assert_eq!(rt;
        says(&names, NETWORK, b" network-object 10.0.0.1 255.255.255.0"),
        bad(26)
    );
    assert_eq!(rt;
        says(&names, NETWORK, b" network-object host ::1"),
        unsupported(22)
    );
    assert_eq!(rt; says(&names, NETWORK, b" network-object object N"), bad(24));
    assert_eq!(rt;
        says(&names, NETWORK, b" network-object object M"),
        unknown(24)
    );
    assert_eq!(rt; says(&names, NETWORK, b" group-object N"), bad(15));
    assert_eq!(rt; says(&names, NETWORK, b" group-object H"), unknown(15));
    assert_eq!(rt; says(&names, NETWORK, b" host 10.0.0.1"), bad(2));
    assert_eq!(rt; says(&names, NETWORK, b" no host 10.0.0.1"), bad(2));
    assert_eq!(rt; says(&names, NETWORK, b" no description x"), bad(2));
    assert_eq!(rt; says(&names, NETWORK, b" no network-object host"), bad(24));
    assert_eq!(rt; says(&names, NETWORK, b" fqdn host.example"), bad(2));
    Ok(())
}

#[test]
fn every_other_group_is_refused_at_the_word_that_is_wrong(rt: HostRuntime) -> Result<(), Fail> {
    let names = knowing(Kind::PortGroup, Some(PortProto::Udp))?;
    assert_eq!(rt; says(&names, SERVICE, b" service-object object N"), bad(24));
    assert_eq!(rt;
        says(&names, SERVICE, b" service-object tcp source"),
        bad(27)
    );
    assert_eq!(rt; says(&names, SERVICE, b" port-object eq 80"), bad(2));
    assert_eq!(rt; says(&names, SERVICE, b" group-object N"), bad(15));
    assert_eq!(rt; says(&names, PORT, b" port-object lt 80"), bad(14));
    assert_eq!(rt; says(&names, PORT, b" port-object range 90 80"), bad(23));
    assert_eq!(rt; says(&names, PORT, b" port-object eq nosuch"), bad(17));
    assert_eq!(rt; says(&names, PORT, b" group-object N"), bad(15));
    assert_eq!(rt; says(&names, PROTOCOL, b" protocol-object 0"), bad(18));
    assert_eq!(rt;
        says(&names, PROTOCOL, b" protocol-object tcp udp"),
        bad(22)
    );
    assert_eq!(rt; says(&names, ICMP, b" icmp-object 256"), bad(14));
    assert_eq!(rt; says(&names, ICMP, b" no icmp-object"), bad(16));
    Ok(())
}

#[test]
fn a_first_line_is_refused_at_the_word_that_is_wrong(rt: HostRuntime) {
    assert_eq!(rt; top(b"object"), bad(7));
    assert_eq!(rt; top(b"object host N"), bad(8));
    assert_eq!(rt; top(b"object network"), bad(15));
    assert_eq!(rt; top(b"object network N M"), bad(18));
    assert_eq!(rt; top(b"object-group user N"), unsupported(14));
    assert_eq!(rt; top(b"object-group security N"), unsupported(14));
    assert_eq!(rt; top(b"object-group service N icmp"), bad(24));
    assert_eq!(rt; top(b"object-group service N tcp udp"), bad(28));
    assert_eq!(rt; top(b"object-group network N tcp"), bad(24));
    assert_eq!(rt; top(b"route inside"), bad(1));
}

#[test]
fn a_removal_is_refused_at_the_word_that_is_wrong(rt: HostRuntime) -> Result<(), Fail> {
    let names = knowing(Kind::NetObject, None)?;
    assert_eq!(rt; removal(&names, b"no object network M x"), unknown(19));
    assert_eq!(rt; removal(&names, b"no object network N x"), bad(21));
    assert_eq!(rt; removal(&names, b"no object service N"), bad(19));
    assert_eq!(rt; removal(&names, b"no object-group network N"), bad(25));
    assert_eq!(rt; removal(&names, b"no object-group user N"), unsupported(17));
    let ports = knowing(Kind::PortGroup, Some(PortProto::Tcp))?;
    assert_eq!(rt; removal(&ports, b"no object-group service N tcp"), bad(27));
    Ok(())
}

/// 10.0.0.9.
const HOST: Addr = Addr(0x0a00_0009);

#[test]
fn one_address_is_a_host_in_a_group_and_stays_a_subnet_in_an_object(
    rt: HostRuntime,
) -> Result<(), Fail> {
    let names = knowing(Kind::NetObject, None)?;
    let subnet = Prefix::new(HOST, 32).ok_or("no network")?;
    assert_eq!(rt;
        says(
            &names,
            BlockKind::NetObject,
            b" subnet 10.0.0.9 255.255.255.255"
        ),
        Ok(Statement::Value(ObjectValue::Network(Member::Subnet(subnet))))
    );
    assert_eq!(rt;
        says(&names, NETWORK, b" network-object 10.0.0.9 255.255.255.255"),
        Ok(Statement::Member(Item::Network(Member::Host(HOST))))
    );
    assert_eq!(rt;
        says(&names, NETWORK, b" no network-object host 10.0.0.9"),
        Ok(Statement::Removed(Item::Network(Member::Host(HOST))))
    );
    Ok(())
}

#[test]
fn a_network_object_says_its_value_and_tells_of_nat(rt: HostRuntime) -> Result<(), Fail> {
    let names = knowing(Kind::NetObject, None)?;
    let block = BlockKind::NetObject;
    let range = Range::new(HOST, Addr(0x0a00_00ff)).ok_or("no range")?;
    // 9, 10 and 11, 12 to 15, 16 to 31, 32 to 63, 64 to 127, 128 to 255.
    assert_eq!(rt; Item::Network(Member::Span(range)).prefix_count(), 7);
    assert_eq!(rt;
        says(&names, block, b" range 10.0.0.9 10.0.0.255"),
        Ok(Statement::Value(ObjectValue::Network(Member::Span(range))))
    );
    assert_eq!(rt;
        says(&names, block, b" host 10.0.0.9"),
        Ok(Statement::Value(ObjectValue::Network(Member::Host(HOST))))
    );
    assert_eq!(rt;
        says(&names, block, b" description of it"),
        Ok(Statement::Nothing)
    );
    assert_eq!(rt;
        says(&names, block, b" no description"),
        Ok(Statement::Nothing)
    );
    assert_eq!(rt; says(&names, block, b" no nat (a,b)"), Ok(Statement::NoNat));
    let mut words = Words::of(b" nat (a,b) dynamic interface");
    assert_eq!(rt;
        read_statement(&mut words, &names, block),
        Ok(Statement::Nat)
    );
    assert!(rt; words.next_is(b"(a,b)"));
    Ok(())
}

#[test]
fn members_name_what_is_known(rt: HostRuntime) -> Result<(), Fail> {
    let object = knowing(Kind::NetObject, None)?;
    assert_eq!(rt;
        says(&object, NETWORK, b" network-object object N"),
        Ok(Statement::Member(Item::Object(name(b"N")?)))
    );
    let service = knowing(Kind::ServiceObject, None)?;
    assert_eq!(rt;
        says(&service, SERVICE, b" no service-object object N"),
        Ok(Statement::Removed(Item::Object(name(b"N")?)))
    );
    let ports = knowing(Kind::PortGroup, Some(PortProto::Tcp))?;
    assert_eq!(rt;
        says(&ports, PORT, b" group-object N"),
        Ok(Statement::Member(Item::Group(name(b"N")?)))
    );
    Ok(())
}

#[test]
fn members_are_equal_by_what_they_mean(rt: HostRuntime) -> Result<(), Fail> {
    let names = knowing(Kind::NetObject, None)?;
    let www = Item::Port(range(80, 80)?);
    assert_eq!(rt;
        says(&names, PORT, b" port-object eq www"),
        Ok(Statement::Member(www.copy()))
    );
    assert_eq!(rt;
        says(&names, PORT, b" port-object range 80 80"),
        Ok(Statement::Member(www))
    );
    assert_eq!(rt;
        says(&names, PROTOCOL, b" protocol-object ip"),
        Ok(Statement::Member(Item::Protocol(None)))
    );
    assert_eq!(rt;
        says(&names, ICMP, b" icmp-object echo"),
        Ok(Statement::Member(Item::IcmpType(8)))
    );
    assert!(rt;
        says(&names, SERVICE, b" service-object tcp source neq 0")
            == says(&names, SERVICE, b" service-object 6 source gt 0")
    );
    assert!(rt;
        says(
            &names,
            SERVICE,
            b" service-object udp destination range 0 65535"
        ) == says(&names, SERVICE, b" service-object udp")
    );
    Ok(())
}

/// A service from these ports to these.
fn service(proto: u8, sport: PortRange, dport: PortRange) -> Service {
    Service {
        proto: Some(proto),
        sport,
        dport,
        itype: None,
        icode: None,
    }
}

#[test]
fn services_come_by_protocol_then_source_then_destination(rt: HostRuntime) -> Result<(), Fail> {
    let value = ServiceValue {
        protocol: ServiceProtocol::TcpUdp,
        source: Ports::two(
            PortRange::new(0, 6).ok_or("")?,
            PortRange::new(8, 65535).ok_or("")?,
        ),
        dest: Ports::one(PortRange::only(53)),
        itype: None,
        icode: None,
    };
    let mut services = Vec::new(rt.alloc());
    value.push_services(&mut services)?;
    let (low, high, domain) = (range(0, 6)?, range(8, 65535)?, range(53, 53)?);
    let wanted = [
        service(6, low, domain),
        service(6, high, domain),
        service(17, low, domain),
        service(17, high, domain),
    ];
    assert_eq!(rt; services.as_slice(), wanted.as_slice());
    assert_eq!(rt; value.service_count(), 4);
    assert_eq!(rt; value.single_service(), None);
    let tcp = ServiceValue {
        protocol: ServiceProtocol::One(6),
        source: Ports::one(PortRange::all()),
        ..value
    };
    assert_eq!(rt;
        tcp.single_service(),
        Some(service(6, PortRange::all(), domain))
    );
    Ok(())
}

#[test]
fn a_member_of_a_group_gives_services(rt: HostRuntime) -> Result<(), Fail> {
    let mut services = Vec::new(rt.alloc());
    let every = PortRange::all();
    let http = range(80, 81)?;
    Item::Port(http).push_services(GroupKind::Port(PortProto::Udp), &mut services)?;
    Item::Port(http).push_services(GroupKind::Port(PortProto::TcpUdp), &mut services)?;
    Item::Protocol(Some(47)).push_services(GroupKind::Protocol, &mut services)?;
    Item::IcmpType(8).push_services(GroupKind::IcmpType, &mut services)?;
    Item::Group(name(b"N")?).push_services(GroupKind::IcmpType, &mut services)?;
    let unstated = Service {
        proto: None,
        ..service(0, every, http)
    };
    let echo = Service {
        itype: Some(8),
        ..service(1, every, every)
    };
    let wanted = [
        service(17, every, http),
        unstated,
        service(47, every, every),
        echo,
    ];
    assert_eq!(rt; services.as_slice(), wanted.as_slice());
    assert_eq!(rt; Item::IcmpType(8).service_count(GroupKind::IcmpType), 1);
    Ok(())
}

#[test]
fn first_lines_and_removals_say_the_kind_and_the_name(rt: HostRuntime) -> Result<(), Fail> {
    let group = Top {
        block: BlockKind::Group(GroupKind::Port(PortProto::TcpUdp)),
        name: name(b"N")?,
        column: 22,
    };
    assert_eq!(rt; group.block.kind(), Kind::PortGroup);
    assert_eq!(rt; top(b"object-group service N tcp-udp"), Ok(group));
    let ports = knowing(Kind::PortGroup, Some(PortProto::Tcp))?;
    let removed = Removal {
        kind: Kind::PortGroup,
        name: name(b"N")?,
        column: 25,
    };
    assert_eq!(rt; removal(&ports, b"no object-group service N"), Ok(removed));
    Ok(())
}
