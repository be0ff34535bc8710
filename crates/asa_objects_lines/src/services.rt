//! The services that values and members stand for.
ghost use Rattle.std.specs.Prelude.{◌≡◌, ℕ, ◌≤◌, ◌++◌, length, Option, OnOk};
ghost use Rattle.asa_objects_lines.specs.Services as spec;
ghost use Rattle.asa_objects_lines.specs.Items as items;

use crate::kinds::GroupKind;
use crate::service_value::{ServiceProtocol, ServiceValue};
use crate::statement::Item;
use asa_base::{PortProto, PortRange, Ports, Service};
use std::alloc::AllocError;

/// Whether it is `tcp` alone or `udp` alone.
fn is_one_with_ports(protocol: ServiceProtocol) -> bool
    ensures { result ≡ spec.is_one_with_ports protocol }
{
    match protocol {
        ServiceProtocol::One(number) => number == 6 || number == 17,
        ServiceProtocol::Every | ServiceProtocol::TcpUdp => false,
    }
}

/// A service of the value: one protocol, one range of source ports and one of destination ports.
fn service_of(
    value: &ServiceValue,
    proto: Option<u8>,
    sport: PortRange,
    dport: PortRange,
) -> Service
    ensures { result ≡ spec.service_part value.now proto sport dport }
{
    Service {
        proto,
        sport,
        dport,
        itype: value.itype,
        icode: value.icode,
    }
}

/// Appends the services of one protocol and one range of source ports.
fn push_services_to(
    out: &mut Vec<Service>,
    value: &ServiceValue,
    proto: Option<u8>,
    sport: PortRange,
) -> Result<(), AllocError>
    ensures { OnOk result (out.new.items ≡ out.old.items ++ spec.services_to value.now proto sport) }
{
    let (first, second) = value.dest.ranges();
    out.push(service_of(value, proto, sport, first))?;
    if let Some(second) = second {
        out.push(service_of(value, proto, sport, second))?;
    }
    Ok(())
}

/// Appends the services of one protocol.
fn push_services_from(
    out: &mut Vec<Service>,
    value: &ServiceValue,
    proto: Option<u8>,
) -> Result<(), AllocError>
    ensures { OnOk result (out.new.items ≡ out.old.items ++ spec.services_from value.now proto) }
{
    let (first, second) = value.source.ranges();
    push_services_to(out, value, proto, first)?;
    if let Some(second) = second {
        push_services_to(out, value, proto, second)?;
    }
    Ok(())
}

impl ServiceValue {
    /// How many services of one protocol the value stands for.
    fn count_of_one(&self) -> usize
        ensures value { (proto : Option ℕ) → result ≡ length (spec.services_from self.now proto) }
        ensures few { result ≤ 4 }
    {
        match (self.source.ranges().1, self.dest.ranges().1) {
            (None, None) => 1,
            (Some(_), None) | (None, Some(_)) => 2,
            (Some(_), Some(_)) => 4,
        }
    }

    /// How many services the value stands for, 1 to 8; it takes no memory.
    #[tactic(auto, unfolding(crate::specs::Services::services_of))]
    pub fn service_count(&self) -> usize
        ensures value { result ≡ length (spec.services_of self.now) }
        ensures few { result ≤ 8 }
    {
        match self.protocol {
            ServiceProtocol::Every | ServiceProtocol::One(_) => self.count_of_one(),
            ServiceProtocol::TcpUdp => self.count_of_one() + self.count_of_one(),
        }
    }

    /// Appends the services that the value stands for: TCP before UDP, then by source range, then by destination range.
    #[tactic(auto, unfolding(crate::specs::Services::services_of))]
    pub fn push_services(&self, out: &mut Vec<Service>) -> Result<(), AllocError>
        ensures { OnOk result (out.new.items ≡ out.old.items ++ spec.services_of self.now) }
    {
        match self.protocol {
            ServiceProtocol::Every => push_services_from(out, self, None),
            ServiceProtocol::One(number) => push_services_from(out, self, Some(number)),
            ServiceProtocol::TcpUdp => {
                push_services_from(out, self, Some(6))?;
                push_services_from(out, self, Some(17))
            }
        }
    }

    /// The only service of a value of `tcp` alone or `udp` alone, or None exactly where it is of another protocol or
    /// stands for several services. It takes no memory.
    #[tactic(auto, unfolding(crate::specs::Services::single_service, crate::specs::Services::services_of))]
    pub fn single_service(&self) -> Option<Service>
        ensures { result ≡ spec.single_service self.now }
    {
        if !is_one_with_ports(self.protocol) {
            return None;
        }
        let ServiceProtocol::One(number) = self.protocol else {
            return None;
        };
        match (self.source.ranges(), self.dest.ranges()) {
            ((source, None), (dest, None)) => Some(service_of(self, Some(number), source, dest)),
            _ => None,
        }
    }
}

/// The protocol of a word of ports.
fn proto_of_ports(ports: PortProto) -> Option<u8>
    ensures { result ≡ items.proto_of_ports ports }
{
    match ports {
        PortProto::Tcp => Some(6),
        PortProto::Udp => Some(17),
        PortProto::TcpUdp => None,
    }
}

impl GroupKind {
    /// The protocol of the ports of a group, where its word states one.
    fn proto(self) -> Option<u8>
        ensures { result ≡ items.proto_of_group self }
    {
        match self {
            GroupKind::Port(ports) => proto_of_ports(ports),
            GroupKind::Network | GroupKind::Service | GroupKind::Protocol | GroupKind::IcmpType =>
                None,
        }
    }
}

/// A service of one protocol, or of every, to these ports.
fn service_to(proto: Option<u8>, dport: PortRange) -> Service
    ensures { result ≡ items.service_to proto dport }
{
    Service {
        proto,
        sport: PortRange::all(),
        dport,
        itype: None,
        icode: None,
    }
}

/// ICMP of one type.
fn icmp_service(itype: u8) -> Service
    ensures { result ≡ items.icmp_service itype }
{
    Service {
        proto: Some(1),
        sport: PortRange::all(),
        dport: PortRange::all(),
        itype: Some(itype),
        icode: None,
    }
}

impl Item {
    /// How many services the member stands for by itself, in a group of this kind. Names and addresses count none.
    #[tactic(auto, unfolding(crate::specs::Items::item_services))]
    pub fn service_count(&self, group: GroupKind) -> usize
        ensures { result ≡ length (items.item_services group self.now) }
    {
        match self {
            Item::Service(value) => value.service_count(),
            Item::Port(_) | Item::Protocol(_) | Item::IcmpType(_) => 1,
            Item::Network(_) | Item::Object(_) | Item::Group(_) => 0,
        }
    }

    /// How many networks the addresses of the member have by themselves, at most 62. Whatever isn't addresses has none.
    pub fn prefix_count(&self) -> u32
        ensures value { result ≡ items.item_prefix_count self.now }
        ensures few { result ≤ 62 }
    {
        match self {
            Item::Network(member) => member.prefix_count(),
            Item::Service(_)
            | Item::Port(_)
            | Item::Protocol(_)
            | Item::IcmpType(_)
            | Item::Object(_)
            | Item::Group(_) => 0,
        }
    }

    /// Appends the services that the member stands for by itself, in a group of this kind: a range of ports as
    /// destination ports with the protocol of the group's word, none for `tcp-udp`; an ICMP type as ICMP with the type.
    /// Names and addresses add none.
    #[tactic(auto, unfolding(crate::specs::Items::item_services))]
    pub fn push_services(&self, group: GroupKind, out: &mut Vec<Service>) -> Result<(), AllocError>
        ensures { OnOk result (out.new.items ≡ out.old.items ++ items.item_services group self.now) }
    {
        match self {
            Item::Service(value) => value.push_services(out),
            Item::Port(range) => Ok(out.push(service_to(group.proto(), *range))?),
            Item::Protocol(proto) => Ok(out.push(service_to(*proto, PortRange::all()))?),
            Item::IcmpType(itype) => Ok(out.push(icmp_service(*itype))?),
            Item::Network(_) | Item::Object(_) | Item::Group(_) => Ok(()),
        }
    }
}
