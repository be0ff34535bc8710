//! The ranges and the services of list lines, and the boxes that they make.
ghost use Rattle.std.specs.Prelude.{◌≡◌, ℕ, ◌+◌, ◌*◌, ◌^◌, ◌-◌, ◌≤◌, ◌<◌, [], ◌∷◌, ◌++◌, ◌==◌, Bool, IfOk, OnOk, map, filter, flat_map, length, sum_by};
ghost use Rattle.asa_base.specs.Members.{member_range};
ghost use Rattle.asa_acl_boxes.specs.Boxes as spec;

use asa_acl::{AddrRef, PortRef, ServiceRef};
use asa_base::{Addr, Meaning, Member, Name, PortRange, Range, Service};
use std::alloc::{AllocError, Global};

/// Whether the protocol has ports.
pub(crate) fn has_ports(proto: Option<u8>) -> bool
    ensures { result ≡ spec.has_ports proto }
{
    match proto {
        Some(number) => number == 6 || number == 17,
        None => false,
    }
}

/// Whether the line states these ports.
fn states_ports(ports: &PortRef) -> bool
    ensures { result ≡ spec.states_ports ports.now }
{
    match ports {
        PortRef::All => false,
        PortRef::Ranges(_) | PortRef::Named(_) => true,
    }
}

/// Whether the line states source or destination ports.
pub(crate) fn states_any_ports(source: &PortRef, dest: &PortRef) -> bool
    ensures { result ≡ spec.states_any_ports source.now dest.now }
{
    states_ports(source) || states_ports(dest)
}

/// The protocols of services.
fn protocols(alloc: Global, services: &[Service]) -> Result<Vec<Option<u8>>, AllocError>
    ensures { IfOk result (λ v. v.items ≡ map (λ s. s.proto) services.now) }
{
    let mut protocols = Vec::with_capacity(alloc, services.len())?;
    for service in services {
        protocols.push(service.proto)?;
    }
    Ok(protocols)
}

/// The protocols of those services that have ports.
fn protocols_with_ports(alloc: Global, services: &[Service]) -> Result<Vec<Option<u8>>, AllocError>
    ensures { IfOk result (λ v. v.items ≡ filter spec.has_ports (map (λ s. s.proto) services.now)) }
{
    let mut protocols = Vec::with_capacity(alloc, services.len())?;
    for service in services {
        if has_ports(service.proto) {
            protocols.push(service.proto)?;
        }
    }
    Ok(protocols)
}

/// The protocols of the members of a group, or of those alone that have ports.
pub(crate) fn group_protocols<M: Meaning>(
    alloc: Global,
    meaning: &M,
    group: &Name,
    with_ports: bool,
) -> Result<Vec<Option<u8>>, AllocError>
    ensures { IfOk result (λ v. v.items ≡ spec.those_with_ports with_ports (map (λ s. s.proto) ((M.meanings meaning.now).services group.now))) }
{
    let services = meaning.services(alloc, group)?;
    if with_ports {
        protocols_with_ports(alloc, services.as_slice())
    } else {
        protocols(alloc, services.as_slice())
    }
}

/// The range of an address, where there is one.
fn push_range(ranges: &mut Vec<Range>, address: Option<Addr>) -> Result<(), AllocError>
    ensures { OnOk result (ranges.new.items ≡ ranges.old.items ++ spec.range_if_any address) }
{
    if let Some(address) = address {
        ranges.push(Range::only(address))?;
    }
    Ok(())
}

/// The ranges of members.
fn push_members(ranges: &mut Vec<Range>, members: &[Member]) -> Result<(), AllocError>
    ensures { OnOk result (ranges.new.items ≡ ranges.old.items ++ map member_range members.now) }
{
    for member in members {
        ranges.push(member.range())?;
    }
    Ok(())
}

/// The ranges of a source or a destination.
pub(crate) fn ranges<M: Meaning>(
    alloc: Global,
    meaning: &M,
    address: &AddrRef,
) -> Result<Vec<Range>, AllocError>
    ensures { IfOk result (λ v. v.items ≡ spec.ranges_of (M.meanings meaning.now) address.now) }
{
    let mut ranges = Vec::new(alloc);
    match address {
        AddrRef::Any => ranges.push(Range::all())?,
        AddrRef::Nothing => {}
        AddrRef::Host(address) => ranges.push(Range::only(*address))?,
        AddrRef::Net(network) => ranges.push(Range::of_prefix(*network))?,
        AddrRef::Named(name) => {
            let members = meaning.members(alloc, name)?;
            push_members(&mut ranges, members.as_slice())?;
        }
        AddrRef::Interface(ifc) => push_range(&mut ranges, meaning.address_of(*ifc))?,
    }
    Ok(ranges)
}

/// The destination ports of services.
fn push_dest_ports(ranges: &mut Vec<PortRange>, services: &[Service]) -> Result<(), AllocError>
    ensures { OnOk result (ranges.new.items ≡ ranges.old.items ++ map (λ s. s.dport) services.now) }
{
    for service in services {
        ranges.push(service.dport)?;
    }
    Ok(())
}

/// The ranges of ports.
fn port_ranges<M: Meaning>(
    alloc: Global,
    meaning: &M,
    ports: &PortRef,
) -> Result<Vec<PortRange>, AllocError>
    ensures { IfOk result (λ v. v.items ≡ spec.port_ranges_of (M.meanings meaning.now) ports.now) }
{
    let mut ranges = Vec::new(alloc);
    match ports {
        PortRef::All => ranges.push(PortRange::all())?,
        PortRef::Ranges(stated) => {
            let (first, second) = stated.ranges();
            ranges.push(first)?;
            if let Some(second) = second {
                ranges.push(second)?;
            }
        }
        PortRef::Named(name) => {
            let services = meaning.services(alloc, name)?;
            push_dest_ports(&mut ranges, services.as_slice())?;
        }
    }
    Ok(ranges)
}

/// Appends a service for each range of destination ports.
fn push_dests(
    services: &mut Vec<Service>,
    proto: Option<u8>,
    sport: PortRange,
    dports: &[PortRange],
) -> Result<(), AllocError>
    ensures { OnOk result (services.new.items ≡ services.old.items ++ map (λ d. spec.with_ports proto sport d) dports.now) }
{
    for dport in dports {
        services.push(Service {
            proto,
            sport,
            dport: *dport,
            itype: None,
            icode: None,
        })?;
    }
    Ok(())
}

/// Appends a service for each range of source ports with each of destination ports.
fn push_sources(
    services: &mut Vec<Service>,
    proto: Option<u8>,
    sports: &[PortRange],
    dports: &[PortRange],
) -> Result<(), AllocError>
    ensures { OnOk result (services.new.items ≡ services.old.items ++ flat_map (λ s. map (λ d. spec.with_ports proto s d) dports.now) sports.now) }
{
    for sport in sports {
        push_dests(services, proto, *sport, dports)?;
    }
    Ok(())
}

/// The services of protocols with ranges of ports.
fn all_with_ports(
    alloc: Global,
    protos: &[Option<u8>],
    sports: &[PortRange],
    dports: &[PortRange],
) -> Result<Vec<Service>, AllocError>
    ensures { IfOk result (λ v. v.items ≡ spec.all_with_ports protos.now sports.now dports.now) }
{
    let mut services = Vec::new(alloc);
    for proto in protos {
        push_sources(&mut services, *proto, sports, dports)?;
    }
    Ok(services)
}

/// The protocols of a line with ports: its own, or those of its group's members; where ports are stated, those that have
/// ports.
fn line_protocols<M: Meaning>(
    alloc: Global,
    meaning: &M,
    group: &Option<Name>,
    own: Option<u8>,
    with_ports: bool,
) -> Result<Vec<Option<u8>>, AllocError>
    ensures { IfOk result (λ v. v.items ≡ spec.those_with_ports with_ports (spec.protocols_of (M.meanings meaning.now) group.now own)) }
{
    if let Some(group) = group {
        return group_protocols(alloc, meaning, group, with_ports);
    }
    let mut protocols = Vec::new(alloc);
    if !with_ports || has_ports(own) {
        protocols.push(own)?;
    }
    Ok(protocols)
}

/// One service alone.
fn one_service(alloc: Global, service: Service) -> Result<Vec<Service>, AllocError>
    ensures { IfOk result (λ v. v.items ≡ service ∷ []) }
{
    let mut services = Vec::new(alloc);
    services.push(service)?;
    Ok(services)
}

/// The services of a name.
fn named_services<M: Meaning>(
    alloc: Global,
    meaning: &M,
    name: &Name,
) -> Result<Vec<Service>, AllocError>
    ensures { IfOk result (λ v. v.items ≡ (M.meanings meaning.now).services name.now) }
{
    let services = meaning.services(alloc, name)?;
    Ok(services.into_vec())
}

/// The services of a line, by protocol, in it by range of source ports, in it by range of destination ports.
pub(crate) fn services<M: Meaning>(
    alloc: Global,
    meaning: &M,
    service: &ServiceRef,
) -> Result<Vec<Service>, AllocError>
    ensures { IfOk result (λ v. v.items ≡ spec.services_of (M.meanings meaning.now) service.now) }
{
    match service {
        ServiceRef::Plain(service) => one_service(alloc, *service),
        ServiceRef::Named(name) | ServiceRef::Icmp(name) => named_services(alloc, meaning, name),
        ServiceRef::Ported {
            group,
            proto,
            source,
            dest,
        } => {
            let with_ports = states_any_ports(source, dest);
            let protos = line_protocols(alloc, meaning, group, *proto, with_ports)?;
            let sports = port_ranges(alloc, meaning, source)?;
            let dports = port_ranges(alloc, meaning, dest)?;
            all_with_ports(
                alloc,
                protos.as_slice(),
                sports.as_slice(),
                dports.as_slice(),
            )
        }
    }
}
