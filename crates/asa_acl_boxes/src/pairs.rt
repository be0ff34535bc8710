//! How many ranges, services and prefix pairs the lines of a list have, without listing them.
ghost use Rattle.std.specs.Prelude.{◌≡◌, ℕ, ◌+◌, ◌*◌, ◌^◌, ◌≤◌, Bool, IfOk, length, map};
ghost use Rattle.asa_acl_boxes.specs.Boxes as spec;
ghost use Rattle.asa_acl_boxes.specs.Pairs as pairs;

use crate::expansion::{group_protocols, has_ports, states_any_ports};
use asa_acl::{Ace, AclLine, AddrRef, HeldLine, PortRef, ServiceRef};
use asa_base::{Addr, Meaning, Name, Range, prefix_count};
use std::alloc::{AllocError, Global};

/// How many prefixes an address has, where there is one.
fn prefixes_if_any(address: Option<Addr>) -> u64
    ensures value { result ≡ pairs.prefix_count (spec.range_if_any address) }
    ensures few { result ≤ 62 }
{
    match address {
        Some(address) => u64::from(prefix_count(Range::only(address))),
        None => 0,
    }
}

/// How many prefixes the ranges of a source or a destination have together.
#[tactic(auto, using(crate::proofs::CountLaws::prefixes_of_members))]
fn address_prefixes<M: Meaning>(meaning: &M, address: &AddrRef) -> u64
    ensures value { result ≡ pairs.prefix_count (spec.ranges_of (M.meanings meaning.now) address.now) }
    ensures few { result ≤ 4063232 }
{
    match address {
        AddrRef::Any => u64::from(prefix_count(Range::all())),
        AddrRef::Nothing => 0,
        AddrRef::Host(address) => u64::from(prefix_count(Range::only(*address))),
        AddrRef::Net(network) => u64::from(prefix_count(Range::of_prefix(*network))),
        AddrRef::Named(name) => meaning.prefix_count(name),
        AddrRef::Interface(ifc) => prefixes_if_any(meaning.address_of(*ifc)),
    }
}

/// How many ranges a source or a destination has.
pub(crate) fn range_count<M: Meaning>(meaning: &M, address: &AddrRef) -> u64
    ensures { result ≡ length (spec.ranges_of (M.meanings meaning.now) address.now) }
{
    match address {
        AddrRef::Any | AddrRef::Host(_) | AddrRef::Net(_) => 1,
        AddrRef::Nothing => 0,
        AddrRef::Named(name) => meaning.member_count(name),
        AddrRef::Interface(ifc) => {
            if meaning.address_of(*ifc).is_some() {
                1
            } else {
                0
            }
        }
    }
}

/// How many ranges of ports there are.
fn port_range_count<M: Meaning>(meaning: &M, ports: &PortRef) -> u64
    ensures value { result ≡ length (spec.port_ranges_of (M.meanings meaning.now) ports.now) }
    ensures few { result ≤ 65536 }
{
    match ports {
        PortRef::All => 1,
        PortRef::Ranges(ranges) => { if ranges.ranges().1.is_some() { 2 } else { 1 } }
        PortRef::Named(name) => meaning.service_count(name),
    }
}

/// How many protocols a line with ports has: its own, or those of its group's members; where ports are stated, those that
/// have ports.
fn protocol_count<M: Meaning>(
    alloc: Global,
    meaning: &M,
    group: &Option<Name>,
    own: Option<u8>,
    with_ports: bool,
) -> Result<u64, AllocError>
    ensures value { IfOk result (λ n. n ≡ length (spec.those_with_ports with_ports (spec.protocols_of (M.meanings meaning.now) group.now own))) }
    ensures few { IfOk result (λ n. n ≤ 65536) }
{
    match group {
        Some(group) => group_protocol_count(alloc, meaning, group, with_ports),
        None => {
            if with_ports && !has_ports(own) {
                Ok(0)
            } else {
                Ok(1)
            }
        }
    }
}

/// How many protocols the members of a group have, or how many of them have ports.
#[tactic(auto, using(crate::proofs::CountLaws::few_with_ports))]
fn group_protocol_count<M: Meaning>(
    alloc: Global,
    meaning: &M,
    group: &Name,
    with_ports: bool,
) -> Result<u64, AllocError>
    ensures value { IfOk result (λ n. n ≡ length (spec.those_with_ports with_ports (map (λ s. s.proto) ((M.meanings meaning.now).services group.now)))) }
    ensures few { IfOk result (λ n. n ≤ 65536) }
{
    let all = meaning.service_count(group);
    if !with_ports {
        return Ok(all);
    }
    let protocols = group_protocols(alloc, meaning, group, with_ports)?;
    Ok(protocols.len() as u64)
}

/// The product of three numbers of protocols and ranges of ports.
#[tactic(auto, using(crate::proofs::CountLaws::three_small))]
fn product(protocols: u64, sources: u64, dests: u64) -> u64
    requires protocols { protocols ≤ 65536 }
    requires sources { sources ≤ 65536 }
    requires dests { dests ≤ 65536 }
    ensures value { result ≡ protocols * (sources * dests) }
    ensures few { result ≤ 2 ^ 48 }
{
    protocols * (sources * dests)
}

/// How many services a line has.
#[tactic(auto, using(crate::proofs::CountLaws::length_with_ports))]
pub(crate) fn service_count<M: Meaning>(
    alloc: Global,
    meaning: &M,
    service: &ServiceRef,
) -> Result<u64, AllocError>
    ensures value { IfOk result (λ n. n ≡ length (spec.services_of (M.meanings meaning.now) service.now)) }
    ensures few { IfOk result (λ n. n ≤ 2 ^ 48) }
{
    match service {
        ServiceRef::Plain(_) => Ok(1),
        ServiceRef::Named(name) | ServiceRef::Icmp(name) => Ok(meaning.service_count(name)),
        ServiceRef::Ported {
            group,
            proto,
            source,
            dest,
        } => {
            let with_ports = states_any_ports(source, dest);
            let protocols = protocol_count(alloc, meaning, group, *proto, with_ports)?;
            let sources = port_range_count(meaning, source);
            let dests = port_range_count(meaning, dest);
            Ok(product(protocols, sources, dests))
        }
    }
}

/// The product of the prefixes of sources and destinations, and of services.
#[tactic(auto, using(crate::proofs::CountLaws::three_large))]
fn pair_product(sources: u64, dests: u64, services: u64) -> u128
    requires sources { sources ≤ 4063232 }
    requires dests { dests ≤ 4063232 }
    requires services { services ≤ 2 ^ 48 }
    ensures value { result ≡ sources * dests * services }
    ensures few { result ≤ 2 ^ 92 }
{
    u128::from(sources) * u128::from(dests) * u128::from(services)
}

/// How many prefix pairs an entry has, once for each of its services.
#[tactic(auto, unfolding(crate::specs::Pairs::entry_pairs))]
fn entry_pairs<M: Meaning>(alloc: Global, meaning: &M, ace: &Ace) -> Result<u128, AllocError>
    ensures value { IfOk result (λ n. n ≡ pairs.entry_pairs (M.meanings meaning.now) ace.now) }
    ensures few { IfOk result (λ n. n ≤ 2 ^ 92) }
{
    if !ace.active {
        return Ok(0);
    }
    let services = service_count(alloc, meaning, &ace.service)?;
    let sources = address_prefixes(meaning, &ace.source);
    let dests = address_prefixes(meaning, &ace.dest);
    Ok(pair_product(sources, dests, services))
}

/// How many prefix pairs a line has: the prefixes of its sources times those of its destinations times its services. A
/// remark and an inactive line have none. There are fewer than 2^93.
#[tactic(auto, unfolding(crate::specs::Pairs::line_pairs))]
pub fn line_pairs<M: Meaning>(
    alloc: Global,
    meaning: &M,
    line: &AclLine,
) -> Result<u128, AllocError>
    ensures value { IfOk result (λ n. n ≡ pairs.line_pairs (M.meanings meaning.now) line.now) }
    ensures few { IfOk result (λ n. n ≤ 2 ^ 92) }
{
    match line {
        AclLine::Ace(ace) => entry_pairs(alloc, meaning, ace),
        AclLine::Remark(_) => Ok(0),
    }
}

/// How many prefix pairs the lines of a list have together. There are fewer than 2^109.
pub fn list_pairs<M: Meaning>(
    alloc: Global,
    meaning: &M,
    lines: &[HeldLine],
) -> Result<u128, AllocError>
    requires { length lines.now ≤ 65536 }
    ensures value { IfOk result (λ n. n ≡ pairs.list_pairs (M.meanings meaning.now) lines.now) }
    ensures few { IfOk result (λ n. n ≤ 65536 * 2 ^ 92) }
{
    let mut sum = 0;
    for held in lines {
        sum += line_pairs(alloc, meaning, held.line())?;
    }
    Ok(sum)
}
