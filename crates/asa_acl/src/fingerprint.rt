//! Fingerprints of lines, by which most lines are told apart without a comparison of their words.
ghost use Rattle.std.specs.Prelude.{◌≡◌};
ghost use Rattle.asa_acl.specs.Fingerprints as spec;

use asa_acl_line::{Ace, AclLine, AddrRef, PortRef, ServiceRef};
use asa_base::{Name, PortRange, Ports, Service};

#[tactic(auto, unfolding(crate::specs::Fingerprints::mixed))]
fn mix(mark: u64, number: u64) -> u64
    ensures { result ≡ spec.mixed mark number }
{
    mark.wrapping_mul(6364136223846793005).wrapping_add(number)
}

#[tactic(auto, unfolding(crate::specs::Fingerprints::mixed_bytes))]
fn mix_bytes(mark: u64, bytes: &[u8]) -> u64
    ensures { result ≡ spec.mixed_bytes mark bytes.now }
{
    let mut mixed = mark;
    for byte in bytes {
        mixed = mix(mixed, u64::from(*byte));
    }
    mixed
}

#[tactic(auto, unfolding(crate::specs::Fingerprints::mixed_option))]
fn mix_option(mark: u64, number: Option<u8>) -> u64
    ensures { result ≡ spec.mixed_option mark number }
{
    match number {
        None => mix(mark, 256),
        Some(n) => mix(mark, u64::from(n)),
    }
}

#[tactic(auto, unfolding(crate::specs::Fingerprints::mixed_span))]
fn mix_range(mark: u64, range: PortRange) -> u64
    ensures { result ≡ spec.mixed_span mark range }
{
    mix(mix(mark, u64::from(range.first)), u64::from(range.last))
}

#[tactic(auto, unfolding(crate::specs::Fingerprints::mixed_spans))]
fn mix_ranges(mark: u64, ports: Ports) -> u64
    ensures { result ≡ spec.mixed_spans mark ports }
{
    let (first, second) = ports.ranges();
    let mixed = mix_range(mark, first);
    match second {
        None => mixed,
        Some(second) => mix_range(mixed, second),
    }
}

#[tactic(auto, unfolding(crate::specs::Fingerprints::mixed_address))]
fn mix_address(mark: u64, address: &AddrRef) -> u64
    ensures { result ≡ spec.mixed_address mark address.now }
{
    match address {
        AddrRef::Any => mix(mark, 1),
        AddrRef::Nothing => mix(mark, 2),
        AddrRef::Host(a) => mix(mix(mark, 3), u64::from(a.0)),
        AddrRef::Net(n) => mix(mix(mix(mark, 4), u64::from(n.addr.0)), u64::from(n.len)),
        AddrRef::Named(name) => mix_bytes(mix(mark, 5), name.bytes()),
        AddrRef::Interface(ifc) => mix(mix(mark, 6), u64::from(*ifc)),
    }
}

#[tactic(auto, unfolding(crate::specs::Fingerprints::mixed_ports))]
fn mix_ports(mark: u64, ports: &PortRef) -> u64
    ensures { result ≡ spec.mixed_ports mark ports.now }
{
    match ports {
        PortRef::All => mix(mark, 1),
        PortRef::Ranges(ranges) => mix_ranges(mix(mark, 2), *ranges),
        PortRef::Named(name) => mix_bytes(mix(mark, 3), name.bytes()),
    }
}

#[tactic(auto, unfolding(crate::specs::Fingerprints::mixed_plain))]
fn mix_plain(mark: u64, service: &Service) -> u64
    ensures { result ≡ spec.mixed_plain mark service.now }
{
    let mixed = mix_option(mark, service.proto);
    let mixed = mix_range(mixed, service.sport);
    let mixed = mix_range(mixed, service.dport);
    let mixed = mix_option(mixed, service.itype);
    mix_option(mixed, service.icode)
}

#[tactic(auto, unfolding(crate::specs::Fingerprints::mixed_name))]
fn mix_name(mark: u64, name: &Option<Name>) -> u64
    ensures { result ≡ spec.mixed_name mark name.now }
{
    match name {
        None => mix(mark, 1),
        Some(name) => mix_bytes(mix(mark, 2), name.bytes()),
    }
}

#[tactic(auto, unfolding(crate::specs::Fingerprints::mixed_service))]
fn mix_service(mark: u64, service: &ServiceRef) -> u64
    ensures { result ≡ spec.mixed_service mark service.now }
{
    match service {
        ServiceRef::Plain(plain) => mix_plain(mix(mark, 1), plain),
        ServiceRef::Named(name) => mix_bytes(mix(mark, 2), name.bytes()),
        ServiceRef::Ported {
            group,
            proto,
            source,
            dest,
        } => {
            let mixed = mix_name(mix(mark, 3), group);
            let mixed = mix_option(mixed, *proto);
            let mixed = mix_ports(mixed, source);
            mix_ports(mixed, dest)
        }
        ServiceRef::Icmp(name) => mix_bytes(mix(mark, 4), name.bytes()),
    }
}

#[tactic(auto, unfolding(crate::specs::Fingerprints::mixed_flag))]
fn mix_flag(mark: u64, flag: bool) -> u64
    ensures { result ≡ spec.mixed_flag mark flag }
{
    mix(mark, if flag { 1 } else { 2 })
}

#[tactic(auto, unfolding(crate::specs::Fingerprints::mixed_ace))]
fn mix_ace(mark: u64, ace: &Ace) -> u64
    ensures { result ≡ spec.mixed_ace mark ace.now }
{
    let mixed = mix_flag(mark, ace.permit);
    let mixed = mix_flag(mixed, ace.active);
    let mixed = mix_service(mixed, &ace.service);
    let mixed = mix_address(mixed, &ace.source);
    mix_address(mixed, &ace.dest)
}

/// The fingerprint of the line: the same for equal lines.
#[tactic(auto, unfolding(crate::specs::Fingerprints::mark_of))]
pub(crate) fn mark_of(line: &AclLine) -> u64
    ensures { result ≡ spec.mark_of line.now }
{
    match line {
        AclLine::Ace(ace) => mix_ace(1, ace),
        AclLine::Remark(text) => mix_bytes(2, text.as_bytes()),
    }
}
