//! Readers of the protocol and the ports of a rule.
ghost use Rattle.std.specs.Prelude.{◌≡◌, ◌==◌};
ghost use Rattle.std.specs.Option.{option_eq};
ghost use Rattle.asa_text.specs.Readers.{Reads};
ghost use Rattle.asa_nat_lines.specs.Services as spec;

use crate::rule::ServicePart;
use asa_base::{Kind, Name, Names, PortRange, Service, named, port};
use asa_text::{LineFault, Words, keyword};

/// Whether the ports are stated: a range of all ports counts as not stated.
fn states(ports: &PortRange) -> bool
    ensures { result ≡ spec.states ports.now }
{
    !(ports.first == 0 && ports.last == u16::MAX)
}

/// Whether the service alone makes the rule wrong.
fn is_wrong(is_static: bool, has_dest: bool, service: &Service) -> bool
    ensures { result ≡ spec.is_wrong is_static has_dest service.now }
{
    let source = states(&service.sport);
    let dest = states(&service.dport);
    !(source || dest) || (source && !is_static) || (dest && !has_dest)
}

/// Whether the two are one protocol, or both none.
fn is_same_protocol(a: Option<u8>, b: Option<u8>) -> bool
    ensures { result ≡ option_eq (λ x y. x == y) a b }
{
    a == b
}

/// Whether the two services have one protocol, and both state the source, or both the destination, or both both.
fn agree(a: &Service, b: &Service) -> bool
    ensures { result ≡ spec.agree a.now b.now }
{
    is_same_protocol(a.proto, b.proto)
        && states(&a.sport) == states(&b.sport)
        && states(&a.dport) == states(&b.dport)
}

/// Reads the name of a service object of tcp or udp with one range of ports each, and gives its service too. Another
/// service object is Bad.
#[tactic(auto, unfolding(crate::specs::Services::service_name_at))]
fn service_name<N: Names>(words: &mut Words<'_>, names: &N) -> Result<(Name, Service), LineFault>
    ensures { Reads result words.new (spec.service_name_at (N.known names.now) words.old) }
{
    let column = words.column();
    let (name, _) = named(words, names, &[Kind::ServiceObject])?;
    match names.service_range(&name) {
        Some(service) => Ok((name, service)),
        None => Err(LineFault::Bad { column }),
    }
}

/// Reads the first name after `service`; one that makes the rule wrong is Bad.
#[tactic(auto, unfolding(crate::specs::Services::first_service_at))]
fn first_service<N: Names>(
    words: &mut Words<'_>,
    names: &N,
    is_static: bool,
    has_dest: bool,
) -> Result<(Name, Service), LineFault>
    ensures { Reads result words.new (spec.first_service_at (N.known names.now) is_static has_dest words.old) }
{
    let column = words.column();
    let (name, service) = service_name(words, names)?;
    if is_wrong(is_static, has_dest, &service) {
        return Err(LineFault::Bad { column });
    }
    Ok((name, service))
}

/// Reads the second name after `service`; one that doesn't agree with the first is Bad.
#[tactic(auto, unfolding(crate::specs::Services::second_service_at))]
fn second_service<N: Names>(
    words: &mut Words<'_>,
    names: &N,
    first: &Service,
) -> Result<Name, LineFault>
    ensures { Reads result words.new (spec.second_service_at (N.known names.now) first.now words.old) }
{
    let column = words.column();
    let (name, service) = service_name(words, names)?;
    if agree(first, &service) {
        Ok(name)
    } else {
        Err(LineFault::Bad { column })
    }
}

/// Reads `N N`, after `service`.
#[tactic(auto, unfolding(crate::specs::Services::service_names_at))]
fn service_names<N: Names>(
    words: &mut Words<'_>,
    names: &N,
    is_static: bool,
    has_dest: bool,
) -> Result<ServicePart, LineFault>
    ensures { Reads result words.new (spec.service_names_at (N.known names.now) is_static has_dest words.old) }
{
    let (first, service) = first_service(words, names, is_static, has_dest)?;
    let second = second_service(words, names, &service)?;
    Ok(ServicePart::Named { first, second })
}

/// Reads `[service N N]` of a manual rule: two service objects of one protocol, tcp or udp, each with one range of
/// source or destination ports. A source that is stated in a dynamic rule is Bad, as is a destination in a rule without
/// one.
#[tactic(auto, unfolding(crate::specs::Services::manual_service_at))]
pub(crate) fn manual_service<N: Names>(
    words: &mut Words<'_>,
    names: &N,
    is_static: bool,
    has_dest: bool,
) -> Result<ServicePart, LineFault>
    ensures { Reads result words.new (spec.manual_service_at (N.known names.now) is_static has_dest words.old) }
{
    if words.next_is(b"service") {
        let _service = words.next();
        return service_names(words, names, is_static, has_dest);
    }
    Ok(ServicePart::None)
}

/// Reads `tcp` or `udp`.
#[tactic(auto, unfolding(crate::specs::Services::tcp_or_udp_at))]
fn tcp_or_udp(words: &mut Words<'_>) -> Result<u8, LineFault>
    ensures { Reads result words.new (spec.tcp_or_udp_at words.old) }
{
    if words.next_is(b"tcp") {
        let _tcp = words.next();
        return Ok(6);
    }
    keyword(words, b"udp")?;
    Ok(17)
}

/// Reads `tcp|udp P P`, after `service`.
#[tactic(auto, unfolding(crate::specs::Services::own_ports_at))]
fn own_ports(words: &mut Words<'_>) -> Result<ServicePart, LineFault>
    ensures { Reads result words.new (spec.own_ports_at words.old) }
{
    let proto = tcp_or_udp(words)?;
    let real = port(words)?;
    let mapped = port(words)?;
    Ok(ServicePart::Ports {
        proto,
        real,
        mapped,
    })
}

/// Reads `[service tcp|udp P P]` of an object's static rule: the real, then the mapped port.
#[tactic(auto, unfolding(crate::specs::Services::own_service_at))]
pub(crate) fn own_service(words: &mut Words<'_>) -> Result<ServicePart, LineFault>
    ensures { Reads result words.new (spec.own_service_at words.old) }
{
    if words.next_is(b"service") {
        let _service = words.next();
        return own_ports(words);
    }
    Ok(ServicePart::None)
}
