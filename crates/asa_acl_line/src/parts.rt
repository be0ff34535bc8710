//! Readers of the lines of an access list: each takes its words from a cursor.
ghost use Rattle.std.specs.Prelude.{◌≡◌, ◌<◌, ◌-◌, ◌^◌, ◌||◌, codes, length, is_none};
ghost use Rattle.std.specs.Str.{bytes_eq};
ghost use Rattle.asa_text.specs.Readers.{Reads, after_if, next_is};
ghost use Rattle.asa_acl_line.specs.Grammar as spec;

use crate::ace::{AddrRef, PortRef, ServiceRef};
use asa_base::{
    Kind, Name, Names, PortProto, Prefix, Service, icmp_code, icmp_type, interface, named, network,
    ports, protocol, states_ports,
};
use asa_text::{LineFault, Word, Words, address};

/// Whether the next word begins a part that is left out here: times, users and security groups.
pub(crate) fn next_left_out(words: &Words<'_>) -> bool
    ensures { result ≡ spec.next_left_out words.now }
{
    words.next_is(b"time-range")
        || words.next_is(b"user")
        || words.next_is(b"user-group")
        || words.next_is(b"security-group")
        || words.next_is(b"object-group-user")
        || words.next_is(b"object-group-security")
}

/// Reads the name of an object or a group of this kind.
#[tactic(auto, unfolding(crate::specs::Grammar::name_of_kind_at))]
fn name_of_kind<N: Names>(words: &mut Words<'_>, names: &N, kind: Kind) -> Result<Name, LineFault>
    ensures { Reads result words.new (spec.name_of_kind_at (N.known names.now) kind words.old) }
{
    let (name, _) = named(words, names, &[kind])?;
    Ok(name)
}

/// Reads `host A`, after the word `host`.
#[tactic(auto, unfolding(crate::specs::Grammar::host_at))]
fn host(words: &mut Words<'_>) -> Result<AddrRef, LineFault>
    ensures { Reads result words.new (spec.host_at words.old) }
{
    let addr = address(words)?;
    Ok(AddrRef::Host(addr))
}

/// A network, of which one address is a host.
fn host_or_network(prefix: Prefix) -> AddrRef
    ensures { result ≡ spec.host_or_network prefix }
{
    if prefix.len == 32 {
        AddrRef::Host(prefix.addr)
    } else {
        AddrRef::Net(prefix)
    }
}

/// Reads `A M`.
#[tactic(auto, unfolding(crate::specs::Grammar::address_mask_at))]
fn address_mask(words: &mut Words<'_>) -> Result<AddrRef, LineFault>
    ensures { Reads result words.new (spec.address_mask_at words.old) }
{
    let prefix = network(words)?;
    Ok(host_or_network(prefix))
}

/// Reads `object N` or `object-group N`, after the first word.
#[tactic(auto, unfolding(crate::specs::Grammar::address_name_at))]
fn address_name<N: Names>(
    words: &mut Words<'_>,
    names: &N,
    kind: Kind,
) -> Result<AddrRef, LineFault>
    ensures { Reads result words.new (spec.address_name_at (N.known names.now) kind words.old) }
{
    let name = name_of_kind(words, names, kind)?;
    Ok(AddrRef::Named(name))
}

/// Reads `interface I`, after the first word.
#[tactic(auto, unfolding(crate::specs::Grammar::own_address_at))]
fn own_address<N: Names>(words: &mut Words<'_>, names: &N) -> Result<AddrRef, LineFault>
    ensures { Reads result words.new (spec.own_address_at (N.known names.now) words.old) }
{
    let ifc = interface(words, names)?;
    Ok(AddrRef::Interface(ifc))
}

/// Reads an address and a mask, where no other form of a source or a destination begins.
#[tactic(auto, unfolding(crate::specs::Grammar::stated_address_at))]
fn stated_address(words: &mut Words<'_>) -> Result<AddrRef, LineFault>
    ensures { Reads result words.new (spec.stated_address_at words.old) }
{
    if next_left_out(words) {
        return Err(words.unsupported());
    }
    address_mask(words)
}

/// Reads a source or a destination with a name, or an address and a mask.
#[tactic(auto, unfolding(crate::specs::Grammar::named_address_at))]
fn named_address<N: Names>(words: &mut Words<'_>, names: &N) -> Result<AddrRef, LineFault>
    ensures { Reads result words.new (spec.named_address_at (N.known names.now) words.old) }
{
    if words.takes(b"object") {
        return address_name(words, names, Kind::NetObject);
    }
    if words.takes(b"object-group") {
        return address_name(words, names, Kind::NetGroup);
    }
    if words.takes(b"interface") {
        return own_address(words, names);
    }
    stated_address(words)
}

/// Takes the next word where it is `any` or `any4`, and tells whether it was.
fn takes_any(words: &mut Words<'_>) -> bool
    ensures found { result ≡ (next_is (codes "any") words.old || next_is (codes "any4") words.old) }
    ensures left { words.new ≡ after_if result words.old }
{
    words.takes(b"any") || words.takes(b"any4")
}

/// Reads a source or a destination.
#[tactic(auto, unfolding(crate::specs::Grammar::address_ref_at))]
pub(crate) fn address_ref<N: Names>(words: &mut Words<'_>, names: &N) -> Result<AddrRef, LineFault>
    ensures { Reads result words.new (spec.address_ref_at (N.known names.now) words.old) }
{
    if takes_any(words) {
        return Ok(AddrRef::Any);
    }
    if words.takes(b"any6") {
        return Ok(AddrRef::Nothing);
    }
    if words.takes(b"host") {
        return host(words);
    }
    named_address(words, names)
}

/// Whether ports may stand after the protocol.
fn takes_ports(proto: Option<u8>) -> bool
    ensures { result ≡ spec.takes_ports proto }
{
    match proto {
        None => false,
        Some(p) => p == 6 || p == 17,
    }
}

/// A protocol of which nothing more is stated.
fn protocol_ref(proto: Option<u8>) -> ServiceRef
    ensures { result ≡ spec.protocol_ref proto }
{
    if takes_ports(proto) {
        return ServiceRef::Ported {
            group: None,
            proto,
            source: PortRef::All,
            dest: PortRef::All,
        };
    }
    ServiceRef::Plain(Service {
        proto,
        ..Service::any()
    })
}

/// Reads `ip`, a protocol's number or its name.
#[tactic(auto, unfolding(crate::specs::Grammar::protocol_word_at))]
fn protocol_word(words: &mut Words<'_>) -> Result<ServiceRef, LineFault>
    ensures { Reads result words.new (spec.protocol_word_at words.old) }
{
    let proto = protocol(words)?;
    Ok(protocol_ref(proto))
}

/// A group of protocols, which takes ports, or of services, which doesn't.
fn group_ref(kind: Kind, name: Name) -> ServiceRef
    ensures { result ≡ spec.group_ref kind name }
{
    match kind {
        Kind::ProtocolGroup => ServiceRef::Ported {
            group: Some(name),
            proto: None,
            source: PortRef::All,
            dest: PortRef::All,
        },
        _ => ServiceRef::Named(name),
    }
}

/// Reads a group of protocols or of services, after `object-group`.
#[tactic(auto, unfolding(crate::specs::Grammar::service_group_at))]
fn service_group<N: Names>(words: &mut Words<'_>, names: &N) -> Result<ServiceRef, LineFault>
    ensures { Reads result words.new (spec.service_group_at (N.known names.now) words.old) }
{
    let (name, kind) = named(words, names, &[Kind::ProtocolGroup, Kind::ServiceGroup])?;
    Ok(group_ref(kind, name))
}

/// Reads a service object, after `object`.
#[tactic(auto, unfolding(crate::specs::Grammar::service_object_at))]
fn service_object<N: Names>(words: &mut Words<'_>, names: &N) -> Result<ServiceRef, LineFault>
    ensures { Reads result words.new (spec.service_object_at (N.known names.now) words.old) }
{
    let name = name_of_kind(words, names, Kind::ServiceObject)?;
    Ok(ServiceRef::Named(name))
}

/// Reads a protocol, an object or a group of services, or a group of protocols.
#[tactic(auto, unfolding(crate::specs::Grammar::protocol_ref_at))]
pub(crate) fn protocol_part<N: Names>(
    words: &mut Words<'_>,
    names: &N,
) -> Result<ServiceRef, LineFault>
    ensures { Reads result words.new (spec.protocol_ref_at (N.known names.now) words.old) }
{
    if words.takes(b"object") {
        return service_object(words, names);
    }
    if words.takes(b"object-group") {
        return service_group(words, names);
    }
    protocol_word(words)
}

/// Whether a group of ports with this protocol word may stand in a line with this protocol.
fn fits(proto: Option<u8>, group: Option<PortProto>) -> bool
    ensures { result ≡ spec.fits proto group }
{
    let Some(p) = proto else {
        return true;
    };
    match group {
        None => false,
        Some(PortProto::Tcp) => p == 6,
        Some(PortProto::Udp) => p == 17,
        Some(PortProto::TcpUdp) => true,
    }
}

/// Reads a group of ports, after `object-group`; one that doesn't fit the protocol is Bad at its name.
#[tactic(auto, unfolding(crate::specs::Grammar::port_group_at))]
fn port_group<N: Names>(
    words: &mut Words<'_>,
    names: &N,
    proto: Option<u8>,
) -> Result<PortRef, LineFault>
    ensures { Reads result words.new (spec.port_group_at (N.known names.now) proto words.old) }
{
    let column = words.column();
    let name = name_of_kind(words, names, Kind::PortGroup)?;
    if fits(proto, names.port_proto(&name)) {
        Ok(PortRef::Named(name))
    } else {
        Err(LineFault::Bad { column })
    }
}

/// Reads `eq P`, `lt P`, `gt P`, `neq P` or `range P P`.
#[tactic(auto, unfolding(crate::specs::Grammar::port_ranges_at))]
fn port_ranges(words: &mut Words<'_>) -> Result<PortRef, LineFault>
    ensures { Reads result words.new (spec.port_ranges_at words.old) }
{
    let ranges = ports(words)?;
    Ok(PortRef::Ranges(ranges))
}

fn is_ports(kind: Option<Kind>) -> bool
    ensures { result ≡ spec.is_ports kind }
{
    match kind {
        Some(Kind::PortGroup) => true,
        _ => false,
    }
}

/// Whether the word is the name of a group of ports.
fn names_ports<N: Names>(word: Option<Word<'_>>, names: &N) -> bool
    ensures { result ≡ spec.names_ports (N.known names.now) word.entry }
{
    let Some(word) = word else {
        return false;
    };
    match Name::new(word.bytes()) {
        Some(name) => is_ports(names.kind_of(&name)),
        None => false,
    }
}

/// Whether `object-group N` with N a group of ports comes next.
fn next_port_group<N: Names>(words: &Words<'_>, names: &N) -> bool
    ensures { result ≡ spec.next_port_group (N.known names.now) words.now }
{
    if !words.next_is(b"object-group") {
        return false;
    }
    let mut ahead = words.copy();
    let _group = ahead.next();
    names_ports(ahead.peek(), names)
}

/// Reads the ports after SOURCE, or nothing. An `object-group N` is of ports where N is a group of ports, and DEST
/// otherwise.
#[tactic(auto, unfolding(crate::specs::Grammar::source_ports_at))]
fn source_ports<N: Names>(
    words: &mut Words<'_>,
    names: &N,
    proto: Option<u8>,
) -> Result<PortRef, LineFault>
    ensures { Reads result words.new (spec.source_ports_at (N.known names.now) proto words.old) }
{
    if states_ports(words) {
        return port_ranges(words);
    }
    if next_port_group(words, names) {
        let _group = words.next();
        return port_group(words, names, proto);
    }
    Ok(PortRef::All)
}

/// Reads the ports after DEST, or nothing.
#[tactic(auto, unfolding(crate::specs::Grammar::dest_ports_at))]
fn dest_ports<N: Names>(
    words: &mut Words<'_>,
    names: &N,
    proto: Option<u8>,
) -> Result<PortRef, LineFault>
    ensures { Reads result words.new (spec.dest_ports_at (N.known names.now) proto words.old) }
{
    if states_ports(words) {
        return port_ranges(words);
    }
    if words.takes(b"object-group") {
        return port_group(words, names, proto);
    }
    Ok(PortRef::All)
}

/// Reads what may follow SOURCE: ports, after a protocol that takes them.
#[tactic(auto, unfolding(crate::specs::Grammar::source_part_at))]
pub(crate) fn source_part<N: Names>(
    words: &mut Words<'_>,
    names: &N,
    service: ServiceRef,
) -> Result<ServiceRef, LineFault>
    ensures { Reads result words.new (spec.source_part_at (N.known names.now) service words.old) }
{
    match service {
        ServiceRef::Ported {
            group,
            proto,
            dest,
            ..
        } => {
            let source = source_ports(words, names, proto)?;
            Ok(ServiceRef::Ported {
                group,
                proto,
                source,
                dest,
            })
        }
        other => Ok(other),
    }
}

fn is_icmp(proto: Option<u8>) -> bool
    ensures { result ≡ spec.is_icmp proto }
{
    match proto {
        None => false,
        Some(p) => p == 1,
    }
}

/// Whether no word comes next, or one that begins the line's last part.
fn at_last_part(words: &Words<'_>) -> bool
    ensures { result ≡ spec.at_last_part words.now }
{
    words.peek().is_none()
        || words.next_is(b"log")
        || words.next_is(b"inactive")
        || next_left_out(words)
}

/// Reads `[CODE]`.
#[tactic(auto, unfolding(crate::specs::Grammar::icmp_code_part_at))]
fn icmp_code_part(words: &mut Words<'_>, service: Service) -> Result<ServiceRef, LineFault>
    ensures { Reads result words.new (spec.icmp_code_part_at service words.old) }
{
    if at_last_part(words) {
        return Ok(ServiceRef::Plain(service));
    }
    let code = icmp_code(words)?;
    Ok(ServiceRef::Plain(Service {
        icode: Some(code),
        ..service
    }))
}

/// Reads `TYPE [CODE]`.
#[tactic(auto, unfolding(crate::specs::Grammar::icmp_type_part_at))]
fn icmp_type_part(words: &mut Words<'_>, service: Service) -> Result<ServiceRef, LineFault>
    ensures { Reads result words.new (spec.icmp_type_part_at service words.old) }
{
    let itype = icmp_type(words)?;
    icmp_code_part(
        words,
        Service {
            itype: Some(itype),
            ..service
        },
    )
}

/// Reads a group of ICMP types, after `object-group`.
#[tactic(auto, unfolding(crate::specs::Grammar::icmp_group_at))]
fn icmp_group<N: Names>(words: &mut Words<'_>, names: &N) -> Result<ServiceRef, LineFault>
    ensures { Reads result words.new (spec.icmp_group_at (N.known names.now) words.old) }
{
    let name = name_of_kind(words, names, Kind::IcmpGroup)?;
    Ok(ServiceRef::Icmp(name))
}

/// Reads what may follow DEST after ICMP.
#[tactic(auto, unfolding(crate::specs::Grammar::icmp_part_at))]
fn icmp_part<N: Names>(
    words: &mut Words<'_>,
    names: &N,
    service: Service,
) -> Result<ServiceRef, LineFault>
    ensures { Reads result words.new (spec.icmp_part_at (N.known names.now) service words.old) }
{
    if words.takes(b"object-group") {
        return icmp_group(words, names);
    }
    if at_last_part(words) {
        return Ok(ServiceRef::Plain(service));
    }
    icmp_type_part(words, service)
}

/// Reads what may follow DEST after a protocol without ports.
#[tactic(auto, unfolding(crate::specs::Grammar::plain_part_at))]
fn plain_part<N: Names>(
    words: &mut Words<'_>,
    names: &N,
    service: Service,
) -> Result<ServiceRef, LineFault>
    ensures { Reads result words.new (spec.plain_part_at (N.known names.now) service words.old) }
{
    if is_icmp(service.proto) {
        return icmp_part(words, names, service);
    }
    Ok(ServiceRef::Plain(service))
}

/// Reads what may follow DEST: ports after a protocol that takes them, a type and a code after ICMP.
#[tactic(auto, unfolding(crate::specs::Grammar::dest_part_at))]
pub(crate) fn dest_part<N: Names>(
    words: &mut Words<'_>,
    names: &N,
    service: ServiceRef,
) -> Result<ServiceRef, LineFault>
    ensures { Reads result words.new (spec.dest_part_at (N.known names.now) service words.old) }
{
    match service {
        ServiceRef::Ported {
            group,
            proto,
            source,
            ..
        } => {
            let dest = dest_ports(words, names, proto)?;
            Ok(ServiceRef::Ported {
                group,
                proto,
                source,
                dest,
            })
        }
        ServiceRef::Plain(plain) => plain_part(words, names, plain),
        other => Ok(other),
    }
}
