//! What the lines of an access list say.
ghost use Rattle.std.specs.Prelude.{◌≡◌, ◌↔◌, IsTrue};
ghost use Rattle.std.specs.Option.{option_copied, option_eq};
ghost use Rattle.std.specs.Str.{bytes_eq};
ghost use Rattle.asa_acl_line.specs.Lines as spec;

use asa_base::{Addr, Name, PortRange, Ports, Prefix, Service};
use asa_text::Text;

/// A source or a destination.
#[derive(Debug, Drop, PartialEq, Eq)]
pub enum AddrRef {
    /// `any` and `any4`: all addresses.
    Any,
    /// `any6`: no address, since no IPv6 address is read.
    Nothing,
    /// One address; an address with a mask of 32 ones counts as one too.
    Host(Addr),
    /// An address and a mask of fewer than 32 ones.
    Net(Prefix),
    /// The members of a network object or group.
    Named(Name),
    /// The address of the interface with this number.
    Interface(u8),
}

/// Source or destination ports.
#[derive(Debug, Drop, PartialEq, Eq)]
pub enum PortRef {
    /// Nothing is stated, which isn't equal to a stated range of all ports.
    All,
    /// The ranges that `eq`, `lt`, `gt`, `neq` or `range` stand for, which alone decide whether two are equal.
    Ranges(Ports),
    /// The ranges of a group of ports.
    Named(Name),
}

/// The protocol of a line, with its ports, its ICMP type and its code.
#[derive(Debug, Drop, PartialEq, Eq)]
pub enum ServiceRef {
    /// `ip`, or a protocol other than `tcp` and `udp`; of `icmp` with the type and the code that are stated.
    Plain(Service),
    /// A service object or a group of services.
    Named(Name),
    /// `tcp` (6), `udp` (17) or a group of protocols, the only ones after which ports may stand. Either `group` is the
    /// group's name or `proto` is 6 or 17.
    Ported {
        group: Option<Name>,
        proto: Option<u8>,
        source: PortRef,
        dest: PortRef,
    },
    /// `icmp` with the types of a group of ICMP types.
    Icmp(Name),
}

/// An access control entry: which packets it takes, and what becomes of them.
#[derive(Debug, Drop, PartialEq, Eq)]
pub struct Ace {
    /// Whether the packets are permitted, else denied.
    pub permit: bool,
    /// Whether the entry takes part in decisions; one that is `inactive` keeps its line number and takes no packet.
    pub active: bool,
    pub service: ServiceRef,
    pub source: AddrRef,
    pub dest: AddrRef,
}

/// A line of an access list.
#[derive(Debug, Drop)]
pub enum AclLine {
    Ace(Ace),
    /// A comment of one to many words, with the blanks between them; it takes no packet and has a line number.
    Remark(Text),
}

/// Whether the two are the same source or destination.
#[tactic(auto, unfolding(crate::specs::Lines::address_eq))]
fn is_same_address(a: &AddrRef, b: &AddrRef) -> bool
    ensures { result ≡ spec.address_eq a.now b.now }
{
    match (a, b) {
        (AddrRef::Any, AddrRef::Any) | (AddrRef::Nothing, AddrRef::Nothing) => true,
        (AddrRef::Host(a), AddrRef::Host(b)) => a == b,
        (AddrRef::Net(a), AddrRef::Net(b)) => a == b,
        (AddrRef::Named(a), AddrRef::Named(b)) => a == b,
        (AddrRef::Interface(a), AddrRef::Interface(b)) => a == b,
        _ => false,
    }
}

/// Whether the two ranges have the same ends.
fn is_same_range(a: PortRange, b: PortRange) -> bool
    ensures { result ≡ spec.span_eq a b }
{
    a.first == b.first && a.last == b.last
}

/// Whether the two are the same ranges in the same order.
fn is_same_ranges(a: Ports, b: Ports) -> bool
    ensures { result ≡ spec.spans_eq a b }
{
    let (a_first, a_second) = a.ranges();
    let (b_first, b_second) = b.ranges();
    match (a_second, b_second) {
        (None, None) => is_same_range(a_first, b_first),
        (Some(a_second), Some(b_second)) => {
            is_same_range(a_first, b_first) && is_same_range(a_second, b_second)
        }
        _ => false,
    }
}

/// Whether the two state the same ports.
#[tactic(auto, unfolding(crate::specs::Lines::ports_eq))]
fn is_same_ports(a: &PortRef, b: &PortRef) -> bool
    ensures { result ≡ spec.ports_eq a.now b.now }
{
    match (a, b) {
        (PortRef::All, PortRef::All) => true,
        (PortRef::Ranges(a), PortRef::Ranges(b)) => is_same_ranges(*a, *b),
        (PortRef::Named(a), PortRef::Named(b)) => a == b,
        _ => false,
    }
}

/// Whether nothing or the same number is stated.
fn is_same_number(a: Option<u8>, b: Option<u8>) -> bool
    ensures { result ≡ option_eq spec.number_eq a b }
{
    a == b
}

/// Whether no name or the same name is stated.
fn is_same_name(a: &Option<Name>, b: &Option<Name>) -> bool
    ensures { result ≡ option_eq bytes_eq a.now b.now }
{
    a == b
}

/// Whether the two services state the same.
#[tactic(auto, unfolding(crate::specs::Lines::service_eq))]
fn is_same_plain(a: &Service, b: &Service) -> bool
    ensures { result ≡ spec.service_eq a.now b.now }
{
    is_same_number(a.proto, b.proto)
        && is_same_range(a.sport, b.sport)
        && is_same_range(a.dport, b.dport)
        && is_same_number(a.itype, b.itype)
        && is_same_number(a.icode, b.icode)
}

/// Whether the two protocols with what follows of them are the same.
#[tactic(auto, unfolding(crate::specs::Lines::service_ref_eq))]
fn is_same_service(a: &ServiceRef, b: &ServiceRef) -> bool
    ensures { result ≡ spec.service_ref_eq a.now b.now }
{
    match (a, b) {
        (ServiceRef::Plain(a), ServiceRef::Plain(b)) => is_same_plain(a, b),
        (ServiceRef::Named(a), ServiceRef::Named(b)) => a == b,
        (
            ServiceRef::Ported {
                group: a_group,
                proto: a_proto,
                source: a_source,
                dest: a_dest,
            },
            ServiceRef::Ported {
                group: b_group,
                proto: b_proto,
                source: b_source,
                dest: b_dest,
            },
        ) => {
            is_same_name(a_group, b_group)
                && is_same_number(*a_proto, *b_proto)
                && is_same_ports(a_source, b_source)
                && is_same_ports(a_dest, b_dest)
        }
        (ServiceRef::Icmp(a), ServiceRef::Icmp(b)) => a == b,
        _ => false,
    }
}

/// Whether the two entries say the same.
#[tactic(auto, unfolding(crate::specs::Lines::ace_eq))]
fn is_same_ace(a: &Ace, b: &Ace) -> bool
    ensures { result ≡ spec.ace_eq a.now b.now }
{
    a.permit == b.permit
        && a.active == b.active
        && is_same_service(&a.service, &b.service)
        && is_same_address(&a.source, &b.source)
        && is_same_address(&a.dest, &b.dest)
}

impl AddrRef {
    /// The name of the network object or group, where one stands there.
    pub fn name(&self) -> Option<&Name>
        ensures { option_copied result ≡ spec.address_name self.now }
    {
        match self {
            AddrRef::Named(name) => Some(name),
            _ => None,
        }
    }
}

impl PortRef {
    /// The name of the group of ports, where one stands there.
    pub fn name(&self) -> Option<&Name>
        ensures { option_copied result ≡ spec.ports_name self.now }
    {
        match self {
            PortRef::Named(name) => Some(name),
            _ => None,
        }
    }
}

impl ServiceRef {
    /// The name of the object or group of services, the group of protocols or the group of ICMP types, where one stands
    /// there.
    pub fn name(&self) -> Option<&Name>
        ensures { option_copied result ≡ spec.service_name self.now }
    {
        match self {
            ServiceRef::Plain(_) => None,
            ServiceRef::Named(name) | ServiceRef::Icmp(name) => Some(name),
            ServiceRef::Ported { group, .. } => group.as_ref(),
        }
    }

    /// The name of the group of source ports, where one stands there.
    pub fn source_ports_name(&self) -> Option<&Name>
        ensures { option_copied result ≡ spec.source_ports_name self.now }
    {
        match self {
            ServiceRef::Ported { source, .. } => source.name(),
            _ => None,
        }
    }

    /// The name of the group of destination ports, where one stands there.
    pub fn dest_ports_name(&self) -> Option<&Name>
        ensures { option_copied result ≡ spec.dest_ports_name self.now }
    {
        match self {
            ServiceRef::Ported { dest, .. } => dest.name(),
            _ => None,
        }
    }
}

/// Whether this name stands there.
fn is_named(name: &Name, place: Option<&Name>) -> bool
    ensures { result ≡ spec.is_named name.now (option_copied place.entry) }
{
    match place {
        Some(other) => name == other,
        None => false,
    }
}

impl Ace {
    /// Whether the entry uses the object or group of this name.
    #[tactic(auto, unfolding(crate::specs::Lines::ace_uses))]
    pub fn uses(&self, name: &Name) -> bool
        ensures { result ≡ spec.ace_uses name.now self.now }
    {
        is_named(name, self.service.name())
            || is_named(name, self.service.source_ports_name())
            || is_named(name, self.service.dest_ports_name())
            || is_named(name, self.source.name())
            || is_named(name, self.dest.name())
    }
}

impl AclLine {
    /// Whether the line uses the object or group of this name.
    #[tactic(auto, unfolding(crate::specs::Lines::line_uses))]
    pub fn uses(&self, name: &Name) -> bool
        ensures { result ≡ spec.line_uses name.now self.now }
    {
        match self {
            AclLine::Ace(ace) => ace.uses(name),
            AclLine::Remark(_) => false,
        }
    }

    /// Whether the two lines say the same: their values decide, not the words that stated them.
    #[tactic(auto, using(crate::proofs::LineLaws::line_tested))]
    pub fn is_same(&self, other: &AclLine) -> bool
        ensures test { result ≡ spec.line_eq self.now other.now }
        ensures equal { IsTrue result ↔ (self.now ≡ other.now) }
    {
        is_same_line(self, other)
    }
}

/// Whether the two lines say the same.
#[tactic(auto, unfolding(crate::specs::Lines::line_eq))]
fn is_same_line(a: &AclLine, b: &AclLine) -> bool
    ensures { result ≡ spec.line_eq a.now b.now }
{
    match (a, b) {
        (AclLine::Ace(a), AclLine::Ace(b)) => is_same_ace(a, b),
        (AclLine::Remark(a), AclLine::Remark(b)) => a.as_bytes() == b.as_bytes(),
        _ => false,
    }
}
