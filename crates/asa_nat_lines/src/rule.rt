//! What a NAT rule says, and when two rules are equal.
ghost use Rattle.std.specs.Prelude.{◌≡◌, ◌↔◌, IsTrue};
ghost use Rattle.asa_nat_lines.specs.Rules.{SamePlaces, SameAddresses, SameOptions};

use asa_base::{Addr, Name};
use asa_pool_values::PortRule;
use std::marker::Model;

/// The real addresses of a rule.
#[derive(Clone, Debug, Drop, PartialEq, Eq)]
pub enum RealRef {
    /// All addresses.
    Any,
    /// The members of a network object or group.
    Named(Name),
}

/// The mapped addresses of a dynamic rule that stand before `pat-pool` and `interface`.
#[derive(Clone, Debug, Drop, PartialEq, Eq)]
pub enum PoolRef {
    /// A stated address, which an object's rule alone may have.
    Addr(Addr),
    /// A network object or group: its ranges are given out one address at a time, its hosts port by port.
    Named(Name),
}

/// The mapped addresses of a rule.
#[derive(Clone, Debug, Drop, PartialEq, Eq)]
pub enum MappedRef {
    /// All addresses, of a static rule whose real addresses are all too.
    Any,
    /// The address of the mapped interface, of a static rule.
    Interface,
    /// As many addresses from this one on as the object has, of an object's static rule.
    Addr(Addr),
    /// The members of a network object or group, of a static rule.
    Named(Name),
    /// The pool of a dynamic rule. At least one of `first`, `pat_pool` and `interface` is there.
    Pool {
        /// The stated address, or the object or group that stands first.
        first: Option<PoolRef>,
        /// The object or group of `pat-pool`.
        pat_pool: Option<Name>,
        /// Whether the address of the mapped interface comes last.
        interface: bool,
        /// Which ports the addresses of `pat-pool` give; Plain without it.
        ports: PortRule,
        /// Whether a port of these addresses may serve several flows to different destinations; false without
        /// `pat-pool`.
        extended: bool,
    },
}

/// The protocol and the ports of a rule.
#[derive(Clone, Debug, Drop, PartialEq, Eq)]
pub enum ServicePart {
    /// Nothing is stated: all protocols and ports.
    None,
    /// `service tcp|udp P P` of an object's static rule: the real, then the mapped source port.
    Ports {
        /// 6 for TCP or 17 for UDP.
        proto: u8,
        real: u16,
        mapped: u16,
    },
    /// `service N N` of a manual rule: two service objects. The first has the real source and the mapped destination
    /// ports, the second the mapped source and the real destination ports.
    Named {
        first: Name,
        second: Name,
    },
}

/// What a rule says, but for its place among the rules of its section.
#[derive(Clone, Debug, Drop, PartialEq, Eq)]
pub struct RuleFields {
    /// 1 for a manual rule, 2 for an object's rule, 3 for a manual rule `after-auto`.
    pub section: u8,
    /// The network object that has the rule, in section 2 alone.
    pub owner: Option<Name>,
    /// The number of the real interface, or None for `any`.
    pub real_ifc: Option<u8>,
    /// The number of the mapped interface, or None for `any`.
    pub mapped_ifc: Option<u8>,
    /// Whether the rule is static, else dynamic.
    pub is_static: bool,
    pub real: RealRef,
    pub mapped: MappedRef,
    /// The objects or groups of `destination static`: the mapped, then the real destination.
    pub dest: Option<(Name, Name)>,
    pub service: ServicePart,
    /// Whether the rule translates no flow that starts on its mapped side.
    pub unidirectional: bool,
    /// Whether the rule takes no part in decisions; it keeps its place.
    pub inactive: bool,
    /// Whether the egress is found by the route and not by the rule.
    pub route_lookup: bool,
}

/// Whether the two are the same real addresses.
fn is_same_real(a: &RealRef, b: &RealRef) -> bool
    ensures { IsTrue result ↔ (a.now ≡ b.now) }
{
    a == b
}

/// Whether the two stand first in their pools.
fn is_same_first(a: &Option<PoolRef>, b: &Option<PoolRef>) -> bool
    ensures { IsTrue result ↔ (a.now ≡ b.now) }
{
    a == b
}

/// Whether the two are the same mapped addresses.
fn is_same_mapped(a: &MappedRef, b: &MappedRef) -> bool
    ensures { IsTrue result ↔ (a.now ≡ b.now) }
{
    match (a, b) {
        (MappedRef::Any, MappedRef::Any) | (MappedRef::Interface, MappedRef::Interface) => true,
        (MappedRef::Addr(a), MappedRef::Addr(b)) => a == b,
        (MappedRef::Named(a), MappedRef::Named(b)) => a == b,
        (
            MappedRef::Pool {
                first: a_first,
                pat_pool: a_pat_pool,
                interface: a_interface,
                ports: a_ports,
                extended: a_extended,
            },
            MappedRef::Pool {
                first: b_first,
                pat_pool: b_pat_pool,
                interface: b_interface,
                ports: b_ports,
                extended: b_extended,
            },
        ) => {
            is_same_first(a_first, b_first)
                && is_same_name(a_pat_pool, b_pat_pool)
                && a_interface == b_interface
                && a_ports == b_ports
                && a_extended == b_extended
        }
        _ => false,
    }
}

/// Whether the two are the same protocol and ports.
fn is_same_service(a: &ServicePart, b: &ServicePart) -> bool
    ensures { IsTrue result ↔ (a.now ≡ b.now) }
{
    a == b
}

/// Whether the two are the same destinations.
fn is_same_dest(a: &Option<(Name, Name)>, b: &Option<(Name, Name)>) -> bool
    ensures { IsTrue result ↔ (a.now ≡ b.now) }
{
    a == b
}

/// Whether the two are the same name, or none.
fn is_same_name(a: &Option<Name>, b: &Option<Name>) -> bool
    ensures { IsTrue result ↔ (a.now ≡ b.now) }
{
    a == b
}

/// Whether the two are the same interface, or none.
fn is_same_ifc(a: Option<u8>, b: Option<u8>) -> bool
    ensures { IsTrue result ↔ (a ≡ b) }
{
    a == b
}

/// Whether the two agree in their sections, their objects and their interfaces.
fn is_same_place(a: &RuleFields, b: &RuleFields) -> bool
    ensures { IsTrue result ↔ SamePlaces a.now b.now }
{
    a.section == b.section
        && is_same_name(&a.owner, &b.owner)
        && is_same_ifc(a.real_ifc, b.real_ifc)
        && is_same_ifc(a.mapped_ifc, b.mapped_ifc)
}

/// Whether the two agree in their addresses and ports.
fn is_same_addresses(a: &RuleFields, b: &RuleFields) -> bool
    ensures { IsTrue result ↔ SameAddresses a.now b.now }
{
    is_same_real(&a.real, &b.real)
        && is_same_mapped(&a.mapped, &b.mapped)
        && is_same_dest(&a.dest, &b.dest)
        && is_same_service(&a.service, &b.service)
}

/// Whether the two agree in their options.
fn is_same_options(a: &RuleFields, b: &RuleFields) -> bool
    ensures { IsTrue result ↔ SameOptions a.now b.now }
{
    a.is_static == b.is_static
        && a.unidirectional == b.unidirectional
        && a.inactive == b.inactive
        && a.route_lookup == b.route_lookup
}

/// A rule that was read from a `nat` line (`nat` of the command reference, for network objects and for twice NAT). Rules
/// are equal where their fields are; the number that a line gives as the place is no part of it.
#[derive(Debug, Drop)]
pub struct NatRule(RuleFields);

impl Model for NatRule {
    ghost use Rattle.asa_nat_lines.specs.declared.rule.RuleFields.{RuleFields};

    ghost Value = { RuleFields };

    ghost view = { λ r. r.0 };
}

impl NatRule {
    /// A rule of these fields.
    pub(crate) fn new(fields: RuleFields) -> NatRule
        ensures { result ≡ fields }
    {
        NatRule(fields)
    }

    /// What the rule says.
    pub fn fields(&self) -> &RuleFields
        ensures { result.now ≡ self.now }
    {
        &self.0
    }

    /// Whether the two rules are equal.
    #[tactic(auto, using(crate::proofs::RuleLaws::all_same))]
    pub fn is_same(&self, other: &NatRule) -> bool
        ensures { IsTrue result ↔ (self.now ≡ other.now) }
    {
        is_same_place(&self.0, &other.0)
            && is_same_addresses(&self.0, &other.0)
            && is_same_options(&self.0, &other.0)
    }
}
