//! Why a rule has no cases.
ghost use Rattle.std.specs.Prelude.{◌≡◌};
ghost use Rattle.std.specs.Option.{option_copied};
ghost use Rattle.asa_nat_rules.specs.Faults as spec;

use crate::meaning::NatMeaning;
use crate::ports::{RulePorts, port_size, ports_of};
use crate::sets::{mapped_size, real_size};
use asa_base::Name;
use asa_nat_lines::{MappedRef, PoolRef, RuleFields};

/// Why a rule has no cases.
#[derive(Clone, Copy, Debug, PartialEq, Eq)]
pub enum NatFault {
    /// A static source, a destination or two ranges of ports have so many real and so many mapped addresses or ports.
    SizeDiffers { real: u64, mapped: u64 },
    /// A name of a pool has a network among its members.
    SubnetPool,
    /// Memory ran out; `fault_of` doesn't give it.
    NoMemory,
}

/// A real and a mapped number have to be equal.
fn sizes_fault(real: u64, mapped: u64) -> Option<NatFault>
    ensures { result ≡ spec.sizes_fault real mapped }
{
    if real == mapped {
        return None;
    }
    Some(NatFault::SizeDiffers { real, mapped })
}

/// The fault of the addresses of a static source.
fn source_fault<M: NatMeaning>(meaning: &M, rule: &RuleFields) -> Option<NatFault>
    ensures { result ≡ spec.source_fault (M.meanings meaning.now) rule.now }
{
    if !rule.is_static {
        return None;
    }
    sizes_fault(real_size(meaning, &rule.real), mapped_size(meaning, rule))
}

/// The fault of the addresses of the destination.
fn dest_fault<M: NatMeaning>(meaning: &M, dest: &Option<(Name, Name)>) -> Option<NatFault>
    ensures { result ≡ spec.dest_fault (M.meanings meaning.now) dest.now }
{
    match dest {
        Some((mapped, real)) => {
            sizes_fault(meaning.address_count(real), meaning.address_count(mapped))
        }
        None => None,
    }
}

/// The fault of the source ports, else that of the destination ports.
fn ports_fault(ports: &RulePorts) -> Option<NatFault>
    ensures { result ≡ spec.ports_fault ports.now }
{
    let source = sizes_fault(port_size(&ports.real), port_size(&ports.mapped));
    if source.is_some() {
        return source;
    }
    sizes_fault(port_size(&ports.dest_real), port_size(&ports.dest_mapped))
}

/// Whether the object or group that stands first in a pool has a network among its members.
fn first_has_subnet<M: NatMeaning>(meaning: &M, first: &Option<PoolRef>) -> bool
    ensures { result ≡ spec.first_has_subnet (M.meanings meaning.now) first.now }
{
    match first {
        Some(PoolRef::Named(name)) => meaning.has_subnet(name),
        _ => false,
    }
}

/// Whether the object or group of `pat-pool` has a network among its members.
fn pat_has_subnet<M: NatMeaning>(meaning: &M, pat_pool: &Option<Name>) -> bool
    ensures { result ≡ spec.pat_has_subnet (M.meanings meaning.now) pat_pool.now }
{
    match pat_pool {
        Some(name) => meaning.has_subnet(name),
        None => false,
    }
}

/// The fault of a pool.
fn pool_fault<M: NatMeaning>(meaning: &M, mapped: &MappedRef) -> Option<NatFault>
    ensures { result ≡ spec.pool_fault (M.meanings meaning.now) mapped.now }
{
    let MappedRef::Pool {
        first,
        pat_pool,
        ..
    } = mapped
    else {
        return None;
    };
    if first_has_subnet(meaning, first) || pat_has_subnet(meaning, pat_pool) {
        return Some(NatFault::SubnetPool);
    }
    None
}

/// Why a rule has no cases, or None where it has some: the sizes of a static source are judged first, then those of the
/// destination, of the source ports and of the destination ports, and the pool last. No set of addresses is built.
#[tactic(auto, unfolding(crate::specs::Faults::fault_of))]
pub fn fault_of<M: NatMeaning>(meaning: &M, rule: &RuleFields) -> Option<NatFault>
    ensures { result ≡ spec.fault_of (M.meanings meaning.now) rule.now }
{
    let source = source_fault(meaning, rule);
    if source.is_some() {
        return source;
    }
    let dest = dest_fault(meaning, &rule.dest);
    if dest.is_some() {
        return dest;
    }
    let ports = ports_fault(&ports_of(meaning, &rule.service));
    if ports.is_some() {
        return ports;
    }
    pool_fault(meaning, &rule.mapped)
}
