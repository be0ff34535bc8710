//! Which rule is at fault.
ghost use Rattle.std.specs.Prelude.{◌≡◌, IfOk};
ghost use Rattle.asa_nat_rules.specs.Sets.{real_set, size_of};
ghost use Rattle.asa_nat_table.specs.Faults as spec;

use asa_base::{Addr, Name};
use asa_nat_order::NatKey;
use asa_nat_rules::{NatFault, NatMeaning, RealRef, RuleFields};
use std::alloc::{AllocError, Global};

/// The fault of a rule, and the object whose rule it is; None for a manual rule.
#[derive(Clone, Debug, Drop, PartialEq, Eq)]
pub struct RuleFault {
    pub owner: Option<Name>,
    pub fault: NatFault,
}

/// A faulty rule of an object, with what places it in NAT order.
#[derive(Debug, Drop)]
pub(crate) struct Placed {
    pub key: NatKey,
    pub fault: RuleFault,
}

/// The first real address; 0.0.0.0 where there is none.
fn first_address<M: NatMeaning>(
    alloc: Global,
    meaning: &M,
    real: &RealRef,
) -> Result<Addr, AllocError>
    ensures { IfOk result (λ a. a ≡ spec.first_address (real_set (M.meanings meaning.now) real.now)) }
{
    let RealRef::Named(name) = real else {
        return Ok(Addr(0));
    };
    let members = meaning.members(alloc, name)?;
    match members.as_slice().first() {
        Some(member) => Ok(member.range().first),
        None => Ok(Addr(0)),
    }
}

/// How many real addresses there are.
fn address_count<M: NatMeaning>(meaning: &M, real: &RealRef) -> u64
    ensures { result ≡ size_of (real_set (M.meanings meaning.now) real.now) }
{
    match real {
        RealRef::Any => 1 << 32,
        RealRef::Named(name) => meaning.address_count(name),
    }
}

/// What places the rule of an object in NAT order.
#[tactic(auto, unfolding(crate::specs::Faults::own_key))]
pub(crate) fn own_key<M: NatMeaning>(
    alloc: Global,
    meaning: &M,
    owner: &Name,
    rule: &RuleFields,
) -> Result<NatKey, AllocError>
    ensures { IfOk result (λ k. k ≡ spec.own_key (M.meanings meaning.now) owner.now rule.now) }
{
    let first = first_address(alloc, meaning, &rule.real)?;
    Ok(NatKey {
        section: 2,
        is_static: rule.is_static,
        count: address_count(meaning, &rule.real),
        first,
        name: owner.copy(),
    })
}

/// Whether a first rule of an object stands before a second.
fn is_before(a: &NatKey, b: &NatKey) -> bool
    ensures { result ≡ spec.is_before a.now b.now }
{
    a.rank() < b.rank()
}

/// The one of two that stands first.
pub(crate) fn earlier(a: Option<Placed>, b: Option<Placed>) -> Option<Placed>
    ensures { result ≡ spec.earlier a b }
{
    match (a, b) {
        (None, b) => b,
        (Some(a), None) => Some(a),
        (Some(a), Some(b)) => {
            if is_before(&b.key, &a.key) {
                Some(b)
            } else {
                Some(a)
            }
        }
    }
}
