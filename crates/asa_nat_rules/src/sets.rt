//! The sets of addresses that a rule speaks of, and how many addresses they have.
ghost use Rattle.std.specs.Prelude.{◌≡◌, ◌≤◌, ◌-◌, ◌^◌, ◌++◌, [], ◌∷◌, IfOk, OnOk, map};
ghost use Rattle.asa_base.specs.Members.{member_range};
ghost use Rattle.asa_nat_rules.specs.Sets as spec;

use crate::meaning::NatMeaning;
use asa_base::{Addr, Member, Name, Range};
use asa_nat_lines::{MappedRef, RealRef, RuleFields};
use asa_text::Items;
use std::alloc::{AllocError, Global};

/// How many addresses there are.
const ALL: u64 = 1 << 32;

/// Appends the ranges of members.
fn push_members(ranges: &mut Vec<Range>, members: &[Member]) -> Result<(), AllocError>
    ensures { OnOk result (ranges.new.items ≡ ranges.old.items ++ map member_range members.now) }
{
    for member in members {
        ranges.push(member.range())?;
    }
    Ok(())
}

/// The ranges of a network object or group.
pub(crate) fn named_set<M: NatMeaning>(
    alloc: Global,
    meaning: &M,
    name: &Name,
) -> Result<Items<Range>, AllocError>
    ensures { IfOk result (λ s. s ≡ spec.named_set (M.meanings meaning.now) name.now) }
{
    let members = meaning.members(alloc, name)?;
    let mut ranges = Vec::with_capacity(alloc, members.len())?;
    push_members(&mut ranges, members.as_slice())?;
    Ok(Items::from(ranges))
}

/// One range alone.
fn one(alloc: Global, range: Range) -> Result<Items<Range>, AllocError>
    ensures { IfOk result (λ s. s ≡ range ∷ []) }
{
    let mut ranges = Items::new(alloc);
    ranges.push(range)?;
    Ok(ranges)
}

/// The address of the mapped interface, where it has one.
pub(crate) fn interface_address<M: NatMeaning>(meaning: &M, ifc: Option<u8>) -> Option<Addr>
    ensures { spec.interface_set (M.meanings meaning.now) ifc ≡ spec.set_if_any result }
{
    meaning.address_of(ifc?)
}

/// The range of an address, where there is one.
pub(crate) fn set_if_any(alloc: Global, address: Option<Addr>) -> Result<Items<Range>, AllocError>
    ensures { IfOk result (λ s. s ≡ spec.set_if_any address) }
{
    match address {
        Some(address) => one(alloc, Range::only(address)),
        None => Ok(Items::new(alloc)),
    }
}

/// How many addresses there are from one on.
fn left_from(address: Addr) -> u64
    ensures value { result ≡ 2 ^ 32 - address.0 }
    ensures some { 1 ≤ result }
{
    ALL - u64::from(address.0)
}

/// So many addresses from one on, at least one, or those up to 255.255.255.255 where fewer are left.
pub(crate) fn run_of(address: Addr, count: u64) -> Range
    requires { 1 ≤ count }
    ensures { result ∷ [] ≡ spec.run_from address count }
{
    let more = count.min(left_from(address)) - 1;
    Range {
        first: address,
        last: Addr(address.0 + more as u32),
    }
}

/// So many addresses from one on, or those up to 255.255.255.255 where fewer are left.
fn run_from(alloc: Global, address: Addr, count: u64) -> Result<Items<Range>, AllocError>
    ensures { IfOk result (λ s. s ≡ spec.run_from address count) }
{
    if count == 0 {
        return Ok(Items::new(alloc));
    }
    one(alloc, run_of(address, count))
}

/// The real addresses of a rule.
pub(crate) fn real_set<M: NatMeaning>(
    alloc: Global,
    meaning: &M,
    real: &RealRef,
) -> Result<Items<Range>, AllocError>
    ensures { IfOk result (λ s. s ≡ spec.real_set (M.meanings meaning.now) real.now) }
{
    match real {
        RealRef::Any => one(alloc, Range::all()),
        RealRef::Named(name) => named_set(alloc, meaning, name),
    }
}

/// The mapped addresses of a static rule.
pub(crate) fn mapped_set<M: NatMeaning>(
    alloc: Global,
    meaning: &M,
    rule: &RuleFields,
) -> Result<Items<Range>, AllocError>
    ensures { IfOk result (λ s. s ≡ spec.mapped_set (M.meanings meaning.now) rule.now) }
{
    match &rule.mapped {
        MappedRef::Any => one(alloc, Range::all()),
        MappedRef::Interface => set_if_any(alloc, interface_address(meaning, rule.mapped_ifc)),
        MappedRef::Addr(address) => run_from(alloc, *address, real_size(meaning, &rule.real)),
        MappedRef::Named(name) => named_set(alloc, meaning, name),
        MappedRef::Pool { .. } => Ok(Items::new(alloc)),
    }
}

/// The mapped addresses of the destination.
pub(crate) fn dest_mapped_set<M: NatMeaning>(
    alloc: Global,
    meaning: &M,
    rule: &RuleFields,
) -> Result<Items<Range>, AllocError>
    ensures { IfOk result (λ s. s ≡ spec.dest_mapped_set (M.meanings meaning.now) rule.now) }
{
    match &rule.dest {
        Some((mapped, _)) => named_set(alloc, meaning, mapped),
        None => one(alloc, Range::all()),
    }
}

/// The real addresses of the destination.
pub(crate) fn dest_real_set<M: NatMeaning>(
    alloc: Global,
    meaning: &M,
    rule: &RuleFields,
) -> Result<Items<Range>, AllocError>
    ensures { IfOk result (λ s. s ≡ spec.dest_real_set (M.meanings meaning.now) rule.now) }
{
    match &rule.dest {
        Some((_, real)) => named_set(alloc, meaning, real),
        None => one(alloc, Range::all()),
    }
}

/// How many real addresses a rule has.
#[tactic(auto, using(crate::proofs::SizeLaws::size_everything))]
pub(crate) fn real_size<M: NatMeaning>(meaning: &M, real: &RealRef) -> u64
    ensures value { result ≡ spec.size_of (spec.real_set (M.meanings meaning.now) real.now) }
    ensures few { result ≤ 2 ^ 48 }
{
    match real {
        RealRef::Any => ALL,
        RealRef::Named(name) => meaning.address_count(name),
    }
}

/// How many addresses the mapped interface has.
#[tactic(auto, using(crate::proofs::SizeLaws::size_only))]
fn interface_size<M: NatMeaning>(meaning: &M, ifc: Option<u8>) -> u64
    ensures { result ≡ spec.size_of (spec.interface_set (M.meanings meaning.now) ifc) }
{
    match interface_address(meaning, ifc) {
        Some(_) => 1,
        None => 0,
    }
}

/// How many addresses a run of so many from one on has.
#[tactic(auto, using(crate::proofs::SizeLaws::size_run_from))]
fn run_size(address: Addr, count: u64) -> u64
    ensures { result ≡ spec.size_of (spec.run_from address count) }
{
    count.min(left_from(address))
}

/// How many mapped addresses a static rule has.
#[tactic(auto, using(crate::proofs::SizeLaws::size_everything))]
pub(crate) fn mapped_size<M: NatMeaning>(meaning: &M, rule: &RuleFields) -> u64
    ensures { result ≡ spec.size_of (spec.mapped_set (M.meanings meaning.now) rule.now) }
{
    match &rule.mapped {
        MappedRef::Any => ALL,
        MappedRef::Interface => interface_size(meaning, rule.mapped_ifc),
        MappedRef::Addr(address) => run_size(*address, real_size(meaning, &rule.real)),
        MappedRef::Named(name) => meaning.address_count(name),
        MappedRef::Pool { .. } => 0,
    }
}
