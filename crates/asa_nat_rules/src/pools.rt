//! What a dynamic rule gives out.
ghost use Rattle.std.specs.Prelude.{◌≡◌, ◌++◌, IfOk, OnOk, map, flat_map};
ghost use Rattle.asa_base.specs.Members.{member_range};
ghost use Rattle.asa_nat_rules.specs.Pools as spec;

use crate::meaning::NatMeaning;
use crate::sets::interface_address;
use asa_base::{Member, Name, Range};
use asa_nat_lines::{MappedRef, PoolRef};
use asa_pool_values::{PatSpan, PortRule};
use asa_text::Items;
use std::alloc::{AllocError, Global};

/// Appends those members that are ranges.
fn push_spans(ranges: &mut Vec<Range>, members: &[Member]) -> Result<(), AllocError>
    ensures { OnOk result (ranges.new.items ≡ ranges.old.items ++ flat_map spec.span_of members.now) }
{
    for member in members {
        if let Member::Span(range) = member {
            ranges.push(*range)?;
        }
    }
    Ok(())
}

/// The addresses of a pool that are given out whole: the ranges of the object or group that stands first.
pub(crate) fn nat_ranges<M: NatMeaning>(
    alloc: Global,
    meaning: &M,
    mapped: &MappedRef,
) -> Result<Items<Range>, AllocError>
    ensures { IfOk result (λ s. s ≡ spec.nat_ranges (M.meanings meaning.now) mapped.now) }
{
    let mut ranges = Vec::new(alloc);
    if let MappedRef::Pool {
        first: Some(PoolRef::Named(name)),
        ..
    } = mapped
    {
        let members = meaning.members(alloc, name)?;
        push_spans(&mut ranges, members.as_slice())?;
    }
    Ok(Items::from(ranges))
}

/// Addresses whose ports are plain.
fn plain(range: Range) -> PatSpan
    ensures { result ≡ spec.plain_span range }
{
    PatSpan {
        range,
        ports: PortRule::Plain,
        extended: false,
    }
}

/// Appends those members that are addresses; their ports are plain.
fn push_hosts(spans: &mut Vec<PatSpan>, members: &[Member]) -> Result<(), AllocError>
    ensures { OnOk result (spans.new.items ≡ spans.old.items ++ map spec.plain_span (flat_map spec.host_of members.now)) }
{
    for member in members {
        if let Member::Host(address) = member {
            spans.push(plain(Range::only(*address)))?;
        }
    }
    Ok(())
}

/// Appends the stated address, or the hosts of the object or group that stands first.
fn push_first<M: NatMeaning>(
    alloc: Global,
    meaning: &M,
    spans: &mut Vec<PatSpan>,
    first: &Option<PoolRef>,
) -> Result<(), AllocError>
    ensures { OnOk result (spans.new.items ≡ spans.old.items ++ spec.pat_of_first (M.meanings meaning.now) first.now) }
{
    match first {
        None => Ok(()),
        Some(PoolRef::Addr(address)) => {
            spans.push(plain(Range::only(*address)))?;
            Ok(())
        }
        Some(PoolRef::Named(name)) => {
            let members = meaning.members(alloc, name)?;
            push_hosts(spans, members.as_slice())
        }
    }
}

/// Appends all members, with the words of their pool.
fn push_all(
    spans: &mut Vec<PatSpan>,
    members: &[Member],
    ports: PortRule,
    extended: bool,
) -> Result<(), AllocError>
    ensures { OnOk result (spans.new.items ≡ spans.old.items ++ map (spec.pat_span ports extended) (map member_range members.now)) }
{
    for member in members {
        spans.push(PatSpan {
            range: member.range(),
            ports,
            extended,
        })?;
    }
    Ok(())
}

/// Appends the members of `pat-pool`.
fn push_pool<M: NatMeaning>(
    alloc: Global,
    meaning: &M,
    spans: &mut Vec<PatSpan>,
    pat_pool: &Option<Name>,
    ports: PortRule,
    extended: bool,
) -> Result<(), AllocError>
    ensures { OnOk result (spans.new.items ≡ spans.old.items ++ spec.pat_of_pool (M.meanings meaning.now) pat_pool.now ports extended) }
{
    let Some(name) = pat_pool else {
        return Ok(());
    };
    let members = meaning.members(alloc, name)?;
    push_all(spans, members.as_slice(), ports, extended)
}

/// Appends the address of the mapped interface, where `interface` stands last.
fn push_last<M: NatMeaning>(
    meaning: &M,
    spans: &mut Vec<PatSpan>,
    ifc: Option<u8>,
    interface: bool,
) -> Result<(), AllocError>
    ensures { OnOk result (spans.new.items ≡ spans.old.items ++ spec.pat_of_last (M.meanings meaning.now) ifc interface) }
{
    if !interface {
        return Ok(());
    }
    if let Some(address) = interface_address(meaning, ifc) {
        spans.push(plain(Range::only(address)))?;
    }
    Ok(())
}

/// The addresses of a pool that are given out port by port, in the order in which they are asked.
pub(crate) fn pat_spans<M: NatMeaning>(
    alloc: Global,
    meaning: &M,
    ifc: Option<u8>,
    mapped: &MappedRef,
) -> Result<Items<PatSpan>, AllocError>
    ensures { IfOk result (λ s. s ≡ spec.pat_spans (M.meanings meaning.now) ifc mapped.now) }
{
    let mut spans = Vec::new(alloc);
    if let MappedRef::Pool {
        first,
        pat_pool,
        interface,
        ports,
        extended,
    } = mapped
    {
        push_first(alloc, meaning, &mut spans, first)?;
        push_pool(alloc, meaning, &mut spans, pat_pool, *ports, *extended)?;
        push_last(meaning, &mut spans, ifc, *interface)?;
    }
    Ok(Items::from(spans))
}
