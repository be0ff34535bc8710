//! The cases read one after another: the plain program beside the compiled one.
ghost use Rattle.std.specs.Prelude.{◌≡◌, length, ◌≤◌};
ghost use Rattle.asa_base.specs.Boxes.{unstated_or};
ghost use Rattle.asa_nat_index.specs.Matches as spec;

use crate::entries::service_of;
use crate::part::{has_dest_part, has_source_part};
use asa_base::{Addr, NatPlace, Packet, Range};
use asa_nat_rules::Case;

/// Whether one of the ranges has the address.
fn lies_in(address: Addr, ranges: &[Range]) -> bool
    ensures { result ≡ spec.lies_in address ranges.now }
{
    ranges.iter().any(|range| range.holds(address))
}

/// Whether it is any interface, or this one.
fn is_any_or(ifc: Option<u8>, number: u8) -> bool
    ensures { result ≡ unstated_or ifc number }
{
    match ifc {
        None => true,
        Some(own) => own == number,
    }
}

/// Whether both addresses lie in the case's sets, and protocol and ports fit.
fn fits(p: &Packet, case: &Case) -> bool
    ensures { result ≡ spec.fits p.now case.now }
{
    lies_in(p.src, case.source.as_slice())
        && lies_in(p.dst, case.dest.as_slice())
        && service_of(case).holds(p)
}

/// Whether the case decides the packet's destination.
fn decides_dest(p: &Packet, case: &(NatPlace, Case)) -> bool
    ensures { result ≡ spec.decides_dest p.now case.now }
{
    has_dest_part(&case.1) && is_any_or(case.1.from, p.ifc) && fits(p, &case.1)
}

/// Whether the case decides the packet's source, towards an egress.
fn decides_source(p: &Packet, egress: u8, case: &(NatPlace, Case)) -> bool
    ensures { result ≡ spec.decides_source p.now egress case.now }
{
    has_source_part(&case.1)
        && (is_any_or(case.1.from, p.ifc) && is_any_or(case.1.to, egress))
        && fits(p, &case.1)
}

/// The index, from 0, of the first case for the packet's destination, found by reading all cases.
#[tactic(auto, unfolding(crate::specs::Matches::destination))]
pub fn destination_listed(cases: &[(NatPlace, Case)], p: &Packet) -> Option<usize>
    ensures { result ≡ spec.destination cases.now p.now }
{
    cases.iter().position(|case| decides_dest(p, case))
}

/// The index, from 0, of the first case for the source of a packet that goes out of `egress`, found by reading all cases.
#[tactic(auto, unfolding(crate::specs::Matches::source))]
pub fn source_listed(cases: &[(NatPlace, Case)], p: &Packet, egress: u8) -> Option<usize>
    ensures { result ≡ spec.source cases.now p.now egress }
{
    cases
        .iter()
        .position(|case| decides_source(p, egress, case))
}
