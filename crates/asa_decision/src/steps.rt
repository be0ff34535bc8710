//! What each step of a decision finds.
ghost use Rattle.std.specs.Prelude.{◌≡◌, ◌<◌};
ghost use Rattle.asa_decision.specs.Steps as spec;

use crate::way::Way;
use asa_base::{NatPlace, Packet};
use asa_flow::{Detail, DropReason};

/// Nothing to tell, or the drop.
fn needs(holds: bool, reason: DropReason) -> Result<Detail, DropReason>
    ensures { result ≡ spec.needs holds reason }
{
    if holds { Ok(Detail::None) } else { Err(reason) }
}

/// Whether this bit of the flags is set.
fn has_flag(p: &Packet, bit: u8) -> bool
    requires { 0 < bit }
    ensures { result ≡ spec.has_flag p.now bit }
{
    (p.flags / bit) % 2 == 1
}

/// Whether S is set, and none of A, F and R.
fn is_syn(p: &Packet) -> bool
    ensures { result ≡ spec.is_syn p.now }
{
    has_flag(p, 1) && !has_flag(p, 2) && !has_flag(p, 4) && !has_flag(p, 8)
}

/// STATE: a TCP packet opens a connection only with S and without A, F and R.
#[tactic(auto, unfolding(crate::specs::Steps::state))]
pub fn state(p: &Packet) -> Result<Detail, DropReason>
    ensures { result ≡ spec.state p.now }
{
    needs(p.proto != 6 || is_syn(p), DropReason::NotSyn)
}

/// ROUTE-LOOKUP: the packet needs a way.
pub fn routed(way: Option<Way>) -> Result<Detail, DropReason>
    ensures { result ≡ spec.routed way }
{
    match way {
        Some(way) => Ok(Detail::Routed {
            route: way.route,
            egress: way.egress,
        }),
        None => Err(DropReason::NoRoute),
    }
}

/// NAT: the place of the rule of the source case, where there is one; `serves` says whether it has something for the packet.
pub fn translated(place: Option<NatPlace>, serves: bool) -> Result<Detail, DropReason>
    ensures { result ≡ spec.translated place serves }
{
    match place {
        None => Ok(Detail::Place(None)),
        Some(place) if serves => Ok(Detail::Place(Some(place))),
        Some(place) => Err(DropReason::NatProto { place }),
    }
}

/// REVERSE-PATH: the places of the rules of the destination case and of the reply's source case; `fits` says whether they
/// belong together.
pub fn reversed(
    fits: bool,
    unnat: Option<NatPlace>,
    reply: Option<NatPlace>,
) -> Result<Detail, DropReason>
    ensures { result ≡ spec.reversed fits unnat reply }
{
    if fits {
        Ok(Detail::Pair { unnat, reply })
    } else {
        Err(DropReason::ReversePath { unnat, reply })
    }
}
