//! Access lists as they are compiled.
ghost use Rattle.std.specs.Prelude.{◌≡◌, position, IfSome, ◌<◌, ◌^◌, length};
ghost use Rattle.asa_access.specs.Lists as spec;

use asa_access_entries::Ranked;
use asa_base::Name;
use asa_text::Items;

/// An access list with its entries and the sides that it is bound to.
#[derive(Debug, Drop)]
pub struct AccessList {
    pub name: Name,
    /// The entries in order, each with its list line, from 1, and whether that line permits.
    pub entries: Ranked,
    /// The sides: the number of an interface, and whether its inbound side.
    pub bound: Items<(u8, bool)>,
}

/// Whether both are inbound sides, or both outbound ones.
fn same_direction(a: bool, b: bool) -> bool
    ensures { result ≡ spec.same_direction a b }
{
    if a { b } else { !b }
}

/// Whether the two sides are the same.
fn is_side(a: (u8, bool), b: &(u8, bool)) -> bool
    ensures { result ≡ spec.same_side a b.now }
{
    a.0 == b.0 && same_direction(a.1, b.1)
}

/// Whether the list is bound to that side.
fn has_side(side: (u8, bool), list: &AccessList) -> bool
    ensures { result ≡ spec.has_side side list.now }
{
    list.bound.as_slice().iter().any(|b| is_side(side, b))
}

/// The place, from 0, of the list that is bound to that side.
fn place_among(lists: &[AccessList], side: (u8, bool)) -> Option<usize>
    ensures value { result ≡ position (spec.has_side side) lists.now }
    ensures within { IfSome result (λ n. n < length lists.now) }
{
    lists.iter().position(|l| has_side(side, l))
}

/// The same as a number of 32 bits.
pub(crate) fn place_of(lists: &[AccessList], side: (u8, bool)) -> Option<u32>
    requires { length lists.now < 2 ^ 32 }
    ensures { result ≡ position (spec.has_side side) lists.now }
{
    match place_among(lists, side) {
        Some(place) => Some(place as u32),
        None => None,
    }
}
