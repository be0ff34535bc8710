//! Ranges numbered for look-ups.
ghost use Rattle.std.specs.Prelude.{◌≡◌, ◌≤◌, length, map, is_some, IfOk, IsTrue};
ghost use Rattle.std.specs.Option.{option_map};
ghost use Rattle.std.specs.List.{list_any};
ghost use Rattle.std.specs.List.Sorted.{IsNonDecreasingBy};
ghost use Rattle.asa_text.specs.declared.numbers.Addr.{Addr as Address};
ghost use Rattle.asa_nat_maps.specs.Maps as maps;
ghost use Rattle.asa_nat_maps.specs.Places as spec;

use crate::piece::{
    Piece, are_apart, before, by_first, copied, count_up_to_address, count_up_to_place,
    least_place, placed,
};
use asa_base::{Addr, Range};
use std::alloc::{AllocError, Global};
use std::marker::Model;

/// Ranges of addresses in order, numbered for look-ups. Contracts see the ranges.
#[derive(Debug, Drop)]
pub struct Places {
    listed: Vec<Piece>,
    sorted: Vec<Piece>,
    apart: bool,
}

impl Model for Places {
    ghost use Rattle.std.specs.Prelude.{List};
    ghost use Rattle.asa_base.specs.Ranges.{AddressSpan};
    ghost use Rattle.asa_nat_maps.specs.Places.{ranges_of, IsPlaces};

    ghost Value = { List AddressSpan };

    ghost view = { λ p. ranges_of p.listed.items };

    ghost invariant = { λ p. IsPlaces p.listed.items p.sorted.items p.apart };
}

impl Places {
    /// Numbers ranges.
    #[tactic(auto, using(crate::proofs::PlaceLaws::ranges_placed))]
    pub fn build(alloc: Global, ranges: &[Range]) -> Result<Places, AllocError>
        ensures { IfOk result (λ p. p ≡ ranges.now) }
    {
        let listed = placed(alloc, ranges)?;
        let mut sorted = copied(alloc, &listed)?;
        by_first(&mut sorted)?;
        let apart = are_apart(&sorted);
        Ok(Places {
            listed,
            sorted,
            apart,
        })
    }

    /// The address at a place, counted from 0 over all ranges; None exactly where there are no more addresses.
    pub fn at(&self, place: u128) -> Option<Addr>
        ensures { option_map (λ (a : Address). a.0) result ≡ spec.address_at self.now place }
    {
        address_at(&self.listed, place)
    }

    /// The first place of an address, counted from 0 over all ranges; None exactly where no range has it.
    pub fn place(&self, address: Addr) -> Option<u128>
        ensures { result ≡ spec.first_place self.now address.0 }
    {
        if self.apart {
            place_apart(&self.sorted, address)
        } else {
            least_place(&self.listed, address)
        }
    }

    /// Whether a range has the address.
    pub fn holds(&self, address: Addr) -> bool
        ensures { result ≡ is_some (spec.first_place self.now address.0) }
    {
        self.place(address).is_some()
    }

    /// Whether the address at a place is taken at that place.
    fn is_first(&self, place: u128) -> bool
        ensures { result ≡ maps.is_first self.now place }
    {
        match self.at(place) {
            None => false,
            Some(address) => self.place(address) == Some(place),
        }
    }

    /// Whether a range has the address at a place at which an address of `from` is taken.
    #[tactic(auto, using(crate::proofs::PlaceLaws::listed_any))]
    pub(crate) fn is_reached(&self, from: &Places, address: Addr) -> bool
        ensures { result ≡ list_any (λ x. maps.lands from.now x address.0) (spec.placed_from 0 self.now) }
    {
        is_landing_any(from, &self.listed, address)
    }
}

/// Whether the range has the address at a place at which an address of `from` is taken.
fn is_landing(from: &Places, piece: &Piece, address: Addr) -> bool
    ensures { result ≡ maps.lands from.now piece.now address.0 }
{
    match piece.place_of(address) {
        None => false,
        Some(place) => from.is_first(place),
    }
}

/// Whether so it is of one of the ranges.
fn is_landing_any(from: &Places, pieces: &[Piece], address: Addr) -> bool
    ensures { result ≡ list_any (λ x. maps.lands from.now x address.0) pieces.now }
{
    for piece in pieces {
        if is_landing(from, piece, address) {
            return true;
        }
    }
    false
}

/// The address at a place of pieces that are numbered in their order.
fn address_at(listed: &[Piece], place: u128) -> Option<Addr>
    requires { listed.now ≡ spec.placed_from 0 (spec.ranges_of listed.now) }
    ensures { option_map (λ (a : Address). a.0) result ≡ spec.address_at (spec.ranges_of listed.now) place }
{
    let next = count_up_to_place(listed, place);
    match before(listed, next) {
        None => None,
        Some(piece) => piece.address_at(place),
    }
}

/// The place of an address in pieces of which no two meet.
fn place_apart(sorted: &[Piece], address: Addr) -> Option<u128>
    requires rising { IsNonDecreasingBy (λ x. x.range.first.0) sorted.now }
    requires apart { IsTrue (spec.apart_from 0 sorted.now) }
    ensures { result ≡ spec.least_place sorted.now address.0 }
{
    let next = count_up_to_address(sorted, address);
    match before(sorted, next) {
        None => None,
        Some(piece) => piece.place_of(address),
    }
}
