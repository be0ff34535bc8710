//! Ranges with the places of their addresses.
ghost use Rattle.std.specs.Prelude.{◌≡◌, ◌+◌, ◌-◌, ◌*◌, ◌^◌, ◌<◌, ◌≤◌, length, IfOk, OnOk, nat_le, true, false};
ghost use Rattle.std.specs.List.Sorted.{IsPermutation, IsNonDecreasingBy, IsPartitionPoint};
ghost use Rattle.std.specs.Option.{option_copied, option_map};
ghost use Rattle.asa_text.specs.declared.numbers.Addr.{Addr as Address};
ghost use Rattle.asa_nat_rules.specs.Sets.{span_size};
ghost use Rattle.asa_nat_maps.specs.Places as spec;

use asa_base::{Addr, Range};
use std::alloc::{AllocError, Global};
use std::marker::Model;

/// A range with the place of its first address, which is below 2^96.
#[derive(Clone, Copy, Debug)]
pub(crate) struct Piece {
    range: Range,
    place: u128,
}

impl Model for Piece {
    ghost use Rattle.std.specs.Prelude.{◌<◌, ◌^◌};
    ghost use Rattle.asa_nat_maps.specs.Places.{Placed};

    ghost Value = { Placed };

    ghost view = { λ p. record { range = p.range; place = p.place } };

    ghost invariant = { λ p. p.place < 2 ^ 96 };

    ghost inverse = { λ v. record { range = v.range; place = v.place } };
}

/// How many addresses a range has.
fn size_of(range: &Range) -> u128
    ensures value { result ≡ span_size range.now }
    ensures few { result ≤ 2 ^ 32 }
    ensures ends { range.now.first.0 + result ≤ 2 ^ 32 }
{
    u128::from(range.last.0) + 1 - u128::from(range.first.0)
}

impl Piece {
    /// The range and the place of its first address.
    fn new(range: Range, place: u128) -> Piece
        requires { place < 2 ^ 96 }
        ensures { result ≡ record { range = range; place = place } }
    {
        Piece { range, place }
    }

    /// The place of an address that the range has.
    pub(crate) fn place_of(&self, address: Addr) -> Option<u128>
        ensures { result ≡ spec.place_in self.now address.0 }
    {
        if !self.range.holds(address) {
            return None;
        }
        Some(self.place + u128::from(address.0 - self.range.first.0))
    }

    /// The address at a place that the range has.
    pub(crate) fn address_at(&self, place: u128) -> Option<Addr>
        requires { self.now.place ≤ place }
        ensures { option_map (λ (a : Address). a.0) result ≡ spec.address_in self.now place }
    {
        let ahead = place - self.place;
        if ahead >= size_of(&self.range) {
            return None;
        }
        Some(Addr(self.range.first.0 + ahead as u32))
    }
}

/// The ranges with their places.
pub(crate) fn placed(alloc: Global, ranges: &[Range]) -> Result<Vec<Piece>, AllocError>
    ensures { IfOk result (λ v. v.items ≡ spec.placed_from 0 ranges.now) }
{
    let mut pieces = Vec::with_capacity(alloc, ranges.len())?;
    let mut place = 0u128;
    for range in ranges {
        pieces.push(Piece::new(*range, place))?;
        place += size_of(range);
    }
    Ok(pieces)
}

/// A copy.
pub(crate) fn copied(alloc: Global, pieces: &[Piece]) -> Result<Vec<Piece>, AllocError>
    ensures { IfOk result (λ v. v.items ≡ pieces.now) }
{
    pieces.iter().copied().collect(alloc)
}

/// Sorts by the first address of each range.
pub(crate) fn by_first(pieces: &mut Vec<Piece>) -> Result<(), AllocError>
    ensures same { IsPermutation pieces.old.items pieces.new.items }
    ensures rising { OnOk result (IsNonDecreasingBy (λ x. x.range.first.0) pieces.new.items) }
{
    pieces.sort_by_key(|piece| piece.range.first.0)?;
    Ok(())
}

/// Whether no range begins before the one ahead of it has ended.
pub(crate) fn are_apart(pieces: &[Piece]) -> bool
    ensures { result ≡ spec.apart_from 0 pieces.now }
{
    let mut end = 0u64;
    for piece in pieces {
        if u64::from(piece.range.first.0) < end {
            return false;
        }
        end = u64::from(piece.range.last.0) + 1;
    }
    true
}

/// The piece ahead of an index, where there is one.
pub(crate) fn before(pieces: &[Piece], next: usize) -> Option<&Piece>
    ensures { option_copied result ≡ spec.before pieces.now next }
{
    if next == 0 {
        return None;
    }
    pieces.get(next - 1)
}

/// How many pieces begin at a place or ahead of it.
pub(crate) fn count_up_to_place(pieces: &[Piece], place: u128) -> usize
    requires { IsNonDecreasingBy (λ x. x.place) pieces.now }
    ensures { IsPartitionPoint (λ x. nat_le x.place place ≡ true) (λ x. nat_le x.place place ≡ false) pieces.now result }
{
    pieces.partition_point(
        |piece: &Piece| -> bool
            ensures { result ≡ nat_le piece.now.place place }
        { piece.place <= place },
    )
}

/// How many pieces begin at an address or ahead of it.
pub(crate) fn count_up_to_address(pieces: &[Piece], address: Addr) -> usize
    requires { IsNonDecreasingBy (λ x. x.range.first.0) pieces.now }
    ensures { IsPartitionPoint (λ x. nat_le x.range.first.0 address.0 ≡ true) (λ x. nat_le x.range.first.0 address.0 ≡ false) pieces.now result }
{
    pieces.partition_point(
        |piece: &Piece| -> bool
            ensures { result ≡ nat_le piece.now.range.first.0 address.0 }
        { piece.range.first.0 <= address.0 },
    )
}

/// The lesser of two places, where there are two.
fn lesser(a: Option<u128>, b: Option<u128>) -> Option<u128>
    ensures { result ≡ spec.lesser a b }
{
    match (a, b) {
        (None, b) => b,
        (a, None) => a,
        (Some(a), Some(b)) => Some(a.min(b)),
    }
}

/// The least place of an address, found by reading all pieces.
pub(crate) fn least_place(pieces: &[Piece], address: Addr) -> Option<u128>
    ensures { result ≡ spec.least_place pieces.now address.0 }
{
    let mut least = None;
    for piece in pieces {
        least = lesser(least, piece.place_of(address));
    }
    least
}
