//! The three sections, one after another.
ghost use Rattle.std.specs.Prelude.{◌≡◌, ℕ, ◌+◌, ◌^◌, ◌<◌, List, length, IfOk, OnOk, IsTrue};
ghost use Rattle.std.specs.List.{list_all, slice_get};
ghost use Rattle.std.specs.List.Sorted.{IsPermutation, IsSortedByKey};
ghost use Rattle.asa_nat_order.specs.Sections as spec;

use crate::keys::{AutoRank, NatKey};
use std::alloc::{AllocError, Global};

/// What orders the rules of objects: the rank, and where ranks are equal the index.
#[derive(Clone, Debug, PartialEq, Eq, PartialOrd, Ord, Drop)]
struct Seat {
    rank: Option<AutoRank>,
    index: u32,
}

/// The rank of the key at an index, and the index.
fn seat_at(keys: &[NatKey], index: u32) -> Seat
    ensures { result ≡ spec.seat_at keys.now index }
{
    let rank = keys.get(index as usize).map(|key| key.rank());
    Seat { rank, index }
}

/// The section of the key at an index; 0 past the last key.
fn section_at(keys: &[NatKey], index: u32) -> u8
    ensures { result ≡ spec.section_in (slice_get keys.now index) }
{
    match keys.get(index as usize) {
        Some(key) => key.section,
        None => 0,
    }
}

/// The indexes of the keys of a section, as they stand.
fn in_section(alloc: Global, keys: &[NatKey], section: u8) -> Result<Vec<u32>, AllocError>
    requires { length keys.now + 1 < 2 ^ 32 }
    ensures { IfOk result (λ v. v.items ≡ spec.in_section section keys.now) }
{
    (0..keys.len() as u32)
        .filter(|index| section_at(keys, *index) == section)
        .collect(alloc)
}

/// Sorts indexes by the ranks of their keys.
fn sort_by_rank(keys: &[NatKey], indexes: &mut Vec<u32>) -> Result<(), AllocError>
    ensures same { IsPermutation indexes.old.items indexes.new.items }
    ensures sorted { OnOk result (IsSortedByKey (spec.seat_at keys.now) spec.seat_cmp indexes.new.items) }
{
    indexes.sort_by_cached_key(|index| seat_at(keys, *index))?;
    Ok(())
}

/// The indexes of the keys in NAT order: the first section as it stands, the second by rank and, where ranks are equal, by
/// index, and the third as it stands.
pub fn order(alloc: Global, keys: &[NatKey]) -> Result<Vec<u32>, AllocError>
    requires few { length keys.now + 1 < 2 ^ 32 }
    requires sections { IsTrue (list_all spec.has_section keys.now) }
    ensures order { IfOk result (λ v. spec.IsNatOrder keys.now v.items) }
    ensures only { IfOk result (λ v. (other : List ℕ) → spec.IsNatOrder keys.now other → other ≡ v.items) }
    ensures all { IfOk result (λ v. IsPermutation (spec.all_indexes keys.now) v.items) }
{
    let mut indexes = in_section(alloc, keys, 1)?;
    let mut objects = in_section(alloc, keys, 2)?;
    sort_by_rank(keys, &mut objects)?;
    let last = in_section(alloc, keys, 3)?;
    indexes.extend_from_slice(&objects)?;
    indexes.extend_from_slice(&last)?;
    Ok(indexes)
}
