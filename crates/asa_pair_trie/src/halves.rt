//! The entries of a block of addresses, divided between the block itself and its halves.
ghost use Rattle.std.specs.Prelude.{◌≡◌, ℕ, ◌^◌, ◌<◌, ◌≤◌, filter, IfOk};
ghost use Rattle.std.specs.List.{All, list_all};
ghost use Rattle.asa_trie.specs.Bits.{home_of, is_here, is_low, is_high, one_half};
ghost use Rattle.asa_pair_trie.specs.Growth.{prefix_by};
ghost use Rattle.asa_pair_trie.specs.declared.entries.Side.TheVariants.{Source, Dest};

use crate::entries::{Entry, Side, prefix_by};
use asa_base::Addr;
use asa_trie::{is_here, is_high, is_low};
use std::alloc::{AllocError, Global};

/// An entry, of whose prefixes the addresses are known to be of 32 bits.
fn looked_at(entry: &Entry) -> Entry
    ensures same { result ≡ entry.now }
    ensures source { (prefix_by Source result).addr.0 < 2 ^ 32 }
    ensures dest { (prefix_by Dest result).addr.0 < 2 ^ 32 }
{
    let source = entry.source.addr.0;
    let dest = entry.dest.addr.0;
    prove!(source <= u32::MAX && dest <= u32::MAX);
    *entry
}

/// A copy of the entries.
pub(crate) fn copied(alloc: Global, entries: &[Entry]) -> Result<Vec<Entry>, AllocError>
    ensures same { IfOk result (λ v. v.items ≡ entries.now) }
    ensures sources { IfOk result (λ v. All (λ e. (prefix_by Source e).addr.0 < 2 ^ 32) v.items) }
    ensures dests { IfOk result (λ v. All (λ e. (prefix_by Dest e).addr.0 < 2 ^ 32) v.items) }
{
    let mut all = Vec::with_capacity(alloc, entries.len())?;
    for entry in entries {
        all.push(looked_at(entry))?;
    }
    Ok(all)
}

/// Whether all entries lie in the lower half of a block of this level.
fn all_low(side: Side, entries: &[Entry], level: u8) -> bool
    requires { level ≤ 32 }
    ensures { result ≡ list_all (λ e. is_low level (prefix_by side e)) entries.now }
{
    entries
        .iter()
        .all(|entry| is_low(level, prefix_by(side, entry)))
}

/// Whether all entries lie in the upper half of a block of this level.
fn all_high(side: Side, entries: &[Entry], level: u8) -> bool
    requires { level ≤ 32 }
    ensures { result ≡ list_all (λ e. is_high level (prefix_by side e)) entries.now }
{
    entries
        .iter()
        .all(|entry| is_high(level, prefix_by(side, entry)))
}

/// Whether all entries lie in one half of a block of this level.
pub(crate) fn one_half(side: Side, entries: &[Entry], level: u8) -> bool
    requires { level ≤ 32 }
    ensures { result ≡ one_half (prefix_by side) level entries.now }
{
    all_low(side, entries, level) || all_high(side, entries, level)
}

/// The entries whose prefix is the whole block of this level.
pub(crate) fn heres(
    alloc: Global,
    side: Side,
    entries: &[Entry],
    level: u8,
) -> Result<Vec<Entry>, AllocError>
    ensures { IfOk result (λ v. v.items ≡ filter (λ e. is_here level (prefix_by side e)) entries.now) }
{
    entries
        .iter()
        .filter(|entry| is_here(level, prefix_by(side, entry)))
        .copied()
        .collect(alloc)
}

/// The entries of the lower half of a block of this level.
pub(crate) fn lows(
    alloc: Global,
    side: Side,
    entries: &[Entry],
    level: u8,
) -> Result<Vec<Entry>, AllocError>
    requires { level ≤ 32 }
    ensures { IfOk result (λ v. v.items ≡ filter (λ e. is_low level (prefix_by side e)) entries.now) }
{
    entries
        .iter()
        .filter(|entry| is_low(level, prefix_by(side, entry)))
        .copied()
        .collect(alloc)
}

/// The entries of the upper half of a block of this level.
pub(crate) fn highs(
    alloc: Global,
    side: Side,
    entries: &[Entry],
    level: u8,
) -> Result<Vec<Entry>, AllocError>
    requires { level ≤ 32 }
    ensures { IfOk result (λ v. v.items ≡ filter (λ e. is_high level (prefix_by side e)) entries.now) }
{
    entries
        .iter()
        .filter(|entry| is_high(level, prefix_by(side, entry)))
        .copied()
        .collect(alloc)
}

/// The address at which the first entry's prefix begins.
pub(crate) fn home(side: Side, entries: &[Entry]) -> Addr
    ensures { result.0 ≡ home_of (prefix_by side) entries.now }
{
    match entries.first() {
        Some(entry) => prefix_by(side, entry).addr,
        None => Addr(0),
    }
}
