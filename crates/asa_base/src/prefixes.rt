//! A range of addresses as networks.
ghost use Rattle.std.specs.Prelude.{◌≡◌, ◌+◌, ◌-◌, ◌^◌, ◌<◌, ◌≤◌, [], ◌++◌, length, IsTrue};
ghost use Rattle.std.specs.List.{list_any};
ghost use Rattle.asa_text.specs.declared.numbers.Addr.{Addr as Address};
ghost use Rattle.asa_base.specs.Networks.{covers};
ghost use Rattle.asa_base.specs.Prefixes as spec;
ghost use Rattle.asa_base.specs.Ranges.{span_holds};

use crate::prefix::Prefix;
use crate::range::{Member, Range};
use arrayvec::ArrayVec;
use asa_text::Addr;

/// How many addresses a block of the level has.
fn size_of(level: u8) -> u64
    requires { level ≤ 32 }
    ensures value { result ≡ 2 ^ level }
    ensures low { result ≤ 2 ^ 32 }
    ensures some { 0 < result }
{
    1u64 << level
}

/// Whether 2^level addresses from `at` on begin at a multiple of their number and end before `end`.
fn block_fits(level: u8, at: u64, end: u64) -> bool
    requires small { level ≤ 32 }
    requires low { at ≤ 2 ^ 32 }
    ensures { result ≡ spec.block_fits level at end }
{
    let size = size_of(level);
    at % size == 0 && at + size <= end
}

/// The level of the largest block of addresses that begins at `at` and ends before `end`.
#[tactic(auto, using(crate::proofs::PrefixLaws::greatest_is))]
fn largest_level(at: u64, end: u64) -> u8
    requires some { at < end }
    requires low { end ≤ 2 ^ 32 }
    ensures value { spec.level_at at end ≡ result }
    ensures fits { IsTrue (spec.block_fits result at end) }
    ensures few { result ≤ 32 }
{
    for level in 0..32u8 {
        if !block_fits(level + 1, at, end) {
            return level;
        }
    }
    32
}

/// The network of 2^level addresses from `at` on.
#[tactic(auto, using(crate::proofs::PrefixLaws::block_is_prefix))]
fn block(at: u64, level: u8, end: u64) -> Prefix
    requires few { level ≤ 32 }
    requires fits { IsTrue (spec.block_fits level at end) }
    requires low { end ≤ 2 ^ 32 }
    ensures { result ≡ spec.block at level }
{
    Prefix {
        addr: Addr(at as u32),
        len: 32 - level,
    }
}

/// Empties `out` and fills it with the networks of the range, in rising order: each is the largest that begins at the
/// first address not yet covered and doesn't pass the last. There are at most 62.
#[tactic(auto, unfolding(crate::specs::Prefixes::prefixes_of_span), using(crate::proofs::PrefixLaws::between_more, crate::proofs::PrefixLaws::between_none))]
pub fn prefixes_of(range: Range, out: &mut ArrayVec<Prefix, 62>)
    ensures value { out.new.items ≡ spec.prefixes_of_span range }
    ensures holds { (a : Address) → list_any (λ n. covers n a) out.new.items ≡ span_holds range a }
    ensures few { length out.new.items ≤ 62 }
{
    out.clear();
    let end = u64::from(range.last.0) + 1;
    let mut at = u64::from(range.first.0);
    while at < end {
        let level = largest_level(at, end);
        out.push(block(at, level, end));
        at += size_of(level);
    }
}

/// How many networks the range has, which are not listed.
#[tactic(auto, unfolding(crate::specs::Prefixes::prefixes_of_span))]
pub fn prefix_count(range: Range) -> u32
    ensures value { result ≡ length (spec.prefixes_of_span range) }
    ensures some { 0 < result }
    ensures few { result ≤ 62 }
{
    let end = u64::from(range.last.0) + 1;
    let mut at = u64::from(range.first.0);
    let mut count = 0;
    while at < end {
        let level = largest_level(at, end);
        count += 1;
        at += size_of(level);
    }
    count
}

impl Member {
    /// How many networks the member's range has.
    pub fn prefix_count(self) -> u32
        ensures value { result ≡ spec.member_prefix_count self }
        ensures some { 0 < result }
        ensures few { result ≤ 62 }
    {
        prefix_count(self.range())
    }
}
