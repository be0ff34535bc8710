//! Where prefixes stand among the blocks of addresses. A block of level n has 2^n addresses; the block of a prefix of
//! length 24 has level 8.
ghost use Rattle.std.specs.Prelude.{◌≡◌, ℕ, ◌-◌, ◌/◌, ◌%◌, ◌^◌, ◌≤◌, ◌<◌};
ghost use Rattle.asa_trie.specs.Bits as spec;

use asa_base::{Addr, Prefix};

/// The level of a prefix's block: 0 for a single address, 32 for all.
pub fn height(p: Prefix) -> u8
    ensures value { result ≡ spec.height p }
    ensures most { result ≤ 32 }
{
    32 - p.len
}

/// An address without its lowest bits.
fn shifted(a: Addr, bits: u8) -> u64
    requires { bits ≤ 32 }
    ensures { result ≡ a.0 / 2 ^ bits }
{
    u64::from(a.0) >> bits
}

/// Whether the prefix covers the address.
pub fn covers(p: Prefix, a: Addr) -> bool
    ensures { result ≡ spec.covers_number p a.0 }
{
    let level = height(p);
    shifted(p.addr, level) == shifted(a, level)
}

/// Whether the address lies in the upper half of its block of this level.
pub fn bit_below(level: u8, a: Addr) -> bool
    requires { level ≤ 33 }
    ensures { result ≡ spec.bit_below level a.0 }
{
    shifted(a, level.saturating_sub(1)) % 2 == 1
}

/// Whether the prefix is a whole block of this level.
pub fn is_here(level: u8, p: Prefix) -> bool
    ensures { result ≡ spec.is_here level p }
{
    height(p) == level
}

/// Whether the prefix is less than a block of this level and lies in the lower half.
pub fn is_low(level: u8, p: Prefix) -> bool
    requires { level ≤ 33 }
    ensures { result ≡ spec.is_low level p }
{
    !is_here(level, p) && !bit_below(level, p.addr)
}

/// Whether the prefix is less than a block of this level and lies in the upper half.
pub fn is_high(level: u8, p: Prefix) -> bool
    requires { level ≤ 33 }
    ensures { result ≡ spec.is_high level p }
{
    !is_here(level, p) && bit_below(level, p.addr)
}

/// The block of this level that has the address, as a prefix.
pub fn over(a: Addr, level: u8) -> Prefix
    requires { level ≤ 32 }
    ensures length { result.len ≡ 32 - level }
    ensures level { spec.height result ≡ level }
    ensures block { result.addr.0 / 2 ^ level ≡ a.0 / 2 ^ level }
{
    let addr = Addr((shifted(a, level) << level) as u32);
    Prefix {
        addr,
        len: 32 - level,
    }
}
