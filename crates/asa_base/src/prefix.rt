//! Networks: addresses that share their leading bits.
ghost use Rattle.std.specs.Prelude.{◌≡◌, ℕ, ◌+◌, ◌^◌, ◌-◌, ◌<◌, ◌≤◌, ◌↔◌, IsTrue, IsSome, IfSome};
ghost use Rattle.asa_base.specs.Networks as spec;

use asa_text::Addr;
use std::marker::Model;

/// A network: an address, and how many of its leading bits a covered address shares. The other bits are 0.
#[derive(Clone, Copy, Debug, Default, PartialEq, Eq, Hash)]
pub struct Prefix {
    /// The lowest address of the network.
    pub addr: Addr,
    /// How many leading bits a covered address shares: 0 to 32.
    pub len: u8,
}

impl Model for Prefix {
    ghost use Rattle.std.specs.Prelude.{IsTrue};
    ghost use Rattle.asa_base.specs.Networks.{Network, is_prefix};

    ghost Value = { Network };

    ghost view = { λ p. record { addr = p.addr; len = p.len } };

    ghost invariant = { λ p. IsTrue (is_prefix p.addr.0 p.len) };

    ghost inverse = { λ v. record { addr = v.addr; len = v.len } };
}

// How many addresses share this many leading bits.
fn block_size(len: u8) -> u64
    requires { len ≤ 32 }
    ensures value { result ≡ spec.block_size len }
    ensures some { 0 < result }
{
    1u64 << (32 - len)
}

impl Prefix {
    /// The network, or None exactly where `len` is above 32 or a bit after the first `len` isn't 0.
    pub fn new(addr: Addr, len: u8) -> Option<Prefix>
        ensures valid { IsSome result ↔ IsTrue (spec.is_prefix addr.0 len) }
        ensures value { IfSome result (λ p. (p.addr ≡ addr) × (p.len ≡ len)) }
    {
        if len <= 32 && u64::from(addr.0) % block_size(len) == 0 {
            Some(Prefix { addr, len })
        } else {
            None
        }
    }

    /// The highest address of the network.
    #[tactic(auto, using(crate::proofs::NetworkLaws::network_fits))]
    pub fn last(self) -> Addr
        ensures { result.0 ≡ self.addr.0 + (spec.block_size self.len - 1) }
    {
        Addr(self.addr.0 + (block_size(self.len) - 1) as u32)
    }

    /// The network that has the address and in which so many leading bits are shared.
    #[tactic(auto, using(crate::proofs::OverLaws::no_host_bits, crate::proofs::OverLaws::begins_before))]
    pub fn over(a: Addr, len: u8) -> Prefix
        requires { len ≤ 32 }
        ensures { result ≡ spec.network_over a len }
    {
        let size = block_size(len);
        let first = u64::from(a.0) / size * size;
        Prefix {
            addr: Addr(first as u32),
            len,
        }
    }

    /// Whether the network has the address.
    pub fn covers(self, a: Addr) -> bool
        ensures { result ≡ spec.covers self a }
    {
        same_network(self.len, self.addr, a)
    }
}

/// Whether two addresses share this many leading bits.
pub fn same_network(len: u8, a: Addr, b: Addr) -> bool
    requires { len ≤ 32 }
    ensures { result ≡ spec.same_network len a.0 b.0 }
{
    u64::from(a.0) / block_size(len) == u64::from(b.0) / block_size(len)
}
