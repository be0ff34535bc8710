//! Ranges of addresses and of ports, and what an object or a group names with them.
ghost use Rattle.std.specs.Prelude.{◌≡◌, ℕ, ◌+◌, ◌-◌, ◌^◌, ◌<◌, ◌≤◌, ◌↔◌, IsTrue, IsSome, IfSome, IfNone, nat_le};
ghost use Rattle.asa_base.specs.Ranges as spec;
ghost use Rattle.asa_base.specs.Members.{member_range};
ghost use Rattle.asa_base.specs.Networks.{block_size};

use crate::prefix::Prefix;
use asa_text::Addr;
use std::marker::Model;

/// A range of addresses, of which both the first and the last count. The first isn't above the last.
#[derive(Clone, Copy, Debug, PartialEq, Eq, Hash)]
pub struct Range {
    pub first: Addr,
    pub last: Addr,
}

impl Model for Range {
    ghost use Rattle.std.specs.Prelude.{◌≤◌};
    ghost use Rattle.asa_base.specs.Ranges.{AddressSpan};

    ghost Value = { AddressSpan };

    ghost view = { λ r. record { first = r.first; last = r.last } };

    ghost invariant = { λ r. r.first.0 ≤ r.last.0 };

    ghost inverse = { λ v. record { first = v.first; last = v.last } };
}

impl Range {
    /// The range, or None exactly where the first address is above the last.
    pub fn new(first: Addr, last: Addr) -> Option<Range>
        ensures valid { IsSome result ↔ (first.0 ≤ last.0) }
        ensures value { IfSome result (λ r. r ≡ record { first = first; last = last }) }
    {
        if first.0 <= last.0 {
            Some(Range { first, last })
        } else {
            None
        }
    }

    /// One address.
    pub fn only(address: Addr) -> Range
        ensures { result ≡ spec.only_address address }
    {
        Range {
            first: address,
            last: address,
        }
    }

    /// All addresses.
    pub fn all() -> Range
        ensures { result ≡ spec.all_addresses }
    {
        Range {
            first: Addr(0),
            last: Addr(u32::MAX),
        }
    }

    /// The addresses of a network.
    pub fn of_prefix(prefix: Prefix) -> Range
        ensures { result ≡ spec.network_span prefix }
    {
        Range {
            first: prefix.addr,
            last: prefix.last(),
        }
    }

    /// Whether the range has the address.
    pub fn holds(self, address: Addr) -> bool
        ensures { result ≡ spec.span_holds self address }
    {
        self.first.0 <= address.0 && address.0 <= self.last.0
    }
}

/// A range of ports, of which both the first and the last count. The first isn't above the last.
#[derive(Clone, Copy, Debug, PartialEq, Eq, Hash)]
pub struct PortRange {
    pub first: u16,
    pub last: u16,
}

impl Model for PortRange {
    ghost use Rattle.std.specs.Prelude.{◌≤◌};
    ghost use Rattle.asa_base.specs.Ranges.{PortSpan};

    ghost Value = { PortSpan };

    ghost view = { λ r. record { first = r.first; last = r.last } };

    ghost invariant = { λ r. r.first ≤ r.last };

    ghost inverse = { λ v. record { first = v.first; last = v.last } };
}

impl PortRange {
    /// The range, or None exactly where the first port is above the last.
    pub fn new(first: u16, last: u16) -> Option<PortRange>
        ensures valid { IsSome result ↔ (first ≤ last) }
        ensures value { IfSome result (λ r. r ≡ record { first = first; last = last }) }
    {
        if first <= last {
            Some(PortRange { first, last })
        } else {
            None
        }
    }

    /// One port.
    pub fn only(port: u16) -> PortRange
        ensures { result ≡ spec.only_port port }
    {
        PortRange {
            first: port,
            last: port,
        }
    }

    /// All ports, which in a service is the same as none stated.
    pub fn all() -> PortRange
        ensures { result ≡ spec.all_ports }
    {
        PortRange {
            first: 0,
            last: u16::MAX,
        }
    }

    /// Whether the range has the port.
    pub fn holds(self, port: u16) -> bool
        ensures { result ≡ spec.port_span_holds self port }
    {
        self.first <= port && port <= self.last
    }
}

/// The one or two ranges of ports, in rising order, that `eq`, `lt`, `gt`, `neq` or `range` stand for.
#[derive(Clone, Copy, Debug, PartialEq, Eq, Hash)]
pub struct Ports {
    first: PortRange,
    second: Option<PortRange>,
}

impl Model for Ports {
    ghost use Rattle.std.specs.Prelude.{◌≡◌, ◌<◌, List, IfSome};
    ghost use Rattle.asa_base.specs.Ranges.{PortSpan, one_or_two, first_of, second_of};

    ghost Value = { List PortSpan };

    ghost view = { λ p. one_or_two p.first p.second };

    ghost invariant = { λ p. IfSome p.second (λ s. p.first.last < s.first) };

    ghost inverse = { λ v. record { first = first_of v; second = second_of v } };
}

impl Ports {
    /// One range.
    pub fn one(range: PortRange) -> Ports
        ensures { result ≡ spec.one_or_two range None }
    {
        Ports {
            first: range,
            second: None,
        }
    }

    /// Two ranges, of which the second begins after the end of the first.
    pub fn two(first: PortRange, second: PortRange) -> Ports
        requires { first.last < second.first }
        ensures { result ≡ spec.one_or_two first (Some second) }
    {
        Ports {
            first,
            second: Some(second),
        }
    }

    /// The first range, and the second where there is one.
    pub fn ranges(self) -> (PortRange, Option<PortRange>)
        ensures all { self ≡ spec.one_or_two result.0 result.1 }
        ensures rising { IfSome result.1 (λ second. result.0.last < second.first) }
    {
        (self.first, self.second)
    }
}

/// What a network object or group names: an address, a range of addresses or a network.
#[derive(Clone, Copy, Debug, PartialEq, Eq, Hash)]
pub enum Member {
    Host(Addr),
    Span(Range),
    Subnet(Prefix),
}

impl Member {
    /// The addresses of the member.
    pub fn range(self) -> Range
        ensures { result ≡ member_range self }
    {
        match self {
            Member::Host(address) => Range::only(address),
            Member::Span(range) => range,
            Member::Subnet(prefix) => Range::of_prefix(prefix),
        }
    }
}
