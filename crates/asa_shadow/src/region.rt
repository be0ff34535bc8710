//! Regions: sets of packets, by a range of numbers in each of seven dimensions.
ghost use Rattle.std.specs.Prelude.{◌≡◌, ℕ, ◌+◌, ◌-◌, ◌<◌, ◌≤◌, ◌∷◌, [], Bool, true, IsTrue, IfSome, Some};
ghost use Rattle.asa_shadow.specs.CutTrees.{cut_of, least_packet};
ghost use Rattle.asa_shadow.specs.Regions as spec;

use asa_base::{Addr, LineBox, Packet, PortRange, Range};
use std::marker::Model;

/// How many dimensions a region has.
pub(crate) const DIMENSIONS: usize = 7;

/// The numbers from a lowest to a highest, which both count.
#[derive(Clone, Copy, Debug, PartialEq, Eq)]
pub struct Span {
    pub low: u32,
    pub high: u32,
}

/// A cut in one dimension, from 1 to 7, between `at` and the number after it.
#[derive(Clone, Copy, Debug)]
pub(crate) struct Cut {
    pub(crate) dim: u8,
    pub(crate) at: u32,
}

/// The packets whose number in each of seven dimensions lies in a range. The dimensions are source and destination
/// address, protocol, source and destination port, ICMP type and ICMP code, in this order. No range is empty.
#[derive(Clone, Copy, Debug)]
pub struct Region {
    spans: [Span; 7],
}

impl Model for Region {
    ghost use Rattle.std.specs.Prelude.{List, IsTrue};
    ghost use Rattle.asa_shadow.specs.declared.region.Span.{Span};
    ghost use Rattle.asa_shadow.specs.Regions.{is_region};

    ghost Value = { List Span };

    ghost view = { λ r. r.spans };

    ghost invariant = { λ r. IsTrue (is_region r.spans) };

    ghost inverse = { λ v. record { spans = v } };
}

/// Whether two ranges have a number in common.
fn overlap(own: Span, other: Span) -> bool
    ensures { result ≡ spec.overlap own other }
{
    own.low <= other.high && other.low <= own.high
}

/// Whether the first range has all numbers of the second.
fn surrounds(own: Span, other: Span) -> bool
    ensures { result ≡ spec.surrounds own other }
{
    own.low <= other.low && other.high <= own.high
}

/// A stated number, or all from a least to 255.
fn stated_or_from(least: u32, stated: Option<u8>) -> Span
    requires { least ≤ 1 }
    ensures value { result ≡ spec.stated_or_from least stated }
    ensures some { result.low ≤ result.high }
    ensures most { result.high ≤ 255 }
{
    match stated {
        None => Span {
            low: least,
            high: 255,
        },
        Some(number) => Span {
            low: u32::from(number),
            high: u32::from(number),
        },
    }
}

fn of_addresses(range: Range) -> Span
    ensures value { result ≡ spec.of_addresses range }
    ensures some { result.low ≤ result.high }
    ensures most { result.high ≤ 4294967295 }
{
    Span {
        low: range.first.0,
        high: range.last.0,
    }
}

fn of_ports(range: PortRange) -> Span
    ensures value { result ≡ spec.of_ports range }
    ensures some { result.low ≤ result.high }
    ensures most { result.high ≤ 65535 }
{
    Span {
        low: u32::from(range.first),
        high: u32::from(range.last),
    }
}

impl Region {
    /// The packets of a box. A protocol that isn't stated is 1 to 255.
    pub(crate) fn of_box(line_box: &LineBox) -> Region
        ensures { result ≡ spec.region_of line_box.now }
    {
        let service = &line_box.service;
        Region {
            spans: [
                of_addresses(line_box.source),
                of_addresses(line_box.dest),
                stated_or_from(1, service.proto),
                of_ports(service.sport),
                of_ports(service.dport),
                stated_or_from(0, service.itype),
                stated_or_from(0, service.icode),
            ],
        }
    }

    /// The range in each dimension: source and destination address, protocol, source and destination port, ICMP type and
    /// ICMP code.
    pub fn spans(&self) -> &[Span]
        ensures { result.now ≡ self.now }
    {
        &self.spans
    }

    /// Tells the prover that there are seven ranges, and that none of them is empty; it does nothing.
    pub(crate) fn tell(&self)
        ensures { spec.is_region self.now ≡ true }
    {
        let _ = &self.spans;
    }

    /// Whether the two regions have a packet in common.
    pub(crate) fn meets(&self, other: &Region) -> bool
        ensures { result ≡ spec.meets self.now other.now }
    {
        for i in 0..DIMENSIONS {
            if !overlap(self.spans[i], other.spans[i]) {
                return false;
            }
        }
        true
    }

    /// Whether the region has all packets of the other.
    pub(crate) fn contains(&self, other: &Region) -> bool
        ensures { result ≡ spec.contains self.now other.now }
    {
        for i in 0..DIMENSIONS {
            if !surrounds(self.spans[i], other.spans[i]) {
                return false;
            }
        }
        true
    }

    /// The range in a dimension, from 1 to 7.
    pub(crate) fn span_in(&self, dim: u8) -> Span
        requires low { 1 ≤ dim }
        requires high { dim ≤ 7 }
        ensures { result ≡ spec.span_in self.now dim }
    {
        self.spans[usize::from(dim) - 1]
    }

    /// Whether the cut has numbers of the region on both sides.
    pub(crate) fn is_inside(&self, cut: Cut) -> bool
        ensures { result ≡ spec.is_inside self.now cut }
    {
        if cut.dim < 1 || cut.dim > 7 {
            return false;
        }
        let span = self.span_in(cut.dim);
        span.low <= cut.at && cut.at < span.high
    }

    /// The part up to a cut.
    #[tactic(auto, using(crate::proofs::RegionLaws::region_lower))]
    pub(crate) fn lower(&self, cut: Cut) -> Region
        requires { IsTrue (spec.is_inside self.now cut) }
        ensures { result ≡ spec.lower self.now cut }
    {
        let span = self.span_in(cut.dim);
        let mut spans = self.spans;
        spans[usize::from(cut.dim) - 1] = Span {
            low: span.low,
            high: cut.at,
        };
        Region { spans }
    }

    /// The part above a cut.
    #[tactic(auto, using(crate::proofs::RegionLaws::region_upper))]
    pub(crate) fn upper(&self, cut: Cut) -> Region
        requires { IsTrue (spec.is_inside self.now cut) }
        ensures { result ≡ spec.upper self.now cut }
    {
        let span = self.span_in(cut.dim);
        let mut spans = self.spans;
        spans[usize::from(cut.dim) - 1] = Span {
            low: cut.at + 1,
            high: span.high,
        };
        Region { spans }
    }

    /// The first bound of a box that crosses the region: by dimension, and the lower bound before the upper.
    fn first_cut(&self, line_box: &Region) -> Option<Cut>
        ensures { result ≡ cut_of line_box.now self.now }
    {
        for i in 0..DIMENSIONS {
            let (own, other) = (self.spans[i], line_box.spans[i]);
            let dim = i as u8 + 1;
            if own.low < other.low {
                return Some(Cut {
                    dim,
                    at: other.low - 1,
                });
            }
            if other.high < own.high {
                return Some(Cut {
                    dim,
                    at: other.high,
                });
            }
        }
        None
    }

    /// The first bound of a box that crosses the region, which it meets; none where the box contains the region.
    #[tactic(auto, using(crate::proofs::CutLaws::cut_inside))]
    pub(crate) fn cut_by(&self, line_box: &Region) -> Option<Cut>
        requires { spec.meets line_box.now self.now ≡ true }
        ensures value { result ≡ cut_of line_box.now self.now }
        ensures inside { IfSome result (λ c. IsTrue (spec.is_inside self.now c)) }
    {
        // Tells the prover that no range is empty.
        let _ = &self.spans;
        self.first_cut(line_box)
    }

    /// The least number in a dimension, from 1.
    #[tactic(auto, using(crate::proofs::RegionLaws::least_fits))]
    fn least_in(&self, dim: u8) -> u32
        requires low { 1 ≤ dim }
        requires high { dim ≤ 7 }
        ensures value { result ≡ (spec.span_in self.now dim).low }
        ensures fits { result ≤ (spec.span_in spec.everything dim).high }
    {
        // Tells the prover which numbers there are.
        let _ = &self.spans;
        self.span_in(dim).low
    }

    /// The packet of the least numbers.
    pub(crate) fn least(&self) -> Packet
        ensures { result ≡ least_packet self.now }
    {
        Packet {
            ifc: 0,
            proto: self.least_in(3) as u8,
            src: Addr(self.least_in(1)),
            sport: self.least_in(4) as u16,
            dst: Addr(self.least_in(2)),
            dport: self.least_in(5) as u16,
            flags: 0,
            itype: self.least_in(6) as u8,
            icode: self.least_in(7) as u8,
        }
    }
}
