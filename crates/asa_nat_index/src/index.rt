//! The index of the cases.
ghost use Rattle.std.specs.Prelude.{◌≡◌, ℕ, ◌+◌, ◌≤◌, ◌<◌, length, IfOk};
ghost use Rattle.std.specs.List.{All};
ghost use Rattle.asa_base.specs.declared.flow.Packet.{Packet as AnyPacket};
ghost use Rattle.asa_nat_index.specs.Index as index;
ghost use Rattle.asa_nat_index.specs.Matches as spec;

use crate::part::{Part, dest_key, pair_key};
use crate::shelves::shelved;
use crate::tries::{compiled, first_at, lesser};
use asa_base::{Counter, NatPlace, Packet};
use asa_nat_rules::Case;
use asa_pair_trie::PairTrie;
use std::alloc::{AllocError, Global};
use std::marker::Model;

/// The cases of NAT rules compiled for look-ups. Contracts see the entries at each place; `build` says that they mean what
/// the cases mean that they were compiled from.
#[derive(Debug, Drop)]
pub struct NatIndex {
    /// Destination cases, by their input.
    dests: Vec<PairTrie>,
    /// Source cases, by their input and egress.
    sources: Vec<PairTrie>,
}

impl Model for NatIndex {
    ghost use Rattle.asa_nat_index.specs.Index.{Index};

    ghost Value = { Index };

    ghost view = { λ n. record { dests = n.dests.items; sources = n.sources.items } };
}

impl NatIndex {
    /// Compiles the cases of all active rules, in the order of the rules. There are at most 16,384 cases with at most
    /// 262,144 prefix pairs, and their interfaces are below 64.
    pub fn build(alloc: Global, cases: &[(NatPlace, Case)]) -> Result<NatIndex, AllocError>
        requires few { length cases.now ≤ 16384 }
        requires pairs { spec.pairs_of cases.now ≤ 262144 }
        requires narrow { All spec.IsNarrow cases.now }
        ensures destination { IfOk result (λ n. (p : AnyPacket) → index.dest_in n.dests p ≡ spec.destination cases.now p) }
        ensures source { IfOk result (λ n. (p : AnyPacket) (egress : ℕ) → egress < 64 → index.source_in n.sources p egress ≡ spec.source cases.now p egress) }
        ensures destination_reads { IfOk result (λ n. (p : AnyPacket) → index.dest_read n.dests p ≡ spec.destination_covering cases.now p) }
        ensures source_reads { IfOk result (λ n. (p : AnyPacket) (egress : ℕ) → egress < 64 → index.source_read n.sources p egress ≡ spec.source_covering cases.now p egress) }
    {
        let dest_entries = shelved(alloc, Part::Dest, cases)?;
        let dests = compiled(alloc, &dest_entries)?;
        let source_entries = shelved(alloc, Part::Source, cases)?;
        let sources = compiled(alloc, &source_entries)?;
        Ok(NatIndex { dests, sources })
    }

    /// The index, from 0, of the first case for the packet's destination, or None where there is none. It asks the cases
    /// from any interface and those from the packet's, and takes no memory.
    #[tactic(auto, unfolding(crate::specs::Index::dest_in, crate::specs::Index::dest_read))]
    pub fn destination(&self, p: &Packet, c: &mut Counter) -> Option<u32>
        ensures value { result ≡ index.dest_in self.now.dests p.now }
        ensures reads { c.new ≤ c.old + 2244 + index.dest_read self.now.dests p.now }
    {
        let any = first_at(&self.dests, dest_key(None), p, c);
        let own = first_at(&self.dests, dest_key(Some(p.ifc)), p, c);
        lesser(any, own)
    }

    /// The lesser of the ranks of cases from one interface to any, and to the egress.
    fn source_from(&self, from: Option<u8>, p: &Packet, egress: u8, c: &mut Counter) -> Option<u32>
        ensures value { result ≡ index.source_from self.now.sources from p.now egress }
        ensures reads { c.new ≤ c.old + 2244 + index.source_read_from self.now.sources from p.now egress }
    {
        let any = first_at(&self.sources, pair_key(from, None), p, c);
        let own = first_at(&self.sources, pair_key(from, Some(egress)), p, c);
        lesser(any, own)
    }

    /// The index, from 0, of the first case for the source of a packet that goes out of `egress`, or None where there is
    /// none. It asks the cases from any interface and from the packet's to any and to the egress, and takes no memory.
    #[tactic(auto, unfolding(crate::specs::Index::source_in, crate::specs::Index::source_read))]
    pub fn source(&self, p: &Packet, egress: u8, c: &mut Counter) -> Option<u32>
        ensures value { result ≡ index.source_in self.now.sources p.now egress }
        ensures reads { c.new ≤ c.old + 4488 + index.source_read self.now.sources p.now egress }
    {
        let any = self.source_from(None, p, egress, c);
        let own = self.source_from(Some(p.ifc), p, egress, c);
        lesser(any, own)
    }
}
