//! The entries that stand for boxes.
ghost use Rattle.std.specs.Prelude.{◌≡◌, ◌+◌, ◌*◌, ◌≤◌, ◌<◌, ◌&&◌, [], ◌∷◌, ◌++◌, length, IfOk, OnOk};
ghost use Rattle.std.specs.List.{list_any};
ghost use Rattle.asa_base.specs.declared.flow.Packet.{Packet as AnyPacket};
ghost use Rattle.asa_base.specs.Boxes.{box_holds, service_holds};
ghost use Rattle.asa_base.specs.Networks.{covers};
ghost use Rattle.asa_access_entries.specs.Matches as spec;

use arrayvec::ArrayVec;
use asa_base::{LineBox, Prefix, prefixes_of};
use asa_pair_trie::Entry;
use asa_text::Items;
use std::alloc::{AllocError, Global};
use std::marker::Model;

/// Entries with their list lines, each of which tells whether it permits. The rank of each is its place, from 0, and there
/// are at most 262,144.
#[derive(Debug, Drop)]
pub struct Ranked {
    entries: Items<(Entry, u32, bool)>,
}

impl Model for Ranked {
    ghost use Rattle.std.specs.Prelude.{List, ◌≤◌, length};
    ghost use Rattle.asa_access_entries.specs.Matches.{Placed, IsRanked};

    ghost Value = { List Placed };

    ghost view = { λ r. r.entries };

    ghost invariant = { λ r. (length r.entries ≤ 262144) × IsRanked r.entries };
}

impl Ranked {
    /// No entry; takes no memory.
    fn new(alloc: Global) -> Ranked
        ensures { result ≡ [] }
    {
        Ranked {
            entries: Items::new(alloc),
        }
    }

    /// The entries in their order.
    pub fn as_slice(&self) -> &[(Entry, u32, bool)]
        ensures value { result.now ≡ self.now }
        ensures ranked { spec.IsRanked self.now }
        ensures few { length self.now ≤ 262144 }
    {
        self.entries.as_slice()
    }

    /// Appends the entry of a box for one prefix of its source and one of its destination.
    #[tactic(auto, using(crate::proofs::MatchLaws::match_push, crate::proofs::MatchLaws::covering_push))]
    fn push(&mut self, b: &LineBox, source: Prefix, dest: Prefix) -> Result<(), AllocError>
        requires { length self.old < 262144 }
        ensures first { OnOk result ((p : AnyPacket) → spec.first_match self.new p ≡ spec.or_else (spec.first_match self.old p)
            (spec.line_if (covers source p.src && covers dest p.dst && service_holds b.now.service p) b.now.line b.now.permit)) }
        ensures covering { OnOk result ((p : AnyPacket) → spec.entries_covering p self.new ≡ spec.entries_covering p self.old + spec.count_if (covers source p.src && covers dest p.dst) 1) }
        ensures longer { OnOk result (length self.new ≡ length self.old + 1) }
    {
        let entry = Entry {
            source,
            dest,
            service: b.service,
            rank: self.entries.len() as u32,
        };
        self.entries.push((entry, b.line, b.permit))
    }

    /// Appends the entries of a box for one prefix of its source.
    #[tactic(auto, using(crate::proofs::MatchLaws::dest_step, crate::proofs::MatchLaws::dest_end, crate::proofs::MatchLaws::dest_count))]
    fn push_dests(
        &mut self,
        b: &LineBox,
        source: Prefix,
        dests: &[Prefix],
    ) -> Result<(), AllocError>
        requires { length self.old + length dests.now ≤ 262144 }
        ensures first { OnOk result ((p : AnyPacket) → spec.first_match self.new p ≡ spec.or_else (spec.first_match self.old p)
            (spec.line_if (covers source p.src && list_any (λ d. covers d p.dst) dests.now && service_holds b.now.service p) b.now.line b.now.permit)) }
        ensures covering { OnOk result ((p : AnyPacket) → spec.entries_covering p self.new ≡ spec.entries_covering p self.old + spec.count_if (covers source p.src) (spec.covering p.dst dests.now)) }
        ensures longer { OnOk result (length self.new ≡ length self.old + length dests.now) }
    {
        for dest in dests {
            self.push(b, source, *dest)?;
        }
        Ok(())
    }

    /// Appends the entries of a box for prefixes of its source and of its destination.
    #[tactic(auto, using(crate::proofs::MatchLaws::source_step, crate::proofs::MatchLaws::or_else_none, crate::proofs::MatchLaws::source_count))]
    fn push_pairs(
        &mut self,
        b: &LineBox,
        sources: &[Prefix],
        dests: &[Prefix],
    ) -> Result<(), AllocError>
        requires { length self.old + length sources.now * length dests.now ≤ 262144 }
        ensures first { OnOk result ((p : AnyPacket) → spec.first_match self.new p ≡ spec.or_else (spec.first_match self.old p)
            (spec.line_if (list_any (λ s. covers s p.src) sources.now && list_any (λ d. covers d p.dst) dests.now && service_holds b.now.service p) b.now.line b.now.permit)) }
        ensures covering { OnOk result ((p : AnyPacket) → spec.entries_covering p self.new ≡ spec.entries_covering p self.old + spec.covering p.src sources.now * spec.covering p.dst dests.now) }
        ensures longer { OnOk result (length self.new ≡ length self.old + length sources.now * length dests.now) }
    {
        for source in sources {
            self.push_dests(b, *source, dests)?;
        }
        Ok(())
    }

    /// Appends the entries of a box.
    #[tactic(auto, unfolding(crate::specs::Matches::box_covering))]
    fn push_box(&mut self, b: &LineBox) -> Result<(), AllocError>
        requires { length self.old + spec.box_pairs b.now ≤ 262144 }
        ensures first { OnOk result ((p : AnyPacket) → spec.first_match self.new p
            ≡ spec.or_else (spec.first_match self.old p) (spec.line_if (box_holds b.now p) b.now.line b.now.permit)) }
        ensures covering { OnOk result ((p : AnyPacket) → spec.entries_covering p self.new ≡ spec.entries_covering p self.old + spec.box_covering p b.now) }
        ensures longer { OnOk result (length self.new ≡ length self.old + spec.box_pairs b.now) }
    {
        let mut sources = ArrayVec::new();
        prefixes_of(b.source, &mut sources);
        let mut dests = ArrayVec::new();
        prefixes_of(b.dest, &mut dests);
        self.push_pairs(b, sources.as_slice(), dests.as_slice())
    }
}

/// The entries of boxes, in order: the first that holds a packet is one of the first box that holds it.
#[tactic(auto, using(crate::proofs::MatchLaws::box_cons, crate::proofs::MatchLaws::or_else_assoc, crate::proofs::MatchLaws::or_else_none))]
pub fn entries_of(alloc: Global, boxes: &[LineBox]) -> Result<Ranked, AllocError>
    requires { spec.pairs_of boxes.now ≤ 262144 }
    ensures first { IfOk result (λ r. (p : AnyPacket) → spec.first_match r p ≡ spec.first_box boxes.now p) }
    ensures covering { IfOk result (λ r. (p : AnyPacket) → spec.entries_covering p r ≡ spec.boxes_covering p boxes.now) }
{
    let mut ranked = Ranked::new(alloc);
    for b in boxes {
        ranked.push_box(b)?;
    }
    Ok(ranked)
}
