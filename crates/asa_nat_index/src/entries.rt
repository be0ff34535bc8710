//! The entries of a case.
ghost use Rattle.std.specs.Prelude.{◌≡◌, ◌+◌, ◌*◌, ◌≤◌, ◌++◌, ◌||◌, length, filter, IfOk, OnOk};
ghost use Rattle.std.specs.List.{list_any};
ghost use Rattle.asa_text.specs.declared.numbers.Addr.{Addr as Address};
ghost use Rattle.asa_base.specs.Networks.{covers};
ghost use Rattle.asa_base.specs.Prefixes.{prefixes_of_span};
ghost use Rattle.asa_base.specs.Ranges.{span_holds};
ghost use Rattle.asa_base.specs.declared.flow.Packet.{Packet as AnyPacket};
ghost use Rattle.asa_nat_rules.specs.Pairs.{case_pairs};
ghost use Rattle.asa_pair_trie.specs.Pairs.{covers_both, first_of, lesser};
ghost use Rattle.asa_nat_index.specs.Entries.{dest_entries, pair_entries, rank_if};
ghost use Rattle.asa_nat_index.specs.Matches as spec;

use arrayvec::ArrayVec;
use asa_base::{Prefix, Range, Service, prefixes_of};
use asa_nat_rules::Case;
use asa_pair_trie::Entry;
use asa_text::Items;
use std::alloc::{AllocError, Global};

/// The protocol and the ports of a case.
pub(crate) fn service_of(case: &Case) -> Service
    ensures { result ≡ spec.service_of case.now }
{
    Service {
        proto: case.proto,
        sport: case.sport,
        dport: case.dport,
        itype: None,
        icode: None,
    }
}

/// Appends networks.
fn push_blocks(networks: &mut Items<Prefix>, blocks: &[Prefix]) -> Result<(), AllocError>
    ensures { OnOk result (networks.new ≡ networks.old ++ blocks.now) }
{
    for block in blocks {
        networks.push(*block)?;
    }
    Ok(())
}

/// Appends the networks of a range.
#[tactic(auto, using(crate::proofs::EntryLaws::any_append))]
fn push_networks(networks: &mut Items<Prefix>, range: Range) -> Result<(), AllocError>
    ensures value { OnOk result (networks.new ≡ networks.old ++ prefixes_of_span range) }
    ensures holds { OnOk result ((a : Address) → list_any (λ n. covers n a) networks.new ≡ (list_any (λ n. covers n a) networks.old || span_holds range a)) }
{
    let mut blocks = ArrayVec::new();
    prefixes_of(range, &mut blocks);
    push_blocks(networks, blocks.as_slice())?;
    Ok(())
}

/// The networks of ranges: an address lies in the ranges exactly where one of the networks covers it.
fn networks_of(alloc: Global, ranges: &[Range]) -> Result<Items<Prefix>, AllocError>
    ensures value { IfOk result (λ ns. ns ≡ spec.networks_of ranges.now) }
    ensures holds { IfOk result (λ ns. (a : Address) → list_any (λ n. covers n a) ns ≡ spec.lies_in a ranges.now) }
{
    let mut networks = Items::new(alloc);
    for range in ranges {
        push_networks(&mut networks, *range)?;
    }
    Ok(networks)
}

/// Appends the entries of one source network.
fn push_dests(
    out: &mut Items<Entry>,
    source: Prefix,
    dests: &[Prefix],
    service: &Service,
    rank: u32,
) -> Result<(), AllocError>
    ensures { OnOk result (out.new ≡ out.old ++ dest_entries source dests.now service.now rank) }
{
    for dest in dests {
        out.push(Entry {
            source,
            dest: *dest,
            service: *service,
            rank,
        })?;
    }
    Ok(())
}

/// Appends the entries of source networks.
fn push_pairs(
    out: &mut Items<Entry>,
    sources: &[Prefix],
    dests: &[Prefix],
    service: &Service,
    rank: u32,
) -> Result<(), AllocError>
    ensures { OnOk result (out.new ≡ out.old ++ pair_entries sources.now dests.now service.now rank) }
{
    for source in sources {
        push_dests(out, *source, dests, service, rank)?;
    }
    Ok(())
}

/// Appends the entries of a case: one for each network of its sources and each of its destinations.
pub(crate) fn push_case(
    alloc: Global,
    out: &mut Items<Entry>,
    case: &Case,
    rank: u32,
) -> Result<(), AllocError>
    ensures first { OnOk result ((p : AnyPacket) → first_of out.new p ≡ lesser (first_of out.old p) (rank_if (spec.fits p case.now) rank)) }
    ensures covering { OnOk result ((p : AnyPacket) → length (filter (covers_both p) out.new) ≡ length (filter (covers_both p) out.old) + spec.case_covering p case.now) }
    ensures longer { OnOk result (length out.new ≡ length out.old + case_pairs case.now) }
{
    let sources = networks_of(alloc, case.source.as_slice())?;
    let dests = networks_of(alloc, case.dest.as_slice())?;
    push_pairs(
        out,
        sources.as_slice(),
        dests.as_slice(),
        &service_of(case),
        rank,
    )?;
    Ok(())
}
