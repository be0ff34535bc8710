//! Entries at the places of their cases' interfaces.
ghost use Rattle.std.specs.Prelude.{◌≡◌, ℕ, ◌+◌, ◌≤◌, ◌<◌, ◌&&◌, ◌==◌, length, sum_by, IfOk, OnOk};
ghost use Rattle.std.specs.List.{position_from};
ghost use Rattle.asa_base.specs.declared.flow.Packet.{Packet as AnyPacket};
ghost use Rattle.asa_nat_rules.specs.Pairs.{case_pairs};
ghost use Rattle.asa_pair_trie.specs.Pairs.{lesser};
ghost use Rattle.asa_nat_index.specs.Entries.{rank_if};
ghost use Rattle.asa_nat_index.specs.Index.{shelf, first_on, covering_on};
ghost use Rattle.asa_nat_index.specs.Matches as spec;
ghost use Rattle.asa_nat_index.specs.Shelves as shelves;

use crate::entries::push_case;
use crate::part::{Part, has_part, key_of};
use asa_base::NatPlace;
use asa_nat_rules::Case;
use asa_pair_trie::Entry;
use asa_text::Items;
use std::alloc::{AllocError, Global};

/// Makes room up to a place.
#[tactic(auto, using(crate::proofs::ShelfLaws::shelf_push))]
fn widen(alloc: Global, lists: &mut Vec<Items<Entry>>, key: usize) -> Result<(), AllocError>
    ensures there { OnOk result (key < length lists.new.items) }
    ensures same { OnOk result ((k : ℕ) → shelf lists.new.items k ≡ shelf lists.old.items k) }
{
    while lists.len() <= key {
        lists.push(Items::new(alloc))?;
    }
    Ok(())
}

/// Adds the entries of a case at a place.
fn add(
    alloc: Global,
    lists: &mut Vec<Items<Entry>>,
    key: usize,
    case: &Case,
    rank: u32,
) -> Result<(), AllocError>
    ensures first { OnOk result ((k : ℕ) (p : AnyPacket) → first_on lists.new.items k p ≡ lesser (first_on lists.old.items k p) (rank_if ((key == k) && spec.fits p case.now) rank)) }
    ensures covering { OnOk result ((k : ℕ) (p : AnyPacket) → covering_on lists.new.items k p ≡ covering_on lists.old.items k p + spec.count_if (key == k) (spec.case_covering p case.now)) }
    ensures longer { OnOk result ((k : ℕ) → length (shelf lists.new.items k) ≤ length (shelf lists.old.items k) + case_pairs case.now) }
{
    widen(alloc, lists, key)?;
    push_case(alloc, &mut lists[key], case, rank)?;
    Ok(())
}

/// Adds the entries of a case at its place, if it has the part.
fn add_part(
    alloc: Global,
    part: Part,
    lists: &mut Vec<Items<Entry>>,
    case: &(NatPlace, Case),
    rank: u32,
) -> Result<(), AllocError>
    ensures first { OnOk result ((k : ℕ) (p : AnyPacket) → first_on lists.new.items k p ≡ lesser (first_on lists.old.items k p) (rank_if (shelves.holds_at part k p case.now) rank)) }
    ensures covering { OnOk result ((k : ℕ) (p : AnyPacket) → covering_on lists.new.items k p ≡ covering_on lists.old.items k p + shelves.covering_at part k p case.now) }
    ensures longer { OnOk result ((k : ℕ) → length (shelf lists.new.items k) ≤ length (shelf lists.old.items k) + case_pairs case.now.1) }
{
    if has_part(part, &case.1) {
        add(alloc, lists, key_of(part, &case.1), &case.1, rank)?;
    }
    Ok(())
}

/// The entries of all cases that have the part, at their places. The rank of an entry is the index of its case.
pub(crate) fn shelved(
    alloc: Global,
    part: Part,
    cases: &[(NatPlace, Case)],
) -> Result<Vec<Items<Entry>>, AllocError>
    requires { length cases.now ≤ 16384 }
    ensures first { IfOk result (λ v. (k : ℕ) (p : AnyPacket) → first_on v.items k p ≡ position_from (shelves.holds_at part k p) 0 cases.now) }
    ensures covering { IfOk result (λ v. (k : ℕ) (p : AnyPacket) → covering_on v.items k p ≡ sum_by (shelves.covering_at part k p) cases.now) }
    ensures few { IfOk result (λ v. (k : ℕ) → length (shelf v.items k) ≤ spec.pairs_of cases.now) }
{
    let mut lists = Vec::new(alloc);
    for (rank, case) in cases.iter().enumerate() {
        add_part(alloc, part, &mut lists, case, rank as u32)?;
    }
    Ok(lists)
}
