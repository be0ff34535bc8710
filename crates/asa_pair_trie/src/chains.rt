//! Chains of entries with the same two prefixes, by rising rank.
ghost use Rattle.std.specs.Prelude.{◌≡◌, ℕ, ◌+◌, ◌^◌, ◌<◌, ◌≤◌, ◌++◌, ◌∷◌, [], length, IfOk, OnOk, Some};
ghost use Rattle.std.specs.List.Sorted.{IsPermutation, IsNonDecreasingBy};
ghost use Rattle.asa_trie.specs.Tries.{node_at};
ghost use Rattle.asa_pair_trie.specs.Lookup.{IsRising};
ghost use Rattle.asa_pair_trie.specs.Growth.{ChainGrown};
ghost use Rattle.asa_pair_trie.specs.declared.arenas.Slot.{Slot};

use crate::arenas::Slot;
use crate::entries::Entry;
use asa_base::Sealed;
use std::alloc::{AllocError, Global};
use std::marker::Model;

/// The slots while they are filled. Along each chain the ranks never fall.
#[derive(Debug, Drop)]
pub(crate) struct Chains {
    entries: Vec<Sealed<Slot>>,
}

impl Model for Chains {
    ghost use Rattle.std.specs.Prelude.{List};
    ghost use Rattle.asa_pair_trie.specs.declared.arenas.Slot.{Slot};
    ghost use Rattle.asa_pair_trie.specs.Lookup.{IsRising};

    ghost Value = { List Slot };

    ghost view = { λ c. c.entries.items };

    ghost invariant = { λ c. IsRising c.entries.items };
}

impl Chains {
    /// No slots.
    pub(crate) fn new(alloc: Global) -> Chains
        ensures { result ≡ [] }
    {
        Chains {
            entries: Vec::new(alloc),
        }
    }

    /// Adds a slot, and gives the link to it.
    fn push(&mut self, slot: Slot) -> Result<u32, AllocError>
        requires before { slot.next ≤ length self.old }
        requires rises { (t : Slot) → node_at self.old slot.next ≡ Some t → slot.entry.rank ≤ t.entry.rank }
        requires room { length self.old + 1 < 2 ^ 32 }
        ensures added { IfOk result (λ _. self.new ≡ self.old ++ slot ∷ []) }
        ensures link { IfOk result (λ at. at ≡ length self.new) }
    {
        self.entries.push(Sealed::new(slot))?;
        Ok(self.entries.len() as u32)
    }

    /// The slots.
    pub(crate) fn into_slots(self) -> Vec<Sealed<Slot>>
        ensures slots { result.items ≡ self }
        ensures rising { IsRising self }
    {
        let Chains { entries } = self;
        entries
    }
}

/// Puts entries in the order of their ranks.
fn by_rank(entries: &mut Vec<Entry>) -> Result<(), AllocError>
    ensures same { IsPermutation entries.old.items entries.new.items }
    ensures rising { OnOk result (IsNonDecreasingBy (λ e. e.rank) entries.new.items) }
{
    entries.sort_by_key(|entry| entry.rank)?;
    Ok(())
}

/// Adds the slots of entries whose ranks never fall, from the last to the first, and gives the link to the first.
fn add_rising(chains: &mut Chains, entries: &[Entry]) -> Result<u32, AllocError>
    requires rising { IsNonDecreasingBy (λ e. e.rank) entries.now }
    requires room { length chains.old + length entries.now < 2 ^ 32 }
    ensures { IfOk result (λ at. ChainGrown chains.old chains.new at entries.now) }
{
    let mut at = 0;
    let mut k = entries.len();
    while k > 0 {
        k -= 1;
        let entry = entries[k];
        at = chains.push(Slot { entry, next: at })?;
    }
    Ok(at)
}

/// Adds the slots of the entries, and gives the link to the first of the chain.
pub(crate) fn add_chain(chains: &mut Chains, mut entries: Vec<Entry>) -> Result<u32, AllocError>
    requires { length chains.old + length entries.items < 2 ^ 32 }
    ensures { IfOk result (λ at. ChainGrown chains.old chains.new at entries.items) }
{
    by_rank(&mut entries)?;
    let at = add_rising(chains, &entries)?;
    Ok(at)
}
