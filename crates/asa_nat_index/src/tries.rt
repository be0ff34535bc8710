//! Tries at the places of their cases' interfaces.
ghost use Rattle.std.specs.Prelude.{◌≡◌, ℕ, ◌+◌, ◌≤◌, ◌++◌, [], ◌∷◌, length, map, IfOk, OnOk};
ghost use Rattle.asa_base.specs.declared.flow.Packet.{Packet as AnyPacket};
ghost use Rattle.asa_nat_index.specs.Index.{shelf, first_in, first_on, covering_in, covering_on};
ghost use Rattle.asa_pair_trie.specs.Pairs as spec;

use asa_base::{Counter, Packet};
use asa_pair_trie::{Entry, PairTrie};
use asa_text::Items;
use std::alloc::{AllocError, Global};

/// Compiles the entries of one more place.
fn push_trie(alloc: Global, tries: &mut Vec<PairTrie>, entries: &[Entry]) -> Result<(), AllocError>
    requires { length entries.now ≤ 262144 }
    ensures first { OnOk result ((p : AnyPacket) → map (first_in p) tries.new.items ≡ map (first_in p) tries.old.items ++ first_in p entries.now ∷ []) }
    ensures covering { OnOk result ((p : AnyPacket) → map (covering_in p) tries.new.items ≡ map (covering_in p) tries.old.items ++ covering_in p entries.now ∷ []) }
{
    tries.push(PairTrie::build(alloc, entries)?)?;
    Ok(())
}

/// Compiles the entries of each place. A place without entries has an empty trie, which takes no heap.
pub(crate) fn compiled(alloc: Global, lists: &[Items<Entry>]) -> Result<Vec<PairTrie>, AllocError>
    requires { (k : ℕ) → length (shelf lists.now k) ≤ 262144 }
    ensures first { IfOk result (λ v. (p : AnyPacket) → map (first_in p) v.items ≡ map (first_in p) lists.now) }
    ensures covering { IfOk result (λ v. (p : AnyPacket) → map (covering_in p) v.items ≡ map (covering_in p) lists.now) }
{
    let mut tries = Vec::with_capacity(alloc, lists.len())?;
    for list in lists {
        push_trie(alloc, &mut tries, list.as_slice())?;
    }
    Ok(tries)
}

/// The least rank at a place of the entries that hold the packet.
pub(crate) fn first_at(tries: &[PairTrie], key: usize, p: &Packet, c: &mut Counter) -> Option<u32>
    ensures value { result ≡ first_on tries.now key p.now }
    ensures reads { c.new ≤ c.old + 1122 + covering_on tries.now key p.now }
{
    match tries.get(key) {
        None => None,
        Some(trie) => trie.first(p, c),
    }
}

/// The lesser of two ranks, where there are two.
pub(crate) fn lesser(a: Option<u32>, b: Option<u32>) -> Option<u32>
    ensures { result ≡ spec.lesser a b }
{
    match (a, b) {
        (None, b) => b,
        (a, None) => a,
        (Some(a), Some(b)) => Some(a.min(b)),
    }
}
