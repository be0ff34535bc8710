//! Nodes and slots. A link is 0 for none, and else a place in the list plus 1.
ghost use Rattle.std.specs.Prelude.{◌≡◌, ◌+◌, ◌≤◌, length, filter, IfOk};
ghost use Rattle.std.specs.List.Sorted.{IsPermutation};
ghost use Rattle.asa_pair_trie.specs.Pairs.{covers_both, first_of};

use crate::chains::Chains;
use crate::entries::Entry;
use crate::growth::grow_outer;
use crate::halves::copied;
use crate::lookup::first_of_outer;
use asa_base::{Counter, Packet, Prefix, Sealed};
use std::alloc::{AllocError, Global};
use std::marker::Model;

/// A source prefix with the trie of its destinations, and the longer source prefixes within it.
#[derive(Clone, Copy, Debug)]
pub struct OuterNode {
    pub prefix: Prefix,
    /// The link to the prefixes in the lower half.
    pub left: u32,
    /// The link to the prefixes in the upper half.
    pub right: u32,
    /// The link to the root of the destinations' trie; 0 where no entry has just this source.
    pub inner: u32,
}

/// A destination prefix with the entries that have it, and the longer destination prefixes within it.
#[derive(Clone, Copy, Debug)]
pub struct InnerNode {
    pub prefix: Prefix,
    /// The link to the prefixes in the lower half.
    pub left: u32,
    /// The link to the prefixes in the upper half.
    pub right: u32,
    /// The link to the first of the entries with both prefixes; 0 where there are none.
    pub slot: u32,
}

/// An entry, and the next one with the same two prefixes.
#[derive(Clone, Copy, Debug)]
pub struct Slot {
    pub entry: Entry,
    /// The link to the next slot, whose rank is no smaller.
    pub next: u32,
}

/// Entries compiled for look-ups. Contracts see the entries alone, in an order of no meaning.
#[derive(Debug, Drop)]
pub struct PairTrie {
    outer: Vec<Sealed<OuterNode>>,
    inner: Vec<Sealed<InnerNode>>,
    entries: Vec<Sealed<Slot>>,
}

impl Model for PairTrie {
    ghost use Rattle.std.specs.Prelude.{List};
    ghost use Rattle.asa_pair_trie.specs.declared.entries.Entry.{Entry};
    ghost use Rattle.asa_pair_trie.specs.Lookup.{entries_in, IsPairTrie};

    ghost Value = { List Entry };

    ghost view = { λ t. entries_in t.entries.items };

    ghost invariant = { λ t. IsPairTrie (record { outer = t.outer.items; inner = t.inner.items; slots = t.entries.items }) };
}

impl PairTrie {
    /// Compiles entries.
    pub fn build(alloc: Global, entries: &[Entry]) -> Result<PairTrie, AllocError>
        requires { length entries.now ≤ 262144 }
        ensures { IfOk result (λ t. IsPermutation entries.now t) }
    {
        let entries = copied(alloc, entries)?;
        let mut outer = Vec::new(alloc);
        let mut inner = Vec::new(alloc);
        let mut chains = Chains::new(alloc);
        let _root = grow_outer(alloc, &mut outer, &mut inner, &mut chains, 33, entries)?;
        Ok(PairTrie {
            outer,
            inner,
            entries: chains.into_slots(),
        })
    }

    /// The least rank among the entries that hold the packet; None exactly where none does. It reads at most 1,122 nodes
    /// beside the entries that cover the packet's addresses, and takes no memory.
    pub fn first(&self, p: &Packet, c: &mut Counter) -> Option<u32>
        ensures value { result ≡ first_of self.now p.now }
        ensures reads { c.new ≤ c.old + 1122 + length (filter (covers_both p.now) self.now) }
    {
        first_of_outer(
            self.outer.as_slice(),
            self.inner.as_slice(),
            self.entries.as_slice(),
            p,
            c,
        )
    }
}
