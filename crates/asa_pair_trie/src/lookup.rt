//! The look-up of a packet.
ghost use Rattle.std.specs.Prelude.{◌≡◌, ℕ, ◌+◌, ◌-◌, ◌*◌, ◌^◌, ◌<◌, ◌≤◌, length, Option};
ghost use Rattle.std.specs.Option.{option_copied};
ghost use Rattle.asa_trie.specs.Tries.{node_at, child, covering, walk};
ghost use Rattle.asa_pair_trie.specs.Pairs.{lesser};
ghost use Rattle.asa_pair_trie.specs.Lookup as spec;

use crate::arenas::{InnerNode, OuterNode, Slot};
use asa_base::{Addr, Counter, Packet, Prefix, Sealed};
use asa_trie::{bit_below, covers, height};

/// The link to the half of the prefix's block that has the address.
fn half(prefix: Prefix, left: u32, right: u32, a: Addr) -> u32
    ensures { result ≡ spec.half prefix left right a.0 }
{
    if bit_below(height(prefix), a) {
        right
    } else {
        left
    }
}

/// The slot of a link, which is read at the price of a tick.
fn slot_at<'a>(slots: &'a [Sealed<Slot>], at: u32, c: &mut Counter) -> Option<&'a Slot>
    ensures value { option_copied result ≡ node_at slots.now at }
    ensures reads { c.new ≤ c.old + spec.ticks (node_at slots.now at) }
{
    if at == 0 {
        return None;
    }
    match slots.get(at as usize - 1) {
        None => None,
        Some(slot) => Some(slot.read(c)),
    }
}

/// Whether a rank is less than the least one so far.
fn precedes(rank: u32, best: Option<u32>) -> bool
    ensures { result ≡ spec.precedes rank best }
{
    match best {
        None => true,
        Some(least) => rank < least,
    }
}

/// The lesser of the best rank so far and the least one of a chain. It goes along the chain up to the first slot that
/// holds the packet, or whose rank isn't less than the best one: no later slot has a smaller rank.
fn first_of_chain(
    slots: &[Sealed<Slot>],
    first: u32,
    p: &Packet,
    best: Option<u32>,
    c: &mut Counter,
) -> Option<u32>
    requires { spec.IsRising slots.now }
    ensures value { result ≡ lesser best (spec.chain slots.now p.now first first).rank }
    ensures reads { c.new ≤ c.old + (spec.chain slots.now p.now first first).read }
{
    let mut at = first;
    while let Some(slot) = slot_at(slots, at, c) {
        if !precedes(slot.entry.rank, best) {
            return best;
        }
        if slot.entry.service.holds(p) {
            return Some(slot.entry.rank);
        }
        at = slot.next;
    }
    best
}

/// The node of a link if it covers the address, which is read at the price of a tick.
fn inner_at(nodes: &[Sealed<InnerNode>], at: u32, a: Addr, c: &mut Counter) -> Option<InnerNode>
    ensures value { result ≡ covering spec.inner_links nodes.now at a.0 }
    ensures reads { c.new ≤ c.old + 1 }
{
    if at == 0 {
        return None;
    }
    match nodes.get(at as usize - 1) {
        None => None,
        Some(node) => {
            let node = *node.read(c);
            if covers(node.prefix, a) {
                Some(node)
            } else {
                None
            }
        }
    }
}

/// The node of a link if it covers the address, which is read at the price of a tick.
fn outer_at(nodes: &[Sealed<OuterNode>], at: u32, a: Addr, c: &mut Counter) -> Option<OuterNode>
    ensures value { result ≡ covering spec.outer_links nodes.now at a.0 }
    ensures reads { c.new ≤ c.old + 1 }
{
    if at == 0 {
        return None;
    }
    match nodes.get(at as usize - 1) {
        None => None,
        Some(node) => {
            let node = *node.read(c);
            if covers(node.prefix, a) {
                Some(node)
            } else {
                None
            }
        }
    }
}

/// The lesser of the best rank so far and the least one of a trie of destinations.
fn first_of_inner(
    nodes: &[Sealed<InnerNode>],
    slots: &[Sealed<Slot>],
    root: u32,
    p: &Packet,
    best: Option<u32>,
    c: &mut Counter,
) -> Option<u32>
    requires { spec.IsRising slots.now }
    ensures value { result ≡ lesser best (spec.inner_found slots.now nodes.now p.now root).rank }
    ensures reads { c.new ≤ c.old + 33 + (spec.inner_found slots.now nodes.now p.now root).read }
{
    let mut best = best;
    let mut at = root;
    for _ in 0..33u8 {
        match inner_at(nodes, at, p.dst, c) {
            None => return best,
            Some(node) => {
                best = first_of_chain(slots, node.slot, p, best, c);
                at = half(node.prefix, node.left, node.right, p.dst);
            }
        }
    }
    best
}

/// The least rank of the trie of sources.
pub(crate) fn first_of_outer(
    outer: &[Sealed<OuterNode>],
    nodes: &[Sealed<InnerNode>],
    slots: &[Sealed<Slot>],
    p: &Packet,
    c: &mut Counter,
) -> Option<u32>
    requires rising { spec.IsRising slots.now }
    requires few { length outer.now < 2 ^ 32 }
    ensures value { result ≡ (spec.found (record { outer = outer.now; inner = nodes.now; slots = slots.now }) p.now).rank }
    ensures reads { c.new ≤ c.old + 1122 + (spec.found (record { outer = outer.now; inner = nodes.now; slots = slots.now }) p.now).read }
{
    let mut best = None;
    let mut at = outer.len() as u32;
    for _ in 0..33u8 {
        match outer_at(outer, at, p.src, c) {
            None => return best,
            Some(node) => {
                best = first_of_inner(nodes, slots, node.inner, p, best, c);
                at = half(node.prefix, node.left, node.right, p.src);
            }
        }
    }
    best
}
