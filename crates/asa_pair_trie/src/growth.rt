//! Compiles entries: the entries of a block of addresses are divided between its halves, and a node over both halves
//! follows theirs. A block whose entries all lie in one half gets no node of its own.
ghost use Rattle.std.specs.Prelude.{◌≡◌, ℕ, ◌+◌, ◌-◌, ◌*◌, ◌^◌, ◌<◌, ◌≤◌, ◌++◌, ◌∷◌, [], length, IfOk};
ghost use Rattle.std.specs.List.{All};
ghost use Rattle.asa_trie.specs.Bits.{home_of, IsWithin};
ghost use Rattle.asa_pair_trie.specs.Growth.{prefix_by, InnerGrown, OuterGrown};
ghost use Rattle.asa_pair_trie.specs.declared.entries.Side.TheVariants.{Source, Dest};

use crate::arenas::{InnerNode, OuterNode};
use crate::chains::{Chains, add_chain};
use crate::entries::{Entry, Side};
use crate::halves::{heres, highs, home, lows, one_half};
use asa_base::Sealed;
use asa_trie::over;
use std::alloc::{AllocError, Global};

/// Pushes an inner node, and gives the link to it.
fn add_inner(nodes: &mut Vec<Sealed<InnerNode>>, node: InnerNode) -> Result<u32, AllocError>
    requires { length nodes.old.items + 1 < 2 ^ 32 }
    ensures added { IfOk result (λ _. nodes.new.items ≡ nodes.old.items ++ node ∷ []) }
    ensures link { IfOk result (λ at. at ≡ length nodes.new.items) }
{
    nodes.push(Sealed::new(node))?;
    Ok(nodes.len() as u32)
}

/// Pushes an outer node, and gives the link to it.
fn add_outer(nodes: &mut Vec<Sealed<OuterNode>>, node: OuterNode) -> Result<u32, AllocError>
    requires { length nodes.old.items + 1 < 2 ^ 32 }
    ensures added { IfOk result (λ _. nodes.new.items ≡ nodes.old.items ++ node ∷ []) }
    ensures link { IfOk result (λ at. at ≡ length nodes.new.items) }
{
    nodes.push(Sealed::new(node))?;
    Ok(nodes.len() as u32)
}

/// Compiles by their destinations the entries of one block of level `levels - 1`, and gives the link to its root.
fn grow_inner(
    alloc: Global,
    nodes: &mut Vec<Sealed<InnerNode>>,
    chains: &mut Chains,
    levels: u8,
    entries: Vec<Entry>,
) -> Result<u32, AllocError>
    requires few { levels ≤ 33 }
    requires within { All (λ e. IsWithin levels (home_of (prefix_by Dest) entries.items) (prefix_by Dest e)) entries.items }
    requires room { length nodes.old.items + 2 * length entries.items < 2 ^ 32 }
    requires slots { length chains.old + length entries.items < 2 ^ 32 }
    ensures { IfOk result (λ at. InnerGrown chains.old chains.new nodes.old.items nodes.new.items at levels entries.items) }
{
    if entries.is_empty() {
        return Ok(0);
    }
    let level = levels - 1;
    if one_half(Side::Dest, &entries, level) {
        return grow_inner(alloc, nodes, chains, level, entries);
    }
    let prefix = over(home(Side::Dest, &entries), level);
    let here = heres(alloc, Side::Dest, &entries, level)?;
    let low = lows(alloc, Side::Dest, &entries, level)?;
    let high = highs(alloc, Side::Dest, &entries, level)?;
    drop(entries);
    let left = grow_inner(alloc, nodes, chains, level, low)?;
    let right = grow_inner(alloc, nodes, chains, level, high)?;
    let slot = add_chain(chains, here)?;
    let node = InnerNode {
        prefix,
        left,
        right,
        slot,
    };
    let at = add_inner(nodes, node)?;
    Ok(at)
}

/// Compiles by their sources the entries of one block of level `levels - 1`, and gives the link to its root.
pub(crate) fn grow_outer(
    alloc: Global,
    nodes: &mut Vec<Sealed<OuterNode>>,
    inner: &mut Vec<Sealed<InnerNode>>,
    chains: &mut Chains,
    levels: u8,
    entries: Vec<Entry>,
) -> Result<u32, AllocError>
    requires few { levels ≤ 33 }
    requires within { All (λ e. IsWithin levels (home_of (prefix_by Source) entries.items) (prefix_by Source e)) entries.items }
    requires dests { All (λ e. (prefix_by Dest e).addr.0 < 2 ^ 32) entries.items }
    requires room { length nodes.old.items + 2 * length entries.items < 2 ^ 32 }
    requires inners { length inner.old.items + 2 * length entries.items < 2 ^ 32 }
    requires slots { length chains.old + length entries.items < 2 ^ 32 }
    ensures { IfOk result (λ at. OuterGrown chains.old chains.new inner.old.items inner.new.items nodes.old.items nodes.new.items at levels entries.items) }
{
    if entries.is_empty() {
        return Ok(0);
    }
    let level = levels - 1;
    if one_half(Side::Source, &entries, level) {
        return grow_outer(alloc, nodes, inner, chains, level, entries);
    }
    let prefix = over(home(Side::Source, &entries), level);
    let here = heres(alloc, Side::Source, &entries, level)?;
    let low = lows(alloc, Side::Source, &entries, level)?;
    let high = highs(alloc, Side::Source, &entries, level)?;
    drop(entries);
    let left = grow_outer(alloc, nodes, inner, chains, level, low)?;
    let right = grow_outer(alloc, nodes, inner, chains, level, high)?;
    let root = grow_inner(alloc, inner, chains, 33, here)?;
    let node = OuterNode {
        prefix,
        left,
        right,
        inner: root,
    };
    let at = add_outer(nodes, node)?;
    Ok(at)
}
