//! The compiled routes and the look-up.
ghost use Rattle.std.specs.Prelude.{◌≡◌, ℕ, ◌+◌, ◌≤◌, ◌<◌, ◌^◌, length, IfOk, Some, None};
ghost use Rattle.asa_text.specs.declared.numbers.Addr.{Addr};
ghost use Rattle.asa_fib.specs.Routes.{route_of};
ghost use Rattle.std.specs.List.{All, Contains};
ghost use Rattle.std.specs.Option.{option_copied, option_map};
ghost use Rattle.asa_trie.specs.Tries.{node_at, child, covering, walk};
ghost use Rattle.asa_fib.specs.Lookup as spec;

use crate::growth::{copied, grow};
use crate::route::{Route, Way, better};
use asa_base::{Addr, Counter, Prefix, Sealed};
use asa_trie::{bit_below, covers, height};
use std::alloc::{AllocError, Global};
use std::marker::Model;

/// A prefix with the best of its own routes, and the longer prefixes within it. A link is 0 for none, and else a node's
/// place in the table plus 1.
#[derive(Clone, Copy, Debug)]
pub struct FibNode {
    pub prefix: Prefix,
    /// The best route of just this prefix, where it has one.
    pub best: Option<Way>,
    /// The link to the prefixes in the lower half.
    pub left: u32,
    /// The link to the prefixes in the upper half.
    pub right: u32,
}

/// Routes compiled for look-ups. Contracts see the routes that it keeps: one for each node that has a best way. The last
/// node is the root.
#[derive(Debug, Drop)]
pub struct Fib {
    nodes: Vec<Sealed<FibNode>>,
}

impl Model for Fib {
    ghost use Rattle.std.specs.Prelude.{List};
    ghost use Rattle.asa_fib.specs.Routes.{Route};
    ghost use Rattle.asa_fib.specs.Lookup.{kept, IsFib};

    ghost Value = { List Route };

    ghost view = { λ f. kept f.nodes.items };

    ghost invariant = { λ f. IsFib f.nodes.items };
}

/// The link to the half of the node's block that has the address.
fn child(node: FibNode, a: Addr) -> u32
    ensures { result ≡ child spec.links node a.0 }
{
    if bit_below(height(node.prefix), a) {
        node.right
    } else {
        node.left
    }
}

/// The node of a link, which is read at the price of a tick.
fn node_at(nodes: &[Sealed<FibNode>], at: u32, c: &mut Counter) -> Option<FibNode>
    ensures value { result ≡ node_at nodes.now at }
    ensures reads { c.new ≤ c.old + 1 }
{
    if at == 0 {
        return None;
    }
    match nodes.get(at as usize - 1) {
        None => None,
        Some(node) => Some(*node.read(c)),
    }
}

/// The node of a link, if it covers the address.
fn covering(nodes: &[Sealed<FibNode>], at: u32, a: Addr, c: &mut Counter) -> Option<FibNode>
    ensures value { result ≡ covering spec.links nodes.now at a.0 }
    ensures reads { c.new ≤ c.old + 1 }
{
    match node_at(nodes, at, c) {
        Some(node) if covers(node.prefix, a) => Some(node),
        _ => None,
    }
}

/// The best way of the nodes that cover the address, of which at most 33 are read.
fn best_to(nodes: &[Sealed<FibNode>], a: Addr, c: &mut Counter) -> Option<Way>
    requires { length nodes.now < 2 ^ 32 }
    ensures value { result ≡ walk spec.ways spec.links (λ n. n.best) nodes.now 33 (length nodes.now) a.0 }
    ensures reads { c.new ≤ c.old + 33 }
{
    let mut best = None;
    let mut at = nodes.len() as u32;
    for _ in 0..33u8 {
        match covering(nodes, at, a, c) {
            None => return best,
            Some(node) => {
                best = better(best, node.best);
                at = child(node, a);
            }
        }
    }
    best
}

/// The number of a way.
fn number_of(way: Option<Way>) -> Option<u32>
    ensures { result ≡ option_map (λ w. w.number) way }
{
    way.map(|way| way.number)
}

impl Fib {
    /// Compiles routes. Those that are kept are of the given ones, and lead to each address as these do.
    pub fn build(alloc: Global, routes: &[Route]) -> Result<Fib, AllocError>
        requires { length routes.now ≤ 262144 }
        ensures best { IfOk result (λ fib. (a : Addr) → route_of fib a ≡ route_of routes.now a) }
        ensures given { IfOk result (λ fib. All (Contains routes.now) fib) }
    {
        let routes = copied(alloc, routes)?;
        let mut nodes = Vec::new(alloc);
        let _root = grow(alloc, &mut nodes, 33, routes)?;
        Ok(Fib { nodes })
    }

    /// The number of the best route whose prefix covers the address: the longest prefix, then the smallest distance, then
    /// the smallest number; None exactly where no prefix covers it. It takes no memory.
    pub fn lookup(&self, a: Addr, c: &mut Counter) -> Option<u32>
        ensures value { result ≡ route_of self.now a }
        ensures reads { c.new ≤ c.old + 33 }
    {
        number_of(best_to(self.nodes.as_slice(), a, c))
    }
}
