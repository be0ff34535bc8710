//! Compiles routes: the routes of a block of addresses are divided between its halves, and a node over both halves
//! follows theirs. A block whose routes all lie in one half gets no node of its own.
ghost use Rattle.std.specs.Prelude.{◌≡◌, ℕ, ◌+◌, ◌-◌, ◌*◌, ◌/◌, ◌^◌, ◌<◌, ◌≤◌, ◌++◌, ◌∷◌, [], length, filter, IfOk, IsTrue, Some};
ghost use Rattle.std.specs.List.{All, list_all};
ghost use Rattle.asa_base.specs.Networks.{is_prefix};
ghost use Rattle.asa_trie.specs.Bits.{height, home_of, IsWithin, is_here, is_low, is_high, one_half};
ghost use Rattle.asa_fib.specs.Routes as spec;
ghost use Rattle.asa_fib.specs.Growth.{prefix_of, is_whole, FibGrown};

use crate::fib::FibNode;
use crate::route::{Route, Way, better, way_of};
use asa_base::{Addr, Prefix, Sealed};
use asa_trie::{is_here, is_high, is_low, over};
use std::alloc::{AllocError, Global};

/// A route, whose prefix is known to be one.
fn looked_at(route: &Route) -> Route
    ensures same { result ≡ route.now }
    ensures few { result.0.addr.0 < 2 ^ 32 }
    ensures whole { IsTrue (is_whole result) }
{
    let addr = route.0.addr.0;
    prove!(addr <= u32::MAX);
    *route
}

/// A copy of the routes.
pub(crate) fn copied(alloc: Global, routes: &[Route]) -> Result<Vec<Route>, AllocError>
    ensures same { IfOk result (λ v. v.items ≡ routes.now) }
    ensures few { IfOk result (λ v. All (λ r. (prefix_of r).addr.0 < 2 ^ 32) v.items) }
    ensures whole { IfOk result (λ v. All (λ r. IsTrue (is_whole r)) v.items) }
{
    let mut all = Vec::with_capacity(alloc, routes.len())?;
    for route in routes {
        all.push(looked_at(route))?;
    }
    Ok(all)
}

/// Whether all routes lie in the lower half of a block of this level.
fn all_low(routes: &[Route], level: u8) -> bool
    requires { level ≤ 32 }
    ensures { result ≡ list_all (λ r. is_low level (prefix_of r)) routes.now }
{
    routes.iter().all(|route| is_low(level, route.0))
}

/// Whether all routes lie in the upper half of a block of this level.
fn all_high(routes: &[Route], level: u8) -> bool
    requires { level ≤ 32 }
    ensures { result ≡ list_all (λ r. is_high level (prefix_of r)) routes.now }
{
    routes.iter().all(|route| is_high(level, route.0))
}

/// Whether all routes lie in one half of a block of this level.
fn one_half(routes: &[Route], level: u8) -> bool
    requires { level ≤ 32 }
    ensures { result ≡ one_half prefix_of level routes.now }
{
    all_low(routes, level) || all_high(routes, level)
}

/// The routes of the lower half of a block of this level.
fn lows(alloc: Global, routes: &[Route], level: u8) -> Result<Vec<Route>, AllocError>
    requires { level ≤ 32 }
    ensures { IfOk result (λ v. v.items ≡ filter (λ r. is_low level (prefix_of r)) routes.now) }
{
    routes
        .iter()
        .filter(|route| is_low(level, route.0))
        .copied()
        .collect(alloc)
}

/// The routes of the upper half of a block of this level.
fn highs(alloc: Global, routes: &[Route], level: u8) -> Result<Vec<Route>, AllocError>
    requires { level ≤ 32 }
    ensures { IfOk result (λ v. v.items ≡ filter (λ r. is_high level (prefix_of r)) routes.now) }
{
    routes
        .iter()
        .filter(|route| is_high(level, route.0))
        .copied()
        .collect(alloc)
}

/// The best of the routes whose prefix is a whole block of this level.
#[tactic(auto, using(crate::proofs::WayLaws::better_assoc))]
fn best_here(routes: &[Route], level: u8) -> Option<Way>
    ensures { result ≡ spec.best_of (filter (λ r. is_here level (prefix_of r)) routes.now) }
{
    let mut best = None;
    for route in routes {
        if is_here(level, route.0) {
            best = better(best, Some(way_of(*route)));
        }
    }
    best
}

/// The address at which the first route's prefix begins.
fn home(routes: &[Route]) -> Addr
    ensures { result.0 ≡ home_of prefix_of routes.now }
{
    match routes.first() {
        Some(route) => route.0.addr,
        None => Addr(0),
    }
}

/// The block of this level that has the address at which the first route's prefix begins.
fn block(routes: &[Route], level: u8) -> Prefix
    requires { level ≤ 32 }
    ensures level { height result ≡ level }
    ensures home { result.addr.0 / 2 ^ level ≡ home_of prefix_of routes.now / 2 ^ level }
    ensures whole { IsTrue (is_prefix result.addr.0 result.len) }
{
    over(home(routes), level)
}

/// Pushes a node, and gives the link to it.
fn add(nodes: &mut Vec<Sealed<FibNode>>, node: FibNode) -> Result<u32, AllocError>
    requires { length nodes.old.items + 1 < 2 ^ 32 }
    ensures added { IfOk result (λ _. nodes.new.items ≡ nodes.old.items ++ node ∷ []) }
    ensures link { IfOk result (λ at. at ≡ length nodes.new.items) }
{
    nodes.push(Sealed::new(node))?;
    Ok(nodes.len() as u32)
}

/// Compiles the routes of one block of level `levels - 1`, and gives the link to its root.
pub(crate) fn grow(
    alloc: Global,
    nodes: &mut Vec<Sealed<FibNode>>,
    levels: u8,
    routes: Vec<Route>,
) -> Result<u32, AllocError>
    requires few { levels ≤ 33 }
    requires whole { All (λ r. IsTrue (is_whole r)) routes.items }
    requires within { All (λ r. IsWithin levels (home_of prefix_of routes.items) (prefix_of r)) routes.items }
    requires room { length nodes.old.items + 2 * length routes.items < 2 ^ 32 }
    ensures { IfOk result (λ at. FibGrown nodes.old.items nodes.new.items at levels routes.items) }
{
    if routes.is_empty() {
        return Ok(0);
    }
    let level = levels - 1;
    if one_half(&routes, level) {
        return grow(alloc, nodes, level, routes);
    }
    let prefix = block(&routes, level);
    let best = best_here(&routes, level);
    let low = lows(alloc, &routes, level)?;
    let high = highs(alloc, &routes, level)?;
    drop(routes);
    let left = grow(alloc, nodes, level, low)?;
    let right = grow(alloc, nodes, level, high)?;
    let node = FibNode {
        prefix,
        best,
        left,
        right,
    };
    let at = add(nodes, node)?;
    Ok(at)
}
