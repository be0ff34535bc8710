//! The routes read one after another: the plain program beside the compiled one.
ghost use Rattle.std.specs.Prelude.{◌≡◌, filter};
ghost use Rattle.asa_trie.specs.Bits.{covers_number};
ghost use Rattle.asa_fib.specs.Routes as spec;
ghost use Rattle.asa_fib.specs.Growth.{prefix_of};

use crate::route::{Route, Way, better, way_of};
use asa_base::Addr;
use asa_trie::covers;

/// The best of the routes that cover the address.
#[tactic(auto, using(crate::proofs::WayLaws::better_assoc))]
fn best_listed(routes: &[Route], a: Addr) -> Option<Way>
    ensures { result ≡ spec.best_of (filter (λ r. covers_number (prefix_of r) a.0) routes.now) }
{
    let mut best = None;
    for route in routes {
        if covers(route.0, a) {
            best = better(best, Some(way_of(*route)));
        }
    }
    best
}

/// The number of the best route whose prefix covers the address, found by reading all routes.
pub fn route_listed(routes: &[Route], a: Addr) -> Option<u32>
    ensures { result ≡ spec.route_of routes.now a }
{
    best_listed(routes, a).map(|way| way.number)
}
