//! Route lines.
ghost use Rattle.std.specs.Prelude.{◌≡◌, ◌<◌, ◌≤◌, [], ◌∷◌, ◌++◌, IfOk, IfSome, IfNone, length, slice_set};
ghost use Rattle.asa_text.specs.Readers.{Reads};
ghost use Rattle.asa_ifaces.specs.Answers.{Changes, Makes};
ghost use Rattle.asa_ifaces.specs.Routes as spec;

use crate::iface::{IfaceFault, RouteLine};
use crate::ifaces::Ifaces;
use asa_base::{interface, route_network, zero_or_address};
use asa_text::{LineFault, Words, end_of_line, keyword, number};
use std::alloc::AllocError;

/// Whether the next word is an option of a route line, which this project leaves out.
fn is_route_option(words: &Words<'_>) -> bool
    ensures { result ≡ spec.is_route_option words.now }
{
    words.next_is(b"tunneled") || words.next_is(b"track")
}

/// Reads the distance, 1 where the line ends before it.
#[tactic(auto, unfolding(crate::specs::Routes::distance_at))]
fn read_distance(words: &mut Words<'_>) -> Result<u8, LineFault>
    ensures { Reads result words.new (spec.distance_at words.old) }
{
    if is_route_option(words) {
        return Err(words.unsupported());
    }
    if words.peek().is_none() {
        return Ok(1);
    }
    let distance = number(words, 1, 255)?;
    Ok(distance as u8)
}

/// Reads the line's end.
#[tactic(auto, unfolding(crate::specs::Routes::route_end_at))]
fn read_route_end(words: &mut Words<'_>) -> Result<(), LineFault>
    ensures { Reads result words.new (spec.route_end_at words.old) }
{
    if is_route_option(words) {
        return Err(words.unsupported());
    }
    end_of_line(words)
}

/// Reads a whole route line.
#[tactic(auto, unfolding(crate::specs::Routes::route_line))]
pub(crate) fn read_route(ifaces: &Ifaces, words: &mut Words<'_>) -> Result<RouteLine, LineFault>
    ensures value { Reads result words.new (spec.route_line ifaces.now words.old) }
    ensures leaves { IfOk result (λ r. r.ifc < length ifaces.now.ifaces) }
{
    keyword(words, b"route")?;
    let ifc = interface(words, ifaces)?;
    let prefix = route_network(words)?;
    let gateway = zero_or_address(words)?;
    let distance = read_distance(words)?;
    read_route_end(words)?;
    Ok(RouteLine {
        ifc,
        prefix,
        gateway,
        distance,
    })
}

/// Reads a whole line that removes a route.
#[tactic(auto, unfolding(crate::specs::Routes::no_route_line))]
pub(crate) fn read_no_route(ifaces: &Ifaces, words: &mut Words<'_>) -> Result<RouteLine, LineFault>
    ensures value { Reads result words.new (spec.no_route_line ifaces.now words.old) }
    ensures leaves { IfOk result (λ r. r.ifc < length ifaces.now.ifaces) }
{
    keyword(words, b"no")?;
    read_route(ifaces, words)
}

/// Whether the two lines are equal but for their distances.
fn is_same_route(a: &RouteLine, b: &RouteLine) -> bool
    ensures { result ≡ spec.same_route a.now b.now }
{
    a.ifc == b.ifc
        && a.prefix.addr == b.prefix.addr
        && a.prefix.len == b.prefix.len
        && a.gateway == b.gateway
}

/// Whether one of the lines equals this one but for the distance.
pub(crate) fn has_route(routes: &[RouteLine], route: &RouteLine) -> bool
    ensures { result ≡ spec.has_route routes.now route.now }
{
    routes.iter().any(|known| is_same_route(known, route))
}

/// The place of the line that equals this one but for the distance.
#[tactic(auto, using(crate::proofs::RouteLaws::with_route_at))]
fn place_of_route(routes: &[RouteLine], route: &RouteLine) -> Option<usize>
    ensures last { IfNone result (spec.with_route routes.now route.now ≡ routes.now ++ route.now ∷ []) }
    ensures placed { IfSome result (λ i. spec.with_route routes.now route.now ≡ slice_set routes.now i route.now) }
    ensures within { IfSome result (λ i. i < length routes.now) }
{
    for (i, known) in routes.iter().enumerate() {
        if is_same_route(known, route) {
            return Some(i);
        }
    }
    None
}

/// Puts the line in the place of the one that it equals but for the distance, or last.
#[tactic(auto, unfolding(crate::specs::Routes::routes_with))]
pub(crate) fn put_route(routes: &mut Vec<RouteLine>, route: RouteLine) -> Result<(), IfaceFault>
    requires { length routes.old.items ≤ 4096 }
    ensures { Makes result routes.old.items routes.new.items (spec.routes_with routes.old.items route) }
{
    if let Some(i) = place_of_route(routes.as_slice(), &route) {
        routes[i] = route;
        return Ok(());
    }
    if routes.len() == 4096 {
        return Err(IfaceFault::TooMany);
    }
    routes.push(route).map_err(AllocError::from)?;
    Ok(())
}

/// Leaves out the line that equals this one but for the distance.
fn drop_route(routes: &mut Vec<RouteLine>, route: &RouteLine)
    ensures { routes.new.items ≡ spec.without_route routes.old.items route.now }
{
    routes.retain(|known| !is_same_route(known, route));
}

/// Removes the line that equals this one but for the distance.
#[tactic(auto, unfolding(crate::specs::Routes::routes_without))]
pub(crate) fn take_route(routes: &mut Vec<RouteLine>, route: &RouteLine) -> Result<(), IfaceFault>
    ensures { Changes result routes.old.items routes.new.items (spec.routes_without routes.old.items route.now) }
{
    if !has_route(routes.as_slice(), route) {
        return Err(IfaceFault::NoSuchLine);
    }
    drop_route(routes, route);
    Ok(())
}
