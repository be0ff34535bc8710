//! Which of two routes is better.
ghost use Rattle.std.specs.Prelude.{◌≡◌, Some, None, List, filter};
ghost use Rattle.asa_fib.specs.Routes as spec;

use asa_base::Prefix;

/// A prefix, a distance and a number. The number tells which route it is, and decides between routes that are equal in
/// the length of their prefix and in their distance.
pub type Route = (Prefix, u8, u32);

/// What a route is chosen by: first the longest prefix, then the smallest distance, then the smallest number.
#[derive(Clone, Copy, Debug, PartialEq, Eq)]
pub struct Way {
    /// The length of the prefix.
    pub len: u8,
    pub distance: u8,
    pub number: u32,
}

/// What the route is chosen by.
pub(crate) fn way_of(route: Route) -> Way
    ensures { result ≡ spec.way_of route }
{
    let (prefix, distance, number) = route;
    Way {
        len: prefix.len,
        distance,
        number,
    }
}

/// Whether the first way is better than the second.
fn beats(a: Way, b: Way) -> bool
    ensures { result ≡ spec.beats a b }
{
    b.len < a.len
        || a.len == b.len
            && (a.distance < b.distance || a.distance == b.distance && a.number < b.number)
}

/// The better of two ways, where there are two.
pub(crate) fn better(a: Option<Way>, b: Option<Way>) -> Option<Way>
    ensures { result ≡ spec.better a b }
{
    match (a, b) {
        (None, b) => b,
        (a, None) => a,
        (Some(a), Some(b)) => Some(if beats(b, a) { b } else { a }),
    }
}
