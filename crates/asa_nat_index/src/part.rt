//! What a case says, and where it stands in the index.
ghost use Rattle.std.specs.Prelude.{◌≡◌, ◌<◌, ◌≤◌};
ghost use Rattle.asa_nat_index.specs.Index as index;
ghost use Rattle.asa_nat_index.specs.Matches as spec;
ghost use Rattle.asa_nat_index.specs.Shelves as shelves;

use asa_nat_rules::{Case, CaseMap};

/// What a case says something of.
#[derive(Clone, Copy, Debug)]
pub(crate) enum Part {
    /// What becomes of the destination.
    Dest,
    /// What becomes of the source.
    Source,
}

/// The number of an interface, 0 for any.
fn side(ifc: Option<u8>) -> usize
    ensures value { result ≡ index.side ifc }
    ensures few { result ≤ 256 }
{
    match ifc {
        None => 0,
        Some(ifc) => usize::from(ifc) + 1,
    }
}

/// The place of the entries of an input.
pub(crate) fn dest_key(from: Option<u8>) -> usize
    ensures { result ≡ index.side from }
{
    side(from)
}

/// The place of the entries of an input and an egress.
pub(crate) fn pair_key(from: Option<u8>, to: Option<u8>) -> usize
    ensures { result ≡ index.pair_key from to }
{
    side(from) * 65 + side(to)
}

/// Whether the case says what becomes of the destination.
pub(crate) fn has_dest_part(case: &Case) -> bool
    ensures { result ≡ spec.has_dest_part case.now }
{
    case.dest_map.is_some()
}

/// Whether the case says what becomes of the source.
pub(crate) fn has_source_part(case: &Case) -> bool
    ensures { result ≡ spec.has_source_part case.now }
{
    match &case.source_map {
        CaseMap::None => false,
        CaseMap::Static(_) => true,
        CaseMap::Dynamic { .. } => true,
    }
}

/// Whether the case has that part.
pub(crate) fn has_part(part: Part, case: &Case) -> bool
    ensures { result ≡ shelves.has_part part case.now }
{
    match part {
        Part::Dest => has_dest_part(case),
        Part::Source => has_source_part(case),
    }
}

/// The place of the case.
pub(crate) fn key_of(part: Part, case: &Case) -> usize
    ensures { result ≡ shelves.key_of part case.now }
{
    match part {
        Part::Dest => dest_key(case.from),
        Part::Source => pair_key(case.from, case.to),
    }
}
