//! The rules that lead from the first matches of lists to a verdict.
ghost use Rattle.std.specs.Prelude.{◌≡◌};
ghost use Rattle.asa_access.specs.Rules as spec;

use crate::verdict::AccessVerdict;
use asa_base::{AccessBy, Name};
use std::marker::Model;

/// A list that is bound, and the line of it that decides a packet.
#[derive(Debug, Drop)]
pub(crate) struct Bound<'a> {
    /// The name of the list.
    pub(crate) name: &'a Name,
    /// Its first line, from 1, that holds the packet, and whether that line permits.
    pub(crate) first: Option<(u32, bool)>,
}

impl<'a> Model for Bound<'a> {
    ghost use Rattle.asa_access.specs.Rules.{Match};

    ghost Value = { Match };

    ghost view = { λ b. record { name = b.name.now; first = b.first } };
}

/// The verdict of a line.
fn verdict(permit: bool, by: AccessBy) -> AccessVerdict
    ensures { result ≡ spec.verdict permit by }
{
    if permit {
        AccessVerdict::Permit(by)
    } else {
        AccessVerdict::Deny(by)
    }
}

/// What the levels say; `rises` tells that the input's level is lower than the egress's.
fn level_verdict(rises: bool) -> AccessVerdict
    ensures { result ≡ spec.level_verdict rises }
{
    verdict(!rises, AccessBy::Level)
}

/// What the global list says after the interface's own.
fn after_own(global: Option<Bound<'_>>, otherwise: AccessVerdict) -> AccessVerdict
    ensures { result ≡ spec.after_own global.entry otherwise }
{
    match global {
        None => otherwise,
        Some(Bound { first: None, .. }) => AccessVerdict::Deny(AccessBy::Implicit),
        Some(
            Bound {
                name,
                first: Some((line, permit)),
            },
        ) => verdict(
            permit,
            AccessBy::Global {
                name: name.copy(),
                line,
            },
        ),
    }
}

/// What a bound list says by its deciding line.
pub(crate) fn by_line(name: &Name, line: u32, permit: bool) -> AccessVerdict
    ensures { result ≡ spec.by_line name.now line permit }
{
    let name = name.copy();
    verdict(permit, AccessBy::List { name, line })
}

/// The verdict of the inbound side: of the interface's own list, the global list and the levels.
pub(crate) fn inbound_by(
    own: Option<Bound<'_>>,
    global: Option<Bound<'_>>,
    rises: bool,
) -> AccessVerdict
    ensures { result ≡ spec.inbound_by own.entry global.entry rises }
{
    match own {
        None => after_own(global, level_verdict(rises)),
        Some(Bound { first: None, .. }) => {
            after_own(global, AccessVerdict::Deny(AccessBy::Implicit))
        }
        Some(
            Bound {
                name,
                first: Some((line, permit)),
            },
        ) => by_line(name, line, permit),
    }
}

/// The verdict of the outbound side: of the interface's list.
pub(crate) fn outbound_by(list: Option<Bound<'_>>) -> AccessVerdict
    ensures { result ≡ spec.outbound_by list.entry }
{
    match list {
        None => AccessVerdict::Permit(AccessBy::NoList),
        Some(Bound { first: None, .. }) => AccessVerdict::Deny(AccessBy::Implicit),
        Some(
            Bound {
                name,
                first: Some((line, permit)),
            },
        ) => by_line(name, line, permit),
    }
}
