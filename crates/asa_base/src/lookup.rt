//! Readers of names that must be known: of interfaces, objects and groups.
ghost use Rattle.std.specs.Prelude.{◌≡◌, List};
ghost use Rattle.std.specs.List.{list_any};
ghost use Rattle.asa_text.specs.Readers.{Reads};
ghost use Rattle.asa_base.specs.Readers as spec;

use crate::kinds::{Kind, Names};
use crate::names::Name;
use crate::readers::name;
use asa_text::{LineFault, Words};

/// Reads the name of an interface, and gives its number. A word that can't be a name is Bad; a name that no interface
/// has is NoSuchInterface.
#[tactic(auto, unfolding(crate::specs::Readers::interface_at))]
pub fn interface<N: Names>(words: &mut Words<'_>, names: &N) -> Result<u8, LineFault>
    ensures { Reads result words.new (spec.interface_at (N.known names.now).interface_of words.old) }
{
    let column = words.column();
    let name = name(words)?;
    match names.interface_of(&name) {
        Some(number) => Ok(number),
        None => Err(LineFault::NoSuchInterface { column }),
    }
}

impl Kind {
    /// The place of the kind in the list of kinds.
    fn place(self) -> u8
        ensures { result ≡ spec.kind_place self }
    {
        match self {
            Kind::NetObject => 0,
            Kind::ServiceObject => 1,
            Kind::NetGroup => 2,
            Kind::ServiceGroup => 3,
            Kind::PortGroup => 4,
            Kind::ProtocolGroup => 5,
            Kind::IcmpGroup => 6,
        }
    }

    /// Whether the kind is one of these.
    fn is_one_of(self, kinds: &[Kind]) -> bool
        ensures { result ≡ list_any (spec.same_kind self) kinds.now }
    {
        kinds.iter().any(|kind| self.place() == kind.place())
    }
}

/// Reads the name of an object or a group of one of these kinds. A word that can't be a name is Bad, a name that isn't
/// defined is Unknown, and one of another kind is Bad.
#[tactic(auto, unfolding(crate::specs::Readers::named_at))]
pub fn named<N: Names>(
    words: &mut Words<'_>,
    names: &N,
    kinds: &[Kind],
) -> Result<(Name, Kind), LineFault>
    ensures { Reads result words.new (spec.named_at (N.known names.now) kinds.now words.old) }
{
    let column = words.column();
    let name = name(words)?;
    match names.kind_of(&name) {
        Some(kind) if kind.is_one_of(kinds) => Ok((name, kind)),
        Some(_) => Err(LineFault::Bad { column }),
        None => Err(LineFault::Unknown { column }),
    }
}
