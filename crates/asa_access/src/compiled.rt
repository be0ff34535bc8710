//! Compiling one list.
ghost use Rattle.std.specs.Prelude.{◌≡◌, ◌+◌, ◌≤◌, IfOk, map};
ghost use Rattle.asa_base.specs.declared.flow.Packet.{Packet as AnyPacket};
ghost use Rattle.asa_access.specs.Compiled.{match_in, covering_among};
ghost use Rattle.asa_access.specs.Lists.{covering_in, match_of};

use crate::list::AccessList;
use asa_access_entries::Ranked;
use asa_base::{Counter, Name, Packet};
use asa_pair_trie::{Entry, PairTrie};
use std::alloc::{AllocError, Global};
use std::marker::Model;

/// A compiled list.
#[derive(Debug, Drop)]
pub(crate) struct Compiled {
    name: Name,
    pairs: PairTrie,
    lines: Vec<(u32, bool)>,
}

impl Model for Compiled {
    ghost use Rattle.asa_access.specs.Compiled.{CompiledList};

    ghost Value = { CompiledList };

    ghost view = { λ c. record { name = c.name; entries = c.pairs; lines = c.lines.items } };
}

/// The entries without their lines.
fn bare(alloc: Global, entries: &[(Entry, u32, bool)]) -> Result<Vec<Entry>, AllocError>
    ensures { IfOk result (λ v. v.items ≡ map (λ e. e.0) entries.now) }
{
    entries.iter().map(|e| e.0).collect(alloc)
}

/// The lines of the entries, each with whether it permits.
fn lines_of(alloc: Global, entries: &[(Entry, u32, bool)]) -> Result<Vec<(u32, bool)>, AllocError>
    ensures { IfOk result (λ v. v.items ≡ map (λ e. (e.1, e.2)) entries.now) }
{
    entries.iter().map(|e| (e.1, e.2)).collect(alloc)
}

impl Compiled {
    /// Compiles a list.
    pub(crate) fn build(alloc: Global, list: &AccessList) -> Result<Compiled, AllocError>
        ensures first { IfOk result (λ t. (p : AnyPacket) → match_in p t ≡ match_of p list.now) }
        ensures covering { IfOk result (λ t. (p : AnyPacket) → covering_among p t ≡ covering_in p list.now) }
    {
        let entries = list.entries.as_slice();
        let pairs = PairTrie::build(alloc, bare(alloc, entries)?.as_slice())?;
        let lines = lines_of(alloc, entries)?;
        Ok(Compiled {
            name: list.name.copy(),
            pairs,
            lines,
        })
    }

    /// The name of the list.
    pub(crate) fn name(&self) -> &Name
        ensures { result.now ≡ self.now.name }
    {
        &self.name
    }

    /// The first line that holds the packet, and whether it permits.
    pub(crate) fn first(&self, p: &Packet, c: &mut Counter) -> Option<(u32, bool)>
        ensures value { result ≡ (match_in p.now self.now).first }
        ensures reads { c.new ≤ c.old + 1122 + covering_among p.now self.now }
    {
        let rank = self.pairs.first(p, c)?;
        match self.lines.get(rank as usize) {
            Some(line) => Some(*line),
            None => None,
        }
    }
}
