//! Static maps.
ghost use Rattle.std.specs.Prelude.{◌≡◌, is_some, IfOk};
ghost use Rattle.std.specs.Option.{option_map};
ghost use Rattle.asa_text.specs.declared.numbers.Addr.{Addr as Address};
ghost use Rattle.asa_nat_rules.specs.Maps.{static_map};
ghost use Rattle.asa_nat_maps.specs.Maps as spec;
ghost use Rattle.asa_nat_maps.specs.Places.{first_place};

use crate::places::Places;
use asa_base::{Addr, Range};
use std::alloc::{AllocError, Global};
use std::marker::Model;

/// A static map compiled for look-ups. Contracts see the ranges on both of its sides.
#[derive(Debug, Drop)]
pub struct StaticMap {
    from: Places,
    to: Places,
}

impl Model for StaticMap {
    ghost use Rattle.asa_nat_maps.specs.Maps.{Sets};

    ghost Value = { Sets };

    ghost view = { λ m. record { from = m.from; to = m.to } };
}

impl StaticMap {
    /// Compiles the map from the addresses of `from` to those of `to`.
    pub fn build(alloc: Global, from: &[Range], to: &[Range]) -> Result<StaticMap, AllocError>
        ensures { IfOk result (λ m. m ≡ record { from = from.now; to = to.now }) }
    {
        let from = Places::build(alloc, from)?;
        let to = Places::build(alloc, to)?;
        Ok(StaticMap { from, to })
    }

    /// What an address becomes: the k-th real address becomes the k-th mapped one, and an address in several places is taken
    /// at its first. None exactly where it is no real address, or where there are fewer mapped ones.
    pub fn sent(&self, address: Addr) -> Option<Addr>
        ensures { option_map (λ (a : Address). a.0) result ≡ static_map self.now.from self.now.to address.0 }
    {
        match self.from.place(address) {
            None => None,
            Some(place) => self.to.at(place),
        }
    }

    /// Whether an address is a real one.
    pub fn holds(&self, address: Addr) -> bool
        ensures { result ≡ is_some (first_place self.now.from address.0) }
    {
        self.from.holds(address)
    }

    /// Whether some real address, taken at its first place, becomes this one.
    #[tactic(auto, using(crate::proofs::ReachLaws::reached_is))]
    pub fn is_reached(&self, mapped: Addr) -> bool
        ensures { result ≡ spec.is_reached self.now.from self.now.to mapped.0 }
    {
        self.to.is_reached(&self.from, mapped)
    }
}
