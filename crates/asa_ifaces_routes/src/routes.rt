//! Routes compiled for look-ups.
ghost use Rattle.std.specs.Prelude.{◌≡◌, ◌+◌, ◌≤◌, length, IfOk, IfSome};
ghost use Rattle.asa_ifaces_routes.specs.Candidates.{best_among, candidates};

use crate::candidates::{self, Candidate};
use asa_base::{Addr, Counter};
use asa_fib::Fib;
use asa_ifaces::Ifaces;
use std::alloc::{AllocError, Global};
use std::marker::Model;

/// The ways to networks, compiled for look-ups. Contracts see the ways in their order: the networks of interfaces, then the
/// route lines.
#[derive(Debug, Drop)]
pub struct Routes {
    ways: Vec<Candidate>,
    fib: Fib,
}

impl Model for Routes {
    ghost use Rattle.std.specs.Prelude.{List, ◌≡◌};
    ghost use Rattle.asa_text.specs.declared.numbers.Addr.{Addr};
    ghost use Rattle.asa_fib.specs.Routes.{route_of};
    ghost use Rattle.asa_ifaces_routes.specs.Candidates.{offers_from};
    ghost use Rattle.asa_ifaces_routes.specs.declared.candidates.Candidate.{Candidate};

    ghost Value = { List Candidate };

    ghost view = { λ r. r.ways.items };

    ghost invariant = { λ r. (a : Addr) → route_of r.fib a ≡ route_of (offers_from 0 r.ways.items) a };
}

impl Routes {
    /// The routes of interfaces and route lines.
    pub fn build(alloc: Global, net: &Ifaces) -> Result<Routes, AllocError>
        ensures { IfOk result (λ r. r ≡ candidates net.now) }
    {
        let ways = candidates::candidates(alloc, net)?;
        let offers = candidates::offers(alloc, ways.as_slice())?;
        let fib = Fib::build(alloc, offers.as_slice())?;
        Ok(Routes { ways, fib })
    }

    /// The best way to an address: the longest prefix that covers it, then the smallest distance, then the first. It reads at
    /// most 33 sealed nodes.
    pub fn best(&self, address: Addr, c: &mut Counter) -> Option<Candidate>
        ensures value { result ≡ best_among self.now address }
        ensures reads { c.new ≤ c.old + 33 }
    {
        let place = self.fib.lookup(address, c)?;
        match self.ways.get(place as usize) {
            Some(way) => Some(*way),
            None => None,
        }
    }
}
