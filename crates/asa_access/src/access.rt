//! Lists and levels compiled for verdicts.
ghost use Rattle.std.specs.Prelude.{◌≡◌, ℕ, ◌+◌, ◌≤◌, ◌<◌, [], ◌∷◌, ◌++◌, IfOk, OnOk, IfSome, length, map, slice_index, ◌^◌};
ghost use Rattle.std.specs.Option.{option_copied, option_map};
ghost use Rattle.asa_base.specs.declared.flow.Packet.{Packet as AnyPacket};
ghost use Rattle.asa_access.specs.Compiled as compiled;
ghost use Rattle.asa_access.specs.Lists as spec;

use crate::compiled::Compiled;
use crate::list::{AccessList, place_of};
use crate::rules::{Bound, by_line, inbound_by, outbound_by};
use crate::verdict::AccessVerdict;
use asa_base::{Counter, Packet};
use std::alloc::{AllocError, Global};
use std::marker::Model;

/// Access lists and levels, compiled for verdicts. Contracts see the compiled lists with their entries; `build` says that they
/// mean what the lists mean that they were compiled from.
#[derive(Debug, Drop)]
pub struct Access {
    lists: Vec<Compiled>,
    inputs: Vec<Option<u32>>,
    egresses: Vec<Option<u32>>,
    global: Option<u32>,
    levels: Vec<u8>,
}

impl Model for Access {
    ghost use Rattle.asa_access.specs.Compiled.{CompiledLists};

    ghost Value = { CompiledLists };

    ghost view = { λ a. record {
      lists = a.lists.items;
      inputs = a.inputs.items;
      egresses = a.egresses.items;
      global = a.global;
      levels = a.levels.items;
    } };
}

/// Compiles one more list.
fn push_compiled(
    alloc: Global,
    done: &mut Vec<Compiled>,
    list: &AccessList,
) -> Result<(), AllocError>
    ensures first { OnOk result ((p : AnyPacket) → map (compiled.match_in p) done.new.items ≡ map (compiled.match_in p) done.old.items ++ spec.match_of p list.now ∷ []) }
    ensures covering { OnOk result ((p : AnyPacket) → map (compiled.covering_among p) done.new.items ≡ map (compiled.covering_among p) done.old.items ++ spec.covering_in p list.now ∷ []) }
{
    done.push(Compiled::build(alloc, list)?)?;
    Ok(())
}

/// Compiles each list.
fn compiled_of(alloc: Global, lists: &[AccessList]) -> Result<Vec<Compiled>, AllocError>
    ensures first { IfOk result (λ v. (p : AnyPacket) → map (compiled.match_in p) v.items ≡ map (spec.match_of p) lists.now) }
    ensures covering { IfOk result (λ v. (p : AnyPacket) → map (compiled.covering_among p) v.items ≡ map (spec.covering_in p) lists.now) }
{
    let mut done = Vec::with_capacity(alloc, lists.len())?;
    for list in lists {
        push_compiled(alloc, &mut done, list)?;
    }
    Ok(done)
}

/// The place of the list at one side of each interface, by the interface's number.
fn places_of(
    alloc: Global,
    lists: &[AccessList],
    inbound: bool,
) -> Result<Vec<Option<u32>>, AllocError>
    requires { length lists.now < 2 ^ 32 }
    ensures { IfOk result (λ v. compiled.IsTable lists.now inbound v.items) }
{
    let mut places = Vec::with_capacity(alloc, 256)?;
    for ifc in 0..256u16 {
        places.push(place_of(lists, (ifc as u8, inbound)))?;
    }
    Ok(places)
}

impl Access {
    /// Compiles lists; `global` is the place, from 0, of the list that is bound to every input, and `levels` has the level of
    /// each interface, 0 for one without a name.
    #[tactic(auto, using(crate::proofs::ListLaws::inbound_is, crate::proofs::ListLaws::outbound_is, crate::proofs::ListLaws::inbound_reads, crate::proofs::ListLaws::outbound_reads))]
    pub fn build(
        alloc: Global,
        lists: &[AccessList],
        global: Option<u32>,
        levels: Vec<u8>,
    ) -> Result<Access, AllocError>
        requires { length lists.now < 2 ^ 32 }
        ensures inbound { IfOk result (λ a. (p : AnyPacket) (egress : ℕ) → p.ifc < 256
            → compiled.inbound_in a p egress ≡ spec.inbound lists.now global levels.items p egress) }
        ensures outbound { IfOk result (λ a. (p : AnyPacket) (egress : ℕ) → egress < 256
            → compiled.outbound_in a p egress ≡ spec.outbound lists.now p egress) }
        ensures inbound_reads { IfOk result (λ a. (p : AnyPacket) → p.ifc < 256 → compiled.covering_inbound a p ≡ spec.inbound_covering lists.now global p) }
        ensures outbound_reads { IfOk result (λ a. (p : AnyPacket) (egress : ℕ) → egress < 256 → compiled.covering_outbound a p egress ≡ spec.outbound_covering lists.now p egress) }
    {
        let compiled = compiled_of(alloc, lists)?;
        let inputs = places_of(alloc, lists, true)?;
        let egresses = places_of(alloc, lists, false)?;
        Ok(Access {
            lists: compiled,
            inputs,
            egresses,
            global,
            levels,
        })
    }

    /// The compiled list at a place.
    fn list_at(&self, place: Option<u32>) -> Option<&Compiled>
        ensures { option_copied result ≡ compiled.list_in self.now place }
    {
        match place {
            Some(place) => self.lists.get(place as usize),
            None => None,
        }
    }

    /// The list at a place, where there is one, with the line that decides the packet.
    fn matched(&self, place: Option<u32>, p: &Packet, c: &mut Counter) -> Option<Bound<'_>>
        ensures value { result ≡ option_map (compiled.match_in p.now) (compiled.list_in self.now place) }
        ensures reads { c.new ≤ c.old + 1122 + compiled.covering_if p.now (compiled.list_in self.now place) }
    {
        match self.list_at(place) {
            Some(list) => Some(Bound {
                name: list.name(),
                first: list.first(p, c),
            }),
            None => None,
        }
    }

    /// Whether a packet would go to a higher level.
    fn rises(&self, ifc: u8, egress: u8) -> bool
        ensures { result ≡ spec.rises self.now.levels ifc egress }
    {
        level_at(self.levels.as_slice(), ifc) < level_at(self.levels.as_slice(), egress)
    }

    /// The verdict at the input of a packet, which has its real destination, towards an egress: by the first line of the
    /// input's own list that holds it, then of the global list, then by the levels where there is neither.
    #[tactic(auto, unfolding(crate::specs::Compiled::inbound_in, crate::specs::Compiled::covering_inbound))]
    pub fn inbound(&self, p: &Packet, egress: u8, c: &mut Counter) -> AccessVerdict
        ensures value { result ≡ compiled.inbound_in self.now p.now egress }
        ensures reads { c.new ≤ c.old + 2244 + compiled.covering_inbound self.now p.now }
    {
        let own = self.matched(place_in(self.inputs.as_slice(), p.ifc), p, c);
        if let Some(
            Bound {
                name,
                first: Some((line, permit)),
            },
        ) = own
        {
            return by_line(name, line, permit);
        }
        let global = self.matched(self.global, p, c);
        inbound_by(own, global, self.rises(p.ifc, egress))
    }

    /// The verdict at the egress of a packet, which has its real destination: by the first line of the egress's list that
    /// holds it.
    #[tactic(auto, unfolding(crate::specs::Compiled::outbound_in, crate::specs::Compiled::covering_outbound))]
    pub fn outbound(&self, p: &Packet, egress: u8, c: &mut Counter) -> AccessVerdict
        ensures value { result ≡ compiled.outbound_in self.now p.now egress }
        ensures reads { c.new ≤ c.old + 1122 + compiled.covering_outbound self.now p.now egress }
    {
        let place = place_in(self.egresses.as_slice(), egress);
        outbound_by(self.matched(place, p, c))
    }
}

/// The level of an interface.
fn level_at(levels: &[u8], ifc: u8) -> u8
    ensures { result ≡ slice_index levels.now ifc }
{
    match levels.get(usize::from(ifc)) {
        Some(level) => *level,
        None => 0,
    }
}

/// The place that a table has for an interface.
fn place_in(places: &[Option<u32>], ifc: u8) -> Option<u32>
    ensures { result ≡ compiled.place_in places.now ifc }
{
    match places.get(usize::from(ifc)) {
        Some(place) => *place,
        None => None,
    }
}
