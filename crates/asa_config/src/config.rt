//! A configuration and its readers.
ghost use Rattle.std.specs.Prelude.{◌≡◌, ◌<◌, ◌≤◌, length, None, Some, IfOk, slice_get, sum_by};
ghost use Rattle.std.specs.Option.{option_copied};
ghost use Rattle.asa_acl_boxes.specs.Pairs as pairs;
ghost use Rattle.asa_config.specs.Names as knowing;
ghost use Rattle.asa_config.specs.Settings as spec;

use asa_acl::Acl;
use asa_acl_boxes::boxes;
use asa_acl_table::{ListTable, Scope};
use asa_base::{Addr, Kind, LineBox, Name, Names, PortProto, Service};
use asa_ifaces::Ifaces;
use asa_objects::Objects;
use asa_text::Items;
use std::alloc::{AllocError, Global};
use std::marker::Model;

/// A configuration: its interfaces, routes and times, its objects and groups, its access lists with the number of their
/// prefix pairs, and its access groups by rising side.
#[derive(Debug, Drop)]
pub struct Config {
    pub(crate) net: Ifaces,
    pub(crate) objects: Objects,
    pub(crate) table: ListTable,
    pub(crate) pairs: u64,
    pub(crate) bound: Vec<((u8, bool), Name)>,
    pub(crate) global: Option<Name>,
    pub(crate) alloc: Global,
}

impl Model for Config {
    ghost use Rattle.asa_config.specs.Settings.{Settings};
    ghost use Rattle.asa_config.specs.Soundness.{IsKept};

    ghost Value = { Settings };

    ghost view = { λ c. record {
      net = c.net;
      objects = c.objects;
      lists = c.table;
      bound = c.bound.items;
      global = c.global;
    } };

    ghost invariant = { λ c. IsKept c.objects c.net c.table c.pairs c.bound.items c.global };
}

impl Config {
    /// The configuration in which nothing is configured; takes no memory.
    pub fn empty(alloc: Global) -> Config
        ensures { result ≡ spec.nothing }
    {
        Config {
            net: Ifaces::new(alloc),
            objects: Objects::new(alloc),
            table: ListTable::new(alloc),
            pairs: 0,
            bound: Vec::new(alloc),
            global: None,
            alloc,
        }
    }

    /// The interfaces, the routes, the times, and what is permitted between interfaces of one level.
    pub fn ifaces(&self) -> &Ifaces
        ensures { result.now ≡ self.now.net }
    {
        &self.net
    }

    /// The objects and groups.
    pub fn objects(&self) -> &Objects
        ensures { result.now ≡ self.now.objects }
    {
        &self.objects
    }

    /// The list that has this name, or None exactly where none has it.
    pub fn list(&self, name: &Name) -> Option<&Acl>
        ensures { option_copied result ≡ spec.list_named self.now name.now }
    {
        match self.table.find(name) {
            Some(list) => Some(list.acl()),
            None => None,
        }
    }

    /// How many lists there are.
    pub fn list_count(&self) -> u32
        ensures value { result ≡ length self.now.lists }
        ensures few { result ≤ 1024 }
    {
        self.table.len() as u32
    }

    /// The n-th list, from 0, in order of first definition, or None exactly past the last one.
    pub fn list_at(&self, n: u32) -> Option<&Acl>
        ensures { option_copied result ≡ slice_get self.now.lists n }
    {
        match self.table.at(n as usize) {
            Some(list) => Some(list.acl()),
            None => None,
        }
    }

    /// The access groups of interfaces: the number of an interface and whether its inbound side, with the name of the list
    /// that is bound there. They stand interface by interface, inbound before outbound.
    pub fn bindings(&self) -> &[((u8, bool), Name)]
        ensures { result.now ≡ self.now.bound }
    {
        self.bound.as_slice()
    }

    /// The name of the list that is bound to the inbound side of every interface.
    pub fn global(&self) -> Option<&Name>
        ensures { option_copied result ≡ self.now.global }
    {
        self.global.as_ref()
    }

    /// The list that is bound to the inbound or the outbound side of an interface, or None exactly where none is.
    pub fn list_on(&self, ifc: u8, inbound: bool) -> Option<&Acl>
        ensures { option_copied result ≡ spec.list_on self.now ifc inbound }
    {
        match bound_to(self.bound.as_slice(), (ifc, inbound)) {
            Some(name) => self.list(name),
            None => None,
        }
    }

    /// The list that is bound to the inbound side of every interface, or None exactly where none is.
    pub fn global_list(&self) -> Option<&Acl>
        ensures { option_copied result ≡ spec.global_list self.now }
    {
        match &self.global {
            Some(name) => self.list(name),
            None => None,
        }
    }

    /// The number of prefix pairs of all lists.
    pub fn pair_count(&self) -> u64
        ensures value { result ≡ knowing.pair_count self.now }
        ensures few { result ≤ 262144 }
    {
        self.pairs
    }

    /// What the names of list lines stand for.
    pub(crate) fn scope(&self) -> Scope<'_>
        ensures objects { result.objects.now ≡ self.now.objects }
        ensures ifaces { result.ifaces.now ≡ self.now.net.ifaces }
    {
        Scope {
            objects: &self.objects,
            ifaces: self.net.ifaces(),
        }
    }

    /// The boxes of a list in the order of its lines; of a line source by source, in it destination by destination, in it
    /// service by service.
    pub fn boxes(&self, alloc: Global, list: &Acl) -> Result<Items<LineBox>, AllocError>
        ensures value { IfOk result (λ bs. bs ≡ knowing.boxes_under self.now list.now) }
        ensures pairs { IfOk result (λ bs. sum_by pairs.box_pairs bs ≡ pairs.list_pairs (knowing.meanings_of self.now) list.now.lines) }
    {
        boxes(alloc, &self.scope(), list.lines())
    }

    /// A copy, which shares the lists and the members of each object and group.
    pub fn copy(&self) -> Result<Config, AllocError>
        ensures { IfOk result (λ c. c ≡ self.now) }
    {
        Ok(Config {
            net: self.net.copy()?,
            objects: self.objects.copy()?,
            table: self.table.copy()?,
            pairs: self.pairs,
            bound: copy_bindings(self.alloc, self.bound.as_slice())?,
            global: copy_name(&self.global),
            alloc: self.alloc,
        })
    }
}

impl Names for Config {
    ghost use Rattle.asa_config.specs.Names.{known_of};

    ghost known = { λ c. known_of c };

    fn kind_of(&self, name: &Name) -> Option<Kind> {
        self.objects.kind_of(name)
    }

    fn interface_of(&self, name: &Name) -> Option<u8> {
        self.net.interface_of(name)
    }

    fn port_proto(&self, name: &Name) -> Option<PortProto> {
        self.objects.port_proto(name)
    }

    fn service_range(&self, name: &Name) -> Option<Service> {
        self.objects.service_range(name)
    }

    fn address_of(&self, ifc: u8) -> Option<Addr> {
        self.net.address_of(ifc)
    }
}

/// Whether the two sides of interfaces are the same.
pub(crate) fn is_same_side(a: (u8, bool), b: (u8, bool)) -> bool
    ensures { result ≡ spec.same_side a b }
{
    a.0 == b.0 && a.1 == b.1
}

/// The place of a side in their order.
fn side_place(side: (u8, bool)) -> u16
    ensures { result ≡ spec.side_place side }
{
    let after = if side.1 { 0 } else { 1 };
    2 * u16::from(side.0) + after
}

/// Whether one side of an interface stands before another: interface by interface, inbound before outbound.
pub(crate) fn is_side_before(a: (u8, bool), b: (u8, bool)) -> bool
    ensures { result ≡ spec.is_side_before a b }
{
    side_place(a) < side_place(b)
}

/// The name of the list that is bound to a side of an interface.
pub(crate) fn bound_to(bound: &[((u8, bool), Name)], side: (u8, bool)) -> Option<&Name>
    ensures { option_copied result ≡ spec.bound_to bound.now side }
{
    for (bound_side, name) in bound {
        if is_same_side(side, *bound_side) {
            return Some(name);
        }
    }
    None
}

/// A copy of a name, where there is one.
fn copy_name(name: &Option<Name>) -> Option<Name>
    ensures { result ≡ name.now }
{
    match name {
        Some(name) => Some(name.copy()),
        None => None,
    }
}

/// A copy of the bindings.
fn copy_bindings(
    alloc: Global,
    bindings: &[((u8, bool), Name)],
) -> Result<Vec<((u8, bool), Name)>, AllocError>
    ensures { IfOk result (λ v. v.items ≡ bindings.now) }
{
    let mut copied = Vec::with_capacity(alloc, bindings.len())?;
    for binding in bindings {
        copied.push((binding.0, binding.1.copy()))?;
    }
    Ok(copied)
}
