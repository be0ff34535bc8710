//! What the names of list lines stand for under a configuration.
ghost use Rattle.std.specs.Prelude.{◌≡◌};
ghost use Rattle.asa_acl_table.specs.Names as spec;
ghost use Rattle.asa_ifaces.specs.Interfaces.{named_address};

use asa_acl_boxes::Meaning;
use asa_base::{Addr, Member, Name, Service};
use asa_ifaces::Iface;
use asa_objects::Objects;
use asa_text::Items;
use std::alloc::{AllocError, Global};

/// The objects, groups and interfaces that list lines may name.
#[derive(Clone, Copy, Debug)]
pub struct Scope<'a> {
    /// The objects and groups.
    pub objects: &'a Objects,
    /// The interfaces in order of their numbers.
    pub ifaces: &'a [Iface],
}

/// The own address of an interface that has a name.
fn own_address(iface: &Iface) -> Option<Addr>
    ensures { result ≡ named_address iface.now }
{
    match (&iface.name, iface.addr) {
        (Some(_), Some((addr, _))) => Some(addr),
        _ => None,
    }
}

/// The address of the interface with this number.
fn address_in(ifaces: &[Iface], ifc: u8) -> Option<Addr>
    ensures { result ≡ spec.address_in ifaces.now ifc }
{
    match ifaces.get(usize::from(ifc)) {
        Some(iface) => own_address(iface),
        None => None,
    }
}

impl<'a> Meaning for Scope<'a> {
    ghost use Rattle.asa_acl_table.specs.Names.{meanings_in};

    ghost meanings = { λ s. meanings_in s.objects.now s.ifaces.now };

    fn member_count(&self, name: &Name) -> u64 {
        self.objects.member_count(name)
    }

    fn prefix_count(&self, name: &Name) -> u64 {
        self.objects.prefix_total(name)
    }

    fn service_count(&self, name: &Name) -> u64 {
        self.objects.service_count(name)
    }

    fn members(&self, alloc: Global, name: &Name) -> Result<Items<Member>, AllocError> {
        self.objects.members(alloc, name)
    }

    fn services(&self, alloc: Global, name: &Name) -> Result<Items<Service>, AllocError> {
        self.objects.services(alloc, name)
    }

    fn address_of(&self, ifc: u8) -> Option<Addr> {
        address_in(self.ifaces, ifc)
    }
}
