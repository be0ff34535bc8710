//! The interfaces, routes and times of a configuration, and their readers.
ghost use Rattle.std.specs.Prelude.{◌≡◌, ◌<◌, ◌≤◌, length, All, IfOk, IfSome, OnOk, OnErr, IsTrue};
ghost use Rattle.asa_ifaces.specs.Answers.{Changes, Makes, of_line};
ghost use Rattle.asa_ifaces.specs.Blocks.{interface_added, interface_step, with_interface};
ghost use Rattle.asa_ifaces.specs.Interfaces as spec;
ghost use Rattle.asa_ifaces.specs.Interfaces.{address_of, has_mask, interface_of, is_named, known_in, nothing};
ghost use Rattle.asa_ifaces.specs.Permits.{with_permits};
ghost use Rattle.asa_ifaces.specs.Routes.{has_route, no_route_line, no_route_step, route_added, route_line, route_removed, route_step};
ghost use Rattle.asa_ifaces.specs.Times.{timeout_line, timeout_step, with_times};

use crate::iface::{Iface, IfaceFault, RouteLine, Timeouts};
use crate::iface_block::{interface_of_block, place_of};
use crate::route::{self, put_route, take_route};
use crate::timeouts::read_timeout;
use asa_base::{Kind, Name, Names, PortProto, Service};
use asa_text::{Addr, Block, Line, LineFault, Words};
use std::alloc::{AllocError, Global};
use std::marker::Model;

/// The interfaces of a configuration, at most 64, its routes, at most 4,096, its times, and what it permits between
/// interfaces of one level.
#[derive(Debug, Drop)]
pub struct Ifaces {
    ifaces: Vec<Iface>,
    routes: Vec<RouteLine>,
    timeouts: Timeouts,
    inter: bool,
    intra: bool,
    alloc: Global,
}

impl Model for Ifaces {
    ghost use Rattle.asa_ifaces.specs.Interfaces.{Interfaces, IsSound};

    ghost Value = { Interfaces };

    ghost view = { λ i. record {
      ifaces = i.ifaces.items;
      routes = i.routes.items;
      timeouts = i.timeouts;
      inter = i.inter;
      intra = i.intra;
    } };

    ghost invariant = { λ i. IsSound (record {
      ifaces = i.ifaces.items;
      routes = i.routes.items;
      timeouts = i.timeouts;
      inter = i.inter;
      intra = i.intra;
    }) };
}

impl Ifaces {
    /// Nothing is configured: the times are an hour, ten minutes, two minutes and two seconds. It takes no memory.
    pub fn new(alloc: Global) -> Ifaces
        ensures { result ≡ nothing }
    {
        Ifaces {
            ifaces: Vec::new(alloc),
            routes: Vec::new(alloc),
            timeouts: Timeouts {
                conn: 3600,
                half_closed: 600,
                udp: 120,
                icmp: 2,
            },
            inter: false,
            intra: false,
            alloc,
        }
    }

    /// The interfaces in the order of their blocks; an interface's number is its place, from 0.
    #[tactic(auto, using(crate::proofs::SoundLaws::masks_are_masks))]
    pub fn ifaces(&self) -> &[Iface]
        ensures value { result.now ≡ self.now.ifaces }
        ensures few { length result.now ≤ 64 }
        ensures masks { All (λ i. IsTrue (has_mask i.addr)) result.now }
    {
        self.ifaces.as_slice()
    }

    /// The route lines in order.
    #[tactic(auto, using(crate::proofs::SoundLaws::routes_leave))]
    pub fn routes(&self) -> &[RouteLine]
        ensures value { result.now ≡ self.now.routes }
        ensures few { length result.now ≤ 4096 }
        ensures leave { All (λ r. r.ifc < length self.now.ifaces) result.now }
    {
        self.routes.as_slice()
    }

    /// The times, in seconds.
    pub fn timeouts(&self) -> Timeouts
        ensures { result ≡ self.now.timeouts }
    {
        self.timeouts
    }

    /// Whether packets may go between two interfaces of one level, and whether they may leave by the interface that they
    /// came in on.
    pub fn permits(&self) -> (bool, bool)
        ensures inter { result.0 ≡ self.now.inter }
        ensures intra { result.1 ≡ self.now.intra }
    {
        (self.inter, self.intra)
    }

    /// The number of the interface that has this name.
    pub fn interface_of(&self, name: &Name) -> Option<u8>
        ensures value { result ≡ interface_of self.now name.now }
        ensures within { IfSome result (λ n. n < length self.now.ifaces) }
    {
        let place = place_of(self.ifaces.as_slice(), name)?;
        Some(place as u8)
    }

    /// Whether there is an interface with this number, and it has a name.
    pub fn is_named(&self, ifc: u8) -> bool
        ensures { result ≡ is_named self.now ifc }
    {
        match self.ifaces().get(usize::from(ifc)) {
            Some(iface) => iface.name.is_some(),
            None => false,
        }
    }

    /// The own address of an interface: Some exactly where there is an interface with this number, and it has a name and
    /// an address.
    pub fn address_of(&self, ifc: u8) -> Option<Addr>
        ensures { result ≡ address_of self.now ifc }
    {
        match self.ifaces().get(usize::from(ifc)) {
            Some(iface) => named_address(iface),
            None => None,
        }
    }

    /// A copy.
    pub fn copy(&self) -> Result<Ifaces, AllocError>
        ensures { IfOk result (λ i. i ≡ self.now) }
    {
        Ok(Ifaces {
            ifaces: copy_ifaces(self.alloc, self.ifaces.as_slice())?,
            routes: Vec::from_slice(self.alloc, self.routes.as_slice())?,
            timeouts: self.timeouts,
            inter: self.inter,
            intra: self.intra,
            alloc: self.alloc,
        })
    }

    /// Adds an interface at the end.
    #[tactic(auto, using(crate::proofs::SoundLaws::sound_interface))]
    fn push_interface(&mut self, iface: Iface) -> Result<(), AllocError>
        requires room { length self.old.ifaces < 64 }
        requires mask { IsTrue (has_mask iface.addr) }
        ensures ok { OnOk result (self.new ≡ with_interface self.old iface) }
        ensures err { OnErr result (self.new ≡ self.old) }
    {
        self.ifaces.push(iface)?;
        Ok(())
    }

    /// Adds an interface at the end. TooMany comes exactly where there are 64.
    #[tactic(auto, unfolding(crate::specs::Blocks::interface_added))]
    fn add_interface(&mut self, iface: Iface) -> Result<(), IfaceFault>
        requires { IsTrue (has_mask iface.addr) }
        ensures { Makes result self.old self.new (interface_added self.old iface) }
    {
        if self.ifaces.len() >= 64 {
            return Err(IfaceFault::TooMany);
        }
        self.push_interface(iface)?;
        Ok(())
    }

    /// Takes the block of an interface, `interface HARDWARE` with its indented lines. After a refusal all is as before.
    #[tactic(auto, unfolding(crate::specs::Blocks::interface_step))]
    pub fn interface(&mut self, block: &Block) -> Result<(), IfaceFault>
        ensures { Makes result self.old self.new (interface_step self.old block.now) }
    {
        let iface = interface_of_block(self.ifaces.as_slice(), block)?;
        self.add_interface(iface)
    }

    /// What a line `route I A M A [DISTANCE]` states.
    pub fn read_route(&self, line: &Line) -> Result<RouteLine, LineFault>
        ensures value { result ≡ of_line (route_line self.now) line.now }
        ensures leaves { IfOk result (λ r. r.ifc < length self.now.ifaces) }
    {
        let mut words = Words::of(line.text.as_bytes());
        route::read_route(self, &mut words)
    }

    /// What a line `no route I A M A [DISTANCE]` states.
    pub fn read_no_route(&self, line: &Line) -> Result<RouteLine, LineFault>
        ensures value { result ≡ of_line (no_route_line self.now) line.now }
        ensures leaves { IfOk result (λ r. r.ifc < length self.now.ifaces) }
    {
        let mut words = Words::of(line.text.as_bytes());
        route::read_no_route(self, &mut words)
    }

    /// Whether there is a route that equals this one in interface, network and gateway.
    pub fn has_route(&self, route: &RouteLine) -> bool
        ensures { result ≡ has_route self.now.routes route.now }
    {
        route::has_route(self.routes.as_slice(), route)
    }

    /// Puts a route in the place of the one that it equals in interface, network and gateway, or last. TooMany comes
    /// exactly where it would be the 4,097th.
    #[tactic(auto, unfolding(crate::specs::Routes::route_added))]
    pub fn put_route(&mut self, route: RouteLine) -> Result<(), IfaceFault>
        requires { route.ifc < length self.old.ifaces }
        ensures { Makes result self.old self.new (route_added self.old route) }
    {
        put_route(&mut self.routes, route)
    }

    /// Removes the route that equals this one in interface, network and gateway. NoSuchLine comes exactly where there is
    /// none. It takes no memory.
    #[tactic(auto, unfolding(crate::specs::Routes::route_removed))]
    pub fn remove_route(&mut self, route: &RouteLine) -> Result<(), IfaceFault>
        ensures { Changes result self.old self.new (route_removed self.old route.now) }
    {
        take_route(&mut self.routes, route)
    }

    /// Takes a line `route I A M A [DISTANCE]`. A fault of the line is told as one of line 1. After a refusal all is as
    /// before.
    #[tactic(auto, unfolding(crate::specs::Routes::route_step))]
    pub fn route(&mut self, line: &Line) -> Result<(), IfaceFault>
        ensures { Makes result self.old self.new (route_step self.old line.now) }
    {
        match self.read_route(line) {
            Ok(route) => self.put_route(route),
            Err(fault) => Err(IfaceFault::Line { line: 1, fault }),
        }
    }

    /// Takes a line `no route I A M A [DISTANCE]`. A fault of the line is told as one of line 1. It takes no memory, and
    /// after a refusal all is as before.
    #[tactic(auto, unfolding(crate::specs::Routes::no_route_step))]
    pub fn no_route(&mut self, line: &Line) -> Result<(), IfaceFault>
        ensures { Changes result self.old self.new (no_route_step self.old line.now) }
    {
        match self.read_no_route(line) {
            Ok(route) => self.remove_route(&route),
            Err(fault) => Err(IfaceFault::Line { line: 1, fault }),
        }
    }

    /// What the times are after a line `timeout ..`.
    pub fn read_timeout(&self, line: &Line) -> Result<Timeouts, LineFault>
        ensures { result ≡ of_line (timeout_line self.now.timeouts) line.now }
    {
        let mut words = Words::of(line.text.as_bytes());
        read_timeout(self.timeouts, &mut words)
    }

    /// Sets the times, in seconds.
    pub fn set_timeouts(&mut self, timeouts: Timeouts)
        ensures { self.new ≡ with_times self.old timeouts }
    {
        self.timeouts = timeouts;
    }

    /// Takes a line `timeout ..`. It takes no memory, and after a fault all is as before.
    #[tactic(auto, unfolding(crate::specs::Times::timeout_step))]
    pub fn timeout(&mut self, line: &Line) -> Result<(), LineFault>
        ensures { Changes result self.old self.new (timeout_step self.old line.now) }
    {
        let timeouts = self.read_timeout(line)?;
        self.set_timeouts(timeouts);
        Ok(())
    }

    /// Sets whether packets may go between two interfaces of one level, and whether they may leave by the interface that
    /// they came in on; what is None stays as it is.
    pub fn same_security(&mut self, inter: Option<bool>, intra: Option<bool>)
        ensures { self.new ≡ with_permits self.old inter intra }
    {
        if let Some(inter) = inter {
            self.inter = inter;
        }
        if let Some(intra) = intra {
            self.intra = intra;
        }
    }
}

/// The names of interfaces alone are known here: no object and no group.
impl Names for Ifaces {
    ghost known = { known_in };

    fn kind_of(&self, _name: &Name) -> Option<Kind> {
        None
    }

    fn interface_of(&self, name: &Name) -> Option<u8> {
        self.interface_of(name)
    }

    fn port_proto(&self, _name: &Name) -> Option<PortProto> {
        None
    }

    fn service_range(&self, _name: &Name) -> Option<Service> {
        None
    }

    fn address_of(&self, ifc: u8) -> Option<Addr> {
        self.address_of(ifc)
    }
}

/// The own address of an interface that has a name.
fn named_address(iface: &Iface) -> Option<Addr>
    ensures { result ≡ spec.named_address iface.now }
{
    match (&iface.name, iface.addr) {
        (Some(_), Some((addr, _))) => Some(addr),
        _ => None,
    }
}

/// A copy of the interfaces.
fn copy_ifaces(alloc: Global, ifaces: &[Iface]) -> Result<Vec<Iface>, AllocError>
    ensures { IfOk result (λ v. v.items ≡ ifaces.now) }
{
    let mut copied = Vec::with_capacity(alloc, ifaces.len())?;
    for iface in ifaces {
        copied.push(iface.copy())?;
    }
    Ok(copied)
}
