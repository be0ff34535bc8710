//! The table of what live connections hold of pools.
ghost use Rattle.std.specs.Prelude.{◌≡◌, ◌-◌, ◌<◌, ◌≤◌, ◌^◌, true, not, [], ◌==◌, ◌&&◌, ◌||◌, IfOk};
ghost use Rattle.std.specs.List.{find, list_all, list_any, range_with_len};
ghost use Rattle.asa_pools.specs.Keys.{same_binding, same_held};
ghost use Rattle.asa_pools.specs.Pools as spec;
ghost use Rattle.asa_pools.specs.Table.{key_of, part_of};

use crate::held::{Binding, Flow, Held, Mapped};
use crate::key::{Key, Port, Wanted};
use crate::tally::Tally;
use asa_base::{Addr, Range};
use std::alloc::{AllocError, Global};
use std::marker::Model;

/// What live connections hold of the pools of dynamic rules. Contracts see the list of the held ports (`held`), the list
/// of the whole addresses that are held (`bound`), each by no order and with one element for each connection, and how many
/// may be held at once (`room`). All memory is taken by `new`.
#[derive(Drop)]
pub struct PortTable {
    tally: Tally,
    used: u32,
    capacity: u32,
}

impl Model for PortTable {
    ghost use Rattle.asa_pools.specs.Pools.{Ports};
    ghost use Rattle.asa_pools.specs.Table.{IsTable, ports_of};

    ghost Value = { Ports };

    ghost view = { ports_of };

    ghost invariant = { IsTable };
}

/// Whether both hold.
fn both(a: bool, b: bool) -> bool
    ensures { result ≡ (a && b) }
{
    a && b
}

/// What is counted with a value: the held port, or the binding.
fn key_of(m: &Mapped, ifc: u8, proto: u8, src: Addr) -> Key
    ensures { result ≡ key_of m.now ifc proto src }
{
    match *m {
        Mapped::Pat { addr, port, to } => Key::Held(Held {
            proto,
            addr,
            port,
            to,
        }),
        Mapped::Bound { addr } => Key::Binding(Binding { addr, ifc, src }),
    }
}

/// What is counted with a value beside: the port, whoever holds it, or the address.
fn part_of(m: &Mapped, proto: u8) -> Key
    ensures { result ≡ part_of m.now proto }
{
    match *m {
        Mapped::Pat { addr, port, .. } => Key::Port(Port { proto, addr, port }),
        Mapped::Bound { addr } => Key::Address(addr),
    }
}

impl PortTable {
    /// A table of nothing, in which at most `capacity` values are held at once, at most 1,048,576.
    pub fn new(alloc: Global, capacity: u32) -> Result<PortTable, AllocError>
        requires { capacity ≤ 2 ^ 20 }
        ensures held { IfOk result (λ t. t.held ≡ []) }
        ensures bound { IfOk result (λ t. t.bound ≡ []) }
        ensures room { IfOk result (λ t. t.room ≡ capacity) }
    {
        let tally = Tally::new(alloc, 2 * capacity)?;
        Ok(PortTable {
            tally,
            used: 0,
            capacity,
        })
    }

    /// Whether no connection holds this port to this end.
    fn has_no_held(&self, held: Held) -> bool
        ensures { result ≡ not (list_any (same_held held) self.now.held) }
    {
        self.tally.times(Key::Held(held)) == 0
    }

    /// Whether no connection holds this port.
    fn has_no_port(&self, proto: u8, addr: Addr, port: u16) -> bool
        ensures { result ≡ not (list_any (spec.is_at proto addr port) self.now.held) }
    {
        self.tally.times(Key::Port(Port { proto, addr, port })) == 0
    }

    /// Whether nobody has bound an address.
    pub(crate) fn is_unbound(&self, addr: Addr) -> bool
        ensures { result ≡ not (list_any (λ b. addr.0 == b.addr.0) self.now.bound) }
    {
        self.tally.times(Key::Address(addr)) == 0
    }

    /// Whether nobody has bound an address but this input and source.
    fn is_bound_by_no_other(&self, binding: Binding) -> bool
        ensures { result ≡ list_all (λ b. not (binding.addr.0 == b.addr.0) || same_binding binding b) self.now.bound }
    {
        self.tally.times(Key::Address(binding.addr)) == self.tally.times(Key::Binding(binding))
    }

    /// Whether no connection keeps a port from a flow to `end`: any that holds it, but that on an extended address one
    /// that holds it to another end doesn't count.
    pub(crate) fn is_open(
        &self,
        proto: u8,
        extended: bool,
        end: (Addr, u16),
        addr: Addr,
        port: u16,
    ) -> bool
        ensures { result ≡ spec.is_open self.now.held proto extended end addr port }
    {
        if extended {
            self.is_open_to(proto, end, addr, port)
        } else {
            self.has_no_port(proto, addr, port)
        }
    }

    /// Whether a port of an extended address is open to a flow to `end`.
    fn is_open_to(&self, proto: u8, end: (Addr, u16), addr: Addr, port: u16) -> bool
        ensures { result ≡ spec.is_open self.now.held proto true end addr port }
    {
        let plain = Held {
            proto,
            addr,
            port,
            to: None,
        };
        let same = Held {
            proto,
            addr,
            port,
            to: Some(end),
        };
        both(self.has_no_held(plain), self.has_no_held(same))
    }

    /// Whether each connection that holds a port may share it with a new one to `to`.
    fn is_port_untaken(&self, proto: u8, addr: Addr, port: u16, to: Option<(Addr, u16)>) -> bool
        ensures { result ≡ list_all (λ h. not (spec.is_at proto addr port h) || spec.may_share to h) self.now.held }
    {
        match to {
            None => self.has_no_port(proto, addr, port),
            Some(end) => self.is_open_to(proto, end, addr, port),
        }
    }

    /// Whether a value is free.
    fn is_untaken(&self, m: &Mapped, ifc: u8, proto: u8, src: Addr) -> bool
        ensures { result ≡ spec.is_untaken self.now m.now ifc proto src }
    {
        match *m {
            Mapped::Pat { addr, port, to } => self.is_port_untaken(proto, addr, port, to),
            Mapped::Bound { addr } => self.is_bound_by_no_other(Binding { addr, ifc, src }),
        }
    }

    /// Whether a value may be taken: fewer than the capacity are held, and it is free. A port is free where each
    /// connection that holds it is extended, as the value is, and has another end; an address where nobody has bound it
    /// but this input and source.
    pub fn fits(&self, m: &Mapped, ifc: u8, proto: u8, src: Addr) -> bool
        ensures { result ≡ spec.fits self.now m.now ifc proto src }
    {
        both(
            self.used < self.capacity,
            self.is_untaken(m, ifc, proto, src),
        )
    }

    /// Whether a value is held.
    pub fn holds(&self, m: &Mapped, ifc: u8, proto: u8, src: Addr) -> bool
        ensures { result ≡ spec.is_held self.now m.now ifc proto src }
    {
        self.tally.times(key_of(m, ifc, proto, src)) > 0
    }

    /// Takes a value, which fits.
    pub fn take(&mut self, m: &Mapped, ifc: u8, proto: u8, src: Addr)
        requires { spec.fits self.old m.now ifc proto src ≡ true }
        ensures lists { spec.OneMore m.now ifc proto src self.old self.new }
        ensures room { self.new.room ≡ self.old.room }
    {
        self.tally.add(key_of(m, ifc, proto, src));
        self.tally.add(part_of(m, proto));
        self.used += 1;
    }

    /// Gives a value back, which is held; what other connections hold stays.
    pub fn release(&mut self, m: &Mapped, ifc: u8, proto: u8, src: Addr)
        requires { spec.is_held self.old m.now ifc proto src ≡ true }
        ensures lists { spec.OneMore m.now ifc proto src self.new self.old }
        ensures room { self.new.room ≡ self.old.room }
    {
        self.tally.remove(key_of(m, ifc, proto, src));
        self.tally.remove(part_of(m, proto));
        self.used -= 1;
    }

    /// The first address of a range that the flow's input and source have bound.
    pub(crate) fn own_address(&self, flow: &Flow, range: Range) -> Option<u32>
        ensures { result ≡ spec.own_address self.now flow.now range }
    {
        let first = u64::from(range.first.0);
        let stop = u64::from(range.last.0) + 1;
        self.own_in(flow, first, stop)
    }

    /// The first number from `first` on and below `stop` of an address that the flow's input and source have bound.
    fn own_in(&self, flow: &Flow, first: u64, stop: u64) -> Option<u32>
        requires order { first < stop }
        requires small { stop ≤ 2 ^ 32 }
        ensures { result ≡ find (spec.is_own self.now flow.now) (range_with_len first (stop - first)) }
    {
        let mut end = stop;
        let mut best = None;
        while first < end {
            match self.bound_between(flow, first as u32, (end - 1) as u32) {
                Some(number) => {
                    best = Some(number);
                    end = u64::from(number);
                }
                None => return best,
            }
        }
        best
    }

    /// An address between two that the flow's input and source have bound.
    fn bound_between(&self, flow: &Flow, first: u32, last: u32) -> Option<u32>
        ensures { spec.IsBoundBetween self.now flow.now first last result }
    {
        let wanted = Wanted::Between {
            ifc: flow.ifc,
            src: flow.src,
            first: Addr(first),
            last: Addr(last),
        };
        match self.tally.key(self.tally.find(wanted)?) {
            Key::Binding(binding) => Some(binding.addr.0),
            _ => None,
        }
    }
}
