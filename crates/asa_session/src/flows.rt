//! The packets of the script so far, with a look-up of their ends.
ghost use Rattle.std.specs.Prelude.{◌≡◌, ◌==◌, ◌≤◌, ◌<◌, [], ◌∷◌, ◌++◌, length, OnOk, OnErr};
ghost use Rattle.asa_session.specs.Scripts as spec;

use asa_base::Packet;
use asa_text::Addr;
use std::alloc::{AllocError, Global};
use std::collections::HashSet;
use std::marker::Model;

/// At most so many packets are built.
const MOST_PACKETS: usize = 8192;

/// An end of a flow.
#[derive(Clone, Copy, Debug, PartialEq, Eq, Hash)]
struct End {
    addr: Addr,
    port: u16,
}

/// The two ends of a flow, in the direction of a packet.
#[derive(Clone, Copy, Debug, PartialEq, Eq, Hash)]
struct Ends {
    from: End,
    to: End,
}

/// The packets of the script so far. Whether one of them has given ends is one look-up.
#[derive(Drop)]
pub(crate) struct Flows {
    packets: Vec<Packet>,
    ends: HashSet<Ends>,
}

impl Model for Flows {
    ghost use Rattle.std.specs.Prelude.{List, ◌≤◌, length};
    ghost use Rattle.asa_base.specs.declared.flow.Packet.{Packet};
    ghost use Rattle.asa_session.specs.Directions.{Finds};

    ghost Value = { List Packet };

    ghost view = { λ f. f.packets.items };

    ghost invariant = { λ f. record {
      finds : Finds f.ends.keys f.packets.items;
      few : length f.packets.items ≤ 8192;
    } };
}

impl Ends {
    ghost use Rattle.std.specs.Prelude.{not};
    ghost use Rattle.asa_session.specs.Directions.{ends_of, turned};

    /// The ends of a packet.
    fn of(p: &Packet) -> Ends
        ensures { result ≡ ends_of p.now }
    {
        Ends {
            from: End {
                addr: p.src,
                port: p.sport,
            },
            to: End {
                addr: p.dst,
                port: p.dport,
            },
        }
    }

    /// The same ends in the other direction.
    fn turned(self) -> Ends
        ensures { result ≡ turned self }
    {
        Ends {
            from: self.to,
            to: self.from,
        }
    }

    /// Whether the two ends differ.
    fn differ(self) -> bool
        ensures { result ≡ not (spec.same_end self.from.addr self.from.port self.to.addr self.to.port) }
    {
        self.from != self.to
    }
}

impl Flows {
    ghost use Rattle.std.specs.Prelude.{◌||◌};
    ghost use Rattle.asa_session.specs.Directions.{has_direction, turned};

    /// No packet yet; takes no memory.
    pub(crate) fn new(alloc: Global) -> Flows
        ensures { result ≡ [] }
    {
        Flows {
            packets: Vec::new(alloc),
            ends: HashSet::new(alloc),
        }
    }

    /// The packets in their order.
    pub(crate) fn as_slice(&self) -> &[Packet]
        ensures value { result.now ≡ self.now }
        ensures few { length result.now ≤ 8192 }
    {
        self.packets.as_slice()
    }

    /// Whether no further packet is built.
    pub(crate) fn is_full(&self) -> bool
        ensures value { result ≡ (length self.now == 8192) }
        ensures few { length self.now ≤ 8192 }
    {
        self.packets.len() == MOST_PACKETS
    }

    #[tactic(auto, using(crate::proofs::EndsLaws::any_same_ends))]
    /// Whether the packet's ends differ and no packet so far has the same two.
    pub(crate) fn has_new_ends(&self, p: &Packet) -> bool
        ensures { result ≡ spec.has_new_ends self.now p.now }
    {
        let ends = Ends::of(p);
        ends.differ() && !self.has_either(ends)
    }

    /// Whether a packet so far has these ends, in either direction.
    fn has_either(&self, ends: Ends) -> bool
        ensures { result ≡ (has_direction self.now ends || has_direction self.now (turned ends)) }
    {
        self.has(ends) || self.has(ends.turned())
    }

    /// Whether a packet so far has these ends in this direction.
    fn has(&self, ends: Ends) -> bool
        ensures { result ≡ has_direction self.now ends }
    {
        self.ends.contains(&ends)
    }

    /// Puts a packet last. On want of memory the packets stay as they were.
    pub(crate) fn add(&mut self, p: Packet) -> Result<(), AllocError>
        requires { length self.old < 8192 }
        ensures ok { OnOk result (self.new ≡ self.old ++ p ∷ []) }
        ensures err { OnErr result (self.new ≡ self.old) }
    {
        self.packets.reserve(1)?;
        self.ends.insert(Ends::of(&p))?;
        match self.packets.push(p) {
            Ok(()) => Ok(()),
            Err(_) => unreachable!(),
        }
    }
}
