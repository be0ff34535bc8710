//! What a connection holds of a pool.
use asa_base::Addr;

/// What a pool gives to a flow.
#[derive(Clone, Copy, Debug, PartialEq, Eq)]
pub enum Mapped {
    /// A port of an address. `to` is the real destination and its port where the address is extended, and None for a
    /// plain one.
    Pat {
        addr: Addr,
        port: u16,
        to: Option<(Addr, u16)>,
    },
    /// A whole address.
    Bound {
        addr: Addr,
    },
}

/// A port of an address that a live connection holds.
#[derive(Clone, Copy, Debug, PartialEq, Eq)]
pub struct Held {
    pub proto: u8,
    pub addr: Addr,
    pub port: u16,
    /// The real destination and its port where the translation is extended, None for a plain one.
    pub to: Option<(Addr, u16)>,
}

/// A whole address that a live connection holds.
#[derive(Clone, Copy, Debug, PartialEq, Eq)]
pub struct Binding {
    pub addr: Addr,
    /// The number of the interface on which the connection's packets come in.
    pub ifc: u8,
    /// The real source address.
    pub src: Addr,
}

/// Who asks a pool: a packet, and its real destination.
#[derive(Clone, Copy, Debug)]
pub(crate) struct Flow {
    /// The number of the interface on which the packet comes in.
    pub ifc: u8,
    pub proto: u8,
    pub src: Addr,
    pub sport: u16,
    /// The real destination.
    pub dst: Addr,
    pub dport: u16,
}
