//! Packets, the keys and headers of their flows, and what decides them.
use crate::names::Name;
use asa_text::Addr;

/// A packet as it comes in on an interface.
#[derive(Clone, Copy, Debug, PartialEq, Eq)]
pub struct Packet {
    /// The number of the interface that it comes in on.
    pub ifc: u8,
    /// The protocol, 1 to 255.
    pub proto: u8,
    pub src: Addr,
    /// The source port; for ICMP the identifier but for an echo reply; 0 for a protocol without ports.
    pub sport: u16,
    pub dst: Addr,
    /// The destination port; for an ICMP echo reply the identifier; 0 for a protocol without ports.
    pub dport: u16,
    /// The TCP flags S = 1, A = 2, F = 4 and R = 8; 0 for every other protocol.
    pub flags: u8,
    /// The ICMP type; 0 for every other protocol.
    pub itype: u8,
    /// The ICMP code; 0 for every other protocol.
    pub icode: u8,
}

/// What the packets of one direction of a flow share.
#[derive(Clone, Copy, Debug, PartialEq, Eq)]
pub struct Key {
    pub ifc: u8,
    pub proto: u8,
    /// 1 for an ICMP echo, 2 for its reply, 3 for another ICMP packet, 0 for every other protocol.
    pub kind: u8,
    pub src: Addr,
    pub sport: u16,
    pub dst: Addr,
    pub dport: u16,
}

/// The addresses and ports of a packet.
#[derive(Clone, Copy, Debug, PartialEq, Eq)]
pub struct Header {
    pub src: Addr,
    pub sport: u16,
    pub dst: Addr,
    pub dport: u16,
}

/// The place of a NAT rule: its section, 1 to 3, and its place in it, from 1.
#[derive(Clone, Copy, Debug, PartialEq, Eq)]
pub struct NatPlace {
    pub section: u8,
    pub place: u32,
}

/// What permits or denies a packet at an interface.
#[derive(Clone, Debug, PartialEq, Eq, Drop)]
pub enum AccessBy {
    /// No list is bound there.
    NoList,
    /// The levels of the two interfaces.
    Level,
    /// The line, from 1, of the list that is bound to the interface.
    List { name: Name, line: u32 },
    /// The line, from 1, of the global list.
    Global { name: Name, line: u32 },
    /// The implicit deny at the end of the lists.
    Implicit,
}
