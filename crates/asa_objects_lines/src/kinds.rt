//! Kinds of blocks.
ghost use Rattle.std.specs.Prelude.{◌≡◌};
ghost use Rattle.asa_objects_lines.specs.Blocks as spec;

use asa_base::{Kind, PortProto};

/// What a group is a group of.
#[derive(Clone, Copy, Debug, PartialEq, Eq, Hash)]
pub enum GroupKind {
    /// Addresses.
    Network,
    /// Services, each with its own protocol.
    Service,
    /// Ports, of the protocol that the group's first line states.
    Port(PortProto),
    /// Protocols.
    Protocol,
    /// ICMP types.
    IcmpType,
}

/// What a block of an object or a group defines.
#[derive(Clone, Copy, Debug, PartialEq, Eq, Hash)]
pub enum BlockKind {
    /// A network object: one value, and maybe a NAT rule.
    NetObject,
    /// A service object: one value.
    ServiceObject,
    /// A group.
    Group(GroupKind),
}

impl GroupKind {
    /// The kind of the group's name. Groups of ports of different protocols have one kind.
    pub fn kind(self) -> Kind
        ensures { result ≡ spec.kind_of_group self }
    {
        match self {
            GroupKind::Network => Kind::NetGroup,
            GroupKind::Service => Kind::ServiceGroup,
            GroupKind::Port(_) => Kind::PortGroup,
            GroupKind::Protocol => Kind::ProtocolGroup,
            GroupKind::IcmpType => Kind::IcmpGroup,
        }
    }
}

impl BlockKind {
    /// The kind of the name that the block defines.
    pub fn kind(self) -> Kind
        ensures { result ≡ spec.kind_of_block self }
    {
        match self {
            BlockKind::NetObject => Kind::NetObject,
            BlockKind::ServiceObject => Kind::ServiceObject,
            BlockKind::Group(group) => group.kind(),
        }
    }
}
