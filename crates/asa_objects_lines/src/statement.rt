//! What the indented lines of a block say.
ghost use Rattle.std.specs.Prelude.{◌≡◌};

use crate::service_value::ServiceValue;
use asa_base::{Member, Name, PortRange};

/// A member of a group. Two members are equal where they mean the same, as `eq 80` and `range 80 80` do.
#[derive(Clone, Debug, Drop, PartialEq, Eq, Hash)]
pub enum Item {
    /// Addresses, of a network group. A mask of 32 ones is a host.
    Network(Member),
    /// Services, of a service group.
    Service(ServiceValue),
    /// Destination ports, of a group of ports.
    Port(PortRange),
    /// A protocol, of a protocol group; `None` is every protocol.
    Protocol(Option<u8>),
    /// An ICMP type, of a group of ICMP types.
    IcmpType(u8),
    /// A network object in a network group, or a service object in a service group.
    Object(Name),
    /// A group of the same kind.
    Group(Name),
}

impl Item {
    /// The same member.
    pub fn copy(&self) -> Item
        ensures { result ≡ self.now }
    {
        match self.clone() {
            Ok(item) => item,
            Err(_) => unreachable!(),
        }
    }
}

/// The value of an object.
#[derive(Clone, Copy, Debug, PartialEq, Eq, Hash)]
pub enum ObjectValue {
    /// Of a network object. A mask of 32 ones stays a subnet.
    Network(Member),
    /// Of a service object. Its protocol is never `TcpUdp`.
    Service(ServiceValue),
}

/// What an indented line of a block says.
#[derive(Clone, Debug, Drop, PartialEq, Eq)]
pub enum Statement {
    /// The object's value, in place of an earlier one.
    Value(ObjectValue),
    /// A member of the group.
    Member(Item),
    /// A member that the group is to lose.
    Removed(Item),
    /// Nothing: a description.
    Nothing,
    /// A NAT rule of a network object. The words after `nat` are still to be read.
    Nat,
    /// The network object is to lose its NAT rule. The words after `no nat` are still to be read, and mean nothing.
    NoNat,
}
