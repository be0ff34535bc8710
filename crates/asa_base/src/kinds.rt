//! What the readers of lines must know of the names in them.
ghost use Rattle.std.specs.Prelude.{◌≡◌};
ghost use Rattle.asa_base.specs.Kinds.{Known};

use crate::boxes::Service;
use crate::names::Name;
use asa_text::Addr;

/// What an object or a group is.
#[derive(Clone, Copy, Debug, PartialEq, Eq, Hash)]
pub enum Kind {
    NetObject,
    ServiceObject,
    NetGroup,
    ServiceGroup,
    PortGroup,
    ProtocolGroup,
    IcmpGroup,
}

/// The protocol word of a group of ports.
#[derive(Clone, Copy, Debug, PartialEq, Eq, Hash)]
pub enum PortProto {
    Tcp,
    Udp,
    TcpUdp,
}

/// The objects, groups and interfaces that a line may name.
pub trait Names {
    /// What is known of each name.
    ghost known: { Self → Known };

    /// The kind of an object or a group, or None exactly where none has the name.
    fn kind_of(&self, name: &Name) -> Option<Kind>
        ensures { result ≡ (known self.now).kind_of name.now };

    /// The number of an interface, or None exactly where none has the name.
    fn interface_of(&self, name: &Name) -> Option<u8>
        ensures { result ≡ (known self.now).interface_of name.now };

    /// The protocol word of a group of ports, or None exactly where the name isn't that of such a group.
    fn port_proto(&self, name: &Name) -> Option<PortProto>
        ensures { result ≡ (known self.now).port_proto name.now };

    /// The service of a service object, or None exactly where the name isn't that of a service object of tcp or udp
    /// with one service.
    fn service_range(&self, name: &Name) -> Option<Service>
        ensures { result ≡ (known self.now).service_range name.now };

    /// The address of an interface, or None exactly where no named interface with an address has the number.
    fn address_of(&self, ifc: u8) -> Option<Addr>
        ensures { result ≡ (known self.now).address_of ifc };
}
