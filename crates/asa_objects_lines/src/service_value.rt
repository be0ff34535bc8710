//! Service values: a protocol with its ports, or with an ICMP type and code.
ghost use Rattle.std.specs.Prelude.{◌≡◌};

use asa_base::Ports;

/// The protocol of a service value.
#[derive(Clone, Copy, Debug, PartialEq, Eq, Hash)]
pub enum ServiceProtocol {
    /// `ip`: every protocol; none is stated.
    Every,
    /// `tcp-udp`: TCP, and UDP as a second service.
    TcpUdp,
    /// One protocol by its number: 6 for `tcp`, 17 for `udp`, 1 for `icmp`.
    One(u8),
}

/// What `service ..` of a service object and `service-object ..` of a group state. Ports are stated with TCP and UDP
/// alone, a type with ICMP alone, and a code beside a type alone.
#[derive(Clone, Copy, Debug, PartialEq, Eq, Hash)]
pub struct ServiceValue {
    /// The protocol or protocols.
    pub protocol: ServiceProtocol,
    /// The source ports; all ports where none are stated.
    pub source: Ports,
    /// The destination ports; all ports where none are stated.
    pub dest: Ports,
    /// The ICMP type, where one is stated.
    pub itype: Option<u8>,
    /// The ICMP code, where one is stated.
    pub icode: Option<u8>,
}
