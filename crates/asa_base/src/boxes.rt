//! Services and the boxes of list lines: sets of packets.
ghost use Rattle.std.specs.Prelude.{◌≡◌, ℕ};
ghost use Rattle.asa_base.specs.Boxes as spec;

use crate::flow::Packet;
use crate::range::{PortRange, Range};

/// A protocol with ranges of ports, or an ICMP type and code. What isn't stated holds for each packet; a range of all
/// ports counts as not stated.
#[derive(Clone, Copy, Debug, PartialEq, Eq, Hash)]
pub struct Service {
    /// The protocol, 1 to 255, where one is stated.
    pub proto: Option<u8>,
    /// The source ports.
    pub sport: PortRange,
    /// The destination ports.
    pub dport: PortRange,
    /// The ICMP type, where one is stated.
    pub itype: Option<u8>,
    /// The ICMP code, where one is stated.
    pub icode: Option<u8>,
}

/// The packets of one source range, one destination range and one service of a list line.
#[derive(Clone, Copy, Debug, PartialEq, Eq, Hash)]
pub struct LineBox {
    /// The source addresses.
    pub source: Range,
    /// The destination addresses.
    pub dest: Range,
    pub service: Service,
    /// The number of the line in its list, from 1.
    pub line: u32,
    /// Whether the line permits; otherwise it denies.
    pub permit: bool,
}

/// Whether nothing is stated, or this number.
fn is_unstated_or(stated: Option<u8>, number: u8) -> bool
    ensures { result ≡ spec.unstated_or stated number }
{
    match stated {
        None => true,
        Some(wanted) => wanted == number,
    }
}

impl Service {
    /// Every service: nothing is stated.
    pub fn any() -> Service
        ensures { result ≡ spec.any_service }
    {
        Service {
            proto: None,
            sport: PortRange::all(),
            dport: PortRange::all(),
            itype: None,
            icode: None,
        }
    }

    /// Whether the packet has the protocol, ports within both ranges, and the ICMP type and code, as far as they are
    /// stated.
    pub fn holds(&self, packet: &Packet) -> bool
        ensures { result ≡ spec.service_holds self.now packet.now }
    {
        is_unstated_or(self.proto, packet.proto)
            && self.sport.holds(packet.sport)
            && self.dport.holds(packet.dport)
            && is_unstated_or(self.itype, packet.itype)
            && is_unstated_or(self.icode, packet.icode)
    }
}

impl LineBox {
    /// Whether both addresses of the packet lie in the ranges, and the service holds it.
    pub fn holds(&self, packet: &Packet) -> bool
        ensures { result ≡ spec.box_holds self.now packet.now }
    {
        self.source.holds(packet.src) && self.dest.holds(packet.dst) && self.service.holds(packet)
    }
}
