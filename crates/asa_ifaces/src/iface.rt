//! What is held of interfaces, routes and times, and why a block or a line is refused.
ghost use Rattle.std.specs.Prelude.{◌≡◌};

use asa_base::{Name, Prefix};
use asa_text::{Addr, LineFault};
use std::alloc::AllocError;

/// An interface of the device.
#[derive(Clone, Debug, Drop, PartialEq, Eq)]
pub struct Iface {
    /// The name that the device gives it, as in `interface GigabitEthernet0/0`.
    pub hardware: Name,
    /// Its name in the policy. An interface without one takes no part in the policy.
    pub name: Option<Name>,
    /// Its security level, 0 to 100: the stated one, or else 100 for the name `inside` and 0 for every other. It is 0
    /// for an interface without a name.
    pub level: u8,
    /// Its own address and the number of ones of its mask.
    pub addr: Option<(Addr, u8)>,
    /// Whether it is shut down.
    pub shutdown: bool,
}

impl Iface {
    /// A copy, which takes no memory.
    pub fn copy(&self) -> Iface
        ensures { result ≡ self.now }
    {
        Iface {
            hardware: self.hardware.copy(),
            name: self.name.as_ref().map(|n| n.copy()),
            level: self.level,
            addr: self.addr,
            shutdown: self.shutdown,
        }
    }
}

/// A route line.
#[derive(Clone, Copy, Debug, PartialEq, Eq)]
pub struct RouteLine {
    /// The number of the interface by which the route leaves.
    pub ifc: u8,
    /// The network that it covers.
    pub prefix: Prefix,
    /// The next device on the way.
    pub gateway: Addr,
    /// Its distance, 1 to 255.
    pub distance: u8,
}

/// How many seconds a connection may stand still; 0 means for ever.
#[derive(Clone, Copy, Debug, PartialEq, Eq)]
pub struct Timeouts {
    /// A TCP connection that is open on both sides.
    pub conn: u32,
    /// A TCP connection that one side has closed.
    pub half_closed: u32,
    /// A UDP flow, and one of a protocol without ports.
    pub udp: u32,
    /// An ICMP flow.
    pub icmp: u32,
}

/// What a line `same-security-traffic` states of the two permits; None where it says nothing of one.
#[derive(Clone, Copy, Debug, PartialEq, Eq)]
pub struct Permits {
    /// Whether packets may go between two interfaces of one level.
    pub inter: Option<bool>,
    /// Whether packets may leave by the interface that they came in on.
    pub intra: Option<bool>,
}

/// Why an interface block or a route line is refused. Lines count from 1 in the block.
#[derive(Clone, Copy, Debug, PartialEq, Eq)]
pub enum IfaceFault {
    /// A line isn't read.
    Line { line: u32, fault: LineFault },
    /// The hardware name of line 1, or the name that a later line states, is that of an interface already.
    NameTaken { line: u32 },
    /// There is no such route to remove.
    NoSuchLine,
    /// There would be more than 64 interfaces or more than 4,096 routes.
    TooMany,
    /// Memory ran out.
    NoMemory,
}

impl From<AllocError> for IfaceFault {
    ghost use Rattle.std.specs.Prelude.{◌≡◌};
    ghost use Rattle.asa_ifaces.specs.declared.iface.IfaceFault.TheVariants as fault;

    ghost from_gives = { λ _ f. f ≡ fault.NoMemory };

    fn from(_: AllocError) -> IfaceFault {
        IfaceFault::NoMemory
    }
}
