//! What deciding a flow can come to: the decision of a flow that passes, the reason of a drop, and the steps on the way.
ghost use Rattle.std.specs.Prelude.{◌≡◌};

use arrayvec::ArrayVec;
use asa_base::{AccessBy, Addr, Header, NatPlace};

/// How the egress interface of a flow was found.
#[derive(Clone, Copy, Debug, PartialEq, Eq)]
pub enum Route {
    /// By the network of an interface's own address.
    Connected,
    /// By this route line of the configuration, counted from 1.
    Static(u32),
    /// By the destination case of a NAT rule.
    Nat,
}

/// What becomes of a flow's source.
#[derive(Clone, Copy, Debug, PartialEq, Eq)]
pub enum SourceMap {
    /// It stays.
    Plain,
    /// A static rule maps it to this address and port.
    Static {
        place: NatPlace,
        src: Addr,
        sport: u16,
    },
    /// A dynamic rule maps it; `pool` is the index, from 0, of the rule's case.
    Dynamic {
        place: NatPlace,
        pool: u32,
    },
}

/// What a flow that passes all steps is given.
#[derive(Clone, Debug, PartialEq, Eq, Drop)]
pub struct Decision {
    /// The number of the interface that it leaves by.
    pub egress: u8,
    /// The real destination.
    pub dst: Addr,
    /// The real destination's port.
    pub dport: u16,
    /// What becomes of its source.
    pub source: SourceMap,
    /// The NAT rule that the real destination comes from, if there is one.
    pub unnat: Option<NatPlace>,
    /// How the egress was found.
    pub route: Route,
    /// What let it in.
    pub inbound: AccessBy,
    /// What let it out.
    pub outbound: AccessBy,
}

/// Why a packet is dropped.
#[derive(Clone, Debug, PartialEq, Eq, Drop)]
pub enum DropReason {
    /// A TCP packet that can't open a connection.
    NotSyn,
    /// The destination is the own address of this interface.
    ToTheBox {
        ifc: u8,
    },
    /// No route covers the destination.
    NoRoute,
    /// Input and egress are two interfaces of equal levels.
    InterInterface,
    /// Input and egress are one interface.
    IntraInterface,
    /// An inbound list denies it.
    AclIn {
        by: AccessBy,
    },
    /// The input's level is lower than the egress's, and no list rules.
    Level,
    /// The dynamic rule at this place has nothing for the packet's protocol.
    NatProto {
        place: NatPlace,
    },
    /// The replies would not find the way back: the destination case of the packet, and the source case of the reply.
    ReversePath {
        unnat: Option<NatPlace>,
        reply: Option<NatPlace>,
    },
    /// The outbound list denies it.
    AclOut {
        by: AccessBy,
    },
    /// As many connections live as the capacity.
    ConnLimit,
    /// The pool of the rule at this place has no value left.
    PoolExhausted {
        place: NatPlace,
    },
    /// A key of the flow is held by this connection; none where the flow's own two keys are equal.
    Collision {
        id: Option<u64>,
    },
}

/// A step of a packet's way.
#[derive(Clone, Copy, Debug, PartialEq, Eq, Default)]
pub enum Phase {
    #[default]
    FlowLookup,
    State,
    UnNat,
    ToTheBox,
    RouteLookup,
    SameSecurity,
    AccessListIn,
    Nat,
    ReversePath,
    AccessListOut,
    FlowCreation,
}

/// What a step found.
#[derive(Clone, Debug, PartialEq, Eq, Drop, Default)]
pub enum Detail {
    /// Nothing to tell.
    #[default]
    None,
    /// The live connection with this id.
    Flow(u64),
    /// The NAT rule that applies, if there is one.
    Place(Option<NatPlace>),
    /// The route, and the number of the egress interface.
    Routed {
        route: Route,
        egress: u8,
    },
    /// What let the packet pass.
    By(AccessBy),
    /// The destination case of the packet and the source case of the reply.
    Pair {
        unnat: Option<NatPlace>,
        reply: Option<NatPlace>,
    },
    /// A connection with this id is opened; the packet goes on with this header.
    Opens {
        id: u64,
        out: Header,
    },
    /// The packet goes on with this header, and no connection is opened.
    Passes {
        out: Header,
    },
    /// The packet is dropped here.
    Dropped(DropReason),
}

/// A step with what it found.
#[derive(Clone, Debug, PartialEq, Eq, Drop, Default)]
pub struct Step {
    pub phase: Phase,
    pub detail: Detail,
}

/// The steps of one packet, of which there are at most eleven.
pub type Trail = ArrayVec<Step, 11>;

/// A copy of what permits or denies; takes no memory.
pub fn copy_of(by: &AccessBy) -> AccessBy
    ensures { result ≡ by.now }
{
    match by.clone() {
        Ok(copy) => copy,
        Err(_) => unreachable!(),
    }
}

impl Decision {
    /// A copy; takes no memory.
    pub fn copy(&self) -> Decision
        ensures { result ≡ self.now }
    {
        match self.clone() {
            Ok(decision) => decision,
            Err(_) => unreachable!(),
        }
    }
}

impl DropReason {
    /// A copy; takes no memory.
    pub fn copy(&self) -> DropReason
        ensures { result ≡ self.now }
    {
        match self.clone() {
            Ok(reason) => reason,
            Err(_) => unreachable!(),
        }
    }
}

impl Step {
    /// A copy; takes no memory.
    pub fn copy(&self) -> Step
        ensures { result ≡ self.now }
    {
        match self.clone() {
            Ok(step) => step,
            Err(_) => unreachable!(),
        }
    }
}
