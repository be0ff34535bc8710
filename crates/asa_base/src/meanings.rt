//! What the names of list lines and NAT rules stand for.
ghost use Rattle.std.specs.Prelude.{◌≡◌, ◌≤◌, IfOk, length, sum_by};
ghost use Rattle.asa_base.specs.Prefixes.{member_prefix_count};
ghost use Rattle.asa_base.specs.Meanings.{Meanings};

use crate::boxes::Service;
use crate::names::Name;
use crate::range::Member;
use asa_text::{Addr, Items};
use std::alloc::{AllocError, Global};

/// The members, the services and the addresses that list lines and NAT rules name. A name stands for at most 65,536 members and at most
/// 65,536 services.
pub trait Meaning {
    /// What each name stands for.
    ghost meanings: { Self → Meanings };

    /// How many members a network object or group has; any other name has none.
    fn member_count(&self, name: &Name) -> u64
        ensures value { result ≡ length ((meanings self.now).members name.now) }
        ensures few { result ≤ 65536 };

    /// How many prefixes cover the members of a network object or group, each member counted by itself.
    fn prefix_count(&self, name: &Name) -> u64
        ensures value { result ≡ sum_by member_prefix_count ((meanings self.now).members name.now) }
        ensures few { result ≤ 4063232 };

    /// How many services a service object or a group with services has; any other name has none.
    fn service_count(&self, name: &Name) -> u64
        ensures value { result ≡ length ((meanings self.now).services name.now) }
        ensures few { result ≤ 65536 };

    /// The members in order.
    fn members(&self, alloc: Global, name: &Name) -> Result<Items<Member>, AllocError>
        ensures { IfOk result (λ ms. ms ≡ (meanings self.now).members name.now) };

    /// The services in order.
    fn services(&self, alloc: Global, name: &Name) -> Result<Items<Service>, AllocError>
        ensures { IfOk result (λ ss. ss ≡ (meanings self.now).services name.now) };

    /// The address of an interface, or None exactly where no named interface with an address has the number.
    fn address_of(&self, ifc: u8) -> Option<Addr>
        ensures { result ≡ (meanings self.now).address_of ifc };
}
