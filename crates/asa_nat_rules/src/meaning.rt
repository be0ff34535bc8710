//! What the names and the interfaces of NAT rules stand for.
ghost use Rattle.std.specs.Prelude.{◌≡◌, ◌≤◌, ◌^◌, IfOk, sum_by};
ghost use Rattle.std.specs.List.{list_any};
ghost use Rattle.asa_base.specs.Prefixes.{member_prefix_count};
ghost use Rattle.asa_nat_rules.specs.Faults.{has_subnet as name_has_subnet};
ghost use Rattle.asa_nat_rules.specs.Meanings.{Meanings};
ghost use Rattle.asa_nat_rules.specs.Sets.{size_of, named_set};

use asa_base::{Addr, Member, Name, Service};
use asa_text::Items;
use std::alloc::{AllocError, Global};

/// The members, the services and the addresses that NAT rules name. A name stands for at most 65,536 members.
pub trait NatMeaning {
    /// What each name and each interface stands for.
    ghost meanings: { Self → Meanings };

    /// The members of a network object or group in order; any other name has none.
    fn members(&self, alloc: Global, name: &Name) -> Result<Items<Member>, AllocError>
        ensures { IfOk result (λ ms. ms ≡ (meanings self.now).members name.now) };

    /// The service of a service object of tcp or udp that has one; None for any other name.
    fn service_range(&self, name: &Name) -> Option<Service>
        ensures { result ≡ (meanings self.now).service_range name.now };

    /// The address of an interface, or None exactly where no named interface with an address has the number.
    fn address_of(&self, ifc: u8) -> Option<Addr>
        ensures { result ≡ (meanings self.now).address_of ifc };

    /// How many addresses the members have, each member counted by itself, without listing them.
    fn address_count(&self, name: &Name) -> u64
        ensures value { result ≡ size_of (named_set (meanings self.now) name.now) }
        ensures few { result ≤ 2 ^ 48 };

    /// How many prefixes cover the members, each member counted by itself, without listing them.
    fn prefix_count(&self, name: &Name) -> u64
        ensures value { result ≡ sum_by member_prefix_count ((meanings self.now).members name.now) }
        ensures few { result ≤ 4063232 };

    /// Whether a member is a network, without listing them.
    fn has_subnet(&self, name: &Name) -> bool
        ensures { result ≡ name_has_subnet (meanings self.now) name.now };
}
