//! What the table has of a name beside its members: its label, which is above those of the names that it refers to, and how many
//! members it has once it is expanded.
ghost use Rattle.std.specs.Prelude.{◌≡◌, ℕ, ◌+◌, ◌*◌, ◌≤◌, List, cond, slice_get, None, Some, is_some, IfSome};
ghost use Rattle.std.specs.Map.{keys_of};
ghost use Rattle.asa_objects_table.specs.Ranks as spec;
ghost use Rattle.asa_objects_values.specs.Tables.{same_name};
ghost use Rattle.asa_objects_table.specs.Renewals.{AreMoved, totals_in_rank};

use asa_base::Name;
use asa_objects_lines::{GroupKind, Item};
use asa_objects_values::{address_count, subnet_count};
use indexmap::IndexMap;
use std::marker::Model;

/// How much a name stands for once it is expanded. A member has at most 62 prefixes and 2^32 addresses.
#[derive(Clone, Copy, Debug, PartialEq, Eq)]
pub struct Totals {
    /// Members that are addresses.
    pub members: u64,
    /// The prefixes of these members.
    pub prefixes: u64,
    /// The addresses of these members, each member counted by itself.
    pub addresses: u64,
    /// Those of these members that are networks.
    pub subnets: u64,
    /// Services.
    pub services: u64,
}

impl Model for Totals {
    ghost use Rattle.std.specs.Prelude.{◌*◌, ◌≤◌};
    ghost use Rattle.asa_objects_table.specs.Amounts.{Amounts};

    ghost Value = { Amounts };

    ghost view = { λ t. record { members = t.members; prefixes = t.prefixes; addresses = t.addresses; subnets = t.subnets; services = t.services } };

    ghost invariant = { λ t. (t.prefixes ≤ 62 * t.members) × (t.addresses ≤ 4294967296 * t.members) };

    ghost inverse = { λ v. record { members = v.members; prefixes = v.prefixes; addresses = v.addresses; subnets = v.subnets; services = v.services } };
}

/// The label and the totals of a name.
#[derive(Clone, Copy, Debug, PartialEq, Eq)]
pub(crate) struct Rank {
    pub(crate) label: u64,
    pub(crate) totals: Totals,
}

impl Totals {
    /// Nothing.
    pub fn none() -> Totals
        ensures { result ≡ spec.no_totals }
    {
        Totals {
            members: 0,
            prefixes: 0,
            addresses: 0,
            subnets: 0,
            services: 0,
        }
    }

    /// These totals, or None where they have more prefixes or addresses than their members may have.
    pub fn of(
        members: u64,
        prefixes: u64,
        addresses: u64,
        subnets: u64,
        services: u64,
    ) -> Option<Totals>
        ensures { IfSome result (λ t. t ≡ record { members = members; prefixes = prefixes; addresses = addresses; subnets = subnets; services = services }) }
    {
        let most_prefixes = members.checked_mul(62)?;
        let most_addresses = members.checked_mul(4_294_967_296)?;
        if prefixes <= most_prefixes && addresses <= most_addresses {
            Some(Totals {
                members,
                prefixes,
                addresses,
                subnets,
                services,
            })
        } else {
            None
        }
    }

    /// These totals where some in them become others, as often as told, or None where a number would pass its type's end.
    pub fn moved(self, count: u64, old: Totals, new: Totals) -> Option<Totals>
        ensures { IfSome result (λ t. AreMoved count old new self t) }
    {
        let members = moved(self.members, count, old.members, new.members)?;
        let prefixes = moved(self.prefixes, count, old.prefixes, new.prefixes)?;
        let addresses = moved(self.addresses, count, old.addresses, new.addresses)?;
        let subnets = moved(self.subnets, count, old.subnets, new.subnets)?;
        let services = moved(self.services, count, old.services, new.services)?;
        Totals::of(members, prefixes, addresses, subnets, services)
    }

    /// The prefixes.
    pub fn prefixes(self) -> u64
        ensures value { result ≡ self.prefixes }
        ensures few { result ≤ 62 * self.members }
    {
        self.prefixes
    }

    /// The addresses.
    pub fn addresses(self) -> u64
        ensures value { result ≡ self.addresses }
        ensures few { result ≤ 4294967296 * self.members }
    {
        self.addresses
    }

    /// Both together, or None where a number would pass its type's end.
    pub fn plus(self, other: Totals) -> Option<Totals>
        ensures { IfSome result (λ t. t ≡ spec.both_totals self other) }
    {
        let members = self.members.checked_add(other.members)?;
        let prefixes = self.prefixes.checked_add(other.prefixes)?;
        let addresses = self.addresses.checked_add(other.addresses)?;
        let subnets = self.subnets.checked_add(other.subnets)?;
        let services = self.services.checked_add(other.services)?;
        Some(Totals {
            members,
            prefixes,
            addresses,
            subnets,
            services,
        })
    }

    /// The one without the other, or None where a number would be less than 0.
    pub fn minus(self, other: Totals) -> Option<Totals>
        ensures { IfSome result (λ t. spec.both_totals t other ≡ self) }
    {
        let members = self.members.checked_sub(other.members)?;
        let prefixes = self.prefixes.checked_sub(other.prefixes)?;
        let addresses = self.addresses.checked_sub(other.addresses)?;
        let subnets = self.subnets.checked_sub(other.subnets)?;
        let services = self.services.checked_sub(other.services)?;
        Totals::of(members, prefixes, addresses, subnets, services)
    }
}

/// A sum in which an old number becomes a new one, as often as told, or None where it would pass its type's end.
fn moved(sum: u64, count: u64, old: u64, new: u64) -> Option<u64>
    ensures { IfSome result (λ n. n + count * old ≡ sum + count * new) }
{
    let more = count.checked_mul(new)?;
    let less = count.checked_mul(old)?;
    sum.checked_add(more)?.checked_sub(less)
}

/// How much a member of a name states by itself, where the name's members have this form.
pub(crate) fn own_totals(group: GroupKind, item: &Item) -> Totals
    ensures { result ≡ spec.own_totals group item.now }
{
    let services = item.service_count(group) as u64;
    match item {
        Item::Network(member) => Totals {
            members: 1,
            prefixes: u64::from(member.prefix_count()),
            addresses: address_count(*member),
            subnets: subnet_count(*member),
            services,
        },
        Item::Service(_)
        | Item::Port(_)
        | Item::Protocol(_)
        | Item::IcmpType(_)
        | Item::Object(_)
        | Item::Group(_) => Totals {
            members: 0,
            prefixes: 0,
            addresses: 0,
            subnets: 0,
            services,
        },
    }
}

/// The totals of a name; nothing where it has no rank.
pub(crate) fn totals_of(ranks: &IndexMap<Name, Rank>, name: &Name) -> Totals
    ensures { result ≡ totals_in_rank (spec.rank_of ranks.now.entries name.now) }
{
    match ranks.get(name) {
        Some(rank) => rank.totals,
        None => Totals::none(),
    }
}

/// The place of a name in the order of the table of ranks, counted from 0, or None exactly where it has no rank.
pub(crate) fn place_of(ranks: &IndexMap<Name, Rank>, name: &Name) -> Option<usize>
    ensures place { IfSome result (λ i. slice_get (keys_of ranks.now.entries) i ≡ Some name.now) }
    ensures found { is_some result ≡ is_some (spec.rank_of ranks.now.entries name.now) }
{
    ranks.get_index_of(name)
}

/// Puts another rank at a place, counted from 0 in the order of the table of ranks. Nothing changes where there is no such
/// place.
pub(crate) fn set_rank_at(ranks: &mut IndexMap<Name, Rank>, place: usize, rank: Rank)
    ensures { (name : List ℕ) → slice_get (keys_of ranks.old.entries) place ≡ Some name → (q : List ℕ) → spec.rank_of ranks.new.entries q ≡ cond (same_name name q) (Some rank) (spec.rank_of ranks.old.entries q) }
{
    if let Some(old) = ranks.get_index_mut(place) {
        *old = rank;
    }
}
