//! The table of objects and groups.
ghost use Rattle.std.specs.Prelude.{◌≡◌, ℕ, ◌≤◌, ◌^◌, List, [], ◌∷◌, true, is_some, None, Some, length, sum_by, OnOk, IfOk};
ghost use Rattle.std.specs.List.{list_any};
ghost use Rattle.asa_objects_values.specs.Definition as spec;
ghost use Rattle.asa_objects_values.specs.Sizes.{is_subnet, member_address_count, subnet_count};
ghost use Rattle.asa_objects.specs.Expansions as expanding;
ghost use Rattle.asa_objects.specs.Frames.{ForName, KeepsOthers, KeepsRest};
ghost use Rattle.asa_objects_table.specs.Ranks.{has_name};
ghost use Rattle.asa_base.specs.Prefixes.{member_prefix_count};
ghost use Rattle.asa_objects_values.specs.Tables as tables;
ghost use Rattle.asa_objects_values.specs.Tables.{entry_of};

use crate::definition::{define_top, judge_top};
use crate::expansion::{ExpandFault, expand_network, expand_service, list_members, list_services};
use crate::lines::top_of;
use asa_base::{Kind, Member, Name, Names, PortProto, Service};
use asa_objects_table::NameTable;
use asa_objects_values::ObjectFault;
use asa_text::{Block, Items, Shared};
use std::alloc::{AllocError, Global};
use std::marker::Model;

/// The objects and groups of a configuration by name. Objects and groups share one space of names.
#[derive(Debug, Drop)]
pub struct Objects {
    table: NameTable,
    alloc: Global,
}

impl Model for Objects {
    ghost use Rattle.asa_objects_values.specs.Tables.{Table};

    ghost Value = { Table };

    ghost view = { λ o. o.table };
}

/// A name alone.
fn only_name(alloc: Global, name: &Name) -> Result<Shared<Items<Name>>, AllocError>
    ensures { IfOk result (λ names. names ≡ name.now ∷ []) }
{
    let mut names = Vec::new(alloc);
    names.push(name.copy())?;
    Shared::new(alloc, Items::from(names))
}

/// The names that reach a name that is there.
fn names_above(
    alloc: Global,
    table: &NameTable,
    name: &Name,
) -> Result<Shared<Items<Name>>, AllocError>
    requires { is_some (entry_of table.now name.now) ≡ true }
    ensures { IfOk result (λ names. (q : List ℕ) → has_name names q ≡ tables.reaches table.now q name.now) }
{
    let names = table.above(name)?;
    Shared::new(alloc, Items::from(names))
}

impl Objects {
    /// The table without names; takes no memory.
    pub fn new(alloc: Global) -> Objects
        ensures { result ≡ [] }
    {
        Objects {
            table: NameTable::new(alloc),
            alloc,
        }
    }

    /// A copy; the members of each name are shared.
    pub fn copy(&self) -> Result<Objects, AllocError>
        ensures { IfOk result (λ o. o ≡ self.now) }
    {
        let table = self.table.copy()?;
        Ok(Objects {
            table,
            alloc: self.alloc,
        })
    }

    /// How many names there are.
    pub fn len(&self) -> usize
        ensures { result ≡ length self.now }
    {
        self.table.len()
    }

    /// What a name is, or None exactly where neither an object nor a group has it.
    pub fn kind_of(&self, name: &Name) -> Option<Kind>
        ensures { result ≡ tables.kind_in self.now name.now }
    {
        self.table.kind_of(name)
    }

    /// The word of ports of a group of ports, or None exactly where the name isn't that of one.
    pub fn port_proto(&self, name: &Name) -> Option<PortProto>
        ensures { result ≡ tables.port_proto_in self.now name.now }
    {
        self.table.port_proto(name)
    }

    /// The service of a service object, or None exactly where the name isn't that of a service object of tcp or udp with
    /// one service.
    pub fn service_range(&self, name: &Name) -> Option<Service>
        ensures { result ≡ tables.service_range_in self.now name.now }
    {
        self.table.service_range(name)
    }

    /// How many addresses, ranges and networks a name stands for, each counted where it stands.
    pub fn member_count(&self, name: &Name) -> u64
        ensures value { result ≡ length (tables.members_of self.now name.now) }
        ensures few { result ≤ 65536 }
    {
        self.table.totals(name).members
    }

    /// How many prefixes the addresses of a name have, each member by itself.
    pub fn prefix_total(&self, name: &Name) -> u64
        ensures value { result ≡ sum_by member_prefix_count (tables.members_of self.now name.now) }
        ensures few { result ≤ 4063232 }
    {
        self.table.totals(name).prefixes()
    }

    /// How many addresses a name stands for, each member counted by itself.
    pub fn address_count(&self, name: &Name) -> u64
        ensures value { result ≡ sum_by member_address_count (tables.members_of self.now name.now) }
        ensures few { result ≤ 2 ^ 48 }
    {
        self.table.totals(name).addresses()
    }

    /// Whether a name has a network among the addresses that it stands for.
    pub fn has_subnet(&self, name: &Name) -> bool
        ensures { result ≡ list_any is_subnet (tables.members_of self.now name.now) }
    {
        self.subnet_count(name) > 0
    }

    /// How many of the addresses that a name stands for are networks.
    fn subnet_count(&self, name: &Name) -> u64
        ensures { result ≡ sum_by subnet_count (tables.members_of self.now name.now) }
    {
        self.table.totals(name).subnets
    }

    /// How many services a name stands for.
    pub fn service_count(&self, name: &Name) -> u64
        ensures value { result ≡ length (tables.services_of_name self.now name.now) }
        ensures few { result ≤ 65536 }
    {
        self.table.totals(name).services
    }

    /// The addresses that a name stands for, in order. A name that isn't there and one that has none give nothing.
    pub fn members(&self, alloc: Global, name: &Name) -> Result<Items<Member>, AllocError>
        ensures { IfOk result (λ ms. ms ≡ tables.members_of self.now name.now) }
    {
        let members = list_members(alloc, &self.table, name)?;
        Ok(Items::from(members))
    }

    /// The services that a name stands for, in order. A name that isn't there and one that has none give nothing.
    pub fn services(&self, alloc: Global, name: &Name) -> Result<Items<Service>, AllocError>
        ensures { IfOk result (λ ss. ss ≡ tables.services_of_name self.now name.now) }
    {
        let services = list_services(alloc, &self.table, name)?;
        Ok(Items::from(services))
    }

    /// The addresses that a network object or group stands for: its members in order, each name in them replaced in its
    /// place by its own members. It takes memory for these alone; groups within groups are followed however deep.
    pub fn expand_network(&self, name: &Name) -> Result<Items<Member>, ExpandFault>
        ensures { expanding.Expands result (expanding.network_of self.now name.now) }
    {
        expand_network(self.alloc, &self.table, name)
    }

    /// The services that a service object or a group of services, ports, protocols or ICMP types stands for, in order. A
    /// port group gives a service for each range, with the protocol of its word, none for `tcp-udp`.
    pub fn expand_service(&self, name: &Name) -> Result<Items<Service>, ExpandFault>
        ensures { expanding.Expands result (expanding.service_of self.now name.now) }
    {
        expand_service(self.alloc, &self.table, name)
    }

    /// The least group, by bytes, that names this name directly.
    pub fn group_using(&self, name: &Name) -> Option<Name>
        ensures { result ≡ tables.user_of self.now name.now }
    {
        self.table.first_user(name)
    }

    /// Whether a group names this name directly.
    pub fn is_used(&self, name: &Name) -> bool
        ensures { result ≡ is_some (tables.user_of self.now name.now) }
    {
        self.group_using(name).is_some()
    }

    /// The names that reach what a block defines: itself, the groups that name it, those that name these, and so on; none
    /// where the block's first line can't be read.
    pub fn reaching(&self, alloc: Global, block: &Block) -> Result<Shared<Items<Name>>, AllocError>
        ensures { IfOk result (λ names. ForName block.now (λ name. (q : List ℕ) → has_name names q ≡ tables.reaches self.now q name)) }
    {
        let Ok(top) = top_of(block) else {
            return Shared::new(alloc, Items::new(alloc));
        };
        // Only for the proof: a name that isn't in the table is reached by itself alone.
        self.table.order();
        if self.table.get(&top.name).is_none() {
            return only_name(alloc, &top.name);
        }
        names_above(alloc, &self.table, &top.name)
    }

    /// Takes a block of an object or of a group, as a whole or not at all. The first line defines its name for the lines
    /// after it. Lines `nat ..` and `no nat ..` of a network object are passed over. After a refusal, and where memory runs
    /// out, the table is as before.
    #[tactic(auto, unfolding(asa_objects_values::specs::Definition::defined))]
    pub fn define(&mut self, block: &Block) -> Result<(), ObjectFault>
        ensures value { spec.Defines result self.old self.new (spec.defined self.old block.now) }
        ensures kept { OnOk result (KeepsOthers self.old self.new block.now) }
    {
        let top = top_of(block)?;
        // Only for the proof, here and after the change: what names stand for follows from their order.
        self.table.order();
        let result = define_top(self.alloc, &mut self.table, block, &top);
        self.table.order();
        result
    }

    /// Whether the lines of a block would be taken, in the order of lines; a missing value and the limits are left aside.
    /// The table stays as it is: a new name stands in it only while the lines are read.
    #[tactic(auto, unfolding(asa_objects_values::specs::Definition::judged))]
    pub fn judge(&mut self, block: &Block) -> Result<(), ObjectFault>
        ensures value { spec.Judges result (spec.judged self.old block.now) }
        ensures same { self.new ≡ self.old }
    {
        let top = top_of(block)?;
        judge_top(self.alloc, &mut self.table, block, &top)
    }

    /// Takes out a name that no group names, and answers whether it was there.
    pub fn remove(&mut self, name: &Name) -> bool
        requires { tables.user_of self.old name.now ≡ None }
        ensures found { result ≡ is_some (tables.entry_of self.old name.now) }
        ensures value { self.new ≡ tables.without_name self.old name.now }
        ensures kept { KeepsRest self.old self.new name.now }
    {
        // Only for the proof, here and after the change: what names stand for follows from their order.
        self.table.order();
        let was_there = self.table.close(name);
        self.table.order();
        was_there
    }
}
