//! The table of objects and groups: what each name stands for, how much that is, and which names refer to it.
ghost use Rattle.std.specs.Prelude.{◌≡◌, ℕ, ◌≤◌, List, [], true, false, length, sum_by, None, is_some, IfOk, OnOk, OnErr};
ghost use Rattle.std.specs.List.{AllByRecursion, list_any};
ghost use Rattle.std.specs.Option.{option_copied};
ghost use Rattle.asa_base.specs.Prefixes.{member_prefix_count};
ghost use Rattle.asa_objects_values.specs.Definition.{are_small};
ghost use Rattle.asa_objects_values.specs.Drafts.{AreFormer, AreNew, changed, standing};
ghost use Rattle.asa_objects_values.specs.Sizes.{member_address_count, subnet_count};
ghost use Rattle.asa_objects_values.specs.Tables as spec;
ghost use Rattle.asa_objects_values.specs.Tables.{entry_of, items_of, named, refers_to};
ghost use Rattle.asa_objects_table.specs.Changes.{Fits, Replaces, changed_at};
ghost use Rattle.asa_objects_table.specs.Table.{AreAbove, IsOrdered};

use crate::climb::above;
use crate::effects::copy_values;
use crate::entries::{close_name, open_name};
use crate::index::Index;
use crate::rank::{Totals, totals_of};
use crate::renewal::change_summed;
use crate::users::first_user;
use asa_base::{Addr, Kind, Name, Names, PortProto, Service};
use asa_objects_lines::BlockKind;
use asa_objects_values::{Change, ObjectFault, Stated, kind_in, port_proto_in, service_range_in};
use std::alloc::{AllocError, Global};
use std::collections::BTreeMap;
use std::marker::Model;

/// The objects and groups of a configuration by name. Objects and groups share one space of names. Beside what each name
/// states, the table has how much it stands for, which names refer to it, and an order in which each name comes after those
/// that it refers to.
#[derive(Debug, Drop)]
pub struct NameTable {
    values: BTreeMap<Name, Stated>,
    index: Index,
    alloc: Global,
}

impl Model for NameTable {
    ghost use Rattle.asa_objects_values.specs.Tables.{Table};
    ghost use Rattle.asa_objects_table.specs.Ranks.{IsSound};

    ghost Value = { Table };

    ghost view = { λ t. t.values.entries };

    ghost invariant = { λ t. IsSound t.values.entries t.index.ranks.entries t.index.uses.entries t.index.stamp };
}

impl NameTable {
    /// The table without names; takes no memory.
    pub fn new(alloc: Global) -> NameTable
        ensures { result ≡ [] }
    {
        NameTable {
            values: BTreeMap::new(alloc),
            index: Index::new(alloc),
            alloc,
        }
    }

    /// A copy; the members of each name are shared.
    pub fn copy(&self) -> Result<NameTable, AllocError>
        ensures { IfOk result (λ t. t ≡ self.now) }
    {
        let values = copy_values(&self.values)?;
        let index = self.index.copy()?;
        Ok(NameTable {
            values,
            index,
            alloc: self.alloc,
        })
    }

    /// How many names there are.
    pub fn len(&self) -> usize
        ensures { result ≡ length self.now }
    {
        self.values.len()
    }

    /// What a name states, or None exactly where neither an object nor a group has it.
    pub fn get(&self, name: &Name) -> Option<&Stated>
        ensures { option_copied result ≡ entry_of self.now name.now }
    {
        self.values.get(name)
    }

    /// Nothing is done: a call tells the prover alone that the names are in an order along the references.
    pub fn order(&self)
        ensures { IsOrdered self.now }
    {
        let _names = self.values.len();
    }

    /// How much a name stands for once it is expanded; nothing where it isn't there.
    pub fn totals(&self, name: &Name) -> Totals
        ensures members { result.members ≡ length (spec.members_of self.now name.now) }
        ensures prefixes { result.prefixes ≡ sum_by member_prefix_count (spec.members_of self.now name.now) }
        ensures addresses { result.addresses ≡ sum_by member_address_count (spec.members_of self.now name.now) }
        ensures subnets { result.subnets ≡ sum_by subnet_count (spec.members_of self.now name.now) }
        ensures services { result.services ≡ length (spec.services_of_name self.now name.now) }
        ensures few_members { result.members ≤ 65536 }
        ensures few_services { result.services ≤ 65536 }
    {
        totals_of(&self.index.ranks, name)
    }

    /// The least name, by bytes, that refers to a name.
    pub fn first_user(&self, name: &Name) -> Option<Name>
        ensures { result ≡ spec.user_of self.now name.now }
    {
        let _names = self.values.len();
        first_user(&self.index.uses, name)
    }

    /// The names that reach a name that is there, itself first, each after those of them that it refers to.
    pub fn above(&self, name: &Name) -> Result<Vec<Name>, AllocError>
        requires { is_some (entry_of self.now name.now) ≡ true }
        ensures { IfOk result (λ v. AreAbove self.now name.now v.items) }
    {
        above(
            self.alloc,
            &self.values,
            &self.index.ranks,
            &self.index.uses,
            self.index.stamp,
            name,
        )
    }

    /// Adds a name without members. After want of memory the table is as before.
    pub fn open(&mut self, name: &Name, block: BlockKind) -> Result<(), AllocError>
        requires { entry_of self.old name.now ≡ None }
        ensures ok { OnOk result (self.new ≡ spec.with_entry self.old name.now (record { block = block; items = [] })) }
        ensures err { OnErr result (self.new ≡ self.old) }
    {
        open_name(self.alloc, &mut self.values, &mut self.index, name, block)
    }

    /// Changes the members of a name that is there; `above` are the names that reach it, each after those of them that it
    /// refers to. TooMany comes exactly where a name would have more than 65,536 members, and a number that would pass its
    /// type's end counts as want of memory. After a refusal the table is as before.
    pub fn change(
        &mut self,
        name: &Name,
        change: &Change,
        above: &[Name],
    ) -> Result<(), ObjectFault>
        requires there { is_some (entry_of self.old name.now) ≡ true }
        requires above { AreAbove self.old name.now above.now }
        requires new { AreNew (standing (items_of self.old name.now) change.now.gone.keys) change.now.added }
        requires former { AreFormer (items_of self.old name.now) change.now.gone.keys }
        requires fits { AllByRecursion (λ i. Fits self.old name.now (named i)) (changed (items_of self.old name.now) change.now.gone.keys change.now.added) }
        ensures answer { Replaces self.old self.new (changed_at self.old name.now change.now.gone.keys change.now.added) result }
        ensures small { OnOk result (are_small self.new ≡ true) }
    {
        change_summed(
            self.alloc,
            &mut self.values,
            &mut self.index,
            name,
            change,
            above,
        )
    }

    /// Takes out a name that no name refers to, and answers whether it was there.
    pub fn close(&mut self, name: &Name) -> bool
        requires { (q : List ℕ) → list_any (refers_to name.now) (items_of self.old q) ≡ false }
        ensures found { result ≡ is_some (entry_of self.old name.now) }
        ensures value { self.new ≡ spec.without_name self.old name.now }
    {
        close_name(&mut self.values, &mut self.index, name)
    }
}

impl Names for NameTable {
    ghost use Rattle.asa_objects_values.specs.Tables as spec;

    ghost known = { λ t. spec.known_of t };

    fn kind_of(&self, name: &Name) -> Option<Kind> {
        kind_in(&self.values, name)
    }

    fn interface_of(&self, name: &Name) -> Option<u8> {
        let _ = name;
        None
    }

    fn port_proto(&self, name: &Name) -> Option<PortProto> {
        port_proto_in(&self.values, name)
    }

    fn service_range(&self, name: &Name) -> Option<Service> {
        service_range_in(&self.values, name)
    }

    fn address_of(&self, ifc: u8) -> Option<Addr> {
        let _ = ifc;
        None
    }
}
