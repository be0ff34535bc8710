//! The access lists of a configuration by name, in order of first definition.
ghost use Rattle.std.specs.Prelude.{◌≡◌, ◌<◌, ◌≤◌, [], ◌∷◌, ◌++◌, true, IfOk, IfSome, IsSomeAnd, OnOk, None, is_some, length, slice_get};
ghost use Rattle.std.specs.Option.{option_copied};
ghost use Rattle.std.specs.Map.{lookup, set_value};
ghost use Rattle.std.specs.Str.{bytes_eq};
ghost use Rattle.asa_acl.specs.Acls.{with_line, without_at};
ghost use Rattle.asa_acl_table.specs.Lists as spec;
ghost use Rattle.asa_acl_table.specs.Uses.{AreDropped};

use crate::new_line::NewLine;
use crate::shared_acl::SharedAcl;
use crate::uses::Uses;
use asa_acl::AclLine;
use asa_base::Name;
use indexmap::IndexMap;
use std::alloc::{AllocError, Global};
use std::marker::Model;

/// The lists by name, at most 1,024, and at how many places of their lines each object and group stands.
#[derive(Debug, Drop)]
pub struct ListTable {
    lists: IndexMap<Name, SharedAcl>,
    uses: Uses,
    alloc: Global,
}

impl Model for ListTable {
    ghost use Rattle.std.specs.Prelude.{List};
    ghost use Rattle.asa_acl.specs.Acls.{AccessLines};
    ghost use Rattle.asa_acl_table.specs.Lists.{values, IsTable};

    ghost Value = { List AccessLines };

    ghost view = { λ t. values t.lists.entries };

    ghost invariant = { λ t. IsTable t.lists.entries t.uses };
}

/// Puts a line into the list of a map that has this name.
fn put_into(
    lists: &mut IndexMap<Name, SharedAcl>,
    name: &Name,
    place: Option<u32>,
    item: AclLine,
) -> Result<(), AllocError>
    requires counted { IfSome place (λ n. 1 ≤ n) }
    requires room { IsSomeAnd (lookup (bytes_eq name.now) lists.old.entries) (λ t. length t.lines < 65536) }
    ensures { OnOk result (IfSome (lookup (bytes_eq name.now) lists.old.entries) (λ t. lists.new.entries ≡ set_value (bytes_eq name.now) lists.old.entries (with_line t place item))) }
{
    match lists.get_mut(name) {
        Some(list) => list.put(place, item),
        None => unreachable!(),
    }
}

/// Removes the line at a place from the list of a map that has this name.
fn take_from(
    lists: &mut IndexMap<Name, SharedAcl>,
    name: &Name,
    place: u32,
) -> Result<(), AllocError>
    requires { IsSomeAnd (lookup (bytes_eq name.now) lists.old.entries) (λ t. place < length t.lines) }
    ensures { OnOk result (IfSome (lookup (bytes_eq name.now) lists.old.entries) (λ t. lists.new.entries ≡ set_value (bytes_eq name.now) lists.old.entries (without_at t place))) }
{
    match lists.get_mut(name) {
        Some(list) => list.take(place),
        None => unreachable!(),
    }
}

/// Counts the names of the line at a place of a list once less.
fn drop_at(uses: &mut Uses, list: &SharedAcl, place: u32)
    requires { place < length list.now.lines }
    ensures { IfSome (slice_get list.now.lines place) (λ item. AreDropped uses.old uses.new item) }
{
    uses.drop_line(list.acl().lines()[place as usize].line());
}

/// Counts the names of the line at a place of the list of a map that has this name once less.
fn drop_from(uses: &mut Uses, lists: &IndexMap<Name, SharedAcl>, name: &Name, place: u32)
    requires { IsSomeAnd (lookup (bytes_eq name.now) lists.now.entries) (λ t. place < length t.lines) }
    ensures { IfSome (lookup (bytes_eq name.now) lists.now.entries) (λ t. IfSome (slice_get t.lines place) (λ item. AreDropped uses.old uses.new item)) }
{
    match lists.get(name) {
        Some(list) => drop_at(uses, list, place),
        None => unreachable!(),
    }
}

impl ListTable {
    /// No list; takes no memory.
    pub fn new(alloc: Global) -> ListTable
        ensures { result ≡ [] }
    {
        ListTable {
            lists: IndexMap::new(alloc),
            uses: Uses::new(alloc),
            alloc,
        }
    }

    /// How many lists there are.
    pub fn len(&self) -> usize
        ensures value { result ≡ length self.now }
        ensures few { result ≤ 1024 }
    {
        self.lists.len()
    }

    /// The list with this name.
    #[tactic(auto, using(crate::proofs::TableLaws::lookup_keyed))]
    pub fn find(&self, name: &Name) -> Option<&SharedAcl>
        ensures { option_copied result ≡ spec.list_among self.now name.now }
    {
        self.lists.get(name)
    }

    /// The n-th list, from 0.
    pub fn at(&self, n: usize) -> Option<&SharedAcl>
        ensures { option_copied result ≡ slice_get self.now n }
    {
        match self.lists.get_index(n) {
            Some((_, list)) => Some(list),
            None => None,
        }
    }

    /// Whether some list has a line that names the object or group; reads no line.
    pub fn is_used(&self, name: &Name) -> bool
        ensures { result ≡ is_some (spec.first_using self.now name.now) }
    {
        self.uses.has(name)
    }

    /// The first list with a line that names the object or group.
    pub fn using(&self, name: &Name) -> Option<&SharedAcl>
        ensures { option_copied result ≡ spec.first_using self.now name.now }
    {
        if !self.is_used(name) {
            return None;
        }
        for i in 0..self.len() {
            let Some(list) = self.at(i) else {
                unreachable!()
            };
            if list.acl().uses(name) {
                return Some(list);
            }
        }
        None
    }

    /// Whether a line may go into the list that has this name, or begin it.
    pub fn has_room(&self, name: &Name) -> bool
        ensures { result ≡ spec.has_room self.now (spec.list_among self.now name.now) }
    {
        match self.find(name) {
            Some(list) => list.acl().len() < 65536,
            None => self.lists.len() < 1024,
        }
    }

    /// Begins a list with a line.
    fn begin(mut self, name: Name, item: AclLine) -> Result<ListTable, AllocError>
        requires absent { spec.list_among self name ≡ None }
        requires room { length self < 1024 }
        ensures { IfOk result (λ t. t ≡ self ++ spec.list_of name item ∷ []) }
    {
        self.uses.add_line(&item)?;
        let list = SharedAcl::of(self.alloc, name.copy(), item)?;
        self.lists.insert(name, list)?;
        Ok(self)
    }

    /// Puts a line into the list that has this name.
    fn put_there(
        mut self,
        name: &Name,
        place: Option<u32>,
        item: AclLine,
    ) -> Result<ListTable, AllocError>
        requires counted { IfSome place (λ n. 1 ≤ n) }
        requires room { IsSomeAnd (spec.list_among self name.now) (λ l. length l.lines < 65536) }
        ensures { IfOk result (λ t. IfSome (spec.list_among self name.now) (λ l. t ≡ spec.with_list self (with_line l place item))) }
    {
        self.uses.add_line(&item)?;
        put_into(&mut self.lists, name, place, item)?;
        Ok(self)
    }

    /// The table after a line has gone into the list that has its name, or has begun it.
    pub fn put(self, new: NewLine) -> Result<ListTable, AllocError>
        requires counted { IfSome new.place (λ n. 1 ≤ n) }
        requires room { spec.has_room self (spec.list_among self new.list) ≡ true }
        ensures { IfOk result (λ t. t ≡ spec.put_in self new (spec.list_among self new.list)) }
    {
        let NewLine { list, place, item } = new;
        if self.find(&list).is_some() {
            return self.put_there(&list, place, item);
        }
        self.begin(list, item)
    }

    /// The table after the line at a place has left a list.
    pub fn take(mut self, name: &Name, place: u32) -> Result<ListTable, AllocError>
        requires { IsSomeAnd (spec.list_among self name.now) (λ l. place < length l.lines) }
        ensures { IfOk result (λ t. t ≡ spec.without_place self place (spec.list_among self name.now)) }
    {
        drop_from(&mut self.uses, &self.lists, name, place);
        take_from(&mut self.lists, name, place)?;
        Ok(self)
    }

    /// Removes a list; takes no memory.
    pub fn remove(&mut self, name: &Name)
        requires { is_some (spec.list_among self.old name.now) ≡ true }
        ensures { self.new ≡ spec.without_list self.old name.now }
    {
        let Some(list) = self.lists.shift_remove(name) else {
            unreachable!()
        };
        self.uses.drop_lines(list.acl().lines());
    }

    /// A copy, which shares the lists.
    pub fn copy(&self) -> Result<ListTable, AllocError>
        ensures { IfOk result (λ t. t ≡ self.now) }
    {
        Ok(ListTable {
            lists: self.lists.clone()?,
            uses: self.uses.copy()?,
            alloc: self.alloc,
        })
    }
}
