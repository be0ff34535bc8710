//! The members of a name while its block is read.
ghost use Rattle.std.specs.Prelude.{◌≡◌, [], ◌∷◌, true, OnOk, IfOk};
ghost use Rattle.asa_objects_values.specs.Definition as spec;
ghost use Rattle.asa_objects_values.specs.Drafts.{AreFormer, AreNew, changed, is_none, marked, standing};

use crate::item_order::OrderedItems;
use crate::value::Stated;
use asa_objects_lines::{Item, ObjectValue};
use indexmap::IndexSet;
use std::alloc::{AllocError, Global};
use std::marker::Model;

/// The members of a name that has former ones: these but for those that are gone, then those that are added. To add a member
/// or to take one out costs nothing that grows with the former members; one member alone costs a list of them all.
#[derive(Debug, Drop)]
pub struct Draft<'a> {
    former: &'a OrderedItems,
    gone: IndexSet<Item>,
    added: OrderedItems,
}

impl<'a> Model for Draft<'a> {
    ghost use Rattle.asa_objects_values.specs.Drafts.{AreFormer, AreNew, Marked, standing};

    ghost Value = { Marked };

    ghost view = { λ d. record { former = d.former.now; gone = d.gone.keys; added = d.added } };

    ghost invariant = { λ d. AreNew (standing d.former.now d.gone.keys) d.added × AreFormer d.former.now d.gone.keys };
}

/// What a block does to the members of a name: those that are gone go, then those that are added come at the end.
#[derive(Debug, Drop)]
pub struct Change {
    pub gone: IndexSet<Item>,
    pub added: OrderedItems,
}

/// An object's value as its one member.
pub fn item_of_value(value: ObjectValue) -> Item
    ensures { result ≡ spec.item_of_value value }
{
    match value {
        ObjectValue::Network(member) => Item::Network(member),
        ObjectValue::Service(service) => Item::Service(service),
    }
}

/// Whether a member is there and isn't to go.
fn stands(items: &OrderedItems, gone: &IndexSet<Item>, item: &Item) -> bool
    ensures { result ≡ spec.has_item (standing items.now gone.now.keys) item.now }
{
    items.has(item) && !gone.contains(item)
}

/// Whether each of some members is to go.
fn all_go(items: &OrderedItems, gone: &IndexSet<Item>) -> bool
    ensures { result ≡ is_none (standing items.now gone.now.keys) }
{
    for item in items.values() {
        if !gone.contains(item) {
            return false;
        }
    }
    true
}

/// All members as those that are to go.
fn all_of(alloc: Global, items: &OrderedItems) -> Result<IndexSet<Item>, AllocError>
    ensures none { IfOk result (λ s. standing items.now s.keys ≡ []) }
    ensures former { IfOk result (λ s. AreFormer items.now s.keys) }
{
    let mut all = IndexSet::new(alloc);
    for item in items.values() {
        all.insert(item.copy())?;
    }
    Ok(all)
}

/// One member.
fn one(alloc: Global, item: Item) -> Result<OrderedItems, AllocError>
    ensures { IfOk result (λ s. s ≡ item ∷ []) }
{
    let mut items = OrderedItems::new(alloc);
    items.add(item)?;
    Ok(items)
}

impl<'a> Draft<'a> {
    /// The members of a value.
    pub fn new(alloc: Global, stated: &'a Stated) -> Draft<'a>
        ensures members { marked result ≡ stated.now.items }
        ensures former { result.former ≡ stated.now.items }
    {
        Draft {
            former: stated.items(),
            gone: IndexSet::new(alloc),
            added: OrderedItems::new(alloc),
        }
    }

    /// One member alone.
    pub fn set(&mut self, alloc: Global, item: Item) -> Result<(), AllocError>
        ensures members { OnOk result (marked self.new ≡ item ∷ []) }
        ensures former { self.new.former ≡ self.old.former }
    {
        let gone = all_of(alloc, self.former)?;
        let added = one(alloc, item)?;
        self.gone = gone;
        self.added = added;
        Ok(())
    }

    /// Whether the member is there.
    pub fn has(&self, item: &Item) -> bool
        ensures { result ≡ spec.has_item (marked self.now) item.now }
    {
        stands(self.former, &self.gone, item) || self.added.has(item)
    }

    /// Adds a member at the end, unless it is there.
    pub fn add(&mut self, item: Item) -> Result<(), AllocError>
        ensures members { OnOk result (marked self.new ≡ spec.with_item (marked self.old) item) }
        ensures former { self.new.former ≡ self.old.former }
    {
        if stands(self.former, &self.gone, &item) {
            return Ok(());
        }
        self.added.add(item)
    }

    /// Takes a member out, which is there.
    pub fn remove(&mut self, item: Item) -> Result<(), AllocError>
        requires { spec.has_item (marked self.old) item ≡ true }
        ensures members { OnOk result (marked self.new ≡ spec.without_item (marked self.old) item) }
        ensures former { self.new.former ≡ self.old.former }
    {
        if self.added.has(&item) {
            self.added.remove(&item);
            return Ok(());
        }
        match self.former.find(&item) {
            Some(former) => {
                self.gone.insert(former.copy())?;
                Ok(())
            }
            None => unreachable!(),
        }
    }

    /// What was done to the former members.
    pub fn into_change(self) -> Change
        ensures members { changed self.entry.former result.gone.keys result.added ≡ marked self.entry }
        ensures new { AreNew (standing self.entry.former result.gone.keys) result.added }
        ensures former { AreFormer self.entry.former result.gone.keys }
    {
        let Draft {
            former: _,
            gone,
            added,
        } = self;
        Change { gone, added }
    }
}

impl Change {
    /// Whether no member is left of former ones.
    pub fn leaves_none(&self, former: &OrderedItems) -> bool
        ensures { result ≡ is_none (changed former.now self.now.gone.keys self.now.added) }
    {
        all_go(former, &self.gone) && self.added.is_empty()
    }

    /// Whether a member is there after the change of former ones.
    pub fn leaves(&self, former: &OrderedItems, item: &Item) -> bool
        ensures { result ≡ spec.has_item (changed former.now self.now.gone.keys self.now.added) item.now }
    {
        stands(former, &self.gone, item) || self.added.has(item)
    }
}
