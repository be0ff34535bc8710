//! Members in their order, where taking one out costs little wherever it stands.
ghost use Rattle.std.specs.Prelude.{◌≡◌, ℕ, ◌+◌, ◌-◌, ◌^◌, ◌<◌, ◌≤◌, false, cond, List, [], ◌∷◌, ◌++◌, length, take, find, Some, OnOk, OnErr, IfOk};
ghost use Rattle.std.specs.Option.{option_copied};
ghost use Rattle.std.specs.Map.{lookup};
ghost use Rattle.indexmap.specs.IndexMap.{spare};
ghost use Rattle.asa_objects_lines.specs.declared.statement.Item.{Item};
ghost use Rattle.std.specs.Map.Iter.{ShowsInOrder, ShowsInReverse, deref};
ghost use Rattle.asa_objects_values.specs.Definition as spec;
ghost use Rattle.asa_objects_values.specs.Drafts.{AreDistinct, AreNew, changed, is_none, standing};
ghost use Rattle.asa_objects_values.specs.ItemOrder.{AreBelow, IsSplit, Numbered, number_of, numbered, or_number};

use asa_objects_lines::Item;
use indexmap::{IndexMap, IndexSet};
use std::alloc::{AllocError, Global};
use std::collections::BTreeMap;
use std::collections::btree_map::Values;
use std::marker::Model;

/// Members in order, none twice. Whether a member is there, adding one and taking one out cost at most the logarithm of
/// their number.
#[derive(Debug, Drop)]
pub struct OrderedItems {
    order: BTreeMap<u64, Item>,
    numbers: IndexMap<Item, u64>,
    next: u64,
}

impl Model for OrderedItems {
    ghost use Rattle.std.specs.Prelude.{List};
    ghost use Rattle.std.specs.Map.{values_of};
    ghost use Rattle.asa_objects_lines.specs.declared.statement.Item.{Item};
    ghost use Rattle.asa_objects_values.specs.ItemOrder.{IsNumbered};

    ghost Value = { List Item };

    ghost view = { λ o. values_of o.order.entries };

    ghost invariant = { λ o. IsNumbered o.order.entries o.numbers.entries o.next };
}

/// Takes a member out, where it is there.
fn take_out(order: &mut BTreeMap<u64, Item>, numbers: &mut IndexMap<Item, u64>, item: &Item)
    ensures split { (first : ℕ) (back : Numbered) (items : List Item) → IsSplit order.old.entries numbers.old.entries first back items → IsSplit order.new.entries numbers.new.entries first back (spec.without_item items item.now) }
    ensures room { spare numbers.old ≤ spare numbers.new }
{
    if let Some(number) = numbers.swap_remove(item) {
        let _item = order.remove(&number);
    }
}

/// Takes members out, those of them that are there.
fn take_all(order: &mut BTreeMap<u64, Item>, numbers: &mut IndexMap<Item, u64>, gone: &[Item])
    ensures split { (first : ℕ) (back : Numbered) (items : List Item) → IsSplit order.old.entries numbers.old.entries first back items → IsSplit order.new.entries numbers.new.entries first back (standing items gone.now) }
    ensures room { spare numbers.old ≤ spare numbers.new }
{
    for item in gone {
        take_out(order, numbers, item);
    }
}

/// Takes the last member out.
fn pop(order: &mut BTreeMap<u64, Item>)
    ensures { order.new.entries ≡ take (length order.old.entries - 1) order.old.entries }
{
    let _item = order.pop_last();
}

/// Takes the last members out, so many.
fn pop_many(order: &mut BTreeMap<u64, Item>, count: u64)
    ensures { order.new.entries ≡ take (length order.old.entries - count) order.old.entries }
{
    for _ in 0..count {
        pop(order);
    }
}

/// Puts a member behind the others.
fn put(order: &mut BTreeMap<u64, Item>, number: u64, item: &Item) -> Result<(), AllocError>
    requires { AreBelow number order.old.entries }
    ensures ok { OnOk result (order.new.entries ≡ order.old.entries ++ (number, item.now) ∷ []) }
    ensures err { OnErr result (order.new.entries ≡ order.old.entries) }
{
    order.insert(number, item.copy())?;
    Ok(())
}

/// Puts members behind the others. On want of memory all is as before.
fn place(
    order: &mut BTreeMap<u64, Item>,
    items: &OrderedItems,
    first: u64,
) -> Result<(), AllocError>
    requires fits { first + length items.now < 2 ^ 64 }
    requires early { AreBelow first order.old.entries }
    ensures ok { OnOk result (order.new.entries ≡ order.old.entries ++ numbered first items.now) }
    ensures err { OnErr result (order.new.entries ≡ order.old.entries) }
{
    let mut number = first;
    for item in items.values() {
        if let Err(error) = put(order, number, item) {
            pop_many(order, number - first);
            return Err(error);
        }
        number += 1;
    }
    Ok(())
}

/// Notes the number of a member.
fn note(numbers: &mut IndexMap<Item, u64>, item: &Item, number: u64)
    requires { 0 < spare numbers.old }
    ensures known { (q : Item) → lookup (spec.same_item q) numbers.new.entries ≡ cond (spec.same_item item.now q) (Some number) (lookup (spec.same_item q) numbers.old.entries) }
    ensures room { spare numbers.old ≤ spare numbers.new + 1 }
{
    match numbers.insert(item.copy(), number) {
        Ok(_) => {}
        Err(_) => unreachable!(),
    }
}

/// Notes the numbers of members.
fn note_all(numbers: &mut IndexMap<Item, u64>, items: &OrderedItems, first: u64)
    requires fits { first + length items.now < 2 ^ 64 }
    requires room { length items.now ≤ spare numbers.old }
    ensures { (q : Item) → lookup (spec.same_item q) numbers.new.entries ≡ or_number (number_of (numbered first items.now) q) (lookup (spec.same_item q) numbers.old.entries) }
{
    let mut number = first;
    for item in items.values() {
        note(numbers, item, number);
        number += 1;
    }
}

/// A copy of members at numbers.
fn copy_order(order: &BTreeMap<u64, Item>) -> Result<BTreeMap<u64, Item>, AllocError>
    ensures { IfOk result (λ m. m.entries ≡ order.now.entries) }
{
    order.clone()
}

/// A copy of the numbers of members.
fn copy_numbers(numbers: &IndexMap<Item, u64>) -> Result<IndexMap<Item, u64>, AllocError>
    ensures { IfOk result (λ m. m.entries ≡ numbers.now.entries) }
{
    numbers.clone()
}

impl OrderedItems {
    /// No member.
    pub fn new(alloc: Global) -> OrderedItems
        ensures { result ≡ [] }
    {
        OrderedItems {
            order: BTreeMap::new(alloc),
            numbers: IndexMap::new(alloc),
            next: 0,
        }
    }

    /// Whether there is no member.
    pub fn is_empty(&self) -> bool
        ensures { result ≡ is_none self.now }
    {
        self.order.is_empty()
    }

    /// Whether the member is there.
    pub fn has(&self, item: &Item) -> bool
        ensures value { result ≡ spec.has_item self.now item.now }
        ensures distinct { AreDistinct self.now }
    {
        self.numbers.contains_key(item)
    }

    /// The member that is equal to this one, as it stands here.
    pub fn find(&self, item: &Item) -> Option<&Item>
        ensures { option_copied result ≡ find (spec.same_item item.now) self.now }
    {
        let number = self.numbers.get(item)?;
        self.order.get(number)
    }

    /// The members in their order.
    pub fn values(&self) -> Values<'_, u64, Item>
        ensures rest { result ≡ self.now }
        ensures len { length result ≡ length self.now }
        ensures runs { ShowsInOrder (deref {X = Item}) }
        ensures runs_back { ShowsInReverse (deref {X = Item}) }
        ensures fits { length self.now < 2 ^ 63 }
        ensures distinct { AreDistinct self.now }
    {
        self.order.values()
    }

    /// Adds a member at the end, unless it is there. A number that would pass its type's end counts as want of memory.
    pub fn add(&mut self, item: Item) -> Result<(), AllocError>
        ensures ok { OnOk result (self.new ≡ spec.with_item self.old item) }
        ensures err { OnErr result (self.new ≡ self.old) }
    {
        if self.has(&item) {
            return Ok(());
        }
        self.push(item)
    }

    /// Adds a member, which isn't there, at the end.
    fn push(&mut self, item: Item) -> Result<(), AllocError>
        requires { spec.has_item self.old item ≡ false }
        ensures ok { OnOk result (self.new ≡ self.old ++ item ∷ []) }
        ensures err { OnErr result (self.new ≡ self.old) }
    {
        let Some(next) = self.next.checked_add(1) else {
            return Err(AllocError);
        };
        self.numbers.reserve(1)?;
        self.order.insert(self.next, item.copy())?;
        match self.numbers.insert(item, self.next) {
            Ok(_) => {}
            Err(_) => unreachable!(),
        }
        self.next = next;
        Ok(())
    }

    /// Takes a member out, where it is there.
    pub fn remove(&mut self, item: &Item)
        ensures { self.new ≡ spec.without_item self.old item.now }
    {
        take_out(&mut self.order, &mut self.numbers, item);
    }

    /// How many members there are.
    fn len(&self) -> u64
        ensures { result ≡ length self.now }
    {
        self.order.len() as u64
    }

    /// Takes members out, and then adds others at the end. On want of memory all is as before.
    pub fn change(&mut self, gone: &IndexSet<Item>, added: &OrderedItems) -> Result<(), AllocError>
        requires { AreNew (standing self.old gone.now.keys) added.now }
        ensures ok { OnOk result (self.new ≡ changed self.old gone.now.keys added.now) }
        ensures err { OnErr result (self.new ≡ self.old) }
    {
        let Some(next) = self.next.checked_add(added.len()) else {
            return Err(AllocError);
        };
        self.numbers.reserve(added.order.len())?;
        place(&mut self.order, added, self.next)?;
        take_all(&mut self.order, &mut self.numbers, gone.as_slice());
        note_all(&mut self.numbers, added, self.next);
        self.next = next;
        Ok(())
    }

    /// A copy.
    pub fn copy(&self) -> Result<OrderedItems, AllocError>
        ensures { IfOk result (λ s. s ≡ self.now) }
    {
        let order = copy_order(&self.order)?;
        let numbers = copy_numbers(&self.numbers)?;
        Ok(OrderedItems {
            order,
            numbers,
            next: self.next,
        })
    }
}
