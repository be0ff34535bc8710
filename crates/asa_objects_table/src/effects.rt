//! What a change of the members of a name does to the names that it refers to and to its totals.
ghost use Rattle.std.specs.Prelude.{◌≡◌, ◌++◌, true, Some, None, is_some, IfSome, IfErr, IfOk, OnOk, OnErr};
ghost use Rattle.asa_objects_values.specs.declared.faults.ObjectFault.TheVariants as fault;
ghost use Rattle.asa_objects_table.specs.Changes as spec;
ghost use Rattle.asa_objects_table.specs.Effects.{HasEffects};
ghost use Rattle.asa_objects_values.specs.Drafts.{AreNew, changed, standing};
ghost use Rattle.asa_objects_table.specs.Ranks.{both_totals, rank_of};
ghost use Rattle.asa_objects_values.specs.Tables.{entry_of, items_of, named, refers_to, refs_in};
ghost use Rattle.asa_objects_table.specs.Renewals.{totals_in_rank};
ghost use Rattle.asa_objects_table.specs.Users.{AreUsed, AreUnused, unused_in};
ghost use Rattle.asa_objects_table.specs.Weights.{weights};
ghost use Rattle.std.specs.List.{list_any};
ghost use Rattle.std.specs.Option.{option_to_list};

use crate::rank::{Rank, Totals, totals_of};
use crate::users::{add_uses, drop_uses, unused_of};
use crate::weights::{weight_of_items, weight_of_slice};
use asa_base::Name;
use asa_objects_lines::{GroupKind, Item};
use asa_objects_values::{Change, ObjectFault, OrderedItems, Stated, group_of, name_in};
use indexmap::IndexMap;
use std::alloc::{AllocError, Global};
use std::collections::{BTreeMap, BTreeSet};

/// Takes back that a name refers to others, to which it didn't refer before.
fn forget_refs(uses: &mut BTreeMap<Name, BTreeSet<Name>>, name: &Name, refs: &[Name])
    ensures { AreUnused uses.old.entries uses.new.entries name.now refs.now }
{
    drop_uses(uses, refs, name);
}

/// Notes that a name refers to others, and tells to which of them it didn't refer before. On want of memory all is as before.
fn note_refs(
    alloc: Global,
    uses: &mut BTreeMap<Name, BTreeSet<Name>>,
    name: &Name,
    refs: &[Name],
) -> Result<Vec<Name>, AllocError>
    ensures fresh { IfOk result (λ v. v.items ≡ unused_in uses.old.entries refs.now name.now) }
    ensures ok { OnOk result (AreUsed uses.old.entries uses.new.entries name.now (unused_in uses.old.entries refs.now name.now)) }
    ensures err { OnErr result (spec.SameUsers uses.old.entries uses.new.entries) }
{
    let fresh = unused_of(alloc, uses, refs, name)?;
    match add_uses(alloc, uses, fresh.as_slice(), name) {
        Ok(()) => Ok(fresh),
        Err(error) => {
            forget_refs(uses, name, fresh.as_slice());
            Err(error)
        }
    }
}

/// The value of a name that is there.
fn stated_of<'a>(values: &'a BTreeMap<Name, Stated>, name: &Name) -> &'a Stated
    requires { is_some (entry_of values.now.entries name.now) ≡ true }
    ensures { entry_of values.now.entries name.now ≡ Some result.now }
{
    match values.get(name) {
        Some(stated) => stated,
        None => unreachable!(),
    }
}

/// Changes the members of the value of a name that is there. On want of memory all is as before.
fn change_at(
    values: &mut BTreeMap<Name, Stated>,
    name: &Name,
    change: &Change,
) -> Result<(), AllocError>
    requires there { is_some (entry_of values.old.entries name.now) ≡ true }
    requires new { AreNew (standing (items_of values.old.entries name.now) change.now.gone.keys) change.now.added }
    ensures ok { OnOk result (values.new.entries ≡ spec.changed_at values.old.entries name.now change.now.gone.keys change.now.added) }
    ensures err { OnErr result (values.new.entries ≡ values.old.entries) }
{
    match values.get_mut(name) {
        Some(stated) => stated.change(&change.gone, &change.added),
        None => unreachable!(),
    }
}

/// The names that members refer to, in their order.
fn refs_of(alloc: Global, items: &OrderedItems) -> Result<Vec<Name>, AllocError>
    ensures { IfOk result (λ v. v.items ≡ refs_in items.now) }
{
    let mut refs = Vec::new(alloc);
    for item in items.values() {
        if let Some(name) = name_in(item) {
            refs.push(name.copy())?;
        }
    }
    Ok(refs)
}

/// Whether a member refers to a name after a change of the members.
fn still_refers(former: &OrderedItems, change: &Change, name: &Name) -> bool
    ensures { result ≡ list_any (refers_to name.now) (changed former.now change.now.gone.keys change.now.added) }
{
    change.leaves(former, &Item::Object(name.copy()))
        || change.leaves(former, &Item::Group(name.copy()))
}

/// Lists the name that a member refers to which goes, unless another refers to it after the change.
fn push_freed(
    former: &OrderedItems,
    change: &Change,
    item: &Item,
    freed: &mut Vec<Name>,
) -> Result<(), AllocError>
    ensures { OnOk result (freed.new.items ≡ freed.old.items ++ spec.freed_among (changed former.now change.now.gone.keys change.now.added) (option_to_list (named item.now))) }
{
    if let Some(name) = name_in(item) {
        if !still_refers(former, change, name) {
            freed.push(name.copy())?;
        }
    }
    Ok(())
}

/// The names that are no longer referred to after a change of members.
fn freed_by(alloc: Global, former: &OrderedItems, change: &Change) -> Result<Vec<Name>, AllocError>
    ensures { IfOk result (λ v. v.items ≡ spec.freed_by former.now change.now.gone.keys change.now.added) }
{
    let mut freed = Vec::new(alloc);
    for item in change.gone.as_slice() {
        push_freed(former, change, item, &mut freed)?;
    }
    Ok(freed)
}

/// The totals of a name after a change of its members.
fn totals_after(
    ranks: &IndexMap<Name, Rank>,
    name: &Name,
    group: GroupKind,
    change: &Change,
) -> Option<Totals>
    ensures { IfSome result (λ t. both_totals t (weights ranks.now.entries group change.now.gone.keys) ≡ both_totals (totals_in_rank (rank_of ranks.now.entries name.now)) (weights ranks.now.entries group change.now.added)) }
{
    let more = weight_of_items(ranks, group, &change.added)?;
    let less = weight_of_slice(ranks, group, change.gone.as_slice())?;
    totals_of(ranks, name).plus(more)?.minus(less)
}

/// What a change of a name's members does: the names that come to be referred to, those that no longer are, and the totals
/// that the name then has.
#[derive(Debug, Drop)]
pub(crate) struct Effect {
    pub(crate) refs: Vec<Name>,
    pub(crate) freed: Vec<Name>,
    pub(crate) totals: Totals,
}

/// What a change of the members of a name that is there does. A total that passes its type's end counts as want of memory.
pub(crate) fn effect_of(
    alloc: Global,
    values: &BTreeMap<Name, Stated>,
    ranks: &IndexMap<Name, Rank>,
    name: &Name,
    change: &Change,
) -> Result<Effect, ObjectFault>
    requires { is_some (entry_of values.now.entries name.now) ≡ true }
    ensures { HasEffects values.now.entries ranks.now.entries name.now change.now.gone.keys change.now.added result }
{
    let stated = stated_of(values, name);
    // Only for the proof: what lists the members tells that none of them stands twice.
    let _members = stated.items().values();
    let refs = refs_of(alloc, &change.added)?;
    let freed = freed_by(alloc, stated.items(), change)?;
    match totals_after(ranks, name, group_of(stated.block()), change) {
        Some(totals) => Ok(Effect {
            refs,
            freed,
            totals,
        }),
        None => Err(ObjectFault::NoMemory),
    }
}

/// Puts the changed members at a name that is there, and notes which names it refers to then. On want of memory all is as
/// before.
pub(crate) fn take_effect(
    alloc: Global,
    values: &mut BTreeMap<Name, Stated>,
    uses: &mut BTreeMap<Name, BTreeSet<Name>>,
    name: &Name,
    change: &Change,
    effect: &Effect,
) -> Result<(), ObjectFault>
    requires there { is_some (entry_of values.old.entries name.now) ≡ true }
    requires new { AreNew (standing (items_of values.old.entries name.now) change.now.gone.keys) change.now.added }
    ensures ok { OnOk result (values.new.entries ≡ spec.changed_at values.old.entries name.now change.now.gone.keys change.now.added) }
    ensures users { OnOk result (spec.UsersMove uses.old.entries uses.new.entries name.now effect.now.refs.items effect.now.freed.items) }
    ensures err { OnErr result (values.new.entries ≡ values.old.entries) }
    ensures users_err { OnErr result (spec.SameUsers uses.old.entries uses.new.entries) }
    ensures fault { IfErr result (λ f. f ≡ fault.NoMemory) }
{
    let fresh = note_refs(alloc, uses, name, effect.refs.as_slice())?;
    match change_at(values, name, change) {
        Ok(()) => {
            drop_uses(uses, effect.freed.as_slice(), name);
            Ok(())
        }
        Err(_) => {
            forget_refs(uses, name, fresh.as_slice());
            Err(ObjectFault::NoMemory)
        }
    }
}

/// A copy of the table; the members of each name are shared.
pub(crate) fn copy_values(
    values: &BTreeMap<Name, Stated>,
) -> Result<BTreeMap<Name, Stated>, AllocError>
    ensures { IfOk result (λ m. m.entries ≡ values.now.entries) }
{
    values.clone()
}
