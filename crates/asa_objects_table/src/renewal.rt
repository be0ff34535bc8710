//! The members of a name change, and with them the labels and totals of the names that reach it.
ghost use Rattle.std.specs.Prelude.{◌≡◌, ℕ, List, true, false, cond, Some, is_some};
ghost use Rattle.std.specs.List.{AllByRecursion};
ghost use Rattle.asa_objects_table.specs.Changes as spec;
ghost use Rattle.asa_objects_table.specs.Climbs.{AreReaching};
ghost use Rattle.asa_objects_values.specs.Drafts.{AreFormer, AreNew, changed, standing};
ghost use Rattle.asa_objects_table.specs.Ranks.{IsSound, has_name, rank_of};
ghost use Rattle.asa_objects_values.specs.Tables.{entry_of, items_of, named, same_name};
ghost use Rattle.asa_objects_table.specs.Renewals.{newer};

use crate::effects::{effect_of, take_effect};
use crate::index::Index;
use crate::rank::{Rank, place_of, set_rank_at};
use crate::running_totals::renew;
use asa_base::Name;
use asa_objects_values::{Change, ObjectFault, Stated};
use indexmap::IndexMap;
use std::alloc::Global;
use std::collections::BTreeMap;

/// Puts another rank at a name that has one.
fn set_rank(ranks: &mut IndexMap<Name, Rank>, name: &Name, rank: Rank)
    requires { is_some (rank_of ranks.old.entries name.now) ≡ true }
    ensures { (q : List ℕ) → rank_of ranks.new.entries q ≡ cond (same_name name.now q) (Some rank) (rank_of ranks.old.entries q) }
{
    match place_of(ranks, name) {
        Some(place) => set_rank_at(ranks, place, rank),
        None => unreachable!(),
    }
}

/// Puts the new rank of a name, where there is one, at the name, which has a rank.
fn set_new_rank(ranks: &mut IndexMap<Name, Rank>, new: &IndexMap<Name, Rank>, name: &Name)
    requires { is_some (rank_of ranks.old.entries name.now) ≡ true }
    ensures { (q : List ℕ) → rank_of ranks.new.entries q ≡ cond (same_name name.now q) (newer (rank_of new.now.entries name.now) (rank_of ranks.old.entries q)) (rank_of ranks.old.entries q) }
{
    if let Some(rank) = new.get(name) {
        set_rank(ranks, name, *rank);
    }
}

/// Puts the new ranks of names, which have ranks, in place of the old ones.
fn set_ranks(ranks: &mut IndexMap<Name, Rank>, new: &IndexMap<Name, Rank>, names: &[Name])
    requires { spec.AreRanked ranks.old.entries names.now }
    ensures { (q : List ℕ) → rank_of ranks.new.entries q ≡ cond (has_name names.now q) (newer (rank_of new.now.entries q) (rank_of ranks.old.entries q)) (rank_of ranks.old.entries q) }
{
    for name in names {
        set_new_rank(ranks, new, name);
    }
}

/// Changes the members of a name that is there and that `names` reach, each of them after those of them that it refers to. Unless a copy shares the
/// members that the name has, this costs nothing that grows with them. After a refusal all is as before.
pub(crate) fn change_summed(
    alloc: Global,
    values: &mut BTreeMap<Name, Stated>,
    index: &mut Index,
    name: &Name,
    change: &Change,
    names: &[Name],
) -> Result<(), ObjectFault>
    requires sound { IsSound values.old.entries index.old.ranks.entries index.old.uses.entries index.old.stamp }
    requires there { is_some (entry_of values.old.entries name.now) ≡ true }
    requires above { AreReaching values.old.entries index.old.ranks.entries name.now names.now }
    requires new { AreNew (standing (items_of values.old.entries name.now) change.now.gone.keys) change.now.added }
    requires former { AreFormer (items_of values.old.entries name.now) change.now.gone.keys }
    requires fits { AllByRecursion (λ i. spec.Fits values.old.entries name.now (named i)) (changed (items_of values.old.entries name.now) change.now.gone.keys change.now.added) }
    ensures sound { IsSound values.new.entries index.new.ranks.entries index.new.uses.entries index.new.stamp }
    ensures answer { spec.Replaces values.old.entries values.new.entries (spec.changed_at values.old.entries name.now change.now.gone.keys change.now.added) result }
{
    let effect = effect_of(alloc, values, &index.ranks, name, change)?;
    let renewed = renew(alloc, values, index, name, effect.totals, names)?;
    take_effect(alloc, values, &mut index.uses, name, change, &effect)?;
    set_ranks(&mut index.ranks, &renewed.ranks, names);
    index.stamp = renewed.label;
    Ok(())
}
