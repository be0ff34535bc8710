//! How much members count at a name: what they state, and the totals of the names that they refer to.
ghost use Rattle.std.specs.Prelude.{◌≡◌, IfSome};
ghost use Rattle.asa_objects_values.specs.Tables.{named};
ghost use Rattle.asa_objects_table.specs.Weights as spec;

use crate::rank::{Rank, Totals, own_totals, totals_of};
use asa_base::Name;
use asa_objects_lines::{GroupKind, Item};
use asa_objects_values::{OrderedItems, name_in};
use indexmap::IndexMap;

/// The totals of the name that a member refers to, where it refers to one.
fn ref_totals(ranks: &IndexMap<Name, Rank>, item: &Item) -> Totals
    ensures { result ≡ spec.ref_totals ranks.now.entries (named item.now) }
{
    match name_in(item) {
        Some(name) => totals_of(ranks, name),
        None => Totals::none(),
    }
}

/// How much a member counts.
fn weight_of(ranks: &IndexMap<Name, Rank>, group: GroupKind, item: &Item) -> Option<Totals>
    ensures { IfSome result (λ t. t ≡ spec.weight ranks.now.entries group item.now) }
{
    own_totals(group, item).plus(ref_totals(ranks, item))
}

/// How much members count together.
pub(crate) fn weight_of_slice(
    ranks: &IndexMap<Name, Rank>,
    group: GroupKind,
    items: &[Item],
) -> Option<Totals>
    ensures { IfSome result (λ t. t ≡ spec.weights ranks.now.entries group items.now) }
{
    let mut totals = Totals::none();
    for item in items {
        totals = totals.plus(weight_of(ranks, group, item)?)?;
    }
    Some(totals)
}

/// How much members count together.
pub(crate) fn weight_of_items(
    ranks: &IndexMap<Name, Rank>,
    group: GroupKind,
    items: &OrderedItems,
) -> Option<Totals>
    ensures { IfSome result (λ t. t ≡ spec.weights ranks.now.entries group items.now) }
{
    let mut totals = Totals::none();
    for item in items.values() {
        totals = totals.plus(weight_of(ranks, group, item)?)?;
    }
    Some(totals)
}
