//! The names that reach a name, found by the names that refer to each, in the order of their labels.
ghost use Rattle.std.specs.Prelude.{◌≡◌, ℕ, ◌<◌, List, OnOk, IfOk, true, is_some};
ghost use Rattle.std.specs.BTreeMap.{get};
ghost use Rattle.std.specs.Ordering.{nat_cmp};
ghost use Rattle.asa_objects_table.specs.Climbs.{IsAbove, waits};
ghost use Rattle.asa_objects_table.specs.Ranks.{IsSound, has_name, label_of, rank_of, users_of};

use crate::rank::Rank;
use asa_base::Name;
use asa_objects_values::Stated;
use indexmap::IndexMap;
use std::alloc::{AllocError, Global};
use std::collections::{BTreeMap, BTreeSet};

/// The label of a name; 0 where it has no rank.
pub(crate) fn label_of(ranks: &IndexMap<Name, Rank>, name: &Name) -> u64
    ensures { result ≡ label_of ranks.now.entries name.now }
{
    match ranks.get(name) {
        Some(rank) => rank.label,
        None => 0,
    }
}

/// Puts names among those that wait, each at its label.
fn wait_for(
    ranks: &IndexMap<Name, Rank>,
    users: &BTreeSet<Name>,
    waiting: &mut BTreeMap<u64, Name>,
) -> Result<(), AllocError>
    ensures { OnOk result ((n : ℕ) → get nat_cmp waiting.new n ≡ waits (label_of ranks.now.entries) users.now.keys n (get nat_cmp waiting.old n)) }
{
    for user in users {
        waiting.insert(label_of(ranks, user), user.copy())?;
    }
    Ok(())
}

/// Puts the names that refer to a name among those that wait.
fn wait_for_users(
    ranks: &IndexMap<Name, Rank>,
    uses: &BTreeMap<Name, BTreeSet<Name>>,
    name: &Name,
    waiting: &mut BTreeMap<u64, Name>,
) -> Result<(), AllocError>
    ensures { OnOk result ((n : ℕ) → get nat_cmp waiting.new n ≡ waits (label_of ranks.now.entries) (users_of uses.now.entries name.now) n (get nat_cmp waiting.old n)) }
{
    match uses.get(name) {
        Some(users) => wait_for(ranks, users, waiting),
        None => Ok(()),
    }
}

/// The names that reach a name, itself first, in the order of their labels.
pub(crate) fn above(
    alloc: Global,
    values: &BTreeMap<Name, Stated>,
    ranks: &IndexMap<Name, Rank>,
    uses: &BTreeMap<Name, BTreeSet<Name>>,
    stamp: u64,
    name: &Name,
) -> Result<Vec<Name>, AllocError>
    requires sound { IsSound values.now.entries ranks.now.entries uses.now.entries stamp }
    requires there { is_some (rank_of ranks.now.entries name.now) ≡ true }
    ensures { IfOk result (λ v. IsAbove values.now.entries ranks.now.entries name.now v.items) }
{
    let mut found = Vec::new(alloc);
    let mut waiting = BTreeMap::new(alloc);
    waiting.insert(label_of(ranks, name), name.copy())?;
    let mut floor = 0;
    while let Some((label, next)) = waiting.pop_first() {
        wait_for_users(ranks, uses, &next, &mut waiting)?;
        found.push(next)?;
        floor = label + 1;
    }
    Ok(found)
}

/// These names as a set.
pub fn set_of_names(alloc: Global, names: &[Name]) -> Result<BTreeSet<Name>, AllocError>
    ensures { IfOk result (λ s. (q : List ℕ) → has_name s.keys q ≡ has_name names.now q) }
{
    let mut set = BTreeSet::new(alloc);
    for name in names {
        set.insert(name.copy())?;
    }
    Ok(set)
}
