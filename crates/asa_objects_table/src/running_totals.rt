//! New labels and totals of the names that reach a name whose members have changed: each name tells the difference to those that
//! refer to it.
ghost use Rattle.std.specs.Prelude.{◌≡◌, ℕ, List, true, false, cond, Some, IfErr, OnOk};
ghost use Rattle.std.specs.List.Sorted.{IsStrictlySortedBy};
ghost use Rattle.std.specs.Ordering.{nat_cmp};
ghost use Rattle.std.specs.Cmp.Lexicographic.{slice_cmp};
ghost use Rattle.asa_objects_values.specs.declared.faults.ObjectFault.TheVariants as fault;
ghost use Rattle.asa_objects_table.specs.Ranks as spec;
ghost use Rattle.asa_objects_table.specs.RunningTotals as sum;
ghost use Rattle.asa_objects_values.specs.Tables.{Table, items_of, same_name};
ghost use Rattle.asa_objects_table.specs.Renewals as total;

use crate::counts::{is_same, limited, next_label, times_at};
use crate::index::Index;
use crate::rank::{Rank, Totals, totals_of};
use asa_base::Name;
use asa_objects_values::{ObjectFault, Stated};
use indexmap::IndexMap;
use std::alloc::Global;
use std::collections::{BTreeMap, BTreeSet};

/// The running totals of a name, or else those that it has.
fn sum_now(ranks: &IndexMap<Name, Rank>, sums: &BTreeMap<Name, Totals>, name: &Name) -> Totals
    ensures { result ≡ sum.sum_now sums.now.entries ranks.now.entries name.now }
{
    match sums.get(name) {
        Some(totals) => *totals,
        None => totals_of(ranks, name),
    }
}

/// The new totals of a name: those that are told, where it is the name whose value changes, or else its running totals.
fn totals_for(
    ranks: &IndexMap<Name, Rank>,
    sums: &BTreeMap<Name, Totals>,
    changed: &Name,
    told: Totals,
    name: &Name,
) -> Result<Totals, ObjectFault>
    ensures told { same_name changed.now name.now ≡ true → total.Limits told result }
    ensures other { same_name changed.now name.now ≡ false → total.Limits (sum.sum_now sums.now.entries ranks.now.entries name.now) result }
{
    let totals = if is_same(changed, name) {
        told
    } else {
        sum_now(ranks, sums, name)
    };
    limited(totals)
}

/// Puts the running totals of a name.
fn put_sum(
    sums: &mut BTreeMap<Name, Totals>,
    name: &Name,
    totals: Totals,
) -> Result<(), ObjectFault>
    ensures ok { OnOk result ((q : List ℕ) → sum.sum_of sums.new.entries q ≡ cond (same_name name.now q) (Some totals) (sum.sum_of sums.old.entries q)) }
    ensures err { IfErr result (λ f. f ≡ fault.NoMemory) }
{
    match sums.insert(name.copy(), totals) {
        Ok(_) => Ok(()),
        Err(_) => Err(ObjectFault::NoMemory),
    }
}

/// Tells a user of a name that its old totals became new ones. A total that passes its type's end counts as want of memory.
fn pass_to(
    values: &BTreeMap<Name, Stated>,
    ranks: &IndexMap<Name, Rank>,
    sums: &mut BTreeMap<Name, Totals>,
    name: &Name,
    old: Totals,
    new: Totals,
    user: &Name,
) -> Result<(), ObjectFault>
    ensures ok { OnOk result ((q : List ℕ) → total.AreMoved (cond (same_name user.now q) (total.times name.now (items_of values.now.entries q)) 0) old new (sum.sum_now sums.old.entries ranks.now.entries q) (sum.sum_now sums.new.entries ranks.now.entries q)) }
    ensures err { IfErr result (λ f. f ≡ fault.NoMemory) }
{
    let count = times_at(values, user, name);
    match sum_now(ranks, sums, user).moved(count, old, new) {
        Some(totals) => put_sum(sums, user, totals),
        None => Err(ObjectFault::NoMemory),
    }
}

/// Tells each of the users of a name that its old totals became new ones.
fn pass_to_all(
    values: &BTreeMap<Name, Stated>,
    ranks: &IndexMap<Name, Rank>,
    sums: &mut BTreeMap<Name, Totals>,
    name: &Name,
    old: Totals,
    new: Totals,
    users: &BTreeSet<Name>,
) -> Result<(), ObjectFault>
    ensures ok { OnOk result ((q : List ℕ) → total.AreMoved (total.times_among values.now.entries name.now users.now.keys q) old new (sum.sum_now sums.old.entries ranks.now.entries q) (sum.sum_now sums.new.entries ranks.now.entries q)) }
    ensures ordered { IsStrictlySortedBy (slice_cmp nat_cmp) users.now.keys }
    ensures err { IfErr result (λ f. f ≡ fault.NoMemory) }
{
    for user in users {
        pass_to(values, ranks, sums, name, old, new, user)?;
    }
    Ok(())
}

/// Whether totals are the same.
fn are_same(a: Totals, b: Totals) -> bool
    ensures { result ≡ true → a ≡ b }
{
    a.members == b.members
        && a.prefixes == b.prefixes
        && a.addresses == b.addresses
        && a.subnets == b.subnets
        && a.services == b.services
}

/// Tells the users of a name its new totals.
fn pass_on(
    values: &BTreeMap<Name, Stated>,
    index: &Index,
    sums: &mut BTreeMap<Name, Totals>,
    name: &Name,
    new: Totals,
) -> Result<(), ObjectFault>
    requires { spec.IsSound values.now.entries index.now.ranks.entries index.now.uses.entries index.now.stamp }
    ensures ok { OnOk result (sum.ArePassed values.now.entries index.now.ranks.entries name.now (total.totals_in_rank (spec.rank_of index.now.ranks.entries name.now)) new sums.old.entries sums.new.entries) }
    ensures err { IfErr result (λ f. f ≡ fault.NoMemory) }
{
    let old = totals_of(&index.ranks, name);
    if are_same(old, new) {
        return Ok(());
    }
    match index.uses.get(name) {
        Some(users) => pass_to_all(values, &index.ranks, sums, name, old, new, users),
        None => Ok(()),
    }
}

/// New ranks of names.
#[derive(Debug, Drop)]
pub(crate) struct Renewed {
    /// The ranks.
    pub(crate) ranks: IndexMap<Name, Rank>,
    /// The label after the last that was given.
    pub(crate) label: u64,
}

/// New ranks of names, in their order. The totals of the name whose value changes are told; each name that gets other totals
/// tells the difference to those that refer to it. A name with too many members is TooMany. Labels that come to their type's
/// end count as want of memory.
pub(crate) fn renew(
    alloc: Global,
    values: &BTreeMap<Name, Stated>,
    index: &Index,
    changed: &Name,
    told: Totals,
    names: &[Name],
) -> Result<Renewed, ObjectFault>
    requires { spec.IsSound values.now.entries index.now.ranks.entries index.now.uses.entries index.now.stamp }
    ensures { (after : Table) → total.IsTold values.now.entries after index.now.ranks.entries changed.now told names.now → sum.Renews after index.now.ranks.entries index.now.stamp names.now result }
{
    let mut new = IndexMap::new(alloc);
    let mut sums = BTreeMap::new(alloc);
    let mut label = index.stamp;
    for name in names {
        let totals = totals_for(&index.ranks, &sums, changed, told, name)?;
        pass_on(values, index, &mut sums, name, totals)?;
        put_rank(&mut new, name, Rank { label, totals })?;
        label = next_label(label)?;
    }
    Ok(Renewed { ranks: new, label })
}

/// Puts the rank of a name.
fn put_rank(ranks: &mut IndexMap<Name, Rank>, name: &Name, rank: Rank) -> Result<(), ObjectFault>
    ensures ok { OnOk result ((q : List ℕ) → spec.rank_of ranks.new.entries q ≡ cond (same_name name.now q) (Some rank) (spec.rank_of ranks.old.entries q)) }
    ensures err { IfErr result (λ f. f ≡ fault.NoMemory) }
{
    match ranks.insert(name.copy(), rank) {
        Ok(_) => Ok(()),
        Err(_) => Err(ObjectFault::NoMemory),
    }
}
