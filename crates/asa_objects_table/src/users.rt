//! Which names refer to each name.
ghost use Rattle.std.specs.Prelude.{◌≡◌, ℕ, true, false, List, ◌&&◌, ◌||◌, not, OnOk, OnErr, IfOk, IfNone, IfSome};
ghost use Rattle.std.specs.Ordering.{is_gt, nat_cmp};
ghost use Rattle.std.specs.Cmp.Lexicographic.{slice_cmp};
ghost use Rattle.std.specs.Option.{option_to_list};
ghost use Rattle.asa_objects_table.specs.Ranks.{has_name, users_of};
ghost use Rattle.asa_objects_values.specs.Tables.{named, same_name, refs_in};
ghost use Rattle.asa_objects_table.specs.Users.{AreUsed, AreUnused, IsPartUsed, unused_in};

use asa_base::Name;
use asa_objects_lines::Item;
use asa_objects_values::{OrderedItems, name_in};
use std::alloc::{AllocError, Global};
use std::collections::{BTreeMap, BTreeSet};

/// A name as the only one of a set.
fn alone(alloc: Global, name: &Name) -> Result<BTreeSet<Name>, AllocError>
    ensures { IfOk result (λ s. (q : List ℕ) → has_name s.keys q ≡ same_name name.now q) }
{
    let mut set = BTreeSet::new(alloc);
    set.insert(name.copy())?;
    Ok(set)
}

/// Notes that a name refers to another.
fn add_use(
    alloc: Global,
    uses: &mut BTreeMap<Name, BTreeSet<Name>>,
    name: &Name,
    user: &Name,
) -> Result<(), AllocError>
    ensures ok { OnOk result ((q u : List ℕ) → has_name (users_of uses.new.entries q) u ≡ (has_name (users_of uses.old.entries q) u || (same_name user.now u && same_name name.now q))) }
    ensures err { OnErr result ((q u : List ℕ) → has_name (users_of uses.new.entries q) u ≡ has_name (users_of uses.old.entries q) u) }
{
    if let Some(users) = uses.get_mut(name) {
        users.insert(user.copy())?;
        return Ok(());
    }
    let users = alone(alloc, user)?;
    uses.insert(name.copy(), users)?;
    Ok(())
}

/// Whether a name refers to another.
fn is_used_by(uses: &BTreeMap<Name, BTreeSet<Name>>, name: &Name, user: &Name) -> bool
    ensures { result ≡ has_name (users_of uses.now.entries name.now) user.now }
{
    match uses.get(name) {
        Some(users) => users.contains(user),
        None => false,
    }
}

/// Those of some names that a name doesn't refer to yet.
pub fn unused_of(
    alloc: Global,
    uses: &BTreeMap<Name, BTreeSet<Name>>,
    names: &[Name],
    user: &Name,
) -> Result<Vec<Name>, AllocError>
    ensures { IfOk result (λ v. v.items ≡ unused_in uses.now.entries names.now user.now) }
{
    let mut unused = Vec::new(alloc);
    for name in names {
        if !is_used_by(uses, name, user) {
            unused.push(name.copy())?;
        }
    }
    Ok(unused)
}

/// Notes that a name no longer refers to another.
fn drop_use(uses: &mut BTreeMap<Name, BTreeSet<Name>>, name: &Name, user: &Name)
    ensures { (q u : List ℕ) → has_name (users_of uses.new.entries q) u ≡ (has_name (users_of uses.old.entries q) u && not (same_name user.now u && same_name name.now q)) }
{
    if let Some(users) = uses.get_mut(name) {
        users.remove(user);
    }
}

/// Notes that a name refers to others. On want of memory some of them may be noted.
pub fn add_uses(
    alloc: Global,
    uses: &mut BTreeMap<Name, BTreeSet<Name>>,
    names: &[Name],
    user: &Name,
) -> Result<(), AllocError>
    ensures ok { OnOk result (AreUsed uses.old.entries uses.new.entries user.now names.now) }
    ensures err { OnErr result (IsPartUsed uses.old.entries uses.new.entries user.now names.now) }
{
    for name in names {
        add_use(alloc, uses, name, user)?;
    }
    Ok(())
}

/// Notes that a name no longer refers to others.
pub fn drop_uses(uses: &mut BTreeMap<Name, BTreeSet<Name>>, names: &[Name], user: &Name)
    ensures { AreUnused uses.old.entries uses.new.entries user.now names.now }
{
    for name in names {
        drop_use(uses, name, user);
    }
}

/// Notes that a name no longer refers to what a member refers to.
fn drop_ref(uses: &mut BTreeMap<Name, BTreeSet<Name>>, item: &Item, user: &Name)
    ensures { AreUnused uses.old.entries uses.new.entries user.now (option_to_list (named item.now)) }
{
    if let Some(name) = name_in(item) {
        drop_use(uses, name, user);
    }
}

/// Notes that a name no longer refers to what members refer to.
pub(crate) fn drop_refs(
    uses: &mut BTreeMap<Name, BTreeSet<Name>>,
    items: &OrderedItems,
    user: &Name,
)
    ensures { AreUnused uses.old.entries uses.new.entries user.now (refs_in items.now) }
{
    for item in items.values() {
        drop_ref(uses, item, user);
    }
}

/// The least name, by bytes, that refers to a name.
pub(crate) fn first_user(uses: &BTreeMap<Name, BTreeSet<Name>>, name: &Name) -> Option<Name>
    ensures none { IfNone result ((u : List ℕ) → has_name (users_of uses.now.entries name.now) u ≡ false) }
    ensures user { IfSome result (λ u. has_name (users_of uses.now.entries name.now) u ≡ true) }
    ensures least { IfSome result (λ u. (v : List ℕ) → has_name (users_of uses.now.entries name.now) v ≡ true → is_gt (slice_cmp nat_cmp u v) ≡ false) }
{
    let users = uses.get(name)?;
    let first = users.first()?;
    Some(first.copy())
}
