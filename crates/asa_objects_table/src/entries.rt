//! A name comes into the table, or goes.
ghost use Rattle.std.specs.Prelude.{◌≡◌, ℕ, List, [], true, false, cond, Some, None, is_some, OnOk, OnErr};
ghost use Rattle.std.specs.List.{list_any};
ghost use Rattle.asa_objects_table.specs.Ranks as spec;
ghost use Rattle.asa_objects_table.specs.Ranks.{IsSound, has_name, users_of};
ghost use Rattle.asa_objects_values.specs.Tables.{entry_of, items_of, refers_to, same_name, with_entry, without_name};

use crate::index::Index;
use crate::rank::{Rank, Totals};
use crate::users::drop_refs;
use asa_base::Name;
use asa_objects_lines::BlockKind;
use asa_objects_values::Stated;
use std::alloc::{AllocError, Global};
use std::collections::{BTreeMap, BTreeSet};

/// The rank of a name without members.
fn empty_rank(label: u64) -> Rank
    ensures { result ≡ record { label = label; totals = spec.no_totals } }
{
    Rank {
        label,
        totals: Totals::none(),
    }
}

/// Adds a name without members. After want of memory all is as before; labels that come to their type's end count as such.
pub(crate) fn open_name(
    alloc: Global,
    values: &mut BTreeMap<Name, Stated>,
    index: &mut Index,
    name: &Name,
    block: BlockKind,
) -> Result<(), AllocError>
    requires sound { IsSound values.old.entries index.old.ranks.entries index.old.uses.entries index.old.stamp }
    requires absent { entry_of values.old.entries name.now ≡ None }
    ensures sound { IsSound values.new.entries index.new.ranks.entries index.new.uses.entries index.new.stamp }
    ensures ok { OnOk result (values.new.entries ≡ with_entry values.old.entries name.now (record { block = block; items = [] })) }
    ensures err { OnErr result (values.new.entries ≡ values.old.entries) }
{
    let Some(next) = index.stamp.checked_add(1) else {
        return Err(AllocError);
    };
    let empty = Stated::empty(alloc, block)?;
    values.insert(name.copy(), empty)?;
    match index.ranks.insert(name.copy(), empty_rank(index.stamp)) {
        Ok(_) => {
            index.stamp = next;
            Ok(())
        }
        Err(_) => {
            values.remove(name);
            Err(AllocError)
        }
    }
}

/// Forgets the users of a name.
fn forget_users(uses: &mut BTreeMap<Name, BTreeSet<Name>>, name: &Name)
    ensures { (q u : List ℕ) → has_name (users_of uses.new.entries q) u ≡ cond (same_name name.now q) false (has_name (users_of uses.old.entries q) u) }
{
    uses.remove(name);
}

/// Takes out a name that no name refers to, and answers whether it was there.
pub(crate) fn close_name(
    values: &mut BTreeMap<Name, Stated>,
    index: &mut Index,
    name: &Name,
) -> bool
    requires sound { IsSound values.old.entries index.old.ranks.entries index.old.uses.entries index.old.stamp }
    requires unused { (q : List ℕ) → list_any (refers_to name.now) (items_of values.old.entries q) ≡ false }
    ensures found { result ≡ is_some (entry_of values.old.entries name.now) }
    ensures value { values.new.entries ≡ without_name values.old.entries name.now }
    ensures sound { IsSound values.new.entries index.new.ranks.entries index.new.uses.entries index.new.stamp }
{
    let Some(former) = values.remove(name) else {
        return false;
    };
    let items = former.items();
    drop_refs(&mut index.uses, items, name);
    forget_users(&mut index.uses, name);
    index.ranks.swap_remove(name);
    true
}
