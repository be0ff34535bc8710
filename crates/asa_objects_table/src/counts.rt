//! New labels and totals of the names that reach a name whose members have changed.
ghost use Rattle.std.specs.Prelude.{◌≡◌, ◌+◌, ◌<◌, ◌&&◌, nat_le, cond, Some, IfOk, IfErr};
ghost use Rattle.asa_objects_values.specs.declared.faults.ObjectFault.TheVariants as fault;
ghost use Rattle.asa_objects_table.specs.Ranks as spec;
ghost use Rattle.asa_objects_values.specs.Tables.{items_of, same_name};
ghost use Rattle.asa_objects_table.specs.Renewals as total;

use crate::index::Index;
use crate::rank::{Rank, Totals, totals_of};
use asa_base::Name;
use asa_objects_lines::Item;
use asa_objects_values::{ObjectFault, Stated};
use indexmap::IndexMap;
use std::alloc::Global;
use std::collections::{BTreeMap, BTreeSet};

/// Whether a name with these totals is within the limit.
fn is_small(totals: Totals) -> bool
    ensures { result ≡ (nat_le totals.members 65536 && nat_le totals.services 65536) }
{
    totals.members <= 65536 && totals.services <= 65536
}

/// These totals, where they are within the limit.
pub(crate) fn limited(totals: Totals) -> Result<Totals, ObjectFault>
    ensures { total.Limits totals result }
{
    if is_small(totals) {
        Ok(totals)
    } else {
        Err(ObjectFault::TooMany)
    }
}

/// Whether two names are the same.
pub(crate) fn is_same(a: &Name, b: &Name) -> bool
    ensures { result ≡ same_name a.now b.now }
{
    a.cmp(b).is_eq()
}

/// 1 for a test that holds.
fn one_if(holds: bool) -> u64
    ensures { result ≡ cond holds 1 0 }
{
    if holds { 1 } else { 0 }
}

/// How often the members of a value refer to a name: as an object and as a group, of which a name is only one.
fn times(stated: &Stated, name: &Name) -> u64
    ensures { result ≡ total.times name.now stated.now.items }
{
    let as_object = stated.has(&Item::Object(name.copy()));
    let as_group = stated.has(&Item::Group(name.copy()));
    one_if(as_object) + one_if(as_group)
}

/// How often the members of a user refer to a name.
pub(crate) fn times_at(values: &BTreeMap<Name, Stated>, user: &Name, name: &Name) -> u64
    ensures { result ≡ total.times name.now (items_of values.now.entries user.now) }
{
    match values.get(user) {
        Some(stated) => times(stated, name),
        None => 0,
    }
}

/// The label after another.
pub(crate) fn next_label(label: u64) -> Result<u64, ObjectFault>
    ensures ok { IfOk result (λ n. n ≡ label + 1) }
    ensures err { IfErr result (λ f. f ≡ fault.NoMemory) }
{
    match label.checked_add(1) {
        Some(next) => Ok(next),
        None => Err(ObjectFault::NoMemory),
    }
}
