//! What names stand for: the members of a name in order, each name in them replaced in its place by its own members.
ghost use Rattle.std.specs.Prelude.{◌≡◌, ◌+◌, ◌<◌, ◌≤◌, suc, ◌++◌, length, not, nat_lt, IfOk, OnOk};
ghost use Rattle.asa_objects_lines.specs.Items.{item_services};
ghost use Rattle.asa_objects.specs.Expansions as spec;
ghost use Rattle.asa_objects.specs.Stacks as lists;
ghost use Rattle.asa_objects_values.specs.Tables as tables;

use asa_base::{Member, Name, Service};
use asa_objects_lines::{BlockKind, GroupKind, Item};
use asa_objects_table::NameTable;
use asa_objects_values::{Stated, group_of, name_in};
use asa_text::Items;
use std::alloc::{AllocError, Global};
use std::collections::btree_map::Values;

/// Why a name isn't expanded.
#[derive(Clone, Copy, Debug, PartialEq, Eq)]
pub enum ExpandFault {
    /// Neither an object nor a group has the name.
    Unknown,
    /// The name isn't of a kind with such members.
    WrongKind,
    /// The name has more than 65,536 such members.
    TooMany,
    /// Memory ran out.
    NoMemory,
}

impl From<AllocError> for ExpandFault {
    ghost use Rattle.std.specs.Prelude.{◌≡◌};
    ghost use Rattle.asa_objects.specs.declared.expansion.ExpandFault.TheVariants as fault;

    ghost from_gives = { λ _ r. r ≡ fault.NoMemory };

    fn from(_: AllocError) -> ExpandFault {
        ExpandFault::NoMemory
    }
}

/// Members of a name that are still to be listed, and their form.
#[derive(Drop)]
struct Rest<'a> {
    items: Values<'a, u64, Item>,
    group: GroupKind,
}

/// Puts the members of a value among what is still to be listed.
fn wait_for_rest<'a>(stated: &'a Stated, stack: &mut Vec<Rest<'a>>) -> Result<(), AllocError>
    ensures { OnOk result (lists.IsWaiting stack.old.items stack.new.items stated.now) }
{
    stack.push(Rest {
        items: stated.items().values(),
        group: group_of(stated.block()),
    })?;
    Ok(())
}

/// Puts a name's members among what is still to be listed, unless the name has no address.
fn wait_for_members<'a>(
    table: &'a NameTable,
    name: &Name,
    stack: &mut Vec<Rest<'a>>,
) -> Result<(), AllocError>
    ensures listed { OnOk result (lists.unwound_members table.now stack.new.items ≡ tables.members_of table.now name.now ++ lists.unwound_members table.now stack.old.items) }
    ensures shorter { OnOk result (lists.cost table.now stack.new.items ≤ suc (length (lists.visits table.now name.now)) + lists.cost table.now stack.old.items) }
{
    table.order();
    if table.totals(name).members == 0 {
        return Ok(());
    }
    match table.get(name) {
        Some(stated) => wait_for_rest(stated, stack),
        None => Ok(()),
    }
}

/// Lists the address that a member states by itself.
fn push_member(out: &mut Vec<Member>, item: &Item) -> Result<(), AllocError>
    ensures { OnOk result (out.new.items ≡ out.old.items ++ tables.own_members item.now) }
{
    if let Item::Network(member) = item {
        out.push(*member)?;
    }
    Ok(())
}

/// Lists the address of the first of some members, or puts what it names among what is still to be listed.
fn step_members<'a>(
    table: &'a NameTable,
    rest: Rest<'a>,
    stack: &mut Vec<Rest<'a>>,
    out: &mut Vec<Member>,
) -> Result<(), AllocError>
    ensures listed { OnOk result (out.new.items ++ lists.unwound_members table.now stack.new.items ≡ out.old.items ++ (lists.given_by tables.own_members (tables.members_of table.now) rest.entry.items ++ lists.unwound_members table.now stack.old.items)) }
    ensures shorter { OnOk result (lists.cost table.now stack.new.items < lists.cost_of table.now rest.entry.items + lists.cost table.now stack.old.items) }
{
    let Rest { mut items, group } = rest;
    let Some(first) = items.next() else {
        return Ok(());
    };
    stack.push(Rest { items, group })?;
    match name_in(first) {
        Some(name) => wait_for_members(table, name, stack),
        None => push_member(out, first),
    }
}

/// The addresses that a name stands for, in order. A name that has none, and one that isn't there, give nothing.
pub(crate) fn list_members(
    alloc: Global,
    table: &NameTable,
    name: &Name,
) -> Result<Vec<Member>, AllocError>
    ensures { IfOk result (λ v. v.items ≡ tables.members_of table.now name.now) }
{
    let mut out = Vec::new(alloc);
    let mut stack = Vec::new(alloc);
    wait_for_members(table, name, &mut stack)?;
    while let Some(rest) = stack.pop() {
        step_members(table, rest, &mut stack, &mut out)?;
    }
    Ok(out)
}

/// Puts a name's members among what is still to be listed, unless the name has no service.
fn wait_for_services<'a>(
    table: &'a NameTable,
    name: &Name,
    stack: &mut Vec<Rest<'a>>,
) -> Result<(), AllocError>
    ensures listed { OnOk result (lists.unwound_services table.now stack.new.items ≡ tables.services_of_name table.now name.now ++ lists.unwound_services table.now stack.old.items) }
    ensures shorter { OnOk result (lists.cost table.now stack.new.items ≤ suc (length (lists.visits table.now name.now)) + lists.cost table.now stack.old.items) }
{
    table.order();
    if table.totals(name).services == 0 {
        return Ok(());
    }
    match table.get(name) {
        Some(stated) => wait_for_rest(stated, stack),
        None => Ok(()),
    }
}

/// Lists the services that a member states by itself.
fn push_services(out: &mut Vec<Service>, group: GroupKind, item: &Item) -> Result<(), AllocError>
    ensures { OnOk result (out.new.items ≡ out.old.items ++ item_services group item.now) }
{
    item.push_services(group, out)
}

/// Lists the services of the first of some members, or puts what it names among what is still to be listed.
fn step_services<'a>(
    table: &'a NameTable,
    rest: Rest<'a>,
    stack: &mut Vec<Rest<'a>>,
    out: &mut Vec<Service>,
) -> Result<(), AllocError>
    ensures listed { OnOk result (out.new.items ++ lists.unwound_services table.now stack.new.items ≡ out.old.items ++ (lists.given_by (item_services rest.entry.group) (tables.services_of_name table.now) rest.entry.items ++ lists.unwound_services table.now stack.old.items)) }
    ensures shorter { OnOk result (lists.cost table.now stack.new.items < lists.cost_of table.now rest.entry.items + lists.cost table.now stack.old.items) }
{
    let Rest { mut items, group } = rest;
    let Some(first) = items.next() else {
        return Ok(());
    };
    stack.push(Rest { items, group })?;
    match name_in(first) {
        Some(name) => wait_for_services(table, name, stack),
        None => push_services(out, group, first),
    }
}

/// The services that a name stands for, in order. A name that has none, and one that isn't there, give nothing.
pub(crate) fn list_services(
    alloc: Global,
    table: &NameTable,
    name: &Name,
) -> Result<Vec<Service>, AllocError>
    ensures { IfOk result (λ v. v.items ≡ tables.services_of_name table.now name.now) }
{
    let mut out = Vec::new(alloc);
    let mut stack = Vec::new(alloc);
    wait_for_services(table, name, &mut stack)?;
    while let Some(rest) = stack.pop() {
        step_services(table, rest, &mut stack, &mut out)?;
    }
    Ok(out)
}

/// Whether names of this kind stand for addresses.
fn has_members(block: BlockKind) -> bool
    ensures { result ≡ spec.has_members block }
{
    matches!(
        block,
        BlockKind::NetObject | BlockKind::Group(GroupKind::Network)
    )
}

/// Whether there are at most 65,536.
fn is_within(count: usize) -> bool
    ensures { result ≡ not (nat_lt 65536 count) }
{
    count <= 65536
}

/// The addresses of a name.
pub(crate) fn expand_network(
    alloc: Global,
    table: &NameTable,
    name: &Name,
) -> Result<Items<Member>, ExpandFault>
    ensures { spec.Expands result (spec.network_of table.now name.now) }
{
    let Some(stated) = table.get(name) else {
        return Err(ExpandFault::Unknown);
    };
    if !has_members(stated.block()) {
        return Err(ExpandFault::WrongKind);
    }
    let members = list_members(alloc, table, name)?;
    if !is_within(members.len()) {
        return Err(ExpandFault::TooMany);
    }
    Ok(Items::from(members))
}

/// The services of a name.
pub(crate) fn expand_service(
    alloc: Global,
    table: &NameTable,
    name: &Name,
) -> Result<Items<Service>, ExpandFault>
    ensures { spec.Expands result (spec.service_of table.now name.now) }
{
    let Some(stated) = table.get(name) else {
        return Err(ExpandFault::Unknown);
    };
    if has_members(stated.block()) {
        return Err(ExpandFault::WrongKind);
    }
    let services = list_services(alloc, table, name)?;
    if !is_within(services.len()) {
        return Err(ExpandFault::TooMany);
    }
    Ok(Items::from(services))
}
