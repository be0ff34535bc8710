//! A block changes the value of a name of the table.
ghost use Rattle.std.specs.Prelude.{◌≡◌, ℕ, List, true, is_some, IsSomeAnd, None, Some};
ghost use Rattle.asa_objects_values.specs.Definition as spec;
ghost use Rattle.asa_objects_values.specs.Drafts.{changed};
ghost use Rattle.asa_objects_values.specs.Tables.{entry_of, reaches};
ghost use Rattle.asa_objects_table.specs.Ranks.{has_name};
ghost use Rattle.asa_objects.specs.BlockChanges as over;

use crate::lines::{missing_column, take_lines};
use asa_base::Name;
use asa_objects_lines::{BlockKind, Top};
use asa_objects_table::{NameTable, set_of_names};
use asa_objects_values::{Change, Draft, ObjectFault, OrderedItems, Stated};
use asa_text::Block;
use std::alloc::Global;
use std::collections::BTreeSet;

/// Whether an object has no value after a change of its former members. A group needs none.
fn lacks_value(block: BlockKind, former: &OrderedItems, change: &Change) -> bool
    ensures { result ≡ spec.lacks_value block (changed former.now change.now.gone.keys change.now.added) }
{
    match block {
        BlockKind::Group(_) => false,
        BlockKind::NetObject | BlockKind::ServiceObject => change.leaves_none(former),
    }
}

/// What the lines of a block do to the members of a name, and whether the name then lacks a value.
#[derive(Debug, Drop)]
struct Drafted {
    change: Change,
    lacks: bool,
}

/// What a name states that is in the table.
fn stated_of<'a>(table: &'a NameTable, name: &Name) -> &'a Stated
    requires { is_some (entry_of table.now name.now) ≡ true }
    ensures { entry_of table.now name.now ≡ Some result.now }
{
    match table.get(name) {
        Some(stated) => stated,
        None => unreachable!(),
    }
}

/// Reads the indented lines of a block; `reaching` are the names that reach the block's name.
fn read_lines(
    alloc: Global,
    table: &NameTable,
    reaching: &BTreeSet<Name>,
    block: &Block,
    top: &Top,
) -> Result<Drafted, ObjectFault>
    requires there { is_some (entry_of table.now top.now.name) ≡ true }
    requires reaching { (q : List ℕ) → has_name reaching.now.keys q ≡ reaches table.now q top.now.name }
    ensures value { over.Drafteds table.now block.now top.now result }
{
    let stated = stated_of(table, &top.name);
    let mut draft = Draft::new(alloc, stated);
    take_lines(
        alloc,
        table,
        &top.name,
        top.block,
        reaching,
        &mut draft,
        block.inner_lines(),
    )?;
    let change = draft.into_change();
    let lacks = lacks_value(top.block, stated.items(), &change);
    Ok(Drafted { change, lacks })
}

/// What a block does to the members of a name that is in the table, where it may; `reaching` are the names that reach it.
fn read_change(
    alloc: Global,
    table: &NameTable,
    reaching: &BTreeSet<Name>,
    block: &Block,
    top: &Top,
) -> Result<Change, ObjectFault>
    requires there { is_some (entry_of table.now top.now.name) ≡ true }
    requires reaching { (q : List ℕ) → has_name reaching.now.keys q ≡ reaches table.now q top.now.name }
    ensures { over.Reads table.now block.now top.now result }
{
    let read = read_lines(alloc, table, reaching, block, top)?;
    let Drafted { change, lacks } = read;
    if lacks {
        return Err(ObjectFault::NoValue {
            column: missing_column(block),
        });
    }
    if table.len() > 16384 {
        return Err(ObjectFault::TooMany);
    }
    Ok(change)
}

/// Takes the block of a name that is in the table. After a refusal the table is as before.
pub(crate) fn change_value(
    alloc: Global,
    table: &mut NameTable,
    block: &Block,
    top: &Top,
) -> Result<(), ObjectFault>
    requires { IsSomeAnd (entry_of table.old top.now.name) (λ e. e.block ≡ top.now.block) }
    ensures { spec.Defines result table.old table.new (spec.changed_by table.old block.now top.now) }
{
    table.order();
    let above = table.above(&top.name)?;
    let reaching = set_of_names(alloc, above.as_slice())?;
    let wanted = read_change(alloc, table, &reaching, block, top)?;
    table.change(&top.name, &wanted, above.as_slice())?;
    Ok(())
}

/// Takes the block of a name that isn't in the table. After a refusal the table is as before.
fn define_new(
    alloc: Global,
    table: &mut NameTable,
    block: &Block,
    top: &Top,
) -> Result<(), ObjectFault>
    requires { entry_of table.old top.now.name ≡ None }
    ensures { spec.Defines result table.old table.new (spec.changed_by (spec.begun table.old top.now) block.now top.now) }
{
    table.order();
    table.open(&top.name, top.block)?;
    let result = change_value(alloc, table, block, top);
    match result {
        Ok(()) => Ok(()),
        Err(fault) => {
            table.close(&top.name);
            Err(fault)
        }
    }
}

/// Takes a block whose first line is read. After a refusal the table is as before.
pub(crate) fn define_top(
    alloc: Global,
    table: &mut NameTable,
    block: &Block,
    top: &Top,
) -> Result<(), ObjectFault>
    ensures { spec.Defines result table.old table.new (spec.defined_by table.old block.now top.now) }
{
    let Some(stated) = table.get(&top.name) else {
        return define_new(alloc, table, block, top);
    };
    if stated.block() != top.block {
        return Err(ObjectFault::NameTaken);
    }
    change_value(alloc, table, block, top)
}

/// Judges the indented lines of the block of a name that is in the table.
fn judge_value(
    alloc: Global,
    table: &NameTable,
    block: &Block,
    top: &Top,
) -> Result<(), ObjectFault>
    requires { is_some (entry_of table.now top.now.name) ≡ true }
    ensures { spec.Judges result (spec.stated_by table.now block.now top.now) }
{
    let above = table.above(&top.name)?;
    let reaching = set_of_names(alloc, above.as_slice())?;
    read_lines(alloc, table, &reaching, block, top)?;
    Ok(())
}

/// Judges the indented lines of the block of a name that isn't in the table; it stands there while they are read.
fn judge_new(
    alloc: Global,
    table: &mut NameTable,
    block: &Block,
    top: &Top,
) -> Result<(), ObjectFault>
    requires { entry_of table.old top.now.name ≡ None }
    ensures value { spec.Judges result (spec.stated_by (spec.begun table.old top.now) block.now top.now) }
    ensures same { table.new ≡ table.old }
{
    table.order();
    table.open(&top.name, top.block)?;
    let result = judge_value(alloc, table, block, top);
    let _was_there = table.close(&top.name);
    result
}

/// Judges a block whose first line is read, leaving aside a missing value and the limits. The table stays as it is.
pub(crate) fn judge_top(
    alloc: Global,
    table: &mut NameTable,
    block: &Block,
    top: &Top,
) -> Result<(), ObjectFault>
    ensures value { spec.Judges result (spec.judged_by table.old block.now top.now) }
    ensures same { table.new ≡ table.old }
{
    let Some(stated) = table.get(&top.name) else {
        return judge_new(alloc, table, block, top);
    };
    if stated.block() == top.block {
        judge_value(alloc, table, block, top)
    } else {
        Err(ObjectFault::NameTaken)
    }
}
