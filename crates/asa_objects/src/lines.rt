//! The lines of a block: what each makes of the members of its name.
ghost use Rattle.std.specs.Prelude.{◌≡◌, ℕ, ◌+◌, ◌^◌, ◌-◌, ◌<◌, List, length};
ghost use Rattle.asa_text.specs.Blocks.{top_text};
ghost use Rattle.asa_text.specs.Words.{line_left};
ghost use Rattle.asa_objects_lines.specs.Groups.{statement_at};
ghost use Rattle.asa_objects_lines.specs.Tops.{top_at};
ghost use Rattle.asa_objects_values.specs.Definition as spec;
ghost use Rattle.asa_objects_values.specs.Drafts.{marked};
ghost use Rattle.asa_objects_table.specs.Ranks.{has_name};
ghost use Rattle.asa_objects_values.specs.Tables.{known_of, reaches};

use asa_base::Name;
use asa_objects_lines::{BlockKind, Item, Statement, Top, read_statement, read_top};
use asa_objects_table::NameTable;
use asa_objects_values::{Draft, ObjectFault, item_of_value, name_in};
use asa_text::{Block, Line, LineFault, Words};
use std::alloc::Global;
use std::collections::BTreeSet;

/// The fault of a word in a line of a block.
fn at_line(line: u32, fault: LineFault) -> ObjectFault
    ensures { result ≡ spec.at_line line fault }
{
    match fault {
        LineFault::Bad { column } => ObjectFault::Bad { line, column },
        LineFault::Unsupported { column } => ObjectFault::Unsupported { line, column },
        LineFault::Unknown { column } => ObjectFault::Unknown { line, column },
        LineFault::NoSuchInterface { column } => ObjectFault::Unknown { line, column },
        LineFault::NoMemory => ObjectFault::NoMemory,
    }
}

/// The column of a missing word of the first line.
pub(crate) fn missing_column(block: &Block) -> u32
    ensures { result ≡ spec.missing_column block.now }
{
    block.top_words().end()
}

/// Reads the first line of a block.
pub(crate) fn top_of(block: &Block) -> Result<Top, ObjectFault>
    ensures { result ≡ spec.read_at 1 (top_at (line_left (top_text block.now))) }
{
    let mut words = block.top_words();
    match read_top(&mut words) {
        Ok(top) => Ok(top),
        Err(fault) => Err(at_line(1, fault)),
    }
}

/// Reads an indented line of a block.
fn statement_of(
    table: &NameTable,
    block: BlockKind,
    n: u32,
    line: &Line,
) -> Result<Statement, ObjectFault>
    ensures { result ≡ spec.read_at n (statement_at (known_of table.now) block (line_left line.now.text)) }
{
    let mut words = Words::of(line.text.as_bytes());
    match read_statement(&mut words, table, block) {
        Ok(statement) => Ok(statement),
        Err(fault) => Err(at_line(n, fault)),
    }
}

/// Whether a member refers to one of the names that reach a name.
fn leads_to(table: &NameTable, name: &Name, reaching: &BTreeSet<Name>, item: &Item) -> bool
    requires { (q : List ℕ) → has_name reaching.now.keys q ≡ reaches table.now q name.now }
    ensures { result ≡ spec.leads_to table.now name.now item.now }
{
    match name_in(item) {
        Some(other) => reaching.contains(other),
        None => false,
    }
}

/// Takes what a line says.
fn take_statement(
    alloc: Global,
    table: &NameTable,
    name: &Name,
    reaching: &BTreeSet<Name>,
    line: u32,
    draft: &mut Draft<'_>,
    statement: Statement,
) -> Result<(), ObjectFault>
    requires { (q : List ℕ) → has_name reaching.now.keys q ≡ reaches table.now q name.now }
    ensures members { spec.Takes result (marked draft.new) (spec.stated table.now name.now line (marked draft.old) statement) }
    ensures former { draft.new.former ≡ draft.old.former }
{
    match statement {
        Statement::Value(value) => {
            draft.set(alloc, item_of_value(value))?;
            Ok(())
        }
        Statement::Member(item) => {
            if leads_to(table, name, reaching, &item) {
                return Err(ObjectFault::Cycle { line });
            }
            draft.add(item)?;
            Ok(())
        }
        Statement::Removed(item) => {
            if !draft.has(&item) {
                return Err(ObjectFault::NoSuchMember { line });
            }
            draft.remove(item)?;
            Ok(())
        }
        Statement::Nothing | Statement::Nat | Statement::NoNat => Ok(()),
    }
}

/// Takes a line.
fn take_line(
    alloc: Global,
    table: &NameTable,
    name: &Name,
    block: BlockKind,
    reaching: &BTreeSet<Name>,
    n: u32,
    draft: &mut Draft<'_>,
    line: &Line,
) -> Result<(), ObjectFault>
    requires { (q : List ℕ) → has_name reaching.now.keys q ≡ reaches table.now q name.now }
    ensures members { spec.Takes result (marked draft.new) (spec.after_line table.now name.now block n (marked draft.old) line.now) }
    ensures former { draft.new.former ≡ draft.old.former }
{
    let statement = statement_of(table, block, n, line)?;
    take_statement(alloc, table, name, reaching, n, draft, statement)
}

/// The members of a name after the indented lines of its block.
#[tactic(auto, unfolding(asa_objects_values::specs::Definition::after_lines))]
pub(crate) fn take_lines(
    alloc: Global,
    table: &NameTable,
    name: &Name,
    block: BlockKind,
    reaching: &BTreeSet<Name>,
    draft: &mut Draft<'_>,
    lines: &[Line],
) -> Result<(), ObjectFault>
    requires reaching { (q : List ℕ) → has_name reaching.now.keys q ≡ reaches table.now q name.now }
    requires few { length lines.now + 1 < 2 ^ 32 - 1 }
    ensures members { spec.Takes result (marked draft.new) (spec.after_lines table.now name.now block 2 (marked draft.old) lines.now) }
    ensures former { draft.new.former ≡ draft.old.former }
{
    for (i, line) in lines.iter().enumerate() {
        take_line(
            alloc,
            table,
            name,
            block,
            reaching,
            i as u32 + 2,
            draft,
            line,
        )?;
    }
    Ok(())
}
