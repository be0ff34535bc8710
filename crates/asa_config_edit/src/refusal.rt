//! How a block is judged: its parts, and the refusal of a line for a fault of one of its words.
ghost use Rattle.std.specs.Prelude.{◌≡◌};
ghost use Rattle.asa_text.specs.Words.{line_left};
ghost use Rattle.asa_config_edit.specs.Refusals as spec;
ghost use Rattle.asa_config_edit.specs.declared.fault.EditRefusal.TheVariants as refusal;

use crate::fault::{EditFault, EditRefusal};
use asa_text::{Block, Line, LineFault, Words};

/// The refusal of a line of a block for a fault.
pub fn refused(line: u32, fault: EditFault) -> EditRefusal
    ensures { result ≡ refusal.At line fault }
{
    EditRefusal::At { line, fault }
}

/// The refusal of a line of a block for a fault of one of its words.
pub fn line_refusal(line: u32, fault: LineFault) -> EditRefusal
    ensures { result ≡ spec.line_refusal line fault }
{
    match fault {
        LineFault::Bad { column } => refused(line, EditFault::Bad { column }),
        LineFault::Unsupported { column } => refused(line, EditFault::Unsupported { column }),
        LineFault::Unknown { column } => refused(line, EditFault::Unknown { column }),
        LineFault::NoSuchInterface { column } => {
            refused(line, EditFault::NoSuchInterface { column })
        }
        LineFault::NoMemory => EditRefusal::NoMemory,
    }
}

/// The top line of a block, to be read.
pub fn top_words(block: &Block) -> Words<'_>
    ensures { result ≡ line_left (spec.top_text block.now) }
{
    block.top_words()
}

/// The top line of a block.
pub fn top_line(block: &Block) -> &Line
    ensures { result.now.text ≡ spec.top_text block.now }
{
    block.top()
}

/// That the block has no indented line: the first one is Bad at its first word.
pub fn alone(block: &Block) -> Result<(), EditRefusal>
    ensures { result ≡ spec.alone block.now }
{
    match block.inner_lines().first() {
        Some(line) => Err(refused(
            2,
            EditFault::Bad {
                column: line.words().column(),
            },
        )),
        None => Ok(()),
    }
}
