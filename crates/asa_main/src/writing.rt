//! Writing a text after others, with the number of bytes that are written by then.
ghost use Rattle.std.specs.Prelude.{◌≡◌, ◌≤◌, IfOk};
ghost use Rattle.asa_main.specs.declared.statuses.Status.TheVariants as status;
ghost use Rattle.asa_main.specs.Outputs.{Output, WritesText, WritesTexts, Writes};

use crate::statuses::Status;
use asa_io::{Sink, WriteError, write_all};

/// Writes a text after `written` bytes, and gives the number of bytes that are then written. More than a `u64` counts are
/// taken for want of memory, before anything of the text is written.
pub(crate) fn write_text<K: Sink>(output: &mut K, text: &[u8], written: u64) -> Result<u64, Status>
    ensures writes { WritesText text.now written (K.given output.old) (K.given output.new) (K.faults output.old) (K.faults output.new) result }
    ensures flushed { IfOk result (λ _. K.is_flushed output.new) }
    ensures later { K.faults output.old ≤ K.faults output.new }
{
    let Some(total) = written.checked_add(text.len() as u64) else {
        return Err(Status::Memory);
    };
    match write_all(output, text) {
        Ok(()) => Ok(total),
        Err(WriteError::Failed { written: more }) => Err(Status::WriteFault {
            written: written + more,
        }),
    }
}
