//! How a run ended: its status, the program's exit status, and the line on standard error.
ghost use Rattle.std.specs.Prelude.{◌≡◌, ◌≤◌, length, take, IfErr, OnOk};
ghost use Rattle.std.specs.Io.KnownBytes.{Appends};
ghost use Rattle.asa_io.specs.Faults.{HasCause};
ghost use Rattle.asa_io.specs.Whole.{written_of};
ghost use Rattle.asa_main.specs.Statuses.{exit_code_of, reason_text, status_text};

use asa_io::{Sink, WriteError, write_all};
use asa_report::{ReasonText, kind_text, refused_line, too_long_text, write_failed_line};
use asa_session::SessionKind;

/// Why an input is refused.
#[derive(Debug, Drop)]
pub enum Reason {
    /// A line of the session is refused.
    Session(SessionKind),
    /// The input has more bytes than a session may have.
    TooLong,
}

/// How a run ended.
#[derive(Debug, Drop)]
pub enum Status {
    /// All was written: the report of `run`, or the findings of `shadow` and their last line.
    Done,
    /// The input is refused at this line, from 1, or as a whole at line 0. Nothing was written.
    Refused { line: u32, reason: Reason },
    /// The words are no form of the command line. Nothing was read or written.
    Usage,
    /// A read failed. Nothing was written.
    ReadFault,
    /// A write or the flush failed after this many bytes were written.
    WriteFault { written: u64 },
    /// There was no memory. Nothing was written, or, by `shadow`, whole findings.
    Memory,
}

/// The program's exit status: 0 for Done, and a number of its own for each other status.
pub fn exit_code(status: &Status) -> u8
    ensures { result ≡ exit_code_of status.now }
{
    match status {
        Status::Done => 0,
        Status::Refused { .. } => 1,
        Status::Usage => 2,
        Status::ReadFault => 3,
        Status::WriteFault { .. } => 4,
        Status::Memory => 5,
    }
}

fn text_of(reason: &Reason) -> ReasonText
    ensures { result ≡ reason_text reason.now }
{
    match reason {
        Reason::Session(kind) => kind_text(kind),
        Reason::TooLong => too_long_text(),
    }
}

/// Writes the line that tells how a run ended, and nothing for Done. It takes no memory, so that want of memory can be
/// told too. After a failure some of the line's first bytes were given, as many as the error says.
#[tactic(auto, unfolding(crate::specs::Statuses::status_text))]
pub fn write_status<K: Sink>(status: &Status, sink: &mut K) -> Result<(), WriteError>
    ensures all { OnOk result (Appends (K.given sink.old) (K.given sink.new) (status_text status.now)) }
    ensures bound { IfErr result (λ e. written_of e ≤ length (status_text status.now)) }
    ensures front { IfErr result (λ e. Appends (K.given sink.old) (K.given sink.new) (take (written_of e) (status_text status.now))) }
    ensures cause { HasCause result (K.faults sink.old) (K.faults sink.new) }
    ensures later { K.faults sink.old ≤ K.faults sink.new }
{
    match status {
        Status::Done => Ok(()),
        Status::Refused { line, reason } => {
            write_all(sink, refused_line(*line, &text_of(reason)).as_bytes())
        }
        Status::Usage => write_all(
            sink,
            b"asa: usage: asa run [--conns N] | check | gen START SIZE | shadow\n",
        ),
        Status::ReadFault => write_all(sink, b"asa: read failed\n"),
        Status::WriteFault { written } => write_all(sink, write_failed_line(*written).as_bytes()),
        Status::Memory => write_all(sink, b"asa: out of memory\n"),
    }
}
