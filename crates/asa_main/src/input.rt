//! The input of a run: its bytes, and the session that a form reads from them.
ghost use Rattle.std.specs.Prelude.{◌≡◌, ◌≤◌, length, IfOk, IfErr};
ghost use Rattle.asa_io.specs.Told.{TakesAll};
ghost use Rattle.asa_session.specs.Readiness.{IsReady};
ghost use Rattle.asa_session.specs.Refusals.{Judged};
ghost use Rattle.asa_main.specs.declared.statuses.Status.TheVariants as status;
ghost use Rattle.asa_main.specs.Forms.{session_in};
ghost use Rattle.asa_main.specs.Outcome as spec;

use crate::form::Form;
use crate::statuses::{Reason, Status};
use asa_io::{ReadError, Source, read_all};
use asa_session::{Session, SessionError, read_session, read_startup};
use std::alloc::Global;

/// At most so many bytes make an input.
const INPUT_LIMIT: u64 = 16_777_216;

/// The bytes of the input, which is read to its end, or the status of a run that couldn't read it: ReadFault, the refusal
/// of an input that is too long, or Memory.
pub(crate) fn read_input<S: Source>(alloc: Global, input: &mut S) -> Result<Vec<u8>, Status>
    ensures within { IfOk result (λ bytes. length bytes.items ≤ spec.session_limit) }
    ensures all { IfOk result (λ bytes. TakesAll (S.left input.old) (S.left input.new) bytes.items) }
    ensures unread { IfErr result (λ s. spec.Unread (S.left input.old) (S.left input.new) (S.faults input.old) (S.faults input.new) s) }
    ensures later { S.faults input.old ≤ S.faults input.new }
{
    match read_all(alloc, input, INPUT_LIMIT) {
        Ok(bytes) => Ok(bytes),
        Err(ReadError::Failed) => Err(Status::ReadFault),
        Err(ReadError::TooLong) => Err(Status::Refused {
            line: 0,
            reason: Reason::TooLong,
        }),
        Err(ReadError::NoMemory) => Err(Status::Memory),
    }
}

/// The session that a form reads.
fn read_form(alloc: Global, form: Form, bytes: &[u8]) -> Result<Session, SessionError>
    requires { length bytes.now ≤ spec.session_limit }
    ensures judged { Judged result (session_in form bytes.now) }
    ensures ready { IfOk result IsReady }
{
    match form {
        Form::Run => read_session(alloc, bytes),
        Form::Shadow => read_startup(alloc, bytes),
    }
}

/// The session that a form reads from an input that isn't too long, or the status of its refusal, or Memory.
#[tactic(auto, unfolding(crate::specs::Outcome::judged))]
pub(crate) fn judge(alloc: Global, form: Form, bytes: &[u8]) -> Result<Session, Status>
    requires { length bytes.now ≤ spec.session_limit }
    ensures judged { spec.Judges result (spec.judged form bytes.now) }
    ensures ready { IfOk result IsReady }
{
    match read_form(alloc, form, bytes) {
        Ok(session) => Ok(session),
        Err(SessionError::At { line, kind }) => Err(Status::Refused {
            line,
            reason: Reason::Session(kind),
        }),
        Err(SessionError::NoMemory) => Err(Status::Memory),
    }
}
