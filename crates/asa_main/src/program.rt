//! A run: the words are read first, then the input, then what stands in it; only then is the first byte written.
ghost use Rattle.std.specs.Prelude.{◌≡◌, ◌≤◌, map, length, IfOk, IsFalse, Some};
ghost use Rattle.std.specs.String.{string_bytes};
ghost use Rattle.asa_session.specs.Readiness.{IsReady};
ghost use Rattle.asa_main.specs.declared.form.Form.TheVariants as form;
ghost use Rattle.asa_main.specs.declared.statuses.Status.TheVariants as status;
ghost use Rattle.asa_main.specs.Forms as forms;
ghost use Rattle.asa_main.specs.Outputs.{Writes};
ghost use Rattle.asa_main.specs.Outcome.{Answers, Ran, Says, may_have_written, session_limit};

use crate::findings::write_findings;
use crate::form::{Form, form_of};
use crate::input::{judge, read_input};
use crate::statuses::Status;
use crate::writing::write_text;
use asa_core::run_serial;
use asa_io::{Gate, Sink, Source, WriteError, write_all};
use asa_report::write_report;
use asa_session::Session;
use std::alloc::{AllocError, Global};
use std::sync::Wait;
use std::thread::Threads;

// The report of the serial run of a session.
fn report(alloc: Global, session: &Session) -> Result<Vec<u8>, AllocError>
    requires { IsReady session.now }
    ensures { IfOk result (λ out. out.items ≡ forms.report_of session.now) }
{
    let phases = run_serial(alloc, session)?;
    let mut out = Vec::new(alloc);
    write_report(session, phases.as_slice(), &mut out)?;
    Ok(out)
}

// Writes the report of a session.
#[tactic(auto, using(crate::proofs::WritingLaws::nothing_written))]
fn write_run<K: Sink>(alloc: Global, session: &Session, output: &mut K) -> Status
    requires { IsReady session.now }
    ensures writes { Writes (forms.output_of form.Run session.now) (K.given output.old) (K.given output.new) (K.faults output.old) (K.faults output.new) result }
    ensures untouched { IsFalse (may_have_written (Some form.Run) result) → output.new ≡ output.old }
    ensures flushed { result ≡ status.Done → K.is_flushed output.new }
    ensures later { K.faults output.old ≤ K.faults output.new }
{
    let Ok(text) = report(alloc, session) else {
        return Status::Memory;
    };
    match write_all(output, text.as_slice()) {
        Ok(()) => Status::Done,
        Err(WriteError::Failed { written }) => Status::WriteFault { written },
    }
}

// Writes what is found of each active line of the lists, and a last line.
#[tactic(auto, using(crate::proofs::WritingLaws::writes_all, crate::proofs::WritingLaws::last_stopped, crate::proofs::WritingLaws::parts_stopped))]
fn write_shadow<K: Sink>(alloc: Global, session: &Session, output: &mut K) -> Status
    ensures writes { Writes (forms.output_of form.Shadow session.now) (K.given output.old) (K.given output.new) (K.faults output.old) (K.faults output.new) result }
    ensures flushed { result ≡ status.Done → K.is_flushed output.new }
    ensures later { K.faults output.old ≤ K.faults output.new }
{
    let written = match write_findings(alloc, session.config.get(), output) {
        Ok(written) => written,
        Err(status) => return status,
    };
    match write_text(output, b"done\n", written) {
        Ok(_) => Status::Done,
        Err(status) => status,
    }
}

// Writes what a form writes for a session.
fn write_output<K: Sink>(alloc: Global, form: Form, session: &Session, output: &mut K) -> Status
    requires { IsReady session.now }
    ensures writes { Writes (forms.output_of form session.now) (K.given output.old) (K.given output.new) (K.faults output.old) (K.faults output.new) result }
    ensures untouched { IsFalse (may_have_written (Some form) result) → output.new ≡ output.old }
    ensures flushed { result ≡ status.Done → K.is_flushed output.new }
    ensures later { K.faults output.old ≤ K.faults output.new }
{
    match form {
        Form::Run => write_run(alloc, session, output),
        Form::Shadow => write_shadow(alloc, session, output),
    }
}

// Answers an input that was read whole.
#[tactic(auto, using(crate::proofs::RunLaws::written_run, crate::proofs::RunLaws::refused_run))]
fn answer<K: Sink>(alloc: Global, form: Form, bytes: &[u8], output: &mut K) -> Status
    requires { length bytes.now ≤ session_limit }
    ensures answers { Answers form bytes.now (K.given output.old) (K.given output.new) (K.faults output.old) (K.faults output.new) result }
    ensures untouched { IsFalse (may_have_written (Some form) result) → output.new ≡ output.old }
    ensures flushed { result ≡ status.Done → K.is_flushed output.new }
    ensures later { K.faults output.old ≤ K.faults output.new }
{
    match judge(alloc, form, bytes) {
        Ok(session) => write_output(alloc, form, &session, output),
        Err(ended) => ended,
    }
}

// Reads the input to its end and answers it.
#[tactic(auto, using(crate::proofs::RunLaws::whole_run, crate::proofs::RunLaws::unread_run))]
fn run_form<S: Source, K: Sink>(alloc: Global, form: Form, input: &mut S, output: &mut K) -> Status
    ensures ran { Ran form
        (record { left = S.left input.old; given = K.given output.old; read_faults = S.faults input.old; write_faults = K.faults output.old })
        (record { left = S.left input.new; given = K.given output.new; read_faults = S.faults input.new; write_faults = K.faults output.new })
        result }
    ensures untouched { IsFalse (may_have_written (Some form) result) → output.new ≡ output.old }
    ensures flushed { result ≡ status.Done → K.is_flushed output.new }
    ensures later { (S.faults input.old ≤ S.faults input.new) × (K.faults output.old ≤ K.faults output.new) }
{
    match read_input(alloc, input) {
        Ok(bytes) => answer(alloc, form, bytes.as_slice(), output),
        Err(status) => status,
    }
}

/// Finds of each active line of each access list whether some packet has it as its first match within its list. It reads
/// a startup configuration from the input, to its end, and writes a finding for each line: that the line is shadowed, with
/// a certificate; or a packet that has it as its first match; or that it isn't known. A finding is written before the next
/// line is judged. The configuration is refused as that of a session is, and at a line after `: end` that says something.
/// After Memory nothing was written, or whole findings.
pub fn shadow<S: Source, K: Sink>(alloc: Global, input: &mut S, output: &mut K) -> Status
    ensures ran { Ran form.Shadow
        (record { left = S.left input.old; given = K.given output.old; read_faults = S.faults input.old; write_faults = K.faults output.old })
        (record { left = S.left input.new; given = K.given output.new; read_faults = S.faults input.new; write_faults = K.faults output.new })
        result }
    ensures untouched { IsFalse (may_have_written (Some form.Shadow) result) → output.new ≡ output.old }
    ensures flushed { result ≡ status.Done → K.is_flushed output.new }
    ensures later { (S.faults input.old ≤ S.faults input.new) × (K.faults output.old ≤ K.faults output.new) }
{
    run_form(alloc, Form::Shadow, input, output)
}

/// Runs the program: reads its words, its input to the end and what stands in it, and writes what the words ask for. The
/// words are those after the program's name. For `run` all of the session is run before the first byte is written; for
/// `shadow` the findings are written one by one. The gate is not passed yet, since nothing runs beside anything else.
pub fn run<S: Source, K: Sink, G: Gate + Sync, R: Threads + Wait + Sync>(
    _rt: &R,
    alloc: Global,
    words: &[String],
    input: &mut S,
    output: &mut K,
    _gate: &G,
) -> Status
    ensures says { Says (forms.form_of (map string_bytes words.now))
        (record { left = S.left input.old; given = K.given output.old; read_faults = S.faults input.old; write_faults = K.faults output.old })
        (record { left = S.left input.new; given = K.given output.new; read_faults = S.faults input.new; write_faults = K.faults output.new })
        result }
    ensures untouched { IsFalse (may_have_written (forms.form_of (map string_bytes words.now)) result) → output.new ≡ output.old }
    ensures unread { result ≡ status.Usage → input.new ≡ input.old }
    ensures flushed { result ≡ status.Done → K.is_flushed output.new }
    ensures later { (S.faults input.old ≤ S.faults input.new) × (K.faults output.old ≤ K.faults output.new) }
{
    match form_of(words) {
        None => Status::Usage,
        Some(Form::Run) => run_form(alloc, Form::Run, input, output),
        Some(Form::Shadow) => shadow(alloc, input, output),
    }
}
