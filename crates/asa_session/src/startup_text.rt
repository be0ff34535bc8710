//! Reading a startup text: a startup part after which nothing is said.
ghost use Rattle.std.specs.Prelude.{◌≡◌, ◌+◌, ◌-◌, ◌^◌, ◌<◌, length, IfOk};
ghost use Rattle.asa_session.specs.Refusals.{Judged};
ghost use Rattle.asa_session.specs.Readiness.{IsReady};
ghost use Rattle.asa_session.specs.StartupTexts as spec;

use crate::commands::MOST_LINES;
use crate::opening::{Opening, read_opening};
use crate::reader::session_with;
use crate::refusals::{out_of_form, too_many_lines};
use crate::session::{Session, SessionError};
use asa_text::Lines;
use std::alloc::Global;

/// Reads the lines after `: end` of a startup text: blank lines and comments.
fn read_silence(lines: &mut Lines<'_>) -> Result<(), SessionError>
    ensures { result ≡ spec.silence 0 lines.old.lines }
{
    let mut count = 0;
    while let Some(line) = lines.next() {
        if line.is_kept() {
            return Err(out_of_form(line.number()));
        }
        if count == MOST_LINES {
            return Err(too_many_lines(line.number()));
        }
        count += 1;
    }
    Ok(())
}

/// Reads a startup text from its lines.
#[tactic(auto, unfolding(crate::specs::StartupTexts::startup_of_lines))]
fn read_startup_lines(alloc: Global, lines: &mut Lines<'_>) -> Result<Session, SessionError>
    requires { lines.old.number ≡ 1 }
    ensures { Judged result (spec.startup_of_lines lines.old.lines) }
{
    let Opening { startup, config } = read_opening(alloc, lines)?;
    read_silence(lines)?;
    let session = session_with(alloc, startup, config, &[])?;
    Ok(session)
}

/// Reads a startup text, as a session without phases: startup blocks, the line `: end`, and after it blank lines and
/// comments alone. It is refused at its least refused line: one that a session is refused at in its startup part; after
/// `: end`, the first line that says something, as Syntax, or the 262,145th line, as TooManyLines.
#[tactic(auto, using(crate::proofs::SessionLaws::startup_is_ready))]
pub fn read_startup(alloc: Global, text: &[u8]) -> Result<Session, SessionError>
    requires { 1 + length text.now < 2 ^ 32 - 1 }
    ensures judged { Judged result (spec.startup_of text.now) }
    ensures ready { IfOk result IsReady }
{
    read_startup_lines(alloc, &mut Lines::new(text, 1))
}
