//! Reading a script from its lines.
ghost use Rattle.std.specs.Prelude.{◌≡◌, IfOk, IfSome};
ghost use Rattle.asa_session_lines.specs.Lines.{HasLane};
ghost use Rattle.asa_script.specs.Drafts.{Judged};
ghost use Rattle.asa_script.specs.Scripts as spec;

use crate::draft::Draft;
use crate::phase::{PhaseText, ScriptError};
use asa_base::Names;
use asa_session_lines::{ScriptFault, ScriptLine, edit_text, script_line};
use asa_text::{Items, Line, LineView, Lines, Text, Words};
use std::alloc::Global;

/// At most so many lines has a script.
const MOST_LINES: u32 = 262_144;

/// What a line that says something says; an indented one is out of form.
fn said<N: Names>(line: &LineView<'_>, names: &N) -> Result<ScriptLine, ScriptFault>
    ensures value { result ≡ spec.said (N.known names.now) line.now }
    ensures lane { IfOk result HasLane }
{
    if line.is_indented() {
        return Err(ScriptFault::Syntax);
    }
    script_line(&Words::of(line.text()), names)
}

/// Takes a line of the script.
#[tactic(auto, unfolding(crate::specs::Scripts::line_read))]
fn take_line<N: Names>(
    alloc: Global,
    names: &N,
    draft: Draft,
    line: &LineView<'_>,
) -> Result<Draft, ScriptError>
    ensures { Judged result (spec.line_read (N.known names.now) draft line.now) }
{
    if let Some(text) = edit_text(line.text()) {
        let text = Text::from_slice(alloc, text)?;
        return draft.take_edit(Line {
            number: line.number(),
            text,
        });
    }
    if !line.is_kept() {
        return Ok(draft.take_nothing()?);
    }
    draft.take_line(line.number(), said(line, names))
}

/// Reads the lines of a script that are left, and gives its phases. The interfaces are those that `names` knows. A script
/// is refused at its least refused line; its 262,145th line, where nothing else is wrong with it, is one too many.
pub fn read_script<N: Names>(
    alloc: Global,
    names: &N,
    lines: &mut Lines<'_>,
) -> Result<Items<PhaseText>, ScriptError>
    ensures { Judged result (spec.script_of_lines (N.known names.now) lines.old.lines) }
{
    let mut draft = Draft::new(alloc)?;
    let mut count = 0;
    while let Some(line) = lines.next() {
        draft = take_line(alloc, names, draft, &line)?;
        if count == MOST_LINES {
            return Err(ScriptError::At {
                line: line.number(),
                fault: ScriptFault::TooManyLines,
            });
        }
        count += 1;
    }
    Ok(draft.finish()?)
}
