//! The opening of a text, which sessions and startup texts have alike: the startup part, up to the line `: end`.
ghost use Rattle.std.specs.Prelude.{◌≡◌};
ghost use Rattle.asa_session.specs.Openings as spec;

use crate::refusals::out_of_form;
use crate::session::{SessionError, SessionKind};
use crate::startup::{Startup, startup_config, without_passed};
use asa_config::Config;
use asa_text::{Block, BlockFault, Items, Lines, StartupText, cut_startup};
use std::alloc::Global;

/// The startup blocks and the configuration that they make.
#[derive(Drop)]
pub(crate) struct Opening {
    pub(crate) startup: Startup,
    pub(crate) config: Config,
}

/// The startup blocks.
fn startup_blocks(blocks: Result<Items<Block>, BlockFault>) -> Result<Items<Block>, SessionError>
    ensures { result ≡ spec.startup_blocks blocks }
{
    match blocks {
        Ok(blocks) => Ok(blocks),
        Err(early) => Err(out_of_form(early.line)),
    }
}

/// Reads the opening of a text, and leaves the cursor after the line `: end`. The text is refused at an indented line
/// before any block, at a line that the configuration refuses, or, where `: end` is missing, at the number of lines plus 1.
#[tactic(auto, unfolding(crate::specs::Openings::opening_of))]
pub(crate) fn read_opening(alloc: Global, lines: &mut Lines<'_>) -> Result<Opening, SessionError>
    requires { lines.old.number ≡ 1 }
    ensures { spec.Opens result lines.new.lines (spec.opening_of lines.old.lines) }
{
    let StartupText { blocks, ended } = cut_startup(alloc, lines)?;
    let count = lines.number();
    let startup = without_passed(alloc, startup_blocks(blocks)?)?;
    let config = startup_config(alloc, startup.kept.as_slice())?;
    if !ended {
        return Err(SessionError::At {
            line: count,
            kind: SessionKind::NoEnd,
        });
    }
    Ok(Opening { startup, config })
}
