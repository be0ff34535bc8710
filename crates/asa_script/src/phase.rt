//! The phases of a script, and why a text is no script.
use asa_flow::Command;
use asa_session_lines::{ScriptFault, Table};
use asa_text::Items;
use std::alloc::AllocError;

/// How a phase ends.
#[derive(Clone, Copy, Debug, PartialEq, Eq)]
pub enum PhaseEnd {
    /// By the line `sync`.
    Sync,
    /// Time goes on by so many seconds, 1 to 4,000,000.
    Advance(u32),
    /// A table is shown.
    Show(Table),
    /// With the end of the input.
    Input,
}

/// A phase: the commands that lanes may answer side by side.
#[derive(Debug, Drop)]
pub struct PhaseText {
    /// The commands in the order of lane, then index, each with both: the lane, 1 to 8, and the index, which counts the
    /// commands of its lane over the whole script from 1.
    pub commands: Items<(u8, u32, Command)>,
    /// How the phase ends.
    pub end: PhaseEnd,
}

/// Why a text is no script.
#[derive(Clone, Copy, Debug, PartialEq, Eq)]
pub enum ScriptError {
    /// This line of the text is refused.
    At { line: u32, fault: ScriptFault },
    /// Memory ran out.
    NoMemory,
}

impl From<AllocError> for ScriptError {
    ghost use Rattle.std.specs.Prelude.{◌≡◌};
    ghost use Rattle.asa_script.specs.declared.phase.ScriptError.TheVariants as error;

    ghost from_gives = { λ _ e. e ≡ error.NoMemory };

    fn from(_: AllocError) -> ScriptError {
        ScriptError::NoMemory
    }
}
