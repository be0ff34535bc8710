//! What a session is made of, and why a text is no session.
use asa_base::Packet;
use asa_config::{Config, EditFault};
use asa_text::{Block, Items, Shared};
use std::alloc::AllocError;

/// What a lane asks of the firewall.
#[derive(Clone, Copy, Debug, PartialEq, Eq)]
pub enum Command {
    /// A packet comes in.
    Packet(Packet),
}

/// How a phase ends.
#[derive(Clone, Copy, Debug, PartialEq, Eq)]
pub enum PhaseEnd {
    /// With the end of the input.
    Input,
}

/// A phase: the commands that lanes may answer side by side.
#[derive(Debug, Drop)]
pub struct PhaseText {
    /// The commands in the order of the text, each with its lane, from 1, and its index, which counts the commands of
    /// its lane over the whole session from 1.
    pub commands: Items<(u8, u32, Command)>,
    /// How the phase ends.
    pub end: PhaseEnd,
}

/// An accepted session.
#[derive(Drop)]
pub struct Session {
    /// The startup blocks that aren't passed over.
    pub startup: Items<Block>,
    /// How many startup blocks are passed over.
    pub passed: u32,
    /// The configuration of the startup blocks.
    pub config: Shared<Config>,
    /// The phases in their order. The last is there only where it has a command.
    pub phases: Items<PhaseText>,
}

/// Why a line of a text is refused.
#[derive(Clone, Debug, Drop, PartialEq, Eq)]
pub enum SessionKind {
    /// The configuration refuses the startup line.
    Startup(EditFault),
    /// The line has none of the forms of a line.
    Syntax,
    /// No interface of the startup configuration has the name.
    UnknownInterface,
    /// A number or an address is out of form or out of range.
    BadNumber,
    /// The lane isn't 1 to 8.
    TooManyLanes,
    /// The script has more lines than 262,144.
    TooManyLines,
    /// The line that ends the startup part is missing.
    NoEnd,
    /// The line isn't built yet.
    NotBuilt,
}

/// Why a text gives no session.
#[derive(Clone, Debug, Drop, PartialEq, Eq)]
pub enum SessionError {
    /// This line of the text, counted from 1, is refused.
    At { line: u32, kind: SessionKind },
    /// Memory ran out.
    NoMemory,
}

impl From<AllocError> for SessionError {
    ghost use Rattle.std.specs.Prelude.{◌≡◌};
    ghost use Rattle.asa_session.specs.declared.session.SessionError.TheVariants as error;

    ghost from_gives = { λ _ e. e ≡ error.NoMemory };

    fn from(_: AllocError) -> SessionError {
        SessionError::NoMemory
    }
}
