//! Why a block of an object or of a group is refused.
ghost use Rattle.std.specs.Prelude.{◌≡◌};
ghost use Rattle.asa_objects_values.specs.Definition.{line_of};

use asa_text::LineFault;
use std::alloc::AllocError;

/// Why a block is refused. Lines are counted from 1 in the block, columns from 1 in their line.
#[derive(Clone, Copy, Debug, PartialEq, Eq)]
pub enum ObjectFault {
    /// The name is there already and is something else.
    NameTaken,
    /// The word is a name that isn't defined.
    Unknown { line: u32, column: u32 },
    /// The word has none of the forms of its place, or is missing, or is one too many.
    Bad { line: u32, column: u32 },
    /// The word is one that the real device has and this project leaves out.
    Unsupported { line: u32, column: u32 },
    /// A group would reach itself.
    Cycle { line: u32 },
    /// There is no such member to remove.
    NoSuchMember { line: u32 },
    /// A new object has no value; `column` is the one after the last word of the first line. It comes after each fault of a
    /// line.
    NoValue { column: u32 },
    /// There would be more than 16,384 names, or a name with more than 65,536 members.
    TooMany,
    /// Memory ran out.
    NoMemory,
}

impl ObjectFault {
    /// The line that the fault is of; None for a missing value, the limits and want of memory, which come after all lines.
    pub fn line(self) -> Option<u32>
        ensures { result ≡ line_of self }
    {
        match self {
            ObjectFault::NameTaken => Some(1),
            ObjectFault::Unknown { line, .. }
            | ObjectFault::Bad { line, .. }
            | ObjectFault::Unsupported { line, .. }
            | ObjectFault::Cycle { line }
            | ObjectFault::NoSuchMember { line } => Some(line),
            ObjectFault::NoValue { .. } | ObjectFault::TooMany | ObjectFault::NoMemory => None,
        }
    }
}

impl From<AllocError> for ObjectFault {
    ghost use Rattle.std.specs.Prelude.{◌≡◌};
    ghost use Rattle.asa_objects_values.specs.declared.faults.ObjectFault.TheVariants as fault;

    ghost from_gives = { λ _ r. r ≡ fault.NoMemory };

    fn from(_: AllocError) -> ObjectFault {
        ObjectFault::NoMemory
    }
}
