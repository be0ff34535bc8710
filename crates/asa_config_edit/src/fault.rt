//! Why an edit of a configuration is refused.
use asa_base::Name;
use std::alloc::AllocError;

/// Why a block is refused. A column counts from 1.
#[derive(Clone, Debug, Drop, PartialEq, Eq)]
pub enum EditFault {
    /// The word has none of the forms of its place, or is missing, or is one too many.
    Bad { column: u32 },
    /// The word is one that the real device has and this project leaves out.
    Unsupported { column: u32 },
    /// The word is a name that isn't defined.
    Unknown { column: u32 },
    /// The word is a name that no interface has.
    NoSuchInterface { column: u32 },
    /// The name is there already.
    NameTaken,
    /// An interface block stands after the startup part.
    NotAfterStartup,
    /// There is no such line to remove.
    NoSuchLine,
    /// The list isn't bound there.
    NotBound,
    /// What is to be removed is named by this.
    InUse { by: Name },
    /// A group would reach itself.
    Cycle,
    /// A limit would be passed.
    TooMany,
    /// The two sides of a static rule have different numbers of addresses or ports.
    SizeDiffers { real: u64, mapped: u64 },
    /// A pool has a subnet among its members.
    SubnetPool,
    /// The configuration would have this many prefix pairs.
    TooLarge { pairs: u64 },
    /// The line isn't built yet.
    NotBuilt,
}

/// Why an edit isn't taken.
#[derive(Clone, Debug, Drop, PartialEq, Eq)]
pub enum EditRefusal {
    /// A line of the block, counted from 1 in the block, is refused.
    At { line: u32, fault: EditFault },
    /// Memory ran out.
    NoMemory,
}

impl From<AllocError> for EditRefusal {
    ghost use Rattle.std.specs.Prelude.{◌≡◌};
    ghost use Rattle.asa_config_edit.specs.declared.fault.EditRefusal.TheVariants as refusal;

    ghost from_gives = { λ _ r. r ≡ refusal.NoMemory };

    fn from(_: AllocError) -> EditRefusal {
        EditRefusal::NoMemory
    }
}
