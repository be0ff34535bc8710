//! How a reader meets the writer: it learns the writer's whole history.
//!
//! Both carry a beginning of the one list of entries, so the shorter begins the longer, and the two lengths tell which it is.
//! No copy is asked for, so `Meeting::Away` never comes.
ghost use Rattle.std.specs.Prelude.{◌≡◌, None};
ghost use mathlib.Core.List.{IsPrefix};
ghost use Rattle.asa_live.specs.Meetings.{Tells};
ghost use Rattle.asa_live.specs.Readers.{GoesOn};

use crate::machine::Machine;
use crate::reader::Reader;
use crate::writer::Writer;

/// What the reader had seen, beside the writer's history.
#[derive(Clone, Copy, Debug, PartialEq, Eq)]
pub enum Meeting {
    /// All that the reader had seen is a beginning of the writer's history.
    Within,
    /// The reader had seen more entries than the writer has: so many, and so many.
    Ahead { reader: u64, writer: u64 },
    /// The copy was not given.
    Away,
}

/// Compares what the reader has seen with the writer's history. The reader then has seen all of that history.
pub fn meet<M: Machine>(reader: &mut Reader<M>, writer: &mut Writer<M>) -> Meeting
    requires copies { reader.old.copies ≡ writer.old.copies }
    requires closed { reader.old.opened ≡ None }
    ensures on { GoesOn reader.old reader.new }
    ensures closed { reader.new.opened ≡ None }
    ensures writer { writer.new ≡ writer.old }
    ensures written { IsPrefix writer.old.history reader.new.seen }
    ensures tells { Tells reader.old.seen writer.old.history reader.new.seen reader.old.aways reader.new.aways result }
{
    let written = writer.front();
    let seen = reader.front();
    if seen.begins(written) {
        let front = written.again();
        reader.see(front);
        return Meeting::Within;
    }
    Meeting::Ahead {
        reader: seen.count,
        writer: written.count,
    }
}
