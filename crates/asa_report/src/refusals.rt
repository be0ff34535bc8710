//! The texts that tell why a session is refused, and the lines of standard error that carry them. None takes memory, so
//! that they can be told after memory ran out.
ghost use Rattle.std.specs.Prelude.{◌≡◌, ◌+◌, ◌≤◌, ◌++◌, length, codes, decimal};
ghost use Rattle.asa_report.specs.Faults.{fault_text, kind_text, refused_line, write_failed_line};

use arrayvec::ArrayVec;
use asa_base::Name;
use asa_config::EditFault;
use asa_session::SessionKind;
use itoa::Buffer;
use std::marker::Model;

/// Why something is refused: a text of at most 72 bytes, which holds every fault's.
#[derive(Debug, Drop)]
pub struct ReasonText {
    bytes: ArrayVec<u8, 72>,
}

impl Model for ReasonText {
    ghost use Rattle.std.specs.Prelude.{List, ℕ, ◌≤◌, length};

    ghost Value = { List ℕ };

    ghost view = { λ t. t.bytes.items };

    ghost invariant = { λ t. length t.bytes.items ≤ 72 };
}

/// A line of standard error with its line feed, at most 128 bytes.
#[derive(Debug, Drop)]
pub struct StatusLine {
    bytes: ArrayVec<u8, 128>,
}

impl Model for StatusLine {
    ghost use Rattle.std.specs.Prelude.{List, ℕ, ◌≤◌, length};

    ghost Value = { List ℕ };

    ghost view = { λ l. l.bytes.items };

    ghost invariant = { λ l. length l.bytes.items ≤ 128 };
}

impl ReasonText {
    /// Its bytes.
    pub fn as_bytes(&self) -> &[u8]
        ensures value { result.now ≡ self.now }
        ensures short { length self.now ≤ 72 }
    {
        self.bytes.as_slice()
    }
}

impl StatusLine {
    /// Its bytes.
    pub fn as_bytes(&self) -> &[u8]
        ensures value { result.now ≡ self.now }
        ensures short { length self.now ≤ 128 }
    {
        self.bytes.as_slice()
    }
}

fn add_bytes<const N: usize>(text: &mut ArrayVec<u8, N>, bytes: &[u8])
    requires room { length text.old.items + length bytes.now ≤ N }
    ensures items { text.new.items ≡ text.old.items ++ bytes.now }
    ensures len { length text.new.items ≡ length text.old.items + length bytes.now }
{
    match text.try_extend_from_slice(bytes) {
        Ok(()) => {}
        Err(_) => unreachable!(),
    }
}

// A u64 has at most 20 digits.
#[tactic(auto, using(crate::proofs::DigitLaws::digits_of_u64))]
fn add_number<const N: usize>(text: &mut ArrayVec<u8, N>, number: u64)
    requires room { length text.old.items + 20 ≤ N }
    ensures items { text.new.items ≡ text.old.items ++ decimal number }
    ensures len { length text.new.items ≤ length text.old.items + 20 }
{
    let mut digits = Buffer::new();
    add_bytes(text, digits.format(number).as_bytes());
}

fn word(word: &[u8]) -> ReasonText
    requires { length word.now ≤ 72 }
    ensures { result ≡ word.now }
{
    let mut bytes = ArrayVec::new();
    add_bytes(&mut bytes, word);
    ReasonText { bytes }
}

fn word_and_number(word: &[u8], number: u64) -> ReasonText
    requires { length word.now ≤ 52 }
    ensures { result ≡ word.now ++ decimal number }
{
    let mut bytes = ArrayVec::new();
    add_bytes(&mut bytes, word);
    add_number(&mut bytes, number);
    ReasonText { bytes }
}

fn word_and_name(word: &[u8], name: &Name) -> ReasonText
    requires { length word.now ≤ 8 }
    ensures { result ≡ word.now ++ name.now }
{
    let mut bytes = ArrayVec::new();
    add_bytes(&mut bytes, word);
    add_bytes(&mut bytes, name.bytes());
    ReasonText { bytes }
}

fn word_and_numbers(word: &[u8], first: u64, second: u64) -> ReasonText
    requires { length word.now ≤ 31 }
    ensures { result ≡ word.now ++ decimal first ++ codes " " ++ decimal second }
{
    let mut bytes = ArrayVec::new();
    add_bytes(&mut bytes, word);
    add_number(&mut bytes, first);
    add_bytes(&mut bytes, b" ");
    add_number(&mut bytes, second);
    ReasonText { bytes }
}

/// Why a block is refused.
#[tactic(auto, unfolding(crate::specs::Faults::fault_text))]
pub fn fault_text(fault: &EditFault) -> ReasonText
    ensures { result ≡ fault_text fault.now }
{
    match fault {
        EditFault::Bad { column } => word_and_number(b"bad ", u64::from(*column)),
        EditFault::Unsupported { column } => word_and_number(b"unsupported ", u64::from(*column)),
        EditFault::Unknown { column } => word_and_number(b"unknown ", u64::from(*column)),
        EditFault::NoSuchInterface { column } => word_and_number(
            b"no-such-interface ",
            u64::from(*column),
        ),
        EditFault::NameTaken => word(b"name-taken"),
        EditFault::NotAfterStartup => word(b"not-after-startup"),
        EditFault::NoSuchLine => word(b"no-such-line"),
        EditFault::NotBound => word(b"not-bound"),
        EditFault::InUse { by } => word_and_name(b"in-use ", by),
        EditFault::Cycle => word(b"cycle"),
        EditFault::TooMany => word(b"too-many"),
        EditFault::SizeDiffers { real, mapped } => word_and_numbers(
            b"size-differs ",
            *real,
            *mapped,
        ),
        EditFault::SubnetPool => word(b"subnet-pool"),
        EditFault::TooLarge { pairs } => word_and_number(b"too-large ", *pairs),
        EditFault::NotBuilt => word(b"not-built"),
    }
}

/// Why a session is refused.
#[tactic(auto, unfolding(crate::specs::Faults::kind_text))]
pub fn kind_text(kind: &SessionKind) -> ReasonText
    ensures { result ≡ kind_text kind.now }
{
    match kind {
        SessionKind::Startup(fault) => fault_text(fault),
        SessionKind::Syntax => word(b"syntax"),
        SessionKind::UnknownInterface => word(b"unknown-interface"),
        SessionKind::BadNumber => word(b"bad-number"),
        SessionKind::TooManyLanes => word(b"too-many-lanes"),
        SessionKind::TooManyLines => word(b"too-many-lines"),
        SessionKind::NoEnd => word(b"no-end"),
        SessionKind::NotBuilt => word(b"not-built"),
    }
}

/// The reason of an input that is too long to be read.
pub fn too_long_text() -> ReasonText
    ensures { result ≡ codes "too-long" }
{
    word(b"too-long")
}

/// The line that names a refused line of the input and why it is refused.
#[tactic(auto, unfolding(crate::specs::Faults::refused_line))]
pub fn refused_line(line: u32, reason: &ReasonText) -> StatusLine
    ensures { result ≡ refused_line line reason.now }
{
    let mut bytes = ArrayVec::new();
    add_bytes(&mut bytes, b"asa: line ");
    add_number(&mut bytes, u64::from(line));
    add_bytes(&mut bytes, b": ");
    add_bytes(&mut bytes, reason.as_bytes());
    add_bytes(&mut bytes, b"\n");
    StatusLine { bytes }
}

/// The line after a write that failed, with the number of bytes that were written before it.
#[tactic(auto, unfolding(crate::specs::Faults::write_failed_line))]
pub fn write_failed_line(count: u64) -> StatusLine
    ensures { result ≡ write_failed_line count }
{
    let mut bytes = ArrayVec::new();
    add_bytes(&mut bytes, b"asa: write failed after ");
    add_number(&mut bytes, count);
    add_bytes(&mut bytes, b" bytes\n");
    StatusLine { bytes }
}
