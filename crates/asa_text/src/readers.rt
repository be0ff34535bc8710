//! Readers of a line: each takes its words from a cursor and gives what they mean, or the fault and its column.
ghost use Rattle.std.specs.Prelude.{◌≡◌, ◌≤◌, ◌==◌, IfOk};
ghost use Rattle.std.specs.List.{list_any};
ghost use Rattle.asa_text.specs.declared.readers.LineFault.TheVariants as fault;
ghost use Rattle.asa_text.specs.Readers.{Reads, word_at, keyword_at, number_at, address_at, mask_at, end_at, bad_next, unsupported_next};

use crate::numbers::{Addr, parse_addr, parse_mask, parse_number};
use crate::words::{Word, Words};

/// Why a line isn't read, with the column from 1 of the word that is the cause.
#[derive(Clone, Copy, Debug, PartialEq, Eq)]
pub enum LineFault {
    /// The word has none of the forms of its place, or is missing, or is one too many.
    Bad { column: u32 },
    /// The word is one that the real device has and this project leaves out.
    Unsupported { column: u32 },
    /// The word is a name that isn't defined.
    Unknown { column: u32 },
    /// The word is a name that no interface has.
    NoSuchInterface { column: u32 },
    /// Memory ran out.
    NoMemory,
}

impl<'a> Words<'a> {
    /// The next word; a missing one is Bad at the line's end.
    #[tactic(auto, unfolding(crate::specs::Readers::word_at))]
    pub fn word(&mut self) -> Result<Word<'a>, LineFault>
        ensures { Reads result self.new (word_at self.old) }
    {
        let end = self.end();
        match self.next() {
            Some(word) => Ok(word),
            None => Err(LineFault::Bad { column: end }),
        }
    }

    /// The fault at the next word, which has none of the forms of its place, or is missing.
    pub fn bad(&self) -> LineFault
        ensures { result ≡ bad_next self.now }
    {
        LineFault::Bad {
            column: self.column(),
        }
    }

    /// The fault at the next word, with which a form begins that the real device has and this project leaves out.
    pub fn unsupported(&self) -> LineFault
        ensures { result ≡ unsupported_next self.now }
    {
        LineFault::Unsupported {
            column: self.column(),
        }
    }
}

impl Word<'_> {
    /// The fault at this word, which has none of the forms of its place.
    pub fn bad(&self) -> LineFault
        ensures { result ≡ fault.Bad self.now.column }
    {
        LineFault::Bad {
            column: self.column(),
        }
    }
}

/// Whether the word has a `:`, as an IPv6 address has.
fn has_colon(word: &[u8]) -> bool
    ensures { result ≡ list_any (λ b. b == 58) word.now }
{
    word.iter().any(|b| *b == b':')
}

/// This word.
#[tactic(auto, unfolding(crate::specs::Readers::keyword_at))]
pub fn keyword(words: &mut Words<'_>, text: &[u8]) -> Result<(), LineFault>
    ensures { Reads result words.new (keyword_at text.now words.old) }
{
    let word = words.word()?;
    if word.is(text) {
        Ok(())
    } else {
        Err(word.bad())
    }
}

/// A number from `least` to `greatest`.
#[tactic(auto, unfolding(crate::specs::Readers::number_at))]
pub fn number(words: &mut Words<'_>, least: u64, greatest: u64) -> Result<u64, LineFault>
    ensures value { Reads result words.new (number_at least greatest words.old) }
    ensures within { IfOk result (λ n. (least ≤ n) × (n ≤ greatest)) }
{
    let word = words.word()?;
    match parse_number(word.bytes(), least, greatest) {
        Ok(value) => Ok(value),
        Err(_) => Err(word.bad()),
    }
}

/// An address.
#[tactic(auto, unfolding(crate::specs::Readers::address_at))]
pub fn address(words: &mut Words<'_>) -> Result<Addr, LineFault>
    ensures { Reads result words.new (address_at words.old) }
{
    let word = words.word()?;
    if has_colon(word.bytes()) {
        return Err(LineFault::Unsupported {
            column: word.column(),
        });
    }
    match parse_addr(word.bytes()) {
        Ok(addr) => Ok(addr),
        Err(_) => Err(word.bad()),
    }
}

/// A mask, as its number of ones.
#[tactic(auto, unfolding(crate::specs::Readers::mask_at))]
pub fn mask(words: &mut Words<'_>) -> Result<u8, LineFault>
    ensures value { Reads result words.new (mask_at words.old) }
    ensures few { IfOk result (λ ones. ones ≤ 32) }
{
    let word = words.word()?;
    match parse_mask(word.bytes()) {
        Ok(ones) => Ok(ones),
        Err(_) => Err(word.bad()),
    }
}

/// The end of the line.
#[tactic(auto, unfolding(crate::specs::Readers::end_at))]
pub fn end_of_line(words: &mut Words<'_>) -> Result<(), LineFault>
    ensures { Reads result words.new (end_at words.old) }
{
    match words.peek() {
        Some(word) => Err(word.bad()),
        None => Ok(()),
    }
}
