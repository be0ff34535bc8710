//! The words of a printed line.
ghost use Rattle.std.specs.Prelude.{◌≡◌, ◌∷◌, ◌++◌, map, OnOk};
ghost use Rattle.asa_print_text.specs.Words.{word_text, after_word, after_words, printed_top, printed_inner};

use asa_text::{Addr, push_address, push_bytes, push_number};
use std::alloc::AllocError;

/// A word to be printed.
#[derive(Debug, Drop)]
pub enum Word<'a> {
    /// The bytes as they stand.
    Text(&'a [u8]),
    /// A number in decimal.
    Number(u64),
    /// An address as four decimal numbers joined by dots.
    Address(Addr),
}

/// Appends a word.
fn push_word(out: &mut Vec<u8>, word: &Word<'_>) -> Result<(), AllocError>
    ensures { OnOk result (out.new.items ≡ out.old.items ++ word_text word.now) }
{
    match word {
        Word::Text(bytes) => push_bytes(out, bytes),
        Word::Number(number) => push_number(out, *number),
        Word::Address(address) => push_address(out, *address),
    }
}

/// Appends a space and a word.
#[tactic(auto, unfolding(crate::specs::Words::after_word))]
fn push_after(out: &mut Vec<u8>, word: &Word<'_>) -> Result<(), AllocError>
    ensures { OnOk result (out.new.items ≡ out.old.items ++ after_word (word_text word.now)) }
{
    push_bytes(out, b" ")?;
    push_word(out, word)
}

/// Appends words, each after a space. On want of memory a part of them may stand there.
pub fn push_words(out: &mut Vec<u8>, words: &[Word<'_>]) -> Result<(), AllocError>
    ensures { OnOk result (out.new.items ≡ out.old.items ++ after_words (map word_text words.now)) }
{
    for word in words {
        push_after(out, word)?;
    }
    Ok(())
}

/// Appends an indented line: each of its words stands after a space. On want of memory a part of it may stand there.
#[tactic(auto, unfolding(crate::specs::Words::printed_inner))]
pub fn push_inner(out: &mut Vec<u8>, words: &[Word<'_>]) -> Result<(), AllocError>
    ensures { OnOk result (out.new.items ≡ out.old.items ++ printed_inner (map word_text words.now)) }
{
    push_words(out, words)?;
    push_bytes(out, b"\n")
}

/// Appends a top-level line: its first word, then the others, each after a space. On want of memory a part of it may
/// stand there.
#[tactic(auto, unfolding(crate::specs::Words::printed_top))]
pub fn push_top(out: &mut Vec<u8>, first: &[u8], words: &[Word<'_>]) -> Result<(), AllocError>
    ensures { OnOk result (out.new.items ≡ out.old.items ++ printed_top (first.now ∷ map word_text words.now)) }
{
    push_bytes(out, first)?;
    push_words(out, words)?;
    push_bytes(out, b"\n")
}
