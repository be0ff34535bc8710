//! The words of a line, each with its column.
ghost use Rattle.std.specs.Prelude.{◌≡◌, ◌+◌, ◌-◌, ◌^◌, ◌<◌, ◌∷◌, [], length, IfSome, IfNone};
ghost use Rattle.std.specs.Str.{bytes_eq};
ghost use Rattle.asa_text.specs.Words.{words_at, line_left};
ghost use Rattle.asa_text.specs.Readers.{next_word, after_one, after_if, next_is, column_at};

use crate::blanks::{before_blank, leading_blanks, same_bytes};
use std::marker::Model;

/// A word of a line, and the column of its first byte, from 1.
#[derive(Debug, Drop)]
pub struct Word<'a> {
    column: u32,
    bytes: &'a [u8],
}

impl<'a> Model for Word<'a> {
    ghost use Rattle.asa_text.specs.Words.{Spelled};

    ghost Value = { Spelled };

    ghost view = { λ w. record { column = w.column; word = w.bytes.now } };
}

/// A line that is read word by word: what is still to be read of it.
#[derive(Debug, Drop)]
pub struct Words<'a> {
    column: u32,
    rest: &'a [u8],
}

impl<'a> Model for Words<'a> {
    ghost use Rattle.std.specs.Prelude.{◌+◌, ◌^◌, ◌<◌, length};
    ghost use Rattle.asa_text.specs.Words.{Left, words_at};

    ghost Value = { Left };

    ghost view = { λ w. record { words = words_at w.column w.rest.now; end = w.column + length w.rest.now } };

    ghost invariant = { λ w. w.column + length w.rest.now < 2 ^ 32 };
}

impl<'a> Word<'a> {
    /// The column of its first byte, from 1.
    pub fn column(&self) -> u32
        ensures { result ≡ self.now.column }
    {
        self.column
    }

    /// Its bytes.
    pub fn bytes(&self) -> &'a [u8]
        ensures { result.now ≡ self.now.word }
    {
        self.bytes
    }

    /// Whether it is this text.
    pub fn is(&self, text: &[u8]) -> bool
        ensures { result ≡ bytes_eq self.now.word text.now }
    {
        same_bytes(self.bytes, text)
    }
}

/// The first word of the bytes, the column after it and the bytes from there on.
#[tactic(auto, using(crate::proofs::WordLaws::words_cut, crate::proofs::WordLaws::words_none))]
fn cut_word(column: u32, bytes: &[u8]) -> Option<(Word<'_>, u32, &[u8])>
    requires { column + length bytes.now < 2 ^ 32 }
    ensures none { IfNone result (words_at column bytes.now ≡ []) }
    ensures first { IfSome result (λ cut. words_at column bytes.now ≡ cut.0 ∷ words_at cut.1 cut.2.now) }
    ensures end { IfSome result (λ cut. cut.1 + length cut.2.now ≡ column + length bytes.now) }
{
    let blanks = leading_blanks(bytes);
    if blanks == bytes.len() {
        return None;
    }
    let from_word = bytes.split_at(blanks).1;
    let len = before_blank(from_word);
    let (word, rest) = from_word.split_at(len);
    let at = column + blanks as u32;
    let word = Word {
        column: at,
        bytes: word,
    };
    Some((word, at + len as u32, rest))
}

impl<'a> Words<'a> {
    /// A whole line, still to be read.
    pub fn of(text: &'a [u8]) -> Words<'a>
        requires { length text.now < 2 ^ 32 - 1 }
        ensures { result ≡ line_left text.now }
    {
        Words {
            column: 1,
            rest: text,
        }
    }

    /// A second cursor at the same place.
    pub fn copy(&self) -> Words<'a>
        ensures { result ≡ self.now }
    {
        Words {
            column: self.column,
            rest: self.rest,
        }
    }

    /// The next word, which stays to be read.
    pub fn peek(&self) -> Option<Word<'a>>
        ensures { result ≡ next_word self.now }
    {
        match cut_word(self.column, self.rest) {
            Some((word, _, _)) => Some(word),
            None => None,
        }
    }

    /// The next word.
    pub fn next(&mut self) -> Option<Word<'a>>
        ensures word { result ≡ next_word self.old }
        ensures left { self.new ≡ after_one self.old }
    {
        match cut_word(self.column, self.rest) {
            Some((word, column, rest)) => {
                self.column = column;
                self.rest = rest;
                Some(word)
            }
            None => None,
        }
    }

    /// Whether the next word is this text.
    pub fn next_is(&self, text: &[u8]) -> bool
        ensures { result ≡ next_is text.now self.now }
    {
        match self.peek() {
            Some(word) => word.is(text),
            None => false,
        }
    }

    /// Takes the next word where it is this text, and tells whether it was.
    pub fn takes(&mut self, text: &[u8]) -> bool
        ensures found { result ≡ next_is text.now self.old }
        ensures left { self.new ≡ after_if result self.old }
    {
        if self.next_is(text) {
            let _word = self.next();
            true
        } else {
            false
        }
    }

    /// The column of the next word, or of a missing one.
    pub fn column(&self) -> u32
        ensures { result ≡ column_at self.now }
    {
        match self.peek() {
            Some(word) => word.column,
            None => self.end(),
        }
    }

    /// The column of a word that is missing at the end of the line.
    pub fn end(&self) -> u32
        ensures { result ≡ self.now.end }
    {
        self.column + self.rest.len() as u32
    }
}
