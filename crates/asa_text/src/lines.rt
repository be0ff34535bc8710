//! The lines of a text, borrowed one by one from its bytes, and lines that stand for themselves.
ghost use Rattle.std.specs.Prelude.{◌≡◌, ◌+◌, ◌-◌, ◌^◌, ◌<◌, ◌≤◌, ◌∷◌, [], length, IfOk, IfNone, IfSome, slice_index};
ghost use Rattle.std.specs.Str.Lines.{lines as text_lines};
ghost use Rattle.asa_text.specs.Lines as spec;
ghost use Rattle.asa_text.specs.Words.{line_left};

use crate::blanks::{is_blank, same_bytes, trimmed, without_return};
use crate::runs::before_byte;
use crate::words::Words;
use std::alloc::{AllocError, Global};
use std::marker::Model;

/// The bytes of a line: fewer than 2^32 - 1, so that each column of it is a `u32`.
#[derive(Debug, Drop)]
pub struct Text {
    bytes: Vec<u8>,
}

impl Model for Text {
    ghost use Rattle.std.specs.Prelude.{List, ℕ, ◌^◌, ◌-◌, ◌<◌, length};

    ghost Value = { List ℕ };

    ghost view = { λ t. t.bytes.items };

    ghost invariant = { λ t. length t.bytes.items < 2 ^ 32 - 1 };
}

/// A line that stands for itself, as the lines of a block do.
#[derive(Debug, Drop)]
pub struct Line {
    /// The number of the line in its text, from 1.
    pub number: u32,
    /// Its bytes, without trailing blanks.
    pub text: Text,
}

impl Text {
    /// A copy of these bytes.
    pub fn from_slice(alloc: Global, bytes: &[u8]) -> Result<Text, AllocError>
        requires { length bytes.now < 2 ^ 32 - 1 }
        ensures { IfOk result (λ t. t ≡ bytes.now) }
    {
        let bytes = Vec::from_slice(alloc, bytes)?;
        Ok(Text { bytes })
    }

    /// The bytes.
    pub fn as_bytes(&self) -> &[u8]
        ensures value { result.now ≡ self.now }
        ensures few { length self.now < 2 ^ 32 - 1 }
    {
        self.bytes.as_slice()
    }

    /// How many bytes there are.
    pub fn len(&self) -> u32
        ensures { result ≡ length self.now }
    {
        self.bytes.len() as u32
    }
}

impl Line {
    /// The line, borrowed.
    pub fn view(&self) -> LineView<'_>
        ensures { result ≡ self.now }
    {
        LineView {
            number: self.number,
            text: self.text.as_bytes(),
        }
    }

    /// Its words, to be read.
    pub fn words(&self) -> Words<'_>
        ensures { result ≡ line_left self.now.text }
    {
        Words::of(self.text.as_bytes())
    }
}

/// A line that borrows its bytes from the text that it stands in.
#[derive(Debug, Drop)]
pub struct LineView<'a> {
    number: u32,
    text: &'a [u8],
}

impl<'a> Model for LineView<'a> {
    ghost use Rattle.std.specs.Prelude.{◌^◌, ◌-◌, ◌<◌, length};
    ghost use Rattle.asa_text.specs.declared.lines.Line.{Line};

    ghost Value = { Line };

    ghost view = { λ l. record { number = l.number; text = l.text.now } };

    ghost invariant = { λ l. length l.text.now < 2 ^ 32 - 1 };
}

/// The lines of a text that are still to come.
#[derive(Drop)]
pub struct Lines<'a> {
    number: u32,
    rest: &'a [u8],
}

impl<'a> Model for Lines<'a> {
    ghost use Rattle.std.specs.Prelude.{◌+◌, ◌^◌, ◌-◌, ◌<◌, length};
    ghost use Rattle.asa_text.specs.Lines.{LinesLeft, lines_from};

    ghost Value = { LinesLeft };

    ghost view = { λ l. record { number = l.number; lines = lines_from l.number l.rest.now } };

    ghost invariant = { λ l. l.number + length l.rest.now < 2 ^ 32 - 1 };
}

#[tactic(auto, using(crate::proofs::LineLaws::lines_cut, crate::proofs::LineLaws::lines_all))]
/// The first line of the bytes as it stands, without its end, and the bytes after it.
fn cut_line(bytes: &[u8]) -> (&[u8], &[u8])
    requires { 0 < length bytes.now }
    ensures lines { text_lines bytes.now ≡ result.0.now ∷ text_lines result.1.now }
    ensures within { length result.0.now ≤ length bytes.now }
    ensures shorter { length result.1.now < length bytes.now }
{
    let end = before_byte(bytes, b'\n');
    if end < bytes.len() {
        (
            without_return(bytes.split_at(end).0),
            bytes.split_at(end + 1).1,
        )
    } else {
        (bytes, &[])
    }
}

impl<'a> LineView<'a> {
    /// Its number.
    pub fn number(&self) -> u32
        ensures { result ≡ self.now.number }
    {
        self.number
    }

    /// Its bytes, without trailing blanks.
    pub fn text(&self) -> &'a [u8]
        ensures value { result.now ≡ self.now.text }
        ensures few { length result.now < 2 ^ 32 - 1 }
    {
        self.text
    }

    /// Whether nothing but blanks stands in the line.
    pub fn is_empty(&self) -> bool
        ensures { result ≡ spec.is_empty_line self.now }
    {
        self.text.iter().all(|b| is_blank(*b))
    }

    /// Whether the line is a comment.
    pub fn is_comment(&self) -> bool
        ensures { result ≡ spec.is_comment self.now }
    {
        let first = first_byte(self.text);
        first == b':' || first == b'!'
    }

    /// Whether the line says something: it is neither empty nor a comment.
    pub fn is_kept(&self) -> bool
        ensures { result ≡ spec.is_kept self.now }
    {
        !self.is_empty() && !self.is_comment()
    }

    /// Whether the line belongs to the block of the top-level line before it.
    pub fn is_indented(&self) -> bool
        ensures { result ≡ spec.is_indented self.now }
    {
        is_blank(first_byte(self.text))
    }

    /// Whether the line is the comment that ends the startup part.
    pub fn is_end(&self) -> bool
        ensures { result ≡ spec.is_end self.now }
    {
        same_bytes(self.text, b": end")
    }

    /// The line with a copy of its bytes.
    pub fn to_line(&self, alloc: Global) -> Result<Line, AllocError>
        ensures { IfOk result (λ l. l ≡ self.now) }
    {
        let text = Text::from_slice(alloc, self.text)?;
        Ok(Line {
            number: self.number,
            text,
        })
    }
}

/// The first byte, or 0 where there is none.
fn first_byte(bytes: &[u8]) -> u8
    ensures { result ≡ slice_index bytes.now 0 }
{
    if bytes.is_empty() { 0 } else { bytes[0] }
}

impl<'a> Lines<'a> {
    /// The lines of a text, of which the first has the number `first`.
    pub fn new(text: &'a [u8], first: u32) -> Lines<'a>
        requires { first + length text.now < 2 ^ 32 - 1 }
        ensures value { result ≡ record { number = first; lines = spec.lines_from first text.now } }
    {
        Lines {
            number: first,
            rest: text,
        }
    }

    /// The number of the next line; where no line is left, the number of lines so far and the first number together.
    pub fn number(&self) -> u32
        ensures value { result ≡ self.now.number }
        ensures few { result < 2 ^ 32 - 1 }
    {
        self.number
    }

    /// The next line.
    #[tactic(auto, using(crate::proofs::LineLaws::lines_next, crate::proofs::LineLaws::lines_none))]
    pub fn next(&mut self) -> Option<LineView<'a>>
        ensures few { self.new.number < 2 ^ 32 - 1 }
        ensures none { IfNone result ((self.old.lines ≡ []) × (self.new ≡ self.old)) }
        ensures first { IfSome result (λ l. self.old.lines ≡ l ∷ self.new.lines) }
        ensures numbers { IfSome result (λ l. (l.number ≡ self.old.number) × (self.new.number ≡ self.old.number + 1)) }
    {
        if self.rest.is_empty() {
            return None;
        }
        let number = self.number;
        let (line, rest) = cut_line(self.rest);
        self.number = number + 1;
        self.rest = rest;
        Some(LineView {
            number,
            text: trimmed(line),
        })
    }
}
