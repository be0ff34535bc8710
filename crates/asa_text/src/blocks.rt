//! Blocks: each top-level line of a text with the indented lines that follow it.
ghost use Rattle.std.specs.Prelude.{◌≡◌, ◌+◌, ◌-◌, ◌^◌, ◌<◌, ◌≤◌, ◌∷◌, [], length, IfOk, IfSome, IfNone, IsTrue, OnOk, is_some, unwrap_or, slice_get, Some, nat_lt, ◌&&◌};
ghost use Rattle.std.specs.List.{list_all};
ghost use Rattle.std.specs.Option.{SomeIff};
ghost use Rattle.asa_text.specs.Lines.{is_block, is_kept, is_indented, lines_from, before_end, after_end};
ghost use Rattle.asa_text.specs.Blocks.{blocks_of, inner_lines, top_text};
ghost use Rattle.asa_text.specs.Words.{line_left};

use crate::builder::Builder;
use crate::items::Items;
use crate::lines::{Line, Lines};
use crate::words::Words;
use std::alloc::{AllocError, Global};
use std::marker::Model;

/// The lines of a block, the top-level line first, the indented ones after it; fewer than 2^32 - 1.
#[derive(Debug, Drop)]
pub struct BlockLines {
    lines: Vec<Line>,
}

impl Model for BlockLines {
    ghost use Rattle.std.specs.Prelude.{List, ◌^◌, ◌-◌, ◌<◌, length, IsTrue};
    ghost use Rattle.asa_text.specs.declared.lines.Line.{Line};
    ghost use Rattle.asa_text.specs.Lines.{is_block};

    ghost Value = { List Line };

    ghost view = { λ b. b.lines.items };

    ghost invariant = { λ b. (length b.lines.items < 2 ^ 32 - 1) × IsTrue (is_block b.lines.items) };
}

/// A block of a configuration.
#[derive(Debug, Drop)]
pub struct Block {
    /// Its lines.
    pub lines: BlockLines,
}

/// A line that is indented and has no top-level line before it.
#[derive(Clone, Copy, Debug, PartialEq, Eq)]
pub struct BlockFault {
    /// Its number.
    pub line: u32,
}

impl BlockLines {
    /// These lines, which have the form of a block.
    pub(crate) fn over(lines: Vec<Line>) -> BlockLines
        requires few { length lines.items < 2 ^ 32 - 1 }
        requires block { IsTrue (is_block lines.items) }
        ensures { result ≡ lines.items }
    {
        BlockLines { lines }
    }

    /// The lines of a block.
    pub fn as_slice(&self) -> &[Line]
        ensures value { result.now ≡ self.now }
        ensures few { length self.now < 2 ^ 32 - 1 }
        ensures block { IsTrue (is_block self.now) }
    {
        self.lines.as_slice()
    }
}

/// Whether the line says something and is indented.
fn is_inner(line: &Line) -> bool
    ensures { result ≡ (is_kept line.now && is_indented line.now) }
{
    let line = line.view();
    line.is_kept() && line.is_indented()
}

/// Whether each of the lines says something and is indented.
fn are_inner(lines: &[Line]) -> bool
    ensures { result ≡ list_all (λ l. is_kept l && is_indented l) lines.now }
{
    lines.iter().all(|line| is_inner(line))
}

/// Whether the lines have the form of a block.
fn has_block_form(lines: &[Line]) -> bool
    ensures { result ≡ is_block lines.now }
{
    match lines {
        [] => false,
        [top, inner @ ..] => {
            let top = top.view();
            top.is_kept() && !top.is_indented() && are_inner(inner)
        }
    }
}

impl Block {
    /// The block of these lines; None where they haven't the form of a block, or are 2^32 - 1 or more.
    pub fn new(lines: Vec<Line>) -> Option<Block>
        ensures { SomeIff result (IsTrue (is_block lines.items && nat_lt (length lines.items) (2 ^ 32 - 1))) (record { lines = lines.items }) }
    {
        if has_block_form(&lines) && lines.len() < 0xffff_ffff {
            Some(Block {
                lines: BlockLines::over(lines),
            })
        } else {
            None
        }
    }

    /// The words of the top-level line, to be read.
    pub fn top_words(&self) -> Words<'_>
        ensures { result ≡ line_left (top_text self.now) }
    {
        self.top().words()
    }

    /// The indented lines.
    pub fn inner_lines(&self) -> &[Line]
        ensures value { result.now ≡ inner_lines self.now }
        ensures few { length result.now + 1 < 2 ^ 32 - 1 }
    {
        &self.lines.as_slice()[1..]
    }

    /// The top-level line.
    pub fn top(&self) -> &Line
        ensures line { slice_get self.now.lines 0 ≡ Some result.now }
        ensures text { result.now.text ≡ top_text self.now }
    {
        &self.lines.as_slice()[0]
    }
}

/// The lines of a text, of which the first has the number `first_line`, cut into blocks; or the first line that is
/// indented and has no top-level line before it.
#[tactic(auto, unfolding(crate::specs::Blocks::grouped))]
pub fn cut_blocks(
    alloc: Global,
    text: &[u8],
    first_line: u32,
) -> Result<Result<Items<Block>, BlockFault>, AllocError>
    requires { first_line + length text.now < 2 ^ 32 - 1 }
    ensures { IfOk result (λ r. r ≡ blocks_of (lines_from first_line text.now)) }
{
    let mut lines = Lines::new(text, first_line);
    let mut builder = Builder::new(alloc);
    while let Some(line) = lines.next() {
        if line.is_kept() {
            builder.add(alloc, &line)?;
        }
    }
    builder.finish(alloc)
}

/// The blocks of a startup text, and whether it was ended by its last comment.
#[derive(Debug, Drop)]
pub struct StartupText {
    /// The blocks before the comment that ends the startup part, or before the end of the text.
    pub blocks: Result<Items<Block>, BlockFault>,
    /// Whether that comment was there.
    pub ended: bool,
}

/// Reads the startup part, and leaves the cursor after the comment that ends it, or at the end of the text.
#[tactic(auto, unfolding(crate::specs::Blocks::grouped))]
pub fn cut_startup(alloc: Global, lines: &mut Lines<'_>) -> Result<StartupText, AllocError>
    ensures blocks { IfOk result (λ s. s.blocks ≡ blocks_of (before_end lines.old.lines)) }
    ensures ended { IfOk result (λ s. s.ended ≡ is_some (after_end lines.old.lines)) }
    ensures left { OnOk result (lines.new.lines ≡ unwrap_or (after_end lines.old.lines) []) }
    ensures numbers { OnOk result (lines.new.number + length lines.new.lines ≡ lines.old.number + length lines.old.lines) }
{
    let mut builder = Builder::new(alloc);
    let mut ended = false;
    while let Some(line) = lines.next() {
        if line.is_end() {
            ended = true;
            break;
        }
        if line.is_kept() {
            builder.add(alloc, &line)?;
        }
    }
    let blocks = builder.finish(alloc)?;
    Ok(StartupText { blocks, ended })
}
