//! Whole lines of an access list: entries and remarks.
ghost use Rattle.std.specs.Prelude.{◌≡◌, ◌<◌, ◌-◌, ◌^◌, ◌∷◌, Bool, length, drop, nat_lt, is_none, IfOk};
ghost use Rattle.std.specs.List.{list_any};
ghost use Rattle.asa_text.specs.Readers.{Reads};
ghost use Rattle.asa_text.specs.Words.{line_left};
ghost use Rattle.asa_base.specs.Memory.{MayRead};
ghost use Rattle.asa_acl_line.specs.Answers.{MayParse};
ghost use Rattle.asa_acl_line.specs.Grammar as spec;

use crate::ace::{Ace, AclLine};
use crate::parts::{address_ref, dest_part, next_left_out, protocol_part, source_part};
use asa_base::Names;
use asa_text::{Line, LineFault, Text, Word, Words, end_of_line, keyword, trimmed};
use std::alloc::Global;

/// Whether a word comes next that `log` is followed by: neither `inactive` nor `time-range`.
fn goes_on_with_log(words: &Words<'_>) -> bool
    ensures { result ≡ spec.goes_on_with_log words.now }
{
    words.peek().is_some() && !words.next_is(b"inactive") && !words.next_is(b"time-range")
}

/// Passes over the words that follow `log`.
fn pass_log(words: &mut Words<'_>)
    ensures { words.new ≡ spec.past_log words.old }
{
    while goes_on_with_log(words) {
        let _word = words.next();
    }
}

/// Passes over `[log ..]`.
fn pass_log_part(words: &mut Words<'_>)
    ensures { words.new ≡ spec.after_log words.old }
{
    if words.takes(b"log") {
        pass_log(words);
    }
}

/// Reads the end of an entry.
#[tactic(auto, unfolding(crate::specs::Grammar::entry_end_at))]
fn entry_end(words: &mut Words<'_>) -> Result<(), LineFault>
    ensures { Reads result words.new (spec.entry_end_at words.old) }
{
    if next_left_out(words) {
        return Err(words.unsupported());
    }
    end_of_line(words)
}

/// Reads `[inactive]` and the end, and answers whether the entry is active.
#[tactic(auto, unfolding(crate::specs::Grammar::activity_at))]
fn activity(words: &mut Words<'_>) -> Result<bool, LineFault>
    ensures { Reads result words.new (spec.activity_at words.old) }
{
    if words.takes(b"inactive") {
        entry_end(words)?;
        return Ok(false);
    }
    entry_end(words)?;
    Ok(true)
}

/// Reads an entry from its protocol to the line's end.
#[tactic(auto, unfolding(crate::specs::Grammar::ace_at))]
fn ace<N: Names>(words: &mut Words<'_>, names: &N, permit: bool) -> Result<Ace, LineFault>
    ensures { Reads result words.new (spec.ace_at (N.known names.now) permit words.old) }
{
    let service = protocol_part(words, names)?;
    let source = address_ref(words, names)?;
    let service = source_part(words, names, service)?;
    let dest = address_ref(words, names)?;
    let service = dest_part(words, names, service)?;
    pass_log_part(words);
    let active = activity(words)?;
    Ok(Ace {
        permit,
        active,
        service,
        source,
        dest,
    })
}

/// Reads `permit|deny ..`.
#[tactic(auto, unfolding(crate::specs::Grammar::entry_at))]
fn entry<N: Names>(words: &mut Words<'_>, names: &N) -> Result<Ace, LineFault>
    ensures { Reads result words.new (spec.entry_at (N.known names.now) words.old) }
{
    if words.takes(b"permit") {
        return ace(words, names, true);
    }
    keyword(words, b"deny")?;
    ace(words, names, false)
}

/// Reads `[extended] permit|deny ..`.
#[tactic(auto, unfolding(crate::specs::Grammar::extended_at))]
fn extended<N: Names>(words: &mut Words<'_>, names: &N) -> Result<Ace, LineFault>
    ensures { Reads result words.new (spec.extended_at (N.known names.now) words.old) }
{
    let _extended = words.takes(b"extended");
    entry(words, names)
}

/// Whether the word has a byte below 0x20.
fn has_control(word: &Word<'_>) -> bool
    ensures { result ≡ spec.has_control word.now }
{
    word.bytes().iter().any(|b| *b < 32)
}

/// Reads the words to the line's end; the first that has a byte below 0x20 is Bad.
fn clean_end(words: &mut Words<'_>) -> Result<(), LineFault>
    ensures { Reads result words.new (spec.clean_end words.old.end words.old.words) }
{
    while let Some(word) = words.next() {
        if has_control(&word) {
            return Err(word.bad());
        }
    }
    Ok(())
}

/// The text from a column, counted from 1, to the end of the last word.
fn text_from(column: u32, text: &[u8]) -> &[u8]
    ensures { result.now ≡ spec.text_from column text.now }
{
    let before = column.saturating_sub(1) as usize;
    match text.get(before..) {
        Some(rest) => trimmed(rest),
        None => trimmed(&[]),
    }
}

/// Reads the text of a remark on a line with this text.
#[tactic(auto, unfolding(crate::specs::Grammar::remark_at))]
fn remark(alloc: Global, text: &[u8], words: &mut Words<'_>) -> Result<Text, LineFault>
    requires { length text.now < 2 ^ 32 - 1 }
    ensures { MayRead result words.new (spec.remark_at text.now words.old) }
{
    if words.peek().is_none() {
        return Err(words.bad());
    }
    let column = words.column();
    clean_end(words)?;
    match Text::from_slice(alloc, text_from(column, text)) {
        Ok(remark) => Ok(remark),
        Err(_) => Err(LineFault::NoMemory),
    }
}

/// Reads a whole line of a list from the words of a line with this text, from the word after the list's name and number
/// on: an entry (access rules of the firewall CLI configuration guide, `access-list extended` of the command reference)
/// or a remark (`access-list remark`).
///
/// A word that has none of the forms of its place, is missing or is one too many is Bad, as are a name of the wrong kind
/// and a group of ports that doesn't fit the protocol; a word of users, security groups or times at the place of an
/// address or after the last part is Unsupported, as is an IPv6 address; a name that isn't defined is Unknown; an
/// interface's name that none has is NoSuchInterface. Only a remark takes memory.
#[tactic(auto, unfolding(crate::specs::Grammar::acl_line_at))]
pub fn acl_line<N: Names>(
    alloc: Global,
    text: &[u8],
    words: &mut Words<'_>,
    names: &N,
) -> Result<AclLine, LineFault>
    requires { length text.now < 2 ^ 32 - 1 }
    ensures { MayRead result words.new (spec.acl_line_at (N.known names.now) text.now words.old) }
{
    if words.takes(b"remark") {
        let text = remark(alloc, text, words)?;
        return Ok(AclLine::Remark(text));
    }
    let ace = extended(words, names)?;
    Ok(AclLine::Ace(ace))
}

/// Whether a word comes next that begins before the column.
fn next_is_before(words: &Words<'_>, column: u32) -> bool
    ensures { result ≡ spec.next_is_before column words.now }
{
    match words.peek() {
        Some(word) => word.column() < column,
        None => false,
    }
}

/// Passes over the words that begin before the column.
fn pass_to_column(words: &mut Words<'_>, column: u32)
    ensures { words.new ≡ spec.from_column column words.old }
{
    while next_is_before(words, column) {
        let _word = words.next();
    }
}

/// Reads a line of a list from the words of a line that begin at a column, counted from 1, or after it; see `acl_line`.
#[tactic(auto, unfolding(crate::specs::Grammar::acl_line_from))]
pub fn parse_ace<N: Names>(
    alloc: Global,
    line: &Line,
    from: u32,
    names: &N,
) -> Result<AclLine, LineFault>
    ensures { MayParse result (spec.acl_line_from (N.known names.now) line.now.text from) }
{
    let text = line.text.as_bytes();
    let mut words = Words::of(text);
    pass_to_column(&mut words, from);
    acl_line(alloc, text, &mut words, names)
}
