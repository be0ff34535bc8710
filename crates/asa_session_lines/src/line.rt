//! What a line of the script says, and why it says nothing.
ghost use Rattle.std.specs.Prelude.{◌≡◌, Some, None, IfOk, IfSome, IfNone};
ghost use Rattle.asa_session_lines.specs.Lines as spec;

use crate::packet::{packet, traced_packet};
use crate::words::{count_is, number_at, word_is};
use asa_base::{Names, Packet};
use asa_text::Words;

/// A table that a session may show.
#[derive(Clone, Copy, Debug, PartialEq, Eq)]
pub enum Table {
    /// The live connections.
    Conn,
    /// The live translations.
    Xlate,
    /// The NAT rules, with the number of flows that each decided.
    Nat,
    /// The configuration.
    RunningConfig,
}

/// What a line of the script says, but for a line `> ..` of a configuration block.
#[derive(Clone, Copy, Debug, PartialEq, Eq)]
pub enum ScriptLine {
    /// The commands after it are those of this lane, 1 to 8.
    Lane(u8),
    /// A packet comes in.
    Packet(Packet),
    /// A packet is traced.
    Trace(Packet),
    /// All connections end.
    Clear,
    /// The phase ends.
    Sync,
    /// The phase ends, and then time goes on by so many seconds, 1 to 4,000,000.
    Advance(u32),
    /// The phase ends, and then a table is shown.
    Show(Table),
}

/// Why a line of the script says nothing. Of several causes the first in this order counts.
#[derive(Clone, Copy, Debug, PartialEq, Eq)]
pub enum ScriptFault {
    /// The number of words, a fixed word or the flags are out of form.
    Syntax,
    /// No interface has the name.
    UnknownInterface,
    /// A number or an address is out of form or out of range.
    BadNumber,
    /// The lane isn't 1 to 8.
    TooManyLanes,
    /// The script has more lines than 262,144. No line by itself has this fault.
    TooManyLines,
}

/// `lane K`.
#[tactic(auto, unfolding(crate::specs::Lines::lane_line))]
fn lane(words: &Words<'_>) -> Result<ScriptLine, ScriptFault>
    ensures value { result ≡ spec.lane_line words.now.words }
    ensures lane { IfOk result spec.HasLane }
{
    if !count_is(words, 2) {
        return Err(ScriptFault::Syntax);
    }
    match number_at(words, 1, 1, 8) {
        Ok(lane) => Ok(ScriptLine::Lane(lane as u8)),
        Err(_) => Err(ScriptFault::TooManyLanes),
    }
}

/// `advance N`.
#[tactic(auto, unfolding(crate::specs::Lines::advance_line))]
fn advance(words: &Words<'_>) -> Result<ScriptLine, ScriptFault>
    ensures value { result ≡ spec.advance_line words.now.words }
    ensures lane { IfOk result spec.HasLane }
{
    if !count_is(words, 2) {
        return Err(ScriptFault::Syntax);
    }
    let seconds = number_at(words, 1, 1, 4_000_000)?;
    Ok(ScriptLine::Advance(seconds as u32))
}

/// The table that a word names.
fn table_at(words: &Words<'_>, place: u32) -> Option<Table>
    ensures { result ≡ spec.table_at words.now.words place }
{
    if word_is(words, place, b"conn") {
        return Some(Table::Conn);
    }
    if word_is(words, place, b"xlate") {
        return Some(Table::Xlate);
    }
    if word_is(words, place, b"nat") {
        return Some(Table::Nat);
    }
    if word_is(words, place, b"running-config") {
        return Some(Table::RunningConfig);
    }
    None
}

/// `show TABLE`.
#[tactic(auto, unfolding(crate::specs::Lines::show_line))]
fn show(words: &Words<'_>) -> Result<ScriptLine, ScriptFault>
    ensures value { result ≡ spec.show_line words.now.words }
    ensures lane { IfOk result spec.HasLane }
{
    match table_at(words, 1) {
        Some(table) if count_is(words, 2) => Ok(ScriptLine::Show(table)),
        _ => Err(ScriptFault::Syntax),
    }
}

/// `sync` and `clear conn`, which have no other form.
#[tactic(auto, unfolding(crate::specs::Lines::fixed_line))]
fn fixed(words: &Words<'_>) -> Result<ScriptLine, ScriptFault>
    ensures value { result ≡ spec.fixed_line words.now.words }
    ensures lane { IfOk result spec.HasLane }
{
    if word_is(words, 0, b"sync") && count_is(words, 1) {
        return Ok(ScriptLine::Sync);
    }
    if word_is(words, 0, b"clear") && word_is(words, 1, b"conn") && count_is(words, 2) {
        return Ok(ScriptLine::Clear);
    }
    Err(ScriptFault::Syntax)
}

/// What the words of a line of the script say. The interfaces are those of the startup configuration.
#[tactic(auto, unfolding(crate::specs::Lines::script_line))]
pub fn script_line<N: Names>(words: &Words<'_>, names: &N) -> Result<ScriptLine, ScriptFault>
    ensures value { result ≡ spec.script_line (N.known names.now) words.now.words }
    ensures lane { IfOk result spec.HasLane }
{
    if word_is(words, 0, b"packet") {
        return Ok(ScriptLine::Packet(packet(words, names)?));
    }
    if word_is(words, 0, b"packet-tracer") {
        return Ok(ScriptLine::Trace(traced_packet(words, names)?));
    }
    if word_is(words, 0, b"lane") {
        return lane(words);
    }
    if word_is(words, 0, b"advance") {
        return advance(words);
    }
    if word_is(words, 0, b"show") {
        return show(words);
    }
    fixed(words)
}

/// The text of a line of a configuration block that the script states as `> TEXT`; None where the line isn't of this
/// form. `>` alone has the empty text.
pub fn edit_text(line: &[u8]) -> Option<&[u8]>
    ensures some { IfSome result (λ text. spec.edit_text line.now ≡ Some text.now) }
    ensures none { IfNone result (spec.edit_text line.now ≡ None) }
{
    let (mark, rest) = line.split_first()?;
    if *mark != b'>' {
        return None;
    }
    match rest.split_first() {
        None => Some(rest),
        Some((blank, text)) if *blank == b' ' => Some(text),
        Some(_) => None,
    }
}
