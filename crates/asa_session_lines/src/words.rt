//! The words of a line by their places, from 0.
ghost use Rattle.std.specs.Prelude.{◌≡◌, ◌≤◌, ◌==◌, length, drop, IfOk, IfSome};
ghost use Rattle.std.specs.List.{slice_get};
ghost use Rattle.std.specs.Str.{bytes_eq};
ghost use Rattle.asa_session_lines.specs.Words as spec;

use crate::line::ScriptFault;
use asa_base::{Name, Names};
use asa_text::{Addr, Word, Words, parse_addr, parse_number};

#[tactic(auto, using(crate::proofs::PlaceLaws::word_there, crate::proofs::PlaceLaws::rest_there))]
/// The word at a place.
fn word_at<'a>(words: &Words<'a>, place: u32) -> Option<Word<'a>>
    ensures { result ≡ slice_get words.now.words place }
{
    let mut rest = words.copy();
    for _ in 0..place {
        let _word = rest.next();
    }
    rest.next()
}

/// The bytes of the word at a place; a missing word has none.
pub(crate) fn text_at<'a>(words: &Words<'a>, place: u32) -> &'a [u8]
    ensures { result.now ≡ spec.text_at words.now.words place }
{
    match word_at(words, place) {
        Some(word) => word.bytes(),
        None => &[],
    }
}

/// Whether the word at a place is this text.
pub(crate) fn word_is(words: &Words<'_>, place: u32, text: &[u8]) -> bool
    ensures { result ≡ spec.word_is words.now.words place text.now }
{
    text_at(words, place) == text
}

/// Whether the line has so many words.
pub(crate) fn count_is(words: &Words<'_>, count: u32) -> bool
    requires { 1 ≤ count }
    ensures { result ≡ (length words.now.words == count) }
{
    word_at(words, count - 1).is_some() && word_at(words, count).is_none()
}

/// The number at a place, from `least` to `greatest`.
pub(crate) fn number_at(
    words: &Words<'_>,
    place: u32,
    least: u64,
    greatest: u64,
) -> Result<u64, ScriptFault>
    ensures value { result ≡ spec.number_at words.now.words place least greatest }
    ensures within { IfOk result (λ n. (least ≤ n) × (n ≤ greatest)) }
{
    match parse_number(text_at(words, place), least, greatest) {
        Ok(number) => Ok(number),
        Err(_) => Err(ScriptFault::BadNumber),
    }
}

/// The address at a place.
pub(crate) fn address_at(words: &Words<'_>, place: u32) -> Result<Addr, ScriptFault>
    ensures { result ≡ spec.address_at words.now.words place }
{
    match parse_addr(text_at(words, place)) {
        Ok(address) => Ok(address),
        Err(_) => Err(ScriptFault::BadNumber),
    }
}

/// The interface that the word at a place names.
#[tactic(auto, unfolding(crate::specs::Words::interface_at))]
pub(crate) fn interface_at<N: Names>(
    words: &Words<'_>,
    names: &N,
    place: u32,
) -> Result<u8, ScriptFault>
    ensures { result ≡ spec.interface_at (N.known names.now) words.now.words place }
{
    let Some(name) = Name::new(text_at(words, place)) else {
        return Err(ScriptFault::UnknownInterface);
    };
    match names.interface_of(&name) {
        Some(ifc) => Ok(ifc),
        None => Err(ScriptFault::UnknownInterface),
    }
}
