//! The pair of interfaces of a rule.
ghost use Rattle.std.specs.Prelude.{◌≡◌, ◌≤◌, length, drop, codes};
ghost use Rattle.std.specs.List.{list_all, position_or_len, before_first, after_first};
ghost use Rattle.std.specs.Str.{bytes_eq};
ghost use Rattle.asa_text.specs.Readers.{Reads};
ghost use Rattle.asa_nat_lines.specs.Pairs as spec;

use asa_base::{Name, Names};
use asa_text::{LineFault, Words};

/// How many bytes stand before the first comma, or all of them.
fn comma_place(bytes: &[u8]) -> usize
    ensures value { result ≡ position_or_len spec.is_comma bytes.now }
    ensures within { result ≤ length bytes.now }
{
    for (i, b) in bytes.iter().enumerate() {
        if *b == b',' {
            return i;
        }
    }
    bytes.len()
}

/// The bytes before the first comma, and those after it.
fn cut_at_comma(bytes: &[u8]) -> (&[u8], &[u8])
    ensures before { result.0.now ≡ before_first spec.is_comma bytes.now }
    ensures after { result.1.now ≡ after_first spec.is_comma bytes.now }
{
    let place = comma_place(bytes);
    let (before, rest) = bytes.split_at(place);
    if rest.is_empty() {
        (before, rest)
    } else {
        (before, rest.split_at(1).1)
    }
}

/// Whether the word begins with `(`.
fn opens(word: &[u8]) -> bool
    ensures { result ≡ spec.opens word.now }
{
    match word.first() {
        Some(b) => *b == b'(',
        None => false,
    }
}

/// Whether the bytes end with `)`.
fn closes(bytes: &[u8]) -> bool
    ensures { result ≡ spec.closes bytes.now }
{
    match bytes.last() {
        Some(b) => *b == b')',
        None => false,
    }
}

/// The bytes but the last.
fn but_last(bytes: &[u8]) -> &[u8]
    ensures { result.now ≡ spec.but_last bytes.now }
{
    bytes.split_at(bytes.len().saturating_sub(1)).0
}

/// Whether the byte may stand in a side: it is neither a parenthesis nor a comma.
fn is_side_byte(byte: u8) -> bool
    ensures { result ≡ spec.is_side_byte byte }
{
    !(byte == b'(' || byte == b')' || byte == b',')
}

/// Whether each byte may stand in a side.
fn are_side_bytes(bytes: &[u8]) -> bool
    ensures { result ≡ list_all spec.is_side_byte bytes.now }
{
    bytes.iter().all(|b| is_side_byte(*b))
}

/// The name that a side is, or None where it is none.
fn side(bytes: &[u8]) -> Option<Name>
    ensures { result ≡ spec.side_of bytes.now }
{
    if are_side_bytes(bytes) {
        Name::new(bytes)
    } else {
        None
    }
}

/// The bytes but the first.
fn but_first(bytes: &[u8]) -> &[u8]
    ensures { result.now ≡ drop 1 bytes.now }
{
    if bytes.is_empty() {
        bytes
    } else {
        bytes.split_at(1).1
    }
}

/// The real and the mapped side of a word that is a pair.
#[tactic(auto, unfolding(crate::specs::Pairs::sides))]
fn sides(word: &[u8]) -> Option<(Name, Name)>
    ensures { result ≡ spec.sides word.now }
{
    let (real, end) = cut_at_comma(but_first(word));
    if !closes(end) {
        return None;
    }
    let real = side(real)?;
    let mapped = side(but_last(end))?;
    Some((real, mapped))
}

/// Whether the name is `any`.
fn is_any(name: &Name) -> bool
    ensures { result ≡ bytes_eq name.now (codes "any") }
{
    name.bytes() == b"any".as_slice()
}

/// The number of the interface that a side names, or None for `any`.
#[tactic(auto, unfolding(crate::specs::Pairs::side_at))]
fn side_interface<N: Names>(
    words: &Words<'_>,
    names: &N,
    column: u32,
    side: &Name,
) -> Result<Option<u8>, LineFault>
    ensures { Reads result words.now (spec.side_at (N.known names.now) column side.now words.now) }
{
    if is_any(side) {
        return Ok(None);
    }
    match names.interface_of(side) {
        Some(number) => Ok(Some(number)),
        None => Err(LineFault::NoSuchInterface { column }),
    }
}

/// The numbers of the interfaces of both sides.
#[tactic(auto, unfolding(crate::specs::Pairs::pair_of))]
fn pair_of<N: Names>(
    words: &Words<'_>,
    names: &N,
    column: u32,
    sides: Option<(Name, Name)>,
) -> Result<(Option<u8>, Option<u8>), LineFault>
    ensures { Reads result words.now (spec.pair_of (N.known names.now) column sides words.now) }
{
    let Some((real, mapped)) = sides else {
        return Err(LineFault::Bad { column });
    };
    let real = side_interface(words, names, column, &real)?;
    let mapped = side_interface(words, names, column, &mapped)?;
    Ok((real, mapped))
}

/// Reads `(I,I)`.
#[tactic(auto, unfolding(crate::specs::Pairs::pair_at))]
fn pair<N: Names>(words: &mut Words<'_>, names: &N) -> Result<(Option<u8>, Option<u8>), LineFault>
    ensures { Reads result words.new (spec.pair_at (N.known names.now) words.old) }
{
    let word = words.word()?;
    let sides = sides(word.bytes());
    pair_of(words, names, word.column(), sides)
}

/// Whether a pair comes next.
fn next_is_pair(words: &Words<'_>) -> bool
    ensures { result ≡ spec.next_is_pair words.now }
{
    match words.peek() {
        Some(word) => opens(word.bytes()),
        None => false,
    }
}

/// Reads `[(I,I)]`: the numbers of the real and the mapped interface, None for `any`. Without the pair it is (any,any).
/// The pair is one word, and its faults have its column: a pair of another form is Bad, and a side that no interface has
/// is NoSuchInterface.
#[tactic(auto, unfolding(crate::specs::Pairs::interfaces_at))]
pub(crate) fn interfaces<N: Names>(
    words: &mut Words<'_>,
    names: &N,
) -> Result<(Option<u8>, Option<u8>), LineFault>
    ensures { Reads result words.new (spec.interfaces_at (N.known names.now) words.old) }
{
    if next_is_pair(words) {
        return pair(words, names);
    }
    Ok((None, None))
}
