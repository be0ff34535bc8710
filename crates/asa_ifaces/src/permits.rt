//! The lines that permit traffic between interfaces of one level.
ghost use Rattle.std.specs.Prelude.{◌≡◌};
ghost use Rattle.asa_text.specs.Readers.{Reads};
ghost use Rattle.asa_ifaces.specs.Answers.{of_line};
ghost use Rattle.asa_ifaces.specs.Permits as spec;

use crate::iface::Permits;
use asa_text::{Line, LineFault, Words, end_of_line, keyword};

/// The permit that the word names, which becomes this.
fn flag_of(word: &[u8], permit: bool) -> Option<Permits>
    ensures { result ≡ spec.flag_of word.now permit }
{
    if word == b"inter-interface".as_slice() {
        return Some(Permits {
            inter: Some(permit),
            intra: None,
        });
    }
    if word == b"intra-interface".as_slice() {
        return Some(Permits {
            inter: None,
            intra: Some(permit),
        });
    }
    None
}

/// Reads the word of a permit.
#[tactic(auto, unfolding(crate::specs::Permits::flag_at))]
fn read_flag(permit: bool, words: &mut Words<'_>) -> Result<Permits, LineFault>
    ensures { Reads result words.new (spec.flag_at permit words.old) }
{
    let word = words.word()?;
    match flag_of(word.bytes(), permit) {
        Some(permits) => Ok(permits),
        None => Err(word.bad()),
    }
}

/// Reads the line from `same-security-traffic` on.
#[tactic(auto, unfolding(crate::specs::Permits::same_security_line))]
fn read_same_security(permit: bool, words: &mut Words<'_>) -> Result<Permits, LineFault>
    ensures { Reads result words.new (spec.same_security_line permit words.old) }
{
    keyword(words, b"same-security-traffic")?;
    keyword(words, b"permit")?;
    let permits = read_flag(permit, words)?;
    end_of_line(words)?;
    Ok(permits)
}

/// Reads the whole line, with or without `no`.
#[tactic(auto, unfolding(crate::specs::Permits::permits_line))]
fn read_line(words: &mut Words<'_>) -> Result<Permits, LineFault>
    ensures { Reads result words.new (spec.permits_line words.old) }
{
    if words.takes(b"no") {
        return read_same_security(false, words);
    }
    read_same_security(true, words)
}

/// Reads a line `[no] same-security-traffic permit inter-interface|intra-interface`: the permit that it states, true
/// without `no` and false with it. Each word that isn't the form's is Bad. It takes no memory.
pub fn read_permits(line: &Line) -> Result<Permits, LineFault>
    ensures { result ≡ of_line spec.permits_line line.now }
{
    let mut words = Words::of(line.text.as_bytes());
    read_line(&mut words)
}
