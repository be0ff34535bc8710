//! How the top line of a block begins.
ghost use Rattle.std.specs.Prelude.{◌≡◌};
ghost use Rattle.asa_config_edit.specs.Tops as spec;

use asa_text::{Block, Word, Words};

/// A word that a block of this profile begins with.
#[derive(Clone, Copy, Debug, PartialEq, Eq)]
pub enum TopWord {
    Interface,
    Object,
    ObjectGroup,
    AccessList,
    AccessGroup,
    SameSecurityTraffic,
    Route,
    Nat,
    Timeout,
    Asp,
}

/// How a top line begins.
#[derive(Clone, Copy, Debug, PartialEq, Eq)]
pub struct Top {
    /// Whether the first word is `no`.
    pub no: bool,
    /// The first word, or the one after `no`; None where no block of this profile begins with it.
    pub word: Option<TopWord>,
}

/// What a word says at the top of a block.
#[tactic(auto, unfolding(crate::specs::Tops::top_word_of))]
fn top_word(word: &Word<'_>) -> Option<TopWord>
    ensures { result ≡ spec.top_word_of word.now.word }
{
    if word.is(b"interface") {
        return Some(TopWord::Interface);
    }
    if word.is(b"object") {
        return Some(TopWord::Object);
    }
    if word.is(b"object-group") {
        return Some(TopWord::ObjectGroup);
    }
    if word.is(b"access-list") {
        return Some(TopWord::AccessList);
    }
    if word.is(b"access-group") {
        return Some(TopWord::AccessGroup);
    }
    if word.is(b"same-security-traffic") {
        return Some(TopWord::SameSecurityTraffic);
    }
    if word.is(b"route") {
        return Some(TopWord::Route);
    }
    if word.is(b"nat") {
        return Some(TopWord::Nat);
    }
    if word.is(b"timeout") {
        return Some(TopWord::Timeout);
    }
    if word.is(b"asp") {
        return Some(TopWord::Asp);
    }
    None
}

/// Reads how a line begins: `no`, where it stands there, and the word after it.
#[tactic(auto, unfolding(crate::specs::Tops::top_at))]
pub fn read_top(words: &mut Words<'_>) -> Top
    ensures top { result ≡ spec.top_at words.old }
    ensures left { words.new ≡ spec.after_top words.old }
{
    let no = words.takes(b"no");
    let word = match words.next() {
        Some(word) => top_word(&word),
        None => None,
    };
    Top { no, word }
}

/// How the top line of a block begins.
pub fn top_of(block: &Block) -> Top
    ensures { result ≡ spec.top_of block.now }
{
    read_top(&mut block.top_words())
}
