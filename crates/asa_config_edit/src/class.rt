//! Which blocks are passed over, and which part of the policy a block belongs to.
ghost use Rattle.std.specs.Prelude.{◌≡◌};
ghost use Rattle.asa_text.specs.Readers.{after_one};
ghost use Rattle.asa_config_edit.specs.Classes as spec;

use crate::top::{Top, TopWord, read_top, top_of};
use asa_text::{Block, Line, Words};

/// The part of the policy that a block belongs to, by which it is decided whether an edit waits for the next commit.
#[derive(Clone, Copy, Debug, PartialEq, Eq)]
pub enum Class {
    /// Lines of access lists, access groups, and what is permitted between interfaces of one level.
    Access,
    /// NAT lines, and objects with a line about their NAT rule.
    Nat,
    /// Other objects and groups, which access lists and NAT rules alike may name.
    Both,
    /// Every other block of this profile.
    Other,
    /// A block that isn't of this profile: it changes nothing.
    Passed,
}

/// The words after the next one.
pub fn after_one<'a>(words: &Words<'a>) -> Words<'a>
    ensures { result ≡ after_one words.now }
{
    let mut after = words.copy();
    let _word = after.next();
    after
}

/// Whether the words begin with `rule-engine transactional-commit`.
fn is_commit_mode(words: &Words<'_>) -> bool
    ensures { result ≡ spec.is_commit_mode words.now }
{
    words.next_is(b"rule-engine") && after_one(words).next_is(b"transactional-commit")
}

/// Whether the words after `access-list` are about all lists, or name a list of another type.
fn is_other_list(words: &Words<'_>) -> bool
    ensures { result ≡ spec.is_other_list words.now }
{
    let kind = after_one(words);
    words.next_is(b"alert-interval")
        || words.next_is(b"deny-flow-max")
        || kind.next_is(b"standard")
        || kind.next_is(b"ethertype")
        || kind.next_is(b"webtype")
}

/// Whether a block is passed over whose top line begins in this way, and goes on with these words.
fn is_passed_by(top: Top, words: &Words<'_>) -> bool
    ensures { result ≡ spec.is_passed_by top.no top.word words.now }
{
    match top.word {
        None => true,
        Some(TopWord::Asp) => !is_commit_mode(words),
        Some(TopWord::AccessList) => !top.no && is_other_list(words),
        Some(TopWord::Interface | TopWord::Timeout) => top.no,
        Some(_) => false,
    }
}

/// Whether the block is passed over.
#[tactic(auto, unfolding(crate::specs::Classes::is_passed))]
pub fn is_passed(block: &Block) -> bool
    ensures { result ≡ spec.is_passed block.now }
{
    let mut words = block.top_words();
    let top = read_top(&mut words);
    is_passed_by(top, &words)
}

/// Whether the line is `nat ..` or `no nat ..`.
#[tactic(auto, unfolding(crate::specs::Classes::is_nat_line))]
fn is_nat_line(line: &Line) -> bool
    ensures { result ≡ spec.is_nat_line line.now }
{
    let mut words = line.words();
    let _no = words.takes(b"no");
    words.next_is(b"nat")
}

/// Whether the next word begins a block of an object or a group.
pub fn begins_object(words: &Words<'_>) -> bool
    ensures { result ≡ spec.begins_object words.now }
{
    words.next_is(b"object") || words.next_is(b"object-group")
}

/// Whether one of the lines is `nat ..` or `no nat ..`.
fn has_nat_line(lines: &[Line]) -> bool
    ensures { result ≡ spec.has_nat_line lines.now }
{
    lines.iter().any(|line| is_nat_line(line))
}

/// The class of the block of an object, or of one that removes it, with these indented lines.
fn object_class(no: bool, inner: &[Line]) -> Class
    ensures { result ≡ spec.object_class no inner.now }
{
    if !no && has_nat_line(inner) {
        Class::Nat
    } else {
        Class::Both
    }
}

/// The class of a block of this profile whose top line begins in this way and which has these indented lines.
fn class_by(top: Top, inner: &[Line]) -> Class
    ensures { result ≡ spec.class_by top.no top.word inner.now }
{
    match top.word {
        None => Class::Passed,
        Some(TopWord::AccessList | TopWord::AccessGroup | TopWord::SameSecurityTraffic) => {
            Class::Access
        }
        Some(TopWord::Nat) => Class::Nat,
        Some(TopWord::Object) => object_class(top.no, inner),
        Some(TopWord::ObjectGroup) => Class::Both,
        Some(TopWord::Interface | TopWord::Route | TopWord::Timeout | TopWord::Asp) => Class::Other,
    }
}

/// The part of the policy that the block belongs to. A block is `Passed` where neither its first word nor the second
/// after a first word `no` is one of this profile; where it is `asp ..` about something else than `rule-engine
/// transactional-commit`; where it is an `access-list` line of another type (`standard`, `ethertype`, `webtype`) or
/// about all lists (`alert-interval`, `deny-flow-max`); and where it is `no timeout` or `no interface`.
#[tactic(auto, unfolding(crate::specs::Classes::class_of))]
pub fn class_of(block: &Block) -> Class
    ensures { result ≡ spec.class_of block.now }
{
    if is_passed(block) {
        return Class::Passed;
    }
    class_by(top_of(block), block.inner_lines())
}
