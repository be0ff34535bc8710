//! What a word means as a port, a protocol or an ICMP type.
ghost use Rattle.std.specs.Prelude.{◌≡◌, ◌==◌, ◌&&◌, ◌↔◌, not, nat_lt, length, IsTrue, IsErrOf, Ok, Some, None};
ghost use Rattle.std.specs.List.{list_all};
ghost use Rattle.asa_text.specs.Numbers.{is_digit, is_number, is_within};
ghost use Rattle.std.specs.Str.Parse.{digits_value};
ghost use Rattle.asa_text_names.specs.Numbers as spec;
ghost use Rattle.asa_text_names.specs.Tables.{port_names, protocol_names, icmp_names};

use crate::lookup::look_up;
use crate::tables::{ICMP_TYPES, PORTS, PROTOCOLS};
use asa_text::{WordFault, is_digit, parse_number};

/// Whether each byte is a digit.
fn all_digits(word: &[u8]) -> bool
    ensures { result ≡ list_all is_digit word.now }
{
    word.iter().all(|b| is_digit(*b))
}

/// The number of a port's name.
#[tactic(auto, unfolding(crate::specs::Tables::port_names))]
fn port_named(word: &[u8]) -> Option<u16>
    ensures { result ≡ spec.number_in port_names word.now }
{
    look_up(&PORTS, word)
}

/// The number of a protocol's name.
#[tactic(auto, unfolding(crate::specs::Tables::protocol_names))]
fn protocol_named(word: &[u8]) -> Option<u8>
    ensures { result ≡ spec.number_in protocol_names word.now }
{
    look_up(&PROTOCOLS, word)
}

/// The number of an ICMP type's name.
#[tactic(auto, unfolding(crate::specs::Tables::icmp_names))]
fn icmp_type_named(word: &[u8]) -> Option<u8>
    ensures { result ≡ spec.number_in icmp_names word.now }
{
    look_up(&ICMP_TYPES, word)
}

/// The port that a word means: 0 to 65535, or a name.
#[tactic(auto, unfolding(crate::specs::Numbers::port_of))]
pub fn parse_port(word: &[u8]) -> Result<u16, WordFault>
    ensures value { result ≡ spec.port_of word.now }
    ensures empty { IsErrOf result WordFault.Empty ↔ (length word.now ≡ 0) }
    ensures not_a_number { ¬ IsErrOf result WordFault.NotANumber }
    ensures out_of_range { IsErrOf result WordFault.OutOfRange ↔ IsTrue (is_number word.now && nat_lt 65535 (digits_value 10 word.now)) }
    ensures unknown_name { IsErrOf result WordFault.UnknownName ↔ IsTrue (spec.is_word word.now && not (spec.is_named port_names word.now)) }
{
    if word.is_empty() {
        return Err(WordFault::Empty);
    }
    if !all_digits(word) {
        return port_named(word).ok_or(WordFault::UnknownName);
    }
    match parse_number(word, 0, 65535) {
        Ok(number) => Ok(number as u16),
        Err(fault) => Err(fault),
    }
}

/// The ICMP type that a word means: 0 to 255, or a name.
#[tactic(auto, unfolding(crate::specs::Numbers::icmp_type_of))]
pub fn parse_icmp_type(word: &[u8]) -> Result<u8, WordFault>
    ensures value { result ≡ spec.icmp_type_of word.now }
    ensures empty { IsErrOf result WordFault.Empty ↔ (length word.now ≡ 0) }
    ensures not_a_number { ¬ IsErrOf result WordFault.NotANumber }
    ensures out_of_range { IsErrOf result WordFault.OutOfRange ↔ IsTrue (is_number word.now && nat_lt 255 (digits_value 10 word.now)) }
    ensures unknown_name { IsErrOf result WordFault.UnknownName ↔ IsTrue (spec.is_word word.now && not (spec.is_named icmp_names word.now)) }
{
    if word.is_empty() {
        return Err(WordFault::Empty);
    }
    if !all_digits(word) {
        return icmp_type_named(word).ok_or(WordFault::UnknownName);
    }
    match parse_number(word, 0, 255) {
        Ok(number) => Ok(number as u8),
        Err(fault) => Err(fault),
    }
}

/// The protocol that a word means, which isn't `ip`: 1 to 255, or a name.
fn parse_protocol_number(word: &[u8]) -> Result<u8, WordFault>
    ensures value { result ≡ spec.number_or_name protocol_names 1 255 word.now }
    ensures empty { IsErrOf result WordFault.Empty ↔ (length word.now ≡ 0) }
    ensures not_a_number { ¬ IsErrOf result WordFault.NotANumber }
    ensures out_of_range { IsErrOf result WordFault.OutOfRange
        ↔ IsTrue (is_number word.now && not (is_within 1 255 (digits_value 10 word.now))) }
    ensures unknown_name { IsErrOf result WordFault.UnknownName ↔ IsTrue (spec.is_word word.now && not (spec.is_named protocol_names word.now)) }
{
    if word.is_empty() {
        return Err(WordFault::Empty);
    }
    if !all_digits(word) {
        return protocol_named(word).ok_or(WordFault::UnknownName);
    }
    match parse_number(word, 1, 255) {
        Ok(number) => Ok(number as u8),
        Err(fault) => Err(fault),
    }
}

/// Whether the word is `ip`.
fn is_ip(word: &[u8]) -> bool
    ensures { result ≡ spec.is_ip word.now }
{
    word == b"ip".as_slice()
}

/// The protocol that a word means: None for `ip`, which is every protocol, 1 to 255, or a name.
#[tactic(auto, unfolding(crate::specs::Numbers::proto_of))]
pub fn parse_proto(word: &[u8]) -> Result<Option<u8>, WordFault>
    ensures value { result ≡ spec.proto_of word.now }
    ensures every { (result ≡ Ok None) ↔ IsTrue (spec.is_ip word.now) }
    ensures empty { IsErrOf result WordFault.Empty ↔ (length word.now ≡ 0) }
    ensures not_a_number { ¬ IsErrOf result WordFault.NotANumber }
    ensures out_of_range { IsErrOf result WordFault.OutOfRange
        ↔ IsTrue (is_number word.now && not (is_within 1 255 (digits_value 10 word.now))) }
    ensures unknown_name { IsErrOf result WordFault.UnknownName
        ↔ IsTrue (spec.is_word word.now && not (spec.is_ip word.now) && not (spec.is_named protocol_names word.now)) }
{
    if is_ip(word) {
        return Ok(None);
    }
    match parse_protocol_number(word) {
        Ok(number) => Ok(Some(number)),
        Err(fault) => Err(fault),
    }
}
