//! What a word means as a number, an address or a mask.
ghost use Rattle.std.specs.Prelude.{◌≡◌, ◌+◌, ◌-◌, ◌*◌, ◌^◌, ◌<◌, ◌≤◌, ◌==◌, ◌↔◌, false, not, nat_lt, nat_le, length, IsTrue, IfSome, IfNone, IfOk, IsErrOf, Ok, ◌&&◌};
ghost use Rattle.std.specs.List.{list_all};
ghost use Rattle.std.specs.Option.{SomeIff};
ghost use Rattle.std.specs.Char.{digit_value};
ghost use Rattle.std.specs.Str.Parse.{digits_value};
ghost use Rattle.asa_text.specs.Numbers as spec;
ghost use Rattle.asa_text.specs.Runs.{runs_of};

use crate::runs::cut_run;

/// An IPv4 address, its first octet the highest.
#[derive(Clone, Copy, Debug, Default, PartialEq, Eq, PartialOrd, Ord, Hash)]
pub struct Addr(pub u32);

/// Why a word isn't a value of the wanted form.
#[derive(Clone, Copy, Debug, PartialEq, Eq)]
pub enum WordFault {
    /// The word has no byte.
    Empty,
    /// The word doesn't have the form.
    NotANumber,
    /// The word has the form, and what it means is out of range.
    OutOfRange,
    /// The word is no name of the table.
    UnknownName,
}

/// Whether the byte is an ASCII digit.
pub fn is_digit(byte: u8) -> bool
    ensures { result ≡ spec.is_digit byte }
{
    byte >= b'0' && byte <= b'9'
}

/// Whether each byte is a digit.
fn all_digits(word: &[u8]) -> bool
    ensures { result ≡ list_all spec.is_digit word.now }
{
    word.iter().all(|b| is_digit(*b))
}

#[tactic(auto, using(crate::proofs::NumberLaws::value_more, crate::proofs::NumberLaws::value_le))]
/// The decimal number of these digits, where it is below 2^64.
fn number_of_digits(word: &[u8]) -> Option<u64>
    requires { IsTrue (list_all spec.is_digit word.now) }
    ensures { SomeIff result (digits_value 10 word.now < 2 ^ 64) (digits_value 10 word.now) }
{
    let mut value: u64 = 0;
    for b in word {
        match with_digit(value, *b) {
            Some(more) => value = more,
            None => return None,
        }
    }
    Some(value)
}

/// The number with one more digit at its end, where it is below 2^64.
fn with_digit(value: u64, digit: u8) -> Option<u64>
    requires { IsTrue (spec.is_digit digit) }
    ensures { SomeIff result (value * 10 + digit_value digit < 2 ^ 64) (value * 10 + digit_value digit) }
{
    value.checked_mul(10)?.checked_add(u64::from(digit - b'0'))
}

#[tactic(auto, using(crate::proofs::NumberLaws::empty_digits), unfolding(crate::specs::Numbers::number_of))]
/// The decimal number of a word, from `least` to `greatest`. Leading zeros are allowed.
pub fn parse_number(word: &[u8], least: u64, greatest: u64) -> Result<u64, WordFault>
    ensures value { result ≡ spec.number_of word.now least greatest }
    ensures within { IfOk result (λ n. (least ≤ n) × (n ≤ greatest)) }
    ensures empty { IsErrOf result WordFault.Empty ↔ (length word.now ≡ 0) }
    ensures not_a_number { IsErrOf result WordFault.NotANumber ↔ IsTrue (not (list_all spec.is_digit word.now)) }
    ensures out_of_range { IsErrOf result WordFault.OutOfRange
        ↔ IsTrue (spec.is_number word.now && not (spec.is_within least greatest (digits_value 10 word.now))) }
    ensures no_name { ¬ IsErrOf result WordFault.UnknownName }
{
    if word.is_empty() {
        return Err(WordFault::Empty);
    }
    if !all_digits(word) {
        return Err(WordFault::NotANumber);
    }
    match number_of_digits(word) {
        Some(value) if least <= value && value <= greatest => Ok(value),
        _ => Err(WordFault::OutOfRange),
    }
}

/// The four runs of a word that are joined by its three dots.
#[derive(Drop)]
struct Runs<'a> {
    first: &'a [u8],
    second: &'a [u8],
    third: &'a [u8],
    fourth: &'a [u8],
}

/// The runs of a word, where there are four.
#[tactic(auto, using(crate::proofs::NumberLaws::runs_some))]
fn four_runs(word: &[u8]) -> Option<Runs<'_>>
    ensures none { IfNone result ((length (spec.runs word.now) == 4) ≡ false) }
    ensures four { IfSome result (λ r. spec.runs word.now ≡ runs_of r) }
{
    let (first, rest) = cut_run(word, b'.');
    let (second, rest) = cut_run(rest?, b'.');
    let (third, rest) = cut_run(rest?, b'.');
    let (fourth, rest) = cut_run(rest?, b'.');
    match rest {
        None => Some(Runs {
            first,
            second,
            third,
            fourth,
        }),
        Some(_) => None,
    }
}

/// Whether the run has a byte, and each is a digit.
fn is_number(run: &[u8]) -> bool
    ensures { result ≡ spec.is_number run.now }
{
    !run.is_empty() && all_digits(run)
}

/// The byte that a run of digits stands for, where it has at most three digits and isn't above 255.
fn octet(run: &[u8]) -> Option<u8>
    requires { IsTrue (spec.is_number run.now) }
    ensures { SomeIff result (IsTrue (spec.is_octet run.now)) (digits_value 10 run.now) }
{
    if run.len() > 3 {
        return None;
    }
    match number_of_digits(run) {
        Some(value) if value <= 255 => Some(value as u8),
        _ => None,
    }
}

impl Runs<'_> {
    /// Whether each of them is a number.
    fn are_numbers(&self) -> bool
        ensures { result ≡ list_all spec.is_number (runs_of self.now) }
    {
        is_number(self.first)
            && is_number(self.second)
            && is_number(self.third)
            && is_number(self.fourth)
    }

    /// The number that they stand for as octets.
    fn value(&self) -> Option<u32>
        requires { IsTrue (list_all spec.is_number (runs_of self.now)) }
        ensures { SomeIff result (IsTrue (list_all spec.is_octet (runs_of self.now))) (spec.octets_value (runs_of self.now)) }
    {
        let first = u32::from(octet(self.first)?);
        let second = u32::from(octet(self.second)?);
        let third = u32::from(octet(self.third)?);
        let fourth = u32::from(octet(self.fourth)?);
        Some(((first * 256 + second) * 256 + third) * 256 + fourth)
    }
}

/// The address of a word: four runs of digits joined by three dots. A run is at most three digits long and not above
/// 255; leading zeros are allowed.
#[tactic(auto, unfolding(crate::specs::Numbers::address_of))]
pub fn parse_addr(word: &[u8]) -> Result<Addr, WordFault>
    ensures value { result ≡ spec.address_of word.now }
    ensures empty { IsErrOf result WordFault.Empty ↔ (length word.now ≡ 0) }
    ensures not_a_number { IsErrOf result WordFault.NotANumber
        ↔ IsTrue (not (length word.now == 0) && not (spec.has_address_form word.now)) }
    ensures out_of_range { IsErrOf result WordFault.OutOfRange
        ↔ IsTrue (spec.has_address_form word.now && not (list_all spec.is_octet (spec.runs word.now))) }
    ensures no_name { ¬ IsErrOf result WordFault.UnknownName }
{
    if word.is_empty() {
        return Err(WordFault::Empty);
    }
    match four_runs(word) {
        None => Err(WordFault::NotANumber),
        Some(runs) => address_of_runs(&runs),
    }
}

/// The address of four runs.
fn address_of_runs(runs: &Runs<'_>) -> Result<Addr, WordFault>
    ensures value { result ≡ spec.address_of_runs (runs_of runs.now) }
    ensures no_name { ¬ IsErrOf result WordFault.UnknownName }
{
    if !runs.are_numbers() {
        return Err(WordFault::NotANumber);
    }
    match runs.value() {
        Some(value) => Ok(Addr(value)),
        None => Err(WordFault::OutOfRange),
    }
}

/// The 32 bits of a mask with this many ones, followed by zeros.
pub fn mask_bits(ones: u8) -> u32
    requires { ones ≤ 32 }
    ensures { result ≡ spec.mask_bits ones }
{
    let above = (1u64 << 32) - (1u64 << (32 - ones));
    above as u32
}

#[tactic(auto, unfolding(crate::specs::Numbers::ones_of))]
/// How many ones a mask has, where its bits are ones followed by zeros.
fn ones_of(bits: u32) -> Option<u8>
    ensures value { result ≡ spec.ones_of bits }
    ensures few { IfSome result (λ ones. ones ≤ 32) }
{
    for ones in 0..33u8 {
        if mask_bits(ones) == bits {
            return Some(ones);
        }
    }
    None
}

/// The number of ones of a word that is a mask: an address whose bits are ones followed by zeros.
#[tactic(auto, unfolding(crate::specs::Numbers::mask_of))]
pub fn parse_mask(word: &[u8]) -> Result<u8, WordFault>
    ensures value { result ≡ spec.mask_of word.now }
    ensures few { IfOk result (λ ones. ones ≤ 32) }
    ensures empty { IsErrOf result WordFault.Empty ↔ (length word.now ≡ 0) }
    ensures not_a_number { IsErrOf result WordFault.NotANumber
        ↔ IsTrue (not (length word.now == 0) && not (spec.has_address_form word.now)) }
    ensures no_name { ¬ IsErrOf result WordFault.UnknownName }
{
    let addr = parse_addr(word)?;
    match ones_of(addr.0) {
        Some(ones) => Ok(ones),
        None => Err(WordFault::OutOfRange),
    }
}
