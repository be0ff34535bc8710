//! Readers of ports, protocols and ICMP types: each takes its words from a cursor.
ghost use Rattle.std.specs.Prelude.{◌≡◌, ◌<◌, [], ◌∷◌, ◌++◌};
ghost use Rattle.std.specs.Str.{bytes_eq};
ghost use Rattle.asa_text.specs.Readers.{Reads};
ghost use Rattle.asa_base.specs.Ranges.{only_port};
ghost use Rattle.asa_base.specs.Readers as spec;

use crate::range::{PortRange, Ports};
use asa_text::{LineFault, Words, number};
use asa_text_names::{parse_icmp_type, parse_port, parse_proto};

/// Reads a port: digits or a name.
#[tactic(auto, unfolding(crate::specs::Readers::port_word_at))]
pub fn port(words: &mut Words<'_>) -> Result<u16, LineFault>
    ensures { Reads result words.new (spec.port_word_at words.old) }
{
    let word = words.word()?;
    match parse_port(word.bytes()) {
        Ok(port) => Ok(port),
        Err(_) => Err(word.bad()),
    }
}

/// Reads a protocol: None for `ip`, which is every protocol, digits from 1 to 255, or a name.
#[tactic(auto, unfolding(crate::specs::Readers::protocol_at))]
pub fn protocol(words: &mut Words<'_>) -> Result<Option<u8>, LineFault>
    ensures { Reads result words.new (spec.protocol_at words.old) }
{
    let word = words.word()?;
    match parse_proto(word.bytes()) {
        Ok(proto) => Ok(proto),
        Err(_) => Err(word.bad()),
    }
}

/// Reads an ICMP type: digits from 0 to 255, or a name.
#[tactic(auto, unfolding(crate::specs::Readers::icmp_type_at))]
pub fn icmp_type(words: &mut Words<'_>) -> Result<u8, LineFault>
    ensures { Reads result words.new (spec.icmp_type_at words.old) }
{
    let word = words.word()?;
    match parse_icmp_type(word.bytes()) {
        Ok(itype) => Ok(itype),
        Err(_) => Err(word.bad()),
    }
}

/// Reads an ICMP code: digits from 0 to 255.
pub fn icmp_code(words: &mut Words<'_>) -> Result<u8, LineFault>
    ensures { Reads result words.new (spec.icmp_code_at words.old) }
{
    match number(words, 0, 255) {
        Ok(code) => Ok(code as u8),
        Err(fault) => Err(fault),
    }
}

/// Whether the next word says how ports are stated: `eq`, `lt`, `gt`, `neq` or `range`.
pub fn states_ports(words: &Words<'_>) -> bool
    ensures { result ≡ spec.states_ports words.now }
{
    words.next_is(b"eq")
        || words.next_is(b"lt")
        || words.next_is(b"gt")
        || words.next_is(b"neq")
        || words.next_is(b"range")
}

/// Reads the port of `eq`.
fn equal_port(words: &mut Words<'_>) -> Result<Ports, LineFault>
    ensures { Reads result words.new (spec.ports_by (λ p. only_port p ∷ []) words.old) }
{
    let port = port(words)?;
    Ok(Ports::one(PortRange::only(port)))
}

/// The ports below one that isn't 0.
fn below(port: u16) -> PortRange
    requires { 0 < port }
    ensures value { result ∷ [] ≡ spec.ports_below port }
    ensures before { result.last < port }
{
    PortRange {
        first: 0,
        last: port - 1,
    }
}

/// The ports above one that isn't the last.
fn above(port: u16) -> PortRange
    requires { port < 65535 }
    ensures value { result ∷ [] ≡ spec.ports_above port }
    ensures after { port < result.first }
{
    PortRange {
        first: port + 1,
        last: u16::MAX,
    }
}

/// Reads the port of `lt`.
fn ports_below(words: &mut Words<'_>) -> Result<Ports, LineFault>
    ensures { Reads result words.new (spec.ports_by spec.ports_below words.old) }
{
    let column = words.column();
    let port = port(words)?;
    if port == 0 {
        return Err(LineFault::Bad { column });
    }
    Ok(Ports::one(below(port)))
}

/// Reads the port of `gt`.
fn ports_above(words: &mut Words<'_>) -> Result<Ports, LineFault>
    ensures { Reads result words.new (spec.ports_by spec.ports_above words.old) }
{
    let column = words.column();
    let port = port(words)?;
    if port == u16::MAX {
        return Err(LineFault::Bad { column });
    }
    Ok(Ports::one(above(port)))
}

/// The ports but one.
fn all_but(port: u16) -> Ports
    ensures { result ≡ spec.ports_below port ++ spec.ports_above port }
{
    if port == 0 {
        return Ports::one(above(port));
    }
    if port == u16::MAX {
        return Ports::one(below(port));
    }
    Ports::two(below(port), above(port))
}

/// Reads the port of `neq`.
#[tactic(auto, using(crate::proofs::PortLaws::some_but))]
fn ports_but(words: &mut Words<'_>) -> Result<Ports, LineFault>
    ensures { Reads result words.new (spec.ports_by (λ p. spec.ports_below p ++ spec.ports_above p) words.old) }
{
    let port = port(words)?;
    Ok(all_but(port))
}

/// Reads the last port of `range`.
fn last_port(words: &mut Words<'_>, first: u16) -> Result<Ports, LineFault>
    ensures { Reads result words.new (spec.ports_by (spec.ports_between first) words.old) }
{
    let column = words.column();
    let last = port(words)?;
    if last < first {
        return Err(LineFault::Bad { column });
    }
    Ok(Ports::one(PortRange { first, last }))
}

/// Reads the two ports of `range`.
#[tactic(auto, unfolding(crate::specs::Readers::port_span_at))]
fn port_span(words: &mut Words<'_>) -> Result<Ports, LineFault>
    ensures { Reads result words.new (spec.port_span_at words.old) }
{
    let first = port(words)?;
    last_port(words, first)
}

/// Reads `eq P`, `lt P`, `gt P`, `neq P` or `range P P`. `lt 0`, `gt 65535` and a range whose first port is above its
/// last are Bad at the last number.
#[tactic(auto, unfolding(crate::specs::Readers::ports_at))]
pub fn ports(words: &mut Words<'_>) -> Result<Ports, LineFault>
    ensures { Reads result words.new (spec.ports_at words.old) }
{
    let word = words.word()?;
    if word.is(b"eq") {
        equal_port(words)
    } else if word.is(b"lt") {
        ports_below(words)
    } else if word.is(b"gt") {
        ports_above(words)
    } else if word.is(b"neq") {
        ports_but(words)
    } else if word.is(b"range") {
        port_span(words)
    } else {
        Err(word.bad())
    }
}
