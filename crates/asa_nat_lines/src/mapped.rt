//! Readers of the real and the mapped addresses of a rule, and of its destination.
ghost use Rattle.std.specs.Prelude.{◌≡◌, ◌==◌};
ghost use Rattle.std.specs.List.{list_any};
ghost use Rattle.asa_text.specs.Readers.{Reads};
ghost use Rattle.asa_nat_lines.specs.Mapped as spec;

use crate::rule::{MappedRef, PoolRef, RealRef};
use asa_base::{Kind, Name, Names, named, parse_addr};
use asa_text::{LineFault, Words, address, keyword};

/// Reads the name of a network object or group.
#[tactic(auto, unfolding(crate::specs::Mapped::network_name_at))]
pub(crate) fn network_name<N: Names>(words: &mut Words<'_>, names: &N) -> Result<Name, LineFault>
    ensures { Reads result words.new (spec.network_name_at (N.known names.now) words.old) }
{
    let (name, _) = named(words, names, &[Kind::NetObject, Kind::NetGroup])?;
    Ok(name)
}

/// Reads REAL: `any`, or the name of a network object or group.
#[tactic(auto, unfolding(crate::specs::Mapped::real_at))]
pub(crate) fn real<N: Names>(words: &mut Words<'_>, names: &N) -> Result<RealRef, LineFault>
    ensures { Reads result words.new (spec.real_at (N.known names.now) words.old) }
{
    if words.next_is(b"any") {
        let _any = words.next();
        return Ok(RealRef::Any);
    }
    let name = network_name(words, names)?;
    Ok(RealRef::Named(name))
}

/// Whether the mapped interface has an address.
fn has_address<N: Names>(names: &N, mapped_ifc: Option<u8>) -> bool
    ensures { result ≡ spec.has_address (N.known names.now) mapped_ifc }
{
    match mapped_ifc {
        Some(ifc) => names.address_of(ifc).is_some(),
        None => false,
    }
}

/// Reads the word `interface`; where the mapped interface has no address, it is Bad.
#[tactic(auto, unfolding(crate::specs::Mapped::interface_word_at))]
pub(crate) fn interface_word<N: Names>(
    words: &mut Words<'_>,
    names: &N,
    mapped_ifc: Option<u8>,
) -> Result<(), LineFault>
    ensures { Reads result words.new (spec.interface_word_at (N.known names.now) mapped_ifc words.old) }
{
    if !has_address(names, mapped_ifc) {
        return Err(LineFault::Bad {
            column: words.column(),
        });
    }
    keyword(words, b"interface")
}

/// Reads MAPPED as `interface`.
#[tactic(auto, unfolding(crate::specs::Mapped::own_address_at))]
fn own_address<N: Names>(
    words: &mut Words<'_>,
    names: &N,
    mapped_ifc: Option<u8>,
) -> Result<MappedRef, LineFault>
    ensures { Reads result words.new (spec.own_address_at (N.known names.now) mapped_ifc words.old) }
{
    interface_word(words, names, mapped_ifc)?;
    Ok(MappedRef::Interface)
}

/// Reads MAPPED as the name of a network object or group.
#[tactic(auto, unfolding(crate::specs::Mapped::mapped_name_at))]
fn mapped_name<N: Names>(words: &mut Words<'_>, names: &N) -> Result<MappedRef, LineFault>
    ensures { Reads result words.new (spec.mapped_name_at (N.known names.now) words.old) }
{
    let name = network_name(words, names)?;
    Ok(MappedRef::Named(name))
}

/// Reads MAPPED as `any`.
#[tactic(auto, unfolding(crate::specs::Mapped::mapped_any_at))]
fn mapped_any(words: &mut Words<'_>) -> Result<MappedRef, LineFault>
    ensures { Reads result words.new (spec.mapped_any_at words.old) }
{
    keyword(words, b"any")?;
    Ok(MappedRef::Any)
}

/// Reads MAPPED of a static manual rule: a network object or group, `interface`, or `any`, which stands with a real
/// `any` alone.
#[tactic(auto, unfolding(crate::specs::Mapped::manual_mapped_at))]
pub(crate) fn manual_mapped<N: Names>(
    words: &mut Words<'_>,
    names: &N,
    mapped_ifc: Option<u8>,
    real: &RealRef,
) -> Result<MappedRef, LineFault>
    ensures { Reads result words.new (spec.manual_mapped_at (N.known names.now) mapped_ifc real.now words.old) }
{
    if let RealRef::Any = real {
        return mapped_any(words);
    }
    if words.next_is(b"any") {
        return Err(LineFault::Bad {
            column: words.column(),
        });
    }
    if words.next_is(b"interface") {
        return own_address(words, names, mapped_ifc);
    }
    mapped_name(words, names)
}

/// Whether the word has a `:`.
fn has_colon(word: &[u8]) -> bool
    ensures { result ≡ list_any (λ b. b == 58) word.now }
{
    word.iter().any(|b| *b == b':')
}

/// Whether the word is read as an address: it is one, or it has a `:` as an IPv6 address has.
fn is_address_word(word: &[u8]) -> bool
    ensures { result ≡ spec.is_address_word word.now }
{
    has_colon(word) || parse_addr(word).is_ok()
}

/// Whether such a word comes next.
fn next_is_address(words: &Words<'_>) -> bool
    ensures { result ≡ spec.next_is_address words.now }
{
    match words.peek() {
        Some(word) => is_address_word(word.bytes()),
        None => false,
    }
}

/// Reads an address, or else the name of a network object or group. A word with a `:` is Unsupported.
#[tactic(auto, unfolding(crate::specs::Mapped::address_or_name_at))]
pub(crate) fn address_or_name<N: Names>(
    words: &mut Words<'_>,
    names: &N,
) -> Result<PoolRef, LineFault>
    ensures { Reads result words.new (spec.address_or_name_at (N.known names.now) words.old) }
{
    if next_is_address(words) {
        let addr = address(words)?;
        return Ok(PoolRef::Addr(addr));
    }
    let name = network_name(words, names)?;
    Ok(PoolRef::Named(name))
}

/// A static MAPPED of an address or a name.
fn mapped_of(to: PoolRef) -> MappedRef
    ensures { result ≡ spec.mapped_of to }
{
    match to {
        PoolRef::Addr(addr) => MappedRef::Addr(addr),
        PoolRef::Named(name) => MappedRef::Named(name),
    }
}

/// Reads MAPPED of an object's static rule: `interface`, an address, or a network object or group.
#[tactic(auto, unfolding(crate::specs::Mapped::own_mapped_at))]
pub(crate) fn own_mapped<N: Names>(
    words: &mut Words<'_>,
    names: &N,
    mapped_ifc: Option<u8>,
) -> Result<MappedRef, LineFault>
    ensures { Reads result words.new (spec.own_mapped_at (N.known names.now) mapped_ifc words.old) }
{
    if words.next_is(b"interface") {
        return own_address(words, names, mapped_ifc);
    }
    let to = address_or_name(words, names)?;
    Ok(mapped_of(to))
}

/// The mapped destination isn't `interface`, which is Unsupported.
#[tactic(auto, unfolding(crate::specs::Mapped::no_interface_at))]
fn no_interface(words: &Words<'_>) -> Result<(), LineFault>
    ensures { Reads result words.now (spec.no_interface_at words.now) }
{
    if words.next_is(b"interface") {
        return Err(LineFault::Unsupported {
            column: words.column(),
        });
    }
    Ok(())
}

/// Reads `static N N`, after `destination`.
#[tactic(auto, unfolding(crate::specs::Mapped::dest_names_at))]
fn dest_names<N: Names>(words: &mut Words<'_>, names: &N) -> Result<Option<(Name, Name)>, LineFault>
    ensures { Reads result words.new (spec.dest_names_at (N.known names.now) words.old) }
{
    keyword(words, b"static")?;
    no_interface(words)?;
    let mapped = network_name(words, names)?;
    let real = network_name(words, names)?;
    Ok(Some((mapped, real)))
}

/// Reads `[destination static N N]`: the mapped, then the real destination.
#[tactic(auto, unfolding(crate::specs::Mapped::dest_at))]
pub(crate) fn destination<N: Names>(
    words: &mut Words<'_>,
    names: &N,
) -> Result<Option<(Name, Name)>, LineFault>
    ensures { Reads result words.new (spec.dest_at (N.known names.now) words.old) }
{
    if words.next_is(b"destination") {
        let _destination = words.next();
        return dest_names(words, names);
    }
    Ok(None)
}
