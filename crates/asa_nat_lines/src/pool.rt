//! Readers of the pool of a dynamic rule.
ghost use Rattle.std.specs.Prelude.{◌≡◌};
ghost use Rattle.asa_text.specs.Readers.{Reads, next_is};
ghost use Rattle.asa_nat_lines.specs.Pools as spec;

use crate::mapped::{address_or_name, interface_word, network_name};
use crate::rule::{MappedRef, PoolRef};
use asa_base::{Name, Names};
use asa_pool_values::PortRule;
use asa_text::{LineFault, Words};

/// The part of a pool that `pat-pool` begins.
#[derive(Debug, Drop)]
pub(crate) struct PatPart {
    pub(crate) name: Option<Name>,
    pub(crate) ports: PortRule,
    pub(crate) extended: bool,
}

/// Reads the name that stands first in the pool of a manual rule.
#[tactic(auto, unfolding(crate::specs::Pools::first_name_at))]
fn first_name<N: Names>(words: &mut Words<'_>, names: &N) -> Result<Option<PoolRef>, LineFault>
    ensures { Reads result words.new (spec.first_name_at (N.known names.now) words.old) }
{
    let name = network_name(words, names)?;
    Ok(Some(PoolRef::Named(name)))
}

/// Reads the address or the name that stands first in the pool of an object's rule.
#[tactic(auto, unfolding(crate::specs::Pools::first_of_own_at))]
fn first_of_own<N: Names>(words: &mut Words<'_>, names: &N) -> Result<Option<PoolRef>, LineFault>
    ensures { Reads result words.new (spec.first_of_own_at (N.known names.now) words.old) }
{
    let first = address_or_name(words, names)?;
    Ok(Some(first))
}

/// Whether the pool has nothing before `pat-pool` and `interface`.
fn begins_later(words: &Words<'_>) -> bool
    ensures { result ≡ spec.begins_later words.now }
{
    words.next_is(b"pat-pool") || words.next_is(b"interface")
}

/// Reads `[ADDRESS or N]`.
#[tactic(auto, unfolding(crate::specs::Pools::first_at))]
fn first<N: Names>(
    words: &mut Words<'_>,
    names: &N,
    manual: bool,
) -> Result<Option<PoolRef>, LineFault>
    ensures { Reads result words.new (spec.first_at (N.known names.now) manual words.old) }
{
    if begins_later(words) {
        return Ok(None);
    }
    if manual {
        first_name(words, names)
    } else {
        first_of_own(words, names)
    }
}

/// Reads an optional word, and answers whether it stands there.
fn flag(words: &mut Words<'_>, text: &[u8]) -> bool
    ensures value { result ≡ next_is text.now words.old }
    ensures left { words.new ≡ spec.after_if text.now words.old }
{
    if words.next_is(text) {
        let _flag = words.next();
        return true;
    }
    false
}

/// The rule that `flat` and `include-reserve` state.
fn port_rule_of(flat: bool, include_reserve: bool) -> PortRule
    ensures { result ≡ spec.port_rule flat include_reserve }
{
    if include_reserve {
        PortRule::FlatReserve
    } else if flat {
        PortRule::Flat
    } else {
        PortRule::Plain
    }
}

/// Reads `[flat] [include-reserve]`.
fn port_rule(words: &mut Words<'_>) -> PortRule
    ensures value { result ≡ spec.port_rule_at words.old }
    ensures left { words.new ≡ spec.after_port_rule words.old }
{
    let flat = flag(words, b"flat");
    let include_reserve = flag(words, b"include-reserve");
    port_rule_of(flat, include_reserve)
}

/// Reads `N [extended] [flat] [include-reserve]`, after `pat-pool`.
#[tactic(auto, unfolding(crate::specs::Pools::pat_pool_at))]
fn pat_pool<N: Names>(words: &mut Words<'_>, names: &N) -> Result<PatPart, LineFault>
    ensures { Reads result words.new (spec.pat_pool_at (N.known names.now) words.old) }
{
    let name = network_name(words, names)?;
    let extended = flag(words, b"extended");
    let ports = port_rule(words);
    Ok(PatPart {
        name: Some(name),
        ports,
        extended,
    })
}

/// Reads `[pat-pool N [extended] [flat] [include-reserve]]`.
#[tactic(auto, unfolding(crate::specs::Pools::pat_part_at))]
fn pat_part<N: Names>(words: &mut Words<'_>, names: &N) -> Result<PatPart, LineFault>
    ensures { Reads result words.new (spec.pat_part_at (N.known names.now) words.old) }
{
    if words.next_is(b"pat-pool") {
        let _pat_pool = words.next();
        return pat_pool(words, names);
    }
    Ok(PatPart {
        name: None,
        ports: PortRule::Plain,
        extended: false,
    })
}

/// Reads `[interface]`, and answers whether it stands there.
#[tactic(auto, unfolding(crate::specs::Pools::last_at))]
fn last<N: Names>(
    words: &mut Words<'_>,
    names: &N,
    mapped_ifc: Option<u8>,
) -> Result<bool, LineFault>
    ensures { Reads result words.new (spec.last_at (N.known names.now) mapped_ifc words.old) }
{
    if words.next_is(b"interface") {
        interface_word(words, names, mapped_ifc)?;
        return Ok(true);
    }
    Ok(false)
}

/// Reads POOL: `[ADDRESS or N] [pat-pool N [extended] [flat] [include-reserve]] [interface]` with at least one of the
/// three. An address stands in an object's rule alone. `include-reserve` means the same with and without `flat`.
#[tactic(auto, unfolding(crate::specs::Pools::pool_at))]
pub(crate) fn pool<N: Names>(
    words: &mut Words<'_>,
    names: &N,
    manual: bool,
    mapped_ifc: Option<u8>,
) -> Result<MappedRef, LineFault>
    ensures { Reads result words.new (spec.pool_at (N.known names.now) manual mapped_ifc words.old) }
{
    let first = first(words, names, manual)?;
    let pat = pat_part(words, names)?;
    let interface = last(words, names, mapped_ifc)?;
    Ok(MappedRef::Pool {
        first,
        pat_pool: pat.name,
        interface,
        ports: pat.ports,
        extended: pat.extended,
    })
}
