//! Readers of whole `nat` lines.
ghost use Rattle.std.specs.Prelude.{◌≡◌, ◌≤◌, IfSome, IfOk};
ghost use Rattle.std.specs.Option.{option_copied};
ghost use Rattle.asa_text.specs.Readers.{Reads};
ghost use Rattle.asa_nat_lines.specs.Grammar as spec;

use crate::mapped::{destination, manual_mapped, own_mapped, real};
use crate::options::rule_options;
use crate::pair::interfaces;
use crate::pool::pool;
use crate::rule::{MappedRef, NatRule, RealRef, RuleFields, ServicePart};
use crate::service::{manual_service, own_service};
use asa_base::{Name, Names};
use asa_text::{Line, LineFault, Words, keyword, number};

/// A manual rule, and where it goes.
#[derive(Debug, Drop)]
pub struct NewRule {
    /// The place before whose present rule it goes in its section, 1 to 8,192; without one it goes last.
    pub place: Option<u32>,
    pub rule: NatRule,
}

/// What a `nat` line says.
#[derive(Debug, Drop)]
pub enum NatLine {
    /// `nat ..` by itself: the rule comes.
    Insert(NewRule),
    /// `no nat ..` by itself: the equal rule goes.
    Remove(NatRule),
    /// `nat ..` of a network object: the rule is the object's.
    Own(NatRule),
    /// `no nat ..` of a network object: its rule goes, whatever the further words say.
    RemoveOwn,
}

/// What stands before the place of a manual rule.
#[derive(Clone, Copy, Debug)]
struct Heading {
    section: u8,
    real_ifc: Option<u8>,
    mapped_ifc: Option<u8>,
}

/// Reads `static` or `dynamic`, and answers whether it is static.
#[tactic(auto, unfolding(crate::specs::Grammar::manner_at))]
fn manner(words: &mut Words<'_>) -> Result<bool, LineFault>
    ensures { Reads result words.new (spec.manner_at words.old) }
{
    if words.next_is(b"static") {
        let _static = words.next();
        return Ok(true);
    }
    keyword(words, b"dynamic")?;
    Ok(false)
}

/// Reads `[(I,I)] [after-auto]`.
#[tactic(auto, unfolding(crate::specs::Grammar::heading_at))]
fn rule_heading<N: Names>(words: &mut Words<'_>, names: &N) -> Result<Heading, LineFault>
    ensures { Reads result words.new (spec.heading_at (N.known names.now) words.old) }
{
    let (real_ifc, mapped_ifc) = interfaces(words, names)?;
    if words.next_is(b"after-auto") {
        let _after_auto = words.next();
        return Ok(Heading {
            section: 3,
            real_ifc,
            mapped_ifc,
        });
    }
    Ok(Heading {
        section: 1,
        real_ifc,
        mapped_ifc,
    })
}

/// Reads `[L]`.
#[tactic(auto, unfolding(crate::specs::Grammar::place_at))]
fn place(words: &mut Words<'_>) -> Result<Option<u32>, LineFault>
    ensures value { Reads result words.new (spec.place_at words.old) }
    ensures within { IfOk result (λ p. IfSome p (λ n. (1 ≤ n) × (n ≤ 8192))) }
{
    if words.next_is(b"source") {
        return Ok(None);
    }
    let place = number(words, 1, 8192)?;
    Ok(Some(place as u32))
}

/// Reads MAPPED of a static, POOL of a dynamic manual rule.
#[tactic(auto, unfolding(crate::specs::Grammar::manual_to_at))]
fn manual_to<N: Names>(
    words: &mut Words<'_>,
    names: &N,
    is_static: bool,
    mapped_ifc: Option<u8>,
    real: &RealRef,
) -> Result<MappedRef, LineFault>
    ensures { Reads result words.new (spec.manual_to_at (N.known names.now) is_static mapped_ifc real.now words.old) }
{
    if is_static {
        manual_mapped(words, names, mapped_ifc, real)
    } else {
        pool(words, names, true, mapped_ifc)
    }
}

/// Reads `REAL MAPPED|POOL [destination static N N] [service N N] [OPTIONS]`.
#[tactic(auto, unfolding(crate::specs::Grammar::manual_fields_at))]
fn manual_fields<N: Names>(
    words: &mut Words<'_>,
    names: &N,
    heading: Heading,
    is_static: bool,
) -> Result<RuleFields, LineFault>
    ensures { Reads result words.new (spec.manual_fields_at (N.known names.now) heading is_static words.old) }
{
    let real = real(words, names)?;
    let mapped = manual_to(words, names, is_static, heading.mapped_ifc, &real)?;
    let dest = destination(words, names)?;
    let service = manual_service(words, names, is_static, dest.is_some())?;
    let options = rule_options(words, true, is_static)?;
    Ok(RuleFields {
        section: heading.section,
        owner: None,
        real_ifc: heading.real_ifc,
        mapped_ifc: heading.mapped_ifc,
        is_static,
        real,
        mapped,
        dest,
        service,
        unidirectional: options.unidirectional,
        inactive: options.inactive,
        route_lookup: options.route_lookup,
    })
}

/// Reads `source static|dynamic ..`.
#[tactic(auto, unfolding(crate::specs::Grammar::source_at))]
fn source<N: Names>(
    words: &mut Words<'_>,
    names: &N,
    heading: Heading,
) -> Result<RuleFields, LineFault>
    ensures { Reads result words.new (spec.source_at (N.known names.now) heading words.old) }
{
    keyword(words, b"source")?;
    let is_static = manner(words)?;
    manual_fields(words, names, heading, is_static)
}

/// Reads a manual rule (twice NAT) from the word after `nat` to the line's end:
/// `[(I,I)] [after-auto] [L] source static REAL MAPPED [destination static N N] [service N N] [OPTIONS]`, or the same with
/// `source dynamic REAL POOL`.
///
/// A word that has none of the forms of its place, is missing or is out of range is Bad, as are a name of the wrong kind,
/// `interface` where the mapped interface has no address, `any` beside another word in a static rule, and services that
/// make the rule wrong. Options and destinations that the device has and that are left out here are Unsupported, as is an
/// IPv6 address where an address may stand. A name that isn't defined is Unknown, an interface that none has is
/// NoSuchInterface. Nothing takes memory.
#[tactic(auto, unfolding(crate::specs::Grammar::manual_rule_at))]
pub fn manual_rule<N: Names>(words: &mut Words<'_>, names: &N) -> Result<NewRule, LineFault>
    ensures value { Reads result words.new (spec.manual_rule_at (N.known names.now) words.old) }
    ensures within { IfOk result (λ new. IfSome new.place (λ n. (1 ≤ n) × (n ≤ 8192))) }
{
    let heading = rule_heading(words, names)?;
    let place = place(words)?;
    let fields = source(words, names, heading)?;
    Ok(NewRule {
        place,
        rule: NatRule::new(fields),
    })
}

/// Reads a manual rule that is removed, from the word after `no nat` to the line's end. A place is Bad; for the rest see
/// `manual_rule`.
#[tactic(auto, unfolding(crate::specs::Grammar::removed_rule_at))]
pub fn removed_rule<N: Names>(words: &mut Words<'_>, names: &N) -> Result<NatRule, LineFault>
    ensures { Reads result words.new (spec.removed_rule_at (N.known names.now) words.old) }
{
    let heading = rule_heading(words, names)?;
    let fields = source(words, names, heading)?;
    Ok(NatRule::new(fields))
}

/// Reads MAPPED of a static, POOL of a dynamic rule of an object.
#[tactic(auto, unfolding(crate::specs::Grammar::own_to_at))]
fn own_to<N: Names>(
    words: &mut Words<'_>,
    names: &N,
    is_static: bool,
    mapped_ifc: Option<u8>,
) -> Result<MappedRef, LineFault>
    ensures { Reads result words.new (spec.own_to_at (N.known names.now) is_static mapped_ifc words.old) }
{
    if is_static {
        own_mapped(words, names, mapped_ifc)
    } else {
        pool(words, names, false, mapped_ifc)
    }
}

/// Reads the service of a static rule of an object.
#[tactic(auto, unfolding(crate::specs::Grammar::own_ports_part_at))]
fn own_ports_part(words: &mut Words<'_>, is_static: bool) -> Result<ServicePart, LineFault>
    ensures { Reads result words.new (spec.own_ports_part_at is_static words.old) }
{
    if is_static {
        return own_service(words);
    }
    Ok(ServicePart::None)
}

/// Reads `MAPPED [service tcp|udp P P] [OPTIONS]` or `POOL [OPTIONS]`.
#[tactic(auto, unfolding(crate::specs::Grammar::own_fields_at))]
fn own_fields<N: Names>(
    words: &mut Words<'_>,
    names: &N,
    owner: &Name,
    real_ifc: Option<u8>,
    mapped_ifc: Option<u8>,
    is_static: bool,
) -> Result<RuleFields, LineFault>
    ensures { Reads result words.new (spec.own_fields_at (N.known names.now) owner.now real_ifc mapped_ifc is_static words.old) }
{
    let mapped = own_to(words, names, is_static, mapped_ifc)?;
    let service = own_ports_part(words, is_static)?;
    let options = rule_options(words, false, is_static)?;
    Ok(RuleFields {
        section: 2,
        owner: Some(owner.copy()),
        real_ifc,
        mapped_ifc,
        is_static,
        real: RealRef::Named(owner.copy()),
        mapped,
        dest: None,
        service,
        unidirectional: options.unidirectional,
        inactive: options.inactive,
        route_lookup: options.route_lookup,
    })
}

/// Reads the rule of a network object (network object NAT) from the word after `nat` to the line's end:
/// `[(I,I)] static MAPPED [service tcp|udp P P] [OPTIONS]` or `[(I,I)] dynamic POOL [OPTIONS]`. The object's own name has
/// to be known. For the faults see `manual_rule`.
#[tactic(auto, unfolding(crate::specs::Grammar::own_rule_at))]
pub fn own_rule<N: Names>(
    words: &mut Words<'_>,
    names: &N,
    owner: &Name,
) -> Result<NatRule, LineFault>
    ensures { Reads result words.new (spec.own_rule_at (N.known names.now) owner.now words.old) }
{
    let (real_ifc, mapped_ifc) = interfaces(words, names)?;
    let is_static = manner(words)?;
    let fields = own_fields(words, names, owner, real_ifc, mapped_ifc, is_static)?;
    Ok(NatRule::new(fields))
}

/// Reads a manual line.
#[tactic(auto, unfolding(crate::specs::Grammar::manual_line_at))]
fn manual_line<N: Names>(words: &mut Words<'_>, names: &N) -> Result<NatLine, LineFault>
    ensures { Reads result words.new (spec.manual_line_at (N.known names.now) words.old) }
{
    if words.next_is(b"no") {
        let _no = words.next();
        keyword(words, b"nat")?;
        let rule = removed_rule(words, names)?;
        return Ok(NatLine::Remove(rule));
    }
    keyword(words, b"nat")?;
    let new = manual_rule(words, names)?;
    Ok(NatLine::Insert(new))
}

/// Reads a line of the object of this name.
#[tactic(auto, unfolding(crate::specs::Grammar::own_line_at))]
fn own_line<N: Names>(words: &mut Words<'_>, names: &N, owner: &Name) -> Result<NatLine, LineFault>
    ensures { Reads result words.new (spec.own_line_at (N.known names.now) owner.now words.old) }
{
    if words.next_is(b"no") {
        let _no = words.next();
        keyword(words, b"nat")?;
        return Ok(NatLine::RemoveOwn);
    }
    keyword(words, b"nat")?;
    let rule = own_rule(words, names, owner)?;
    Ok(NatLine::Own(rule))
}

/// Reads a whole line that begins with `nat` or `no nat`: a line of the network object `owner`, or a manual rule where
/// there is none. See `own_rule` and `manual_rule`.
#[tactic(auto, unfolding(crate::specs::Grammar::nat_line, crate::specs::Grammar::nat_line_at))]
pub fn parse_nat<N: Names>(
    line: &Line,
    owner: Option<&Name>,
    names: &N,
) -> Result<NatLine, LineFault>
    ensures { result ≡ spec.nat_line (N.known names.now) (option_copied owner.entry) line.now.text }
{
    let mut words = Words::of(line.text.as_bytes());
    match owner {
        Some(owner) => own_line(&mut words, names, owner),
        None => manual_line(&mut words, names),
    }
}
