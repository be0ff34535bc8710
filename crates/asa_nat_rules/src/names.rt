//! The names that a rule uses.
ghost use Rattle.std.specs.Prelude.{◌≡◌, ◌++◌, IfOk, OnOk};
ghost use Rattle.std.specs.List.{list_any};
ghost use Rattle.std.specs.Option.{option_copied};
ghost use Rattle.std.specs.Str.{bytes_eq};
ghost use Rattle.asa_nat_rules.specs.Names as spec;

use asa_base::Name;
use asa_nat_lines::{MappedRef, PoolRef, RealRef, RuleFields, ServicePart};
use asa_text::Items;
use std::alloc::{AllocError, Global};

/// The real name.
fn real_name(real: &RealRef) -> Option<&Name>
    ensures { option_copied result ≡ spec.real_name real.now }
{
    match real {
        RealRef::Any => None,
        RealRef::Named(name) => Some(name),
    }
}

/// The name that stands first in a pool.
fn first_name(first: &Option<PoolRef>) -> Option<&Name>
    ensures { option_copied result ≡ spec.first_name first.now }
{
    match first {
        Some(PoolRef::Named(name)) => Some(name),
        _ => None,
    }
}

/// The mapped name, or the one that stands first in the pool.
fn mapped_name(mapped: &MappedRef) -> Option<&Name>
    ensures { option_copied result ≡ spec.mapped_name mapped.now }
{
    match mapped {
        MappedRef::Named(name) => Some(name),
        MappedRef::Pool { first, .. } => first_name(first),
        _ => None,
    }
}

/// The name of `pat-pool`.
fn pat_name(mapped: &MappedRef) -> Option<&Name>
    ensures { option_copied result ≡ spec.pat_name mapped.now }
{
    match mapped {
        MappedRef::Pool { pat_pool, .. } => pat_pool.as_ref(),
        _ => None,
    }
}

/// Appends a name, where one stands there.
fn push_name(names: &mut Vec<Name>, name: Option<&Name>) -> Result<(), AllocError>
    ensures { OnOk result (names.new.items ≡ names.old.items ++ spec.name_if_any (option_copied name.entry)) }
{
    if let Some(name) = name {
        names.push(name.copy())?;
    }
    Ok(())
}

/// Appends the mapped, then the real destination.
fn push_dest(names: &mut Vec<Name>, dest: &Option<(Name, Name)>) -> Result<(), AllocError>
    ensures { OnOk result (names.new.items ≡ names.old.items ++ spec.dest_names dest.now) }
{
    if let Some((mapped, real)) = dest {
        names.push(mapped.copy())?;
        names.push(real.copy())?;
    }
    Ok(())
}

/// The network objects and groups that a rule names, in the order real, mapped or first of the pool, `pat-pool`, mapped
/// destination, real destination.
#[tactic(auto, unfolding(crate::specs::Names::names_of))]
pub fn names_of(alloc: Global, rule: &RuleFields) -> Result<Items<Name>, AllocError>
    ensures { IfOk result (λ ns. ns ≡ spec.names_of rule.now) }
{
    let mut names = Vec::new(alloc);
    push_name(&mut names, real_name(&rule.real))?;
    push_name(&mut names, mapped_name(&rule.mapped))?;
    push_name(&mut names, pat_name(&rule.mapped))?;
    push_dest(&mut names, &rule.dest)?;
    Ok(Items::from(names))
}

/// Whether this name stands there.
fn is_named(name: &Name, place: Option<&Name>) -> bool
    ensures { result ≡ spec.is_named name.now (option_copied place.entry) }
{
    match place {
        Some(other) => name == other,
        None => false,
    }
}

/// Whether a destination has this name.
fn is_dest(name: &Name, dest: &Option<(Name, Name)>) -> bool
    ensures { result ≡ list_any (bytes_eq name.now) (spec.dest_names dest.now) }
{
    match dest {
        Some((mapped, real)) => name == mapped || name == real,
        None => false,
    }
}

/// Whether a service has this name.
fn is_service(name: &Name, service: &ServicePart) -> bool
    ensures { result ≡ list_any (bytes_eq name.now) (spec.service_names service.now) }
{
    match service {
        ServicePart::Named { first, second } => name == first || name == second,
        _ => false,
    }
}

/// Whether a rule uses the object or group of this name, of networks or of services. An object's rule uses the object.
#[tactic(auto, unfolding(crate::specs::Names::uses))]
pub fn uses(rule: &RuleFields, name: &Name) -> bool
    ensures { result ≡ spec.uses name.now rule.now }
{
    is_named(name, real_name(&rule.real))
        || is_named(name, mapped_name(&rule.mapped))
        || is_named(name, pat_name(&rule.mapped))
        || is_dest(name, &rule.dest)
        || is_service(name, &rule.service)
}
