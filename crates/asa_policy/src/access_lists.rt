//! The lists of a configuration that are bound somewhere, with their entries and the sides that they are bound to.
ghost use Rattle.std.specs.Prelude.{◌≡◌, ℕ, Bool, List, ◌≤◌, ◌<◌, [], ◌∷◌, ◌++◌, ◌+◌, IfOk, OnOk, IfSome, Some, length, map, option_and_then, position, slice_get};
ghost use Rattle.std.specs.Option.{option_copied};
ghost use Rattle.std.specs.Str.{bytes_eq};
ghost use Rattle.asa_base.specs.declared.flow.Packet.{Packet as AnyPacket};
ghost use Rattle.asa_access.specs.Lists.{covering_in, has_side, match_of};
ghost use Rattle.asa_acl_boxes.specs.Pairs.{list_pairs};
ghost use Rattle.asa_config.specs.Names.{meanings_of};
ghost use Rattle.asa_config.specs.Settings.{bound_to, has_name, same_side};
ghost use Rattle.asa_policy.specs.Access.{covering_under, match_in};
ghost use Rattle.asa_policy.specs.AccessLists as spec;

use asa_access::AccessList;
use asa_access_entries::entries_of;
use asa_acl::Acl;
use asa_base::Name;
use asa_config::Config;
use asa_text::Items;
use std::alloc::{AllocError, Global};

/// Whether the two sides of interfaces are the same.
fn is_same_side(a: (u8, bool), b: (u8, bool)) -> bool
    ensures { result ≡ same_side a b }
{
    a.0 == b.0 && a.1 == b.1
}

/// The name of the list that is bound to a side of an interface.
fn name_at(bound: &[((u8, bool), Name)], side: (u8, bool)) -> Option<&Name>
    ensures { option_copied result ≡ bound_to bound.now side }
{
    for (bound_side, name) in bound {
        if is_same_side(side, *bound_side) {
            return Some(name);
        }
    }
    None
}

/// Whether the list of this name is bound to the side.
fn is_bound_at(bound: &[((u8, bool), Name)], name: &Name, side: (u8, bool)) -> bool
    ensures { result ≡ spec.is_bound_at bound.now name.now side }
{
    match name_at(bound, side) {
        Some(bound) => bound == name,
        None => false,
    }
}

/// Whether a binding names this list.
fn names(binding: &((u8, bool), Name), name: &Name) -> bool
    ensures { result ≡ bytes_eq binding.now.1 name.now }
{
    binding.1 == *name
}

/// Whether a binding names this list, and is the one that counts at its side.
fn binds(bound: &[((u8, bool), Name)], name: &Name, binding: &((u8, bool), Name)) -> bool
    ensures { result ≡ spec.binds bound.now name.now binding.now }
{
    names(binding, name) && is_bound_at(bound, name, binding.0)
}

/// Appends the side of a binding, if the list of this name is bound to it.
fn push_side(
    sides: &mut Items<(u8, bool)>,
    bound: &[((u8, bool), Name)],
    name: &Name,
    binding: &((u8, bool), Name),
) -> Result<(), AllocError>
    ensures { OnOk result (sides.new ≡ sides.old ++ spec.side_if (spec.binds bound.now name.now binding.now) binding.now.0) }
{
    if binds(bound, name, binding) {
        sides.push(binding.0)?;
    }
    Ok(())
}

/// The sides that the list of this name is bound to.
fn sides_of(
    alloc: Global,
    bound: &[((u8, bool), Name)],
    name: &Name,
) -> Result<Items<(u8, bool)>, AllocError>
    ensures { IfOk result (λ v. v ≡ spec.sides_of bound.now name.now) }
{
    let mut sides = Items::new(alloc);
    for binding in bound {
        push_side(&mut sides, bound, name, binding)?;
    }
    Ok(sides)
}

/// A list with its entries and the sides that it is bound to.
#[tactic(auto, using(crate::proofs::GatherLaws::side_law))]
fn access_list(alloc: Global, config: &Config, list: &Acl) -> Result<AccessList, AllocError>
    requires { list_pairs (meanings_of config.now) list.now.lines ≤ 262144 }
    ensures first { IfOk result (λ l. (p : AnyPacket) → match_of p l ≡ match_in config.now p list.now) }
    ensures sides { IfOk result (λ l. (side : ℕ × Bool) → has_side side l ≡ spec.is_bound_at config.now.bound list.now.name side) }
    ensures covering { IfOk result (λ l. (p : AnyPacket) → covering_in p l ≡ covering_under config.now p list.now) }
    ensures named { IfOk result (λ l. l.name ≡ list.now.name) }
{
    let boxes = config.boxes(alloc, list)?;
    let entries = entries_of(alloc, boxes.as_slice())?;
    let bound = sides_of(alloc, config.bindings(), list.name())?;
    Ok(AccessList {
        name: list.name().copy(),
        entries,
        bound,
    })
}

/// Appends a list, with its entries and its sides.
fn push_list(
    alloc: Global,
    lists: &mut Vec<AccessList>,
    config: &Config,
    list: &Acl,
) -> Result<(), AllocError>
    requires { list_pairs (meanings_of config.now) list.now.lines ≤ 262144 }
    ensures first { OnOk result ((p : AnyPacket) → map (match_of p) lists.new.items ≡ map (match_of p) lists.old.items ++ match_in config.now p list.now ∷ []) }
    ensures sides { OnOk result ((side : ℕ × Bool) → map (has_side side) lists.new.items ≡ map (has_side side) lists.old.items ++ spec.is_bound_at config.now.bound list.now.name side ∷ []) }
    ensures named { OnOk result ((name : List ℕ) → map (λ l. bytes_eq name l.name) lists.new.items ≡ map (λ l. bytes_eq name l.name) lists.old.items ++ has_name name list.now ∷ []) }
    ensures covering { OnOk result ((p : AnyPacket) → map (covering_in p) lists.new.items ≡ map (covering_in p) lists.old.items ++ covering_under config.now p list.now ∷ []) }
    ensures longer { OnOk result (length lists.new.items ≡ length lists.old.items + 1) }
{
    lists.push(access_list(alloc, config, list)?)?;
    Ok(())
}

/// Whether the list of this name is bound to a side of an interface.
fn is_on_side(bound: &[((u8, bool), Name)], name: &Name) -> bool
    ensures { result ≡ spec.is_on_side bound.now name.now }
{
    bound.iter().any(|b| names(b, name))
}

/// Whether the list of this name is bound to the inbound side of every interface.
fn is_global(config: &Config, name: &Name) -> bool
    ensures { result ≡ spec.is_this config.now.global name.now }
{
    match config.global() {
        Some(global) => global == name,
        None => false,
    }
}

/// Whether the list is bound to a side of an interface, or to the inbound side of every one.
fn is_bound(config: &Config, list: &Acl) -> bool
    ensures { result ≡ spec.is_bound config.now list.now }
{
    is_on_side(config.bindings(), list.name()) || is_global(config, list.name())
}

/// Appends a list, with its entries and its sides, if it is bound somewhere.
fn push_bound(
    alloc: Global,
    lists: &mut Vec<AccessList>,
    config: &Config,
    list: &Acl,
) -> Result<(), AllocError>
    requires { list_pairs (meanings_of config.now) list.now.lines ≤ 262144 }
    ensures first { OnOk result ((p : AnyPacket) → map (match_of p) lists.new.items ≡ map (match_of p) lists.old.items ++ map (match_in config.now p) (spec.bound_among config.now (list.now ∷ []))) }
    ensures sides { OnOk result ((side : ℕ × Bool) → map (has_side side) lists.new.items ≡ map (has_side side) lists.old.items ++ map (λ l. spec.is_bound_at config.now.bound l.name side) (spec.bound_among config.now (list.now ∷ []))) }
    ensures named { OnOk result ((name : List ℕ) → map (λ l. bytes_eq name l.name) lists.new.items ≡ map (λ l. bytes_eq name l.name) lists.old.items ++ map (has_name name) (spec.bound_among config.now (list.now ∷ []))) }
    ensures covering { OnOk result ((p : AnyPacket) → map (covering_in p) lists.new.items ≡ map (covering_in p) lists.old.items ++ map (covering_under config.now p) (spec.bound_among config.now (list.now ∷ []))) }
    ensures most { OnOk result (length lists.new.items ≤ length lists.old.items + 1) }
{
    if is_bound(config, list) {
        push_list(alloc, lists, config, list)?;
    }
    Ok(())
}

/// The n-th list of a configuration, from 0.
fn nth_list(config: &Config, n: u32) -> &Acl
    requires { n < length config.now.lists }
    ensures { slice_get config.now.lists n ≡ Some result.now }
{
    match config.list_at(n) {
        Some(list) => list,
        None => unreachable!(),
    }
}

/// The lists of a configuration that are bound somewhere, with their entries and the sides that they are bound to.
pub(crate) fn access_lists(alloc: Global, config: &Config) -> Result<Vec<AccessList>, AllocError>
    ensures first { IfOk result (λ v. (p : AnyPacket) → map (match_of p) v.items ≡ map (match_in config.now p) (spec.bound_among config.now config.now.lists)) }
    ensures sides { IfOk result (λ v. (side : ℕ × Bool) → map (has_side side) v.items ≡ map (λ l. spec.is_bound_at config.now.bound l.name side) (spec.bound_among config.now config.now.lists)) }
    ensures named { IfOk result (λ v. (name : List ℕ) → map (λ l. bytes_eq name l.name) v.items ≡ map (has_name name) (spec.bound_among config.now config.now.lists)) }
    ensures covering { IfOk result (λ v. (p : AnyPacket) → map (covering_in p) v.items ≡ map (covering_under config.now p) (spec.bound_among config.now config.now.lists)) }
    ensures few { IfOk result (λ v. length v.items ≤ 1024) }
{
    let few = config.list_count();
    // Tells the prover that the prefix pairs of all lists are at most 262,144, so those of each list are too.
    let _pairs = config.pair_count();
    let mut lists = Vec::new(alloc);
    for n in 0..few {
        let list = nth_list(config, n);
        push_bound(alloc, &mut lists, config, list)?;
    }
    Ok(lists)
}

/// Whether the list has this name.
fn is_named(list: &AccessList, name: &Name) -> bool
    ensures { result ≡ bytes_eq name.now list.now.name }
{
    *name == list.name
}

/// The place of the list of this name.
fn place_of_name(lists: &[AccessList], name: &Name) -> Option<usize>
    ensures value { result ≡ position (λ l. bytes_eq name.now l.name) lists.now }
    ensures within { IfSome result (λ n. n < length lists.now) }
{
    lists.iter().position(|l| is_named(l, name))
}

/// The place of the global list.
pub(crate) fn global_place(config: &Config, lists: &[AccessList]) -> Option<u32>
    requires { length lists.now ≤ 1024 }
    ensures { result ≡ option_and_then (λ name. position (λ l. bytes_eq name l.name) lists.now) config.now.global }
{
    match config.global() {
        Some(name) => match place_of_name(lists, name) {
            Some(place) => Some(place as u32),
            None => None,
        },
        None => None,
    }
}
