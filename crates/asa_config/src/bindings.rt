//! Access groups: which list is bound where.
ghost use Rattle.std.specs.Prelude.{◌≡◌, ◌<◌, ◌≤◌, true, IfOk, IfSome, IfNone, Some, None, OnOk, OnErr, is_some, length, insert, remove, slice_set};
ghost use Rattle.std.specs.Option.{option_copied};
ghost use Rattle.std.specs.Result.{IfErr};
ghost use Rattle.asa_config_edit.specs.Refusals.{Makes, top_read};
ghost use Rattle.asa_config.specs.Grammar as grammar;
ghost use Rattle.asa_config.specs.Groups as spec;
ghost use Rattle.asa_config.specs.Settings.{list_named};

use crate::config::{Config, bound_to, is_same_side, is_side_before};
use crate::places::{Binding, Place};
use crate::readers::{binding_line, old_binding_line};
use asa_base::Name;
use asa_config_edit::{EditFault, EditRefusal, alone, line_refusal, refused, top_words};
use asa_text::Block;
use std::alloc::AllocError;

/// The place of the binding of a side, or else the place where one would stand.
#[tactic(auto, using(crate::proofs::BindingLaws::with_side_at, crate::proofs::BindingLaws::with_side_before, crate::proofs::BindingLaws::with_side_last))]
fn find_side(bound: &[((u8, bool), Name)], side: (u8, bool), list: &Name) -> Result<usize, usize>
    ensures found { IfOk result (λ i. spec.with_side bound.now side list.now ≡ slice_set bound.now i (side, list.now)) }
    ensures within { IfOk result (λ i. i < length bound.now) }
    ensures new { IfErr result (λ i. spec.with_side bound.now side list.now ≡ insert bound.now i (side, list.now)) }
    ensures fits { IfErr result (λ i. i ≤ length bound.now) }
{
    for (i, binding) in bound.iter().enumerate() {
        if is_same_side(side, binding.0) {
            return Ok(i);
        }
        if is_side_before(side, binding.0) {
            return Err(i);
        }
    }
    Err(bound.len())
}

/// Binds a list to a side, in the place of the earlier binding of that side, or else before the later sides.
fn put_side(
    bound: &mut Vec<((u8, bool), Name)>,
    side: (u8, bool),
    list: Name,
) -> Result<(), AllocError>
    ensures ok { OnOk result (bound.new.items ≡ spec.with_side bound.old.items side list) }
    ensures err { OnErr result (bound.new.items ≡ bound.old.items) }
{
    match find_side(bound.as_slice(), side, &list) {
        Ok(i) => {
            bound[i] = (side, list);
            Ok(())
        }
        Err(i) => {
            bound.insert(i, (side, list))?;
            Ok(())
        }
    }
}

/// The place of the binding of a side that is to go.
#[tactic(auto, using(crate::proofs::BindingLaws::without_side_at))]
fn place_to_leave(bound: &[((u8, bool), Name)], side: (u8, bool)) -> Option<usize>
    ensures none { IfNone result (spec.without_side bound.now side ≡ bound.now) }
    ensures placed { IfSome result (λ i. spec.without_side bound.now side ≡ remove bound.now i) }
    ensures within { IfSome result (λ i. i < length bound.now) }
{
    for (i, binding) in bound.iter().enumerate() {
        if is_same_side(side, binding.0) {
            return Some(i);
        }
    }
    None
}

/// Takes away the binding of a side.
fn take_side(bound: &mut Vec<((u8, bool), Name)>, side: (u8, bool))
    ensures { bound.new.items ≡ spec.without_side bound.old.items side }
{
    if let Some(i) = place_to_leave(bound.as_slice(), side) {
        let _binding = bound.remove(i);
    }
}

/// Whether the name is there, and it is this one.
fn is_name_there(name: &Name, other: Option<&Name>) -> bool
    ensures { result ≡ spec.is_name_there name.now (option_copied other.entry) }
{
    match other {
        Some(other) => name == other,
        None => false,
    }
}

/// Whether one of the bindings is of the list with this name.
fn binds(bound: &[((u8, bool), Name)], name: &Name) -> bool
    ensures { result ≡ spec.binds bound.now name.now }
{
    bound.iter().any(|binding| *name == binding.1)
}

/// The binding of a block that is a line `access-group ..`.
fn binding_of(config: &Config, block: &Block) -> Result<Binding, EditRefusal>
    ensures value { result ≡ top_read block.now (grammar.binding_line config.now) }
    ensures within { IfOk result (λ b. spec.IsWithin (length config.now.net.ifaces) b.place) }
    ensures defined { IfOk result (λ b. is_some (list_named config.now b.list) ≡ true) }
{
    let mut words = top_words(block);
    match binding_line(config, &mut words) {
        Ok(binding) => Ok(binding),
        Err(fault) => Err(line_refusal(1, fault)),
    }
}

/// The binding that a block removes that is a line `no access-group ..`.
fn old_binding_of(config: &Config, block: &Block) -> Result<Binding, EditRefusal>
    ensures { result ≡ top_read block.now (grammar.old_binding_line config.now) }
{
    let mut words = top_words(block);
    match old_binding_line(config, &mut words) {
        Ok(binding) => Ok(binding),
        Err(fault) => Err(line_refusal(1, fault)),
    }
}

impl Config {
    /// Whether the list with this name is bound somewhere.
    pub(crate) fn is_bound(&self, name: &Name) -> bool
        ensures { result ≡ spec.is_bound self.now name.now }
    {
        binds(self.bound.as_slice(), name) || is_name_there(name, self.global.as_ref())
    }

    /// Whether the list with this name is bound at that place.
    fn is_bound_at(&self, place: Place, name: &Name) -> bool
        ensures { result ≡ spec.is_bound_at self.now place name.now }
    {
        match place {
            Place::Side { ifc, inbound } => {
                is_name_there(name, bound_to(self.bound.as_slice(), (ifc, inbound)))
            }
            Place::Global => is_name_there(name, self.global.as_ref()),
        }
    }

    /// Binds a list to a side of an interface.
    fn bind_side(&mut self, side: (u8, bool), list: Name) -> Result<(), AllocError>
        requires within { side.0 < length self.old.net.ifaces }
        requires defined { is_some (list_named self.old list) ≡ true }
        ensures ok { OnOk result (self.new ≡ record self.old { bound = spec.with_side self.old.bound side list }) }
        ensures err { OnErr result (self.new ≡ self.old) }
    {
        put_side(&mut self.bound, side, list)
    }

    /// Binds a list to the inbound side of every interface.
    fn bind_global(&mut self, list: Name)
        requires { is_some (list_named self.old list) ≡ true }
        ensures { self.new ≡ record self.old { global = Some list } }
    {
        self.global = Some(list);
    }

    /// Binds a list to a place.
    fn bind(&mut self, place: Place, list: Name) -> Result<(), AllocError>
        requires within { spec.IsWithin (length self.old.net.ifaces) place }
        requires defined { is_some (list_named self.old list) ≡ true }
        ensures ok { OnOk result (self.new ≡ spec.bind self.old place list) }
        ensures err { OnErr result (self.new ≡ self.old) }
    {
        match place {
            Place::Side { ifc, inbound } => self.bind_side((ifc, inbound), list),
            Place::Global => {
                self.bind_global(list);
                Ok(())
            }
        }
    }

    /// Takes away the binding of a side of an interface.
    fn unbind_side(&mut self, side: (u8, bool))
        ensures { self.new ≡ record self.old { bound = spec.without_side self.old.bound side } }
    {
        take_side(&mut self.bound, side);
    }

    /// Takes away the binding to the inbound side of every interface.
    fn unbind_global(&mut self)
        ensures { self.new ≡ record self.old { global = None } }
    {
        self.global = None;
    }

    /// Takes away the binding at a place.
    fn unbind(&mut self, place: Place)
        ensures { self.new ≡ spec.unbind self.old place }
    {
        match place {
            Place::Side { ifc, inbound } => self.unbind_side((ifc, inbound)),
            Place::Global => self.unbind_global(),
        }
    }

    /// Takes a line `access-group ..`.
    #[tactic(auto, unfolding(crate::specs::Groups::group_step))]
    pub(crate) fn step_group(&mut self, block: &Block) -> Result<(), EditRefusal>
        ensures { Makes result self.old self.new (spec.group_step self.old block.now) }
    {
        let binding = binding_of(self, block)?;
        alone(block)?;
        self.bind(binding.place, binding.list)?;
        Ok(())
    }

    /// Takes a line `no access-group ..`.
    #[tactic(auto, unfolding(crate::specs::Groups::no_group_step))]
    pub(crate) fn step_no_group(&mut self, block: &Block) -> Result<(), EditRefusal>
        ensures { Makes result self.old self.new (spec.no_group_step self.old block.now) }
    {
        let binding = old_binding_of(self, block)?;
        if !self.is_bound_at(binding.place, &binding.list) {
            return Err(refused(1, EditFault::NotBound));
        }
        alone(block)?;
        self.unbind(binding.place);
        Ok(())
    }
}
