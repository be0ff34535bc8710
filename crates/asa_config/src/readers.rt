//! The lines of access lists, up to the entry, and of access groups.
ghost use Rattle.std.specs.Prelude.{◌≡◌, ◌^◌, ◌-◌, ◌<◌, ◌≤◌, true, IfOk, IfSome, is_some, length};
ghost use Rattle.asa_text.specs.Readers.{Reads};
ghost use Rattle.asa_base.specs.Memory.{MayRead};
ghost use Rattle.asa_base.specs.Readers.{interface_at};
ghost use Rattle.asa_config.specs.Grammar as spec;
ghost use Rattle.asa_config.specs.Groups.{IsWithin};
ghost use Rattle.asa_config.specs.Names.{known_of};
ghost use Rattle.asa_config.specs.Settings.{list_named};

use crate::config::Config;
use crate::places::{Binding, OldLine, Place};
use asa_acl::acl_line;
use asa_acl_table::NewLine;
use asa_base::{Name, name};
use asa_text::{LineFault, Words, end_of_line, keyword, number};
use std::alloc::Global;

/// Reads `line L`, or nothing.
#[tactic(auto, unfolding(crate::specs::Grammar::place_in_list_at))]
fn place_in_list(words: &mut Words<'_>) -> Result<Option<u32>, LineFault>
    ensures value { Reads result words.new (spec.place_in_list_at words.old) }
    ensures counted { IfOk result (λ place. IfSome place (λ n. 1 ≤ n)) }
{
    if !words.next_is(b"line") {
        return Ok(None);
    }
    let _line = words.next();
    let place = number(words, 1, 65536)?;
    Ok(Some(place as u32))
}

/// Reads `access-list N [line L] ..`.
#[tactic(auto, unfolding(crate::specs::Grammar::new_line))]
pub(crate) fn new_line(
    alloc: Global,
    config: &Config,
    text: &[u8],
    words: &mut Words<'_>,
) -> Result<NewLine, LineFault>
    requires { length text.now < 2 ^ 32 - 1 }
    ensures value { MayRead result words.new (spec.new_line config.now text.now words.old) }
    ensures counted { IfOk result (λ new. IfSome new.place (λ n. 1 ≤ n)) }
{
    keyword(words, b"access-list")?;
    let list = name(words)?;
    let place = place_in_list(words)?;
    match acl_line(alloc, text, words, config) {
        Ok(item) => Ok(NewLine { list, place, item }),
        Err(fault) => Err(fault),
    }
}

/// Reads the name of a list that is defined.
#[tactic(auto, unfolding(crate::specs::Grammar::list_at))]
fn list(config: &Config, words: &mut Words<'_>) -> Result<Name, LineFault>
    ensures value { Reads result words.new (spec.list_at config.now words.old) }
    ensures defined { IfOk result (λ n. is_some (list_named config.now n) ≡ true) }
{
    let word = words.word()?;
    let column = word.column();
    let Some(list) = Name::new(word.bytes()) else {
        return Err(LineFault::Bad { column });
    };
    if config.list(&list).is_some() {
        Ok(list)
    } else {
        Err(LineFault::Unknown { column })
    }
}

/// Reads `no access-list N ..`.
#[tactic(auto, unfolding(crate::specs::Grammar::old_line))]
pub(crate) fn old_line(
    alloc: Global,
    config: &Config,
    text: &[u8],
    words: &mut Words<'_>,
) -> Result<OldLine, LineFault>
    requires { length text.now < 2 ^ 32 - 1 }
    ensures value { MayRead result words.new (spec.old_line config.now text.now words.old) }
    ensures defined { IfOk result (λ old. is_some (list_named config.now old.list) ≡ true) }
{
    keyword(words, b"no")?;
    keyword(words, b"access-list")?;
    let list = list(config, words)?;
    match acl_line(alloc, text, words, config) {
        Ok(item) => Ok(OldLine { list, item }),
        Err(fault) => Err(fault),
    }
}

/// Reads the name of an interface, and gives its number.
#[tactic(auto, unfolding(asa_base::specs::Readers::interface_at))]
fn interface(config: &Config, words: &mut Words<'_>) -> Result<u8, LineFault>
    ensures value { Reads result words.new (interface_at (known_of config.now).interface_of words.old) }
    ensures within { IfOk result (λ n. n < length config.now.net.ifaces) }
{
    let column = words.column();
    let name = name(words)?;
    match config.ifaces().interface_of(&name) {
        Some(ifc) => Ok(ifc),
        None => Err(LineFault::NoSuchInterface { column }),
    }
}

/// Reads `interface I`, after `in` or `out`.
#[tactic(auto, unfolding(crate::specs::Grammar::side_at))]
fn side(config: &Config, inbound: bool, words: &mut Words<'_>) -> Result<Place, LineFault>
    ensures value { Reads result words.new (spec.side_at config.now inbound words.old) }
    ensures within { IfOk result (λ p. IsWithin (length config.now.net.ifaces) p) }
{
    keyword(words, b"interface")?;
    let ifc = interface(config, words)?;
    Ok(Place::Side { ifc, inbound })
}

/// Reads `in interface I`, `out interface I` or `global`.
#[tactic(auto, unfolding(crate::specs::Grammar::place_at))]
fn place(config: &Config, words: &mut Words<'_>) -> Result<Place, LineFault>
    ensures value { Reads result words.new (spec.place_at config.now words.old) }
    ensures within { IfOk result (λ p. IsWithin (length config.now.net.ifaces) p) }
{
    if words.next_is(b"in") {
        let _in = words.next();
        return side(config, true, words);
    }
    if words.next_is(b"out") {
        let _out = words.next();
        return side(config, false, words);
    }
    if words.next_is(b"global") {
        let _global = words.next();
        return Ok(Place::Global);
    }
    Err(LineFault::Bad {
        column: words.column(),
    })
}

/// Reads the end of an access group. `per-user-override` and `control-plane`, which may stand there, are Unsupported.
#[tactic(auto, unfolding(crate::specs::Grammar::group_end_at))]
fn group_end(words: &mut Words<'_>) -> Result<(), LineFault>
    ensures { Reads result words.new (spec.group_end_at words.old) }
{
    if words.next_is(b"per-user-override") || words.next_is(b"control-plane") {
        return Err(LineFault::Unsupported {
            column: words.column(),
        });
    }
    end_of_line(words)
}

/// Reads `access-group N ..`.
#[tactic(auto, unfolding(crate::specs::Grammar::binding_line))]
pub(crate) fn binding_line(config: &Config, words: &mut Words<'_>) -> Result<Binding, LineFault>
    ensures value { Reads result words.new (spec.binding_line config.now words.old) }
    ensures within { IfOk result (λ b. IsWithin (length config.now.net.ifaces) b.place) }
    ensures defined { IfOk result (λ b. is_some (list_named config.now b.list) ≡ true) }
{
    keyword(words, b"access-group")?;
    let list = list(config, words)?;
    let place = place(config, words)?;
    group_end(words)?;
    Ok(Binding { list, place })
}

/// Reads `no access-group N ..`.
#[tactic(auto, unfolding(crate::specs::Grammar::old_binding_line))]
pub(crate) fn old_binding_line(config: &Config, words: &mut Words<'_>) -> Result<Binding, LineFault>
    ensures { Reads result words.new (spec.old_binding_line config.now words.old) }
{
    keyword(words, b"no")?;
    binding_line(config, words)
}
