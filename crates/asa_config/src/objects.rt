//! Blocks of objects and groups, and the lines that remove one.
ghost use Rattle.std.specs.Prelude.{◌≡◌, ◌<◌, ◌+◌, ◌-◌, ◌^◌, ℕ, List, length, false, None, Ok, OnOk, is_some};
ghost use Rattle.std.specs.List.{list_any};
ghost use Rattle.asa_objects_lines.specs.Tops.{removal_at};
ghost use Rattle.asa_objects.specs.Frames.{ForName};
ghost use Rattle.asa_objects_table.specs.Ranks.{has_name};
ghost use Rattle.asa_objects_values.specs.Tables.{reaches, user_of, without_name};
ghost use Rattle.asa_config_edit.specs.Classes.{is_nat_line};
ghost use Rattle.asa_config_edit.specs.Refusals.{Gives, Makes, top_read};
ghost use Rattle.asa_acl_table.specs.Names.{meanings_in, pairs_of_lists};
ghost use Rattle.asa_config.specs.Names.{known_of};
ghost use Rattle.asa_config.specs.Objects as spec;

use crate::config::Config;
use crate::limits::MOST_PAIRS;
use asa_acl_table::{ListTable, Scope, count_lists, too_large};
use asa_base::Name;
use asa_config_edit::{EditFault, EditRefusal, alone, line_refusal, refused, top_words};
use asa_ifaces::Ifaces;
use asa_objects::{ObjectFault, Objects};
use asa_objects_lines::{Removal, read_removal};
use asa_text::{Block, Line};
use std::alloc::Global;

/// The refusal of a block for a fault of its object or group.
fn object_refusal(fault: ObjectFault) -> EditRefusal
    ensures { result ≡ spec.object_refusal fault }
{
    match fault {
        ObjectFault::NameTaken => refused(1, EditFault::NameTaken),
        ObjectFault::Unknown { line, column } => refused(line, EditFault::Unknown { column }),
        ObjectFault::Bad { line, column } => refused(line, EditFault::Bad { column }),
        ObjectFault::Unsupported { line, column } => {
            refused(line, EditFault::Unsupported { column })
        }
        ObjectFault::Cycle { line } => refused(line, EditFault::Cycle),
        ObjectFault::NoSuchMember { line } => refused(line, EditFault::NoSuchLine),
        ObjectFault::NoValue { column } => refused(1, EditFault::Bad { column }),
        ObjectFault::TooMany => refused(1, EditFault::TooMany),
        ObjectFault::NoMemory => EditRefusal::NoMemory,
    }
}

/// What a change of objects or groups answers.
fn told(answer: Result<(), ObjectFault>) -> Result<(), EditRefusal>
    ensures { result ≡ spec.told answer }
{
    match answer {
        Ok(()) => Ok(()),
        Err(fault) => Err(object_refusal(fault)),
    }
}

/// What a block removes that is a line `no object ..` or `no object-group ..`.
fn removal_of(config: &Config, block: &Block) -> Result<Removal, EditRefusal>
    ensures { result ≡ top_read block.now (removal_at (known_of config.now)) }
{
    let mut words = top_words(block);
    match read_removal(&mut words, config) {
        Ok(removal) => Ok(removal),
        Err(fault) => Err(line_refusal(1, fault)),
    }
}

/// The refusal of a removal for what names the object or group, where something does.
fn free_of(user: Option<Name>) -> Result<(), EditRefusal>
    ensures value { result ≡ spec.free_of user }
    ensures none { OnOk result (user ≡ None) }
{
    match user {
        None => Ok(()),
        Some(by) => Err(refused(1, EditFault::InUse { by })),
    }
}

/// The pairs of all lists under other objects and groups, as far as they stay few.
fn recounted(
    alloc: Global,
    objects: &Objects,
    net: &Ifaces,
    table: &ListTable,
) -> Result<u64, EditRefusal>
    ensures { spec.Recounts result (pairs_of_lists (meanings_in objects.now net.now.ifaces) table.now) }
{
    let scope = Scope {
        objects,
        ifaces: net.ifaces(),
    };
    let total = count_lists(alloc, &scope, table)?;
    if total > MOST_PAIRS {
        return Err(too_large(total));
    }
    Ok(total as u64)
}

/// Whether a line is `nat ..` or `no nat ..`.
#[tactic(auto, unfolding(asa_config_edit::specs::Classes::is_nat_line))]
fn is_nat_line(line: &Line) -> bool
    ensures { result ≡ is_nat_line line.now }
{
    let mut words = line.words();
    let _no = words.takes(b"no");
    words.next_is(b"nat")
}

/// That none of the indented lines of a block is about NAT.
#[tactic(auto, unfolding(crate::specs::Objects::without_nat))]
pub(crate) fn without_nat(lines: &[Line]) -> Result<(), EditRefusal>
    requires few { length lines.now + 1 < 2 ^ 32 - 1 }
    ensures { result ≡ spec.without_nat 2 lines.now }
{
    for (i, line) in lines.iter().enumerate() {
        if is_nat_line(line) {
            return Err(refused(i as u32 + 2, EditFault::NotBuilt));
        }
    }
    Ok(())
}

impl Config {
    /// The name of the first list with a line that names the object or group.
    fn list_using(&self, name: &Name) -> Option<Name>
        ensures { result ≡ spec.list_using self.now.lists name.now }
    {
        match self.table.using(name) {
            Some(list) => Some(list.acl().name().copy()),
            None => None,
        }
    }

    /// That no group and no list names the object or group.
    fn unused(&self, name: &Name) -> Result<(), EditRefusal>
        ensures value { result ≡ spec.unused self.now name.now }
        ensures groups { OnOk result (user_of self.now.objects name.now ≡ None) }
        ensures lists { OnOk result (spec.list_using self.now.lists name.now ≡ None) }
    {
        free_of(self.objects.group_using(name))?;
        free_of(self.list_using(name))
    }

    /// Whether some list names the object or group; asks no list.
    fn is_listed(&self, name: &Name) -> bool
        ensures { result ≡ is_some (spec.list_using self.now.lists name.now) }
    {
        self.table.is_used(name)
    }

    /// Whether some list names one of these objects and groups.
    fn lists_name(&self, names: &[Name]) -> bool
        ensures { result ≡ list_any (λ q. is_some (spec.list_using self.now.lists q)) names.now }
    {
        names.iter().any(|name| self.is_listed(name))
    }

    /// Takes a block of an object or a group that no list names, so that no pair is to be counted.
    fn define_apart(mut self, block: &Block, names: &[Name]) -> Result<Config, EditRefusal>
        requires reaching { ForName block.now (λ name. (q : List ℕ) → has_name names.now q ≡ reaches self.objects q name) }
        requires none { list_any (λ q. is_some (spec.list_using self.lists q)) names.now ≡ false }
        ensures { Gives result (spec.object_step self block.now) }
    {
        // That there are few pairs, which stay as they are.
        let _pairs = self.pair_count();
        told(self.objects.define(block))?;
        Ok(self)
    }

    /// Takes a block of an object or a group that lists name: all of them are counted anew.
    fn define_used(self, block: &Block) -> Result<Config, EditRefusal>
        ensures { Gives result (spec.object_step self block.now) }
    {
        let Config {
            net,
            mut objects,
            table,
            bound,
            global,
            alloc,
            ..
        } = self;
        told(objects.define(block))?;
        let pairs = recounted(alloc, &objects, &net, &table)?;
        Ok(Config {
            net,
            objects,
            table,
            pairs,
            bound,
            global,
            alloc,
        })
    }

    /// Takes a block of an object or a group.
    pub(crate) fn step_object(self, block: &Block) -> Result<Config, EditRefusal>
        ensures { Gives result (spec.object_step self block.now) }
    {
        let reaching = self.objects.reaching(self.alloc, block)?;
        let names = reaching.get().as_slice();
        if self.lists_name(names) {
            return self.define_used(block);
        }
        self.define_apart(block, names)
    }

    /// Takes out an object or a group that nothing names.
    fn remove_object(&mut self, name: &Name)
        requires group { user_of self.old.objects name.now ≡ None }
        requires list { spec.list_using self.old.lists name.now ≡ None }
        ensures value { self.new ≡ spec.with_objects self.old (without_name self.old.objects name.now) }
        ensures fits { spec.changed self.old (without_name self.old.objects name.now) ≡ Ok self.new }
    {
        // That there are few pairs, which stay as they are.
        let _pairs = self.pair_count();
        let _there = self.objects.remove(name);
    }

    /// Takes a line `no object ..` or `no object-group ..`.
    #[tactic(auto, unfolding(crate::specs::Objects::no_object_step))]
    pub(crate) fn step_no_object(&mut self, block: &Block) -> Result<(), EditRefusal>
        ensures { Makes result self.old self.new (spec.no_object_step self.old block.now) }
    {
        let removal = removal_of(self, block)?;
        alone(block)?;
        self.unused(&removal.name)?;
        self.remove_object(&removal.name);
        Ok(())
    }
}
