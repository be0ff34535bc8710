//! Lines of access lists: where a new one goes, and which one is removed.
ghost use Rattle.std.specs.Prelude.{◌≡◌, ◌^◌, ◌<◌, ◌≤◌, ◌==◌, true, false, Some, codes, IfOk, IfSome, IsSomeAnd, is_some, length, slice_get};
ghost use Rattle.asa_acl_boxes.specs.Pairs as counts;
ghost use Rattle.asa_config_edit.specs.Refusals.{Gives, top_read, top_text};
ghost use Rattle.asa_acl_table.specs.Lists.{has_room, put_in, without_list, without_place};
ghost use Rattle.asa_config.specs.Limits.{fitting};
ghost use Rattle.asa_config.specs.Grammar as grammar;
ghost use Rattle.asa_config.specs.Groups.{is_bound};
ghost use Rattle.asa_config.specs.Names.{meanings_of, pair_count};
ghost use Rattle.asa_config.specs.Lists as spec;
ghost use Rattle.asa_config.specs.Settings.{list_named, list_among};

use crate::config::Config;
use crate::limits::MOST_PAIRS;
use crate::places::OldLine;
use crate::readers::{new_line, old_line};
use asa_acl::{Acl, AclLine};
use asa_acl_boxes::{line_pairs, list_pairs};
use asa_acl_table::{NewLine, too_large};
use asa_base::Name;
use asa_config_edit::{EditFault, EditRefusal, alone, line_refusal, refused, top_line};
use asa_text::{Block, Words};
use std::alloc::AllocError;

/// The new line of a block that is a line `access-list ..`.
fn new_line_of(config: &Config, block: &Block) -> Result<NewLine, EditRefusal>
    ensures value { Gives result (top_read block.now (grammar.new_line config.now (top_text block.now))) }
    ensures counted { IfOk result (λ new. IfSome new.place (λ n. 1 ≤ n)) }
{
    let text = top_line(block).text.as_bytes();
    let mut words = Words::of(text);
    match new_line(config.alloc, config, text, &mut words) {
        Ok(new) => Ok(new),
        Err(fault) => Err(line_refusal(1, fault)),
    }
}

/// The removed line of a block that is a line `no access-list ..`.
fn old_line_of(config: &Config, block: &Block) -> Result<OldLine, EditRefusal>
    ensures value { Gives result (top_read block.now (grammar.old_line config.now (top_text block.now))) }
    ensures defined { IfOk result (λ old. is_some (list_named config.now old.list) ≡ true) }
{
    let text = top_line(block).text.as_bytes();
    let mut words = Words::of(text);
    match old_line(config.alloc, config, text, &mut words) {
        Ok(old) => Ok(old),
        Err(fault) => Err(line_refusal(1, fault)),
    }
}

impl Config {
    /// The pairs of a line.
    fn pairs_of(&self, item: &AclLine) -> Result<u128, AllocError>
        ensures value { IfOk result (λ n. n ≡ counts.line_pairs (meanings_of self.now) item.now) }
        ensures few { IfOk result (λ n. n ≤ 2 ^ 92) }
    {
        line_pairs(self.alloc, &self.scope(), item)
    }

    /// The pairs of all lists after a line has gone in.
    fn pairs_with(&self, new: &NewLine) -> Result<u128, AllocError>
        ensures { IfOk result (λ n. n ≡ pair_count (spec.with_lists self.now (put_in self.now.lists new.now (list_among self.now.lists new.now.list)))) }
    {
        let added = self.pairs_of(&new.item)?;
        Ok(u128::from(self.pair_count()) + added)
    }

    /// Puts a line, for which there is room, into its list; all lists have so many pairs then.
    fn put_counted(self, new: NewLine, total: u64) -> Result<Config, AllocError>
        requires counted { IfSome new.place (λ n. 1 ≤ n) }
        requires room { has_room self.lists (list_among self.lists new.list) ≡ true }
        requires total { total ≡ pair_count (spec.with_lists self (put_in self.lists new (list_among self.lists new.list))) }
        requires few { total ≤ 262144 }
        ensures { IfOk result (λ c. c ≡ spec.with_lists self (put_in self.lists new (list_among self.lists new.list))) }
    {
        let Config {
            net,
            objects,
            table,
            bound,
            global,
            alloc,
            ..
        } = self;
        let table = table.put(new)?;
        Ok(Config {
            net,
            objects,
            table,
            pairs: total,
            bound,
            global,
            alloc,
        })
    }

    /// Puts a line, for which there is room, into its list, as far as the pairs stay few.
    #[tactic(auto, unfolding(crate::specs::Limits::fitting))]
    fn put_fitting(self, new: NewLine) -> Result<Config, EditRefusal>
        requires counted { IfSome new.place (λ n. 1 ≤ n) }
        requires room { has_room self.lists (list_among self.lists new.list) ≡ true }
        ensures { Gives result (fitting (spec.with_lists self (put_in self.lists new (list_among self.lists new.list)))) }
    {
        let total = self.pairs_with(&new)?;
        if total > MOST_PAIRS {
            return Err(too_large(total));
        }
        let config = self.put_counted(new, total as u64)?;
        Ok(config)
    }

    /// Whether a line may go into the list that has this name, or begin it.
    fn has_room(&self, name: &Name) -> bool
        ensures { result ≡ has_room self.now.lists (list_among self.now.lists name.now) }
    {
        self.table.has_room(name)
    }

    /// Puts a line into its list, as far as there is room and the pairs stay few.
    #[tactic(auto, unfolding(crate::specs::Lists::line_put, crate::specs::Lists::lists_with))]
    fn put_line(self, new: NewLine) -> Result<Config, EditRefusal>
        requires { IfSome new.place (λ n. 1 ≤ n) }
        ensures { Gives result (spec.line_put self new) }
    {
        if self.has_room(&new.list) {
            return self.put_fitting(new);
        }
        Err(refused(1, EditFault::TooMany))
    }

    /// Takes a line `access-list ..`.
    #[tactic(auto, unfolding(crate::specs::Lists::line_step))]
    pub(crate) fn step_line(self, block: &Block) -> Result<Config, EditRefusal>
        ensures { Gives result (spec.line_step self block.now) }
    {
        let new = new_line_of(&self, block)?;
        alone(block)?;
        self.put_line(new)
    }

    /// How many lines of the list that has this name stand before the first like this one, where there is one.
    fn place_in_list(&self, name: &Name, item: &AclLine) -> Option<u32>
        ensures { result ≡ spec.place_in item.now (list_among self.now.lists name.now) }
    {
        match self.list(name) {
            Some(acl) => acl.place_of_equal(item),
            None => None,
        }
    }

    /// Whether the list that has this name has one line.
    fn has_one_line(&self, name: &Name) -> bool
        ensures { result ≡ spec.has_one_line (list_among self.now.lists name.now) }
    {
        match self.list(name) {
            Some(acl) => acl.len() == 1,
            None => false,
        }
    }

    /// The pairs of the line at a place of a list.
    fn pairs_at(&self, acl: &Acl, place: u32) -> Result<u128, AllocError>
        requires { place < length acl.now.lines }
        ensures { IfOk result (λ n. IsSomeAnd (slice_get acl.now.lines place) (λ item. n ≡ counts.line_pairs (meanings_of self.now) item)) }
    {
        let line = acl.lines()[place as usize].line();
        self.pairs_of(line)
    }

    /// The pairs of the lines of a list.
    fn pairs_in(&self, acl: &Acl) -> Result<u128, AllocError>
        ensures { IfOk result (λ n. n ≡ counts.list_pairs (meanings_of self.now) acl.now.lines) }
    {
        list_pairs(self.alloc, &self.scope(), acl.lines())
    }

    /// The pairs of all lists after the line at a place of a list has gone.
    fn pairs_without_line(&self, name: &Name, place: u32) -> Result<u64, AllocError>
        requires { IsSomeAnd (list_among self.now.lists name.now) (λ l. place < length l.lines) }
        ensures value { IfOk result (λ n. n ≡ pair_count (spec.with_lists self.now (without_place self.now.lists place (list_among self.now.lists name.now)))) }
        ensures few { IfOk result (λ n. n ≤ 262144) }
    {
        let Some(acl) = self.list(name) else {
            unreachable!()
        };
        let gone = self.pairs_at(acl, place)?;
        Ok(self.pair_count() - gone as u64)
    }

    /// The pairs of all lists after one of them has gone.
    fn pairs_without_list(&self, name: &Name) -> Result<u64, AllocError>
        requires { is_some (list_named self.now name.now) ≡ true }
        ensures value { IfOk result (λ n. n ≡ pair_count (spec.with_lists self.now (without_list self.now.lists name.now))) }
        ensures few { IfOk result (λ n. n ≤ 262144) }
    {
        let Some(acl) = self.list(name) else {
            unreachable!()
        };
        let gone = self.pairs_in(acl)?;
        Ok(self.pair_count() - gone as u64)
    }

    /// Takes a line, of which the place is told, out of its list; all lists have so many pairs then.
    fn take_counted(self, old: &OldLine, place: u32, total: u64) -> Result<Config, AllocError>
        requires found { spec.place_in old.now.item (list_among self.lists old.now.list) ≡ Some place }
        requires total { total ≡ pair_count (spec.with_lists self (without_place self.lists place (list_among self.lists old.now.list))) }
        requires few { total ≤ 262144 }
        ensures { IfOk result (λ c. c ≡ spec.with_lists self (spec.without_line self.lists old.now.item (list_among self.lists old.now.list))) }
    {
        let Config {
            net,
            objects,
            table,
            bound,
            global,
            alloc,
            ..
        } = self;
        let table = table.take(&old.list, place)?;
        Ok(Config {
            net,
            objects,
            table,
            pairs: total,
            bound,
            global,
            alloc,
        })
    }

    /// Removes a list that is bound nowhere; the others have so many pairs.
    fn drop_list(mut self, name: &Name, total: u64) -> Config
        requires there { is_some (list_named self name.now) ≡ true }
        requires unbound { is_bound self name.now ≡ false }
        requires total { total ≡ pair_count (spec.with_lists self (without_list self.lists name.now)) }
        requires few { total ≤ 262144 }
        ensures { result ≡ spec.with_lists self (without_list self.lists name.now) }
    {
        self.table.remove(name);
        self.pairs = total;
        self
    }

    /// Removes a list, unless it is bound somewhere.
    fn remove_list(self, name: &Name) -> Result<Config, EditRefusal>
        requires { is_some (list_named self name.now) ≡ true }
        ensures { Gives result (spec.list_gone self name.now) }
    {
        if self.is_bound(name) {
            return Err(refused(1, EditFault::InUse { by: access_group() }));
        }
        let total = self.pairs_without_list(name)?;
        Ok(self.drop_list(name, total))
    }

    /// Removes a line that is there, at the place that is told; with its last line the list goes.
    #[tactic(auto, unfolding(crate::specs::Lists::line_gone))]
    fn remove_line(self, old: &OldLine, place: u32) -> Result<Config, EditRefusal>
        requires there { is_some (list_named self old.now.list) ≡ true }
        requires found { spec.place_in old.now.item (list_among self.lists old.now.list) ≡ Some place }
        ensures { Gives result (spec.line_gone self old.now) }
    {
        if self.has_one_line(&old.list) {
            return self.remove_list(&old.list);
        }
        let total = self.pairs_without_line(&old.list, place)?;
        let config = self.take_counted(old, place, total)?;
        Ok(config)
    }

    /// Takes a line `no access-list ..`.
    #[tactic(auto, unfolding(crate::specs::Lists::no_line_step))]
    pub(crate) fn step_no_line(self, block: &Block) -> Result<Config, EditRefusal>
        ensures { Gives result (spec.no_line_step self block.now) }
    {
        let old = old_line_of(&self, block)?;
        let Some(place) = self.place_in_list(&old.list, &old.item) else {
            return Err(refused(1, EditFault::NoSuchLine));
        };
        alone(block)?;
        self.remove_line(&old, place)
    }
}

/// The word that tells that an access group names a list.
fn access_group() -> Name
    ensures { result ≡ codes "access-group" }
{
    match Name::new(b"access-group") {
        Some(name) => name,
        None => unreachable!(),
    }
}
