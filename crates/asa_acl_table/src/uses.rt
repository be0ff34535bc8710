//! At how many places of list lines each object and group stands.
ghost use Rattle.std.specs.Prelude.{◌≡◌, ℕ, ◌+◌, ◌-◌, ◌<◌, List, [], None, nat_lt, OnOk, IfOk, Some};
ghost use Rattle.std.specs.Option.{option_copied};
ghost use Rattle.asa_acl_table.specs.Uses as spec;

use asa_acl::{Ace, AclLine, HeldLine};
use asa_base::Name;
use indexmap::IndexMap;
use std::alloc::{AllocError, Global};
use std::marker::Model;

/// How often each object and group is named by lines: a name that stands at two places of a line counts twice. A name
/// that isn't named isn't there.
#[derive(Debug, Drop)]
pub(crate) struct Uses {
    counts: IndexMap<Name, u32>,
}

impl Model for Uses {
    ghost use Rattle.std.specs.Prelude.{ℕ, List};

    ghost Value = { List (List ℕ × ℕ) };

    ghost view = { λ u. u.counts.entries };
}

impl Uses {
    /// No name is counted; takes no memory.
    pub(crate) fn new(alloc: Global) -> Uses
        ensures { result ≡ [] }
    {
        Uses {
            counts: IndexMap::new(alloc),
        }
    }

    /// How often a name is counted.
    fn count(&self, name: &Name) -> u32
        ensures { result ≡ spec.count_of self.now name.now }
    {
        match self.counts.get(name) {
            Some(count) => *count,
            None => 0,
        }
    }

    /// Whether a name is counted.
    pub(crate) fn has(&self, name: &Name) -> bool
        ensures { result ≡ nat_lt 0 (spec.count_of self.now name.now) }
    {
        self.count(name) > 0
    }

    /// Counts a name once more. A count that would pass its type's end counts as want of memory.
    fn add_name(&mut self, name: &Name) -> Result<(), AllocError>
        ensures { OnOk result ((q : List ℕ) → spec.count_of self.new q ≡ spec.count_of self.old q + spec.times_at q (Some name.now)) }
    {
        let Some(count) = self.count(name).checked_add(1) else {
            return Err(AllocError);
        };
        self.counts.insert(name.copy(), count)?;
        Ok(())
    }

    /// Forgets a name.
    fn forget(&mut self, name: &Name)
        requires { spec.count_of self.old name.now < 2 }
        ensures { (q : List ℕ) → spec.count_of self.new q ≡ spec.count_of self.old q - spec.times_at q (Some name.now) }
    {
        let _count = self.counts.swap_remove(name);
    }

    /// Lowers the count of a name that is counted.
    fn lower(&mut self, name: &Name)
        requires { 1 < spec.count_of self.old name.now }
        ensures { (q : List ℕ) → spec.count_of self.new q ≡ spec.count_of self.old q - spec.times_at q (Some name.now) }
    {
        match self.counts.get_mut(name) {
            Some(count) => *count -= 1,
            None => unreachable!(),
        }
    }

    /// Counts a name once less.
    fn drop_name(&mut self, name: &Name)
        ensures { (q : List ℕ) → spec.count_of self.new q ≡ spec.count_of self.old q - spec.times_at q (Some name.now) }
    {
        if self.count(name) > 1 {
            self.lower(name);
        } else {
            self.forget(name);
        }
    }

    /// Counts the name once more that stands at a place, where one does.
    fn add_place(&mut self, place: Option<&Name>) -> Result<(), AllocError>
        ensures { OnOk result ((q : List ℕ) → spec.count_of self.new q ≡ spec.count_of self.old q + spec.times_at q (option_copied place.entry)) }
    {
        match place {
            Some(name) => self.add_name(name),
            None => Ok(()),
        }
    }

    /// Counts the name once less that stands at a place, where one does.
    fn drop_place(&mut self, place: Option<&Name>)
        ensures { (q : List ℕ) → spec.count_of self.new q ≡ spec.count_of self.old q - spec.times_at q (option_copied place.entry) }
    {
        if let Some(name) = place {
            self.drop_name(name);
        }
    }

    /// Counts the names of an entry once more for each place.
    #[tactic(auto, unfolding(crate::specs::Uses::times_in_entry))]
    fn add_entry(&mut self, ace: &Ace) -> Result<(), AllocError>
        ensures { OnOk result ((q : List ℕ) → spec.count_of self.new q ≡ spec.count_of self.old q + spec.times_in_entry q ace.now) }
    {
        self.add_place(ace.service.name())?;
        self.add_place(ace.service.source_ports_name())?;
        self.add_place(ace.service.dest_ports_name())?;
        self.add_place(ace.source.name())?;
        self.add_place(ace.dest.name())?;
        Ok(())
    }

    /// Counts the names of an entry once less for each place.
    #[tactic(auto, unfolding(crate::specs::Uses::times_in_entry))]
    fn drop_entry(&mut self, ace: &Ace)
        ensures { (q : List ℕ) → spec.count_of self.new q ≡ spec.count_of self.old q - spec.times_in_entry q ace.now }
    {
        self.drop_place(ace.service.name());
        self.drop_place(ace.service.source_ports_name());
        self.drop_place(ace.service.dest_ports_name());
        self.drop_place(ace.source.name());
        self.drop_place(ace.dest.name());
    }

    /// Counts the names of a line that comes. After an error some of them may be counted.
    #[tactic(auto, unfolding(crate::specs::Uses::times_in))]
    pub(crate) fn add_line(&mut self, item: &AclLine) -> Result<(), AllocError>
        ensures { OnOk result ((q : List ℕ) → spec.count_of self.new q ≡ spec.count_of self.old q + spec.times_in q item.now) }
    {
        match item {
            AclLine::Ace(ace) => self.add_entry(ace),
            AclLine::Remark(_) => Ok(()),
        }
    }

    /// Counts the names of a line that goes.
    #[tactic(auto, unfolding(crate::specs::Uses::times_in))]
    pub(crate) fn drop_line(&mut self, item: &AclLine)
        ensures { (q : List ℕ) → spec.count_of self.new q ≡ spec.count_of self.old q - spec.times_in q item.now }
    {
        if let AclLine::Ace(ace) = item {
            self.drop_entry(ace);
        }
    }

    /// Counts the names of lines that go.
    pub(crate) fn drop_lines(&mut self, lines: &[HeldLine])
        ensures { (q : List ℕ) → spec.count_of self.new q ≡ spec.count_of self.old q - spec.times_in_lines q lines.now }
    {
        for held in lines {
            self.drop_line(held.line());
        }
    }

    /// A copy.
    pub(crate) fn copy(&self) -> Result<Uses, AllocError>
        ensures { IfOk result (λ u. u ≡ self.now) }
    {
        Ok(Uses {
            counts: self.counts.clone()?,
        })
    }
}
