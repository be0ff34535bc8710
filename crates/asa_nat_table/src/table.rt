//! All rules of a configuration.
ghost use Rattle.std.specs.Prelude.{◌≡◌, ◌^◌, false, Some, IfOk, IfSome, OnOk, OnErr, is_some, ◌<◌, ◌≤◌};
ghost use Rattle.std.specs.Option.{option_copied};
ghost use Rattle.asa_nat_table.specs.Faults as faults;
ghost use Rattle.asa_nat_table.specs.Rules as spec;

use crate::fault::RuleFault;
use crate::held_rule::HeldRule;
use crate::own_rules::OwnRules;
use crate::section::Section;
use asa_base::Name;
use asa_nat_rules::{NatMeaning, NatRule, NewRule, RuleFields};
use std::alloc::{AllocError, Global};
use std::marker::Model;

/// The section of manual rules after those of objects.
const LAST: u8 = 3;

/// The NAT rules of a configuration, at most 8,192.
#[derive(Debug, Drop)]
pub struct NatTable {
    first: Section,
    own: OwnRules,
    last: Section,
    alloc: Global,
}

impl Model for NatTable {
    ghost use Rattle.std.specs.Prelude.{◌≤◌};
    ghost use Rattle.asa_nat_table.specs.Rules.{NatRules, count_of, rules_of};

    ghost Value = { NatRules };

    ghost view = { λ t. rules_of t.first t.own t.last };

    ghost invariant = { λ t. count_of (rules_of t.first t.own t.last) ≤ 8192 };
}

impl NatTable {
    /// No rule; takes no memory.
    pub fn new(alloc: Global) -> NatTable
        ensures { result ≡ spec.no_rules }
    {
        NatTable {
            first: Section::new(alloc),
            own: OwnRules::new(alloc),
            last: Section::new(alloc),
            alloc,
        }
    }

    /// How many rules there are, inactive ones too.
    pub fn count(&self) -> u32
        ensures value { result ≡ spec.count_of self.now }
        ensures few { result ≤ 8192 }
    {
        self.first.len() + self.own.len() as u32 + self.last.len()
    }

    /// The section that a manual rule belongs to.
    fn section(&self, rule: &RuleFields) -> &Section
        ensures { result.now ≡ spec.section_rules self.now rule.now }
    {
        if rule.section == LAST {
            &self.last
        } else {
            &self.first
        }
    }

    /// Puts a manual rule before the present rule of its place, from 1, in its section, or last. On want of memory the
    /// rules are as they were.
    #[tactic(auto, unfolding(crate::specs::Rules::with_manual))]
    pub fn insert(&mut self, new: NewRule) -> Result<(), AllocError>
        requires counted { IfSome new.place (λ n. 1 ≤ n) }
        requires room { spec.count_of self.old < 8192 }
        ensures ok { OnOk result (self.new ≡ spec.with_manual self.old new) }
        ensures err { OnErr result (self.new ≡ self.old) }
    {
        let NewRule { place, rule } = new;
        let is_last = rule.fields().section == LAST;
        let rule = HeldRule::new(self.alloc, rule)?;
        if is_last {
            self.last.insert(place, rule)
        } else {
            self.first.insert(place, rule)
        }
    }

    /// How many rules of its section stand before the first that is equal to this manual rule, where there is one.
    pub fn place_of(&self, rule: &RuleFields) -> Option<u32>
        ensures { result ≡ spec.place_of self.now rule.now }
    {
        self.section(rule).place_of(rule)
    }

    /// Removes the rule at a place, counted from 0, of the section that this manual rule belongs to.
    #[tactic(auto, unfolding(crate::specs::Rules::without_manual))]
    pub fn remove_at(&mut self, rule: &RuleFields, place: u32)
        requires { spec.place_of self.old rule.now ≡ Some place }
        ensures { self.new ≡ spec.without_manual self.old rule.now place }
    {
        if rule.section == LAST {
            self.last.remove_at(place);
        } else {
            self.first.remove_at(place);
        }
    }

    /// The rule of an object.
    pub fn own_rule(&self, owner: &Name) -> Option<&RuleFields>
        ensures { option_copied result ≡ spec.own_rule self.now owner.now }
    {
        match self.own.get(owner) {
            Some(rule) => Some(rule.fields()),
            None => None,
        }
    }

    /// Gives an object a rule, in place of an earlier one. On want of memory the rules are as they were.
    pub fn set_own(&mut self, owner: &Name, rule: NatRule) -> Result<(), AllocError>
        requires room { is_some (spec.own_rule self.old owner.now) ≡ false → spec.count_of self.old < 8192 }
        ensures ok { OnOk result (self.new ≡ spec.with_own self.old owner.now rule) }
        ensures err { OnErr result (self.new ≡ self.old) }
    {
        let rule = HeldRule::new(self.alloc, rule)?;
        self.own.set(owner, rule)
    }

    /// Removes the rule of an object, and answers whether it had one.
    pub fn remove_own(&mut self, owner: &Name) -> bool
        ensures found { result ≡ is_some (spec.own_rule self.old owner.now) }
        ensures left { self.new ≡ spec.without_own self.old owner.now }
    {
        // Only for the proof: no more rules than before.
        let _count = self.count();
        self.own.remove(owner)
    }

    /// Whether a rule uses the object or group of this name; an object's own rule is no use of it.
    pub fn is_used(&self, name: &Name) -> bool
        ensures { result ≡ spec.is_used self.now name.now }
    {
        self.first.uses(name) || self.own.uses(name) || self.last.uses(name)
    }

    /// Whether a rule uses one of the names; here an object's own rule counts too.
    pub fn uses_any(&self, names: &[Name]) -> bool
        ensures { result ≡ spec.uses_any self.now names.now }
    {
        self.first.uses_any(names) || self.own.uses_any(names) || self.last.uses_any(names)
    }

    /// The first rule in NAT order that is at fault, where one is.
    #[tactic(auto, unfolding(crate::specs::Faults::table_fault))]
    pub fn fault<M: NatMeaning>(
        &self,
        alloc: Global,
        meaning: &M,
    ) -> Result<Option<RuleFault>, AllocError>
        ensures { IfOk result (λ f. f ≡ faults.table_fault (M.meanings meaning.now) self.now) }
    {
        if let Some(fault) = self.first.fault(meaning) {
            return Ok(Some(fault));
        }
        if let Some(fault) = self.own.fault(alloc, meaning)? {
            return Ok(Some(fault));
        }
        Ok(self.last.fault(meaning))
    }

    /// The prefix pairs of all rules.
    #[tactic(auto, unfolding(crate::specs::Faults::table_pairs))]
    pub fn pairs<M: NatMeaning>(&self, meaning: &M) -> u64
        ensures value { result ≡ faults.table_pairs (M.meanings meaning.now) self.now }
        ensures few { result ≤ 2 ^ 58 }
    {
        let _count = self.count();
        self.first.pairs(meaning) + (self.own.pairs(meaning) + self.last.pairs(meaning))
    }

    /// A copy, which shares the rules.
    pub fn copy(&self) -> Result<NatTable, AllocError>
        ensures { IfOk result (λ t. t ≡ self.now) }
    {
        Ok(NatTable {
            first: self.first.copy()?,
            own: self.own.copy()?,
            last: self.last.copy()?,
            alloc: self.alloc,
        })
    }
}
