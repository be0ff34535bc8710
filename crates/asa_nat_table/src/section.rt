//! A section of manual rules.
ghost use Rattle.std.specs.Prelude.{◌≡◌, ◌*◌, ◌^◌, ◌<◌, ◌≤◌, [], length, insert, remove, position, IfOk, IfSome, OnOk, OnErr, sum_by};
ghost use Rattle.std.specs.List.{list_any};
ghost use Rattle.asa_nat_rules.specs.Names.{uses};
ghost use Rattle.asa_nat_rules.specs.Pairs.{rule_pairs};
ghost use Rattle.asa_nat_table.specs.Rules as spec;
ghost use Rattle.asa_nat_table.specs.Faults as faults;

use crate::fault::RuleFault;
use crate::held_rule::HeldRule;
use asa_base::Name;
use asa_nat_rules::{NatMeaning, RuleFields, fault_of, rule_pairs, uses};
use std::alloc::{AllocError, Global};
use std::marker::Model;

/// Manual rules as they stand, at most 8,192.
#[derive(Debug, Drop)]
pub(crate) struct Section {
    rules: Vec<HeldRule>,
    alloc: Global,
}

impl Model for Section {
    ghost use Rattle.std.specs.Prelude.{◌≤◌, List, length};
    ghost use Rattle.asa_nat_lines.specs.declared.rule.RuleFields.{RuleFields};

    ghost Value = { List RuleFields };

    ghost view = { λ s. s.rules.items };

    ghost invariant = { λ s. length s.rules.items ≤ 8192 };
}

/// How many of the present rules, of which there are `count`, stand before a new one.
fn rules_before(place: Option<u32>, count: usize) -> usize
    requires { IfSome place (λ n. 1 ≤ n) }
    ensures value { result ≡ spec.rules_before place count }
    ensures within { result ≤ count }
{
    match place {
        None => count,
        Some(place) => count.min((place - 1) as usize),
    }
}

/// How many rules stand before the first that is equal to this one, where there is one.
fn position_of(rules: &[HeldRule], rule: &RuleFields) -> Option<usize>
    ensures value { result ≡ position (spec.same_rule rule.now) rules.now }
    ensures within { IfSome result (λ i. i < length rules.now) }
{
    rules.iter().position(|held| held.is_same(rule))
}

/// Whether a rule uses one of the names.
pub(crate) fn uses_one(rule: &RuleFields, names: &[Name]) -> bool
    ensures { result ≡ spec.uses_one names.now rule.now }
{
    names.iter().any(|name| uses(rule, name))
}

impl Section {
    /// No rule; takes no memory.
    pub(crate) fn new(alloc: Global) -> Section
        ensures { result ≡ [] }
    {
        Section {
            rules: Vec::new(alloc),
            alloc,
        }
    }

    /// The rules as they stand.
    pub(crate) fn rules(&self) -> &[HeldRule]
        ensures value { result.now ≡ self.now }
        ensures few { length result.now ≤ 8192 }
    {
        self.rules.as_slice()
    }

    /// How many rules there are.
    pub(crate) fn len(&self) -> u32
        ensures value { result ≡ length self.now }
        ensures few { result ≤ 8192 }
    {
        self.rules.len() as u32
    }

    /// Puts a rule before the present rule of the place, from 1, or last. On want of memory the rules are as they were.
    pub(crate) fn insert(&mut self, place: Option<u32>, rule: HeldRule) -> Result<(), AllocError>
        requires counted { IfSome place (λ n. 1 ≤ n) }
        requires room { length self.old < 8192 }
        ensures ok { OnOk result (self.new ≡ spec.placed self.old place rule) }
        ensures err { OnErr result (self.new ≡ self.old) }
    {
        let before = rules_before(place, self.rules.len());
        self.rules.reserve(1)?;
        match self.rules.insert(before, rule) {
            Ok(()) => Ok(()),
            Err(_) => unreachable!(),
        }
    }

    /// How many rules stand before the first that is equal to this one, where there is one.
    pub(crate) fn place_of(&self, rule: &RuleFields) -> Option<u32>
        ensures value { result ≡ position (spec.same_rule rule.now) self.now }
        ensures within { IfSome result (λ i. i < length self.now) }
    {
        let place = position_of(self.rules(), rule)?;
        Some(place as u32)
    }

    /// Removes the rule at a place, counted from 0.
    pub(crate) fn remove_at(&mut self, place: u32)
        requires { place < length self.old }
        ensures { self.new ≡ remove self.old place }
    {
        let _rule = self.rules.remove(place as usize);
    }

    /// Whether a rule uses the object or group of this name.
    pub(crate) fn uses(&self, name: &Name) -> bool
        ensures { result ≡ list_any (uses name.now) self.now }
    {
        self.rules.iter().any(|rule| uses(rule.fields(), name))
    }

    /// Whether a rule uses one of the names.
    pub(crate) fn uses_any(&self, names: &[Name]) -> bool
        ensures { result ≡ list_any (spec.uses_one names.now) self.now }
    {
        self.rules.iter().any(|rule| uses_one(rule.fields(), names))
    }

    /// The fault of the first rule that has one.
    pub(crate) fn fault<M: NatMeaning>(&self, meaning: &M) -> Option<RuleFault>
        ensures { result ≡ faults.manual_fault (M.meanings meaning.now) self.now }
    {
        for rule in self.rules() {
            if let Some(fault) = fault_of(meaning, rule.fields()) {
                return Some(RuleFault { owner: None, fault });
            }
        }
        None
    }

    /// The prefix pairs of the rules.
    pub(crate) fn pairs<M: NatMeaning>(&self, meaning: &M) -> u64
        ensures value { result ≡ sum_by (rule_pairs (M.meanings meaning.now)) self.now }
        ensures few { result ≤ length self.now * 2 ^ 45 }
    {
        let mut pairs = 0;
        for rule in self.rules() {
            pairs += rule_pairs(meaning, rule.fields());
        }
        pairs
    }

    /// A copy, which shares the rules.
    pub(crate) fn copy(&self) -> Result<Section, AllocError>
        ensures { IfOk result (λ s. s ≡ self.now) }
    {
        let mut rules = Vec::with_capacity(self.alloc, self.rules.len())?;
        for rule in self.rules() {
            rules.push(rule.share()?)?;
        }
        Ok(Section {
            rules,
            alloc: self.alloc,
        })
    }
}
