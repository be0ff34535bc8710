//! The rules of objects.
ghost use Rattle.std.specs.Prelude.{◌≡◌, ◌+◌, ◌*◌, ◌^◌, ◌≤◌, [], true, length, is_some, IfOk, OnOk, OnErr, sum_by};
ghost use Rattle.std.specs.List.{list_any};
ghost use Rattle.std.specs.Option.{option_copied};
ghost use Rattle.std.specs.BTreeMap.{is_at, insert_entry};
ghost use Rattle.std.specs.Map.{lookup, remove_entry};
ghost use Rattle.std.specs.Ordering.{nat_cmp};
ghost use Rattle.std.specs.Cmp.Lexicographic.{slice_cmp};
ghost use Rattle.asa_nat_rules.specs.Pairs.{rule_pairs};
ghost use Rattle.asa_nat_table.specs.Rules as spec;
ghost use Rattle.asa_nat_table.specs.Faults as faults;

use crate::fault::{Placed, RuleFault, earlier, own_key};
use crate::held_rule::HeldRule;
use crate::section::uses_one;
use asa_base::Name;
use asa_nat_rules::{NatMeaning, RuleFields, fault_of, rule_pairs, uses};
use std::alloc::{AllocError, Global};
use std::collections::BTreeMap;
use std::marker::Model;

/// The rules of objects, by the name of the object, at most 8,192.
#[derive(Debug, Drop)]
pub(crate) struct OwnRules {
    rules: BTreeMap<Name, HeldRule>,
}

impl Model for OwnRules {
    ghost use Rattle.std.specs.Prelude.{ℕ, List};
    ghost use Rattle.asa_nat_lines.specs.declared.rule.RuleFields.{RuleFields};

    ghost Value = { List (List ℕ × RuleFields) };

    ghost view = { λ r. r.rules.entries };
}

/// Whether the rule of another object than this uses the name.
fn other_uses(owner: &Name, rule: &RuleFields, name: &Name) -> bool
    ensures { result ≡ spec.other_uses name.now (owner.now, rule.now) }
{
    name != owner && uses(rule, name)
}

/// The rule of an object as a faulty one, where it is.
fn placed_fault<M: NatMeaning>(
    alloc: Global,
    meaning: &M,
    owner: &Name,
    rule: &RuleFields,
) -> Result<Option<Placed>, AllocError>
    ensures { IfOk result (λ p. p ≡ faults.placed_fault (M.meanings meaning.now) owner.now rule.now) }
{
    let Some(fault) = fault_of(meaning, rule) else {
        return Ok(None);
    };
    let key = own_key(alloc, meaning, owner, rule)?;
    let fault = RuleFault {
        owner: Some(owner.copy()),
        fault,
    };
    Ok(Some(Placed { key, fault }))
}

impl OwnRules {
    /// No rule; takes no memory.
    pub(crate) fn new(alloc: Global) -> OwnRules
        ensures { result ≡ [] }
    {
        OwnRules {
            rules: BTreeMap::new(alloc),
        }
    }

    /// How many objects have a rule.
    pub(crate) fn len(&self) -> usize
        ensures { result ≡ length self.now }
    {
        self.rules.len()
    }

    /// The rule of an object.
    pub(crate) fn get(&self, owner: &Name) -> Option<&HeldRule>
        ensures { option_copied result ≡ lookup (is_at (slice_cmp nat_cmp owner.now)) self.now }
    {
        self.rules.get(owner)
    }

    /// Gives an object a rule, in place of an earlier one. On want of memory the rules are as they were.
    pub(crate) fn set(&mut self, owner: &Name, rule: HeldRule) -> Result<(), AllocError>
        ensures ok { OnOk result (self.new ≡ insert_entry (slice_cmp nat_cmp) self.old owner.now rule) }
        ensures err { OnErr result (self.new ≡ self.old) }
        ensures replaced { OnOk result (is_some (lookup (is_at (slice_cmp nat_cmp owner.now)) self.old) ≡ true → length self.new ≡ length self.old) }
        ensures more { OnOk result (length self.new ≤ length self.old + 1) }
    {
        match self.rules.insert(owner.copy(), rule) {
            Ok(_) => Ok(()),
            Err(_) => Err(AllocError),
        }
    }

    /// Removes the rule of an object, and answers whether it had one.
    pub(crate) fn remove(&mut self, owner: &Name) -> bool
        ensures found { result ≡ is_some (lookup (is_at (slice_cmp nat_cmp owner.now)) self.old) }
        ensures left { self.new ≡ remove_entry (is_at (slice_cmp nat_cmp owner.now)) self.old }
        ensures fewer { length self.new ≤ length self.old }
    {
        self.rules.remove(owner).is_some()
    }

    /// Whether the rule of another object uses the name.
    pub(crate) fn uses(&self, name: &Name) -> bool
        ensures { result ≡ list_any (spec.other_uses name.now) self.now }
    {
        for (owner, rule) in self.rules.iter() {
            if other_uses(owner, rule.fields(), name) {
                return true;
            }
        }
        false
    }

    /// Whether a rule uses one of the names.
    pub(crate) fn uses_any(&self, names: &[Name]) -> bool
        ensures { result ≡ list_any (λ e. spec.uses_one names.now e.1) self.now }
    {
        for (_, rule) in self.rules.iter() {
            if uses_one(rule.fields(), names) {
                return true;
            }
        }
        false
    }

    /// The fault of the rule that stands first in NAT order among those that have one.
    #[tactic(auto, using(crate::proofs::EarlierLaws::earlier_goes_on))]
    pub(crate) fn fault<M: NatMeaning>(
        &self,
        alloc: Global,
        meaning: &M,
    ) -> Result<Option<RuleFault>, AllocError>
        ensures { IfOk result (λ f. f ≡ faults.own_fault (M.meanings meaning.now) self.now) }
    {
        let mut first = None;
        for (owner, rule) in self.rules.iter() {
            let further = placed_fault(alloc, meaning, owner, rule.fields())?;
            first = earlier(first, further);
        }
        match first {
            Some(placed) => Ok(Some(placed.fault)),
            None => Ok(None),
        }
    }

    /// The prefix pairs of the rules.
    pub(crate) fn pairs<M: NatMeaning>(&self, meaning: &M) -> u64
        requires { length self.now ≤ 8192 }
        ensures value { result ≡ sum_by (λ e. rule_pairs (M.meanings meaning.now) e.1) self.now }
        ensures few { result ≤ length self.now * 2 ^ 45 }
    {
        let mut pairs = 0;
        for (_, rule) in self.rules.iter() {
            pairs += rule_pairs(meaning, rule.fields());
        }
        pairs
    }

    /// A copy, which shares the rules.
    pub(crate) fn copy(&self) -> Result<OwnRules, AllocError>
        ensures { IfOk result (λ r. r ≡ self.now) }
    {
        let rules = self.rules.clone()?;
        Ok(OwnRules { rules })
    }
}
