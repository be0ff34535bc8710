//! Rules as the tables hold them.
ghost use Rattle.std.specs.Prelude.{◌≡◌, IfOk};
ghost use Rattle.asa_nat_table.specs.Rules as spec;

use asa_nat_rules::{NatRule, RuleFields};
use asa_text::Shared;
use std::alloc::{AllocError, Global};
use std::marker::Model;

/// A rule as a table holds it: copies of the table share it.
#[derive(Debug, Drop)]
pub struct HeldRule {
    rule: Shared<NatRule>,
}

impl Model for HeldRule {
    ghost use Rattle.asa_nat_lines.specs.declared.rule.RuleFields.{RuleFields};

    ghost Value = { RuleFields };

    ghost view = { λ h. h.rule };
}

impl HeldRule {
    pub(crate) fn new(alloc: Global, rule: NatRule) -> Result<HeldRule, AllocError>
        ensures { IfOk result (λ h. h ≡ rule) }
    {
        let rule = Shared::new(alloc, rule)?;
        Ok(HeldRule { rule })
    }

    /// One more holder of the same rule. It fails only where the count of holders is full.
    pub fn share(&self) -> Result<HeldRule, AllocError>
        ensures { IfOk result (λ h. h ≡ self.now) }
    {
        let rule = self.rule.share()?;
        Ok(HeldRule { rule })
    }

    /// What the rule says.
    pub fn fields(&self) -> &RuleFields
        ensures { result.now ≡ self.now }
    {
        self.rule.get().fields()
    }

    /// Whether the rule is equal to this one.
    pub(crate) fn is_same(&self, rule: &RuleFields) -> bool
        ensures { result ≡ spec.same_rule rule.now self.now }
    {
        rule == self.fields()
    }
}

impl Clone for HeldRule {
    ghost use Rattle.std.specs.Prelude.{◌≡◌};

    ghost is_clone = { λ a b. b ≡ a };

    fn clone(&self) -> Result<HeldRule, AllocError> {
        self.share()
    }
}
