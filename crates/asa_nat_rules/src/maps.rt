//! What the maps of a rule's two cases do.
ghost use Rattle.asa_nat_rules.specs.Cases as spec;
ghost use Rattle.asa_nat_rules.specs.Maps.{Undoes};

use crate::meaning::NatMeaning;
use asa_nat_lines::RuleFields;

/// The law of the two cases, for proofs; it does nothing. What one of them sends somewhere the other sends back: an address
/// where none stands twice in the set that is sent back, and a port where both ranges have as many.
#[tactic(auto, using(crate::proofs::MapLaws::undone))]
pub fn opposite_undoes<M: NatMeaning>(_meaning: &M, _rule: &RuleFields)
    ensures { Undoes (spec.forward_case (M.meanings _meaning.now) _rule.now) (spec.opposite_case (M.meanings _meaning.now) _rule.now) }
{}
