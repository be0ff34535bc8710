//! What orders a NAT rule among the others.
ghost use Rattle.std.specs.Prelude.{◌≡◌};
ghost use Rattle.std.specs.Cmp.{IsTotalOrder};
ghost use Rattle.std.specs.declared.cmp.Ordering.TheVariants.{Equal};
ghost use Rattle.asa_nat_order.specs.declared.keys.AutoRank.{AutoRank};
ghost use Rattle.asa_nat_order.specs.Ranks as spec;

use asa_base::{Addr, Name};

/// What places a rule in NAT order.
#[derive(Clone, Debug, PartialEq, Eq, Drop)]
pub struct NatKey {
    /// 1 for a manual rule, 2 for the rule of an object, 3 for a manual rule after these.
    pub section: u8,
    pub is_static: bool,
    /// How many real addresses the rule has.
    pub count: u64,
    /// The first of them, as the object states them.
    pub first: Addr,
    /// The object whose rule it is.
    pub name: Name,
}

/// The rank of an object's rule. By its derived order static rules come before dynamic ones, then those with fewer real
/// addresses, then those with the lower first address; last the bytes of the object's name decide.
#[derive(Clone, Debug, PartialEq, Eq, PartialOrd, Ord, Drop)]
pub struct AutoRank {
    pub is_dynamic: bool,
    /// How many real addresses the rule has.
    pub count: u64,
    /// The first of them.
    pub first: Addr,
    /// The object whose rule it is.
    pub name: Name,
}

impl NatKey {
    /// The rank that the rule has as an object's. Ranks are ordered totally, and no two differ that tie.
    #[tactic(auto, using(crate::proofs::RankLaws::rank_total, crate::proofs::RankLaws::ranks_apart))]
    pub fn rank(&self) -> AutoRank
        ensures value { result ≡ spec.rank_of self.now }
        ensures total { IsTotalOrder spec.rank_cmp }
        ensures apart { (other : AutoRank) → spec.rank_cmp result other ≡ Equal → result ≡ other }
    {
        AutoRank {
            is_dynamic: !self.is_static,
            count: self.count,
            first: self.first,
            name: self.name.copy(),
        }
    }
}
