//! How many prefix pairs the cases of a rule have, without building them.
ghost use Rattle.std.specs.Prelude.{◌≡◌, ◌≤◌, ◌*◌, ◌^◌, [], ◌∷◌};
ghost use Rattle.asa_nat_rules.specs.Pairs as spec;
ghost use Rattle.asa_nat_rules.specs.Cases as cases;
ghost use Rattle.asa_nat_rules.specs.Sets as sets;

use crate::case::has_opposite;
use crate::meaning::NatMeaning;
use crate::sets::{interface_address, real_size, run_of};
use asa_base::{Addr, Name, Range, prefix_count};
use asa_nat_lines::{MappedRef, RealRef, RuleFields};

/// How many prefixes one range has.
#[tactic(auto, using(crate::proofs::PairLaws::count_one))]
fn range_prefixes(range: Range) -> u64
    ensures value { result ≡ spec.prefix_count (range ∷ []) }
    ensures few { result ≤ 62 }
{
    u64::from(prefix_count(range))
}

/// How many prefixes a network object or group has.
#[tactic(auto, using(crate::proofs::PairLaws::prefixes_of_members))]
fn named_prefixes<M: NatMeaning>(meaning: &M, name: &Name) -> u64
    ensures value { result ≡ spec.prefix_count (sets.named_set (M.meanings meaning.now) name.now) }
    ensures few { result ≤ 4063232 }
{
    meaning.prefix_count(name)
}

/// How many prefixes the real addresses have.
fn real_prefixes<M: NatMeaning>(meaning: &M, real: &RealRef) -> u64
    ensures value { result ≡ spec.prefix_count (sets.real_set (M.meanings meaning.now) real.now) }
    ensures few { result ≤ 4063232 }
{
    match real {
        RealRef::Any => range_prefixes(Range::all()),
        RealRef::Named(name) => named_prefixes(meaning, name),
    }
}

/// How many prefixes an address has, where there is one.
fn prefixes_if_any(address: Option<Addr>) -> u64
    ensures value { result ≡ spec.prefix_count (sets.set_if_any address) }
    ensures few { result ≤ 62 }
{
    match address {
        Some(address) => range_prefixes(Range::only(address)),
        None => 0,
    }
}

/// How many prefixes a run of addresses has.
fn run_prefixes(address: Addr, count: u64) -> u64
    ensures value { result ≡ spec.prefix_count (sets.run_from address count) }
    ensures few { result ≤ 62 }
{
    if count == 0 {
        return 0;
    }
    range_prefixes(run_of(address, count))
}

/// How many prefixes the mapped addresses of a static rule have.
fn mapped_prefixes<M: NatMeaning>(meaning: &M, rule: &RuleFields) -> u64
    ensures value { result ≡ spec.prefix_count (sets.mapped_set (M.meanings meaning.now) rule.now) }
    ensures few { result ≤ 4063232 }
{
    match &rule.mapped {
        MappedRef::Any => range_prefixes(Range::all()),
        MappedRef::Interface => prefixes_if_any(interface_address(meaning, rule.mapped_ifc)),
        MappedRef::Addr(address) => run_prefixes(*address, real_size(meaning, &rule.real)),
        MappedRef::Named(name) => named_prefixes(meaning, name),
        MappedRef::Pool { .. } => 0,
    }
}

/// How many prefixes the mapped destination has.
fn dest_mapped_prefixes<M: NatMeaning>(meaning: &M, rule: &RuleFields) -> u64
    ensures value { result ≡ spec.prefix_count (sets.dest_mapped_set (M.meanings meaning.now) rule.now) }
    ensures few { result ≤ 4063232 }
{
    match &rule.dest {
        Some((mapped, _)) => named_prefixes(meaning, mapped),
        None => range_prefixes(Range::all()),
    }
}

/// How many prefixes the real destination has.
fn dest_real_prefixes<M: NatMeaning>(meaning: &M, rule: &RuleFields) -> u64
    ensures value { result ≡ spec.prefix_count (sets.dest_real_set (M.meanings meaning.now) rule.now) }
    ensures few { result ≤ 4063232 }
{
    match &rule.dest {
        Some((_, real)) => named_prefixes(meaning, real),
        None => range_prefixes(Range::all()),
    }
}

/// The product of two numbers of prefixes.
#[tactic(auto, using(crate::proofs::PairLaws::two_small))]
fn product(sources: u64, dests: u64) -> u64
    requires sources { sources ≤ 4063232 }
    requires dests { dests ≤ 4063232 }
    ensures value { result ≡ sources * dests }
    ensures few { result ≤ 2 ^ 44 }
{
    sources * dests
}

/// How many prefix pairs the forward case has.
#[tactic(auto, unfolding(crate::specs::Cases::forward_case))]
fn forward_pairs<M: NatMeaning>(meaning: &M, rule: &RuleFields) -> u64
    ensures value { result ≡ spec.case_pairs (cases.forward_case (M.meanings meaning.now) rule.now) }
    ensures few { result ≤ 2 ^ 44 }
{
    product(
        real_prefixes(meaning, &rule.real),
        dest_mapped_prefixes(meaning, rule),
    )
}

/// How many prefix pairs the opposite case has, where there is one.
#[tactic(auto, unfolding(crate::specs::Cases::opposite_case))]
fn opposite_pairs<M: NatMeaning>(meaning: &M, rule: &RuleFields) -> u64
    ensures value { result ≡ spec.pairs_if_any (cases.opposite_if_any (M.meanings meaning.now) rule.now) }
    ensures few { result ≤ 2 ^ 44 }
{
    if !has_opposite(rule) {
        return 0;
    }
    product(
        dest_real_prefixes(meaning, rule),
        mapped_prefixes(meaning, rule),
    )
}

/// How many prefix pairs the cases of a rule have together: for each case the prefixes of its sources times those of its
/// destinations. An inactive rule has none. There are at most 2^45.
#[tactic(auto, unfolding(crate::specs::Pairs::rule_pairs))]
pub fn rule_pairs<M: NatMeaning>(meaning: &M, rule: &RuleFields) -> u64
    ensures value { result ≡ spec.rule_pairs (M.meanings meaning.now) rule.now }
    ensures few { result ≤ 2 ^ 45 }
{
    if rule.inactive {
        return 0;
    }
    forward_pairs(meaning, rule) + opposite_pairs(meaning, rule)
}
