//! The cases of a rule.
ghost use Rattle.std.specs.Prelude.{◌≡◌, IfOk};
ghost use Rattle.asa_nat_rules.specs.Cases as spec;
ghost use Rattle.asa_nat_rules.specs.Sets.{dest_mapped_set as dest_mapped, dest_real_set as dest_real};

use crate::fault::{NatFault, fault_of};
use crate::meaning::NatMeaning;
use crate::pools::{nat_ranges, pat_spans};
use crate::ports::ports_of;
use crate::sets::{dest_mapped_set, dest_real_set, mapped_set, real_set};
use asa_base::{PortRange, Range};
use asa_nat_lines::RuleFields;
use asa_pool_values::PatSpan;
use asa_text::Items;
use std::alloc::{AllocError, Global};

/// What becomes of the source address of a flow.
#[derive(Debug, Drop)]
pub enum CaseMap {
    /// It stays as it is.
    None,
    /// The k-th address of the source set becomes the k-th of these.
    Static(Items<Range>),
    /// It becomes an address of a pool.
    Dynamic {
        /// The addresses that are given out whole, one to each source.
        nat: Items<Range>,
        /// The addresses that are given out port by port, asked in order.
        pat: Items<PatSpan>,
    },
}

/// What a rule does to the flows that start on one of its sides: the packets that it holds, and what becomes of their
/// addresses and ports.
#[derive(Debug, Drop)]
pub struct Case {
    /// Whether the flows start on the rule's real side, else on its mapped side.
    pub forward: bool,
    /// The number of the interface that the packets come in on, or None for any.
    pub from: Option<u8>,
    /// The number of the interface that the packets go out of, or None for any.
    pub to: Option<u8>,
    /// The sources that the case holds, in order.
    pub source: Items<Range>,
    pub source_map: CaseMap,
    /// The destinations that the case holds, in order.
    pub dest: Items<Range>,
    /// The k-th destination becomes the k-th of these; without a map it stays as it is.
    pub dest_map: Option<Items<Range>>,
    /// The protocol that the case holds, or None for all.
    pub proto: Option<u8>,
    /// The source ports that the case holds, and what they become.
    pub sport: PortRange,
    pub sport_to: PortRange,
    /// The destination ports that the case holds, and what they become.
    pub dport: PortRange,
    pub dport_to: PortRange,
    /// Whether the egress is found by the route and not by `to`.
    pub route_lookup: bool,
}

/// The map of the source.
fn source_map<M: NatMeaning>(
    alloc: Global,
    meaning: &M,
    rule: &RuleFields,
) -> Result<CaseMap, AllocError>
    ensures { IfOk result (λ s. s ≡ spec.source_map (M.meanings meaning.now) rule.now) }
{
    if rule.is_static {
        let to = mapped_set(alloc, meaning, rule)?;
        return Ok(CaseMap::Static(to));
    }
    let nat = nat_ranges(alloc, meaning, &rule.mapped)?;
    let pat = pat_spans(alloc, meaning, rule.mapped_ifc, &rule.mapped)?;
    Ok(CaseMap::Dynamic { nat, pat })
}

/// The map of the destination, where the rule has one.
fn dest_map<M: NatMeaning>(
    alloc: Global,
    meaning: &M,
    rule: &RuleFields,
) -> Result<Option<Items<Range>>, AllocError>
    ensures { IfOk result (λ s. s ≡ spec.dest_map rule.now.dest (dest_real (M.meanings meaning.now) rule.now)) }
{
    if rule.dest.is_none() {
        return Ok(None);
    }
    let to = dest_real_set(alloc, meaning, rule)?;
    Ok(Some(to))
}

/// The map back of the destination, where the rule has one.
fn dest_map_back<M: NatMeaning>(
    alloc: Global,
    meaning: &M,
    rule: &RuleFields,
) -> Result<CaseMap, AllocError>
    ensures { IfOk result (λ s. s ≡ spec.dest_map_back rule.now.dest (dest_mapped (M.meanings meaning.now) rule.now)) }
{
    if rule.dest.is_none() {
        return Ok(CaseMap::None);
    }
    let to = dest_mapped_set(alloc, meaning, rule)?;
    Ok(CaseMap::Static(to))
}

/// The case of the flows that start on the real side: the real source becomes the mapped one, and the mapped destination
/// becomes the real one.
#[tactic(auto, unfolding(crate::specs::Cases::forward_case))]
pub fn forward_case<M: NatMeaning>(
    alloc: Global,
    meaning: &M,
    rule: &RuleFields,
) -> Result<Case, AllocError>
    ensures { IfOk result (λ c. c ≡ spec.forward_case (M.meanings meaning.now) rule.now) }
{
    let source = real_set(alloc, meaning, &rule.real)?;
    let source_map = source_map(alloc, meaning, rule)?;
    let dest = dest_mapped_set(alloc, meaning, rule)?;
    let dest_map = dest_map(alloc, meaning, rule)?;
    let ports = ports_of(meaning, &rule.service);
    Ok(Case {
        forward: true,
        from: rule.real_ifc,
        to: rule.mapped_ifc,
        source,
        source_map,
        dest,
        dest_map,
        proto: ports.proto,
        sport: ports.real,
        sport_to: ports.mapped,
        dport: ports.dest_mapped,
        dport_to: ports.dest_real,
        route_lookup: rule.route_lookup,
    })
}

/// The case of the flows that start on the mapped side of a static rule: the real destination, as their source, becomes
/// the mapped one, and the mapped source, as their destination, becomes the real one.
#[tactic(auto, unfolding(crate::specs::Cases::opposite_case))]
pub fn opposite_case<M: NatMeaning>(
    alloc: Global,
    meaning: &M,
    rule: &RuleFields,
) -> Result<Case, AllocError>
    ensures { IfOk result (λ c. c ≡ spec.opposite_case (M.meanings meaning.now) rule.now) }
{
    let source = dest_real_set(alloc, meaning, rule)?;
    let source_map = dest_map_back(alloc, meaning, rule)?;
    let dest = mapped_set(alloc, meaning, rule)?;
    let dest_map = real_set(alloc, meaning, &rule.real)?;
    let ports = ports_of(meaning, &rule.service);
    Ok(Case {
        forward: false,
        from: rule.mapped_ifc,
        to: rule.real_ifc,
        source,
        source_map,
        dest,
        dest_map: Some(dest_map),
        proto: ports.proto,
        sport: ports.dest_real,
        sport_to: ports.dest_mapped,
        dport: ports.mapped,
        dport_to: ports.real,
        route_lookup: rule.route_lookup,
    })
}

/// Whether the rule has an opposite case.
pub(crate) fn has_opposite(rule: &RuleFields) -> bool
    ensures { result ≡ spec.has_opposite rule.now }
{
    rule.is_static && !rule.unidirectional
}

/// The opposite case, where the rule has one.
fn opposite_if_any<M: NatMeaning>(
    alloc: Global,
    meaning: &M,
    rule: &RuleFields,
) -> Result<Option<Case>, AllocError>
    ensures { IfOk result (λ c. c ≡ spec.opposite_if_any (M.meanings meaning.now) rule.now) }
{
    if !has_opposite(rule) {
        return Ok(None);
    }
    let case = opposite_case(alloc, meaning, rule)?;
    Ok(Some(case))
}

/// Both cases.
fn both_cases<M: NatMeaning>(
    alloc: Global,
    meaning: &M,
    rule: &RuleFields,
) -> Result<(Case, Option<Case>), AllocError>
    ensures { IfOk result (λ cs. cs ≡ (spec.forward_case (M.meanings meaning.now) rule.now, spec.opposite_if_any (M.meanings meaning.now) rule.now)) }
{
    let forward = forward_case(alloc, meaning, rule)?;
    let opposite = opposite_if_any(alloc, meaning, rule)?;
    Ok((forward, opposite))
}

/// The forward case of a rule, and its opposite case, which is there exactly where the rule is static and not
/// `unidirectional`. An inactive rule has its cases too, which take no part in decisions.
///
/// SizeDiffers comes exactly where two sizes differ, of the source first, then of the destination, then of the ports;
/// SubnetPool where none differ and a name of the pool has a network among its members.
#[tactic(auto, unfolding(crate::specs::Cases::cases_of))]
pub fn cases_of<M: NatMeaning>(
    alloc: Global,
    meaning: &M,
    rule: &RuleFields,
) -> Result<(Case, Option<Case>), NatFault>
    ensures { spec.MayGive result (spec.cases_of (M.meanings meaning.now) rule.now) }
{
    if let Some(fault) = fault_of(meaning, rule) {
        return Err(fault);
    }
    match both_cases(alloc, meaning, rule) {
        Ok(cases) => Ok(cases),
        Err(_) => Err(NatFault::NoMemory),
    }
}
