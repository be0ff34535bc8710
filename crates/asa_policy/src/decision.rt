//! The decision of a packet, step by step up to the first drop.
ghost use Rattle.std.specs.Prelude.{◌≡◌, ◌++◌, ◌+◌, ◌≤◌, ◌<◌, ◌∷◌, [], None, Some, Ok, Err, IfOk, IfErr, IfSome, IsTrue, length, position};
ghost use Rattle.arrayvec.specs.ArrayVec.{array_vec_len};
ghost use Rattle.asa_ifaces.specs.Interfaces.{is_named};
ghost use Rattle.asa_ifaces_routes.specs.Candidates.{route_of};
ghost use Rattle.asa_policy.specs.Access.{outbound_covering};
ghost use Rattle.asa_policy.specs.Decisions as spec;

use crate::levels::level_at;
use crate::policy::Policy;
use asa_access::AccessVerdict;
use asa_base::{AccessBy, Addr, Counter, Packet};
use asa_config::Config;
use asa_flow::{Decision, Detail, DropReason, Phase, SourceMap, Step, Trail, copy_of};
use asa_ifaces::Iface;
use asa_ifaces_routes::Candidate;

/// A trail that a decision can begin with: the step FLOW-LOOKUP, which found no connection.
pub fn begun_trail() -> Trail
    ensures { spec.IsBegun result.items }
{
    let mut trail = Trail::new();
    note(&mut trail, Phase::FlowLookup, Detail::None);
    trail
}

/// Whether this bit of the flags is set.
fn has_flag(p: &Packet, bit: u8) -> bool
    requires { 0 < bit }
    ensures { result ≡ spec.has_flag p.now bit }
{
    (p.flags / bit) % 2 == 1
}

/// Why a packet can't open a connection by its flags.
#[tactic(auto, unfolding(crate::specs::Decisions::not_syn))]
fn not_syn(p: &Packet) -> Option<DropReason>
    ensures { result ≡ spec.not_syn p.now }
{
    let opens = has_flag(p, 1) && !has_flag(p, 2) && !has_flag(p, 4) && !has_flag(p, 8);
    if p.proto == 6 && !opens {
        Some(DropReason::NotSyn)
    } else {
        None
    }
}

/// Whether a named interface has this address.
fn owns(address: Addr, iface: &Iface) -> bool
    ensures { result ≡ spec.owns address iface.now }
{
    match (&iface.name, &iface.addr) {
        (Some(_), Some((own, _))) => own.0 == address.0,
        _ => false,
    }
}

/// The number of the first interface that has this address.
fn first_owner(ifaces: &[Iface], address: Addr) -> Option<usize>
    ensures value { result ≡ position (spec.owns address) ifaces.now }
    ensures within { IfSome result (λ ifc. ifc < length ifaces.now) }
{
    ifaces.iter().position(|iface| owns(address, iface))
}

/// Why a packet for this address goes no further: it is the box's own.
#[tactic(auto, unfolding(crate::specs::Decisions::to_the_box))]
fn to_the_box(config: &Config, address: Addr) -> Option<DropReason>
    ensures { result ≡ spec.to_the_box config.now address }
{
    match first_owner(config.ifaces().ifaces(), address) {
        Some(ifc) => Some(DropReason::ToTheBox { ifc: ifc as u8 }),
        None => None,
    }
}

/// The reason, unless what it speaks of is permitted.
fn unless(permitted: bool, reason: DropReason) -> Option<DropReason>
    ensures { result ≡ spec.unless permitted reason }
{
    if permitted { None } else { Some(reason) }
}

/// Why a packet may not go from this interface to the egress.
#[tactic(auto, unfolding(crate::specs::Decisions::same_security))]
fn same_security(config: &Config, ifc: u8, egress: u8) -> Option<DropReason>
    ensures { result ≡ spec.same_security config.now ifc egress }
{
    let (inter, intra) = config.ifaces().permits();
    if egress == ifc {
        unless(intra, DropReason::IntraInterface)
    } else if level_at(config, ifc) == level_at(config, egress) {
        unless(inter, DropReason::InterInterface)
    } else {
        None
    }
}

/// What a flow is given that every step lets through.
fn decision_of(p: &Packet, way: &Candidate, way_in: AccessBy, way_out: AccessBy) -> Decision
    ensures { result ≡ spec.decision_of p.now way.now way_in way_out }
{
    Decision {
        egress: way.egress,
        dst: p.dst,
        dport: p.dport,
        source: SourceMap::Plain,
        unnat: None,
        route: way.route,
        inbound: way_in,
        outbound: way_out,
    }
}

/// Why the access rules drop a packet.
fn denied(who: AccessBy) -> DropReason
    ensures { result ≡ spec.denied who }
{
    match who {
        AccessBy::Level => DropReason::Level,
        by => DropReason::AclIn { by },
    }
}

/// Notes a step that lets the packet through.
fn note(trail: &mut Trail, phase: Phase, detail: Detail)
    requires { array_vec_len trail.old < 11 }
    ensures { trail.new.items ≡ trail.old.items ++ record { phase = phase; detail = detail } ∷ [] }
{
    trail.push(Step { phase, detail });
}

/// Notes the step that drops the packet.
fn stop(trail: &mut Trail, phase: Phase, reason: DropReason) -> DropReason
    requires { array_vec_len trail.old < 11 }
    ensures value { result ≡ reason }
    ensures steps { trail.new.items ≡ trail.old.items ++ spec.dropped phase reason ∷ [] }
{
    let detail = Detail::Dropped(reason.copy());
    trail.push(Step { phase, detail });
    reason
}

/// Notes a step without a detail, or the drop where there is a reason.
fn check(trail: &mut Trail, phase: Phase, reason: Option<DropReason>) -> Result<(), DropReason>
    requires { array_vec_len trail.old < 11 }
    ensures { spec.Checks phase reason result trail.old.items trail.new.items }
{
    match reason {
        None => {
            note(trail, phase, Detail::None);
            Ok(())
        }
        Some(reason) => Err(stop(trail, phase, reason)),
    }
}

/// ACCESS-LIST-OUT, and the decision.
#[tactic(auto, unfolding(crate::specs::Decisions::let_out))]
fn let_out(
    p: &Packet,
    way: &Candidate,
    way_in: AccessBy,
    verdict: AccessVerdict,
    trail: &mut Trail,
) -> Result<Decision, DropReason>
    requires { array_vec_len trail.old ≤ 9 }
    ensures { spec.Takes (spec.let_out p.now way.now way_in verdict) result trail.old.items trail.new.items }
{
    match verdict {
        AccessVerdict::Permit(who) => {
            note(trail, Phase::AccessListOut, Detail::By(copy_of(&who)));
            Ok(decision_of(p, way, way_in, who))
        }
        AccessVerdict::Deny(by) => {
            Err(stop(trail, Phase::AccessListOut, DropReason::AclOut { by }))
        }
    }
}

impl Policy {
    /// The steps NAT and REVERSE-PATH, and the step after them.
    #[tactic(auto, unfolding(crate::specs::Decisions::through))]
    fn through(
        &self,
        p: &Packet,
        way: &Candidate,
        way_in: AccessBy,
        trail: &mut Trail,
        c: &mut Counter,
    ) -> Result<Decision, DropReason>
        requires { array_vec_len trail.old ≤ 7 }
        ensures taken { spec.Takes (spec.through self.now p.now way.now way_in) result trail.old.items trail.new.items }
        ensures reads { c.new ≤ c.old + 1122 + outbound_covering self.now p.now way.now.egress }
    {
        note(trail, Phase::Nat, Detail::Place(None));
        let pair = Detail::Pair {
            unnat: None,
            reply: None,
        };
        note(trail, Phase::ReversePath, pair);
        let verdict = self.outbound(p, way.egress, c);
        let_out(p, way, way_in, verdict, trail)
    }

    /// ACCESS-LIST-IN and the steps after it.
    #[tactic(auto, unfolding(crate::specs::Decisions::listed))]
    fn listed(
        &self,
        p: &Packet,
        way: &Candidate,
        verdict: AccessVerdict,
        trail: &mut Trail,
        c: &mut Counter,
    ) -> Result<Decision, DropReason>
        requires { array_vec_len trail.old ≤ 6 }
        ensures taken { spec.Takes (spec.listed self.now p.now way.now verdict) result trail.old.items trail.new.items }
        ensures reads { c.new ≤ c.old + 1122 + outbound_covering self.now p.now way.now.egress }
    {
        match verdict {
            AccessVerdict::Permit(who) => {
                note(trail, Phase::AccessListIn, Detail::By(copy_of(&who)));
                self.through(p, way, who, trail, c)
            }
            AccessVerdict::Deny(who) => Err(stop(trail, Phase::AccessListIn, denied(who))),
        }
    }

    /// ROUTE-LOOKUP and the steps after it.
    #[tactic(auto, unfolding(crate::specs::Decisions::routed))]
    fn routed(
        &self,
        p: &Packet,
        way: Option<Candidate>,
        trail: &mut Trail,
        c: &mut Counter,
    ) -> Result<Decision, DropReason>
        requires { array_vec_len trail.old ≤ 4 }
        ensures taken { spec.Takes (spec.routed self.now p.now way) result trail.old.items trail.new.items }
        ensures reads { c.new ≤ c.old + 3366 + spec.asked_covering self.now p.now way }
    {
        let Some(way) = way else {
            return Err(stop(trail, Phase::RouteLookup, DropReason::NoRoute));
        };
        let detail = Detail::Routed {
            route: way.route,
            egress: way.egress,
        };
        note(trail, Phase::RouteLookup, detail);
        let reason = same_security(self.config(), p.ifc, way.egress);
        check(trail, Phase::SameSecurity, reason)?;
        let verdict = self.inbound(p, way.egress, c);
        self.listed(p, &way, verdict, trail, c)
    }

    /// UN-NAT and the steps after it.
    #[tactic(auto, unfolding(crate::specs::Decisions::aimed, crate::specs::Decisions::most_read))]
    fn aimed(&self, p: &Packet, trail: &mut Trail, c: &mut Counter) -> Result<Decision, DropReason>
        requires { array_vec_len trail.old ≤ 2 }
        ensures taken { spec.Takes (spec.aimed self.now p.now) result trail.old.items trail.new.items }
        ensures reads { c.new ≤ c.old + spec.most_read self.now p.now }
    {
        note(trail, Phase::UnNat, Detail::Place(None));
        check(trail, Phase::ToTheBox, to_the_box(self.config(), p.dst))?;
        let way = self.route_of(p.dst, c);
        self.routed(p, way, trail, c)
    }

    /// Decides a packet that belongs to no live connection, and adds the steps from STATE on to the trail, up to the
    /// first drop.
    #[tactic(auto, unfolding(crate::specs::Decisions::decide))]
    pub fn decide(
        &self,
        p: &Packet,
        trail: &mut Trail,
        c: &mut Counter,
    ) -> Result<Decision, DropReason>
        requires named { IsTrue (is_named self.now.net p.now.ifc) }
        requires begun { spec.IsBegun trail.old.items }
        ensures decided { result ≡ (spec.decide self.now p.now).outcome }
        ensures steps { trail.new.items ≡ trail.old.items ++ (spec.decide self.now p.now).steps }
        ensures reads { c.new ≤ c.old + spec.most_read self.now p.now }
    {
        check(trail, Phase::State, not_syn(p))?;
        self.aimed(p, trail, c)
    }
}
