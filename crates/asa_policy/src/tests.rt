//! Packets that small configurations decide: each drop, each way to be let in, and which route is taken.
ghost use Rattle.std.specs.Prelude.{◌<◌, length};

use crate::{
    Decision, Detail, DropReason, Phase, Policy, Route, SourceMap, Step, Trail, begun_trail,
    compile,
};
use asa_base::{AccessBy, Addr, Counter, Name, Packet};
use asa_config::Config;
use asa_text::cut_blocks;
use std::alloc::Global;
use std::process::Abort;
use std::test::Fail;

const FIVE_INTERFACES: &[u8] =
    b"interface Ethernet0\n nameif outside\n security-level 0\n ip address 203.0.113.2 255.255.255.0
interface Ethernet1\n nameif inside\n security-level 100\n ip address 10.0.0.1 255.255.255.0
interface Ethernet2\n nameif dmz\n security-level 50\n ip address 172.16.0.1 255.255.255.0
interface Ethernet3\n nameif partner\n security-level 50\n ip address 192.168.7.1 255.255.255.0
interface Ethernet4\n ip address 10.9.9.9 255.255.255.0\n";

const OUTSIDE: u8 = 0;

const INSIDE: u8 = 1;

const DMZ: u8 = 2;

fn configured(alloc: Global, config: Config, text: &[u8]) -> Result<Config, Fail>
    requires { length text.now < 2000 }
{
    let blocks = cut_blocks(alloc, text, 1)??;
    let mut config = config;
    for block in blocks.as_slice() {
        config = config.step(block, true)?;
    }
    Ok(config)
}

fn compiled(alloc: Global, more: &[u8]) -> Result<Policy, Fail>
    requires { length more.now < 2000 }
{
    let config = configured(alloc, Config::empty(alloc), FIVE_INTERFACES)?;
    let config = configured(alloc, config, more)?;
    Ok(compile(alloc, &config)?)
}

fn address(a: u8, b: u8, c: u8, d: u8) -> Addr {
    Addr(u32::from_be_bytes([a, b, c, d]))
}

fn syn(ifc: u8, src: Addr, dst: Addr, dport: u16) -> Packet {
    Packet {
        ifc,
        proto: 6,
        src,
        sport: 50000,
        dst,
        dport,
        flags: 1,
        itype: 0,
        icode: 0,
    }
}

fn decided(rt: &impl Abort, policy: &Policy, p: &Packet) -> (Trail, Result<Decision, DropReason>) {
    assert!(rt; policy.is_named(p.ifc));
    let mut trail = begun_trail();
    let mut counter = Counter::new();
    let outcome = policy.decide(p, &mut trail, &mut counter);
    (trail, outcome)
}

fn step(phase: Phase, detail: Detail) -> Step {
    Step { phase, detail }
}

#[test]
fn the_level_rule_lets_a_flow_out_by_the_default_route(rt: HostRuntime) -> Result<(), Fail> {
    let policy = compiled(rt.alloc(), b"route outside 0.0.0.0 0.0.0.0 203.0.113.1 1\n")?;
    let p = syn(INSIDE, address(10, 0, 0, 5), address(198, 51, 100, 9), 443);
    let (trail, outcome) = decided(&rt, &policy, &p);
    let wanted = Decision {
        egress: OUTSIDE,
        dst: address(198, 51, 100, 9),
        dport: 443,
        source: SourceMap::Plain,
        unnat: None,
        route: Route::Static(1),
        inbound: AccessBy::Level,
        outbound: AccessBy::NoList,
    };
    assert_eq!(rt; outcome, Ok(wanted));
    let pair = Detail::Pair {
        unnat: None,
        reply: None,
    };
    let routed = Detail::Routed {
        route: Route::Static(1),
        egress: OUTSIDE,
    };
    let steps = [
        step(Phase::FlowLookup, Detail::None),
        step(Phase::State, Detail::None),
        step(Phase::UnNat, Detail::Place(None)),
        step(Phase::ToTheBox, Detail::None),
        step(Phase::RouteLookup, routed),
        step(Phase::SameSecurity, Detail::None),
        step(Phase::AccessListIn, Detail::By(AccessBy::Level)),
        step(Phase::Nat, Detail::Place(None)),
        step(Phase::ReversePath, pair),
        step(Phase::AccessListOut, Detail::By(AccessBy::NoList)),
    ];
    assert_eq!(rt; trail.as_slice(), steps.as_slice());
    Ok(())
}

const WEB_SERVERS: &[u8] = b"access-list OUT extended permit tcp any host 10.0.0.80 eq 80
access-list OUT extended permit tcp host 198.51.100.9 any
access-group OUT in interface outside\n";

#[test]
fn the_first_line_that_holds_the_packet_lets_it_in(rt: HostRuntime) -> Result<(), Fail> {
    let policy = compiled(rt.alloc(), WEB_SERVERS)?;
    let far = address(198, 51, 100, 9);
    let other = address(198, 51, 100, 10);
    let web = address(10, 0, 0, 80);
    for (src, dport, line) in [(other, 80, 1), (far, 80, 1), (far, 22, 2)] {
        let (_trail, outcome) = decided(&rt, &policy, &syn(OUTSIDE, src, web, dport));
        let name = Name::new(b"OUT").ok_or("a name")?;
        let decision = outcome.ok().ok_or("a decision")?;
        assert_eq!(rt; decision.inbound, AccessBy::List { name, line });
        assert_eq!(rt; decision.egress, INSIDE);
        assert_eq!(rt; decision.route, Route::Connected);
    }
    Ok(())
}

fn expect_drop(
    rt: &impl Abort,
    policy: &Policy,
    p: &Packet,
    steps: usize,
    phase: Phase,
    reason: DropReason,
) {
    let (trail, outcome) = decided(rt, policy, p);
    assert_eq!(rt; outcome, Err(reason.copy()));
    assert_eq!(rt; trail.len(), steps);
    let last = step(phase, Detail::Dropped(reason));
    assert!(rt; trail.as_slice().last() == Some(&last));
}

#[test]
fn each_drop_comes_at_its_step(rt: HostRuntime) -> Result<(), Fail> {
    let policy = compiled(rt.alloc(), WEB_SERVERS)?;
    let inside = address(10, 0, 0, 5);
    let far = address(198, 51, 100, 9);
    let acknowledges = Packet {
        flags: 3,
        ..syn(INSIDE, inside, far, 443)
    };
    let implicit = DropReason::AclIn {
        by: AccessBy::Implicit,
    };
    let boxed = DropReason::ToTheBox { ifc: OUTSIDE };
    let partner = address(192, 168, 7, 5);
    let other = address(198, 51, 100, 10);
    let outside_own = address(203, 0, 113, 2);
    let unnamed_net = address(10, 9, 9, 5);
    expect_drop(
        &rt,
        &policy,
        &acknowledges,
        2,
        Phase::State,
        DropReason::NotSyn,
    );
    expect_drop(
        &rt,
        &policy,
        &syn(INSIDE, inside, outside_own, 22),
        4,
        Phase::ToTheBox,
        boxed,
    );
    expect_drop(
        &rt,
        &policy,
        &syn(INSIDE, inside, far, 443),
        5,
        Phase::RouteLookup,
        DropReason::NoRoute,
    );
    expect_drop(
        &rt,
        &policy,
        &syn(INSIDE, inside, unnamed_net, 443),
        5,
        Phase::RouteLookup,
        DropReason::NoRoute,
    );
    expect_drop(
        &rt,
        &policy,
        &syn(INSIDE, inside, address(10, 0, 0, 6), 80),
        6,
        Phase::SameSecurity,
        DropReason::IntraInterface,
    );
    expect_drop(
        &rt,
        &policy,
        &syn(DMZ, address(172, 16, 0, 5), partner, 80),
        6,
        Phase::SameSecurity,
        DropReason::InterInterface,
    );
    expect_drop(
        &rt,
        &policy,
        &syn(DMZ, address(172, 16, 0, 5), inside, 80),
        7,
        Phase::AccessListIn,
        DropReason::Level,
    );
    expect_drop(
        &rt,
        &policy,
        &syn(OUTSIDE, other, address(10, 0, 0, 80), 22),
        7,
        Phase::AccessListIn,
        implicit,
    );
    Ok(())
}

const RIVAL_ROUTES: &[u8] = b"route outside 0.0.0.0 0.0.0.0 203.0.113.1 1
route dmz 198.51.100.0 255.255.255.0 172.16.0.9 200
route dmz 192.0.2.0 255.255.255.0 172.16.0.9 20
route outside 192.0.2.0 255.255.255.0 203.0.113.1 10
route dmz 192.0.2.128 255.255.255.128 172.16.0.9 30
route outside 192.0.2.128 255.255.255.128 203.0.113.1 30
route dmz 203.0.113.0 255.255.255.0 172.16.0.9 1\n";

#[test]
fn the_longest_prefix_then_the_distance_then_the_line_decide_the_route(
    rt: HostRuntime,
) -> Result<(), Fail> {
    let policy = compiled(rt.alloc(), RIVAL_ROUTES)?;
    let rows = [
        (address(8, 8, 8, 8), Route::Static(1), OUTSIDE),
        (address(198, 51, 100, 9), Route::Static(2), DMZ),
        (address(192, 0, 2, 9), Route::Static(4), OUTSIDE),
        (address(192, 0, 2, 129), Route::Static(5), DMZ),
        (address(203, 0, 113, 9), Route::Connected, OUTSIDE),
    ];
    for (dst, route, egress) in rows {
        let (_trail, outcome) = decided(&rt, &policy, &syn(INSIDE, address(10, 0, 0, 5), dst, 443));
        let decision = outcome.ok().ok_or("a decision")?;
        assert_eq!(rt; decision.route, route);
        assert_eq!(rt; decision.egress, egress);
    }
    Ok(())
}
