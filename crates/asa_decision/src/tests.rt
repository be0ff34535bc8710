//! Steps and trails by example.
use crate::{begun_trail, check, reversed, routed, state, translated};
use asa_base::{Addr, NatPlace, Packet};
use asa_flow::{Detail, DropReason, Phase, Step};

/// A TCP packet with these flags: S = 1, A = 2, F = 4, R = 8.
fn tcp(flags: u8) -> Packet {
    Packet {
        ifc: 0,
        proto: 6,
        src: Addr(0x0a00_0001),
        sport: 40000,
        dst: Addr(0xc633_6401),
        dport: 443,
        flags,
        itype: 0,
        icode: 0,
    }
}

#[test]
fn only_a_syn_without_ack_fin_and_reset_opens(rt: HostRuntime) {
    assert_eq!(rt; state(&tcp(1)), Ok(Detail::None));
    for flags in [0, 2, 3, 5, 9, 15] {
        assert_eq!(rt; state(&tcp(flags)), Err(DropReason::NotSyn));
    }
}

#[test]
fn a_trail_ends_with_the_drop(rt: HostRuntime) {
    let mut trail = begun_trail();
    let first = check(&mut trail, Phase::State, state(&tcp(1)));
    let second = check(&mut trail, Phase::RouteLookup, routed(None));
    assert_eq!(rt; first, Ok(()));
    assert_eq!(rt; second, Err(DropReason::NoRoute));
    assert_eq!(rt;
        trail.as_slice(),
        [
            Step {
                phase: Phase::FlowLookup,
                detail: Detail::None
            },
            Step {
                phase: Phase::State,
                detail: Detail::None
            },
            Step {
                phase: Phase::RouteLookup,
                detail: Detail::Dropped(DropReason::NoRoute)
            },
        ]
        .as_slice()
    );
}

#[test]
fn a_rule_that_serves_nothing_drops_at_its_place(rt: HostRuntime) {
    let place = NatPlace {
        section: 2,
        place: 7,
    };
    assert_eq!(rt; translated(None, false), Ok(Detail::Place(None)));
    assert_eq!(rt;
        translated(Some(place), true),
        Ok(Detail::Place(Some(place)))
    );
    assert_eq!(rt;
        translated(Some(place), false),
        Err(DropReason::NatProto { place })
    );
}

#[test]
fn a_reply_by_another_rule_drops_with_both_places(rt: HostRuntime) {
    let unnat = Some(NatPlace {
        section: 1,
        place: 3,
    });
    assert_eq!(rt;
        reversed(true, unnat, None),
        Ok(Detail::Pair { unnat, reply: None })
    );
    assert_eq!(rt;
        reversed(false, unnat, None),
        Err(DropReason::ReversePath { unnat, reply: None })
    );
}
