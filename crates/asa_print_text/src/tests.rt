//! Printed lines, byte for byte.
use crate::{Word, push_inner, push_ports, push_protocol, push_top};
use asa_base::{PortRange, Ports};
use asa_text::Addr;

#[test]
fn lines_are_words_with_one_space_between(rt: HostRuntime) {
    let mut out = Vec::new(rt.alloc());
    let route = [
        Word::Text(b"outside"),
        Word::Address(Addr(0xCB007101)),
        Word::Number(1),
    ];
    let top = push_top(&mut out, b"route", &route).is_ok();
    let inner = push_inner(&mut out, &[Word::Text(b"no"), Word::Text(b"nameif")]).is_ok();
    let alone = push_top(&mut out, b"shutdown", &[]).is_ok();
    assert_eq!(rt; (top, inner, alone), (true, true, true));
    assert_eq!(rt;
        out.as_slice(),
        b"route outside 203.0.113.1 1\n no nameif\nshutdown\n".as_slice()
    );
}

#[test]
fn ports_are_printed_by_their_ranges(rt: HostRuntime) {
    let mut out = Vec::new(rt.alloc());
    let https = Ports::one(PortRange::only(443));
    let high = Ports::one(PortRange {
        first: 1024,
        last: 65535,
    });
    let others = Ports::two(
        PortRange { first: 0, last: 79 },
        PortRange {
            first: 81,
            last: 65535,
        },
    );
    let one = push_ports(&mut out, https).is_ok();
    let more = push_ports(&mut out, high).is_ok();
    let all_but = push_ports(&mut out, others).is_ok();
    assert_eq!(rt; (one, more, all_but), (true, true, true));
    assert_eq!(rt;
        out.as_slice(),
        b" eq 443 range 1024 65535 neq 80".as_slice()
    );
}

#[test]
fn four_protocols_have_names(rt: HostRuntime) {
    let mut out = Vec::new(rt.alloc());
    let ip = push_protocol(&mut out, None).is_ok();
    let icmp = push_protocol(&mut out, Some(1)).is_ok();
    let tcp = push_protocol(&mut out, Some(6)).is_ok();
    let udp = push_protocol(&mut out, Some(17)).is_ok();
    let gre = push_protocol(&mut out, Some(47)).is_ok();
    assert_eq!(rt; (ip, icmp, tcp, udp, gre), (true, true, true, true, true));
    assert_eq!(rt; out.as_slice(), b" ip icmp tcp udp 47".as_slice());
}
