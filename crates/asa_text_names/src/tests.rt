//! What lies outside the contracts: that the tables have the names and numbers of the field.
use crate::{parse_icmp_type, parse_port, parse_proto};
use asa_text::WordFault;

#[test]
fn ports_have_their_names(rt: HostRuntime) {
    assert_eq!(rt; parse_port(b"aol"), Ok(5190));
    assert_eq!(rt; parse_port(b"www"), Ok(80));
    assert_eq!(rt; parse_port(b"https"), Ok(443));
    assert_eq!(rt; parse_port(b"sqlnet"), Ok(1521));
    assert_eq!(rt; parse_port(b"pptp"), Ok(1723));
    assert_eq!(rt; parse_port(b"echo"), Ok(7));
    assert_eq!(rt; parse_port(b"xdmcp"), Ok(177));
    assert_eq!(rt; parse_port(b"WWW"), Err(WordFault::UnknownName));
    assert_eq!(rt; parse_port(b"tcp"), Err(WordFault::UnknownName));
}

#[test]
fn a_port_is_at_most_65535(rt: HostRuntime) {
    assert_eq!(rt; parse_port(b"0"), Ok(0));
    assert_eq!(rt; parse_port(b"00065535"), Ok(65535));
    assert_eq!(rt; parse_port(b"65536"), Err(WordFault::OutOfRange));
    assert_eq!(rt; parse_port(b"80x"), Err(WordFault::UnknownName));
    assert_eq!(rt; parse_port(b""), Err(WordFault::Empty));
}

#[test]
fn protocols_have_their_names(rt: HostRuntime) {
    assert_eq!(rt; parse_proto(b"ip"), Ok(None));
    assert_eq!(rt; parse_proto(b"icmp"), Ok(Some(1)));
    assert_eq!(rt; parse_proto(b"pptp"), Ok(Some(47)));
    assert_eq!(rt; parse_proto(b"ipsec"), Ok(Some(50)));
    assert_eq!(rt; parse_proto(b"sctp"), Ok(Some(132)));
    assert_eq!(rt; parse_proto(b"1"), Ok(Some(1)));
    assert_eq!(rt; parse_proto(b"255"), Ok(Some(255)));
    assert_eq!(rt; parse_proto(b"0"), Err(WordFault::OutOfRange));
    assert_eq!(rt; parse_proto(b"256"), Err(WordFault::OutOfRange));
    assert_eq!(rt; parse_proto(b"www"), Err(WordFault::UnknownName));
    assert_eq!(rt; parse_proto(b""), Err(WordFault::Empty));
}

#[test]
fn icmp_types_have_their_names(rt: HostRuntime) {
    assert_eq!(rt; parse_icmp_type(b"echo-reply"), Ok(0));
    assert_eq!(rt; parse_icmp_type(b"echo"), Ok(8));
    assert_eq!(rt; parse_icmp_type(b"traceroute"), Ok(30));
    assert_eq!(rt; parse_icmp_type(b"mobile-redirect"), Ok(32));
    assert_eq!(rt; parse_icmp_type(b"255"), Ok(255));
    assert_eq!(rt; parse_icmp_type(b"256"), Err(WordFault::OutOfRange));
    assert_eq!(rt; parse_icmp_type(b"unreached"), Err(WordFault::UnknownName));
    assert_eq!(rt; parse_icmp_type(b""), Err(WordFault::Empty));
}
