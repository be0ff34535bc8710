//! What lies outside the contracts: orders from the rules.
ghost use Rattle.std.specs.Prelude.{◌≡◌};

use crate::{NatKey, order};
use asa_base::{Addr, Name};
use std::process::Abort;

/// A rule's key.
fn key(rt: &impl Abort, section: u8, name: &[u8], is_static: bool, count: u64, first: u32) -> NatKey
    ensures { result.section ≡ section }
{
    NatKey {
        section,
        is_static,
        count,
        first: Addr(first),
        name: Name::new(name).expect(rt, "a name"),
    }
}

#[test]
fn rules_of_objects_stand_by_kind_then_size_then_address_then_name(rt: HostRuntime) {
    let keys = [
        key(&rt, 2, b"s1", true, 256, 0xc0a8_0100),
        key(&rt, 2, b"s2", true, 256, 0x0a01_0100),
        key(&rt, 2, b"s3", true, 1, 0xc0a8_0101),
        key(&rt, 2, b"def", false, 256, 0xac10_0100),
        key(&rt, 2, b"abc", false, 256, 0xac10_0100),
    ];
    let indexes = order(rt.alloc(), &keys).expect(&rt, "memory for five indexes");
    assert_eq!(rt; indexes.as_slice(), [2, 1, 0, 4, 3].as_slice());
}

#[test]
fn manual_rules_stand_around_those_of_objects(rt: HostRuntime) {
    let keys = [
        key(&rt, 3, b"z", true, 1, 0),
        key(&rt, 1, b"y", true, 1, 0),
        key(&rt, 2, b"lan", true, 256, 0x0a00_0000),
        key(&rt, 1, b"x", true, 1, 0),
    ];
    let indexes = order(rt.alloc(), &keys).expect(&rt, "memory for four indexes");
    assert_eq!(rt; indexes.as_slice(), [1, 3, 2, 0].as_slice());
}
