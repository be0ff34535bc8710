//! What NAT rules ask of objects: their lines in a block, and how many addresses and networks a name has.
ghost use Rattle.std.specs.Prelude.{◌<◌, ◌^◌, length};

use crate::tests::{
    assert_hosts, assert_kind, assert_refused, assert_taken, blocks_of, name, table,
};
use crate::{ObjectFault, Objects};
use std::process::Abort;

/// Asserts what judging the first block of a text answers.
fn assert_judged(
    rt: &(impl Abort + AllocGlobal),
    objects: &mut Objects,
    answer: Result<(), ObjectFault>,
    text: &[u8],
)
    requires { length text.now < 2 ^ 31 }
{
    let blocks = blocks_of(rt, text);
    let block = blocks.as_slice().first().expect(rt, "a block");
    assert_eq!(rt; objects.judge(block), answer);
}

/// Asserts how many addresses a name has, and whether there is a network among them.
fn assert_addresses(rt: &impl Abort, objects: &Objects, text: &[u8], count: u64, has_subnet: bool) {
    let name = name(rt, text);
    assert_eq!(rt;
        (objects.address_count(&name), objects.has_subnet(&name)),
        (count, has_subnet)
    );
}

#[test]
fn nat_lines_leave_the_value(rt: HostRuntime) {
    let mut objects = table(&rt, b"object network A\n host 10.0.0.1\n");
    assert_taken(
        &rt,
        &mut objects,
        b"object network A\n host 10.0.0.2\n nat (any,any) static 10.0.0.9\n",
    );
    assert_hosts(&rt, &objects, b"A", &[2]);
    assert_taken(&rt, &mut objects, b"object network A\n no nat x\n");
    assert_hosts(&rt, &objects, b"A", &[2]);
    assert_refused(
        &rt,
        &mut objects,
        ObjectFault::Bad { line: 3, column: 7 },
        b"object network A\n nat dynamic interface\n host x\n",
    );
    assert_refused(
        &rt,
        &mut objects,
        ObjectFault::NoValue { column: 17 },
        b"object network B\n nat dynamic interface\n",
    );
    assert_kind(&rt, &objects, b"B", None);
    assert_hosts(&rt, &objects, b"A", &[2]);
}

#[test]
fn judging_tells_the_first_fault_of_a_line_and_takes_nothing(rt: HostRuntime) {
    let in_line_3 = ObjectFault::Bad { line: 3, column: 7 };
    let mut objects = table(
        &rt,
        b"object network A\n host 10.0.0.1\nobject-group network G\n network-object object A\n",
    );
    assert_judged(
        &rt,
        &mut objects,
        Err(in_line_3),
        b"object network B\n nat dynamic interface\n host x\n",
    );
    assert_judged(
        &rt,
        &mut objects,
        Err(ObjectFault::NameTaken),
        b"object service A\n service tcp\n",
    );
    assert_judged(
        &rt,
        &mut objects,
        Err(ObjectFault::Cycle { line: 2 }),
        b"object-group network G\n group-object G\n",
    );
    assert_judged(
        &rt,
        &mut objects,
        Ok(()),
        b"object network A\n host 10.0.0.2\n",
    );
    assert_kind(&rt, &objects, b"B", None);
    assert_hosts(&rt, &objects, b"G", &[1]);
}

#[test]
fn a_missing_value_is_no_fault_of_a_line(rt: HostRuntime) {
    let mut objects = Objects::new(rt.alloc());
    assert_judged(
        &rt,
        &mut objects,
        Ok(()),
        b"object network B\n nat dynamic interface\n",
    );
    assert_kind(&rt, &objects, b"B", None);
}

#[test]
fn faults_of_lines_tell_their_line(rt: HostRuntime) {
    let bad = ObjectFault::Bad { line: 3, column: 7 };
    let no_value = ObjectFault::NoValue { column: 17 };
    assert_eq!(rt;
        (ObjectFault::NameTaken.line(), bad.line()),
        (Some(1), Some(3))
    );
    assert_eq!(rt;
        (no_value.line(), ObjectFault::TooMany.line()),
        (None, None)
    );
}

#[test]
fn addresses_are_counted_member_by_member(rt: HostRuntime) {
    let mut objects = table(
        &rt,
        b"object network R\n range 10.0.0.1 10.0.0.4\nobject network S\n subnet 10.1.0.0 255.255.255.0\nobject-group network G\n network-object object S\n network-object host 10.0.0.9\n network-object object R\nobject-group network Q\n group-object G\n network-object object S\n",
    );
    assert_addresses(&rt, &objects, b"R", 4, false);
    assert_addresses(&rt, &objects, b"S", 256, true);
    assert_addresses(&rt, &objects, b"G", 261, true);
    assert_addresses(&rt, &objects, b"Q", 517, true);
    assert_taken(&rt, &mut objects, b"object network S\n host 10.1.0.1\n");
    assert_addresses(&rt, &objects, b"G", 6, false);
    assert_addresses(&rt, &objects, b"Q", 7, false);
    assert_addresses(&rt, &objects, b"absent", 0, false);
}

#[test]
fn one_address_with_a_mask_is_a_network_and_all_addresses_are_2_to_the_32(rt: HostRuntime) {
    let objects = table(
        &rt,
        b"object network S\n subnet 10.1.0.0 255.255.255.255\nobject network W\n subnet 0.0.0.0 0.0.0.0\n",
    );
    assert_addresses(&rt, &objects, b"S", 1, true);
    assert_addresses(&rt, &objects, b"W", 4_294_967_296, true);
}
