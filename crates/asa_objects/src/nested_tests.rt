//! Blocks that change one group while other groups name it.
ghost use Rattle.std.specs.Prelude.{◌<◌, ◌^◌, length};

use crate::tests::{
    assert_hosts, assert_members, assert_prefixes, assert_refused, assert_taken, levels, table,
};
use crate::{ObjectFault, Objects};
use std::process::Abort;

/// Asserts how many members I, O, P and Q have.
fn assert_counts(rt: &impl Abort, objects: &Objects, counts: [u64; 4]) {
    let [i, o, p, q] = counts;
    assert_members(rt, objects, b"I", i);
    assert_members(rt, objects, b"O", o);
    assert_members(rt, objects, b"P", p);
    assert_members(rt, objects, b"Q", q);
}

#[test]
fn a_change_of_an_inner_group_counts_in_all_above(rt: HostRuntime) {
    // O has I and J, P has O and a host, and Q has O and I, so it has the members of I twice.
    let mut objects = table(
        &rt,
        b"object-group network I\n network-object host 10.0.0.1\nobject-group network J\n network-object host 10.0.0.2\n network-object host 10.0.0.3\nobject-group network O\n group-object I\n group-object J\nobject-group network P\n group-object O\n network-object host 10.0.0.9\nobject-group network Q\n group-object O\n group-object I\n",
    );
    assert_counts(&rt, &objects, [1, 3, 4, 4]);
    assert_taken(
        &rt,
        &mut objects,
        b"object-group network I\n network-object host 10.0.0.7\n",
    );
    assert_counts(&rt, &objects, [2, 4, 5, 6]);
    assert_members(&rt, &objects, b"J", 2);
    assert_hosts(&rt, &objects, b"P", &[1, 7, 2, 3, 9]);
    assert_hosts(&rt, &objects, b"Q", &[1, 7, 2, 3, 1, 7]);
    assert_taken(
        &rt,
        &mut objects,
        b"object-group network I\n no network-object host 10.0.0.1\nobject-group network O\n group-object I\n",
    );
    assert_counts(&rt, &objects, [1, 3, 4, 4]);
    assert_members(&rt, &objects, b"J", 2);
    assert_hosts(&rt, &objects, b"P", &[7, 2, 3, 9]);
    assert_prefixes(&rt, &objects, b"Q", 4);
}

/// I is in O and in P, and Q has both of these, so it has the members of I twice. A is the first name, and in no group.
fn twice(rt: &(impl Abort + AllocGlobal)) -> Objects {
    table(
        rt,
        b"object network A\n host 10.0.0.8\nobject-group network I\n network-object host 10.0.0.1\nobject-group network O\n group-object I\nobject-group network P\n group-object I\nobject-group network Q\n group-object O\n group-object P\n",
    )
}

/// The members of O: I and 65,535 others, since the group aN has 2 to the N members.
fn fill(rt: &(impl Abort + AllocGlobal), objects: &mut Objects) {
    assert_taken(
        rt,
        objects,
        b"object-group network O\n group-object I\n group-object a0\n group-object a1\n group-object a2\n group-object a3\n group-object a4\n group-object a5\n group-object a6\n group-object a7\n group-object a8\n group-object a9\n group-object a10\n group-object a11\n group-object a12\n group-object a13\n group-object a14\n group-object a15\n",
    );
}

/// Groups of which aN has 2 to the N members, and one more.
fn almost_full(rt: &(impl Abort + AllocGlobal), more: &[u8]) -> Objects
    requires { length more.now < 2 ^ 31 }
{
    let mut objects = levels(rt, 15, b"\n network-object host 10.0.0.1");
    assert_taken(rt, &mut objects, more);
    objects
}

/// Asserts that I has one member, with which O is full, and that one more is refused.
fn assert_full(rt: &(impl Abort + AllocGlobal), objects: &mut Objects, number: u8) {
    assert_refused(
        rt,
        objects,
        ObjectFault::TooMany,
        b"object-group network I\n network-object host 10.0.0.7\n",
    );
    assert_hosts(rt, objects, b"I", &[number]);
    assert_members(rt, objects, b"O", 65536);
}

#[test]
fn a_further_block_is_refused_while_an_outer_group_is_full(rt: HostRuntime) {
    let mut objects = almost_full(&rt, b"object-group network I\n");
    fill(&rt, &mut objects);
    assert_members(&rt, &objects, b"O", 65535);
    assert_taken(
        &rt,
        &mut objects,
        b"object-group network I\n network-object host 10.0.0.2\n",
    );
    assert_full(&rt, &mut objects, 2);
    assert_taken(
        &rt,
        &mut objects,
        b"object-group network I\n no network-object host 10.0.0.2\n",
    );
    assert_members(&rt, &objects, b"O", 65535);
    assert_taken(
        &rt,
        &mut objects,
        b"object-group network I\n network-object host 10.0.0.3\n",
    );
    assert_full(&rt, &mut objects, 3);
}

#[test]
fn a_further_block_that_leads_back_is_refused(rt: HostRuntime) {
    let mut objects = twice(&rt);
    assert_taken(
        &rt,
        &mut objects,
        b"object-group network I\n network-object host 10.0.0.2\n",
    );
    assert_refused(
        &rt,
        &mut objects,
        ObjectFault::Cycle { line: 3 },
        b"object-group network I\n network-object host 10.0.0.3\n group-object Q\n",
    );
    assert_refused(
        &rt,
        &mut objects,
        ObjectFault::Cycle { line: 2 },
        b"object-group network I\n group-object I\n",
    );
    assert_counts(&rt, &objects, [2, 2, 2, 4]);
    assert_taken(
        &rt,
        &mut objects,
        b"object-group network I\n network-object host 10.0.0.3\n",
    );
    assert_counts(&rt, &objects, [3, 3, 3, 6]);
}
