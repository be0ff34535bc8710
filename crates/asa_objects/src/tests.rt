//! What lies outside the contracts: that the clauses mean what they should, at small tables and at large ones.
ghost use Rattle.std.specs.Prelude.{◌<◌, ◌^◌, length};

use crate::{ExpandFault, ObjectFault, Objects};
use asa_base::{Addr, Kind, Member, Name, PortProto, PortRange, Service};
use asa_text::{Block, Items, Shared, cut_blocks, push_bytes, push_number};
use std::ops::Range;
use std::process::Abort;

pub(crate) fn name(rt: &impl Abort, text: &[u8]) -> Name {
    Name::new(text).expect(rt, "a name")
}

/// The blocks of a text.
pub(crate) fn blocks_of(rt: &(impl Abort + AllocGlobal), text: &[u8]) -> Items<Block>
    requires { length text.now < 2 ^ 31 }
{
    let blocks = cut_blocks(rt.alloc(), text, 1).expect(rt, "memory for the blocks");
    blocks.expect(rt, "a top-level line before the others")
}

/// Takes blocks up to the first that is refused, and tells that refusal.
fn take(objects: &mut Objects, blocks: &[Block]) -> Result<(), ObjectFault> {
    for block in blocks {
        objects.define(block)?;
    }
    Ok(())
}

/// Asserts that the blocks of a text are all taken.
pub(crate) fn assert_taken(rt: &(impl Abort + AllocGlobal), objects: &mut Objects, text: &[u8])
    requires { length text.now < 2 ^ 31 }
{
    let blocks = blocks_of(rt, text);
    assert_eq!(rt; take(objects, blocks.as_slice()), Ok(()));
}

/// Asserts that a block of a text is refused, the ones before it being taken.
pub(crate) fn assert_refused(
    rt: &(impl Abort + AllocGlobal),
    objects: &mut Objects,
    fault: ObjectFault,
    text: &[u8],
)
    requires { length text.now < 2 ^ 31 }
{
    let blocks = blocks_of(rt, text);
    assert_eq!(rt; take(objects, blocks.as_slice()), Err(fault));
}

/// The table of a text whose blocks are all taken.
pub(crate) fn table(rt: &(impl Abort + AllocGlobal), text: &[u8]) -> Objects
    requires { length text.now < 2 ^ 31 }
{
    let mut objects = Objects::new(rt.alloc());
    assert_taken(rt, &mut objects, text);
    objects
}

/// The table of a text that a loop wrote.
fn long_table(rt: &(impl Abort + AllocGlobal), text: &[u8]) -> Objects {
    assert!(rt; text.len() <= 8_000_000);
    table(rt, text)
}

fn copy_of(rt: &impl Abort, objects: &Objects) -> Objects {
    objects.copy().expect(rt, "memory for a copy")
}

/// The names that reach what the first block of a text defines.
fn reaching(rt: &(impl Abort + AllocGlobal), objects: &Objects, text: &[u8]) -> Shared<Items<Name>>
    requires { length text.now < 2 ^ 31 }
{
    let blocks = blocks_of(rt, text);
    let block = blocks.as_slice().first().expect(rt, "a block");
    objects
        .reaching(rt.alloc(), block)
        .expect(rt, "memory for the names")
}

fn assert_has_name(rt: &impl Abort, names: &[Name], text: &[u8]) {
    let name = name(rt, text);
    assert!(rt; names.contains(&name));
}

/// Asserts how many members a name has.
pub(crate) fn assert_members(rt: &impl Abort, objects: &Objects, text: &[u8], count: u64) {
    let name = name(rt, text);
    assert_eq!(rt; objects.member_count(&name), count);
}

/// Asserts how many prefixes a name has.
pub(crate) fn assert_prefixes(rt: &impl Abort, objects: &Objects, text: &[u8], count: u64) {
    let name = name(rt, text);
    assert_eq!(rt; objects.prefix_total(&name), count);
}

/// Asserts how many services a name has.
fn assert_services(rt: &impl Abort, objects: &Objects, text: &[u8], count: u64) {
    let name = name(rt, text);
    assert_eq!(rt; objects.service_count(&name), count);
}

pub(crate) fn assert_kind(rt: &impl Abort, objects: &Objects, text: &[u8], kind: Option<Kind>) {
    let name = name(rt, text);
    assert_eq!(rt; objects.kind_of(&name), kind);
}

/// Asserts that the first group that names a name is this one.
fn assert_user(rt: &impl Abort, objects: &Objects, text: &[u8], user: &[u8]) {
    let name = name(rt, text);
    let first = objects
        .group_using(&name)
        .expect(rt, "a group that names it");
    assert!(rt; first.bytes() == user);
    assert!(rt; objects.is_used(&name));
}

/// Asserts that no group names a name.
fn assert_free(rt: &impl Abort, objects: &Objects, text: &[u8]) {
    let name = name(rt, text);
    assert!(rt; objects.group_using(&name).is_none());
    assert!(rt; !objects.is_used(&name));
}

/// Takes out a name that no group names, and answers whether it was there.
fn removed(rt: &impl Abort, objects: &mut Objects, text: &[u8]) -> bool {
    let name = name(rt, text);
    assert!(rt; objects.group_using(&name).is_none());
    objects.remove(&name)
}

fn members_of(rt: &(impl Abort + AllocGlobal), objects: &Objects, text: &[u8]) -> Items<Member> {
    objects
        .members(rt.alloc(), &name(rt, text))
        .expect(rt, "memory for the members")
}

/// What a name of addresses stands for.
fn network_of(rt: &impl Abort, objects: &Objects, text: &[u8]) -> Items<Member> {
    objects
        .expand_network(&name(rt, text))
        .expect(rt, "members")
}

/// What a name of services stands for.
fn service_of(rt: &impl Abort, objects: &Objects, text: &[u8]) -> Items<Service> {
    objects
        .expand_service(&name(rt, text))
        .expect(rt, "services")
}

/// Asserts how many members a name stands for.
fn assert_network(rt: &impl Abort, objects: &Objects, text: &[u8], count: usize) {
    let members = network_of(rt, objects, text);
    assert_eq!(rt; members.len(), count);
}

/// Asserts the first of the services that a name stands for.
fn assert_first_service(rt: &impl Abort, objects: &Objects, text: &[u8], service: Service) {
    let services = service_of(rt, objects, text);
    assert_eq!(rt; services.as_slice().first().copied(), Some(service));
}

/// Asserts that a name stands for no members.
fn assert_no_network(rt: &impl Abort, objects: &Objects, text: &[u8], fault: ExpandFault) {
    let name = name(rt, text);
    assert_eq!(rt; objects.expand_network(&name).err(), Some(fault));
}

/// Asserts that a name stands for no services.
fn assert_no_service(rt: &impl Abort, objects: &Objects, text: &[u8], fault: ExpandFault) {
    let name = name(rt, text);
    assert_eq!(rt; objects.expand_service(&name).err(), Some(fault));
}

/// The host whose number is in the last two bytes of its address.
fn host(number: u32) -> Member {
    Member::Host(Addr(0x0a00_0000 | number))
}

/// Asserts that a name stands for the hosts 10.0.0.n of these numbers, in their order.
pub(crate) fn assert_hosts(
    rt: &(impl Abort + AllocGlobal),
    objects: &Objects,
    group: &[u8],
    numbers: &[u8],
) {
    let members = members_of(rt, objects, group);
    let mut hosts = Vec::new(rt.alloc());
    for number in numbers {
        let host = host(u32::from(*number));
        hosts.push(host).expect(rt, "memory for a host");
    }
    assert!(rt; members.as_slice() == hosts.as_slice());
}

fn push(rt: &impl Abort, text: &mut Vec<u8>, bytes: &[u8]) {
    push_bytes(text, bytes).expect(rt, "memory for the text");
}

fn push_digits(rt: &impl Abort, text: &mut Vec<u8>, number: u32) {
    push_number(text, u64::from(number)).expect(rt, "memory for the text");
}

/// Each number of a range, written between two pieces.
fn push_repeated(
    rt: &impl Abort,
    text: &mut Vec<u8>,
    numbers: Range<u32>,
    before: &[u8],
    after: &[u8],
) {
    for number in numbers {
        push(rt, text, before);
        push_digits(rt, text, number);
        push(rt, text, after);
    }
}

/// A line of a host whose number is in the last two bytes of its address.
fn push_host(rt: &impl Abort, text: &mut Vec<u8>, before: &[u8], number: u32) {
    push(rt, text, before);
    push_digits(rt, text, number / 256);
    push(rt, text, b".");
    push_digits(rt, text, number % 256);
    push(rt, text, b"\n");
}

/// Lines of hosts, of which each is a number below 65,536 in the last two bytes of its address.
fn push_hosts(rt: &impl Abort, text: &mut Vec<u8>, before: &[u8], from: u32, to: u32) {
    for number in from..to {
        push_host(rt, text, before, number);
    }
}

/// A group of the hosts whose numbers are below 65,536, of which the first ones are taken out again.
fn hosts(rt: &(impl Abort + AllocGlobal), gone: u32) -> Objects {
    let mut text = Vec::new(rt.alloc());
    push(rt, &mut text, b"object-group network G\n");
    push_hosts(rt, &mut text, b" network-object host 10.0.", 0, 65536);
    push_hosts(rt, &mut text, b" no network-object host 10.0.", 0, gone);
    long_table(rt, text.as_slice())
}

/// A group of a level on a side that has both groups of the level below.
fn push_side(rt: &impl Abort, text: &mut Vec<u8>, side: &[u8], level: u32) {
    push(rt, text, b"object-group network ");
    push(rt, text, side);
    push_digits(rt, text, level);
    push(rt, text, b"\n group-object a");
    push_digits(rt, text, level.saturating_sub(1));
    push(rt, text, b"\n group-object b");
    push_digits(rt, text, level.saturating_sub(1));
    push(rt, text, b"\n");
}

/// A group that begins with this.
fn push_bottom(rt: &impl Abort, text: &mut Vec<u8>, group: &[u8], bottom: &[u8]) {
    push(rt, text, b"object-group network ");
    push(rt, text, group);
    push(rt, text, bottom);
    push(rt, text, b"\n");
}

/// Levels up to one, of two groups that each have both groups of the level below, over two groups that begin with this.
pub(crate) fn levels(rt: &(impl Abort + AllocGlobal), top: u32, bottom: &[u8]) -> Objects {
    let mut text = Vec::new(rt.alloc());
    push_bottom(rt, &mut text, b"a0", bottom);
    push_bottom(rt, &mut text, b"b0", bottom);
    for level in 1..=top {
        push_side(rt, &mut text, b"a", level);
        push_side(rt, &mut text, b"b", level);
    }
    long_table(rt, text.as_slice())
}

#[test]
fn a_group_that_names_one_that_is_not_there_or_itself_is_refused(rt: HostRuntime) {
    let unknown = ObjectFault::Unknown {
        line: 2,
        column: 15,
    };
    let cycle = ObjectFault::Cycle { line: 2 };
    let mut objects = Objects::new(rt.alloc());
    assert_refused(
        &rt,
        &mut objects,
        unknown,
        b"object-group network G\n group-object H\n",
    );
    assert_eq!(rt; objects.len(), 0);
    assert_refused(
        &rt,
        &mut objects,
        cycle,
        b"object-group network G\n group-object G\n",
    );
    assert_refused(
        &rt,
        &mut objects,
        cycle,
        b"object-group network G\n network-object host 10.0.0.9\nobject-group network H\n group-object G\nobject-group network I\n group-object H\nobject-group network G\n group-object I\n",
    );
    assert_eq!(rt; objects.len(), 3);
    assert_members(&rt, &objects, b"G", 1);
}

#[test]
fn groups_of_groups_reach_what_a_block_defines(rt: HostRuntime) {
    let objects = table(
        &rt,
        b"object-group network A\nobject-group network B\n group-object A\nobject-group network C\n network-object host 10.0.0.1\n group-object B\nobject-group network D\n network-object host 10.0.0.2\n",
    );
    let names = reaching(&rt, &objects, b"object-group network A\n group-object D\n");
    assert_eq!(rt; names.get().len(), 3);
    assert_has_name(&rt, names.get().as_slice(), b"A");
    assert_has_name(&rt, names.get().as_slice(), b"B");
    assert_has_name(&rt, names.get().as_slice(), b"C");
    let top = reaching(&rt, &objects, b"object-group network C\n");
    assert_eq!(rt; top.get().len(), 1);
    assert_has_name(&rt, top.get().as_slice(), b"C");
    let new = reaching(&rt, &objects, b"object-group network E\n group-object A\n");
    assert_eq!(rt; new.get().len(), 1);
    assert_has_name(&rt, new.get().as_slice(), b"E");
    let unread = reaching(&rt, &objects, b"object-group network\n");
    assert!(rt; unread.get().as_slice().is_empty());
}

#[test]
fn names_stand_for_their_members_in_order(rt: HostRuntime) {
    let objects = table(
        &rt,
        b"object network A\n range 10.0.0.1 10.0.0.6\nobject service S\n service tcp destination eq 80\nobject-group network G\n network-object host 10.0.0.9\nobject-group network H\n network-object host 10.0.0.1\n group-object G\n network-object object A\n network-object 10.0.1.0 255.255.255.255\n",
    );
    let members = network_of(&rt, &objects, b"H");
    assert_eq!(rt; members.len(), 4);
    assert_eq!(rt; members.as_slice().get(1).copied(), Some(host(9)));
    assert_eq!(rt; members.as_slice().get(3).copied(), Some(host(256)));
    assert_members(&rt, &objects, b"H", 4);
    assert_prefixes(&rt, &objects, b"H", 7);
    assert!(rt; members_of(&rt, &objects, b"H").as_slice() == members.as_slice());
    assert!(rt; members_of(&rt, &objects, b"S").as_slice().is_empty());
    let (s, h) = (name(&rt, b"S"), name(&rt, b"H"));
    let services = objects.services(rt.alloc(), &s).expect(&rt, "memory");
    assert_eq!(rt; services.len(), 1);
    let none = objects.services(rt.alloc(), &h).expect(&rt, "memory");
    assert_eq!(rt; none.len(), 0);
    assert_no_network(&rt, &objects, b"X", ExpandFault::Unknown);
    assert_no_network(&rt, &objects, b"S", ExpandFault::WrongKind);
    assert_no_service(&rt, &objects, b"A", ExpandFault::WrongKind);
    assert_no_service(&rt, &objects, b"X", ExpandFault::Unknown);
}

#[test]
fn services_of_every_kind_are_told(rt: HostRuntime) {
    let objects = table(
        &rt,
        b"object service S\n service tcp destination eq 80\nobject-group service G\n service-object tcp-udp destination neq 5\n service-object object S\nobject-group service P tcp-udp\n port-object range 1 9\nobject-group protocol Q\n protocol-object ip\nobject-group icmp-type I\n icmp-object echo\n",
    );
    assert_services(&rt, &objects, b"G", 5);
    assert_eq!(rt; service_of(&rt, &objects, b"G").len(), 5);
    let mut ports = Service::any();
    ports.dport = PortRange::new(1, 9).expect(&rt, "a range");
    let mut echo = Service::any();
    echo.proto = Some(1);
    echo.itype = Some(8);
    assert_first_service(&rt, &objects, b"P", ports);
    assert_first_service(&rt, &objects, b"Q", Service::any());
    assert_first_service(&rt, &objects, b"I", echo);
    let (s, g, p) = (name(&rt, b"S"), name(&rt, b"G"), name(&rt, b"P"));
    let http = PortRange::new(80, 80).expect(&rt, "a range");
    assert_eq!(rt; objects.service_range(&s).map(|s| s.dport), Some(http));
    assert_eq!(rt; objects.service_range(&g), None);
    assert_eq!(rt; objects.port_proto(&p), Some(PortProto::TcpUdp));
    assert_kind(&rt, &objects, b"I", Some(Kind::IcmpGroup));
}

/// Asserts that a group G with two members stays as it is where blocks are refused.
fn assert_refusals(rt: &(impl Abort + AllocGlobal), objects: &mut Objects) {
    let missing = ObjectFault::NoSuchMember { line: 3 };
    let empty = ObjectFault::NoValue { column: 17 };
    assert_refused(
        rt,
        objects,
        missing,
        b"object-group network G\n network-object host 10.0.0.8\n no network-object host 10.0.0.7\n",
    );
    assert_members(rt, objects, b"G", 2);
    assert_refused(
        rt,
        objects,
        ObjectFault::NameTaken,
        b"object-group service G tcp\n",
    );
    assert_refused(rt, objects, empty, b"object network N\n description x\n");
    assert_kind(rt, objects, b"N", None);
}

#[test]
fn blocks_extend_replace_and_take_out(rt: HostRuntime) {
    let mut objects = table(
        &rt,
        b"object network A\n host 10.0.0.1\nobject-group network G\n network-object host 10.0.0.9\n network-object object A\nobject-group network B\n network-object object A\n",
    );
    assert_taken(
        &rt,
        &mut objects,
        b"object-group network G\n network-object host 10.0.0.9\n",
    );
    assert_members(&rt, &objects, b"G", 2);
    assert_refusals(&rt, &mut objects);
    let copy = copy_of(&rt, &objects);
    assert_taken(
        &rt,
        &mut objects,
        b"object network A\n range 10.0.0.1 10.0.0.6\n",
    );
    assert_prefixes(&rt, &objects, b"G", 5);
    assert_prefixes(&rt, &copy, b"G", 2);
    assert_user(&rt, &objects, b"A", b"B");
    assert_taken(
        &rt,
        &mut objects,
        b"object-group network B\n no network-object object A\nobject-group network G\n no network-object object A\n",
    );
    assert_free(&rt, &objects, b"A");
    assert_user(&rt, &copy, b"A", b"B");
}

#[test]
fn a_group_takes_65536_members(rt: HostRuntime) {
    let mut objects = hosts(&rt, 0);
    assert_members(&rt, &objects, b"G", 65536);
    assert_network(&rt, &objects, b"G", 65536);
    assert_refused(
        &rt,
        &mut objects,
        ObjectFault::TooMany,
        b"object-group network G\n network-object host 10.1.0.0\n",
    );
}

#[test]
fn members_are_taken_out_one_by_one(rt: HostRuntime) {
    let objects = hosts(&rt, 65535);
    let members = network_of(&rt, &objects, b"G");
    assert_eq!(rt; members.len(), 1);
    assert_eq!(rt; members.as_slice().first().copied(), Some(host(0xffff)));
}

/// A group of 65,528 services and one over it that has one more.
fn ports(rt: &(impl Abort + AllocGlobal)) -> Objects {
    let mut text = Vec::new(rt.alloc());
    push(rt, &mut text, b"object-group service G\n");
    push_repeated(
        rt,
        &mut text,
        1..8192,
        b" service-object tcp-udp source neq ",
        b" destination neq 9\n",
    );
    push(
        rt,
        &mut text,
        b"object-group service O\n service-object 47\n group-object G\n",
    );
    long_table(rt, text.as_slice())
}

#[test]
fn a_group_within_a_group_counts_there_too(rt: HostRuntime) {
    let mut objects = ports(&rt);
    assert_services(&rt, &objects, b"G", 65528);
    assert_services(&rt, &objects, b"O", 65529);
    assert_refused(
        &rt,
        &mut objects,
        ObjectFault::TooMany,
        b"object-group service G\n service-object tcp-udp source neq 9000 destination neq 9\n",
    );
    assert_services(&rt, &objects, b"G", 65528);
    assert_services(&rt, &objects, b"O", 65529);
    assert_taken(
        &rt,
        &mut objects,
        b"object-group service G\n service-object tcp destination range 1 9\n",
    );
    assert_services(&rt, &objects, b"O", 65530);
}

#[test]
fn groups_that_are_reached_in_many_ways_are_visited_once(rt: HostRuntime) {
    let mut empty = levels(&rt, 30, b"");
    assert_members(&rt, &empty, b"a30", 0);
    assert_network(&rt, &empty, b"a30", 0);
    assert_refused(
        &rt,
        &mut empty,
        ObjectFault::Cycle { line: 2 },
        b"object-group network a0\n group-object b30\n",
    );
    assert_refused(
        &rt,
        &mut empty,
        ObjectFault::TooMany,
        b"object-group network a0\n network-object host 10.0.0.1\n",
    );
    let mut full = levels(&rt, 16, b"\n network-object host 10.0.0.1");
    assert_members(&rt, &full, b"a16", 65536);
    assert_network(&rt, &full, b"b16", 65536);
    assert_refused(
        &rt,
        &mut full,
        ObjectFault::TooMany,
        b"object-group network x\n group-object a16\n group-object a0\n",
    );
    assert_kind(&rt, &full, b"x", None);
}

#[test]
fn a_group_grows_block_by_block_and_a_copy_stays(rt: HostRuntime) {
    let mut objects = table(
        &rt,
        b"object network A\n host 10.0.0.1\nobject-group network G\n network-object host 10.0.0.9\nobject-group network O\n group-object G\n network-object host 10.0.0.3\n",
    );
    assert_taken(
        &rt,
        &mut objects,
        b"object-group network G\n network-object host 10.0.0.8\n network-object object A\n",
    );
    let copy = copy_of(&rt, &objects);
    assert_taken(
        &rt,
        &mut objects,
        b"object-group network G\n network-object host 10.0.0.7\nobject-group network G\n network-object host 10.0.0.6\n",
    );
    assert_hosts(&rt, &objects, b"O", &[9, 8, 1, 7, 6, 3]);
    assert_hosts(&rt, &copy, b"O", &[9, 8, 1, 3]);
    assert_members(&rt, &objects, b"G", 5);
    assert_prefixes(&rt, &objects, b"O", 6);
    assert_members(&rt, &copy, b"G", 3);
    assert_prefixes(&rt, &copy, b"O", 4);
    assert_user(&rt, &objects, b"A", b"G");
    assert_taken(
        &rt,
        &mut objects,
        b"object-group network G\n no network-object object A\n",
    );
    assert_free(&rt, &objects, b"A");
    assert_user(&rt, &copy, b"A", b"G");
    assert_hosts(&rt, &objects, b"G", &[9, 8, 7, 6]);
}

#[test]
fn a_refused_growth_leaves_all(rt: HostRuntime) {
    let mut objects = levels(&rt, 16, b"\n network-object host 10.0.0.1");
    assert_taken(&rt, &mut objects, b"object-group network x\n");
    let copy = copy_of(&rt, &objects);
    assert_refused(
        &rt,
        &mut objects,
        ObjectFault::TooMany,
        b"object-group network a0\n group-object x\n network-object host 10.0.0.2\n",
    );
    assert_free(&rt, &objects, b"x");
    assert_hosts(&rt, &objects, b"a0", &[1]);
    assert_members(&rt, &objects, b"a16", 65536);
    assert_taken(
        &rt,
        &mut objects,
        b"object-group network a0\n group-object x\n",
    );
    assert_refused(
        &rt,
        &mut objects,
        ObjectFault::Cycle { line: 3 },
        b"object-group network x\n network-object host 10.0.0.2\n group-object b16\n",
    );
    assert_user(&rt, &objects, b"x", b"a0");
    assert_free(&rt, &copy, b"x");
    assert_hosts(&rt, &objects, b"x", &[]);
    assert_members(&rt, &objects, b"b16", 65536);
}

#[test]
fn a_member_that_comes_back_is_the_last(rt: HostRuntime) {
    let mut objects = table(
        &rt,
        b"object-group network G\n network-object host 10.0.0.1\n network-object host 10.0.0.2\n network-object host 10.0.0.3\n",
    );
    assert_taken(
        &rt,
        &mut objects,
        b"object-group network G\n no network-object host 10.0.0.1\n network-object host 10.0.0.4\n network-object host 10.0.0.1\n",
    );
    assert_hosts(&rt, &objects, b"G", &[2, 3, 4, 1]);
    assert_taken(
        &rt,
        &mut objects,
        b"object-group network G\n no network-object host 10.0.0.3\n network-object host 10.0.0.3\n no network-object host 10.0.0.3\n",
    );
    assert_hosts(&rt, &objects, b"G", &[2, 4, 1]);
    assert_taken(
        &rt,
        &mut objects,
        b"object-group network G\n network-object host 10.0.0.5\n network-object host 10.0.0.6\n no network-object host 10.0.0.5\n network-object host 10.0.0.5\n",
    );
    assert_hosts(&rt, &objects, b"G", &[2, 4, 1, 6, 5]);
}

#[test]
fn a_table_takes_16384_names(rt: HostRuntime) {
    let mut text = Vec::new(rt.alloc());
    push_repeated(
        &rt,
        &mut text,
        0..16384,
        b"object-group network N",
        b"\n network-object host 10.0.0.1\n",
    );
    let mut objects = long_table(&rt, text.as_slice());
    assert_refused(
        &rt,
        &mut objects,
        ObjectFault::TooMany,
        b"object-group network X\n",
    );
    assert_eq!(rt; objects.len(), 16384);
    assert_free(&rt, &objects, b"N7");
    assert!(rt; !removed(&rt, &mut objects, b"X"));
}

/// The odd numbers below 2,000, as hosts in their order.
fn odd_hosts(rt: &(impl Abort + AllocGlobal)) -> Vec<Member> {
    let mut hosts = Vec::new(rt.alloc());
    for number in 0..2000 {
        if number % 2 == 1 {
            hosts.push(host(number)).expect(rt, "memory for a host");
        }
    }
    hosts
}

#[test]
fn what_many_blocks_leave_of_a_group_stays_in_order(rt: HostRuntime) {
    let mut text = Vec::new(rt.alloc());
    push(&rt, &mut text, b"object-group network G\n");
    push_hosts(&rt, &mut text, b" network-object host 10.0.", 0, 2000);
    for half in 0..1000u32 {
        push_host(
            &rt,
            &mut text,
            b"object-group network G\n no network-object host 10.0.",
            half.saturating_mul(2),
        );
    }
    let objects = long_table(&rt, text.as_slice());
    let members = members_of(&rt, &objects, b"G");
    assert_members(&rt, &objects, b"G", 1000);
    assert_eq!(rt; members.as_slice().first().copied(), Some(host(1)));
    assert_eq!(rt; members.as_slice().last().copied(), Some(host(1999)));
    assert!(rt; members.as_slice() == odd_hosts(&rt).as_slice());
}

#[test]
fn a_member_that_is_there_keeps_its_place(rt: HostRuntime) {
    let mut objects = table(
        &rt,
        b"object network A\n host 10.0.0.2\nobject-group network I\n network-object host 10.0.0.3\nobject-group network G\n network-object host 10.0.0.1\n network-object object A\n group-object I\n network-object host 10.0.0.4\n",
    );
    assert_taken(
        &rt,
        &mut objects,
        b"object-group network G\n network-object host 10.0.0.5\n group-object I\n network-object host 10.0.0.1\n network-object object A\n network-object host 10.0.0.5\n",
    );
    assert_hosts(&rt, &objects, b"G", &[1, 2, 3, 4, 5]);
    // A member that is added where it is, and then taken out, is gone, and is the last where it comes back.
    assert_taken(
        &rt,
        &mut objects,
        b"object-group network G\n network-object object A\n no network-object object A\n network-object host 10.0.0.1\n network-object object A\n",
    );
    assert_hosts(&rt, &objects, b"G", &[1, 3, 4, 5, 2]);
    assert_taken(
        &rt,
        &mut objects,
        b"object-group network G\n no group-object I\nobject-group network G\n group-object I\n",
    );
    assert_hosts(&rt, &objects, b"G", &[1, 4, 5, 2, 3]);
}

#[test]
fn a_name_is_free_once_no_group_names_it(rt: HostRuntime) {
    let mut objects = table(
        &rt,
        b"object network A\n host 10.0.0.1\nobject-group network G\n network-object host 10.0.0.9\n network-object object A\nobject-group network H\n network-object object A\n group-object G\n",
    );
    assert_user(&rt, &objects, b"A", b"G");
    assert_taken(
        &rt,
        &mut objects,
        b"object-group network G\n no network-object object A\n",
    );
    assert_user(&rt, &objects, b"A", b"H");
    // What a block takes out and adds again is in use as before.
    assert_taken(
        &rt,
        &mut objects,
        b"object-group network H\n no network-object object A\n network-object object A\n",
    );
    assert_user(&rt, &objects, b"A", b"H");
    assert_taken(
        &rt,
        &mut objects,
        b"object-group network H\n no network-object object A\n",
    );
    assert_free(&rt, &objects, b"A");
    assert_user(&rt, &objects, b"G", b"H");
    assert!(rt; removed(&rt, &mut objects, b"A"));
    assert!(rt; removed(&rt, &mut objects, b"H"));
    assert_free(&rt, &objects, b"G");
    assert_eq!(rt; objects.len(), 1);
}
