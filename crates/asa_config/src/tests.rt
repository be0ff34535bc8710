//! What lies outside the contracts: that the clauses mean what they should, at configurations from the rules.
ghost use Rattle.std.specs.Prelude.{◌<◌, ◌^◌, length};

use crate::{Config, EditFault, EditRefusal, cut_blocks};
use asa_acl::Acl;
use asa_base::{LineBox, Name, PortRange, Range, Service};
use asa_text::{Addr, Block, Items};
use std::process::Abort;

const BASE: &[u8] = b"interface GigabitEthernet0/0\n\
    \x20nameif outside\n\
    \x20security-level 0\n\
    \x20ip address 203.0.113.2 255.255.255.0\n\
    interface GigabitEthernet0/1\n\
    \x20nameif inside\n\
    \x20security-level 100\n\
    \x20ip address 10.0.0.1 255.255.255.0\n\
    access-list L extended permit ip any any\n";

/// The blocks of a text.
fn blocks_of(rt: &(impl Abort + AllocGlobal), text: &[u8]) -> Items<Block>
    requires { length text.now < 2 ^ 31 }
{
    let blocks = cut_blocks(rt.alloc(), text, 1).expect(rt, "memory for the blocks");
    blocks.expect(rt, "a top-level line before the others")
}

/// A configuration after some blocks of a startup text.
fn stepped(rt: &impl Abort, config: Config, blocks: &[Block]) -> Config {
    let mut config = config;
    for block in blocks {
        config = config.step(block, true).expect(rt, "a block that is taken");
    }
    config
}

/// A configuration after the blocks of a startup text.
fn taken(rt: &(impl Abort + AllocGlobal), config: Config, text: &[u8]) -> Config
    requires { length text.now < 2 ^ 31 }
{
    stepped(rt, config, blocks_of(rt, text).as_slice())
}

/// Two interfaces, a list with one line, and the blocks of a startup text.
fn configured(rt: &(impl Abort + AllocGlobal), text: &[u8]) -> Config
    requires { length text.now < 2 ^ 31 }
{
    let config = taken(rt, Config::empty(rt.alloc()), BASE);
    taken(rt, config, text)
}

/// What the last block of a text is answered, the others being taken.
fn answer_to(rt: &(impl Abort + AllocGlobal), text: &[u8], startup: bool) -> Result<(), EditRefusal>
    requires { length text.now < 2 ^ 31 }
{
    let blocks = blocks_of(rt, text);
    let (last, others) = blocks.as_slice().split_last().expect(rt, "a block");
    let config = taken(rt, Config::empty(rt.alloc()), BASE);
    stepped(rt, config, others).step(last, startup).map(|_| ())
}

/// Asserts that the last block of a text is refused at a line of it.
fn assert_refused(rt: &(impl Abort + AllocGlobal), line: u32, fault: EditFault, text: &[u8])
    requires { length text.now < 2 ^ 31 }
{
    let answer = answer_to(rt, text, true);
    assert_eq!(rt; answer, Err(EditRefusal::At { line, fault }));
}

fn name(rt: &impl Abort, text: &[u8]) -> Name {
    Name::new(text).expect(rt, "a name")
}

/// The boxes of the list of this name.
fn boxes_in(rt: &(impl Abort + AllocGlobal), config: &Config, text: &[u8]) -> Items<LineBox> {
    let name = name(rt, text);
    let list = config.list(&name).expect(rt, "a list");
    config
        .boxes(rt.alloc(), list)
        .expect(rt, "memory for the boxes")
}

/// Whether there is a list, and it has this name.
fn is_named(list: Option<&Acl>, name: &Name) -> bool {
    match list {
        Some(list) => list.name() == name,
        None => false,
    }
}

/// How many lines the n-th list has.
fn lines_of(rt: &impl Abort, config: &Config, n: u32) -> u32 {
    config.list_at(n).expect(rt, "a list").len()
}

fn bad(column: u32) -> EditFault {
    EditFault::Bad { column }
}

#[test]
fn a_list_line_is_refused_at_its_word(rt: HostRuntime) {
    let unknown = EditFault::Unknown { column: 16 };
    assert_refused(&rt, 1, bad(20), b"access-list L line 0 permit ip any any\n");
    assert_refused(
        &rt,
        1,
        bad(20),
        b"access-list L line 65537 permit ip any any\n",
    );
    assert_refused(&rt, 1, bad(14), b"access-list L\n");
    assert_refused(&rt, 2, bad(2), b"access-list L permit ip any any\n x\n");
    assert_refused(&rt, 1, unknown, b"no access-list M nonsense\n");
    assert_refused(
        &rt,
        1,
        EditFault::NoSuchLine,
        b"no access-list L deny ip any any\n",
    );
}

#[test]
fn an_access_group_is_refused_at_its_word(rt: HostRuntime) {
    let unknown = EditFault::Unknown { column: 14 };
    let nowhere = EditFault::NoSuchInterface { column: 29 };
    let override_ = EditFault::Unsupported { column: 36 };
    let control = EditFault::Unsupported { column: 23 };
    assert_refused(&rt, 1, unknown, b"access-group M in interface inside\n");
    assert_refused(&rt, 1, bad(16), b"access-group L at interface inside\n");
    assert_refused(&rt, 1, nowhere, b"access-group L in interface lan\n");
    assert_refused(
        &rt,
        1,
        override_,
        b"access-group L in interface inside per-user-override\n",
    );
    assert_refused(&rt, 1, control, b"access-group L global control-plane\n");
    assert_refused(&rt, 1, EditFault::NotBound, b"no access-group L global\n");
    assert_refused(
        &rt,
        1,
        EditFault::NotBound,
        b"access-group L in interface inside\nno access-group L out interface inside\n",
    );
}

#[test]
fn a_list_that_is_bound_keeps_its_last_line(rt: HostRuntime) {
    let in_use = EditFault::InUse {
        by: name(&rt, b"access-group"),
    };
    assert_refused(
        &rt,
        1,
        in_use,
        b"access-group L global\nno access-list L permit ip any any\n",
    );
    let config = configured(&rt, b"no access-list L permit ip any any\n");
    assert_eq!(rt; config.list_count(), 0);
}

#[test]
fn lines_of_routes_times_and_levels_are_refused_at_their_words(rt: HostRuntime) {
    let tunneled = EditFault::Unsupported { column: 31 };
    let nowhere = EditFault::NoSuchInterface { column: 7 };
    assert_refused(
        &rt,
        1,
        tunneled,
        b"route outside 0 0 203.0.113.1 tunneled\n",
    );
    assert_refused(&rt, 1, nowhere, b"route lan 0 0 203.0.113.1\n");
    assert_refused(&rt, 2, bad(2), b"route outside 0 0 203.0.113.1\n x\n");
    assert_refused(
        &rt,
        1,
        EditFault::NoSuchLine,
        b"no route outside 0 0 203.0.113.1\n",
    );
    assert_refused(&rt, 1, bad(14), b"timeout conn 1:00\n");
    assert_refused(&rt, 1, bad(30), b"same-security-traffic permit any\n");
    assert_refused(
        &rt,
        1,
        bad(46),
        b"same-security-traffic permit inter-interface x\n",
    );
}

#[test]
fn an_interface_block_is_refused_at_its_line(rt: HostRuntime) {
    assert_refused(
        &rt,
        1,
        EditFault::NameTaken,
        b"interface GigabitEthernet0/1\n",
    );
    assert_refused(
        &rt,
        2,
        EditFault::NameTaken,
        b"interface X\n nameif inside\n",
    );
    assert_refused(&rt, 3, bad(9), b"interface X\n shutdown\n nameif any\n");
    let late = answer_to(&rt, b"interface X\n nameif\n", false);
    let refusal = EditRefusal::At {
        line: 1,
        fault: EditFault::NotAfterStartup,
    };
    assert_eq!(rt; late, Err(refusal));
}

#[test]
fn a_list_that_is_defined_again_goes_last(rt: HostRuntime) {
    let config = configured(
        &rt,
        b"access-list M permit ip any any\n\
            no access-list L permit ip any any\n\
            access-list L line 7 deny ip any any\n\
            access-group M in interface inside\n\
            access-group L global\n",
    );
    let (m, l) = (name(&rt, b"M"), name(&rt, b"L"));
    assert!(rt; is_named(config.list_at(0), &m));
    assert!(rt; is_named(config.list_on(1, true), &m));
    assert!(rt; config.list_on(1, false).is_none());
    assert!(rt; is_named(config.global_list(), &l));
    assert_eq!(rt; config.global_list().map(|list| list.len()), Some(1));
}

/// The side of the n-th binding.
fn side_of(rt: &impl Abort, config: &Config, n: usize) -> (u8, bool) {
    config.bindings().get(n).expect(rt, "a binding").0
}

#[test]
fn bindings_stand_by_interface_and_inbound_first(rt: HostRuntime) {
    let config = configured(
        &rt,
        b"access-group L out interface inside\n\
            access-group L out interface outside\n\
            access-group L in interface inside\n\
            access-group L in interface outside\n\
            access-group L out interface outside\n",
    );
    assert_eq!(rt; config.bindings().len(), 4);
    assert_eq!(rt; side_of(&rt, &config, 0), (0, true));
    assert_eq!(rt; side_of(&rt, &config, 1), (0, false));
    assert_eq!(rt; side_of(&rt, &config, 2), (1, true));
    assert_eq!(rt; side_of(&rt, &config, 3), (1, false));
}

#[test]
fn a_list_has_a_box_for_each_range_of_its_ports(rt: HostRuntime) {
    let config = configured(
        &rt,
        b"access-list M remark web\n\
            access-list M deny tcp host 10.0.0.9 any neq 80\n\
            access-list M permit ip any any6\n\
            access-list M permit udp any interface inside inactive\n",
    );
    assert_eq!(rt; config.pair_count(), 3);
    let boxes = boxes_in(&rt, &config, b"M");
    let ports = PortRange::new(81, 65535).expect(&rt, "a range");
    let last = LineBox {
        source: Range::only(Addr(0x0a00_0009)),
        dest: Range::all(),
        service: Service {
            proto: Some(6),
            sport: PortRange::all(),
            dport: ports,
            itype: None,
            icode: None,
        },
        line: 2,
        permit: false,
    };
    assert_eq!(rt; boxes.len(), 2);
    assert_eq!(rt; boxes.as_slice().last(), Some(&last));
}

/// The configuration that an edit by the first of some blocks makes, after the startup.
fn edited(rt: &impl Abort, before: &Config, blocks: &[Block]) -> Config {
    let block = blocks.first().expect(rt, "a block");
    before
        .edit(block, false)
        .expect(rt, "a block that is taken")
}

fn has_interface(config: &Config, name: &Name) -> bool {
    config.ifaces().interface_of(name).is_some()
}

#[test]
fn an_edit_leaves_the_configuration_before_it(rt: HostRuntime) {
    let before = configured(&rt, b"");
    let blocks = blocks_of(&rt, b"access-list L line 1 deny ip any any\n");
    let after = edited(&rt, &before, blocks.as_slice());
    assert_eq!(rt;
        (lines_of(&rt, &before, 0), lines_of(&rt, &after, 0)),
        (1, 2)
    );
    assert!(rt; has_interface(&after, &name(&rt, b"inside")));
    assert_eq!(rt; after.bindings().len(), 0);
    assert!(rt; after.global().is_none());
}

#[test]
fn a_block_of_an_object_or_a_group_is_refused_at_its_line(rt: HostRuntime) {
    let unknown = EditFault::Unknown { column: 15 };
    let security = EditFault::Unsupported { column: 14 };
    assert_refused(&rt, 1, bad(17), b"object network A\n");
    assert_refused(
        &rt,
        2,
        unknown,
        b"object-group network G\n group-object H\n",
    );
    assert_refused(&rt, 1, security, b"object-group security S\n");
    assert_refused(
        &rt,
        1,
        EditFault::NameTaken,
        b"object network A\n host 10.0.0.9\nobject service A\n service tcp\n",
    );
    assert_refused(
        &rt,
        3,
        EditFault::NoSuchLine,
        b"object-group network G\n network-object host 10.0.0.9\n no network-object host 10.0.0.8\n",
    );
    assert_refused(
        &rt,
        3,
        EditFault::NotBuilt,
        b"object network A\n host 10.0.0.9\n nat (inside,outside) static 203.0.113.9\n",
    );
}

#[test]
fn a_group_never_reaches_itself(rt: HostRuntime) {
    assert_refused(
        &rt,
        2,
        EditFault::Cycle,
        b"object-group network G\n group-object G\n",
    );
    assert_refused(
        &rt,
        2,
        EditFault::Cycle,
        b"object-group network G\n network-object host 10.0.0.9\n\
            object-group network H\n group-object G\n\
            object-group network G\n group-object H\n",
    );
}

#[test]
fn a_removal_is_refused_at_its_word(rt: HostRuntime) {
    let unknown = EditFault::Unknown { column: 19 };
    let security = EditFault::Unsupported { column: 17 };
    assert_refused(&rt, 1, unknown, b"no object network A\n");
    assert_refused(
        &rt,
        1,
        bad(19),
        b"object service S\n service tcp\nno object network S\n",
    );
    assert_refused(
        &rt,
        1,
        bad(21),
        b"object network A\n host 10.0.0.9\nno object network A x\n",
    );
    assert_refused(
        &rt,
        2,
        bad(2),
        b"object network A\n host 10.0.0.9\nno object network A\n host 10.0.0.9\n",
    );
    assert_refused(&rt, 1, security, b"no object-group security S\n");
}

#[test]
fn what_is_named_stays_and_its_first_user_is_told(rt: HostRuntime) {
    let group = EditFault::InUse {
        by: name(&rt, b"G1"),
    };
    let list = EditFault::InUse {
        by: name(&rt, b"M"),
    };
    assert_refused(
        &rt,
        1,
        group,
        b"object network A\n host 10.0.0.9\n\
            object-group network G2\n network-object object A\n\
            object-group network G1\n network-object object A\n\
            access-list K permit ip object A any\n\
            no object network A\n",
    );
    assert_refused(
        &rt,
        1,
        list,
        b"object-group network G\n network-object host 10.0.0.9\n\
            access-list M permit ip any object-group G\n\
            access-list K permit ip object-group G any\n\
            no object-group network G\n",
    );
}

#[test]
fn what_nothing_names_any_more_goes(rt: HostRuntime) {
    let config = configured(
        &rt,
        b"object network A\n host 10.0.0.9\n\
            object-group network G\n network-object object A\n\
            access-list M permit ip object-group G any\n\
            no access-list M permit ip object-group G any\n\
            no object-group network G\n\
            no object network A\n",
    );
    assert_eq!(rt; config.objects().len(), 0);
    assert_eq!(rt; config.pair_count(), 1);
}

#[test]
fn a_list_has_the_members_of_its_groups_in_order(rt: HostRuntime) {
    let config = configured(
        &rt,
        b"object network A\n host 10.0.0.9\n\
            object-group network G\n network-object 10.0.2.0 255.255.255.0\n network-object object A\n\
            object-group network H\n network-object host 10.0.0.7\n group-object G\n\
            object-group service W tcp\n port-object eq 80\n port-object eq 443\n\
            access-list M permit tcp object-group H any object-group W\n",
    );
    assert_eq!(rt; config.pair_count(), 7);
    let boxes = boxes_in(&rt, &config, b"M");
    assert_eq!(rt; boxes.len(), 6);
    let first = boxes.as_slice().first().expect(&rt, "a box");
    let last = boxes.as_slice().last().expect(&rt, "a box");
    assert_eq!(rt; first.source, Range::only(Addr(0x0a00_0007)));
    assert_eq!(rt; first.service.dport, PortRange::only(80));
    assert_eq!(rt; last.source, Range::only(Addr(0x0a00_0009)));
    assert_eq!(rt; last.service.dport, PortRange::only(443));
}

/// Eighteen lines, each with four services from the one object to itself.
const EIGHTEEN: &[u8] = b"access-list M permit tcp object W neq 1 object W neq 1\n\
    access-list M permit tcp object W neq 1 object W neq 2\n\
    access-list M permit tcp object W neq 1 object W neq 3\n\
    access-list M permit tcp object W neq 1 object W neq 4\n\
    access-list M permit tcp object W neq 1 object W neq 5\n\
    access-list M permit tcp object W neq 1 object W neq 6\n\
    access-list M permit tcp object W neq 1 object W neq 7\n\
    access-list M permit tcp object W neq 1 object W neq 8\n\
    access-list M permit tcp object W neq 1 object W neq 9\n\
    access-list M permit tcp object W neq 1 object W neq 10\n\
    access-list M permit tcp object W neq 1 object W neq 11\n\
    access-list M permit tcp object W neq 1 object W neq 12\n\
    access-list M permit tcp object W neq 1 object W neq 13\n\
    access-list M permit tcp object W neq 1 object W neq 14\n\
    access-list M permit tcp object W neq 1 object W neq 15\n\
    access-list M permit tcp object W neq 1 object W neq 16\n\
    access-list M permit tcp object W neq 1 object W neq 17\n\
    access-list M permit tcp object W neq 1 object W neq 18\n";

/// What an edit by the first block of a text is answered, before the end of the startup.
fn edit_answer(
    rt: &(impl Abort + AllocGlobal),
    config: &Config,
    text: &[u8],
) -> Result<(), EditRefusal>
    requires { length text.now < 2 ^ 31 }
{
    let blocks = blocks_of(rt, text);
    let block = blocks.as_slice().first().expect(rt, "a block");
    config.edit(block, true).map(|_| ())
}

#[test]
fn a_value_is_refused_under_which_there_are_too_many_pairs(rt: HostRuntime) {
    // A range from the second to the last but one address has 62 prefixes: 18 lines of 4 services have 276,768 pairs.
    let refusal = EditRefusal::At {
        line: 1,
        fault: EditFault::TooLarge { pairs: 276_769 },
    };
    let wide = b"object network W\n range 0.0.0.1 255.255.255.254\n";
    let config = configured(&rt, b"object network W\n host 10.0.0.9\n");
    let config = taken(&rt, config, EIGHTEEN);
    assert_eq!(rt; config.pair_count(), 73);
    assert_eq!(rt; edit_answer(&rt, &config, wide), Err(refusal));
    assert_eq!(rt; config.pair_count(), 73);
    let config = taken(
        &rt,
        config,
        b"no access-list M permit tcp object W neq 1 object W neq 18\n",
    );
    assert_eq!(rt; taken(&rt, config, wide).pair_count(), 261_393);
}

#[test]
fn a_changed_name_counts_each_line_that_uses_it_once(rt: HostRuntime) {
    // The line of the base has one pair; so has each of the three lines while the object is one host.
    let config = configured(
        &rt,
        b"object network A\n host 10.0.0.9\n\
        object-group network G\n network-object object A\n\
        access-list L permit ip object A object A\n\
        access-list M permit ip object-group G object A\n\
        access-list M permit ip any any\n",
    );
    assert_eq!(rt; config.pair_count(), 4);
    // Two hosts that are no block: 4 pairs for the first line and 4 for the second.
    let config = taken(&rt, config, b"object network A\n range 10.0.0.1 10.0.0.2\n");
    assert_eq!(rt; config.pair_count(), 10);
    // A third member of the group: 6 pairs for the second line.
    let config = taken(
        &rt,
        config,
        b"object-group network G\n network-object host 10.0.0.4\n",
    );
    assert_eq!(rt; config.pair_count(), 12);
}

/// What a removal is answered where this list is the first that uses what would go.
fn used_by(rt: &impl Abort, list: &[u8]) -> Result<(), EditRefusal> {
    let by = name(rt, list);
    Err(EditRefusal::At {
        line: 1,
        fault: EditFault::InUse { by },
    })
}

#[test]
fn what_two_lists_use_stays_until_the_last_line_goes(rt: HostRuntime) {
    let gone = b"no object network A\n";
    let config = configured(
        &rt,
        b"object network A\n host 10.0.0.9\n\
        access-list M permit ip object A any\n\
        access-list M permit ip any any\n\
        access-list K deny ip any object A\n\
        access-list K permit ip any any\n",
    );
    assert_eq!(rt; edit_answer(&rt, &config, gone), used_by(&rt, b"M"));
    let config = taken(&rt, config, b"no access-list M permit ip object A any\n");
    assert_eq!(rt; edit_answer(&rt, &config, gone), used_by(&rt, b"K"));
    let config = taken(&rt, config, b"no access-list K deny ip any object A\n");
    assert_eq!(rt; edit_answer(&rt, &config, gone), Ok(()));
    assert_eq!(rt; taken(&rt, config, gone).objects().len(), 0);
}

#[test]
fn what_a_list_uses_goes_with_the_whole_list(rt: HostRuntime) {
    let gone = b"no object network A\n";
    let config = configured(
        &rt,
        b"object network A\n host 10.0.0.9\n\
        access-list M permit ip object A any\n\
        access-list K permit ip any object A\n",
    );
    let config = taken(&rt, config, b"no access-list M permit ip object A any\n");
    assert_eq!(rt; edit_answer(&rt, &config, gone), used_by(&rt, b"K"));
    let config = taken(&rt, config, b"no access-list K permit ip any object A\n");
    assert_eq!(rt; config.list_count(), 1);
    assert_eq!(rt; edit_answer(&rt, &config, gone), Ok(()));
}

#[test]
fn an_object_at_both_places_of_two_equal_lines_goes_with_the_second(rt: HostRuntime) {
    let gone = b"no object network A\n";
    let line = b"no access-list M permit ip object A object A\n";
    let config = configured(
        &rt,
        b"object network A\n host 10.0.0.9\n\
        access-list M permit ip object A object A\n\
        access-list M permit ip any any\n\
        access-list M permit ip object A object A\n",
    );
    assert_eq!(rt; config.pair_count(), 4);
    let config = taken(&rt, config, line);
    assert_eq!(rt; config.pair_count(), 3);
    assert_eq!(rt; edit_answer(&rt, &config, gone), used_by(&rt, b"M"));
    let config = taken(&rt, config, line);
    assert_eq!(rt; edit_answer(&rt, &config, gone), Ok(()));
}

#[test]
fn a_line_that_is_refused_uses_nothing(rt: HostRuntime) {
    // Nine ports on each side and 62 prefixes on each side have 311,364 pairs; the line of the base has one.
    let line = b"access-list N permit tcp object A object-group P object A object-group P\n";
    let refusal = EditRefusal::At {
        line: 1,
        fault: EditFault::TooLarge { pairs: 311_365 },
    };
    let config = configured(
        &rt,
        b"object network A\n range 0.0.0.1 255.255.255.254\n\
        object-group service P tcp\n port-object eq 1\n port-object eq 3\n port-object eq 5\n\
        \x20port-object eq 7\n port-object eq 9\n port-object eq 11\n port-object eq 13\n\
        \x20port-object eq 15\n port-object eq 17\n",
    );
    assert_eq!(rt; edit_answer(&rt, &config, line), Err(refusal));
    assert_eq!(rt; edit_answer(&rt, &config, b"no object network A\n"), Ok(()));
    assert_eq!(rt;
        edit_answer(&rt, &config, b"no object-group service P\n"),
        Ok(())
    );
    // With one address on each side there are 81 pairs.
    let config = taken(&rt, config, b"object network A\n host 10.0.0.9\n");
    let config = taken(&rt, config, line);
    assert_eq!(rt; config.pair_count(), 82);
    assert_eq!(rt;
        edit_answer(&rt, &config, b"no object network A\n"),
        used_by(&rt, b"N")
    );
}

#[test]
fn a_group_counts_anew_the_one_list_that_uses_it_through_two_others(rt: HostRuntime) {
    // The lines of the first and the last list have one pair each; that of the second has 81 for each pair of prefixes.
    let config = configured(
        &rt,
        b"object network A\n host 10.0.0.9\n\
        object-group network G\n network-object object A\n\
        object-group network H\n group-object G\n\
        object-group service P tcp\n port-object eq 1\n port-object eq 3\n port-object eq 5\n\
        \x20port-object eq 7\n port-object eq 9\n port-object eq 11\n port-object eq 13\n\
        \x20port-object eq 15\n port-object eq 17\n\
        access-list M permit tcp object-group H object-group P object-group H object-group P\n\
        access-list K permit ip any any\n",
    );
    assert_eq!(rt; config.pair_count(), 83);
    // Two prefixes on each side: 324 pairs.
    let config = taken(&rt, config, b"object network A\n range 10.0.0.1 10.0.0.2\n");
    assert_eq!(rt; config.pair_count(), 326);
    // 62 prefixes on each side: 311,364 pairs.
    let wide = b"object network A\n range 0.0.0.1 255.255.255.254\n";
    let refusal = EditRefusal::At {
        line: 1,
        fault: EditFault::TooLarge { pairs: 311_366 },
    };
    assert_eq!(rt; edit_answer(&rt, &config, wide), Err(refusal));
    // A third member of the group below: 9 pairs of prefixes.
    let config = taken(
        &rt,
        config,
        b"object-group network G\n network-object host 10.0.0.4\n",
    );
    assert_eq!(rt; config.pair_count(), 731);
}
