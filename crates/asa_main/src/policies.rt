//! Whole runs over configurations of interfaces, routes, lists, objects and groups. The expected reports are worked by hand.
use crate::examples::{
    BRANCH, BRANCH_ANSWERS, BRANCH_CHANGED_ANSWERS, BRANCH_CHANGES, BRANCH_PACKETS, LIST_EDITS,
    LIST_EDITS_ANSWERS, OFFICE, OFFICE_ANSWERS,
};
use crate::tests::{BASE, WEB_LIST, ran};
use crate::{Status, write_status};
use asa_io::MemorySink;
use asa_text::push_number;
use std::alloc::{AllocError, Global};
use std::sync::Wait;
use std::test::Fail;
use std::thread::Threads;

// The report of a session, or the line that tells why it is refused.
fn told<R: Threads + Wait + Sync>(
    rt: &R,
    alloc: Global,
    input: &[&[u8]],
) -> Result<Vec<u8>, AllocError> {
    let outcome = ran(rt, alloc, &["run"], input, (0, 0), 20_000)?;
    if matches!(outcome.status, Status::Done) {
        return Ok(outcome.written);
    }
    let mut errors = MemorySink::new(alloc, Vec::new(alloc), 100)?;
    let _ = write_status(&outcome.status, &mut errors);
    Vec::from_slice(alloc, errors.given())
}

#[test]
fn a_configuration_as_the_device_prints_it_is_taken(rt: HostRuntime) -> Result<(), Fail> {
    let running = b": Saved
:
ASA Version 9.8(4)
!
hostname fw1
names
!
interface GigabitEthernet0/0
 nameif outside
 security-level 0
 ip address 203.0.113.2 255.255.255.0
!
interface GigabitEthernet0/1
 shutdown
 no nameif
 no security-level
 no ip address
!
timeout conn 1:00:00 half-closed 0:10:00 udp 0:02:00 sctp 0:02:00 icmp 0:00:02
threat-detection basic-threat
no snmp-server location
!
policy-map global_policy
 class inspection_default
  inspect dns
!
service-policy global_policy global
: end
";
    let report = told(&rt, rt.alloc(), &[running])?;
    assert_eq!(rt;
        report.as_slice(),
        b"startup 3 accepted 7 passed\ndone 0\n".as_slice()
    );
    Ok(())
}

#[test]
fn the_list_of_an_interface_is_read_before_the_global_list(rt: HostRuntime) -> Result<(), Fail> {
    let rest = b"access-list GL extended permit tcp any any eq 22
access-group GL global
: end
packet outside tcp 198.51.100.9 50000 10.0.0.80 22 S
packet outside tcp 198.51.100.9 50000 10.0.0.80 25 S
packet outside tcp 198.51.100.9 50000 10.0.0.80 80 S
";
    let report = told(&rt, rt.alloc(), &[BASE, WEB_LIST, rest])?;
    let wanted = b"startup 7 accepted 0 passed
phase 1
e 0 1.1 open 1
e 1 1.3 open 2
a 1.1 0 open 1 to inside 198.51.100.9:50000 > 10.0.0.80:22 policy 7 unnat - route connected in global GL 1 nat - out -
a 1.2 1 drop acl-in policy 7 implicit
a 1.3 1 open 2 to inside 198.51.100.9:50000 > 10.0.0.80:80 policy 7 unnat - route connected in OUT 1 nat - out -
done 2
";
    assert_eq!(rt; report.as_slice(), wanted.as_slice());
    Ok(())
}

#[test]
fn an_outbound_list_is_asked_at_the_egress(rt: HostRuntime) -> Result<(), Fail> {
    let rest = b"access-list EG extended deny tcp any any eq 25
access-list EG extended permit ip any any
access-group EG out interface outside
: end
packet inside tcp 10.0.0.5 40000 198.51.100.9 25 S
packet inside tcp 10.0.0.5 40000 198.51.100.9 443 S
";
    let report = told(&rt, rt.alloc(), &[BASE, rest])?;
    let wanted = b"startup 6 accepted 0 passed
phase 1
e 0 1.2 open 1
a 1.1 0 drop acl-out policy 6 EG 1
a 1.2 0 open 1 to outside 10.0.0.5:40000 > 198.51.100.9:443 policy 6 unnat - route static 1 in level nat - out EG 2
done 1
";
    assert_eq!(rt; report.as_slice(), wanted.as_slice());
    Ok(())
}

#[test]
fn traffic_between_equal_levels_and_within_an_interface_is_permitted_by_its_line(
    rt: HostRuntime,
) -> Result<(), Fail> {
    let lab = b"interface GigabitEthernet0/2
 nameif lab
 security-level 100
 ip address 10.2.0.1 255.255.255.0
";
    let inter = b"same-security-traffic permit inter-interface\n";
    let intra = b"same-security-traffic permit intra-interface\n";
    let script = b": end
packet inside tcp 10.0.0.5 5000 10.2.0.7 53 S
packet inside tcp 10.0.0.5 5000 10.0.0.6 53 S
";
    let none = told(&rt, rt.alloc(), &[BASE, lab, script])?;
    let wanted = b"startup 4 accepted 0 passed
phase 1
a 1.1 0 drop inter-interface policy 4
a 1.2 0 drop intra-interface policy 4
done 0
";
    assert_eq!(rt; none.as_slice(), wanted.as_slice());
    let one = told(&rt, rt.alloc(), &[BASE, lab, inter, script])?;
    let wanted = b"startup 5 accepted 0 passed
phase 1
e 0 1.1 open 1
a 1.1 0 open 1 to lab 10.0.0.5:5000 > 10.2.0.7:53 policy 5 unnat - route connected in level nat - out -
a 1.2 1 drop intra-interface policy 5
done 1
";
    assert_eq!(rt; one.as_slice(), wanted.as_slice());
    let both = told(&rt, rt.alloc(), &[BASE, lab, inter, intra, script])?;
    let wanted = b"startup 6 accepted 0 passed
phase 1
e 0 1.1 open 1
e 1 1.2 open 2
a 1.1 0 open 1 to lab 10.0.0.5:5000 > 10.2.0.7:53 policy 6 unnat - route connected in level nat - out -
a 1.2 1 open 2 to inside 10.0.0.5:5000 > 10.0.0.6:53 policy 6 unnat - route connected in level nat - out -
done 2
";
    assert_eq!(rt; both.as_slice(), wanted.as_slice());
    Ok(())
}

#[test]
fn what_is_not_built_is_refused_at_its_line(rt: HostRuntime) -> Result<(), Fail> {
    for (block, wanted) in [
        (
            b"nat (inside,outside) source dynamic any interface\n".as_slice(),
            b"asa: line 10: not-built\n".as_slice(),
        ),
        (
            b"object network LAN\n subnet 10.0.0.0 255.255.255.0\n nat (inside,outside) dynamic interface\n",
            b"asa: line 12: not-built\n",
        ),
        (
            b"asp rule-engine transactional-commit access-group\n",
            b"asa: line 10: not-built\n",
        ),
    ] {
        let text = told(&rt, rt.alloc(), &[BASE, block, b": end\n"])?;
        assert_eq!(rt; text.as_slice(), wanted, "in {block:?}");
    }
    Ok(())
}

#[test]
fn an_indented_line_before_any_block_is_out_of_form(rt: HostRuntime) -> Result<(), Fail> {
    let text = told(&rt, rt.alloc(), &[b"!\n nameif inside\n: end\n"])?;
    assert_eq!(rt; text.as_slice(), b"asa: line 2: syntax\n".as_slice());
    Ok(())
}

#[test]
fn the_configuration_after_the_last_edit_rules(rt: HostRuntime) -> Result<(), Fail> {
    let report = told(&rt, rt.alloc(), &[LIST_EDITS])?;
    assert_eq!(rt; report.as_slice(), LIST_EDITS_ANSWERS);
    Ok(())
}

#[test]
fn lists_decide_by_the_objects_and_groups_that_they_name(rt: HostRuntime) -> Result<(), Fail> {
    let report = told(&rt, rt.alloc(), &[OFFICE])?;
    assert_eq!(rt; report.as_slice(), OFFICE_ANSWERS);
    Ok(())
}

#[test]
fn a_changed_object_or_group_changes_each_list_that_names_it(rt: HostRuntime) -> Result<(), Fail> {
    let before = told(&rt, rt.alloc(), &[BRANCH, BRANCH_PACKETS])?;
    assert_eq!(rt; before.as_slice(), BRANCH_ANSWERS);
    let after = told(&rt, rt.alloc(), &[BRANCH, BRANCH_CHANGES, BRANCH_PACKETS])?;
    assert_eq!(rt; after.as_slice(), BRANCH_CHANGED_ANSWERS);
    Ok(())
}

// The nine lines of BASE come before each block.
#[test]
fn each_refusal_of_a_startup_line_is_told_with_its_place(rt: HostRuntime) -> Result<(), Fail> {
    for (block, wanted) in [
        (
            b"route dmz 0 0 10.0.0.9\n".as_slice(),
            b"asa: line 10: no-such-interface 7\n".as_slice(),
        ),
        (b"route outside 0 0 10.0.0.300\n", b"asa: line 10: bad 19\n"),
        (
            b"no route outside 0 0 203.0.113.9\n",
            b"asa: line 10: no-such-line\n",
        ),
        (b"access-group NONE global\n", b"asa: line 10: unknown 14\n"),
        (
            b"access-list L permit ip any any\nno access-group L global\n",
            b"asa: line 11: not-bound\n",
        ),
        (
            b"access-list L permit ip any any\naccess-group L global\nno access-list L permit ip any any\n",
            b"asa: line 12: in-use access-group\n",
        ),
        (
            b"interface GigabitEthernet0/1\n nameif lab\n",
            b"asa: line 10: name-taken\n",
        ),
        (
            b"interface G2\n nameif inside\n",
            b"asa: line 11: name-taken\n",
        ),
        (
            b"ip address dhcp\ninterface G2\n ip address dhcp\n",
            b"asa: line 12: unsupported 13\n",
        ),
        (
            b"access-list L permit tcp any any eq 70000\n",
            b"asa: line 10: bad 37\n",
        ),
        (
            b"access-list L permit tcp any any eq 80 time-range T\n",
            b"asa: line 10: unsupported 40\n",
        ),
    ] {
        let text = told(&rt, rt.alloc(), &[BASE, block, b": end\n"])?;
        assert_eq!(rt; text.as_slice(), wanted, "in {block:?}");
    }
    Ok(())
}

#[test]
fn an_object_that_cannot_stand_is_refused_at_its_line(rt: HostRuntime) -> Result<(), Fail> {
    for (block, wanted) in [
        (
            b"object network A\n".as_slice(),
            b"asa: line 10: bad 17\n".as_slice(),
        ),
        (
            b"object network A\n range 10.0.0.9 10.0.0.8\n",
            b"asa: line 11: bad 17\n",
        ),
        (
            b"object network A\n fqdn www.example.com\n",
            b"asa: line 11: unsupported 2\n",
        ),
        (
            b"object service S\n service tcp destination lt 0\n",
            b"asa: line 11: bad 29\n",
        ),
        (b"no object network A\n", b"asa: line 10: unknown 19\n"),
        (
            b"object network A\n host 10.0.0.9\nno object service A\n",
            b"asa: line 12: bad 19\n",
        ),
    ] {
        let text = told(&rt, rt.alloc(), &[BASE, block, b": end\n"])?;
        assert_eq!(rt; text.as_slice(), wanted, "in {block:?}");
    }
    Ok(())
}

#[test]
fn a_name_is_that_of_one_kind_of_object_or_group(rt: HostRuntime) -> Result<(), Fail> {
    for (block, wanted) in [
        (
            b"object-group service P tcp\nobject-group service P udp\n".as_slice(),
            b"asa: line 11: name-taken\n".as_slice(),
        ),
        (
            b"object network A\n host 10.0.0.9\nobject service A\n service tcp\n",
            b"asa: line 12: name-taken\n",
        ),
        (b"object-group user U\n", b"asa: line 10: unsupported 14\n"),
    ] {
        let text = told(&rt, rt.alloc(), &[BASE, block, b": end\n"])?;
        assert_eq!(rt; text.as_slice(), wanted, "in {block:?}");
    }
    Ok(())
}

#[test]
fn a_group_has_groups_of_its_own_kind_that_do_not_reach_it(rt: HostRuntime) -> Result<(), Fail> {
    for (block, wanted) in [
        (
            b"object-group network G\n group-object H\n".as_slice(),
            b"asa: line 11: unknown 15\n".as_slice(),
        ),
        (
            b"object-group network G\n group-object G\n",
            b"asa: line 11: cycle\n",
        ),
        (
            b"object-group network G\nobject-group network H\n group-object G\nobject-group network G\n group-object H\n",
            b"asa: line 14: cycle\n",
        ),
        (
            b"object-group service P tcp\nobject-group service Q udp\n group-object P\n",
            b"asa: line 12: bad 15\n",
        ),
    ] {
        let text = told(&rt, rt.alloc(), &[BASE, block, b": end\n"])?;
        assert_eq!(rt; text.as_slice(), wanted, "in {block:?}");
    }
    Ok(())
}

#[test]
fn a_member_that_cannot_stand_is_refused_at_its_line(rt: HostRuntime) -> Result<(), Fail> {
    for (block, wanted) in [
        (
            b"object-group service P tcp\n port-object range 9 8\n".as_slice(),
            b"asa: line 11: bad 22\n".as_slice(),
        ),
        (
            b"object-group network G\n network-object host 10.0.0.9\n no network-object host 10.0.0.8\n",
            b"asa: line 12: no-such-line\n",
        ),
        (
            b"object-group network G\n network-object 10.0.0.9 255.255.255.0\n",
            b"asa: line 11: bad 26\n",
        ),
        (
            b"object service S\n service tcp\nobject-group network G\n network-object object S\n",
            b"asa: line 13: bad 24\n",
        ),
        (
            b"object-group icmp-type I\n no description\n",
            b"asa: line 11: bad 2\n",
        ),
    ] {
        let text = told(&rt, rt.alloc(), &[BASE, block, b": end\n"])?;
        assert_eq!(rt; text.as_slice(), wanted, "in {block:?}");
    }
    Ok(())
}

#[test]
fn what_a_group_or_a_list_names_is_not_removed(rt: HostRuntime) -> Result<(), Fail> {
    let named = b"object network A
 host 10.0.0.9
object network B
 host 10.0.0.8
object-group network H
 network-object object A
object-group network G
 network-object object A
object-group network T
 group-object G
object-group service P tcp
access-list Z permit tcp any object B object-group P
access-list L permit ip object-group H object B
";
    for (block, wanted) in [
        (
            b"no object network A\n".as_slice(),
            b"asa: line 23: in-use G\n".as_slice(),
        ),
        (b"no object-group network G\n", b"asa: line 23: in-use T\n"),
        (b"no object network B\n", b"asa: line 23: in-use Z\n"),
        (b"no object-group service P\n", b"asa: line 23: in-use Z\n"),
        (b"no object-group network H\n", b"asa: line 23: in-use L\n"),
    ] {
        let text = told(&rt, rt.alloc(), &[BASE, named, block, b": end\n"])?;
        assert_eq!(rt; text.as_slice(), wanted, "in {block:?}");
    }
    Ok(())
}

#[test]
fn a_list_line_takes_names_of_the_kind_of_their_place(rt: HostRuntime) -> Result<(), Fail> {
    for (block, wanted) in [
        (
            b"access-list L permit ip any object A\n".as_slice(),
            b"asa: line 10: unknown 36\n".as_slice(),
        ),
        (
            b"object network A\n host 10.0.0.9\naccess-list L permit ip any object-group A\n",
            b"asa: line 12: bad 42\n",
        ),
        (
            b"object-group network G\naccess-list L permit object-group G any any\n",
            b"asa: line 11: bad 35\n",
        ),
        (
            b"object-group service P udp\naccess-list L permit tcp any any object-group P\n",
            b"asa: line 11: bad 47\n",
        ),
        (
            b"object-group service P tcp\naccess-list L permit gre any object-group P any\n",
            b"asa: line 11: bad 43\n",
        ),
        (
            b"object-group service S\naccess-list L permit object-group S any any eq 80\n",
            b"asa: line 11: bad 45\n",
        ),
    ] {
        let text = told(&rt, rt.alloc(), &[BASE, block, b": end\n"])?;
        assert_eq!(rt; text.as_slice(), wanted, "in {block:?}");
    }
    Ok(())
}

#[test]
fn a_group_whose_new_member_makes_too_many_pairs_is_refused(rt: HostRuntime) -> Result<(), Fail> {
    // 62 networks of a range, twice, and eight services of each member: 246,016 pairs with eight members.
    let blocks = b"object network R
 range 0.0.0.1 255.255.255.254
object-group service S
 service-object tcp-udp source neq 1 destination neq 1
 service-object tcp-udp source neq 2 destination neq 2
 service-object tcp-udp source neq 3 destination neq 3
 service-object tcp-udp source neq 4 destination neq 4
 service-object tcp-udp source neq 5 destination neq 5
 service-object tcp-udp source neq 6 destination neq 6
 service-object tcp-udp source neq 7 destination neq 7
 service-object tcp-udp source neq 8 destination neq 8
access-list L permit object-group S object R object R
";
    let more = b"object-group service S
 service-object tcp-udp source neq 9 destination neq 9
: end
";
    let text = told(&rt, rt.alloc(), &[BASE, blocks, more])?;
    assert_eq!(rt;
        text.as_slice(),
        b"asa: line 22: too-large 276768\n".as_slice()
    );
    Ok(())
}

// A block of a network group of 512 hosts, of which `front` states all but the last two octets.
fn hosts_block(alloc: Global, top: &[u8], front: &[u8]) -> Result<Vec<u8>, AllocError> {
    let mut block = Vec::from_slice(alloc, top)?;
    for host in 0..512u64 {
        block.extend_from_slice(front)?;
        push_number(&mut block, host / 256)?;
        block.extend_from_slice(b".")?;
        push_number(&mut block, host % 256)?;
        block.extend_from_slice(b"\n")?;
    }
    Ok(block)
}

#[test]
fn as_many_prefix_pairs_as_there_may_be_are_taken_and_not_one_more(
    rt: HostRuntime,
) -> Result<(), Fail> {
    // 512 hosts times 512 hosts are 262,144 pairs, which line 1036 makes.
    let a = hosts_block(
        rt.alloc(),
        b"object-group network A\n",
        b" network-object host 10.8.",
    )?;
    let b = hosts_block(
        rt.alloc(),
        b"object-group network B\n",
        b" network-object host 10.9.",
    )?;
    let lines = b"access-list BIG extended permit ip object-group A object-group B
access-list BIG extended permit ip any any
: end
";
    let text = told(&rt, rt.alloc(), &[BASE, a.as_slice(), b.as_slice(), lines])?;
    assert_eq!(rt;
        text.as_slice(),
        b"asa: line 1037: too-large 262145\n".as_slice()
    );
    Ok(())
}
