//! What lies outside the contracts: findings, their texts and certificates of small lists, by hand.
use crate::{BoxAt, Finding, Node, check_trees, judge, regions, write_finding};
use asa_base::{Addr, LineBox, Name, PortRange, Range, Service};
use asa_text::Items;
use std::alloc::Global;
use std::test::Fail;

// A service of a protocol, with destination ports.
fn service(proto: Option<u8>, dport: PortRange) -> Service {
    Service {
        proto,
        sport: PortRange::all(),
        dport,
        itype: None,
        icode: None,
    }
}

// A line from all addresses.
fn line_to(line: u32, dest: Range, service: Service) -> LineBox {
    LineBox {
        source: Range::all(),
        dest,
        service,
        line,
        permit: true,
    }
}

// A web server, then everything, then all of UDP.
fn web_then_all() -> [LineBox; 3] {
    [
        line_to(
            1,
            Range::only(Addr(0x0a00_0050)),
            service(Some(6), PortRange::only(80)),
        ),
        line_to(2, Range::all(), Service::any()),
        line_to(3, Range::all(), service(Some(17), PortRange::all())),
    ]
}

// The lower ports of TCP, the other ones, then all of TCP.
fn ports_in_two() -> [LineBox; 3] {
    [
        line_to(
            1,
            Range::all(),
            service(Some(6), PortRange { first: 0, last: 99 }),
        ),
        line_to(
            2,
            Range::all(),
            service(
                Some(6),
                PortRange {
                    first: 100,
                    last: 65535,
                },
            ),
        ),
        line_to(3, Range::all(), service(Some(6), PortRange::all())),
    ]
}

// What is said of the lines 1 to 3.
fn said(alloc: Global, name: &Name, boxes: &[LineBox]) -> Result<Vec<u8>, Fail> {
    let all = regions(alloc, boxes)?;
    if all.len() > 3 {
        return Err(Fail::from("too many boxes"));
    }
    let mut out = Vec::new(alloc);
    for line in 1..4u32 {
        let finding = judge(alloc, all.as_slice(), line, 1_000_000)?;
        write_finding(name, line, &finding, &mut out)?;
    }
    Ok(out)
}

#[test]
fn a_line_after_a_wider_one_is_shadowed(rt: HostRuntime) -> Result<(), Fail> {
    let name = Name::new(b"X").ok_or("no name")?;
    let out = said(rt.alloc(), &name, &web_then_all())?;
    assert_eq!(rt;
        out.as_slice(),
        b"shadow X 1 no tcp 0.0.0.0 0 10.0.0.80 80 -
shadow X 2 no icmp 0.0.0.0 0 0 0 0.0.0.0
shadow X 3 yes 0
k b2
"
            .as_slice()
    );
    Ok(())
}

#[test]
fn a_line_that_two_lines_cover_is_shadowed(rt: HostRuntime) -> Result<(), Fail> {
    let name = Name::new(b"Y").ok_or("no name")?;
    let out = said(rt.alloc(), &name, &ports_in_two())?;
    assert_eq!(rt;
        out.as_slice(),
        b"shadow Y 1 no tcp 0.0.0.0 0 0.0.0.0 0 -
shadow Y 2 no tcp 0.0.0.0 0 0.0.0.0 100 -
shadow Y 3 yes 1
k c5:99 b1 b2
"
            .as_slice()
    );
    Ok(())
}

// Whether the checker accepts one tree for line 3.
fn accepts(alloc: Global, boxes: &[BoxAt], nodes: &[Node]) -> Result<bool, Fail> {
    let mut trees = Items::new(alloc);
    trees.push(Items::from(Vec::from_slice(alloc, nodes)?))?;
    let accepted = check_trees(alloc, boxes, 3, trees.as_slice())?;
    Ok(accepted)
}

#[test]
fn trees_are_given_up_at_the_limit_and_checked_leaf_by_leaf(rt: HostRuntime) -> Result<(), Fail> {
    let all = regions(rt.alloc(), &ports_in_two())?;
    assert_eq!(rt; all.len(), 3);
    let boxes = all.as_slice();
    let finding = judge(rt.alloc(), boxes, 3, 1)?;
    assert!(rt; matches!(finding, Finding::Unknown { cuts: 1 }));
    let cut = |at: u32| -> Node { Node::Cut { dim: 5, at } };
    let (first, second) = (Node::Covered { by: 1 }, Node::Covered { by: 2 });
    assert!(rt; accepts(rt.alloc(), boxes, &[cut(99), first, second])?);
    assert!(rt; !accepts(rt.alloc(), boxes, &[cut(98), first, second])?);
    assert!(rt; !accepts(rt.alloc(), boxes, &[first])?);
    let none = check_trees(rt.alloc(), boxes, 3, &[])?;
    assert!(rt; !none);
    Ok(())
}
