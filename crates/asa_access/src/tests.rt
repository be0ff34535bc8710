//! What lies outside the contracts: verdicts from the rules.
ghost use Rattle.std.specs.Prelude.{◌≤◌, IsTrue};
ghost use Rattle.asa_access_entries.specs.Matches.{box_pairs};

use crate::{Access, AccessList, AccessVerdict};
use asa_access_entries::entries_of;
use asa_base::{
    AccessBy, Addr, Counter, LineBox, Name, Packet, PortRange, Range, Service, prefix_count,
};
use asa_text::Items;
use std::alloc::Global;
use std::test::Fail;

/// A TCP packet from an interface to this port.
fn packet(ifc: u8, dport: u16) -> Packet {
    Packet {
        ifc,
        proto: 6,
        src: Addr(0x0a01_0101),
        sport: 1025,
        dst: Addr(0xcb00_7150),
        dport,
        flags: 1,
        itype: 0,
        icode: 0,
    }
}

/// A line about one TCP port.
fn line(number: u32, port: u16, permit: bool) -> LineBox {
    LineBox {
        source: Range::all(),
        dest: Range::only(Addr(0xcb00_7150)),
        service: Service {
            proto: Some(6),
            dport: PortRange::only(port),
            ..Service::any()
        },
        line: number,
        permit,
    }
}

/// Whether a box has few prefix pairs.
fn has_few_pairs(b: &LineBox) -> bool
    ensures { IsTrue result → box_pairs b.now ≤ 4000 }
{
    prefix_count(b.source) * prefix_count(b.dest) <= 4000
}

/// A list that is bound to one side, or to none.
fn list(
    alloc: Global,
    name: Name,
    first: LineBox,
    second: LineBox,
    side: Option<(u8, bool)>,
) -> Result<AccessList, Fail> {
    let mut bound = Items::new(alloc);
    if let Some(side) = side {
        bound.push(side)?;
    }
    if !has_few_pairs(&first) || !has_few_pairs(&second) {
        return Err(Fail::from("too many prefix pairs"));
    }
    Ok(AccessList {
        name,
        entries: entries_of(alloc, &[first, second])?,
        bound,
    })
}

#[test]
fn the_own_list_comes_first_then_the_global_one_then_the_implicit_deny(
    rt: HostRuntime,
) -> Result<(), Fail> {
    let alloc = rt.alloc();
    let own = Name::new(b"own").ok_or("no name")?;
    let all = Name::new(b"all").ok_or("no name")?;
    let lists = [
        list(
            alloc,
            own.copy(),
            line(1, 80, true),
            line(3, 22, false),
            Some((1, true)),
        )?,
        list(
            alloc,
            all.copy(),
            line(2, 22, true),
            line(5, 443, true),
            None,
        )?,
    ];
    let access = Access::build(
        alloc,
        &lists,
        Some(1),
        Vec::from_slice(alloc, &[100, 0, 50])?,
    )?;
    let mut c = Counter::new();
    let by_own = |line: u32| AccessBy::List {
        name: own.copy(),
        line,
    };
    let by_all = |line: u32| AccessBy::Global {
        name: all.copy(),
        line,
    };
    assert_eq!(rt;
        access.inbound(&packet(1, 80), 0, &mut c),
        AccessVerdict::Permit(by_own(1))
    );
    assert_eq!(rt;
        access.inbound(&packet(1, 22), 0, &mut c),
        AccessVerdict::Deny(by_own(3))
    );
    assert_eq!(rt;
        access.inbound(&packet(1, 443), 0, &mut c),
        AccessVerdict::Permit(by_all(5))
    );
    assert_eq!(rt;
        access.inbound(&packet(1, 25), 0, &mut c),
        AccessVerdict::Deny(AccessBy::Implicit)
    );
    // The global list is asked at an input without a list, too, and ends with a deny.
    assert_eq!(rt;
        access.inbound(&packet(2, 22), 0, &mut c),
        AccessVerdict::Permit(by_all(2))
    );
    assert_eq!(rt;
        access.inbound(&packet(0, 80), 2, &mut c),
        AccessVerdict::Deny(AccessBy::Implicit)
    );
    Ok(())
}

#[test]
fn levels_decide_where_no_list_is_bound(rt: HostRuntime) -> Result<(), Fail> {
    let alloc = rt.alloc();
    let out = Name::new(b"out").ok_or("no name")?;
    let lists = [list(
        alloc,
        out.copy(),
        line(1, 80, true),
        line(2, 22, false),
        Some((2, false)),
    )?];
    let access = Access::build(
        alloc,
        &lists,
        None,
        Vec::from_slice(alloc, &[100, 0, 50, 50])?,
    )?;
    let mut c = Counter::new();
    assert_eq!(rt;
        access.inbound(&packet(0, 80), 1, &mut c),
        AccessVerdict::Permit(AccessBy::Level)
    );
    assert_eq!(rt;
        access.inbound(&packet(1, 80), 2, &mut c),
        AccessVerdict::Deny(AccessBy::Level)
    );
    assert_eq!(rt;
        access.inbound(&packet(2, 80), 3, &mut c),
        AccessVerdict::Permit(AccessBy::Level)
    );
    assert_eq!(rt;
        access.outbound(&packet(0, 80), 1, &mut c),
        AccessVerdict::Permit(AccessBy::NoList)
    );
    let by_out = AccessBy::List {
        name: out.copy(),
        line: 2,
    };
    assert_eq!(rt;
        access.outbound(&packet(0, 22), 2, &mut c),
        AccessVerdict::Deny(by_out)
    );
    assert_eq!(rt;
        access.outbound(&packet(0, 443), 2, &mut c),
        AccessVerdict::Deny(AccessBy::Implicit)
    );
    Ok(())
}
