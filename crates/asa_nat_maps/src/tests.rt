//! What lies outside the contracts: values from the rules.
use crate::StaticMap;
use asa_base::{Addr, Range};
use std::process::Abort;
use std::test::Fail;

/// The addresses from `first` to `last`.
fn range(first: u32, last: u32) -> Result<Range, Fail> {
    Ok(Range::new(Addr(first), Addr(last)).ok_or("no range")?)
}

#[test]
fn the_kth_address_becomes_the_kth_across_ranges(rt: HostRuntime) -> Result<(), Fail> {
    // 20, 21, 22, 10, 11 become 100, 7, 8, 9, 50.
    let from = [range(20, 22)?, range(10, 11)?];
    let to = [range(100, 100)?, range(7, 9)?, range(50, 50)?];
    let map = StaticMap::build(rt.alloc(), &from, &to)?;
    assert_eq!(rt;
        (
            map.sent(Addr(20)),
            map.sent(Addr(21)),
            map.sent(Addr(22)),
            map.sent(Addr(10)),
            map.sent(Addr(11)),
        ),
        (
            Some(Addr(100)),
            Some(Addr(7)),
            Some(Addr(8)),
            Some(Addr(9)),
            Some(Addr(50)),
        )
    );
    assert_eq!(rt; (map.sent(Addr(9)), map.sent(Addr(12))), (None, None));
    assert_eq!(rt; (map.sent(Addr(19)), map.sent(Addr(23))), (None, None));
    Ok(())
}

#[test]
fn an_address_in_several_ranges_is_taken_at_its_first(rt: HostRuntime) -> Result<(), Fail> {
    // 30, 31, 32, 31, 32, 33 become 1 to 6.
    let from = [range(30, 32)?, range(31, 33)?];
    let to = [range(1, 6)?];
    let map = StaticMap::build(rt.alloc(), &from, &to)?;
    assert_eq!(rt;
        (map.sent(Addr(31)), map.sent(Addr(32)), map.sent(Addr(33))),
        (Some(Addr(2)), Some(Addr(3)), Some(Addr(6)))
    );
    Ok(())
}

#[test]
fn a_mapped_address_is_reached_only_from_the_first_place_of_a_real_one(
    rt: HostRuntime,
) -> Result<(), Fail> {
    // 30, 31, 32, 31, 32, 33 become 1, 2, 3, 4, 5, 2: 4 and 5 stand at later places of 31 and 32.
    let from = [range(30, 32)?, range(31, 33)?];
    let to = [range(1, 5)?, range(2, 2)?];
    let map = StaticMap::build(rt.alloc(), &from, &to)?;
    assert_eq!(rt;
        (
            map.is_reached(Addr(1)),
            map.is_reached(Addr(2)),
            map.is_reached(Addr(3)),
            map.is_reached(Addr(4)),
            map.is_reached(Addr(5)),
            map.is_reached(Addr(6)),
        ),
        (true, true, true, false, false, false)
    );
    assert_eq!(rt; map.sent(Addr(33)), Some(Addr(2)));
    assert_eq!(rt;
        (
            map.holds(Addr(30)),
            map.holds(Addr(33)),
            map.holds(Addr(34))
        ),
        (true, true, false)
    );
    Ok(())
}

#[test]
fn the_first_and_the_last_address_of_all_are_mapped(rt: HostRuntime) -> Result<(), Fail> {
    let map = StaticMap::build(rt.alloc(), &[Range::all()], &[Range::all()])?;
    assert_eq!(rt;
        (map.sent(Addr(0)), map.sent(Addr(u32::MAX))),
        (Some(Addr(0)), Some(Addr(u32::MAX)))
    );
    Ok(())
}

#[test]
fn each_of_many_hosts_in_falling_order_has_its_own(rt: HostRuntime) -> Result<(), Fail> {
    let mut from: Vec<Range> = Vec::new(rt.alloc());
    let mut to: Vec<Range> = Vec::new(rt.alloc());
    for k in 0..2000u32 {
        from.push(Range::only(Addr(900_000 - 3 * k)))?;
        to.push(Range::only(Addr(5 * k)))?;
    }
    let map = StaticMap::build(rt.alloc(), &from, &to)?;
    for k in 0..2000u32 {
        assert_eq!(rt; map.sent(Addr(900_000 - 3 * k)), Some(Addr(5 * k)));
        assert_eq!(rt; map.sent(Addr(900_001 - 3 * k)), None);
    }
    Ok(())
}
