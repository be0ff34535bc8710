//! What lies outside the contracts: values from the rules, and that both programs answer alike.
use crate::{Fib, Route, route_listed};
use asa_base::{Addr, Counter, Prefix};
use std::test::Fail;

#[test]
fn the_longest_prefix_wins_then_the_distance_then_the_number(rt: HostRuntime) -> Result<(), Fail> {
    let all = Prefix::new(Addr(0), 0).ok_or("no network")?;
    let ten = Prefix::new(Addr(0x0a00_0000), 8).ok_or("no network")?;
    let lan = Prefix::new(Addr(0x0a01_0200), 24).ok_or("no network")?;
    let host = Prefix::new(Addr(0x0a01_0203), 32).ok_or("no network")?;
    let routes: [Route; 7] = [
        (all, 1, 0),
        (ten, 1, 1),
        (lan, 5, 2),
        (lan, 1, 4),
        (lan, 1, 3),
        (ten, 0, 5),
        (host, 255, 6),
    ];
    let fib = Fib::build(rt.alloc(), &routes)?;
    let mut reads = Counter::new();
    // The host's own route, whatever its distance.
    assert_eq!(rt; fib.lookup(Addr(0x0a01_0203), &mut reads), Some(6));
    // The lesser distance of one prefix, and there the lesser number.
    assert_eq!(rt; fib.lookup(Addr(0x0a01_0204), &mut reads), Some(3));
    assert_eq!(rt; fib.lookup(Addr(0x0a02_0000), &mut reads), Some(5));
    assert_eq!(rt; fib.lookup(Addr(0xc0a8_0001), &mut reads), Some(0));
    assert_eq!(rt; fib.lookup(Addr(u32::MAX), &mut reads), Some(0));
    Ok(())
}

#[test]
fn no_route_reaches_an_address_that_none_covers(rt: HostRuntime) -> Result<(), Fail> {
    let none = Fib::build(rt.alloc(), &[])?;
    let mut reads = Counter::new();
    assert_eq!(rt; none.lookup(Addr(7), &mut reads), None);
    let upper = Prefix::new(Addr(0x8000_0000), 1).ok_or("no network")?;
    let half = Fib::build(rt.alloc(), &[(upper, 1, 9)])?;
    assert_eq!(rt; half.lookup(Addr(0x7fff_ffff), &mut reads), None);
    assert_eq!(rt; half.lookup(Addr(0x8000_0000), &mut reads), Some(9));
    Ok(())
}

/// The next number of a fixed sequence.
fn next(number: u32) -> u32 {
    number.wrapping_mul(1_664_525).wrapping_add(1_013_904_223)
}

#[test]
fn the_trie_answers_as_the_list_does(rt: HostRuntime) -> Result<(), Fail> {
    let mut routes: Vec<Route> = Vec::new(rt.alloc());
    let mut seed = 1u32;
    for number in 0..300u32 {
        seed = next(seed);
        let len = (seed >> 27) as u8;
        seed = next(seed);
        // Few different leading bits, so that many prefixes lie within others.
        let address = Addr(seed & 0xe0f0_00f0);
        routes.push((
            asa_trie::over(address, 32 - len),
            (number % 3) as u8,
            number,
        ))?;
    }
    assert_eq!(rt; routes.len(), 300);
    let fib = Fib::build(rt.alloc(), &routes)?;
    let mut reads = Counter::new();
    for _ in 0..1000 {
        seed = next(seed);
        let address = Addr(seed & 0xe0f0_00ff);
        assert_eq!(rt;
            fib.lookup(address, &mut reads),
            route_listed(&routes, address)
        );
    }
    Ok(())
}
