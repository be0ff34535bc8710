//! What lies outside the contracts: the table beside plain lists over mixed calls, and ports from the rules.
ghost use Rattle.std.specs.Prelude.{◌≡◌, ◌==◌};

use crate::{Held, Mapped, PortTable};
use asa_base::{Addr, Range};
use asa_pool_values::{PatSpan, Pool, PortRule, Reserved};
use asa_text::Items;
use std::alloc::{AllocError, Global};
use std::test::Fail;

/// One port that no pool gives.
#[derive(Clone, Copy)]
struct Kept {
    port: u16,
}

impl Reserved for Kept {
    ghost keeps = { λ r _ _ n. n == r.port };

    fn reserved(&self, _proto: u8, _addr: Addr, port: u16) -> bool {
        port == self.port
    }
}

const NONE: Kept = Kept { port: 7 };

/// 203.0.113.20.
const MAPPED: Addr = Addr(3_405_803_796);

/// A pool of so many whole addresses from 50 on, and of one address with ports, if any.
fn pool_of(alloc: Global, whole: u32, ports: Option<(PortRule, bool)>) -> Result<Pool, AllocError> {
    let mut nat = Items::new(alloc);
    let mut pat = Items::new(alloc);
    if let Some(range) = Range::new(Addr(50), Addr(49u32.saturating_add(whole))) {
        nat.push(range)?;
    }
    if let Some((rule, extended)) = ports {
        pat.push(PatSpan {
            range: Range::only(MAPPED),
            ports: rule,
            extended,
        })?;
    }
    Ok(Pool { nat, pat })
}

/// What a TCP flow from this client and port to this server gets and takes.
fn open(
    table: &mut PortTable,
    pool: &Pool,
    kept: &Kept,
    client: u32,
    sport: u16,
    server: u32,
) -> Option<Mapped> {
    let src = Addr(client);
    let mapped = table.choose(pool, kept, 0, 6, src, sport, Addr(server), 443)?;
    if table.fits(&mapped, 0, 6, src) {
        table.take(&mapped, 0, 6, src);
    }
    Some(mapped)
}

/// A plain translation to a port.
fn plain(port: u16) -> Option<Mapped> {
    Some(Mapped::Pat {
        addr: MAPPED,
        port,
        to: None,
    })
}

/// What four flows from the ports 80, 80, 1024 and 1024 get.
fn four(alloc: Global, rule: PortRule) -> Result<[Option<Mapped>; 4], AllocError> {
    let pool = pool_of(alloc, 0, Some((rule, false)))?;
    let mut table = PortTable::new(alloc, 8)?;
    let first = open(&mut table, &pool, &NONE, 5, 80, 9);
    let second = open(&mut table, &pool, &NONE, 6, 80, 9);
    let third = open(&mut table, &pool, &NONE, 7, 1024, 9);
    let fourth = open(&mut table, &pool, &NONE, 8, 1024, 9);
    Ok([first, second, third, fourth])
}

#[test]
fn the_own_port_is_kept_and_the_least_of_the_span_is_next(rt: HostRuntime) -> Result<(), Fail> {
    assert_eq!(rt;
        four(rt.alloc(), PortRule::Plain)?,
        [plain(80), plain(1), plain(1024), plain(1025)]
    );
    assert_eq!(rt;
        four(rt.alloc(), PortRule::Flat)?,
        [plain(80), plain(1024), plain(1025), plain(1026)]
    );
    assert_eq!(rt;
        four(rt.alloc(), PortRule::FlatReserve)?,
        [plain(80), plain(1), plain(1024), plain(2)]
    );
    Ok(())
}

#[test]
fn a_reserved_port_is_passed_over(rt: HostRuntime) -> Result<(), Fail> {
    let pool = pool_of(rt.alloc(), 0, Some((PortRule::Plain, false)))?;
    let mut table = PortTable::new(rt.alloc(), 8)?;
    let kept = Kept { port: 1 };
    let first = open(&mut table, &pool, &kept, 5, 0, 9);
    let second = open(&mut table, &pool, &kept, 6, 1, 9);
    assert_eq!(rt; (first, second), (plain(2), plain(3)));
    Ok(())
}

#[test]
fn an_identifier_of_icmp_may_be_0(rt: HostRuntime) -> Result<(), Fail> {
    let pool = pool_of(rt.alloc(), 0, Some((PortRule::Plain, false)))?;
    let table = PortTable::new(rt.alloc(), 8)?;
    let icmp = table.choose(&pool, &NONE, 0, 1, Addr(5), 0, Addr(9), 0);
    let other = table.choose(&pool, &NONE, 0, 47, Addr(5), 0, Addr(9), 0);
    assert_eq!(rt; (icmp, other), (plain(0), None));
    Ok(())
}

#[test]
fn extended_flows_share_a_port_to_different_ends(rt: HostRuntime) -> Result<(), Fail> {
    let extended = pool_of(rt.alloc(), 0, Some((PortRule::Plain, true)))?;
    let simple = pool_of(rt.alloc(), 0, Some((PortRule::Plain, false)))?;
    let mut table = PortTable::new(rt.alloc(), 8)?;
    let first = open(&mut table, &extended, &NONE, 5, 1024, 9);
    let second = open(&mut table, &extended, &NONE, 6, 1024, 10);
    let third = open(&mut table, &extended, &NONE, 7, 1024, 9);
    let fourth = open(&mut table, &simple, &NONE, 8, 1024, 9);
    let ports = [1024, 1024, 1025, 1026];
    let ends = [
        Some((Addr(9), 443)),
        Some((Addr(10), 443)),
        Some((Addr(9), 443)),
        None,
    ];
    let found = [first, second, third, fourth];
    let mut alike = true;
    for i in 0..4 {
        alike = alike
            && found[i]
                == Some(Mapped::Pat {
                    addr: MAPPED,
                    port: ports[i],
                    to: ends[i],
                });
    }
    assert!(rt; alike);
    Ok(())
}

#[test]
fn a_source_keeps_its_address_and_the_next_one_gets_another(rt: HostRuntime) -> Result<(), Fail> {
    let pool = pool_of(rt.alloc(), 2, None)?;
    let mut table = PortTable::new(rt.alloc(), 8)?;
    let first = open(&mut table, &pool, &NONE, 5, 80, 9);
    let again = open(&mut table, &pool, &NONE, 5, 81, 9);
    let second = open(&mut table, &pool, &NONE, 6, 80, 9);
    let third = open(&mut table, &pool, &NONE, 7, 80, 9);
    assert_eq!(rt;
        (first, again, second, third),
        (
            Some(Mapped::Bound { addr: Addr(50) }),
            Some(Mapped::Bound { addr: Addr(50) }),
            Some(Mapped::Bound { addr: Addr(51) }),
            None
        )
    );
    Ok(())
}

/// The plain lists, whose calls go over them.
#[derive(Drop)]
struct Lists {
    held: Vec<Held>,
}

impl Lists {
    /// Whether a TCP flow to an end may get a port.
    fn is_free(&self, kept: &Kept, extended: bool, end: (Addr, u16), port: u16) -> bool {
        for held in &self.held {
            if held.port == port && (!extended || held.to.is_none() || held.to == Some(end)) {
                return false;
            }
        }
        port != kept.port && port != 0
    }

    /// The port that a TCP flow to an end gets under the plain rule.
    fn port(&self, kept: &Kept, extended: bool, end: (Addr, u16), sport: u16) -> Option<u16> {
        if self.is_free(kept, extended, end, sport) {
            return Some(sport);
        }
        let first = if sport < 512 {
            0
        } else if sport < 1024 {
            512
        } else {
            1024
        };
        let last = if sport < 512 {
            511
        } else if sport < 1024 {
            1023
        } else {
            65535
        };
        for port in first..=last {
            if self.is_free(kept, extended, end, port) {
                return Some(port);
            }
        }
        None
    }
}

/// The next number of a fixed sequence.
fn next(number: u32) -> u32 {
    number.wrapping_mul(1_664_525).wrapping_add(1_013_904_223)
}

/// Whether a TCP flow gets what the lists give, in an extended pool or a plain one. It takes what it gets.
fn opens_alike(
    table: &mut PortTable,
    lists: &mut Lists,
    pool: &Pool,
    extended: bool,
    sport: u16,
    server: u32,
) -> Result<bool, AllocError> {
    let end = (Addr(server), 443);
    let kept = Kept { port: 515 };
    let port = lists.port(&kept, extended, end, sport);
    let mapped = open(table, pool, &kept, 5, sport, server);
    match (port, mapped) {
        (
            Some(port),
            Some(
                Mapped::Pat {
                    addr,
                    port: given,
                    to,
                },
            ),
        ) => {
            lists.held.push(Held {
                proto: 6,
                addr,
                port,
                to,
            })?;
            Ok(given == port && to == if extended { Some(end) } else { None })
        }
        (None, None) => Ok(true),
        _ => Ok(false),
    }
}

/// Gives back the port that stands at this index of the list.
fn close(table: &mut PortTable, lists: &mut Lists, index: usize) -> bool {
    if index >= lists.held.len() {
        return false;
    }
    let last = lists.held.swap_remove(index);
    let value = Mapped::Pat {
        addr: last.addr,
        port: last.port,
        to: last.to,
    };
    let held = table.holds(&value, 0, 6, Addr(5));
    if held {
        table.release(&value, 0, 6, Addr(5));
    }
    held
}

#[test]
fn the_table_gives_what_the_lists_give(rt: HostRuntime) -> Result<(), Fail> {
    let simple = pool_of(rt.alloc(), 0, Some((PortRule::Plain, false)))?;
    let extended = pool_of(rt.alloc(), 0, Some((PortRule::Plain, true)))?;
    let mut table = PortTable::new(rt.alloc(), 64)?;
    let mut lists = Lists {
        held: Vec::new(rt.alloc()),
    };
    let mut seed = 1;
    let mut alike = true;
    for _ in 0..400u32 {
        seed = next(seed);
        let is_extended = seed >> 31 == 1;
        let pool = if is_extended { &extended } else { &simple };
        let sport = 508 + ((seed >> 16) % 8) as u16;
        let server = (seed >> 8) % 3;
        let opened = opens_alike(&mut table, &mut lists, pool, is_extended, sport, server)?;
        alike = alike && opened;
        if lists.held.len() > 20 {
            let closed = close(&mut table, &mut lists, (seed % 20) as usize);
            alike = alike && closed;
        }
    }
    assert!(rt; alike && lists.held.len() == 20);
    Ok(())
}
