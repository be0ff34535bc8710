//! What lies outside the contracts: values from the rules, and that both programs answer alike.
use crate::{Entry, PairTrie, first_listed};
use asa_base::{Addr, Counter, Packet, PortRange, Prefix, Service};
use std::test::Fail;

/// A TCP packet to this port.
fn packet(src: u32, dst: u32, dport: u16) -> Packet {
    Packet {
        ifc: 0,
        proto: 6,
        src: Addr(src),
        sport: 1025,
        dst: Addr(dst),
        dport,
        flags: 1,
        itype: 0,
        icode: 0,
    }
}

/// The service of a TCP port.
fn tcp(port: u16) -> Service {
    Service {
        proto: Some(6),
        dport: PortRange::only(port),
        ..Service::any()
    }
}

#[test]
fn no_entry_holds_a_packet_of_an_empty_list(rt: HostRuntime) -> Result<(), Fail> {
    let trie = PairTrie::build(rt.alloc(), &[])?;
    let mut reads = Counter::new();
    assert_eq!(rt; trie.first(&packet(1, 2, 80), &mut reads), None);
    Ok(())
}

#[test]
fn of_two_equal_entries_the_lesser_rank_counts(rt: HostRuntime) -> Result<(), Fail> {
    let lan = Prefix::new(Addr(0x0a00_0000), 8).ok_or("no network")?;
    let all = Prefix::new(Addr(0), 0).ok_or("no network")?;
    let entry = Entry {
        source: lan,
        dest: all,
        service: Service::any(),
        rank: 4,
    };
    let entries = [entry, Entry { rank: 2, ..entry }];
    let trie = PairTrie::build(rt.alloc(), &entries)?;
    let mut reads = Counter::new();
    assert_eq!(rt;
        trie.first(&packet(0x0a01_0101, 7, 80), &mut reads),
        Some(2)
    );
    assert_eq!(rt; trie.first(&packet(0x0b01_0101, 7, 80), &mut reads), None);
    Ok(())
}

#[test]
fn the_least_rank_counts_wherever_its_prefixes_lie(rt: HostRuntime) -> Result<(), Fail> {
    let all = Prefix::new(Addr(0), 0).ok_or("no network")?;
    let lan = Prefix::new(Addr(0x0a00_0000), 8).ok_or("no network")?;
    let web = Prefix::new(Addr(0xcb00_7150), 32).ok_or("no network")?;
    let entries = [
        // More closely drawn, but later.
        Entry {
            source: lan,
            dest: web,
            service: Service::any(),
            rank: 3,
        },
        Entry {
            source: all,
            dest: web,
            service: tcp(80),
            rank: 1,
        },
        Entry {
            source: lan,
            dest: all,
            service: tcp(443),
            rank: 2,
        },
    ];
    let trie = PairTrie::build(rt.alloc(), &entries)?;
    let mut reads = Counter::new();
    let inside = 0x0a01_0101;
    assert_eq!(rt;
        trie.first(&packet(inside, 0xcb00_7150, 80), &mut reads),
        Some(1)
    );
    assert_eq!(rt;
        trie.first(&packet(inside, 0xcb00_7150, 443), &mut reads),
        Some(2)
    );
    assert_eq!(rt;
        trie.first(&packet(inside, 0xcb00_7150, 22), &mut reads),
        Some(3)
    );
    assert_eq!(rt; trie.first(&packet(1, 0xcb00_7150, 443), &mut reads), None);
    Ok(())
}

/// The next number of a fixed sequence.
fn next(number: u32) -> u32 {
    number.wrapping_mul(1_664_525).wrapping_add(1_013_904_223)
}

/// An address with few different bits, so that many prefixes lie within others.
fn address(number: u32) -> Addr {
    Addr(number & 0xe000_00f0)
}

#[test]
fn the_tries_answer_as_the_list_does(rt: HostRuntime) -> Result<(), Fail> {
    let mut entries: Vec<Entry> = Vec::new(rt.alloc());
    let mut seed = 1u32;
    for place in 0..400u32 {
        seed = next(seed);
        let source = asa_trie::over(address(seed), (seed >> 27) as u8);
        seed = next(seed);
        let dest = asa_trie::over(address(seed), (seed >> 27) as u8);
        let service = tcp((place % 7) as u16);
        // Ranks that neither rise nor fall along the entries, some of them equal.
        let rank = (seed >> 8) % 300;
        entries.push(Entry {
            source,
            dest,
            service,
            rank,
        })?;
    }
    assert_eq!(rt; entries.len(), 400);
    let trie = PairTrie::build(rt.alloc(), &entries)?;
    let mut reads = Counter::new();
    for _ in 0..1000 {
        seed = next(seed);
        let src = seed & 0xe000_00ff;
        seed = next(seed);
        let p = packet(src, seed & 0xe000_00ff, ((seed >> 20) % 8) as u16);
        assert_eq!(rt; trie.first(&p, &mut reads), first_listed(&entries, &p));
    }
    Ok(())
}
