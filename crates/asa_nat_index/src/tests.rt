//! That the index answers as the cases read one after another do, and values from the rules.
ghost use Rattle.std.specs.Prelude.{◌≡◌, ◌≤◌, true, IfSome, ◌<◌};
ghost use Rattle.asa_nat_rules.specs.Pairs.{case_pairs};
ghost use Rattle.asa_nat_index.specs.Matches.{IsNarrow};

use crate::{NatIndex, destination_listed, source_listed};
use asa_base::{Addr, Counter, NatPlace, Packet, PortRange, Range, prefix_count};
use asa_nat_rules::{Case, CaseMap};
use asa_text::Items;
use std::alloc::Global;
use std::test::Fail;

/// A TCP packet that comes in on an interface.
fn packet(ifc: u8, src: u32, dst: u32, dport: u16) -> Packet {
    Packet {
        ifc,
        proto: 6,
        src: Addr(src),
        sport: 1025,
        dst: Addr(dst),
        dport,
        flags: 1,
        itype: 0,
        icode: 0,
    }
}

/// The place of a rule of the first section.
fn place(number: u32) -> NatPlace {
    NatPlace {
        section: 1,
        place: number,
    }
}

/// A list of one range.
fn only(alloc: Global, range: Range) -> Result<Items<Range>, Fail> {
    let mut ranges = Items::new(alloc);
    ranges.push(range)?;
    Ok(ranges)
}

/// The forward case of a static rule of one host.
fn forward(
    alloc: Global,
    from: Option<u8>,
    to: Option<u8>,
    real: Range,
    mapped: Range,
) -> Result<Case, Fail> {
    Ok(Case {
        forward: true,
        from,
        to,
        source: only(alloc, real)?,
        source_map: CaseMap::Static(only(alloc, mapped)?),
        dest: only(alloc, Range::all())?,
        dest_map: None,
        proto: None,
        sport: PortRange::all(),
        sport_to: PortRange::all(),
        dport: PortRange::all(),
        dport_to: PortRange::all(),
        route_lookup: false,
    })
}

/// Its opposite case.
fn opposite(
    alloc: Global,
    from: Option<u8>,
    to: Option<u8>,
    mapped: Range,
    real: Range,
) -> Result<Case, Fail> {
    Ok(Case {
        forward: false,
        from,
        to,
        source: only(alloc, Range::all())?,
        source_map: CaseMap::None,
        dest: only(alloc, mapped)?,
        dest_map: Some(only(alloc, real)?),
        proto: None,
        sport: PortRange::all(),
        sport_to: PortRange::all(),
        dport: PortRange::all(),
        dport_to: PortRange::all(),
        route_lookup: false,
    })
}

/// Whether it is any interface, or one of the first 64.
fn is_narrow(ifc: Option<u8>) -> bool
    ensures { result ≡ true → IfSome ifc (λ n. n < 64) }
{
    match ifc {
        None => true,
        Some(number) => number < 64,
    }
}

/// Whether a case is over one range on each side, with at most 16 prefix pairs.
fn has_few_pairs(case: &Case) -> bool
    ensures { result ≡ true → case_pairs case.now ≤ 16 }
{
    let source = case.source.as_slice();
    let dest = case.dest.as_slice();
    if source.len() != 1 || dest.len() != 1 {
        return false;
    }
    prefix_count(source[0]) * prefix_count(dest[0]) <= 16
}

/// Whether a case meets what the index asks of each.
fn is_small(case: &(NatPlace, Case)) -> bool
    ensures narrow { result ≡ true → IsNarrow case.now }
    ensures few { result ≡ true → case_pairs case.now.1 ≤ 16 }
{
    is_narrow(case.1.from) && is_narrow(case.1.to) && has_few_pairs(&case.1)
}

/// The index of cases, which is asked for few and small ones alone.
fn index_of(alloc: Global, cases: &[(NatPlace, Case)]) -> Result<NatIndex, Fail> {
    if cases.len() > 16_384 {
        return Err(Fail::from("too many cases"));
    }
    for case in cases {
        if !is_small(case) {
            return Err(Fail::from("a wide case"));
        }
    }
    Ok(NatIndex::build(alloc, cases)?)
}

#[test]
fn an_index_without_cases_finds_none(rt: HostRuntime) -> Result<(), Fail> {
    let index = NatIndex::build(rt.alloc(), &[])?;
    let mut reads = Counter::new();
    assert_eq!(rt;
        (
            index.destination(&packet(0, 1, 2, 80), &mut reads),
            index.source(&packet(63, 1, 2, 80), 63, &mut reads),
        ),
        (None, None)
    );
    Ok(())
}

#[test]
fn the_first_case_counts_whether_its_interfaces_are_any_or_named(
    rt: HostRuntime,
) -> Result<(), Fail> {
    let alloc = rt.alloc();
    let host = Range::only(Addr(10));
    let cases = [
        (
            place(1),
            forward(alloc, Some(1), Some(2), host, Range::only(Addr(90)))?,
        ),
        (
            place(2),
            forward(alloc, Some(1), None, host, Range::only(Addr(91)))?,
        ),
        (
            place(3),
            forward(alloc, None, Some(3), host, Range::only(Addr(92)))?,
        ),
        (
            place(4),
            forward(alloc, None, None, host, Range::only(Addr(93)))?,
        ),
    ];
    let index = index_of(alloc, &cases)?;
    let mut reads = Counter::new();
    let p = packet(1, 10, 7, 80);
    let q = packet(0, 10, 7, 80);
    assert_eq!(rt;
        (
            index.source(&p, 2, &mut reads),
            index.source(&p, 3, &mut reads),
            index.source(&q, 3, &mut reads),
            index.source(&q, 2, &mut reads),
            index.source(&packet(1, 11, 7, 80), 2, &mut reads),
        ),
        (Some(0), Some(1), Some(2), Some(3), None)
    );
    // No case has a destination part.
    assert_eq!(rt; index.destination(&p, &mut reads), None);
    Ok(())
}

#[test]
fn ports_and_protocol_tell_cases_of_one_address_apart(rt: HostRuntime) -> Result<(), Fail> {
    let alloc = rt.alloc();
    let mapped = Range::only(Addr(50));
    let real = Range::only(Addr(10));
    let web = Case {
        proto: Some(6),
        dport: PortRange::only(80),
        dport_to: PortRange::only(8080),
        ..opposite(alloc, Some(0), Some(1), mapped, real)?
    };
    let cases = [
        (place(1), web),
        (place(2), opposite(alloc, Some(0), Some(1), mapped, real)?),
    ];
    let index = index_of(alloc, &cases)?;
    let mut reads = Counter::new();
    assert_eq!(rt;
        (
            index.destination(&packet(0, 1, 50, 80), &mut reads),
            index.destination(&packet(0, 1, 50, 81), &mut reads),
            index.destination(&packet(1, 1, 50, 80), &mut reads),
            index.destination(&packet(0, 1, 51, 80), &mut reads),
        ),
        (Some(0), Some(1), None, None)
    );
    Ok(())
}

#[test]
fn each_of_eight_thousand_hosts_has_its_two_cases(rt: HostRuntime) -> Result<(), Fail> {
    let alloc = rt.alloc();
    let mut cases: Vec<(NatPlace, Case)> = Vec::new(alloc);
    for k in 0..8000u32 {
        let real = Range::only(Addr(0x0a00_0000 + k));
        let mapped = Range::only(Addr(0xc633_0000 + k));
        cases.push((
            place(k + 1),
            forward(alloc, Some(63), Some(62), real, mapped)?,
        ))?;
        cases.push((
            place(k + 1),
            opposite(alloc, Some(62), Some(63), mapped, real)?,
        ))?;
    }
    let all = Range::all();
    cases.push((place(8001), forward(alloc, None, None, all, all)?))?;
    assert_eq!(rt; cases.len(), 16_001);
    let index = index_of(alloc, &cases)?;
    let mut reads = Counter::new();
    for k in 0..8000u32 {
        let out = packet(63, 0x0a00_0000 + k, 7, 80);
        assert_eq!(rt; index.source(&out, 62, &mut reads), Some(2 * k));
        let back = packet(62, 7, 0xc633_0000 + k, 80);
        assert_eq!(rt; index.destination(&back, &mut reads), Some(2 * k + 1));
    }
    // What no host covers has the last case.
    assert_eq!(rt;
        (
            index.source(&packet(63, 7, 7, 80), 62, &mut reads),
            index.source(&packet(63, 0x0a00_0000, 7, 80), 61, &mut reads),
        ),
        (Some(16_000), Some(16_000))
    );
    Ok(())
}

/// The next number of a fixed sequence.
fn next(number: u32) -> u32 {
    number.wrapping_mul(1_664_525).wrapping_add(1_013_904_223)
}

/// Any interface, or one of three.
fn interface(number: u32) -> Option<u8> {
    match (number >> 20) & 3 {
        3 => None,
        ifc => Some(ifc as u8),
    }
}

#[test]
fn the_index_answers_as_the_list_of_mixed_cases_does(rt: HostRuntime) -> Result<(), Fail> {
    let alloc = rt.alloc();
    let mut cases: Vec<(NatPlace, Case)> = Vec::new(alloc);
    let mut seed = 1u32;
    for k in 0..300u32 {
        seed = next(seed);
        let from = interface(seed);
        seed = next(seed);
        let to = interface(seed);
        seed = next(seed);
        let first = (seed >> 24) & 63;
        let a = Range::new(Addr(first), Addr(first + ((seed >> 12) & 7))).ok_or("no range")?;
        seed = next(seed);
        let b = Range::only(Addr((seed >> 24) & 63));
        let case = if k % 2 == 0 {
            forward(alloc, from, to, a, b)?
        } else {
            opposite(alloc, from, to, a, b)?
        };
        let port = PortRange::only(((seed >> 10) & 3) as u16);
        cases.push((
            place(k + 1),
            Case {
                dport: port,
                ..case
            },
        ))?;
    }
    assert_eq!(rt; cases.len(), 300);
    let index = index_of(alloc, &cases)?;
    let mut reads = Counter::new();
    let mut has_both = false;
    for _ in 0..2000 {
        seed = next(seed);
        let ifc = ((seed >> 28) & 3) as u8;
        let egress = ((seed >> 26) & 3) as u8;
        let p = packet(
            ifc,
            (seed >> 8) & 63,
            (seed >> 16) & 63,
            ((seed >> 24) & 3) as u16,
        );
        let dest = index.destination(&p, &mut reads);
        let source = index.source(&p, egress, &mut reads);
        assert_eq!(rt; dest.map(|at| at as usize), destination_listed(&cases, &p));
        assert_eq!(rt;
            source.map(|at| at as usize),
            source_listed(&cases, &p, egress)
        );
        if dest.is_some() && source.is_some() {
            has_both = true;
        }
    }
    assert!(rt; has_both);
    Ok(())
}
