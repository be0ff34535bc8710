//! What lies outside the contracts: that the clauses mean what they should, at blocks and lines from the rules.
ghost use Rattle.std.specs.Prelude.{◌<◌, ◌^◌, length};

use crate::{Iface, IfaceFault, Ifaces, Permits, RouteLine, Timeouts, read_permits};
use asa_base::{Name, Prefix};
use asa_text::{Addr, Block, Items, LineFault, cut_blocks};
use std::alloc::Global;
use std::process::Abort;
use std::test::Fail;

const TWO_INTERFACES: &[u8] = b"interface GigabitEthernet0/0\n\
    \x20nameif outside\n\
    \x20security-level 0\n\
    \x20ip address 203.0.113.2 255.255.255.0\n\
    interface GigabitEthernet0/1\n\
    \x20nameif inside\n\
    \x20ip address 10.0.0.1 255.255.255.0\n";

fn name(text: &[u8]) -> Result<Name, Fail> {
    Ok(Name::new(text).ok_or("no name")?)
}

fn blocks(alloc: Global, text: &[u8]) -> Result<Items<Block>, Fail>
    requires { length text.now < 2 ^ 31 }
{
    Ok(cut_blocks(alloc, text, 1)?.map_err(|_| "a line before the first block")?)
}

/// Takes the interface blocks of a text.
fn take(alloc: Global, ifaces: &mut Ifaces, text: &[u8]) -> Result<(), Fail>
    requires { length text.now < 2 ^ 31 }
{
    for block in blocks(alloc, text)?.as_slice() {
        ifaces.interface(block)?;
    }
    Ok(())
}

/// The two interfaces.
fn two_interfaces(alloc: Global) -> Result<Ifaces, Fail> {
    let mut ifaces = Ifaces::new(alloc);
    take(alloc, &mut ifaces, TWO_INTERFACES)?;
    Ok(ifaces)
}

/// What a block of one interface beside the two is, or its refusal.
fn third_interface(alloc: Global, text: &[u8]) -> Result<Result<Iface, IfaceFault>, Fail>
    requires { length text.now < 2 ^ 31 }
{
    let mut ifaces = two_interfaces(alloc)?;
    let blocks = blocks(alloc, text)?;
    let block = blocks.as_slice().first().ok_or("no block")?;
    if let Err(fault) = ifaces.interface(block) {
        return Ok(Err(fault));
    }
    Ok(Ok(ifaces.ifaces().get(2).ok_or("no interface")?.copy()))
}

fn assert_third(
    rt: &(impl Abort + AllocGlobal),
    text: &[u8],
    wanted: IfaceFault,
) -> Result<(), Fail>
    requires { length text.now < 2 ^ 31 }
{
    let answer = third_interface(rt.alloc(), text)?;
    assert_eq!(rt; answer, Err(wanted));
    Ok(())
}

/// What is answered to the route lines of a text in turn, up to a refusal.
fn take_routes(
    alloc: Global,
    ifaces: &mut Ifaces,
    text: &[u8],
) -> Result<Result<(), IfaceFault>, Fail>
    requires { length text.now < 2 ^ 31 }
{
    for block in blocks(alloc, text)?.as_slice() {
        let line = block.top();
        let answer = if line.text.as_bytes().starts_with(b"no ") {
            ifaces.no_route(line)
        } else {
            ifaces.route(line)
        };
        if let Err(fault) = answer {
            return Ok(Err(fault));
        }
    }
    Ok(Ok(()))
}

fn assert_route(
    rt: &(impl Abort + AllocGlobal),
    text: &[u8],
    wanted: IfaceFault,
) -> Result<(), Fail>
    requires { length text.now < 2 ^ 31 }
{
    let mut ifaces = two_interfaces(rt.alloc())?;
    let answer = take_routes(rt.alloc(), &mut ifaces, text)?;
    assert_eq!(rt; answer, Err(wanted));
    Ok(())
}

/// What is answered to a timeout line.
fn take_timeout(
    alloc: Global,
    ifaces: &mut Ifaces,
    text: &[u8],
) -> Result<Result<(), LineFault>, Fail>
    requires { length text.now < 2 ^ 31 }
{
    let blocks = blocks(alloc, text)?;
    let block = blocks.as_slice().first().ok_or("no block")?;
    Ok(ifaces.timeout(block.top()))
}

fn assert_timeout(rt: &(impl Abort + AllocGlobal), text: &[u8], column: u32) -> Result<(), Fail>
    requires { length text.now < 2 ^ 31 }
{
    let mut ifaces = Ifaces::new(rt.alloc());
    let answer = take_timeout(rt.alloc(), &mut ifaces, text)?;
    assert_eq!(rt; answer, Err(LineFault::Bad { column }));
    Ok(())
}

const fn bad(line: u32, column: u32) -> IfaceFault {
    IfaceFault::Line {
        line,
        fault: LineFault::Bad { column },
    }
}

const fn unsupported(line: u32, column: u32) -> IfaceFault {
    IfaceFault::Line {
        line,
        fault: LineFault::Unsupported { column },
    }
}

#[test]
fn an_interface_has_what_its_last_lines_state(rt: HostRuntime) -> Result<(), Fail> {
    let text = b"interface Ethernet2\n\
            \x20nameif lan\n\
            \x20security-level 50\n\
            \x20ip address 10.9.9.9 255.0.0.0\n\
            \x20shutdown\n\
            \x20mtu 1500\n\
            \x20ip verify reverse-path\n\
            \x20no mtu\n\
            \x20nameif dmz\n\
            \x20security-level 060\n\
            \x20ip address 192.0.2.77 255.255.255.128 standby 192.0.2.78\n";
    let iface = third_interface(rt.alloc(), text)??;
    let wanted = Iface {
        hardware: name(b"Ethernet2")?,
        name: Some(name(b"dmz")?),
        level: 60,
        addr: Some((Addr(0xc000_024d), 25)),
        shutdown: true,
    };
    assert_eq!(rt; iface, wanted);
    Ok(())
}

#[test]
fn a_line_with_no_takes_back_what_was_stated(rt: HostRuntime) -> Result<(), Fail> {
    let text = b"interface Ethernet2\n\
            \x20nameif lan\n\
            \x20security-level 50\n\
            \x20ip address 10.9.9.9 255.0.0.0\n\
            \x20shutdown\n\
            \x20no security-level\n\
            \x20no ip address\n\
            \x20no shutdown\n";
    let iface = third_interface(rt.alloc(), text)??;
    let wanted = Iface {
        hardware: name(b"Ethernet2")?,
        name: Some(name(b"lan")?),
        level: 0,
        addr: None,
        shutdown: false,
    };
    assert_eq!(rt; iface, wanted);
    let nameless = third_interface(
        rt.alloc(),
        b"interface E\n nameif lan\n security-level 7\n no nameif\n",
    )??;
    assert_eq!(rt; (nameless.name, nameless.level), (None, 0));
    Ok(())
}

#[test]
fn a_level_that_is_not_stated_goes_by_the_name(rt: HostRuntime) -> Result<(), Fail> {
    let text = b"interface A\n\
            \x20nameif inside\n\
            interface B\n\
            \x20nameif Inside\n\
            \x20ip address 10.0.0.1 255.0.0.0\n\
            interface C\n\
            \x20security-level 7\n\
            \x20ip address 10.0.0.2 255.0.0.0\n";
    let mut ifaces = Ifaces::new(rt.alloc());
    take(rt.alloc(), &mut ifaces, text)?;
    let mut levels = [255u8; 3];
    for (level, iface) in levels.iter_mut().zip(ifaces.ifaces()) {
        *level = iface.level;
    }
    assert_eq!(rt; levels, [100, 0, 0]);
    assert_eq!(rt; ifaces.interface_of(&name(b"Inside")?), Some(1));
    assert_eq!(rt; ifaces.interface_of(&name(b"C")?), None);
    assert!(rt; ifaces.is_named(1) && !ifaces.is_named(2) && !ifaces.is_named(3));
    assert_eq!(rt; ifaces.address_of(0), None);
    assert_eq!(rt; ifaces.address_of(1), Some(Addr(0x0a00_0001)));
    assert_eq!(rt; ifaces.address_of(2), None);
    assert_eq!(rt; ifaces.address_of(3), None);
    Ok(())
}

#[test]
fn a_bad_line_of_a_block_is_told(rt: HostRuntime) -> Result<(), Fail> {
    assert_third(&rt, b"interface\n", bad(1, 10))?;
    assert_third(&rt, b"interface Ethernet2 Ethernet3\n", bad(1, 21))?;
    assert_third(&rt, b"interface E\n nameif any\n", bad(2, 9))?;
    assert_third(&rt, b"interface E\n nameif dmz,lan\n", bad(2, 9))?;
    assert_third(&rt, b"interface E\n nameif (dmz\n", bad(2, 9))?;
    assert_third(&rt, b"interface E\n nameif\n", bad(2, 8))?;
    assert_third(&rt, b"interface E\n no nameif x\n", bad(2, 12))?;
    assert_third(&rt, b"interface E\n security-level 101\n", bad(2, 17))?;
    assert_third(&rt, b"interface E\n shutdown x\n", bad(2, 11))?;
    assert_third(
        &rt,
        b"interface E\n shutdown\n ip address 10.0.1.1\n",
        bad(3, 21),
    )?;
    assert_third(
        &rt,
        b"interface E\n ip address 10.0.1.1 255.0.255.0\n",
        bad(2, 22),
    )?;
    assert_third(
        &rt,
        b"interface E\n ip address 10.0.1.1 255.0.0.0 standby\n",
        bad(2, 39),
    )?;
    assert_third(&rt, b"interface E\n no ip address dhcp\n", bad(2, 16))?;
    Ok(())
}

#[test]
fn a_leased_address_is_not_supported(rt: HostRuntime) -> Result<(), Fail> {
    assert_third(
        &rt,
        b"interface E\n ip address dhcp setroute\n",
        unsupported(2, 13),
    )?;
    assert_third(&rt, b"interface E\n ip address pppoe\n", unsupported(2, 13))?;
    assert_third(
        &rt,
        b"interface E\n ip address fe80::1 255.0.0.0\n",
        unsupported(2, 13),
    )?;
    Ok(())
}

#[test]
fn a_name_that_is_there_is_taken_at_its_line(rt: HostRuntime) -> Result<(), Fail> {
    let taken = IfaceFault::NameTaken { line: 1 };
    assert_third(&rt, b"interface GigabitEthernet0/1\n nameif any\n", taken)?;
    assert_third(&rt, b"interface GigabitEthernet0/1 x\n", bad(1, 30))?;
    let taken = IfaceFault::NameTaken { line: 3 };
    assert_third(
        &rt,
        b"interface E\n shutdown\n nameif inside\n nameif any\n",
        taken,
    )?;
    assert_third(
        &rt,
        b"interface E\n mtu 9\n nameif inside\n nameif dmz\n",
        taken,
    )?;
    assert_third(&rt, b"interface E\n nameif inside x\n", bad(2, 16))?;
    let twice = third_interface(rt.alloc(), b"interface E\n nameif dmz\n nameif dmz\n")??;
    assert_eq!(rt; twice.name, Some(name(b"dmz")?));
    Ok(())
}

#[test]
fn the_65th_interface_is_one_too_many(rt: HostRuntime) -> Result<(), Fail> {
    let mut ifaces = Ifaces::new(rt.alloc());
    for n in 0..64u32 {
        let text = format!(in rt.alloc(); "interface Ethernet{n}\n nameif lan{n}\n")?;
        let text = text.as_bytes();
        assert!(rt; text.len() < 100);
        take(rt.alloc(), &mut ifaces, text)?;
    }
    assert_eq!(rt; ifaces.ifaces().len(), 64);
    assert_eq!(rt; ifaces.interface_of(&name(b"lan63")?), Some(63));
    let last = blocks(rt.alloc(), b"interface E\ninterface E\n nameif lan1\n")?;
    let mut answers = [Ok(()); 2];
    for (answer, block) in answers.iter_mut().zip(last.as_slice()) {
        *answer = ifaces.interface(block);
    }
    let taken = IfaceFault::NameTaken { line: 2 };
    assert_eq!(rt; answers, [Err(IfaceFault::TooMany), Err(taken)]);
    assert_eq!(rt; ifaces.ifaces().len(), 64);
    Ok(())
}

fn route(ifc: u8, addr: u32, len: u8, gateway: u32, distance: u8) -> Result<RouteLine, Fail> {
    Ok(RouteLine {
        ifc,
        prefix: Prefix::new(Addr(addr), len).ok_or("no network")?,
        gateway: Addr(gateway),
        distance,
    })
}

#[test]
fn a_route_takes_the_place_of_its_equal_and_is_removed_whatever_its_distance(
    rt: HostRuntime,
) -> Result<(), Fail> {
    let mut ifaces = two_interfaces(rt.alloc())?;
    let text = b"route outside 0 0 203.0.113.1\n\
            route inside 10.1.0.0 255.255.0.0 10.0.0.9 255\n\
            route outside 0.0.0.0 0.0.0.0 203.0.113.1 020\n\
            route outside 0 0 0 1\n";
    take_routes(rt.alloc(), &mut ifaces, text)??;
    let default = route(0, 0, 0, 0xcb00_7101, 20)?;
    let inner = route(1, 0x0a01_0000, 16, 0x0a00_0009, 255)?;
    let other = route(0, 0, 0, 0, 1)?;
    assert_eq!(rt; ifaces.routes(), [default, inner, other].as_slice());
    assert!(rt; ifaces.has_route(&route(0, 0, 0, 0xcb00_7101, 3)?));
    let text = b"no route inside 10.1.0.0 255.255.0.0 10.0.0.9 7\nno route outside 0 0 0\n";
    take_routes(rt.alloc(), &mut ifaces, text)??;
    assert_eq!(rt; ifaces.routes(), [default].as_slice());
    Ok(())
}

#[test]
fn a_route_line_that_is_refused_is_told(rt: HostRuntime) -> Result<(), Fail> {
    let missing = IfaceFault::Line {
        line: 1,
        fault: LineFault::NoSuchInterface { column: 7 },
    };
    assert_route(&rt, b"route dmz 0 0 10.0.0.9\n", missing)?;
    assert_route(
        &rt,
        b"route inside 10.1.0.1 255.255.0.0 10.0.0.9\n",
        bad(1, 23),
    )?;
    assert_route(
        &rt,
        b"route inside 10.1.0.0 255.0.255.0 10.0.0.9\n",
        bad(1, 23),
    )?;
    assert_route(&rt, b"route inside 10.1.0.0 255.255.0.0\n", bad(1, 34))?;
    assert_route(&rt, b"route inside 0 0 10.0.0.9 0\n", bad(1, 27))?;
    assert_route(&rt, b"route inside 0 0 10.0.0.9 256\n", bad(1, 27))?;
    assert_route(&rt, b"route inside 0 0 10.0.0.9 1 2\n", bad(1, 29))?;
    assert_route(
        &rt,
        b"route inside 0 0 10.0.0.9 track 1\n",
        unsupported(1, 27),
    )?;
    assert_route(
        &rt,
        b"route inside 0 0 10.0.0.9 1 tunneled\n",
        unsupported(1, 29),
    )?;
    assert_route(
        &rt,
        b"no route inside 0 0 10.0.0.9 track 1\n",
        unsupported(1, 30),
    )?;
    assert_route(
        &rt,
        b"route inside 0 0 10.0.0.9\nno route inside 0 0 10.0.0.8\n",
        IfaceFault::NoSuchLine,
    )?;
    Ok(())
}

/// Takes the route by the interface `outside` to the network with this number.
fn take_numbered(
    alloc: Global,
    ifaces: &mut Ifaces,
    n: u32,
    distance: u8,
) -> Result<Result<(), IfaceFault>, Fail> {
    let (high, low) = (n / 256, n % 256);
    let text = format!(in alloc; "route outside 10.{high}.{low}.0 255.255.255.0 0 {distance}\n")?;
    let text = text.as_bytes();
    if text.len() > 100 {
        return Err(Fail::from("a long line"));
    }
    take_routes(alloc, ifaces, text)
}

#[test]
fn the_4097th_route_is_one_too_many(rt: HostRuntime) -> Result<(), Fail> {
    let mut ifaces = two_interfaces(rt.alloc())?;
    for n in 0..4096u32 {
        take_numbered(rt.alloc(), &mut ifaces, n, 1)??;
    }
    let answer = take_numbered(rt.alloc(), &mut ifaces, 4096, 1)?;
    assert_eq!(rt; answer, Err(IfaceFault::TooMany));
    take_numbered(rt.alloc(), &mut ifaces, 1, 9)??;
    assert_eq!(rt; ifaces.routes().len(), 4096);
    let second = ifaces.routes().get(1).ok_or("no route")?;
    assert_eq!(rt; *second, route(0, 0x0a00_0100, 24, 0, 9)?);
    let copied = ifaces.copy()?;
    assert_eq!(rt; copied.routes(), ifaces.routes());
    assert_eq!(rt; copied.ifaces(), ifaces.ifaces());
    Ok(())
}

#[test]
fn times_are_set_by_their_words(rt: HostRuntime) -> Result<(), Fail> {
    let mut ifaces = Ifaces::new(rt.alloc());
    let usual = Timeouts {
        conn: 3600,
        half_closed: 600,
        udp: 120,
        icmp: 2,
    };
    assert_eq!(rt; ifaces.timeouts(), usual);
    assert_eq!(rt;
        take_timeout(rt.alloc(), &mut ifaces, b"timeout\n")?,
        Ok(())
    );
    let text = b"timeout xlate 3:00:00 conn 1193:59:59 sip 0:30:00 udp 0:00:00 udp 00:1:9\n";
    assert_eq!(rt; take_timeout(rt.alloc(), &mut ifaces, text)?, Ok(()));
    let wanted = Timeouts {
        conn: 4_298_399,
        udp: 69,
        ..usual
    };
    assert_eq!(rt; ifaces.timeouts(), wanted);
    let text = b"timeout half-closed 0001:00:00 icmp 0:0:0\n";
    assert_eq!(rt; take_timeout(rt.alloc(), &mut ifaces, text)?, Ok(()));
    let wanted = Timeouts {
        half_closed: 3600,
        icmp: 0,
        ..wanted
    };
    assert_eq!(rt; ifaces.timeouts(), wanted);
    let text = b"timeout udp 0:01:00 icmp 0:00:60\n";
    let answer = take_timeout(rt.alloc(), &mut ifaces, text)?;
    assert_eq!(rt; answer, Err(LineFault::Bad { column: 26 }));
    assert_eq!(rt; ifaces.timeouts(), wanted);
    Ok(())
}

#[test]
fn a_time_out_of_form_is_bad(rt: HostRuntime) -> Result<(), Fail> {
    assert_timeout(&rt, b"timeout conn\n", 13)?;
    assert_timeout(&rt, b"timeout conn udp 0:01:00\n", 14)?;
    assert_timeout(&rt, b"timeout conn 1194:00:00\n", 14)?;
    assert_timeout(&rt, b"timeout conn 1:00\n", 14)?;
    assert_timeout(&rt, b"timeout conn 1:00:00:00\n", 14)?;
    assert_timeout(&rt, b"timeout conn :00:00\n", 14)?;
    assert_timeout(&rt, b"timeout conn 1:000:00\n", 14)?;
    assert_timeout(&rt, b"timeout conn 1:60:00\n", 14)?;
    assert_timeout(&rt, b"timeout conn 1:00:\n", 14)?;
    assert_timeout(&rt, b"timeout conn 1:00:+1\n", 14)?;
    Ok(())
}

/// What a line of permits states.
fn permits(alloc: Global, text: &[u8]) -> Result<Result<Permits, LineFault>, Fail>
    requires { length text.now < 2 ^ 31 }
{
    let blocks = blocks(alloc, text)?;
    let block = blocks.as_slice().first().ok_or("no block")?;
    Ok(read_permits(block.top()))
}

#[test]
fn permits_are_set_one_by_one(rt: HostRuntime) -> Result<(), Fail> {
    let mut ifaces = Ifaces::new(rt.alloc());
    assert_eq!(rt; ifaces.permits(), (false, false));
    let stated = permits(
        rt.alloc(),
        b"same-security-traffic permit intra-interface\n",
    )??;
    ifaces.same_security(stated.inter, stated.intra);
    assert_eq!(rt; ifaces.permits(), (false, true));
    ifaces.same_security(Some(true), Some(false));
    assert_eq!(rt; ifaces.permits(), (true, false));
    let stated = permits(
        rt.alloc(),
        b"no same-security-traffic permit inter-interface\n",
    )??;
    ifaces.same_security(stated.inter, stated.intra);
    assert_eq!(rt; ifaces.permits(), (false, false));
    let answer = permits(rt.alloc(), b"same-security-traffic permit inter\n")?;
    assert_eq!(rt; answer, Err(LineFault::Bad { column: 30 }));
    Ok(())
}
