//! What lies outside the contracts: that the clauses mean what they should, at lines from the rules.
ghost use Rattle.std.specs.Prelude.{◌≡◌, Some, None, codes, if◌then◌else◌};
ghost use Rattle.std.specs.Str.{bytes_eq};
ghost use Rattle.asa_base.specs.declared.kinds.Kind.TheVariants as kinds;

use crate::{Ace, AclLine, AddrRef, PortRef, ServiceRef, acl_line, parse_ace};
use asa_base::{Addr, Kind, Name, Names, PortProto, PortRange, Ports, Prefix, Service};
use asa_text::{Line, LineFault, Text, Words};
use std::alloc::Global;
use std::process::Abort;
use std::test::Fail;

/// One object or group, and the interface `inside`, which has the number 1.
#[derive(Drop)]
struct Only {
    name: Name,
    kind: Kind,
    ports: Option<PortProto>,
}

fn is_same(name: &Name, other: &Name) -> bool
    ensures { result ≡ bytes_eq name.now other.now }
{
    name.bytes() == other.bytes()
}

impl Names for Only {
    ghost known = { λ o. record {
      kind_of = λ n. if bytes_eq o.name n then Some o.kind else None;
      interface_of = λ n. if bytes_eq n (codes "inside") then Some 1 else None;
      port_proto = λ n. if bytes_eq o.name n then o.ports else None;
      service_range = λ _. None;
      address_of = λ _. None;
    } };

    fn kind_of(&self, name: &Name) -> Option<Kind> {
        if is_same(&self.name, name) {
            Some(self.kind)
        } else {
            None
        }
    }

    fn interface_of(&self, name: &Name) -> Option<u8> {
        (name.bytes() == b"inside".as_slice()).then_some(1)
    }

    fn port_proto(&self, name: &Name) -> Option<PortProto> {
        if is_same(&self.name, name) {
            self.ports
        } else {
            None
        }
    }

    fn service_range(&self, _name: &Name) -> Option<Service> {
        None
    }

    fn address_of(&self, _ifc: u8) -> Option<Addr> {
        None
    }
}

fn name(text: &[u8]) -> Result<Name, Fail> {
    Ok(Name::new(text).ok_or("no name")?)
}

/// `N` is known, as this.
fn knowing(kind: Kind, ports: Option<PortProto>) -> Result<Only, Fail> {
    let name = name(b"N")?;
    Ok(Only { name, kind, ports })
}

/// What a line says from its first word on.
fn read(alloc: Global, names: &Only, text: &[u8]) -> Result<Result<AclLine, LineFault>, Fail> {
    if text.len() > 100 {
        return Err("a long line")?;
    }
    Ok(acl_line(alloc, text, &mut Words::of(text), names))
}

/// Asserts that each line is refused so.
fn assert_refused(
    rt: &(impl Abort + AllocGlobal),
    names: &Only,
    lines: &[(&[u8], LineFault)],
) -> Result<(), Fail> {
    for (text, fault) in lines {
        match read(rt.alloc(), names, text)? {
            Ok(_) => return Err("a line that is refused was read")?,
            Err(found) => assert_eq!(rt; found, *fault),
        }
    }
    Ok(())
}

fn bad(column: u32) -> LineFault {
    LineFault::Bad { column }
}

fn unsupported(column: u32) -> LineFault {
    LineFault::Unsupported { column }
}

#[test]
fn a_word_without_a_form_is_bad_at_its_column(rt: HostRuntime) -> Result<(), Fail> {
    let names = knowing(Kind::NetObject, None)?;
    assert_refused(
        &rt,
        &names,
        &[
            (b"", bad(1)),
            (b"extended", bad(9)),
            (b"extended remark x", bad(10)),
            (b"allow tcp any any", bad(1)),
            (b"permit", bad(7)),
            (b"permit tcpp any any", bad(8)),
            (b"permit user tcp any any", bad(8)),
            (b"permit tcp", bad(11)),
            (b"permit tcp any", bad(15)),
            (b"permit tcp host any", bad(17)),
            (b"permit tcp 10.0.0.1 255.255.255.0 any", bad(21)),
            (b"permit tcp 10.0.0.0 255.0.255.0 any", bad(21)),
            (b"permit tcp any lt 0 any", bad(19)),
            (b"permit tcp any range 5 4 any", bad(24)),
            (b"permit tcp any any eq 80 443", bad(26)),
        ],
    )
}

#[test]
fn ports_and_types_stand_after_their_protocols_alone(rt: HostRuntime) -> Result<(), Fail> {
    let names = knowing(Kind::NetObject, None)?;
    assert_refused(
        &rt,
        &names,
        &[
            (b"permit ip any any eq 80", bad(19)),
            (b"permit ip any eq 80 any", bad(15)),
            (b"permit ip any any object-group N", bad(19)),
            (b"permit ip any any 8", bad(19)),
            (b"permit icmp any any 256", bad(21)),
            (b"permit icmp any any 8 256", bad(23)),
            (b"permit icmp any any 8 0 0", bad(25)),
        ],
    )
}

#[test]
fn parts_that_are_left_out_are_unsupported_at_their_places(rt: HostRuntime) -> Result<(), Fail> {
    let names = knowing(Kind::NetObject, None)?;
    assert_refused(
        &rt,
        &names,
        &[
            (b"permit tcp 2001:db8::1 any", unsupported(12)),
            (b"permit tcp user U any any", unsupported(12)),
            (b"permit tcp any security-group U any", unsupported(16)),
            (b"permit tcp any any time-range T", unsupported(20)),
            (b"permit tcp any any inactive time-range T", unsupported(29)),
            (b"permit icmp any any 8 user U", unsupported(23)),
        ],
    )
}

#[test]
fn log_is_followed_by_any_words_up_to_inactive_or_a_time(rt: HostRuntime) -> Result<(), Fail> {
    let names = knowing(Kind::NetObject, None)?;
    assert_refused(
        &rt,
        &names,
        &[
            (b"permit tcp any any inactive log", bad(29)),
            (b"permit tcp any any log user U inactive x", bad(40)),
            (
                b"permit tcp any any log interval 300 time-range T",
                unsupported(37),
            ),
        ],
    )?;
    let quiet = read(rt.alloc(), &names, b"permit tcp any any inactive")??;
    let logged = read(
        rt.alloc(),
        &names,
        b"permit tcp any any log user U log inactive",
    )??;
    assert!(rt; quiet.is_same(&logged));
    Ok(())
}

#[test]
fn names_must_be_known_and_of_their_kind(rt: HostRuntime) -> Result<(), Fail> {
    let unknown = |column| LineFault::Unknown { column };
    assert_refused(
        &rt,
        &knowing(Kind::NetObject, None)?,
        &[
            (b"permit tcp object M any", unknown(19)),
            (b"permit tcp object-group N any", bad(25)),
            (b"permit object N any any", bad(15)),
            (b"permit object-group M any any", unknown(21)),
            (
                b"permit tcp interface lan any",
                LineFault::NoSuchInterface { column: 22 },
            ),
            (b"permit tcp any any object-group N", bad(33)),
        ],
    )?;
    assert_refused(
        &rt,
        &knowing(Kind::PortGroup, Some(PortProto::Udp))?,
        &[
            (b"permit tcp any object-group N any", bad(29)),
            (b"permit tcp any any object-group N", bad(33)),
            (b"permit ip any object-group N any", bad(28)),
            (b"permit icmp any any object-group N", bad(34)),
        ],
    )
}

#[test]
fn a_remark_is_its_words(rt: HostRuntime) -> Result<(), Fail> {
    let names = knowing(Kind::NetObject, None)?;
    assert_refused(
        &rt,
        &names,
        &[(b"remark", bad(7)), (b"remark a \x01b", bad(10))],
    )?;
    match read(rt.alloc(), &names, b"remark  web\t servers \t")?? {
        AclLine::Remark(text) => assert_eq!(rt; text.as_bytes(), b"web\t servers".as_slice()),
        AclLine::Ace(_) => return Err("an entry")?,
    }
    Ok(())
}

/// Whether two lines are equal where a network group `N` is known.
fn are_same(alloc: Global, a: &[u8], b: &[u8]) -> Result<bool, Fail> {
    let names = knowing(Kind::NetGroup, None)?;
    let first = read(alloc, &names, a)??;
    let second = read(alloc, &names, b)??;
    Ok(first.is_same(&second))
}

#[test]
fn values_decide_whether_lines_are_equal(rt: HostRuntime) -> Result<(), Fail> {
    for (a, b) in [
        (
            b"permit tcp any any eq 80".as_slice(),
            b"permit tcp any any range www 80".as_slice(),
        ),
        (b"permit tcp any any", b"extended permit 6 any4 any log"),
        (
            b"permit udp host 10.0.0.1 any",
            b"permit 17 10.0.0.1 255.255.255.255 any",
        ),
        (b"permit tcp any lt 1 any", b"permit tcp any eq 0 any"),
        (b"permit icmp any any echo", b"permit 1 any any 8"),
    ] {
        assert!(rt; are_same(rt.alloc(), a, b)?);
    }
    for (a, b) in [
        (
            b"permit tcp any any".as_slice(),
            b"permit tcp any any range 0 65535".as_slice(),
        ),
        (b"permit tcp any any", b"deny tcp any any"),
        (b"permit tcp any any", b"permit tcp any any inactive"),
        (b"permit tcp any any", b"permit tcp any any6"),
        (b"permit icmp any any 8", b"permit icmp any any 8 0"),
        (b"permit tcp any eq 80 any", b"permit tcp any any eq 80"),
        (
            b"permit ip any object-group N",
            b"permit ip object-group N any",
        ),
        (b"remark a", b"remark b"),
    ] {
        assert!(rt; !are_same(rt.alloc(), a, b)?);
    }
    Ok(())
}

#[test]
fn an_entry_has_the_parts_of_its_line(rt: HostRuntime) -> Result<(), Fail> {
    let names = knowing(Kind::NetGroup, None)?;
    let text =
        b"access-list OUT line 3 deny tcp object-group N gt 1023 10.1.0.0 255.255.0.0 eq 80 inactive";
    let line = Line {
        number: 7,
        text: Text::from_slice(rt.alloc(), text)?,
    };
    let wanted = Ace {
        permit: false,
        active: false,
        service: ServiceRef::Ported {
            group: None,
            proto: Some(6),
            source: PortRef::Ranges(Ports::one(PortRange::new(1024, 65535).ok_or("no range")?)),
            dest: PortRef::Ranges(Ports::one(PortRange::only(80))),
        },
        source: AddrRef::Named(name(b"N")?),
        dest: AddrRef::Net(Prefix::new(Addr(0x0a01_0000), 16).ok_or("no network")?),
    };
    match parse_ace(rt.alloc(), &line, 24, &names)? {
        AclLine::Ace(ace) => {
            assert!(rt; ace.uses(&name(b"N")?));
            assert!(rt; !ace.uses(&name(b"M")?));
            assert_eq!(rt; ace, wanted);
        }
        AclLine::Remark(_) => return Err("a remark")?,
    }
    Ok(())
}

#[test]
fn a_group_of_ports_after_a_source_is_its_ports(rt: HostRuntime) -> Result<(), Fail> {
    let names = knowing(Kind::PortGroup, Some(PortProto::TcpUdp))?;
    let line = read(
        rt.alloc(),
        &names,
        b"permit udp any object-group N interface inside",
    )??;
    let wanted = Ace {
        permit: true,
        active: true,
        service: ServiceRef::Ported {
            group: None,
            proto: Some(17),
            source: PortRef::Named(name(b"N")?),
            dest: PortRef::All,
        },
        source: AddrRef::Any,
        dest: AddrRef::Interface(1),
    };
    assert!(rt; line.is_same(&AclLine::Ace(wanted)));
    assert!(rt; line.uses(&name(b"N")?));
    Ok(())
}
