//! What lies outside the contracts: that the clauses mean what they should, at small lists and at large ones.
ghost use Rattle.std.specs.Prelude.{◌≤◌, IfSome};

use crate::{Ace, Acl, AclFault, AclLine, AddrRef, MOST_LINES, ServiceRef};
use asa_base::{Addr, Name, Service};
use asa_text::Text;
use std::process::Abort;

fn name(rt: &impl Abort, text: &[u8]) -> Name {
    Name::new(text).expect(rt, "a name")
}

/// A list without a line.
fn empty(rt: &(impl Abort + AllocGlobal), text: &[u8]) -> Acl {
    Acl::new(rt.alloc(), name(rt, text))
}

/// An entry that permits every protocol from a source to a destination.
fn permit(source: AddrRef, dest: AddrRef) -> AclLine {
    AclLine::Ace(Ace {
        permit: true,
        active: true,
        service: ServiceRef::Plain(Service::any()),
        source,
        dest,
    })
}

/// An entry for what comes from a host.
fn host(number: u32) -> AclLine {
    permit(AddrRef::Host(Addr(number)), AddrRef::Any)
}

/// An entry for what comes from an object or group.
fn from(rt: &impl Abort, source: &[u8]) -> AclLine {
    permit(AddrRef::Named(name(rt, source)), AddrRef::Any)
}

/// An entry for what goes from one object or group to another.
fn between(rt: &impl Abort, source: &[u8], dest: &[u8]) -> AclLine {
    permit(
        AddrRef::Named(name(rt, source)),
        AddrRef::Named(name(rt, dest)),
    )
}

fn remark(rt: &(impl Abort + AllocGlobal), text: &'static [u8; 1]) -> AclLine {
    let text = Text::from_slice(rt.alloc(), text).expect(rt, "memory for the text");
    AclLine::Remark(text)
}

/// Puts a line before line n, or last.
fn put(rt: &impl Abort, list: &mut Acl, line: Option<u32>, item: AclLine)
    requires { IfSome line (λ n. 1 ≤ n) }
{
    list.insert(line, item).expect(rt, "room for the line");
}

/// Puts an entry from one object or group to another last.
fn put_last(rt: &impl Abort, list: &mut Acl, source: &[u8], dest: &[u8]) {
    put(rt, list, None, between(rt, source, dest));
}

/// Removes a line that must be there.
fn take(rt: &impl Abort, list: &mut Acl, item: &AclLine) {
    assert!(rt; list.remove_equal(item));
}

fn copy_of(rt: &impl Abort, list: &Acl) -> Acl {
    list.copy().expect(rt, "memory for the copy")
}

/// Asserts that the first line equal to this one has a number, counted from 1.
fn assert_number(rt: &impl Abort, list: &Acl, item: &AclLine, number: u32) {
    let place = list.place_of_equal(item).expect(rt, "an equal line");
    assert_eq!(rt; place + 1, number);
}

fn is_remark(line: Option<&AclLine>) -> bool {
    line.is_some_and(|l| matches!(l, AclLine::Remark(_)))
}

#[test]
fn a_line_goes_before_the_line_with_its_number(rt: HostRuntime) {
    let mut list = empty(&rt, b"OUT");
    put(&rt, &mut list, None, host(10));
    put(&rt, &mut list, None, host(20));
    put(&rt, &mut list, Some(1), remark(&rt, b"r"));
    put(&rt, &mut list, Some(3), host(30));
    put(&rt, &mut list, Some(9), host(40));
    assert_eq!(rt; list.len(), 5);
    assert_number(&rt, &list, &host(10), 2);
    assert_number(&rt, &list, &host(30), 3);
    assert_number(&rt, &list, &host(20), 4);
    assert_number(&rt, &list, &host(40), 5);
    assert!(rt; is_remark(list.get(1)));
    assert!(rt; list.get(0).is_none());
    assert!(rt; list.get(6).is_none());
    assert_eq!(rt; list.name().bytes(), b"OUT".as_slice());
}

#[test]
fn the_first_equal_line_is_removed(rt: HostRuntime) {
    let mut list = empty(&rt, b"OUT");
    put(&rt, &mut list, None, host(1));
    put(&rt, &mut list, None, host(2));
    put(&rt, &mut list, None, host(1));
    put(&rt, &mut list, None, host(3));
    let copy = copy_of(&rt, &list);
    take(&rt, &mut list, &host(1));
    assert_number(&rt, &list, &host(2), 1);
    assert_number(&rt, &list, &host(1), 2);
    assert!(rt; !list.remove_equal(&host(9)));
    assert_eq!(rt; list.len(), 3);
    assert_eq!(rt; copy.len(), 4);
}

#[test]
fn the_line_at_a_place_is_removed(rt: HostRuntime) {
    let mut list = empty(&rt, b"OUT");
    put_last(&rt, &mut list, b"LAN", b"WEB");
    put_last(&rt, &mut list, b"WAN", b"WEB");
    put_last(&rt, &mut list, b"DMZ", b"WEB");
    assert!(rt; list.uses(&name(&rt, b"WAN")));
    assert!(rt; list.len() == 3);
    list.remove_at(1);
    assert_eq!(rt; list.len(), 2);
    assert_number(&rt, &list, &between(&rt, b"LAN", b"WEB"), 1);
    assert_number(&rt, &list, &between(&rt, b"DMZ", b"WEB"), 2);
    assert!(rt; !list.uses(&name(&rt, b"WAN")));
    assert!(rt; list.uses(&name(&rt, b"WEB")));
}

#[test]
fn a_name_is_used_while_a_line_has_it(rt: HostRuntime) {
    let group = name(&rt, b"LAN");
    let mut list = empty(&rt, b"OUT");
    put(&rt, &mut list, None, from(&rt, b"LAN"));
    put(&rt, &mut list, None, from(&rt, b"LAN"));
    assert!(rt; list.uses(&group));
    assert!(rt; !list.uses(&name(&rt, b"OUT")));
    take(&rt, &mut list, &from(&rt, b"LAN"));
    assert!(rt; list.uses(&group));
    take(&rt, &mut list, &from(&rt, b"LAN"));
    assert!(rt; !list.uses(&group));
}

/// A list of so many hosts in rising order.
fn filled(rt: &(impl Abort + AllocGlobal), count: u32) -> Acl {
    let mut list = empty(rt, b"BIG");
    for number in 0..count {
        put(rt, &mut list, None, host(number));
    }
    list
}

#[test]
fn a_list_takes_65536_lines(rt: HostRuntime) {
    let mut list = filled(&rt, MOST_LINES - 1);
    assert_eq!(rt; list.insert(Some(1), host(9)), Ok(()));
    assert_eq!(rt; list.insert(None, host(9)), Err(AclFault::TooMany));
    assert_eq!(rt; list.lines().len(), 65536);
}

/// Puts these hosts first, one by one.
fn put_first(rt: &impl Abort, list: &mut Acl, from: u32, to: u32) {
    for number in from..to {
        put(rt, list, Some(1), host(number));
    }
}

/// Removes these hosts, one by one.
fn take_each(rt: &impl Abort, list: &mut Acl, from: u32, to: u32) {
    for number in from..to {
        take(rt, list, &host(number));
    }
}

#[test]
fn lines_of_a_large_list_are_put_and_removed_one_by_one(rt: HostRuntime) {
    let mut list = filled(&rt, 10000);
    put_first(&rt, &mut list, 10000, 15000);
    take_each(&rt, &mut list, 5000, 10000);
    assert_eq!(rt; list.len(), 10000);
    assert_number(&rt, &list, &host(14999), 1);
    assert_number(&rt, &list, &host(4999), 10000);
}
