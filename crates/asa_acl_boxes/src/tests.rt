//! What lies outside the contracts: the boxes and the pairs of lines, by hand.
ghost use Rattle.std.specs.Prelude.{[]};

use crate::{Meaning, boxes, line_pairs, list_pairs};
use asa_acl::{Ace, Acl, AclLine, AddrRef, PortRef, ServiceRef};
use asa_base::{Addr, Member, Name, PortRange, Ports, Service};
use asa_text::Items;
use std::alloc::{AllocError, Global};
use std::process::Abort;
use std::test::Fail;

/// No name stands for anything, and no interface has an address.
#[derive(Clone, Copy, Debug)]
struct NoNames;

impl Meaning for NoNames {
    ghost use Rattle.std.specs.Prelude.{[], None};

    ghost meanings = { λ _. record { members = λ _. []; services = λ _. []; address_of = λ _. None } };

    fn member_count(&self, name: &Name) -> u64 {
        let _ = name;
        0
    }

    fn prefix_count(&self, name: &Name) -> u64 {
        let _ = name;
        0
    }

    fn service_count(&self, name: &Name) -> u64 {
        let _ = name;
        0
    }

    fn members(&self, alloc: Global, name: &Name) -> Result<Items<Member>, AllocError> {
        let _ = name;
        Ok(Items::new(alloc))
    }

    fn services(&self, alloc: Global, name: &Name) -> Result<Items<Service>, AllocError> {
        let _ = name;
        Ok(Items::new(alloc))
    }

    fn address_of(&self, ifc: u8) -> Option<Addr> {
        let _ = ifc;
        None
    }
}

/// All ports but one.
fn all_but(port: u16) -> Result<PortRef, Fail> {
    let below = PortRange::new(0, port.saturating_sub(1)).ok_or("no range")?;
    let above = PortRange::new(port.saturating_add(1), 65535).ok_or("no range")?;
    if below.last >= above.first {
        return Err(Fail::from("no port between"));
    }
    Ok(PortRef::Ranges(Ports::two(below, above)))
}

#[test]
fn the_boxes_of_a_line_come_by_source_ports_then_by_destination_ports(
    rt: HostRuntime,
) -> Result<(), Fail> {
    let line = AclLine::Ace(Ace {
        permit: true,
        active: true,
        service: ServiceRef::Ported {
            group: None,
            proto: Some(17),
            source: all_but(10)?,
            dest: all_but(20)?,
        },
        source: AddrRef::Any,
        dest: AddrRef::Host(Addr(0x0a00_0009)),
    });
    let pairs = line_pairs(rt.alloc(), &NoNames, &line)?;
    assert_eq!(rt; pairs, 4);
    let name = Name::new(b"L").ok_or("no name")?;
    let mut list = Acl::new(rt.alloc(), name);
    list.insert(None, line).map_err(|_| "no room")?;
    let all = list_pairs(rt.alloc(), &NoNames, list.lines())?;
    assert_eq!(rt; all, 4);
    let boxes = boxes(rt.alloc(), &NoNames, list.lines())?;
    let mut firsts = [(1u16, 1u16); 4];
    for (first, one) in firsts.iter_mut().zip(boxes.as_slice()) {
        *first = (one.service.sport.first, one.service.dport.first);
    }
    assert_eq!(rt; boxes.len(), 4);
    assert_eq!(rt; firsts, [(0, 0), (0, 21), (11, 0), (11, 21)]);
    Ok(())
}
