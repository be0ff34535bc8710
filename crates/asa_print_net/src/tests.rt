//! Printed lines, byte for byte.
use crate::push_route;
use asa_base::{Name, Prefix};
use asa_ifaces::RouteLine;
use asa_text::Addr;
use std::test::Fail;

#[test]
fn a_route_has_its_distance(rt: HostRuntime) -> Result<(), Fail> {
    let outside = Name::new(b"outside").ok_or("no name")?;
    let prefix = Prefix::new(Addr(0), 0).ok_or("no network")?;
    let route = RouteLine {
        ifc: 0,
        prefix,
        gateway: Addr(0xcb00_7101),
        distance: 1,
    };
    let mut out = Vec::new(rt.alloc());
    push_route(&mut out, &outside, route)?;
    assert_eq!(rt;
        out.as_slice(),
        b"route outside 0.0.0.0 0.0.0.0 203.0.113.1 1\n".as_slice()
    );
    Ok(())
}
