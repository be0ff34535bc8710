//! What lies outside the contracts: walks over a ring, both ways.
use crate::Ring;
use std::test::Fail;

#[test]
fn a_walk_meets_a_joined_place_and_then_the_end(rt: HostRuntime) -> Result<(), Fail> {
    let mut ring = Ring::new(rt.alloc(), 4, 2)?;
    ring.join(2, 10, 1);
    let end = ring.end(1);
    let down = ring.older(end);
    let up = ring.newer(end);
    assert_eq!(rt;
        (down, up, ring.older(down), ring.newer(up), ring.stamp(2)),
        (2, 2, end, end, 10)
    );
    Ok(())
}

#[test]
fn a_walk_passes_over_a_place_that_left(rt: HostRuntime) -> Result<(), Fail> {
    let mut ring = Ring::new(rt.alloc(), 4, 2)?;
    ring.join(2, 10, 1);
    ring.part(2);
    let end = ring.end(1);
    assert_eq!(rt;
        (ring.older(end), ring.newer(end), ring.stamp(2)),
        (end, end, 0)
    );
    Ok(())
}

#[test]
fn another_bucket_stays_empty(rt: HostRuntime) -> Result<(), Fail> {
    let mut ring = Ring::new(rt.alloc(), 4, 2)?;
    ring.join(2, 10, 1);
    let end = ring.end(0);
    assert_eq!(rt;
        (
            ring.older(end),
            ring.newer(end),
            ring.places(),
            ring.buckets()
        ),
        (end, end, 4, 2)
    );
    Ok(())
}
