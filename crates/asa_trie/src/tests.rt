//! What lies outside the contracts: values from reasoning about addresses.
use crate::{bit_below, covers, height, is_here, is_high, is_low, over};
use asa_base::{Addr, Prefix};
use std::test::Fail;

#[test]
fn a_prefix_is_a_block_and_lies_in_a_half_of_a_larger_one(rt: HostRuntime) -> Result<(), Fail> {
    // 10.0.128.0/17, the upper half of 10.0.0.0/16.
    let half = Prefix::new(Addr(0x0a00_8000), 17).ok_or("no network")?;
    assert_eq!(rt; height(half), 15);
    assert!(rt; is_here(15, half));
    assert!(rt; is_high(16, half));
    assert!(rt; !is_low(16, half));
    assert!(rt; bit_below(16, Addr(0x0a00_ffff)));
    assert!(rt; !bit_below(16, Addr(0x0a00_7fff)));
    assert!(rt; covers(half, Addr(0x0a00_ffff)));
    assert!(rt; !covers(half, Addr(0x0a00_7fff)));
    let whole = Prefix::new(Addr(0x0a00_0000), 16).ok_or("no network")?;
    assert_eq!(rt; over(Addr(0x0a00_9abc), 16), whole);
    Ok(())
}
