//! What lies outside the contracts: that the classes mean what they should, at blocks from the rules.
ghost use Rattle.std.specs.Prelude.{◌<◌, ◌^◌, length};

use crate::{Class, class_of};
use asa_text::{Block, Items, cut_blocks};
use std::process::Abort;

/// The blocks of a text.
fn blocks_of(rt: &(impl Abort + AllocGlobal), text: &[u8]) -> Items<Block>
    requires { length text.now < 2 ^ 31 }
{
    let blocks = cut_blocks(rt.alloc(), text, 1).expect(rt, "memory for the blocks");
    blocks.expect(rt, "a top-level line before the others")
}

/// Asserts that the one block of a text has this class.
fn assert_class(rt: &(impl Abort + AllocGlobal), class: Class, text: &[u8])
    requires { length text.now < 2 ^ 31 }
{
    let blocks = blocks_of(rt, text);
    let block = blocks.as_slice().first().expect(rt, "a block");
    assert_eq!(rt; class_of(block), class);
}

#[test]
fn a_block_belongs_to_a_part_of_the_policy(rt: HostRuntime) {
    assert_class(&rt, Class::Passed, b"mtu inside 1500\n");
    assert_class(&rt, Class::Passed, b"no\n");
    assert_class(&rt, Class::Passed, b"access-list X standard permit any\n");
    assert_class(
        &rt,
        Class::Access,
        b"no access-list X standard permit any\n",
    );
    assert_class(&rt, Class::Passed, b"access-list alert-interval 5\n");
    assert_class(&rt, Class::Passed, b"no interface X\n");
    assert_class(&rt, Class::Passed, b"asp load-balance per-packet\n");
    assert_class(
        &rt,
        Class::Other,
        b"asp rule-engine transactional-commit nat\n",
    );
    assert_class(&rt, Class::Other, b"timeout\n");
    assert_class(&rt, Class::Nat, b"nat (a,b) source static any any\n");
    assert_class(&rt, Class::Nat, b"object network A\n no nat\n");
    assert_class(&rt, Class::Both, b"object network A\n host 192.0.2.1\n");
    assert_class(&rt, Class::Both, b"no object-group service G\n");
}
