//! Printing at the end of a byte vector. On want of memory the vector has the bytes that it had, and perhaps a part of
//! the text after them.
ghost use Rattle.std.specs.Prelude.{◌≡◌, ◌++◌, OnOk, OnErr, decimal, codes};
ghost use Rattle.asa_text.specs.Printed.{dotted, address_port};

use crate::numbers::Addr;
use itoa::Buffer;
use std::alloc::AllocError;

/// Appends these bytes.
pub fn push_bytes(out: &mut Vec<u8>, bytes: &[u8]) -> Result<(), AllocError>
    ensures ok { OnOk result (out.new.items ≡ out.old.items ++ bytes.now) }
    ensures err { OnErr result (out.new.items ≡ out.old.items) }
{
    out.extend_from_slice(bytes)
}

/// Appends a number in decimal.
pub fn push_number(out: &mut Vec<u8>, number: u64) -> Result<(), AllocError>
    ensures ok { OnOk result (out.new.items ≡ out.old.items ++ decimal number) }
    ensures err { OnErr result (out.new.items ≡ out.old.items) }
{
    let mut digits = Buffer::new();
    push_bytes(out, digits.format(number).as_bytes())
}

/// Appends an octet and a dot.

fn push_octet_dot(out: &mut Vec<u8>, octet: u32) -> Result<(), AllocError>
    ensures { OnOk result (out.new.items ≡ out.old.items ++ (decimal octet ++ codes ".")) }
{
    push_number(out, u64::from(octet))?;
    push_bytes(out, b".")
}

/// Appends an address as four numbers joined by dots.
#[tactic(auto, unfolding(crate::specs::Printed::dotted))]
pub fn push_address(out: &mut Vec<u8>, addr: Addr) -> Result<(), AllocError>
    ensures { OnOk result (out.new.items ≡ out.old.items ++ dotted addr) }
{
    push_octet_dot(out, addr.0 >> 24)?;
    push_octet_dot(out, (addr.0 >> 16) % 256)?;
    push_octet_dot(out, (addr.0 >> 8) % 256)?;
    push_number(out, u64::from(addr.0 % 256))
}

/// Appends an address and a port, joined by a colon.
#[tactic(auto, unfolding(crate::specs::Printed::address_port))]
pub fn push_address_port(out: &mut Vec<u8>, addr: Addr, port: u16) -> Result<(), AllocError>
    ensures { OnOk result (out.new.items ≡ out.old.items ++ address_port addr port) }
{
    push_address(out, addr)?;
    push_bytes(out, b":")?;
    push_number(out, u64::from(port))
}
