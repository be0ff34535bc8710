//! Readers of names and networks: each takes its words from a cursor.
ghost use Rattle.std.specs.Prelude.{◌≡◌};
ghost use Rattle.asa_text.specs.Readers.{Reads};
ghost use Rattle.asa_base.specs.Names.{name_at};
ghost use Rattle.asa_base.specs.Networks.{network_at, network_or_bad, route_network_at, zero_or_address_at, zero_or_mask_at};

use crate::names::Name;
use crate::prefix::Prefix;
use asa_text::{Addr, LineFault, Words, address, mask};

/// Reads a name; a word that can't be one is Bad.
#[tactic(auto, unfolding(crate::specs::Names::name_at))]
pub fn name(words: &mut Words<'_>) -> Result<Name, LineFault>
    ensures { Reads result words.new (name_at words.old) }
{
    let word = words.word()?;
    match Name::new(word.bytes()) {
        Some(name) => Ok(name),
        None => Err(word.bad()),
    }
}

fn network_or_bad(column: u32, addr: Addr, len: u8, words: &Words<'_>) -> Result<Prefix, LineFault>
    ensures { Reads result words.now (network_or_bad column addr len words.now) }
{
    match Prefix::new(addr, len) {
        Some(prefix) => Ok(prefix),
        None => Err(LineFault::Bad { column }),
    }
}

/// Reads an address, or the single word `0` for 0.0.0.0.
#[tactic(auto, unfolding(crate::specs::Networks::zero_or_address_at))]
pub fn zero_or_address(words: &mut Words<'_>) -> Result<Addr, LineFault>
    ensures { Reads result words.new (zero_or_address_at words.old) }
{
    if words.takes(b"0") {
        Ok(Addr(0))
    } else {
        address(words)
    }
}

/// Reads a mask as its number of ones, or the single word `0` for 0.0.0.0.
#[tactic(auto, unfolding(crate::specs::Networks::zero_or_mask_at))]
pub fn zero_or_mask(words: &mut Words<'_>) -> Result<u8, LineFault>
    ensures { Reads result words.new (zero_or_mask_at words.old) }
{
    if words.takes(b"0") {
        Ok(0)
    } else {
        mask(words)
    }
}

/// Reads an address and a mask as a network. Host bits that aren't zero are Bad at the mask.
#[tactic(auto, unfolding(crate::specs::Networks::network_at))]
pub fn network(words: &mut Words<'_>) -> Result<Prefix, LineFault>
    ensures { Reads result words.new (network_at words.old) }
{
    let addr = address(words)?;
    let column = words.column();
    let len = mask(words)?;
    network_or_bad(column, addr, len, words)
}

/// Reads an address and a mask of a route line, where `0` stands for 0.0.0.0 at each place.
#[tactic(auto, unfolding(crate::specs::Networks::route_network_at))]
pub fn route_network(words: &mut Words<'_>) -> Result<Prefix, LineFault>
    ensures { Reads result words.new (route_network_at words.old) }
{
    let addr = zero_or_address(words)?;
    let column = words.column();
    let len = zero_or_mask(words)?;
    network_or_bad(column, addr, len, words)
}
