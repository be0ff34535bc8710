//! The block of an interface.
ghost use Rattle.std.specs.Prelude.{◌≡◌, ◌+◌, ◌<◌, ◌^◌, ◌-◌, IfSome, is_some, length, IsTrue, IfOk};
ghost use Rattle.std.specs.Str.{bytes_eq};
ghost use Rattle.std.specs.List.{position};
ghost use Rattle.asa_text.specs.Readers.{Reads, Read};
ghost use Rattle.asa_ifaces.specs.Answers.{at_line, of_line, of_text};
ghost use Rattle.asa_ifaces.specs.Blocks as spec;
ghost use Rattle.asa_ifaces.specs.Interfaces as kept;
ghost use Rattle.asa_ifaces.specs.Interfaces.{has_mask};

use crate::iface::{Iface, IfaceFault};
use crate::stated::Stated;
use asa_base::{Name, name};
use asa_text::{Block, Line, LineFault, Words, address, end_of_line, keyword, mask, number};

/// Whether the interface has this name.
fn has_name(iface: &Iface, name: &Name) -> bool
    ensures { result ≡ kept.has_name name.now iface.now }
{
    match &iface.name {
        Some(given) => given == name,
        None => false,
    }
}

/// The place of the first interface that has this name.
pub(crate) fn place_of(ifaces: &[Iface], name: &Name) -> Option<usize>
    ensures value { result ≡ kept.number_among ifaces.now name.now }
    ensures within { IfSome result (λ n. n < length ifaces.now) }
{
    ifaces.iter().position(|i| has_name(i, name))
}

/// Whether the byte is a comma or a parenthesis, which an interface's name may not have.
fn is_pair_mark(byte: u8) -> bool
    ensures { result ≡ spec.is_pair_mark byte }
{
    byte == b',' || byte == b'(' || byte == b')'
}

fn has_pair_mark(word: &[u8]) -> bool
    ensures { result ≡ spec.has_pair_mark word.now }
{
    word.iter().any(|b| is_pair_mark(*b))
}

fn is_any(word: &[u8]) -> bool
    ensures { result ≡ spec.is_any word.now }
{
    word == b"any".as_slice()
}

/// The name of an interface that a word is.
fn interface_name(word: &[u8]) -> Option<Name>
    ensures exact { is_some result ≡ spec.is_interface_name word.now }
    ensures value { IfSome result (λ n. n ≡ word.now) }
{
    let name = Name::new(word)?;
    if is_any(word) || has_pair_mark(word) {
        return None;
    }
    Some(name)
}

/// Reads the name of an interface.
#[tactic(auto, unfolding(crate::specs::Blocks::interface_name_at))]
fn read_name(words: &mut Words<'_>) -> Result<Name, LineFault>
    ensures { Reads result words.new (spec.interface_name_at words.old) }
{
    let word = words.word()?;
    match interface_name(word.bytes()) {
        Some(name) => Ok(name),
        None => Err(word.bad()),
    }
}

/// Reads the end of the line, after which this is stated.
#[tactic(auto, unfolding(crate::specs::Blocks::stated_at))]
fn read_end(stated: Stated, words: &mut Words<'_>) -> Result<Stated, LineFault>
    requires masks { IsTrue (has_mask stated.addr) }
    ensures value { Reads result words.new (spec.stated_at stated words.old) }
    ensures masks { IfOk result (λ s. IsTrue (has_mask s.addr)) }
{
    end_of_line(words)?;
    Ok(stated)
}

/// Reads `nameif N` after its first word.
#[tactic(auto, unfolding(crate::specs::Blocks::nameif_line))]
fn read_nameif(mut stated: Stated, words: &mut Words<'_>) -> Result<Stated, LineFault>
    requires masks { IsTrue (has_mask stated.addr) }
    ensures value { Reads result words.new (spec.nameif_line stated words.old) }
    ensures masks { IfOk result (λ s. IsTrue (has_mask s.addr)) }
{
    let name = read_name(words)?;
    stated.name = Some(name);
    read_end(stated, words)
}

/// Reads `security-level L` after its first word.
#[tactic(auto, unfolding(crate::specs::Blocks::level_line))]
fn read_level(mut stated: Stated, words: &mut Words<'_>) -> Result<Stated, LineFault>
    requires masks { IsTrue (has_mask stated.addr) }
    ensures value { Reads result words.new (spec.level_line stated words.old) }
    ensures masks { IfOk result (λ s. IsTrue (has_mask s.addr)) }
{
    let level = number(words, 0, 100)?;
    stated.level = Some(level as u8);
    read_end(stated, words)
}

/// Reads `standby A`, or nothing.
#[tactic(auto, unfolding(crate::specs::Blocks::standby_at))]
fn read_standby(words: &mut Words<'_>) -> Result<(), LineFault>
    ensures { Reads result words.new (spec.standby_at words.old) }
{
    if words.takes(b"standby") {
        address(words)?;
    }
    Ok(())
}

/// Reads `A M [standby A]`.
#[tactic(auto, unfolding(crate::specs::Blocks::own_address_line))]
fn read_own_address(mut stated: Stated, words: &mut Words<'_>) -> Result<Stated, LineFault>
    requires masks { IsTrue (has_mask stated.addr) }
    ensures value { Reads result words.new (spec.own_address_line stated words.old) }
    ensures masks { IfOk result (λ s. IsTrue (has_mask s.addr)) }
{
    let addr = address(words)?;
    let ones = mask(words)?;
    read_standby(words)?;
    stated.addr = Some((addr, ones));
    read_end(stated, words)
}

/// Whether the interface gets its address from elsewhere.
fn is_leased(words: &Words<'_>) -> bool
    ensures { result ≡ spec.is_leased words.now }
{
    words.next_is(b"dhcp") || words.next_is(b"pppoe")
}

/// Reads `ip address ..` after its first two words.
#[tactic(auto, unfolding(crate::specs::Blocks::address_line))]
fn read_address(stated: Stated, words: &mut Words<'_>) -> Result<Stated, LineFault>
    requires masks { IsTrue (has_mask stated.addr) }
    ensures value { Reads result words.new (spec.address_line stated words.old) }
    ensures masks { IfOk result (λ s. IsTrue (has_mask s.addr)) }
{
    if is_leased(words) {
        return Err(words.unsupported());
    }
    read_own_address(stated, words)
}

/// Whether the next two words are `ip address`.
fn is_ip_address(words: &Words<'_>) -> bool
    ensures { result ≡ spec.is_ip_address words.now }
{
    let mut after = words.copy();
    after.takes(b"ip") && after.next_is(b"address")
}

/// Reads a line that begins with `no`, after that word.
#[tactic(auto, unfolding(crate::specs::Blocks::no_line))]
fn read_no(mut stated: Stated, words: &mut Words<'_>) -> Result<Stated, LineFault>
    requires masks { IsTrue (has_mask stated.addr) }
    ensures value { Reads result words.new (spec.no_line stated words.old) }
    ensures masks { IfOk result (λ s. IsTrue (has_mask s.addr)) }
{
    if words.takes(b"nameif") {
        stated.name = None;
        return read_end(stated, words);
    }
    if words.takes(b"security-level") {
        stated.level = None;
        return read_end(stated, words);
    }
    if is_ip_address(words) {
        let _ip = words.next();
        let _address = words.next();
        stated.addr = None;
        return read_end(stated, words);
    }
    if words.takes(b"shutdown") {
        stated.shutdown = false;
        return read_end(stated, words);
    }
    Ok(stated)
}

/// Reads an indented line of the block.
#[tactic(auto, unfolding(crate::specs::Blocks::inner_line))]
fn read_inner(mut stated: Stated, words: &mut Words<'_>) -> Result<Stated, LineFault>
    requires masks { IsTrue (has_mask stated.addr) }
    ensures value { Reads result words.new (spec.inner_line stated words.old) }
    ensures masks { IfOk result (λ s. IsTrue (has_mask s.addr)) }
{
    if words.takes(b"nameif") {
        return read_nameif(stated, words);
    }
    if words.takes(b"security-level") {
        return read_level(stated, words);
    }
    if is_ip_address(words) {
        let _ip = words.next();
        let _address = words.next();
        return read_address(stated, words);
    }
    if words.takes(b"shutdown") {
        stated.shutdown = true;
        return read_end(stated, words);
    }
    if words.takes(b"no") {
        return read_no(stated, words);
    }
    Ok(stated)
}

/// Whether one of the interfaces has the name that is stated.
fn states_taken(ifaces: &[Iface], stated: &Stated) -> bool
    ensures { result ≡ spec.states_taken ifaces.now stated.now }
{
    match &stated.name {
        Some(name) => place_of(ifaces, name).is_some(),
        None => false,
    }
}

/// Reads line `number` of the block, which must not state a name that an interface has.
#[tactic(auto, unfolding(crate::specs::Blocks::stated_after))]
fn read_stated(
    ifaces: &[Iface],
    number: u32,
    stated: Stated,
    line: &Line,
) -> Result<Stated, IfaceFault>
    requires masks { IsTrue (has_mask stated.addr) }
    ensures value { result ≡ spec.stated_after ifaces.now number stated line.now }
    ensures masks { IfOk result (λ s. IsTrue (has_mask s.addr)) }
{
    let mut words = Words::of(line.text.as_bytes());
    match read_inner(stated, &mut words) {
        Ok(stated) if states_taken(ifaces, &stated) => Err(IfaceFault::NameTaken { line: number }),
        Ok(stated) => Ok(stated),
        Err(fault) => Err(IfaceFault::Line {
            line: number,
            fault,
        }),
    }
}

/// Reads the indented lines of the block in order.
#[tactic(auto, unfolding(crate::specs::Blocks::stated_by))]
fn read_lines(ifaces: &[Iface], lines: &[Line]) -> Result<Stated, IfaceFault>
    requires few { length lines.now + 1 < 2 ^ 32 - 1 }
    ensures value { result ≡ spec.stated_by ifaces.now 2 spec.unstated lines.now }
    ensures masks { IfOk result (λ s. IsTrue (has_mask s.addr)) }
{
    let mut stated = Stated {
        name: None,
        level: None,
        addr: None,
        shutdown: false,
    };
    for (i, line) in lines.iter().enumerate() {
        stated = read_stated(ifaces, i as u32 + 2, stated, line)?;
    }
    Ok(stated)
}

/// The level of a name where no line states it.
fn default_level(name: &Name) -> u8
    ensures { result ≡ spec.default_level name.now }
{
    if name.bytes() == b"inside".as_slice() {
        100
    } else {
        0
    }
}

/// The level of an interface.
fn level_of(name: &Option<Name>, stated: Option<u8>) -> u8
    ensures { result ≡ spec.level_of name.now stated }
{
    match name {
        None => 0,
        Some(name) => match stated {
            None => default_level(name),
            Some(level) => level,
        },
    }
}

/// The interface that a block describes.
fn described(hardware: Name, stated: Stated) -> Iface
    ensures { result ≡ spec.described hardware stated }
{
    let level = level_of(&stated.name, stated.level);
    Iface {
        hardware,
        name: stated.name,
        level,
        addr: stated.addr,
        shutdown: stated.shutdown,
    }
}

fn is_hardware(iface: &Iface, word: &Name) -> bool
    ensures { result ≡ bytes_eq iface.now.hardware word.now }
{
    iface.hardware == *word
}

/// Whether an interface has this hardware name.
fn has_hardware(ifaces: &[Iface], word: &Name) -> bool
    ensures { result ≡ spec.has_hardware ifaces.now word.now }
{
    ifaces.iter().any(|i| is_hardware(i, word))
}

/// Reads `interface HARDWARE`.
#[tactic(auto, unfolding(crate::specs::Blocks::hardware_line))]
fn read_hardware(words: &mut Words<'_>) -> Result<Name, LineFault>
    ensures { Reads result words.new (spec.hardware_line words.old) }
{
    keyword(words, b"interface")?;
    let hardware = name(words)?;
    end_of_line(words)?;
    Ok(hardware)
}

/// The hardware name that the block states, which no interface may have.
#[tactic(auto, unfolding(crate::specs::Blocks::hardware_of))]
fn hardware_of(ifaces: &[Iface], block: &Block) -> Result<Name, IfaceFault>
    ensures { result ≡ spec.hardware_of ifaces.now block.now }
{
    let mut words = block.top_words();
    match read_hardware(&mut words) {
        Ok(hardware) if has_hardware(ifaces, &hardware) => Err(IfaceFault::NameTaken { line: 1 }),
        Ok(hardware) => Ok(hardware),
        Err(fault) => Err(IfaceFault::Line { line: 1, fault }),
    }
}

/// The interface that a block describes.
#[tactic(auto, unfolding(crate::specs::Blocks::interface_of_block))]
pub(crate) fn interface_of_block(ifaces: &[Iface], block: &Block) -> Result<Iface, IfaceFault>
    ensures value { result ≡ spec.interface_of_block ifaces.now block.now }
    ensures masks { IfOk result (λ i. IsTrue (has_mask i.addr)) }
{
    let hardware = hardware_of(ifaces, block)?;
    let stated = read_lines(ifaces, block.inner_lines())?;
    Ok(described(hardware, stated))
}
