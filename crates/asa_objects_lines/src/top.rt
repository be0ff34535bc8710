//! The first line of a block of an object or a group, and the line that removes one.
ghost use Rattle.std.specs.Prelude.{◌≡◌};
ghost use Rattle.asa_text.specs.Readers.{Reads};
ghost use Rattle.asa_objects_lines.specs.Tops as spec;

use crate::kinds::{BlockKind, GroupKind};
use asa_base::{Kind, Name, Names, PortProto, name, named};
use asa_text::{LineFault, Words, end_of_line, keyword};

/// What the first line of a block defines.
#[derive(Clone, Debug, Drop, PartialEq, Eq)]
pub struct Top {
    /// What the block defines.
    pub block: BlockKind,
    /// The name that it defines.
    pub name: Name,
    /// The column of the name.
    pub column: u32,
}

/// What a line removes.
#[derive(Clone, Debug, Drop, PartialEq, Eq)]
pub struct Removal {
    /// What the name is that is removed.
    pub kind: Kind,
    /// The name that is removed.
    pub name: Name,
    /// The column of the name.
    pub column: u32,
}

/// Reads `network` or `service`, after `object`.
#[tactic(auto, unfolding(crate::specs::Tops::object_word_at))]
fn object_word(words: &mut Words<'_>) -> Result<BlockKind, LineFault>
    ensures { Reads result words.new (spec.object_word_at words.old) }
{
    if words.takes(b"network") {
        return Ok(BlockKind::NetObject);
    }
    if words.takes(b"service") {
        return Ok(BlockKind::ServiceObject);
    }
    Err(words.bad())
}

/// Tells the fault of a word after `object-group` that is no kind of group.
#[tactic(auto, unfolding(crate::specs::Tops::other_group_word))]
fn other_group_word(words: &Words<'_>) -> Result<GroupKind, LineFault>
    ensures { Reads result words.now (spec.other_group_word words.now) }
{
    if words.next_is(b"user") || words.next_is(b"security") {
        return Err(words.unsupported());
    }
    Err(words.bad())
}

/// Reads the word after `object-group`.
#[tactic(auto, unfolding(crate::specs::Tops::group_word_at))]
fn group_word(words: &mut Words<'_>) -> Result<GroupKind, LineFault>
    ensures { Reads result words.new (spec.group_word_at words.old) }
{
    if words.takes(b"network") {
        return Ok(GroupKind::Network);
    }
    if words.takes(b"service") {
        return Ok(GroupKind::Service);
    }
    if words.takes(b"protocol") {
        return Ok(GroupKind::Protocol);
    }
    if words.takes(b"icmp-type") {
        return Ok(GroupKind::IcmpType);
    }
    other_group_word(words)
}

/// Reads the word of ports after the name of a service group, where one stands there.
#[tactic(auto, unfolding(crate::specs::Tops::port_word_after))]
fn port_word_after(words: &mut Words<'_>) -> Result<GroupKind, LineFault>
    ensures { Reads result words.new (spec.port_word_after words.old) }
{
    if words.takes(b"tcp") {
        return Ok(GroupKind::Port(PortProto::Tcp));
    }
    if words.takes(b"udp") {
        return Ok(GroupKind::Port(PortProto::Udp));
    }
    if words.takes(b"tcp-udp") {
        return Ok(GroupKind::Port(PortProto::TcpUdp));
    }
    Ok(GroupKind::Service)
}

/// Reads what follows the name of a group.
#[tactic(auto, unfolding(crate::specs::Tops::kind_after_name))]
fn kind_after_name(word: GroupKind, words: &mut Words<'_>) -> Result<GroupKind, LineFault>
    ensures { Reads result words.new (spec.kind_after_name word words.old) }
{
    match word {
        GroupKind::Service => port_word_after(words),
        GroupKind::Network => Ok(GroupKind::Network),
        GroupKind::Port(proto) => Ok(GroupKind::Port(proto)),
        GroupKind::Protocol => Ok(GroupKind::Protocol),
        GroupKind::IcmpType => Ok(GroupKind::IcmpType),
    }
}

/// Reads `object network|service N`, after its first word.
#[tactic(auto, unfolding(crate::specs::Tops::object_top_at))]
fn object_top(words: &mut Words<'_>) -> Result<Top, LineFault>
    ensures { Reads result words.new (spec.object_top_at words.old) }
{
    let block = object_word(words)?;
    let column = words.column();
    let name = name(words)?;
    end_of_line(words)?;
    Ok(Top {
        block,
        name,
        column,
    })
}

/// Reads `object-group KIND N [tcp|udp|tcp-udp]`, after its first word.
#[tactic(auto, unfolding(crate::specs::Tops::group_top_at))]
fn group_top(words: &mut Words<'_>) -> Result<Top, LineFault>
    ensures { Reads result words.new (spec.group_top_at words.old) }
{
    let word = group_word(words)?;
    let column = words.column();
    let name = name(words)?;
    let group = kind_after_name(word, words)?;
    end_of_line(words)?;
    Ok(Top {
        block: BlockKind::Group(group),
        name,
        column,
    })
}

/// Reads the first line of a block of an object or a group. `object-group user` and `object-group security` are
/// Unsupported; whatever else has none of the forms is Bad at the first word that is wrong.
#[tactic(auto, unfolding(crate::specs::Tops::top_at))]
pub fn read_top(words: &mut Words<'_>) -> Result<Top, LineFault>
    ensures { Reads result words.new (spec.top_at words.old) }
{
    if words.takes(b"object") {
        return object_top(words);
    }
    if words.takes(b"object-group") {
        return group_top(words);
    }
    Err(words.bad())
}

/// Reads the word after `no object-group`.
#[tactic(auto, unfolding(crate::specs::Tops::group_removed_at))]
fn group_removed(words: &mut Words<'_>) -> Result<BlockKind, LineFault>
    ensures { Reads result words.new (spec.group_removed_at words.old) }
{
    let group = group_word(words)?;
    Ok(BlockKind::Group(group))
}

/// Reads what is removed, up to the name.
#[tactic(auto, unfolding(crate::specs::Tops::removed_word_at))]
fn removed_word(words: &mut Words<'_>) -> Result<BlockKind, LineFault>
    ensures { Reads result words.new (spec.removed_word_at words.old) }
{
    if words.takes(b"object") {
        return object_word(words);
    }
    if words.takes(b"object-group") {
        return group_removed(words);
    }
    Err(words.bad())
}

/// The kinds of names that are removed after these words.
fn kinds_removed(block: BlockKind) -> &'static [Kind]
    ensures { result.now ≡ spec.kinds_removed block }
{
    match block {
        BlockKind::NetObject => &[Kind::NetObject],
        BlockKind::ServiceObject => &[Kind::ServiceObject],
        BlockKind::Group(GroupKind::Network) => &[Kind::NetGroup],
        BlockKind::Group(GroupKind::Service) => &[Kind::ServiceGroup, Kind::PortGroup],
        BlockKind::Group(GroupKind::Port(_)) => &[Kind::PortGroup],
        BlockKind::Group(GroupKind::Protocol) => &[Kind::ProtocolGroup],
        BlockKind::Group(GroupKind::IcmpType) => &[Kind::IcmpGroup],
    }
}

/// Reads the line that removes an object or a group. A name that isn't defined is Unknown, and one of another kind Bad,
/// each before a word too many. `no object-group service N` takes a group of services and one of ports.
#[tactic(auto, unfolding(crate::specs::Tops::removal_at))]
pub fn read_removal<N: Names>(words: &mut Words<'_>, names: &N) -> Result<Removal, LineFault>
    ensures { Reads result words.new (spec.removal_at (N.known names.now) words.old) }
{
    keyword(words, b"no")?;
    let block = removed_word(words)?;
    let column = words.column();
    let (name, kind) = named(words, names, kinds_removed(block))?;
    end_of_line(words)?;
    Ok(Removal { kind, name, column })
}
