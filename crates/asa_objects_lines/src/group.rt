//! The indented lines of a group, and of every block.
ghost use Rattle.std.specs.Prelude.{◌≡◌, false, IsTrue, IfOk};
ghost use Rattle.asa_text.specs.Readers.{Reads};
ghost use Rattle.asa_objects_lines.specs.Blocks.{same_port_proto};
ghost use Rattle.asa_objects_lines.specs.declared.kinds.GroupKind.TheVariants as groups;
ghost use Rattle.asa_base.specs.declared.kinds.PortProto.{PortProto};
ghost use Rattle.asa_objects_lines.specs.declared.kinds.GroupKind.{GroupKind};
ghost use Rattle.asa_objects_lines.specs.Forms.{IsServiceForm, FitsAsAddress, FitsAsService, FitsAsPort, FitsGroup, FitsBlock, takes_objects};
ghost use Rattle.asa_objects_lines.specs.declared.kinds.BlockKind.TheVariants as blocks;
ghost use Rattle.asa_objects_lines.specs.Groups as spec;

use crate::kinds::{BlockKind, GroupKind};
use crate::service_value::{ServiceProtocol, ServiceValue};
use crate::statement::{Item, Statement};
use crate::value::{host, network_object_line, ported_value, service_object_line, service_value};
use asa_base::{
    Kind, Member, Name, Names, PortProto, PortRange, Prefix, icmp_type, named, network, port,
    protocol,
};
use asa_text::{LineFault, Words, end_of_line, keyword};

/// Reads the name of an object of one kind.
#[tactic(auto, unfolding(crate::specs::Groups::object_item_at))]
fn object_item<N: Names>(words: &mut Words<'_>, names: &N, kind: Kind) -> Result<Item, LineFault>
    ensures value { Reads result words.new (spec.object_item_at (N.known names.now) kind words.old) }
    ensures fits { (g : GroupKind) → IsTrue (takes_objects g) → IfOk result (FitsGroup g) }
{
    let (name, _kind) = named(words, names, &[kind])?;
    Ok(Item::Object(name))
}

/// A network of a group; one address is a host.
fn member_of_network(prefix: Prefix) -> Member
    ensures value { result ≡ spec.member_of_network prefix }
    ensures fits { FitsAsAddress groups.Network result }
{
    if prefix.len == 32 {
        Member::Host(prefix.addr)
    } else {
        Member::Subnet(prefix)
    }
}

/// Reads `A M` of a group.
#[tactic(auto, unfolding(crate::specs::Groups::group_network_at))]
fn group_network(words: &mut Words<'_>) -> Result<Member, LineFault>
    ensures value { Reads result words.new (spec.group_network_at words.old) }
    ensures fits { IfOk result (FitsAsAddress groups.Network) }
{
    let prefix = network(words)?;
    Ok(member_of_network(prefix))
}

/// Reads `host A` or `A M` of a group.
#[tactic(auto, unfolding(crate::specs::Groups::group_address_at))]
fn group_address(words: &mut Words<'_>) -> Result<Member, LineFault>
    ensures value { Reads result words.new (spec.group_address_at words.old) }
    ensures fits { IfOk result (FitsAsAddress groups.Network) }
{
    if words.takes(b"host") {
        return host(words);
    }
    group_network(words)
}

/// Reads what follows `network-object`.
#[tactic(auto, unfolding(crate::specs::Groups::network_item_at))]
fn network_item<N: Names>(words: &mut Words<'_>, names: &N) -> Result<Item, LineFault>
    ensures value { Reads result words.new (spec.network_item_at (N.known names.now) words.old) }
    ensures fits { IfOk result (FitsGroup groups.Network) }
{
    if words.takes(b"object") {
        return object_item(words, names, Kind::NetObject);
    }
    let member = group_address(words)?;
    Ok(Item::Network(member))
}

/// Reads a service of a group.
#[tactic(auto, unfolding(crate::specs::Groups::group_service_at))]
fn group_service(words: &mut Words<'_>) -> Result<ServiceValue, LineFault>
    ensures value { Reads result words.new (spec.group_service_at words.old) }
    ensures form { IfOk result IsServiceForm }
{
    if words.takes(b"tcp-udp") {
        return ported_value(ServiceProtocol::TcpUdp, words);
    }
    service_value(words)
}

/// Reads what follows `service-object`.
#[tactic(auto, unfolding(crate::specs::Groups::service_item_at))]
fn service_item<N: Names>(words: &mut Words<'_>, names: &N) -> Result<Item, LineFault>
    ensures value { Reads result words.new (spec.service_item_at (N.known names.now) words.old) }
    ensures fits { IfOk result (FitsGroup groups.Service) }
{
    if words.takes(b"object") {
        return object_item(words, names, Kind::ServiceObject);
    }
    let value = group_service(words)?;
    Ok(Item::Service(value))
}

/// The ports from one to another, whose word stands at a column.
fn port_span_or_bad(
    column: u32,
    first: u16,
    last: u16,
    words: &Words<'_>,
) -> Result<PortRange, LineFault>
    ensures { Reads result words.now (spec.port_span_or_bad column first last words.now) }
{
    match PortRange::new(first, last) {
        Some(range) => Ok(range),
        None => Err(LineFault::Bad { column }),
    }
}

/// Reads `range P P`, after its first word.
#[tactic(auto, unfolding(crate::specs::Groups::port_range_at))]
fn port_range(words: &mut Words<'_>) -> Result<PortRange, LineFault>
    ensures { Reads result words.new (spec.port_range_at words.old) }
{
    let first = port(words)?;
    let column = words.column();
    let last = port(words)?;
    port_span_or_bad(column, first, last, words)
}

/// Reads `eq P`, after its first word.
#[tactic(auto, unfolding(crate::specs::Groups::one_port_at))]
fn one_port(words: &mut Words<'_>) -> Result<PortRange, LineFault>
    ensures { Reads result words.new (spec.one_port_at words.old) }
{
    let port = port(words)?;
    Ok(PortRange::only(port))
}

/// Reads `eq P` or `range P P`.
#[tactic(auto, unfolding(crate::specs::Groups::member_ports_at))]
fn member_ports(words: &mut Words<'_>) -> Result<PortRange, LineFault>
    ensures { Reads result words.new (spec.member_ports_at words.old) }
{
    if words.takes(b"eq") {
        return one_port(words);
    }
    if words.takes(b"range") {
        return port_range(words);
    }
    Err(words.bad())
}

/// Reads what follows `port-object`.
#[tactic(auto, unfolding(crate::specs::Groups::port_item_at))]
fn port_item(words: &mut Words<'_>) -> Result<Item, LineFault>
    ensures value { Reads result words.new (spec.port_item_at words.old) }
    ensures fits { (g : GroupKind) → FitsAsPort g → IfOk result (FitsGroup g) }
{
    let range = member_ports(words)?;
    Ok(Item::Port(range))
}

/// Reads what follows `protocol-object`.
#[tactic(auto, unfolding(crate::specs::Groups::protocol_item_at))]
fn protocol_item(words: &mut Words<'_>) -> Result<Item, LineFault>
    ensures value { Reads result words.new (spec.protocol_item_at words.old) }
    ensures fits { IfOk result (FitsGroup groups.Protocol) }
{
    let stated = protocol(words)?;
    Ok(Item::Protocol(stated))
}

/// Reads what follows `icmp-object`.
#[tactic(auto, unfolding(crate::specs::Groups::icmp_item_at))]
fn icmp_item(words: &mut Words<'_>) -> Result<Item, LineFault>
    ensures value { Reads result words.new (spec.icmp_item_at words.old) }
    ensures fits { IfOk result (FitsGroup groups.IcmpType) }
{
    let itype = icmp_type(words)?;
    Ok(Item::IcmpType(itype))
}

/// Reads what follows the word of a group's members.
#[tactic(auto, unfolding(crate::specs::Groups::item_at))]
fn item<N: Names>(words: &mut Words<'_>, names: &N, group: GroupKind) -> Result<Item, LineFault>
    ensures value { Reads result words.new (spec.item_at (N.known names.now) group words.old) }
    ensures fits { IfOk result (FitsGroup group) }
{
    match group {
        GroupKind::Network => network_item(words, names),
        GroupKind::Service => service_item(words, names),
        GroupKind::Port(_) => port_item(words),
        GroupKind::Protocol => protocol_item(words),
        GroupKind::IcmpType => icmp_item(words),
    }
}

/// The word that begins a member of a group of this kind.
fn member_word(group: GroupKind) -> &'static [u8]
    ensures { result.now ≡ spec.member_word group }
{
    match group {
        GroupKind::Network => b"network-object",
        GroupKind::Service => b"service-object",
        GroupKind::Port(_) => b"port-object",
        GroupKind::Protocol => b"protocol-object",
        GroupKind::IcmpType => b"icmp-object",
    }
}

/// Whether the words of ports are the same.
fn same_port_proto(proto: PortProto, other: PortProto) -> bool
    ensures { result ≡ same_port_proto proto other }
{
    match proto {
        PortProto::Tcp => matches!(other, PortProto::Tcp),
        PortProto::Udp => matches!(other, PortProto::Udp),
        PortProto::TcpUdp => matches!(other, PortProto::TcpUdp),
    }
}

/// Whether a name's word of ports is this one.
fn is_port_proto(proto: PortProto, other: Option<PortProto>) -> bool
    ensures { result ≡ spec.is_port_proto proto other }
{
    match other {
        Some(other) => same_port_proto(proto, other),
        None => false,
    }
}

/// Whether a group of that name may stand in a group of this kind.
fn fits_in<N: Names>(names: &N, group: GroupKind, name: &Name) -> bool
    ensures { result ≡ spec.fits_in (N.known names.now) group name.now }
{
    match group {
        GroupKind::Port(proto) => is_port_proto(proto, names.port_proto(name)),
        GroupKind::Network | GroupKind::Service | GroupKind::Protocol | GroupKind::IcmpType => true,
    }
}

/// Reads what follows `group-object`: the name of a group of the same kind.
#[tactic(auto, unfolding(crate::specs::Groups::group_item_at))]
fn group_item<N: Names>(
    words: &mut Words<'_>,
    names: &N,
    group: GroupKind,
) -> Result<Item, LineFault>
    ensures value { Reads result words.new (spec.group_item_at (N.known names.now) group words.old) }
    ensures fits { IfOk result (FitsGroup group) }
{
    let column = words.column();
    let (name, _kind) = named(words, names, &[group.kind()])?;
    if fits_in(names, group, &name) {
        Ok(Item::Group(name))
    } else {
        Err(LineFault::Bad { column })
    }
}

/// Reads what begins with the word of the group's members.
#[tactic(auto, unfolding(crate::specs::Groups::own_item_at))]
fn own_item<N: Names>(words: &mut Words<'_>, names: &N, group: GroupKind) -> Result<Item, LineFault>
    ensures value { Reads result words.new (spec.own_item_at (N.known names.now) group words.old) }
    ensures fits { IfOk result (FitsGroup group) }
{
    keyword(words, member_word(group))?;
    item(words, names, group)
}

/// Reads a member of a group, as far as it goes.
#[tactic(auto, unfolding(crate::specs::Groups::any_item_at))]
fn any_item<N: Names>(words: &mut Words<'_>, names: &N, group: GroupKind) -> Result<Item, LineFault>
    ensures value { Reads result words.new (spec.any_item_at (N.known names.now) group words.old) }
    ensures fits { IfOk result (FitsGroup group) }
{
    if words.takes(b"group-object") {
        return group_item(words, names, group);
    }
    own_item(words, names, group)
}

/// Reads a member of a group, to the line's end.
#[tactic(auto, unfolding(crate::specs::Groups::member_at))]
fn member<N: Names>(words: &mut Words<'_>, names: &N, group: GroupKind) -> Result<Item, LineFault>
    ensures value { Reads result words.new (spec.member_at (N.known names.now) group words.old) }
    ensures fits { IfOk result (FitsGroup group) }
{
    let item = any_item(words, names, group)?;
    end_of_line(words)?;
    Ok(item)
}

/// Whether a member of a group of this kind begins here.
fn begins_member(words: &Words<'_>, group: GroupKind) -> bool
    ensures { result ≡ spec.begins_member group words.now }
{
    words.next_is(b"group-object") || words.next_is(member_word(group))
}

/// Reads a member that the group loses.
#[tactic(auto, unfolding(crate::specs::Groups::removed_at))]
fn removed<N: Names>(
    words: &mut Words<'_>,
    names: &N,
    group: GroupKind,
) -> Result<Statement, LineFault>
    ensures value { Reads result words.new (spec.removed_at (N.known names.now) group words.old) }
    ensures fits { IfOk result (FitsBlock (blocks.Group group)) }
{
    let item = member(words, names, group)?;
    Ok(Statement::Removed(item))
}

/// Reads what follows `no`, whose column is told.
#[tactic(auto, unfolding(crate::specs::Groups::after_no))]
fn after_no<N: Names>(
    words: &mut Words<'_>,
    names: &N,
    group: GroupKind,
    column: u32,
) -> Result<Statement, LineFault>
    ensures value { Reads result words.new (spec.after_no (N.known names.now) group column words.old) }
    ensures fits { IfOk result (FitsBlock (blocks.Group group)) }
{
    if begins_member(words, group) {
        removed(words, names, group)
    } else {
        Err(LineFault::Bad { column })
    }
}

/// Reads a member that the group gets.
#[tactic(auto, unfolding(crate::specs::Groups::added_at))]
fn added<N: Names>(
    words: &mut Words<'_>,
    names: &N,
    group: GroupKind,
) -> Result<Statement, LineFault>
    ensures value { Reads result words.new (spec.added_at (N.known names.now) group words.old) }
    ensures fits { IfOk result (FitsBlock (blocks.Group group)) }
{
    let item = member(words, names, group)?;
    Ok(Statement::Member(item))
}

/// Reads a line of a group.
#[tactic(auto, unfolding(crate::specs::Groups::group_line))]
fn group_line<N: Names>(
    words: &mut Words<'_>,
    names: &N,
    group: GroupKind,
) -> Result<Statement, LineFault>
    ensures value { Reads result words.new (spec.group_line (N.known names.now) group words.old) }
    ensures fits { IfOk result (FitsBlock (blocks.Group group)) }
{
    let column = words.column();
    if words.takes(b"description") {
        return Ok(Statement::Nothing);
    }
    if words.takes(b"no") {
        return after_no(words, names, group, column);
    }
    added(words, names, group)
}

/// Reads an indented line of a block.
///
/// A line that is none of the block's forms is Bad at its first word, and one that begins as a form does at the first
/// word that is wrong, also `no` before what isn't a member. Unsupported are `fqdn` and a word with a `:` where an address
/// or a mask is wanted. A name that isn't defined is Unknown, one of another kind Bad. `names` is asked of every name, so
/// the block's own name must be among those that it knows.
#[tactic(auto, unfolding(crate::specs::Groups::statement_at))]
pub fn read_statement<N: Names>(
    words: &mut Words<'_>,
    names: &N,
    block: BlockKind,
) -> Result<Statement, LineFault>
    ensures value { Reads result words.new (spec.statement_at (N.known names.now) block words.old) }
    ensures fits { IfOk result (FitsBlock block) }
{
    match block {
        BlockKind::NetObject => network_object_line(words),
        BlockKind::ServiceObject => service_object_line(words),
        BlockKind::Group(group) => group_line(words, names, group),
    }
}
