//! The indented lines of an object.
ghost use Rattle.std.specs.Prelude.{◌≡◌, false, true, None, IsTrue, IfOk};
ghost use Rattle.asa_text.specs.Readers.{Reads};
ghost use Rattle.asa_objects_lines.specs.declared.kinds.BlockKind.TheVariants as block;
ghost use Rattle.asa_objects_lines.specs.Services.{has_ports, every_port};
ghost use Rattle.asa_objects_lines.specs.declared.kinds.GroupKind.TheVariants as group;
ghost use Rattle.asa_objects_lines.specs.Forms.{IsServiceForm, FitsAsAddress, FitsBlock, is_tcp_udp};
ghost use Rattle.asa_objects_lines.specs.Objects as spec;

use crate::service_value::{ServiceProtocol, ServiceValue};
use crate::statement::{ObjectValue, Statement};
use asa_base::{
    Addr, Member, PortRange, Ports, Range, icmp_code, icmp_type, network, ports, protocol,
};
use asa_text::{LineFault, Words, address, end_of_line};

/// The addresses from one to another, whose word stands at a column.
fn span_or_bad(column: u32, first: Addr, last: Addr, words: &Words<'_>) -> Result<Member, LineFault>
    ensures { Reads result words.now (spec.span_or_bad column first last words.now) }
{
    match Range::new(first, last) {
        Some(range) => Ok(Member::Span(range)),
        None => Err(LineFault::Bad { column }),
    }
}

/// Reads `range A A`, after its first word.
#[tactic(auto, unfolding(crate::specs::Objects::range_at))]
fn range(words: &mut Words<'_>) -> Result<Member, LineFault>
    ensures { Reads result words.new (spec.range_at words.old) }
{
    let first = address(words)?;
    let column = words.column();
    let last = address(words)?;
    span_or_bad(column, first, last, words)
}

/// Reads `host A`, after its first word.
#[tactic(auto, unfolding(crate::specs::Objects::host_at))]
pub(crate) fn host(words: &mut Words<'_>) -> Result<Member, LineFault>
    ensures value { Reads result words.new (spec.host_at words.old) }
    ensures fits { IfOk result (FitsAsAddress group.Network) }
{
    let addr = address(words)?;
    Ok(Member::Host(addr))
}

/// Reads `subnet A M`, after its first word.
#[tactic(auto, unfolding(crate::specs::Objects::subnet_at))]
fn subnet(words: &mut Words<'_>) -> Result<Member, LineFault>
    ensures { Reads result words.new (spec.subnet_at words.old) }
{
    let prefix = network(words)?;
    Ok(Member::Subnet(prefix))
}

/// What a value line of a network object says, to the line's end.
fn value_line(member: Member, words: &mut Words<'_>) -> Result<Statement, LineFault>
    ensures value { Reads result words.new (spec.value_line member words.old) }
    ensures fits { IfOk result (FitsBlock block.NetObject) }
{
    end_of_line(words)?;
    Ok(Statement::Value(ObjectValue::Network(member)))
}

/// Reads what may follow `no`, whose column is told, in a network object.
#[tactic(auto, unfolding(crate::specs::Objects::network_object_no))]
fn network_object_no(column: u32, words: &mut Words<'_>) -> Result<Statement, LineFault>
    ensures value { Reads result words.new (spec.network_object_no column words.old) }
    ensures fits { IfOk result (FitsBlock block.NetObject) }
{
    if words.takes(b"nat") {
        return Ok(Statement::NoNat);
    }
    if words.takes(b"description") {
        return Ok(Statement::Nothing);
    }
    Err(LineFault::Bad { column })
}

/// Reads a line of a network object that states no value.
#[tactic(auto, unfolding(crate::specs::Objects::other_network_line))]
fn other_network_line(words: &mut Words<'_>) -> Result<Statement, LineFault>
    ensures value { Reads result words.new (spec.other_network_line words.old) }
    ensures fits { IfOk result (FitsBlock block.NetObject) }
{
    if words.takes(b"nat") {
        return Ok(Statement::Nat);
    }
    let column = words.column();
    if words.takes(b"no") {
        return network_object_no(column, words);
    }
    if words.takes(b"description") {
        return Ok(Statement::Nothing);
    }
    if words.next_is(b"fqdn") {
        return Err(words.unsupported());
    }
    Err(words.bad())
}

/// Reads a line of a network object.
#[tactic(auto, unfolding(crate::specs::Objects::network_object_line))]
pub(crate) fn network_object_line(words: &mut Words<'_>) -> Result<Statement, LineFault>
    ensures value { Reads result words.new (spec.network_object_line words.old) }
    ensures fits { IfOk result (FitsBlock block.NetObject) }
{
    if words.takes(b"host") {
        return value_line(host(words)?, words);
    }
    if words.takes(b"subnet") {
        return value_line(subnet(words)?, words);
    }
    if words.takes(b"range") {
        return value_line(range(words)?, words);
    }
    other_network_line(words)
}

/// Every port.
fn all_ports() -> Ports
    ensures { result ≡ every_port }
{
    Ports::one(PortRange::all())
}

/// Reads ports after this word, where it stands there.
#[tactic(auto, unfolding(crate::specs::Objects::ports_after))]
fn ports_after(word: &[u8], words: &mut Words<'_>) -> Result<Ports, LineFault>
    ensures { Reads result words.new (spec.ports_after word.now words.old) }
{
    if words.takes(word) {
        return ports(words);
    }
    Ok(all_ports())
}

/// Reads `[source PORTS] [destination PORTS]` of a protocol with ports.
#[tactic(auto, unfolding(crate::specs::Objects::ported_value))]
pub(crate) fn ported_value(
    protocol: ServiceProtocol,
    words: &mut Words<'_>,
) -> Result<ServiceValue, LineFault>
    requires { IsTrue (has_ports protocol) }
    ensures value { Reads result words.new (spec.ported_value protocol words.old) }
    ensures form { IfOk result IsServiceForm }
    ensures protocol { IfOk result (λ v. v.protocol ≡ protocol) }
{
    let source = ports_after(b"source", words)?;
    let dest = ports_after(b"destination", words)?;
    Ok(ServiceValue {
        protocol,
        source,
        dest,
        itype: None,
        icode: None,
    })
}

/// A value that states a protocol alone.
fn plain_value(protocol: ServiceProtocol) -> ServiceValue
    ensures value { result ≡ spec.plain_value protocol }
    ensures form { IsServiceForm result }
{
    ServiceValue {
        protocol,
        source: all_ports(),
        dest: all_ports(),
        itype: None,
        icode: None,
    }
}

/// ICMP, with the type and the code that are stated.
fn icmp_value(itype: Option<u8>, icode: Option<u8>) -> ServiceValue
    requires { itype ≡ None → icode ≡ None }
    ensures value { result ≡ spec.icmp_value itype icode }
    ensures form { IsServiceForm result }
{
    ServiceValue {
        protocol: ServiceProtocol::One(1),
        source: all_ports(),
        dest: all_ports(),
        itype,
        icode,
    }
}

/// Reads a code, where the line goes on.
#[tactic(auto, unfolding(crate::specs::Objects::optional_code))]
fn optional_code(words: &mut Words<'_>) -> Result<Option<u8>, LineFault>
    ensures { Reads result words.new (spec.optional_code words.old) }
{
    if words.peek().is_none() {
        return Ok(None);
    }
    let icode = icmp_code(words)?;
    Ok(Some(icode))
}

/// Reads `[TYPE [CODE]]` of ICMP.
#[tactic(auto, unfolding(crate::specs::Objects::typed_value))]
fn typed_value(words: &mut Words<'_>) -> Result<ServiceValue, LineFault>
    ensures value { Reads result words.new (spec.typed_value words.old) }
    ensures form { IfOk result IsServiceForm }
    ensures one { IfOk result (λ v. is_tcp_udp v.protocol ≡ false) }
{
    if words.peek().is_none() {
        return Ok(icmp_value(None, None));
    }
    let itype = icmp_type(words)?;
    let icode = optional_code(words)?;
    Ok(icmp_value(Some(itype), icode))
}

/// Reads what may follow a protocol.
#[tactic(auto, unfolding(crate::specs::Objects::value_after))]
fn value_after(stated: Option<u8>, words: &mut Words<'_>) -> Result<ServiceValue, LineFault>
    ensures value { Reads result words.new (spec.value_after stated words.old) }
    ensures form { IfOk result IsServiceForm }
    ensures one { IfOk result (λ v. is_tcp_udp v.protocol ≡ false) }
{
    match stated {
        None => Ok(plain_value(ServiceProtocol::Every)),
        Some(6) => ported_value(ServiceProtocol::One(6), words),
        Some(17) => ported_value(ServiceProtocol::One(17), words),
        Some(1) => typed_value(words),
        Some(other) => Ok(plain_value(ServiceProtocol::One(other))),
    }
}

/// Reads the value of a service object, after its first word.
#[tactic(auto, unfolding(crate::specs::Objects::service_value_at))]
pub(crate) fn service_value(words: &mut Words<'_>) -> Result<ServiceValue, LineFault>
    ensures value { Reads result words.new (spec.service_value_at words.old) }
    ensures form { IfOk result IsServiceForm }
    ensures one { IfOk result (λ v. is_tcp_udp v.protocol ≡ false) }
{
    let stated = protocol(words)?;
    value_after(stated, words)
}

/// Reads `service ..`, after its first word.
#[tactic(auto, unfolding(crate::specs::Objects::service_line))]
fn service_line(words: &mut Words<'_>) -> Result<Statement, LineFault>
    ensures value { Reads result words.new (spec.service_line words.old) }
    ensures fits { IfOk result (FitsBlock block.ServiceObject) }
{
    let value = service_value(words)?;
    end_of_line(words)?;
    Ok(Statement::Value(ObjectValue::Service(value)))
}

/// Reads a line of a service object.
#[tactic(auto, unfolding(crate::specs::Objects::service_object_line))]
pub(crate) fn service_object_line(words: &mut Words<'_>) -> Result<Statement, LineFault>
    ensures value { Reads result words.new (spec.service_object_line words.old) }
    ensures fits { IfOk result (FitsBlock block.ServiceObject) }
{
    if words.takes(b"service") {
        return service_line(words);
    }
    if words.takes(b"description") {
        return Ok(Statement::Nothing);
    }
    Err(words.bad())
}
