//! What the readers of lines ask of a name of a table: what it is, and its ports.
ghost use Rattle.std.specs.Prelude.{◌≡◌};
ghost use Rattle.std.specs.Option.{option_copied};
ghost use Rattle.asa_objects_values.specs.Tables as spec;

use crate::item_order::OrderedItems;
use crate::value::Stated;
use asa_base::{Kind, Name, PortProto, Service};
use asa_objects_lines::{BlockKind, GroupKind, Item};
use std::collections::BTreeMap;

/// The word of ports of a kind of block.
fn ports_of(block: BlockKind) -> Option<PortProto>
    ensures { result ≡ spec.ports_of block }
{
    match block {
        BlockKind::Group(GroupKind::Port(proto)) => Some(proto),
        _ => None,
    }
}

/// The only one of some members.
fn only(items: &OrderedItems) -> Option<&Item>
    ensures { option_copied result ≡ spec.only items.now }
{
    let mut values = items.values();
    let first = values.next()?;
    match values.next() {
        Some(_) => None,
        None => Some(first),
    }
}

/// The service of a service object's value.
fn service_of_value(block: BlockKind, items: &OrderedItems) -> Option<Service>
    ensures { result ≡ spec.service_of_value block items.now }
{
    match (block, only(items)) {
        (BlockKind::ServiceObject, Some(Item::Service(value))) => value.single_service(),
        _ => None,
    }
}

/// What a name is.
pub fn kind_in(values: &BTreeMap<Name, Stated>, name: &Name) -> Option<Kind>
    ensures { result ≡ spec.kind_in values.now.entries name.now }
{
    let stated = values.get(name)?;
    Some(stated.block().kind())
}

/// The word of ports of a group of ports.
pub fn port_proto_in(values: &BTreeMap<Name, Stated>, name: &Name) -> Option<PortProto>
    ensures { result ≡ spec.port_proto_in values.now.entries name.now }
{
    let stated = values.get(name)?;
    ports_of(stated.block())
}

/// The service of a service object of tcp or udp that has one.
pub fn service_range_in(values: &BTreeMap<Name, Stated>, name: &Name) -> Option<Service>
    ensures { result ≡ spec.service_range_in values.now.entries name.now }
{
    let stated = values.get(name)?;
    service_of_value(stated.block(), stated.items())
}
