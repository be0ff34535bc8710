//! Words of the report for what was decided: interfaces, headers, places of rules, routes, lists and drops.
ghost use Rattle.std.specs.Prelude.{◌≡◌, ◌++◌, OnOk, codes, decimal};
ghost use Rattle.asa_report.specs.Texts.{name_text, name_of, header_text, place_text, route_text, access_text, source_place, reason_word, collision_text, reason_detail, way_text, sides_text, decision_text};

use asa_base::{AccessBy, Header, Name, NatPlace};
use asa_flow::{Decision, DropReason, Route, SourceMap};
use asa_ifaces::Iface;
use asa_text::{push_address_port, push_bytes, push_number};
use std::alloc::AllocError;

fn name_text(name: &Option<Name>) -> &[u8]
    ensures { result.now ≡ name_text name.now }
{
    match name {
        None => b"",
        Some(name) => name.bytes(),
    }
}

fn name_of(ifaces: &[Iface], ifc: u8) -> &[u8]
    ensures { result.now ≡ name_of ifaces.now ifc }
{
    match ifaces.get(ifc as usize) {
        None => b"",
        Some(iface) => name_text(&iface.name),
    }
}

/// Appends the name of the interface with this number; nothing where it has none.
pub(crate) fn push_name_of(out: &mut Vec<u8>, ifaces: &[Iface], ifc: u8) -> Result<(), AllocError>
    ensures { OnOk result (out.new.items ≡ out.old.items ++ name_of ifaces.now ifc) }
{
    push_bytes(out, name_of(ifaces, ifc))
}

/// Appends source and destination.
#[tactic(auto, unfolding(crate::specs::Texts::header_text))]
pub(crate) fn push_header(out: &mut Vec<u8>, header: Header) -> Result<(), AllocError>
    ensures { OnOk result (out.new.items ≡ out.old.items ++ header_text header) }
{
    push_address_port(out, header.src, header.sport)?;
    push_bytes(out, b" > ")?;
    push_address_port(out, header.dst, header.dport)?;
    Ok(())
}

#[tactic(auto, unfolding(crate::specs::Texts::place_text))]
fn push_place(out: &mut Vec<u8>, place: Option<NatPlace>) -> Result<(), AllocError>
    ensures { OnOk result (out.new.items ≡ out.old.items ++ place_text place) }
{
    match place {
        None => push_bytes(out, b"-"),
        Some(place) => {
            push_number(out, u64::from(place.section))?;
            push_bytes(out, b".")?;
            push_number(out, u64::from(place.place))?;
            Ok(())
        }
    }
}

#[tactic(auto, unfolding(crate::specs::Texts::route_text))]
fn push_route(out: &mut Vec<u8>, route: Route) -> Result<(), AllocError>
    ensures { OnOk result (out.new.items ≡ out.old.items ++ route_text route) }
{
    match route {
        Route::Connected => push_bytes(out, b"connected"),
        Route::Static(line) => {
            push_bytes(out, b"static ")?;
            push_number(out, u64::from(line))?;
            Ok(())
        }
        Route::Nat => push_bytes(out, b"nat"),
    }
}

fn push_list_line(out: &mut Vec<u8>, name: &Name, line: u32) -> Result<(), AllocError>
    ensures { OnOk result (out.new.items ≡ out.old.items ++ (name.now ++ codes " " ++ decimal line)) }
{
    push_bytes(out, name.bytes())?;
    push_bytes(out, b" ")?;
    push_number(out, u64::from(line))?;
    Ok(())
}

#[tactic(auto, unfolding(crate::specs::Texts::access_text))]
fn push_access(out: &mut Vec<u8>, access: &AccessBy) -> Result<(), AllocError>
    ensures { OnOk result (out.new.items ≡ out.old.items ++ access_text access.now) }
{
    match access {
        AccessBy::NoList => push_bytes(out, b"-"),
        AccessBy::Level => push_bytes(out, b"level"),
        AccessBy::List { name, line } => push_list_line(out, name, *line),
        AccessBy::Global { name, line } => {
            push_bytes(out, b"global ")?;
            push_list_line(out, name, *line)?;
            Ok(())
        }
        AccessBy::Implicit => push_bytes(out, b"implicit"),
    }
}

fn source_place(source: &SourceMap) -> Option<NatPlace>
    ensures { result ≡ source_place source.now }
{
    match source {
        SourceMap::Plain => None,
        SourceMap::Static { place, .. } => Some(*place),
        SourceMap::Dynamic { place, .. } => Some(*place),
    }
}

#[tactic(auto, unfolding(crate::specs::Texts::reason_word))]
fn reason_word(reason: &DropReason) -> &'static [u8]
    ensures { result.now ≡ reason_word reason.now }
{
    match reason {
        DropReason::NotSyn => b"not-syn",
        DropReason::ToTheBox { .. } => b"to-the-box",
        DropReason::NoRoute => b"no-route",
        DropReason::InterInterface => b"inter-interface",
        DropReason::IntraInterface => b"intra-interface",
        DropReason::AclIn { .. } => b"acl-in",
        DropReason::Level => b"level",
        DropReason::NatProto { .. } => b"nat-proto",
        DropReason::ReversePath { .. } => b"reverse-path",
        DropReason::AclOut { .. } => b"acl-out",
        DropReason::ConnLimit => b"conn-limit",
        DropReason::PoolExhausted { .. } => b"pool-exhausted",
        DropReason::Collision { .. } => b"collision",
    }
}

/// Appends the word of a drop.
pub(crate) fn push_reason_word(out: &mut Vec<u8>, reason: &DropReason) -> Result<(), AllocError>
    ensures { OnOk result (out.new.items ≡ out.old.items ++ reason_word reason.now) }
{
    push_bytes(out, reason_word(reason))
}

#[tactic(auto, unfolding(crate::specs::Texts::collision_text))]
fn push_collision(out: &mut Vec<u8>, id: Option<u64>) -> Result<(), AllocError>
    ensures { OnOk result (out.new.items ≡ out.old.items ++ collision_text id) }
{
    match id {
        None => push_bytes(out, b"self"),
        Some(id) => push_number(out, id),
    }
}

fn push_two_places(
    out: &mut Vec<u8>,
    first: Option<NatPlace>,
    second: Option<NatPlace>,
) -> Result<(), AllocError>
    ensures { OnOk result (out.new.items ≡ out.old.items ++ (codes " " ++ place_text first ++ codes " " ++ place_text second)) }
{
    push_bytes(out, b" ")?;
    push_place(out, first)?;
    push_bytes(out, b" ")?;
    push_place(out, second)?;
    Ok(())
}

fn push_after_space(out: &mut Vec<u8>, access: &AccessBy) -> Result<(), AllocError>
    ensures { OnOk result (out.new.items ≡ out.old.items ++ (codes " " ++ access_text access.now)) }
{
    push_bytes(out, b" ")?;
    push_access(out, access)?;
    Ok(())
}

fn push_one_place(out: &mut Vec<u8>, place: NatPlace) -> Result<(), AllocError>
    ensures { OnOk result (out.new.items ≡ out.old.items ++ (codes " " ++ place_text (Some place))) }
{
    push_bytes(out, b" ")?;
    push_place(out, Some(place))?;
    Ok(())
}

/// Appends a space and the detail of a drop, where it has one.
#[tactic(auto, unfolding(crate::specs::Texts::reason_detail))]
pub(crate) fn push_reason_detail(
    out: &mut Vec<u8>,
    ifaces: &[Iface],
    reason: &DropReason,
) -> Result<(), AllocError>
    ensures { OnOk result (out.new.items ≡ out.old.items ++ reason_detail ifaces.now reason.now) }
{
    match reason {
        DropReason::ToTheBox { ifc } => {
            push_bytes(out, b" ")?;
            push_name_of(out, ifaces, *ifc)?;
            Ok(())
        }
        DropReason::AclIn { by } | DropReason::AclOut { by } => push_after_space(out, by),
        DropReason::NatProto { place } | DropReason::PoolExhausted { place } => push_one_place(
            out, *place,
        ),
        DropReason::ReversePath { unnat, reply } => push_two_places(out, *unnat, *reply),
        DropReason::Collision { id } => {
            push_bytes(out, b" ")?;
            push_collision(out, *id)?;
            Ok(())
        }
        DropReason::NotSyn
        | DropReason::NoRoute
        | DropReason::InterInterface
        | DropReason::IntraInterface
        | DropReason::Level
        | DropReason::ConnLimit => Ok(()),
    }
}

#[tactic(auto, unfolding(crate::specs::Texts::way_text))]
fn push_way(out: &mut Vec<u8>, decision: &Decision) -> Result<(), AllocError>
    ensures { OnOk result (out.new.items ≡ out.old.items ++ way_text decision.now) }
{
    push_bytes(out, b" unnat ")?;
    push_place(out, decision.unnat)?;
    push_bytes(out, b" route ")?;
    push_route(out, decision.route)?;
    Ok(())
}

#[tactic(auto, unfolding(crate::specs::Texts::sides_text))]
fn push_sides(out: &mut Vec<u8>, decision: &Decision) -> Result<(), AllocError>
    ensures { OnOk result (out.new.items ≡ out.old.items ++ sides_text decision.now) }
{
    push_bytes(out, b" in ")?;
    push_access(out, &decision.inbound)?;
    push_bytes(out, b" nat ")?;
    push_place(out, source_place(&decision.source))?;
    push_bytes(out, b" out ")?;
    push_access(out, &decision.outbound)?;
    Ok(())
}

/// Appends by which policy, translations, route and lists a flow goes.
#[tactic(auto, unfolding(crate::specs::Texts::decision_text))]
pub(crate) fn push_decision(
    out: &mut Vec<u8>,
    policy: u64,
    decision: &Decision,
) -> Result<(), AllocError>
    ensures { OnOk result (out.new.items ≡ out.old.items ++ decision_text policy decision.now) }
{
    push_bytes(out, b" policy ")?;
    push_number(out, policy)?;
    push_way(out, decision)?;
    push_sides(out, decision)?;
    Ok(())
}
