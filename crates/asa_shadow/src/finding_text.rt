//! Printing the finding of a line.
ghost use Rattle.std.specs.Prelude.{◌≡◌, ◌++◌, OnOk};
ghost use Rattle.std.specs.List.{flat_map};
ghost use Rattle.asa_shadow.specs.FindingTexts as spec;

use crate::finding::Finding;
use crate::node::Node;
use asa_base::{Name, Packet};
use asa_text::{Addr, Items, push_address, push_bytes, push_number};
use std::alloc::AllocError;

#[tactic(auto, unfolding(crate::specs::FindingTexts::node_text))]
fn push_node(out: &mut Vec<u8>, node: &Node) -> Result<(), AllocError>
    ensures { OnOk result (out.new.items ≡ out.old.items ++ spec.node_text node.now) }
{
    match *node {
        Node::Cut { dim, at } => {
            push_bytes(out, b" c")?;
            push_number(out, u64::from(dim))?;
            push_bytes(out, b":")?;
            push_number(out, u64::from(at))?;
            Ok(())
        }
        Node::Covered { by } => {
            push_bytes(out, b" b")?;
            push_number(out, u64::from(by))?;
            Ok(())
        }
    }
}

fn push_nodes(out: &mut Vec<u8>, nodes: &[Node]) -> Result<(), AllocError>
    ensures { OnOk result (out.new.items ≡ out.old.items ++ flat_map spec.node_text nodes.now) }
{
    for node in nodes {
        push_node(out, node)?;
    }
    Ok(())
}

#[tactic(auto, unfolding(crate::specs::FindingTexts::tree_text))]
fn push_tree(out: &mut Vec<u8>, nodes: &[Node]) -> Result<(), AllocError>
    ensures { OnOk result (out.new.items ≡ out.old.items ++ spec.tree_text nodes.now) }
{
    push_bytes(out, b"k")?;
    push_nodes(out, nodes)?;
    push_bytes(out, b"\n")?;
    Ok(())
}

fn push_trees(out: &mut Vec<u8>, trees: &[Items<Node>]) -> Result<(), AllocError>
    ensures { OnOk result (out.new.items ≡ out.old.items ++ flat_map spec.tree_text trees.now) }
{
    for tree in trees {
        push_tree(out, tree.as_slice())?;
    }
    Ok(())
}

#[tactic(auto, unfolding(crate::specs::FindingTexts::end_text))]
fn push_end(out: &mut Vec<u8>, addr: Addr, number: u16) -> Result<(), AllocError>
    ensures { OnOk result (out.new.items ≡ out.old.items ++ spec.end_text addr number) }
{
    push_address(out, addr)?;
    push_bytes(out, b" ")?;
    push_number(out, u64::from(number))?;
    Ok(())
}

#[tactic(auto, unfolding(crate::specs::FindingTexts::ends_text))]
fn push_ends(out: &mut Vec<u8>, packet: &Packet) -> Result<(), AllocError>
    ensures { OnOk result (out.new.items ≡ out.old.items ++ spec.ends_text packet.now) }
{
    push_end(out, packet.src, packet.sport)?;
    push_bytes(out, b" ")?;
    push_end(out, packet.dst, packet.dport)?;
    Ok(())
}

/// The identifier of an ICMP packet.
fn identifier(packet: &Packet) -> u16
    ensures { result ≡ spec.identifier packet.now }
{
    if packet.itype == 0 {
        packet.dport
    } else {
        packet.sport
    }
}

#[tactic(auto, unfolding(crate::specs::FindingTexts::icmp_text))]
fn push_icmp_numbers(out: &mut Vec<u8>, packet: &Packet) -> Result<(), AllocError>
    ensures { OnOk result (out.new.items ≡ out.old.items ++ spec.icmp_text packet.now) }
{
    push_number(out, u64::from(packet.itype))?;
    push_bytes(out, b" ")?;
    push_number(out, u64::from(packet.icode))?;
    push_bytes(out, b" ")?;
    push_number(out, u64::from(identifier(packet)))?;
    Ok(())
}

#[tactic(auto, unfolding(crate::specs::FindingTexts::icmp_words))]
fn push_icmp(out: &mut Vec<u8>, packet: &Packet) -> Result<(), AllocError>
    ensures { OnOk result (out.new.items ≡ out.old.items ++ spec.icmp_words packet.now) }
{
    push_bytes(out, b"icmp ")?;
    push_address(out, packet.src)?;
    push_bytes(out, b" ")?;
    push_icmp_numbers(out, packet)?;
    push_bytes(out, b" ")?;
    push_address(out, packet.dst)?;
    Ok(())
}

#[tactic(auto, unfolding(crate::specs::FindingTexts::other_words))]
fn push_other(out: &mut Vec<u8>, packet: &Packet) -> Result<(), AllocError>
    ensures { OnOk result (out.new.items ≡ out.old.items ++ spec.other_words packet.now) }
{
    push_number(out, u64::from(packet.proto))?;
    push_bytes(out, b" ")?;
    push_address(out, packet.src)?;
    push_bytes(out, b" ")?;
    push_address(out, packet.dst)?;
    Ok(())
}

#[tactic(auto, unfolding(crate::specs::FindingTexts::packet_words))]
fn push_packet(out: &mut Vec<u8>, packet: &Packet) -> Result<(), AllocError>
    ensures { OnOk result (out.new.items ≡ out.old.items ++ spec.packet_words packet.now) }
{
    if packet.proto == 6 {
        push_bytes(out, b"tcp ")?;
        push_ends(out, packet)?;
        push_bytes(out, b" -")?;
        return Ok(());
    }
    if packet.proto == 17 {
        push_bytes(out, b"udp ")?;
        push_ends(out, packet)?;
        return Ok(());
    }
    if packet.proto == 1 {
        return push_icmp(out, packet);
    }
    push_other(out, packet)
}

#[tactic(auto, unfolding(crate::specs::FindingTexts::head_text))]
fn push_head(out: &mut Vec<u8>, list: &Name, line: u32) -> Result<(), AllocError>
    ensures { OnOk result (out.new.items ≡ out.old.items ++ spec.head_text list.now line) }
{
    push_bytes(out, b"shadow ")?;
    push_bytes(out, list.bytes())?;
    push_bytes(out, b" ")?;
    push_number(out, u64::from(line))?;
    Ok(())
}

/// Appends what is said of a line of a list: that it is shadowed, with the number of cuts, and then each tree on a line of
/// its own; or the words of a packet that first matches it; or that it isn't known.
#[tactic(auto, unfolding(crate::specs::FindingTexts::finding_text))]
pub fn write_finding(
    list: &Name,
    line: u32,
    finding: &Finding,
    out: &mut Vec<u8>,
) -> Result<(), AllocError>
    ensures { OnOk result (out.new.items ≡ out.old.items ++ spec.finding_text list.now line finding.now) }
{
    push_head(out, list, line)?;
    match finding {
        Finding::Yes { cuts, trees } => {
            push_bytes(out, b" yes ")?;
            push_number(out, *cuts)?;
            push_bytes(out, b"\n")?;
            push_trees(out, trees.as_slice())?;
            Ok(())
        }
        Finding::No { packet } => {
            push_bytes(out, b" no ")?;
            push_packet(out, packet)?;
            push_bytes(out, b"\n")?;
            Ok(())
        }
        Finding::Unknown { .. } => {
            push_bytes(out, b" unknown\n")?;
            Ok(())
        }
    }
}
