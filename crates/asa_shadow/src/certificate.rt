//! The checker of certificates: trees that show that no packet first matches a line.
ghost use Rattle.std.specs.Prelude.{◌≡◌, ℕ, ◌∷◌, [], Bool, false, IsTrue, IfOk, reverse};
ghost use Rattle.asa_base.specs.declared.flow.Packet.{Packet as AnyPacket};
ghost use Rattle.asa_shadow.specs.Certificates as spec;
ghost use Rattle.asa_shadow.specs.Matches.{is_first};

use crate::box_at::BoxAt;
use crate::node::Node;
use crate::region::{Cut, Region};
use asa_text::Items;
use std::alloc::{AllocError, Global};

/// Whether the box with this number, from 1, is there, is of an earlier line, and contains the region.
fn is_covered(boxes: &[BoxAt], line: u32, region: &Region, by: u32) -> bool
    ensures { result ≡ spec.is_covered boxes.now line region.now by }
{
    if by == 0 {
        return false;
    }
    match boxes.get(by as usize - 1) {
        Some(found) => found.line < line && found.region.contains(region),
        None => false,
    }
}

/// Whether the nodes are a tree of the region.
#[tactic(auto, using(crate::proofs::CertificateLaws::no_region_left))]
fn is_tree(
    alloc: Global,
    boxes: &[BoxAt],
    line: u32,
    region: &Region,
    nodes: &[Node],
) -> Result<bool, AllocError>
    ensures { IfOk result (λ b. b ≡ spec.are_trees boxes.now line (region.now ∷ []) nodes.now) }
{
    let mut pending = Vec::new(alloc);
    pending.push(*region)?;
    for node in nodes {
        let region = match pending.pop() {
            Some(region) => region,
            None => return Ok(false),
        };
        match *node {
            Node::Cut { dim, at } => {
                let cut = Cut { dim, at };
                if !region.is_inside(cut) {
                    return Ok(false);
                }
                pending.push(region.upper(cut))?;
                pending.push(region.lower(cut))?;
            }
            Node::Covered { by } => {
                if !is_covered(boxes, line, &region, by) {
                    return Ok(false);
                }
            }
        }
    }
    Ok(pending.is_empty())
}

/// Whether there is one tree for each box of the line.
#[tactic(auto, unfolding(crate::specs::Certificates::is_certificate))]
fn are_trees(
    alloc: Global,
    boxes: &[BoxAt],
    line: u32,
    trees: &[Items<Node>],
) -> Result<bool, AllocError>
    ensures { IfOk result (λ b. b ≡ spec.is_certificate boxes.now line trees.now) }
{
    let mut next = 0;
    for found in boxes {
        if found.line == line {
            let Some(tree) = trees.get(next) else {
                return Ok(false);
            };
            if !is_tree(alloc, boxes, line, &found.region, tree.as_slice())? {
                return Ok(false);
            }
            next += 1;
        }
    }
    Ok(next == trees.len())
}

/// Whether the trees are a certificate for the line: one tree for each of its boxes, each cut inside its region, and each
/// leaf's region inside its box, which is of an earlier line. Then no packet has the line as its first match. The checker
/// takes any trees, whoever made them.
#[tactic(auto, using(crate::proofs::CertificateLaws::certificate_sound))]
pub fn check_trees(
    alloc: Global,
    boxes: &[BoxAt],
    line: u32,
    trees: &[Items<Node>],
) -> Result<bool, AllocError>
    ensures value { IfOk result (λ b. b ≡ spec.is_certificate boxes.now line trees.now) }
    ensures sound { IfOk result (λ b. IsTrue b → (p : AnyPacket) → is_first boxes.now line p ≡ false) }
{
    are_trees(alloc, boxes, line, trees)
}
