//! The finding of a line: whether its cut trees have a leaf with a packet.
ghost use Rattle.std.specs.Prelude.{◌≡◌, ℕ, ◌+◌, ◌-◌, ◌<◌, ◌≤◌, ◌^◌, ◌++◌, Bool, true, IfOk, OnOk, IfSome, IfNone, length, nat_lt};
ghost use Rattle.std.specs.List.{flat_map};
ghost use Rattle.asa_shadow.specs.Certificates.{boxes_of_line};
ghost use Rattle.asa_shadow.specs.CutTrees as tree;
ghost use Rattle.asa_shadow.specs.Regions.{is_region};
ghost use Rattle.asa_shadow.specs.Walks as spec;

use crate::box_at::BoxAt;
use crate::finding::Finding;
use crate::node::Node;
use crate::region::Region;
use crate::walk::{Found, Part, Walk, numbers_meeting, walk_tree};
use asa_text::Items;
use std::alloc::{AllocError, Global};

/// The trees of a line, and what was found of them.
#[derive(Drop)]
struct LineTrees {
    found: Found,
    trees: Items<Items<Node>>,
}

/// Appends the number of a box, if it is of an earlier line.
fn push_earlier(
    numbers: &mut Items<u32>,
    found: &BoxAt,
    line: u32,
    number: u32,
) -> Result<(), AllocError>
    ensures { OnOk result (numbers.new ≡ numbers.old ++ spec.number_if (nat_lt found.now.line line) number) }
{
    if found.line < line {
        numbers.push(number)?;
    }
    Ok(())
}

/// The numbers of the boxes of earlier lines.
fn earlier_numbers(alloc: Global, boxes: &[BoxAt], line: u32) -> Result<Items<u32>, AllocError>
    requires { length boxes.now < 2 ^ 32 - 1 }
    ensures { IfOk result (λ ns. spec.named boxes.now ns ≡ tree.earlier_from line 1 boxes.now) }
{
    let mut numbers = Items::new(alloc);
    for (i, found) in boxes.iter().enumerate() {
        push_earlier(&mut numbers, found, line, i as u32 + 1)?;
    }
    Ok(numbers)
}

/// The boxes of a line, in order.
fn line_boxes(alloc: Global, boxes: &[BoxAt], line: u32) -> Result<Vec<BoxAt>, AllocError>
    ensures { IfOk result (λ found. found.items ≡ boxes_of_line boxes.now line) }
{
    let mut found = Vec::new(alloc);
    for line_box in boxes {
        if line_box.line == line {
            found.push(*line_box)?;
        }
    }
    Ok(found)
}

/// The region of a box with the boxes that may meet it, among those with these numbers.
fn whole_part(
    alloc: Global,
    boxes: &[BoxAt],
    earlier: &[u32],
    region: &Region,
) -> Result<Part, AllocError>
    ensures { IfOk result (λ part. spec.part_tree boxes.now part ≡ tree.tree_of (spec.named boxes.now earlier.now) region.now) }
{
    let earlier = numbers_meeting(alloc, boxes, earlier, region)?;
    Ok(Part {
        region: *region,
        earlier,
    })
}

/// Walks the tree of the region of a box, over the boxes with these numbers.
fn walk_box(
    alloc: Global,
    boxes: &[BoxAt],
    earlier: &[u32],
    region: &Region,
    limit: u64,
    found: Found,
) -> Result<Option<Walk>, AllocError>
    requires { found.cuts < limit }
    ensures walked { IfOk result (λ o. IfSome o (λ walk. spec.IsWalked (tree.tree_of (spec.named boxes.now earlier.now) region.now) found walk.nodes.items walk.found)) }
    ensures below { IfOk result (λ o. IfSome o (λ walk. walk.found.cuts < limit)) }
    ensures reached { IfOk result (λ o. IfNone o (limit ≤ found.cuts + tree.cuts_of (tree.tree_of (spec.named boxes.now earlier.now) region.now))) }
{
    let part = whole_part(alloc, boxes, earlier, region)?;
    walk_tree(alloc, boxes, part, limit, found)
}

/// The trees of the regions of boxes over the boxes with these numbers, or None where they have as many cuts as the limit
/// or more.
fn walk_boxes(
    alloc: Global,
    boxes: &[BoxAt],
    earlier: &[u32],
    starts: &[BoxAt],
    limit: u64,
) -> Result<Option<LineTrees>, AllocError>
    requires { 1 ≤ limit }
    ensures told { IfOk result (λ o. IfSome o (λ t. spec.IsTold (spec.trees_over (spec.named boxes.now earlier.now) starts.now) t.found t.trees)) }
    ensures below { IfOk result (λ o. IfSome o (λ t. t.found.cuts < limit)) }
    ensures reached { IfOk result (λ o. IfNone o (limit ≤ tree.cuts_of (flat_map (λ t. t) (spec.trees_over (spec.named boxes.now earlier.now) starts.now)))) }
{
    let mut found = Found {
        cuts: 0,
        packet: None,
    };
    let mut trees = Items::new(alloc);
    for start in starts {
        match walk_box(alloc, boxes, earlier, &start.region, limit, found)? {
            Some(walk) => {
                found = walk.found;
                trees.push(Items::from(walk.nodes))?;
            }
            None => return Ok(None),
        }
    }
    Ok(Some(LineTrees { found, trees }))
}

/// The trees of a line, or None where they have as many cuts as the limit or more.
fn line_trees(
    alloc: Global,
    boxes: &[BoxAt],
    line: u32,
    limit: u64,
) -> Result<Option<LineTrees>, AllocError>
    requires few { length boxes.now < 2 ^ 32 - 1 }
    requires limit { 1 ≤ limit }
    ensures told { IfOk result (λ o. IfSome o (λ t. spec.IsTold (tree.trees_of boxes.now line) t.found t.trees)) }
    ensures below { IfOk result (λ o. IfSome o (λ t. t.found.cuts < limit)) }
    ensures reached { IfOk result (λ o. IfNone o (limit ≤ tree.cuts_of (flat_map (λ t. t) (tree.trees_of boxes.now line)))) }
{
    let earlier = earlier_numbers(alloc, boxes, line)?;
    let starts = line_boxes(alloc, boxes, line)?;
    walk_boxes(alloc, boxes, earlier.as_slice(), starts.as_slice(), limit)
}

/// Tells the prover that each box has a region; it does nothing.
fn tell_regions(boxes: &[BoxAt])
    ensures { (i : ℕ) → i < length boxes.now → is_region (spec.region_at boxes.now (i + 1)) ≡ true }
{
    for found in boxes {
        found.region.tell();
    }
}

/// The finding of a line.
#[tactic(auto, unfolding(crate::specs::CutTrees::finding_of))]
fn find(alloc: Global, boxes: &[BoxAt], line: u32, limit: u64) -> Result<Finding, AllocError>
    requires few { length boxes.now < 2 ^ 32 - 1 }
    requires limit { 1 ≤ limit }
    ensures { IfOk result (λ f. f ≡ tree.finding_of boxes.now line limit) }
{
    let Some(LineTrees { found, trees }) = line_trees(alloc, boxes, line, limit)? else {
        return Ok(Finding::Unknown { cuts: limit });
    };
    match found.packet {
        Some(packet) => Ok(Finding::No { packet }),
        None => Ok(Finding::Yes {
            cuts: found.cuts,
            trees,
        }),
    }
}

/// The finding of a line of a list: Unknown exactly where its cut trees have `limit` cuts or more; else No with the packet
/// of the first leaf that has one, in the order of the trees and within a tree in preorder; else Yes with the trees and
/// their cuts. After Yes `check_trees` accepts the trees; after No the packet has the line as its first match.
pub fn judge(alloc: Global, boxes: &[BoxAt], line: u32, limit: u64) -> Result<Finding, AllocError>
    requires few { length boxes.now < 2 ^ 32 - 1 }
    requires limit { 1 ≤ limit }
    ensures value { IfOk result (λ f. f ≡ tree.finding_of boxes.now line limit) }
    ensures accepted { IfOk result (λ f. tree.IsAccepted boxes.now line f) }
    ensures matched { IfOk result (λ f. tree.IsMatched boxes.now line f) }
{
    tell_regions(boxes);
    let finding = find(alloc, boxes, line, limit)?;
    Ok(finding)
}
