//! A walk over the cut tree of a region, with a stack of the parts that wait.
ghost use Rattle.std.specs.Prelude.{◌≡◌, ℕ, ◌+◌, ◌-◌, ◌<◌, ◌≤◌, ◌^◌, ◌∷◌, ◌++◌, [], Bool, true, IsTrue, IfOk, OnOk, IfSome, IfNone, Some, None, filter, length, nat_le, nat_lt, option_map};
ghost use Rattle.asa_shadow.specs.declared.node.Node.TheVariants as node;
ghost use Rattle.asa_shadow.specs.CutTrees as tree;
ghost use Rattle.asa_shadow.specs.Regions as regions;
ghost use Rattle.asa_shadow.specs.Walks as spec;

use crate::box_at::BoxAt;
use crate::node::Node;
use crate::region::{Cut, Region};
use asa_base::Packet;
use asa_text::Items;
use std::alloc::{AllocError, Global};

/// A part of a region that waits, with the numbers of the earlier boxes that may meet it.
#[derive(Drop)]
pub(crate) struct Part {
    pub(crate) region: Region,
    pub(crate) earlier: Items<u32>,
}

/// What was found of cut trees: how many cuts they have, and the packet of their first leaf with one.
#[derive(Clone, Copy)]
pub(crate) struct Found {
    pub(crate) cuts: u64,
    pub(crate) packet: Option<Packet>,
}

/// The parts that wait, the next one last, and what was found.
#[derive(Drop)]
pub(crate) struct Walk {
    pub(crate) waiting: Vec<Part>,
    pub(crate) nodes: Vec<Node>,
    pub(crate) found: Found,
}

/// Whether the box with this number meets the region.
#[tactic(auto, using(crate::proofs::WalkLaws::none_meets))]
fn meets(boxes: &[BoxAt], number: u32, region: &Region) -> bool
    ensures { result ≡ regions.meets (spec.region_at boxes.now number) region.now }
{
    region.tell();
    match boxes.get(number.saturating_sub(1) as usize) {
        Some(found) => found.region.meets(region),
        None => false,
    }
}

/// Whether the box with this number has numbers up to the cut.
fn reaches_below(boxes: &[BoxAt], number: u32, cut: Cut) -> bool
    requires low { 1 ≤ cut.dim }
    requires high { cut.dim ≤ 7 }
    ensures { result ≡ nat_le (regions.span_in (spec.region_at boxes.now number) cut.dim).low cut.at }
{
    match boxes.get(number.saturating_sub(1) as usize) {
        Some(found) => found.region.span_in(cut.dim).low <= cut.at,
        None => true,
    }
}

/// Whether the box with this number has numbers above the cut.
fn reaches_above(boxes: &[BoxAt], number: u32, cut: Cut) -> bool
    requires low { 1 ≤ cut.dim }
    requires high { cut.dim ≤ 7 }
    ensures { result ≡ nat_lt cut.at (regions.span_in (spec.region_at boxes.now number) cut.dim).high }
{
    match boxes.get(number.saturating_sub(1) as usize) {
        Some(found) => cut.at < found.region.span_in(cut.dim).high,
        None => false,
    }
}

/// The first bound of the box with this number that crosses a region which it meets; none where it contains the region.
fn cut_by(boxes: &[BoxAt], number: u32, region: &Region) -> Option<Cut>
    requires { regions.meets (spec.region_at boxes.now number) region.now ≡ true }
    ensures value { result ≡ tree.cut_of (spec.region_at boxes.now number) region.now }
    ensures inside { IfSome result (λ c. IsTrue (regions.is_inside region.now c)) }
{
    match boxes.get(number.saturating_sub(1) as usize) {
        Some(found) => region.cut_by(&found.region),
        None => None,
    }
}

/// The numbers of the boxes that meet a region.
pub(crate) fn numbers_meeting(
    alloc: Global,
    boxes: &[BoxAt],
    numbers: &[u32],
    region: &Region,
) -> Result<Items<u32>, AllocError>
    ensures { IfOk result (λ ns. ns ≡ filter (λ n. regions.meets (spec.region_at boxes.now n) region.now) numbers.now) }
{
    let mut met = Items::new(alloc);
    for number in numbers {
        if meets(boxes, *number, region) {
            met.push(*number)?;
        }
    }
    Ok(met)
}

/// The numbers of the boxes that have numbers up to a cut.
fn numbers_below(
    alloc: Global,
    boxes: &[BoxAt],
    numbers: &[u32],
    cut: Cut,
) -> Result<Items<u32>, AllocError>
    requires low { 1 ≤ cut.dim }
    requires high { cut.dim ≤ 7 }
    ensures { IfOk result (λ ns. ns ≡ filter (λ n. nat_le (regions.span_in (spec.region_at boxes.now n) cut.dim).low cut.at) numbers.now) }
{
    let mut below = Items::with_capacity(alloc, numbers.len())?;
    for number in numbers {
        if reaches_below(boxes, *number, cut) {
            below.push(*number)?;
        }
    }
    Ok(below)
}

/// The numbers of the boxes that have numbers above a cut.
fn numbers_above(
    alloc: Global,
    boxes: &[BoxAt],
    numbers: &[u32],
    cut: Cut,
) -> Result<Items<u32>, AllocError>
    requires low { 1 ≤ cut.dim }
    requires high { cut.dim ≤ 7 }
    ensures { IfOk result (λ ns. ns ≡ filter (λ n. nat_lt cut.at (regions.span_in (spec.region_at boxes.now n) cut.dim).high) numbers.now) }
{
    let mut above = Items::with_capacity(alloc, numbers.len())?;
    for number in numbers {
        if reaches_above(boxes, *number, cut) {
            above.push(*number)?;
        }
    }
    Ok(above)
}

/// The number of the first box that meets a region.
fn first_meeting(boxes: &[BoxAt], numbers: &[u32], region: &Region) -> Option<u32>
    ensures value { option_map (λ n. tree.numbered n (spec.region_at boxes.now n)) result ≡ tree.first_meeting (spec.named boxes.now numbers.now) region.now }
    ensures meeting { IfSome result (λ n. regions.meets (spec.region_at boxes.now n) region.now ≡ true) }
{
    for number in numbers {
        if meets(boxes, *number, region) {
            return Some(*number);
        }
    }
    None
}

/// The part of a part up to a cut.
fn lower_part(alloc: Global, boxes: &[BoxAt], part: &Part, cut: Cut) -> Result<Part, AllocError>
    requires { regions.is_inside part.now.region cut ≡ true }
    ensures { IfOk result (λ low. spec.part_tree boxes.now low ≡ tree.tree_of (spec.named boxes.now part.now.earlier) (regions.lower part.now.region cut)) }
{
    let earlier = numbers_below(alloc, boxes, part.earlier.as_slice(), cut)?;
    Ok(Part {
        region: part.region.lower(cut),
        earlier,
    })
}

/// The part of a part above a cut.
fn upper_part(alloc: Global, boxes: &[BoxAt], part: &Part, cut: Cut) -> Result<Part, AllocError>
    requires { regions.is_inside part.now.region cut ≡ true }
    ensures { IfOk result (λ high. spec.part_tree boxes.now high ≡ tree.tree_of (spec.named boxes.now part.now.earlier) (regions.upper part.now.region cut)) }
{
    let earlier = numbers_above(alloc, boxes, part.earlier.as_slice(), cut)?;
    Ok(Part {
        region: part.region.upper(cut),
        earlier,
    })
}

impl Walk {
    /// Keeps the packet of a leaf, if it is the first with one.
    fn note_packet(&mut self, packet: Packet)
        ensures waiting { self.new.waiting.items ≡ self.old.waiting.items }
        ensures nodes { self.new.nodes.items ≡ self.old.nodes.items }
        ensures found { self.new.found ≡ record { cuts = self.old.found.cuts; packet = spec.or_later self.old.found.packet (Some packet) } }
    {
        if self.found.packet.is_none() {
            self.found.packet = Some(packet);
        }
    }

    /// Takes a leaf that no earlier box meets.
    fn take_free(&mut self, boxes: &[BoxAt], part: &Part)
        requires { tree.first_meeting (spec.named boxes.now part.now.earlier) part.now.region ≡ None }
        ensures { spec.Steps boxes.now part.now self.old self.new }
    {
        self.note_packet(part.region.least());
    }

    /// Takes a leaf that lies in the box with this number.
    fn take_covered(&mut self, boxes: &[BoxAt], part: &Part, number: u32) -> Result<(), AllocError>
        requires first { tree.first_meeting (spec.named boxes.now part.now.earlier) part.now.region ≡ Some (tree.numbered number (spec.region_at boxes.now number)) }
        requires uncut { tree.cut_of (spec.region_at boxes.now number) part.now.region ≡ None }
        ensures { OnOk result (spec.Steps boxes.now part.now self.old self.new) }
    {
        self.nodes.push(Node::Covered { by: number })?;
        Ok(())
    }

    /// Takes a cut by the box with this number; both parts wait, the lower one last.
    fn take_cut(
        &mut self,
        alloc: Global,
        boxes: &[BoxAt],
        part: &Part,
        number: u32,
        cut: Cut,
    ) -> Result<(), AllocError>
        requires first { tree.first_meeting (spec.named boxes.now part.now.earlier) part.now.region ≡ Some (tree.numbered number (spec.region_at boxes.now number)) }
        requires cut { tree.cut_of (spec.region_at boxes.now number) part.now.region ≡ Some cut }
        requires inside { regions.is_inside part.now.region cut ≡ true }
        requires few { self.old.found.cuts < 2 ^ 64 - 1 }
        ensures { OnOk result (spec.Steps boxes.now part.now self.old self.new) }
    {
        let low = lower_part(alloc, boxes, part, cut)?;
        let high = upper_part(alloc, boxes, part, cut)?;
        self.nodes.push(Node::Cut {
            dim: cut.dim,
            at: cut.at,
        })?;
        self.waiting.push(high)?;
        self.waiting.push(low)?;
        self.found.cuts += 1;
        Ok(())
    }

    /// Takes one place of the tree of a part.
    fn step(&mut self, alloc: Global, boxes: &[BoxAt], part: &Part) -> Result<(), AllocError>
        requires { self.old.found.cuts < 2 ^ 64 - 1 }
        ensures { OnOk result (spec.Steps boxes.now part.now self.old self.new) }
    {
        let Some(number) = first_meeting(boxes, part.earlier.as_slice(), &part.region) else {
            self.take_free(boxes, part);
            return Ok(());
        };
        match cut_by(boxes, number, &part.region) {
            Some(cut) => self.take_cut(alloc, boxes, part, number, cut),
            None => self.take_covered(boxes, part, number),
        }
    }
}

/// Walks the tree of a part to its end, or to the cut at which as many as the limit were found.
pub(crate) fn walk_tree(
    alloc: Global,
    boxes: &[BoxAt],
    root: Part,
    limit: u64,
    found: Found,
) -> Result<Option<Walk>, AllocError>
    requires { found.cuts < limit }
    ensures walked { IfOk result (λ o. IfSome o (λ walk. spec.IsWalked (spec.part_tree boxes.now root) found walk.nodes.items walk.found)) }
    ensures below { IfOk result (λ o. IfSome o (λ walk. walk.found.cuts < limit)) }
    ensures reached { IfOk result (λ o. IfNone o (limit ≤ found.cuts + tree.cuts_of (spec.part_tree boxes.now root))) }
{
    let mut waiting = Vec::new(alloc);
    waiting.push(root)?;
    let mut walk = Walk {
        waiting,
        nodes: Vec::new(alloc),
        found,
    };
    while let Some(part) = walk.waiting.pop() {
        walk.step(alloc, boxes, &part)?;
        if walk.found.cuts >= limit {
            return Ok(None);
        }
    }
    Ok(Some(walk))
}
