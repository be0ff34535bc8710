//! The boxes of a list as regions with the numbers of their lines.
ghost use Rattle.std.specs.Prelude.{◌≡◌, ℕ, map, IfOk};
ghost use Rattle.asa_base.specs.declared.flow.Packet.{Packet as AnyPacket};
ghost use Rattle.asa_shadow.specs.Matches as spec;

use crate::region::Region;
use asa_base::LineBox;
use asa_text::Items;
use std::alloc::{AllocError, Global};

/// A box of a list.
#[derive(Clone, Copy, Debug)]
pub struct BoxAt {
    /// The packets that the box holds.
    pub region: Region,
    /// The number of its line in the list, from 1.
    pub line: u32,
}

/// A box with its region.
fn box_at(line_box: &LineBox) -> BoxAt
    ensures { result ≡ spec.box_at line_box.now }
{
    BoxAt {
        region: Region::of_box(line_box),
        line: line_box.line,
    }
}

/// The boxes with their regions.
fn all_regions(alloc: Global, boxes: &[LineBox]) -> Result<Vec<BoxAt>, AllocError>
    ensures { IfOk result (λ all. all.items ≡ map spec.box_at boxes.now) }
{
    boxes.iter().map(|b| box_at(b)).collect(alloc)
}

/// The regions of the boxes of a list, in their order. Over them the first match of a packet is the same as over the boxes.
#[tactic(auto, using(crate::proofs::MatchLaws::first_regions))]
pub fn regions(alloc: Global, boxes: &[LineBox]) -> Result<Items<BoxAt>, AllocError>
    ensures value { IfOk result (λ all. all ≡ map spec.box_at boxes.now) }
    ensures first { IfOk result (λ all. (line : ℕ) (p : AnyPacket) → spec.IsInRange p → spec.is_first all line p ≡ spec.is_first_box boxes.now line p) }
{
    let all = all_regions(alloc, boxes)?;
    Ok(Items::from(all))
}
