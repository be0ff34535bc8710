//! The boxes of a list.
ghost use Rattle.std.specs.Prelude.{◌≡◌, ℕ, ◌+◌, ◌^◌, ◌-◌, ◌≤◌, ◌<◌, ◌++◌, Bool, true, IfOk, OnOk, map, flat_map, length, sum_by};
ghost use Rattle.asa_acl_boxes.specs.Boxes as spec;
ghost use Rattle.asa_acl_boxes.specs.Pairs as pairs;

use crate::expansion::{ranges, services};
use crate::pairs::{range_count, service_count};
use asa_acl::{Ace, AclLine, HeldLine};
use asa_base::{LineBox, Meaning, Range, Service};
use asa_text::Items;
use std::alloc::{AllocError, Global};

/// The number of a list line, and whether it permits.
#[derive(Clone, Copy, Debug, PartialEq, Eq)]
struct Entry {
    line: u32,
    permit: bool,
}

/// Appends a box for each service.
fn push_services(
    boxes: &mut Vec<LineBox>,
    entry: Entry,
    source: Range,
    dest: Range,
    services: &[Service],
) -> Result<(), AllocError>
    ensures { OnOk result (boxes.new.items ≡ boxes.old.items ++ map (λ v. spec.box_of entry.line entry.permit source dest v) services.now) }
{
    for service in services {
        boxes.push(LineBox {
            source,
            dest,
            service: *service,
            line: entry.line,
            permit: entry.permit,
        })?;
    }
    Ok(())
}

/// Appends a box for each destination with each service.
fn push_dests(
    boxes: &mut Vec<LineBox>,
    entry: Entry,
    source: Range,
    dests: &[Range],
    services: &[Service],
) -> Result<(), AllocError>
    ensures { OnOk result (boxes.new.items ≡ boxes.old.items ++ flat_map (λ d. map (λ v. spec.box_of entry.line entry.permit source d v) services.now) dests.now) }
{
    for dest in dests {
        push_services(boxes, entry, source, *dest, services)?;
    }
    Ok(())
}

/// Appends a box for each source with each destination with each service.
fn push_sources(
    boxes: &mut Vec<LineBox>,
    entry: Entry,
    sources: &[Range],
    dests: &[Range],
    services: &[Service],
) -> Result<(), AllocError>
    ensures { OnOk result (boxes.new.items ≡ boxes.old.items ++ spec.all_boxes entry.line entry.permit sources.now dests.now services.now) }
{
    for source in sources {
        push_dests(boxes, entry, *source, dests, services)?;
    }
    Ok(())
}

/// Whether the entry is inactive, or has no source, no destination or no service, and so no box.
fn is_boxless<M: Meaning>(alloc: Global, meaning: &M, ace: &Ace) -> Result<bool, AllocError>
    ensures { IfOk result (λ b. b ≡ spec.is_boxless (M.meanings meaning.now) ace.now) }
{
    if !ace.active {
        return Ok(true);
    }
    if range_count(meaning, &ace.source) == 0 || range_count(meaning, &ace.dest) == 0 {
        return Ok(true);
    }
    let services = service_count(alloc, meaning, &ace.service)?;
    Ok(services == 0)
}

/// Appends the boxes of an active entry.
#[tactic(auto, unfolding(crate::specs::Boxes::entry_boxes))]
fn push_active<M: Meaning>(
    alloc: Global,
    meaning: &M,
    boxes: &mut Vec<LineBox>,
    line: u32,
    ace: &Ace,
) -> Result<(), AllocError>
    requires { ace.now.active ≡ true }
    ensures { OnOk result (boxes.new.items ≡ boxes.old.items ++ spec.entry_boxes (M.meanings meaning.now) line ace.now) }
{
    let sources = ranges(alloc, meaning, &ace.source)?;
    let dests = ranges(alloc, meaning, &ace.dest)?;
    let services = services(alloc, meaning, &ace.service)?;
    let entry = Entry {
        line,
        permit: ace.permit,
    };
    push_sources(
        boxes,
        entry,
        sources.as_slice(),
        dests.as_slice(),
        services.as_slice(),
    )
}

/// Appends the boxes of an entry. One without boxes isn't expanded.
#[tactic(auto, using(crate::proofs::BoxLaws::boxless_has_none))]
fn push_entry<M: Meaning>(
    alloc: Global,
    meaning: &M,
    boxes: &mut Vec<LineBox>,
    line: u32,
    ace: &Ace,
) -> Result<(), AllocError>
    ensures { OnOk result (boxes.new.items ≡ boxes.old.items ++ spec.entry_boxes (M.meanings meaning.now) line ace.now) }
{
    if is_boxless(alloc, meaning, ace)? {
        return Ok(());
    }
    push_active(alloc, meaning, boxes, line, ace)
}

/// Appends the boxes of a line.
#[tactic(auto, unfolding(crate::specs::Boxes::line_boxes))]
fn push_line<M: Meaning>(
    alloc: Global,
    meaning: &M,
    boxes: &mut Vec<LineBox>,
    line: u32,
    item: &AclLine,
) -> Result<(), AllocError>
    ensures { OnOk result (boxes.new.items ≡ boxes.old.items ++ spec.line_boxes (M.meanings meaning.now) line item.now) }
{
    match item {
        AclLine::Ace(ace) => push_entry(alloc, meaning, boxes, line, ace),
        AclLine::Remark(_) => Ok(()),
    }
}

/// The boxes of lines in order.
#[tactic(auto, unfolding(crate::specs::Boxes::boxes_from))]
fn all_boxes<M: Meaning>(
    alloc: Global,
    meaning: &M,
    lines: &[HeldLine],
) -> Result<Vec<LineBox>, AllocError>
    requires { length lines.now ≤ 65536 }
    ensures { IfOk result (λ v. v.items ≡ spec.boxes_of (M.meanings meaning.now) lines.now) }
{
    let mut boxes = Vec::new(alloc);
    for (i, held) in lines.iter().enumerate() {
        push_line(alloc, meaning, &mut boxes, i as u32 + 1, held.line())?;
    }
    Ok(boxes)
}

/// The boxes of a list in the order of its lines; of a line source by source, in it destination by destination, in it
/// service by service. A remark and an inactive line have none, and keep their numbers.
#[tactic(auto, using(crate::proofs::BoxLaws::pairs_told))]
pub fn boxes<M: Meaning>(
    alloc: Global,
    meaning: &M,
    lines: &[HeldLine],
) -> Result<Items<LineBox>, AllocError>
    requires { length lines.now ≤ 65536 }
    ensures value { IfOk result (λ bs. bs ≡ spec.boxes_of (M.meanings meaning.now) lines.now) }
    ensures pairs { IfOk result (λ bs. sum_by pairs.box_pairs bs ≡ pairs.list_pairs (M.meanings meaning.now) lines.now) }
{
    let boxes = all_boxes(alloc, meaning, lines)?;
    Ok(Items::from(boxes))
}
