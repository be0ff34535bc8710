//! Writing the findings of the lists of a configuration, each before the next is made.
ghost use Rattle.std.specs.Prelude.{◌≡◌, ◌+◌, ◌-◌, ◌^◌, ◌<◌, ◌≤◌, ◌∷◌, [], map, length, IfOk, Some, slice_get};
ghost use Rattle.asa_config.specs.Names.{boxes_under};
ghost use Rattle.asa_shadow.specs.Matches.{box_at};
ghost use Rattle.asa_main.specs.Outputs.{WritesTexts};
ghost use Rattle.asa_main.specs.Shadows as spec;

use crate::statuses::Status;
use crate::writing::write_text;
use asa_acl::{Acl, AclLine, HeldLine};
use asa_base::Name;
use asa_config::Config;
use asa_io::Sink;
use asa_shadow::{BoxAt, judge, regions, write_finding};
use asa_text::Items;
use std::alloc::{AllocError, Global};

/// With so many cuts or more a line isn't known to be shadowed or not.
const CUT_LIMIT: u64 = 1_000_000;

/// The text of what is found of a line of a list.
#[tactic(auto, unfolding(crate::specs::Shadows::line_text))]
fn line_text(alloc: Global, name: &Name, boxes: &[BoxAt], line: u32) -> Result<Vec<u8>, AllocError>
    requires { length boxes.now < 2 ^ 32 - 1 }
    ensures { IfOk result (λ out. out.items ≡ spec.line_text name.now boxes.now line) }
{
    let finding = judge(alloc, boxes, line, CUT_LIMIT)?;
    let mut out = Vec::new(alloc);
    write_finding(name, line, &finding, &mut out)?;
    Ok(out)
}

/// Whether the line takes part in decisions.
fn is_active(line: &AclLine) -> bool
    ensures { result ≡ spec.is_active line.now }
{
    match line {
        AclLine::Ace(ace) => ace.active,
        AclLine::Remark(_) => false,
    }
}

/// Judges a line and writes what is found of it.
#[tactic(auto, using(crate::proofs::WritingLaws::writes_one, crate::proofs::WritingLaws::writes_nothing))]
fn write_line<K: Sink>(
    alloc: Global,
    name: &Name,
    boxes: &[BoxAt],
    line: u32,
    output: &mut K,
    written: u64,
) -> Result<u64, Status>
    requires { length boxes.now < 2 ^ 32 - 1 }
    ensures writes { WritesTexts (spec.line_text name.now boxes.now line ∷ []) written (K.given output.old) (K.given output.new) (K.faults output.old) (K.faults output.new) result }
    ensures later { K.faults output.old ≤ K.faults output.new }
{
    let Ok(text) = line_text(alloc, name, boxes, line) else {
        return Err(Status::Memory);
    };
    write_text(output, text.as_slice(), written)
}

/// Judges a line, if it is active, and writes what is found of it.
#[tactic(auto, using(crate::proofs::WritingLaws::writes_none))]
fn write_if_active<K: Sink>(
    alloc: Global,
    name: &Name,
    boxes: &[BoxAt],
    number: u32,
    line: &AclLine,
    output: &mut K,
    written: u64,
) -> Result<u64, Status>
    requires { length boxes.now < 2 ^ 32 - 1 }
    ensures writes { WritesTexts (spec.texts_if_active name.now boxes.now number line.now) written (K.given output.old) (K.given output.new) (K.faults output.old) (K.faults output.new) result }
    ensures later { K.faults output.old ≤ K.faults output.new }
{
    if !is_active(line) {
        return Ok(written);
    }
    write_line(alloc, name, boxes, number, output, written)
}

/// Judges the lines of a list, and writes what is found of each before the next is judged.
fn write_lines<K: Sink>(
    alloc: Global,
    name: &Name,
    boxes: &[BoxAt],
    lines: &[HeldLine],
    output: &mut K,
    mut written: u64,
) -> Result<u64, Status>
    requires few { length boxes.now < 2 ^ 32 - 1 }
    requires lines { length lines.now ≤ 65536 }
    ensures writes { WritesTexts (spec.texts_from name.now boxes.now 1 lines.now) written (K.given output.old) (K.given output.new) (K.faults output.old) (K.faults output.new) result }
    ensures later { K.faults output.old ≤ K.faults output.new }
{
    for (i, held) in lines.iter().enumerate() {
        let number = i as u32 + 1;
        match write_if_active(alloc, name, boxes, number, held.line(), output, written) {
            Ok(now) => written = now,
            Err(status) => return Err(status),
        }
    }
    Ok(written)
}

/// The regions of the boxes of a list. As many as a `u32` doesn't count are taken for want of memory.
fn list_regions(alloc: Global, config: &Config, list: &Acl) -> Result<Items<BoxAt>, AllocError>
    ensures value { IfOk result (λ all. all ≡ map box_at (boxes_under config.now list.now)) }
    ensures few { IfOk result (λ all. length all < 2 ^ 32 - 1) }
{
    let boxes = config.boxes(alloc, list)?;
    let all = regions(alloc, boxes.as_slice())?;
    if all.len() >= u32::MAX as usize {
        return Err(AllocError);
    }
    Ok(all)
}

/// Judges the lines of a list of a configuration, and writes what is found of each.
#[tactic(auto, unfolding(crate::specs::Shadows::list_texts), using(crate::proofs::WritingLaws::writes_nothing))]
fn write_list<K: Sink>(
    alloc: Global,
    config: &Config,
    list: &Acl,
    output: &mut K,
    written: u64,
) -> Result<u64, Status>
    ensures writes { WritesTexts (spec.list_texts config.now list.now) written (K.given output.old) (K.given output.new) (K.faults output.old) (K.faults output.new) result }
    ensures later { K.faults output.old ≤ K.faults output.new }
{
    let Ok(boxes) = list_regions(alloc, config, list) else {
        return Err(Status::Memory);
    };
    write_lines(
        alloc,
        list.name(),
        boxes.as_slice(),
        list.lines(),
        output,
        written,
    )
}

/// The n-th list of a configuration, from 0.
fn nth_list(config: &Config, n: u32) -> &Acl
    requires { n < length config.now.lists }
    ensures { slice_get config.now.lists n ≡ Some result.now }
{
    match config.list_at(n) {
        Some(list) => list,
        None => unreachable!(),
    }
}

/// Judges the active lines of all lists of a configuration, and writes what is found of each line before the next is
/// judged. It gives the number of bytes that are written then, or WriteFault or Memory.
pub(crate) fn write_findings<K: Sink>(
    alloc: Global,
    config: &Config,
    output: &mut K,
) -> Result<u64, Status>
    ensures writes { WritesTexts (spec.finding_texts config.now) 0 (K.given output.old) (K.given output.new) (K.faults output.old) (K.faults output.new) result }
    ensures later { K.faults output.old ≤ K.faults output.new }
{
    let mut written = 0;
    let count = config.list_count();
    for n in 0..count {
        let list = nth_list(config, n);
        match write_list(alloc, config, list, output, written) {
            Ok(now) => written = now,
            Err(status) => return Err(status),
        }
    }
    Ok(written)
}
