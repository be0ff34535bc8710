//! The startup part: which of its blocks are kept, and the configuration that they make.
ghost use Rattle.std.specs.Prelude.{◌≡◌, IfOk};
ghost use Rattle.asa_config.specs.Settings.{nothing};
ghost use Rattle.asa_session.specs.Refusals.{Judged};
ghost use Rattle.asa_session.specs.Startup as spec;

use crate::session::{SessionError, SessionKind};
use asa_config::{Class, Config, EditRefusal, class_of};
use asa_text::{Block, Items};
use std::alloc::{AllocError, Global};

/// The startup blocks that aren't passed over, and how many are.
#[derive(Debug, Drop)]
pub(crate) struct Startup {
    pub(crate) kept: Items<Block>,
    pub(crate) passed: u32,
}

/// Whether the block isn't passed over.
fn is_kept(block: &Block) -> bool
    ensures { result ≡ spec.is_kept block.now }
{
    match class_of(block) {
        Class::Passed => false,
        _ => true,
    }
}

/// Parts the blocks that are kept from those that are passed over. More of these than a `u32` counts are taken for want of
/// memory; no text can hold them.
pub(crate) fn without_passed(alloc: Global, blocks: Items<Block>) -> Result<Startup, AllocError>
    ensures kept { IfOk result (λ s. s.kept ≡ spec.kept_of blocks) }
    ensures passed { IfOk result (λ s. s.passed ≡ spec.passed_count blocks) }
{
    let mut kept = Items::new(alloc);
    let mut passed: u64 = 0;
    for block in blocks.into_vec() {
        if is_kept(&block) {
            kept.push(block)?;
        } else {
            passed += 1;
        }
    }
    let Ok(passed) = u32::try_from(passed) else {
        return Err(AllocError);
    };
    Ok(Startup { kept, passed })
}

/// The number that a line of a block, counted from 1, has in the text.
fn number_in_text(block: &Block, line: u32) -> u32
    ensures { result ≡ spec.number_in_text block.now line }
{
    match block.lines.as_slice().get(line.saturating_sub(1) as usize) {
        Some(line) => line.number,
        None => 0,
    }
}

/// Takes one more block.
#[tactic(auto, unfolding(crate::specs::Startup::startup_step))]
fn take_block(config: Config, block: &Block) -> Result<Config, SessionError>
    ensures { Judged result (spec.startup_step config block.now) }
{
    match config.step(block, true) {
        Ok(next) => Ok(next),
        Err(EditRefusal::At { line, fault }) => Err(SessionError::At {
            line: number_in_text(block, line),
            kind: SessionKind::Startup(fault),
        }),
        Err(EditRefusal::NoMemory) => Err(SessionError::NoMemory),
    }
}

/// The configuration of the blocks, or the refusal of the first that is refused.
pub(crate) fn startup_config(alloc: Global, blocks: &[Block]) -> Result<Config, SessionError>
    ensures { Judged result (spec.startup_config nothing blocks.now) }
{
    let mut config = Config::empty(alloc);
    for block in blocks {
        config = take_block(config, block)?;
    }
    Ok(config)
}
