//! The builder of blocks: it takes the lines one by one and keeps the block that is still open.
ghost use Rattle.std.specs.Prelude.{◌≡◌, ◌+◌, ◌-◌, ◌^◌, ◌<◌, ◌≤◌, ◌∷◌, [], length, IfOk, OnOk, IsTrue, None, not};
ghost use Rattle.asa_text.specs.Lines.{is_kept, is_indented};
ghost use Rattle.asa_text.specs.Blocks.{Grouped, onto, grouped};
ghost use Rattle.asa_text.specs.Builder.{finished, with_open};

use crate::blocks::{Block, BlockFault, BlockLines};
use crate::items::Items;
use crate::lines::{Line, LineView};
use std::alloc::{AllocError, Global};
use std::marker::Model;
use std::mem;

/// The blocks so far.
#[derive(Drop)]
pub(crate) struct Builder {
    early: Option<u32>,
    done: Items<Block>,
    current: Vec<Line>,
}

impl Model for Builder {
    ghost use Rattle.std.specs.Prelude.{◌^◌, ◌-◌, ◌<◌, length, IsTrue};
    ghost use Rattle.asa_text.specs.Builder.{Building, is_open};

    ghost Value = { Building };

    ghost view = { λ b. record { early = b.early; done = b.done; current = b.current.items } };

    ghost invariant = { λ b. IsTrue (is_open b.current.items) };
}

impl Builder {
    /// No block yet.
    pub(crate) fn new(alloc: Global) -> Builder
        ensures { result ≡ record { early = None; done = []; current = [] } }
    {
        Builder {
            early: None,
            done: Items::new(alloc),
            current: Vec::new(alloc),
        }
    }

    /// Ends the block that is open.
    fn close(&mut self, alloc: Global) -> Result<(), AllocError>
        requires { length self.old.current < 2 ^ 32 - 1 }
        ensures { OnOk result (self.new ≡ record self.old { done = with_open self.old.done self.old.current; current = [] }) }
    {
        let lines = mem::replace(&mut self.current, Vec::new(alloc));
        if lines.is_empty() {
            return Ok(());
        }
        self.done.push(Block {
            lines: BlockLines::over(lines),
        })
    }

    /// Takes one more line that says something.
    pub(crate) fn add(&mut self, alloc: Global, line: &LineView<'_>) -> Result<(), AllocError>
        requires kept { IsTrue (is_kept line.now) }
        requires few { length self.old.current < 2 ^ 32 - 2 }
        ensures grows { OnOk result (length self.new.current ≤ length self.old.current + 1) }
        ensures adds { OnOk result ((rest : Grouped) → finished self.new rest ≡ finished self.old (onto line.now rest)) }
    {
        if let Some(_) = self.early {
            return Ok(());
        }
        if line.is_indented() {
            self.add_inner(alloc, line)
        } else {
            self.add_top(alloc, line)
        }
    }

    /// Takes an indented line.
    fn add_inner(&mut self, alloc: Global, line: &LineView<'_>) -> Result<(), AllocError>
        requires kept { IsTrue (is_kept line.now) }
        requires indented { IsTrue (is_indented line.now) }
        requires few { length self.old.current < 2 ^ 32 - 2 }
        requires none_early { self.old.early ≡ None }
        ensures grows { OnOk result (length self.new.current ≤ length self.old.current + 1) }
        ensures adds { OnOk result ((rest : Grouped) → finished self.new rest ≡ finished self.old (onto line.now rest)) }
    {
        if self.current.is_empty() {
            self.early = Some(line.number());
            return Ok(());
        }
        let inner = line.to_line(alloc)?;
        self.current.push(inner)?;
        Ok(())
    }

    /// Takes a top-level line.
    fn add_top(&mut self, alloc: Global, line: &LineView<'_>) -> Result<(), AllocError>
        requires kept { IsTrue (is_kept line.now) }
        requires top { IsTrue (not (is_indented line.now)) }
        requires few { length self.old.current < 2 ^ 32 - 2 }
        requires none_early { self.old.early ≡ None }
        ensures grows { OnOk result (length self.new.current ≤ length self.old.current + 1) }
        ensures adds { OnOk result ((rest : Grouped) → finished self.new rest ≡ finished self.old (onto line.now rest)) }
    {
        self.close(alloc)?;
        let top = line.to_line(alloc)?;
        self.current.push(top)?;
        Ok(())
    }

    /// The blocks, where no line comes any more.
    #[tactic(auto, using(crate::proofs::BlockLaws::finished_end))]
    pub(crate) fn finish(
        mut self,
        alloc: Global,
    ) -> Result<Result<Items<Block>, BlockFault>, AllocError>
        requires { length self.current < 2 ^ 32 - 1 }
        ensures { IfOk result (λ r. r ≡ finished self (grouped [])) }
    {
        if let Some(line) = self.early {
            return Ok(Err(BlockFault { line }));
        }
        self.close(alloc)?;
        Ok(Ok(self.done))
    }
}
