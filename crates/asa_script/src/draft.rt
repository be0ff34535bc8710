//! What was read of a script so far.
ghost use Rattle.std.specs.Prelude.{◌≡◌, ◌≤◌, [], ◌∷◌, IfOk, OnOk, length};
ghost use Rattle.asa_session_lines.specs.Lines.{HasLane};
ghost use Rattle.asa_script.specs.Drafts as spec;

use crate::lanes::Lanes;
use crate::phase::{PhaseEnd, PhaseText, ScriptError};
use asa_flow::Command;
use asa_session_lines::{ScriptFault, ScriptLine};
use asa_text::{Block, Items, Line};
use std::alloc::{AllocError, Global};
use std::marker::Model;

/// What was read of a script so far: the phases that have ended, the commands of the present one, the lane that further
/// commands are of, and the lines of the block that is being stated.
#[derive(Debug, Drop)]
pub(crate) struct Draft {
    phases: Items<PhaseText>,
    lanes: Lanes,
    lane: u8,
    block: Vec<Line>,
    alloc: Global,
}

impl Model for Draft {
    ghost use Rattle.std.specs.Prelude.{◌≤◌};
    ghost use Rattle.asa_script.specs.Drafts.{Script, script_of};

    ghost Value = { Script };

    ghost view = { λ d. script_of d.phases d.lanes d.lane d.block.items };

    ghost invariant = { λ d. (1 ≤ d.lane) × (d.lane ≤ 8) };
}

impl Draft {
    /// Nothing was read so far.
    pub(crate) fn new(alloc: Global) -> Result<Draft, AllocError>
        ensures { IfOk result (λ d. d ≡ spec.nothing) }
    {
        let lanes = Lanes::new(alloc)?;
        Ok(Draft {
            phases: Items::new(alloc),
            lanes,
            lane: 1,
            block: Vec::new(alloc),
            alloc,
        })
    }

    /// The script with one command more.
    fn with_command(self, command: Command) -> Result<Draft, AllocError>
        ensures { IfOk result (λ d. d ≡ spec.with_command self command) }
    {
        let Draft {
            phases,
            lanes,
            lane,
            block,
            alloc,
        } = self;
        let lanes = lanes.with(lane, command)?;
        Ok(Draft {
            phases,
            lanes,
            lane,
            block,
            alloc,
        })
    }

    /// The script after the block that is being stated, where one is, which is a command.
    #[tactic(auto, unfolding(crate::specs::Drafts::block_ended))]
    fn end_block(self) -> Result<Draft, AllocError>
        ensures { IfOk result (λ d. d ≡ spec.block_ended self) }
    {
        if self.block.is_empty() {
            return Ok(self);
        }
        let Draft {
            phases,
            lanes,
            lane,
            block,
            alloc,
        } = self;
        // A block of 2^32 - 1 lines, which no script has, counts as want of memory.
        let Some(block) = Block::new(block) else {
            return Err(AllocError);
        };
        let lanes = lanes.with(lane, Command::Edit(block))?;
        Ok(Draft {
            phases,
            lanes,
            lane,
            block: Vec::new(alloc),
            alloc,
        })
    }

    /// The script after the present phase.
    #[tactic(auto, unfolding(crate::specs::Drafts::phase_ended))]
    fn end_phase(self, end: PhaseEnd) -> Result<Draft, AllocError>
        ensures { IfOk result (λ d. d ≡ spec.phase_ended self end) }
    {
        let Draft {
            mut phases,
            lanes,
            lane,
            block,
            alloc,
        } = self;
        let (commands, lanes) = lanes.end_phase(alloc)?;
        phases.push(PhaseText { commands, end })?;
        Ok(Draft {
            phases,
            lanes,
            lane,
            block,
            alloc,
        })
    }

    /// The script with one line more of the block that is being stated.
    fn with_line(self, line: Line) -> Result<Draft, AllocError>
        ensures { IfOk result (λ d. d ≡ spec.with_line self line) }
    {
        let mut draft = self;
        match draft.block.push(line) {
            Ok(()) => Ok(draft),
            Err(_) => Err(AllocError),
        }
    }

    /// The script after the line of a configuration block.
    #[tactic(auto, unfolding(crate::specs::Drafts::edit_taken))]
    pub(crate) fn take_edit(self, line: Line) -> Result<Draft, ScriptError>
        ensures { spec.Judged result (spec.edit_taken self line) }
    {
        let view = line.view();
        if !view.is_kept() {
            return Ok(self);
        }
        if view.is_indented() {
            return self.take_inner(line);
        }
        let draft = self.end_block()?;
        Ok(draft.with_line(line)?)
    }

    /// The script after an indented line of a block.
    fn take_inner(self, line: Line) -> Result<Draft, ScriptError>
        ensures { spec.Judged result (spec.inner_taken self line) }
    {
        if self.block.is_empty() {
            return Err(ScriptError::At {
                line: line.number,
                fault: ScriptFault::Syntax,
            });
        }
        Ok(self.with_line(line)?)
    }

    /// The script after another line, of which it is told what it says.
    #[tactic(auto, unfolding(crate::specs::Drafts::said_taken))]
    fn take_said(self, said: ScriptLine) -> Result<Draft, AllocError>
        requires { HasLane said }
        ensures { IfOk result (λ d. d ≡ spec.said_taken self said) }
    {
        match said {
            ScriptLine::Lane(lane) => {
                let mut draft = self;
                draft.lane = lane;
                Ok(draft)
            }
            ScriptLine::Packet(packet) => self.with_command(Command::Packet(packet)),
            ScriptLine::Trace(packet) => self.with_command(Command::Trace(packet)),
            ScriptLine::Clear => self.with_command(Command::Clear),
            ScriptLine::Sync => self.end_phase(PhaseEnd::Sync),
            ScriptLine::Advance(seconds) => self.end_phase(PhaseEnd::Advance(seconds)),
            ScriptLine::Show(table) => self.end_phase(PhaseEnd::Show(table)),
        }
    }

    /// The script after a line with this number, which ends a block, and of which it is told what it says.
    pub(crate) fn take_line(
        self,
        line: u32,
        said: Result<ScriptLine, ScriptFault>,
    ) -> Result<Draft, ScriptError>
        requires { IfOk said HasLane }
        ensures { spec.Judged result (spec.line_taken self line said) }
    {
        match said {
            Ok(said) => {
                let draft = self.end_block()?;
                Ok(draft.take_said(said)?)
            }
            Err(fault) => Err(ScriptError::At { line, fault }),
        }
    }

    /// The script after a line that says nothing.
    pub(crate) fn take_nothing(self) -> Result<Draft, AllocError>
        ensures { IfOk result (λ d. d ≡ spec.block_ended self) }
    {
        self.end_block()
    }

    /// The phases of the script, where no line is left. The last is there only where it has a command.
    #[tactic(auto, unfolding(crate::specs::Drafts::finished))]
    pub(crate) fn finish(self) -> Result<Items<PhaseText>, AllocError>
        ensures { IfOk result (λ phases. phases ≡ spec.finished self) }
    {
        let draft = self.end_block()?;
        let Draft {
            mut phases,
            lanes,
            alloc,
            ..
        } = draft;
        let (commands, _) = lanes.end_phase(alloc)?;
        if !commands.is_empty() {
            phases.push(PhaseText {
                commands,
                end: PhaseEnd::Input,
            })?;
        }
        Ok(phases)
    }
}
