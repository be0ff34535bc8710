//! The commands of the lanes.
ghost use Rattle.std.specs.Prelude.{◌≡◌, ◌+◌, ◌-◌, ◌^◌, ◌<◌, ◌≤◌, [], ◌++◌, length, IfOk, OnOk};
ghost use Rattle.asa_script.specs.Lanes as spec;

use asa_flow::Command;
use asa_text::Items;
use std::alloc::{AllocError, Global};
use std::marker::Model;

/// How many lanes there are.
const LANES: usize = 8;

/// How many commands each lane has at the beginning.
const AT_FIRST: [u32; LANES] = [0, 0, 0, 0, 0, 0, 0, 0];

/// The commands of a lane in the present phase, and how many commands it has so far over the whole script.
#[derive(Debug, Drop)]
pub(crate) struct LaneCommands {
    pub count: u32,
    pub commands: Items<(u8, u32, Command)>,
}

/// The commands of all lanes.
#[derive(Debug, Drop)]
pub(crate) struct Lanes {
    lanes: Vec<LaneCommands>,
}

impl Model for Lanes {
    ghost use Rattle.std.specs.Prelude.{◌≡◌, List, length};
    ghost use Rattle.asa_script.specs.declared.lanes.LaneCommands.{LaneCommands};

    ghost Value = { List LaneCommands };

    ghost view = { λ l. l.lanes.items };

    ghost invariant = { λ l. length l.lanes.items ≡ 8 };
}

impl LaneCommands {
    /// A lane without a command in the present phase; takes no memory.
    fn without_commands(alloc: Global, count: u32) -> LaneCommands
        ensures { result ≡ spec.without_commands count }
    {
        LaneCommands {
            count,
            commands: Items::new(alloc),
        }
    }

    /// The lane with one command more. A lane of 2^32 - 1 commands counts as want of memory.
    fn with_command(self, lane: u8, command: Command) -> Result<LaneCommands, AllocError>
        ensures { IfOk result (λ l. l ≡ spec.with_command lane command self) }
    {
        let LaneCommands {
            count,
            mut commands,
        } = self;
        let Some(index) = count.checked_add(1) else {
            return Err(AllocError);
        };
        commands.push((lane, index, command))?;
        Ok(LaneCommands {
            count: index,
            commands,
        })
    }
}

impl Lanes {
    /// No command of any lane.
    pub(crate) fn new(alloc: Global) -> Result<Lanes, AllocError>
        ensures { IfOk result (λ l. l ≡ spec.no_commands) }
    {
        let mut lanes = Vec::with_capacity(alloc, LANES)?;
        for count in AT_FIRST {
            lanes.push(LaneCommands::without_commands(alloc, count))?;
        }
        Ok(Lanes { lanes })
    }

    /// The commands with one more, of this lane.
    pub(crate) fn with(self, lane: u8, command: Command) -> Result<Lanes, AllocError>
        requires low { 1 ≤ lane }
        requires high { lane ≤ 8 }
        ensures { IfOk result (λ l. l ≡ spec.with_lane_command self lane command) }
    {
        let Lanes { mut lanes } = self;
        let former = lanes.remove(lane as usize - 1);
        lanes.reserve(1)?;
        let further = former.with_command(lane, command)?;
        match lanes.insert(lane as usize - 1, further) {
            Ok(()) => Ok(Lanes { lanes }),
            Err(_) => unreachable!(),
        }
    }

    /// The commands of the present phase, lane by lane, and the lanes at the beginning of the next one.
    pub(crate) fn end_phase(
        self,
        alloc: Global,
    ) -> Result<(Items<(u8, u32, Command)>, Lanes), AllocError>
        ensures commands { IfOk result (λ r. r.0 ≡ spec.phase_commands self) }
        ensures lanes { IfOk result (λ r. r.1 ≡ spec.next_phase self) }
    {
        let mut commands = Items::new(alloc);
        let mut next = Vec::with_capacity(alloc, LANES)?;
        for lane in self.lanes {
            let LaneCommands {
                count,
                commands: own,
            } = lane;
            append(&mut commands, own)?;
            next.push(LaneCommands::without_commands(alloc, count))?;
        }
        Ok((commands, Lanes { lanes: next }))
    }
}

/// Appends commands to others.
fn append(
    commands: &mut Items<(u8, u32, Command)>,
    more: Items<(u8, u32, Command)>,
) -> Result<(), AllocError>
    ensures { OnOk result (commands.new ≡ commands.old ++ more) }
{
    for command in more.into_vec() {
        commands.push(command)?;
    }
    Ok(())
}
