//! Reading a session from its text, in one pass over the bytes.
ghost use Rattle.std.specs.Prelude.{◌≡◌, ◌+◌, ◌-◌, ◌^◌, ◌<◌, ◌≤◌, length, IfOk};
ghost use Rattle.asa_session.specs.Refusals.{Judged};
ghost use Rattle.asa_session.specs.Readiness.{IsReady};
ghost use Rattle.asa_session.specs.Sessions as spec;

use crate::commands::script_packets;
use crate::opening::{Opening, read_opening};
use crate::session::{Command, PhaseEnd, PhaseText, Session, SessionError};
use crate::startup::Startup;
use asa_base::Packet;
use asa_config::Config;
use asa_text::{Items, Lines, Shared};
use std::alloc::{AllocError, Global};

/// The lane of every command.
const LANE: u8 = 1;

/// The packets as commands, in order.
fn commands_of(alloc: Global, packets: &[Packet]) -> Result<Items<(u8, u32, Command)>, AllocError>
    requires { length packets.now ≤ 8192 }
    ensures { IfOk result (λ commands. commands ≡ spec.commands_from 1 packets.now) }
{
    let mut commands = Items::with_capacity(alloc, packets.len())?;
    for (i, packet) in packets.iter().enumerate() {
        commands.push((LANE, i as u32 + 1, Command::Packet(*packet)))?;
    }
    Ok(commands)
}

/// The phases of the packets: none where there is no packet.
fn phases_of(alloc: Global, packets: &[Packet]) -> Result<Items<PhaseText>, AllocError>
    requires { length packets.now ≤ 8192 }
    ensures { IfOk result (λ phases. phases ≡ spec.phases_of packets.now) }
{
    let mut phases = Items::new(alloc);
    if !packets.is_empty() {
        let commands = commands_of(alloc, packets)?;
        phases.push(PhaseText {
            commands,
            end: PhaseEnd::Input,
        })?;
    }
    Ok(phases)
}

/// The session of its parts.
pub(crate) fn session_with(
    alloc: Global,
    startup: Startup,
    config: Config,
    packets: &[Packet],
) -> Result<Session, AllocError>
    requires { length packets.now ≤ 8192 }
    ensures { IfOk result (λ s. s ≡ spec.session_with startup.kept startup.passed config packets.now) }
{
    let phases = phases_of(alloc, packets)?;
    let config = Shared::new(alloc, config)?;
    Ok(Session {
        startup: startup.kept,
        passed: startup.passed,
        config,
        phases,
    })
}

/// Reads the script of a session.
fn read_script(
    alloc: Global,
    startup: Startup,
    config: Config,
    lines: &mut Lines<'_>,
) -> Result<Session, SessionError>
    ensures { Judged result (spec.with_packets startup.kept startup.passed config lines.old.lines) }
{
    let flows = script_packets(alloc, &config, lines)?;
    let session = session_with(alloc, startup, config, flows.as_slice())?;
    Ok(session)
}

/// Reads a session from its lines.
#[tactic(auto, unfolding(crate::specs::Sessions::session_of_lines))]
fn read_lines(alloc: Global, lines: &mut Lines<'_>) -> Result<Session, SessionError>
    requires { lines.old.number ≡ 1 }
    ensures { Judged result (spec.session_of_lines lines.old.lines) }
{
    let Opening { startup, config } = read_opening(alloc, lines)?;
    read_script(alloc, startup, config, lines)
}

/// Reads a session. A text is refused at its least refused line; a line of the script that has no form so far isn't built.
#[tactic(auto, using(crate::proofs::SessionLaws::session_is_ready))]
pub fn read_session(alloc: Global, text: &[u8]) -> Result<Session, SessionError>
    requires { 1 + length text.now < 2 ^ 32 - 1 }
    ensures judged { Judged result (spec.session_of text.now) }
    ensures ready { IfOk result IsReady }
{
    read_lines(alloc, &mut Lines::new(text, 1))
}
