//! The serial run of a session.
ghost use Rattle.std.specs.Prelude.{◌≡◌, ◌+◌, ◌^◌, ◌<◌, ◌≤◌, ◌++◌, length, All, IfOk, IsTrue, OnOk, option_to_list};
ghost use Rattle.std.specs.List.{flat_map};
ghost use Rattle.std.specs.Option.{option_map};
ghost use Rattle.asa_session.specs.Readiness.{IsReady, enters_named};
ghost use Rattle.asa_core.specs.Machine.{ruling, changed};
ghost use Rattle.asa_core.specs.Numbers.{IsNumbered};
ghost use Rattle.asa_core.specs.Serial.{Progress, started, asked, asked_all, report_of, phases_run, serial};

use crate::answers::{change_by, reply};
use crate::history::{Entry, Given, Load, PhaseReport};
use crate::state::{State, apply};
use asa_policy::compile;
use asa_session::{Command, PhaseText, Session};
use asa_text::Items;
use std::alloc::{AllocError, Global};

/// How many connections may live at once.
const CAPACITY: u32 = 8192;

/// Changes the state by a command's entry, and appends the entry.
fn enter(
    state: &mut State<'_>,
    entries: &mut Items<Entry>,
    change: Option<(Entry, Load)>,
) -> Result<(), AllocError>
    ensures machine { state.new ≡ changed state.old change }
    ensures rules { ruling state.new ≡ ruling state.old }
    ensures entries { OnOk result (entries.new ≡ entries.old ++ option_to_list (option_map (λ c. c.0) change)) }
{
    match change {
        Some((entry, load)) => {
            apply(state, &entry, load);
            entries.push(entry)
        }
        None => Ok(()),
    }
}

/// Answers one command, after `before` entries of earlier phases.
fn ask(
    state: &mut State<'_>,
    entries: &mut Items<Entry>,
    given: &mut Items<Given>,
    before: u64,
    placed: &(u8, u32, Command),
) -> Result<(), AllocError>
    requires named { IsTrue (enters_named (ruling state.old) placed.now.2) }
    requires fits { before + length entries.old < 2 ^ 64 }
    ensures asked { OnOk result (record { machine = state.new; entries = entries.new; given = given.new } ≡ asked before (record { machine = state.old; entries = entries.old; given = given.old }) placed.now) }
    ensures rules { ruling state.new ≡ ruling state.old }
    ensures grows { OnOk result (length entries.new ≤ length entries.old + 1) }
{
    let (lane, index, command) = placed;
    let answer = reply(state, command);
    let change = change_by(state, *lane, *index, command, &answer);
    let number = before + entries.len() as u64;
    enter(state, entries, change)?;
    given.push(Given {
        lane: *lane,
        index: *index,
        number,
        answer,
    })
}

/// Answers the commands of a phase in order, after `before` entries of earlier phases.
fn run_phase(
    alloc: Global,
    state: &mut State<'_>,
    before: u64,
    phase: &PhaseText,
) -> Result<PhaseReport, AllocError>
    requires named { All (λ placed. IsTrue (enters_named (ruling state.old) placed.2)) phase.now.commands }
    requires fits { before + length phase.now.commands < 2 ^ 64 }
    ensures machine { OnOk result (state.new ≡ (asked_all before (started state.old) phase.now.commands).machine) }
    ensures report { IfOk result (λ r. r ≡ report_of (asked_all before (started state.old) phase.now.commands)) }
    ensures rules { ruling state.new ≡ ruling state.old }
    ensures few { IfOk result (λ r. length r.entries ≤ length phase.now.commands) }
{
    let mut entries = Items::new(alloc);
    let mut given = Items::new(alloc);
    let commands = phase.commands.as_slice();
    for placed in commands {
        ask(state, &mut entries, &mut given, before, placed)?;
    }
    Ok(PhaseReport {
        entries,
        given,
        table: Items::new(alloc),
    })
}

/// Answers the commands of the phases in order, of which the first is the first of its run.
fn run_phases(
    alloc: Global,
    state: &mut State<'_>,
    phases: &[PhaseText],
) -> Result<Items<PhaseReport>, AllocError>
    requires named { All (λ placed. IsTrue (enters_named (ruling state.old) placed.2)) (flat_map (λ phase. phase.commands) phases.now) }
    requires fits { length (flat_map (λ phase. phase.commands) phases.now) < 2 ^ 64 }
    ensures { IfOk result (λ r. r ≡ phases_run state.old 0 phases.now) }
{
    let mut reports = Items::new(alloc);
    let mut before = 0;
    for phase in phases {
        let report = run_phase(alloc, state, before, phase)?;
        before += report.entries.len() as u64;
        reports.push(report)?;
    }
    Ok(reports)
}

/// Runs the commands of a session one after another: each phase's report has its entries and its answers. Each command
/// is answered once.
#[tactic(auto, using(crate::proofs::NumberLaws::serial_numbered), unfolding(crate::specs::Serial::serial))]
pub fn run_serial(alloc: Global, session: &Session) -> Result<Items<PhaseReport>, AllocError>
    requires { IsReady session.now }
    ensures serial { IfOk result (λ r. r ≡ serial session.now) }
    ensures numbered { IfOk result (λ r. All (λ phase. All IsNumbered phase.given) r) }
{
    let policy = compile(alloc, session.config.get())?;
    let mut state = State::new(alloc, session, policy, CAPACITY)?;
    run_phases(alloc, &mut state, session.phases.as_slice())
}
