//! The report: its first line, each phase with its entries, answers and tables, and the number of all entries.
ghost use Rattle.std.specs.Prelude.{◌≡◌, ◌+◌, ◌^◌, ◌<◌, ◌++◌, length, OnOk, IfOk};
ghost use Rattle.std.specs.List.{flat_map};
ghost use Rattle.asa_report.specs.Report.{command_text, entry_text, entry_line, entry_lines, opened_text, answer_text, given_head, given_line, phase_line, phase_text, done_line, phases_text, startup_line, text};

use crate::words::{
    push_decision, push_header, push_name_of, push_reason_detail, push_reason_word,
};
use asa_core::{Answer, Entry, Given, PhaseReport};
use asa_ifaces::Iface;
use asa_session::Session;
use asa_text::{push_bytes, push_number};
use std::alloc::AllocError;

#[tactic(auto, unfolding(crate::specs::Report::command_text))]
fn push_command(out: &mut Vec<u8>, lane: u8, index: u32) -> Result<(), AllocError>
    ensures { OnOk result (out.new.items ≡ out.old.items ++ command_text lane index) }
{
    push_number(out, u64::from(lane))?;
    push_bytes(out, b".")?;
    push_number(out, u64::from(index))?;
    Ok(())
}

#[tactic(auto, unfolding(crate::specs::Report::entry_text))]
fn push_entry(out: &mut Vec<u8>, entry: &Entry) -> Result<(), AllocError>
    ensures { OnOk result (out.new.items ≡ out.old.items ++ entry_text entry.now) }
{
    match entry {
        Entry::Opened { lane, index, id } => {
            push_command(out, *lane, *index)?;
            push_bytes(out, b" open ")?;
            push_number(out, *id)?;
            Ok(())
        }
    }
}

#[tactic(auto, unfolding(crate::specs::Report::entry_line))]
fn push_entry_line(out: &mut Vec<u8>, number: u64, entry: &Entry) -> Result<(), AllocError>
    ensures { OnOk result (out.new.items ≡ out.old.items ++ entry_line number entry.now) }
{
    push_bytes(out, b"e ")?;
    push_number(out, number)?;
    push_bytes(out, b" ")?;
    push_entry(out, entry)?;
    push_bytes(out, b"\n")?;
    Ok(())
}

fn push_entry_lines(out: &mut Vec<u8>, first: u64, entries: &[Entry]) -> Result<(), AllocError>
    requires { first + length entries.now < 2 ^ 64 }
    ensures { OnOk result (out.new.items ≡ out.old.items ++ entry_lines first entries.now) }
{
    let mut number = first;
    for entry in entries {
        push_entry_line(out, number, entry)?;
        number += 1;
    }
    Ok(())
}

#[tactic(auto, unfolding(crate::specs::Report::opened_text))]
fn push_opened(out: &mut Vec<u8>, ifaces: &[Iface], id: u64, egress: u8) -> Result<(), AllocError>
    ensures { OnOk result (out.new.items ≡ out.old.items ++ opened_text ifaces.now id egress) }
{
    push_bytes(out, b"open ")?;
    push_number(out, id)?;
    push_bytes(out, b" to ")?;
    push_name_of(out, ifaces, egress)?;
    Ok(())
}

#[tactic(auto, unfolding(crate::specs::Report::answer_text))]
fn push_answer(out: &mut Vec<u8>, ifaces: &[Iface], answer: &Answer) -> Result<(), AllocError>
    ensures { OnOk result (out.new.items ≡ out.old.items ++ answer_text ifaces.now answer.now) }
{
    match answer {
        Answer::Opened {
            id,
            egress,
            out: header,
            policy,
            decision,
        } => {
            push_opened(out, ifaces, *id, *egress)?;
            push_bytes(out, b" ")?;
            push_header(out, *header)?;
            push_decision(out, *policy, decision)?;
            Ok(())
        }
        Answer::Dropped { reason, policy } => {
            push_bytes(out, b"drop ")?;
            push_reason_word(out, reason)?;
            push_bytes(out, b" policy ")?;
            push_number(out, *policy)?;
            push_reason_detail(out, ifaces, reason)?;
            Ok(())
        }
    }
}

#[tactic(auto, unfolding(crate::specs::Report::given_head))]
fn push_given_head(out: &mut Vec<u8>, given: &Given) -> Result<(), AllocError>
    ensures { OnOk result (out.new.items ≡ out.old.items ++ given_head given.now) }
{
    push_bytes(out, b"a ")?;
    push_command(out, given.lane, given.index)?;
    push_bytes(out, b" ")?;
    push_number(out, given.number)?;
    push_bytes(out, b" ")?;
    Ok(())
}

#[tactic(auto, unfolding(crate::specs::Report::given_line))]
fn push_given_line(out: &mut Vec<u8>, ifaces: &[Iface], given: &Given) -> Result<(), AllocError>
    ensures { OnOk result (out.new.items ≡ out.old.items ++ given_line ifaces.now given.now) }
{
    push_given_head(out, given)?;
    push_answer(out, ifaces, &given.answer)?;
    push_bytes(out, b"\n")?;
    Ok(())
}

fn push_given_lines(
    out: &mut Vec<u8>,
    ifaces: &[Iface],
    answers: &[Given],
) -> Result<(), AllocError>
    ensures { OnOk result (out.new.items ≡ out.old.items ++ flat_map (given_line ifaces.now) answers.now) }
{
    for given in answers {
        push_given_line(out, ifaces, given)?;
    }
    Ok(())
}

#[tactic(auto, unfolding(crate::specs::Report::phase_line))]
fn push_phase_line(out: &mut Vec<u8>, phase: u64) -> Result<(), AllocError>
    ensures { OnOk result (out.new.items ≡ out.old.items ++ phase_line phase) }
{
    push_bytes(out, b"phase ")?;
    push_number(out, phase)?;
    push_bytes(out, b"\n")?;
    Ok(())
}

#[tactic(auto, unfolding(crate::specs::Report::phase_text))]
fn push_phase(
    out: &mut Vec<u8>,
    ifaces: &[Iface],
    phase: u64,
    first: u64,
    report: &PhaseReport,
) -> Result<(), AllocError>
    requires { first + length report.now.entries < 2 ^ 64 }
    ensures { OnOk result (out.new.items ≡ out.old.items ++ phase_text ifaces.now phase first report.now) }
{
    push_phase_line(out, phase)?;
    push_entry_lines(out, first, report.entries.as_slice())?;
    push_given_lines(out, ifaces, report.given.as_slice())?;
    push_bytes(out, report.table.as_slice())?;
    Ok(())
}

// The number of the first entry after a phase. A history that a `u64` can't count is longer than memory.
fn number_after(first: u64, report: &PhaseReport) -> Result<u64, AllocError>
    ensures { IfOk result (λ n. n ≡ first + length report.now.entries) }
{
    first
        .checked_add(report.entries.len() as u64)
        .ok_or(AllocError)
}

#[tactic(auto, unfolding(crate::specs::Report::done_line))]
fn push_done(out: &mut Vec<u8>, number: u64) -> Result<(), AllocError>
    ensures { OnOk result (out.new.items ≡ out.old.items ++ done_line number) }
{
    push_bytes(out, b"done ")?;
    push_number(out, number)?;
    push_bytes(out, b"\n")?;
    Ok(())
}

fn push_phases(
    out: &mut Vec<u8>,
    ifaces: &[Iface],
    reports: &[PhaseReport],
) -> Result<(), AllocError>
    ensures { OnOk result (out.new.items ≡ out.old.items ++ phases_text ifaces.now 1 0 reports.now) }
{
    let mut first = 0;
    for (i, report) in reports.iter().enumerate() {
        let next = number_after(first, report)?;
        push_phase(out, ifaces, i as u64 + 1, first, report)?;
        first = next;
    }
    push_done(out, first)?;
    Ok(())
}

#[tactic(auto, unfolding(crate::specs::Report::startup_line))]
fn push_startup(out: &mut Vec<u8>, accepted: u64, passed: u64) -> Result<(), AllocError>
    ensures { OnOk result (out.new.items ≡ out.old.items ++ startup_line accepted passed) }
{
    push_bytes(out, b"startup ")?;
    push_number(out, accepted)?;
    push_bytes(out, b" accepted ")?;
    push_number(out, passed)?;
    push_bytes(out, b" passed\n")?;
    Ok(())
}

/// Appends the report of a run of the session, of which these are the phases in order. Phases are numbered from 1 and
/// entries from 0. On want of memory a part of the report may have been appended.
#[tactic(auto, unfolding(crate::specs::Report::text))]
pub fn write_report(
    session: &Session,
    phases: &[PhaseReport],
    out: &mut Vec<u8>,
) -> Result<(), AllocError>
    ensures { OnOk result (out.new.items ≡ out.old.items ++ text session.now phases.now) }
{
    push_startup(out, session.startup.len() as u64, u64::from(session.passed))?;
    push_phases(out, session.config.get().ifaces().ifaces(), phases)?;
    Ok(())
}
