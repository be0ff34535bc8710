//! What lies outside the contracts: that the clauses mean what they should, at scripts from the rules.
ghost use Rattle.std.specs.Prelude.{◌≡◌, Some, None, codes, if◌then◌else◌};
ghost use Rattle.std.specs.Str.{bytes_eq};

use crate::{PhaseEnd, PhaseText, ScriptError, ScriptFault, Table, read_script};
use asa_base::{Addr, Kind, Name, Names, PortProto, Service};
use asa_flow::Command;
use asa_text::{Items, Lines};
use std::alloc::Global;
use std::process::Abort;
use std::test::Fail;

/// One interface: `inside` (0).
#[derive(Drop)]
struct Inside;

impl Names for Inside {
    ghost known = { λ _. record {
      kind_of = λ _. None;
      interface_of = λ n. if bytes_eq n (codes "inside") then Some 0 else None;
      port_proto = λ _. None;
      service_range = λ _. None;
      address_of = λ _. None;
    } };

    fn kind_of(&self, _name: &Name) -> Option<Kind> {
        None
    }

    fn interface_of(&self, name: &Name) -> Option<u8> {
        if name.bytes() == b"inside".as_slice() {
            Some(0)
        } else {
            None
        }
    }

    fn port_proto(&self, _name: &Name) -> Option<PortProto> {
        None
    }

    fn service_range(&self, _name: &Name) -> Option<Service> {
        None
    }

    fn address_of(&self, _ifc: u8) -> Option<Addr> {
        None
    }
}

/// The phases of a script whose first line is line 11 of its text.
fn phases_of(alloc: Global, text: &[u8]) -> Result<Result<Items<PhaseText>, ScriptError>, Fail> {
    if text.len() > 10_000_000 {
        return Err("a long script")?;
    }
    let mut lines = Lines::new(text, 11);
    Ok(read_script(alloc, &Inside, &mut lines))
}

/// The letter of a command.
fn letter(command: &Command) -> u8 {
    match command {
        Command::Packet(_) => b'p',
        Command::Trace(_) => b't',
        Command::Clear => b'c',
        Command::Edit(_) => b'e',
    }
}

/// Appends the decimal digits of a number below 100.
fn push_number(out: &mut Vec<u8>, number: u32) -> Result<(), Fail> {
    if number >= 10 {
        out.push(b'0' + (number / 10 % 10) as u8)?;
    }
    out.push(b'0' + (number % 10) as u8)?;
    Ok(())
}

/// Each command of a phase as `LANE.INDEXletter`, each followed by a space.
fn told(alloc: Global, phase: &PhaseText) -> Result<Vec<u8>, Fail> {
    let mut out = Vec::new(alloc);
    for (lane, index, command) in phase.commands.as_slice() {
        push_number(&mut out, u32::from(*lane))?;
        out.push(b'.')?;
        push_number(&mut out, *index)?;
        out.push(letter(command))?;
        out.push(b' ')?;
    }
    Ok(out)
}

/// Asserts that the script has these phases, each told with its end.
fn assert_phases(
    rt: &impl Abort,
    alloc: Global,
    text: &[u8],
    phases: &[(&'static [u8], PhaseEnd)],
) -> Result<(), Fail> {
    match phases_of(alloc, text)? {
        Ok(found) => {
            assert_eq!(rt; found.len(), phases.len());
            for (phase, (commands, end)) in found.as_slice().iter().zip(phases) {
                let out = told(alloc, phase)?;
                assert_eq!(rt; out.as_slice(), *commands);
                assert_eq!(rt; phase.end, *end);
            }
        }
        Err(_) => Err("a script was refused")?,
    }
    Ok(())
}

/// Asserts that the script is refused so, at the line with this number.
fn assert_refused(
    rt: &impl Abort,
    alloc: Global,
    text: &[u8],
    line: u32,
    fault: ScriptFault,
) -> Result<(), Fail> {
    match phases_of(alloc, text)? {
        Ok(_) => Err("a script was taken")?,
        Err(why) => assert_eq!(rt; why, ScriptError::At { line, fault }),
    }
    Ok(())
}

#[test]
fn a_script_without_a_command_has_no_phase(rt: HostRuntime) -> Result<(), Fail> {
    assert_phases(&rt, rt.alloc(), b"", &[])?;
    assert_phases(
        &rt,
        rt.alloc(),
        b"! nothing\n\nlane 3\n>\n> ! nothing\n",
        &[],
    )
}

#[test]
fn phases_end_by_their_lines_and_may_be_empty(rt: HostRuntime) -> Result<(), Fail> {
    assert_phases(
        &rt,
        rt.alloc(),
        b"sync\nclear conn\nadvance 30\nshow nat\nclear conn\n",
        &[
            (b"", PhaseEnd::Sync),
            (b"1.1c ", PhaseEnd::Advance(30)),
            (b"", PhaseEnd::Show(Table::Nat)),
            (b"1.2c ", PhaseEnd::Input),
        ],
    )
}

#[test]
fn commands_stand_by_lane_and_each_lane_counts_its_own(rt: HostRuntime) -> Result<(), Fail> {
    assert_phases(
        &rt,
        rt.alloc(),
        b"lane 2\nclear conn\nlane 1\nclear conn\nlane 2\nclear conn\nlane 8\nclear conn\nsync\nclear conn\nlane 2\nclear conn\n",
        &[
            (b"1.1c 2.1c 2.2c 8.1c ", PhaseEnd::Sync),
            (b"2.3c 8.2c ", PhaseEnd::Input),
        ],
    )
}

#[test]
fn every_kind_of_command_is_one(rt: HostRuntime) -> Result<(), Fail> {
    assert_phases(
        &rt,
        rt.alloc(),
        b"packet inside tcp 10.0.0.5 1 10.0.0.6 2 S\npacket-tracer input inside udp 10.0.0.5 1 10.0.0.6 2\nclear conn\n> no route\n",
        &[(b"1.1p 1.2t 1.3c 1.4e ", PhaseEnd::Input)],
    )
}

/// The numbers of the lines of the first phase's blocks, each followed by a space, and a `;` after each block.
fn block_lines(alloc: Global, text: &[u8]) -> Result<Vec<u8>, Fail> {
    let mut out = Vec::new(alloc);
    let Ok(phases) = phases_of(alloc, text)? else {
        return Err("a script was refused")?;
    };
    for phase in phases.as_slice() {
        for (_, _, command) in phase.commands.as_slice() {
            if let Command::Edit(block) = command {
                for line in block.lines.as_slice() {
                    push_number(&mut out, line.number)?;
                    out.push(b' ')?;
                }
                out.push(b';')?;
            }
        }
    }
    Ok(out)
}

#[test]
fn block_lines_belong_together_until_another_line(rt: HostRuntime) -> Result<(), Fail> {
    let cases: [(&'static [u8], &'static [u8]); 5] = [
        // A line that isn't indented begins the next block.
        (
            b"> object network A\n>  host 10.0.0.5\n> object network B\n>  host 10.0.0.6\n",
            b"11 12 ;13 14 ;",
        ),
        // `>` alone and a comment are skipped.
        (
            b"> object network A\n>\n> ! x\n>  host 10.0.0.5\n",
            b"11 14 ;",
        ),
        // Every other line ends a block.
        (b"> route x\nlane 2\n> route y\n", b"11 ;13 ;"),
        (b"> route x\n\n> route y\n", b"11 ;13 ;"),
        (b"> route x\nsync\n", b"11 ;"),
    ];
    for (text, lines) in cases {
        assert_eq!(rt; block_lines(rt.alloc(), text)?.as_slice(), lines);
    }
    Ok(())
}

#[test]
fn an_indented_line_has_a_block_before_it(rt: HostRuntime) -> Result<(), Fail> {
    assert_refused(
        &rt,
        rt.alloc(),
        b"\n>  host 10.0.0.5\n",
        12,
        ScriptFault::Syntax,
    )?;
    assert_refused(
        &rt,
        rt.alloc(),
        b"> object network A\n! x\n>  host 10.0.0.5\n",
        13,
        ScriptFault::Syntax,
    )?;
    assert_refused(
        &rt,
        rt.alloc(),
        b"> object network A\nsync\n>  host 10.0.0.5\n",
        13,
        ScriptFault::Syntax,
    )
}

#[test]
fn a_script_is_refused_at_its_least_line(rt: HostRuntime) -> Result<(), Fail> {
    assert_refused(
        &rt,
        rt.alloc(),
        b"sync\nlane 9\nping\n",
        12,
        ScriptFault::TooManyLanes,
    )?;
    assert_refused(&rt, rt.alloc(), b" sync\n", 11, ScriptFault::Syntax)?;
    assert_refused(&rt, rt.alloc(), b">sync\n", 11, ScriptFault::Syntax)?;
    assert_refused(
        &rt,
        rt.alloc(),
        b"! x\n\npacket outside tcp 10.0.0.5 1 10.0.0.6 2 S\n",
        13,
        ScriptFault::UnknownInterface,
    )
}

/// A script of so many lines that say nothing, and a last line.
fn long_script(alloc: Global, lines: u32, last: &[u8]) -> Result<Vec<u8>, Fail> {
    let mut text = Vec::new(alloc);
    for _ in 0..lines {
        text.push(b'\n')?;
    }
    text.extend_from_slice(last)?;
    Ok(text)
}

#[test]
fn a_script_has_at_most_262144_lines(rt: HostRuntime) -> Result<(), Fail> {
    let most = long_script(rt.alloc(), 262_143, b"clear conn\n")?;
    assert_phases(
        &rt,
        rt.alloc(),
        most.as_slice(),
        &[(b"1.1c ", PhaseEnd::Input)],
    )?;
    let more = long_script(rt.alloc(), 262_144, b"\n")?;
    assert_refused(
        &rt,
        rt.alloc(),
        more.as_slice(),
        262_155,
        ScriptFault::TooManyLines,
    )?;
    let wrong = long_script(rt.alloc(), 262_144, b"ping\n")?;
    assert_refused(
        &rt,
        rt.alloc(),
        wrong.as_slice(),
        262_155,
        ScriptFault::Syntax,
    )
}
