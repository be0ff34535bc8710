//! The lines of the script.
ghost use Rattle.std.specs.Prelude.{◌≡◌, []};
ghost use Rattle.asa_text.specs.Readers.{Reads, number_at};
ghost use Rattle.asa_text.specs.Words.{line_left};
ghost use Rattle.asa_session.specs.Refusals.{Judged, Leaves};
ghost use Rattle.asa_session.specs.Scripts as spec;

use crate::flows::Flows;
use crate::refusals::unbuilt_script;
use crate::session::SessionError;
use asa_base::{Packet, interface};
use asa_config::Config;
use asa_text::{LineFault, LineView, Lines, Words, address, end_of_line, keyword, number};
use std::alloc::Global;

/// The flag S of a TCP packet.
const SYN: u8 = 1;
/// The number of TCP.
const TCP: u8 = 6;
/// At most so many lines may stand after the startup part.
pub(crate) const MOST_LINES: u32 = 262_144;

/// Reads a port.
fn read_port(words: &mut Words<'_>) -> Result<u16, LineFault>
    ensures { Reads result words.new (number_at 0 65535 words.old) }
{
    let port = number(words, 0, 65535)?;
    Ok(port as u16)
}

/// Reads a packet line.
#[tactic(auto, unfolding(crate::specs::Scripts::packet_line))]
fn read_packet(config: &Config, words: &mut Words<'_>) -> Result<Packet, LineFault>
    ensures { Reads result words.new (spec.packet_line config.now words.old) }
{
    keyword(words, b"packet")?;
    let ifc = interface(words, config)?;
    keyword(words, b"tcp")?;
    let src = address(words)?;
    let sport = read_port(words)?;
    let dst = address(words)?;
    let dport = read_port(words)?;
    keyword(words, b"S")?;
    end_of_line(words)?;
    Ok(Packet {
        ifc,
        proto: TCP,
        src,
        sport,
        dst,
        dport,
        flags: SYN,
        itype: 0,
        icode: 0,
    })
}

/// Reads a lane line.
#[tactic(auto, unfolding(crate::specs::Scripts::lane_line))]
fn read_lane(words: &mut Words<'_>) -> Result<(), LineFault>
    ensures { Reads result words.new (spec.lane_line words.old) }
{
    keyword(words, b"lane")?;
    keyword(words, b"1")?;
    end_of_line(words)
}

/// The packet of a line that is built.
fn packet_of(config: &Config, line: u32, mut words: Words<'_>) -> Result<Packet, SessionError>
    ensures { result ≡ spec.built_at line (spec.packet_line config.now words.entry) }
{
    match read_packet(config, &mut words) {
        Ok(packet) => Ok(packet),
        Err(_) => Err(unbuilt_script(line)),
    }
}

/// Whether the line is a lane line that is built.
fn take_lane(line: u32, mut words: Words<'_>) -> Result<(), SessionError>
    ensures { result ≡ spec.built_at line (spec.lane_line words.entry) }
{
    match read_lane(&mut words) {
        Ok(()) => Ok(()),
        Err(_) => Err(unbuilt_script(line)),
    }
}

/// Takes the packet of this line.
fn take_packet(flows: &mut Flows, line: u32, packet: Packet) -> Result<(), SessionError>
    ensures { Leaves result flows.new (spec.with_packet line flows.old packet) }
{
    if !flows.is_full() && flows.has_new_ends(&packet) {
        flows.add(packet)?;
        Ok(())
    } else {
        Err(unbuilt_script(line))
    }
}

/// Takes a line that says something, by its words.
#[tactic(auto, unfolding(crate::specs::Scripts::command_line))]
fn take_command(
    config: &Config,
    flows: &mut Flows,
    line: u32,
    words: Words<'_>,
) -> Result<(), SessionError>
    ensures { Leaves result flows.new (spec.command_line config.now flows.old line words.entry) }
{
    if words.next_is(b"lane") {
        take_lane(line, words)
    } else if words.next_is(b"packet") {
        let packet = packet_of(config, line, words)?;
        take_packet(flows, line, packet)
    } else {
        Err(unbuilt_script(line))
    }
}

/// Takes a line of the script.
#[tactic(auto, unfolding(crate::specs::Scripts::script_line))]
fn take_line(config: &Config, flows: &mut Flows, line: &LineView<'_>) -> Result<(), SessionError>
    ensures { Leaves result flows.new (spec.script_line config.now flows.old line.now) }
{
    if !line.is_kept() {
        return Ok(());
    }
    if line.is_indented() {
        return Err(unbuilt_script(line.number()));
    }
    take_command(config, flows, line.number(), Words::of(line.text()))
}

/// The packets of the lines that are left.
pub(crate) fn script_packets(
    alloc: Global,
    config: &Config,
    lines: &mut Lines<'_>,
) -> Result<Flows, SessionError>
    ensures { Judged result (spec.script_packets config.now 0 [] lines.old.lines) }
{
    let mut flows = Flows::new(alloc);
    let mut count = 0;
    while let Some(line) = lines.next() {
        if count == MOST_LINES {
            return Err(unbuilt_script(line.number()));
        }
        take_line(config, &mut flows, &line)?;
        count += 1;
    }
    Ok(flows)
}
