//! What the machine answers to a command, and the entry with which the command changes its state.
ghost use Rattle.std.specs.Prelude.{◌≡◌, IsTrue};
ghost use Rattle.asa_session.specs.Readiness.{enters_named};
ghost use Rattle.asa_core.specs.Machine.{ruling, out_of, decided, reply, opened, load_of, entry_of, change_by, change};

use crate::history::{Answer, Conn, Entry, Load};
use crate::state::State;
use asa_base::{Counter, Header, Packet};
use asa_flow::{Decision, DropReason, key_of, reply_key};
use asa_policy::begun_trail;
use asa_session::Command;

/// The header with which a packet leaves.
fn out_of(p: &Packet, decision: &Decision) -> Header
    ensures { result ≡ out_of p.now decision.now }
{
    Header {
        src: p.src,
        sport: p.sport,
        dst: decision.dst,
        dport: decision.dport,
    }
}

/// The answer to a packet under what the ruling policy decides.
fn answer_of(s: &State<'_>, p: &Packet, outcome: Result<Decision, DropReason>) -> Answer
    ensures { result ≡ decided s.now p.now outcome }
{
    match outcome {
        Ok(decision) => Answer::Opened {
            id: s.next_id(),
            egress: decision.egress,
            out: out_of(p, &decision),
            policy: s.published(),
            decision,
        },
        Err(reason) => Answer::Dropped {
            reason,
            policy: s.published(),
        },
    }
}

/// The answer to a command at a state.
#[tactic(auto, unfolding(crate::specs::Machine::reply))]
pub fn reply(s: &State<'_>, command: &Command) -> Answer
    requires { IsTrue (enters_named (ruling s.now) command.now) }
    ensures { result ≡ reply s.now command.now }
{
    match command {
        Command::Packet(p) => {
            let mut trail = begun_trail();
            let mut counter = Counter::new();
            let outcome = s.policy().decide(p, &mut trail, &mut counter);
            answer_of(s, p, outcome)
        }
    }
}

/// The connection that an answer opens for a packet.
fn opened(s: &State<'_>, p: &Packet, answer: &Answer) -> Load
    ensures { result ≡ opened s.now p.now answer.now }
{
    match answer {
        Answer::Opened {
            id,
            egress,
            out,
            policy,
            decision,
        } => Load::Opened(Conn {
            id: *id,
            forward: key_of(p),
            reply: reply_key(p, *out, *egress),
            policy: *policy,
            decision: decision.copy(),
            used: s.clock(),
        }),
        Answer::Dropped { .. } => Load::Nothing,
    }
}

/// What the entry of an answer to a command carries.
fn load_of(s: &State<'_>, command: &Command, answer: &Answer) -> Load
    ensures { result ≡ load_of s.now command.now answer.now }
{
    match command {
        Command::Packet(p) => opened(s, p, answer),
    }
}

/// The entry of an answer.
fn entry_of(lane: u8, index: u32, answer: &Answer) -> Option<Entry>
    ensures { result ≡ entry_of lane index answer.now }
{
    match answer {
        Answer::Opened { id, .. } => Some(Entry::Opened {
            lane,
            index,
            id: *id,
        }),
        Answer::Dropped { .. } => None,
    }
}

/// The entry of an answer to a command, with its load.
pub(crate) fn change_by(
    s: &State<'_>,
    lane: u8,
    index: u32,
    command: &Command,
    answer: &Answer,
) -> Option<(Entry, Load)>
    ensures { result ≡ change_by s.now lane index command.now answer.now }
{
    match entry_of(lane, index, answer) {
        Some(entry) => Some((entry, load_of(s, command, answer))),
        None => None,
    }
}

/// The entry with which the command with this index of this lane changes the state, with its load; none where the
/// command changes nothing.
pub fn change(s: &State<'_>, lane: u8, index: u32, command: &Command) -> Option<(Entry, Load)>
    requires { IsTrue (enters_named (ruling s.now) command.now) }
    ensures { result ≡ change s.now lane index command.now }
{
    change_by(s, lane, index, command, &reply(s, command))
}
