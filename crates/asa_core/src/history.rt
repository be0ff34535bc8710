//! What a run is told in: entries that change the state, answers to commands, and a report for each phase.
use asa_base::{Header, Key};
use asa_flow::{Decision, DropReason};
use asa_text::Items;

/// A live connection.
#[derive(Debug, Drop)]
pub struct Conn {
    /// Its number; the first connection of a run has 1.
    pub id: u64,
    /// The key of the packet that opened it.
    pub forward: Key,
    /// The key of the packets that answer it.
    pub reply: Key,
    /// How many edits were published when it opened.
    pub policy: u64,
    /// What was decided for the packet that opened it.
    pub decision: Decision,
    /// When it was last used, in seconds since the start of the run.
    pub used: u64,
}

/// A change of the state, by which command it came.
#[derive(Clone, Debug, PartialEq, Eq, Drop)]
pub enum Entry {
    /// The command with this index of this lane opened the connection with this id.
    Opened { lane: u8, index: u32, id: u64 },
}

/// The answer to a command.
#[derive(Clone, Debug, PartialEq, Eq, Drop)]
pub enum Answer {
    /// The packet leaves on the interface `egress` with the header `out`, and opens the connection `id`.
    Opened {
        id: u64,
        egress: u8,
        out: Header,
        policy: u64,
        decision: Decision,
    },
    /// The packet is dropped, as the first `policy` edits want it.
    Dropped {
        reason: DropReason,
        policy: u64,
    },
}

/// What an entry carries into the state besides what it tells.
#[derive(Debug, Drop)]
pub enum Load {
    /// Nothing more.
    Nothing,
    /// The connection that is opened.
    Opened(Conn),
}

/// The answer to one command of a phase.
#[derive(Debug, Drop)]
pub struct Given {
    /// The command's lane, from 1.
    pub lane: u8,
    /// The command's index in its lane, from 1.
    pub index: u32,
    /// The length of the prefix of the history at which the answer holds.
    pub number: u64,
    /// The answer.
    pub answer: Answer,
}

/// What came of one phase.
#[derive(Debug, Drop)]
pub struct PhaseReport {
    /// The entries that the history gained, in order.
    pub entries: Items<Entry>,
    /// The answers, in the order of lane, then index.
    pub given: Items<Given>,
    /// The text of the table that the phase's end asks for; empty where it asks for none.
    pub table: Items<u8>,
}
