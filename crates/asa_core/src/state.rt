//! The state of the machine, and what an entry changes in it.
ghost use Rattle.std.specs.Prelude.{◌≡◌, ◌<◌, ◌≤◌, length, map, All, AllPairs, IfOk};
ghost use Rattle.asa_config.specs.Steps.{startup_edit, config_of};
ghost use Rattle.asa_core.specs.Machine.{ruling, init, may_open, with_conn, applied};

use crate::history::{Conn, Entry, Load};
use asa_policy::Policy;
use asa_session::Session;
use asa_text::Block;
use std::alloc::{AllocError, Global};
use std::marker::Model;

/// The state of the machine: the edits, the policy compiled from the published ones, the live connections and the
/// clock. It has room for as many connections as may live, so that no change of it takes memory.
#[derive(Drop)]
pub struct State<'a> {
    edits: &'a [Block],
    published: u64,
    policy: Policy,
    conns: Vec<Conn>,
    capacity: u32,
    next: u64,
    clock: u64,
}

impl<'a> Model for State<'a> {
    ghost use Rattle.asa_core.specs.Machine.{Machine};

    ghost Value = { Machine };

    ghost use Rattle.asa_core.specs.State.{machine_of, IsHeld};

    ghost view = { machine_of };

    ghost invariant = { IsHeld };
}

impl<'a> State<'a> {
    /// The state that a session starts from, where at most `capacity` connections may live at once.
    #[tactic(auto, using(crate::proofs::StateLaws::all_startup))]
    pub fn new(
        alloc: Global,
        session: &'a Session,
        policy: Policy,
        capacity: u32,
    ) -> Result<State<'a>, AllocError>
        requires configured { session.now.config ≡ config_of (map startup_edit session.now.startup) }
        requires compiled { policy ≡ session.now.config }
        ensures started { IfOk result (λ s. s ≡ init session.now capacity) }
        ensures rules { IfOk result (λ s. ruling s ≡ session.now.config) }
    {
        let conns = Vec::with_capacity(alloc, capacity as usize)?;
        let edits = session.startup.as_slice();
        Ok(State {
            edits,
            published: edits.len() as u64,
            policy,
            conns,
            capacity,
            next: 1,
            clock: 0,
        })
    }

    /// The policy that rules.
    pub(crate) fn policy(&self) -> &Policy
        ensures { result.now ≡ ruling self.now }
    {
        &self.policy
    }

    /// How many edits are published.
    pub fn published(&self) -> u64
        ensures { result ≡ self.now.published }
    {
        self.published
    }

    /// The seconds since the start of the run.
    pub fn clock(&self) -> u64
        ensures { result ≡ self.now.clock }
    {
        self.clock
    }

    /// The id of the next connection.
    pub fn next_id(&self) -> u64
        ensures { result ≡ self.now.next }
    {
        self.next
    }

    /// The live connections by rising id.
    pub fn conns(&self) -> &[Conn]
        ensures value { result.now ≡ self.now.conns }
        ensures rising { AllPairs (λ a b. a.id < b.id) result.now }
        ensures below { All (λ c. c.id < self.now.next) result.now }
        ensures few { length result.now ≤ self.now.capacity }
    {
        self.conns.as_slice()
    }

    /// Whether a connection can be added under this id.
    fn may_open(&self, id: u64, conn: &Conn) -> bool
        ensures { result ≡ may_open self.now id conn.now }
    {
        id == self.next && conn.id == self.next && self.conns.len() < self.capacity as usize
    }

    /// Adds a connection.
    fn open(&mut self, conn: Conn)
        requires room { length self.old.conns < self.old.capacity }
        requires next { conn.id ≡ self.old.next }
        ensures { self.new ≡ with_conn self.old conn }
    {
        self.conns.push_reserved(conn);
        self.next += 1;
    }
}

/// Changes the state by an entry with its load. It takes no memory. An entry that can't be at this state, or that
/// carries what isn't its own, changes nothing.
#[tactic(auto, unfolding(crate::specs::Machine::applied))]
pub fn apply(s: &mut State<'_>, entry: &Entry, load: Load)
    ensures applied { s.new ≡ applied s.old entry.now load }
    ensures rules { ruling s.new ≡ ruling s.old }
{
    match (entry, load) {
        (Entry::Opened { id, .. }, Load::Opened(conn)) => {
            if s.may_open(*id, &conn) {
                s.open(conn);
            }
        }
        (Entry::Opened { .. }, Load::Nothing) => {}
    }
}
