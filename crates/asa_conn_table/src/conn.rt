//! A connection: its keys, what was decided for it, and when it was last used.
ghost use Rattle.std.specs.Prelude.{◌≡◌};
ghost use Rattle.asa_conn_table.specs.Conns.{marked};

use asa_base::{Addr, Key};
use asa_flow::Decision;

/// One of the two directions of a connection.
#[derive(Clone, Copy, Debug, PartialEq, Eq)]
pub enum Side {
    /// That of the packet that opened it.
    Forward,
    /// That of the packets that answer.
    Reply,
}

/// What a connection holds of the pool of its dynamic rule.
#[derive(Clone, Copy, Debug, PartialEq, Eq)]
pub enum Xlate {
    /// Nothing.
    None,
    /// A port of an address for a protocol. `to` is the real destination and its port where the translation is extended,
    /// and None for a plain one.
    Pat {
        proto: u8,
        addr: Addr,
        port: u16,
        to: Option<(Addr, u16)>,
    },
    /// A whole address.
    Bound {
        addr: Addr,
    },
}

/// A live connection.
#[derive(Clone, Debug, PartialEq, Eq, Drop)]
pub struct Conn {
    /// Its number, from 1; a later connection has a higher one.
    pub id: u64,
    /// The key of the packets from the side that opened it.
    pub forward: Key,
    /// The key of the packets from the other side.
    pub reply: Key,
    /// How many edits were published when it opened.
    pub policy: u64,
    /// What was decided for the packet that opened it.
    pub decision: Decision,
    /// What it holds of a pool.
    pub xlate: Xlate,
    /// Whether a FIN was seen from the side that opened it.
    pub fin_i: bool,
    /// Whether a FIN was seen from the other side.
    pub fin_r: bool,
    /// When it was last used, in seconds since the start of the run.
    pub used: u64,
}

impl Conn {
    /// A copy; takes no memory.
    pub fn copy(&self) -> Conn
        ensures { result ≡ self.now }
    {
        match self.clone() {
            Ok(conn) => conn,
            Err(_) => unreachable!(),
        }
    }

    /// Sets the FIN mark of a side, and when it was last used.
    pub(crate) fn mark(&mut self, side: Side, now: u64)
        ensures { self.new ≡ marked self.old.id side now self.old }
    {
        match side {
            Side::Forward => self.fin_i = true,
            Side::Reply => self.fin_r = true,
        }
        self.used = now;
    }
}
