//! What a look-up asks of a connection.
ghost use Rattle.std.specs.Prelude.{◌≡◌};
ghost use Rattle.asa_conn_table.specs.Conns.{same_key, is_idle, time_of};
ghost use Rattle.asa_conn_table.specs.Slots.{passes, slot_passes};

use crate::conn::Conn;
use asa_base::Key;
use asa_ifaces::Timeouts;

/// Which connection a look-up is for.
#[derive(Clone, Copy, Debug)]
pub(crate) enum Wanted {
    /// The one with this id.
    Id(u64),
    /// The one with this forward key.
    Forward(Key),
    /// The one with this reply key.
    Reply(Key),
    /// One with a higher id.
    Above(u64),
    /// One that has stood still for its time at this second.
    Idle(Timeouts, u64),
}

/// Whether two keys are the same.
pub(crate) fn same_key(a: &Key, b: &Key) -> bool
    ensures { result ≡ same_key a.now b.now }
{
    a.ifc == b.ifc
        && a.proto == b.proto
        && a.kind == b.kind
        && a.src.0 == b.src.0
        && a.sport == b.sport
        && a.dst.0 == b.dst.0
        && a.dport == b.dport
}

/// How long a connection may stand still, 0 for ever.
fn time_of(times: Timeouts, conn: &Conn) -> u32
    ensures { result ≡ time_of times conn.now }
{
    if conn.forward.proto == 6 {
        if conn.fin_i || conn.fin_r {
            times.half_closed
        } else {
            times.conn
        }
    } else if conn.forward.proto == 1 {
        times.icmp
    } else {
        times.udp
    }
}

/// Whether a connection has stood still for its time.
fn is_idle(times: Timeouts, now: u64, conn: &Conn) -> bool
    ensures { result ≡ is_idle times now conn.now }
{
    let time = u64::from(time_of(times, conn));
    time > 0 && time <= now.saturating_sub(conn.used)
}

impl Wanted {
    /// Whether a connection is one that is wanted.
    fn passes(&self, conn: &Conn) -> bool
        ensures { result ≡ passes self.now conn.now }
    {
        match self {
            Wanted::Id(id) => conn.id == *id,
            Wanted::Forward(key) => same_key(key, &conn.forward),
            Wanted::Reply(key) => same_key(key, &conn.reply),
            Wanted::Above(id) => conn.id > *id,
            Wanted::Idle(times, now) => is_idle(*times, *now, conn),
        }
    }

    /// Whether a slot has a connection that is wanted.
    pub(crate) fn passes_slot(&self, slot: &Option<Conn>) -> bool
        ensures { result ≡ slot_passes (passes self.now) slot.now }
    {
        match slot {
            Some(conn) => self.passes(conn),
            None => false,
        }
    }
}
