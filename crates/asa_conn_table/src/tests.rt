//! What lies outside the contracts: the table beside the plain list over mixed calls, and times from the rules.
use crate::{Conn, ConnTable, Side, Xlate};
use asa_base::{AccessBy, Addr, Key};
use asa_flow::{Decision, Route, SourceMap};
use asa_ifaces::Timeouts;
use std::test::Fail;

const TIMES: Timeouts = Timeouts {
    conn: 3600,
    half_closed: 600,
    udp: 120,
    icmp: 2,
};

fn key(ifc: u8, proto: u8, client: u32) -> Key {
    Key {
        ifc,
        proto,
        kind: 0,
        src: Addr(client),
        sport: 1024,
        dst: Addr(7),
        dport: 80,
    }
}

/// A connection of the client with this number, whose answers come in on interface 1.
fn conn(id: u64, proto: u8, client: u32, used: u64) -> Conn {
    Conn {
        id,
        forward: key(0, proto, client),
        reply: key(1, proto, client),
        policy: 1,
        decision: Decision {
            egress: 1,
            dst: Addr(7),
            dport: 80,
            source: SourceMap::Plain,
            unnat: None,
            route: Route::Connected,
            inbound: AccessBy::Level,
            outbound: AccessBy::NoList,
        },
        xlate: Xlate::None,
        fin_i: false,
        fin_r: false,
        used,
    }
}

/// The plain list, whose calls go over it.
#[derive(Drop)]
struct Plain {
    conns: Vec<Conn>,
}

/// How long a connection may stand still.
fn time_of(conn: &Conn) -> u64 {
    let time = match conn.forward.proto {
        6 if conn.fin_i || conn.fin_r => TIMES.half_closed,
        6 => TIMES.conn,
        1 => TIMES.icmp,
        _ => TIMES.udp,
    };
    u64::from(time)
}

impl Plain {
    fn find(&self, key: &Key) -> Option<(u64, Side)> {
        for conn in &self.conns {
            if conn.forward == *key {
                return Some((conn.id, Side::Forward));
            }
            if conn.reply == *key {
                return Some((conn.id, Side::Reply));
            }
        }
        None
    }

    fn get(&self, id: u64) -> Option<&Conn> {
        for conn in &self.conns {
            if conn.id == id {
                return Some(conn);
            }
        }
        None
    }

    fn remove(&mut self, id: u64) {
        self.conns.retain(|conn| conn.id != id);
    }

    fn mark(&mut self, id: u64, side: Side, now: u64) {
        for conn in self.conns.iter_mut() {
            if conn.id == id {
                match side {
                    Side::Forward => conn.fin_i = true,
                    Side::Reply => conn.fin_r = true,
                }
                conn.used = now;
            }
        }
    }

    fn touch(&mut self, id: u64, now: u64) {
        for conn in self.conns.iter_mut() {
            if conn.id == id {
                conn.used = now;
            }
        }
    }

    fn next_idle(&self, now: u64) -> Option<u64> {
        for conn in &self.conns {
            if now.saturating_sub(conn.used) >= time_of(conn) {
                return Some(conn.id);
            }
        }
        None
    }

    fn next_after(&self, id: u64) -> Option<u64> {
        for conn in &self.conns {
            if conn.id > id {
                return Some(conn.id);
            }
        }
        None
    }
}

/// The next number of a fixed sequence.
fn next(number: u32) -> u32 {
    number.wrapping_mul(1_664_525).wrapping_add(1_013_904_223)
}

/// Whether the table and the list answer alike about a client and an id.
fn are_alike(table: &ConnTable, plain: &Plain, client: u32, id: u64, now: u64) -> bool {
    let forward = key(0, 6, client);
    let reply = key(1, 6, client);
    table.len() as usize == plain.conns.len()
        && table.find(&forward) == plain.find(&forward)
        && table.find(&reply) == plain.find(&reply)
        && table.get(id) == plain.get(id)
        && table.next_after(id) == plain.next_after(id)
        && table.next_idle(TIMES, now) == plain.next_idle(now)
}

/// Opens the connection of a client in the table and the list, if the table may.
fn open(
    table: &mut ConnTable,
    plain: &mut Plain,
    id: u64,
    client: u32,
    now: u64,
) -> Result<(), Fail> {
    let new = conn(id, 6, client, now);
    if table.can_add(&new) {
        plain.conns.push(new.copy())?;
        table.add(new);
    }
    Ok(())
}

#[test]
fn the_table_answers_as_the_list_does(rt: HostRuntime) -> Result<(), Fail> {
    let mut table = ConnTable::new(rt.alloc(), 40)?;
    let mut plain = Plain {
        conns: Vec::new(rt.alloc()),
    };
    let mut seed = 1;
    let mut alike = true;
    for id in 1..600u64 {
        seed = next(seed);
        let client = (seed >> 16) % 64;
        let now = id * 20;
        open(&mut table, &mut plain, id, client, now)?;
        let other = u64::from(seed >> 8) % 600;
        match seed >> 30 {
            0 => {
                alike = alike && table.remove(other).is_some() == plain.get(other).is_some();
                plain.remove(other);
            }
            1 => {
                table.mark(other, Side::Reply, now);
                plain.mark(other, Side::Reply, now);
            }
            2 => {
                table.mark(other, Side::Forward, now);
                plain.mark(other, Side::Forward, now);
            }
            _ => {
                table.touch(other, now);
                plain.touch(other, now);
            }
        }
        alike = alike && are_alike(&table, &plain, client, other, now);
    }
    assert!(rt; alike && table.len() > 20);
    Ok(())
}

#[test]
fn a_connection_is_found_by_either_key_until_it_is_removed(rt: HostRuntime) -> Result<(), Fail> {
    let mut table = ConnTable::new(rt.alloc(), 2)?;
    let first = conn(1, 6, 100, 0);
    if table.can_add(&first) {
        table.add(first);
    }
    let forward = table.find(&key(0, 6, 100));
    let reply = table.find(&key(1, 6, 100));
    let removed = table.remove(1).is_some();
    assert_eq!(rt;
        (
            forward,
            reply,
            removed,
            table.find(&key(0, 6, 100)),
            table.find(&key(1, 6, 100))
        ),
        (
            Some((1, Side::Forward)),
            Some((1, Side::Reply)),
            true,
            None,
            None
        )
    );
    Ok(())
}

#[test]
fn each_protocol_has_its_own_time(rt: HostRuntime) -> Result<(), Fail> {
    let mut table = ConnTable::new(rt.alloc(), 3)?;
    let mut plain = Plain {
        conns: Vec::new(rt.alloc()),
    };
    open(&mut table, &mut plain, 1, 100, 0)?;
    let udp = conn(2, 17, 101, 0);
    if table.can_add(&udp) {
        table.add(udp);
    }
    let icmp = conn(3, 1, 102, 0);
    if table.can_add(&icmp) {
        table.add(icmp);
    }
    // 2 seconds for ICMP, 120 for UDP, 3600 for TCP, and 600 once a side has closed.
    assert_eq!(rt;
        (table.next_idle(TIMES, 1), table.next_idle(TIMES, 2)),
        (None, Some(3))
    );
    table.touch(3, 5000);
    assert_eq!(rt;
        (table.next_idle(TIMES, 119), table.next_idle(TIMES, 120)),
        (None, Some(2))
    );
    table.touch(2, 5000);
    assert_eq!(rt;
        (table.next_idle(TIMES, 3599), table.next_idle(TIMES, 3600)),
        (None, Some(1))
    );
    table.mark(1, Side::Reply, 3600);
    assert_eq!(rt;
        (table.next_idle(TIMES, 4199), table.next_idle(TIMES, 4200)),
        (None, Some(1))
    );
    Ok(())
}

#[test]
fn a_full_table_takes_no_connection_and_a_held_key_neither(rt: HostRuntime) -> Result<(), Fail> {
    let mut table = ConnTable::new(rt.alloc(), 2)?;
    let first = conn(1, 6, 100, 0);
    if table.can_add(&first) {
        table.add(first);
    }
    let held = table.can_add(&conn(2, 6, 100, 0));
    let low = table.can_add(&conn(1, 6, 101, 0));
    let second = conn(2, 6, 101, 0);
    if table.can_add(&second) {
        table.add(second);
    }
    let full = table.can_add(&conn(3, 6, 102, 0));
    assert_eq!(rt;
        (held, low, full, table.len(), table.capacity()),
        (false, false, false, 2, 2)
    );
    Ok(())
}
