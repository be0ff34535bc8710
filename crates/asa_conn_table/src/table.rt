//! The table of live connections.
ghost use Rattle.std.specs.Prelude.{◌≡◌, ℕ, ◌+◌, ◌<◌, ◌≤◌, ◌^◌, ◌++◌, ◌∷◌, [], true, length, map, slice_index, vec_capacity, Some, None, IfOk};
ghost use Rattle.std.specs.Option.{option_copied};
ghost use Rattle.asa_conn_table.specs.Conns as spec;

use crate::conn::{Conn, Side};
use crate::shelf::Shelf;
use crate::wanted::{Wanted, same_key};
use asa_base::Key;
use asa_ifaces::Timeouts;
use std::alloc::{AllocError, Global};
use std::marker::Model;

/// The live connections. Contracts see their list by rising id (`conns`), and how many may live at once (`room`). All
/// memory is taken by `new`.
#[derive(Drop)]
pub struct ConnTable {
    shelf: Shelf,
    free: Vec<u32>,
}

impl Model for ConnTable {
    ghost use Rattle.asa_conn_table.specs.Table.{IsTable, table_of};
    ghost use Rattle.asa_conn_table.specs.Conns.{Table};

    ghost Value = { Table };

    ghost view = { table_of };

    ghost invariant = { IsTable };
}

/// The places of so many free slots.
fn free_places(alloc: Global, capacity: u32) -> Result<Vec<u32>, AllocError>
    ensures room { IfOk result (λ v. capacity ≤ vec_capacity v) }
    ensures long { IfOk result (λ v. length v.items ≡ capacity) }
    ensures each { IfOk result (λ v. (k : ℕ) → k < capacity → slice_index v.items k ≡ k) }
{
    let mut places = Vec::with_capacity(alloc, capacity as usize)?;
    for x in 0..capacity {
        places.push_reserved(x);
    }
    Ok(places)
}

impl ConnTable {
    /// A table in which at most `capacity` connections live at once, at most 1,048,576.
    pub fn new(alloc: Global, capacity: u32) -> Result<ConnTable, AllocError>
        requires { capacity ≤ 2 ^ 20 }
        ensures empty { IfOk result (λ t. t.conns ≡ []) }
        ensures room { IfOk result (λ t. t.room ≡ capacity) }
    {
        let free = free_places(alloc, capacity)?;
        let shelf = Shelf::new(alloc, capacity)?;
        Ok(ConnTable { shelf, free })
    }

    /// How many connections live.
    pub fn len(&self) -> u32
        ensures value { result ≡ length self.now.conns }
        ensures sound { spec.IsSound self.now }
    {
        self.shelf.places() - self.free.len() as u32
    }

    /// How many connections may live at once.
    pub fn capacity(&self) -> u32
        ensures { result ≡ self.now.room }
    {
        self.shelf.places()
    }

    /// The connection that holds a key, and the side whose key it is.
    pub fn find(&self, key: &Key) -> Option<(u64, Side)>
        ensures { result ≡ spec.found key.now self.now.conns }
    {
        if let Some(place) = self.shelf.with_forward(key) {
            return Some((self.shelf.get(place)?.id, Side::Forward));
        }
        let place = self.shelf.with_reply(key)?;
        Some((self.shelf.get(place)?.id, Side::Reply))
    }

    /// The connection with an id.
    pub fn get(&self, id: u64) -> Option<&Conn>
        ensures { option_copied result ≡ spec.conn_of id self.now.conns }
    {
        let place = self.shelf.with_id(id)?;
        self.shelf.get(place)
    }

    /// Whether an id is above those of all live connections.
    fn is_newest(&self, id: u64) -> bool
        ensures { result ≡ spec.is_newest id self.now.conns }
    {
        match self.shelf.latest() {
            Some(latest) => latest < id,
            None => true,
        }
    }

    /// Whether a connection may be added: there is room, its id is at least 1 and above all, and neither of its keys is
    /// that of a live connection or the other one.
    pub fn can_add(&self, conn: &Conn) -> bool
        ensures { result ≡ spec.can_add self.now conn.now }
    {
        self.len() < self.capacity()
            && conn.id > 0
            && self.is_newest(conn.id)
            && self.find(&conn.forward).is_none()
            && self.find(&conn.reply).is_none()
            && !same_key(&conn.forward, &conn.reply)
    }

    /// Adds a connection, which `can_add` allows.
    pub fn add(&mut self, conn: Conn)
        requires { spec.can_add self.old conn ≡ true }
        ensures value { self.new.conns ≡ self.old.conns ++ conn ∷ [] }
        ensures room { self.new.room ≡ self.old.room }
    {
        if let Some(place) = self.free.pop() {
            self.shelf.put(place, conn);
        }
    }

    /// Removes the connection with an id, and gives it back.
    pub fn remove(&mut self, id: u64) -> Option<Conn>
        ensures result { result ≡ spec.conn_of id self.old.conns }
        ensures value { self.new.conns ≡ spec.without id self.old.conns }
        ensures room { self.new.room ≡ self.old.room }
    {
        let place = self.shelf.with_id(id)?;
        let conn = self.shelf.take(place);
        self.free.push_reserved(place);
        conn
    }

    /// Sets the FIN mark of a side of the connection with an id, and `now` as its last use. Without such a connection
    /// nothing changes.
    pub fn mark(&mut self, id: u64, side: Side, now: u64)
        ensures value { self.new.conns ≡ map (spec.marked id side now) self.old.conns }
        ensures room { self.new.room ≡ self.old.room }
    {
        if let Some(place) = self.shelf.with_id(id) {
            self.shelf.mark(place, side, now);
        }
    }

    /// Sets `now` as the last use of the connection with an id. Without such a connection nothing changes.
    pub fn touch(&mut self, id: u64, now: u64)
        ensures value { self.new.conns ≡ map (spec.touched id now) self.old.conns }
        ensures room { self.new.room ≡ self.old.room }
    {
        if let Some(place) = self.shelf.with_id(id) {
            self.shelf.touch(place, now);
        }
    }

    /// The least id of a connection that has stood still for its time. It goes over the connections.
    pub fn next_idle(&self, times: Timeouts, now: u64) -> Option<u64>
        ensures { result ≡ spec.next_idle times now self.now.conns }
    {
        let place = self.shelf.least(&Wanted::Idle(times, now))?;
        Some(self.shelf.get(place)?.id)
    }

    /// The least id above one. It goes over the connections only where none with that id lives.
    pub fn next_after(&self, id: u64) -> Option<u64>
        ensures { result ≡ spec.next_after id self.now.conns }
    {
        let place = self.shelf.after(id)?;
        Some(self.shelf.get(place)?.id)
    }
}
