//! Slots for connections, with rings by which they are found.
ghost use Rattle.std.specs.Prelude.{◌≡◌, ℕ, ◌+◌, ◌<◌, ◌≤◌, ◌^◌, nat_lt, List, length, set, Some, None, All, IfOk, is_some, true};
ghost use Rattle.std.specs.Option.{option_copied, option_map};
ghost use Rattle.asa_rings.specs.Rings.{Rings};
ghost use Rattle.asa_conn_table.specs.declared.conn.Conn.{Conn};
ghost use Rattle.asa_conn_table.specs.Conns.{marked, touched, has_id};
ghost use Rattle.asa_conn_table.specs.Slots.{IsLatest, IsLeast, IsPlace, passes, slot, slot_passes};
ghost use Rattle.asa_conn_table.specs.Shelf.{IsInRing, Mirrors};
ghost use Rattle.asa_conn_table.specs.Hash.{key_bucket};
ghost use Rattle.asa_conn_table.specs.declared.wanted.Wanted.TheVariants as wanted;

use crate::conn::{Conn, Side};
use crate::hash::{id_bucket, key_bucket};
use crate::wanted::Wanted;
use asa_base::Key;
use asa_rings::Ring;
use std::alloc::{AllocError, Global};
use std::marker::Model;

/// Slots, and four rings over their places: by the hash of each key, by id, and all connections by rising id. A place is
/// stamped with its connection's id. Contracts see the slots.
#[derive(Drop)]
pub(crate) struct Shelf {
    slots: Vec<Option<Conn>>,
    forward: Ring,
    reply: Ring,
    ids: Ring,
    order: Ring,
}

impl Model for Shelf {
    ghost use Rattle.asa_conn_table.specs.Slots.{Slots};
    ghost use Rattle.asa_conn_table.specs.Shelf.{IsShelf, slots_of};

    ghost Value = { Slots };

    ghost view = { slots_of };

    ghost invariant = { IsShelf };
}

/// Free slots.
fn free_slots(alloc: Global, capacity: u32) -> Result<Vec<Option<Conn>>, AllocError>
    ensures long { IfOk result (λ v. length v.items ≡ capacity) }
    ensures empty { IfOk result (λ v. (p : ℕ) → slot v.items p ≡ None) }
{
    let mut slots = Vec::with_capacity(alloc, capacity as usize)?;
    for x in 0..capacity {
        slots.push(None)?;
    }
    Ok(slots)
}

/// The place of the latest connection in a bucket's ring that is wanted.
fn latest_in_ring(ring: &Ring, slots: &[Option<Conn>], bucket: u32, wanted: &Wanted) -> Option<u32>
    requires long { ring.now.places ≡ length slots.now }
    requires within { bucket < ring.now.buckets }
    ensures { IsInRing (passes wanted.now) ring.now bucket slots.now result }
{
    let places = ring.places();
    let mut at = ring.older(ring.end(bucket));
    while at < places {
        if wanted.passes_slot(&slots[at as usize]) {
            return Some(at);
        }
        at = ring.older(at);
    }
    None
}

/// The place of the connection with the least id that is wanted, by a ring of all by rising id.
fn least_in_ring(ring: &Ring, slots: &[Option<Conn>], wanted: &Wanted) -> Option<u32>
    requires { Mirrors (λ _ _. 0) ring.now slots.now }
    ensures { IsLeast (passes wanted.now) slots.now result }
{
    let places = ring.places();
    let mut at = ring.newer(ring.end(0));
    while at < places {
        if wanted.passes_slot(&slots[at as usize]) {
            return Some(at);
        }
        // Only for the proof: a stamp fits its type, so that the stamps to come are ever fewer.
        let _stamp = ring.stamp(at);
        at = ring.newer(at);
    }
    None
}

impl Shelf {
    /// A shelf of free slots.
    pub(crate) fn new(alloc: Global, capacity: u32) -> Result<Shelf, AllocError>
        requires { capacity ≤ 2 ^ 20 }
        ensures long { IfOk result (λ s. length s.slots ≡ capacity) }
        ensures empty { IfOk result (λ s. (p : ℕ) → slot s.slots p ≡ None) }
    {
        let buckets = capacity.max(1);
        let slots = free_slots(alloc, capacity)?;
        Ok(Shelf {
            slots,
            forward: Ring::new(alloc, capacity, buckets)?,
            reply: Ring::new(alloc, capacity, buckets)?,
            ids: Ring::new(alloc, capacity, buckets)?,
            order: Ring::new(alloc, capacity, 1)?,
        })
    }

    /// How many slots there are.
    pub(crate) fn places(&self) -> u32
        ensures { result ≡ length self.now.slots }
    {
        self.order.places()
    }

    /// The connection in a slot.
    pub(crate) fn get(&self, place: u32) -> Option<&Conn>
        requires { place < length self.now.slots }
        ensures { option_copied result ≡ slot self.now.slots place }
    {
        self.slots[place as usize].as_ref()
    }

    /// The place of the connection with an id.
    pub(crate) fn with_id(&self, id: u64) -> Option<u32>
        ensures { IsPlace (has_id id) self.now.slots result }
    {
        let bucket = id_bucket(id, self.ids.buckets());
        latest_in_ring(&self.ids, &self.slots, bucket, &Wanted::Id(id))
    }

    /// The place of the connection with a key on its forward side.
    pub(crate) fn with_forward(&self, key: &Key) -> Option<u32>
        ensures { IsPlace (passes (wanted.Forward key.now)) self.now.slots result }
    {
        let bucket = key_bucket(key, self.forward.buckets());
        latest_in_ring(&self.forward, &self.slots, bucket, &Wanted::Forward(*key))
    }

    /// The place of the connection with a key on its reply side.
    pub(crate) fn with_reply(&self, key: &Key) -> Option<u32>
        ensures { IsPlace (passes (wanted.Reply key.now)) self.now.slots result }
    {
        let bucket = key_bucket(key, self.reply.buckets());
        latest_in_ring(&self.reply, &self.slots, bucket, &Wanted::Reply(*key))
    }

    /// The place of the connection with the least id that is wanted.
    pub(crate) fn least(&self, wanted: &Wanted) -> Option<u32>
        ensures { IsLeast (passes wanted.now) self.now.slots result }
    {
        least_in_ring(&self.order, &self.slots, wanted)
    }

    /// The place of the connection with the next id after that of a slot.
    fn next(&self, place: u32) -> Option<u32>
        requires within { place < length self.now.slots }
        requires taken { is_some (slot self.now.slots place) ≡ true }
        ensures { (c : Conn) → slot self.now.slots place ≡ Some c → IsLeast (λ d. nat_lt c.id d.id) self.now.slots result }
    {
        let next = self.order.newer(place);
        if next < self.order.places() {
            Some(next)
        } else {
            None
        }
    }

    /// The place of the connection with the least id above one.
    pub(crate) fn after(&self, id: u64) -> Option<u32>
        ensures { IsLeast (λ d. nat_lt id d.id) self.now.slots result }
    {
        match self.with_id(id) {
            Some(place) => self.next(place),
            None => self.least(&Wanted::Above(id)),
        }
    }

    /// The highest id.
    pub(crate) fn latest(&self) -> Option<u64>
        ensures { IsLatest self.now.slots result }
    {
        let last = self.order.older(self.order.end(0));
        if last < self.order.places() {
            Some(self.order.stamp(last))
        } else {
            None
        }
    }

    /// Puts a connection into a free slot. Its id is above all others.
    pub(crate) fn put(&mut self, place: u32, conn: Conn)
        requires within { place < length self.old.slots }
        requires free { slot self.old.slots place ≡ None }
        requires first { 0 < conn.id }
        requires newest { (q : ℕ) (d : Conn) → slot self.old.slots q ≡ Some d → d.id < conn.id }
        ensures { self.new.slots ≡ set self.old.slots place (Some conn) }
    {
        let forward = key_bucket(&conn.forward, self.forward.buckets());
        let reply = key_bucket(&conn.reply, self.reply.buckets());
        let number = id_bucket(conn.id, self.ids.buckets());
        self.forward.join(place, conn.id, forward);
        self.reply.join(place, conn.id, reply);
        self.ids.join(place, conn.id, number);
        self.order.join(place, conn.id, 0);
        self.slots[place as usize] = Some(conn);
    }

    /// Takes a connection out of its slot.
    pub(crate) fn take(&mut self, place: u32) -> Option<Conn>
        requires within { place < length self.old.slots }
        requires taken { is_some (slot self.old.slots place) ≡ true }
        ensures result { result ≡ slot self.old.slots place }
        ensures after { self.new.slots ≡ set self.old.slots place None }
    {
        self.forward.part(place);
        self.reply.part(place);
        self.ids.part(place);
        self.order.part(place);
        self.slots[place as usize].take()
    }

    /// Sets when the connection in a slot was last used.
    pub(crate) fn touch(&mut self, place: u32, now: u64)
        requires within { place < length self.old.slots }
        ensures { (c : Conn) → slot self.old.slots place ≡ Some c → self.new.slots ≡ set self.old.slots place (Some (touched c.id now c)) }
    {
        if let Some(conn) = &mut self.slots[place as usize] {
            conn.used = now;
        }
    }

    /// Sets the FIN mark of a side of the connection in a slot, and when it was last used.
    pub(crate) fn mark(&mut self, place: u32, side: Side, now: u64)
        requires within { place < length self.old.slots }
        ensures { (c : Conn) → slot self.old.slots place ≡ Some c → self.new.slots ≡ set self.old.slots place (Some (marked c.id side now c)) }
    {
        if let Some(conn) = &mut self.slots[place as usize] {
            conn.mark(side, now);
        }
    }
}
