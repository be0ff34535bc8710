//! How many live connections hold what.
ghost use Rattle.std.specs.Prelude.{◌≡◌, ℕ, ◌+◌, ◌<◌, ◌≤◌, ◌^◌, Bool, false, length, IfOk, []};
ghost use Rattle.asa_rings.specs.Rings.{stamp};
ghost use Rattle.asa_pools.specs.declared.key.Key.{Key};
ghost use Rattle.asa_pools.specs.Keys.{key_hash, same_key};
ghost use Rattle.asa_pools.specs.Tally.{AreRows, IsAbove, IsFound, IsMoved, Mirrors, once, row_at, times, total};

use crate::key::{Key, Wanted};
use asa_rings::Ring;
use std::alloc::{AllocError, Global};
use std::marker::Model;

/// A key and how often it is counted, at least once.
#[derive(Clone, Copy, Debug)]
pub(crate) struct Row {
    pub key: Key,
    pub count: u32,
}

/// Counts by key, which are found by a ring over their rows. All memory is taken by `new`.
#[derive(Drop)]
pub(crate) struct Tally {
    rows: Vec<Row>,
    ring: Ring,
}

impl Model for Tally {
    ghost use Rattle.asa_pools.specs.Tally.{IsTally, Tallied, tallied_of};

    ghost Value = { Tallied };

    ghost view = { tallied_of };

    ghost invariant = { IsTally };
}

/// How many rows there are.
fn row_count(rows: &[Row]) -> u32
    requires { length rows.now < 2 ^ 32 }
    ensures { result ≡ length rows.now }
{
    rows.len() as u32
}

/// The key of a row.
fn key_at(rows: &[Row], place: u32) -> Key
    requires { place < length rows.now }
    ensures { result ≡ (row_at rows.now place).key }
{
    rows[place as usize].key
}

/// The count of a row.
fn count_at(rows: &[Row], place: u32) -> u32
    requires { place < length rows.now }
    ensures { result ≡ (row_at rows.now place).count }
{
    rows[place as usize].count
}

/// A row whose key is wanted.
fn find_in_ring(ring: &Ring, rows: &[Row], wanted: Wanted) -> Option<u32>
    requires { Mirrors ring.now rows.now }
    ensures { IsFound wanted rows.now result }
{
    let places = ring.places();
    let bucket = wanted.bucket(ring.buckets());
    let mut at = ring.older(ring.end(bucket));
    while at < places {
        if wanted.passes(key_at(rows, at)) {
            return Some(at);
        }
        at = ring.older(at);
    }
    None
}

/// Where a place with a stamp joins a bucket's ring.
fn above(ring: &Ring, bucket: u32, mark: u64) -> u32
    requires { bucket < ring.now.buckets }
    ensures { IsAbove ring.now bucket mark result }
{
    let places = ring.places();
    let mut at = ring.end(bucket);
    let mut below = ring.older(at);
    while below < places && ring.stamp(below) > mark {
        at = below;
        below = ring.older(at);
    }
    at
}

/// Takes a place out of its ring, and the last place too, which joins the ring of a key at that place, if it is another.
fn move_place(ring: &mut Ring, place: u32, last: u32, moved: Key)
    requires order { place ≤ last }
    requires within { last < ring.old.places }
    requires buckets { 0 < ring.old.buckets }
    requires stamps { (q : ℕ) → q ≤ last → stamp ring.old q ≡ q + 1 }
    requires free { (q : ℕ) → last < q → q < ring.old.places → stamp ring.old q ≡ 0 }
    ensures { IsMoved place last (key_hash moved) ring.old ring.new }
{
    ring.part(place);
    if place < last {
        ring.part(last);
        let bucket = moved.bucket(ring.buckets());
        let mark = u64::from(place) + 1;
        let above = above(ring, bucket, mark);
        ring.join_below(place, mark, above);
    }
}

impl Tally {
    /// A tally of no key, with room for so many.
    pub(crate) fn new(alloc: Global, room: u32) -> Result<Tally, AllocError>
        requires { room ≤ 2 ^ 22 }
        ensures empty { IfOk result (λ t. t.rows ≡ []) }
        ensures room { IfOk result (λ t. t.room ≡ room) }
    {
        let rows = Vec::with_capacity(alloc, room as usize)?;
        let ring = Ring::new(alloc, room, room.max(1))?;
        Ok(Tally { rows, ring })
    }

    /// A row whose key is wanted.
    pub(crate) fn find(&self, wanted: Wanted) -> Option<u32>
        ensures { IsFound wanted self.now.rows result }
    {
        find_in_ring(&self.ring, &self.rows, wanted)
    }

    /// The key of a row.
    pub(crate) fn key(&self, place: u32) -> Key
        requires { place < length self.now.rows }
        ensures value { result ≡ (row_at self.now.rows place).key }
        ensures rows { AreRows self.now.rows }
    {
        key_at(&self.rows, place)
    }

    /// How often a key is counted.
    pub(crate) fn times(&self, key: Key) -> u32
        ensures { result ≡ times (same_key key) self.now.rows }
    {
        match self.find(Wanted::Key(key)) {
            Some(place) => count_at(&self.rows, place),
            None => 0,
        }
    }

    /// Counts the key of a row once more.
    fn raise(&mut self, place: u32)
        requires within { place < length self.old.rows }
        requires few { total self.old.rows < self.old.room }
        ensures each { (t : Key → Bool) → times t self.new.rows ≡ times t self.old.rows + once t (row_at self.old.rows place).key }
        ensures room { self.new.room ≡ self.old.room }
    {
        self.rows[place as usize].count += 1;
    }

    /// Counts the key of a row once less, where it isn't the last time.
    fn lower(&mut self, place: u32)
        requires within { place < length self.old.rows }
        requires more { 1 < (row_at self.old.rows place).count }
        ensures each { (t : Key → Bool) → times t self.old.rows ≡ times t self.new.rows + once t (row_at self.old.rows place).key }
        ensures room { self.new.room ≡ self.old.room }
    {
        self.rows[place as usize].count -= 1;
    }

    /// Counts a key for the first time.
    fn insert(&mut self, key: Key)
        requires new { (q : ℕ) → q < length self.old.rows → same_key key (row_at self.old.rows q).key ≡ false }
        requires few { total self.old.rows < self.old.room }
        ensures each { (t : Key → Bool) → times t self.new.rows ≡ times t self.old.rows + once t key }
        ensures room { self.new.room ≡ self.old.room }
    {
        let place = row_count(&self.rows);
        let bucket = key.bucket(self.ring.buckets());
        self.ring.join(place, u64::from(place) + 1, bucket);
        self.rows.push_reserved(Row { key, count: 1 });
    }

    /// Takes out a row whose key was counted once.
    fn erase(&mut self, place: u32)
        requires within { place < length self.old.rows }
        requires last { (row_at self.old.rows place).count ≡ 1 }
        ensures each { (t : Key → Bool) → times t self.old.rows ≡ times t self.new.rows + once t (row_at self.old.rows place).key }
        ensures room { self.new.room ≡ self.old.room }
    {
        let last = self.rows.len() as u32 - 1;
        let moved = key_at(&self.rows, last);
        self.rows.swap_remove(place as usize);
        move_place(&mut self.ring, place, last, moved);
    }

    /// Counts a key once more.
    pub(crate) fn add(&mut self, key: Key)
        requires few { total self.old.rows < self.old.room }
        ensures each { (t : Key → Bool) → times t self.new.rows ≡ times t self.old.rows + once t key }
        ensures room { self.new.room ≡ self.old.room }
    {
        match self.find(Wanted::Key(key)) {
            Some(place) => self.raise(place),
            None => self.insert(key),
        }
    }

    /// Counts a key once less.
    pub(crate) fn remove(&mut self, key: Key)
        requires counted { 0 < times (same_key key) self.old.rows }
        ensures each { (t : Key → Bool) → times t self.old.rows ≡ times t self.new.rows + once t key }
        ensures room { self.new.room ≡ self.old.room }
    {
        if let Some(place) = self.find(Wanted::Key(key)) {
            if count_at(&self.rows, place) > 1 {
                self.lower(place);
            } else {
                self.erase(place);
            }
        }
    }
}
