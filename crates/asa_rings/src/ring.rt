//! Rings of places: a hash bucket's places, or all places in one order.
ghost use Rattle.std.specs.Prelude.{◌≡◌, ◌≢◌, ℕ, ◌+◌, ◌-◌, ◌<◌, ◌≤◌, ◌^◌, length, slice_index, slice_set, IfOk};
ghost use Rattle.asa_rings.specs.Rings.{Present, In, stamp, bucket, end_of, IsRing, IsJoined, IsParted, IsNextOlder, IsNextNewer};

use std::alloc::{AllocError, Global};
use std::marker::Model;

/// Rings over `places` places, one for each of `buckets` buckets. A place is in at most one ring, where it has a stamp; a
/// ring goes from its end down by stamps, and back to its end. The end of bucket `c` has the number `places + c`.
#[derive(Drop)]
pub struct Ring {
    places: u32,
    buckets: u32,
    stamps: Vec<u64>,
    homes: Vec<u32>,
    olders: Vec<u32>,
    newers: Vec<u32>,
}

impl Model for Ring {
    ghost use Rattle.asa_rings.specs.Rings.{Rings, IsRing};

    ghost Value = { Rings };

    ghost view = { λ r. record {
      places = r.places;
      buckets = r.buckets;
      stamps = r.stamps.items;
      homes = r.homes.items;
      olders = r.olders.items;
      newers = r.newers.items;
    } };

    ghost invariant = { λ r. IsRing r.places r.buckets r.stamps.items r.homes.items r.olders.items r.newers.items };
}

/// A list of `total` numbers: from `places` on each is its own place less `base`, and those before are 0.
fn ends_from(alloc: Global, places: u32, total: u32, base: u32) -> Result<Vec<u32>, AllocError>
    requires { base ≤ places }
    ensures long { IfOk result (λ v. length v.items ≡ total) }
    ensures ends { IfOk result (λ v. (x : ℕ) → places ≤ x → x < total → slice_index v.items x ≡ x - base) }
{
    let mut list = Vec::with_capacity(alloc, total as usize)?;
    for x in 0..total {
        list.push(if x < places { 0 } else { x - base })?;
    }
    Ok(list)
}

/// A list of `total` zeros.
fn zeros(alloc: Global, total: u32) -> Result<Vec<u64>, AllocError>
    ensures long { IfOk result (λ v. length v.items ≡ total) }
    ensures zero { IfOk result (λ v. (x : ℕ) → slice_index v.items x ≡ 0) }
{
    let mut list = Vec::with_capacity(alloc, total as usize)?;
    for x in 0..total {
        list.push(0)?;
    }
    Ok(list)
}

impl Ring {
    /// Rings of so many buckets over so many places, none of which is in a ring.
    pub fn new(alloc: Global, places: u32, buckets: u32) -> Result<Ring, AllocError>
        requires few { places + buckets < 2 ^ 32 }
        ensures places { IfOk result (λ r. r.places ≡ places) }
        ensures buckets { IfOk result (λ r. r.buckets ≡ buckets) }
        ensures empty { IfOk result (λ r. (x : ℕ) → stamp r x ≡ 0) }
    {
        let total = places + buckets;
        let stamps = zeros(alloc, total)?;
        let homes = ends_from(alloc, places, total, places)?;
        let olders = ends_from(alloc, places, total, 0)?;
        let newers = ends_from(alloc, places, total, 0)?;
        Ok(Ring {
            places,
            buckets,
            stamps,
            homes,
            olders,
            newers,
        })
    }

    /// How many places there are; the end of bucket `c` has the number `places() + c`.
    pub fn places(&self) -> u32
        ensures value { result ≡ self.now.places }
        ensures few { self.now.places + self.now.buckets < 2 ^ 32 }
    {
        self.places
    }

    /// How many buckets there are.
    pub fn buckets(&self) -> u32
        ensures value { result ≡ self.now.buckets }
        ensures few { self.now.places + self.now.buckets < 2 ^ 32 }
    {
        self.buckets
    }

    /// The stamp of a place, 0 where it is in no ring.
    pub fn stamp(&self, place: u32) -> u64
        requires { place < self.now.places + self.now.buckets }
        ensures { result ≡ stamp self.now place }
    {
        self.stamps[place as usize]
    }

    /// The next place below `at` in its ring, or the ring's end. From the end it is the place with the highest stamp.
    pub fn older(&self, at: u32) -> u32
        requires { Present self.now at }
        ensures next { (c : ℕ) → bucket self.now at ≡ c → IsNextOlder self.now c at result }
    {
        self.olders[at as usize]
    }

    /// The next place above `at` in its ring, or the ring's end. From the end it is the place with the lowest stamp.
    pub fn newer(&self, at: u32) -> u32
        requires { Present self.now at }
        ensures next { (c : ℕ) → bucket self.now at ≡ c → IsNextNewer self.now c at result }
    {
        self.newers[at as usize]
    }

    /// Where a walk over a bucket begins: the end of its ring.
    pub fn end(&self, bucket: u32) -> u32
        requires { bucket < self.now.buckets }
        ensures value { result ≡ end_of self.now bucket }
        ensures there { Present self.now result }
        ensures home { Rattle.asa_rings.specs.Rings.bucket self.now result ≡ bucket }
    {
        self.places + bucket
    }

    /// Puts a place that is in no ring just above the place below `above`, with a stamp between theirs. `above` may be the
    /// end of a ring.
    pub fn join_below(&mut self, place: u32, mark: u64, above: u32)
        requires within { place < self.old.places }
        requires free { stamp self.old place ≡ 0 }
        requires there { Present self.old above }
        requires positive { 0 < mark }
        requires lower { above < self.old.places → mark < stamp self.old above }
        requires upper { (q : ℕ) → In self.old (bucket self.old above) q → (above < self.old.places → stamp self.old q < stamp self.old above) → stamp self.old q < mark }
        ensures { IsJoined place mark (bucket self.old above) self.old self.new }
    {
        let below = self.olders[above as usize];
        let home = self.homes[above as usize];
        self.stamps[place as usize] = mark;
        self.homes[place as usize] = home;
        self.olders[place as usize] = below;
        self.newers[place as usize] = above;
        self.olders[above as usize] = place;
        self.newers[below as usize] = place;
    }

    /// Puts a place that is in no ring on top of a bucket's ring, with a stamp above all in it.
    pub fn join(&mut self, place: u32, mark: u64, bucket: u32)
        requires within { place < self.old.places }
        requires bounded { bucket < self.old.buckets }
        requires free { stamp self.old place ≡ 0 }
        requires positive { 0 < mark }
        requires above { (q : ℕ) → In self.old bucket q → stamp self.old q < mark }
        ensures { IsJoined place mark bucket self.old self.new }
    {
        let end = self.end(bucket);
        self.join_below(place, mark, end);
    }

    /// Takes a place out of its ring.
    pub fn part(&mut self, place: u32)
        requires within { place < self.old.places }
        requires joined { 0 < stamp self.old place }
        ensures { IsParted place self.old self.new }
    {
        let below = self.olders[place as usize];
        let above = self.newers[place as usize];
        self.olders[above as usize] = below;
        self.newers[below as usize] = above;
        self.stamps[place as usize] = 0;
    }
}
