//! Values that are read only at a count, so that a contract can bound how many a look-up reads.
ghost use Rattle.std.specs.Prelude.{◌≡◌, ℕ, ◌+◌, ◌-◌, ◌^◌};
ghost use Rattle.asa_base.specs.Counters.{tick};

use std::marker::Model;

/// A count that contracts see and that no call shows. It starts at 0 and stands still at 2^64 - 1.
#[derive(Debug, Drop)]
pub struct Counter {
    count: u64,
}

impl Model for Counter {
    ghost use Rattle.std.specs.Prelude.{ℕ};

    ghost Value = { ℕ };

    ghost view = { λ c. c.count };
}

impl Counter {
    /// A counter at 0.
    pub fn new() -> Counter
        ensures { result ≡ 0 }
    {
        Counter { count: 0 }
    }

    /// Counts one more.
    pub fn tick(&mut self)
        ensures { self.new ≡ tick self.old }
    {
        self.count = self.count.saturating_add(1);
    }
}

/// A value that is read only at the price of a tick.
#[derive(Debug, Drop)]
pub struct Sealed<T> {
    value: T,
}

impl<T> Model for Sealed<T> {
    ghost Value = { T };

    ghost coded = { T.code };

    ghost view = { λ s. s.value };
}

impl<T> Sealed<T> {
    /// Hides a value.
    pub fn new(value: T) -> Sealed<T>
        ensures { result ≡ value }
    {
        Sealed { value }
    }

    /// Shows the value, which ticks once.
    pub fn read(&self, c: &mut Counter) -> &T
        ensures value { result.now ≡ self.now }
        ensures counted { c.new ≡ tick c.old }
    {
        c.tick();
        &self.value
    }
}
