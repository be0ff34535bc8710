//! Two small machines for the tests: one of plain numbers, and one whose state and loads share parts.
ghost use Rattle.std.specs.Prelude.{◌≡◌, IfOk, MatchResult};

use crate::machine::Machine;
use std::alloc::{AllocError, Global};
use std::marker::Model;
use std::sync::Arc;

/// The entry at which `Adder` finds no memory.
pub(crate) const HEAVY: u64 = 999;

/// The state is the sum of the entries.
pub(crate) struct Adder;

impl Machine for Adder {
    ghost use Rattle.std.specs.Prelude.{◌≡◌, ◌+◌, ◌-◌, ◌^◌, ◌<◌, min};

    type State = u64;

    type Entry = u64;

    type Load = ();

    ghost is_first = { λ total. total ≡ 0 };

    ghost next = { λ total amount load. min (total + amount) (2 ^ 64 - 1) };

    ghost fits = { λ total amount load. amount < 1000 };

    fn apply(total: &mut u64, amount: &u64, _load: &()) -> Result<(), AllocError> {
        if *amount == HEAVY {
            return Err(AllocError);
        }
        *total = total.saturating_add(*amount);
        Ok(())
    }
}

/// A number that several owners share. Contracts see it as the number.
#[derive(Drop)]
pub(crate) struct Sheet {
    number: Arc<u64>,
}

impl Model for Sheet {
    ghost use Rattle.std.specs.Prelude.{ℕ};
    ghost use Rattle.std.specs.Arc.{arc_value};

    ghost Value = { ℕ };

    ghost view = { λ sheet. arc_value sheet.number };
}

impl Sheet {
    pub(crate) fn new(alloc: Global, number: u64) -> Result<Sheet, AllocError>
        ensures { IfOk result (λ sheet. sheet ≡ number) }
    {
        Ok(Sheet {
            number: Arc::new(alloc, number)?,
        })
    }

    /// One more owner.
    pub(crate) fn share(&self) -> Result<Sheet, AllocError>
        ensures { IfOk result (λ sheet. sheet ≡ self.now) }
    {
        Ok(Sheet {
            number: Arc::try_clone(&self.number)?,
        })
    }

    pub(crate) fn number(&self) -> u64
        ensures { result ≡ self.now }
    {
        *self.number
    }
}

/// Who posted last, and what.
#[derive(Drop)]
pub(crate) struct Board {
    pub poster: u64,
    pub sheet: Sheet,
}

/// The state is the last sheet that was posted. A poster posts ten times its own number.
pub(crate) struct Posting;

impl Machine for Posting {
    ghost use Rattle.std.specs.Prelude.{◌≡◌, ◌*◌};

    type State = Board;

    type Entry = u64;

    type Load = Sheet;

    ghost is_first = { λ board. (board.poster ≡ 0) × (board.sheet ≡ 0) };

    ghost next = { λ board poster sheet. record { poster = poster; sheet = sheet } };

    ghost fits = { λ board poster sheet. sheet ≡ 10 * poster };

    fn apply(board: &mut Board, poster: &u64, sheet: &Sheet) -> Result<(), AllocError> {
        let sheet = sheet.share()?;
        board.poster = *poster;
        board.sheet = sheet;
        Ok(())
    }
}
