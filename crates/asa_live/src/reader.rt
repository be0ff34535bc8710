//! Readers: they open the published state, and wait for nobody.
ghost use Rattle.std.specs.Prelude.{◌≡◌, IfOk, IfErr, IfSome, IfNone, IsSome, None, length};
ghost use mathlib.Core.List.{IsPrefix};
ghost use Rattle.left_right.specs.Sides.{view};
ghost use Rattle.asa_live.specs.Copies.{Knows};
ghost use Rattle.asa_live.specs.Counts.{Rose};
ghost use Rattle.asa_live.specs.History.{Reaches};
ghost use Rattle.asa_live.specs.Phases.{aways_of, known_of, opened_of};
ghost use Rattle.asa_live.specs.Readers.{GoesOn, StaysOut};

use crate::door::{Door, Given};
use crate::front::Front;
use crate::machine::Machine;
use crate::rule::{Half, OneList};
use core::mem::replace_with;
use left_right::reader::Reader as Seat;
use std::marker::Model;

/// The copy was not given. It says nothing of the history.
#[derive(Clone, Copy, Debug, PartialEq, Eq)]
pub struct Away;

/// A reader of the copies. It has seen a beginning of the history, and each read opens the state after a list that has all
/// of it.
#[derive(Drop)]
pub struct Reader<M: Machine> {
    front: Front<M::Entry, M::Load>,
    phase: Phase<M>,
}

/// Whether a read is open.
#[derive(Drop)]
pub(crate) enum Phase<M: Machine> {
    Out(Door<M>),
    In(Given<M>),
}

impl<M: Machine> Model for Reader<M> {
    ghost use Rattle.asa_live.specs.Copies.{Knows};
    ghost use Rattle.asa_live.specs.Readers.{Viewed};

    ghost Value = { Viewed M.State M.Entry M.Load };

    ghost use Rattle.asa_live.specs.Phases.{aways_of, known_of, opened_of};

    ghost view = { λ r. record { copies = r.front.seen.book; seen = r.front.seen.log; opened = opened_of r.phase; aways = aways_of r.phase } };

    ghost invariant = { λ r. Knows (known_of r.phase) r.front.seen.book };
}

// Takes the copy, whose list has `least` as a beginning, and gives the front of that list.
fn enter<M: Machine>(
    phase: Phase<M>,
    least: &Front<M::Entry, M::Load>,
) -> (Phase<M>, Option<Front<M::Entry, M::Load>>)
    requires closed { opened_of phase ≡ None }
    requires knows { Knows (known_of phase) least.now.seen.book }
    ensures knows { Knows (known_of result.0) least.now.seen.book }
    ensures on { IfSome result.1 (λ f. IsPrefix least.now.seen.log f.seen.log × (f.seen.book ≡ least.now.seen.book)) }
    ensures opened { IfSome result.1 (λ f. (s : _) × (opened_of result.0 ≡ Some s) × Reaches M.is_first M.next M.fits f.seen.log s) }
    ensures uncounted { IfSome result.1 (λ _. aways_of result.0 ≡ aways_of phase) }
    ensures away { IfNone result.1 ((opened_of result.0 ≡ None) × Rose (aways_of phase) (aways_of result.0)) }
{
    match phase {
        Phase::Out(door) => match door.enter(least) {
            Ok(given) => {
                let front = given.half().front.again();
                (Phase::In(given), Some(front))
            }
            Err(door) => (Phase::Out(door), None),
        },
        Phase::In(_) => unreachable!(),
    }
}

// Gives the copy back.
fn leave<M: Machine>(phase: Phase<M>, _nothing: ()) -> (Phase<M>, ())
    requires { IsSome (opened_of phase) }
    ensures left { opened_of result.0 ≡ None }
    ensures kept { (known_of result.0 ≡ known_of phase) × (aways_of result.0 ≡ aways_of phase) }
{
    match phase {
        Phase::In(given) => (Phase::Out(given.leave()), ()),
        Phase::Out(_) => unreachable!(),
    }
}

impl<M: Machine> Reader<M> {
    /// Opens the state after a list of entries that has all that this reader had seen as a beginning, each of which came
    /// where it fitted, and gives that list's length. It waits for nobody and takes no memory.
    pub fn read(&mut self) -> Result<u64, Away>
        requires closed { self.old.opened ≡ None }
        ensures on { GoesOn self.old self.new }
        ensures read { IfOk result (λ n. (n ≡ length self.new.seen) × ((s : _) × (self.new.opened ≡ Some s) × Reaches M.is_first M.next M.fits self.new.seen s)) }
        ensures uncounted { IfOk result (λ _. self.new.aways ≡ self.old.aways) }
        ensures away { IfErr result (λ _. StaysOut self.old self.new) }
    {
        let Some(front) = replace_with(&mut self.phase, &self.front, enter) else {
            return Err(Away);
        };
        self.front = front;
        Ok(self.front.count)
    }

    /// The opened state.
    pub fn state(&self) -> &M::State
        requires open { IsSome self.now.opened }
        ensures { self.now.opened ≡ Some result.now }
    {
        match &self.phase {
            Phase::In(given) => &given.half().state,
            Phase::Out(_) => unreachable!(),
        }
    }

    /// Closes the opened state. A writer may wait for it.
    pub fn leave(&mut self)
        requires open { IsSome self.old.opened }
        ensures { self.new ≡ record self.old { opened = None } }
    {
        replace_with(&mut self.phase, (), leave)
    }

    // A reader at this seat, which knows this front.
    pub(crate) fn over(
        seat: Seat<Half<M>, Option<Front<M::Entry, M::Load>>, OneList>,
        front: Front<M::Entry, M::Load>,
    ) -> Reader<M>
        requires { view seat.place ≡ Some front }
        ensures { result ≡ record { copies = front.seen.book; seen = front.seen.log; opened = None; aways = 0 } }
    {
        Reader {
            front,
            phase: Phase::Out(Door::new(seat)),
        }
    }

    // What it has seen.
    pub(crate) fn front(&self) -> &Front<M::Entry, M::Load>
        ensures book { result.now.seen.book ≡ self.now.copies }
        ensures log { result.now.seen.log ≡ self.now.seen }
    {
        &self.front
    }

    // Takes in a longer front of the same list.
    pub(crate) fn see(&mut self, front: Front<M::Entry, M::Load>)
        requires book { front.seen.book ≡ self.old.copies }
        ensures { self.new ≡ record self.old { seen = front.seen.log } }
    {
        self.front = front;
    }
}
