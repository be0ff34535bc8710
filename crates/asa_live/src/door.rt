//! The trusted edge of this crate: how a reader gets the published copy, and the count of the times when it did not.
//!
//! `enter_as` of `left_right` gives the copy or doesn't, and no clause says when. So no clause can say of a reader that
//! answers `Away` that `left_right` was asked: a body here that only counts would be proved as well. What is trusted is
//! that `Door::enter` is the one place where the count rises, and that it rises only after `enter_as` was called and gave no
//! copy, or gave one that lacks what the reader has seen. The rule of the copies says that the second never comes about, but
//! since the ruled forms don't say that a seat stays at its table, it is tested and counted.
//! Outside this module the count can't be written. Tests show that reads succeed.
ghost use Rattle.std.specs.Prelude.{◌≡◌, IfOk, IfErr};
ghost use mathlib.Core.List.{IsPrefix};
ghost use Rattle.left_right.specs.Sides.{view};
ghost use Rattle.asa_live.specs.Copies.{Knows};
ghost use Rattle.asa_live.specs.History.{Reaches};
ghost use Rattle.asa_live.specs.Counts.{Rose};

use crate::front::Front;
use crate::machine::Machine;
use crate::rule::{Half, Looks, OneList};
use left_right::reader::{Reader, Reading};

/// A reader outside the copies.
#[derive(Drop)]
pub struct Door<M: Machine> {
    seat: Reader<Half<M>, Option<Front<M::Entry, M::Load>>, OneList>,
    aways: u64,
}

/// A reader that has the published copy.
pub struct Given<M: Machine> {
    reading: Reading<Half<M>, Option<Front<M::Entry, M::Load>>, OneList>,
    aways: u64,
}

impl<M: Machine> Drop for Given<M> {
    fn drop(self) {
        let Self { reading, aways: _ } = self;
        let _seat = reading.leave();
    }
}

// A count that stands still at its type's end.
fn one_more(aways: u64) -> u64
    ensures { Rose aways result }
{
    aways.saturating_add(1)
}

impl<M: Machine> Door<M> {
    /// Nothing is counted yet.
    pub fn new(seat: Reader<Half<M>, Option<Front<M::Entry, M::Load>>, OneList>) -> Door<M>
        ensures { (result.seat ≡ seat) × (result.aways ≡ 0) }
    {
        Door { seat, aways: 0 }
    }

    /// Takes the published copy, which has `least` as a beginning of its list.
    pub fn enter(self, least: &Front<M::Entry, M::Load>) -> Result<Given<M>, Door<M>>
        requires { Knows (view self.seat.place) least.now.seen.book }
        ensures reached { IfOk result (λ g. Reaches M.is_first M.next M.fits g.reading.part.value.front.seen.log g.reading.part.value.state) }
        ensures on { IfOk result (λ g. IsPrefix least.now.seen.log g.reading.part.value.front.seen.log × (g.reading.part.value.front.seen.book ≡ least.now.seen.book)) }
        ensures uncounted { IfOk result (λ g. g.aways ≡ self.aways) }
        ensures inside { IfOk result (λ g. Knows (view g.reading.place) least.now.seen.book) }
        ensures away { IfErr result (λ d. Rose self.aways d.aways) }
        ensures outside { IfErr result (λ d. Knows (view d.seat.place) least.now.seen.book) }
    {
        let Door { seat, aways } = self;
        match seat.enter_as::<Looks>() {
            Ok(reading) if least.begins(&reading.get().front) => Ok(Given { reading, aways }),
            Ok(reading) => Err(Door {
                seat: reading.leave(),
                aways: one_more(aways),
            }),
            Err(seat) => Err(Door {
                seat,
                aways: one_more(aways),
            }),
        }
    }
}

impl<M: Machine> Given<M> {
    /// The copy.
    pub fn half(&self) -> &Half<M>
        ensures { result.now ≡ self.now.reading.part.value }
    {
        self.reading.get()
    }

    /// Gives the copy back.
    pub fn leave(self) -> Door<M>
        ensures { (result.aways ≡ self.aways) × (view result.seat.place ≡ view self.reading.place) }
    {
        let Given { reading, aways } = self;
        Door {
            seat: reading.leave(),
            aways,
        }
    }
}
