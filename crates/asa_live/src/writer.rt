//! The writer: it adds entries to the history, one after another, and publishes each.
ghost use Rattle.std.specs.Prelude.{◌≡◌, ◌++◌, ◌∷◌, [], drop, false, length, IfOk, IfErr, OnErr, IsErr, IsTrue, ◌↔◌};
ghost use Rattle.asa_live.specs.Words.{head_of};

use crate::deed::Deed;
use crate::front::{Front, Head};
use crate::machine::Machine;
use crate::rule::{Change, Half, Looks, OneList};
use core::mem::replace_with;
use left_right::Absorb;
use left_right::writer::Writer as Pair;
use std::alloc::AllocError;
use std::marker::Model;
use std::mem::ManuallyDrop;
use std::sync::Wait;

/// The two copies, as `left_right` keeps them.
pub(crate) type Copies<M> = Pair<
    Half<M>,
    Change<<M as Machine>::Entry, <M as Machine>::Load>,
    Option<Front<<M as Machine>::Entry, <M as Machine>::Load>>,
    OneList,
>;

/// The one writer of two copies. It isn't dropped: end it by `close`.
// The copies lie in a `ManuallyDrop`, because a guard of a Mutex round a type that holds a writer asks how to drop it, and
// `left_right` has no answer. `close` takes them out.
pub struct Writer<M: Machine>
where
    Half<M>: Absorb<Change<M::Entry, M::Load>, State = Half<M>>,
{
    copies: ManuallyDrop<
        Pair<Half<M>, Change<M::Entry, M::Load>, Option<Front<M::Entry, M::Load>>, OneList>,
    >,
    head: Head<M::Entry, M::Load>,
    front: Front<M::Entry, M::Load>,
    is_spent: bool,
}

impl<M: Machine> Model for Writer<M>
where
    Half<M>: Absorb<Change<M::Entry, M::Load>, State = Half<M>>,
{
    ghost use Rattle.std.specs.Prelude.{◌≡◌, [], drop, false};
    ghost use Rattle.std.specs.Mem.{manually_drop_value};
    ghost use Rattle.asa_live.specs.Words.{head_of};
    ghost use Rattle.asa_live.specs.Writers.{Written};

    ghost Value = { Written M.State M.Entry M.Load };

    ghost view = { λ w. record { copies = w.front.seen.book; history = w.front.seen.log; state = (manually_drop_value w.copies).desk.shown.value.state; is_spent = w.is_spent } };

    ghost invariant = { λ w. (w.head ≡ head_of w.front.seen.book) × ((manually_drop_value w.copies).desk.shown.value.front ≡ w.front) × (w.is_spent ≡ false → drop (manually_drop_value w.copies).behind (manually_drop_value w.copies).log.items ≡ []) };
}

// Publishes one change. Without memory the copies show what they showed.
fn publish<M: Machine, R: Wait>(
    mut copies: Copies<M>,
    job: (&R, Change<M::Entry, M::Load>),
) -> (Copies<M>, Result<(), AllocError>)
    requires none { drop copies.behind copies.log.items ≡ [] }
    requires fits { M.fits copies.desk.shown.value.state job.1.deed.entry job.1.deed.load }
    requires book { job.1.front.seen.book ≡ copies.desk.shown.value.front.seen.book }
    requires next { job.1.front.seen.log ≡ copies.desk.shown.value.front.seen.log ++ job.1.deed ∷ [] }
    ensures published { IfOk result.1 (λ _. result.0.desk.shown.value ≡ record { state = M.next copies.desk.shown.value.state job.entry.1.deed.entry job.entry.1.deed.load; front = job.entry.1.front }) }
    ensures none { IfOk result.1 (λ _. drop result.0.behind result.0.log.items ≡ []) }
    ensures err { IfErr result.1 (λ _. result.0.desk.shown.value ≡ copies.desk.shown.value) }
{
    let (rt, change) = job;
    let Ok(()) = copies.append(change) else {
        return (copies, Err(AllocError));
    };
    copies.publish_as::<Looks, R>(rt)
}

impl<M: Machine> Writer<M> {
    /// Adds an entry to the history, publishes it, and gives the number of entries before it. It waits for readers that
    /// still have the other copy open. Without memory the writer is spent: it adds no more.
    pub fn add<R: Wait>(
        &mut self,
        rt: &R,
        entry: M::Entry,
        load: M::Load,
    ) -> Result<u64, AllocError>
        requires fits { M.fits self.old.state entry load }
        ensures copies { self.new.copies ≡ self.old.copies }
        ensures number { IfOk result (λ n. n ≡ length self.old.history) }
        ensures added { IfOk result (λ _. self.new.history ≡ self.old.history ++ record { entry = entry; load = load } ∷ []) }
        ensures state { IfOk result (λ _. self.new.state ≡ M.next self.old.state entry load) }
        ensures err { OnErr result ((self.new.history ≡ self.old.history) × (self.new.state ≡ self.old.state)) }
        ensures spends { IsTrue self.new.is_spent ↔ IsErr result }
        ensures spent { IsTrue self.old.is_spent → IsErr result }
    {
        if self.is_spent {
            return Err(AllocError);
        }
        let count = self.front.count;
        let deed = Deed { entry, load };
        let Some(front) = self.front.with(&self.head, &deed) else {
            self.is_spent = true;
            return Err(AllocError);
        };
        let change = Change {
            deed,
            front: front.again(),
        };
        let Ok(()) = replace_with(&mut *self.copies, (rt, change), publish) else {
            self.is_spent = true;
            return Err(AllocError);
        };
        self.front = front;
        Ok(count)
    }

    /// The number of entries in the history.
    pub fn count(&self) -> u64
        ensures { result ≡ length self.now.history }
    {
        self.front.count
    }

    // The writer of these copies, which publish this front.
    pub(crate) fn over(
        copies: Copies<M>,
        head: Head<M::Entry, M::Load>,
        front: Front<M::Entry, M::Load>,
    ) -> Writer<M>
        requires head { head ≡ head_of front.seen.book }
        requires shown { copies.desk.shown.value.front ≡ front }
        requires none { drop copies.behind copies.log.items ≡ [] }
        ensures { result ≡ record { copies = front.seen.book; history = front.seen.log; state = copies.desk.shown.value.state; is_spent = false } }
    {
        Writer {
            // It is taken out again by `close` alone.
            copies: unsafe { ManuallyDrop::new_unchecked(copies) },
            head,
            front,
            is_spent: false,
        }
    }

    // Its history.
    pub(crate) fn front(&self) -> &Front<M::Entry, M::Load>
        ensures book { result.now.seen.book ≡ self.now.copies }
        ensures log { result.now.seen.log ≡ self.now.history }
    {
        &self.front
    }

    /// Ends the writer. It waits for readers that have a copy open; readers answer `Away` from then on.
    pub fn close<R: Wait>(self, rt: &R) {
        let Writer {
            copies,
            head: _head,
            front: _front,
            is_spent: _,
        } = self;
        let _last = ManuallyDrop::into_inner(copies).take(rt);
    }
}

#[cfg(test)]
mod tests;
