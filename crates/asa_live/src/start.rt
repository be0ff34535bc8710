//! Opens two copies: the writer, and the readers beside it.
ghost use Rattle.std.specs.Prelude.{◌≡◌, ◌^◌, ◌<◌, [], All, Some, drop, false, length, IfOk, IfSome};
ghost use Rattle.left_right.specs.Sides.{view};
ghost use Rattle.asa_live.specs.Readers.{IsNew};

use crate::front::Front;
use crate::machine::Machine;
use crate::reader::Reader;
use crate::rule::{Half, Looks, Tells};
use crate::writer::{Copies, Writer};
use left_right::writer::Writer as Pair;
use std::alloc::{AllocError, Global};
use std::sync::Wait;

/// Two copies of a machine's state: their writer, whose history is empty, a first reader, and `more` further readers, of
/// which each may be missing. It takes the runtime because a publication may wait for readers.
pub fn open_live<M: Machine, R: Wait>(
    rt: &R,
    alloc: Global,
    first: M::State,
    second: M::State,
    more: u32,
) -> Result<(Writer<M>, Reader<M>, Vec<Option<Reader<M>>>), AllocError>
    requires first { M.is_first first }
    requires alike { second ≡ first }
    ensures writer { IfOk result (λ t. (t.0.history ≡ []) × (t.0.state ≡ first) × (t.0.is_spent ≡ false)) }
    ensures reader { IfOk result (λ t. IsNew t.0.copies t.1) }
    ensures count { IfOk result (λ t. length t.2.items ≡ more) }
    ensures readers { IfOk result (λ t. All (λ r. IfSome r (IsNew t.0.copies)) t.2.items) }
{
    let (head, front) = Front::open();
    let seats = more.saturating_add(1) as usize;
    let mut copies = open_copies::<M, R>(rt, alloc, first, second, &front, seats)?;
    match open_readers(&mut copies, &front, alloc, more) {
        Ok((reader, readers)) => Ok((Writer::over(copies, head, front), reader, readers)),
        Err(error) => {
            let _last = copies.take(rt);
            Err(error)
        }
    }
}

// The two copies, which stand for the empty front. A publication without changes lets the writer know it.
fn open_copies<M: Machine, R: Wait>(
    rt: &R,
    alloc: Global,
    first: M::State,
    second: M::State,
    front: &Front<M::Entry, M::Load>,
    seats: usize,
) -> Result<Copies<M>, AllocError>
    requires first { M.is_first first }
    requires alike { second ≡ first }
    requires empty { front.now.seen.log ≡ [] }
    requires seats { (0 < seats) × (seats < 2 ^ 32) }
    ensures shown { IfOk result (λ c. c.desk.shown.value ≡ record { state = first; front = front.now }) }
    ensures none { IfOk result (λ c. drop c.behind c.log.items ≡ []) }
    ensures knows { IfOk result (λ c. view c.desk.place ≡ Some front.now) }
{
    let one: Half<M> = Half {
        state: first,
        front: front.again(),
    };
    let other: Half<M> = Half {
        state: second,
        front: front.again(),
    };
    let copies: Copies<M> = Pair::new(alloc, one, other, seats)?;
    let (copies, published) = copies.publish_as::<Looks, R>(rt);
    match published {
        Ok(()) => Ok(copies),
        Err(error) => {
            let _last = copies.take(rt);
            Err(error)
        }
    }
}

// The first reader, and the further ones.
fn open_readers<M: Machine>(
    copies: &mut Copies<M>,
    front: &Front<M::Entry, M::Load>,
    alloc: Global,
    more: u32,
) -> Result<(Reader<M>, Vec<Option<Reader<M>>>), AllocError>
    requires knows { view copies.old.desk.place ≡ Some front.now }
    requires empty { front.now.seen.log ≡ [] }
    ensures shown { copies.new.desk.shown ≡ copies.old.desk.shown }
    ensures none { drop copies.new.behind copies.new.log.items ≡ drop copies.old.behind copies.old.log.items }
    ensures reader { IfOk result (λ t. IsNew front.now.seen.book t.0) }
    ensures count { IfOk result (λ t. length t.1.items ≡ more) }
    ensures readers { IfOk result (λ t. All (λ r. IfSome r (IsNew front.now.seen.book)) t.1.items) }
{
    let reader = open_reader(copies, front).ok_or(AllocError)?;
    let mut readers = Vec::new(alloc);
    for _ in 0..more {
        readers.push(open_reader(copies, front))?;
    }
    Ok((reader, readers))
}

// A reader that knows what the writer knows.
fn open_reader<M: Machine>(
    copies: &mut Copies<M>,
    front: &Front<M::Entry, M::Load>,
) -> Option<Reader<M>>
    requires knows { view copies.old.desk.place ≡ Some front.now }
    requires empty { front.now.seen.log ≡ [] }
    ensures knows { view copies.new.desk.place ≡ Some front.now }
    ensures shown { copies.new.desk.shown ≡ copies.old.desk.shown }
    ensures none { (copies.new.behind ≡ copies.old.behind) × (copies.new.log ≡ copies.old.log) }
    ensures new { IfSome result (IsNew front.now.seen.book) }
{
    let Ok(mut seat) = copies.factory().reader() else {
        return None;
    };
    seat.learn::<Tells>(copies.tell::<Tells>());
    Some(Reader::over(seat, front.again()))
}
