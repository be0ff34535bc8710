//! What `left_right` publishes, and the rule that its two copies keep.
//!
//! Each copy carries the front that it stands for, so that a reader which takes a copy has seen that front.
ghost use Rattle.std.specs.Prelude.{◌≡◌};
ghost use Rattle.asa_live.specs.Copies.{Kept, Enters};

use crate::deed::Deed;
use crate::front::Front;
use crate::machine::Machine;
use atomic_table::{Join, Split};
use crossbeam_utils::rule::{Outcome, Protocol};
use left_right::Absorb;
use std::alloc::AllocError;

/// One of the two copies: a state, and the beginning of the list that leads to it.
#[derive(Drop)]
pub struct Half<M: Machine> {
    pub state: M::State,
    pub front: Front<M::Entry, M::Load>,
}

/// What changes a copy: an entry with its load, and the front that ends with it.
#[derive(Drop)]
pub struct Change<E, L> {
    pub deed: Deed<E, L>,
    pub front: Front<E, L>,
}

impl<M: Machine> Absorb<Change<M::Entry, M::Load>> for Half<M> {
    type State = Half<M>;

    ghost state = { λ half. half };

    ghost applied = { λ half change. record { state = M.next half.state change.deed.entry change.deed.load; front = change.front } };

    fn absorb_first(
        &mut self,
        operation: &Change<M::Entry, M::Load>,
        _other: &Half<M>,
    ) -> Result<(), AllocError> {
        M::apply(&mut self.state, &operation.deed.entry, &operation.deed.load)?;
        self.front = operation.front.again();
        Ok(())
    }
}

/// The rule of the copies.
pub struct OneList;

impl<M: Machine> Protocol<Half<M>, Option<Front<M::Entry, M::Load>>> for OneList {
    ghost use Rattle.std.specs.Prelude.{None};
    ghost use Rattle.asa_live.specs.Copies.{Kept};

    ghost holds = { λ half views. Kept M.is_first M.next M.fits half.state half.front views };

    ghost first = { None };
}

/// A look at the copy that is published then.
pub struct Looks;

impl<M: Machine> Outcome<Half<M>, Option<Front<M::Entry, M::Load>>> for Looks {
    ghost use Rattle.asa_live.specs.Copies.{Enters};

    ghost then = { λ v x y w. Enters M.is_first M.next M.fits v y.state y.front w };
}

/// What the writer tells a new reader: all that it knows.
pub struct Tells;

impl<E, L> Split<Option<Front<E, L>>> for Tells {
    ghost left = { λ v. v };

    ghost right = { λ v. v };
}

impl<E, L> Join<Option<Front<E, L>>> for Tells {
    ghost use Rattle.std.specs.Prelude.{None};

    ghost both = { λ v w. w };

    ghost spent = { None };
}
