//! Beginnings of the one list of entries. The list exists in proofs alone; what stands for it while the program runs is a
//! word that the writer holds, the list's length. A front is a number, the length of the beginning that was seen.
ghost use Rattle.std.specs.Prelude.{◌≡◌, ◌++◌, ◌∷◌, ◌<◌, [], length, IfSome, MatchBool};
ghost use mathlib.Core.List.{IsPrefix};
ghost use Rattle.asa_live.specs.Words.{head_of};

use crate::deed::Deed;
use logbook::{Gain, Offer, Plain, Play, Rule, Seen, Start, Word};

/// The rule of the word: it holds the length of the list.
pub struct Law;

impl<E, L> Rule<Deed<E, L>, u64> for Law {
    ghost use Rattle.std.specs.Prelude.{[]};
    ghost use base.Fml.{ftrue};
    ghost use Rattle.asa_live.specs.Words.{IsKept};

    ghost holds = { λ cells log. IsKept cells log };

    ghost first = { [] };

    ghost hinted = { λ n log. Unit {0} };

    ghost shows = { λ log. [] };

    ghost keeps = { λ names log. ftrue };

    ghost moves = { λ ask before after answer. Unit {0} };
}

/// Who adds an entry trades nothing for it.
pub struct Nothing;

impl<E, L> Gain<Deed<E, L>, u64> for Nothing {
    ghost use base.Fml.{ftrue};

    ghost after = { λ names about answer. ftrue };
}

/// The step that adds an entry.
pub struct Add;

impl<E, L> Play<Deed<E, L>, u64> for Add {
    ghost use Rattle.asa_live.specs.Words.{Adds};

    ghost then = { Adds };
}

impl<E, L> Plain<Deed<E, L>, Deed<E, L>, u64> for Add {
    ghost use Rattle.std.specs.Prelude.{None};

    ghost ask = { λ deed. deed };

    ghost state = { λ deed. None };
}

/// The word that holds the list's length. The writer alone has it.
pub type Head<E, L> = Word<Deed<E, L>, u64, Law>;

/// A beginning of the list, which was seen.
#[derive(Drop)]
pub struct Front<E, L> {
    pub count: u64,
    pub seen: Seen<Deed<E, L>, u64, Law>,
    pub ghost counted: { count ≡ length seen.log },
}

impl<E, L> Front<E, L> {
    /// A new list without entries: its word, and the front that has seen it.
    pub fn open() -> (Head<E, L>, Front<E, L>)
        ensures empty { result.1.seen.log ≡ [] }
        ensures head { result.0 ≡ head_of result.1.seen.book }
    {
        let (seen, mut first, _second) = Seen::open(Start::alone(), 0, 0);
        let head = Word::tracked(0, &mut first);
        (head, Front { count: 0, seen })
    }

    /// A copy.
    pub fn again(&self) -> Front<E, L>
        ensures { result ≡ self.now }
    {
        Front {
            count: self.count,
            seen: self.seen.again(),
        }
    }

    /// Whether this front begins the other. Of two fronts of one list the shorter begins the longer.
    pub fn begins(&self, other: &Front<E, L>) -> bool
        requires { other.now.seen.book ≡ self.now.seen.book }
        ensures { MatchBool result (IsPrefix self.now.seen.log other.now.seen.log) (IsPrefix other.now.seen.log self.now.seen.log × (length other.now.seen.log < length self.now.seen.log)) }
    {
        let mut both = self.seen.again();
        both.learn(&other.seen);
        self.count <= other.count
    }

    /// The front with one more entry, which is the next of the list. None where the list has gone on, or has no number left.
    pub fn with(&self, head: &Head<E, L>, deed: &Deed<E, L>) -> Option<Front<E, L>>
        requires { head.now ≡ head_of self.now.seen.book }
        ensures { IfSome result (λ f. (f.seen.book ≡ self.now.seen.book) × (f.seen.log ≡ self.now.seen.log ++ deed.now ∷ [])) }
    {
        let old = self.count;
        if old == u64::MAX {
            return None;
        }
        let mut seen = self.seen.again();
        let mut offer: Offer<Deed<E, L>, u64, Law, Nothing> = seen.plain::<
            Nothing,
            Deed<E, L>,
            Add,
        >(deed);
        let mut pen = seen.no_pen();
        let found = head.compare_exchange::<Add, Nothing>(
            old,
            old + 1,
            &mut seen,
            &mut offer,
            &mut pen,
        );
        if found != old {
            return None;
        }
        Some(Front {
            count: old + 1,
            seen,
        })
    }
}
