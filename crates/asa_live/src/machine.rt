//! What is published: a state that entries change.
ghost use Rattle.std.specs.Prelude.{◌≡◌, MatchResult};

use std::alloc::AllocError;

/// A state that changes by entries. Two copies of one state that meet the same entries stay equal.
pub trait Machine {
    type State: Drop;

    type Entry: Drop;

    /// What an entry brings along, as parts that both copies share.
    type Load: Drop;

    // A history may begin at this state.
    ghost is_first: { Self.State → Type 0 };

    // The state after an entry and its load.
    ghost next: { Self.State → Self.Entry → Self.Load → Self.State };

    // The entry and its load may come at this state.
    ghost fits: { Self.State → Self.Entry → Self.Load → Type 0 };

    /// Goes to the next state, also where the entry does not fit. Without memory the state stays as it was.
    fn apply(
        state: &mut Self::State,
        entry: &Self::Entry,
        load: &Self::Load,
    ) -> Result<(), AllocError>
        ensures { MatchResult result (λ _. state.new ≡ next state.old entry.now load.now) (λ _. state.new ≡ state.old) };
}
