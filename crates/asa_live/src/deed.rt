//! One entry of the history, beside its load.

/// An entry with its load.
#[derive(Drop)]
pub struct Deed<E, L> {
    pub entry: E,
    pub load: L,
}
