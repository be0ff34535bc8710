//! The limit on prefix pairs.

/// How many prefix pairs there may be.
pub(crate) const MOST_PAIRS: u128 = 262_144;
