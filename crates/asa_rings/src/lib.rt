//! Rings of places over one slab, for tables of fixed size: places of one bucket are linked in the order of their stamps.
#![tactic(auto)]

mod ring;
#[cfg(test)]
mod tests;

pub use ring::Ring;
