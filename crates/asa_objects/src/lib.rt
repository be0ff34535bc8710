//! The objects and groups of a configuration: what a block makes of their table, and what a name stands for once every name in
//! it is replaced by its members.
//!
//! `Objects::define` makes of the table what the definition says of the block, or gives its refusal and leaves the
//! table (`value`). `judge` tells the first fault of a block's lines alone. `remove` takes a name out (`value`). What a
//! name stands for, with groups replaced in place, is `members` and `services`; `group_using` is the least group that
//! names it. Which names stay the same is said by `kept`.
#![tactic(auto)]

mod definition;
mod expansion;
mod lines;
#[cfg(test)]
mod nat_tests;
#[cfg(test)]
mod nested_tests;
mod objects;
#[cfg(test)]
mod tests;

pub use asa_objects_values::ObjectFault;
pub use expansion::ExpandFault;
pub use objects::Objects;
