//! How a block of a configuration is judged: which part of the policy it belongs to, or that it is passed over; what its
//! top line and its indented lines are; and why an edit is refused.
//!
//! `class_of` answers the part of the policy that the definition says, or that the block is passed over (`is_passed`).
//! `line_refusal` is the refusal of a line for a fault of one of its words; `alone` that of a block that has an
//! indented line where it may have none.
#![tactic(auto)]

mod class;
mod fault;
mod refusal;
#[cfg(test)]
mod tests;
mod top;

pub use class::{Class, after_one, begins_object, class_of, is_passed};
pub use fault::{EditFault, EditRefusal};
pub use refusal::{alone, line_refusal, refused, top_line, top_words};
pub use top::{Top, TopWord, read_top, top_of};
