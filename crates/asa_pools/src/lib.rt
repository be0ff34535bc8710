//! What live connections hold of the pools of dynamic NAT rules, and which value a pool gives next. The table takes its
//! memory when it is made.
//!
//! `PortTable` is seen as two lists, of the ports and of the whole addresses that are held, with one element for each
//! connection. `choose` is the pool's value by these lists (`value`); `take` adds one element to one of them, and
//! `release` removes one (`lists`).
#![tactic(auto)]

mod choice;
mod held;
mod key;
mod table;
mod tally;
#[cfg(test)]
mod tests;

pub use held::{Binding, Held, Mapped};
pub use table::PortTable;
