//! The table of objects and groups by name: what each states, how much it stands for once it is expanded, which names refer to
//! it, and an order in which each name comes after those that it refers to.
//!
//! `NameTable` keeps of each name its members in order, its totals and its users, and these are what the definition
//! says (its invariant). `open`, `change` and `close` make the table of the definition, or leave it. `first_user` is
//! the least group that names a name; `above` gives the names that reach it, each after those that it refers to.
#![tactic(auto)]

mod climb;
mod counts;
mod effects;
mod entries;
mod index;
mod rank;
mod renewal;
mod running_totals;
mod table;
mod users;
mod weights;

pub use climb::set_of_names;
pub use rank::Totals;
pub use table::NameTable;
pub use users::{add_uses, drop_uses, unused_of};
