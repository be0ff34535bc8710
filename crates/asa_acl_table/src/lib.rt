//! The access lists of a configuration by name, in order of first definition; which objects and groups their lines name;
//! what the names of lines stand for, and the prefix pairs that lists have by that.
//!
//! A line that goes into the table of lists or out of it makes the table that the definition says. `count_lists` gives
//! the prefix pairs of all lists. Whether a line uses a name (`is_used`), and the first list with such a line
//! (`using`), are the definition's. There are at most 1,024 lists (`few`).
#![tactic(auto)]

mod counts;
mod new_line;
mod scope;
mod shared_acl;
mod table;
mod uses;

pub use counts::{count_lists, too_large};
pub use new_line::NewLine;
pub use scope::Scope;
pub use shared_acl::SharedAcl;
pub use table::ListTable;
