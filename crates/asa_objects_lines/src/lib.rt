//! The grammar of `object` and `object-group` blocks: what the first line of a block defines, what the line that removes
//! a name names, and what each indented line says, as values that take no memory. It keeps no table: whether a name is
//! defined, and as what, is asked of a `Names`.
//!
//! It follows the chapter on objects of the ASA's configuration guide.
#![tactic(auto)]

mod group;
mod kinds;
mod service_value;
mod services;
mod statement;
#[cfg(test)]
mod tests;
mod top;
mod value;

pub use group::read_statement;
pub use kinds::{BlockKind, GroupKind};
pub use service_value::{ServiceProtocol, ServiceValue};
pub use statement::{Item, ObjectValue, Statement};
pub use top::{Removal, Top, read_removal, read_top};
