//! Verdicts of access lists and levels.
use asa_base::AccessBy;

/// What the access rules say of a packet, and by which of them.
#[derive(Clone, Debug, PartialEq, Eq, Drop)]
pub enum AccessVerdict {
    Permit(AccessBy),
    Deny(AccessBy),
}
