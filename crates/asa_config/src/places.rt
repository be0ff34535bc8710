//! What lines of access groups say, and those that take a line out of a list.
use asa_acl::AclLine;
use asa_base::Name;

/// A line that is removed from a list.
#[derive(Debug, Drop)]
pub(crate) struct OldLine {
    /// The name of the list.
    pub(crate) list: Name,
    pub(crate) item: AclLine,
}

/// Where a list may be bound.
#[derive(Clone, Copy, Debug, PartialEq, Eq)]
pub(crate) enum Place {
    /// The inbound side of every interface.
    Global,
    /// A side of one interface.
    Side {
        /// The number of the interface.
        ifc: u8,
        /// Whether it is the inbound side.
        inbound: bool,
    },
}

/// A list and where it is bound.
#[derive(Debug, Drop)]
pub(crate) struct Binding {
    /// The name of the list.
    pub(crate) list: Name,
    pub(crate) place: Place,
}
