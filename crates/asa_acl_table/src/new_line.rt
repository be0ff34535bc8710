//! What a line that goes into an access list says.
use asa_acl::AclLine;
use asa_base::Name;

/// A line that goes into a list.
#[derive(Debug, Drop)]
pub struct NewLine {
    /// The name of the list, which may be a new one.
    pub list: Name,
    /// The number, 1 to 65,536, that the line is to have, or `None` for the last place.
    pub place: Option<u32>,
    /// The line itself.
    pub item: AclLine,
}
