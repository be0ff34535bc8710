//! The nodes of a cut tree.

/// A node of a cut tree. A tree is its nodes in preorder, the part up to a cut before the part above it.
#[derive(Clone, Copy, Debug, PartialEq, Eq)]
pub enum Node {
    /// The region is parted into the numbers up to `at` and those above it, in the dimension `dim`, from 1 to 7: source
    /// address, destination address, protocol, source port, destination port, ICMP type, ICMP code.
    Cut { dim: u8, at: u32 },
    /// The region lies in the box with this number in its list, from 1.
    Covered { by: u32 },
}
