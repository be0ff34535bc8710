//! What is found of a line.
use crate::node::Node;
use asa_base::Packet;
use asa_text::Items;

/// Whether a line of a list is shadowed: whether no packet has it as its first match within its list.
#[derive(Debug, Drop)]
pub enum Finding {
    /// No packet first matches the line: a certificate, which `check_trees` accepts, with one tree for each box of the
    /// line, and how many cuts it has.
    Yes {
        cuts: u64,
        trees: Items<Items<Node>>,
    },
    /// This packet first matches the line. It comes in on interface 0 and has no flags.
    No {
        packet: Packet,
    },
    /// The cut trees of the line have this many cuts, or more, which was the limit.
    Unknown {
        cuts: u64,
    },
}
