//! Entries.
ghost use Rattle.std.specs.Prelude.{◌≡◌};
ghost use Rattle.asa_pair_trie.specs.Growth.{prefix_by};
ghost use Rattle.asa_pair_trie.specs.Pairs as spec;

use asa_base::{Packet, Prefix, Service};
use asa_trie::covers;

/// The packets of a service between two networks. Of the entries that hold a packet, the least rank counts.
#[derive(Clone, Copy, Debug, PartialEq, Eq)]
pub struct Entry {
    /// The source addresses.
    pub source: Prefix,
    /// The destination addresses.
    pub dest: Prefix,
    pub service: Service,
    pub rank: u32,
}

/// One of an entry's two prefixes.
#[derive(Clone, Copy, Debug)]
pub(crate) enum Side {
    Source,
    Dest,
}

/// The prefix of that side.
pub(crate) fn prefix_by(side: Side, entry: &Entry) -> Prefix
    ensures { result ≡ prefix_by side entry.now }
{
    match side {
        Side::Source => entry.source,
        Side::Dest => entry.dest,
    }
}

/// Whether both prefixes cover the packet's addresses, and the service holds it.
pub(crate) fn holds(entry: &Entry, p: &Packet) -> bool
    ensures { result ≡ spec.holds p.now entry.now }
{
    covers(entry.source, p.src) && covers(entry.dest, p.dst) && entry.service.holds(p)
}

/// The lesser of two ranks, where there are two.
pub(crate) fn lesser(a: Option<u32>, b: Option<u32>) -> Option<u32>
    ensures { result ≡ spec.lesser a b }
{
    match (a, b) {
        (None, b) => b,
        (a, None) => a,
        (Some(a), Some(b)) => Some(a.min(b)),
    }
}
