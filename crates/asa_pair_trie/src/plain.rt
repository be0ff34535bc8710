//! The entries read one after another: the plain program beside the compiled one.
ghost use Rattle.std.specs.Prelude.{◌≡◌, filter};
ghost use Rattle.asa_pair_trie.specs.Pairs as spec;

use crate::entries::{Entry, holds, lesser};
use asa_base::Packet;

/// The least rank among the entries that hold the packet, found by reading all entries; None exactly where none does.
pub fn first_listed(entries: &[Entry], p: &Packet) -> Option<u32>
    ensures { result ≡ spec.first_of entries.now p.now }
{
    let mut best = None;
    for entry in entries {
        if holds(entry, p) {
            best = lesser(best, Some(entry.rank));
        }
    }
    best
}
