//! What the table of names has beside the values of the names.
ghost use Rattle.std.specs.Prelude.{◌≡◌, [], IfOk};
ghost use Rattle.asa_objects_table.specs.Changes.{SameUsers};

use crate::rank::Rank;
use asa_base::Name;
use indexmap::IndexMap;
use std::alloc::{AllocError, Global};
use std::collections::{BTreeMap, BTreeSet};

/// What the table of names has beside the values of the names.
#[derive(Debug, Drop)]
pub(crate) struct Index {
    /// The label and the totals of each name.
    pub(crate) ranks: IndexMap<Name, Rank>,
    /// The names that refer to each name.
    pub(crate) uses: BTreeMap<Name, BTreeSet<Name>>,
    /// The next label.
    pub(crate) stamp: u64,
}

/// A copy of the ranks.
fn copy_ranks(ranks: &IndexMap<Name, Rank>) -> Result<IndexMap<Name, Rank>, AllocError>
    ensures { IfOk result (λ m. m.entries ≡ ranks.now.entries) }
{
    ranks.clone()
}

/// A copy of the users of names.
fn copy_uses(
    uses: &BTreeMap<Name, BTreeSet<Name>>,
) -> Result<BTreeMap<Name, BTreeSet<Name>>, AllocError>
    ensures { IfOk result (λ m. SameUsers uses.now.entries m.entries) }
{
    uses.clone()
}

impl Index {
    /// What a table without names has.
    pub(crate) fn new(alloc: Global) -> Index
        ensures ranks { result.ranks.entries ≡ [] }
        ensures uses { result.uses.entries ≡ [] }
        ensures stamp { result.stamp ≡ 1 }
    {
        Index {
            ranks: IndexMap::new(alloc),
            uses: BTreeMap::new(alloc),
            stamp: 1,
        }
    }

    /// A copy.
    pub(crate) fn copy(&self) -> Result<Index, AllocError>
        ensures ranks { IfOk result (λ k. k.ranks.entries ≡ self.now.ranks.entries) }
        ensures uses { IfOk result (λ k. SameUsers self.now.uses.entries k.uses.entries) }
        ensures stamp { IfOk result (λ k. k.stamp ≡ self.now.stamp) }
    {
        let ranks = copy_ranks(&self.ranks)?;
        let uses = copy_uses(&self.uses)?;
        Ok(Index {
            ranks,
            uses,
            stamp: self.stamp,
        })
    }
}
