//! The prefix pairs of lists, and the refusal of too many.
ghost use Rattle.std.specs.Prelude.{◌≡◌, ◌+◌, ◌-◌, ◌<◌, IfOk};
ghost use Rattle.asa_config_edit.specs.declared.fault.EditFault.TheVariants as fault;
ghost use Rattle.asa_config_edit.specs.declared.fault.EditRefusal.TheVariants as refusal;
ghost use Rattle.asa_acl_table.specs.Limits as spec;
ghost use Rattle.asa_acl_table.specs.Names.{meanings_in, pairs_of_lists};

use crate::scope::Scope;
use crate::table::ListTable;
use asa_acl_boxes::list_pairs;
use asa_config_edit::{EditFault, EditRefusal, refused};
use std::alloc::{AllocError, Global};

/// The refusal of a configuration that would have so many prefix pairs.
pub fn too_large(pairs: u128) -> EditRefusal
    ensures { result ≡ refusal.At 1 (fault.TooLarge (spec.capped pairs)) }
{
    let pairs = if pairs < 0xffff_ffff_ffff_ffff {
        pairs as u64
    } else {
        u64::MAX
    };
    refused(1, EditFault::TooLarge { pairs })
}

/// How many prefix pairs the lists of a table have together.
pub fn count_lists(alloc: Global, scope: &Scope<'_>, table: &ListTable) -> Result<u128, AllocError>
    ensures { IfOk result (λ n. n ≡ pairs_of_lists (meanings_in scope.now.objects.now scope.now.ifaces.now) table.now) }
{
    let mut total = 0;
    for i in 0..table.len() {
        let Some(list) = table.at(i) else {
            unreachable!()
        };
        let pairs = list_pairs(alloc, scope, list.acl().lines())?;
        total += pairs;
    }
    Ok(total)
}
