// The group of a file id.
ghost use Rattle.std.specs.Prelude.{◌≡◌, IfOk};
ghost use Rattle.file_names.specs.GroupIds.{group_with_id};

use crate::candidate::group_of;
use crate::{NameError, file_id};
use hudi_base::{GroupRef, Name};
use std::alloc::Global;
use table_forms::is_partition_path;

/// The group of a partition of this table that has the file id; `None` where the text isn't a partition's path, or
/// where no group of the partition has the id. The only error is want of memory.
#[tactic(auto, using(crate::proofs::GroupIdLemmas::with_ids))]
pub fn group_with_id(
    alloc: Global,
    table: &Name,
    partition: &str,
    id: &str,
) -> Result<Option<GroupRef>, NameError>
    ensures { IfOk result (λ found. found ≡ group_with_id table.now partition.now id.now) }
{
    if !is_partition_path(partition.as_bytes()) {
        return Ok(None);
    }
    let Some(group) = group_of(Name::from_text(alloc, partition)?, id.as_bytes()) else {
        return Ok(None);
    };
    let own = file_id(alloc, table, &group)?;
    if own.as_str() == id {
        Ok(Some(group))
    } else {
        Ok(None)
    }
}
