// The ids of file groups.
ghost use Rattle.std.specs.Prelude.{◌≡◌, ◌≤◌, length, IfOk, OnOk};
ghost use Rattle.file_names.specs.FileId.{file_id};

use crate::TableCodec;
use file_names::file_id;
use hudi_base::{GroupRef, Name};
use std::alloc::{AllocError, Global};

/// The id of a file group of the codec's table. The only error is want of memory.
#[tactic(auto, using(crate::proofs::IdLengths::file_id_is_short))]
pub fn file_id_of<K: TableCodec>(
    alloc: Global,
    codec: &K,
    group: &GroupRef,
) -> Result<Name, AllocError>
    ensures id { IfOk result (λ id. id ≡ file_id (K.table_name codec.now) group.now) }
    ensures short { IfOk result (λ id. length id ≤ 65536) }
{
    let _born = group.born.ms();
    match file_id(alloc, codec.table(), group) {
        Ok(id) => Ok(id),
        Err(_) => Err(AllocError),
    }
}
