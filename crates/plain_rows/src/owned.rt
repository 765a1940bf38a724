// Writes with memory of their own.
ghost use Rattle.std.specs.Prelude.{◌≡◌, IfOk, map};
ghost use Rattle.payload_merge.specs.RowRefs.{write_in};

use hudi_base::{Bytes, Name};
use payload_merge::{Row, Write, WriteRef, Writes};
use std::alloc::{AllocError, Global};

fn write_of(alloc: Global, partition: &Name, write: &WriteRef<'_>) -> Result<Write, AllocError>
    ensures { IfOk result (λ own. own ≡ write_in partition.now write.now) }
{
    match write {
        WriteRef::Put(row) => Ok(Write::Put(Row {
            partition: partition.copy(alloc)?,
            key: Bytes::from_slice(alloc, row.key)?,
            rank: row.rank,
            commit: row.commit,
            seq: row.seq,
            body: Bytes::from_slice(alloc, row.body)?,
        })),
        WriteRef::Del { key, rank } => Ok(Write::Del {
            partition: partition.copy(alloc)?,
            key: Bytes::from_slice(alloc, key)?,
            rank: *rank,
        }),
    }
}

/// Copies of lent writes, as writes to a partition.
pub(crate) fn owned(
    alloc: Global,
    partition: &Name,
    writes: &[WriteRef<'_>],
) -> Result<Writes, AllocError>
    ensures { IfOk result (λ own. own ≡ map (write_in partition.now) writes.now) }
{
    let mut own = Writes::new(alloc);
    for write in writes {
        own.push(write_of(alloc, partition, write)?)?;
    }
    Ok(own)
}
