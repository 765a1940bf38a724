// The writes of a batch, as an instant makes them.
ghost use Rattle.std.specs.Prelude.{◌≡◌, ◌<◌, ◌^◌, length, filter, IfOk};
ghost use Rattle.std.specs.List.{list_all};
ghost use Rattle.payload_merge.specs.Fold.{write_at, writes_from};
ghost use Rattle.payload_merge.specs.Payload.{key_of};
ghost use Rattle.upsert_writer.specs.BatchWrites.{is_in_group, partition_of, slot_in};

use hudi_base::{Bytes, GroupRef, InstantTime, Name};
use key_index::slot_of;
use payload_merge::{Row, Write, Writes};
use std::alloc::{AllocError, Global};

/// The partition of a write.
pub(crate) fn partition_of(write: &Write) -> &Name
    ensures { result.now ≡ partition_of write.now }
{
    match write {
        Write::Put(row) => &row.partition,
        Write::Del { partition, .. } => partition,
    }
}

fn record_key_of(write: &Write) -> &Bytes
    ensures { result.now ≡ (key_of write.now).1 }
{
    match write {
        Write::Put(row) => &row.key,
        Write::Del { key, .. } => key,
    }
}

/// The slot of a write's record key.
pub(crate) fn slot_in(write: &Write) -> u16
    ensures { result ≡ slot_in write.now }
{
    slot_of(record_key_of(write).as_slice())
}

// A write of the instant at this place of its batch.
fn write_at(write: Write, t: InstantTime, seq: u32) -> Write
    ensures { result ≡ write_at t seq write }
{
    match write {
        Write::Put(row) => {
            let Row {
                partition,
                key,
                rank,
                body,
                ..
            } = row;
            Write::Put(Row {
                partition,
                key,
                rank,
                commit: t,
                seq,
                body,
            })
        }
        Write::Del {
            partition,
            key,
            rank,
        } => Write::Del {
            partition,
            key,
            rank,
        },
    }
}

/// The writes with the instant and their places in the batch. The only error is want of memory.
pub(crate) fn writes_at(
    alloc: Global,
    batch: Writes,
    t: InstantTime,
) -> Result<Vec<Write>, AllocError>
    requires { length batch < 2 ^ 32 }
    ensures { IfOk result (λ placed. placed.items ≡ writes_from t 0 batch) }
{
    let mut placed = Vec::with_capacity(alloc, batch.len())?;
    let mut seq: u64 = 0;
    for write in batch.into_vec() {
        placed.push(write_at(write, t, seq as u32))?;
        seq += 1;
    }
    Ok(placed)
}

/// Whether a write lies in a file group.
pub(crate) fn is_in_group(group: &GroupRef, write: &Write) -> bool
    ensures { result ≡ is_in_group group.now write.now }
{
    let slot = slot_in(write);
    partition_of(write).as_slice() == group.partition.as_slice()
        && group.lo <= slot
        && slot <= group.hi
}

/// Whether all writes lie in a file group.
pub(crate) fn all_in_group(group: &GroupRef, writes: &[Write]) -> bool
    ensures { result ≡ list_all (is_in_group group.now) writes.now }
{
    writes.iter().all(|write| is_in_group(group, write))
}

// A second owner of a row.
fn copy_of_row(alloc: Global, row: &Row) -> Result<Row, AllocError>
    ensures { IfOk result (λ copied. copied ≡ row.now) }
{
    Ok(Row {
        partition: row.partition.copy(alloc)?,
        key: row.key.copy(alloc)?,
        rank: row.rank,
        commit: row.commit,
        seq: row.seq,
        body: row.body.copy(alloc)?,
    })
}

// A second owner of a write.
fn copy_of(alloc: Global, write: &Write) -> Result<Write, AllocError>
    ensures { IfOk result (λ copied. copied ≡ write.now) }
{
    match write {
        Write::Put(row) => Ok(Write::Put(copy_of_row(alloc, row)?)),
        Write::Del {
            partition,
            key,
            rank,
        } => Ok(Write::Del {
            partition: partition.copy(alloc)?,
            key: key.copy(alloc)?,
            rank: *rank,
        }),
    }
}

/// Second owners of the writes that lie in a file group.
pub(crate) fn copies_in_group(
    alloc: Global,
    group: &GroupRef,
    writes: &[Write],
) -> Result<Vec<Write>, AllocError>
    ensures { IfOk result (λ copies. copies.items ≡ filter (is_in_group group.now) writes.now) }
{
    let mut copies = Vec::new(alloc);
    for write in writes {
        if is_in_group(group, write) {
            copies.push(copy_of(alloc, write)?)?;
        }
    }
    Ok(copies)
}
