// The writes that a batch makes.
ghost use Rattle.std.specs.Prelude.{◌≡◌, ◌<◌, ◌^◌, length, All, IfOk};
ghost use Rattle.table_jobs.specs.NewRows.{delete_of};
ghost use Rattle.upsert_writer.specs.Batches.{batch_writes, made_from, put_of};
ghost use Rattle.upsert_writer.specs.BatchFits.{BatchFits, IsFit};
ghost use Rattle.upsert_writer.specs.Making.{CanBeWritten, Makes, MakesAll, reply_of, stop_of};

use crate::batch::{Batch, PutRow, PutRows};
use hudi_base::Sequence;
use payload_merge::{RowError, Write, Writes};
use std::alloc::Global;
use table_core::{JobReply, RowCause};
use table_jobs::{DelKeys, TableCodec, delete_of};

/// Why a write isn't made: want of memory, or its row or key is refused.
#[derive(Clone, Copy)]
pub(crate) enum Stop {
    Memory,
    Refused(RowCause),
}

// Why a codec makes no row.
fn stop_of(error: RowError) -> Stop
    ensures { result ≡ stop_of error }
{
    match error {
        RowError::NoKey => Stop::Refused(RowCause::NoKey),
        RowError::BadPartition => Stop::Refused(RowCause::BadPartition),
        RowError::NoOrdering => Stop::Refused(RowCause::NoOrdering),
        RowError::TooLarge => Stop::Refused(RowCause::TooLarge),
        _ => Stop::Memory,
    }
}

// The put of a row.
fn put_of<K: TableCodec>(alloc: Global, codec: &K, row: PutRow) -> Result<Write, Stop>
    requires { IsFit (K.fits codec.now) row }
    ensures { Makes (put_of (record { row = K.row_made codec.now; is_ordered = K.is_ordered codec.now }) row) result }
{
    match row {
        PutRow::Fits(value) => match codec.new_row(alloc, &value) {
            Ok(row) => Ok(Write::Put(row)),
            Err(error) => Err(stop_of(error)),
        },
        PutRow::Mismatch(field) => Err(Stop::Refused(RowCause::Mismatch(field))),
    }
}

// The answer where the write at a place of the batch isn't made.
fn reply_of(place: usize, stop: Stop) -> JobReply
    requires { place < 2 ^ 32 }
    ensures { result ≡ reply_of place stop }
{
    match stop {
        Stop::Memory => JobReply::Memory,
        Stop::Refused(cause) => JobReply::BadRow(place as u32, cause),
    }
}

// The puts of rows, or the first that is refused.
fn puts_of<K: TableCodec>(alloc: Global, codec: &K, rows: PutRows) -> Result<Writes, JobReply>
    requires counted { length rows < 2 ^ 32 }
    requires fit { All (IsFit (K.fits codec.now)) rows }
    ensures { MakesAll (made_from (put_of (record { row = K.row_made codec.now; is_ordered = K.is_ordered codec.now })) 0 rows) result }
{
    let mut writes = Sequence::new(alloc);
    for row in rows.into_vec() {
        match put_of(alloc, codec, row) {
            Ok(write) => {
                let Ok(()) = writes.push(write) else {
                    return Err(JobReply::Memory);
                };
            }
            Err(stop) => return Err(reply_of(writes.len(), stop)),
        }
    }
    Ok(writes)
}

// The deletes of keys, or the first that is refused.
fn deletes_of(alloc: Global, is_ordered: bool, keys: DelKeys) -> Result<Writes, JobReply>
    requires { length keys < 2 ^ 32 }
    ensures { MakesAll (made_from (delete_of is_ordered) 0 keys) result }
{
    let mut writes = Sequence::new(alloc);
    for key in keys.into_vec() {
        match delete_of(is_ordered, key) {
            Ok(write) => {
                let Ok(()) = writes.push(write) else {
                    return Err(JobReply::Memory);
                };
            }
            Err(cause) => return Err(reply_of(writes.len(), Stop::Refused(cause))),
        }
    }
    Ok(writes)
}

/// The writes of a batch, or its first row or key that is refused.
pub(crate) fn writes_of<K: TableCodec>(
    alloc: Global,
    codec: &K,
    batch: Batch,
) -> Result<Writes, JobReply>
    requires { BatchFits (K.fits codec.now) batch }
    ensures made { MakesAll (batch_writes (record { row = K.row_made codec.now; is_ordered = K.is_ordered codec.now }) batch) result }
    ensures ready { IfOk result (CanBeWritten (K.own_row codec.now)) }
{
    match batch {
        Batch::Puts(rows) => puts_of(alloc, codec, rows),
        Batch::Dels(keys) => deletes_of(alloc, codec.is_ordered(), keys),
    }
}
