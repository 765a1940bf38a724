// The blocks that a writer makes of its writes.
ghost use Rattle.std.specs.Prelude.{◌≡◌, ◌<◌, ◌^◌, ◌++◌, ◌∷◌, [], length, All, IfOk, OnOk, Ok};
ghost use Rattle.block_contents.specs.Deletes.{IsDelete, IsDeleteIn, deletes_bytes, deletes_in};
ghost use Rattle.log_block.specs.Form.{SchemaFits};
ghost use Rattle.payload_merge.specs.Contents.{AreRowsOf};
ghost use Rattle.upsert_writer.specs.Blocks.{HasWrites, Holds};
ghost use Rattle.upsert_writer.specs.TargetWrites.{AreOfKind, IsDeleteAt, IsPutAt, are_deletes, rows_among};
ghost use Rattle.table_jobs.specs.Places.{place_in};

use block_contents::delete_block;
use hudi_base::{Bytes, GroupRef, InstantTime};
use log_block::{Block, write_block};
use payload_merge::{Row, Write, Writes};
use std::alloc::{AllocError, Global};
use table_jobs::{TableCodec, file_id_of};

/// A block, and how many writes it has.
#[derive(Drop)]
pub(crate) struct WrittenBlock {
    pub writes: u32,
    pub bytes: Bytes,
}

// Adds the row of a write, where it is a put.
fn push_row(rows: &mut Vec<Row>, write: Write) -> Result<(), AllocError>
    ensures { OnOk result (rows.new.items ≡ rows.old.items ++ rows_among (write ∷ [])) }
{
    match write {
        Write::Put(row) => {
            rows.push(row)?;
            Ok(())
        }
        Write::Del { .. } => Ok(()),
    }
}

// The rows of the puts among writes.
fn rows_among(alloc: Global, writes: Writes) -> Result<Vec<Row>, AllocError>
    ensures { IfOk result (λ rows. rows.items ≡ rows_among writes) }
{
    let mut rows = Vec::with_capacity(alloc, writes.len())?;
    for write in writes.into_vec() {
        push_row(&mut rows, write)?;
    }
    Ok(rows)
}

// Whether writes, which are of one kind, are deletes. Where there are none they pass for puts.
fn are_deletes(writes: &[Write]) -> bool
    ensures { result ≡ are_deletes writes.now }
{
    matches!(writes.first(), Some(Write::Del { .. }))
}

// The content of a data block for rows that all lie in the group.
fn data_content<K: TableCodec>(
    alloc: Global,
    codec: &K,
    t: InstantTime,
    group: &GroupRef,
    own: &[Row],
) -> Result<Bytes, AllocError>
    requires own { All (K.own_row codec.now) own.now }
    requires placed { AreRowsOf t group.now.partition own.now }
    requires counted { length own.now < 2 ^ 32 }
    ensures { IfOk result (λ content. K.block_rows codec.now (place_in (K.table_name codec.now) t group.now) content ≡ Ok own.now) }
{
    let id = file_id_of(alloc, codec, group)?;
    match codec.data_block(alloc, t, &id, own) {
        Ok(content) => Ok(content),
        Err(_) => Err(AllocError),
    }
}

// The data block of puts that all lie in the group.
fn data_block<K: TableCodec>(
    alloc: Global,
    codec: &K,
    t: InstantTime,
    group: &GroupRef,
    own: Writes,
) -> Result<Block, AllocError>
    requires puts { All (IsPutAt (K.own_row codec.now) t group.now.partition) own }
    requires counted { length own < 2 ^ 32 }
    ensures holds { IfOk result (Holds
        (record { reading = K.block_rows codec.now; table = K.table_name codec.now; schema = K.schema codec.now })
        t group.now own) }
    ensures schema { IfOk result SchemaFits }
{
    let rows = rows_among(alloc, own)?;
    Ok(Block::Data {
        instant: t,
        schema: codec.schema_text().copy(alloc)?,
        content: data_content(alloc, codec, t, group, &rows)?,
    })
}

// The content of a delete block for deletes of the partition.
fn delete_content(alloc: Global, group: &GroupRef, own: &[Write]) -> Result<Bytes, AllocError>
    requires deletes { All (IsDeleteAt group.now.partition) own.now }
    requires counted { length own.now < 2 ^ 32 }
    ensures bytes { IfOk result (λ content. content ≡ deletes_bytes own.now) }
    ensures reads_back { IfOk result (λ content. deletes_in group.now.partition content ≡ Ok own.now) }
{
    match delete_block(alloc, own) {
        Ok(content) => Ok(content),
        Err(_) => Err(AllocError),
    }
}

// The block of writes of one kind that all lie in the group.
fn block_with<K: TableCodec>(
    alloc: Global,
    codec: &K,
    t: InstantTime,
    group: &GroupRef,
    own: Writes,
) -> Result<Block, AllocError>
    requires of_kind { AreOfKind (K.own_row codec.now) t group.now.partition own }
    requires counted { length own < 2 ^ 32 }
    ensures holds { IfOk result (Holds
        (record { reading = K.block_rows codec.now; table = K.table_name codec.now; schema = K.schema codec.now })
        t group.now own) }
    ensures schema { IfOk result SchemaFits }
{
    if !are_deletes(own.as_slice()) {
        return data_block(alloc, codec, t, group, own);
    }
    Ok(Block::Delete {
        instant: t,
        content: delete_content(alloc, group, own.as_slice())?,
    })
}

/// The block of writes of one kind that all lie in the group. The only error is want of memory.
pub(crate) fn block_of<K: TableCodec>(
    alloc: Global,
    codec: &K,
    t: InstantTime,
    group: &GroupRef,
    own: Writes,
) -> Result<WrittenBlock, AllocError>
    requires of_kind { AreOfKind (K.own_row codec.now) t group.now.partition own }
    requires counted { length own < 2 ^ 32 }
    ensures { IfOk result (λ block. HasWrites
        (record { reading = K.block_rows codec.now; table = K.table_name codec.now; schema = K.schema codec.now })
        own t group.now block.writes block.bytes) }
{
    let writes = own.len() as u32;
    let block = block_with(alloc, codec, t, group, own)?;
    match write_block(alloc, &block) {
        Ok(bytes) => Ok(WrittenBlock { writes, bytes }),
        Err(_) => Err(AllocError),
    }
}
