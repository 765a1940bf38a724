// The fold of writes that are lent from the blocks of a group.
ghost use Rattle.std.specs.Prelude.{◌≡◌, ◌≤◌, ◌++◌, length, map, IfOk, IfSome, OnSome};
ghost use Rattle.file_names.specs.FileId.{file_id};
ghost use Rattle.payload_merge.specs.RowRefs.{row_in};
ghost use Rattle.table_query.specs.GroupReading.{block_gives, block_writes, counts, group_writes, in_part, log_writes, logs_writes};
ghost use Rattle.table_query.specs.Parts.{ArePuts, Folds, LeavesRows, lent_table, text_at};

use crate::folding::counts;
use crate::logs::{PartLog, logs_of, voided};
use crate::times::set_of;
use hudi_base::{Bytes, GroupRef, InstantTime, Name, Sequence};
use log_block::Block;
use payload_merge::{Row, RowRef, Rows, WriteRef, fold_writes};
use std::alloc::Global;
use std::collections::BTreeSet;
use table_history::GroupParts;
use table_jobs::{TableCodec, file_id_of};

// Adds writes, unless memory is wanting.
fn add_all<'a>(lent: Vec<WriteRef<'a>>, writes: &mut Vec<WriteRef<'a>>) -> Option<()>
    ensures { OnSome result (writes.new.items ≡ writes.old.items ++ lent.entry.items) }
{
    for write in lent {
        if writes.push(write).is_err() {
            return None;
        }
    }
    Some(())
}

// Adds the writes of a block in a group with this id, where they can be lent. Deletes are not.
fn lend_block<'a, K: TableCodec>(
    alloc: Global,
    codec: &K,
    group: &GroupRef,
    id: &Name,
    block: &'a Block,
    writes: &mut Vec<WriteRef<'a>>,
) -> Option<()>
    requires { id.now ≡ file_id (K.table_name codec.now) group.now }
    ensures puts { OnSome result (IfOk (block_writes (record { rows = K.block_rows codec.now; table = K.table_name codec.now }) group.now block.now) ArePuts) }
    ensures folds { OnSome result (Folds (block_writes (record { rows = K.block_rows codec.now; table = K.table_name codec.now }) group.now block.now)
        (lent_table group.now.partition writes.old.items) (lent_table group.now.partition writes.new.items)) }
{
    match block {
        Block::Data {
            instant,
            content,
            ..
        } => match codec.lent_writes(alloc, *instant, &group.partition, id, content.as_slice()) {
            Ok(Some(lent)) => add_all(lent, writes),
            _ => None,
        },
        Block::Delete { .. } => None,
        Block::Rollback { .. } => Some(()),
    }
}

// Adds the writes of a block, where it counts.
fn lend_counted<'a, K: TableCodec>(
    alloc: Global,
    codec: &K,
    group: &GroupRef,
    id: &Name,
    completed: &BTreeSet<InstantTime>,
    void: &BTreeSet<InstantTime>,
    number: usize,
    block: &'a Block,
    writes: &mut Vec<WriteRef<'a>>,
) -> Option<()>
    requires { id.now ≡ file_id (K.table_name codec.now) group.now }
    ensures puts { OnSome result (IfOk
        (block_gives (record { rows = K.block_rows codec.now; table = K.table_name codec.now }) group.now (counts completed.now.keys void.now.keys) number block.now) ArePuts) }
    ensures folds { OnSome result (Folds
        (block_gives (record { rows = K.block_rows codec.now; table = K.table_name codec.now }) group.now (counts completed.now.keys void.now.keys) number block.now)
        (lent_table group.now.partition writes.old.items) (lent_table group.now.partition writes.new.items)) }
{
    if !counts(completed, void, block) {
        return Some(());
    }
    lend_block(alloc, codec, group, id, block, writes)
}

// Adds the writes of the blocks of a log that count.
fn lend_log<'a, K: TableCodec>(
    alloc: Global,
    codec: &K,
    group: &GroupRef,
    id: &Name,
    completed: &BTreeSet<InstantTime>,
    void: &BTreeSet<InstantTime>,
    log: &'a PartLog,
    writes: &mut Vec<WriteRef<'a>>,
) -> Option<()>
    requires { id.now ≡ file_id (K.table_name codec.now) group.now }
    ensures puts { OnSome result (IfOk (in_part log.now.name
        (log_writes (record { rows = K.block_rows codec.now; table = K.table_name codec.now }) group.now (counts completed.now.keys void.now.keys) log.now.blocks)) ArePuts) }
    ensures folds { OnSome result (Folds (in_part log.now.name
        (log_writes (record { rows = K.block_rows codec.now; table = K.table_name codec.now }) group.now (counts completed.now.keys void.now.keys) log.now.blocks))
        (lent_table group.now.partition writes.old.items) (lent_table group.now.partition writes.new.items)) }
{
    let blocks = log.blocks.as_slice();
    for number in 0..blocks.len() {
        let block = &blocks[number];
        lend_counted(
            alloc, codec, group, id, completed, void, number, block, writes,
        )?;
    }
    Some(())
}

// Adds the writes of the logs of a group.
fn lend_logs<'a, K: TableCodec>(
    alloc: Global,
    codec: &K,
    group: &GroupRef,
    id: &Name,
    completed: &BTreeSet<InstantTime>,
    void: &BTreeSet<InstantTime>,
    logs: &'a [PartLog],
    writes: &mut Vec<WriteRef<'a>>,
) -> Option<()>
    requires { id.now ≡ file_id (K.table_name codec.now) group.now }
    ensures puts { OnSome result (IfOk
        (logs_writes (record { rows = K.block_rows codec.now; table = K.table_name codec.now }) group.now (counts completed.now.keys void.now.keys) logs.now) ArePuts) }
    ensures folds { OnSome result (Folds
        (logs_writes (record { rows = K.block_rows codec.now; table = K.table_name codec.now }) group.now (counts completed.now.keys void.now.keys) logs.now)
        (lent_table group.now.partition writes.old.items) (lent_table group.now.partition writes.new.items)) }
{
    for log in logs {
        lend_log(alloc, codec, group, id, completed, void, log, writes)?;
    }
    Some(())
}

// A row of a partition that owns its key and body.
fn row_of(alloc: Global, partition: &Name, row: &RowRef<'_>) -> Option<Row>
    ensures { IfSome result (λ owned. owned ≡ row_in partition.now row.now) }
{
    let (Ok(partition), Ok(key), Ok(body)) = (
        partition.copy(alloc),
        Bytes::from_slice(alloc, row.key),
        Bytes::from_slice(alloc, row.body),
    ) else {
        return None;
    };
    Some(Row {
        partition,
        key,
        rank: row.rank,
        commit: row.commit,
        seq: row.seq,
        body,
    })
}

// Rows of a partition that own their keys and bodies.
fn rows_of(alloc: Global, partition: &Name, rows: &[RowRef<'_>]) -> Option<Rows>
    ensures { IfSome result (λ owned. owned ≡ map (row_in partition.now) rows.now) }
{
    let mut owned = Sequence::new(alloc);
    for row in rows {
        let row = row_of(alloc, partition, row)?;
        if owned.push(row).is_err() {
            return None;
        }
    }
    Some(owned)
}

// The rows that a group's logs leave, by blocks that are lent.
fn rows_of_logs<K: TableCodec>(
    alloc: Global,
    codec: &K,
    group: &GroupRef,
    completed: &BTreeSet<InstantTime>,
    void: &BTreeSet<InstantTime>,
    logs: &[PartLog],
) -> Option<Rows>
    ensures puts { OnSome result (IfOk
        (logs_writes (record { rows = K.block_rows codec.now; table = K.table_name codec.now }) group.now (counts completed.now.keys void.now.keys) logs.now) ArePuts) }
    ensures rows { IfSome result (LeavesRows
        (logs_writes (record { rows = K.block_rows codec.now; table = K.table_name codec.now }) group.now (counts completed.now.keys void.now.keys) logs.now)) }
{
    let Ok(id) = file_id_of(alloc, codec, group) else {
        return None;
    };
    let mut writes = Vec::new(alloc);
    lend_logs(alloc, codec, group, &id, completed, void, logs, &mut writes)?;
    match fold_writes(alloc, &writes) {
        Ok(rows) => rows_of(alloc, &group.partition, &rows),
        Err(_) => None,
    }
}

/// The rows that a group's files leave, whose bytes these are, where the codec lends what the blocks hold and they
/// delete nothing. None where a block can't be lent or read, or memory is wanting.
pub(crate) fn lent_rows<K: TableCodec>(
    alloc: Global,
    codec: &K,
    completed: &BTreeSet<InstantTime>,
    parts: &GroupParts,
    texts: &[Bytes],
) -> Option<Rows>
    requires { length parts.now.parts ≤ length texts.now }
    ensures puts { OnSome result (IfOk
        (group_writes (record { rows = K.block_rows codec.now; table = K.table_name codec.now }) completed.now.keys (text_at texts.now) 0 parts.now) ArePuts) }
    ensures rows { IfSome result (LeavesRows
        (group_writes (record { rows = K.block_rows codec.now; table = K.table_name codec.now }) completed.now.keys (text_at texts.now) 0 parts.now)) }
{
    let Ok(logs) = logs_of(alloc, parts.parts.as_slice(), texts) else {
        return None;
    };
    let Ok(targets) = voided(alloc, logs.as_slice()) else {
        return None;
    };
    let Ok(void) = set_of(alloc, &targets) else {
        return None;
    };
    rows_of_logs(
        alloc,
        codec,
        &parts.group,
        completed,
        &void,
        logs.as_slice(),
    )
}
