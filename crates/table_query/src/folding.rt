// The fold of what a group's files hold.
ghost use Rattle.std.specs.Prelude.{◌≡◌, ◌≤◌, length, OnOk};
ghost use Rattle.file_names.specs.FileId.{file_id};
ghost use Rattle.payload_merge.specs.Fold.{table_after_all};
ghost use Rattle.payload_merge.specs.RowCodec.{AnswersContent};
ghost use Rattle.table_query.specs.GroupReading.{block_gives, block_writes, counts, group_writes, in_part, log_writes, logs_writes};
ghost use Rattle.table_query.specs.Parts.{GivesBlock, GivesFold, text_at};

use crate::logs::{PartLog, damaged, logs_of, voided};
use crate::times::{has_time, set_of};
use block_contents::delete_writes;
use hudi_base::{Bytes, GroupRef, InstantTime, Name};
use log_block::Block;
use payload_merge::{MergeError, RowError, RowMap, Writes};
use std::alloc::Global;
use std::collections::BTreeSet;
use table_core::JobReply;
use table_history::{Cause, GroupParts};
use table_jobs::{TableCodec, file_id_of};

// Folds writes, the first first.
fn fold_all(writes: Writes, rows: &mut RowMap) -> Result<(), MergeError>
    ensures { OnOk result (rows.new ≡ table_after_all rows.old writes) }
{
    for write in writes.into_vec() {
        rows.fold_in(write)?;
    }
    Ok(())
}

// The writes of a block in a group with this id.
fn block_writes<K: TableCodec>(
    alloc: Global,
    codec: &K,
    group: &GroupRef,
    id: &Name,
    block: &Block,
) -> Result<Writes, RowError>
    requires { id.now ≡ file_id (K.table_name codec.now) group.now }
    ensures { AnswersContent (block_writes (record { rows = K.block_rows codec.now; table = K.table_name codec.now }) group.now block.now) result }
{
    match block {
        Block::Data {
            instant,
            content,
            ..
        } => codec.block_writes(alloc, *instant, &group.partition, id, content.as_slice()),
        Block::Delete { content, .. } => {
            delete_writes(alloc, &group.partition, content.as_slice())
        }
        Block::Rollback { .. } => Ok(Writes::new(alloc)),
    }
}

// Folds the writes of a block in a group with this id.
fn fold_block<K: TableCodec>(
    alloc: Global,
    codec: &K,
    group: &GroupRef,
    id: &Name,
    block: &Block,
    rows: &mut RowMap,
) -> Result<(), RowError>
    requires { id.now ≡ file_id (K.table_name codec.now) group.now }
    ensures { GivesBlock result (block_writes (record { rows = K.block_rows codec.now; table = K.table_name codec.now }) group.now block.now) rows.old rows.new }
{
    let writes = block_writes(alloc, codec, group, id, block)?;
    match fold_all(writes, rows) {
        Ok(()) => Ok(()),
        Err(_) => Err(RowError::Memory),
    }
}

/// Whether a block counts.
pub(crate) fn counts(
    completed: &BTreeSet<InstantTime>,
    void: &BTreeSet<InstantTime>,
    block: &Block,
) -> bool
    ensures { result ≡ counts completed.now.keys void.now.keys block.now }
{
    match block {
        Block::Data { instant, .. } => has_time(completed, *instant) && !has_time(void, *instant),
        Block::Delete { instant, .. } => has_time(completed, *instant) && !has_time(void, *instant),
        Block::Rollback { .. } => false,
    }
}

// Folds a block that has this number in its log, where it counts.
fn fold_counted<K: TableCodec>(
    alloc: Global,
    codec: &K,
    group: &GroupRef,
    id: &Name,
    completed: &BTreeSet<InstantTime>,
    void: &BTreeSet<InstantTime>,
    name: &Name,
    number: usize,
    block: &Block,
    rows: &mut RowMap,
) -> Result<(), JobReply>
    requires { id.now ≡ file_id (K.table_name codec.now) group.now }
    ensures { GivesFold result (in_part name.now
        (block_gives (record { rows = K.block_rows codec.now; table = K.table_name codec.now }) group.now (counts completed.now.keys void.now.keys) number block.now))
        rows.old rows.new }
{
    if !counts(completed, void, block) {
        return Ok(());
    }
    match fold_block(alloc, codec, group, id, block, rows) {
        Ok(()) => Ok(()),
        Err(RowError::BadContent(_)) => { Err(damaged(alloc, name, Cause::Content, number as u64)) }
        Err(_) => Err(JobReply::Memory),
    }
}

// Folds the blocks of a log that count.
fn fold_log<K: TableCodec>(
    alloc: Global,
    codec: &K,
    group: &GroupRef,
    id: &Name,
    completed: &BTreeSet<InstantTime>,
    void: &BTreeSet<InstantTime>,
    log: &PartLog,
    rows: &mut RowMap,
) -> Result<(), JobReply>
    requires { id.now ≡ file_id (K.table_name codec.now) group.now }
    ensures { GivesFold result (in_part log.now.name
        (log_writes (record { rows = K.block_rows codec.now; table = K.table_name codec.now }) group.now (counts completed.now.keys void.now.keys) log.now.blocks))
        rows.old rows.new }
{
    let blocks = log.blocks.as_slice();
    for number in 0..blocks.len() {
        let block = &blocks[number];
        match fold_counted(
            alloc, codec, group, id, completed, void, &log.name, number, block, rows,
        ) {
            Ok(()) => {}
            Err(reply) => return Err(reply),
        }
    }
    Ok(())
}

// Folds the logs of a group.
fn fold_logs<K: TableCodec>(
    alloc: Global,
    codec: &K,
    group: &GroupRef,
    id: &Name,
    completed: &BTreeSet<InstantTime>,
    void: &BTreeSet<InstantTime>,
    logs: &[PartLog],
    rows: &mut RowMap,
) -> Result<(), JobReply>
    requires { id.now ≡ file_id (K.table_name codec.now) group.now }
    ensures { GivesFold result
        (logs_writes (record { rows = K.block_rows codec.now; table = K.table_name codec.now }) group.now (counts completed.now.keys void.now.keys) logs.now)
        rows.old rows.new }
{
    for log in logs {
        match fold_log(alloc, codec, group, id, completed, void, log, rows) {
            Ok(()) => {}
            Err(reply) => return Err(reply),
        }
    }
    Ok(())
}

/// Folds what the files of a group hold, whose bytes these are.
pub(crate) fn fold_group<K: TableCodec>(
    alloc: Global,
    codec: &K,
    completed: &BTreeSet<InstantTime>,
    parts: &GroupParts,
    texts: &[Bytes],
    rows: &mut RowMap,
) -> Result<(), JobReply>
    requires { length parts.now.parts ≤ length texts.now }
    ensures { GivesFold result
        (group_writes (record { rows = K.block_rows codec.now; table = K.table_name codec.now }) completed.now.keys (text_at texts.now) 0 parts.now)
        rows.old rows.new }
{
    let logs = match logs_of(alloc, parts.parts.as_slice(), texts) {
        Ok(logs) => logs,
        Err(reply) => return Err(reply),
    };
    let (Ok(targets), Ok(id)) = (
        voided(alloc, logs.as_slice()),
        file_id_of(alloc, codec, &parts.group),
    ) else {
        return Err(JobReply::Memory);
    };
    let Ok(void) = set_of(alloc, &targets) else {
        return Err(JobReply::Memory);
    };
    fold_logs(
        alloc,
        codec,
        &parts.group,
        &id,
        completed,
        &void,
        logs.as_slice(),
        rows,
    )
}
