// What a map from keys to the rest of their rows does with a write, and the rows that it stands for.
ghost use Rattle.std.specs.Prelude.{◌≡◌, None, IfOk, OnOk, OnErr};
ghost use Rattle.std.specs.BTreeMap.{get};
ghost use Rattle.std.specs.FinMap as table;
ghost use Rattle.payload_merge.specs.declared.row.Write.TheVariants.{Put, Del};
ghost use Rattle.payload_merge.specs.Payload.{key_cmp, key_of_row};
ghost use Rattle.payload_merge.specs.Fold.{table_after, rows_of};
ghost use Rattle.payload_merge.specs.RowsByKey.{is_outranked_by, table_of};

use crate::merge_error::MergeError;
use crate::payload::outranks;
use crate::row::{Row, Rows};
use hudi_base::{Bytes, InstantTime, Name};
use std::alloc::Global;
use std::collections::BTreeMap;

// What a row has beside its key.
#[derive(Drop)]
pub(crate) struct KeylessRow {
    pub(crate) rank: i64,
    pub(crate) commit: InstantTime,
    pub(crate) seq: u32,
    pub(crate) body: Bytes,
}

// From partitions and record keys, so that none is held twice.
pub(crate) type RowsByKey = BTreeMap<(Name, Bytes), KeylessRow>;

// Puts a row at its key, unless the row there outranks it. An error, which only a new key can have, changes nothing.
pub(crate) fn put(by_key: &mut RowsByKey, row: Row) -> Result<(), MergeError>
    ensures ok { OnOk result (table_of by_key.new.entries ≡ table_after (table_of by_key.old.entries) (Put row)) }
    ensures err { OnErr result (table_of by_key.new.entries ≡ table_of by_key.old.entries) }
    ensures absent { OnErr result (table.get (table_of by_key.old.entries) (key_of_row row) ≡ None) }
{
    let key = (row.partition, row.key);
    if stays(by_key, &key, row.rank) {
        return Ok(());
    }
    let keyless = KeylessRow {
        rank: row.rank,
        commit: row.commit,
        seq: row.seq,
        body: row.body,
    };
    by_key.insert(key, keyless)?;
    Ok(())
}

// Takes out the row at a key, unless it outranks the write that says so.
pub(crate) fn delete(by_key: &mut RowsByKey, key: (Name, Bytes), rank: i64)
    ensures { table_of by_key.new.entries ≡ table_after (table_of by_key.old.entries) (Del key.0 key.1 rank) }
{
    if !stays(by_key, &key, rank) {
        by_key.remove(&key);
    }
}

// Whether the row at a key, if any, stays in spite of a write of this rank.
fn stays(by_key: &RowsByKey, key: &(Name, Bytes), rank: i64) -> bool
    ensures { result ≡ is_outranked_by (get key_cmp by_key.now key.now) rank }
{
    match by_key.get(key) {
        Some(present) => outranks(present.rank, rank),
        None => false,
    }
}

// The rows, in the order of their keys.
pub(crate) fn into_rows(alloc: Global, by_key: RowsByKey) -> Result<Rows, MergeError>
    ensures { IfOk result (λ rows. rows ≡ rows_of (table_of by_key.entries)) }
{
    let mut rows = Rows::new(alloc);
    for ((partition, key), keyless) in by_key {
        rows.push(Row {
            partition,
            key,
            rank: keyless.rank,
            commit: keyless.commit,
            seq: keyless.seq,
            body: keyless.body,
        })?;
    }
    Ok(rows)
}
