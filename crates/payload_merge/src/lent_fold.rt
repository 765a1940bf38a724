// The fold of many borrowed writes at once.
ghost use Rattle.std.specs.Prelude.{◌≡◌, ◌++◌, map, None, IfOk, OnOk};
ghost use Rattle.std.specs.Option.{option_map};
ghost use Rattle.payload_merge.specs.RowRefs.{LeaveRows};
ghost use Rattle.payload_merge.specs.KeyOrder.{IsLeftBy, KeysRise, listed, write_of};

use crate::merge_error::MergeError;
use crate::payload::outranks;
use crate::prefixed_writes::{PrefixedWrite, in_order};
use crate::row_refs::{RowRef, WriteRef};
use std::alloc::Global;

/// The rows that these writes leave, the first first, where there was none. They come in the order of their keys.
/// The only error is want of memory.
pub fn fold_writes<'a>(
    alloc: Global,
    writes: &'a [WriteRef<'a>],
) -> Result<Vec<RowRef<'a>>, MergeError>
    ensures { IfOk result (λ rows. LeaveRows writes.now rows.items) }
{
    let ordered = in_order(alloc, writes)?;
    fold_in_order(alloc, &ordered)
}

// The same of writes in the order of their keys: what is left at each key is known once a write to another one comes.
fn fold_in_order<'a>(
    alloc: Global,
    ordered: &[PrefixedWrite<'a>],
) -> Result<Vec<RowRef<'a>>, MergeError>
    requires { KeysRise (map write_of ordered.now) }
    ensures { IfOk result (λ rows. LeaveRows (map write_of ordered.now) rows.items) }
{
    let mut rows = Vec::new(alloc);
    let mut key: &[u8] = &[];
    let mut present = None;
    for prefixed in ordered {
        let write = prefixed.write;
        if write.key() != key {
            push_present(&mut rows, present)?;
            key = write.key();
            present = None;
        }
        present = row_left(present, write);
    }
    push_present(&mut rows, present)?;
    Ok(rows)
}

// What is left of the row that a key has, if any, after a write to it.
fn row_left<'a>(present: Option<&'a RowRef<'a>>, write: &'a WriteRef<'a>) -> Option<&'a RowRef<'a>>
    ensures { IsLeftBy write.now (option_map (λ row. row.now) present.entry) (option_map (λ row. row.now) result) }
{
    let Some(row) = present else {
        return row_written(write);
    };
    if outranks(row.rank, write.rank()) {
        return present;
    }
    row_written(write)
}

// What a write leaves where there is no row.
fn row_written<'a>(write: &'a WriteRef<'a>) -> Option<&'a RowRef<'a>>
    ensures { IsLeftBy write.now None (option_map (λ row. row.now) result) }
{
    match write {
        WriteRef::Put(row) => Some(row),
        WriteRef::Del { .. } => None,
    }
}

// Adds the row of a key, if it has one.
fn push_present<'a>(
    rows: &mut Vec<RowRef<'a>>,
    present: Option<&RowRef<'a>>,
) -> Result<(), MergeError>
    ensures { OnOk result (rows.new.items ≡ rows.old.items ++ listed (option_map (λ row. row.now) present.entry)) }
{
    let Some(row) = present else {
        return Ok(());
    };
    if rows.push(copy_of(row)).is_err() {
        return Err(MergeError::Memory);
    }
    Ok(())
}

// The same row, field by field.
fn copy_of<'a>(row: &RowRef<'a>) -> RowRef<'a>
    ensures { result ≡ row.now }
{
    RowRef {
        key: row.key,
        rank: row.rank,
        commit: row.commit,
        seq: row.seq,
        body: row.body,
    }
}
