// Rows and writes to test with.
ghost use Rattle.std.specs.Prelude.{◌≡◌, IfOk};
ghost use Rattle.payload_merge.specs.Payload.{key_of, key_of_row};

use hudi_base::{Bytes, InstantTime, Name};
use payload_merge::{Row, Write};
use std::alloc::{AllocError, Global};

// The place of every row in its batch.
pub const SEQ: u32 = 7;

pub fn row(
    alloc: Global,
    partition: &str,
    key: &[u8],
    rank: i64,
    body: u8,
) -> Result<Row, AllocError>
    ensures { IfOk result (λ row. key_of_row row ≡ (partition.now, key.now)) }
{
    Ok(Row {
        partition: Name::from_text(alloc, partition)?,
        key: Bytes::from_slice(alloc, key)?,
        rank,
        commit: InstantTime::FIRST,
        seq: SEQ,
        body: Bytes::from_slice(alloc, &[body])?,
    })
}

pub fn put(
    alloc: Global,
    partition: &str,
    key: &[u8],
    rank: i64,
    body: u8,
) -> Result<Write, AllocError>
    ensures { IfOk result (λ write. key_of write ≡ (partition.now, key.now)) }
{
    Ok(Write::Put(row(alloc, partition, key, rank, body)?))
}

pub fn del(alloc: Global, partition: &str, key: &[u8], rank: i64) -> Result<Write, AllocError>
    ensures { IfOk result (λ write. key_of write ≡ (partition.now, key.now)) }
{
    Ok(Write::Del {
        partition: Name::from_text(alloc, partition)?,
        key: Bytes::from_slice(alloc, key)?,
        rank,
    })
}

// The body of a row, which is one byte; 255 where the row isn't as these functions make it.
pub fn body_of(row: &Row) -> u8 {
    if row.seq != SEQ {
        return 255;
    }
    match row.body.as_slice() {
        [body] => *body,
        _ => 255,
    }
}

// The body of the row that is left; 0 where there is none.
pub fn body_left(row: &Option<Row>) -> u8 {
    match row {
        Some(row) => body_of(row),
        None => 0,
    }
}
