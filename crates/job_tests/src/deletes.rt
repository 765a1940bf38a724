// Deletes, and rows and keys that are refused.
ghost use Rattle.std.specs.Prelude.{◌<◌, ◌^◌, All, IfOk, length};
ghost use Rattle.plain_rows.specs.PlainValues.{IsPlainValue};
ghost use Rattle.upsert_writer.specs.BatchFits.{BatchFits, IsFit};
ghost use Rattle.job_tests.specs.NewJobs.{IsOfTable};

use crate::driving::{MemBoard, Open, fresh, is_new, query, write};
use hudi_base::{Bytes, InstantTime, Name, Sequence, Value, Values};
use plain_rows::PlainRows;
use std::alloc::{AllocError, Global};
use std::fmt::Write as _;
use std::test::*;
use table_core::{JobReply, RowCause};
use table_jobs::{DelKey, DelKeys};
use upsert_writer::{Batch, PutRow, PutRows};

/// A row to write: its key, its rank and how many bytes its body has; or the field of the schema that it doesn't fit.
enum Put {
    Row(&'static str, i64, usize),
    Misfit(u32),
}

/// A key to delete: its partition, itself and its rank.
type Del = (&'static str, &'static str, Option<i64>);

/// A job.
enum Act {
    Upsert(&'static [Put]),
    Delete(&'static [Del]),
    Snapshot,
}

/// Jobs one after another, each with what it answers: times are milliseconds after the beginning of 2024, and a row is
/// shown as key@rank and time#place.
type Story = &'static [(Act, &'static str)];

// Which rank a delete needs, in the order of time, and what becomes of a key that was deleted.
const RANKS: Story = &[
    (Act::Upsert(&[Put::Row("a", 5, 0)]), "committed 0"),
    (Act::Delete(&[("x", "a", Some(3))]), "committed 1"),
    (Act::Snapshot, "1: a@5 0#0"),
    (Act::Delete(&[("x", "a", Some(5))]), "committed 2"),
    (Act::Snapshot, "2:"),
    (Act::Upsert(&[Put::Row("a", 1, 0)]), "committed 3"),
    (Act::Snapshot, "3: a@1 3#0"),
];

// A delete without a rank has the greatest. Of several keys, in two partitions, some aren't there.
const GREATEST: Story = &[
    (
        Act::Upsert(&[
            Put::Row("a", i64::MAX, 0),
            Put::Row("b", 1, 0),
            Put::Row("c", 7, 0),
        ]),
        "committed 0",
    ),
    (
        Act::Delete(&[
            ("x", "a", None),
            ("y", "b", None),
            ("x", "c", Some(6)),
            ("x", "d", None),
        ]),
        "committed 1",
    ),
    (Act::Snapshot, "1: b@1 0#1 c@7 0#2"),
];

// Nothing is done where a row or key is refused: no time is drawn. The first that is refused counts, and of a key the
// key itself before its partition.
const REFUSED: Story = &[
    (
        Act::Upsert(&[Put::Row("", 1, 0), Put::Row("a", 1, 0)]),
        "bad_row 0 no_key",
    ),
    (
        Act::Upsert(&[Put::Row("a", 1, 0), Put::Misfit(2), Put::Row("", 1, 0)]),
        "bad_row 1 mismatch 2",
    ),
    (
        Act::Upsert(&[
            Put::Row("a", 1, 0),
            Put::Row("b", 1, 65_536),
            Put::Row("c", 1, 65_537),
        ]),
        "bad_row 2 too_large",
    ),
    (
        Act::Delete(&[("x", "a", None), ("x", "", None)]),
        "bad_row 1 no_key",
    ),
    (
        Act::Delete(&[("x", "a", None), (".x", "a", None)]),
        "bad_row 1 bad_partition",
    ),
    (Act::Delete(&[("", "", None)]), "bad_row 0 no_key"),
    (Act::Snapshot, "none:"),
    (Act::Upsert(&[Put::Row("a", 1, 65_536)]), "committed 0"),
];

// A text of so many bytes.
fn body_of(alloc: Global, length: usize) -> Result<Name, AllocError> {
    let mut text = String::new(alloc);
    for _ in 0..length {
        text.push('k')?;
    }
    Name::from_text(alloc, text.as_str())
}

// The record of a key, a rank and a body.
fn value_of(alloc: Global, key: &str, rank: i64, body: &str) -> Result<Value, AllocError>
    ensures { IfOk result IsPlainValue }
{
    let mut fields = Values::new(alloc);
    fields.push(Value::Text(Name::from_text(alloc, key)?))?;
    fields.push(Value::Long(rank))?;
    fields.push(Value::Text(Name::from_text(alloc, body)?))?;
    Ok(Value::Record(fields))
}

fn row_of(alloc: Global, put: &Put) -> Result<PutRow, AllocError>
    ensures { IfOk result (IsFit IsPlainValue) }
{
    match put {
        Put::Row(key, rank, length) => {
            let body = body_of(alloc, *length)?;
            Ok(PutRow::Fits(value_of(alloc, key, *rank, body.as_str())?))
        }
        Put::Misfit(field) => Ok(PutRow::Mismatch(*field)),
    }
}

fn rows_of(alloc: Global, puts: &[Put]) -> Result<PutRows, AllocError>
    ensures { IfOk result (All (IsFit IsPlainValue)) }
{
    let mut rows = Sequence::new(alloc);
    for put in puts {
        rows.push(row_of(alloc, put)?)?;
    }
    Ok(rows)
}

fn keys_of(alloc: Global, dels: &[Del]) -> Result<DelKeys, AllocError> {
    let mut keys = Sequence::new(alloc);
    for (partition, key, rank) in dels {
        keys.push(DelKey {
            partition: Name::from_text(alloc, partition)?,
            key: Bytes::from_slice(alloc, key.as_bytes())?,
            rank: *rank,
        })?;
    }
    Ok(keys)
}

fn puts_of(alloc: Global, puts: &[Put]) -> Result<Batch, AllocError>
    ensures { IfOk result (BatchFits IsPlainValue) }
{
    let rows = rows_of(alloc, puts)?;
    if rows.len() > 100 {
        return Err(AllocError);
    }
    Ok(Batch::Puts(rows))
}

fn dels_of(alloc: Global, dels: &[Del]) -> Result<Batch, AllocError>
    ensures { IfOk result (BatchFits IsPlainValue) }
{
    let keys = keys_of(alloc, dels)?;
    if keys.len() > 100 {
        return Err(AllocError);
    }
    Ok(Batch::Dels(keys))
}

// Does the job of a line.
fn done(
    alloc: Global,
    board: MemBoard,
    codec: &PlainRows,
    line: u32,
    act: &Act,
) -> Result<(MemBoard, JobReply), AllocError>
    requires { IsOfTable board.origin }
    ensures { IfOk result (λ after. IsOfTable after.0.origin) }
{
    if !is_new(&board, line) {
        return Err(AllocError);
    }
    match act {
        Act::Upsert(puts) => {
            let batch = puts_of(alloc, puts)?;
            Ok(write(alloc, board, codec, line, batch, &Open {}))
        }
        Act::Delete(dels) => {
            let batch = dels_of(alloc, dels)?;
            Ok(write(alloc, board, codec, line, batch, &Open {}))
        }
        Act::Snapshot => Ok(query(alloc, board, codec, line, &Open {})),
    }
}

// Milliseconds after the beginning of 2024.
fn after(t: InstantTime) -> u64 {
    t.ms().saturating_sub(1_704_067_200_000)
}

fn push_refusal(out: &mut String, place: u32, cause: RowCause) -> Result<(), Fail> {
    match cause {
        RowCause::Mismatch(field) => write!(out, "bad_row {place} mismatch {field}")?,
        RowCause::NoKey => write!(out, "bad_row {place} no_key")?,
        RowCause::BadPartition => write!(out, "bad_row {place} bad_partition")?,
        RowCause::NoOrdering => write!(out, "bad_row {place} no_ordering")?,
        RowCause::TooLarge => write!(out, "bad_row {place} too_large")?,
    }
    Ok(())
}

// An answer as a story tells it.
fn said(alloc: Global, reply: &JobReply) -> Result<String, Fail> {
    let mut out = String::new(alloc);
    match reply {
        JobReply::Committed(t) => {
            let t = after(*t);
            write!(out, "committed {t}")?;
        }
        JobReply::BadRow(place, cause) => push_refusal(&mut out, *place, *cause)?,
        JobReply::Rows(time, rows) => {
            match time {
                Some(t) => {
                    let t = after(*t);
                    write!(out, "{t}:")?;
                }
                None => out.push_str("none:")?,
            }
            for row in rows.as_slice() {
                let key = std::str::from_utf8(row.key.as_slice()).map_err(|_| "a text")?;
                let (rank, t, seq) = (row.rank, after(row.commit), row.seq);
                write!(out, " {key}@{rank} {t}#{seq}")?;
            }
        }
        _ => out.push_str("another answer")?,
    }
    Ok(out)
}

// The first job of a story that answers otherwise.
fn mistold(alloc: Global, story: Story) -> Result<Option<u32>, Fail> {
    let codec = PlainRows::new(alloc)?;
    let mut board = fresh(alloc, Sequence::new(alloc), 0)?;
    let mut line: u32 = 0;
    for told in story {
        let (act, want) = told;
        line = line.saturating_add(1);
        let (after, reply) = done(alloc, board, &codec, line, act)?;
        board = after;
        if said(alloc, &reply)?.as_str() != *want {
            return Ok(Some(line));
        }
    }
    Ok(None)
}

#[test]
fn a_delete_goes_by_its_rank(rt: HostRuntime) -> Result<(), Fail> {
    let alloc = rt.alloc();
    assert_eq!(rt; mistold(alloc, RANKS)?, None);
    assert_eq!(rt; mistold(alloc, GREATEST)?, None);
    Ok(())
}

#[test]
fn a_refused_row_or_key_leaves_the_table_alone(rt: HostRuntime) -> Result<(), Fail> {
    let alloc = rt.alloc();
    assert_eq!(rt; mistold(alloc, REFUSED)?, None);
    Ok(())
}
