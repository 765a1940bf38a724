// New rows and deletes: what is made, or the first refusal.
use crate::table::{ROW, codec};
use hudi_base::{Bytes, Name};
use payload_merge::{Row, RowError, Write};
use row_codec::FlatCodec;
use serde_json::Value;
use std::alloc::Global;
use std::fmt::Write as _;
use std::test::*;
use table_core::RowCause;
use table_jobs::{DelKey, TableCodec, delete_of};

// Rows as JSON, and what is made of each: its partition, key, rank and place, and its body as another writer of Avro
// made it; or the first cause why there is none, though others stand beside it.
const ROWS: [(&str, &str); 5] = [
    (ROW, "x/a@5#0 02610278020a010102040aff"),
    (
        r#"{"id":"","p":".x","v":null,"n":true,"f":true}"#,
        "mismatch 3",
    ),
    (r#"{"id":"","p":".x","v":null,"n":-1,"f":true}"#, "no key"),
    (
        r#"{"id":"a","p":".x","v":null,"n":-1,"f":true}"#,
        "bad partition",
    ),
    (
        r#"{"id":"a","p":"x","v":null,"n":-1,"f":true}"#,
        "no ordering value",
    ),
];

// How many bytes the last field of a row has, whether there is an ordering value, and how what is made of the row
// begins. The rest of the body has 12 bytes, or 11 where the ordering value is null.
const LONG_ROWS: [(usize, bool, &str); 3] = [
    (65_524, true, "x/a@5#0 02610278020a010102e8ff07"),
    (65_525, true, "too large"),
    (65_526, false, "no ordering value"),
];

// Deletes: whether rows have an ordering field, the partition, the key, the rank, and what is made.
const DELETES: [(bool, &str, &str, Option<i64>, &str); 6] = [
    (true, "x", "a", Some(-5), "x/a@-5"),
    (true, "x", "a", None, "x/a@9223372036854775807"),
    (false, "x", "a", Some(-5), "x/a@0"),
    (false, "x", "a", None, "x/a@0"),
    (true, ".x", "", None, "no key"),
    (true, ".x", "a", None, "bad partition"),
];

fn push_row(alloc: Global, out: &mut String, row: &Row) -> Result<(), Fail> {
    let partition = row.partition.as_str();
    let key = std::str::from_utf8(row.key.as_slice()).map_err(|_| "a text")?;
    let (rank, seq) = (row.rank, row.seq);
    let body = hex::encode(alloc, row.body.as_slice())?;
    write!(out, "{partition}/{key}@{rank}#{seq} {body}")?;
    Ok(())
}

fn push_refusal(out: &mut String, error: RowError) -> Result<(), Fail> {
    match error {
        RowError::Mismatch(field) => write!(out, "mismatch {field}")?,
        RowError::NoKey => out.push_str("no key")?,
        RowError::BadPartition => out.push_str("bad partition")?,
        RowError::NoOrdering => out.push_str("no ordering value")?,
        RowError::TooLarge => out.push_str("too large")?,
        _ => out.push_str("another error")?,
    }
    Ok(())
}

fn row_of(alloc: Global, codec: &FlatCodec, json: &Value) -> Result<Row, RowError> {
    let value = codec.value_of_json(alloc, json)?;
    codec.new_row(alloc, &value)
}

// What is made of a row.
fn said_of_row(alloc: Global, codec: &FlatCodec, json: &str) -> Result<String, Fail> {
    let json = Value::from_str(alloc, json)?;
    let mut out = String::new(alloc);
    match row_of(alloc, codec, &json) {
        Ok(row) => push_row(alloc, &mut out, &row)?,
        Err(error) => push_refusal(&mut out, error)?,
    }
    Ok(out)
}

// A row whose last field has so many bytes.
fn long_row(alloc: Global, len: usize, has_ordering: bool) -> Result<String, Fail> {
    let ordering = if has_ordering { "5" } else { "null" };
    let mut json = String::new(alloc);
    write!(
        json,
        r#"{{"id":"a","p":"x","v":{ordering},"n":-1,"f":true,"d":""#
    )?;
    for _ in 0..len {
        json.push_str("00")?;
    }
    json.push_str(r#""}"#)?;
    Ok(json)
}

#[test]
fn rows_are_made_or_refused_by_the_first_rule(rt: HostRuntime) -> Result<(), Fail> {
    let alloc = rt.alloc();
    let codec = codec(alloc)?;
    assert!(rt; codec.is_ordered());
    for (json, want) in ROWS {
        assert_eq!(rt; said_of_row(alloc, &codec, json)?.as_str(), want);
    }
    for (len, has_ordering, want) in LONG_ROWS {
        let json = long_row(alloc, len, has_ordering)?;
        let said = said_of_row(alloc, &codec, json.as_str())?;
        assert!(rt; said.as_str().starts_with(want));
    }
    Ok(())
}

fn push_delete(out: &mut String, write: &Write) -> Result<(), Fail> {
    let Write::Del {
        partition,
        key,
        rank,
    } = write
    else {
        return Err("a row")?;
    };
    let partition = partition.as_str();
    let key = std::str::from_utf8(key.as_slice()).map_err(|_| "a text")?;
    write!(out, "{partition}/{key}@{rank}")?;
    Ok(())
}

// What is made of a key to delete.
fn said_of_delete(
    alloc: Global,
    is_ordered: bool,
    partition: &str,
    key: &str,
    rank: Option<i64>,
) -> Result<String, Fail> {
    let deleted = DelKey {
        partition: Name::from_text(alloc, partition)?,
        key: Bytes::from_slice(alloc, key.as_bytes())?,
        rank,
    };
    let mut out = String::new(alloc);
    match delete_of(is_ordered, deleted) {
        Ok(write) => push_delete(&mut out, &write)?,
        Err(RowCause::NoKey) => out.push_str("no key")?,
        Err(RowCause::BadPartition) => out.push_str("bad partition")?,
        Err(_) => out.push_str("another cause")?,
    }
    Ok(out)
}

#[test]
fn keys_are_deleted_or_refused_by_the_first_rule(rt: HostRuntime) -> Result<(), Fail> {
    let alloc = rt.alloc();
    for (is_ordered, partition, key, rank, want) in DELETES {
        let said = said_of_delete(alloc, is_ordered, partition, key, rank)?;
        assert_eq!(rt; said.as_str(), want);
    }
    Ok(())
}
