// Files of rows that are made by one rule.
use base_cells::{BaseCause, BaseError};
use base_file::{read_base, write_base};
use hudi_base::{Bytes, InstantTime, Name};
use payload_merge::Row;
use plain_rows::{PlainRows, are_own};
use std::alloc::Global;
use std::test::*;

const FILE: &str = "0000ffff-c50d-5b40-af36-b8949fde563e-0";

// How many rows a file has: none, one, a whole row group, and one more.
const COUNTS: [u32; 4] = [0, 1, 10_000, 10_001];

// The row at this place, with this number in its key.
fn row_at(alloc: Global, place: u32, number: u32) -> Result<Row, Fail> {
    let key = format!(in alloc; "key {number}")?;
    let body = format!(in alloc; "{place} é")?;
    Ok(Row {
        partition: Name::from_text(alloc, "x")?,
        key: Bytes::from_slice(alloc, key.as_bytes())?,
        rank: i64::MIN + place as i64,
        commit: InstantTime::from_ms(1_704_067_200_000).ok_or("a time")?,
        seq: place,
        body: Bytes::from_slice(alloc, body.as_bytes())?,
    })
}

// So many rows, of which this one has the key of the first.
fn rows_of(alloc: Global, count: u32, again: u32) -> Result<Vec<Row>, Fail> {
    let mut rows = Vec::new(alloc);
    for place in 0..count {
        let number = if place == again { 0 } else { place };
        rows.push(row_at(alloc, place, number)?)?;
    }
    Ok(rows)
}

fn file_of(alloc: Global, codec: &PlainRows, rows: &[Row]) -> Result<Bytes, Fail> {
    let file = Name::from_text(alloc, FILE)?;
    if !are_own(rows) || file.as_str().len() > 65_536 {
        return Err(Fail::new("rows of another table"));
    }
    match write_base(alloc, codec, &file, rows, None) {
        Ok(bytes) => Ok(bytes),
        Err(_) => Err(Fail::new("out of memory")),
    }
}

fn is_same(found: &Row, wanted: &Row) -> bool {
    found.partition.as_str() == wanted.partition.as_str()
        && found.key == wanted.key
        && found.rank == wanted.rank
        && found.commit == wanted.commit
        && found.seq == wanted.seq
        && found.body == wanted.body
}

fn are_same(found: &[Row], wanted: &[Row]) -> bool {
    found.len() == wanted.len()
        && found
            .iter()
            .zip(wanted)
            .all(|(found, wanted)| is_same(found, wanted))
}

#[test]
fn what_is_written_is_read_back(rt: HostRuntime) -> Result<(), Fail> {
    let alloc = rt.alloc();
    let codec = PlainRows::new(alloc)?;
    let partition = Name::from_text(alloc, "x")?;
    for count in COUNTS {
        let rows = rows_of(alloc, count, count)?;
        let file = file_of(alloc, &codec, &rows)?;
        match read_base(alloc, &codec, &partition, file.as_slice()) {
            Ok(found) => assert!(rt; are_same(found.as_slice(), &rows)),
            Err(_) => assert!(rt; false),
        }
    }
    Ok(())
}

// Where the footer begins: its length stands before the last four bytes.
fn footer_start(bytes: &[u8]) -> Option<usize> {
    let end = bytes.len().checked_sub(8)?;
    let mut len = 0usize;
    for byte in bytes.get(end..end + 4)?.iter().rev() {
        len = len.checked_mul(256)?.checked_add(*byte as usize)?;
    }
    end.checked_sub(len)
}

// The place in a refusal for a row.
fn row_refusal(found: Result<(), BaseError>) -> Option<usize> {
    match found {
        Err(BaseError::BadBase(BaseCause::Row, at)) => Some(at),
        _ => None,
    }
}

#[test]
fn a_key_that_comes_twice_is_refused(rt: HostRuntime) -> Result<(), Fail> {
    let alloc = rt.alloc();
    let codec = PlainRows::new(alloc)?;
    let partition = Name::from_text(alloc, "x")?;
    // In one row group, and in two.
    for again in [1, 10_000] {
        let rows = rows_of(alloc, 10_001, again)?;
        let file = file_of(alloc, &codec, &rows)?;
        let found = read_base(alloc, &codec, &partition, file.as_slice()).map(|_| ());
        assert_eq!(rt; row_refusal(found), footer_start(file.as_slice()));
    }
    Ok(())
}
