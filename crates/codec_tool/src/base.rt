// Base files of rows that are made by one rule.
use anyhow::{Result, bail};
use base_cells::BaseError;
use base_file::{read_base, write_base};
use hudi_base::{Bytes, InstantTime, Name};
use payload_merge::Row;
use plain_rows::{PlainRows, are_own};
use std::alloc::{AllocError, Global};

// The beginning of the year 2024, in milliseconds since the beginning of 1970.
const INSTANT: u64 = 1_704_067_200_000;

const PARTITION: &str = "x";

const FILE: &str = "0000ffff-c50d-5b40-af36-b8949fde563e-0";

// How many digits a key has, behind a letter, and how many a body.
const KEY_DIGITS: usize = 9;

const BODY_LEN: usize = 16;

/// What a command makes of the input: `write` the file of as many rows as the input says, `read` how many rows a file has
/// and the sum of their ranks.
pub fn output_of(alloc: Global, command: &str, input: &[u8]) -> Result<Bytes> {
    match command {
        "write" => written(alloc, input),
        "read" => told(alloc, input),
        _ => bail!("no such command"),
    }
}

// So many of the last digits of a number, from the last one on.
fn last_digits(alloc: Global, count: usize, number: u64) -> Result<Vec<u8>, AllocError> {
    let mut digits = Vec::with_capacity(alloc, BODY_LEN)?;
    let mut rest = number;
    for _digit in 0..count {
        digits.push(b'0' + (rest % 10) as u8)?;
        rest /= 10;
    }
    Ok(digits)
}

// The row at this place, by the rule.
fn row_at(alloc: Global, time: InstantTime, place: u32) -> Result<Row> {
    let number = u64::from(place);
    let mut body = last_digits(alloc, BODY_LEN, number * 2_654_435_761 % 10_000_000_019)?;
    body.reverse();
    let mut key = last_digits(alloc, KEY_DIGITS, number)?;
    key.push(b'k')?;
    key.reverse();
    Ok(Row {
        partition: Name::from_text(alloc, PARTITION)?,
        key: Bytes::from_vec(key),
        rank: (number * 7919 % 1000) as i64 - 500,
        commit: time,
        seq: place,
        body: Bytes::from_vec(body),
    })
}

fn rows_of(alloc: Global, count: u32) -> Result<Vec<Row>> {
    let Some(time) = InstantTime::from_ms(INSTANT) else {
        bail!("no time");
    };
    let mut rows = Vec::new(alloc);
    for place in 0..count {
        let row = row_at(alloc, time, place)?;
        rows.push(row)?;
    }
    Ok(rows)
}

fn file_of(alloc: Global, codec: &PlainRows, rows: &[Row]) -> Result<Bytes> {
    let file = Name::from_text(alloc, FILE)?;
    if !are_own(rows) || file.as_str().len() > 65_536 {
        bail!("a row of another table");
    }
    match write_base(alloc, codec, &file, rows, None) {
        Ok(bytes) => Ok(bytes),
        Err(_) => bail!("out of memory"),
    }
}

fn written(alloc: Global, input: &[u8]) -> Result<Bytes> {
    let count: u32 = std::str::from_utf8(input)?.trim().parse()?;
    let rows = rows_of(alloc, count)?;
    let codec = PlainRows::new(alloc)?;
    file_of(alloc, &codec, &rows)
}

fn told(alloc: Global, input: &[u8]) -> Result<Bytes> {
    let codec = PlainRows::new(alloc)?;
    let partition = Name::from_text(alloc, PARTITION)?;
    let rows = match read_base(alloc, &codec, &partition, input) {
        Ok(rows) => rows,
        Err(BaseError::Memory) => bail!("out of memory"),
        Err(BaseError::BadBase(_, at)) => bail!("no base file: byte {at}"),
    };
    let count = rows.len();
    let mut sum = 0i64;
    for row in rows.as_slice() {
        sum = sum.saturating_add(row.rank);
    }
    let text = format!(in alloc; "{count} rows, ranks {sum}\n")?;
    Ok(Bytes::from_slice(alloc, text.as_bytes())?)
}
