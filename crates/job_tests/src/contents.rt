// Contents of data blocks and cells of base files, as `PlainRows` has them.
use hudi_base::{Bytes, InstantTime, Name};
use payload_merge::{Row, RowCodec, RowError, Write, Writes};
use plain_rows::{PlainRows, are_own};
use std::alloc::Global;
use std::fmt::Write as _;
use std::test::*;

// Contents, and their rows as key, rank, place and body; or the offset of the first field that can't be read.
const CONTENTS: [(&[u8], &str); 16] = [
    (
        b"\0\0\0\x03\0\0\0\x01\0\0\0\x01a\0\0\0\0\0\0\0\x05\0\0\0\x03one",
        "a@5#0=one;",
    ),
    (
        b"\0\0\0\x03\0\0\0\x02\0\0\0\x01b\x80\0\0\0\0\0\0\0\0\0\0\0\0\0\0\x02aa\x7f\xff\xff\xff\xff\xff\xff\xff\0\0\0\x01x",
        "b@-9223372036854775808#0=;aa@9223372036854775807#1=x;",
    ),
    // Version 4 tells places.
    (
        b"\0\0\0\x04\0\0\0\x02\0\0\0\x07\0\0\0\x01a\xff\xff\xff\xff\xff\xff\xff\xff\0\0\0\0\0\0\0\x02\0\0\0\x01b\0\0\0\0\0\0\0\0\0\0\0\0",
        "a@-1#7=;b@0#2=;",
    ),
    (b"\0\0\0\x03\0\0\0\0", ""),
    // The version.
    (b"", "bad 0"),
    (b"\0\0\0", "bad 0"),
    (b"\0\0\0\x02\0\0\0\0", "bad 0"),
    (b"\0\0\0\x05\0\0\0\0", "bad 0"),
    // The number of rows.
    (b"\0\0\0\x03\0\0\0", "bad 4"),
    // The key: none, and one that is longer than the rest.
    (
        b"\0\0\0\x03\0\0\0\x01\0\0\0\0\0\0\0\0\0\0\0\x05\0\0\0\0",
        "bad 8",
    ),
    (
        b"\0\0\0\x03\0\0\0\x01\xff\xff\xff\xffa\0\0\0\0\0\0\0\x05\0\0\0\0",
        "bad 8",
    ),
    // The rank and the body.
    (b"\0\0\0\x03\0\0\0\x01\0\0\0\x01a\0\0\0\0\0\0\0", "bad 13"),
    (
        b"\0\0\0\x03\0\0\0\x01\0\0\0\x01a\0\0\0\0\0\0\0\x05\0\0\0\x03on",
        "bad 21",
    ),
    // A row too few, a row too many, and a place that isn't there.
    (
        b"\0\0\0\x03\0\0\0\x02\0\0\0\x01a\0\0\0\0\0\0\0\x05\0\0\0\x03one",
        "bad 28",
    ),
    (b"\0\0\0\x03\0\0\0\0x", "bad 8"),
    (b"\0\0\0\x04\0\0\0\x01\0\0\0", "bad 8"),
];

fn push_write(out: &mut String, write: &Write) -> Result<(), Fail> {
    let Write::Put(row) = write else {
        out.push_str("delete;")?;
        return Ok(());
    };
    let key = std::str::from_utf8(row.key.as_slice()).map_err(|_| "a text")?;
    let body = std::str::from_utf8(row.body.as_slice()).map_err(|_| "a text")?;
    let (rank, seq) = (row.rank, row.seq);
    write!(out, "{key}@{rank}#{seq}={body};")?;
    Ok(())
}

fn writes_of(alloc: Global, codec: &PlainRows, content: &[u8]) -> Result<Writes, RowError> {
    let name = Name::from_text(alloc, "x")?;
    codec.block_writes(alloc, InstantTime::FIRST, &name, &name, content)
}

// What is read from a content.
fn said(alloc: Global, codec: &PlainRows, content: &[u8]) -> Result<String, Fail> {
    let mut out = String::new(alloc);
    match writes_of(alloc, codec, content) {
        Ok(writes) => {
            for write in writes.as_slice() {
                push_write(&mut out, write)?;
            }
        }
        Err(RowError::BadContent(at)) => write!(out, "bad {at}")?,
        Err(_) => out.push_str("another error")?,
    }
    Ok(out)
}

// The first content from which something else is read.
fn misread(
    alloc: Global,
    codec: &PlainRows,
    contents: &[(&[u8], &str)],
) -> Result<Option<usize>, Fail> {
    for (place, (content, want)) in contents.iter().enumerate() {
        if said(alloc, codec, content)?.as_str() != *want {
            return Ok(Some(place));
        }
    }
    Ok(None)
}

#[test]
fn contents_are_read_or_refused_at_an_offset(rt: HostRuntime) -> Result<(), Fail> {
    let alloc = rt.alloc();
    let codec = PlainRows::new(alloc)?;
    assert_eq!(rt; misread(alloc, &codec, &CONTENTS)?, None);
    Ok(())
}

fn is_same(back: &Row, row: &Row) -> bool {
    back.key == row.key
        && back.body == row.body
        && (back.rank, back.commit, back.seq) == (row.rank, row.commit, row.seq)
}

// Whether the rows come back from their cells, all but the first of which say something.
fn come_back(alloc: Global, codec: &PlainRows, rows: &[Row]) -> Result<bool, RowError> {
    let file = Name::from_text(alloc, "r1")?;
    if !are_own(rows) || file.as_slice().len() > 65_536 {
        return Ok(false);
    }
    for row in rows {
        let cells = codec.cells(alloc, row, &file)?;
        if !is_same(&codec.row(alloc, &row.partition, &cells)?, row) {
            return Ok(false);
        }
    }
    Ok(true)
}

#[test]
fn a_row_comes_back_from_its_cells(rt: HostRuntime) -> Result<(), Fail> {
    let alloc = rt.alloc();
    let codec = PlainRows::new(alloc)?;
    let row = Row {
        partition: Name::from_text(alloc, "x")?,
        key: Bytes::from_slice(alloc, b"a\0")?,
        rank: i64::MIN,
        commit: InstantTime::LAST,
        seq: u32::MAX,
        body: Bytes::from_slice(alloc, b"\xc3\xa9")?,
    };
    assert!(rt; come_back(alloc, &codec, &[row])?);
    assert_eq!(rt; codec.columns().len(), 6);
    Ok(())
}
