// Contents of delete blocks: what is written, what is read, and where a content is refused.
ghost use Rattle.std.specs.Prelude.{IfOk};
ghost use Rattle.block_contents.specs.Deletes.{IsDelete};

use block_contents::{delete_block, delete_writes};
use hudi_base::{Bytes, Name};
use payload_merge::{RowError, Write, Writes};
use std::alloc::{AllocError, Global};
use std::fmt::Write as _;
use std::test::*;

// Contents in hexadecimal digits, and what they say: deletes of keys at ranks, or where they are bad.
const READ: [(&str, &str); 16] = [
    ("0000000300000000", ""),
    // The content of a worked delete block.
    ("000000030000000100000001610000000000000005", "x/a@5 "),
    (
        "00000003000000020000000261627fffffffffffffff00000001638000000000000000",
        "x/ab@9223372036854775807 x/c@-9223372036854775808 ",
    ),
    // No rule of a key is tested: it may be empty, and come again.
    (
        "000000030000000200000000ffffffffffffffff000000000000000000000000",
        "x/@-1 x/@0 ",
    ),
    // No content, a head cut short, other versions.
    ("", "bad at 0"),
    ("00000003", "bad at 0"),
    ("00000003000000", "bad at 0"),
    ("0000000200000000", "bad at 0"),
    ("0300000000000000", "bad at 0"),
    // More deletes than there are.
    ("0000000300000001", "bad at 8"),
    ("00000003ffffffff", "bad at 8"),
    ("000000030000000200000001610000000000000005", "bad at 21"),
    // A length, a key and a rank that end too late.
    ("0000000300000001000000", "bad at 8"),
    ("00000003000000010000000261", "bad at 8"),
    ("0000000300000001000000016100000000000000", "bad at 8"),
    // Bytes behind the last delete.
    ("00000003000000010000000161000000000000000500", "bad at 21"),
];

fn bytes_of(alloc: Global, text: &str) -> Result<Vec<u8>, Fail> {
    Ok(hex::decode(alloc, text)?)
}

fn push_write(out: &mut String, write: &Write) -> Result<(), Fail> {
    match write {
        Write::Del {
            partition,
            key,
            rank,
        } => {
            let partition = partition.as_str();
            let key = std::str::from_utf8(key.as_slice()).map_err(|_| "a text")?;
            write!(out, "{partition}/{key}@{rank} ")?;
        }
        Write::Put(_) => out.push_str("put ")?,
    }
    Ok(())
}

fn push_writes(out: &mut String, writes: &Writes) -> Result<(), Fail> {
    for write in writes.as_slice() {
        push_write(out, write)?;
    }
    Ok(())
}

// What a content says of the partition x.
fn said(alloc: Global, content: &[u8]) -> Result<String, Fail> {
    let mut out = String::new(alloc);
    let partition = Name::from_text(alloc, "x")?;
    match delete_writes(alloc, &partition, content) {
        Ok(writes) => push_writes(&mut out, &writes)?,
        Err(RowError::BadContent(at)) => write!(out, "bad at {at}")?,
        Err(_) => out.push_str("another error")?,
    }
    Ok(out)
}

// Whether a content says so.
fn says(alloc: Global, content: &str, want: &str) -> Result<bool, Fail> {
    let bytes = bytes_of(alloc, content)?;
    let said = said(alloc, &bytes)?;
    Ok(said.as_str() == want)
}

// The first content that says something else.
fn content_misread(alloc: Global, rows: &[(&str, &str)]) -> Result<Option<usize>, Fail> {
    for (row, (content, want)) in rows.iter().enumerate() {
        if !says(alloc, content, want)? {
            return Ok(Some(row));
        }
    }
    Ok(None)
}

#[test]
fn contents_are_read_or_bad_where_they_go_wrong(rt: HostRuntime) -> Result<(), Fail> {
    assert_eq!(rt; content_misread(rt.alloc(), &READ)?, None);
    Ok(())
}

fn del(alloc: Global, key: &'static [u8; 1], rank: i64) -> Result<Write, AllocError>
    ensures { IfOk result IsDelete }
{
    Ok(Write::Del {
        partition: Name::from_text(alloc, "x")?,
        key: Bytes::from_slice(alloc, key)?,
        rank,
    })
}

fn is_written(content: &Bytes, want: &[u8]) -> bool {
    content.as_slice() == want
}

#[test]
fn deletes_are_written(rt: HostRuntime) -> Result<(), Fail> {
    let alloc = rt.alloc();
    let one = delete_block(alloc, &[del(alloc, b"a", 5)?])?;
    assert!(rt; is_written(&one, &bytes_of(alloc, READ[1].0)?));
    let none = delete_block(alloc, &[])?;
    assert!(rt; is_written(&none, &bytes_of(alloc, READ[0].0)?));
    Ok(())
}
