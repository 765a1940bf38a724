// Blocks of a log file, by three worked ones.
ghost use Rattle.log_block.specs.Form.{SchemaFits};

use hudi_base::{Bytes, InstantTime};
use log_block::{Block, BlockRead, read_block, write_block};
use std::alloc::Global;
use std::test::*;

// A data block of 84 bytes: instant 20240101000000001, schema r1, content abc.
const DATA: &str =
    "234855444923000000000000004600000001000000030000000200000000000000113230323430313031\
    30303030303030303100000002000000027231000000000000000361626300000000000000000000004c";

// A delete block of 92 bytes: instant 20240101000000001, content of one key, a, with rank 5.
const DELETE: &str =
    "234855444923000000000000004e00000001000000010000000100000000000000113230323430313031\
    303030303030303031000000000000001500000003000000010000000161000000000000000500000000\
    0000000000000054";

// A rollback block of 105 bytes: instant 20240101000000002, target 20240101000000001.
const ROLLBACK: &str =
    "234855444923000000000000005b00000001000000000000000300000000000000113230323430313031\
    303030303030303032000000010000001132303234303130313030303030303030310000000300000001\
    300000000000000000000000000000000000000061";

#[derive(Clone, Copy, PartialEq, Eq)]
enum Seen {
    Whole(usize),
    Torn,
    Bad(usize),
    Memory,
}

fn seen_at(alloc: Global, bytes: &[u8], offset: usize) -> Seen {
    if offset >= bytes.len() {
        return Seen::Torn;
    }
    match read_block(alloc, &bytes[offset..]) {
        BlockRead::Whole(_, len) => Seen::Whole(len),
        BlockRead::Torn => Seen::Torn,
        BlockRead::Bad(offset) => Seen::Bad(offset),
        BlockRead::Memory => Seen::Memory,
    }
}

fn bytes_of(alloc: Global, text: &str) -> Result<Vec<u8>, Fail> {
    Ok(hex::decode(alloc, text)?)
}

// Whether a block is written so.
fn is_written(alloc: Global, block: &Block, text: &str) -> Result<bool, Fail>
    requires { SchemaFits block.now }
{
    let bytes = write_block(alloc, block)?;
    let want = bytes_of(alloc, text)?;
    Ok(bytes.as_slice() == want.as_slice())
}

fn instant(ms: u64) -> Result<InstantTime, Fail> {
    Ok(InstantTime::from_ms(ms).ok_or("a time")?)
}

fn data_is_written(alloc: Global) -> Result<bool, Fail> {
    let block = Block::Data {
        instant: instant(1_704_067_200_001)?,
        schema: Bytes::from_slice(alloc, b"r1")?,
        content: Bytes::from_slice(alloc, b"abc")?,
    };
    is_written(alloc, &block, DATA)
}

fn delete_is_written(alloc: Global) -> Result<bool, Fail> {
    let block = Block::Delete {
        instant: instant(1_704_067_200_001)?,
        content: Bytes::from_vec(bytes_of(alloc, "000000030000000100000001610000000000000005")?),
    };
    is_written(alloc, &block, DELETE)
}

fn rollback_is_written(alloc: Global) -> Result<bool, Fail> {
    let block = Block::Rollback {
        instant: instant(1_704_067_200_002)?,
        target: instant(1_704_067_200_001)?,
    };
    is_written(alloc, &block, ROLLBACK)
}

#[test]
fn blocks_are_written(rt: HostRuntime) -> Result<(), Fail> {
    let alloc = rt.alloc();
    assert!(rt; data_is_written(alloc)?);
    assert!(rt; delete_is_written(alloc)?);
    assert!(rt; rollback_is_written(alloc)?);
    Ok(())
}

// Whether the bytes are a block that is written with the same bytes.
fn is_read(alloc: Global, text: &str) -> Result<bool, Fail> {
    let bytes = bytes_of(alloc, text)?;
    if bytes.is_empty() {
        return Ok(false);
    }
    match read_block(alloc, &bytes) {
        BlockRead::Whole(block, _) => is_written(alloc, &block, text),
        _ => Ok(false),
    }
}

#[test]
fn blocks_are_read(rt: HostRuntime) -> Result<(), Fail> {
    let alloc = rt.alloc();
    assert!(rt; is_read(alloc, DATA)?);
    assert!(rt; is_read(alloc, DELETE)?);
    assert!(rt; is_read(alloc, ROLLBACK)?);
    Ok(())
}

// How many of the proper prefixes are torn, the empty one among them.
fn torn_prefixes(alloc: Global, text: &str) -> Result<usize, Fail> {
    let bytes = bytes_of(alloc, text)?;
    Ok(
        (0..bytes.len())
            .filter(|len| seen_at(alloc, &bytes[..*len], 0) == Seen::Torn)
            .count(),
    )
}

#[test]
fn prefixes_are_torn(rt: HostRuntime) -> Result<(), Fail> {
    let alloc = rt.alloc();
    assert_eq!(rt; torn_prefixes(alloc, DATA)?, 84);
    assert_eq!(rt; torn_prefixes(alloc, DELETE)?, 92);
    assert_eq!(rt; torn_prefixes(alloc, ROLLBACK)?, 105);
    Ok(())
}

// What is seen where these bits of the byte at an offset are flipped.
fn seen_flipped(alloc: Global, bytes: &[u8], offset: usize, bits: u8) -> Result<Seen, Fail> {
    let mut copy = bytes.to_vec(alloc)?;
    if offset < copy.len() {
        copy[offset] ^= bits;
    }
    Ok(seen_at(alloc, &copy, 0))
}

// Over how many of these offsets it is seen that the highest bit of one byte is flipped.
fn flips_seen(
    alloc: Global,
    text: &str,
    start: usize,
    len: usize,
    want: Seen,
) -> Result<usize, Fail> {
    let bytes = bytes_of(alloc, text)?;
    let mut count = 0usize;
    for i in 0..len {
        if seen_flipped(alloc, &bytes, start.saturating_add(i), 0x80)? == want {
            count = count.saturating_add(1);
        }
    }
    Ok(count)
}

// Of each block the fields from magic to size: where a field begins and how long it is, and what is seen where the
// highest bit of one of its bytes is flipped.
const FIELDS: &[(&str, usize, usize, Seen)] = &[
    (DATA, 0, 6, Seen::Bad(0)),
    (DATA, 6, 8, Seen::Torn),
    (DATA, 14, 4, Seen::Bad(14)),
    (DATA, 18, 4, Seen::Bad(18)),
    (DATA, 22, 39, Seen::Bad(22)),
    (DATA, 61, 8, Seen::Bad(69)),
    (DATA, 69, 3, Seen::Whole(84)),
    (DATA, 72, 4, Seen::Bad(72)),
    (DATA, 76, 8, Seen::Bad(76)),
    (DELETE, 0, 6, Seen::Bad(0)),
    (DELETE, 6, 8, Seen::Torn),
    (DELETE, 14, 4, Seen::Bad(14)),
    (DELETE, 18, 4, Seen::Bad(18)),
    (DELETE, 22, 29, Seen::Bad(22)),
    (DELETE, 51, 8, Seen::Bad(59)),
    (DELETE, 59, 21, Seen::Whole(92)),
    (DELETE, 80, 4, Seen::Bad(80)),
    (DELETE, 84, 8, Seen::Bad(84)),
    (ROLLBACK, 0, 6, Seen::Bad(0)),
    (ROLLBACK, 6, 8, Seen::Torn),
    (ROLLBACK, 14, 4, Seen::Bad(14)),
    (ROLLBACK, 18, 4, Seen::Bad(18)),
    (ROLLBACK, 22, 63, Seen::Bad(22)),
    (ROLLBACK, 85, 8, Seen::Bad(85)),
    (ROLLBACK, 93, 4, Seen::Bad(93)),
    (ROLLBACK, 97, 8, Seen::Bad(97)),
];

// The first field of whose bytes one is seen otherwise.
fn field_misread(
    alloc: Global,
    rows: &[(&str, usize, usize, Seen)],
) -> Result<Option<usize>, Fail> {
    for (row, (text, start, len, want)) in rows.iter().enumerate() {
        if flips_seen(alloc, text, *start, *len, *want)? != *len {
            return Ok(Some(row));
        }
    }
    Ok(None)
}

#[test]
fn every_byte_is_flipped(rt: HostRuntime) -> Result<(), Fail> {
    assert_eq!(rt; field_misread(rt.alloc(), FIELDS)?, None);
    Ok(())
}

// Of the delete block: the offset of a byte, the bits that are flipped there, and what is seen then.
const CHANGES: &[(usize, u8, Seen)] = &[
    // the block's length is 79, 76, 70, 66, 45, 37, 8, 4 and 0
    (13, 0x4e ^ 79, Seen::Torn),
    (13, 0x4e ^ 76, Seen::Bad(84)),
    (13, 0x4e ^ 70, Seen::Bad(84)),
    (13, 0x4e ^ 66, Seen::Bad(80)),
    (13, 0x4e ^ 45, Seen::Bad(59)),
    (13, 0x4e ^ 37, Seen::Bad(51)),
    (13, 0x4e ^ 8, Seen::Bad(22)),
    (13, 0x4e ^ 4, Seen::Bad(18)),
    (13, 0x4e, Seen::Bad(14)),
    // the version is 2
    (17, 3, Seen::Bad(14)),
    // the type is a command, data and corrupt
    (21, 1, Seen::Bad(22)),
    (21, 2, Seen::Bad(22)),
    (21, 3, Seen::Bad(18)),
    // the year is 3024, and the month is 0
    (34, 1, Seen::Whole(92)),
    (39, 1, Seen::Bad(22)),
    // the content has one byte less, so that the footer begins with its last
    (58, 1, Seen::Bad(79)),
    (79, 1, Seen::Whole(92)),
    (83, 1, Seen::Bad(80)),
    (91, 1, Seen::Bad(84)),
];

fn delete_flipped(alloc: Global, offset: usize, bits: u8) -> Result<Seen, Fail> {
    let bytes = bytes_of(alloc, DELETE)?;
    seen_flipped(alloc, &bytes, offset, bits)
}

// The first change that is seen otherwise.
fn change_misread(alloc: Global, rows: &[(usize, u8, Seen)]) -> Result<Option<usize>, Fail> {
    for (row, (offset, bits, want)) in rows.iter().enumerate() {
        if delete_flipped(alloc, *offset, *bits)? != *want {
            return Ok(Some(row));
        }
    }
    Ok(None)
}

#[test]
fn other_values(rt: HostRuntime) -> Result<(), Fail> {
    assert_eq!(rt; change_misread(rt.alloc(), CHANGES)?, None);
    Ok(())
}

// Of a file of the delete block and the rollback block: how many bytes are kept, a byte whose bits are flipped, the
// offset that is read from, and what is seen. The last two change the first byte of the second block's length.
const FILES: &[FileRow] = &[
    (92, 197, 0, 0, Seen::Whole(92)),
    (105, 197, 0, 0, Seen::Whole(92)),
    (105, 197, 0, 92, Seen::Torn),
    (106, 197, 0, 92, Seen::Torn),
    (196, 197, 0, 92, Seen::Torn),
    (197, 197, 0, 92, Seen::Whole(105)),
    (197, 91, 1, 0, Seen::Bad(84)),
    (197, 92, 1, 0, Seen::Whole(92)),
    (197, 92, 1, 92, Seen::Bad(0)),
    (197, 98, 0x80, 92, Seen::Torn),
    (197, 98, 0xff, 92, Seen::Torn),
];

type FileRow = (usize, usize, u8, usize, Seen);

fn two_blocks_of(alloc: Global) -> Result<Vec<u8>, Fail> {
    let mut file = bytes_of(alloc, DELETE)?;
    let second = bytes_of(alloc, ROLLBACK)?;
    file.extend_from_slice(&second)?;
    Ok(file)
}

fn file_seen(alloc: Global, row: &FileRow) -> Result<Seen, Fail> {
    let (kept, changed, bits, from, _) = *row;
    let mut file = two_blocks_of(alloc)?;
    file.truncate(kept);
    if changed < file.len() {
        file[changed] ^= bits;
    }
    Ok(seen_at(alloc, &file, from))
}

// The first row that is seen otherwise.
fn file_misread(alloc: Global, rows: &[FileRow]) -> Result<Option<usize>, Fail> {
    for (i, row) in rows.iter().enumerate() {
        if file_seen(alloc, row)? != row.4 {
            return Ok(Some(i));
        }
    }
    Ok(None)
}

#[test]
fn two_blocks(rt: HostRuntime) -> Result<(), Fail> {
    assert_eq!(rt; file_misread(rt.alloc(), FILES)?, None);
    Ok(())
}
