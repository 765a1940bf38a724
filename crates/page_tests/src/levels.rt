// Definition levels: what is read, how many bytes it takes, and where it can't be read.
use hudi_base::Bytes;
use parquet_pages::{PageError, levels_read, levels_write};
use std::alloc::Global;
use std::test::*;

// Bytes in hexadecimal, how many levels are wanted, and the levels with the number of bytes that all runs take.
const READ: [(&str, u32, &str); 11] = [
    ("06000000040102000201", 4, "1101; 10"),
    ("06000000040102000201", 2, "11; 10"),
    ("06000000040102000201ff", 4, "1101; 10"),
    ("02000000030b", 4, "1101; 6"),
    ("02000000030b", 8, "11010000; 6"),
    ("04000000030b0401", 10, "1101000011; 8"),
    ("00000000", 0, "; 4"),
    ("0100000001", 0, "; 5"),
    ("03000000010201", 1, "1; 7"),
    ("0200000003ff", 0, "; 6"),
    ("0b000000feffffffffffffffff0101", 3, "111; 15"),
];

// Bytes that have no reading, and the offset of the item that is wrong.
const REFUSED: [(&str, u32, usize); 13] = [
    ("", 0, 0),
    ("060000", 1, 0),
    ("050000000401", 1, 0),
    ("0100000004", 1, 5),
    ("020000000402", 1, 5),
    ("020000000001", 1, 4),
    ("0100000080", 1, 4),
    ("0a000000ffffffffffffffffff02", 1, 4),
    ("0b0000008080808080808080808001", 1, 4),
    ("020000000401", 3, 6),
    ("0400000004010402", 1, 7),
    ("0100000003", 1, 5),
    ("0b000000ffffffffffffffffff0100", 1, 14),
];

fn told(alloc: Global, bytes: &str, count: u32) -> Result<String, Fail> {
    let bytes: Vec<u8> = hex::decode(alloc, bytes)?;
    let (levels, used) = levels_read(alloc, &bytes, count).ok().ok_or("levels")?;
    let mut text = String::new(alloc);
    for level in levels.as_slice() {
        text.push(if *level { '1' } else { '0' })?;
    }
    Ok(format!(in alloc; "{text}; {used}")?)
}

fn refusal(alloc: Global, bytes: &str, count: u32) -> Result<usize, Fail> {
    let bytes: Vec<u8> = hex::decode(alloc, bytes)?;
    match levels_read(alloc, &bytes, count) {
        Err(PageError::BadPage(offset)) => Ok(offset),
        _ => Err("a refusal")?,
    }
}

fn written(alloc: Global) -> Result<String, Fail> {
    let bytes: Bytes = levels_write(alloc, &[true, true, false, true])
        .ok()
        .ok_or("memory")?;
    Ok(hex::encode(alloc, bytes.as_slice())?)
}

#[test]
fn levels_are_read(rt: HostRuntime) -> Result<(), Fail> {
    for (bytes, count, want) in READ {
        assert!(rt; told(rt.alloc(), bytes, count)?.as_str() == want);
    }
    Ok(())
}

#[test]
fn levels_are_refused(rt: HostRuntime) -> Result<(), Fail> {
    for (bytes, count, want) in REFUSED {
        assert!(rt; refusal(rt.alloc(), bytes, count)? == want);
    }
    Ok(())
}

#[test]
fn levels_are_written(rt: HostRuntime) -> Result<(), Fail> {
    assert!(rt; written(rt.alloc())?.as_str() == "06000000040102000201");
    Ok(())
}
