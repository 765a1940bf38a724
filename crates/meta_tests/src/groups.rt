// The files of groups, in the table `t` and its partition `x`, which begins with two groups. The tails of the file ids
// are the version 5 UUIDs of `t/x` and `t/y` in the URL namespace.
use file_groups::{BasePart, GroupView, Part, ViewError, chain, view_of};
use file_names::{FileName, parse_name};
use hudi_base::{InstantTime, Name, Sequence};
use key_index::{Tiles, first};
use std::alloc::{AllocError, Global};
use std::test::*;

const TABLE: &str = "t";

// The rest of a file id's UUID, behind its slots.
const TAIL: &str = "4f01-52df-a6be-557d177dca72";

// Names and lengths, with the log versions out of order, a base file that nothing names, one of a group that is gone,
// and a file of the timeline.
const FILES: [(&str, u64); 11] = [
    (
        "x/.00007fff-4f01-52df-a6be-557d177dca72-0_20000101000000000.log.10_0-0-9",
        30,
    ),
    (
        "x/.00007fff-4f01-52df-a6be-557d177dca72-0_20240101000000002.log.1_0-0-3",
        7,
    ),
    (
        "x/.00007fff-4f01-52df-a6be-557d177dca72-0_20000101000000000.log.2_0-0-1",
        10,
    ),
    (
        "x/.00007fff-4f01-52df-a6be-557d177dca72-0_20000101000000000.log.1_0-0-0",
        92,
    ),
    (
        "x/.00007fff-4f01-52df-a6be-557d177dca72-0_20240101000000004.log.1_0-0-8",
        8,
    ),
    (
        "x/.8000ffff-4f01-52df-a6be-557d177dca72-0_20000101000000000.log.1_0-0-5",
        5,
    ),
    (
        "x/00007fff-4f01-52df-a6be-557d177dca72-0_0-0-2_20240101000000002.parquet",
        500,
    ),
    (
        "x/00007fff-4f01-52df-a6be-557d177dca72-0_0-0-6_20240101000000003.parquet",
        550,
    ),
    (
        "x/00007fff-4f01-52df-a6be-557d177dca72-0_0-0-7_20240101000000004.parquet",
        600,
    ),
    (
        "x/0000ffff-4f01-52df-a6be-557d177dca72-0_0-0-4_20240101000000001.parquet",
        400,
    ),
    (".hoodie/20240101000000002.commit", 2),
];

// The base files that completed metadata names: one of them isn't there.
const NAMED: [(&str, u64); 4] = [
    (
        "x/00007fff-4f01-52df-a6be-557d177dca72-0_0-0-7_20240101000000004.parquet",
        600,
    ),
    (
        "x/00007fff-4f01-52df-a6be-557d177dca72-0_0-0-2_20240101000000002.parquet",
        500,
    ),
    (
        "x/8000ffff-4f01-52df-a6be-557d177dca72-0_0-0-2_20240101000000002.parquet",
        300,
    ),
    (
        "x/0000ffff-4f01-52df-a6be-557d177dca72-0_0-0-4_20240101000000001.parquet",
        400,
    ),
];

// Two logs of a group without slots, and one of the second group.
const EMPTY_GROUP: [(&str, u64); 3] = [
    (
        "x/.00050004-4f01-52df-a6be-557d177dca72-20240101000000004_20240101000000004.log.1_0-0-1",
        1,
    ),
    (
        "x/.8000ffff-4f01-52df-a6be-557d177dca72-0_20000101000000000.log.1_0-0-5",
        5,
    ),
    (
        "x/.00050004-4f01-52df-a6be-557d177dca72-20240101000000004_20240101000000004.log.2_0-0-2",
        2,
    ),
];

// A file of another partition.
const STRANGE: [(&str, u64); 1] = [(
    "y/.0000ffff-339d-5fba-b2c2-9d158f0c965f-0_20000101000000000.log.1_0-0-0",
    1,
)];

// A base file of another partition.
const OTHER_BASE: [(&str, u64); 1] = [(
    "y/0000ffff-339d-5fba-b2c2-9d158f0c965f-0_0-0-1_20240101000000001.parquet",
    1,
)];

// The parts of the first group at each time, and those of the second.
const CHAINS: [(usize, &str, &str); 5] = [
    (0, "20240101000000001", " 92 10 30 7 8"),
    (0, "20240101000000002", " base 500 7 8"),
    (0, "20240101000000003", " base 500 7 8"),
    (0, "99991231235959999", " base 600 8"),
    (1, "99991231235959999", " 5"),
];

fn file_of(alloc: Global, name: &str) -> Result<FileName, Fail> {
    let table = Name::from_text(alloc, TABLE)?;
    let name = Name::from_text(alloc, name)?;
    Ok(parse_name(alloc, &table, &name)?)
}

fn files_of(alloc: Global, listing: &[(&str, u64)]) -> Result<Vec<(FileName, u64)>, Fail> {
    let mut files = Vec::new(alloc);
    for (name, length) in listing {
        files.push((file_of(alloc, name)?, *length))?;
    }
    Ok(files)
}

fn push_base(
    alloc: Global,
    name: &str,
    length: u64,
    bases: &mut Vec<BasePart>,
) -> Result<(), Fail> {
    if let FileName::Base(group, _, time) = file_of(alloc, name)? {
        let name = Name::from_text(alloc, name)?;
        bases.push(BasePart {
            group,
            time,
            name,
            length,
        })?;
    }
    Ok(())
}

fn bases_of(alloc: Global, listing: &[(&str, u64)]) -> Result<Vec<BasePart>, Fail> {
    let mut bases = Vec::new(alloc);
    for (name, length) in listing {
        push_base(alloc, name, *length, &mut bases)?;
    }
    Ok(bases)
}

fn tiles(alloc: Global) -> Result<Tiles, Fail> {
    Ok(first(alloc, &Name::from_text(alloc, "x")?, 2)?)
}

fn views(
    alloc: Global,
    files: &[(&str, u64)],
    named: &[(&str, u64)],
) -> Result<Result<Sequence<GroupView>, ViewError>, Fail> {
    let table = Name::from_text(alloc, TABLE)?;
    let files = files_of(alloc, files)?;
    let named = bases_of(alloc, named)?;
    let tiles = tiles(alloc)?;
    Ok(view_of(alloc, &table, &tiles, &files, &named))
}

// The lengths of the parts, each base file marked.
fn lengths(alloc: Global, parts: &[Part]) -> Result<String, AllocError> {
    let mut text = String::new(alloc);
    for part in parts {
        let length = part.length;
        let mark = if part.base { "base " } else { "" };
        text.push_str(format!(in alloc; " {mark}{length}")?.as_str())?;
    }
    Ok(text)
}

// Whether the group has these parts at a time.
fn has_chain(alloc: Global, view: &GroupView, at: &str, want: &str) -> Result<bool, Fail> {
    let Some(t) = InstantTime::from_text(at.as_bytes()) else {
        return Ok(false);
    };
    match chain(alloc, view, t) {
        Ok(parts) => Ok(lengths(alloc, parts.as_slice())?.as_str() == want),
        Err(_) => Ok(false),
    }
}

fn has_chain_at(
    alloc: Global,
    views: &[GroupView],
    group: usize,
    at: &str,
    want: &str,
) -> Result<bool, Fail> {
    match views.get(group) {
        Some(view) => has_chain(alloc, view, at, want),
        None => Ok(false),
    }
}

#[test]
fn parts_go_by_bases_and_slices(rt: HostRuntime) -> Result<(), Fail> {
    let alloc = rt.alloc();
    match views(alloc, &FILES, &NAMED)? {
        Ok(views) => {
            assert_eq!(rt; views.len(), 2);
            for (group, at, want) in CHAINS {
                assert!(rt; has_chain_at(alloc, views.as_slice(), group, at, want)?);
            }
        }
        Err(_) => assert!(rt; false),
    }
    Ok(())
}

// Whether the partition of a file is refused.
fn is_stranger(
    alloc: Global,
    files: &[(&str, u64)],
    named: &[(&str, u64)],
    want: &str,
) -> Result<bool, Fail> {
    match views(alloc, files, named)? {
        Err(ViewError::NoTile(partition)) => Ok(partition.as_str() == want),
        _ => Ok(false),
    }
}

// A group whose first slot is above its last one stands among those of the partition, and has its own files.
fn with_empty_group(alloc: Global) -> Result<Tiles, Fail> {
    let mut tiles = tiles(alloc)?;
    let FileName::Log(group, _, _, _) = file_of(alloc, EMPTY_GROUP[0].0)? else {
        return Ok(tiles);
    };
    tiles.replace(alloc, &[], &[group])?;
    Ok(tiles)
}

// The first slots of the groups, and the lengths of their logs.
fn slots_and_logs(alloc: Global, views: &[GroupView]) -> Result<String, AllocError> {
    let mut text = String::new(alloc);
    for view in views {
        let lo = view.group.lo;
        let logs = view.logs.len();
        text.push_str(format!(in alloc; " {lo}:{logs}")?.as_str())?;
    }
    Ok(text)
}

#[test]
fn groups_without_slots_have_views(rt: HostRuntime) -> Result<(), Fail> {
    let alloc = rt.alloc();
    let table = Name::from_text(alloc, TABLE)?;
    let tiles = with_empty_group(alloc)?;
    let files = files_of(alloc, &EMPTY_GROUP)?;
    match view_of(alloc, &table, &tiles, &files, &[]) {
        Ok(views) => {
            let text = slots_and_logs(alloc, views.as_slice())?;
            assert_eq!(rt; text.as_str(), " 0:0 5:2 32768:1");
        }
        Err(_) => assert!(rt; false),
    }
    Ok(())
}

fn push_log(alloc: Global, number: u32, files: &mut Vec<(FileName, u64)>) -> Result<(), Fail> {
    let slots = if number % 2 == 0 {
        "00007fff"
    } else {
        "8000ffff"
    };
    let version = number / 2 + 1;
    let name = format!(in alloc;
        "x/.{slots}-{TAIL}-0_20000101000000000.log.{version}_0-0-{number}"
    )?;
    files.push((file_of(alloc, name.as_str())?, 1))?;
    Ok(())
}

// A folder with so many logs of the two groups in turn.
fn many_logs(alloc: Global, count: u32) -> Result<Vec<(FileName, u64)>, Fail> {
    let mut files = Vec::new(alloc);
    for number in 0..count {
        push_log(alloc, number, &mut files)?;
    }
    Ok(files)
}

#[test]
fn long_listings_have_views(rt: HostRuntime) -> Result<(), Fail> {
    let alloc = rt.alloc();
    let table = Name::from_text(alloc, TABLE)?;
    let tiles = tiles(alloc)?;
    let files = many_logs(alloc, 65536)?;
    match view_of(alloc, &table, &tiles, &files, &[]) {
        Ok(views) => {
            let text = slots_and_logs(alloc, views.as_slice())?;
            assert_eq!(rt; text.as_str(), " 0:32768 32768:32768");
        }
        Err(_) => assert!(rt; false),
    }
    Ok(())
}

#[test]
fn other_partitions_are_refused(rt: HostRuntime) -> Result<(), Fail> {
    let alloc = rt.alloc();
    assert!(rt; is_stranger(alloc, &STRANGE, &NAMED, "y")?);
    assert!(rt; is_stranger(alloc, &FILES, &OTHER_BASE, "y")?);
    Ok(())
}
