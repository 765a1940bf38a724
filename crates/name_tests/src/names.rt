// The names of files, both ways. The tail of the file ids is the version 5 UUID of `t/p=1` in the URL namespace.
ghost use Rattle.std.specs.Prelude.{◌≢◌};
ghost use Rattle.file_names.specs.declared.file_name.FileName.TheVariants.{Other};

use file_names::{FileName, file_id, parse_name, text};
use hudi_base::{GroupRef, InstantTime, Name};
use std::alloc::Global;
use std::test::Fail;

const TABLE: &str = "t";

#[derive(Clone, Copy, Debug, PartialEq, Eq)]
enum Kind {
    Instant,
    Base,
    Log,
    Properties,
    Other,
    // It has another name than it was read from.
    Renamed,
}

use Kind::{Base, Instant, Log, Other, Properties, Renamed};

// The kind, where the file has the name.
fn read_back(
    alloc: Global,
    table: &Name,
    name: &Name,
    file: &FileName,
    kind: Kind,
) -> Result<Kind, Fail>
    requires { file.now ≢ Other }
{
    let own = text(alloc, table, file)?;
    if own == *name { Ok(kind) } else { Ok(Renamed) }
}

// What file the name is of.
fn kind_of(alloc: Global, name: &str) -> Result<Kind, Fail> {
    let table = Name::from_text(alloc, TABLE)?;
    let name = Name::from_text(alloc, name)?;
    let file = parse_name(alloc, &table, &name)?;
    match file {
        FileName::Instant(_, _, _) => read_back(alloc, &table, &name, &file, Instant),
        FileName::Base(_, _, _) => read_back(alloc, &table, &name, &file, Base),
        FileName::Log(_, _, _, _) => read_back(alloc, &table, &name, &file, Log),
        FileName::Properties => read_back(alloc, &table, &name, &file, Properties),
        FileName::Other => Ok(Other),
    }
}

const TIMELINE: [(&str, Kind); 22] = [
    (".hoodie/hoodie.properties", Properties),
    (".hoodie/20240101000000001.deltacommit.requested", Instant),
    (".hoodie/20240101000000001.deltacommit.inflight", Instant),
    (".hoodie/20240101000000001.deltacommit", Instant),
    (".hoodie/20240101000000001.compaction.requested", Instant),
    (".hoodie/20240101000000001.compaction.inflight", Instant),
    (".hoodie/20240101000000001.commit", Instant),
    (".hoodie/20240101000000001.replacecommit.requested", Instant),
    (".hoodie/20240101000000001.replacecommit.inflight", Instant),
    (".hoodie/20240101000000001.replacecommit", Instant),
    (".hoodie/20240101000000001.clean.requested", Instant),
    (".hoodie/20240101000000001.clean.inflight", Instant),
    (".hoodie/20000101000000000.clean", Instant),
    (".hoodie/20240101000000001.rollback.requested", Instant),
    (".hoodie/20240101000000001.rollback.inflight", Instant),
    (".hoodie/99991231235959999.rollback", Instant),
    (".hoodie/20240101000000001.compaction", Other),
    (".hoodie/20240101000000001.commit.requested", Other),
    (".hoodie/20240230000000001.clean", Other),
    (".hoodie/2024010100000000.clean", Other),
    (".hoodie/20240101000000001.clean.completed", Other),
    (".hoodie/.hoodie.properties", Other),
];

#[test]
fn timeline_files_have_names(rt: HostRuntime) -> Result<(), Fail> {
    for (name, kind) in TIMELINE {
        assert_eq!(rt; kind_of(rt.alloc(), name)?, kind);
    }
    Ok(())
}

const BASE_FILES: [(&str, Kind); 14] = [
    (
        "p=1/00007fff-d1e2-57c2-9dd0-aabe27edce8d-0_0-0-3_20240101000000001.parquet",
        Base,
    ),
    (
        "p=1/8000ffff-d1e2-57c2-9dd0-aabe27edce8d-20240101000000001_0-18446744073709551615-0_20240101000000002.parquet",
        Base,
    ),
    // Its first slot is above its last one.
    (
        "p=1/7fff0000-d1e2-57c2-9dd0-aabe27edce8d-0_0-0-3_20240101000000001.parquet",
        Base,
    ),
    // The tail of another partition, and of another table.
    (
        "p=2/00007fff-d1e2-57c2-9dd0-aabe27edce8d-0_0-0-3_20240101000000001.parquet",
        Other,
    ),
    (
        "p=1/00007fff-4f01-52df-a6be-557d177dca72-0_0-0-3_20240101000000001.parquet",
        Other,
    ),
    // The time of a first group is never written out.
    (
        "p=1/00007fff-d1e2-57c2-9dd0-aabe27edce8d-20000101000000000_0-0-3_20240101000000001.parquet",
        Other,
    ),
    (
        "p=1/00007FFF-d1e2-57c2-9dd0-aabe27edce8d-0_0-0-3_20240101000000001.parquet",
        Other,
    ),
    (
        "p=1/00007fff-D1E2-57c2-9dd0-aabe27edce8d-0_0-0-3_20240101000000001.parquet",
        Other,
    ),
    (
        "p=1/00007fff-d1e2-57c2-9dd0-aabe27edce8d-0_0-18446744073709551616-3_20240101000000001.parquet",
        Other,
    ),
    (
        "p=1/00007fff-d1e2-57c2-9dd0-aabe27edce8d-0_0-0-03_20240101000000001.parquet",
        Other,
    ),
    (
        "p=1/00007fff-d1e2-57c2-9dd0-aabe27edce8d-0_1-0-3_20240101000000001.parquet",
        Other,
    ),
    (
        "p=1/p=1/00007fff-d1e2-57c2-9dd0-aabe27edce8d-0_0-0-3_20240101000000001.parquet",
        Other,
    ),
    (
        "../00007fff-d1e2-57c2-9dd0-aabe27edce8d-0_0-0-3_20240101000000001.parquet",
        Other,
    ),
    (
        "00007fff-d1e2-57c2-9dd0-aabe27edce8d-0_0-0-3_20240101000000001.parquet",
        Other,
    ),
];

#[test]
fn base_files_have_names(rt: HostRuntime) -> Result<(), Fail> {
    for (name, kind) in BASE_FILES {
        assert_eq!(rt; kind_of(rt.alloc(), name)?, kind);
    }
    Ok(())
}

const LOG_FILES: [(&str, Kind); 7] = [
    (
        "p=1/.00007fff-d1e2-57c2-9dd0-aabe27edce8d-0_20240101000000001.log.1_0-1-2",
        Log,
    ),
    (
        "p=1/.8000ffff-d1e2-57c2-9dd0-aabe27edce8d-20240101000000001_20240101000000001.log.18446744073709551615_0-0-0",
        Log,
    ),
    (
        "p=1/.00007fff-d1e2-57c2-9dd0-aabe27edce8d-0_20240101000000001.log.0_0-1-2",
        Other,
    ),
    (
        "p=1/.00007fff-d1e2-57c2-9dd0-aabe27edce8d-0_20240101000000001.log.01_0-1-2",
        Other,
    ),
    (
        "p=1/.00007fff-d1e2-57c2-9dd0-aabe27edce8d-0_20240101000000001.log.1_0-1",
        Other,
    ),
    (
        "p=1/00007fff-d1e2-57c2-9dd0-aabe27edce8d-0_20240101000000001.log.1_0-1-2",
        Other,
    ),
    ("", Other),
];

#[test]
fn log_files_have_names(rt: HostRuntime) -> Result<(), Fail> {
    for (name, kind) in LOG_FILES {
        assert_eq!(rt; kind_of(rt.alloc(), name)?, kind);
    }
    Ok(())
}

// How many of the proper prefixes are no name of a file.
fn other_prefixes(alloc: Global, name: &str) -> Result<usize, Fail> {
    let mut others = 0;
    for len in 0..name.len() {
        if is_other(alloc, &name.as_bytes()[..len])? {
            others += 1;
        }
    }
    Ok(others)
}

fn is_other(alloc: Global, name: &[u8]) -> Result<bool, Fail> {
    let name = std::str::from_utf8(name)?;
    Ok(kind_of(alloc, name)? == Other)
}

#[test]
fn prefixes_are_no_names(rt: HostRuntime) -> Result<(), Fail> {
    // All but the completed file's name.
    assert_eq!(rt; other_prefixes(rt.alloc(), TIMELINE[1].0)?, 46);
    assert_eq!(rt; other_prefixes(rt.alloc(), BASE_FILES[0].0)?, 74);
    assert_eq!(rt; other_prefixes(rt.alloc(), LOG_FILES[0].0)?, 73);
    Ok(())
}

// Whether a group of the partition `p=1` has this file id.
fn has_id(alloc: Global, bounds: (u16, u16), born: InstantTime, id: &str) -> Result<bool, Fail> {
    let table = Name::from_text(alloc, TABLE)?;
    let group = GroupRef {
        partition: Name::from_text(alloc, "p=1")?,
        lo: bounds.0,
        hi: bounds.1,
        born,
    };
    let own = file_id(alloc, &table, &group)?;
    Ok(own.as_str() == id)
}

#[test]
fn groups_have_file_ids(rt: HostRuntime) -> Result<(), Fail> {
    let alloc = rt.alloc();
    let (first, last) = (InstantTime::FIRST, InstantTime::LAST);
    assert!(rt;
        has_id(
            alloc,
            (0, 32767),
            first,
            "00007fff-d1e2-57c2-9dd0-aabe27edce8d-0"
        )?
    );
    assert!(rt;
        has_id(
            alloc,
            (32768, 65535),
            first,
            "8000ffff-d1e2-57c2-9dd0-aabe27edce8d-0"
        )?
    );
    assert!(rt;
        has_id(
            alloc,
            (1, 43690),
            last,
            "0001aaaa-d1e2-57c2-9dd0-aabe27edce8d-99991231235959999"
        )?
    );
    Ok(())
}
