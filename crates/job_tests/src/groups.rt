// Snapshots of a table with two groups, whose logs are read one after another.
use crate::driving::{Open, fresh_over, put_journal, run};
use hudi_base::{Bytes, Name, Sequence};
use std::alloc::{AllocError, Global};
use std::fmt::Write;
use std::test::*;
use store_mem::MemStore;

// The hash slot of key b1 is 32,380, in the first group; those of a and c are 60,556 and 61,426, in the second.
const SCRIPT: &str =
    "{\"job\":\"upsert\",\"rows\":[{\"key\":\"a\",\"rank\":1,\"body\":\"one\"},{\"key\":\"b1\",\"rank\":1,\"body\":\"two\"},{\"key\":\"c\",\"rank\":1,\"body\":\"three\"}]}
{\"job\":\"snapshot\"}
";

// The groups' logs, in the order of the groups.
const LOGS: [&str; 2] = [
    "x/.00007fff-c50d-5b40-af36-b8949fde563e-0_20000101000000000.log.1_0-0-0",
    "x/.8000ffff-c50d-5b40-af36-b8949fde563e-0_20000101000000000.log.1_0-0-1",
];

const WRITTEN: &str = "mark 1 1 begin began 1704067200000 0
mark 1 1 enter entered 2 0
mark 1 1 append placed 1 0
mark 1 1 append placed 1 0
mark 1 1 finish completed 1704067200000 0
mark 1 2 pin pinned 1704067200000 1
";

const BOTH_READ: &str = "mark 1 2 read bytes 0 0
mark 1 2 read bytes 1 0
";

/// Which log has a byte before its first block, if one has; what the snapshot answers then, and what it reads.
struct Case {
    damaged: Option<usize>,
    answer: &'static str,
    reads: &'static str,
}

const CASES: [Case; 3] = [
    Case {
        damaged: None,
        answer: "rows 20240101000000000 [{\"_hoodie_commit_seqno\":\"20240101000000000_0_0\",\"_hoodie_commit_time\":\"20240101000000000\",\"body\":\"one\",\"key\":\"a\",\"rank\":1},{\"_hoodie_commit_seqno\":\"20240101000000000_0_1\",\"_hoodie_commit_time\":\"20240101000000000\",\"body\":\"two\",\"key\":\"b1\",\"rank\":1},{\"_hoodie_commit_seqno\":\"20240101000000000_0_2\",\"_hoodie_commit_time\":\"20240101000000000\",\"body\":\"three\",\"key\":\"c\",\"rank\":1}]",
        reads: BOTH_READ,
    },
    Case {
        damaged: Some(0),
        answer: "damaged x/.00007fff-c50d-5b40-af36-b8949fde563e-0_20000101000000000.log.1_0-0-0 log 0",
        reads: "mark 1 2 read bytes 0 0\n",
    },
    Case {
        damaged: Some(1),
        answer: "damaged x/.8000ffff-c50d-5b40-af36-b8949fde563e-0_20000101000000000.log.1_0-0-1 log 0",
        reads: BOTH_READ,
    },
];

// A store in which the log of this number has a byte already, if one is named.
fn store_with_byte(alloc: Global, log: Option<usize>) -> Result<MemStore, AllocError> {
    let mut files = Sequence::new(alloc);
    if let Some(number) = log {
        let name = Name::from_text(alloc, LOGS[number % 2])?;
        files.push((name, Bytes::from_slice(alloc, b"x")?))?;
    }
    MemStore::with_files(alloc, files)
}

// What the script prints.
fn output_of(alloc: Global, damaged: Option<usize>) -> Result<String, Fail> {
    let board = fresh_over(alloc, store_with_byte(alloc, damaged)?, 2)?;
    let (board, mut out) = run(alloc, board, SCRIPT, &Open {})?;
    put_journal(alloc, &mut out, &board)?;
    Ok(String::from_utf8(out).map_err(|_| "a text")?)
}

fn expected(alloc: Global, case: &Case) -> Result<String, Fail> {
    let mut out = String::new(alloc);
    writeln!(out, "1 upsert committed 20240101000000000")?;
    writeln!(out, "2 snapshot {}", case.answer)?;
    write!(out, "{WRITTEN}{}", case.reads)?;
    writeln!(out, "mark 1 2 unpin done 1 0")?;
    Ok(out)
}

#[test]
fn no_group_behind_a_damaged_one_is_read(rt: HostRuntime) -> Result<(), Fail> {
    let alloc = rt.alloc();
    for case in &CASES {
        assert_eq!(rt;
            output_of(alloc, case.damaged)?.as_str(),
            expected(alloc, case)?.as_str()
        );
    }
    Ok(())
}
