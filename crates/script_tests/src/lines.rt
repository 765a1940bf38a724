// The printed lines of jobs and of marks.
use hudi_base::{Bytes, InstantTime, Name, Sequence};
use job_script::{Line, ScriptJob, put_job_text, put_mark_text};
use payload_merge::Row;
use std::alloc::{AllocError, Global};
use std::test::*;
use table_core::{JobReply, RowCause};
use table_history::{Cause, Mark};

// The beginning of 2024, and then some milliseconds.
fn time(after: u16) -> Result<InstantTime, Fail> {
    Ok(InstantTime::from_ms(1_704_067_200_000 + after as u64).ok_or("a time")?)
}

fn job(number: u32, line: Line) -> ScriptJob {
    ScriptJob { number, line }
}

// What is printed behind `> `.
fn line_of(alloc: Global, job: &ScriptJob, reply: &JobReply) -> Result<String, Fail> {
    let mut out = Vec::from_slice(alloc, b"> ")?;
    put_job_text(alloc, &mut out, job, reply)?;
    Ok(String::from_utf8(out).map_err(|_| "a text")?)
}

#[test]
fn answers_are_printed_behind_the_number_and_the_name(rt: HostRuntime) -> Result<(), Fail> {
    let alloc = rt.alloc();
    let first = time(0)?;
    let name = Name::from_text(alloc, "x/.r1.log.1_0-0-0")?;
    let table = [
        (
            JobReply::Committed(time(1)?),
            "> 7 snapshot committed 20240101000000001\n",
        ),
        (
            JobReply::BadRow(0, RowCause::Mismatch(3)),
            "> 7 snapshot bad_row 0 mismatch 3\n",
        ),
        (
            JobReply::BadRow(12, RowCause::NoKey),
            "> 7 snapshot bad_row 12 no_key\n",
        ),
        (
            JobReply::BadRow(1, RowCause::BadPartition),
            "> 7 snapshot bad_row 1 bad_partition\n",
        ),
        (
            JobReply::BadRow(1, RowCause::NoOrdering),
            "> 7 snapshot bad_row 1 no_ordering\n",
        ),
        (
            JobReply::BadRow(1, RowCause::TooLarge),
            "> 7 snapshot bad_row 1 too_large\n",
        ),
        (
            JobReply::NotCompleted(first),
            "> 7 snapshot not_completed 20240101000000000\n",
        ),
        (JobReply::TimeOver, "> 7 snapshot time_over\n"),
        (JobReply::Fault, "> 7 snapshot fault\n"),
        (
            JobReply::Damaged(name, Cause::Log, 128),
            "> 7 snapshot damaged x/.r1.log.1_0-0-0 log 128\n",
        ),
        (JobReply::Memory, "> 7 snapshot memory\n"),
        (
            JobReply::Rows(None, Sequence::new(alloc)),
            "> 7 snapshot rows none []\n",
        ),
    ];
    let job = job(7, Line::Snapshot);
    for (reply, want) in &table {
        assert_eq!(rt; line_of(alloc, &job, reply)?.as_str(), *want);
    }
    Ok(())
}

// A row of a partition, written by the instant so many milliseconds after the beginning of 2024.
fn row(
    alloc: Global,
    (key, rank, body): (&[u8], i64, &[u8]),
    after: u16,
    seq: u32,
) -> Result<Row, Fail> {
    Ok(Row {
        partition: Name::from_text(alloc, "x")?,
        key: Bytes::from_slice(alloc, key)?,
        rank,
        commit: time(after)?,
        seq,
        body: Bytes::from_slice(alloc, body)?,
    })
}

#[test]
fn rows_are_printed_as_json(rt: HostRuntime) -> Result<(), Fail> {
    let alloc = rt.alloc();
    let mut rows = Sequence::new(alloc);
    rows.push(row(alloc, (b"a", 5, b"one"), 0, 0)?)?;
    rows.push(row(
        alloc,
        (b"b", i64::MIN, b"\"\\\x01\n\x7f\xc3\xa9"),
        1,
        4_294_967_295,
    )?)?;
    rows.push(row(alloc, (b"\xff", i64::MAX, b"\xc3"), 2, 10)?)?;
    let reply = JobReply::Rows(Some(time(2)?), rows);
    assert_eq!(rt;
        line_of(alloc, &job(4_294_967_295, Line::Snapshot), &reply)?.as_str(),
        "> 4294967295 snapshot rows 20240101000000002 [{\"_hoodie_commit_seqno\":\"20240101000000000_0_0\",\"_hoodie_commit_time\":\"20240101000000000\",\"body\":\"one\",\"key\":\"a\",\"rank\":5},{\"_hoodie_commit_seqno\":\"20240101000000001_0_4294967295\",\"_hoodie_commit_time\":\"20240101000000001\",\"body\":\"\\\"\\\\\\u0001\\n\u{7f}é\",\"key\":\"b\",\"rank\":-9223372036854775808},{\"_hoodie_commit_seqno\":\"20240101000000002_0_10\",\"_hoodie_commit_time\":\"20240101000000002\",\"body\":\"\",\"key\":\"\",\"rank\":9223372036854775807}]\n"
    );
    Ok(())
}

#[test]
fn an_upsert_is_named(rt: HostRuntime) -> Result<(), Fail> {
    let alloc = rt.alloc();
    let job = job(1, Line::Upsert(Sequence::new(alloc)));
    assert_eq!(rt;
        line_of(alloc, &job, &JobReply::TimeOver)?.as_str(),
        "> 1 upsert time_over\n"
    );
    Ok(())
}

// Marks as numbers, and their lines.
const MARKS: [((u32, u32, u8, u8, u64, u64), &str); 17] = [
    (
        (1, 2, 0, 0, 1_704_067_200_000, 0),
        "mark 1 2 begin began 1704067200000 0\n",
    ),
    ((1, 2, 1, 1, 1, 0), "mark 1 2 enter entered 1 0\n"),
    ((1, 2, 2, 2, 1, 0), "mark 1 2 append placed 1 0\n"),
    (
        (1, 2, 4, 4, 1_704_067_200_000, 0),
        "mark 1 2 finish completed 1704067200000 0\n",
    ),
    (
        (1, 3, 11, 9, 1_704_067_200_000, 1),
        "mark 1 3 pin pinned 1704067200000 1\n",
    ),
    ((1, 3, 13, 10, 0, 0), "mark 1 3 read bytes 0 0\n"),
    ((1, 3, 12, 18, 1, 0), "mark 1 3 unpin done 1 0\n"),
    ((1, 2, 2, 19, 0, 0), "mark 1 2 append fault 0 0\n"),
    (
        (1, 2, 14, 18, 1_704_067_200_000, 0),
        "mark 1 2 abandon done 1704067200000 0\n",
    ),
    ((1, 2, 0, 14, 0, 0), "mark 1 2 begin time_over 0 0\n"),
    ((1, 2, 11, 13, 7, 0), "mark 1 2 pin not_completed 7 0\n"),
    ((1, 2, 13, 20, 2, 0), "mark 1 2 read damaged 2 0\n"),
    ((0, 0, 8, 6, 9, 8), "mark 0 0 begin_rollback planned 9 8\n"),
    ((3, 4, 3, 3, 1, 2), "mark 3 4 create_base made_base 1 2\n"),
    ((3, 4, 10, 11, 1, 0), "mark 3 4 withdraw removed 1 0\n"),
    (
        (2, 1, 6, 16, 0, 0),
        "mark 2 1 plan_cluster too_narrow 0 0\n",
    ),
    (
        (
            4_294_967_295,
            4_294_967_295,
            255,
            21,
            18_446_744_073_709_551_615,
            18_446_744_073_709_551_615,
        ),
        "mark 4294967295 4294967295   18446744073709551615 18446744073709551615\n",
    ),
];

#[test]
fn marks_are_printed_by_name(rt: HostRuntime) -> Result<(), Fail> {
    let alloc = rt.alloc();
    for ((lane, line, step, reply, a, b), want) in MARKS {
        let mark = Mark {
            lane,
            line,
            step,
            reply,
            a,
            b,
        };
        let mut out = Vec::new(alloc);
        put_mark_text(alloc, &mut out, &mark)?;
        assert_eq!(rt; out.as_slice(), want.as_bytes());
    }
    Ok(())
}
