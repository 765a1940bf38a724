// The printed lines of every job, of every answer, and of marks.
ghost use Rattle.std.specs.Prelude.{◌≡◌, true, false, All, IfOk};
ghost use Rattle.row_values.specs.Layouts.{has_typed_places};
ghost use Rattle.row_values.specs.RowCells.{IsOwnRow};
ghost use Rattle.row_values.specs.declared.row_layout.RowLayout.{RowLayout};
ghost use Rattle.script_texts.specs.Texts.{HasOwnRows};

use hudi_base::{InstantTime, Name, Sequence};
use payload_merge::{Row, RowError, Rows};
use row_codec::FlatCodec;
use row_values::told_properties_have_typed_places;
use script_jobs::{Job, Script, What, parse_script};
use script_texts::{put_job_text, put_made_text, put_mark_text};
use serde_json::Value;
use std::alloc::Global;
use std::test::*;
use table_core::{JobReply, RowCause};
use table_history::{Cause, Mark};
use table_props::{Props, parse_props};

// A table with a field of each type, of which the ordering field and the bytes may be null, and with one whose name
// stands before all others in byte order.
const PROPERTIES: &str = "hoodie.table.name=t
hoodie.table.type=MERGE_ON_READ
hoodie.table.version=6
hoodie.table.recordkey.fields=id
hoodie.table.partition.fields=p
hoodie.table.precombine.field=v
hoodie.timeline.layout.version=1
profile.buckets=1
profile.schema={\"fields\":[{\"name\":\"id\",\"type\":\"string\"},{\"name\":\"p\",\"type\":\"string\"},\
{\"name\":\"v\",\"type\":[\"null\",\"long\"]},{\"name\":\"N\",\"type\":\"int\"},{\"name\":\"f\",\"type\":\"boolean\"},\
{\"name\":\"d\",\"type\":[\"null\",\"bytes\"]}],\"name\":\"r\",\"type\":\"record\"}
";

// A table with a key, a partition and a number, and no ordering field.
const PLAIN_PROPERTIES: &str = "hoodie.table.name=t
hoodie.table.type=MERGE_ON_READ
hoodie.table.version=6
hoodie.table.recordkey.fields=id
hoodie.table.partition.fields=p
hoodie.timeline.layout.version=1
profile.buckets=1
profile.schema={\"fields\":[{\"name\":\"id\",\"type\":\"string\"},{\"name\":\"p\",\"type\":\"string\"},\
{\"name\":\"v\",\"type\":\"long\"}],\"name\":\"r\",\"type\":\"record\"}
";

fn codec_of(alloc: Global, props: &Props) -> Result<FlatCodec, RowError>
    requires { has_typed_places props.now ≡ true }
{
    FlatCodec::new(alloc, props)
}

// The codec of a table with these properties.
fn codec(alloc: Global, properties: &str) -> Result<FlatCodec, Fail> {
    told_properties_have_typed_places();
    let props = parse_props(alloc, properties.as_bytes())?;
    Ok(codec_of(alloc, &props)?)
}

// The beginning of 2024, and then some milliseconds.
fn time(after: u16) -> Result<InstantTime, Fail> {
    Ok(InstantTime::from_ms(1_704_067_200_000 + after as u64).ok_or("a time")?)
}

// The row that JSON says, written by the instant so many milliseconds after the beginning of 2024 at a place.
fn row_of(alloc: Global, codec: &FlatCodec, json: &str, after: u16, seq: u32) -> Result<Row, Fail>
    ensures { IfOk result (λ row. IsOwnRow codec.now.records.own row) }
{
    let json = Value::from_str(alloc, json)?;
    let value = codec.value_of_json(alloc, &json)?;
    let row = codec.row_of(alloc, &value, time(after)?, seq)?;
    Ok(row)
}

// A row as JSON, the milliseconds after the beginning of 2024 at which it was written, and its place in the batch.
type Written = (&'static str, u16, u32);

fn rows_of(alloc: Global, codec: &FlatCodec, written: [Written; 2]) -> Result<Rows, Fail>
    ensures { IfOk result (λ rows. All (IsOwnRow codec.now.records.own) rows) }
{
    let [first, second] = written;
    let first = row_of(alloc, codec, first.0, first.1, first.2)?;
    let second = row_of(alloc, codec, second.0, second.1, second.2)?;
    let mut rows = Sequence::new(alloc);
    rows.push(first)?;
    rows.push(second)?;
    Ok(rows)
}

// A row with bytes, and one with a null and a text that needs escapes.
const ROWS: [Written; 2] = [
    (
        r#"{"id":"a","p":"x","v":5,"N":-1,"f":true,"d":"0aff"}"#,
        0,
        0,
    ),
    (
        r#"{"N":2147483647,"f":false,"p":"y","v":-9223372036854775808,"id":"\"\\\u0001\n\u007fé"}"#,
        1,
        4_294_967_295,
    ),
];

const SHOWN: &str = "> 3 snapshot rows 20240101000000001 [\
    {\"N\":-1,\"_hoodie_commit_seqno\":\"20240101000000000_0_0\",\"_hoodie_commit_time\":\"20240101000000000\",\
    \"d\":\"0aff\",\"f\":true,\"id\":\"a\",\"p\":\"x\",\"v\":5},\
    {\"N\":2147483647,\"_hoodie_commit_seqno\":\"20240101000000001_0_4294967295\",\
    \"_hoodie_commit_time\":\"20240101000000001\",\"d\":null,\"f\":false,\
    \"id\":\"\\\"\\\\\\u0001\\n\u{7f}é\",\"p\":\"y\",\"v\":-9223372036854775808}]\n";

// What is left of an upsert of a, b and a again: the last row of a, and the row of b.
const PLAIN_ROWS: [Written; 2] = [
    (r#"{"id":"a","p":"x","v":3}"#, 0, 2),
    (r#"{"id":"b","p":"x","v":2}"#, 0, 1),
];

const PLAIN_SHOWN: &str = "> 3 snapshot rows 20240101000000000 [\
    {\"_hoodie_commit_seqno\":\"20240101000000000_0_2\",\"_hoodie_commit_time\":\"20240101000000000\",\
    \"id\":\"a\",\"p\":\"x\",\"v\":3},\
    {\"_hoodie_commit_seqno\":\"20240101000000000_0_1\",\"_hoodie_commit_time\":\"20240101000000000\",\
    \"id\":\"b\",\"p\":\"x\",\"v\":2}]\n";

// What is printed behind `> `.
fn line_of(alloc: Global, codec: &FlatCodec, job: &Job, reply: &JobReply) -> Result<String, Fail>
    requires { HasOwnRows codec.now.records.own reply.now }
{
    let mut out = Vec::from_slice(alloc, b"> ")?;
    put_job_text(alloc, &mut out, codec, job, reply)?;
    Ok(String::from_utf8(out).map_err(|_| "a text")?)
}

fn has_rows(reply: &JobReply) -> bool
    ensures { (layout : RowLayout) → result ≡ false → HasOwnRows layout reply.now }
{
    match reply {
        JobReply::Rows(_, rows) => rows.len() > 0,
        JobReply::Committed(_) => false,
        JobReply::BadRow(_, _) => false,
        JobReply::NotCompleted(_) => false,
        JobReply::TimeOver => false,
        JobReply::Fault => false,
        JobReply::Damaged(_, _, _) => false,
        JobReply::Memory => false,
    }
}

// The same of an answer without rows.
fn plain_line(
    alloc: Global,
    codec: &FlatCodec,
    job: &Job,
    reply: &JobReply,
) -> Result<String, Fail> {
    if has_rows(reply) {
        return Err("rows")?;
    }
    line_of(alloc, codec, job, reply)
}

fn snapshot(line: u32) -> Job {
    Job {
        line,
        lane: 1,
        what: What::Snapshot { at: None },
    }
}

// The answer that a file is damaged in this way.
fn damaged(alloc: Global, cause: Cause, at: u64) -> Result<JobReply, Fail> {
    let name = Name::from_text(alloc, "x/.r1.log.1_0-0-0")?;
    Ok(JobReply::Damaged(name, cause, at))
}

#[test]
fn answers_are_printed_behind_the_line_and_the_job(rt: HostRuntime) -> Result<(), Fail> {
    let alloc = rt.alloc();
    let codec = codec(alloc, PROPERTIES)?;
    let table = [
        (
            JobReply::Committed(time(1)?),
            "> 7 snapshot committed 20240101000000001\n",
        ),
        (
            JobReply::BadRow(0, RowCause::Mismatch(3)),
            "> 7 snapshot bad_row 0 mismatch 3\n",
        ),
        (
            JobReply::BadRow(12, RowCause::NoKey),
            "> 7 snapshot bad_row 12 no_key\n",
        ),
        (
            JobReply::BadRow(1, RowCause::BadPartition),
            "> 7 snapshot bad_row 1 bad_partition\n",
        ),
        (
            JobReply::BadRow(1, RowCause::NoOrdering),
            "> 7 snapshot bad_row 1 no_ordering\n",
        ),
        (
            JobReply::BadRow(4_294_967_295, RowCause::TooLarge),
            "> 7 snapshot bad_row 4294967295 too_large\n",
        ),
        (
            JobReply::Rows(None, Sequence::new(alloc)),
            "> 7 snapshot rows none []\n",
        ),
        (
            JobReply::Rows(Some(time(0)?), Sequence::new(alloc)),
            "> 7 snapshot rows 20240101000000000 []\n",
        ),
        (
            JobReply::NotCompleted(time(0)?),
            "> 7 snapshot not_completed 20240101000000000\n",
        ),
        (JobReply::TimeOver, "> 7 snapshot time_over\n"),
        (JobReply::Fault, "> 7 snapshot fault\n"),
        (
            damaged(alloc, Cause::Exists, 0)?,
            "> 7 snapshot damaged x/.r1.log.1_0-0-0 exists 0\n",
        ),
        (
            damaged(alloc, Cause::Missing, 0)?,
            "> 7 snapshot damaged x/.r1.log.1_0-0-0 missing 0\n",
        ),
        (
            damaged(alloc, Cause::Short, 0)?,
            "> 7 snapshot damaged x/.r1.log.1_0-0-0 short 0\n",
        ),
        (
            damaged(alloc, Cause::Log, 128)?,
            "> 7 snapshot damaged x/.r1.log.1_0-0-0 log 128\n",
        ),
        (
            damaged(alloc, Cause::Base, 9)?,
            "> 7 snapshot damaged x/.r1.log.1_0-0-0 base 9\n",
        ),
        (
            damaged(alloc, Cause::Content, 18_446_744_073_709_551_615)?,
            "> 7 snapshot damaged x/.r1.log.1_0-0-0 content 18446744073709551615\n",
        ),
        (JobReply::Memory, "> 7 snapshot memory\n"),
    ];
    let job = snapshot(7);
    for (reply, want) in &table {
        assert_eq!(rt; plain_line(alloc, &codec, &job, reply)?.as_str(), *want);
    }
    Ok(())
}

// The line of a snapshot of a table with these properties, so many milliseconds after the beginning of 2024, that answers
// two rows.
fn rows_line(
    alloc: Global,
    properties: &str,
    after: u16,
    written: [Written; 2],
) -> Result<String, Fail> {
    let codec = codec(alloc, properties)?;
    let rows = rows_of(alloc, &codec, written)?;
    let reply = JobReply::Rows(Some(time(after)?), rows);
    line_of(alloc, &codec, &snapshot(3), &reply)
}

#[test]
fn rows_are_printed_as_json(rt: HostRuntime) -> Result<(), Fail> {
    let alloc = rt.alloc();
    assert_eq!(rt; rows_line(alloc, PROPERTIES, 1, ROWS)?.as_str(), SHOWN);
    assert_eq!(rt;
        rows_line(alloc, PLAIN_PROPERTIES, 0, PLAIN_ROWS)?.as_str(),
        PLAIN_SHOWN
    );
    Ok(())
}

const SCRIPT: &str = "{\"job\":\"snapshot\"}\n\n{\"job\":\"upsert\",\"rows\":[{}],\"lane\":2}\n\
    {\"job\":\"delete\",\"keys\":[{\"partition\":\"x\",\"key\":\"a\"}]}\n";

fn script(alloc: Global, bytes: &[u8]) -> Result<Script, Fail> {
    if bytes.len() > 67_108_864 {
        return Err("too long")?;
    }
    Ok(parse_script(alloc, bytes, 2).map_err(|_| "a script")?)
}

// What is printed where a table was made in a line, and each job of a script answers `time_over` then.
fn all_lines(alloc: Global, made: u32) -> Result<String, Fail> {
    let codec = codec(alloc, PROPERTIES)?;
    let mut out = Vec::new(alloc);
    put_made_text(alloc, &mut out, made)?;
    for phase in script(alloc, SCRIPT.as_bytes())?.phases.as_slice() {
        for job in phase.jobs.as_slice() {
            put_job_text(alloc, &mut out, &codec, job, &JobReply::TimeOver)?;
        }
    }
    Ok(String::from_utf8(out).map_err(|_| "a text")?)
}

#[test]
fn jobs_are_named(rt: HostRuntime) -> Result<(), Fail> {
    assert_eq!(rt;
        all_lines(rt.alloc(), 4_294_967_295)?.as_str(),
        "4294967295 init made\n1 snapshot time_over\n3 upsert time_over\n4 delete time_over\n"
    );
    Ok(())
}

// Marks as numbers, and their lines.
const MARKS: [((u32, u32, u8, u8, u64, u64), &str); 25] = [
    (
        (1, 2, 0, 0, 1_704_067_200_000, 0),
        "mark 1 2 begin began 1704067200000 0\n",
    ),
    ((1, 2, 1, 1, 1, 0), "mark 1 2 enter entered 1 0\n"),
    ((1, 2, 2, 2, 1, 0), "mark 1 2 append placed 1 0\n"),
    (
        (1, 2, 4, 4, 1_704_067_200_000, 0),
        "mark 1 2 finish completed 1704067200000 0\n",
    ),
    (
        (1, 3, 11, 9, 1_704_067_200_000, 1),
        "mark 1 3 pin pinned 1704067200000 1\n",
    ),
    ((1, 2, 11, 9, 0, 1), "mark 1 2 pin pinned 0 1\n"),
    ((1, 3, 13, 10, 0, 0), "mark 1 3 read bytes 0 0\n"),
    ((1, 3, 12, 18, 1, 0), "mark 1 3 unpin done 1 0\n"),
    ((1, 2, 2, 19, 0, 0), "mark 1 2 append fault 0 0\n"),
    (
        (1, 2, 14, 18, 1_704_067_200_000, 0),
        "mark 1 2 abandon done 1704067200000 0\n",
    ),
    ((1, 2, 0, 14, 0, 0), "mark 1 2 begin time_over 0 0\n"),
    ((1, 2, 11, 13, 7, 0), "mark 1 2 pin not_completed 7 0\n"),
    ((1, 2, 13, 20, 2, 0), "mark 1 2 read damaged 2 0\n"),
    ((0, 0, 8, 6, 9, 8), "mark 0 0 begin_rollback planned 9 8\n"),
    ((3, 4, 3, 3, 1, 2), "mark 3 4 create_base made_base 1 2\n"),
    ((3, 4, 10, 11, 1, 0), "mark 3 4 withdraw removed 1 0\n"),
    ((3, 4, 9, 11, 6, 0), "mark 3 4 remove removed 6 0\n"),
    (
        (2, 1, 4, 5, 1_704_067_200_001, 0),
        "mark 2 1 finish conflict 1704067200001 0\n",
    ),
    (
        (2, 1, 5, 8, 1_704_067_200_001, 0),
        "mark 2 1 plan_compaction taken 1704067200001 0\n",
    ),
    ((2, 1, 7, 7, 0, 0), "mark 2 1 plan_clean nothing 0 0\n"),
    (
        (2, 1, 11, 12, 1_704_067_200_000, 1_704_067_200_002),
        "mark 2 1 pin not_retained 1704067200000 1704067200002\n",
    ),
    (
        (2, 1, 6, 15, 0, 0),
        "mark 2 1 plan_cluster not_a_group 0 0\n",
    ),
    (
        (2, 1, 6, 17, 1_704_067_200_001, 0),
        "mark 2 1 plan_cluster busy 1704067200001 0\n",
    ),
    (
        (2, 1, 6, 16, 0, 0),
        "mark 2 1 plan_cluster too_narrow 0 0\n",
    ),
    (
        (
            4_294_967_295,
            4_294_967_295,
            255,
            21,
            18_446_744_073_709_551_615,
            18_446_744_073_709_551_615,
        ),
        "mark 4294967295 4294967295   18446744073709551615 18446744073709551615\n",
    ),
];

#[test]
fn marks_are_printed_by_name(rt: HostRuntime) -> Result<(), Fail> {
    let alloc = rt.alloc();
    for ((lane, line, step, reply, a, b), want) in MARKS {
        let mark = Mark {
            lane,
            line,
            step,
            reply,
            a,
            b,
        };
        let mut out = Vec::new(alloc);
        put_mark_text(alloc, &mut out, &mark)?;
        assert_eq!(rt; out.as_slice(), want.as_bytes());
    }
    Ok(())
}
