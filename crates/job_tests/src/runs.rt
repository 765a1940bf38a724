// What scripts print.
use crate::driving::{Open, fresh, put_journal, run};
use hudi_base::Sequence;
use std::alloc::{AllocError, Global};
use std::fmt::Write;
use std::test::*;

// The whole output of a script over a store of which one changing call may fail, leaving 50 bytes where it appends.
fn output_of(alloc: Global, script: &str, failing: Option<u64>) -> Result<String, Fail> {
    let mut calls = Sequence::new(alloc);
    if let Some(call) = failing {
        calls.push(call)?;
    }
    let (board, mut out) = run(alloc, fresh(alloc, calls, 50)?, script, &Open {})?;
    put_journal(alloc, &mut out, &board)?;
    Ok(String::from_utf8(out).map_err(|_| "a text")?)
}

// An upsert of key a, one of key b, and a snapshot.
const TWO_UPSERTS: &str =
    "{\"job\":\"upsert\",\"rows\":[{\"key\":\"a\",\"rank\":1,\"body\":\"one\"}]}
{\"job\":\"upsert\",\"rows\":[{\"key\":\"b\",\"rank\":1,\"body\":\"two\"}]}
{\"job\":\"snapshot\"}
";

// The append of the first upsert fails: its log has a torn block, so the next one begins another, the only one of which
// bytes are known.
const APPEND_FAILED: &str = "1 upsert fault
2 upsert committed 20240101000000001
3 snapshot rows 20240101000000001 [{\"_hoodie_commit_seqno\":\"20240101000000001_0_0\",\"_hoodie_commit_time\":\"20240101000000001\",\"body\":\"two\",\"key\":\"b\",\"rank\":1}]
mark 1 1 begin began 1704067200000 0
mark 1 1 enter entered 1 0
mark 1 1 append fault 0 0
mark 1 1 abandon done 1704067200000 0
mark 1 2 begin began 1704067200001 0
mark 1 2 enter entered 1 0
mark 1 2 append placed 2 0
mark 1 2 finish completed 1704067200001 0
mark 1 3 pin pinned 1704067200001 1
mark 1 3 read bytes 0 0
mark 1 3 unpin done 1 0
";

// The Finish of the first upsert fails: both blocks stand in one log, the first in 109 bytes.
const FINISH_FAILED: &str = "1 upsert fault
2 upsert committed 20240101000000001
3 snapshot rows 20240101000000001 [{\"_hoodie_commit_seqno\":\"20240101000000001_0_0\",\"_hoodie_commit_time\":\"20240101000000001\",\"body\":\"two\",\"key\":\"b\",\"rank\":1}]
mark 1 1 begin began 1704067200000 0
mark 1 1 enter entered 1 0
mark 1 1 append placed 1 0
mark 1 1 finish fault 0 0
mark 1 1 abandon done 1704067200000 0
mark 1 2 begin began 1704067200001 0
mark 1 2 enter entered 1 0
mark 1 2 append placed 1 109
mark 1 2 finish completed 1704067200001 0
mark 1 3 pin pinned 1704067200001 1
mark 1 3 read bytes 0 0
mark 1 3 unpin done 1 0
";

#[test]
fn a_failed_append_and_a_failed_finish_leave_the_next_upsert_alone(
    rt: HostRuntime,
) -> Result<(), Fail> {
    let alloc = rt.alloc();
    assert_eq!(rt;
        output_of(alloc, TWO_UPSERTS, Some(2))?.as_str(),
        APPEND_FAILED
    );
    assert_eq!(rt;
        output_of(alloc, TWO_UPSERTS, Some(3))?.as_str(),
        FINISH_FAILED
    );
    Ok(())
}

// Snapshots before, between and after upserts. Of two rows of a key the one of the greater rank stays, and at equal
// ranks the later.
const BETWEEN: &str = "{\"job\":\"snapshot\"}
{\"job\":\"upsert\",\"rows\":[{\"key\":\"a\",\"rank\":5,\"body\":\"one\"},{\"key\":\"b\",\"rank\":1,\"body\":\"two\"}]}
{\"job\":\"snapshot\"}

{\"job\":\"upsert\",\"rows\":[{\"key\":\"a\",\"rank\":3,\"body\":\"no\"},{\"key\":\"b\",\"rank\":1,\"body\":\"new\"}]}
{\"job\":\"snapshot\"}
";

const BETWEEN_OUTPUT: &str = "1 snapshot rows none []
2 upsert committed 20240101000000000
3 snapshot rows 20240101000000000 [{\"_hoodie_commit_seqno\":\"20240101000000000_0_0\",\"_hoodie_commit_time\":\"20240101000000000\",\"body\":\"one\",\"key\":\"a\",\"rank\":5},{\"_hoodie_commit_seqno\":\"20240101000000000_0_1\",\"_hoodie_commit_time\":\"20240101000000000\",\"body\":\"two\",\"key\":\"b\",\"rank\":1}]
5 upsert committed 20240101000000001
6 snapshot rows 20240101000000001 [{\"_hoodie_commit_seqno\":\"20240101000000000_0_0\",\"_hoodie_commit_time\":\"20240101000000000\",\"body\":\"one\",\"key\":\"a\",\"rank\":5},{\"_hoodie_commit_seqno\":\"20240101000000001_0_1\",\"_hoodie_commit_time\":\"20240101000000001\",\"body\":\"new\",\"key\":\"b\",\"rank\":1}]
mark 1 1 pin pinned 0 1
mark 1 1 unpin done 1 0
mark 1 2 begin began 1704067200000 0
mark 1 2 enter entered 1 0
mark 1 2 append placed 1 0
mark 1 2 finish completed 1704067200000 0
mark 1 3 pin pinned 1704067200000 2
mark 1 3 read bytes 0 0
mark 1 3 unpin done 2 0
mark 1 5 begin began 1704067200001 0
mark 1 5 enter entered 1 0
mark 1 5 append placed 1 129
mark 1 5 finish completed 1704067200001 0
mark 1 6 pin pinned 1704067200001 3
mark 1 6 read bytes 0 0
mark 1 6 unpin done 3 0
";

#[test]
fn snapshots_are_what_is_committed_where_they_stand(rt: HostRuntime) -> Result<(), Fail> {
    let alloc = rt.alloc();
    assert_eq!(rt; output_of(alloc, BETWEEN, None)?.as_str(), BETWEEN_OUTPUT);
    assert_eq!(rt; output_of(alloc, "", None)?.as_str(), "");
    Ok(())
}

// An upsert of so many rows with a body of 65,536 bytes each, and a snapshot.
fn long_script(alloc: Global, rows: u32) -> Result<String, AllocError> {
    let mut body = String::new(alloc);
    for _ in 0..65_536u32 {
        body.push('k')?;
    }
    let mut out = String::from_str(alloc, "{\"job\":\"upsert\",\"rows\":[")?;
    for row in 0..rows {
        if row > 0 {
            out.push(',')?;
        }
        out.push_str("{\"key\":\"")?;
        write!(out, "{row}")?;
        out.push_str("\",\"rank\":0,\"body\":\"")?;
        out.push_str(body.as_str())?;
        out.push_str("\"}")?;
    }
    out.push_str("]}\n{\"job\":\"snapshot\"}\n")?;
    Ok(out)
}

// The journal of such a script: the log is read in two pieces.
const LONG_JOURNAL: &str = "mark 1 1 begin began 1704067200000 0
mark 1 1 enter entered 1 0
mark 1 1 append placed 1 0
mark 1 1 finish completed 1704067200000 0
mark 1 2 pin pinned 1704067200000 1
mark 1 2 read bytes 0 0
mark 1 2 read bytes 0 16777216
mark 1 2 unpin done 1 0
";

#[test]
fn a_long_log_is_read_in_pieces(rt: HostRuntime) -> Result<(), Fail> {
    let alloc = rt.alloc();
    let script = long_script(alloc, 300)?;
    let (board, text) = run(
        alloc,
        fresh(alloc, Sequence::new(alloc), 0)?,
        script.as_str(),
        &Open {},
    )?;
    // Two lines of 37 bytes without rows, 299 commas, and 300 rows of 117 bytes besides the body and the digits of key
    // and place: 10 of one digit, 90 of two and 200 of three.
    let rows = 300 * (117 + 65_536) + 2 * (10 + 90 * 2 + 200 * 3);
    assert_eq!(rt; text.len(), 37 + 37 + 299 + rows);
    let mut journal = Vec::new(alloc);
    put_journal(alloc, &mut journal, &board)?;
    assert_eq!(rt; journal.as_slice(), LONG_JOURNAL.as_bytes());
    Ok(())
}
