// Each call of the store that changes something, failing in turn.
use crate::driving::{Open, fresh, run};
use hudi_base::Sequence;
use std::alloc::Global;
use std::fmt::Write;
use std::test::*;

// Three upserts, a snapshot after the second and one at the end. Each upsert makes four calls: it creates a file at its
// Begin and at its Enter, appends a block, and creates a file at its Finish.
const SCRIPT: &str = "{\"job\":\"upsert\",\"rows\":[{\"key\":\"a\",\"rank\":1,\"body\":\"one\"}]}
{\"job\":\"upsert\",\"rows\":[{\"key\":\"b\",\"rank\":1,\"body\":\"two\"}]}
{\"job\":\"snapshot\"}
{\"job\":\"upsert\",\"rows\":[{\"key\":\"a\",\"rank\":2,\"body\":\"new\"}]}
{\"job\":\"snapshot\"}
";

/// A row of the script, by its upsert, and the time of that upsert in milliseconds after the first.
type Shown = (&'static str, u32);

/// What comes where one of the calls of these numbers fails: the times at which the three upserts commit, and the rows
/// of the two snapshots.
struct Outcome {
    calls: (u64, u64),
    times: [Option<u32>; 3],
    between: &'static [Shown],
    last: &'static [Shown],
}

const ONE: &str = "\"body\":\"one\",\"key\":\"a\",\"rank\":1";

const TWO: &str = "\"body\":\"two\",\"key\":\"b\",\"rank\":1";

const NEW: &str = "\"body\":\"new\",\"key\":\"a\",\"rank\":2";

// An upsert whose Begin fails draws no time, so the next one has its time; one that fails later keeps it.
const OUTCOMES: [Outcome; 6] = [
    Outcome {
        calls: (0, 0),
        times: [None, Some(0), Some(1)],
        between: &[(TWO, 0)],
        last: &[(NEW, 1), (TWO, 0)],
    },
    Outcome {
        calls: (1, 3),
        times: [None, Some(1), Some(2)],
        between: &[(TWO, 1)],
        last: &[(NEW, 2), (TWO, 1)],
    },
    Outcome {
        calls: (4, 4),
        times: [Some(0), None, Some(1)],
        between: &[(ONE, 0)],
        last: &[(NEW, 1)],
    },
    Outcome {
        calls: (5, 7),
        times: [Some(0), None, Some(2)],
        between: &[(ONE, 0)],
        last: &[(NEW, 2)],
    },
    Outcome {
        calls: (8, 11),
        times: [Some(0), Some(1), None],
        between: &[(ONE, 0), (TWO, 1)],
        last: &[(ONE, 0), (TWO, 1)],
    },
    // No call has this number.
    Outcome {
        calls: (12, 12),
        times: [Some(0), Some(1), Some(2)],
        between: &[(ONE, 0), (TWO, 1)],
        last: &[(NEW, 2), (TWO, 1)],
    },
];

fn push_upsert(out: &mut String, line: u32, time: Option<u32>) -> Result<(), Fail> {
    match time {
        Some(ms) => writeln!(out, "{line} upsert committed 2024010100000000{ms}")?,
        None => writeln!(out, "{line} upsert fault")?,
    }
    Ok(())
}

fn push_row(out: &mut String, (fields, ms): Shown) -> Result<(), Fail> {
    write!(
        out,
        "{{\"_hoodie_commit_seqno\":\"2024010100000000{ms}_0_0\","
    )?;
    write!(
        out,
        "\"_hoodie_commit_time\":\"2024010100000000{ms}\",{fields}}}"
    )?;
    Ok(())
}

fn push_snapshot(out: &mut String, line: u32, rows: &[Shown], ms: u32) -> Result<(), Fail> {
    write!(out, "{line} snapshot rows 2024010100000000{ms} [")?;
    for (place, row) in rows.iter().enumerate() {
        if place > 0 {
            out.push(',')?;
        }
        push_row(out, *row)?;
    }
    out.push_str("]\n")?;
    Ok(())
}

// The latest of the times, of which one is there.
fn latest(times: &[Option<u32>]) -> u32 {
    let mut latest = 0;
    for time in times {
        latest = time.unwrap_or(latest);
    }
    latest
}

// The job lines of an outcome.
fn job_lines(alloc: Global, outcome: &Outcome) -> Result<String, Fail> {
    let [first, second, third] = outcome.times;
    let mut out = String::new(alloc);
    push_upsert(&mut out, 1, first)?;
    push_upsert(&mut out, 2, second)?;
    push_snapshot(&mut out, 3, outcome.between, latest(&[first, second]))?;
    push_upsert(&mut out, 4, third)?;
    push_snapshot(&mut out, 5, outcome.last, latest(&outcome.times))?;
    Ok(out)
}

// Whether a run in which this call fails, leaving so many bytes where it appends, prints these job lines.
fn prints(alloc: Global, call: u64, prefix: u64, want: &str) -> Result<bool, Fail> {
    let failing = Sequence::from_vec(vec![in alloc; call]?);
    let (_board, text) = run(alloc, fresh(alloc, failing, prefix)?, SCRIPT, &Open {})?;
    Ok(text.as_slice() == want.as_bytes())
}

// The first call and prefix after which something else is printed.
fn misprinted(alloc: Global, outcome: &Outcome) -> Result<Option<(u64, u64)>, Fail> {
    let want = job_lines(alloc, outcome)?;
    let (first, last) = outcome.calls;
    for call in first..=last {
        for prefix in [0, 13, 50] {
            if !prints(alloc, call, prefix, want.as_str())? {
                return Ok(Some((call, prefix)));
            }
        }
    }
    Ok(None)
}

#[test]
fn whichever_call_fails_one_upsert_is_missing(rt: HostRuntime) -> Result<(), Fail> {
    let alloc = rt.alloc();
    for outcome in &OUTCOMES {
        assert_eq!(rt; misprinted(alloc, outcome)?, None);
    }
    Ok(())
}
