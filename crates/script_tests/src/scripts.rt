// Scripts: the jobs that are read from them, or the number of the line that is none.
use hudi_base::Sequence;
use job_script::{InputRow, Line, ScriptError, ScriptJob, parse_script};
use std::alloc::Global;
use std::fmt::Write;
use std::test::*;

// Scripts, and the jobs that they are, with key, rank and body of each row; or the number of the first bad line.
const SCRIPTS: [(&str, &str); 51] = [
    ("", ""),
    ("\n\r\n\n", ""),
    ("{\"job\":\"snapshot\"}", "1 snapshot;"),
    // Jobs in any order; empty lines count, and lines end with or without a carriage return.
    (
        "{\"job\":\"snapshot\"}\n\n{\"job\":\"upsert\",\"rows\":[{\"key\":\"a\",\"rank\":5,\"body\":\"one\"},{\"key\":\"b\",\"rank\":-1,\"body\":\"\"}]}\r\n\r\n{\"job\":\"snapshot\"}\r\n{\"job\":\"snapshot\"}\n\n",
        "1 snapshot;3 upsert a@5=one b@-1=;5 snapshot;6 snapshot;",
    ),
    // Members in any order, space anywhere, escapes, and the last of a repeated member.
    (
        "\t{ \"rows\" : [ { \"rank\" : 0 , \"body\" : \"\\u0041\\n\" , \"key\" : \"\\\"\" } ] , \"job\" : \"upsert\" } ",
        "1 upsert \"@0=A\n;",
    ),
    ("{\"job\":\"upsert\",\"job\":\"snapshot\"}", "1 snapshot;"),
    (
        "{\"job\":\"upsert\",\"rows\":[{\"key\":\"a\",\"rank\":1,\"body\":\"x\",\"key\":\"b\"}]}",
        "1 upsert b@1=x;",
    ),
    ("{\"job\":\"snapshot\",\"job\":\"upsert\"}", "bad 1"),
    // A carriage return that no line feed follows is space behind the value, and so is one in front of it.
    ("{\"job\":\"snapshot\"}\r", "1 snapshot;"),
    ("\r{\"job\":\"snapshot\"}", "1 snapshot;"),
    ("{\"job\":\"snapshot\"}\r\r\n", "1 snapshot;"),
    ("{\"job\":\"snap\rshot\"}", "bad 1"),
    ("\r\r\n", "bad 1"),
    // Lines of blanks, and bytes that JSON doesn't have.
    ("{\"job\":\"snapshot\"}\n \n", "bad 2"),
    ("{\"job\":\"snapshot\"}\0", "bad 1"),
    ("{\"job\":\"snapshot\0\"}", "bad 1"),
    ("\0\n", "bad 1"),
    ("\u{feff}{\"job\":\"snapshot\"}", "bad 1"),
    // The first bad line counts, also behind good ones and before worse ones.
    (
        "\n\n{\"job\":\"snapshot\"}\n\n{\"job\":\"snapshot\"\n{",
        "bad 5",
    ),
    // Values that are no job.
    ("null", "bad 1"),
    ("[]", "bad 1"),
    ("\"snapshot\"", "bad 1"),
    ("{}", "bad 1"),
    ("{\"job\":null}", "bad 1"),
    ("{\"job\":\"Snapshot\"}", "bad 1"),
    ("{\"job\":\"snapshot\",\"at\":null}", "bad 1"),
    ("{\"job\":\"snapshot\"}{\"job\":\"snapshot\"}", "bad 1"),
    ("{\"job\":\"snapshot\"},", "bad 1"),
    ("{'job':'snapshot'}", "bad 1"),
    ("{\"job\":\"init\",\"rows\":[]}", "bad 1"),
    ("{\"job\":\"upsert\"}", "bad 1"),
    ("{\"job\":\"upsert\",\"rows\":[]}", "bad 1"),
    ("{\"job\":\"upsert\",\"rows\":{}}", "bad 1"),
    ("{\"job\":\"upsert\",\"rows\":[null]}", "bad 1"),
    ("{\"job\":\"upsert\",\"rows\":[{}]}", "bad 1"),
    // Rows with a member too few, one too many, or one of another type; the last row counts as the first does.
    (
        "{\"job\":\"upsert\",\"rows\":[{\"key\":\"a\",\"rank\":1}]}",
        "bad 1",
    ),
    (
        "{\"job\":\"upsert\",\"rows\":[{\"key\":\"a\",\"rank\":1,\"body\":\"\",\"x\":0}]}",
        "bad 1",
    ),
    (
        "{\"job\":\"upsert\",\"rows\":[{\"key\":\"\",\"rank\":1,\"body\":\"\"}]}",
        "bad 1",
    ),
    (
        "{\"job\":\"upsert\",\"rows\":[{\"key\":1,\"rank\":1,\"body\":\"\"}]}",
        "bad 1",
    ),
    (
        "{\"job\":\"upsert\",\"rows\":[{\"key\":\"a\",\"rank\":\"1\",\"body\":\"\"}]}",
        "bad 1",
    ),
    (
        "{\"job\":\"upsert\",\"rows\":[{\"key\":\"a\",\"rank\":1,\"body\":null}]}",
        "bad 1",
    ),
    (
        "{\"job\":\"upsert\",\"rows\":[{\"key\":\"a\",\"rank\":1,\"body\":\"\"},{\"key\":\"a\",\"rank\":1.5,\"body\":\"\"}]}",
        "bad 1",
    ),
    // Ranks at their ends and past them, and ways to write a number that isn't whole.
    (
        "{\"job\":\"upsert\",\"rows\":[{\"key\":\"a\",\"rank\":9223372036854775807,\"body\":\"\"},{\"key\":\"a\",\"rank\":-9223372036854775808,\"body\":\"\"}]}",
        "1 upsert a@9223372036854775807= a@-9223372036854775808=;",
    ),
    (
        "{\"job\":\"upsert\",\"rows\":[{\"key\":\"a\",\"rank\":9223372036854775808,\"body\":\"\"}]}",
        "bad 1",
    ),
    (
        "{\"job\":\"upsert\",\"rows\":[{\"key\":\"a\",\"rank\":-9223372036854775809,\"body\":\"\"}]}",
        "bad 1",
    ),
    (
        "{\"job\":\"upsert\",\"rows\":[{\"key\":\"a\",\"rank\":1.0,\"body\":\"\"}]}",
        "bad 1",
    ),
    (
        "{\"job\":\"upsert\",\"rows\":[{\"key\":\"a\",\"rank\":1e2,\"body\":\"\"}]}",
        "bad 1",
    ),
    (
        "{\"job\":\"upsert\",\"rows\":[{\"key\":\"a\",\"rank\":-0,\"body\":\"\"}]}",
        "bad 1",
    ),
    (
        "{\"job\":\"upsert\",\"rows\":[{\"key\":\"a\",\"rank\":01,\"body\":\"\"}]}",
        "bad 1",
    ),
    // Halves of a code point: one alone is no text, and two are one.
    (
        "{\"job\":\"upsert\",\"rows\":[{\"key\":\"\\ud83d\",\"rank\":1,\"body\":\"\"}]}",
        "bad 1",
    ),
    (
        "{\"job\":\"upsert\",\"rows\":[{\"key\":\"\\ud83d\\ude00\",\"rank\":1,\"body\":\"\"}]}",
        "1 upsert 😀@1=;",
    ),
];

fn push_row(out: &mut String, row: &InputRow) -> Result<(), Fail> {
    let key = std::str::from_utf8(row.key.as_slice()).map_err(|_| "a text")?;
    let body = std::str::from_utf8(row.body.as_slice()).map_err(|_| "a text")?;
    let rank = row.rank;
    write!(out, " {key}@{rank}={body}")?;
    Ok(())
}

fn push_job(out: &mut String, job: &ScriptJob) -> Result<(), Fail> {
    let number = job.number;
    match &job.line {
        Line::Snapshot => write!(out, "{number} snapshot")?,
        Line::Upsert(rows) => {
            write!(out, "{number} upsert")?;
            for row in rows.as_slice() {
                push_row(out, row)?;
            }
        }
    }
    out.push(';')?;
    Ok(())
}

fn parsed(alloc: Global, bytes: &[u8]) -> Result<Sequence<ScriptJob>, ScriptError> {
    if bytes.len() > 67_108_864 {
        return Err(ScriptError::BadLine(0));
    }
    parse_script(alloc, bytes)
}

// What is read from bytes.
fn said(alloc: Global, bytes: &[u8]) -> Result<String, Fail> {
    let mut out = String::new(alloc);
    match parsed(alloc, bytes) {
        Ok(jobs) => {
            for job in jobs.as_slice() {
                push_job(&mut out, job)?;
            }
        }
        Err(ScriptError::BadLine(number)) => write!(out, "bad {number}")?,
        Err(ScriptError::Memory) => out.push_str("memory")?,
    }
    Ok(out)
}

// The first script from which something else is read.
fn script_misread(alloc: Global, scripts: &[(&str, &str)]) -> Result<Option<usize>, Fail> {
    for (script, (text, want)) in scripts.iter().enumerate() {
        let said = said(alloc, text.as_bytes())?;
        if said.as_str() != *want {
            return Ok(Some(script));
        }
    }
    Ok(None)
}

#[test]
fn scripts_are_read_or_refused_at_their_first_bad_line(rt: HostRuntime) -> Result<(), Fail> {
    assert_eq!(rt; script_misread(rt.alloc(), &SCRIPTS)?, None);
    Ok(())
}

// Bytes that are no UTF-8: alone, in a text, and cut off at the end; a byte that only begins a code point, one that
// only goes on, a code point that is written too long, half of one of two parts, and one past the last.
const NO_TEXTS: [&[u8]; 7] = [
    b"\xff",
    b"{\"job\":\"snapshot\xc3\"}",
    b"{\"job\":\"snapshot\"}\xe2\x82",
    b"{\"job\":\"upsert\",\"rows\":[{\"key\":\"\x80\",\"rank\":1,\"body\":\"\"}]}",
    b"{\"job\":\"upsert\",\"rows\":[{\"key\":\"\xc0\xaf\",\"rank\":1,\"body\":\"\"}]}",
    b"{\"job\":\"upsert\",\"rows\":[{\"key\":\"\xed\xa0\x80\",\"rank\":1,\"body\":\"\"}]}",
    b"{\"job\":\"upsert\",\"rows\":[{\"key\":\"a\",\"rank\":1,\"body\":\"\xf4\x90\x80\x80\"}]}",
];

#[test]
fn lines_that_are_no_text_are_bad(rt: HostRuntime) -> Result<(), Fail> {
    let alloc = rt.alloc();
    for bytes in NO_TEXTS {
        assert_eq!(rt; said(alloc, bytes)?.as_str(), "bad 1");
    }
    Ok(())
}

fn push_letters(out: &mut String, count: usize) -> Result<(), Fail> {
    for _ in 0..count {
        out.push('k')?;
    }
    Ok(())
}

// An upsert of so many rows, each with a key and a body of so many letters.
fn upsert(alloc: Global, (rows, key, body): (usize, usize, usize)) -> Result<String, Fail> {
    let mut out = String::new(alloc);
    out.push_str("{\"job\":\"upsert\",\"rows\":[")?;
    for row in 0..rows {
        if row > 0 {
            out.push(',')?;
        }
        out.push_str("{\"key\":\"")?;
        push_letters(&mut out, key)?;
        out.push_str("\",\"rank\":0,\"body\":\"")?;
        push_letters(&mut out, body)?;
        out.push_str("\"}")?;
    }
    out.push_str("]}")?;
    Ok(out)
}

// Whether an upsert of so many rows, with keys and bodies of so many bytes, is in the language.
const SIZES: [((usize, usize, usize), bool); 7] = [
    ((1, 1, 0), true),
    ((1, 1000, 0), true),
    ((1, 1001, 0), false),
    ((1, 1, 65_536), true),
    ((1, 1, 65_537), false),
    ((100_000, 1, 0), true),
    ((100_001, 1, 0), false),
];

#[test]
fn keys_bodies_and_batches_have_their_limits(rt: HostRuntime) -> Result<(), Fail> {
    let alloc = rt.alloc();
    for (sizes, is_good) in SIZES {
        let line = upsert(alloc, sizes)?;
        assert_eq!(rt; parsed(alloc, line.as_str().as_bytes()).is_ok(), is_good);
    }
    Ok(())
}

// A row whose body is this many arrays, one in another.
fn nested(alloc: Global, depth: usize) -> Result<String, Fail> {
    let mut out = String::new(alloc);
    for _ in 0..depth {
        out.push('[')?;
    }
    for _ in 0..depth {
        out.push(']')?;
    }
    Ok(out)
}

#[test]
fn deep_nesting_is_bad_and_harms_nothing(rt: HostRuntime) -> Result<(), Fail> {
    let alloc = rt.alloc();
    for depth in [127, 128, 1_000_000] {
        let line = nested(alloc, depth)?;
        assert_eq!(rt; said(alloc, line.as_str().as_bytes())?.as_str(), "bad 1");
    }
    Ok(())
}
