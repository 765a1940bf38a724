// Scripts of every job: the jobs that are read from them, or the number of the line that is none and its cause.
use script_jobs::{Job, LineCause, LineError, Script, What, parse_script};
use std::alloc::Global;
use std::fmt::Write;
use std::test::*;
use table_jobs::DelKey;
use table_props::Props;

// A flat schema of three fields.
const SCHEMA: &str =
    "{\"type\":\"record\",\"name\":\"r\",\"fields\":[{\"name\":\"id\",\"type\":\"string\"},{\"name\":\"p\",\"type\":\"string\"},{\"name\":\"v\",\"type\":\"long\"}]}";

// The members of an `init` with this schema, these fields and this many buckets.
fn init(alloc: Global, schema: &str, rest: &str) -> Result<String, Fail> {
    Ok(format!(in alloc; "{{\"job\":\"init\",\"name\":\"t\",\"schema\":{schema}{rest}}}")?)
}

// What stands behind the schema of an `init`, and what is read from it.
const INITS: [(&str, &str); 17] = [
    (
        ",\"key\":\"id\",\"partition\":\"p\",\"ordering\":null,\"buckets\":1",
        "1.1 init t 0 1 - 1;",
    ),
    (
        ",\"key\":\"p\",\"partition\":\"p\",\"ordering\":\"v\",\"buckets\":1024",
        "1.1 init t 1 1 2 1024;",
    ),
    ("", "bad 1 field key"),
    (
        ",\"key\":\"v\",\"partition\":\"x\",\"ordering\":1,\"buckets\":0",
        "bad 1 field key",
    ),
    (
        ",\"key\":\"id\",\"ordering\":1,\"buckets\":0",
        "bad 1 field partition",
    ),
    (
        ",\"key\":\"id\",\"partition\":null,\"ordering\":null,\"buckets\":1",
        "bad 1 field partition",
    ),
    (
        ",\"key\":\"id\",\"partition\":\"p\",\"buckets\":1",
        "bad 1 field ordering",
    ),
    (
        ",\"key\":\"id\",\"partition\":\"p\",\"ordering\":\"id\",\"buckets\":0",
        "bad 1 field ordering",
    ),
    (
        ",\"key\":\"id\",\"partition\":\"p\",\"ordering\":\"w\",\"buckets\":1",
        "bad 1 field ordering",
    ),
    (
        ",\"key\":\"id\",\"partition\":\"p\",\"ordering\":null,\"a\":1",
        "bad 1 field buckets",
    ),
    (
        ",\"key\":\"id\",\"partition\":\"p\",\"ordering\":null,\"buckets\":0",
        "bad 1 field buckets",
    ),
    (
        ",\"key\":\"id\",\"partition\":\"p\",\"ordering\":null,\"buckets\":1025",
        "bad 1 field buckets",
    ),
    (
        ",\"key\":\"id\",\"partition\":\"p\",\"ordering\":null,\"buckets\":1.0",
        "bad 1 field buckets",
    ),
    // The first unknown member in byte order, and a lane before all others.
    (
        ",\"key\":\"id\",\"partition\":\"p\",\"ordering\":null,\"buckets\":1,\"b\":0,\"Z\":0",
        "bad 1 field Z",
    ),
    (",\"key\":\"w\",\"lane\":1", "bad 1 field lane"),
    // The last of a repeated member counts.
    (
        ",\"name\":\"\",\"key\":\"id\",\"partition\":\"p\",\"ordering\":null,\"buckets\":1",
        "bad 1 field name",
    ),
    (",\"schema\":\"float\",\"key\":\"w\"", "bad 1 field schema"),
];

// Schemas that are none of a table: not flat, not by the grammar, and with a name that is kept.
const BAD_SCHEMAS: [&str; 6] = [
    "\"string\"",
    "{\"type\":\"record\",\"name\":\"r\",\"fields\":[{\"name\":\"id\",\"type\":\"double\"}]}",
    "{\"type\":\"record\",\"name\":\"r\",\"fields\":[{\"name\":\"id\",\"type\":[\"string\",\"null\"]}]}",
    "{\"type\":\"record\",\"name\":\"r\",\"fields\":[{\"name\":\"id\",\"type\":{\"type\":\"array\",\"items\":\"int\"}}]}",
    "{\"type\":\"record\",\"name\":\"r\",\"fields\":[{\"name\":\"_hoodie_x\",\"type\":\"string\"}]}",
    "null",
];

// Scripts with two lanes, and the jobs that they are, each with its line and lane; or the first bad line and its cause.
const SCRIPTS: [(&str, &str); 62] = [
    ("", ""),
    ("\n\r\n\n", ""),
    ("{\"job\":\"snapshot\"", "bad 1 json"),
    ("\n\r\n{\"job\":\"snapshot\"}\r\n{", "bad 4 json"),
    (" ", "bad 1 json"),
    ("\0", "bad 1 json"),
    ("{\"job\":\"snap\rshot\"}", "bad 1 json"),
    ("[]", "bad 1 object"),
    ("null", "bad 1 object"),
    ("\"snapshot\"", "bad 1 object"),
    ("{}", "bad 1 field job"),
    ("{\"job\":\"snap\"}", "bad 1 field job"),
    ("{\"job\":\"Snapshot\"}", "bad 1 field job"),
    ("{\"job\":null,\"lane\":0}", "bad 1 field job"),
    ("{\"job\":\"barrier\"}", "bad 1 field job"),
    ("{\"job\":\"compact\"}", "bad 1 field job"),
    // Lanes.
    (
        "{\"job\":\"snapshot\",\"lane\":2}\n{\"job\":\"snapshot\",\"lane\":1}",
        "1.2 snapshot -;2.1 snapshot -;",
    ),
    ("{\"job\":\"snapshot\",\"lane\":0}", "bad 1 field lane"),
    (
        "{\"job\":\"upsert\",\"lane\":3,\"rows\":[]}",
        "bad 1 field lane",
    ),
    (
        "{\"job\":\"snapshot\",\"at\":1,\"lane\":null}",
        "bad 1 field lane",
    ),
    ("{\"job\":\"snapshot\",\"lane\":1.0}", "bad 1 field lane"),
    ("{\"job\":\"snapshot\",\"lane\":\"1\"}", "bad 1 field lane"),
    (
        "{\"job\":\"snapshot\",\"lane\":4294967297}",
        "bad 1 field lane",
    ),
    // Times.
    (
        "{\"job\":\"snapshot\",\"at\":\"20240101000000000\"}",
        "1.1 snapshot 1704067200000;",
    ),
    (
        "{\"job\":\"snapshot\",\"at\":\"99991231235959999\"}",
        "1.1 snapshot 253402300799999;",
    ),
    (
        "{\"job\":\"snapshot\",\"at\":\"19991231235959999\"}",
        "bad 1 field at",
    ),
    (
        "{\"job\":\"snapshot\",\"at\":\"2024010100000000\",\"b\":1}",
        "bad 1 field at",
    ),
    ("{\"job\":\"snapshot\",\"at\":null}", "bad 1 field at"),
    (
        "{\"job\":\"snapshot\",\"at\":20240101000000000}",
        "bad 1 field at",
    ),
    (
        "{\"job\":\"snapshot\",\"rows\":[],\"keys\":[]}",
        "bad 1 field keys",
    ),
    // Rows stay JSON.
    (
        "{\"job\":\"upsert\",\"rows\":[{}]}\n\n{\"rows\":[{\"b\":[1,null],\"a\":\"\\u0041\"},{\"v\":1e2}],\"job\":\"upsert\"}",
        "1.1 upsert {};3.1 upsert {\"a\":\"A\",\"b\":[1,null]} {\"v\":100.0};",
    ),
    ("{\"job\":\"upsert\"}", "bad 1 field rows"),
    ("{\"job\":\"upsert\",\"rows\":[]}", "bad 1 field rows"),
    ("{\"job\":\"upsert\",\"rows\":{}}", "bad 1 field rows"),
    ("{\"job\":\"upsert\",\"rows\":[{},[]]}", "bad 1 field rows"),
    (
        "{\"job\":\"upsert\",\"rows\":[null],\"a\":1}",
        "bad 1 field rows",
    ),
    (
        "{\"job\":\"upsert\",\"rows\":[{}],\"keys\":[],\"at\":null}",
        "bad 1 field at",
    ),
    ("{\"job\":\"upsert\",\"rows\":[{}],\"\":0}", "bad 1 field "),
    (
        "{\"job\":\"upsert\",\"rows\":[{}],\"é\\n\":0}",
        "bad 1 field é\n",
    ),
    // Keys.
    (
        "{\"job\":\"delete\",\"keys\":[{\"partition\":\"x\",\"key\":\"a\",\"rank\":3},{\"key\":\"\",\"partition\":\".\"}]}",
        "1.1 delete x/a@3 ./@-;",
    ),
    (
        "{\"job\":\"delete\",\"keys\":[{\"partition\":\"\",\"key\":\"é\",\"rank\":-9223372036854775808}]}",
        "1.1 delete /é@-9223372036854775808;",
    ),
    ("{\"job\":\"delete\"}", "bad 1 field keys"),
    ("{\"job\":\"delete\",\"keys\":[]}", "bad 1 field keys"),
    ("{\"job\":\"delete\",\"keys\":[[]]}", "bad 1 field keys"),
    (
        "{\"job\":\"delete\",\"keys\":[{\"partition\":\"x\"}]}",
        "bad 1 field keys",
    ),
    (
        "{\"job\":\"delete\",\"keys\":[{\"key\":\"x\"}]}",
        "bad 1 field keys",
    ),
    (
        "{\"job\":\"delete\",\"keys\":[{\"partition\":\"x\",\"key\":1}]}",
        "bad 1 field keys",
    ),
    (
        "{\"job\":\"delete\",\"keys\":[{\"partition\":\"x\",\"key\":\"a\",\"rank\":null}]}",
        "bad 1 field keys",
    ),
    (
        "{\"job\":\"delete\",\"keys\":[{\"partition\":\"x\",\"key\":\"a\",\"rank\":1.0}]}",
        "bad 1 field keys",
    ),
    (
        "{\"job\":\"delete\",\"keys\":[{\"partition\":\"x\",\"key\":\"a\",\"rank\":-0}]}",
        "bad 1 field keys",
    ),
    (
        "{\"job\":\"delete\",\"keys\":[{\"partition\":\"x\",\"key\":\"a\",\"rank\":9223372036854775808}]}",
        "bad 1 field keys",
    ),
    (
        "{\"job\":\"delete\",\"keys\":[{\"partition\":\"x\",\"key\":\"a\",\"seq\":1}]}",
        "bad 1 field keys",
    ),
    (
        "{\"job\":\"delete\",\"keys\":[{\"partition\":\"x\",\"key\":\"a\"}],\"rows\":[]}",
        "bad 1 field rows",
    ),
    // The last of a repeated member.
    (
        "{\"job\":\"upsert\",\"job\":\"snapshot\"}",
        "1.1 snapshot -;",
    ),
    (
        "{\"job\":\"snapshot\",\"job\":\"upsert\"}",
        "bad 1 field rows",
    ),
    // Space anywhere, and carriage returns.
    (
        "\t{ \"job\" : \"snapshot\" } \r\r\n{\"job\":\"snapshot\"}\r",
        "1.1 snapshot -;2.1 snapshot -;",
    ),
    // An `init` elsewhere is wrong in its members first.
    (
        "{\"job\":\"snapshot\"}\n{\"job\":\"init\"}",
        "bad 2 field name",
    ),
    ("{\"job\":\"init\",\"name\":\"a/b\"}", "bad 1 field name"),
    ("{\"job\":\"init\",\"name\":\"\"}", "bad 1 field name"),
    ("{\"job\":\"init\",\"name\":1}", "bad 1 field name"),
    ("{\"job\":\"init\",\"name\":\"t\"}", "bad 1 field schema"),
    (
        "{\"job\":\"init\",\"name\":\"t\",\"schema\":\"float\"}",
        "bad 1 field schema",
    ),
];

fn push_props(out: &mut String, props: &Props) -> Result<(), Fail> {
    let (name, key, partition, buckets) = (
        props.name.as_str(),
        props.key,
        props.partition,
        props.buckets,
    );
    write!(out, " init {name} {key} {partition} ")?;
    match props.ordering {
        Some(place) => write!(out, "{place}")?,
        None => out.push('-')?,
    }
    write!(out, " {buckets}")?;
    Ok(())
}

fn push_key(out: &mut String, key: &DelKey) -> Result<(), Fail> {
    let partition = key.partition.as_str();
    let text = std::str::from_utf8(key.key.as_slice()).map_err(|_| "a text")?;
    write!(out, " {partition}/{text}@")?;
    match key.rank {
        Some(rank) => write!(out, "{rank}")?,
        None => out.push('-')?,
    }
    Ok(())
}

fn push_what(alloc: Global, out: &mut String, what: &What) -> Result<(), Fail> {
    match what {
        What::Init(props) => push_props(out, props)?,
        What::Upsert { rows } => {
            out.push_str(" upsert")?;
            for row in rows.as_slice() {
                out.push(' ')?;
                out.push_str(row.to_string(alloc)?.as_str())?;
            }
        }
        What::Delete { keys } => {
            out.push_str(" delete")?;
            for key in keys.as_slice() {
                push_key(out, key)?;
            }
        }
        What::Snapshot { at: Some(time) } => {
            let ms = time.ms();
            write!(out, " snapshot {ms}")?;
        }
        What::Snapshot { at: None } => out.push_str(" snapshot -")?,
    }
    Ok(())
}

fn push_job(alloc: Global, out: &mut String, job: &Job) -> Result<(), Fail> {
    let (line, lane) = (job.line, job.lane);
    write!(out, "{line}.{lane}")?;
    push_what(alloc, out, &job.what)?;
    out.push(';')?;
    Ok(())
}

fn push_script(alloc: Global, out: &mut String, script: &Script) -> Result<(), Fail> {
    if let Some(job) = &script.init {
        push_job(alloc, out, job)?;
    }
    for phase in script.phases.as_slice() {
        for job in phase.jobs.as_slice() {
            push_job(alloc, out, job)?;
        }
    }
    Ok(())
}

fn push_cause(out: &mut String, cause: &LineCause) -> Result<(), Fail> {
    match cause {
        LineCause::Json => out.push_str("json")?,
        LineCause::Object => out.push_str("object")?,
        LineCause::Field(name) => {
            let name = name.as_str();
            write!(out, "field {name}")?;
        }
        LineCause::InitPlace => out.push_str("init_place")?,
    }
    Ok(())
}

fn parsed(alloc: Global, bytes: &[u8]) -> Result<Script, LineError> {
    if bytes.len() > 67_108_864 {
        return Err(LineError::Memory);
    }
    parse_script(alloc, bytes, 2)
}

// What is read from bytes, with two lanes.
fn said(alloc: Global, bytes: &[u8]) -> Result<String, Fail> {
    let mut out = String::new(alloc);
    match parsed(alloc, bytes) {
        Ok(script) => push_script(alloc, &mut out, &script)?,
        Err(LineError::BadLine(number, cause)) => {
            write!(out, "bad {number} ")?;
            push_cause(&mut out, &cause)?;
        }
        Err(LineError::Memory) => out.push_str("memory")?,
    }
    Ok(out)
}

// The first script from which something else is read.
fn script_misread(alloc: Global, scripts: &[(&str, &str)]) -> Result<Option<usize>, Fail> {
    for (script, (text, want)) in scripts.iter().enumerate() {
        if said(alloc, text.as_bytes())?.as_str() != *want {
            return Ok(Some(script));
        }
    }
    Ok(None)
}

#[test]
fn jobs_are_read_or_refused_with_the_first_cause(rt: HostRuntime) -> Result<(), Fail> {
    assert_eq!(rt; script_misread(rt.alloc(), &SCRIPTS)?, None);
    Ok(())
}

#[test]
fn tables_are_read_or_refused_with_the_first_cause(rt: HostRuntime) -> Result<(), Fail> {
    let alloc = rt.alloc();
    for (rest, want) in INITS {
        let line = init(alloc, SCHEMA, rest)?;
        assert_eq!(rt; said(alloc, line.as_str().as_bytes())?.as_str(), want);
    }
    for schema in BAD_SCHEMAS {
        let line = init(alloc, schema, INITS[0].0)?;
        assert_eq!(rt;
            said(alloc, line.as_str().as_bytes())?.as_str(),
            "bad 1 field schema"
        );
    }
    Ok(())
}

// What stands before and behind the line that makes a table, and what is read. Empty lines aren't jobs.
const PLACES: [(&str, &str, &str); 5] = [
    ("\n\r\n", "\n", "3.1 init t 0 1 - 1;"),
    (
        "",
        "\n{\"job\":\"snapshot\"}\n{\"job\":\"upsert\",\"lane\":2,\"rows\":[{}]}",
        "1.1 init t 0 1 - 1;2.1 snapshot -;3.2 upsert {};",
    ),
    ("{\"job\":\"snapshot\"}\n", "", "bad 2 init_place"),
    ("{\"job\":\"snapshot\"}\n", "\n{", "bad 2 init_place"),
    ("[]\n", "", "bad 1 object"),
];

#[test]
fn a_table_is_made_by_the_first_job(rt: HostRuntime) -> Result<(), Fail> {
    let alloc = rt.alloc();
    let line = init(alloc, SCHEMA, INITS[0].0)?;
    for (before, after, want) in PLACES {
        let script = format!(in alloc; "{before}{line}{after}")?;
        assert_eq!(rt; said(alloc, script.as_str().as_bytes())?.as_str(), want);
    }
    let twice = format!(in alloc; "{line}\n{line}")?;
    assert_eq!(rt;
        said(alloc, twice.as_str().as_bytes())?.as_str(),
        "bad 2 init_place"
    );
    Ok(())
}

#[test]
fn lines_that_are_no_text_are_no_json(rt: HostRuntime) -> Result<(), Fail> {
    let alloc = rt.alloc();
    let lines: [&[u8]; 3] = [
        b"\xff",
        b"{\"job\":\"snapshot\xc3\"}",
        b"{\"job\":\"upsert\",\"rows\":[{\"\x80\":1}]}",
    ];
    for line in lines {
        assert_eq!(rt; said(alloc, line)?.as_str(), "bad 1 json");
    }
    Ok(())
}

// A text so many times.
fn repeated(alloc: Global, text: &str, count: usize) -> Result<String, Fail> {
    let mut out = String::new(alloc);
    for _ in 0..count {
        out.push_str(text)?;
    }
    Ok(out)
}

// A line nests its object, its rows and each row; so many arrays in a row, and whether that is JSON still.
const DEPTHS: [(usize, bool); 3] = [(124, true), (125, false), (1_000_000, false)];

#[test]
fn lines_nest_127_levels(rt: HostRuntime) -> Result<(), Fail> {
    let alloc = rt.alloc();
    for (depth, is_json) in DEPTHS {
        let begins = repeated(alloc, "[", depth)?;
        let ends = repeated(alloc, "]", depth)?;
        let line = format!(in alloc; "{{\"job\":\"upsert\",\"rows\":[{{\"a\":{begins}{ends}}}]}}")?;
        assert_eq!(rt; parsed(alloc, line.as_str().as_bytes()).is_ok(), is_json);
        let schema = init(alloc, line.as_str(), "")?;
        assert_eq!(rt;
            said(alloc, schema.as_str().as_bytes())?.as_str(),
            "bad 1 json"
        );
    }
    Ok(())
}

// How many rows or keys a line has, and whether it may.
const COUNTS: [(usize, bool); 2] = [(99_999, true), (100_000, false)];

#[test]
fn lines_have_at_most_100_000_rows_or_keys(rt: HostRuntime) -> Result<(), Fail> {
    let alloc = rt.alloc();
    for (more, is_good) in COUNTS {
        let rows = repeated(alloc, "{},", more)?;
        let line = format!(in alloc; "{{\"job\":\"upsert\",\"rows\":[{rows}{{}}]}}")?;
        assert_eq!(rt; parsed(alloc, line.as_str().as_bytes()).is_ok(), is_good);
        let keys = repeated(alloc, "{\"partition\":\"x\",\"key\":\"a\"},", more)?;
        let line = format!(in alloc;
            "{{\"job\":\"delete\",\"keys\":[{keys}{{\"partition\":\"x\",\"key\":\"a\"}}]}}"
        )?;
        assert_eq!(rt; parsed(alloc, line.as_str().as_bytes()).is_ok(), is_good);
    }
    Ok(())
}
