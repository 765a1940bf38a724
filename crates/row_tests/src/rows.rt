// Rows that come in as JSON: the rows that are made of them, or why there is none.
ghost use Rattle.std.specs.Prelude.{◌≡◌, true};
ghost use Rattle.row_values.specs.Layouts.{has_typed_places};

use hudi_base::InstantTime;
use payload_merge::{Row, RowError};
use row_values::{RowLayout, told_properties_have_typed_places};
use serde_json::Value;
use std::alloc::Global;
use std::fmt::Write;
use std::test::*;
use table_props::{Props, parse_props};

// A table with a field of each type, of which the ordering field and the bytes may be null.
const PROPERTIES: &str = "hoodie.table.name=t
hoodie.table.type=MERGE_ON_READ
hoodie.table.version=6
hoodie.table.recordkey.fields=id
hoodie.table.partition.fields=p
hoodie.table.precombine.field=v
hoodie.timeline.layout.version=1
profile.buckets=1
profile.schema={\"fields\":[{\"name\":\"id\",\"type\":\"string\"},{\"name\":\"p\",\"type\":\"string\"},{\"name\":\"v\",\"type\":[\"null\",\"long\"]},{\"name\":\"n\",\"type\":\"int\"},{\"name\":\"f\",\"type\":\"boolean\"},{\"name\":\"d\",\"type\":[\"null\",\"bytes\"]}],\"name\":\"r\",\"type\":\"record\"}
";

// Rows of it, and what becomes of them: partition, key, rank and the body in hexadecimal digits, or the refusal.
const ROWS: [(&str, &str); 33] = [
    (
        r#"{"id":"a","p":"x","v":5,"n":-1,"f":true,"d":"0aff"}"#,
        "x/a@5 02610278020a010102040aff",
    ),
    // Members in any order, and null for a field that may be null, or no member.
    (
        r#"{"d":null,"f":false,"n":0,"v":-64,"p":"x","id":"a"}"#,
        "x/a@-64 02610278027f000000",
    ),
    (
        r#"{"id":"a","p":"x","v":0,"n":0,"f":false}"#,
        "x/a@0 026102780200000000",
    ),
    (
        r#"{"id":"a","p":"x","v":0,"n":0,"f":false,"d":""}"#,
        "x/a@0 02610278020000000200",
    ),
    // Numbers at their ends, and texts in UTF-8.
    (
        r#"{"id":"é","p":"x=1.a_b-c","v":9223372036854775807,"n":2147483647,"f":false}"#,
        "x=1.a_b-c/é@9223372036854775807 04c3a912783d312e615f622d6302feffffffffffffffff01feffffff0f0000",
    ),
    (
        r#"{"id":"a","p":"x","v":-9223372036854775808,"n":-2147483648,"f":false}"#,
        "x/a@-9223372036854775808 0261027802ffffffffffffffffff01ffffffff0f0000",
    ),
    // The last of a repeated member counts.
    (
        r#"{"id":"b","id":"a","p":"x","v":0,"n":0,"f":false}"#,
        "x/a@0 026102780200000000",
    ),
    // A member that is missing or of another type; the first counts, and another member comes last.
    (r#"{"p":"x","v":5,"n":0,"f":true}"#, "mismatch 0"),
    (r#"{"id":null,"p":"x","v":5,"n":0,"f":true}"#, "mismatch 0"),
    (r#"[]"#, "mismatch 0"),
    (r#"{"id":"a","p":1,"v":"q","n":0,"f":true}"#, "mismatch 1"),
    (r#"{"id":"a","p":"x","v":"q","n":0,"f":true}"#, "mismatch 2"),
    (r#"{"id":"a","p":"x","v":1.0,"n":0,"f":true}"#, "mismatch 2"),
    (r#"{"id":"a","p":"x","v":1e2,"n":0,"f":true}"#, "mismatch 2"),
    (r#"{"id":"a","p":"x","v":-0,"n":0,"f":true}"#, "mismatch 2"),
    (
        r#"{"id":"a","p":"x","v":9223372036854775808,"n":0,"f":true}"#,
        "mismatch 2",
    ),
    (
        r#"{"id":"a","p":"x","v":-9223372036854775809,"n":0,"f":true}"#,
        "mismatch 2",
    ),
    (
        r#"{"id":"a","p":"x","v":5,"n":2147483648,"f":true}"#,
        "mismatch 3",
    ),
    (
        r#"{"id":"a","p":"x","v":5,"n":-2147483649,"f":true}"#,
        "mismatch 3",
    ),
    (
        r#"{"id":"a","p":"x","v":5,"n":null,"f":true}"#,
        "mismatch 3",
    ),
    (r#"{"id":"a","p":"x","v":5,"n":0,"f":1}"#, "mismatch 4"),
    (
        r#"{"id":"a","p":"x","v":5,"n":0,"f":true,"d":"0aF0"}"#,
        "mismatch 5",
    ),
    (
        r#"{"id":"a","p":"x","v":5,"n":0,"f":true,"d":"0af"}"#,
        "mismatch 5",
    ),
    (
        r#"{"id":"a","p":"x","v":5,"n":0,"f":true,"d":"0g"}"#,
        "mismatch 5",
    ),
    (
        r#"{"id":"a","p":"x","v":5,"n":0,"f":true,"z":1}"#,
        "mismatch 6",
    ),
    (
        r#"{"id":"a","p":"x","v":5,"n":0,"f":true,"_hoodie_x":1}"#,
        "mismatch 6",
    ),
    (
        r#"{"id":"a","p":"x","v":5,"n":0,"f":1,"z":1}"#,
        "mismatch 4",
    ),
    // Values of their types that make no row, the first rule that is broken.
    (r#"{"id":"","p":".x","n":0,"f":true}"#, "no key"),
    (r#"{"id":"a","p":".x","n":0,"f":true}"#, "bad partition"),
    (r#"{"id":"a","p":"","v":5,"n":0,"f":true}"#, "bad partition"),
    (
        r#"{"id":"a","p":"a/b","v":5,"n":0,"f":true}"#,
        "bad partition",
    ),
    (r#"{"id":"a","p":"x","n":0,"f":true}"#, "no ordering value"),
    (
        r#"{"id":"a","p":"x","v":null,"n":0,"f":true}"#,
        "no ordering value",
    ),
];

// A table whose ordering field is an int that may be null.
const INT_ORDERING: &str = "hoodie.table.name=t
hoodie.table.type=MERGE_ON_READ
hoodie.table.version=6
hoodie.table.recordkey.fields=id
hoodie.table.partition.fields=p
hoodie.table.precombine.field=v
hoodie.timeline.layout.version=1
profile.buckets=1
profile.schema={\"fields\":[{\"name\":\"id\",\"type\":\"string\"},{\"name\":\"p\",\"type\":\"string\"},{\"name\":\"v\",\"type\":[\"null\",\"int\"]}],\"name\":\"r\",\"type\":\"record\"}
";

// Rows of it.
const INT_ROWS: [(&str, &str); 4] = [
    (
        r#"{"id":"a","p":"x","v":2147483647}"#,
        "x/a@2147483647 0261027802feffffff0f",
    ),
    (
        r#"{"id":"a","p":"x","v":-2147483648}"#,
        "x/a@-2147483648 0261027802ffffffff0f",
    ),
    (r#"{"id":"a","p":"x","v":2147483648}"#, "mismatch 2"),
    (r#"{"id":"a","p":"x"}"#, "no ordering value"),
];

fn layout_of(alloc: Global, props: &Props) -> Result<RowLayout, RowError>
    requires { has_typed_places props.now ≡ true }
{
    RowLayout::new(alloc, props)
}

// The layout of a table with these properties.
fn layout(alloc: Global, properties: &str) -> Result<RowLayout, Fail> {
    told_properties_have_typed_places();
    let props = parse_props(alloc, properties.as_bytes())?;
    Ok(layout_of(alloc, &props)?)
}

fn push_row(alloc: Global, out: &mut String, row: &Row) -> Result<(), Fail> {
    let partition = row.partition.as_str();
    let key = std::str::from_utf8(row.key.as_slice()).map_err(|_| "a text")?;
    let rank = row.rank;
    let body = hex::encode(alloc, row.body.as_slice())?;
    write!(out, "{partition}/{key}@{rank} {body}")?;
    Ok(())
}

fn push_refusal(out: &mut String, error: RowError) -> Result<(), Fail> {
    match error {
        RowError::Mismatch(field) => write!(out, "mismatch {field}")?,
        RowError::NoKey => out.push_str("no key")?,
        RowError::BadPartition => out.push_str("bad partition")?,
        RowError::NoOrdering => out.push_str("no ordering value")?,
        RowError::TooLarge => out.push_str("too large")?,
        _ => out.push_str("another error")?,
    }
    Ok(())
}

fn row_of(alloc: Global, layout: &RowLayout, json: &Value) -> Result<Row, RowError> {
    let value = layout.value_of_json(alloc, json)?;
    layout.row_of(alloc, &value, InstantTime::FIRST, 7)
}

// What becomes of a row.
fn said(alloc: Global, layout: &RowLayout, json: &str) -> Result<String, Fail> {
    let json = Value::from_str(alloc, json)?;
    let mut out = String::new(alloc);
    match row_of(alloc, layout, &json) {
        Ok(row) => push_row(alloc, &mut out, &row)?,
        Err(error) => push_refusal(&mut out, error)?,
    }
    Ok(out)
}

// The first row of which something else becomes.
fn row_misread(
    alloc: Global,
    layout: &RowLayout,
    rows: &[(&str, &str)],
) -> Result<Option<usize>, Fail> {
    for (row, (json, want)) in rows.iter().enumerate() {
        let said = said(alloc, layout, json)?;
        if said.as_str() != *want {
            return Ok(Some(row));
        }
    }
    Ok(None)
}

#[test]
fn rows_are_made_or_refused_by_the_first_rule(rt: HostRuntime) -> Result<(), Fail> {
    let alloc = rt.alloc();
    let longs = layout(alloc, PROPERTIES)?;
    assert_eq!(rt; row_misread(alloc, &longs, &ROWS)?, None);
    let ints = layout(alloc, INT_ORDERING)?;
    assert_eq!(rt; row_misread(alloc, &ints, &INT_ROWS)?, None);
    Ok(())
}

// A table without an ordering field, whose key, partition and body can be long.
const PLAIN: &str = "hoodie.table.name=t
hoodie.table.type=MERGE_ON_READ
hoodie.table.version=6
hoodie.table.recordkey.fields=id
hoodie.table.partition.fields=p
hoodie.timeline.layout.version=1
profile.buckets=1
profile.schema={\"fields\":[{\"name\":\"id\",\"type\":\"string\"},{\"name\":\"p\",\"type\":\"string\"},{\"name\":\"s\",\"type\":\"string\"}],\"name\":\"r\",\"type\":\"record\"}
";

fn letters(alloc: Global, len: usize) -> Result<String, Fail> {
    let mut out = String::new(alloc);
    for _ in 0..len {
        out.push('k')?;
    }
    Ok(out)
}

// What becomes of a row whose three texts have these lengths: the length of its body, or the refusal.
fn said_of_lengths(
    alloc: Global,
    layout: &RowLayout,
    (key, partition, text): (usize, usize, usize),
) -> Result<String, Fail> {
    let key = letters(alloc, key)?;
    let partition = letters(alloc, partition)?;
    let text = letters(alloc, text)?;
    let json = format!(in alloc; "{{\"id\":\"{key}\",\"p\":\"{partition}\",\"s\":\"{text}\"}}")?;
    let json = Value::from_str(alloc, json.as_str())?;
    let mut out = String::new(alloc);
    match row_of(alloc, layout, &json) {
        Ok(row) => {
            let len = row.body.as_slice().len();
            write!(out, "{len}")?;
        }
        Err(error) => push_refusal(&mut out, error)?,
    }
    Ok(out)
}

// Lengths of record key, partition and text, and what becomes of the row: texts of less than 64, 8,192 and 1,048,576
// bytes have one, two and three bytes of length before them.
const LENGTHS: [((usize, usize, usize), &str); 8] = [
    ((1, 1, 0), "5"),
    ((1000, 1, 0), "1005"),
    ((1001, 1, 0), "no key"),
    ((1, 200, 0), "205"),
    ((1, 201, 0), "bad partition"),
    ((1, 1, 65529), "65536"),
    ((1, 1, 65530), "too large"),
    ((1001, 201, 65530), "no key"),
];

// The first row of which something else becomes.
fn lengths_misread(
    alloc: Global,
    layout: &RowLayout,
    rows: &[((usize, usize, usize), &str)],
) -> Result<Option<usize>, Fail> {
    for (row, (lengths, want)) in rows.iter().enumerate() {
        let said = said_of_lengths(alloc, layout, *lengths)?;
        if said.as_str() != *want {
            return Ok(Some(row));
        }
    }
    Ok(None)
}

#[test]
fn keys_partitions_and_bodies_have_their_limits(rt: HostRuntime) -> Result<(), Fail> {
    let alloc = rt.alloc();
    let layout = layout(alloc, PLAIN)?;
    assert_eq!(rt; lengths_misread(alloc, &layout, &LENGTHS)?, None);
    Ok(())
}

#[test]
fn layouts_have_the_properties_names_and_places(rt: HostRuntime) -> Result<(), Fail> {
    let layout = layout(rt.alloc(), PROPERTIES)?;
    assert_eq!(rt; layout.table.as_str(), "t");
    assert_eq!(rt; layout.record_name.as_str(), "r");
    assert_eq!(rt; layout.fields.len(), 6);
    assert_eq!(rt;
        (layout.key, layout.partition, layout.ordering),
        (0, 1, Some(2))
    );
    Ok(())
}
