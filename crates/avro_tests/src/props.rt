// Properties: texts made of one text by an edit, and what is written of what was read, or the line that is refused.
use hudi_base::Bytes;
use std::alloc::{AllocError, Global};
use std::test::*;
use table_props::{PropsError, parse_props, text};

// A table with an ordering field, as its properties are written.
const WRITTEN: &str = "hoodie.table.name=t
hoodie.table.type=MERGE_ON_READ
hoodie.table.version=6
hoodie.table.recordkey.fields=id
hoodie.table.partition.fields=p
hoodie.table.precombine.field=v
hoodie.timeline.layout.version=1
profile.buckets=1
profile.schema={\"fields\":[{\"name\":\"id\",\"type\":\"string\"},{\"name\":\"p\",\"type\":\"string\"},{\"name\":\"v\",\"type\":\"long\"}],\"name\":\"r\",\"type\":\"record\"}
";

// The same without one.
const WITHOUT_ORDERING: (&str, &str) = ("hoodie.table.precombine.field=v\n", "");

// Edits after which the text says the same.
const SAME: [(&str, &str); 7] = [
    ("", ""),
    ("\"type\":\"record\"}\n", "\"type\":\"record\"}"),
    (
        "hoodie.table.version=6\n",
        "\n# a=b\n#\nother=1\nother=2\n=\nhoodie.table.version=6\n",
    ),
    (
        "hoodie.table.name=t\n",
        "hoodie.table.name.=x\nhoodie.table.name=t\n",
    ),
    ("profile.buckets=1\n", "profile.buckets=1\n\n\n"),
    (
        "\"name\":\"v\",\"type\":\"long\"",
        "\"doc\":1,\"type\":\"long\",\"name\":\"v\"",
    ),
    ("{\"fields\"", " {\"fields\""),
];

// Edits, and the line that is refused then.
const REFUSED: [(&str, &str, usize); 31] = [
    ("hoodie.table.name=t\n", "x\n", 1),
    ("hoodie.table.name=t\n", "\nx\nhoodie.table.name=t\n", 2),
    ("hoodie.table.name=t\n", "", 9),
    ("hoodie.table.name=t\n", "hoodie.table.name=\n", 1),
    ("hoodie.table.name=t\n", "hoodie.table.name=a.b\n", 1),
    (
        "hoodie.table.name=t\n",
        "hoodie.table.name=t\nhoodie.table.name=t\n",
        2,
    ),
    (
        "hoodie.table.type=MERGE_ON_READ\n",
        "hoodie.table.type=COPY_ON_WRITE\n",
        2,
    ),
    ("hoodie.table.type=MERGE_ON_READ\n", "", 9),
    ("hoodie.table.version=6\n", "hoodie.table.version=8\n", 3),
    ("hoodie.table.version=6\n", "hoodie.table.version=6\r\n", 3),
    ("hoodie.table.version=6\n", "", 9),
    ("fields=id\n", "fields=missing\n", 10),
    ("fields=id\n", "fields=v\n", 10),
    ("hoodie.table.recordkey.fields=id\n", "", 9),
    ("fields=p\n", "fields=\n", 10),
    ("field=v\n", "field=id\n", 10),
    ("field=v\n", "field=\n", 10),
    ("field=v\n", "field=v\nhoodie.table.precombine.field=v\n", 7),
    ("layout.version=1\n", "layout.version=2\n", 7),
    ("profile.buckets=1\n", "profile.buckets=0\n", 8),
    ("profile.buckets=1\n", "profile.buckets=1025\n", 8),
    ("profile.buckets=1\n", "profile.buckets=01\n", 8),
    ("profile.buckets=1\n", "profile.buckets=1 \n", 8),
    ("profile.buckets=1\n", "", 9),
    ("\"fields\":", "\"field\":", 9),
    ("\"long\"", "\"float\"", 9),
    ("\"long\"", "\"null\"", 10),
    ("\"long\"", "[\"long\",\"null\"]", 10),
    ("\"long\"", "[\"null\",\"string\"]", 10),
    ("\"name\":\"r\"", "\"name\":\"r\",\"name\":\"\"", 9),
    (
        "{\"name\":\"p\"",
        "{\"name\":\"_hoodie_p\",\"type\":\"string\"},{\"name\":\"p\"",
        10,
    ),
];

fn edited(alloc: Global, old: &str, new: &str) -> Result<String, AllocError> {
    let mut made = String::new(alloc);
    if let Some((before, after)) = WRITTEN.split_once(old) {
        made.push_str(before)?;
        made.push_str(new)?;
        made.push_str(after)?;
    }
    Ok(made)
}

// What is written of the properties that a text says.
fn written_again(alloc: Global, of: &str) -> Result<Bytes, PropsError> {
    let props = parse_props(alloc, of.as_bytes())?;
    text(alloc, &props)
}

fn is_written(alloc: Global, of: &str, want: &str) -> bool {
    match written_again(alloc, of) {
        Ok(bytes) => bytes.as_slice() == want.as_bytes(),
        Err(_) => false,
    }
}

fn is_refused(alloc: Global, of: &[u8], line: usize) -> bool {
    match parse_props(alloc, of) {
        Err(error) => error == PropsError::BadProps(line),
        Ok(_) => false,
    }
}

#[test]
fn properties_are_read(rt: HostRuntime) -> Result<(), Fail> {
    let alloc = rt.alloc();
    for (old, new) in SAME {
        assert!(rt; is_written(alloc, edited(alloc, old, new)?.as_str(), WRITTEN));
    }
    let (old, new) = WITHOUT_ORDERING;
    let without = edited(alloc, old, new)?;
    assert!(rt; without.len() + old.len() == WRITTEN.len());
    assert!(rt; is_written(alloc, without.as_str(), without.as_str()));
    Ok(())
}

#[test]
fn refusals_have_lines(rt: HostRuntime) -> Result<(), Fail> {
    let alloc = rt.alloc();
    for (old, new, line) in REFUSED {
        assert!(rt; is_refused(alloc, edited(alloc, old, new)?.as_bytes(), line));
    }
    assert!(rt; is_refused(alloc, b"", 1));
    assert!(rt; is_refused(alloc, b"a=\xff\n", 2));
    assert!(rt; is_refused(alloc, b"hoodie.table.name=\xff", 1));
    Ok(())
}

#[test]
fn key_and_partition_are_told(rt: HostRuntime) -> Result<(), Fail> {
    let props = parse_props(rt.alloc(), WRITTEN.as_bytes())?;
    assert_eq!(rt; props.name.as_str(), "t");
    assert_eq!(rt;
        (props.key, props.partition, props.ordering),
        (0, 1, Some(2))
    );
    assert_eq!(rt; props.buckets, 1);
    Ok(())
}
