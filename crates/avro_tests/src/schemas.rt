// Schemas: what is written of a schema that was read, or where it was refused.
use avro_schema::{Path, Schema, SchemaError, parse_schema, text_of};
use std::alloc::{AllocError, Global};
use std::test::*;

// Texts that name a schema, and its written text.
const READ: [(&str, &str); 14] = [
    ("\"null\"", "\"null\""),
    (" \"long\" ", "\"long\""),
    ("{\"type\":\"int\"}", "\"int\""),
    (
        "{\"type\":\"string\",\"doc\":1,\"default\":null,\"order\":\"x\",\"logicalType\":[],\"namespace\":{},\"aliases\":2}",
        "\"string\"",
    ),
    ("[\"null\",\"bytes\"]", "[\"null\",\"bytes\"]"),
    (
        "[\"int\",\"long\",{\"type\":\"array\",\"items\":\"boolean\"}]",
        "[\"int\",\"long\",{\"items\":\"boolean\",\"type\":\"array\"}]",
    ),
    (
        "{\"type\":\"map\",\"values\":[\"null\"]}",
        "{\"type\":\"map\",\"values\":[\"null\"]}",
    ),
    (
        "{\"type\":\"fixed\",\"size\":0,\"name\":\"f\"}",
        "{\"name\":\"f\",\"size\":0,\"type\":\"fixed\"}",
    ),
    (
        "{\"type\":\"fixed\",\"size\":65536,\"name\":\"f_9\"}",
        "{\"name\":\"f_9\",\"size\":65536,\"type\":\"fixed\"}",
    ),
    (
        "{\"type\":\"enum\",\"symbols\":[\"b\",\"A\"],\"name\":\"_\"}",
        "{\"name\":\"_\",\"symbols\":[\"b\",\"A\"],\"type\":\"enum\"}",
    ),
    (
        "{\"type\":\"record\",\"name\":\"r\",\"fields\":[]}",
        "{\"fields\":[],\"name\":\"r\",\"type\":\"record\"}",
    ),
    (
        "{\"name\":\"r\",\"type\":\"record\",\"fields\":[{\"type\":\"string\",\"name\":\"id\",\"doc\":\"d\"},{\"name\":\"v\",\"type\":[\"null\",\"long\"],\"default\":null}]}",
        "{\"fields\":[{\"name\":\"id\",\"type\":\"string\"},{\"name\":\"v\",\"type\":[\"null\",\"long\"]}],\"name\":\"r\",\"type\":\"record\"}",
    ),
    ("{\"type\":\"float\",\"type\":\"int\"}", "\"int\""),
    (
        "[{\"type\":\"record\",\"name\":\"r\",\"fields\":[]},{\"type\":\"map\",\"values\":\"int\"}]",
        "[{\"fields\":[],\"name\":\"r\",\"type\":\"record\"},{\"type\":\"map\",\"values\":\"int\"}]",
    ),
];

// Texts that name none, the refusal and its path.
const REFUSED: [(&str, &str); 38] = [
    ("", "NotJson"),
    ("{", "NotJson"),
    ("\"int\" 1", "NotJson"),
    ("\"float\"", "FloatType"),
    ("\"double\"", "FloatType"),
    ("{\"type\":\"float\",\"bogus\":1}", "FloatType"),
    ("\"Foo\"", "NamedReference"),
    ("\"record\"", "NamedReference"),
    ("{\"type\":\"Foo\",\"bogus\":1}", "NamedReference"),
    ("1", "BadSchema"),
    ("null", "BadSchema"),
    ("true", "BadSchema"),
    ("[]", "BadSchema"),
    ("{}", "BadSchema"),
    ("{\"type\":1}", "BadSchema"),
    ("{\"type\":[\"int\"]}", "BadSchema"),
    ("{\"type\":{\"type\":\"int\"}}", "BadSchema"),
    ("{\"type\":\"int\",\"size\":1}", "BadSchema"),
    (
        "{\"type\":\"fixed\",\"name\":\"f\",\"size\":65537}",
        "BadSchema",
    ),
    (
        "{\"type\":\"fixed\",\"name\":\"f\",\"size\":-1}",
        "BadSchema",
    ),
    (
        "{\"type\":\"fixed\",\"name\":\"f\",\"size\":1.0}",
        "BadSchema",
    ),
    (
        "{\"type\":\"fixed\",\"name\":\"9\",\"size\":1}",
        "BadSchema",
    ),
    ("{\"type\":\"fixed\",\"size\":1}", "BadSchema"),
    (
        "{\"type\":\"enum\",\"name\":\"e\",\"symbols\":[]}",
        "BadSchema",
    ),
    (
        "{\"type\":\"enum\",\"name\":\"e\",\"symbols\":[\"a\",\"a\"]}",
        "BadSchema",
    ),
    (
        "{\"type\":\"enum\",\"name\":\"e\",\"symbols\":[\"a-b\"]}",
        "BadSchema",
    ),
    ("{\"type\":\"array\"}", "BadSchema"),
    ("{\"type\":\"map\",\"items\":\"int\"}", "BadSchema"),
    (
        "{\"type\":\"record\",\"name\":\"r\",\"fields\":{}}",
        "BadSchema",
    ),
    ("[\"int\",\"int\"]", "BadSchema 1"),
    ("[\"null\",[\"int\"]]", "BadSchema 1"),
    ("[\"null\",[\"float\"]]", "BadSchema 1"),
    (
        "[\"null\",{\"type\":\"array\",\"items\":\"float\"}]",
        "FloatType 1 0",
    ),
    ("{\"type\":\"map\",\"values\":\"Foo\"}", "NamedReference 0"),
    (
        "{\"type\":\"record\",\"name\":\"r\",\"fields\":[{\"name\":\"a\",\"type\":\"int\"},{\"name\":\"a\",\"type\":\"float\"}]}",
        "BadSchema 1",
    ),
    (
        "{\"type\":\"record\",\"name\":\"r\",\"fields\":[{\"name\":\"a\",\"type\":\"double\"},{\"name\":\"a\",\"type\":\"int\"}]}",
        "FloatType 0",
    ),
    (
        "{\"type\":\"record\",\"name\":\"r\",\"fields\":[{\"name\":\"a\",\"type\":[\"null\",\"Foo\"]}],\"bogus\":1}",
        "BadSchema",
    ),
    (
        "{\"type\":\"record\",\"name\":\"r\",\"fields\":[{\"name\":\"a\",\"type\":[\"null\",\"Foo\"]}]}",
        "NamedReference 0 1",
    ),
];

fn with_path(alloc: Global, cause: &str, path: &Path) -> Result<String, AllocError> {
    let mut text = String::from_str(alloc, cause)?;
    for position in path.as_slice() {
        text.push_str(format!(in alloc; " {position}")?.as_str())?;
    }
    Ok(text)
}

fn refusal(alloc: Global, error: &SchemaError) -> Result<String, AllocError> {
    match error {
        SchemaError::Memory => String::from_str(alloc, "Memory"),
        SchemaError::NotJson => String::from_str(alloc, "NotJson"),
        SchemaError::NamedReference(path) => with_path(alloc, "NamedReference", path),
        SchemaError::FloatType(path) => with_path(alloc, "FloatType", path),
        SchemaError::BadSchema(path) => with_path(alloc, "BadSchema", path),
    }
}

fn is_written(alloc: Global, schema: &Schema, want: &str) -> Result<bool, AllocError> {
    Ok(text_of(alloc, schema)?.as_slice() == want.as_bytes())
}

// Whether the text names a schema with this written text.
fn names(alloc: Global, text: &str, want: &str) -> Result<bool, AllocError> {
    match parse_schema(alloc, text.as_bytes()) {
        Ok(schema) => is_written(alloc, &schema, want),
        Err(_) => Ok(false),
    }
}

// Whether the text is refused so.
fn is_refused(alloc: Global, text: &[u8], want: &str) -> Result<bool, AllocError> {
    match parse_schema(alloc, text) {
        Ok(_) => Ok(false),
        Err(error) => Ok(refusal(alloc, &error)?.as_str() == want),
    }
}

#[test]
fn schemas_are_read(rt: HostRuntime) -> Result<(), Fail> {
    for (text, want) in READ {
        assert!(rt; names(rt.alloc(), text, want)?);
    }
    Ok(())
}

#[test]
fn refusals_have_paths(rt: HostRuntime) -> Result<(), Fail> {
    for (text, want) in REFUSED {
        assert!(rt; is_refused(rt.alloc(), text.as_bytes(), want)?);
    }
    assert!(rt; is_refused(rt.alloc(), b"\"\xff\"", "NotJson")?);
    Ok(())
}

// Arrays in one another around an int, so many in number.
fn nested(alloc: Global, arrays: usize) -> Result<String, AllocError> {
    let mut text = String::new(alloc);
    for _ in 0..arrays {
        text.push_str("{\"type\":\"array\",\"items\":")?;
    }
    text.push_str("\"int\"")?;
    for _ in 0..arrays {
        text.push_str("}")?;
    }
    Ok(text)
}

// The path of a refusal behind so many arrays.
fn deep_refusal(alloc: Global, arrays: usize) -> Result<String, AllocError> {
    let mut text = String::from_str(alloc, "BadSchema")?;
    for _ in 0..arrays {
        text.push_str(" 0")?;
    }
    Ok(text)
}

#[test]
fn depth_has_its_limit(rt: HostRuntime) -> Result<(), Fail> {
    let alloc = rt.alloc();
    let deepest = nested(alloc, 31)?;
    assert!(rt; parse_schema(alloc, deepest.as_bytes()).is_ok());
    let want = deep_refusal(alloc, 32)?;
    assert!(rt; is_refused(alloc, nested(alloc, 32)?.as_bytes(), want.as_str())?);
    assert!(rt; is_refused(alloc, nested(alloc, 100)?.as_bytes(), want.as_str())?);
    assert!(rt; is_refused(alloc, nested(alloc, 200)?.as_bytes(), "NotJson")?);
    Ok(())
}
