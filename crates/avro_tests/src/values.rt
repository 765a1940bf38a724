// The binary form: what is written of a value that was read, and how many bytes it took; or where it can't be read.
use avro_schema::{Schema, parse_schema};
use avro_value::{ValueError, decode, encode};
use std::alloc::Global;
use std::test::*;

// Schemas, bytes in hexadecimal, and the number of bytes that a value takes with its written form.
const READ: [(&str, &str, &str); 26] = [
    ("\"null\"", "ff", "0 "),
    ("\"boolean\"", "01ff", "1 01"),
    ("\"long\"", "8001", "2 8001"),
    ("\"long\"", "01", "1 01"),
    ("\"long\"", "8000", "2 00"),
    (
        "\"long\"",
        "ffffffffffffffffff01",
        "10 ffffffffffffffffff01",
    ),
    ("\"int\"", "feffffff0f", "5 feffffff0f"),
    ("\"int\"", "ffffffff8f00", "6 ffffffff0f"),
    ("\"string\"", "06666f6f", "4 06666f6f"),
    ("\"string\"", "8600666f6f00", "5 06666f6f"),
    ("\"bytes\"", "02ff", "2 02ff"),
    (
        "{\"type\":\"fixed\",\"name\":\"f\",\"size\":2}",
        "010203",
        "2 0102",
    ),
    ("{\"type\":\"fixed\",\"name\":\"f\",\"size\":0}", "", "0 "),
    (
        "{\"type\":\"enum\",\"name\":\"e\",\"symbols\":[\"a\",\"b\"]}",
        "02",
        "1 02",
    ),
    (
        "{\"type\":\"record\",\"name\":\"r\",\"fields\":[{\"name\":\"n\",\"type\":\"long\"},{\"name\":\"t\",\"type\":\"string\"}]}",
        "3606666f6f",
        "5 3606666f6f",
    ),
    (
        "{\"type\":\"array\",\"items\":\"long\"}",
        "04063600",
        "4 04063600",
    ),
    (
        "{\"type\":\"array\",\"items\":\"long\"}",
        "0206023600",
        "5 04063600",
    ),
    (
        "{\"type\":\"array\",\"items\":\"long\"}",
        "0304063600",
        "5 04063600",
    ),
    (
        "{\"type\":\"array\",\"items\":\"long\"}",
        "030406360304063600",
        "9 080636063600",
    ),
    ("{\"type\":\"array\",\"items\":\"long\"}", "00ff", "1 00"),
    (
        "{\"type\":\"array\",\"items\":\"null\"}",
        "80897a00",
        "4 80897a00",
    ),
    (
        "{\"type\":\"map\",\"values\":\"int\"}",
        "040261020261030000",
        "8 0402610202610300",
    ),
    (
        "{\"type\":\"map\",\"values\":\"int\"}",
        "010602610200",
        "6 0202610200",
    ),
    ("[\"null\",\"string\"]", "00", "1 00"),
    ("[\"null\",\"string\"]", "020261", "3 020261"),
    (
        "{\"type\":\"array\",\"items\":{\"type\":\"array\",\"items\":\"int\"}}",
        "0402020000000000",
        "6 040202000000",
    ),
];

// The same of bytes that begin with no value.
const REFUSED: [(&str, &str, &str); 33] = [
    ("\"boolean\"", "", "Short 0"),
    ("\"boolean\"", "02", "BadBytes 0"),
    ("\"long\"", "", "Short 0"),
    ("\"long\"", "80", "Short 0"),
    ("\"long\"", "8080808080808080808080", "BadBytes 0"),
    ("\"long\"", "80808080808080808002", "BadBytes 0"),
    ("\"int\"", "8080808010", "BadBytes 0"),
    ("\"string\"", "06666f", "Short 0"),
    ("\"string\"", "01", "BadBytes 0"),
    ("\"string\"", "02ff", "BadBytes 0"),
    ("\"bytes\"", "feffffffffffffffff01", "Short 0"),
    (
        "{\"type\":\"fixed\",\"name\":\"f\",\"size\":3}",
        "0102",
        "Short 0",
    ),
    (
        "{\"type\":\"enum\",\"name\":\"e\",\"symbols\":[\"a\",\"b\"]}",
        "04",
        "BadBytes 0",
    ),
    (
        "{\"type\":\"enum\",\"name\":\"e\",\"symbols\":[\"a\",\"b\"]}",
        "01",
        "BadBytes 0",
    ),
    (
        "{\"type\":\"record\",\"name\":\"r\",\"fields\":[{\"name\":\"n\",\"type\":\"long\"},{\"name\":\"t\",\"type\":\"string\"}]}",
        "3606666f",
        "Short 1",
    ),
    (
        "{\"type\":\"record\",\"name\":\"r\",\"fields\":[{\"name\":\"n\",\"type\":\"long\"},{\"name\":\"t\",\"type\":\"boolean\"}]}",
        "800003",
        "BadBytes 2",
    ),
    ("{\"type\":\"array\",\"items\":\"long\"}", "", "Short 0"),
    ("{\"type\":\"array\",\"items\":\"long\"}", "0406", "Short 2"),
    (
        "{\"type\":\"array\",\"items\":\"long\"}",
        "040636",
        "Short 3",
    ),
    (
        "{\"type\":\"array\",\"items\":\"long\"}",
        "0306063600",
        "BadBytes 1",
    ),
    (
        "{\"type\":\"array\",\"items\":\"long\"}",
        "0302063600",
        "BadBytes 1",
    ),
    (
        "{\"type\":\"array\",\"items\":\"long\"}",
        "0301063600",
        "BadBytes 1",
    ),
    (
        "{\"type\":\"array\",\"items\":\"boolean\"}",
        "0306010200",
        "BadBytes 3",
    ),
    (
        "{\"type\":\"array\",\"items\":\"null\"}",
        "82897a00",
        "BadBytes 0",
    ),
    (
        "{\"type\":\"array\",\"items\":\"null\"}",
        "80897a0200",
        "BadBytes 3",
    ),
    (
        "{\"type\":\"array\",\"items\":\"null\"}",
        "ffffffffffffffffff01",
        "BadBytes 0",
    ),
    (
        "{\"type\":\"array\",\"items\":\"null\"}",
        "81897a0000",
        "BadBytes 0",
    ),
    (
        "{\"type\":\"array\",\"items\":{\"type\":\"array\",\"items\":\"null\"}}",
        "0280897a0000",
        "BadBytes 1",
    ),
    ("{\"type\":\"map\",\"values\":\"int\"}", "0202", "Short 1"),
    (
        "{\"type\":\"map\",\"values\":\"int\"}",
        "0202ff0200",
        "BadBytes 1",
    ),
    ("[\"null\",\"string\"]", "04", "BadBytes 0"),
    ("[\"null\",\"string\"]", "", "Short 0"),
    ("[\"null\",\"string\"]", "0204", "Short 1"),
];

fn schema_of(alloc: Global, text: &str) -> Result<Schema, Fail> {
    Ok(parse_schema(alloc, text.as_bytes()).ok().ok_or("a schema")?)
}

fn refusal(alloc: Global, error: ValueError) -> Result<String, Fail> {
    match error {
        ValueError::Memory => Ok(String::from_str(alloc, "Memory")?),
        ValueError::Short(offset) => Ok(format!(in alloc; "Short {offset}")?),
        ValueError::BadBytes(offset) => Ok(format!(in alloc; "BadBytes {offset}")?),
    }
}

// What is read, written again.
fn read_again(alloc: Global, schema: &Schema, bytes: &[u8]) -> Result<String, Fail> {
    let (value, used) = match decode(alloc, schema, bytes) {
        Ok(found) => found,
        Err(error) => return refusal(alloc, error),
    };
    let written = encode(alloc, schema, &value).ok().ok_or("memory")?;
    let text = hex::encode(alloc, written.as_slice())?;
    Ok(format!(in alloc; "{used} {text}")?)
}

fn answers(alloc: Global, schema: &str, bytes: &str, want: &str) -> Result<bool, Fail> {
    let schema = schema_of(alloc, schema)?;
    let bytes = hex::decode(alloc, bytes)?;
    Ok(read_again(alloc, &schema, bytes.as_slice())?.as_str() == want)
}

#[test]
fn values_are_read(rt: HostRuntime) -> Result<(), Fail> {
    for (schema, bytes, want) in READ {
        assert!(rt; answers(rt.alloc(), schema, bytes, want)?);
    }
    Ok(())
}

#[test]
fn faults_have_places(rt: HostRuntime) -> Result<(), Fail> {
    for (schema, bytes, want) in REFUSED {
        assert!(rt; answers(rt.alloc(), schema, bytes, want)?);
    }
    Ok(())
}
