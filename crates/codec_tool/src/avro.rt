// Avro: a schema on the first line of the input, and then values.
use crate::avro_json::json_of;
use crate::json_avro::value_of;
use anyhow::{Result, bail};
use avro_schema::{Schema, SchemaError, parse_schema};
use avro_value::{ValueError, decode, encode};
use hudi_base::{Bytes, Value};
use std::alloc::Global;
use table_forms::{parse_json, split_once};

/// What a command makes of the input: `decode` a line of JSON of each value in binary form, `encode` the binary form of each
/// line, and `copy` the written form of each value in binary form.
pub fn output_of(alloc: Global, command: &str, input: &[u8]) -> Result<Bytes> {
    let Some((line, values)) = split_once(b'\n', input) else {
        bail!("no schema");
    };
    let schema = schema_of(alloc, line)?;
    match command {
        "copy" => copied(alloc, &schema, values),
        "decode" => decoded(alloc, &schema, values),
        "encode" => encoded(alloc, &schema, values),
        _ => bail!("no such command"),
    }
}

fn schema_of(alloc: Global, text: &[u8]) -> Result<Schema> {
    match parse_schema(alloc, text) {
        Ok(schema) => Ok(schema),
        Err(SchemaError::Memory) => bail!("out of memory"),
        Err(_) => bail!("bad schema"),
    }
}

// The value at the beginning of bytes, and the bytes after it. A value has a byte at least: of a type whose values have
// none there would be no end.
fn next_value<'a>(alloc: Global, schema: &Schema, bytes: &'a [u8]) -> Result<(Value, &'a [u8])> {
    match decode(alloc, schema, bytes) {
        Ok((value, used)) if used > 0 && used <= bytes.len() => Ok((value, &bytes[used..])),
        Ok(_) => bail!("a value without bytes"),
        Err(ValueError::Short(_)) => bail!("short"),
        Err(ValueError::BadBytes(_)) => bail!("bad bytes"),
        Err(ValueError::Memory) => bail!("out of memory"),
    }
}

fn put_encoded(alloc: Global, out: &mut Vec<u8>, schema: &Schema, value: &Value) -> Result<()> {
    match encode(alloc, schema, value) {
        Ok(bytes) => Ok(out.extend_from_slice(bytes.as_slice())?),
        Err(_) => bail!("out of memory"),
    }
}

fn copied(alloc: Global, schema: &Schema, values: &[u8]) -> Result<Bytes> {
    let mut out = Vec::new(alloc);
    let mut rest = values;
    for _ in 0..values.len() {
        if rest.is_empty() {
            break;
        }
        let (value, after) = next_value(alloc, schema, rest)?;
        put_encoded(alloc, &mut out, schema, &value)?;
        rest = after;
    }
    Ok(Bytes::from_vec(out))
}

fn put_json(alloc: Global, out: &mut Vec<u8>, value: &Value) -> Result<()> {
    let json = json_of(alloc, value)?;
    let text = json.to_vec(alloc)?;
    out.extend_from_slice(text.as_slice())?;
    out.push(b'\n')?;
    Ok(())
}

fn decoded(alloc: Global, schema: &Schema, values: &[u8]) -> Result<Bytes> {
    let mut out = Vec::new(alloc);
    let mut rest = values;
    for _ in 0..values.len() {
        if rest.is_empty() {
            break;
        }
        let (value, after) = next_value(alloc, schema, rest)?;
        put_json(alloc, &mut out, &value)?;
        rest = after;
    }
    Ok(Bytes::from_vec(out))
}

fn line_value(alloc: Global, schema: &Schema, line: &[u8]) -> Result<Value> {
    match parse_json(alloc, line)? {
        Some(json) => value_of(alloc, schema, &json),
        None => bail!("no JSON"),
    }
}

fn encoded(alloc: Global, schema: &Schema, lines: &[u8]) -> Result<Bytes> {
    let mut out = Vec::new(alloc);
    for line in lines.split(|byte| *byte == b'\n') {
        if line.is_empty() {
            continue;
        }
        let value = line_value(alloc, schema, line)?;
        put_encoded(alloc, &mut out, schema, &value)?;
    }
    Ok(Bytes::from_vec(out))
}
