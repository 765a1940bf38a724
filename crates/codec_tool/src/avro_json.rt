// The JSON of a value: a number, a text or a truth as it is, bytes in hexadecimal digits, an enum's index, an array of an
// array's items, of a map's keys each with its value, of a union's index and its value, and of a record's values.
use hudi_base::{Pair, Value};
use serde_json::{Number, Value as Json};
use std::alloc::{AllocError, Global};

fn text_json(alloc: Global, text: &str) -> Result<Json, AllocError> {
    Ok(Json::String(String::from_str(alloc, text)?))
}

fn bytes_json(alloc: Global, bytes: &[u8]) -> Result<Json, AllocError> {
    Ok(Json::String(hex::encode(alloc, bytes)?))
}

fn two(alloc: Global, first: Json, second: Json) -> Result<Json, AllocError> {
    let mut both = Vec::new(alloc);
    both.push(first)?;
    both.push(second)?;
    Ok(Json::Array(both))
}

#[cycle(json)]
fn values_json(alloc: Global, values: &[Value]) -> Result<Json, AllocError> {
    let mut all = Vec::new(alloc);
    for value in values {
        all.push(json_of(alloc, value)?)?;
    }
    Ok(Json::Array(all))
}

#[cycle(json)]
fn entry_json(alloc: Global, entry: &Pair) -> Result<Json, AllocError> {
    let value = json_of(alloc, &entry.value)?;
    two(alloc, text_json(alloc, entry.key.as_str())?, value)
}

#[cycle(json)]
fn entries_json(alloc: Global, entries: &[Pair]) -> Result<Json, AllocError> {
    let mut all = Vec::new(alloc);
    for entry in entries {
        all.push(entry_json(alloc, entry)?)?;
    }
    Ok(Json::Array(all))
}

#[cycle(json)]
fn union_json(alloc: Global, index: u32, value: &Value) -> Result<Json, AllocError> {
    let value = json_of(alloc, value)?;
    two(alloc, Json::Number(Number::from(index)), value)
}

/// The JSON of a value. The only error is want of memory.
#[cycle(json)]
pub fn json_of(alloc: Global, value: &Value) -> Result<Json, AllocError> {
    match value {
        Value::Null => Ok(Json::Null),
        Value::Boolean(truth) => Ok(Json::Bool(*truth)),
        Value::Int(number) => Ok(Json::Number(Number::from(*number))),
        Value::Long(number) => Ok(Json::Number(Number::from(*number))),
        Value::Bytes(bytes) => bytes_json(alloc, bytes.as_slice()),
        Value::Text(text) => text_json(alloc, text.as_str()),
        Value::Fixed(bytes) => bytes_json(alloc, bytes.as_slice()),
        Value::Enum(index) => Ok(Json::Number(Number::from(*index))),
        Value::Array(values) => values_json(alloc, values.as_slice()),
        Value::Map(entries) => entries_json(alloc, entries.as_slice()),
        Value::Union(index, inner) => union_json(alloc, *index, inner.get()),
        Value::Record(values) => values_json(alloc, values.as_slice()),
    }
}
