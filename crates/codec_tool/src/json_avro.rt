// The value of a schema's type that a JSON value stands for, the other way round.
use anyhow::{Result, bail};
use avro_schema::{Field, Schema};
use hudi_base::{Bytes, Name, Pair, Pairs, Value, Values};
use serde_json::Value as Json;
use sqlite_items::{Boxed, Items};
use std::alloc::Global;

fn long_of(json: &Json) -> Result<i64> {
    match json.as_i64() {
        Some(number) => Ok(number),
        None => bail!("no long"),
    }
}

fn int_of(json: &Json) -> Result<i32> {
    match i32::try_from(long_of(json)?) {
        Ok(number) => Ok(number),
        Err(_) => bail!("no int"),
    }
}

fn index_of(json: &Json) -> Result<u32> {
    match u32::try_from(long_of(json)?) {
        Ok(number) => Ok(number),
        Err(_) => bail!("no index"),
    }
}

fn boolean_of(json: &Json) -> Result<bool> {
    match json.as_bool() {
        Some(truth) => Ok(truth),
        None => bail!("no boolean"),
    }
}

fn str_of(json: &Json) -> Result<&str> {
    match json.as_str() {
        Some(text) => Ok(text),
        None => bail!("no text"),
    }
}

fn items_of(json: &Json) -> Result<&[Json]> {
    match json.as_array() {
        Some(items) => Ok(items.as_slice()),
        None => bail!("no array"),
    }
}

fn name_of(alloc: Global, json: &Json) -> Result<Name> {
    let text = str_of(json)?;
    Ok(Name::from_text(alloc, text)?)
}

fn bytes_of(alloc: Global, json: &Json) -> Result<Bytes> {
    let digits = str_of(json)?;
    let decoded: Vec<u8> = hex::decode(alloc, digits)?;
    Ok(Bytes::from_vec(decoded))
}

fn two_of(json: &Json) -> Result<(&Json, &Json)> {
    match items_of(json)? {
        [first, second] => Ok((first, second)),
        _ => bail!("no pair"),
    }
}

#[cycle(value)]
fn values_of(alloc: Global, item: &Schema, items: &[Json]) -> Result<Values> {
    let mut values = Items::new(alloc);
    for json in items {
        let value = value_of(alloc, item, json)?;
        values.push(value)?;
    }
    Ok(values)
}

#[cycle(value)]
fn entry_of(alloc: Global, inner: &Schema, json: &Json) -> Result<Pair> {
    let (key, value) = two_of(json)?;
    let value = value_of(alloc, inner, value)?;
    let key = name_of(alloc, key)?;
    Ok(Pair { key, value })
}

#[cycle(value)]
fn entries_of(alloc: Global, inner: &Schema, items: &[Json]) -> Result<Pairs> {
    let mut entries = Items::new(alloc);
    for json in items {
        let entry = entry_of(alloc, inner, json)?;
        entries.push(entry)?;
    }
    Ok(entries)
}

#[cycle(value)]
fn branch_of(alloc: Global, branches: &[Schema], index: u32, json: &Json) -> Result<Value> {
    match branches.get(index as usize) {
        Some(schema) => {
            let inner = value_of(alloc, schema, json)?;
            Ok(Value::Union(index, Boxed::new(alloc, inner)?))
        }
        None => bail!("no branch"),
    }
}

#[cycle(value)]
fn union_of(alloc: Global, branches: &[Schema], json: &Json) -> Result<Value> {
    let (index, value) = two_of(json)?;
    let index = index_of(index)?;
    branch_of(alloc, branches, index, value)
}

#[cycle(value)]
fn field_of(alloc: Global, field: &Field, json: &Json) -> Result<Value> {
    value_of(alloc, &field.schema, json)
}

#[cycle(value)]
fn record_of(alloc: Global, fields: &[Field], items: &[Json]) -> Result<Value> {
    if fields.len() != items.len() {
        bail!("no record");
    }
    let mut values = Items::new(alloc);
    for i in 0..fields.len() {
        let value = field_of(alloc, &fields[i], &items[i])?;
        values.push(value)?;
    }
    Ok(Value::Record(values))
}

/// The value of the schema's type. A refusal says what isn't there.
#[cycle(value)]
pub fn value_of(alloc: Global, schema: &Schema, json: &Json) -> Result<Value> {
    match schema {
        Schema::Null => Ok(Value::Null),
        Schema::Boolean => Ok(Value::Boolean(boolean_of(json)?)),
        Schema::Int => Ok(Value::Int(int_of(json)?)),
        Schema::Long => Ok(Value::Long(long_of(json)?)),
        Schema::Bytes => Ok(Value::Bytes(bytes_of(alloc, json)?)),
        Schema::Text => Ok(Value::Text(name_of(alloc, json)?)),
        Schema::Fixed(..) => Ok(Value::Fixed(bytes_of(alloc, json)?)),
        Schema::Enum(..) => Ok(Value::Enum(index_of(json)?)),
        Schema::Array(item) => Ok(Value::Array(values_of(alloc, item.get(), items_of(json)?)?)),
        Schema::Map(inner) => Ok(Value::Map(entries_of(alloc, inner.get(), items_of(json)?)?)),
        Schema::Union(branches) => union_of(alloc, branches.as_slice(), json),
        Schema::Record(_, fields) => record_of(alloc, fields.as_slice(), items_of(json)?),
    }
}
