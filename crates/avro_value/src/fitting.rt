// Whether a value is of a schema's type.
ghost use Rattle.std.specs.Prelude.{◌≡◌, ◌<◌, ◌^◌, ◌↔◌, List, length, map, IsTrue, IsUtf8};
ghost use Rattle.std.specs.List.{AllByRecursion};
ghost use Rattle.avro_schema.specs.AvroTypes.{type_of, field_of, branches_of, fields_of, null, boolean, int, long, bytes, string, fixed_of, enum_of, array_of, map_of, union_of, record_of};
ghost use Rattle.avro_schema.specs.Fits.{Fits, FitsEntry, FitsBranch, FitFields};

use avro_schema::{Field, Schema};
use hudi_base::{Name, Pair, Value};

// Whether a length or a count is a long.
fn is_long(len: usize) -> bool
    ensures { IsTrue result ↔ (len < 2 ^ 63) }
{
    len <= i64::MAX as usize
}

fn is_null(value: &Value) -> bool
    ensures { IsTrue result ↔ Fits null value.now }
{
    matches!(value, Value::Null)
}

fn is_boolean(value: &Value) -> bool
    ensures { IsTrue result ↔ Fits boolean value.now }
{
    matches!(value, Value::Boolean(_))
}

fn is_int(value: &Value) -> bool
    ensures { IsTrue result ↔ Fits int value.now }
{
    match value {
        Value::Int(number) => {
            let _ranged = *number;
            true
        }
        _ => false,
    }
}

fn is_long_value(value: &Value) -> bool
    ensures { IsTrue result ↔ Fits long value.now }
{
    match value {
        Value::Long(number) => {
            let _ranged = *number;
            true
        }
        _ => false,
    }
}

fn are_bytes(value: &Value) -> bool
    ensures { IsTrue result ↔ Fits bytes value.now }
{
    match value {
        Value::Bytes(content) => is_long(content.as_slice().len()),
        _ => false,
    }
}

// Whether a text's length is a long. That it is UTF-8 is known of each.
fn is_long_text(text: &Name) -> bool
    ensures long { IsTrue result ↔ (length text.now < 2 ^ 63) }
    ensures utf8 { IsUtf8 text.now }
{
    is_long(text.as_slice().len())
}

fn is_text(value: &Value) -> bool
    ensures { IsTrue result ↔ Fits string value.now }
{
    match value {
        Value::Text(text) => is_long_text(text),
        _ => false,
    }
}

fn is_fixed(name: &Name, size: u32, value: &Value) -> bool
    ensures { IsTrue result ↔ Fits (fixed_of name.now size) value.now }
{
    match value {
        Value::Fixed(content) => content.as_slice().len() == size as usize,
        _ => false,
    }
}

fn is_enum(name: &Name, symbols: &[Name], value: &Value) -> bool
    ensures { IsTrue result ↔ Fits (enum_of name.now symbols.now) value.now }
{
    match value {
        Value::Enum(index) => (*index as usize) < symbols.len() && *index <= i32::MAX as u32,
        _ => false,
    }
}

#[cycle(fits)]
fn all_fit(item: &Schema, values: &[Value]) -> bool
    ensures { IsTrue result ↔ AllByRecursion (Fits (type_of item.now)) values.now }
{
    for value in values {
        if !fits(item, value) {
            return false;
        }
    }
    true
}

#[cycle(fits)]
fn is_array(item: &Schema, value: &Value) -> bool
    ensures { IsTrue result ↔ Fits (array_of (type_of item.now)) value.now }
{
    match value {
        Value::Array(values) => is_long(values.len()) && all_fit(item, values.as_slice()),
        _ => false,
    }
}

#[cycle(fits)]
fn entry_fits(schema: &Schema, entry: &Pair) -> bool
    ensures { IsTrue result ↔ FitsEntry (Fits (type_of schema.now)) entry.now }
{
    is_long_text(&entry.key) && fits(schema, &entry.value)
}

#[cycle(fits)]
fn all_entries_fit(schema: &Schema, entries: &[Pair]) -> bool
    ensures { IsTrue result ↔ AllByRecursion (FitsEntry (Fits (type_of schema.now))) entries.now }
{
    for entry in entries {
        if !entry_fits(schema, entry) {
            return false;
        }
    }
    true
}

#[cycle(fits)]
fn is_map(schema: &Schema, value: &Value) -> bool
    ensures { IsTrue result ↔ Fits (map_of (type_of schema.now)) value.now }
{
    match value {
        Value::Map(entries) => is_long(entries.len())
            && all_entries_fit(schema, entries.as_slice()),
        _ => false,
    }
}

#[cycle(fits)]
fn fits_branch(branches: &[Schema], index: usize, value: &Value) -> bool
    ensures { IsTrue result ↔ FitsBranch (branches_of (map type_of branches.now)) index value.now }
{
    if index >= branches.len() {
        return false;
    }
    fits(&branches[index], value)
}

#[cycle(fits)]
fn is_union(branches: &[Schema], value: &Value) -> bool
    ensures { IsTrue result ↔ Fits (union_of (branches_of (map type_of branches.now))) value.now }
{
    match value {
        Value::Union(index, inner) => {
            *index <= i32::MAX as u32 && fits_branch(branches, *index as usize, inner.get())
        }
        _ => false,
    }
}

#[cycle(fits)]
fn field_fits(field: &Field, value: &Value) -> bool
    ensures { IsTrue result ↔ Fits (field_of field.now).1 value.now }
{
    fits(&field.schema, value)
}

#[cycle(fits)]
fn fields_fit(fields: &[Field], values: &[Value]) -> bool
    ensures { IsTrue result ↔ FitFields (fields_of (map field_of fields.now)) values.now }
{
    if fields.len() != values.len() {
        return false;
    }
    for i in 0..fields.len() {
        if !field_fits(&fields[i], &values[i]) {
            return false;
        }
    }
    true
}

#[cycle(fits)]
fn is_record(name: &Name, fields: &[Field], value: &Value) -> bool
    ensures { IsTrue result ↔ Fits (record_of name.now (fields_of (map field_of fields.now))) value.now }
{
    match value {
        Value::Record(values) => fields_fit(fields, values.as_slice()),
        _ => false,
    }
}

/// Whether a value is of a schema's type. A length and a count are longs, and an index is an int, so a text, bytes, an array or
/// a map of 2^63 bytes or items is of no type, and neither is an index of 2^31. It takes no memory.
#[cycle(fits)]
pub fn fits(schema: &Schema, value: &Value) -> bool
    ensures { IsTrue result ↔ Fits (type_of schema.now) value.now }
{
    match schema {
        Schema::Null => is_null(value),
        Schema::Boolean => is_boolean(value),
        Schema::Int => is_int(value),
        Schema::Long => is_long_value(value),
        Schema::Bytes => are_bytes(value),
        Schema::Text => is_text(value),
        Schema::Fixed(name, size) => is_fixed(name, *size, value),
        Schema::Enum(name, symbols) => is_enum(name, symbols.as_slice(), value),
        Schema::Array(item) => is_array(item.get(), value),
        Schema::Map(inner) => is_map(inner.get(), value),
        Schema::Union(branches) => is_union(branches.as_slice(), value),
        Schema::Record(name, fields) => is_record(name, fields.as_slice(), value),
    }
}
