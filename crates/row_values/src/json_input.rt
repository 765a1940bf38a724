// Rows that come in as JSON.
ghost use Rattle.std.specs.Prelude.{◌≡◌, ◌⊎◌, true, map, IfOk, IfSome, option_map};
ghost use Rattle.std.specs.List.{AllZip, list_any};
ghost use Rattle.std.specs.Char.{is_ascii_uppercase};
ghost use Rattle.hudi_base.specs.declared.value.Value as variant;
ghost use Rattle.avro_schema.specs.AvroTypes.{boolean, int, long, bytes, string};
ghost use Rattle.avro_schema.specs.Fits.{Fits};
ghost use Rattle.serde_json.specs.View.{view};
ghost use Rattle.payload_merge.specs.declared.row_error.RowError.TheVariants.{Memory, Mismatch};
ghost use Rattle.row_values.specs.declared.flat_field.CellType.TheVariants as types;
ghost use Rattle.row_values.specs.Fields.{cell_type, field_type};
ghost use Rattle.row_values.specs.Cells.{IsCell, IsCellOf, union_value, value_if_nullable};
ghost use Rattle.row_values.specs.Layouts.{own_type};
ghost use Rattle.row_values.specs.JsonRows.{AnswersValue, AnswersValues, cell_of_json, cell_or_null, has_only_fields, int_of, lower_hex_bytes, member_cell, member_value};

use crate::flat_field::{CellType, FlatField};
use crate::row_layout::RowLayout;
use hex::FromHexError;
use hudi_base::{Bytes, Name, Value, Values};
use payload_merge::RowError;
use serde_json::Value as Json;
use sqlite_items::{Boxed, Items};
use std::alloc::{AllocError, Global};
use table_forms::least_unknown;

// A whole number of 32 bits.
fn int_of(number: i64) -> Option<i32>
    ensures { result ≡ int_of number }
{
    i32::try_from(number).ok()
}

fn has_capital(text: &str) -> bool
    ensures { result ≡ list_any is_ascii_uppercase text.now }
{
    text.as_bytes().iter().any(|byte| byte.is_ascii_uppercase())
}

// The bytes that pairs of hexadecimal digits say, with no capital letter.
fn lower_hex_bytes(alloc: Global, text: &str) -> Result<Option<Bytes>, AllocError>
    ensures { IfOk result (λ found. found ≡ lower_hex_bytes text.now) }
{
    if has_capital(text) {
        return Ok(None);
    }
    match hex::decode(alloc, text) {
        Ok(bytes) => Ok(Some(Bytes::from_vec(bytes))),
        Err(FromHexError::OutOfMemory) => Err(AllocError),
        Err(_) => Ok(None),
    }
}

// A text as a cell. A length is a long, so it has a limit, which no memory reaches.
fn text_cell(alloc: Global, text: &str) -> Result<Value, AllocError>
    ensures text { IfOk result (λ v. v ≡ variant.Text text.now) }
    ensures fits { IfOk result (Fits string) }
{
    if text.len() > i64::MAX as usize {
        return Err(AllocError);
    }
    Ok(Value::Text(Name::from_text(alloc, text)?))
}

// Bytes as a cell, with the same limit.
fn bytes_cell(content: Bytes) -> Result<Value, AllocError>
    ensures content { IfOk result (λ v. v ≡ variant.Bytes content) }
    ensures fits { IfOk result (Fits bytes) }
{
    if content.as_slice().len() > i64::MAX as usize {
        return Err(AllocError);
    }
    Ok(Value::Bytes(content))
}

#[tactic(auto, unfolding(crate::specs::JsonRows::cell_of_json))]
fn boolean_of_json(json: &Json) -> Option<Value>
    ensures value { result ≡ cell_of_json types.Boolean (view json.now) }
    ensures fits { IfSome result (Fits boolean) }
{
    match json.as_bool() {
        Some(truth) => Some(Value::Boolean(truth)),
        None => None,
    }
}

#[tactic(auto, unfolding(crate::specs::JsonRows::cell_of_json))]
fn int_of_json(json: &Json) -> Option<Value>
    ensures value { result ≡ cell_of_json types.Int (view json.now) }
    ensures fits { IfSome result (Fits int) }
{
    match int_of(json.as_i64()?) {
        Some(number) => Some(Value::Int(number)),
        None => None,
    }
}

#[tactic(auto, unfolding(crate::specs::JsonRows::cell_of_json))]
fn long_of_json(json: &Json) -> Option<Value>
    ensures value { result ≡ cell_of_json types.Long (view json.now) }
    ensures fits { IfSome result (Fits long) }
{
    match json.as_i64() {
        Some(number) => Some(Value::Long(number)),
        None => None,
    }
}

#[tactic(auto, unfolding(crate::specs::JsonRows::cell_of_json))]
fn bytes_of_json(alloc: Global, json: &Json) -> Result<Option<Value>, AllocError>
    ensures value { IfOk result (λ found. found ≡ cell_of_json types.Bytes (view json.now)) }
    ensures fits { IfOk result (λ found. IfSome found (Fits bytes)) }
{
    let Some(text) = json.as_str() else {
        return Ok(None);
    };
    match lower_hex_bytes(alloc, text)? {
        Some(content) => Ok(Some(bytes_cell(content)?)),
        None => Ok(None),
    }
}

#[tactic(auto, unfolding(crate::specs::JsonRows::cell_of_json))]
fn text_of_json(alloc: Global, json: &Json) -> Result<Option<Value>, AllocError>
    ensures value { IfOk result (λ found. found ≡ cell_of_json types.Text (view json.now)) }
    ensures fits { IfOk result (λ found. IfSome found (Fits string)) }
{
    match json.as_str() {
        Some(text) => Ok(Some(text_cell(alloc, text)?)),
        None => Ok(None),
    }
}

// The cell that a JSON value says.
fn cell_of_json(alloc: Global, cell: CellType, json: &Json) -> Result<Option<Value>, AllocError>
    ensures value { IfOk result (λ found. found ≡ cell_of_json cell (view json.now)) }
    ensures fits { IfOk result (λ found. IfSome found (Fits (cell_type cell))) }
{
    match cell {
        CellType::Boolean => Ok(boolean_of_json(json)),
        CellType::Int => Ok(int_of_json(json)),
        CellType::Long => Ok(long_of_json(json)),
        CellType::Bytes => bytes_of_json(alloc, json),
        CellType::Text => text_of_json(alloc, json),
    }
}

// The same of a field that may be null.
fn cell_or_null(alloc: Global, cell: CellType, json: &Json) -> Result<Option<Value>, AllocError>
    ensures value { IfOk result (λ found. found ≡ cell_or_null cell (view json.now)) }
    ensures fits { IfOk result (λ found. IfSome found (IsCellOf true cell)) }
{
    match json {
        Json::Null => Ok(Some(Value::Null)),
        _ => cell_of_json(alloc, cell, json),
    }
}

// The cell that the member of a field's name says.
#[tactic(auto, unfolding(crate::specs::JsonRows::member_cell))]
fn member_cell(
    alloc: Global,
    field: &FlatField,
    json: Option<&Json>,
) -> Result<Option<Value>, AllocError>
    ensures value { IfOk result (λ found. found ≡ member_cell field.now (option_map (λ v. view v.now) json.entry)) }
    ensures fits { IfOk result (λ found. IfSome found (IsCell field.now)) }
{
    match json {
        Some(json) if field.nullable => cell_or_null(alloc, field.cell, json),
        Some(json) => cell_of_json(alloc, field.cell, json),
        None if field.nullable => Ok(Some(Value::Null)),
        None => Ok(None),
    }
}

// A cell as the value of a field that may be null.
fn union_value(alloc: Global, cell: Value) -> Result<Value, AllocError>
    ensures { IfOk result (λ v. v ≡ union_value cell) }
{
    match cell {
        Value::Null => Ok(Value::Union(0, Boxed::new(alloc, Value::Null)?)),
        cell => Ok(Value::Union(1, Boxed::new(alloc, cell)?)),
    }
}

fn value_if_nullable(alloc: Global, nullable: bool, cell: Value) -> Result<Value, AllocError>
    ensures { IfOk result (λ v. v ≡ value_if_nullable nullable cell) }
{
    if nullable {
        union_value(alloc, cell)
    } else {
        Ok(cell)
    }
}

// The value of a field that the member of its name says.
fn member_value(alloc: Global, json: &Json, field: &FlatField) -> Result<Option<Value>, AllocError>
    ensures value { IfOk result (λ found. found ≡ member_value (view json.now) field.now) }
    ensures fits { IfOk result (λ found. IfSome found (Fits (field_type field.now))) }
{
    match member_cell(alloc, field, json.get(field.name.as_str()))? {
        Some(cell) => Ok(Some(value_if_nullable(alloc, field.nullable, cell)?)),
        None => Ok(None),
    }
}

fn names_of(alloc: Global, fields: &[FlatField]) -> Result<Vec<&str>, AllocError>
    ensures { IfOk result (λ names. map (λ name. name.now) names.items ≡ map (λ field. field.name) fields.now) }
{
    let mut names = Vec::with_capacity(alloc, fields.len())?;
    for field in fields {
        if names.push(field.name.as_str()).is_err() {
            return Err(AllocError);
        }
    }
    Ok(names)
}

// Whether the object has no other members than the fields.
fn has_only_fields(alloc: Global, fields: &[FlatField], json: &Json) -> Result<bool, AllocError>
    ensures { IfOk result (λ only. only ≡ has_only_fields fields.now (view json.now)) }
{
    let names = names_of(alloc, fields)?;
    Ok(least_unknown(&names, json).is_none())
}

// The refusal of a field at a place. A place that 32 bits don't hold has no refusal but want of memory.
fn mismatch(place: usize) -> RowError
    ensures { (result ≡ Mismatch place) ⊎ (result ≡ Memory) }
{
    match u32::try_from(place) {
        Ok(place) => RowError::Mismatch(place),
        Err(_) => RowError::Memory,
    }
}

// The values of fields that JSON says, or the place of the first that it doesn't fit.
fn values_of_json(alloc: Global, fields: &[FlatField], json: &Json) -> Result<Values, RowError>
    ensures values { AnswersValues fields.now (view json.now) result }
    ensures fits { IfOk result (λ values. AllZip (λ field v. Fits (field_type field) v) fields.now values) }
{
    let only = has_only_fields(alloc, fields, json)?;
    let mut found = Items::new(alloc);
    for field in fields {
        match member_value(alloc, json, field)? {
            Some(value) => found.push(value)?,
            None => return Err(mismatch(found.len())),
        }
    }
    if !only {
        return Err(mismatch(found.len()));
    }
    Ok(found)
}

impl RowLayout {
    /// The record of the table's schema that a JSON object says: null by null, a boolean by true or false, a whole
    /// number in range by itself, a string by itself, and bytes by pairs of lower-case hexadecimal digits. A field that
    /// may be null may be missing, which is null. `Mismatch` comes exactly where a field's member is missing, without
    /// being one that may be null, or isn't of its type, with the place of the first such field; where all fit and the
    /// object has another member, it has the number of fields. The only other error is want of memory.
    pub fn value_of_json(&self, alloc: Global, json: &Json) -> Result<Value, RowError>
        ensures value { AnswersValue self.now.fields (view json.now) result }
        ensures fits { IfOk result (Fits (own_type self.now)) }
    {
        Ok(Value::Record(values_of_json(alloc, self.fields.as_slice(), json)?))
    }
}
