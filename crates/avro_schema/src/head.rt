// What one JSON value says of a schema, before the schemas inside it are read.
ghost use Rattle.std.specs.Prelude.{◌≡◌, [], ◌∷◌, option_map, map, codes, IfOk};
ghost use Rattle.serde_json.specs.Data.{array};
ghost use Rattle.serde_json.specs.View.{view, items_view};
ghost use Rattle.avro_schema.specs.Heads.{named_head, has_only, name_in, fixed_head, enum_head, array_head, map_head, record_head_of, plain_head, typed_head, head_of, symbol_after, symbols_from};
ghost use Rattle.avro_schema.specs.HeadViews.{head_view};
ghost use Rattle.avro_schema.specs.SchemaTexts.{Answers};

use crate::name_list::NameList;
use crate::names::is_name;
use crate::schema::{Schema, Symbols};
use crate::schema_error::{Path, SchemaError};
use hudi_base::Name;
use serde_json::Value;
use std::alloc::{AllocError, Global};
use table_forms::{items_at, least_unknown, number_at, text_at};

/// The greatest number of bytes of a fixed.
pub const MAX_FIXED_SIZE: u32 = 65_536;

// A schema whose inner schemas are JSON still.
#[derive(Drop)]
pub(crate) enum Head<'a> {
    // A schema with none inside.
    Leaf(Schema),
    Array(&'a Value),
    Map(&'a Value),
    Union(&'a [Value]),
    Record(&'a str, &'a [Value]),
}

// The schema of a type's name alone.
#[tactic(auto, unfolding(crate::specs::Heads::named_head))]
fn named_head<'a>(alloc: Global, name: &str) -> Result<Head<'a>, SchemaError>
    ensures { Answers head_view result (named_head name.now) }
{
    if name == "null" {
        Ok(Head::Leaf(Schema::Null))
    } else if name == "boolean" {
        Ok(Head::Leaf(Schema::Boolean))
    } else if name == "int" {
        Ok(Head::Leaf(Schema::Int))
    } else if name == "long" {
        Ok(Head::Leaf(Schema::Long))
    } else if name == "bytes" {
        Ok(Head::Leaf(Schema::Bytes))
    } else if name == "string" {
        Ok(Head::Leaf(Schema::Text))
    } else if name == "float" || name == "double" {
        Err(SchemaError::FloatType(Path::new(alloc)))
    } else {
        Err(SchemaError::NamedReference(Path::new(alloc)))
    }
}

// The object's member `name`, where it is a name.
pub(crate) fn name_in(alloc: Global, value: &Value) -> Result<&str, SchemaError>
    ensures { Answers (λ name. name.now) result (name_in (view value.now)) }
{
    match text_at("name", value) {
        Some(name) if is_name(name) => Ok(name),
        _ => Err(SchemaError::bad(alloc)),
    }
}

// Whether an object has no other members than those of its kind and the attributes that are passed over.

fn has_fixed_members(value: &Value) -> bool
    ensures { result ≡ has_only (codes "name" ∷ codes "size" ∷ codes "type" ∷ []) (view value.now) }
{
    least_unknown(
        &[
            "name",
            "size",
            "type",
            "aliases",
            "default",
            "doc",
            "logicalType",
            "namespace",
            "order",
        ],
        value,
    )
    .is_none()
}

fn has_enum_members(value: &Value) -> bool
    ensures { result ≡ has_only (codes "name" ∷ codes "symbols" ∷ codes "type" ∷ []) (view value.now) }
{
    least_unknown(
        &[
            "name",
            "symbols",
            "type",
            "aliases",
            "default",
            "doc",
            "logicalType",
            "namespace",
            "order",
        ],
        value,
    )
    .is_none()
}

fn has_array_members(value: &Value) -> bool
    ensures { result ≡ has_only (codes "items" ∷ codes "type" ∷ []) (view value.now) }
{
    least_unknown(
        &[
            "items",
            "type",
            "aliases",
            "default",
            "doc",
            "logicalType",
            "namespace",
            "order",
        ],
        value,
    )
    .is_none()
}

fn has_map_members(value: &Value) -> bool
    ensures { result ≡ has_only (codes "type" ∷ codes "values" ∷ []) (view value.now) }
{
    least_unknown(
        &[
            "type",
            "values",
            "aliases",
            "default",
            "doc",
            "logicalType",
            "namespace",
            "order",
        ],
        value,
    )
    .is_none()
}

fn has_record_members(value: &Value) -> bool
    ensures { result ≡ has_only (codes "fields" ∷ codes "name" ∷ codes "type" ∷ []) (view value.now) }
{
    least_unknown(
        &[
            "fields",
            "name",
            "type",
            "aliases",
            "default",
            "doc",
            "logicalType",
            "namespace",
            "order",
        ],
        value,
    )
    .is_none()
}

fn has_plain_members(value: &Value) -> bool
    ensures { result ≡ has_only (codes "type" ∷ []) (view value.now) }
{
    least_unknown(
        &[
            "type",
            "aliases",
            "default",
            "doc",
            "logicalType",
            "namespace",
            "order",
        ],
        value,
    )
    .is_none()
}

pub(crate) fn has_field_members(value: &Value) -> bool
    ensures { result ≡ has_only (codes "name" ∷ codes "type" ∷ []) (view value.now) }
{
    least_unknown(
        &[
            "name",
            "type",
            "aliases",
            "default",
            "doc",
            "logicalType",
            "namespace",
            "order",
        ],
        value,
    )
    .is_none()
}

// The symbol of an enum, if it is a name that none before it has.
fn symbol_after<'a>(found: &NameList<'a>, value: &'a Value) -> Option<&'a str>
    ensures { option_map (λ symbol. symbol.now) result ≡ symbol_after found.now (view value.now) }
{
    match value.as_str() {
        Some(symbol) if is_name(symbol) && !found.has(symbol) => Some(symbol),
        _ => None,
    }
}

// The symbols of an enum, if all are names and no two are the same.
fn symbol_names(alloc: Global, values: &[Value]) -> Result<Option<NameList<'_>>, AllocError>
    ensures { IfOk result (λ symbols. symbols ≡ symbols_from [] (items_view values.now)) }
{
    let mut found = NameList::new(alloc);
    for value in values {
        let Some(symbol) = symbol_after(&found, value) else {
            return Ok(None);
        };
        found.push(symbol)?;
    }
    Ok(Some(found))
}

// Copies of names.
fn copies_of(alloc: Global, names: &[&str]) -> Result<Symbols, AllocError>
    ensures { IfOk result (λ symbols. symbols ≡ map (λ name. name.now) names.now) }
{
    let mut symbols = Symbols::new(alloc);
    for name in names {
        symbols.push(Name::from_text(alloc, name)?)?;
    }
    Ok(symbols)
}

#[tactic(auto, unfolding(crate::specs::Heads::fixed_head))]
fn fixed_head<'a>(alloc: Global, value: &Value) -> Result<Head<'a>, SchemaError>
    ensures { Answers head_view result (fixed_head (view value.now)) }
{
    let name = name_in(alloc, value)?;
    let Some(size) = number_at("size", value) else {
        return Err(SchemaError::bad(alloc));
    };
    if size > u64::from(MAX_FIXED_SIZE) || !has_fixed_members(value) {
        return Err(SchemaError::bad(alloc));
    }
    let name = Name::from_text(alloc, name)?;
    Ok(Head::Leaf(Schema::Fixed(name, size as u32)))
}

#[tactic(auto, unfolding(crate::specs::Heads::enum_head))]
fn enum_head<'a>(alloc: Global, value: &Value) -> Result<Head<'a>, SchemaError>
    ensures { Answers head_view result (enum_head (view value.now)) }
{
    let name = name_in(alloc, value)?;
    let Some(items) = items_at("symbols", value) else {
        return Err(SchemaError::bad(alloc));
    };
    let Some(symbols) = symbol_names(alloc, items)? else {
        return Err(SchemaError::bad(alloc));
    };
    if symbols.len() == 0 || !has_enum_members(value) {
        return Err(SchemaError::bad(alloc));
    }
    let name = Name::from_text(alloc, name)?;
    let symbols = copies_of(alloc, symbols.as_slice())?;
    Ok(Head::Leaf(Schema::Enum(name, symbols)))
}

#[tactic(auto, unfolding(crate::specs::Heads::array_head))]
fn array_head(alloc: Global, value: &Value) -> Result<Head<'_>, SchemaError>
    ensures { Answers head_view result (array_head (view value.now)) }
{
    let Some(inner) = value.get("items") else {
        return Err(SchemaError::bad(alloc));
    };
    if has_array_members(value) {
        Ok(Head::Array(inner))
    } else {
        Err(SchemaError::bad(alloc))
    }
}

#[tactic(auto, unfolding(crate::specs::Heads::map_head))]
fn map_head(alloc: Global, value: &Value) -> Result<Head<'_>, SchemaError>
    ensures { Answers head_view result (map_head (view value.now)) }
{
    let Some(inner) = value.get("values") else {
        return Err(SchemaError::bad(alloc));
    };
    if has_map_members(value) {
        Ok(Head::Map(inner))
    } else {
        Err(SchemaError::bad(alloc))
    }
}

#[tactic(auto, unfolding(crate::specs::Heads::record_head_of))]
fn record_head(alloc: Global, value: &Value) -> Result<Head<'_>, SchemaError>
    ensures { Answers head_view result (record_head_of (view value.now)) }
{
    let name = name_in(alloc, value)?;
    let Some(fields) = items_at("fields", value) else {
        return Err(SchemaError::bad(alloc));
    };
    if has_record_members(value) {
        Ok(Head::Record(name, fields))
    } else {
        Err(SchemaError::bad(alloc))
    }
}

// A type's name alone comes before what else the object has.
#[tactic(auto, unfolding(crate::specs::Heads::plain_head))]
fn plain_head<'a>(alloc: Global, name: &str, value: &Value) -> Result<Head<'a>, SchemaError>
    ensures { Answers head_view result (plain_head name.now (view value.now)) }
{
    let head = named_head(alloc, name)?;
    if has_plain_members(value) {
        Ok(head)
    } else {
        Err(SchemaError::bad(alloc))
    }
}

#[tactic(auto, unfolding(crate::specs::Heads::typed_head))]
fn typed_head<'a>(alloc: Global, name: &str, value: &'a Value) -> Result<Head<'a>, SchemaError>
    ensures { Answers head_view result (typed_head name.now (view value.now)) }
{
    if name == "fixed" {
        fixed_head(alloc, value)
    } else if name == "enum" {
        enum_head(alloc, value)
    } else if name == "array" {
        array_head(alloc, value)
    } else if name == "map" {
        map_head(alloc, value)
    } else if name == "record" {
        record_head(alloc, value)
    } else {
        plain_head(alloc, name, value)
    }
}

// A union, which has a branch.
#[tactic(auto, unfolding(crate::specs::Heads::head_of))]
fn union_head(alloc: Global, values: &[Value]) -> Result<Head<'_>, SchemaError>
    ensures { Answers head_view result (head_of (array (items_view values.now))) }
{
    match values {
        [] => Err(SchemaError::bad(alloc)),
        [_, ..] => Ok(Head::Union(values)),
    }
}

// A type's name, a union of at least one branch, or an object with a type's name.
#[tactic(auto, unfolding(crate::specs::Heads::head_of))]
pub(crate) fn head_of(alloc: Global, value: &Value) -> Result<Head<'_>, SchemaError>
    ensures { Answers head_view result (head_of (view value.now)) }
{
    match value {
        Value::String(name) => named_head(alloc, name.as_str()),
        Value::Array(items) => union_head(alloc, items),
        Value::Object(_) => match text_at("type", value) {
            Some(name) => typed_head(alloc, name, value),
            None => Err(SchemaError::bad(alloc)),
        },
        _ => Err(SchemaError::bad(alloc)),
    }
}
