// The written text of a schema.
ghost use Rattle.std.specs.Prelude.{◌≡◌, Ok, IfOk, IsUtf8, map};
ghost use Rattle.serde_json.specs.Data as json;
ghost use Rattle.serde_json.specs.Data.{Data};
ghost use Rattle.serde_json.specs.View.{view, items_of};
ghost use Rattle.avro_schema.specs.AvroTypes.{type_of, field_of, branches_of, fields_of, fixed_of, enum_of, array_of, map_of, union_of, record_of};
ghost use Rattle.avro_schema.specs.SchemaTexts.{type_json, field_json, fields_json, texts_json, type_in, type_named, type_text};

use crate::schema::{Field, Schema};
use hudi_base::{Bytes, Name};
use serde_json::{Value, json};
use std::alloc::{AllocError, Global};

fn name_json(alloc: Global, name: &Name) -> Result<Value, AllocError>
    ensures { IfOk result (λ v. view v ≡ json.string name.now) }
{
    Ok(Value::String(String::from_str(alloc, name.as_str())?))
}

fn names_json(alloc: Global, names: &[Name]) -> Result<Value, AllocError>
    ensures { IfOk result (λ v. view v ≡ json.array (texts_json names.now)) }
{
    let mut values = Vec::new(alloc);
    for name in names {
        values.push(name_json(alloc, name)?)?;
    }
    Ok(Value::Array(values))
}

fn fixed_json(alloc: Global, name: &Name, size: u32) -> Result<Value, AllocError>
    ensures { IfOk result (λ v. view v ≡ type_json (fixed_of name.now size)) }
{
    let name = name_json(alloc, name)?;
    json!(in alloc; {"name": name, "size": u64::from(size), "type": "fixed"})
}

fn enum_json(alloc: Global, name: &Name, symbols: &[Name]) -> Result<Value, AllocError>
    ensures { IfOk result (λ v. view v ≡ type_json (enum_of name.now symbols.now)) }
{
    let name = name_json(alloc, name)?;
    let symbols = names_json(alloc, symbols)?;
    json!(in alloc; {"name": name, "symbols": symbols, "type": "enum"})
}

#[cycle(json)]
fn array_json(alloc: Global, item: &Schema) -> Result<Value, AllocError>
    ensures { IfOk result (λ v. view v ≡ type_json (array_of (type_of item.now))) }
{
    let items = schema_json(alloc, item)?;
    json!(in alloc; {"items": items, "type": "array"})
}

#[cycle(json)]
fn map_json(alloc: Global, value: &Schema) -> Result<Value, AllocError>
    ensures { IfOk result (λ v. view v ≡ type_json (map_of (type_of value.now))) }
{
    let values = schema_json(alloc, value)?;
    json!(in alloc; {"type": "map", "values": values})
}

#[cycle(json)]
fn branches_json(alloc: Global, branches: &[Schema]) -> Result<Value, AllocError>
    ensures { IfOk result (λ v. view v ≡ json.array (items_of (map (λ branch. type_json (type_of branch)) branches.now))) }
{
    let mut values = Vec::new(alloc);
    for branch in branches {
        values.push(schema_json(alloc, branch)?)?;
    }
    Ok(Value::Array(values))
}

#[cycle(json)]
fn union_json(alloc: Global, branches: &[Schema]) -> Result<Value, AllocError>
    ensures { IfOk result (λ v. view v ≡ type_json (union_of (branches_of (map type_of branches.now)))) }
{
    branches_json(alloc, branches)
}

#[cycle(json)]
fn field_json(alloc: Global, field: &Field) -> Result<Value, AllocError>
    ensures { IfOk result (λ v. view v ≡ field_json (field_of field.now).0 (type_json (field_of field.now).1)) }
{
    let schema = schema_json(alloc, &field.schema)?;
    let name = name_json(alloc, &field.name)?;
    json!(in alloc; {"name": name, "type": schema})
}

#[cycle(json)]
fn field_values(alloc: Global, fields: &[Field]) -> Result<Value, AllocError>
    ensures { IfOk result (λ v. view v ≡ json.array (items_of (map (λ field. field_json (field_of field).0 (type_json (field_of field).1)) fields.now))) }
{
    let mut values = Vec::new(alloc);
    for field in fields {
        values.push(field_json(alloc, field)?)?;
    }
    Ok(Value::Array(values))
}

#[cycle(json)]
fn fields_json(alloc: Global, fields: &[Field]) -> Result<Value, AllocError>
    ensures { IfOk result (λ v. view v ≡ json.array (fields_json (fields_of (map field_of fields.now)))) }
{
    field_values(alloc, fields)
}

#[cycle(json)]
fn record_json(alloc: Global, name: &Name, fields: &[Field]) -> Result<Value, AllocError>
    ensures { IfOk result (λ v. view v ≡ type_json (record_of name.now (fields_of (map field_of fields.now)))) }
{
    let fields = fields_json(alloc, fields)?;
    let name = name_json(alloc, name)?;
    json!(in alloc; {"fields": fields, "name": name, "type": "record"})
}

// The JSON of a schema.
#[cycle(json)]
fn schema_json(alloc: Global, schema: &Schema) -> Result<Value, AllocError>
    ensures { IfOk result (λ v. view v ≡ type_json (type_of schema.now)) }
{
    match schema {
        Schema::Null => json!(in alloc; "null"),
        Schema::Boolean => json!(in alloc; "boolean"),
        Schema::Int => json!(in alloc; "int"),
        Schema::Long => json!(in alloc; "long"),
        Schema::Bytes => json!(in alloc; "bytes"),
        Schema::Text => json!(in alloc; "string"),
        Schema::Fixed(name, size) => fixed_json(alloc, name, *size),
        Schema::Enum(name, symbols) => enum_json(alloc, name, symbols.as_slice()),
        Schema::Array(item) => array_json(alloc, item.get()),
        Schema::Map(value) => map_json(alloc, value.get()),
        Schema::Union(branches) => union_json(alloc, branches.as_slice()),
        Schema::Record(name, fields) => record_json(alloc, name, fields.as_slice()),
    }
}

/// The written text of a schema: JSON without spaces, primitive types as texts, and the members of objects in byte order.
/// A schema that some JSON names is read again from its written text. The only error is want of memory.
pub fn text_of(alloc: Global, schema: &Schema) -> Result<Bytes, AllocError>
    ensures text { IfOk result (λ text. text ≡ type_text (type_of schema.now)) }
    ensures utf8 { IfOk result IsUtf8 }
    ensures reads_back { IfOk result (λ text. (json : Data) → type_in json ≡ Ok (type_of schema.now) → type_named text ≡ Ok (type_of schema.now)) }
{
    let value = schema_json(alloc, schema)?;
    Ok(Bytes::from_vec(value.to_vec(alloc)?))
}
