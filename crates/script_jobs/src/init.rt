// The line of an `init`.
ghost use Rattle.std.specs.Prelude.{◌≡◌, IfOk, option_map, true};
ghost use Rattle.serde_json.specs.View.{view};
ghost use Rattle.table_forms.specs.JsonObjects.{least_unknown};
ghost use Rattle.avro_schema.specs.AvroTypes.{type_of};
ghost use Rattle.table_props.specs.PropsTexts.{told_of, place_of};
ghost use Rattle.table_props.specs.Flat.{fields_in, is_flat, is_rank_type, is_string_type};
ghost use Rattle.script_jobs.specs.Causes.{Answers};
ghost use Rattle.script_jobs.specs.InitPlaces.{places_view};
ghost use Rattle.script_jobs.specs.Inits.{buckets_in, init_members, init_of, json_schema, name_in, ordering_in, ordering_of, places_in, schema_in, string_field_at, told};

use crate::fault::Fault;
use avro_schema::{Schema, SchemaError, schema_of_json};
use hudi_base::Name;
use serde_json::Value;
use std::alloc::{AllocError, Global};
use table_forms::{is_table_name, least_unknown, number_at, text_at};
use table_props::{Props, flat_fields, rank_place, string_place};

// The greatest number of file groups that a new partition begins with.
const MOST_BUCKETS: u64 = 1024;

// The places of the fields that a line names.
#[derive(Clone, Copy)]
pub(crate) struct Places {
    pub(crate) key: usize,
    pub(crate) partition: usize,
    pub(crate) ordering: Option<usize>,
}

// The name of the table.
fn name_in(line: &Value) -> Option<&str>
    ensures { option_map (λ name. name.now) result ≡ name_in (view line.now) }
{
    match text_at("name", line) {
        Some(name) if is_table_name(name.as_bytes()) => Some(name),
        _ => None,
    }
}

// The schema that a value names.
fn json_schema(alloc: Global, json: &Value) -> Result<Option<Schema>, AllocError>
    ensures { IfOk result (λ schema. option_map type_of schema ≡ json_schema (view json.now)) }
{
    match schema_of_json(alloc, json) {
        Ok(schema) => Ok(Some(schema)),
        Err(SchemaError::Memory) => Err(AllocError),
        Err(_) => Ok(None),
    }
}

// The schema of the table, which is flat.
fn schema_in(alloc: Global, line: &Value) -> Result<Option<Schema>, AllocError>
    ensures { IfOk result (λ schema. option_map type_of schema ≡ schema_in (view line.now)) }
{
    let Some(json) = line.get("schema") else {
        return Ok(None);
    };
    match json_schema(alloc, json)? {
        Some(schema) if flat_fields(&schema).is_some() => Ok(Some(schema)),
        _ => Ok(None),
    }
}

// The place of the string field with this name.
fn string_field(schema: &Schema, field: &str) -> Option<usize>
    requires { is_flat (type_of schema.now) ≡ true }
    ensures { result ≡ place_of is_string_type field.now (fields_in (type_of schema.now)) }
{
    string_place(flat_fields(schema)?, field.as_bytes())
}

// The place of the whole number's field with this name.
fn rank_field(schema: &Schema, field: &str) -> Option<usize>
    requires { is_flat (type_of schema.now) ≡ true }
    ensures { result ≡ place_of is_rank_type field.now (fields_in (type_of schema.now)) }
{
    rank_place(flat_fields(schema)?, field.as_bytes())
}

// The place of the string field that a member names.
fn string_field_at(name: &str, schema: &Schema, line: &Value) -> Option<usize>
    requires { is_flat (type_of schema.now) ≡ true }
    ensures { result ≡ string_field_at name.now (type_of schema.now) (view line.now) }
{
    match text_at(name, line) {
        Some(field) => string_field(schema, field),
        None => None,
    }
}

// The ordering field that a value names, or none.
fn ordering_of(schema: &Schema, json: &Value) -> Option<Option<usize>>
    requires { is_flat (type_of schema.now) ≡ true }
    ensures { result ≡ ordering_of (type_of schema.now) (view json.now) }
{
    match json {
        Value::Null => Some(None),
        Value::String(field) => match rank_field(schema, field.as_str()) {
            Some(place) => Some(Some(place)),
            None => None,
        },
        _ => None,
    }
}

fn ordering_in(schema: &Schema, line: &Value) -> Option<Option<usize>>
    requires { is_flat (type_of schema.now) ≡ true }
    ensures { result ≡ ordering_in (type_of schema.now) (view line.now) }
{
    match line.get("ordering") {
        Some(json) => ordering_of(schema, json),
        None => None,
    }
}

// The places of the fields that a line names, or the first member that is wrong.
#[tactic(auto, unfolding(crate::specs::Inits::places_in))]
fn places_in<'a>(schema: &Schema, line: &'a Value) -> Result<Places, Fault<'a>>
    requires { is_flat (type_of schema.now) ≡ true }
    ensures { Answers places_view result (places_in (type_of schema.now) (view line.now)) }
{
    let Some(key) = string_field_at("key", schema, line) else {
        return Err(Fault::Field("key"));
    };
    let Some(partition) = string_field_at("partition", schema, line) else {
        return Err(Fault::Field("partition"));
    };
    let Some(ordering) = ordering_in(schema, line) else {
        return Err(Fault::Field("ordering"));
    };
    Ok(Places {
        key,
        partition,
        ordering,
    })
}

// How many file groups a new partition begins with.
fn buckets_in(line: &Value) -> Option<u16>
    ensures { result ≡ buckets_in (view line.now) }
{
    match number_at("buckets", line) {
        Some(count) if 1 <= count && count <= MOST_BUCKETS => Some(count as u16),
        _ => None,
    }
}

fn unknown_in_init(line: &Value) -> Option<&str>
    ensures { option_map (λ name. name.now) result ≡ least_unknown init_members (view line.now) }
{
    least_unknown(
        &[
            "job",
            "name",
            "schema",
            "key",
            "partition",
            "ordering",
            "buckets",
        ],
        line,
    )
}

// A place in a schema, whose fields have never as many places as a number of 32 bits.
fn place_number(place: usize) -> Result<u32, AllocError>
    ensures { IfOk result (λ number. number ≡ place) }
{
    match u32::try_from(place) {
        Ok(number) => Ok(number),
        Err(_) => Err(AllocError),
    }
}

fn ordering_number(place: Option<usize>) -> Result<Option<u32>, AllocError>
    ensures { IfOk result (λ number. number ≡ place) }
{
    match place {
        Some(place) => Ok(Some(place_number(place)?)),
        None => Ok(None),
    }
}

// The properties of these parts.
fn props_of(
    alloc: Global,
    name: &str,
    schema: Schema,
    places: Places,
    buckets: u16,
) -> Result<Props, AllocError>
    ensures { IfOk result (λ props. told_of props ≡ told name.now (type_of schema) (places_view places) buckets) }
{
    Ok(Props {
        name: Name::from_text(alloc, name)?,
        schema,
        key: place_number(places.key)?,
        partition: place_number(places.partition)?,
        ordering: ordering_number(places.ordering)?,
        buckets,
    })
}

/// The properties of the table that a line makes, or the first member that is wrong.
#[tactic(auto, unfolding(crate::specs::Inits::init_of))]
pub(crate) fn init_of<'a>(alloc: Global, line: &'a Value) -> Result<Props, Fault<'a>>
    ensures { Answers told_of result (init_of (view line.now)) }
{
    let Some(name) = name_in(line) else {
        return Err(Fault::Field("name"));
    };
    let Some(schema) = schema_in(alloc, line)? else {
        return Err(Fault::Field("schema"));
    };
    let places = places_in(&schema, line)?;
    let Some(buckets) = buckets_in(line) else {
        return Err(Fault::Field("buckets"));
    };
    if let Some(name) = unknown_in_init(line) {
        return Err(Fault::Field(name));
    }
    Ok(props_of(alloc, name, schema, places, buckets)?)
}
