// Schemas of JSON, read from the root.
ghost use Rattle.std.specs.Prelude.{◌≡◌, [], ◌∷◌, ◌++◌, length, map, not, codes, OnOk};
ghost use Rattle.std.specs.List.{list_any};
ghost use Rattle.std.specs.Str.{bytes_eq};
ghost use Rattle.serde_json.specs.View.{view, items_view};
ghost use Rattle.avro_schema.specs.AvroTypes.{type_of, field_of};
ghost use Rattle.avro_schema.specs.Names.{is_among};
ghost use Rattle.avro_schema.specs.Heads.{union, record_head};
ghost use Rattle.avro_schema.specs.HeadViews.{head_view};
ghost use Rattle.avro_schema.specs.SchemaTexts.{Answers, at_position, kind_of, kind_of_head, head_within, type_within, inner_type, branch_after, branches_from, field_head_after, field_after, fields_from, type_inside, type_in, type_named};

use crate::head::{Head, has_field_members, head_of, name_in};
use crate::name_list::NameList;
use crate::schema::{Field, Fields, Schema, Schemas};
use crate::schema_error::SchemaError;
use hudi_base::Name;
use serde_json::Value;
use sqlite_items::{Boxed, Items};
use std::alloc::{AllocError, Global};
use table_forms::parse_json;

/// The greatest number of schemas on the way from the root to one inside it, both counted.
pub const MAX_DEPTH: u32 = 32;

// The name of a schema's kind.
fn kind_of(schema: &Schema) -> &'static str
    ensures { result.now ≡ kind_of (type_of schema.now) }
{
    match schema {
        Schema::Null => "null",
        Schema::Boolean => "boolean",
        Schema::Int => "int",
        Schema::Long => "long",
        Schema::Bytes => "bytes",
        Schema::Text => "string",
        Schema::Fixed(..) => "fixed",
        Schema::Enum(..) => "enum",
        Schema::Array(_) => "array",
        Schema::Map(_) => "map",
        Schema::Union(_) => "union",
        Schema::Record(..) => "record",
    }
}

fn kind_of_head(head: &Head<'_>) -> &'static str
    ensures { result.now ≡ kind_of_head (head_view head.now) }
{
    match head {
        Head::Leaf(schema) => kind_of(schema),
        Head::Array(_) => "array",
        Head::Map(_) => "map",
        Head::Union(_) => "union",
        Head::Record(..) => "record",
    }
}

// Whether a branch is of this kind.
fn has_kind(branches: &[Schema], kind: &str) -> bool
    ensures { result ≡ list_any (λ branch. bytes_eq (kind_of (type_of branch)) kind.now) branches.now }
{
    branches.iter().any(|branch| kind_of(branch) == kind)
}

// The head of a schema on a way that may have so many schemas from it on, itself counted.
#[tactic(auto, unfolding(crate::specs::SchemaTexts::head_within))]
fn head_within(alloc: Global, levels: u32, value: &Value) -> Result<Head<'_>, SchemaError>
    ensures { Answers head_view result (head_within levels (view value.now)) }
{
    if levels == 0 {
        return Err(SchemaError::bad(alloc));
    }
    head_of(alloc, value)
}

#[cycle(inside)]
fn inner_type(alloc: Global, levels: u32, value: &Value) -> Result<Schema, SchemaError>
    ensures { Answers type_of result (inner_type (head_within levels) (type_within levels) (view value.now)) }
{
    let head = head_within(alloc, levels, value)?;
    type_within(alloc, levels, head)
}

// The only schema inside an array or a map.
#[cycle(inside)]
fn only_inner(alloc: Global, levels: u32, value: &Value) -> Result<Boxed<Schema>, SchemaError>
    ensures { Answers type_of result (at_position 0 (inner_type (head_within levels) (type_within levels) (view value.now))) }
{
    match inner_type(alloc, levels, value) {
        Ok(schema) => Ok(Boxed::new(alloc, schema)?),
        Err(error) => Err(error.inside(0)),
    }
}

// Whether a branch of this kind may stand behind those that were found: no union, and of a kind that none of them has.
#[tactic(auto, using(crate::proofs::Lists::is_among_kinds))]
fn is_new_kind(found: &[Schema], kind: &str) -> bool
    ensures { result ≡ not (is_among (codes "union" ∷ map kind_of (map type_of found.now)) kind.now) }
{
    !("union" == kind || has_kind(found, kind))
}

#[cycle(inside)]
#[tactic(auto, unfolding(crate::specs::SchemaTexts::branch_after))]
fn branch_after(
    alloc: Global,
    levels: u32,
    found: &[Schema],
    value: &Value,
) -> Result<Schema, SchemaError>
    ensures { Answers type_of result (branch_after (head_within levels) (type_within levels) (map type_of found.now) (view value.now)) }
{
    let head = head_within(alloc, levels, value)?;
    if !is_new_kind(found, kind_of_head(&head)) {
        return Err(SchemaError::bad(alloc));
    }
    type_within(alloc, levels, head)
}

// The branch behind those that were found, with its position in a refusal.
#[cycle(inside)]
fn placed_branch(
    alloc: Global,
    levels: u32,
    found: &Schemas,
    value: &Value,
) -> Result<Schema, SchemaError>
    ensures { Answers type_of result (at_position (length found.now) (branch_after (head_within levels) (type_within levels) (map type_of found.now) (view value.now))) }
{
    match branch_after(alloc, levels, found.as_slice(), value) {
        Ok(schema) => Ok(schema),
        Err(error) => Err(error.inside(found.len())),
    }
}

#[cycle(inside)]
fn branches_of(alloc: Global, levels: u32, values: &[Value]) -> Result<Schemas, SchemaError>
    ensures { Answers (map type_of) result (branches_from (head_within levels) (type_within levels) [] (items_view values.now)) }
{
    let mut found = Items::new(alloc);
    for value in values {
        let schema = placed_branch(alloc, levels, &found, value)?;
        found.push(schema)?;
    }
    Ok(found)
}

// What a field says beside its type: its name, which none of these is, and the JSON of its type.
#[tactic(auto, unfolding(crate::specs::SchemaTexts::field_head_after))]
fn field_head_after<'a>(
    alloc: Global,
    names: &NameList<'a>,
    value: &'a Value,
) -> Result<(&'a str, &'a Value), SchemaError>
    ensures { Answers (λ x. (x.0.now, view x.1.now)) result (field_head_after names.now (view value.now)) }
{
    let name = name_in(alloc, value)?;
    let Some(inner) = value.get("type") else {
        return Err(SchemaError::bad(alloc));
    };
    if names.has(name) || !has_field_members(value) {
        return Err(SchemaError::bad(alloc));
    }
    Ok((name, inner))
}

#[cycle(inside)]
#[tactic(auto, unfolding(crate::specs::SchemaTexts::field_after))]
fn field_after<'a>(
    alloc: Global,
    levels: u32,
    names: &NameList<'a>,
    value: &'a Value,
) -> Result<(&'a str, Schema), SchemaError>
    ensures { Answers (λ x. (x.0.now, type_of x.1)) result (field_after (head_within levels) (type_within levels) names.now (view value.now)) }
{
    let (name, inner) = field_head_after(alloc, names, value)?;
    let schema = inner_type(alloc, levels, inner)?;
    Ok((name, schema))
}

// The field behind those with these names, with its position in a refusal.
#[cycle(inside)]
fn placed_field<'a>(
    alloc: Global,
    levels: u32,
    names: &NameList<'a>,
    value: &'a Value,
) -> Result<(&'a str, Schema), SchemaError>
    ensures { Answers (λ x. (x.0.now, type_of x.1)) result (at_position (length names.now) (field_after (head_within levels) (type_within levels) names.now (view value.now))) }
{
    match field_after(alloc, levels, names, value) {
        Ok(field) => Ok(field),
        Err(error) => Err(error.inside(names.len())),
    }
}

// Adds a field, and its name to the names.
fn push_field<'a>(
    alloc: Global,
    names: &mut NameList<'a>,
    found: &mut Fields,
    name: &'a str,
    schema: Schema,
) -> Result<(), AllocError>
    ensures names { OnOk result (names.new ≡ names.old ++ name.now ∷ []) }
    ensures fields { OnOk result (map field_of found.new ≡ map field_of found.old ++ (name.now, type_of schema) ∷ []) }
{
    names.push(name)?;
    let name = Name::from_text(alloc, name)?;
    found.push(Field { name, schema })?;
    Ok(())
}

#[cycle(inside)]
fn fields_of(alloc: Global, levels: u32, values: &[Value]) -> Result<Fields, SchemaError>
    ensures { Answers (map field_of) result (fields_from (head_within levels) (type_within levels) [] (items_view values.now)) }
{
    let mut names = NameList::new(alloc);
    let mut found = Items::new(alloc);
    for value in values {
        let (name, schema) = placed_field(alloc, levels, &names, value)?;
        push_field(alloc, &mut names, &mut found, name, schema)?;
    }
    Ok(found)
}

#[cycle(inside)]
fn union_inside(alloc: Global, levels: u32, values: &[Value]) -> Result<Schema, SchemaError>
    ensures { Answers type_of result (type_inside (head_within levels) (type_within levels) (union (items_view values.now))) }
{
    Ok(Schema::Union(branches_of(alloc, levels, values)?))
}

#[cycle(inside)]
fn record_inside(
    alloc: Global,
    levels: u32,
    name: &str,
    values: &[Value],
) -> Result<Schema, SchemaError>
    ensures { Answers type_of result (type_inside (head_within levels) (type_within levels) (record_head name.now (items_view values.now))) }
{
    let fields = fields_of(alloc, levels, values)?;
    Ok(Schema::Record(Name::from_text(alloc, name)?, fields))
}

// The schema of a head on a way that may have so many schemas from it on, itself counted.
#[cycle(inside)]
#[tactic(auto, unfolding(crate::specs::SchemaTexts::type_within, crate::specs::SchemaTexts::type_inside))]
fn type_within(alloc: Global, levels: u32, head: Head<'_>) -> Result<Schema, SchemaError>
    ensures { Answers type_of result (type_within levels (head_view head.entry)) }
{
    if levels == 0 {
        return Err(SchemaError::bad(alloc));
    }
    let inside = levels - 1;
    match head {
        Head::Leaf(schema) => Ok(schema),
        Head::Array(value) => Ok(Schema::Array(only_inner(alloc, inside, value)?)),
        Head::Map(value) => Ok(Schema::Map(only_inner(alloc, inside, value)?)),
        Head::Union(values) => union_inside(alloc, inside, values),
        Head::Record(name, values) => record_inside(alloc, inside, name, values),
    }
}

/// The schema that a JSON value names, by the rules of `parse_schema`, with its refusals but `NotJson`.
#[tactic(auto, unfolding(crate::specs::SchemaTexts::type_in))]
pub fn schema_of_json(alloc: Global, json: &Value) -> Result<Schema, SchemaError>
    ensures { Answers type_of result (type_in (view json.now)) }
{
    let head = head_within(alloc, MAX_DEPTH, json)?;
    type_within(alloc, MAX_DEPTH, head)
}

/// The schema that a text names, after "Schema Declaration" of the Avro specification. A text is a primitive type's name,
/// a union of branches of different types, none of them a union, or an object with a `type`; the attributes `doc`,
/// `namespace`, `aliases`, `default`, `order` and `logicalType` are passed over. There are no references to named types.
///
/// A refusal is the first in a walk from the root, a schema before those inside it, and has the path to its place.
#[tactic(auto, unfolding(crate::specs::SchemaTexts::type_named))]
pub fn parse_schema(alloc: Global, text: &[u8]) -> Result<Schema, SchemaError>
    ensures { Answers type_of result (type_named text.now) }
{
    match parse_json(alloc, text)? {
        Some(value) => schema_of_json(alloc, &value),
        None => Err(SchemaError::NotJson),
    }
}
