// Flat schemas.
ghost use Rattle.std.specs.Prelude.{◌≡◌, map, not, option_map, position};
ghost use Rattle.avro_schema.specs.AvroTypes.{type_of, field_of, branches_of};
ghost use Rattle.table_props.specs.Flat.{is_cell_type, is_string_type, is_number_type, is_rank_type, is_flat_type, is_own_name, is_flat_field, is_null_type, branch_beside_null, type_beside_null, first_not_flat};

use avro_schema::{Field, Schema};

// What the names of the columns before a table's own begin with.
const OWN_PREFIX: &[u8] = b"_hoodie_";

fn is_cell_type(schema: &Schema) -> bool
    ensures { result ≡ is_cell_type (type_of schema.now) }
{
    match schema {
        Schema::Boolean | Schema::Int | Schema::Long | Schema::Bytes | Schema::Text => true,
        _ => false,
    }
}

fn is_number_type(schema: &Schema) -> bool
    ensures { result ≡ is_number_type (type_of schema.now) }
{
    match schema {
        Schema::Int | Schema::Long => true,
        _ => false,
    }
}

/// Whether it is the schema of strings.
pub fn is_string_type(schema: &Schema) -> bool
    ensures { result ≡ is_string_type (type_of schema.now) }
{
    match schema {
        Schema::Text => true,
        _ => false,
    }
}

fn is_null_type(schema: &Schema) -> bool
    ensures { result ≡ is_null_type (type_of schema.now) }
{
    match schema {
        Schema::Null => true,
        _ => false,
    }
}

// The second of two branches, where the first is null.
fn branch_beside_null(branches: &[Schema]) -> Option<&Schema>
    ensures { option_map (λ branch. type_of branch.now) result
        ≡ branch_beside_null (branches_of (map type_of branches.now)) }
{
    if branches.len() != 2 {
        return None;
    }
    if is_null_type(&branches[0]) {
        return Some(&branches[1]);
    }
    None
}

// The schema beside null, in a union of null and one other schema in this order; else the schema itself.
fn schema_beside_null(schema: &Schema) -> &Schema
    ensures { type_of result.now ≡ type_beside_null (type_of schema.now) }
{
    match schema {
        Schema::Union(branches) => match branch_beside_null(branches.as_slice()) {
            Some(branch) => branch,
            None => schema,
        },
        _ => schema,
    }
}

/// Whether the schema's values are whole numbers, or null and whole numbers.
pub fn is_rank_type(schema: &Schema) -> bool
    ensures { result ≡ is_rank_type (type_of schema.now) }
{
    is_number_type(schema_beside_null(schema))
}

fn is_flat_type(schema: &Schema) -> bool
    ensures { result ≡ is_flat_type (type_of schema.now) }
{
    is_cell_type(schema_beside_null(schema))
}

fn is_own_name(name: &[u8]) -> bool
    ensures { result ≡ is_own_name name.now }
{
    !name.starts_with(OWN_PREFIX)
}

fn is_flat_field(field: &Field) -> bool
    ensures { result ≡ is_flat_field (field_of field.now) }
{
    is_flat_type(&field.schema) && is_own_name(field.name.as_slice())
}

// The place of the first field that isn't flat.
fn not_flat_place(fields: &[Field]) -> Option<usize>
    ensures { result ≡ position (λ field. not (is_flat_field (field_of field))) fields.now }
{
    fields.iter().position(|field| !is_flat_field(field))
}

/// The place of the first field that isn't flat, from 0: its type isn't a boolean, int, long, bytes or string, or null
/// and one of these in a union in this order, or its name begins with `_hoodie_`. The rule is this project's own.
pub fn first_not_flat(fields: &[Field]) -> Option<usize>
    ensures { result ≡ first_not_flat (map field_of fields.now) }
{
    not_flat_place(fields)
}
