// The fields of flat schemas.
ghost use Rattle.std.specs.Prelude.{◌≡◌, MatchOption, IfOk, Option, None, map, false, true};
ghost use Rattle.avro_schema.specs.AvroTypes.{type_of, field_of, branches_of, union_of};
ghost use Rattle.table_props.specs.Flat.{is_cell_type, is_null_type, is_flat_type, first_not_flat};
ghost use Rattle.row_values.specs.Fields.{cell_type, type_if_nullable, typed_field};

use avro_schema::{Field, Schema};
use hudi_base::{Name, Sequence};
use std::alloc::{AllocError, Global};

/// The type of a cell.
#[derive(Clone, Copy, Debug, PartialEq, Eq)]
pub enum CellType {
    Boolean,
    Int,
    Long,
    Bytes,
    /// A string.
    Text,
}

/// A field of a flat schema.
#[derive(Drop)]
pub struct FlatField {
    pub name: Name,
    pub cell: CellType,
    /// Whether its type is null or the cell's type, in this order.
    pub nullable: bool,
}

/// Fields in their order.
pub type FlatFields = Sequence<FlatField>;

// The type of a cell, where a schema is one.
fn cell_of(schema: &Schema) -> Option<CellType>
    ensures { MatchOption result (is_cell_type (type_of schema.now) ≡ false) (λ cell. cell_type cell ≡ type_of schema.now) }
{
    match schema {
        Schema::Boolean => Some(CellType::Boolean),
        Schema::Int => Some(CellType::Int),
        Schema::Long => Some(CellType::Long),
        Schema::Bytes => Some(CellType::Bytes),
        Schema::Text => Some(CellType::Text),
        _ => None,
    }
}

fn is_null(schema: &Schema) -> bool
    ensures { result ≡ is_null_type (type_of schema.now) }
{
    match schema {
        Schema::Null => true,
        _ => false,
    }
}

// The type of the cell beside null, where the branches are these two.
fn cell_beside_null(branches: &[Schema]) -> Option<CellType>
    ensures { MatchOption result (is_flat_type (union_of (branches_of (map type_of branches.now))) ≡ false)
        (λ cell. type_if_nullable true (cell_type cell) ≡ union_of (branches_of (map type_of branches.now))) }
{
    if branches.len() != 2 || !is_null(&branches[0]) {
        return None;
    }
    cell_of(&branches[1])
}

// The type of a cell, and whether it may be null, where a schema is flat.
fn flat_type(schema: &Schema) -> Option<(CellType, bool)>
    ensures { MatchOption result (is_flat_type (type_of schema.now) ≡ false)
        (λ x. type_if_nullable x.1 (cell_type x.0) ≡ type_of schema.now) }
{
    match schema {
        Schema::Union(branches) => match cell_beside_null(branches.as_slice()) {
            Some(cell) => Some((cell, true)),
            None => None,
        },
        _ => match cell_of(schema) {
            Some(cell) => Some((cell, false)),
            None => None,
        },
    }
}

fn name_of(field: &Field) -> &Name
    ensures { result.now ≡ (field_of field.now).0 }
{
    &field.name
}

fn flat_type_of(field: &Field) -> Option<(CellType, bool)>
    ensures { MatchOption result (is_flat_type (field_of field.now).1 ≡ false)
        (λ x. type_if_nullable x.1 (cell_type x.0) ≡ (field_of field.now).1) }
{
    flat_type(&field.schema)
}

fn flat_field(alloc: Global, field: &Field) -> Result<FlatField, AllocError>
    requires { is_flat_type (field_of field.now).1 ≡ true }
    ensures { IfOk result (λ flat. typed_field flat ≡ field_of field.now) }
{
    let name = name_of(field).copy(alloc)?;
    match flat_type_of(field) {
        Some((cell, nullable)) => Ok(FlatField {
            name,
            cell,
            nullable,
        }),
        None => unreachable!(),
    }
}

// The fields of a flat schema.
pub(crate) fn flat_fields(alloc: Global, fields: &[Field]) -> Result<FlatFields, AllocError>
    requires { first_not_flat (map field_of fields.now) ≡ None }
    ensures { IfOk result (λ flat. map typed_field flat ≡ map field_of fields.now) }
{
    let mut flat = Sequence::new(alloc);
    for field in fields {
        flat.push(flat_field(alloc, field)?)?;
    }
    Ok(flat)
}
