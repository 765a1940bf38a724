// The schema of the records in data blocks.
ghost use Rattle.std.specs.Prelude.{◌≡◌, map, IfOk};
ghost use Rattle.avro_schema.specs.AvroTypes.{field_of, type_of};
ghost use Rattle.row_values.specs.Fields.{cell_type, field_type, typed_field};
ghost use Rattle.row_records.specs.Records.{record_type};

use avro_schema::{Field, Fields, Schema, Schemas};
use row_records::RecordLayout;
use row_values::{CellType, FlatField};
use std::alloc::{AllocError, Global};

fn cell_schema(cell: CellType) -> Schema
    ensures { type_of result ≡ cell_type cell }
{
    match cell {
        CellType::Boolean => Schema::Boolean,
        CellType::Int => Schema::Int,
        CellType::Long => Schema::Long,
        CellType::Bytes => Schema::Bytes,
        CellType::Text => Schema::Text,
    }
}

fn field_schema(alloc: Global, field: &FlatField) -> Result<Schema, AllocError>
    ensures { IfOk result (λ schema. type_of schema ≡ field_type field.now) }
{
    let cell = cell_schema(field.cell);
    if !field.nullable {
        return Ok(cell);
    }
    let mut branches = Schemas::new(alloc);
    branches.push(Schema::Null)?;
    branches.push(cell)?;
    Ok(Schema::Union(branches))
}

fn schema_field(alloc: Global, field: &FlatField) -> Result<Field, AllocError>
    ensures { IfOk result (λ f. field_of f ≡ typed_field field.now) }
{
    Ok(Field {
        name: field.name.copy(alloc)?,
        schema: field_schema(alloc, field)?,
    })
}

fn schema_fields(alloc: Global, fields: &[FlatField]) -> Result<Fields, AllocError>
    ensures { IfOk result (λ found. map field_of found ≡ map typed_field fields.now) }
{
    let mut found = Fields::new(alloc);
    for field in fields {
        found.push(schema_field(alloc, field)?)?;
    }
    Ok(found)
}

// The schema of records.
pub(crate) fn record_schema(alloc: Global, records: &RecordLayout) -> Result<Schema, AllocError>
    ensures { IfOk result (λ schema. type_of schema ≡ record_type records.now.own) }
{
    let name = records.own.record_name.copy(alloc)?;
    let fields = schema_fields(alloc, records.fields.as_slice())?;
    Ok(Schema::Record(name, fields))
}
