// Layouts of properties.
ghost use Rattle.std.specs.Prelude.{◌≡◌, ◌⊎◌, None, true, map, IfOk};
ghost use Rattle.avro_schema.specs.AvroTypes.{type_of, field_of, fields_of, record_of};
ghost use Rattle.table_props.specs.Flat.{first_not_flat};
ghost use Rattle.payload_merge.specs.declared.row_error.RowError.TheVariants.{Memory, NotFlat};
ghost use Rattle.row_values.specs.Layouts.{AnswersLayout, IsLayoutOf, has_typed_places};

use crate::flat_field::flat_fields;
use crate::row_layout::RowLayout;
use avro_schema::{Field, Schema};
use hudi_base::Name;
use payload_merge::RowError;
use std::alloc::{AllocError, Global};
use table_props::{Props, first_not_flat};

// The refusal of the field at a place. A place that 32 bits don't hold has no refusal but want of memory.
fn not_flat(place: usize) -> RowError
    ensures { (result ≡ NotFlat place) ⊎ (result ≡ Memory) }
{
    match u32::try_from(place) {
        Ok(place) => RowError::NotFlat(place),
        Err(_) => RowError::Memory,
    }
}

// The layout of properties whose schema is a record of these fields, which are flat.
fn flat_layout(
    alloc: Global,
    props: &Props,
    record_name: &Name,
    fields: &[Field],
) -> Result<RowLayout, AllocError>
    requires named { type_of props.now.schema ≡ record_of record_name.now (fields_of (map field_of fields.now)) }
    requires places { has_typed_places props.now ≡ true }
    requires flat { first_not_flat (map field_of fields.now) ≡ None }
    ensures { IfOk result (IsLayoutOf props.now) }
{
    let fields = flat_fields(alloc, fields)?;
    Ok(RowLayout {
        table: props.name.copy(alloc)?,
        record_name: record_name.copy(alloc)?,
        fields,
        key: props.key,
        partition: props.partition,
        ordering: props.ordering,
    })
}

// The layout of properties whose schema is a record of these fields.
fn layout_of(
    alloc: Global,
    props: &Props,
    record_name: &Name,
    fields: &[Field],
) -> Result<RowLayout, RowError>
    requires named { type_of props.now.schema ≡ record_of record_name.now (fields_of (map field_of fields.now)) }
    requires places { has_typed_places props.now ≡ true }
    ensures { AnswersLayout props.now result }
{
    match first_not_flat(fields) {
        Some(place) => Err(not_flat(place)),
        None => Ok(flat_layout(alloc, props, record_name, fields)?),
    }
}

impl RowLayout {
    /// The layout of a table with these properties, whose schema is a record and whose three places are those of
    /// fields of their types. `NotFlat` comes exactly where a field isn't flat, with the place of the first: its type
    /// isn't a boolean, int, long, bytes or string, or null and one of these, or its name begins with `_hoodie_`. The
    /// only other error is want of memory.
    pub fn new(alloc: Global, props: &Props) -> Result<RowLayout, RowError>
        requires { has_typed_places props.now ≡ true }
        ensures { AnswersLayout props.now result }
    {
        match &props.schema {
            Schema::Record(record_name, fields) => layout_of(
                alloc,
                props,
                record_name,
                fields.as_slice(),
            ),
            _ => unreachable!(),
        }
    }
}
