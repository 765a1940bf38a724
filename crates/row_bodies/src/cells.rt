// The cells of a record, one behind another.
ghost use Rattle.std.specs.Prelude.{ℕ, [], true};
ghost use Rattle.avro_schema.specs.Reading.{fields_from, value_at};
ghost use Rattle.row_values.specs.Fields.{cell_type, field_type, type_if_nullable, typed_fields};
ghost use Rattle.row_bodies.specs.Readers.{ReadsCell, ReadsCells};

use crate::errors::ReadError;
use crate::primitives::{branch_at, cell_at};
use byte_fields::FieldError;
use row_values::{CellRef, CellType, FlatField};
use std::alloc::Global;

// The cell of a field that may be null.
fn nullable_cell_at(cell: CellType, bytes: &[u8]) -> Result<(CellRef<'_>, &[u8]), FieldError>
    ensures { (left : ℕ) → ReadsCell true cell left result
        (value_at (type_if_nullable true (cell_type cell)) left bytes.now) }
{
    let (is_there, rest) = branch_at(bytes)?;
    if is_there {
        cell_at(cell, rest)
    } else {
        Ok((CellRef::Null, rest))
    }
}

// The cell of a field.
fn field_at<'a>(field: &FlatField, bytes: &'a [u8]) -> Result<(CellRef<'a>, &'a [u8]), FieldError>
    ensures { (left : ℕ) → ReadsCell field.now.nullable field.now.cell left result
        (value_at (field_type field.now) left bytes.now) }
{
    if field.nullable {
        nullable_cell_at(field.cell, bytes)
    } else {
        cell_at(field.cell, bytes)
    }
}

/// The cells of a record's fields that are read from the beginning of the bytes, and the bytes after them. Texts and
/// bytes are lent. `Field` has the first item that can't be read; the only other error is want of memory.
pub fn cells_at<'a>(
    alloc: Global,
    fields: &[FlatField],
    bytes: &'a [u8],
) -> Result<(Vec<CellRef<'a>>, &'a [u8]), ReadError>
    ensures { (left : ℕ) → ReadsCells fields.now left result
        (fields_from (typed_fields fields.now) [] left bytes.now) }
{
    let mut cells = Vec::with_capacity(alloc, fields.len())?;
    let mut rest = bytes;
    for field in fields {
        let (cell, after) = field_at(field, rest)?;
        if cells.push(cell).is_err() {
            return Err(ReadError::Memory);
        }
        rest = after;
    }
    Ok((cells, rest))
}
