// Cells that are lent.
ghost use Rattle.std.specs.Prelude.{◌≡◌, ◌++◌, Some, true, IfOk, OnOk, option_map, slice_get};
ghost use Rattle.byte_fields.specs.Prefixed.{with_length, long_bytes};
ghost use Rattle.hudi_base.specs.declared.value.Value as variant;
ghost use Rattle.avro_schema.specs.Fits.{Fits, FitFields};
ghost use Rattle.avro_schema.specs.Written.{written};
ghost use Rattle.row_values.specs.Fields.{cell_type, field_type, type_if_nullable, typed_fields};
ghost use Rattle.row_values.specs.Cells.{AreCells, IsCell, IsCellOf, cell_view, cells_view, record_values, union_value, value_if_nullable, value_of};
ghost use Rattle.row_values.specs.RowCells.{text_at, rank_in};

use crate::flat_field::{CellType, FlatField};
use byte_fields::{put_long_prefixed, put_zigzag};
use hudi_base::Value;
use std::alloc::{AllocError, Global};

/// A cell whose bytes lie elsewhere, as in the body of a row.
#[derive(Clone, Copy)]
pub enum CellRef<'a> {
    /// No value.
    Null,
    Boolean(bool),
    Int(i32),
    Long(i64),
    Bytes(&'a [u8]),
    /// A string.
    Text(&'a str),
}

// A value of a cell's type.
fn cell_of(cell: CellType, value: &Value) -> CellRef<'_>
    requires { Fits (cell_type cell) value.now }
    ensures view { cell_view result ≡ value.now }
    ensures plain { union_value (cell_view result) ≡ variant.Union 1 (cell_view result) }
{
    match (cell, value) {
        (CellType::Boolean, Value::Boolean(truth)) => CellRef::Boolean(*truth),
        (CellType::Int, Value::Int(number)) => CellRef::Int(*number),
        (CellType::Long, Value::Long(number)) => CellRef::Long(*number),
        (CellType::Bytes, Value::Bytes(content)) => CellRef::Bytes(content.as_slice()),
        (CellType::Text, Value::Text(text)) => CellRef::Text(text.as_str()),
        _ => unreachable!(),
    }
}

// The cell of a value of a field that may be null.
fn cell_in_union(cell: CellType, value: &Value) -> CellRef<'_>
    requires { Fits (type_if_nullable true (cell_type cell)) value.now }
    ensures view { union_value (cell_view result) ≡ value.now }
    ensures cell { IsCellOf true cell (cell_view result) }
{
    match value {
        Value::Union(0, _) => CellRef::Null,
        Value::Union(_, inner) => cell_of(cell, inner.get()),
        _ => unreachable!(),
    }
}

// The cell of a field's value.
fn cell_of_field<'a>(field: &FlatField, value: &'a Value) -> CellRef<'a>
    requires { Fits (field_type field.now) value.now }
    ensures view { value_of (field.now, cell_view result) ≡ value.now }
    ensures cell { IsCell field.now (cell_view result) }
{
    if field.nullable {
        cell_in_union(field.cell, value)
    } else {
        cell_of(field.cell, value)
    }
}

// The cells of the values of a record.
pub(crate) fn cells_of<'a>(
    alloc: Global,
    fields: &[FlatField],
    values: &'a [Value],
) -> Result<Vec<CellRef<'a>>, AllocError>
    requires { FitFields (typed_fields fields.now) values.now }
    ensures { IfOk result (λ cells. AreCells fields.now (cells_view cells.items) × (record_values fields.now (cells_view cells.items) ≡ values.now)) }
{
    let mut cells = Vec::with_capacity(alloc, fields.len())?;
    for i in 0..fields.len() {
        if cells.push(cell_of_field(&fields[i], &values[i])).is_err() {
            return Err(AllocError);
        }
    }
    Ok(cells)
}

fn cell_at<'a>(cells: &[CellRef<'a>], place: u32) -> Option<CellRef<'a>>
    ensures { option_map cell_view result ≡ slice_get (cells_view cells.now) place }
{
    cells.get(place as usize).copied()
}

/// The text of the cell at a place, if it is one.
pub fn text_at<'a>(cells: &[CellRef<'a>], place: u32) -> Option<&'a str>
    ensures { option_map (λ text. text.now) result ≡ text_at place (cells_view cells.now) }
{
    match cell_at(cells, place) {
        Some(CellRef::Text(text)) => Some(text),
        _ => None,
    }
}

// The number of the cell at a place.
fn number_at(cells: &[CellRef<'_>], place: u32) -> Option<i64>
    ensures { result ≡ rank_in (Some place) (cells_view cells.now) }
{
    match cell_at(cells, place) {
        Some(CellRef::Int(number)) => Some(i64::from(number)),
        Some(CellRef::Long(number)) => Some(number),
        _ => None,
    }
}

/// The rank of a row with these cells: 0 where there is no ordering field, and none where the field is null.
pub fn rank_in(ordering: Option<u32>, cells: &[CellRef<'_>]) -> Option<i64>
    ensures { result ≡ rank_in ordering (cells_view cells.now) }
{
    match ordering {
        Some(place) => number_at(cells, place),
        None => Some(0),
    }
}

// Adds bytes behind their length. A length is a long, so it has a limit, which no memory reaches.
fn put_content(out: &mut Vec<u8>, content: &[u8]) -> Result<(), AllocError>
    ensures { OnOk result (out.new.items ≡ out.old.items ++ with_length long_bytes content.now) }
{
    if content.len() > i64::MAX as usize {
        return Err(AllocError);
    }
    put_long_prefixed(out, content)
}

// Adds the written form of a cell.
fn put_cell(out: &mut Vec<u8>, cell: CellRef<'_>) -> Result<(), AllocError>
    ensures { OnOk result (out.new.items ≡ out.old.items ++ written (cell_view cell.entry)) }
{
    match cell {
        CellRef::Null => Ok(()),
        CellRef::Boolean(truth) => {
            out.push(u8::from(truth))?;
            Ok(())
        }
        CellRef::Int(number) => put_zigzag(out, i64::from(number)),
        CellRef::Long(number) => put_zigzag(out, number),
        CellRef::Bytes(content) => put_content(out, content),
        CellRef::Text(text) => put_content(out, text.as_bytes()),
    }
}

// Adds the written form of a field's value: of a field that may be null, the branch stands before it.
pub(crate) fn put_field(
    out: &mut Vec<u8>,
    nullable: bool,
    cell: CellRef<'_>,
) -> Result<(), AllocError>
    ensures { OnOk result (out.new.items ≡ out.old.items ++ written (value_if_nullable nullable (cell_view cell.entry))) }
{
    if !nullable {
        return put_cell(out, cell);
    }
    match cell {
        CellRef::Null => put_zigzag(out, 0),
        _ => {
            put_zigzag(out, 1)?;
            put_cell(out, cell)
        }
    }
}
