// The columns of base files, and which cells are theirs.
ghost use Rattle.std.specs.Prelude.{◌≡◌, map, option_map, slice_get, IfOk};
ghost use Rattle.row_columns.specs.Base.{bad_cell, column_of, columns_of, physical_of};
ghost use Rattle.row_columns.specs.Readers.{is_good};

use column_cells::{is_cell, is_short};
use hudi_base::{Bytes, Column, Columns, Value};
use row_records::RecordLayout;
use row_values::{CellType, FlatField};
use std::alloc::{AllocError, Global};

fn physical_of(cell: CellType) -> i32
    ensures { result ≡ physical_of cell }
{
    match cell {
        CellType::Boolean => 0,
        CellType::Int => 1,
        CellType::Long => 2,
        CellType::Bytes | CellType::Text => 6,
    }
}

fn column_of(alloc: Global, field: &FlatField) -> Result<Column, AllocError>
    ensures { IfOk result (λ column. column ≡ column_of field.now) }
{
    let name = Bytes::from_slice(alloc, field.name.as_slice())?;
    Ok(Column {
        name,
        physical: physical_of(field.cell),
        optional: field.nullable,
        utf8: field.cell == CellType::Text,
    })
}

fn columns_of_fields(alloc: Global, fields: &[FlatField]) -> Result<Columns, AllocError>
    ensures { IfOk result (λ columns. columns ≡ map column_of fields.now) }
{
    let mut columns = Columns::new(alloc);
    for field in fields {
        columns.push(column_of(alloc, field)?)?;
    }
    Ok(columns)
}

/// The columns of a table's base files: those of the five strings of a record, and of the table's fields. The only error is
/// want of memory.
pub fn columns_of(alloc: Global, records: &RecordLayout) -> Result<Columns, AllocError>
    ensures { IfOk result (λ columns. columns ≡ columns_of records.now.own) }
{
    columns_of_fields(alloc, records.fields.as_slice())
}

fn cell_at(cells: &[Value], place: usize) -> Option<&Value>
    ensures { option_map (λ v. v.now) result ≡ slice_get cells.now place }
{
    cells.get(place)
}

// Whether there is a cell of the column, which isn't too long.
fn is_good(column: &Column, cell: Option<&Value>) -> bool
    ensures { result ≡ is_good column.now (option_map (λ v. v.now) cell.entry) }
{
    match cell {
        Some(cell) => is_cell(column, cell) && is_short(cell),
        None => false,
    }
}

// The place of the first bad cell.
pub(crate) fn bad_cell(columns: &[Column], cells: &[Value]) -> Option<usize>
    ensures { result ≡ bad_cell 0 columns.now cells.now }
{
    for place in 0..columns.len() {
        if !is_good(&columns[place], cell_at(cells, place)) {
            return Some(place);
        }
    }
    if cells.len() > columns.len() {
        return Some(columns.len());
    }
    None
}
