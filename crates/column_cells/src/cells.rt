// Cells and their columns.
ghost use Rattle.std.specs.Prelude.{◌≡◌};
ghost use Rattle.column_cells.specs.Cells.{is_cell, is_short};

use hudi_base::{Column, Value};

/// The physical type of booleans.
const BOOLEAN: i32 = 0;
/// The physical type of numbers of 32 bits.
const INT32: i32 = 1;
/// The physical type of numbers of 64 bits.
const INT64: i32 = 2;
/// The physical type of bytes and texts.
const BYTE_ARRAY: i32 = 6;

/// The most bytes that a cell of bytes or text has.
pub const MAX_CELL_LEN: usize = 65_536;

/// Whether the value is a cell of the column: null where the column is optional, else a value of its physical type,
/// where a byte array is text in a column of UTF-8 and bytes in another.
pub fn is_cell(column: &Column, cell: &Value) -> bool
    ensures { result ≡ is_cell column.now cell.now }
{
    match cell {
        Value::Null => column.optional,
        Value::Boolean(_) => column.physical == BOOLEAN,
        Value::Int(_) => column.physical == INT32,
        Value::Long(_) => column.physical == INT64,
        Value::Bytes(_) => column.physical == BYTE_ARRAY && !column.utf8,
        Value::Text(_) => column.physical == BYTE_ARRAY && column.utf8,
        _ => false,
    }
}

/// Whether the value is neither bytes nor text of more than `MAX_CELL_LEN` bytes.
pub fn is_short(cell: &Value) -> bool
    ensures { result ≡ is_short cell.now }
{
    match cell {
        Value::Bytes(content) => content.as_slice().len() <= MAX_CELL_LEN,
        Value::Text(text) => text.as_slice().len() <= MAX_CELL_LEN,
        _ => true,
    }
}
