// How long the written forms of cells are.
ghost use Rattle.std.specs.Prelude.{◌≡◌, ◌+◌, ◌<◌, ◌^◌, length};
ghost use Rattle.byte_fields.specs.Prefixed.{long_bytes, with_length};
ghost use Rattle.byte_fields.specs.Varints.{varint, zigzag};
ghost use Rattle.avro_schema.specs.Written.{written};
ghost use Rattle.row_values.specs.Cells.{AreCells, cell_view, cells_view, record_of_cells, value_if_nullable};

use row_values::{CellRef, FlatField};

// How many bytes the shortest varint of a number has.
fn varint_length(number: u64) -> usize
    ensures exact { result ≡ length (varint number) }
    ensures few { result < 11 }
{
    let mut count = 1;
    let mut left = number;
    while left >= 128 {
        left /= 128;
        count += 1;
    }
    count
}

fn number_length(number: i64) -> usize
    ensures exact { result ≡ length (varint (zigzag number)) }
    ensures few { result < 11 }
{
    if number < 0 {
        varint_length((-1 - number) as u64 * 2 + 1)
    } else {
        varint_length(number as u64 * 2)
    }
}

fn content_length(content: &[u8]) -> usize
    ensures exact { result ≡ length (with_length long_bytes content.now) }
    ensures few { result + 1 < 2 ^ 64 }
{
    varint_length(2 * content.len() as u64) + content.len()
}

fn cell_length(cell: CellRef<'_>) -> usize
    ensures exact { result ≡ length (written (cell_view cell.entry)) }
    ensures few { result + 1 < 2 ^ 64 }
{
    match cell {
        CellRef::Null => 0,
        CellRef::Boolean(_) => 1,
        CellRef::Int(number) => number_length(i64::from(number)),
        CellRef::Long(number) => number_length(number),
        CellRef::Bytes(content) => content_length(content),
        CellRef::Text(text) => content_length(text.as_bytes()),
    }
}

// The same of a field's value: where it may be null, its branch takes a byte more.
fn field_length(nullable: bool, cell: CellRef<'_>) -> usize
    ensures { result ≡ length (written (value_if_nullable nullable (cell_view cell.entry))) }
{
    if !nullable {
        return cell_length(cell);
    }
    match cell {
        CellRef::Null => 1,
        _ => 1 + cell_length(cell),
    }
}

/// How many bytes the written forms of the values of fields have, one for each cell.
pub(crate) fn fields_length(fields: &[FlatField], cells: &[CellRef<'_>]) -> usize
    requires fit { AreCells fields.now (cells_view cells.now) }
    requires few { length (written (record_of_cells fields.now (cells_view cells.now))) < 2 ^ 64 }
    ensures { result ≡ length (written (record_of_cells fields.now (cells_view cells.now))) }
{
    let mut sum = 0;
    for i in 0..fields.len() {
        sum += field_length(fields[i].nullable, cells[i]);
    }
    sum
}
