// The row for which the cells of a base file stand.
ghost use Rattle.std.specs.Prelude.{◌≡◌, None, true, option_and_then, IfOk};
ghost use Rattle.hudi_base.specs.InstantTime.{time_of};
ghost use Rattle.payload_merge.specs.RowCodec.{AnswersContent};
ghost use Rattle.row_values.specs.Cells.{AreCells, cell_view, cells_view};
ghost use Rattle.row_values.specs.RowCells.{text_at};
ghost use Rattle.row_records.specs.Records.{record_fields};
ghost use Rattle.row_columns.specs.Base.{bad_cell, base_row, columns_of, is_held};
ghost use Rattle.row_columns.specs.Readers.{AreLent, plain_of, timed_row};

use crate::columns::bad_cell;
use hudi_base::{Column, InstantTime, Name, Value};
use payload_merge::{Row, RowError};
use row_records::{row_head, row_of};
use row_values::{CellRef, RowLayout, text_at};
use std::alloc::{AllocError, Global};

// The place of the cell of the commit.
const COMMIT_TIME: u32 = 0;

// A value of a flat schema, lent; another one is null.
fn lend(cell: &Value) -> CellRef<'_>
    ensures plain { cell_view result ≡ plain_of cell.now }
    ensures held { is_held cell.now ≡ true }
{
    match cell {
        Value::Boolean(truth) => CellRef::Boolean(*truth),
        Value::Int(number) => CellRef::Int(*number),
        Value::Long(number) => CellRef::Long(*number),
        Value::Bytes(content) => CellRef::Bytes(content.as_slice()),
        Value::Text(text) => CellRef::Text(text.as_str()),
        _ => CellRef::Null,
    }
}

fn lend_all(alloc: Global, cells: &[Value]) -> Result<Vec<CellRef<'_>>, AllocError>
    ensures { IfOk result (λ lent. AreLent cells.now lent.items) }
{
    let mut lent = Vec::with_capacity(alloc, cells.len())?;
    for cell in cells {
        if lent.push(lend(cell)).is_err() {
            return Err(AllocError);
        }
    }
    Ok(lent)
}

// The commit that the first cell tells.
fn commit_at(cells: &[CellRef<'_>]) -> Option<InstantTime>
    ensures { result ≡ option_and_then time_of (text_at 0 (cells_view cells.now)) }
{
    InstantTime::from_text(text_at(cells, COMMIT_TIME)?.as_bytes())
}

// The row of cells that are all of their columns.
fn timed_row(
    alloc: Global,
    layout: &RowLayout,
    partition: &Name,
    cells: &[CellRef<'_>],
) -> Result<Row, RowError>
    requires { AreCells (record_fields layout.now.fields) (cells_view cells.now) }
    ensures { AnswersContent (timed_row layout.now partition.now (cells_view cells.now)) result }
{
    let Some(commit) = commit_at(cells) else {
        return Err(RowError::BadContent(COMMIT_TIME as usize));
    };
    match row_head(layout, &commit.text(), partition, cells) {
        Ok(head) => Ok(row_of(alloc, layout, commit, partition, cells, head)?),
        Err(place) => Err(RowError::BadContent(place)),
    }
}

// The row of cells of which none is bad.
fn good_row(
    alloc: Global,
    layout: &RowLayout,
    partition: &Name,
    cells: &[Value],
) -> Result<Row, RowError>
    requires { bad_cell 0 (columns_of layout.now) cells.now ≡ None }
    ensures { AnswersContent (base_row layout.now partition.now cells.now) result }
{
    let lent = lend_all(alloc, cells)?;
    timed_row(alloc, layout, partition, &lent)
}

/// The row of a partition for which cells stand that were found in a base file with these columns. `BadContent` comes
/// exactly where they stand for none, with the place of the first bad cell; the only other error is want of memory.
pub fn base_row(
    alloc: Global,
    layout: &RowLayout,
    columns: &[Column],
    partition: &Name,
    cells: &[Value],
) -> Result<Row, RowError>
    requires { columns.now ≡ columns_of layout.now }
    ensures { AnswersContent (base_row layout.now partition.now cells.now) result }
{
    match bad_cell(columns, cells) {
        Some(place) => Err(RowError::BadContent(place)),
        None => good_row(alloc, layout, partition, cells),
    }
}
