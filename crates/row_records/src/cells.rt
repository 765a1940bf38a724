// The cells of a record.
ghost use Rattle.std.specs.Prelude.{◌≡◌, ◌≤◌, length};
ghost use Rattle.std.specs.List.{list_all};
ghost use Rattle.row_values.specs.Cells.{cell_length, cell_view, cells_view};
ghost use Rattle.row_values.specs.RowCells.{text_at};
ghost use Rattle.row_records.specs.Records.{is_short_cell, is_text};
ghost use Rattle.row_records.specs.Readers.{FindsHead, ReadsCells, ReadsThem, place_of};

use crate::head::{COMMIT_TIME, FILE_NAME, RowHead, row_head};
use crate::place::Place;
use block_contents::ReadError;
use byte_fields::FieldError;
use row_bodies::cells_at;
use row_values::{CellRef, FlatField, RowLayout, text_at};
use std::alloc::Global;

// The most bytes of a string or bytes.
const MAX_CELL_BYTES: usize = 65_536;

// How many bytes a string or bytes have.
fn cell_length(cell: CellRef<'_>) -> usize
    ensures { result ≡ cell_length (cell_view cell.entry) }
{
    match cell {
        CellRef::Bytes(content) => content.len(),
        CellRef::Text(text) => text.len(),
        _ => 0,
    }
}

fn is_short(cell: CellRef<'_>) -> bool
    ensures { result ≡ is_short_cell (cell_view cell.entry) }
{
    cell_length(cell) <= MAX_CELL_BYTES
}

fn each_is_short(cells: &[CellRef<'_>]) -> bool
    ensures { result ≡ list_all (λ cell. is_short_cell (cell_view cell)) cells.now }
{
    cells.iter().all(|cell| is_short(*cell))
}

fn are_short(cells: &[CellRef<'_>]) -> bool
    ensures { result ≡ list_all is_short_cell (cells_view cells.now) }
{
    each_is_short(cells)
}

// Whether the cell at a place is this text.
fn is_text(cells: &[CellRef<'_>], place: u32, wanted: &[u8]) -> bool
    ensures { result ≡ is_text wanted.now (text_at place (cells_view cells.now)) }
{
    match text_at(cells, place) {
        Some(text) => text.as_bytes() == wanted,
        None => false,
    }
}

// What cells that were found at a place tell of their row.
#[tactic(auto, unfolding(crate::specs::Records::row_at))]
pub(crate) fn head_at<'a>(
    layout: &RowLayout,
    place: &Place<'_>,
    cells: &[CellRef<'a>],
) -> Option<RowHead<'a>>
    requires { 5 ≤ length cells.now }
    ensures { FindsHead layout.now (place_of place.now) (cells_view cells.now) result }
{
    if !are_short(cells) {
        return None;
    }
    if !is_text(cells, COMMIT_TIME, &place.time) {
        return None;
    }
    if !is_text(cells, FILE_NAME, place.file_id.as_slice()) {
        return None;
    }
    row_head(layout, &place.time, place.partition, cells).ok()
}

fn cells_then_rest<'a>(
    alloc: Global,
    fields: &[FlatField],
    bytes: &'a [u8],
) -> Result<(Vec<CellRef<'a>>, &'a [u8]), ReadError>
    ensures { ReadsThem fields.now bytes.now result }
{
    match cells_at(alloc, fields, bytes) {
        Ok(found) => Ok(found),
        Err(row_bodies::ReadError::Memory) => Err(ReadError::Memory),
        Err(row_bodies::ReadError::Field(error)) => Err(ReadError::Field(error)),
    }
}

// The cells of a record, behind which nothing stands.
#[tactic(auto, using(crate::proofs::CellLemmas::cells_found), unfolding(crate::specs::Records::cells_at))]
pub(crate) fn record_cells<'a>(
    alloc: Global,
    fields: &[FlatField],
    bytes: &'a [u8],
) -> Result<Vec<CellRef<'a>>, ReadError>
    ensures { ReadsCells fields.now bytes.now result }
{
    let (cells, rest) = cells_then_rest(alloc, fields, bytes)?;
    if !rest.is_empty() {
        return Err(ReadError::Field(FieldError::bad(rest)));
    }
    Ok(cells)
}
