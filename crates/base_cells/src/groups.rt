// The rows of row groups.
ghost use Rattle.std.specs.Prelude.{◌≡◌, true, length, IfOk};
ghost use Rattle.std.specs.List.{AllByRecursion};
ghost use Rattle.base_cells.specs.Columns.{is_group_of, rows_of};
ghost use Rattle.base_cells.specs.Cells.{chunks_at, group_at};
ghost use Rattle.base_cells.specs.Binding.{behind};
ghost use Rattle.base_cells.specs.Turned.{turned};
ghost use Rattle.base_cells.specs.Answers.{Answers};

use crate::base_error::BaseError;
use crate::chunks::chunk_at;
use crate::turning::turned;
use hudi_base::{Column, Columns, Sequence, Values};
use parquet_meta::{Chunk, RowGroup};
use std::alloc::Global;

// Adds the cells of each column's chunk.
#[tactic(auto, unfolding(crate::specs::Cells::chunks_at))]
fn push_chunks(
    alloc: Global,
    bytes: &[u8],
    columns: &[Column],
    chunks: &[Chunk],
    cells: &mut Vec<Values>,
) -> Result<(), BaseError>
    ensures { Answers (λ _. cells.new.items) result (behind cells.old.items (chunks_at bytes.now columns.now chunks.now)) }
{
    match columns {
        [] => Ok(()),
        [column, columns @ ..] => match chunks {
            [] => Ok(()),
            [chunk, chunks @ ..] => {
                let values = chunk_at(alloc, column, bytes, chunk)?;
                cells.push(values)?;
                push_chunks(alloc, bytes, columns, chunks, cells)
            }
        },
    }
}

// How many rows the group has. A number of rows that isn't negative fits.
fn rows_of(group: &RowGroup) -> usize
    ensures { result ≡ rows_of group.now }
{
    usize::try_from(group.num_rows).unwrap_or(0)
}

/// The cells of each column of a row group, and how many rows it has. The group is one of a file of the columns.
///
/// It refuses the bytes for the first column whose chunk is compressed, begins outside the file, or has a page that can't
/// be read; its pages are read in one pass.
pub fn read_columns(
    alloc: Global,
    columns: &Columns,
    bytes: &[u8],
    group: &RowGroup,
) -> Result<(Vec<Values>, usize), BaseError>
    requires { is_group_of columns.now group.now ≡ true }
    ensures rows { Answers (λ x. turned x.1 x.0.items) result (group_at columns.now bytes.now group.now) }
    ensures long { IfOk result (λ x. AllByRecursion (λ cells. length cells ≡ x.1) x.0.items) }
{
    let mut cells = Vec::new(alloc);
    push_chunks(
        alloc,
        bytes,
        columns.as_slice(),
        group.columns.as_slice(),
        &mut cells,
    )?;
    Ok((cells, rows_of(group)))
}

/// The rows of a row group, each with its cells, as `read_columns` reads them.
pub fn read_group(
    alloc: Global,
    columns: &Columns,
    bytes: &[u8],
    group: &RowGroup,
) -> Result<Sequence<Values>, BaseError>
    requires { is_group_of columns.now group.now ≡ true }
    ensures { Answers (λ rows. rows) result (group_at columns.now bytes.now group.now) }
{
    let (cells, count) = read_columns(alloc, columns, bytes, group)?;
    let rows = turned(alloc, count, cells)?;
    Ok(Sequence::from_vec(rows))
}
