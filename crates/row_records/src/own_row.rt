// The row that the cells of records make, with memory of its own.
ghost use Rattle.std.specs.Prelude.{◌≡◌, IfOk};
ghost use Rattle.row_values.specs.Cells.{AreCells, cells_view};
ghost use Rattle.row_values.specs.RowCells.{body_of};
ghost use Rattle.row_records.specs.Records.{record_fields};
ghost use Rattle.row_records.specs.Readers.{head_row};

use crate::head::{RowHead, split_cells};
use hudi_base::{Bytes, InstantTime, Name};
use payload_merge::Row;
use row_values::{CellRef, RowLayout, put_fields};
use std::alloc::{AllocError, Global};

// The body of a row with these cells of its own.
fn body_of(alloc: Global, layout: &RowLayout, own: &[CellRef<'_>]) -> Result<Vec<u8>, AllocError>
    requires { AreCells layout.now.fields (cells_view own.now) }
    ensures { IfOk result (λ body. body.items ≡ body_of layout.now (cells_view own.now)) }
{
    let mut out = Vec::new(alloc);
    put_fields(&mut out, layout.fields.as_slice(), own)?;
    Ok(out)
}

/// The row of an instant and a partition that the cells of a record make, where they tell this of it. Its body is the
/// written form of its own cells. The only error is want of memory.
pub fn row_of(
    alloc: Global,
    layout: &RowLayout,
    t: InstantTime,
    partition: &Name,
    cells: &[CellRef<'_>],
    head: RowHead<'_>,
) -> Result<Row, AllocError>
    requires { AreCells (record_fields layout.now.fields) (cells_view cells.now) }
    ensures { IfOk result (λ row. row ≡ head_row layout.now t partition.now (cells_view cells.now) head.entry) }
{
    let (_, own) = split_cells(cells);
    let body = body_of(alloc, layout, own)?;
    let partition = partition.copy(alloc)?;
    let RowHead { key, rank, seq } = head;
    let key = Bytes::from_slice(alloc, key.as_bytes())?;
    Ok(Row {
        partition,
        key,
        rank,
        commit: t,
        seq,
        body: Bytes::from_vec(body),
    })
}
