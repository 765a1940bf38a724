// The cells that are in the body of a row.
ghost use Rattle.std.specs.Prelude.{IfOk};
ghost use Rattle.row_values.specs.Cells.{cells_view};
ghost use Rattle.row_values.specs.RowCells.{AreCellsOf, IsOwnRow};

use payload_merge::Row;
use row_bodies::{ReadError, cells_at};
use row_values::{CellRef, RowLayout};
use std::alloc::{AllocError, Global};

/// The cells of the fields of a row of the table, lent from its body. The only error is want of memory.
pub fn own_cells<'a>(
    alloc: Global,
    layout: &RowLayout,
    row: &'a Row,
) -> Result<Vec<CellRef<'a>>, AllocError>
    requires { IsOwnRow layout.now row.now }
    ensures { IfOk result (λ cells. AreCellsOf layout.now row.now (cells_view cells.items)) }
{
    match cells_at(alloc, layout.fields.as_slice(), row.body.as_slice()) {
        Ok((cells, _)) => Ok(cells),
        Err(ReadError::Memory) => Err(AllocError),
        Err(ReadError::Field(_)) => unreachable!(),
    }
}
