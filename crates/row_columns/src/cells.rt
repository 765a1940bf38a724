// The cells of a row in a base file.
ghost use Rattle.std.specs.Prelude.{◌≡◌, ◌++◌, IfOk, OnOk, IsUtf8};
ghost use Rattle.hudi_base.specs.declared.value.Value.{Text};
ghost use Rattle.row_values.specs.Cells.{cell_view, cells_view};
ghost use Rattle.row_values.specs.RowCells.{IsOwnRow};
ghost use Rattle.row_records.specs.Records.{meta_cells};
ghost use Rattle.row_records.specs.Readers.{HasSeqno};
ghost use Rattle.row_columns.specs.Readers.{HasBaseCells};

use crate::own::own_cells;
use hudi_base::{Bytes, Name, Value, Values};
use payload_merge::Row;
use row_records::seqno;
use row_values::{CellRef, RowLayout};
use std::alloc::{AllocError, Global};

fn text_value(alloc: Global, bytes: &[u8]) -> Result<Value, AllocError>
    requires { IsUtf8 bytes.now }
    ensures { IfOk result (λ v. v ≡ Text bytes.now) }
{
    Ok(Value::Text(Name::from_slice(alloc, bytes)?))
}

fn value_of(alloc: Global, cell: CellRef<'_>) -> Result<Value, AllocError>
    ensures { IfOk result (λ v. v ≡ cell_view cell.entry) }
{
    Ok(match cell {
        CellRef::Null => Value::Null,
        CellRef::Boolean(truth) => Value::Boolean(truth),
        CellRef::Int(number) => Value::Int(number),
        CellRef::Long(number) => Value::Long(number),
        CellRef::Bytes(content) => Value::Bytes(Bytes::from_slice(alloc, content)?),
        CellRef::Text(text) => Value::Text(Name::from_text(alloc, text)?),
    })
}

// Adds cells with memory of their own.
fn push_all(alloc: Global, out: &mut Values, cells: &[CellRef<'_>]) -> Result<(), AllocError>
    ensures { OnOk result (out.new ≡ out.old ++ cells_view cells.now) }
{
    for cell in cells {
        out.push(value_of(alloc, *cell)?)?;
    }
    Ok(())
}

// The cells before a row's own: five texts.
fn text_cells(alloc: Global, row: &Row, file_id: &Name) -> Result<Values, AllocError>
    requires { IsUtf8 row.now.key }
    ensures cells { IfOk result (λ cells. cells ≡ meta_cells file_id.now row.now) }
    ensures known { OnOk result (HasSeqno row.now.commit row.now.seq) }
{
    let seqno = seqno(alloc, row.commit, row.seq)?;
    let mut cells = Values::new(alloc);
    cells.push(text_value(alloc, &row.commit.text())?)?;
    cells.push(text_value(alloc, seqno.as_str().as_bytes())?)?;
    cells.push(text_value(alloc, row.key.as_slice())?)?;
    cells.push(text_value(alloc, row.partition.as_slice())?)?;
    cells.push(text_value(alloc, file_id.as_slice())?)?;
    Ok(cells)
}

/// The cells of a row in a base file of the file group with this file id: the commit, the seqno, the record key, the
/// partition path, the file id, and those of its fields. The only error is want of memory.
pub fn base_cells(
    alloc: Global,
    layout: &RowLayout,
    row: &Row,
    file_id: &Name,
) -> Result<Values, AllocError>
    requires { IsOwnRow layout.now row.now }
    ensures { IfOk result (HasBaseCells layout.now row.now file_id.now) }
{
    let own = own_cells(alloc, layout, row)?;
    let mut cells = text_cells(alloc, row, file_id)?;
    push_all(alloc, &mut cells, &own)?;
    Ok(cells)
}
