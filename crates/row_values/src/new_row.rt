// Rows of values.
ghost use Rattle.std.specs.Prelude.{◌≡◌, ◌++◌, List, Some, MatchOption, IfOk, OnOk};
ghost use Rattle.table_forms.specs.NameForms.{IsPartitionPath};
ghost use Rattle.hudi_base.specs.declared.value.Value.{Value};
ghost use Rattle.avro_schema.specs.Fits.{Fits};
ghost use Rattle.avro_schema.specs.Written.{written};
ghost use Rattle.row_values.specs.Cells.{AreCells, cells_view, record_of_cells};
ghost use Rattle.row_values.specs.Layouts.{own_type};
ghost use Rattle.row_values.specs.RowCells.{AnswersRow, HasKey, HasPartition, IsRecordKey, body_of, text_at};

use crate::cell_ref::{CellRef, cells_of, put_field, rank_in, text_at};
use crate::flat_field::FlatField;
use crate::row_layout::RowLayout;
use hudi_base::{Bytes, InstantTime, Name, Value};
use payload_merge::{Row, RowError};
use std::alloc::{AllocError, Global};
use table_forms::is_partition_path;

/// The most bytes of a record key.
pub const MAX_KEY_BYTES: usize = 1000;

/// The most bytes of the body of a new row.
pub const MAX_BODY_BYTES: usize = 65_536;

// The record key of a new row, where the cells have one.
fn record_key<'a>(layout: &RowLayout, cells: &[CellRef<'a>]) -> Option<&'a str>
    ensures { MatchOption result (¬ HasKey layout.now (cells_view cells.now))
        (λ key. (text_at layout.now.key (cells_view cells.now) ≡ Some key.now) × IsRecordKey key.now) }
{
    let key = text_at(cells, layout.key)?;
    if key.is_empty() || key.len() > MAX_KEY_BYTES {
        return None;
    }
    Some(key)
}

// The partition of a new row, where the cells have one.
fn partition_path<'a>(layout: &RowLayout, cells: &[CellRef<'a>]) -> Option<&'a str>
    ensures { MatchOption result (¬ HasPartition layout.now (cells_view cells.now))
        (λ path. (text_at layout.now.partition (cells_view cells.now) ≡ Some path.now) × IsPartitionPath path.now) }
{
    let path = text_at(cells, layout.partition)?;
    if is_partition_path(path.as_bytes()) {
        Some(path)
    } else {
        None
    }
}

/// Adds the written forms of the values of fields, one for each cell. The only error is want of memory.
pub fn put_fields(
    out: &mut Vec<u8>,
    fields: &[FlatField],
    cells: &[CellRef<'_>],
) -> Result<(), AllocError>
    requires { AreCells fields.now (cells_view cells.now) }
    ensures { OnOk result (out.new.items ≡ out.old.items ++ written (record_of_cells fields.now (cells_view cells.now))) }
{
    for i in 0..fields.len() {
        put_field(out, fields[i].nullable, cells[i])?;
    }
    Ok(())
}

// The body of a row with these cells.
fn body_of(alloc: Global, layout: &RowLayout, cells: &[CellRef<'_>]) -> Result<Vec<u8>, AllocError>
    requires { AreCells layout.now.fields (cells_view cells.now) }
    ensures { IfOk result (λ body. body.items ≡ body_of layout.now (cells_view cells.now)) }
{
    let mut out = Vec::new(alloc);
    put_fields(&mut out, layout.fields.as_slice(), cells)?;
    Ok(out)
}

// The row of cells, or why there is none.
fn row_of_cells(
    alloc: Global,
    layout: &RowLayout,
    cells: &[CellRef<'_>],
    t: InstantTime,
    seq: u32,
) -> Result<Row, RowError>
    requires { AreCells layout.now.fields (cells_view cells.now) }
    ensures { AnswersRow layout.now (cells_view cells.now) t seq result }
{
    let Some(key) = record_key(layout, cells) else {
        return Err(RowError::NoKey);
    };
    let Some(partition) = partition_path(layout, cells) else {
        return Err(RowError::BadPartition);
    };
    let Some(rank) = rank_in(layout.ordering, cells) else {
        return Err(RowError::NoOrdering);
    };
    let body = body_of(alloc, layout, cells)?;
    if body.len() > MAX_BODY_BYTES {
        return Err(RowError::TooLarge);
    }
    Ok(Row {
        partition: Name::from_text(alloc, partition)?,
        key: Bytes::from_slice(alloc, key.as_bytes())?,
        rank,
        commit: t,
        seq,
        body: Bytes::from_vec(body),
    })
}

impl RowLayout {
    /// The row that an instant writes of a record of the table's schema, at a place in its batch. The refusals, in this
    /// order: `NoKey` exactly where the record key is empty or longer than 1,000 bytes, `BadPartition` exactly where the
    /// partition is no path, `NoOrdering` exactly where the ordering field is null, and `TooLarge` exactly where the
    /// body, which is the record's written form, is longer than 65,536 bytes. The only other error is want of memory.
    pub fn row_of(
        &self,
        alloc: Global,
        value: &Value,
        t: InstantTime,
        seq: u32,
    ) -> Result<Row, RowError>
        requires { Fits (own_type self.now) value.now }
        ensures { (cells : List Value) × AreCells self.now.fields cells × (value.now ≡ record_of_cells self.now.fields cells) × AnswersRow self.now cells t seq result }
    {
        let Value::Record(values) = value else {
            unreachable!();
        };
        let cells = cells_of(alloc, self.fields.as_slice(), values.as_slice())?;
        row_of_cells(alloc, self, &cells, t, seq)
    }
}
