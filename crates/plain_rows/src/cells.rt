// The cells of base files.
ghost use Rattle.std.specs.Prelude.{◌≡◌, ◌∷◌, [], ◌<◌, ◌^◌, option_map, IfOk, OnOk, pos};
ghost use Rattle.hudi_base.specs.InstantTime.{IsTime};
ghost use Rattle.hudi_base.specs.declared.value.Value.TheVariants as value;
ghost use Rattle.payload_merge.specs.RowCodec.{AnswersContent};
ghost use Rattle.plain_rows.specs.Cells.{bytes_column, number_column, place_of, rank_of, row_in};
ghost use Rattle.plain_rows.specs.Cells.{row_of_cells, sized_of, the_columns, time_of};

use crate::reading::{MOST_BODY_BYTES, MOST_KEY_BYTES};
use crate::texts::is_sized_text;
use hudi_base::{Bytes, Column, Columns, InstantTime, Name, Value, Values};
use payload_merge::{Row, RowError};
use std::alloc::{AllocError, Global};

// A row has so many cells.
const CELLS: usize = 6;

// A column of numbers of 64 bits.
fn number_column(alloc: Global, name: &str) -> Result<Column, AllocError>
    ensures { IfOk result (λ column. column ≡ number_column name.now) }
{
    Ok(Column {
        name: Bytes::from_slice(alloc, name.as_bytes())?,
        physical: 2,
        optional: false,
        utf8: false,
    })
}

// A column of byte arrays, which may be texts.
fn bytes_column(alloc: Global, name: &str, utf8: bool) -> Result<Column, AllocError>
    ensures { IfOk result (λ column. column ≡ bytes_column name.now utf8) }
{
    Ok(Column {
        name: Bytes::from_slice(alloc, name.as_bytes())?,
        physical: 6,
        optional: false,
        utf8,
    })
}

/// The columns of base files.
pub(crate) fn the_columns(alloc: Global) -> Result<Columns, AllocError>
    ensures { IfOk result (λ columns. columns ≡ the_columns) }
{
    let mut columns = Columns::new(alloc);
    columns.push(bytes_column(alloc, "file", true)?)?;
    columns.push(number_column(alloc, "commit")?)?;
    columns.push(number_column(alloc, "place")?)?;
    columns.push(bytes_column(alloc, "key", false)?)?;
    columns.push(number_column(alloc, "rank")?)?;
    columns.push(bytes_column(alloc, "body", false)?)?;
    Ok(columns)
}

/// The cells of a row in the file group with this file id.
pub(crate) fn cells_of(alloc: Global, row: &Row, file_id: &Name) -> Result<Values, AllocError>
    ensures cells { IfOk result (λ cells. cells ≡
        value.Text file_id.now ∷ value.Long (pos row.now.commit) ∷ value.Long (pos row.now.seq)
        ∷ value.Bytes row.now.key ∷ value.Long row.now.rank ∷ value.Bytes row.now.body ∷ []) }
    ensures time { OnOk result (IsTime row.now.commit) }
    ensures place { OnOk result (row.now.seq < 2 ^ 32) }
{
    let file = file_id.copy(alloc)?;
    let key = row.key.copy(alloc)?;
    let body = row.body.copy(alloc)?;
    let cells = vec![in alloc;
        Value::Text(file),
        Value::Long(row.commit.ms() as i64),
        Value::Long(row.seq as i64),
        Value::Bytes(key),
        Value::Long(row.rank),
        Value::Bytes(body),
    ]?;
    Ok(Values::from_vec(cells))
}

// The time that a cell says.
#[tactic(auto, unfolding(crate::specs::Cells::time_of))]
fn time_of(cell: &Value) -> Option<InstantTime>
    ensures { result ≡ time_of cell.now }
{
    match cell {
        Value::Long(ms) if *ms >= 0 => InstantTime::from_ms(*ms as u64),
        _ => None,
    }
}

// The place that a cell says.
#[tactic(auto, unfolding(crate::specs::Cells::place_of))]
fn place_of(cell: &Value) -> Option<u32>
    ensures { result ≡ place_of cell.now }
{
    match cell {
        Value::Long(seq) if 0 <= *seq && *seq <= 4_294_967_295 => Some(*seq as u32),
        _ => None,
    }
}

// The rank that a cell says.
#[tactic(auto, unfolding(crate::specs::Cells::rank_of))]
fn rank_of(cell: &Value) -> Option<i64>
    ensures { result ≡ rank_of cell.now }
{
    match cell {
        Value::Long(rank) => Some(*rank),
        _ => None,
    }
}

// The text that a cell of bytes says, of at least and at most so many.
#[tactic(auto, unfolding(crate::specs::Cells::sized_of))]
fn sized_of(least: usize, most: usize, cell: &Value) -> Option<&[u8]>
    ensures { option_map (λ bytes. bytes.now) result ≡ sized_of least most cell.now }
{
    match cell {
        Value::Bytes(bytes) => {
            let bytes = bytes.as_slice();
            if is_sized_text(least, most, bytes) {
                Some(bytes)
            } else {
                None
            }
        }
        _ => None,
    }
}

// The row of these parts.
#[tactic(auto, unfolding(crate::specs::Cells::row_of_cells))]
fn row_of_cells(
    alloc: Global,
    partition: &Name,
    commit: Option<InstantTime>,
    seq: Option<u32>,
    key: Option<&[u8]>,
    rank: Option<i64>,
    body: Option<&[u8]>,
) -> Result<Row, RowError>
    ensures { AnswersContent (row_of_cells partition.now commit seq (option_map (λ bytes. bytes.now) key.entry) rank
        (option_map (λ bytes. bytes.now) body.entry)) result }
{
    let Some(commit) = commit else {
        return Err(RowError::BadContent(1));
    };
    let Some(seq) = seq else {
        return Err(RowError::BadContent(2));
    };
    let Some(key) = key else {
        return Err(RowError::BadContent(3));
    };
    let Some(rank) = rank else {
        return Err(RowError::BadContent(4));
    };
    let Some(body) = body else {
        return Err(RowError::BadContent(5));
    };
    Ok(Row {
        partition: partition.copy(alloc)?,
        key: Bytes::from_slice(alloc, key)?,
        rank,
        commit,
        seq,
        body: Bytes::from_slice(alloc, body)?,
    })
}

/// The row of a partition for which cells stand.
pub(crate) fn row_in(alloc: Global, partition: &Name, cells: &[Value]) -> Result<Row, RowError>
    ensures { AnswersContent (row_in partition.now cells.now) result }
{
    if cells.len() != CELLS {
        return Err(RowError::BadContent(0));
    }
    row_of_cells(
        alloc,
        partition,
        time_of(&cells[1]),
        place_of(&cells[2]),
        sized_of(1, MOST_KEY_BYTES, &cells[3]),
        rank_of(&cells[4]),
        sized_of(0, MOST_BODY_BYTES, &cells[5]),
    )
}
