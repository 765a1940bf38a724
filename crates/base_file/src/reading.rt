// Base files read.
ghost use Rattle.std.specs.Prelude.{◌≡◌, [], true, length, IfOk};
ghost use Rattle.std.specs.Result.{result_ok};
ghost use Rattle.std.specs.List.{list_all, AllByRecursion};
ghost use Rattle.std.specs.Option.{option_map};
ghost use Rattle.base_cells.specs.Columns.{is_group_of};
ghost use Rattle.base_cells.specs.Turned.{turned};
ghost use Rattle.base_cells.specs.Answers.{Answers};
ghost use Rattle.base_file.specs.BaseFiles.{rows_of_cells, rows_or, base_at};
ghost use Rattle.base_file.specs.Loops.{then_rows, rows_of_groups};

use crate::key_set::keys_differ;
use base_cells::{BaseCause, BaseError, last_cells, read_columns, read_footer};
use hudi_base::{Name, Values};
use parquet_meta::RowGroup;
use payload_merge::{Row, RowCodec, RowError, Rows};
use std::alloc::{AllocError, Global};

// The row for which cells stand, if they stand for one.
fn row_of<K: RowCodec>(
    alloc: Global,
    codec: &K,
    partition: &Name,
    cells: &Values,
) -> Result<Option<Row>, AllocError>
    ensures { IfOk result (λ row. row ≡ result_ok (K.base_row codec.now partition.now cells.now)) }
{
    match codec.row(alloc, partition, cells) {
        Ok(row) => Ok(Some(row)),
        Err(RowError::BadContent(_)) => Ok(None),
        Err(_) => Err(AllocError),
    }
}

// The rows for which the rows of columns of cells stand, if each of these stands for one. They are taken from the last one on,
// so that each goes as soon as its row is there.
fn rows_of_columns<K: RowCodec>(
    alloc: Global,
    codec: &K,
    partition: &Name,
    columns: Vec<Values>,
    count: usize,
) -> Result<Option<Vec<Row>>, AllocError>
    requires { AllByRecursion (λ cells. length cells ≡ count) columns.items }
    ensures { IfOk result (λ rows. option_map (λ rows. rows.items) rows
        ≡ rows_of_cells (K.base_row codec.now) partition.now (turned count columns.items)) }
{
    let mut columns = columns;
    let mut backwards = Vec::new(alloc);
    let mut left = count;
    while left > 0 {
        left -= 1;
        let cells = last_cells(alloc, left, &mut columns)?;
        match row_of(alloc, codec, partition, &cells)? {
            Some(row) => backwards.push(row)?,
            None => return Ok(None),
        }
    }
    backwards.reverse();
    Ok(Some(backwards))
}

// Rows that may not be there, because cells before stood for none, and behind them those of columns of cells.
fn then_rows<K: RowCodec>(
    alloc: Global,
    codec: &K,
    partition: &Name,
    columns: Vec<Values>,
    count: usize,
    before: Option<Vec<Row>>,
) -> Result<Option<Vec<Row>>, AllocError>
    requires { AllByRecursion (λ cells. length cells ≡ count) columns.items }
    ensures { IfOk result (λ rows. option_map (λ rows. rows.items) rows
        ≡ then_rows (K.base_row codec.now) partition.now (option_map (λ rows. rows.items) before) (turned count columns.items)) }
{
    let Some(mut rows) = before else {
        return Ok(None);
    };
    let Some(mut more) = rows_of_columns(alloc, codec, partition, columns, count)? else {
        return Ok(None);
    };
    rows.append(&mut more)?;
    Ok(Some(rows))
}

// The rows of row groups. All pages are read, also behind cells that stand for no row.
fn rows_of_groups<K: RowCodec>(
    alloc: Global,
    codec: &K,
    partition: &Name,
    bytes: &[u8],
    groups: &[RowGroup],
) -> Result<Option<Vec<Row>>, BaseError>
    requires { list_all (is_group_of (K.columns codec.now)) groups.now ≡ true }
    ensures { Answers (λ rows. option_map (λ rows. rows.items) rows) result
        (rows_of_groups (K.columns codec.now) (K.base_row codec.now) partition.now bytes.now (Some []) groups.now) }
{
    let columns = codec.columns();
    let mut rows = Some(Vec::new(alloc));
    for group in groups {
        let (cells, count) = read_columns(alloc, columns, bytes, group)?;
        rows = then_rows(alloc, codec, partition, cells, count, rows)?;
    }
    Ok(rows)
}

// The rows of a file whose footer begins at this place, if each is one and no key comes twice.
fn rows_or(alloc: Global, place: usize, rows: Option<Vec<Row>>) -> Result<Rows, BaseError>
    ensures { Answers (λ rows. rows) result (rows_or place (option_map (λ rows. rows.items) rows)) }
{
    match rows {
        Some(rows) => {
            if !keys_differ(alloc, &rows)? {
                return Err(BaseError::BadBase(BaseCause::Row, place));
            }
            Ok(Rows::from_vec(rows))
        }
        None => Err(BaseError::BadBase(BaseCause::Row, place)),
    }
}

/// The rows of a base file of this partition, in the file's order.
///
/// `BadBase` comes exactly where the bytes are no such file, with the first refusal: of the file's ends, the footer and the
/// columns; then of the pages, in the order of the row groups and in each of the columns; and last of the rows, whose cells
/// have no meaning or whose keys come twice. The only other error is want of memory.
#[tactic(auto, unfolding(crate::specs::BaseFiles::base_at))]
pub fn read_base<K: RowCodec>(
    alloc: Global,
    codec: &K,
    partition: &Name,
    bytes: &[u8],
) -> Result<Rows, BaseError>
    ensures { Answers (λ rows. rows) result (base_at (K.columns codec.now) (K.base_row codec.now) partition.now bytes.now) }
{
    let (meta, start) = read_footer(alloc, codec.columns(), bytes)?;
    let rows = rows_of_groups(alloc, codec, partition, bytes, meta.groups.as_slice())?;
    rows_or(alloc, start, rows)
}
