// Base files written.
ghost use Rattle.std.specs.Prelude.{◌≡◌, ◌≤◌, [], length, All, IfOk, IfErr, OnOk};
ghost use Rattle.base_cells.specs.Written.{group_len};
ghost use Rattle.base_file.specs.WrittenRows.{meaning, AreAdded, StandsFor, IsFileOf, IsPut};
ghost use Rattle.base_writer.specs.GroupParts.{group_parts};

use base_cells::BaseError;
use base_writer::{GroupPages, begin, finish};
use hudi_base::{Bytes, Name, Values};
use parquet_meta::{RowGroup, RowGroups};
use payload_merge::{Row, RowCodec};
use std::alloc::{AllocError, Global};

/// How many rows a row group has, except the last.
const GROUP_LEN: usize = 10_000;

// The cells that stand for a row in the file of this id.
fn cells_of<K: RowCodec>(
    alloc: Global,
    codec: &K,
    file: &Name,
    row: &Row,
) -> Result<Values, AllocError>
    requires own { K.own_row codec.now row.now }
    requires short_id { length file.now ≤ 65536 }
    ensures { IfOk result (λ cells. StandsFor
        (meaning (K.columns codec.now) (K.base_row codec.now) (K.file_column codec.now) file.now) cells row.now) }
{
    match codec.cells(alloc, row, file) {
        Ok(cells) => Ok(cells),
        Err(_) => Err(AllocError),
    }
}

// Adds rows to a row group that has none.
fn add_rows<K: RowCodec>(
    alloc: Global,
    codec: &K,
    file: &Name,
    rows: &[Row],
    group: &mut GroupPages,
) -> Result<(), AllocError>
    requires own { All (K.own_row codec.now) rows.now }
    requires short_id { length file.now ≤ 65536 }
    requires empty { group.old ≡ group_parts (K.columns codec.now) [] }
    ensures { OnOk result (AreAdded
        (meaning (K.columns codec.now) (K.base_row codec.now) (K.file_column codec.now) file.now) rows.now group.new) }
{
    for row in rows {
        let cells = cells_of(alloc, codec, file, row)?;
        group.add(codec.columns(), &cells)?;
    }
    Ok(())
}

// Adds a row group.
fn put_rows<K: RowCodec>(
    alloc: Global,
    codec: &K,
    file: &Name,
    rows: &[Row],
    bytes: &mut Vec<u8>,
    groups: &mut Vec<RowGroup>,
) -> Result<(), AllocError>
    requires own { All (K.own_row codec.now) rows.now }
    requires short_id { length file.now ≤ 65536 }
    requires few { length rows.now ≤ group_len }
    ensures { OnOk result (IsPut
        (meaning (K.columns codec.now) (K.base_row codec.now) (K.file_column codec.now) file.now) rows.now bytes.old.items bytes.new.items groups.old.items groups.new.items) }
{
    let mut pages = GroupPages::new(alloc, codec.columns())?;
    add_rows(alloc, codec, file, rows, &mut pages)?;
    let group = pages.put(alloc, codec.columns(), rows.len(), bytes)?;
    groups.push(group)?;
    Ok(())
}

// The bytes of a base file of the rows.
fn file_of<K: RowCodec>(
    alloc: Global,
    codec: &K,
    file: &Name,
    rows: &[Row],
) -> Result<Bytes, AllocError>
    requires own { All (K.own_row codec.now) rows.now }
    requires short_id { length file.now ≤ 65536 }
    ensures { IfOk result (λ bytes. IsFileOf
        (meaning (K.columns codec.now) (K.base_row codec.now) (K.file_column codec.now) file.now) rows.now bytes) }
{
    let mut bytes = begin(alloc)?;
    let mut groups = Vec::new(alloc);
    let mut rest = rows;
    while !rest.is_empty() {
        let (front, back) = rest.split_at(rest.len().min(GROUP_LEN));
        put_rows(alloc, codec, file, front, &mut bytes, &mut groups)?;
        rest = back;
    }
    finish(
        alloc,
        codec.columns(),
        rows.len(),
        RowGroups::from_vec(groups),
        bytes,
    )
}

/// The base file of these rows in the file group of this file id: row groups of 10,000 rows except the last, of cells that
/// stand for the rows. Rows of one partition with distinct keys are read back. `order` is the place in the schema of the
/// column by which the rows were ordered before their keys, if they were; it changes no byte. The only error is want of
/// memory, which also a footer of 2^32 bytes or more comes to.
pub fn write_base<K: RowCodec>(
    alloc: Global,
    codec: &K,
    file: &Name,
    rows: &[Row],
    _order: Option<u32>,
) -> Result<Bytes, BaseError>
    requires own { All (K.own_row codec.now) rows.now }
    requires short_id { length file.now ≤ 65536 }
    ensures written { IfOk result (λ bytes. IsFileOf
        (meaning (K.columns codec.now) (K.base_row codec.now) (K.file_column codec.now) file.now) rows.now bytes) }
    ensures memory { IfErr result (λ error. error ≡ BaseError.Memory) }
{
    match file_of(alloc, codec, file, rows) {
        Ok(bytes) => Ok(bytes),
        Err(_) => Err(BaseError::Memory),
    }
}
