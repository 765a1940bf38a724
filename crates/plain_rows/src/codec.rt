// The codec of the table.
ghost use Rattle.std.specs.Prelude.{◌≡◌, ◌<◌, ◌≤◌, ◌^◌, ◌++◌, ◌∷◌, codes};
ghost use Rattle.std.specs.Prelude.{Ok, Some};
ghost use Rattle.plain_rows.specs.Cells.{row_in, the_columns};
ghost use Rattle.plain_rows.specs.Contents.{Lends, rows_in};
ghost use Rattle.plain_rows.specs.OwnRows.{IsOwn};
ghost use Rattle.plain_rows.specs.PlainValues.{IsPlainValue, row_of_value};

use crate::cells::{cells_of, row_in, the_columns};
use crate::new_rows::new_row;
use crate::owned::owned;
use crate::reading::content_at;
use crate::writing::content_of;
use hudi_base::{Bytes, Columns, InstantTime, Name, Value, Values};
use payload_merge::{Row, RowCodec, RowError, WriteRef, Writes};
use std::alloc::{AllocError, Global};
use std::marker::Model;
use table_jobs::TableCodec;

/// The codec of the table `r1`: rows have a key of 1 to 1,000 bytes, a rank and a body of at most 65,536 bytes.
#[derive(Drop)]
pub struct PlainRows {
    table: Name,
    schema: Bytes,
    columns: Columns,
}

impl Model for PlainRows {
    ghost use Rattle.std.specs.Prelude.{◌≡◌, codes};
    ghost use Rattle.plain_rows.specs.Cells.{the_columns};

    ghost Value = { Unit {0} };

    ghost view = { λ codec. tt };

    ghost invariant = { λ codec.
        (codec.table ≡ codes "r1") × (codec.schema ≡ codes "r1") × (codec.columns ≡ the_columns) };
}

impl PlainRows {
    /// The codec. The only error is want of memory.
    pub fn new(alloc: Global) -> Result<PlainRows, AllocError> {
        Ok(PlainRows {
            table: Name::from_text(alloc, "r1")?,
            schema: Bytes::from_slice(alloc, b"r1")?,
            columns: the_columns(alloc)?,
        })
    }
}

impl RowCodec for PlainRows {
    ghost use Rattle.plain_rows.specs.CodecLaws.{any_file, columns_known, file_first};
    ghost use Rattle.plain_rows.specs.CodecLaws.{own_in_bases, own_rows, placed_rows};

    ghost columns = { λ _. the_columns };

    ghost file_column = { λ _. 0 };

    ghost block_rows = { λ _. rows_in };

    ghost lends = { λ _. Lends };

    ghost base_row = { λ _. row_in };

    ghost own_row = { λ _. IsOwn };

    fn data_block(
        &self,
        alloc: Global,
        _t: InstantTime,
        _file_id: &Name,
        rows: &[Row],
    ) -> Result<Bytes, RowError> {
        let content = content_of(alloc, rows)?;
        Ok(Bytes::from_vec(content))
    }

    fn block_writes(
        &self,
        alloc: Global,
        t: InstantTime,
        partition: &Name,
        _file_id: &Name,
        content: &[u8],
    ) -> Result<Writes, RowError> {
        match content_at(alloc, t, content) {
            Ok(puts) => Ok(owned(alloc, partition, &puts)?),
            Err(error) => Err(error.of_content(content.len())),
        }
    }

    fn lent_writes<'a>(
        &self,
        alloc: Global,
        t: InstantTime,
        _partition: &Name,
        _file_id: &Name,
        content: &'a [u8],
    ) -> Result<Option<Vec<WriteRef<'a>>>, RowError> {
        match content_at(alloc, t, content) {
            Ok(puts) => Ok(Some(puts)),
            Err(error) => Err(error.of_content(content.len())),
        }
    }

    fn columns(&self) -> &Columns {
        &self.columns
    }

    fn cells(&self, alloc: Global, row: &Row, file_id: &Name) -> Result<Values, RowError> {
        Ok(cells_of(alloc, row, file_id)?)
    }

    fn row(&self, alloc: Global, partition: &Name, cells: &Values) -> Result<Row, RowError> {
        row_in(alloc, partition, cells.as_slice())
    }

    ghost own_rows_are_read = { λ _. own_rows };

    ghost rows_of_the_place_are_read = { λ _. placed_rows };

    ghost own_rows_are_in_bases = { λ _. own_in_bases };

    ghost types_are_known = { λ _. columns_known };

    ghost file_column_is_there = { λ _. file_first };

    ghost any_file_is_read = { λ _. any_file };
}

impl TableCodec for PlainRows {
    ghost use Rattle.std.specs.Prelude.{true};
    ghost use Rattle.std.proofs.Common.{sym};
    ghost use Rattle.plain_rows.specs.NewRowLaws.{made_own};

    // Its rows are of no schema that properties tell, so it goes by the name alone.
    ghost is_of = { λ _ props. props.name ≡ codes "r1" };

    ghost table_name = { λ _. codes "r1" };

    ghost schema = { λ _. codes "r1" };

    ghost fits = { λ _. IsPlainValue };

    ghost row_made = { λ _. row_of_value };

    ghost is_ordered = { λ _. true };

    fn table(&self) -> &Name {
        &self.table
    }

    fn schema_text(&self) -> &Bytes {
        &self.schema
    }

    fn new_row(&self, alloc: Global, value: &Value) -> Result<Row, RowError> {
        new_row(alloc, value)
    }

    fn is_ordered(&self) -> bool {
        true
    }

    ghost new_rows_are_own = { λ _. made_own };

    ghost name_is_told = { λ _ props is. sym is };
}
