// The codec as the crates above see it.
use crate::flat_codec::FlatCodec;
use hudi_base::{Bytes, Columns, InstantTime, Name, Values};
use payload_merge::{Row, RowCodec, RowError, WriteRef, Writes};
use row_columns::{base_cells, base_row};
use std::alloc::Global;

impl RowCodec for FlatCodec {
    ghost use Rattle.row_values.specs.RowCells.{IsOwnRow};
    ghost use Rattle.row_records.specs.Records.{CanBeLent, rows_in};
    ghost use Rattle.row_columns.specs.Base.{base_row, columns_of};
    ghost use Rattle.row_columns.proofs.BaseLemmas.{any_file, base_row_told, file_there, known_types};
    ghost use Rattle.row_records.proofs.LawLemmas.{own_rows, rows_of_place};
    ghost use Rattle.row_records.specs.Records.{record_fields};

    ghost columns = { λ codec. columns_of codec.records.own };

    ghost file_column = { λ codec. 4 };

    ghost block_rows = { λ codec. rows_in codec.records.own };

    ghost lends = { λ codec. CanBeLent codec.records.own };

    ghost base_row = { λ codec. base_row codec.records.own };

    ghost own_row = { λ codec. IsOwnRow codec.records.own };

    fn data_block(
        &self,
        alloc: Global,
        t: InstantTime,
        file_id: &Name,
        rows: &[Row],
    ) -> Result<Bytes, RowError> {
        self.records.data_block(alloc, t, file_id, rows)
    }

    fn block_writes(
        &self,
        alloc: Global,
        t: InstantTime,
        partition: &Name,
        file_id: &Name,
        content: &[u8],
    ) -> Result<Writes, RowError> {
        self.records
            .block_writes(alloc, t, partition, file_id, content)
    }

    fn lent_writes<'a>(
        &self,
        alloc: Global,
        t: InstantTime,
        partition: &Name,
        file_id: &Name,
        content: &'a [u8],
    ) -> Result<Option<Vec<WriteRef<'a>>>, RowError> {
        self.records
            .lent_writes(alloc, t, partition, file_id, content)
    }

    fn columns(&self) -> &Columns {
        &self.columns
    }

    fn cells(&self, alloc: Global, row: &Row, file_id: &Name) -> Result<Values, RowError> {
        Ok(base_cells(alloc, &self.records.own, row, file_id)?)
    }

    fn row(&self, alloc: Global, partition: &Name, cells: &Values) -> Result<Row, RowError> {
        base_row(
            alloc,
            &self.records.own,
            self.columns.as_slice(),
            partition,
            cells.as_slice(),
        )
    }

    ghost own_rows_are_read = { λ codec place content. own_rows codec.records.own place content };

    ghost rows_of_the_place_are_read = { λ codec place content. rows_of_place codec.records.own place content };

    ghost own_rows_are_in_bases = { λ codec partition cells. base_row_told codec.records.own partition cells };

    ghost types_are_known = { λ codec. known_types (record_fields codec.records.own.fields) };

    ghost file_column_is_there = { λ codec. file_there codec.records.own };

    ghost any_file_is_read = { λ codec partition file other before after. any_file codec.records.own partition file other before after };
}
