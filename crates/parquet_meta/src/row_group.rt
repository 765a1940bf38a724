// Groups of rows.
use crate::chunk::{Chunk, Chunks};
use crate::fields::{Fields, Item, i64_field, list_field, read_struct};
use crate::read_error::ReadError;
use crate::writing::{PutItem, put_list};
use hudi_base::Sequence;
use std::alloc::{AllocError, Global};
use thrift_compact::types::STRUCT;
use thrift_compact::{TReader, TWriter};

/// Some of a file's rows: RowGroup of the Parquet format.
#[derive(Drop)]
pub struct RowGroup {
    /// RowGroup 1, `columns`.
    pub columns: Chunks,
    /// RowGroup 2, `total_byte_size`.
    pub total_size: i64,
    /// RowGroup 3, `num_rows`.
    pub num_rows: i64,
}

/// The groups of a file, in the order of their rows.
pub type RowGroups = Sequence<RowGroup>;

const COLUMNS: i16 = 1;

const TOTAL_BYTE_SIZE: i16 = 2;

const NUM_ROWS: i16 = 3;

/// What has been read of a RowGroup.
#[derive(Drop)]
pub(crate) struct RowGroupFields {
    columns: Option<Chunks>,
    total_size: Option<i64>,
    num_rows: Option<i64>,
}

impl Fields for RowGroupFields {
    ghost use Rattle.parquet_meta.specs.Footers.{no_row_group_fields, row_group_field_at, row_group_of};
    ghost use Rattle.parquet_meta.specs.StaysLaws.{row_group_field_stays};

    type Whole = RowGroup;

    ghost nothing = { no_row_group_fields };

    ghost take = { row_group_field_at };

    ghost whole = { row_group_of };

    ghost stays = { row_group_field_stays };

    fn none() -> RowGroupFields {
        RowGroupFields {
            columns: None,
            total_size: None,
            num_rows: None,
        }
    }

    #[tactic(auto, unfolding(crate::specs::Footers::row_group_field_at))]
    fn with_field(
        mut self,
        alloc: Global,
        id: i16,
        kind: u8,
        offset: usize,
        reader: &mut TReader<'_>,
    ) -> Result<RowGroupFields, ReadError> {
        match id {
            COLUMNS => self.columns = Some(list_field::<Chunk>(alloc, kind, offset, reader)?),
            TOTAL_BYTE_SIZE => self.total_size = Some(i64_field(kind, offset, reader)?),
            NUM_ROWS => self.num_rows = Some(i64_field(kind, offset, reader)?),
            _ => reader.skip(kind)?,
        }
        Ok(self)
    }

    fn into_whole(self) -> Option<RowGroup> {
        Some(RowGroup {
            columns: self.columns?,
            total_size: self.total_size?,
            num_rows: self.num_rows?,
        })
    }
}

impl Item for RowGroup {
    ghost use Rattle.parquet_meta.specs.Footers.{row_group_at};

    ghost item_at = { row_group_at };

    const KIND: u8 = STRUCT;

    ghost KIND = { 12 };

    fn read(alloc: Global, reader: &mut TReader<'_>) -> Result<RowGroup, ReadError> {
        read_struct::<RowGroupFields>(alloc, reader)
    }
}

impl PutItem for RowGroup {
    ghost use Rattle.std.specs.Prelude.{refl};
    ghost use Rattle.std.proofs.Common.{inr};
    ghost use Rattle.parquet_meta.specs.Written.{row_group_bytes, FitsRowGroup};

    ghost item_bytes = { row_group_bytes };

    ghost fits = { FitsRowGroup };

    const KIND: u8 = STRUCT;

    ghost KIND = { 12 };

    ghost written = { inr (inr refl) };

    fn put(&self, writer: &mut TWriter) -> Result<(), AllocError> {
        writer.item_struct()?;
        put_list(writer, COLUMNS, self.columns.as_slice())?;
        writer.field_i64(TOTAL_BYTE_SIZE, self.total_size)?;
        writer.field_i64(NUM_ROWS, self.num_rows)?;
        writer.stop()
    }
}
