// The chunks of columns.
ghost use Rattle.std.specs.Prelude.{◌≡◌, pos, OnOk};
ghost use Rattle.thrift_compact.specs.Writing.{TakesField};
ghost use Rattle.parquet_meta.specs.Writers.{with_field};
ghost use Rattle.parquet_meta.specs.Written.{column_meta_bytes, FitsChunk};

use crate::fields::{
    Fields, Item, i32_field, i64_field, list_field, other_field, read_struct, struct_field,
};
use crate::read_error::ReadError;
use crate::writing::{PutItem, put_list};
use hudi_base::{Bytes, Sequence};
use std::alloc::{AllocError, Global};
use thrift_compact::types::STRUCT;
use thrift_compact::{TReader, TWriter};

/// A column's part of a row group: ColumnChunk of the Parquet format, with its ColumnMetaData.
#[derive(Drop)]
pub struct Chunk {
    /// ColumnChunk 2, `file_offset`.
    pub file_offset: i64,
    /// ColumnMetaData 1, `type`: 0 boolean, 1 of 32 bits, 2 of 64 bits, 6 byte array.
    pub physical: i32,
    /// ColumnMetaData 2, `encodings`: 0 for PLAIN, 3 for RLE.
    pub encodings: Sequence<i32>,
    /// ColumnMetaData 3, `path_in_schema`: the names from the root's child on.
    pub path: Sequence<Bytes>,
    /// ColumnMetaData 4, `codec`: 0 for none.
    pub codec: i32,
    /// ColumnMetaData 5, `num_values`, nulls counted.
    pub num_values: i64,
    /// ColumnMetaData 6, `total_uncompressed_size`, in bytes with the pages' headers.
    pub uncompressed: i64,
    /// ColumnMetaData 7, `total_compressed_size`, in bytes with the pages' headers.
    pub compressed: i64,
    /// ColumnMetaData 9, `data_page_offset`, from the file's first byte.
    pub data_offset: i64,
}

/// The chunks of a row group, in the order of the columns.
pub type Chunks = Sequence<Chunk>;

const FILE_OFFSET: i16 = 2;

const META_DATA: i16 = 3;

const TYPE: i16 = 1;

const ENCODINGS: i16 = 2;

const PATH_IN_SCHEMA: i16 = 3;

const CODEC: i16 = 4;

const NUM_VALUES: i16 = 5;

const TOTAL_UNCOMPRESSED_SIZE: i16 = 6;

const TOTAL_COMPRESSED_SIZE: i16 = 7;

const DATA_PAGE_OFFSET: i16 = 9;

/// A ColumnMetaData.
#[derive(Drop)]
pub(crate) struct ColumnMeta {
    physical: i32,
    encodings: Sequence<i32>,
    path: Sequence<Bytes>,
    codec: i32,
    num_values: i64,
    uncompressed: i64,
    compressed: i64,
    data_offset: i64,
}

/// What has been read of a ColumnMetaData.
#[derive(Drop)]
pub(crate) struct ColumnMetaFields {
    physical: Option<i32>,
    encodings: Option<Sequence<i32>>,
    path: Option<Sequence<Bytes>>,
    codec: Option<i32>,
    num_values: Option<i64>,
    uncompressed: Option<i64>,
    compressed: Option<i64>,
    data_offset: Option<i64>,
}

impl Fields for ColumnMetaFields {
    ghost use Rattle.parquet_meta.specs.Footers.{no_column_meta_fields, column_meta_field_at, column_meta_of};
    ghost use Rattle.parquet_meta.specs.StaysLaws.{column_meta_field_stays};

    type Whole = ColumnMeta;

    ghost nothing = { no_column_meta_fields };

    ghost take = { column_meta_field_at };

    ghost whole = { column_meta_of };

    ghost stays = { column_meta_field_stays };

    fn none() -> ColumnMetaFields {
        ColumnMetaFields {
            physical: None,
            encodings: None,
            path: None,
            codec: None,
            num_values: None,
            uncompressed: None,
            compressed: None,
            data_offset: None,
        }
    }

    #[tactic(auto, unfolding(crate::specs::Footers::column_meta_field_at))]
    fn with_field(
        mut self,
        alloc: Global,
        id: i16,
        kind: u8,
        offset: usize,
        reader: &mut TReader<'_>,
    ) -> Result<ColumnMetaFields, ReadError> {
        match id {
            TYPE => {
                self.physical = Some(i32_field(kind, offset, reader)?);
                Ok(self)
            }
            ENCODINGS => {
                self.encodings = Some(list_field(alloc, kind, offset, reader)?);
                Ok(self)
            }
            PATH_IN_SCHEMA => {
                self.path = Some(list_field(alloc, kind, offset, reader)?);
                Ok(self)
            }
            CODEC => {
                self.codec = Some(i32_field(kind, offset, reader)?);
                Ok(self)
            }
            NUM_VALUES => {
                self.num_values = Some(i64_field(kind, offset, reader)?);
                Ok(self)
            }
            TOTAL_UNCOMPRESSED_SIZE => {
                self.uncompressed = Some(i64_field(kind, offset, reader)?);
                Ok(self)
            }
            TOTAL_COMPRESSED_SIZE => {
                self.compressed = Some(i64_field(kind, offset, reader)?);
                Ok(self)
            }
            DATA_PAGE_OFFSET => {
                self.data_offset = Some(i64_field(kind, offset, reader)?);
                Ok(self)
            }
            _ => other_field(self, kind, reader),
        }
    }

    fn into_whole(self) -> Option<ColumnMeta> {
        Some(ColumnMeta {
            physical: self.physical?,
            encodings: self.encodings?,
            path: self.path?,
            codec: self.codec?,
            num_values: self.num_values?,
            uncompressed: self.uncompressed?,
            compressed: self.compressed?,
            data_offset: self.data_offset?,
        })
    }
}

/// What has been read of a ColumnChunk.
#[derive(Drop)]
pub(crate) struct ChunkFields {
    file_offset: Option<i64>,
    meta: Option<ColumnMeta>,
}

impl Fields for ChunkFields {
    ghost use Rattle.parquet_meta.specs.Footers.{no_chunk_fields, chunk_field_at, chunk_of};
    ghost use Rattle.parquet_meta.specs.StaysLaws.{chunk_field_stays};

    type Whole = Chunk;

    ghost nothing = { no_chunk_fields };

    ghost take = { chunk_field_at };

    ghost whole = { chunk_of };

    ghost stays = { chunk_field_stays };

    fn none() -> ChunkFields {
        ChunkFields {
            file_offset: None,
            meta: None,
        }
    }

    #[tactic(auto, unfolding(crate::specs::Footers::chunk_field_at))]
    fn with_field(
        mut self,
        alloc: Global,
        id: i16,
        kind: u8,
        offset: usize,
        reader: &mut TReader<'_>,
    ) -> Result<ChunkFields, ReadError> {
        match id {
            FILE_OFFSET => self.file_offset = Some(i64_field(kind, offset, reader)?),
            META_DATA => {
                self.meta = Some(struct_field::<ColumnMetaFields>(alloc, kind, offset, reader)?);
            }
            _ => reader.skip(kind)?,
        }
        Ok(self)
    }

    fn into_whole(self) -> Option<Chunk> {
        let file_offset = self.file_offset?;
        let meta = self.meta?;
        Some(Chunk {
            file_offset,
            physical: meta.physical,
            encodings: meta.encodings,
            path: meta.path,
            codec: meta.codec,
            num_values: meta.num_values,
            uncompressed: meta.uncompressed,
            compressed: meta.compressed,
            data_offset: meta.data_offset,
        })
    }
}

impl Item for Chunk {
    ghost use Rattle.parquet_meta.specs.Footers.{chunk_at};

    ghost item_at = { chunk_at };

    const KIND: u8 = STRUCT;

    ghost KIND = { 12 };

    fn read(alloc: Global, reader: &mut TReader<'_>) -> Result<Chunk, ReadError> {
        read_struct::<ChunkFields>(alloc, reader)
    }
}

// Adds the chunk's ColumnMetaData as a field.
fn put_column_meta(writer: &mut TWriter, chunk: &Chunk) -> Result<(), AllocError>
    requires field { TakesField (pos 3) writer.old.levels }
    requires fits { FitsChunk chunk.now }
    ensures { OnOk result
        (writer.new ≡ with_field (record { id = pos 3; kind = 12; value = column_meta_bytes chunk.now }) writer.old) }
{
    writer.field_struct(META_DATA)?;
    writer.field_i32(TYPE, chunk.physical)?;
    put_list(writer, ENCODINGS, chunk.encodings.as_slice())?;
    put_list(writer, PATH_IN_SCHEMA, chunk.path.as_slice())?;
    writer.field_i32(CODEC, chunk.codec)?;
    writer.field_i64(NUM_VALUES, chunk.num_values)?;
    writer.field_i64(TOTAL_UNCOMPRESSED_SIZE, chunk.uncompressed)?;
    writer.field_i64(TOTAL_COMPRESSED_SIZE, chunk.compressed)?;
    writer.field_i64(DATA_PAGE_OFFSET, chunk.data_offset)?;
    writer.stop()
}

impl PutItem for Chunk {
    ghost use Rattle.std.specs.Prelude.{refl};
    ghost use Rattle.std.proofs.Common.{inr};
    ghost use Rattle.parquet_meta.specs.Written.{chunk_bytes};

    ghost item_bytes = { chunk_bytes };

    ghost fits = { FitsChunk };

    const KIND: u8 = STRUCT;

    ghost KIND = { 12 };

    ghost written = { inr (inr refl) };

    fn put(&self, writer: &mut TWriter) -> Result<(), AllocError> {
        writer.item_struct()?;
        writer.field_i64(FILE_OFFSET, self.file_offset)?;
        put_column_meta(writer, self)?;
        writer.stop()
    }
}
