// The footer of a file.
ghost use Rattle.std.specs.Prelude.{◌≡◌, ◌<◌, ◌∷◌, [], pos, not, position, length, IfSome, OnOk, IfOk, IfErr};
ghost use Rattle.parquet_meta.specs.Footers.{footer_of, is_plain, first_unsupported};
ghost use Rattle.thrift_compact.specs.declared.writer.Level.TheVariants.{Struct};
ghost use Rattle.parquet_meta.specs.Written.{file_meta_bytes, FitsFileMeta};
ghost use Rattle.parquet_meta.specs.Answers.{AnswersWhole};
ghost use Rattle.parquet_meta.specs.Results.{AnswersFooter};

use crate::element::{Element, Elements};
use crate::fields::{Fields, i32_field, i64_field, list_field, read_struct};
use crate::read_error::{MetaError, ReadError};
use crate::row_group::{RowGroup, RowGroups};
use crate::writing::put_list;
use hudi_base::Bytes;
use std::alloc::{AllocError, Global};
use thrift_compact::{TReader, TWriter};

/// What a footer says of its file: FileMetaData of the Parquet format.
#[derive(Drop)]
pub struct FileMeta {
    /// FileMetaData 1, `version`.
    pub version: i32,
    /// FileMetaData 2, `schema`.
    pub schema: Elements,
    /// FileMetaData 3, `num_rows`.
    pub num_rows: i64,
    /// FileMetaData 4, `row_groups`.
    pub groups: RowGroups,
}

const VERSION: i16 = 1;

const SCHEMA: i16 = 2;

const NUM_ROWS: i16 = 3;

const ROW_GROUPS: i16 = 4;

const CREATED_BY: i16 = 6;

/// FileMetaData 6, `created_by`, of each footer that is written.
const WRITER_NAME: &[u8] = b"hudi profile";

/// What has been read of a FileMetaData.
#[derive(Drop)]
pub(crate) struct FileMetaFields {
    version: Option<i32>,
    schema: Option<Elements>,
    num_rows: Option<i64>,
    groups: Option<RowGroups>,
}

impl Fields for FileMetaFields {
    ghost use Rattle.parquet_meta.specs.Footers.{no_file_meta_fields, file_meta_field_at, file_meta_of};
    ghost use Rattle.parquet_meta.specs.StaysLaws.{file_meta_field_stays};

    type Whole = FileMeta;

    ghost nothing = { no_file_meta_fields };

    ghost take = { file_meta_field_at };

    ghost whole = { file_meta_of };

    ghost stays = { file_meta_field_stays };

    fn none() -> FileMetaFields {
        FileMetaFields {
            version: None,
            schema: None,
            num_rows: None,
            groups: None,
        }
    }

    #[tactic(auto, unfolding(crate::specs::Footers::file_meta_field_at))]
    fn with_field(
        mut self,
        alloc: Global,
        id: i16,
        kind: u8,
        offset: usize,
        reader: &mut TReader<'_>,
    ) -> Result<FileMetaFields, ReadError> {
        match id {
            VERSION => self.version = Some(i32_field(kind, offset, reader)?),
            SCHEMA => self.schema = Some(list_field::<Element>(alloc, kind, offset, reader)?),
            NUM_ROWS => self.num_rows = Some(i64_field(kind, offset, reader)?),
            ROW_GROUPS => self.groups = Some(list_field::<RowGroup>(alloc, kind, offset, reader)?),
            _ => reader.skip(kind)?,
        }
        Ok(self)
    }

    fn into_whole(self) -> Option<FileMeta> {
        Some(FileMeta {
            version: self.version?,
            schema: self.schema?,
            num_rows: self.num_rows?,
            groups: self.groups?,
        })
    }
}

// Whether it is a column that is one leaf, not repeated, of a physical type that is supported.
fn is_plain(element: &Element) -> bool
    ensures { result ≡ is_plain element.now }
{
    let is_leaf = match element.children {
        Some(count) => count == 0,
        None => true,
    };
    let is_repeated = match element.repetition {
        Some(repetition) => repetition == 2,
        None => false,
    };
    let is_known = match element.physical {
        Some(physical) => matches!(physical, 0 | 1 | 2 | 6),
        None => false,
    };
    is_leaf && !is_repeated && is_known
}

// The first that isn't.
fn first_other(columns: &[Element]) -> Option<usize>
    ensures first { result ≡ position (λ element. not (is_plain element)) columns.now }
    ensures within { IfSome result (λ index. index < length columns.now) }
{
    columns.iter().position(|element| !is_plain(element))
}

fn first_unsupported(schema: &[Element]) -> Option<usize>
    ensures { result ≡ first_unsupported schema.now }
{
    match schema {
        [] => None,
        [_, columns @ ..] => match first_other(columns) {
            Some(index) => Some(index + 1),
            None => None,
        },
    }
}

// The footer that is all of the bytes.
#[tactic(auto, unfolding(crate::specs::Footers::footer_of))]
fn read_whole(alloc: Global, bytes: &[u8]) -> Result<FileMeta, MetaError>
    ensures { AnswersWhole (length bytes.now) result (footer_of bytes.now) }
{
    let mut reader = TReader::new(bytes);
    match read_struct::<FileMetaFields>(alloc, &mut reader) {
        Ok(meta) => {
            let end = reader.offset();
            if end < bytes.len() {
                return Err(MetaError::BadMeta(end));
            }
            Ok(meta)
        }
        Err(error) => Err(error.into_meta_error()),
    }
}

/// The footer of a file, which has to be all of the bytes.
pub fn read_meta(alloc: Global, bytes: &[u8]) -> Result<FileMeta, MetaError>
    ensures { AnswersFooter (length bytes.now) result (footer_of bytes.now) }
{
    let meta = read_whole(alloc, bytes)?;
    match first_unsupported(meta.schema.as_slice()) {
        Some(index) => Err(MetaError::Unsupported(index)),
        None => Ok(meta),
    }
}

// The footer's struct, with all its bytes.
fn put_meta(writer: &mut TWriter, meta: &FileMeta) -> Result<(), AllocError>
    requires start { writer.old ≡ record { bytes = []; levels = Struct (pos 0) ∷ [] } }
    requires fits { FitsFileMeta meta.now }
    ensures { OnOk result (writer.new ≡ record { bytes = file_meta_bytes meta.now; levels = [] }) }
{
    writer.field_i32(VERSION, meta.version)?;
    put_list(writer, SCHEMA, meta.schema.as_slice())?;
    writer.field_i64(NUM_ROWS, meta.num_rows)?;
    put_list(writer, ROW_GROUPS, meta.groups.as_slice())?;
    writer.field_binary(CREATED_BY, WRITER_NAME)?;
    writer.stop()
}

/// The one written form of a footer. The only error is want of memory.
pub fn write_meta(alloc: Global, meta: &FileMeta) -> Result<Bytes, MetaError>
    requires { FitsFileMeta meta.now }
    ensures written { IfOk result (λ bytes. bytes ≡ file_meta_bytes meta.now) }
    ensures memory { IfErr result (λ error. error ≡ MetaError.Memory) }
{
    let mut writer = TWriter::new(alloc);
    put_meta(&mut writer, meta)?;
    Ok(Bytes::from_vec(writer.finish()))
}
