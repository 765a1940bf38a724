// The header of a page.
ghost use Rattle.std.specs.Prelude.{◌≡◌, ◌∷◌, [], pos, OnOk, IfOk, IfErr};
ghost use Rattle.thrift_compact.specs.declared.writer.Level.TheVariants.{Struct};
ghost use Rattle.parquet_meta.specs.PageHeaders.{page_header_at};
ghost use Rattle.parquet_meta.specs.Results.{AnswersHeader};
ghost use Rattle.parquet_meta.specs.Written.{data_page_bytes, page_header_bytes};
ghost use Rattle.parquet_meta.specs.Writers.{with_field};
ghost use Rattle.thrift_compact.specs.Writing.{TakesField};

use crate::fields::{Fields, i32_field, read_struct, struct_field};
use crate::read_error::{MetaError, ReadError};
use hudi_base::Bytes;
use std::alloc::{AllocError, Global};
use thrift_compact::{TReader, TWriter};

/// A page's header: PageHeader and DataPageHeader of the Parquet format.
#[derive(Clone, Copy, Debug, PartialEq, Eq)]
pub struct PageHeader {
    /// PageHeader 1, `type`: 0 for a data page.
    pub kind: i32,
    /// PageHeader 2, `uncompressed_page_size`, in bytes without the header.
    pub uncompressed: i32,
    /// PageHeader 3, `compressed_page_size`, in bytes without the header.
    pub compressed: i32,
    /// DataPageHeader 1, `num_values`, nulls counted.
    pub values: i32,
    /// DataPageHeader 2, `encoding`: 0 for PLAIN.
    pub encoding: i32,
    /// DataPageHeader 3, `definition_level_encoding`: 3 for RLE.
    pub def_encoding: i32,
    /// DataPageHeader 4, `repetition_level_encoding`: 3 for RLE.
    pub rep_encoding: i32,
}

const TYPE: i16 = 1;

const UNCOMPRESSED_PAGE_SIZE: i16 = 2;

const COMPRESSED_PAGE_SIZE: i16 = 3;

const DATA_PAGE_HEADER: i16 = 5;

const NUM_VALUES: i16 = 1;

const ENCODING: i16 = 2;

const DEFINITION_LEVEL_ENCODING: i16 = 3;

const REPETITION_LEVEL_ENCODING: i16 = 4;

/// A DataPageHeader.
#[derive(Clone, Copy)]
pub(crate) struct DataPage {
    values: i32,
    encoding: i32,
    def_encoding: i32,
    rep_encoding: i32,
}

/// What has been read of a DataPageHeader.
#[derive(Clone, Copy)]
pub(crate) struct DataPageFields {
    values: Option<i32>,
    encoding: Option<i32>,
    def_encoding: Option<i32>,
    rep_encoding: Option<i32>,
}

impl Fields for DataPageFields {
    ghost use Rattle.parquet_meta.specs.PageHeaders.{no_data_page_fields, data_page_field_at, data_page_of};
    ghost use Rattle.parquet_meta.specs.StaysLaws.{data_page_field_stays};

    type Whole = DataPage;

    ghost nothing = { no_data_page_fields };

    ghost take = { data_page_field_at };

    ghost whole = { data_page_of };

    ghost stays = { data_page_field_stays };

    fn none() -> DataPageFields {
        DataPageFields {
            values: None,
            encoding: None,
            def_encoding: None,
            rep_encoding: None,
        }
    }

    #[tactic(auto, unfolding(crate::specs::PageHeaders::data_page_field_at))]
    fn with_field(
        mut self,
        _alloc: Global,
        id: i16,
        kind: u8,
        offset: usize,
        reader: &mut TReader<'_>,
    ) -> Result<DataPageFields, ReadError> {
        match id {
            NUM_VALUES => self.values = Some(i32_field(kind, offset, reader)?),
            ENCODING => self.encoding = Some(i32_field(kind, offset, reader)?),
            DEFINITION_LEVEL_ENCODING => self.def_encoding = Some(i32_field(kind, offset, reader)?),
            REPETITION_LEVEL_ENCODING => self.rep_encoding = Some(i32_field(kind, offset, reader)?),
            _ => reader.skip(kind)?,
        }
        Ok(self)
    }

    fn into_whole(self) -> Option<DataPage> {
        Some(DataPage {
            values: self.values?,
            encoding: self.encoding?,
            def_encoding: self.def_encoding?,
            rep_encoding: self.rep_encoding?,
        })
    }
}

/// What has been read of a PageHeader.
#[derive(Clone, Copy)]
pub(crate) struct PageHeaderFields {
    kind: Option<i32>,
    uncompressed: Option<i32>,
    compressed: Option<i32>,
    page: Option<DataPage>,
}

impl Fields for PageHeaderFields {
    ghost use Rattle.parquet_meta.specs.PageHeaders.{no_page_header_fields, page_header_field_at, page_header_of};
    ghost use Rattle.parquet_meta.specs.StaysLaws.{page_header_field_stays};

    type Whole = PageHeader;

    ghost nothing = { no_page_header_fields };

    ghost take = { page_header_field_at };

    ghost whole = { page_header_of };

    ghost stays = { page_header_field_stays };

    fn none() -> PageHeaderFields {
        PageHeaderFields {
            kind: None,
            uncompressed: None,
            compressed: None,
            page: None,
        }
    }

    #[tactic(auto, unfolding(crate::specs::PageHeaders::page_header_field_at))]
    fn with_field(
        mut self,
        alloc: Global,
        id: i16,
        kind: u8,
        offset: usize,
        reader: &mut TReader<'_>,
    ) -> Result<PageHeaderFields, ReadError> {
        match id {
            TYPE => self.kind = Some(i32_field(kind, offset, reader)?),
            UNCOMPRESSED_PAGE_SIZE => self.uncompressed = Some(i32_field(kind, offset, reader)?),
            COMPRESSED_PAGE_SIZE => self.compressed = Some(i32_field(kind, offset, reader)?),
            DATA_PAGE_HEADER => {
                self.page = Some(struct_field::<DataPageFields>(alloc, kind, offset, reader)?);
            }
            _ => reader.skip(kind)?,
        }
        Ok(self)
    }

    fn into_whole(self) -> Option<PageHeader> {
        let page = self.page?;
        Some(PageHeader {
            kind: self.kind?,
            uncompressed: self.uncompressed?,
            compressed: self.compressed?,
            values: page.values,
            encoding: page.encoding,
            def_encoding: page.def_encoding,
            rep_encoding: page.rep_encoding,
        })
    }
}

/// The header at the beginning of the bytes, and how many bytes it takes. Other bytes may follow it.
pub fn read_page_header(alloc: Global, bytes: &[u8]) -> Result<(PageHeader, usize), MetaError>
    ensures { AnswersHeader bytes.now result (page_header_at bytes.now) }
{
    let mut reader = TReader::new(bytes);
    match read_struct::<PageHeaderFields>(alloc, &mut reader) {
        Ok(header) => Ok((header, reader.offset())),
        Err(error) => Err(error.into_meta_error()),
    }
}

// Adds the header's DataPageHeader as a field.
fn put_data_page(writer: &mut TWriter, header: &PageHeader) -> Result<(), AllocError>
    requires { TakesField (pos 5) writer.old.levels }
    ensures { OnOk result
        (writer.new ≡ with_field (record { id = pos 5; kind = 12; value = data_page_bytes header.now }) writer.old) }
{
    writer.field_struct(DATA_PAGE_HEADER)?;
    writer.field_i32(NUM_VALUES, header.values)?;
    writer.field_i32(ENCODING, header.encoding)?;
    writer.field_i32(DEFINITION_LEVEL_ENCODING, header.def_encoding)?;
    writer.field_i32(REPETITION_LEVEL_ENCODING, header.rep_encoding)?;
    writer.stop()
}

// The header's struct, with all its bytes.
fn put_page_header(writer: &mut TWriter, header: &PageHeader) -> Result<(), AllocError>
    requires { writer.old ≡ record { bytes = []; levels = Struct (pos 0) ∷ [] } }
    ensures { OnOk result (writer.new ≡ record { bytes = page_header_bytes header.now; levels = [] }) }
{
    writer.field_i32(TYPE, header.kind)?;
    writer.field_i32(UNCOMPRESSED_PAGE_SIZE, header.uncompressed)?;
    writer.field_i32(COMPRESSED_PAGE_SIZE, header.compressed)?;
    put_data_page(writer, header)?;
    writer.stop()
}

/// The one written form of a header. The only error is want of memory.
pub fn write_page_header(alloc: Global, header: &PageHeader) -> Result<Bytes, MetaError>
    ensures written { IfOk result (λ bytes. bytes ≡ page_header_bytes header.now) }
    ensures memory { IfErr result (λ error. error ≡ MetaError.Memory) }
{
    let mut writer = TWriter::new(alloc);
    put_page_header(&mut writer, header)?;
    Ok(Bytes::from_vec(writer.finish()))
}
