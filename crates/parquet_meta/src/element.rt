// The elements of a schema.
ghost use Rattle.std.specs.Prelude.{◌≡◌};
ghost use Rattle.parquet_meta.specs.Written.{converted_type};

use crate::fields::{Fields, Item, binary_field, i32_field, read_struct};
use crate::read_error::ReadError;
use crate::writing::{PutItem, put_optional};
use hudi_base::{Bytes, Sequence};
use std::alloc::{AllocError, Global};
use thrift_compact::types::STRUCT;
use thrift_compact::{TReader, TWriter};

/// A node of the schema: SchemaElement of the Parquet format. The first is the root.
#[derive(Drop)]
pub struct Element {
    /// SchemaElement 1, `type`: 0 boolean, 1 of 32 bits, 2 of 64 bits, 6 byte array. A node with children has none.
    pub physical: Option<i32>,
    /// SchemaElement 3, `repetition_type`: 0 required, 1 optional, 2 repeated.
    pub repetition: Option<i32>,
    /// SchemaElement 4, `name`.
    pub name: Bytes,
    /// SchemaElement 5, `num_children`. A leaf has none.
    pub children: Option<i32>,
    /// Whether SchemaElement 6, `converted_type`, is written as 0, which says that the byte arrays are texts in UTF-8. It
    /// isn't read: an element that was read has false here.
    pub utf8: bool,
}

/// The elements of a schema, each node before its children.
pub type Elements = Sequence<Element>;

const TYPE: i16 = 1;

const REPETITION_TYPE: i16 = 3;

const NAME: i16 = 4;

const NUM_CHILDREN: i16 = 5;

const CONVERTED_TYPE: i16 = 6;

/// The converted type of texts in UTF-8.
const UTF8: i32 = 0;

/// What has been read of a SchemaElement.
#[derive(Drop)]
pub(crate) struct ElementFields {
    physical: Option<i32>,
    repetition: Option<i32>,
    name: Option<Bytes>,
    children: Option<i32>,
}

impl Fields for ElementFields {
    ghost use Rattle.parquet_meta.specs.Footers.{no_element_fields, element_field_at, element_of};
    ghost use Rattle.parquet_meta.specs.StaysLaws.{element_field_stays};

    type Whole = Element;

    ghost nothing = { no_element_fields };

    ghost take = { element_field_at };

    ghost whole = { element_of };

    ghost stays = { element_field_stays };

    fn none() -> ElementFields {
        ElementFields {
            physical: None,
            repetition: None,
            name: None,
            children: None,
        }
    }

    #[tactic(auto, unfolding(crate::specs::Footers::element_field_at))]
    fn with_field(
        mut self,
        alloc: Global,
        id: i16,
        kind: u8,
        offset: usize,
        reader: &mut TReader<'_>,
    ) -> Result<ElementFields, ReadError> {
        match id {
            TYPE => self.physical = Some(i32_field(kind, offset, reader)?),
            REPETITION_TYPE => self.repetition = Some(i32_field(kind, offset, reader)?),
            NAME => self.name = Some(binary_field(alloc, kind, offset, reader)?),
            NUM_CHILDREN => self.children = Some(i32_field(kind, offset, reader)?),
            _ => reader.skip(kind)?,
        }
        Ok(self)
    }

    fn into_whole(self) -> Option<Element> {
        Some(Element {
            physical: self.physical,
            repetition: self.repetition,
            name: self.name?,
            children: self.children,
            utf8: false,
        })
    }
}

impl Item for Element {
    ghost use Rattle.parquet_meta.specs.Footers.{element_at};

    ghost item_at = { element_at };

    const KIND: u8 = STRUCT;

    ghost KIND = { 12 };

    fn read(alloc: Global, reader: &mut TReader<'_>) -> Result<Element, ReadError> {
        read_struct::<ElementFields>(alloc, reader)
    }
}

// The converted type of an element.
fn converted_type(utf8: bool) -> Option<i32>
    ensures { result ≡ converted_type utf8 }
{
    if utf8 { Some(UTF8) } else { None }
}

impl PutItem for Element {
    ghost use Rattle.std.specs.Prelude.{refl};
    ghost use Rattle.std.proofs.Common.{inr};
    ghost use Rattle.parquet_meta.specs.Written.{element_bytes, FitsElement};

    ghost item_bytes = { element_bytes };

    ghost fits = { FitsElement };

    const KIND: u8 = STRUCT;

    ghost KIND = { 12 };

    ghost written = { inr (inr refl) };

    fn put(&self, writer: &mut TWriter) -> Result<(), AllocError> {
        writer.item_struct()?;
        put_optional(writer, TYPE, self.physical)?;
        put_optional(writer, REPETITION_TYPE, self.repetition)?;
        writer.field_binary(NAME, self.name.as_slice())?;
        put_optional(writer, NUM_CHILDREN, self.children)?;
        put_optional(writer, CONVERTED_TYPE, converted_type(self.utf8))?;
        writer.stop()
    }
}
