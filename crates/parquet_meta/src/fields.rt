// Reading a struct field by field, and a list item by item.
ghost use Rattle.std.specs.Prelude.{◌≡◌, ◌-◌, ◌≤◌, ◌∷◌, ◌++◌, [], ok_or};
ghost use Rattle.byte_fields.specs.Varints.{zigzag_at};
ghost use Rattle.parquet_meta.specs.Answers.{ReadsHere};
ghost use Rattle.parquet_meta.specs.Reading.{typed_at, i32_field_at, i64_field_at, binary_field_at, binary_at, other_field_at, whole_at, items_at, list_of_at, list_field_at, with_value};

use crate::read_error::ReadError;
use hudi_base::{Bytes, Sequence};
use std::alloc::Global;
use thrift_compact::types::{BINARY, I32, I64, LIST, STRUCT};
use thrift_compact::{TReader, ThriftError};

/// The fields of a struct that have been read so far.
pub(crate) trait Fields: Sized + Drop {
    ghost use Rattle.std.specs.Prelude.{ℕ, ℤ, List, Option};
    ghost use Rattle.byte_fields.specs.Reading.{Reading};
    ghost use Rattle.thrift_compact.specs.Within.{TakeStays};

    /// The struct itself, which wants some of the fields.
    type Whole: Drop;

    ghost nothing: { Self };

    ghost take: { Self → ℤ → ℕ → ℕ → List ℕ → Reading Self };

    ghost whole: { Self → Option Self.Whole };

    /// No field.
    fn none() -> Self
        ensures { result ≡ nothing };

    /// Reads the value of the field at `offset`, whose head has been read. Of a repeated id the later value counts.
    fn with_field(
        self,
        alloc: Global,
        id: i16,
        kind: u8,
        offset: usize,
        reader: &mut TReader<'_>,
    ) -> Result<Self, ReadError>
        requires { offset ≤ reader.old.total }
        ensures { ReadsHere (λ x. x) reader.old reader.new result
            (take self id kind (reader.old.total - offset) reader.old.rest) };

    /// The struct, or None where a required field isn't there.
    fn into_whole(self) -> Option<Self::Whole>
        ensures { result ≡ whole self };

    ghost stays: { TakeStays take };
}

/// Reads a struct up to its stop byte, which is bad where a required field is missing.
pub(crate) fn read_struct<F: Fields>(
    alloc: Global,
    reader: &mut TReader<'_>,
) -> Result<F::Whole, ReadError>
    ensures { ReadsHere (λ x. x) reader.old reader.new result (whole_at F.take F.nothing F.whole reader.old.rest) }
{
    let mut fields = F::none();
    let mut last = 0;
    loop {
        let offset = reader.offset();
        match reader.field(last)? {
            None => return whole_or_bad(fields, offset),
            Some((id, kind)) => {
                fields = fields.with_field(alloc, id, kind, offset, reader)?;
                last = id;
            }
        }
    }
}

// The struct whose stop byte is at the offset.
fn whole_or_bad<F: Fields>(fields: F, offset: usize) -> Result<F::Whole, ReadError>
    ensures { result ≡ ok_or (F.whole fields) (ReadError.Item (ThriftError.BadThrift offset)) }
{
    match fields.into_whole() {
        Some(whole) => Ok(whole),
        None => Err(bad_at(offset)),
    }
}

// The item at the offset is bad.
fn bad_at(offset: usize) -> ReadError
    ensures { result ≡ ReadError.Item (ThriftError.BadThrift offset) }
{
    ReadError::Item(ThriftError::BadThrift(offset))
}

/// A field that is a number of 32 bits.
pub(crate) fn i32_field(kind: u8, offset: usize, reader: &mut TReader<'_>) -> Result<i32, ReadError>
    requires { offset ≤ reader.old.total }
    ensures { ReadsHere (λ x. x) reader.old reader.new result
        (i32_field_at kind (reader.old.total - offset) reader.old.rest) }
{
    if kind != I32 {
        return Err(bad_at(offset));
    }
    Ok(reader.i32()?)
}

/// A field that is a number of 64 bits.
pub(crate) fn i64_field(kind: u8, offset: usize, reader: &mut TReader<'_>) -> Result<i64, ReadError>
    requires { offset ≤ reader.old.total }
    ensures { ReadsHere (λ x. x) reader.old reader.new result
        (i64_field_at kind (reader.old.total - offset) reader.old.rest) }
{
    if kind != I64 {
        return Err(bad_at(offset));
    }
    Ok(reader.i64()?)
}

/// A field that is a binary, of which a copy is kept.
pub(crate) fn binary_field(
    alloc: Global,
    kind: u8,
    offset: usize,
    reader: &mut TReader<'_>,
) -> Result<Bytes, ReadError>
    requires { offset ≤ reader.old.total }
    ensures { ReadsHere (λ x. x) reader.old reader.new result
        (binary_field_at kind (reader.old.total - offset) reader.old.rest) }
{
    if kind != BINARY {
        return Err(bad_at(offset));
    }
    let content = reader.binary()?;
    Ok(Bytes::from_slice(alloc, content)?)
}

/// A field that is a struct.
pub(crate) fn struct_field<F: Fields>(
    alloc: Global,
    kind: u8,
    offset: usize,
    reader: &mut TReader<'_>,
) -> Result<F::Whole, ReadError>
    requires { offset ≤ reader.old.total }
    ensures { ReadsHere (λ x. x) reader.old reader.new result
        (typed_at 12 (whole_at F.take F.nothing F.whole) kind (reader.old.total - offset) reader.old.rest) }
{
    if kind != STRUCT {
        return Err(bad_at(offset));
    }
    read_struct::<F>(alloc, reader)
}

/// Any other field, which is passed over and changes nothing of what was read.
pub(crate) fn other_field<S: Drop>(
    so_far: S,
    kind: u8,
    reader: &mut TReader<'_>,
) -> Result<S, ReadError>
    ensures { ReadsHere (λ x. x) reader.old reader.new result (other_field_at so_far kind reader.old.rest) }
{
    reader.skip(kind)?;
    Ok(so_far)
}

/// An item of a list.
pub(crate) trait Item: Sized + Drop {
    ghost use Rattle.std.specs.Prelude.{ℕ, List};
    ghost use Rattle.byte_fields.specs.Reading.{Reading};

    ghost item_at: { List ℕ → Reading Self };

    /// The type of the items.
    const KIND: u8;

    ghost KIND: { ℕ };

    /// Reads the next item.
    fn read(alloc: Global, reader: &mut TReader<'_>) -> Result<Self, ReadError>
        ensures { ReadsHere (λ x. x) reader.old reader.new result (item_at reader.old.rest) };
}

fn push_item<T: Item>(
    alloc: Global,
    items: &mut Sequence<T>,
    reader: &mut TReader<'_>,
) -> Result<(), ReadError>
    ensures { ReadsHere (λ x. items.new) reader.old reader.new result
        (with_value (λ x. items.old ++ x ∷ []) (T.item_at reader.old.rest)) }
{
    let item = T::read(alloc, reader)?;
    items.push(item)?;
    Ok(())
}

// So many items. The number is claimed, so each item is kept only once it has been read.
fn read_items<T: Item>(
    alloc: Global,
    count: u32,
    reader: &mut TReader<'_>,
) -> Result<Sequence<T>, ReadError>
    ensures { ReadsHere (λ x. x) reader.old reader.new result (items_at T.item_at count reader.old.rest) }
{
    let mut items = Sequence::new(alloc);
    for _item in 0..count {
        push_item(alloc, &mut items, reader)?;
    }
    Ok(items)
}

#[tactic(auto, unfolding(crate::specs::Reading::list_of_at))]
fn read_list<T: Item>(alloc: Global, reader: &mut TReader<'_>) -> Result<Sequence<T>, ReadError>
    ensures { ReadsHere (λ x. x) reader.old reader.new result (list_of_at T.KIND T.item_at reader.old.rest) }
{
    let offset = reader.offset();
    let (kind, count) = reader.list()?;
    if kind != T::KIND {
        return Err(bad_at(offset));
    }
    read_items(alloc, count, reader)
}

/// A field that is a list of such items.
pub(crate) fn list_field<T: Item>(
    alloc: Global,
    kind: u8,
    offset: usize,
    reader: &mut TReader<'_>,
) -> Result<Sequence<T>, ReadError>
    requires { offset ≤ reader.old.total }
    ensures { ReadsHere (λ x. x) reader.old reader.new result
        (list_field_at T.KIND T.item_at kind (reader.old.total - offset) reader.old.rest) }
{
    if kind != LIST {
        return Err(bad_at(offset));
    }
    read_list(alloc, reader)
}

impl Item for i32 {
    ghost item_at = { zigzag_at 32 };

    const KIND: u8 = I32;

    ghost KIND = { 5 };

    fn read(_alloc: Global, reader: &mut TReader<'_>) -> Result<i32, ReadError> {
        Ok(reader.i32()?)
    }
}

impl Item for Bytes {
    ghost item_at = { binary_at };

    const KIND: u8 = BINARY;

    ghost KIND = { 8 };

    fn read(alloc: Global, reader: &mut TReader<'_>) -> Result<Bytes, ReadError> {
        let content = reader.binary()?;
        Ok(Bytes::from_slice(alloc, content)?)
    }
}
