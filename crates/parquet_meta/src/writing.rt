// Writing the fields of a struct and the items of a list.
ghost use Rattle.std.specs.Prelude.{◌≡◌, ◌<◌, ◌≤◌, ◌^◌, ◌+◌, ℕ, ℤ, ◌<ℤ◌, ◌++◌, length, All, OnOk};
ghost use Rattle.thrift_compact.specs.Writing.{TakesField, TakesItem};
ghost use Rattle.parquet_meta.specs.Written.{optional_field, list_bytes, number_bytes, binary_bytes, IsShort};
ghost use Rattle.parquet_meta.specs.Writers.{with_field, with_fields, with_item};

use hudi_base::Bytes;
use std::alloc::AllocError;
use thrift_compact::TWriter;
use thrift_compact::types::{BINARY, I32};

/// An item of a list.
pub(crate) trait PutItem {
    ghost use Rattle.std.specs.Prelude.{ℕ, List};
    ghost use Rattle.thrift_compact.specs.Writing.{IsItemType};

    ghost item_bytes: { Self → List ℕ };

    ghost fits: { Self → Type 0 };

    /// The type of the items.
    const KIND: u8;

    ghost KIND: { ℕ };

    /// Adds the item to the list that is being written.
    fn put(&self, writer: &mut TWriter) -> Result<(), AllocError>
        requires item { TakesItem KIND writer.old.levels }
        requires fits { fits self.now }
        ensures { OnOk result (writer.new ≡ with_item (item_bytes self.now) writer.old) };

    ghost written: { IsItemType KIND };
}

impl PutItem for i32 {
    ghost use Rattle.std.specs.Prelude.{refl};
    ghost use Rattle.std.proofs.Common.{inl, inr};

    ghost item_bytes = { number_bytes };

    ghost fits = { λ _. Unit {0} };

    const KIND: u8 = I32;

    ghost KIND = { 5 };

    ghost written = { inl refl };

    fn put(&self, writer: &mut TWriter) -> Result<(), AllocError> {
        writer.item_i32(*self)
    }
}

impl PutItem for Bytes {
    ghost use Rattle.std.specs.Prelude.{refl};
    ghost use Rattle.std.proofs.Common.{inl, inr};

    ghost item_bytes = { binary_bytes };

    ghost fits = { IsShort };

    const KIND: u8 = BINARY;

    ghost KIND = { 8 };

    ghost written = { inr (inl refl) };

    fn put(&self, writer: &mut TWriter) -> Result<(), AllocError> {
        writer.item_binary(self.as_slice())
    }
}

/// Adds a field that is a list of such items.
pub(crate) fn put_list<T: PutItem>(
    writer: &mut TWriter,
    id: i16,
    items: &[T],
) -> Result<(), AllocError>
    requires field { TakesField id writer.old.levels }
    requires short { length items.now < 2 ^ 32 }
    requires fits { All T.fits items.now }
    ensures { OnOk result
        (writer.new ≡ with_field
        (record { id = id; kind = 9; value = list_bytes T.KIND T.item_bytes items.now }) writer.old) }
{
    writer.field_list(id, T::KIND, items.len() as u32)?;
    for item in items {
        item.put(writer)?;
    }
    Ok(())
}

/// Adds a field that is a number of 32 bits, if it is there.
pub(crate) fn put_optional(
    writer: &mut TWriter,
    id: i16,
    number: Option<i32>,
) -> Result<(), AllocError>
    requires { TakesField id writer.old.levels }
    ensures written { OnOk result (writer.new ≡ with_fields (optional_field id number) writer.old) }
    ensures later { (next : ℤ) → id <ℤ next → TakesField next writer.old.levels →
        OnOk result (TakesField next writer.new.levels) }
{
    match number {
        Some(number) => writer.field_i32(id, number),
        None => Ok(()),
    }
}
