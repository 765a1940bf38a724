// Writing values.
ghost use Rattle.std.specs.Prelude.{◌≡◌, ◌≤◌, ◌-◌, ◌∷◌, ◌++◌, [], ℕ, List, Ok, IfOk, IfErr, OnOk, map, flat_map};
ghost use Rattle.byte_fields.specs.Prefixed.{with_length, long_bytes};
ghost use Rattle.avro_schema.specs.AvroTypes.{type_of};
ghost use Rattle.avro_schema.specs.Fits.{Fits};
ghost use Rattle.avro_schema.specs.Grammar.{IsReading};
ghost use Rattle.avro_schema.specs.Reading.{value_at};
ghost use Rattle.avro_schema.specs.Written.{written, written_entry, block_of, item_count};
ghost use Rattle.avro_value.specs.declared.errors.ValueError.TheVariants.{Memory};

use crate::errors::ValueError;
use avro_schema::Schema;
use byte_fields::{put_long_prefixed, put_zigzag};
use hudi_base::{Bytes, Pair, Value};
use std::alloc::{AllocError, Global};

// Adds bytes behind their length. A length is a long, so it has a limit, which no memory reaches.
fn put_bytes(out: &mut Vec<u8>, content: &[u8]) -> Result<(), AllocError>
    ensures { OnOk result (out.new.items ≡ out.old.items ++ with_length long_bytes content.now) }
{
    if content.len() > i64::MAX as usize {
        return Err(AllocError);
    }
    put_long_prefixed(out, content)
}

// Adds a count as a long, which has the same limit.
fn put_count(out: &mut Vec<u8>, count: usize) -> Result<(), AllocError>
    ensures { OnOk result (out.new.items ≡ out.old.items ++ long_bytes count) }
{
    if count > i64::MAX as usize {
        return Err(AllocError);
    }
    put_zigzag(out, count as i64)
}

fn put_byte(out: &mut Vec<u8>, byte: u8) -> Result<(), AllocError>
    ensures { OnOk result (out.new.items ≡ out.old.items ++ byte ∷ []) }
{
    out.push(byte)?;
    Ok(())
}

#[cycle(encode)]
fn put_values(out: &mut Vec<u8>, values: &[Value]) -> Result<(), AllocError>
    ensures { OnOk result (out.new.items ≡ out.old.items ++ flat_map (λ bs. bs) (map written values.now)) }
{
    for value in values {
        put_value(out, value)?;
    }
    Ok(())
}

#[cycle(encode)]
fn put_array(out: &mut Vec<u8>, values: &[Value]) -> Result<(), AllocError>
    ensures { OnOk result (out.new.items ≡ out.old.items ++ block_of (map written values.now)) }
{
    if !values.is_empty() {
        put_count(out, values.len())?;
        put_values(out, values)?;
    }
    put_byte(out, 0)
}

#[cycle(encode)]
fn put_entry(out: &mut Vec<u8>, entry: &Pair) -> Result<(), AllocError>
    ensures { OnOk result (out.new.items ≡ out.old.items ++ written_entry entry.now) }
{
    put_bytes(out, entry.key.as_slice())?;
    put_value(out, &entry.value)
}

#[cycle(encode)]
fn put_entries(out: &mut Vec<u8>, entries: &[Pair]) -> Result<(), AllocError>
    ensures { OnOk result (out.new.items ≡ out.old.items ++ flat_map (λ bs. bs) (map written_entry entries.now)) }
{
    for entry in entries {
        put_entry(out, entry)?;
    }
    Ok(())
}

#[cycle(encode)]
fn put_map(out: &mut Vec<u8>, entries: &[Pair]) -> Result<(), AllocError>
    ensures { OnOk result (out.new.items ≡ out.old.items ++ block_of (map written_entry entries.now)) }
{
    if !entries.is_empty() {
        put_count(out, entries.len())?;
        put_entries(out, entries)?;
    }
    put_byte(out, 0)
}

#[cycle(encode)]
fn put_union(out: &mut Vec<u8>, index: u32, value: &Value) -> Result<(), AllocError>
    ensures { OnOk result (out.new.items ≡ out.old.items ++ (long_bytes index ++ written value.now)) }
{
    put_zigzag(out, i64::from(index))?;
    put_value(out, value)
}

// Adds the written form of a value.
#[cycle(encode)]
fn put_value(out: &mut Vec<u8>, value: &Value) -> Result<(), AllocError>
    ensures { OnOk result (out.new.items ≡ out.old.items ++ written value.now) }
{
    match value {
        Value::Null => Ok(()),
        Value::Boolean(truth) => put_byte(out, if *truth { 1 } else { 0 }),
        Value::Int(number) => put_zigzag(out, i64::from(*number)),
        Value::Long(number) => put_zigzag(out, *number),
        Value::Bytes(content) => put_bytes(out, content.as_slice()),
        Value::Text(text) => put_bytes(out, text.as_slice()),
        Value::Fixed(content) => out.extend_from_slice(content.as_slice()),
        Value::Enum(index) => put_zigzag(out, i64::from(*index)),
        Value::Array(values) => put_array(out, values.as_slice()),
        Value::Map(entries) => put_map(out, entries.as_slice()),
        Value::Union(index, inner) => put_union(out, *index, inner.get()),
        Value::Record(values) => put_values(out, values.as_slice()),
    }
}

/// The written form of a value, after "Binary Encoding" of the Avro specification: the shortest numbers and one block at most
/// for each array and map. A value's form is the same under each schema. The only error is want of memory.
///
/// If the value is of the schema's type, this is a reading of it, and with at most `MAX_ITEMS` items it is read again, whatever
/// follows it.
pub fn encode(alloc: Global, schema: &Schema, value: &Value) -> Result<Bytes, ValueError>
    ensures written { IfOk result (λ bytes. bytes ≡ written value.now) }
    ensures reading { Fits (type_of schema.now) value.now → IfOk result (λ bytes. IsReading (type_of schema.now) value.now bytes) }
    ensures reads_back { Fits (type_of schema.now) value.now → item_count value.now ≤ 1000000 → IfOk result (λ bytes. (rest : List ℕ) → value_at (type_of schema.now) 1000000 (bytes ++ rest) ≡ Ok ((value.now, 1000000 - item_count value.now), rest)) }
    ensures only_memory { IfErr result (λ error. error ≡ Memory) }
{
    let mut out = Vec::new(alloc);
    match put_value(&mut out, value) {
        Ok(()) => Ok(Bytes::from_vec(out)),
        Err(_) => Err(ValueError::Memory),
    }
}
