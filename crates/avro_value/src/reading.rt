// Reading values.
ghost use Rattle.std.specs.Prelude.{◌≡◌, ◌<◌, ◌≤◌, ◌++◌, ℕ, List, [], length, map, IfOk, IsOkUnless};
ghost use Rattle.byte_fields.specs.Varints.{zigzag_at};
ghost use Rattle.byte_fields.specs.Prefixed.{bytes_at, prefixed_at, long_length_at, text_at};
ghost use Rattle.avro_schema.specs.AvroTypes.{type_of, field_of, branches_of, fields_of, union_of};
ghost use Rattle.avro_schema.specs.Reading as spec;
ghost use Rattle.avro_schema.specs.Fits.{Fits};
ghost use Rattle.avro_schema.specs.Grammar.{IsReading};
ghost use Rattle.avro_schema.specs.Written.{item_count};
ghost use Rattle.avro_value.specs.Decoding.{Decodes, IsFound};
ghost use Rattle.avro_value.specs.Readers.{Reads};
ghost use Rattle.avro_value.specs.declared.errors.ValueError.TheVariants.{Memory};
ghost use Rattle.hudi_base.specs.declared.value.Value.{Value};
ghost use Rattle.avro_value.specs.Places.{found_at, head_view};
ghost use Rattle.hudi_base.specs.declared.value.Value as value;

use crate::blocks::{BlockHead, block_head_at, check_size};
use crate::errors::{ReadError, ValueError};
use crate::place::Place;
use crate::primitives::{boolean_at, index_at};
use avro_schema::{Field, Schema};
use byte_fields::{
    FieldError, bytes_at, long_prefixed_at, long_text_at, zigzag_i32_at, zigzag_i64_at,
};
use hudi_base::{Bytes, Name, Pair, Pairs, Value, Values};
use sqlite_items::{Boxed, Items};
use std::alloc::Global;

/// The greatest number of items of arrays and entries of maps in one value, at all depths together.
pub const MAX_ITEMS: u32 = 1_000_000;

fn boolean_value(place: Place<'_>) -> Result<(Value, Place<'_>), ReadError>
    ensures { Reads found_at result (spec.plain value.Boolean place.entry.left (spec.boolean_at place.entry.bytes.now)) }
{
    let (truth, bytes) = boolean_at(place.bytes)?;
    Ok((Value::Boolean(truth), Place { bytes, ..place }))
}

fn int_value(place: Place<'_>) -> Result<(Value, Place<'_>), ReadError>
    ensures { Reads found_at result (spec.plain value.Int place.entry.left (zigzag_at 32 place.entry.bytes.now)) }
{
    let (number, bytes) = zigzag_i32_at(place.bytes)?;
    Ok((Value::Int(number), Place { bytes, ..place }))
}

fn long_value(place: Place<'_>) -> Result<(Value, Place<'_>), ReadError>
    ensures { Reads found_at result (spec.plain value.Long place.entry.left (zigzag_at 64 place.entry.bytes.now)) }
{
    let (number, bytes) = zigzag_i64_at(place.bytes)?;
    Ok((Value::Long(number), Place { bytes, ..place }))
}

fn bytes_value(alloc: Global, place: Place<'_>) -> Result<(Value, Place<'_>), ReadError>
    ensures { Reads found_at result (spec.plain value.Bytes place.entry.left (prefixed_at long_length_at place.entry.bytes.now)) }
{
    let (content, bytes) = long_prefixed_at(place.bytes)?;
    Ok((
        Value::Bytes(Bytes::from_slice(alloc, content)?),
        Place { bytes, ..place },
    ))
}

fn text_value(alloc: Global, place: Place<'_>) -> Result<(Value, Place<'_>), ReadError>
    ensures { Reads found_at result (spec.plain value.Text place.entry.left (text_at long_length_at place.entry.bytes.now)) }
{
    let (text, bytes) = long_text_at(place.bytes)?;
    Ok((
        Value::Text(Name::from_text(alloc, text)?),
        Place { bytes, ..place },
    ))
}

fn fixed_value(alloc: Global, size: u32, place: Place<'_>) -> Result<(Value, Place<'_>), ReadError>
    ensures { Reads found_at result (spec.plain value.Fixed place.entry.left (bytes_at size place.entry.bytes.now)) }
{
    let (content, bytes) = bytes_at(size as usize, place.bytes)?;
    Ok((
        Value::Fixed(Bytes::from_slice(alloc, content)?),
        Place { bytes, ..place },
    ))
}

fn enum_value(symbols: usize, place: Place<'_>) -> Result<(Value, Place<'_>), ReadError>
    ensures { Reads found_at result (spec.plain value.Enum place.entry.left (spec.index_at symbols place.entry.bytes.now)) }
{
    let (index, bytes) = index_at(symbols, place.bytes)?;
    Ok((Value::Enum(index), Place { bytes, ..place }))
}

// Adds items of an array at the end.
#[cycle(decode)]
fn add_items<'a>(
    alloc: Global,
    item: &Schema,
    count: u32,
    place: Place<'a>,
    found: &mut Values,
) -> Result<Place<'a>, ReadError>
    ensures { Reads (λ after. ((found.new, after.left), after.bytes.now)) result (spec.items_from (spec.value_at (type_of item.now)) count found.old place.entry.left place.entry.bytes.now) }
{
    let mut place = place;
    for _ in 0..count {
        let (value, after) = value_at(alloc, item, place)?;
        found.push(value)?;
        place = after;
    }
    Ok(place)
}

// Adds the items of a block at the end.
#[cycle(decode)]
#[tactic(auto, unfolding(avro_schema::specs::Reading::block_from))]
fn add_block<'a>(
    alloc: Global,
    item: &Schema,
    head: BlockHead,
    place: Place<'a>,
    found: &mut Values,
) -> Result<Place<'a>, ReadError>
    requires { head.count ≤ place.left }
    ensures { Reads (λ after. ((found.new, after.left), after.bytes.now)) result (spec.block_from (spec.value_at (type_of item.now)) (head_view head) found.old place.entry.left place.entry.bytes.now) }
{
    let left = place.left - head.count;
    let after = add_items(alloc, item, head.count, Place { left, ..place }, found)?;
    check_size(head.size, place.bytes.len(), after.bytes.len())?;
    Ok(after)
}

// The items of an array.
#[cycle(decode)]
#[tactic(auto, unfolding(avro_schema::specs::Reading::blocks_at))]
fn array_items<'a>(
    alloc: Global,
    item: &Schema,
    place: Place<'a>,
) -> Result<(Values, Place<'a>), ReadError>
    ensures { Reads found_at result (spec.blocks_at (spec.value_at (type_of item.now)) place.entry.left place.entry.bytes.now) }
{
    let mut found = Items::new(alloc);
    let mut place = place;
    for _ in 0..place.left as u64 + 1 {
        let (head, bytes) = block_head_at(place)?;
        if head.count == 0 {
            return Ok((found, Place { bytes, ..place }));
        }
        place = add_block(alloc, item, head, Place { bytes, ..place }, &mut found)?;
    }
    Err(ReadError::Field(FieldError::bad(place.bytes)))
}

// An entry of a map.
#[cycle(decode)]
#[tactic(auto, unfolding(avro_schema::specs::Reading::entry_at))]
fn entry_at<'a>(
    alloc: Global,
    schema: &Schema,
    place: Place<'a>,
) -> Result<(Pair, Place<'a>), ReadError>
    ensures { Reads found_at result (spec.entry_at (spec.value_at (type_of schema.now)) place.entry.left place.entry.bytes.now) }
{
    let (key, bytes) = long_text_at(place.bytes)?;
    let (value, place) = value_at(alloc, schema, Place { bytes, ..place })?;
    let key = Name::from_text(alloc, key)?;
    Ok((Pair { key, value }, place))
}

// Adds entries of a map at the end.
#[cycle(decode)]
fn add_entries<'a>(
    alloc: Global,
    schema: &Schema,
    count: u32,
    place: Place<'a>,
    found: &mut Pairs,
) -> Result<Place<'a>, ReadError>
    ensures { Reads (λ after. ((found.new, after.left), after.bytes.now)) result (spec.items_from (spec.entry_at (spec.value_at (type_of schema.now))) count found.old place.entry.left place.entry.bytes.now) }
{
    let mut place = place;
    for _ in 0..count {
        let (entry, after) = entry_at(alloc, schema, place)?;
        found.push(entry)?;
        place = after;
    }
    Ok(place)
}

// Adds the entries of a block at the end.
#[cycle(decode)]
#[tactic(auto, unfolding(avro_schema::specs::Reading::block_from))]
fn add_entry_block<'a>(
    alloc: Global,
    schema: &Schema,
    head: BlockHead,
    place: Place<'a>,
    found: &mut Pairs,
) -> Result<Place<'a>, ReadError>
    requires { head.count ≤ place.left }
    ensures { Reads (λ after. ((found.new, after.left), after.bytes.now)) result (spec.block_from (spec.entry_at (spec.value_at (type_of schema.now))) (head_view head) found.old place.entry.left place.entry.bytes.now) }
{
    let left = place.left - head.count;
    let after = add_entries(alloc, schema, head.count, Place { left, ..place }, found)?;
    check_size(head.size, place.bytes.len(), after.bytes.len())?;
    Ok(after)
}

// The entries of a map.
#[cycle(decode)]
#[tactic(auto, unfolding(avro_schema::specs::Reading::blocks_at))]
fn map_entries<'a>(
    alloc: Global,
    schema: &Schema,
    place: Place<'a>,
) -> Result<(Pairs, Place<'a>), ReadError>
    ensures { Reads found_at result (spec.blocks_at (spec.entry_at (spec.value_at (type_of schema.now))) place.entry.left place.entry.bytes.now) }
{
    let mut found = Items::new(alloc);
    let mut place = place;
    for _ in 0..place.left as u64 + 1 {
        let (head, bytes) = block_head_at(place)?;
        if head.count == 0 {
            return Ok((found, Place { bytes, ..place }));
        }
        place = add_entry_block(alloc, schema, head, Place { bytes, ..place }, &mut found)?;
    }
    Err(ReadError::Field(FieldError::bad(place.bytes)))
}

#[cycle(decode)]
fn array_value<'a>(
    alloc: Global,
    item: &Schema,
    place: Place<'a>,
) -> Result<(Value, Place<'a>), ReadError>
    ensures { Reads found_at result (spec.made value.Array (spec.blocks_at (spec.value_at (type_of item.now)) place.entry.left place.entry.bytes.now)) }
{
    let (items, after) = array_items(alloc, item, place)?;
    Ok((Value::Array(items), after))
}

#[cycle(decode)]
fn map_value<'a>(
    alloc: Global,
    schema: &Schema,
    place: Place<'a>,
) -> Result<(Value, Place<'a>), ReadError>
    ensures { Reads found_at result (spec.made value.Map (spec.blocks_at (spec.entry_at (spec.value_at (type_of schema.now))) place.entry.left place.entry.bytes.now)) }
{
    let (entries, after) = map_entries(alloc, schema, place)?;
    Ok((Value::Map(entries), after))
}

// The value of a union of which the index was read.
#[cycle(decode)]
fn branch_value<'a>(
    alloc: Global,
    branches: &[Schema],
    index: u32,
    place: Place<'a>,
) -> Result<(Value, Place<'a>), ReadError>
    requires { index < length branches.now }
    ensures { Reads found_at result (spec.made (value.Union index) (spec.branch_at (branches_of (map type_of branches.now)) index place.entry.left place.entry.bytes.now)) }
{
    let (inner, after) = value_at(alloc, &branches[index as usize], place)?;
    Ok((Value::Union(index, Boxed::new(alloc, inner)?), after))
}

#[cycle(decode)]
#[tactic(auto, using(crate::proofs::Branches::branch_count_of))]
fn union_value<'a>(
    alloc: Global,
    branches: &[Schema],
    place: Place<'a>,
) -> Result<(Value, Place<'a>), ReadError>
    ensures { Reads found_at result (spec.value_at (union_of (branches_of (map type_of branches.now))) place.entry.left place.entry.bytes.now) }
{
    let (index, bytes) = index_at(branches.len(), place.bytes)?;
    branch_value(alloc, branches, index, Place { bytes, ..place })
}

#[cycle(decode)]
fn field_value<'a>(
    alloc: Global,
    field: &Field,
    place: Place<'a>,
) -> Result<(Value, Place<'a>), ReadError>
    ensures { Reads found_at result (spec.value_at (field_of field.now).1 place.entry.left place.entry.bytes.now) }
{
    value_at(alloc, &field.schema, place)
}

// The values of a record's fields.
#[cycle(decode)]
fn field_values<'a>(
    alloc: Global,
    fields: &[Field],
    place: Place<'a>,
) -> Result<(Values, Place<'a>), ReadError>
    ensures { Reads found_at result (spec.fields_from (fields_of (map field_of fields.now)) [] place.entry.left place.entry.bytes.now) }
{
    let mut found = Items::new(alloc);
    let mut place = place;
    for field in fields {
        let (value, after) = field_value(alloc, field, place)?;
        found.push(value)?;
        place = after;
    }
    Ok((found, place))
}

#[cycle(decode)]
fn record_value<'a>(
    alloc: Global,
    fields: &[Field],
    place: Place<'a>,
) -> Result<(Value, Place<'a>), ReadError>
    ensures { Reads found_at result (spec.made value.Record (spec.fields_from (fields_of (map field_of fields.now)) [] place.entry.left place.entry.bytes.now)) }
{
    let (values, after) = field_values(alloc, fields, place)?;
    Ok((Value::Record(values), after))
}

// The value of a schema's type at the place.
#[cycle(decode)]
fn value_at<'a>(
    alloc: Global,
    schema: &Schema,
    place: Place<'a>,
) -> Result<(Value, Place<'a>), ReadError>
    ensures { Reads found_at result (spec.value_at (type_of schema.now) place.entry.left place.entry.bytes.now) }
{
    match schema {
        Schema::Null => Ok((Value::Null, place)),
        Schema::Boolean => boolean_value(place),
        Schema::Int => int_value(place),
        Schema::Long => long_value(place),
        Schema::Bytes => bytes_value(alloc, place),
        Schema::Text => text_value(alloc, place),
        Schema::Fixed(_, size) => fixed_value(alloc, *size, place),
        Schema::Enum(_, symbols) => enum_value(symbols.len(), place),
        Schema::Array(item) => array_value(alloc, item.get(), place),
        Schema::Map(value) => map_value(alloc, value.get(), place),
        Schema::Union(branches) => union_value(alloc, branches.as_slice(), place),
        Schema::Record(_, fields) => record_value(alloc, fields.as_slice(), place),
    }
}

/// The value of a schema's type that is read from the beginning of the bytes, after "Binary Encoding" of the Avro
/// specification, and the number of bytes that it takes. Numbers need not stand in their shortest form, an array or a map may
/// have several blocks, and a block may have its size before it. A map's keys may repeat; all its entries are kept.
///
/// `Short` says that the bytes end inside a primitive, and `BadBytes` that one breaks a rule; it is the first that can't be
/// read. More than `MAX_ITEMS` items of arrays and entries of maps are bad at the count that passes the limit, and a wrong size
/// of a block at the size. Nothing is reserved from a count or a length, and the schema's depth bounds the recursion.
pub fn decode(alloc: Global, schema: &Schema, bytes: &[u8]) -> Result<(Value, usize), ValueError>
    // Which answer comes, and where the first fault lies.
    ensures exact { Decodes (length bytes.now) result (spec.value_at (type_of schema.now) 1000000 bytes.now) }
    // What is read is a reading.
    ensures found { IfOk result (λ x. IsFound (type_of schema.now) bytes.now x.0 x.1) }
    ensures fits { IfOk result (λ x. Fits (type_of schema.now) x.0) }
    // A reading is read, unless memory runs out, and it is the only one.
    ensures only { (prefix rest : List ℕ) (v : Value) → bytes.now ≡ prefix ++ rest → IsReading (type_of schema.now) v prefix → item_count v ≤ 1000000 → IsOkUnless result Memory × IfOk result (λ x. (x.0 ≡ v) × (x.1 ≡ length prefix)) }
{
    let start = Place {
        left: MAX_ITEMS,
        bytes,
    };
    match value_at(alloc, schema, start) {
        Ok((value, after)) => Ok((value, bytes.len().saturating_sub(after.bytes.len()))),
        Err(ReadError::Memory) => Err(ValueError::Memory),
        Err(ReadError::Field(error)) => Err(ValueError::at(error, bytes.len())),
    }
}
