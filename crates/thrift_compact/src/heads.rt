// What begins a field, a list, a set and a map.
ghost use Rattle.std.specs.Prelude.{◌≡◌};
ghost use Rattle.byte_fields.specs.Reading.{Gives};
ghost use Rattle.thrift_compact.specs.Heads.{id_at, field_at, size_at, list_at, pair_types_at, map_parts_at, map_at};

use crate::types::is_type;
use byte_fields::{FieldError, varint_u32_at, zigzag_i16_at};

#[tactic(auto, unfolding(crate::specs::Heads::id_at))]
fn id_at(last: i16, difference: u8, bytes: &[u8]) -> Result<(i16, &[u8]), FieldError>
    ensures { Gives (λ x. (x.0, x.1.now)) result (id_at last difference bytes.now) }
{
    if difference == 0 {
        return zigzag_i16_at(bytes);
    }
    match last.checked_add(i16::from(difference)) {
        Some(id) => Ok((id, bytes)),
        None => Err(FieldError::bad(bytes)),
    }
}

// A field's id and type, or None at the stop byte.
#[tactic(auto, unfolding(crate::specs::Heads::field_at))]
pub(crate) fn field_at(last: i16, bytes: &[u8]) -> Result<(Option<(i16, u8)>, &[u8]), FieldError>
    ensures { Gives (λ x. (x.0, x.1.now)) result (field_at last bytes.now) }
{
    let [byte, rest @ ..] = bytes else {
        return Err(FieldError::short(bytes));
    };
    if *byte == 0 {
        return Ok((None, rest));
    }
    if !is_type(byte % 16) {
        return Err(FieldError::bad(bytes));
    }
    match id_at(last, byte / 16, rest) {
        Ok((id, rest)) => Ok((Some((id, byte % 16)), rest)),
        Err(error) => Err(error.of_item(bytes)),
    }
}

#[tactic(auto, unfolding(crate::specs::Heads::size_at))]
fn size_at(half: u8, bytes: &[u8]) -> Result<(u32, &[u8]), FieldError>
    ensures { Gives (λ x. (x.0, x.1.now)) result (size_at half bytes.now) }
{
    if half == 15 {
        varint_u32_at(bytes)
    } else {
        Ok((u32::from(half), bytes))
    }
}

// The type of the items of a list or a set, and how many there are.
#[tactic(auto, unfolding(crate::specs::Heads::list_at))]
pub(crate) fn list_at(bytes: &[u8]) -> Result<((u8, u32), &[u8]), FieldError>
    ensures { Gives (λ x. (x.0, x.1.now)) result (list_at bytes.now) }
{
    let [byte, rest @ ..] = bytes else {
        return Err(FieldError::short(bytes));
    };
    if !is_type(byte % 16) {
        return Err(FieldError::bad(bytes));
    }
    match size_at(byte / 16, rest) {
        Ok((size, rest)) => Ok(((byte % 16, size), rest)),
        Err(error) => Err(error.of_item(bytes)),
    }
}

#[tactic(auto, unfolding(crate::specs::Heads::pair_types_at))]
fn pair_types_at(bytes: &[u8]) -> Result<((u8, u8), &[u8]), FieldError>
    ensures { Gives (λ x. (x.0, x.1.now)) result (pair_types_at bytes.now) }
{
    let [byte, rest @ ..] = bytes else {
        return Err(FieldError::short(bytes));
    };
    if !is_type(byte / 16) || !is_type(byte % 16) {
        return Err(FieldError::bad(bytes));
    }
    Ok(((byte / 16, byte % 16), rest))
}

type MapHead = Option<(u32, u8, u8)>;

#[tactic(auto, unfolding(crate::specs::Heads::map_parts_at))]
fn map_parts_at(bytes: &[u8]) -> Result<(MapHead, &[u8]), FieldError>
    ensures { Gives (λ x. (x.0, x.1.now)) result (map_parts_at bytes.now) }
{
    let (size, rest) = varint_u32_at(bytes)?;
    if size == 0 {
        return Ok((None, rest));
    }
    let ((key, value), rest) = pair_types_at(rest)?;
    Ok((Some((size, key, value)), rest))
}

// The size of a map and the types of its keys and values, or None where it has none.
#[tactic(auto, unfolding(crate::specs::Heads::map_at))]
pub(crate) fn map_at(bytes: &[u8]) -> Result<(MapHead, &[u8]), FieldError>
    ensures { Gives (λ x. (x.0, x.1.now)) result (map_at bytes.now) }
{
    match map_parts_at(bytes) {
        Ok(head) => Ok(head),
        Err(error) => Err(error.of_item(bytes)),
    }
}
