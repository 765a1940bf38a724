// Passing over a value of any type. The recursion is as deep as containers are nested, which is limited.
ghost use Rattle.std.specs.Prelude.{◌≡◌, ◌≤◌, ◌<◌};
ghost use Rattle.byte_fields.specs.Reading.{Gives};
ghost use Rattle.thrift_compact.specs.Types.{shape_of};
ghost use Rattle.thrift_compact.specs.Values.{scalar_at, too_deep_at, container_at, item_at, pair_at, times_at, value_at};

use crate::heads::{field_at, list_at, map_at};
use crate::types::{BINARY, BYTE, DOUBLE, FALSE, I16, I32, I64, LIST, MAP, SET, STRUCT, TRUE};
use byte_fields::{
    FieldError, bytes_at, varint_prefixed_at, zigzag_i16_at, zigzag_i32_at, zigzag_i64_at,
};

/// How many containers may be nested, the value itself counted.
pub(crate) const MAX_LEVELS: u32 = 32;

// What a value consists of.
#[derive(Clone, Copy)]
enum Shape {
    OfScalar(Scalar),
    OfContainer(Container),
}

// A value that holds no others. A boolean field has no bytes but its head's.
#[derive(Clone, Copy)]
enum Scalar {
    Empty,
    Byte,
    I16,
    I32,
    I64,
    Double,
    Binary,
}

// A list or a set, a map, a struct.
#[derive(Clone, Copy)]
enum Container {
    Items,
    Pairs,
    Fields,
}

#[tactic(auto, unfolding(crate::specs::Types::shape_of))]
fn shape_of(kind: u8) -> Option<Shape>
    ensures { result ≡ shape_of kind }
{
    match kind {
        TRUE | FALSE => Some(Shape::OfScalar(Scalar::Empty)),
        BYTE => Some(Shape::OfScalar(Scalar::Byte)),
        I16 => Some(Shape::OfScalar(Scalar::I16)),
        I32 => Some(Shape::OfScalar(Scalar::I32)),
        I64 => Some(Shape::OfScalar(Scalar::I64)),
        DOUBLE => Some(Shape::OfScalar(Scalar::Double)),
        BINARY => Some(Shape::OfScalar(Scalar::Binary)),
        LIST | SET => Some(Shape::OfContainer(Container::Items)),
        MAP => Some(Shape::OfContainer(Container::Pairs)),
        STRUCT => Some(Shape::OfContainer(Container::Fields)),
        _ => None,
    }
}

// The bytes after a value that holds no others.
#[tactic(auto, unfolding(crate::specs::Values::scalar_at))]
fn after_scalar(scalar: Scalar, bytes: &[u8]) -> Result<&[u8], FieldError>
    ensures { Gives (λ x. (tt, x.now)) result (scalar_at scalar bytes.now) }
{
    match scalar {
        Scalar::Empty => Ok(bytes),
        Scalar::Byte => Ok(bytes_at(1, bytes)?.1),
        Scalar::I16 => Ok(zigzag_i16_at(bytes)?.1),
        Scalar::I32 => Ok(zigzag_i32_at(bytes)?.1),
        Scalar::I64 => Ok(zigzag_i64_at(bytes)?.1),
        Scalar::Double => Ok(bytes_at(8, bytes)?.1),
        Scalar::Binary => Ok(varint_prefixed_at(bytes)?.1),
    }
}

fn too_deep(container: Container, bytes: &[u8]) -> Result<&[u8], FieldError>
    ensures { Gives (λ x. (tt, x.now)) result (too_deep_at container bytes.now) }
{
    if bytes.is_empty() {
        Err(FieldError::short(bytes))
    } else {
        Err(FieldError::bad(bytes))
    }
}

// The bytes after a value, with containers in at most so many levels.
#[cycle(after_value)]
#[tactic(auto, unfolding(crate::specs::Values::value_at))]
pub(crate) fn after_value(levels: u32, kind: u8, bytes: &[u8]) -> Result<&[u8], FieldError>
    ensures { Gives (λ x. (tt, x.now)) result (value_at levels kind bytes.now) }
{
    match shape_of(kind) {
        None => Err(FieldError::bad(bytes)),
        Some(Shape::OfScalar(scalar)) => after_scalar(scalar, bytes),
        Some(Shape::OfContainer(container)) => {
            if levels == 0 {
                too_deep(container, bytes)
            } else {
                after_container(levels - 1, container, bytes)
            }
        }
    }
}

// The bytes after a container, with containers in it in at most so many levels.
#[cycle(after_value)]
#[tactic(auto, unfolding(crate::specs::Values::container_at))]
fn after_container(levels: u32, container: Container, bytes: &[u8]) -> Result<&[u8], FieldError>
    ensures { Gives (λ x. (tt, x.now)) result (container_at (value_at levels) container bytes.now) }
{
    match container {
        Container::Items => {
            let ((kind, size), rest) = list_at(bytes)?;
            after_items(levels, size, kind, rest)
        }
        Container::Pairs => match map_at(bytes)? {
            (None, rest) => Ok(rest),
            (Some((size, key, value)), rest) => after_pairs(levels, size, key, value, rest),
        },
        Container::Fields => after_fields(levels, bytes),
    }
}

#[cycle(after_value)]
#[tactic(auto, unfolding(crate::specs::Values::item_at))]
fn after_item(levels: u32, kind: u8, bytes: &[u8]) -> Result<&[u8], FieldError>
    ensures { Gives (λ x. (tt, x.now)) result (item_at (value_at levels) kind bytes.now) }
{
    if kind == TRUE || kind == FALSE {
        Ok(bytes_at(1, bytes)?.1)
    } else {
        after_value(levels, kind, bytes)
    }
}

#[cycle(after_value)]
fn after_items(levels: u32, size: u32, kind: u8, bytes: &[u8]) -> Result<&[u8], FieldError>
    ensures { Gives (λ x. (tt, x.now)) result (times_at size (item_at (value_at levels) kind) bytes.now) }
{
    let mut rest = bytes;
    for _item in 0..size {
        rest = after_item(levels, kind, rest)?;
    }
    Ok(rest)
}

#[cycle(after_value)]
#[tactic(auto, unfolding(crate::specs::Values::pair_at))]
fn after_pair(levels: u32, key: u8, value: u8, bytes: &[u8]) -> Result<&[u8], FieldError>
    ensures { Gives (λ x. (tt, x.now)) result (pair_at (value_at levels) key value bytes.now) }
{
    let rest = after_item(levels, key, bytes)?;
    after_item(levels, value, rest)
}

#[cycle(after_value)]
fn after_pairs(
    levels: u32,
    size: u32,
    key: u8,
    value: u8,
    bytes: &[u8],
) -> Result<&[u8], FieldError>
    ensures { Gives (λ x. (tt, x.now)) result (times_at size (pair_at (value_at levels) key value) bytes.now) }
{
    let mut rest = bytes;
    for _pair in 0..size {
        rest = after_pair(levels, key, value, rest)?;
    }
    Ok(rest)
}

#[cycle(after_value)]
fn after_fields(levels: u32, bytes: &[u8]) -> Result<&[u8], FieldError>
    ensures { Gives (λ x. (tt, x.now)) result (container_at (value_at levels) Container.Fields bytes.now) }
{
    let mut last = 0;
    let mut rest = bytes;
    loop {
        match field_at(last, rest)? {
            (None, after) => return Ok(after),
            (Some((id, kind)), after) => {
                rest = after_value(levels, kind, after)?;
                last = id;
            }
        }
    }
}
