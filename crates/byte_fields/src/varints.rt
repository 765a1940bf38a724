//! Varints and zigzag numbers: groups of seven bits, least first, a byte each. A number has one to ten bytes, the
//! tenth at most 1; the form that is written is the shortest, and a number that is read need not stand in it.
//!
//! Of a reader, `Short` says that the bytes end inside the varint, even where it could no longer fit its type, and
//! `Bad` that it has more bytes or a greater value than its type; each is said of the varint's first byte.
ghost use Rattle.std.specs.Prelude.{◌≡◌, ◌+◌, ◌<◌, ◌^◌, ◌++◌, length, take, position, OnOk, OnErr, IfSome, SomeIff};
ghost use Rattle.byte_fields.specs.Reading.{Gives};
ghost use Rattle.byte_fields.specs.Varints.{is_last, varint, zigzag, unzigzag, groups_number, groups_at, varint_at, zigzag_at};

use crate::field_error::FieldError;
use std::alloc::AllocError;

/// The greatest number of bytes of a varint.
pub const MAX_VARINT_LEN: usize = 10;

// The number in groups, of which there are at most ten, if it fits 64 bits: if a tenth one is at most 1.
#[tactic(auto, unfolding(crate::specs::Varints::groups_number))]
fn groups_number(groups: &[u8]) -> Option<u64>
    ensures { SomeIff result (groups_number groups.now < 2 ^ 64) (groups_number groups.now) }
{
    match groups {
        [] => Some(0),
        [byte, rest @ ..] => {
            let higher = groups_number(rest)?.checked_mul(128)?;
            higher.checked_add(u64::from(byte % 128))
        }
    }
}

// The offset of a varint's last byte.
fn last_offset(bytes: &[u8]) -> Option<usize>
    ensures offset { result ≡ position is_last (take 10 bytes.now) }
    ensures within { IfSome result (λ last. last < length bytes.now) }
{
    let mut first = bytes.iter().take(MAX_VARINT_LEN);
    first.position(|byte| *byte < 128)
}

// The bytes of a varint.
#[tactic(auto, unfolding(crate::specs::Varints::groups_at))]
fn groups_at(bytes: &[u8]) -> Result<(&[u8], &[u8]), FieldError>
    ensures { Gives (λ x. (x.0.now, x.1.now)) result (groups_at bytes.now) }
{
    match last_offset(bytes) {
        Some(last) => Ok(bytes.split_at(last + 1)),
        None if bytes.len() < MAX_VARINT_LEN => Err(FieldError::short(bytes)),
        None => Err(FieldError::bad(bytes)),
    }
}

/// An unsigned number of 64 bits.
#[tactic(auto, unfolding(crate::specs::Varints::varint_at))]
pub fn varint_at(bytes: &[u8]) -> Result<(u64, &[u8]), FieldError>
    ensures { Gives (λ x. (x.0, x.1.now)) result (varint_at 64 bytes.now) }
{
    // Most varints have one byte, so that one is read without a search for its end.
    match bytes {
        [byte, rest @ ..] if *byte < 128 => Ok((u64::from(*byte), rest)),
        _ => long_varint_at(bytes),
    }
}

#[tactic(auto, unfolding(crate::specs::Varints::varint_at))]
fn long_varint_at(bytes: &[u8]) -> Result<(u64, &[u8]), FieldError>
    ensures { Gives (λ x. (x.0, x.1.now)) result (varint_at 64 bytes.now) }
{
    let (groups, rest) = groups_at(bytes)?;
    match groups_number(groups) {
        Some(number) => Ok((number, rest)),
        None => Err(FieldError::bad(bytes)),
    }
}

/// An unsigned number of 32 bits, as Thrift's lengths and sizes.
pub fn varint_u32_at(bytes: &[u8]) -> Result<(u32, &[u8]), FieldError>
    ensures { Gives (λ x. (x.0, x.1.now)) result (varint_at 32 bytes.now) }
{
    let (number, rest) = varint_at(bytes)?;
    match u32::try_from(number) {
        Ok(number) => Ok((number, rest)),
        Err(_) => Err(FieldError::bad(bytes)),
    }
}

fn varint_u16_at(bytes: &[u8]) -> Result<(u16, &[u8]), FieldError>
    ensures { Gives (λ x. (x.0, x.1.now)) result (varint_at 16 bytes.now) }
{
    let (number, rest) = varint_at(bytes)?;
    match u16::try_from(number) {
        Ok(number) => Ok((number, rest)),
        Err(_) => Err(FieldError::bad(bytes)),
    }
}

fn unzigzag(number: u64) -> i64
    ensures { result ≡ unzigzag number }
{
    let half = (number / 2) as i64;
    if number % 2 == 0 { half } else { -1 - half }
}

fn zigzag(number: i64) -> u64
    ensures { result ≡ zigzag number }
{
    if number < 0 {
        (-1 - number) as u64 * 2 + 1
    } else {
        number as u64 * 2
    }
}

/// A signed number of 64 bits: Avro's long and Thrift's i64.
#[tactic(auto, unfolding(crate::specs::Varints::zigzag_at))]
pub fn zigzag_i64_at(bytes: &[u8]) -> Result<(i64, &[u8]), FieldError>
    ensures { Gives (λ x. (x.0, x.1.now)) result (zigzag_at 64 bytes.now) }
{
    let (number, rest) = varint_at(bytes)?;
    Ok((unzigzag(number), rest))
}

/// A signed number of 32 bits: Avro's int and Thrift's i32.
#[tactic(auto, unfolding(crate::specs::Varints::zigzag_at))]
pub fn zigzag_i32_at(bytes: &[u8]) -> Result<(i32, &[u8]), FieldError>
    ensures { Gives (λ x. (x.0, x.1.now)) result (zigzag_at 32 bytes.now) }
{
    let (number, rest) = varint_u32_at(bytes)?;
    Ok((unzigzag(u64::from(number)) as i32, rest))
}

/// A signed number of 16 bits: Thrift's i16.
#[tactic(auto, unfolding(crate::specs::Varints::zigzag_at))]
pub fn zigzag_i16_at(bytes: &[u8]) -> Result<(i16, &[u8]), FieldError>
    ensures { Gives (λ x. (x.0, x.1.now)) result (zigzag_at 16 bytes.now) }
{
    let (number, rest) = varint_u16_at(bytes)?;
    Ok((unzigzag(u64::from(number)) as i16, rest))
}

/// Adds the varint of a number.
pub fn put_varint(out: &mut Vec<u8>, number: u64) -> Result<(), AllocError>
    ensures ok { OnOk result (out.new.items ≡ out.old.items ++ varint number) }
    ensures err { OnErr result (out.new.items ≡ out.old.items) }
{
    out.reserve(MAX_VARINT_LEN)?;
    let mut left = number;
    while left >= 128 {
        out.push((128 + left % 128) as u8)?;
        left /= 128;
    }
    out.push(left as u8)?;
    Ok(())
}

/// Adds the zigzag form of a signed number, of which the type has no part: the int 5 and the long 5 are written alike.
pub fn put_zigzag(out: &mut Vec<u8>, number: i64) -> Result<(), AllocError>
    ensures ok { OnOk result (out.new.items ≡ out.old.items ++ varint (zigzag number)) }
    ensures err { OnErr result (out.new.items ≡ out.old.items) }
{
    put_varint(out, zigzag(number))
}
