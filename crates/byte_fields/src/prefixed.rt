//! Bytes behind their length. No length that is read is trusted: the bytes that are given are lent, and nothing is
//! reserved for them.
ghost use Rattle.std.specs.Prelude.{◌≡◌, ◌<◌, ◌≤◌, ◌^◌, ◌++◌, length, take, vec_len, OnOk, OnErr};
ghost use Rattle.byte_fields.specs.Reading.{Gives};
ghost use Rattle.byte_fields.specs.Numbers.{number_at};
ghost use Rattle.byte_fields.specs.Varints.{varint, varint_at};
ghost use Rattle.byte_fields.specs.Prefixed.{with_length, long_bytes, bytes_at, length_then_bytes_at, prefixed_at, long_length_at};

use crate::field_error::FieldError;
use crate::numbers::{put_u32, u32_at, u64_at};
use crate::varints::{put_varint, put_zigzag, varint_u32_at, zigzag_i64_at};
use byteorder::ByteOrder;
use std::alloc::AllocError;

/// So many bytes.
#[tactic(auto, unfolding(crate::specs::Prefixed::bytes_at))]
pub fn bytes_at(len: usize, bytes: &[u8]) -> Result<(&[u8], &[u8]), FieldError>
    ensures { Gives (λ x. (x.0.now, x.1.now)) result (bytes_at len bytes.now) }
{
    if bytes.len() < len {
        return Err(FieldError::short(bytes));
    }
    Ok(bytes.split_at(len))
}

/// A length of eight bytes and then so many bytes, which are two items: `Short` is said of the length or of the bytes.
#[tactic(auto, unfolding(crate::specs::Prefixed::length_then_bytes_at))]
pub fn u64_then_bytes_at<B: ByteOrder>(bytes: &[u8]) -> Result<(&[u8], &[u8]), FieldError>
    ensures { Gives (λ x. (x.0.now, x.1.now)) result (length_then_bytes_at (number_at B.number_of 8) bytes.now) }
{
    let (len, rest) = u64_at::<B>(bytes)?;
    bytes_at(len as usize, rest)
}

#[tactic(auto, unfolding(crate::specs::Prefixed::length_then_bytes_at))]
fn u32_then_bytes_at<B: ByteOrder>(bytes: &[u8]) -> Result<(&[u8], &[u8]), FieldError>
    ensures { Gives (λ x. (x.0.now, x.1.now)) result (length_then_bytes_at (number_at B.number_of 4) bytes.now) }
{
    let (len, rest) = u32_at::<B>(bytes)?;
    bytes_at(len as usize, rest)
}

/// Bytes behind their length of four bytes, as one item: everything wrong is wrong at the length's first byte.
#[tactic(auto, unfolding(crate::specs::Prefixed::prefixed_at))]
pub fn u32_prefixed_at<B: ByteOrder>(bytes: &[u8]) -> Result<(&[u8], &[u8]), FieldError>
    ensures { Gives (λ x. (x.0.now, x.1.now)) result (prefixed_at (number_at B.number_of 4) bytes.now) }
{
    u32_then_bytes_at::<B>(bytes).map_err(|error| error.of_item(bytes))
}

#[tactic(auto, unfolding(crate::specs::Prefixed::length_then_bytes_at))]
fn varint_then_bytes_at(bytes: &[u8]) -> Result<(&[u8], &[u8]), FieldError>
    ensures { Gives (λ x. (x.0.now, x.1.now)) result (length_then_bytes_at (varint_at 32) bytes.now) }
{
    let (len, rest) = varint_u32_at(bytes)?;
    bytes_at(len as usize, rest)
}

/// Bytes behind the varint of their length, which has 32 bits, as one item: Thrift's binary.
#[tactic(auto, unfolding(crate::specs::Prefixed::prefixed_at))]
pub fn varint_prefixed_at(bytes: &[u8]) -> Result<(&[u8], &[u8]), FieldError>
    ensures { Gives (λ x. (x.0.now, x.1.now)) result (prefixed_at (varint_at 32) bytes.now) }
{
    varint_then_bytes_at(bytes).map_err(|error| error.of_item(bytes))
}

// A length as Avro's long.
#[tactic(auto, unfolding(crate::specs::Prefixed::long_length_at))]
fn long_length_at(bytes: &[u8]) -> Result<(usize, &[u8]), FieldError>
    ensures { Gives (λ x. (x.0, x.1.now)) result (long_length_at bytes.now) }
{
    let (long, rest) = zigzag_i64_at(bytes)?;
    match usize::try_from(long) {
        Ok(len) => Ok((len, rest)),
        Err(_) => Err(FieldError::bad(bytes)),
    }
}

#[tactic(auto, unfolding(crate::specs::Prefixed::length_then_bytes_at))]
fn long_then_bytes_at(bytes: &[u8]) -> Result<(&[u8], &[u8]), FieldError>
    ensures { Gives (λ x. (x.0.now, x.1.now)) result (length_then_bytes_at long_length_at bytes.now) }
{
    let (len, rest) = long_length_at(bytes)?;
    bytes_at(len, rest)
}

/// Bytes behind their length as a long, which isn't negative, as one item: Avro's bytes.
#[tactic(auto, unfolding(crate::specs::Prefixed::prefixed_at))]
pub fn long_prefixed_at(bytes: &[u8]) -> Result<(&[u8], &[u8]), FieldError>
    ensures { Gives (λ x. (x.0.now, x.1.now)) result (prefixed_at long_length_at bytes.now) }
{
    long_then_bytes_at(bytes).map_err(|error| error.of_item(bytes))
}

// Adds the content behind the length that stands from `start` on, or takes that length back.
fn put_content(out: &mut Vec<u8>, start: usize, content: &[u8]) -> Result<(), AllocError>
    requires { start ≤ vec_len out.old }
    ensures ok { OnOk result (out.new.items ≡ out.old.items ++ content.now) }
    ensures err { OnErr result (out.new.items ≡ take start out.old.items) }
{
    match out.extend_from_slice(content) {
        Ok(()) => Ok(()),
        Err(error) => {
            out.truncate(start);
            Err(error)
        }
    }
}

/// Adds bytes behind their length of four bytes.
#[tactic(auto, unfolding(crate::specs::Prefixed::with_length))]
pub fn put_u32_prefixed<B: ByteOrder>(out: &mut Vec<u8>, content: &[u8]) -> Result<(), AllocError>
    requires { length content.now < 2 ^ 32 }
    ensures ok { OnOk result (out.new.items ≡ out.old.items ++ with_length (B.bytes_of 4) content.now) }
    ensures err { OnErr result (out.new.items ≡ out.old.items) }
{
    let start = out.len();
    put_u32::<B>(out, content.len() as u32)?;
    put_content(out, start, content)
}

/// Adds bytes behind the varint of their length: Thrift's binary.
#[tactic(auto, unfolding(crate::specs::Prefixed::with_length))]
pub fn put_varint_prefixed(out: &mut Vec<u8>, content: &[u8]) -> Result<(), AllocError>
    requires { length content.now < 2 ^ 32 }
    ensures ok { OnOk result (out.new.items ≡ out.old.items ++ with_length varint content.now) }
    ensures err { OnErr result (out.new.items ≡ out.old.items) }
{
    let start = out.len();
    put_varint(out, content.len() as u64)?;
    put_content(out, start, content)
}

/// Adds bytes behind their length as a long: Avro's bytes, and its string where they are a text.
#[tactic(auto, unfolding(crate::specs::Prefixed::with_length))]
pub fn put_long_prefixed(out: &mut Vec<u8>, content: &[u8]) -> Result<(), AllocError>
    requires { length content.now < 2 ^ 63 }
    ensures ok { OnOk result (out.new.items ≡ out.old.items ++ with_length long_bytes content.now) }
    ensures err { OnErr result (out.new.items ≡ out.old.items) }
{
    let start = out.len();
    put_zigzag(out, content.len() as i64)?;
    put_content(out, start, content)
}
