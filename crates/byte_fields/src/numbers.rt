//! Numbers of a fixed width, in the byte order `B`.
ghost use Rattle.std.specs.Prelude.{◌≡◌, [], ◌∷◌, ◌++◌, OnOk, OnErr};
ghost use Rattle.std.specs.Int.{w32, w64, cast_unsigned};
ghost use Rattle.byteorder.specs.Endian.{big_number};
ghost use Rattle.byte_fields.specs.Reading.{Gives};
ghost use Rattle.byte_fields.specs.Numbers.{number_at, signed_at, after_number};

use crate::field_error::FieldError;
use byteorder::ByteOrder;
use std::alloc::AllocError;

/// A byte.
#[tactic(auto, unfolding(crate::specs::Numbers::number_at))]
pub fn u8_at(bytes: &[u8]) -> Result<(u8, &[u8]), FieldError>
    ensures { Gives (λ x. (x.0, x.1.now)) result (number_at big_number 1 bytes.now) }
{
    match bytes.split_first() {
        Some((byte, rest)) => Ok((*byte, rest)),
        None => Err(FieldError::short(bytes)),
    }
}

/// A number of four bytes.
#[tactic(auto, unfolding(crate::specs::Numbers::number_at))]
pub fn u32_at<B: ByteOrder>(bytes: &[u8]) -> Result<(u32, &[u8]), FieldError>
    ensures { Gives (λ x. (x.0, x.1.now)) result (number_at B.number_of 4 bytes.now) }
{
    if bytes.len() < 4 {
        return Err(FieldError::short(bytes));
    }
    Ok((B::read_u32(bytes), &bytes[4..]))
}

/// A number of eight bytes.
#[tactic(auto, unfolding(crate::specs::Numbers::number_at))]
pub fn u64_at<B: ByteOrder>(bytes: &[u8]) -> Result<(u64, &[u8]), FieldError>
    ensures { Gives (λ x. (x.0, x.1.now)) result (number_at B.number_of 8 bytes.now) }
{
    if bytes.len() < 8 {
        return Err(FieldError::short(bytes));
    }
    Ok((B::read_u64(bytes), &bytes[8..]))
}

/// A signed number of four bytes, in two's complement.
#[tactic(auto, unfolding(crate::specs::Numbers::signed_at))]
pub fn i32_at<B: ByteOrder>(bytes: &[u8]) -> Result<(i32, &[u8]), FieldError>
    ensures { Gives (λ x. (x.0, x.1.now)) result (signed_at B.number_of w32 4 bytes.now) }
{
    let (number, rest) = u32_at::<B>(bytes)?;
    Ok((number.cast_signed(), rest))
}

/// A signed number of eight bytes, in two's complement.
#[tactic(auto, unfolding(crate::specs::Numbers::signed_at))]
pub fn i64_at<B: ByteOrder>(bytes: &[u8]) -> Result<(i64, &[u8]), FieldError>
    ensures { Gives (λ x. (x.0, x.1.now)) result (signed_at B.number_of w64 8 bytes.now) }
{
    let (number, rest) = u64_at::<B>(bytes)?;
    Ok((number.cast_signed(), rest))
}

/// The bytes after a number of four bytes that has to be this one.
#[tactic(auto, unfolding(crate::specs::Numbers::after_number))]
pub fn after_u32<B: ByteOrder>(number: u32, bytes: &[u8]) -> Result<&[u8], FieldError>
    ensures { Gives (λ x. x.now) result (after_number B.number_of 4 number bytes.now) }
{
    let (found, rest) = u32_at::<B>(bytes)?;
    if found != number {
        return Err(FieldError::bad(bytes));
    }
    Ok(rest)
}

/// The bytes after a number of eight bytes that has to be this one.
#[tactic(auto, unfolding(crate::specs::Numbers::after_number))]
pub fn after_u64<B: ByteOrder>(number: u64, bytes: &[u8]) -> Result<&[u8], FieldError>
    ensures { Gives (λ x. x.now) result (after_number B.number_of 8 number bytes.now) }
{
    let (found, rest) = u64_at::<B>(bytes)?;
    if found != number {
        return Err(FieldError::bad(bytes));
    }
    Ok(rest)
}

/// Adds a number of four bytes.
pub fn put_u32<B: ByteOrder>(out: &mut Vec<u8>, number: u32) -> Result<(), AllocError>
    ensures ok { OnOk result (out.new.items ≡ out.old.items ++ B.bytes_of 4 number) }
    ensures err { OnErr result (out.new.items ≡ out.old.items) }
{
    let mut bytes = [0u8; 4];
    B::write_u32(&mut bytes, number);
    out.extend_from_slice(&bytes)
}

/// Adds a number of eight bytes.
pub fn put_u64<B: ByteOrder>(out: &mut Vec<u8>, number: u64) -> Result<(), AllocError>
    ensures ok { OnOk result (out.new.items ≡ out.old.items ++ B.bytes_of 8 number) }
    ensures err { OnErr result (out.new.items ≡ out.old.items) }
{
    let mut bytes = [0u8; 8];
    B::write_u64(&mut bytes, number);
    out.extend_from_slice(&bytes)
}

/// Adds a signed number of four bytes, in two's complement.
pub fn put_i32<B: ByteOrder>(out: &mut Vec<u8>, number: i32) -> Result<(), AllocError>
    ensures ok { OnOk result (out.new.items ≡ out.old.items ++ B.bytes_of 4 (cast_unsigned w32 number)) }
    ensures err { OnErr result (out.new.items ≡ out.old.items) }
{
    put_u32::<B>(out, number.cast_unsigned())
}

/// Adds a signed number of eight bytes, in two's complement.
pub fn put_i64<B: ByteOrder>(out: &mut Vec<u8>, number: i64) -> Result<(), AllocError>
    ensures ok { OnOk result (out.new.items ≡ out.old.items ++ B.bytes_of 8 (cast_unsigned w64 number)) }
    ensures err { OnErr result (out.new.items ≡ out.old.items) }
{
    put_u64::<B>(out, number.cast_unsigned())
}
