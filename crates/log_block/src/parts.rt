// Reading the parts of a block of each type.
ghost use Rattle.std.specs.Prelude.{◌≡◌, ◌+◌, ◌<◌, ◌^◌, length};
ghost use Rattle.byte_fields.specs.Reading.{Gives};
ghost use Rattle.log_block.specs.Parts.{block_of};
ghost use Rattle.log_block.specs.Reading.{type_at, parts_at, ends_at, inside_at};

use crate::format::{BlockType, FOOTER_ENTRIES, LENGTH_END, SIZE_LEN, VERSION};
use crate::header::{data_header_at, delete_header_at, rollback_header_at};
use byte_fields::{FieldError, after_u32, after_u64, u32_at, u64_then_bytes_at};
use byteorder::{BigEndian, ByteOrder};
use hudi_base::InstantTime;

/// The parts of a block, where they stand in the bytes that are read.
#[derive(Clone, Copy)]
pub enum Parts<'a> {
    Data {
        instant: InstantTime,
        schema: &'a [u8],
        content: &'a [u8],
    },
    Delete {
        instant: InstantTime,
        content: &'a [u8],
    },
    Rollback {
        instant: InstantTime,
        target: InstantTime,
    },
}

// The type of a block.
#[tactic(auto, unfolding(crate::specs::Reading::type_at))]
fn type_at(bytes: &[u8]) -> Result<(BlockType, &[u8]), FieldError>
    ensures { Gives (λ x. (x.0, x.1.now)) result (type_at bytes.now) }
{
    let (number, rest) = u32_at::<BigEndian>(bytes)?;
    match BlockType::with_number(number) {
        Some(found) => Ok((found, rest)),
        None => Err(FieldError::bad(bytes)),
    }
}

#[tactic(auto, unfolding(crate::specs::Reading::parts_at))]
fn data_at(bytes: &[u8]) -> Result<(Parts<'_>, &[u8]), FieldError>
    ensures { Gives (λ x. (block_of x.0, x.1.now)) result (parts_at BlockType.Data bytes.now) }
{
    let (instant, schema, rest) = match data_header_at(bytes) {
        Ok(found) => found,
        Err(error) => return Err(error),
    };
    let (content, rest) = u64_then_bytes_at::<BigEndian>(rest)?;
    let parts = Parts::Data {
        instant,
        schema,
        content,
    };
    Ok((parts, rest))
}

#[tactic(auto, unfolding(crate::specs::Reading::parts_at))]
fn delete_at(bytes: &[u8]) -> Result<(Parts<'_>, &[u8]), FieldError>
    ensures { Gives (λ x. (block_of x.0, x.1.now)) result (parts_at BlockType.Delete bytes.now) }
{
    let (instant, rest) = match delete_header_at(bytes) {
        Ok(found) => found,
        Err(error) => return Err(error),
    };
    let (content, rest) = u64_then_bytes_at::<BigEndian>(rest)?;
    Ok((Parts::Delete { instant, content }, rest))
}

#[tactic(auto, unfolding(crate::specs::Reading::parts_at))]
fn rollback_at(bytes: &[u8]) -> Result<(Parts<'_>, &[u8]), FieldError>
    ensures { Gives (λ x. (block_of x.0, x.1.now)) result (parts_at BlockType.Command bytes.now) }
{
    let (instant, target, rest) = match rollback_header_at(bytes) {
        Ok(found) => found,
        Err(error) => return Err(error),
    };
    let rest = after_u64::<BigEndian>(0, rest)?;
    Ok((Parts::Rollback { instant, target }, rest))
}

// The header and the content of a block of that type.
fn parts_at(found: BlockType, bytes: &[u8]) -> Result<(Parts<'_>, &[u8]), FieldError>
    ensures { Gives (λ x. (block_of x.0, x.1.now)) result (parts_at found bytes.now) }
{
    match found {
        BlockType::Data => data_at(bytes),
        BlockType::Delete => delete_at(bytes),
        BlockType::Command => rollback_at(bytes),
    }
}

// The footer and the size, which are the last bytes of a block.
#[tactic(auto, unfolding(crate::specs::Reading::ends_at))]
fn ends_at(size: u64, bytes: &[u8]) -> Result<(), FieldError>
    ensures { Gives (λ x. x) result (ends_at size bytes.now) }
{
    let rest = after_u32::<BigEndian>(FOOTER_ENTRIES, bytes)?;
    if rest.len() == SIZE_LEN && BigEndian::read_u64(rest) == size {
        return Ok(());
    }
    Err(FieldError::bad(rest))
}

/// The parts of a block from the bytes behind its length, up to its end.
#[tactic(auto, unfolding(crate::specs::Reading::inside_at))]
pub fn inside_at(bytes: &[u8]) -> Result<Parts<'_>, FieldError>
    // The block has 14 bytes before these, and its size field counts all of its bytes but the last eight.
    requires { length bytes.now + 6 < 2 ^ 64 }
    ensures { Gives (λ x. block_of x) result (inside_at bytes.now) }
{
    let rest = after_u32::<BigEndian>(VERSION, bytes)?;
    let (found, rest) = type_at(rest)?;
    let (parts, rest) = match parts_at(found, rest) {
        Ok(found) => found,
        Err(error) => return Err(error),
    };
    ends_at((bytes.len() + (LENGTH_END - SIZE_LEN)) as u64, rest)?;
    Ok(parts)
}
