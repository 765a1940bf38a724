// Reading headers. A result that holds a time is taken apart by `match`, since the prover takes no `?` there.
ghost use Rattle.std.specs.Prelude.{◌≡◌};
ghost use Rattle.std.specs.Str.{is_utf8};
ghost use Rattle.byte_fields.specs.Reading.{Gives};
ghost use Rattle.log_block.specs.Reading.{entry_at, time_at, after_count, data_header_at, delete_header_at, rollback_header_at};

use crate::format::{BlockType, HeaderKey, ROLLBACK};
use byte_fields::{FieldError, after_u32, u32_prefixed_at};
use byteorder::BigEndian;
use hudi_base::InstantTime;

fn is_utf8(text: &[u8]) -> bool
    ensures { result ≡ is_utf8 text.now }
{
    std::str::from_utf8(text).is_ok()
}

#[tactic(auto, unfolding(crate::specs::Reading::entry_at))]
fn entry_at(key: HeaderKey, bytes: &[u8]) -> Result<(&[u8], &[u8]), FieldError>
    ensures { Gives (λ x. (x.0.now, x.1.now)) result (entry_at key bytes.now) }
{
    let rest = after_u32::<BigEndian>(key.number(), bytes)?;
    u32_prefixed_at::<BigEndian>(rest)
}

#[tactic(auto, unfolding(crate::specs::Reading::time_at))]
fn time_at(key: HeaderKey, bytes: &[u8]) -> Result<(InstantTime, &[u8]), FieldError>
    ensures { Gives (λ x. (x.0, x.1.now)) result (time_at key bytes.now) }
{
    let (text, rest) = entry_at(key, bytes)?;
    match InstantTime::from_text(text) {
        Some(time) => Ok((time, rest)),
        None => Err(FieldError::bad(bytes)),
    }
}

#[tactic(auto, unfolding(crate::specs::Reading::after_count))]
fn after_count(of: BlockType, bytes: &[u8]) -> Result<&[u8], FieldError>
    ensures { Gives (λ x. x.now) result (after_count of bytes.now) }
{
    after_u32::<BigEndian>(of.entries(), bytes)
}

/// The time and the schema of a data block.
#[tactic(auto, unfolding(crate::specs::Reading::data_header_at))]
pub fn data_header_at(bytes: &[u8]) -> Result<(InstantTime, &[u8], &[u8]), FieldError>
    ensures { Gives (λ x. (x.0, x.1.now, x.2.now)) result (data_header_at bytes.now) }
{
    let entries = after_count(BlockType::Data, bytes).map_err(|error| error.of_item(bytes))?;
    let (instant, rest) = match time_at(HeaderKey::InstantTime, entries) {
        Ok(found) => found,
        Err(error) => return Err(error.of_item(bytes)),
    };
    let (schema, rest) = entry_at(HeaderKey::Schema, rest).map_err(|error| error.of_item(bytes))?;
    if !is_utf8(schema) {
        return Err(FieldError::bad(bytes));
    }
    Ok((instant, schema, rest))
}

/// The time of a delete block.
#[tactic(auto, unfolding(crate::specs::Reading::delete_header_at))]
pub fn delete_header_at(bytes: &[u8]) -> Result<(InstantTime, &[u8]), FieldError>
    ensures { Gives (λ x. (x.0, x.1.now)) result (delete_header_at bytes.now) }
{
    let entries = after_count(BlockType::Delete, bytes).map_err(|error| error.of_item(bytes))?;
    match time_at(HeaderKey::InstantTime, entries) {
        Ok(found) => Ok(found),
        Err(error) => Err(error.of_item(bytes)),
    }
}

/// The time of a rollback block and that of its target.
#[tactic(auto, unfolding(crate::specs::Reading::rollback_header_at))]
pub fn rollback_header_at(bytes: &[u8]) -> Result<(InstantTime, InstantTime, &[u8]), FieldError>
    ensures { Gives (λ x. (x.0, x.1, x.2.now)) result (rollback_header_at bytes.now) }
{
    let entries = after_count(BlockType::Command, bytes).map_err(|error| error.of_item(bytes))?;
    let (instant, rest) = match time_at(HeaderKey::InstantTime, entries) {
        Ok(found) => found,
        Err(error) => return Err(error.of_item(bytes)),
    };
    let (target, rest) = match time_at(HeaderKey::TargetInstantTime, rest) {
        Ok(found) => found,
        Err(error) => return Err(error.of_item(bytes)),
    };
    let (command, rest) = entry_at(HeaderKey::CommandBlockType, rest).map_err(|error| error.of_item(
        bytes,
    ))?;
    if command != ROLLBACK {
        return Err(FieldError::bad(bytes));
    }
    Ok((instant, target, rest))
}
