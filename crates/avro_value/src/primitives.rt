// Primitives, and values without values inside.
ghost use Rattle.std.specs.Prelude.{◌≡◌, ◌<◌, IfOk};
ghost use Rattle.byte_fields.specs.Reading.{Gives};
ghost use Rattle.avro_schema.specs.Reading.{boolean_at, index_at};

use byte_fields::{FieldError, u8_at, zigzag_i32_at};

/// A boolean, a byte 0 or 1.
#[tactic(auto, unfolding(avro_schema::specs::Reading::boolean_at))]
pub(crate) fn boolean_at(bytes: &[u8]) -> Result<(bool, &[u8]), FieldError>
    ensures { Gives (λ x. (x.0, x.1.now)) result (boolean_at bytes.now) }
{
    let (byte, rest) = u8_at(bytes)?;
    if byte > 1 {
        return Err(FieldError::bad(bytes));
    }
    Ok((byte == 1, rest))
}

// An index of one of so many symbols or branches.
#[tactic(auto, unfolding(avro_schema::specs::Reading::index_at))]
pub(crate) fn index_at(count: usize, bytes: &[u8]) -> Result<(u32, &[u8]), FieldError>
    ensures index { Gives (λ x. (x.0, x.1.now)) result (index_at count bytes.now) }
    ensures within { IfOk result (λ x. x.0 < count) }
{
    let (number, rest) = zigzag_i32_at(bytes)?;
    match u32::try_from(number) {
        Ok(index) if (index as usize) < count => Ok((index, rest)),
        _ => Err(FieldError::bad(bytes)),
    }
}
