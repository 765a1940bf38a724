// The blocks in which the items of arrays and maps come.
ghost use Rattle.std.specs.Prelude.{◌≡◌, ◌<◌, ◌≤◌, IfOk, true, option_map};
ghost use Rattle.byte_fields.specs.Reading.{Gives};
ghost use Rattle.byte_fields.specs.Prefixed.{long_length_at};
ghost use Rattle.avro_schema.specs.Reading.{block_head_at, sized_head, has_size};
ghost use Rattle.avro_value.specs.Places.{head_view};

use crate::place::Place;
use byte_fields::{FieldError, zigzag_i64_at};

// The number of bytes that a block's items are said to take, and how many bytes there are from that number on.
#[derive(Clone, Copy)]
pub(crate) struct Size {
    pub(crate) len: usize,
    pub(crate) left: usize,
}

// What stands before the items of a block. They are 0 after the last block.
#[derive(Clone, Copy)]
pub(crate) struct BlockHead {
    pub(crate) count: u32,
    pub(crate) size: Option<Size>,
}

// A number of bytes as a long.
#[tactic(auto, unfolding(byte_fields::specs::Prefixed::long_length_at))]
fn length_at(bytes: &[u8]) -> Result<(usize, &[u8]), FieldError>
    ensures { Gives (λ x. (x.0, x.1.now)) result (long_length_at bytes.now) }
{
    let (long, rest) = zigzag_i64_at(bytes)?;
    match usize::try_from(long) {
        Ok(len) => Ok((len, rest)),
        Err(_) => Err(FieldError::bad(bytes)),
    }
}

// A block's head, of which the count was read.
fn sized_head<'a>(
    place: Place<'a>,
    count: i64,
    rest: &'a [u8],
) -> Result<(BlockHead, &'a [u8]), FieldError>
    ensures head { Gives (λ x. (head_view x.0, x.1.now)) result (sized_head place.entry.left place.entry.bytes.now count rest.now) }
    ensures within { IfOk result (λ x. x.0.count ≤ place.entry.left) }
{
    let most = i64::from(place.left);
    if count > most || count < -most {
        return Err(FieldError::bad(place.bytes));
    }
    if count >= 0 {
        let count = count as u32;
        return Ok((BlockHead { count, size: None }, rest));
    }
    let (len, items) = length_at(rest)?;
    let count = -count as u32;
    let left = rest.len();
    Ok((
        BlockHead {
            count,
            size: Some(Size { len, left }),
        },
        items,
    ))
}

// What stands before the items of a block.
#[tactic(auto, unfolding(avro_schema::specs::Reading::block_head_at))]
pub(crate) fn block_head_at<'a>(place: Place<'a>) -> Result<(BlockHead, &'a [u8]), FieldError>
    ensures head { Gives (λ x. (head_view x.0, x.1.now)) result (block_head_at place.entry.left place.entry.bytes.now) }
    ensures within { IfOk result (λ x. x.0.count ≤ place.entry.left) }
{
    let (count, rest) = zigzag_i64_at(place.bytes)?;
    sized_head(place, count, rest)
}

// Whether what was told of the items' bytes is right, where so many bytes were there before them and so many after them.
pub(crate) fn check_size(size: Option<Size>, before: usize, after: usize) -> Result<(), FieldError>
    ensures { Gives (λ _. true) result (has_size (option_map (λ s. (s.len, s.left)) size) before after) }
{
    match size {
        Some(size) if before < after || before - after != size.len => {
            Err(FieldError::Bad { left: size.left })
        }
        _ => Ok(()),
    }
}
