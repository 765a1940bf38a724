// What every content begins with: the version of its form and the number of its items.
ghost use Rattle.std.specs.Prelude.{◌≡◌, ◌≤◌, ◌++◌, take, vec_len, OnOk, OnErr};
ghost use Rattle.byteorder.specs.Endian.{big_bytes};
ghost use Rattle.byte_fields.specs.Reading.{Gives};
ghost use Rattle.block_contents.specs.Contents.{count_at, head_at};

use byte_fields::{FieldError, after_u32, put_u32, u32_at};
use byteorder::BigEndian;
use std::alloc::AllocError;

// The version of the form of a content.
const VERSION: u32 = 3;

// Adds the number of items, or takes the version back that stands from `start` on.
fn put_count(out: &mut Vec<u8>, start: usize, count: u32) -> Result<(), AllocError>
    requires { start ≤ vec_len out.old }
    ensures ok { OnOk result (out.new.items ≡ out.old.items ++ big_bytes 4 count) }
    ensures err { OnErr result (out.new.items ≡ take start out.old.items) }
{
    match put_u32::<BigEndian>(out, count) {
        Ok(()) => Ok(()),
        Err(error) => {
            out.truncate(start);
            Err(error)
        }
    }
}

/// Adds the version and a number of items. The only error is want of memory, and then nothing is added.
pub fn put_head(out: &mut Vec<u8>, count: u32) -> Result<(), AllocError>
    ensures ok { OnOk result (out.new.items ≡ out.old.items ++ (big_bytes 4 3 ++ big_bytes 4 count)) }
    ensures err { OnErr result (out.new.items ≡ out.old.items) }
{
    let start = out.len();
    put_u32::<BigEndian>(out, VERSION)?;
    put_count(out, start, count)
}

#[tactic(auto, unfolding(crate::specs::Contents::head_at))]
fn head_at(bytes: &[u8]) -> Result<(u32, &[u8]), FieldError>
    ensures { Gives (λ x. (x.0, x.1.now)) result (head_at bytes.now) }
{
    let rest = after_u32::<BigEndian>(VERSION, bytes)?;
    u32_at::<BigEndian>(rest)
}

/// The number of items, behind the version, which is 3. Whatever is wrong is wrong at the first byte.
#[tactic(auto, unfolding(crate::specs::Contents::count_at))]
pub fn count_at(bytes: &[u8]) -> Result<(u32, &[u8]), FieldError>
    ensures { Gives (λ x. (x.0, x.1.now)) result (count_at bytes.now) }
{
    match head_at(bytes) {
        Ok(found) => Ok(found),
        Err(error) => Err(error.of_item(bytes)),
    }
}
