// The two ends of a file and its footer.
ghost use Rattle.std.specs.Prelude.{◌≡◌, ◌≤◌, ◌+◌, length, IfOk};
ghost use Rattle.parquet_meta.specs.Footers.{footer_of};
ghost use Rattle.base_cells.specs.Ends.{footer_len, footer_start, footer_bytes_at, meta_or, plain_meta_at};
ghost use Rattle.base_cells.specs.Answers.{Answers};

use crate::base_error::{BaseCause, BaseError};
use byteorder::{ByteOrder, LittleEndian};
use parquet_meta::{FileMeta, MetaError, read_meta};
use std::alloc::Global;

/// The bytes at both ends of a file.
const MAGIC: &[u8] = b"PAR1";
/// How many bytes both ends and the footer's length take.
const ENDS_LEN: usize = 12;
/// How many bytes stand behind the footer.
const TAIL_LEN: usize = 8;

// The footer's length, as the bytes behind it tell.
fn footer_len(bytes: &[u8]) -> usize
    requires { 8 ≤ length bytes.now }
    ensures { result ≡ footer_len bytes.now }
{
    LittleEndian::read_u32(&bytes[bytes.len() - TAIL_LEN..]) as usize
}

// The footer's bytes, and where they begin.
#[tactic(auto, unfolding(crate::specs::Ends::footer_bytes_at))]
fn footer_bytes_at(bytes: &[u8]) -> Result<(&[u8], usize), BaseError>
    ensures bytes { Answers (λ x. x.0.now) result (footer_bytes_at bytes.now) }
    ensures start { IfOk result (λ x. (x.1 ≡ footer_start bytes.now) × (x.1 + length x.0.now ≤ length bytes.now)) }
{
    let size = bytes.len();
    if size < ENDS_LEN || !bytes.starts_with(MAGIC) {
        return Err(BaseError::BadBase(BaseCause::Magic, 0));
    }
    if !bytes.ends_with(MAGIC) {
        return Err(BaseError::BadBase(BaseCause::Magic, size - MAGIC.len()));
    }
    let len = footer_len(bytes);
    if size - ENDS_LEN < len {
        return Err(BaseError::BadBase(BaseCause::Footer, size - TAIL_LEN));
    }
    let start = size - TAIL_LEN - len;
    Ok((&bytes[start..start + len], start))
}

// What the footer says, which is all of these bytes and begins at this place.
fn meta_or(alloc: Global, start: usize, footer: &[u8]) -> Result<FileMeta, BaseError>
    requires { start + length footer.now ≤ usize.MAX }
    ensures { Answers (λ meta. meta) result (meta_or start (length footer.now) (footer_of footer.now)) }
{
    match read_meta(alloc, footer) {
        Ok(meta) => Ok(meta),
        Err(MetaError::Memory) => Err(BaseError::Memory),
        Err(MetaError::BadMeta(offset)) => Err(BaseError::BadBase(BaseCause::Meta, start + offset)),
        Err(MetaError::Unsupported(index)) => {
            Err(BaseError::BadBase(BaseCause::Unsupported(index), start))
        }
    }
}

// What the footer says, whatever its columns are, and where it begins.
#[tactic(auto, unfolding(crate::specs::Ends::plain_meta_at))]
pub(crate) fn plain_meta_at(alloc: Global, bytes: &[u8]) -> Result<(FileMeta, usize), BaseError>
    ensures meta { Answers (λ x. x.0) result (plain_meta_at bytes.now) }
    ensures start { IfOk result (λ x. x.1 ≡ footer_start bytes.now) }
{
    let (footer, start) = footer_bytes_at(bytes)?;
    let meta = meta_or(alloc, start, footer)?;
    Ok((meta, start))
}
