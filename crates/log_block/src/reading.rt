// Reading a block from the beginning of bytes.
ghost use Rattle.std.specs.Prelude.{◌≡◌, ◌+◌, ◌≤◌, ◌<◌, length, IfOk, MatchOption};
ghost use Rattle.log_block.specs.Answers.{Answers, IsWritten, IsBadOffset, IfWhole, IfBad};
ghost use Rattle.log_block.specs.Parts.{block_of, EndsEarly, IsInside};
ghost use Rattle.log_block.specs.Reading.{begins, block_at};

use crate::block::{Block, BlockError, BlockRead};
use crate::format::{LENGTH_END, MAGIC, MAGIC_LEN};
use crate::parts::{Parts, inside_at};
use byteorder::{BigEndian, ByteOrder};
use hudi_base::Bytes;
use std::alloc::Global;

// Whether those of the first six bytes that are there are the magic's.
fn begins(bytes: &[u8]) -> bool
    ensures { result ≡ begins bytes.now }
{
    MAGIC.starts_with(&bytes[..bytes.len().min(MAGIC_LEN)])
}

// The bytes behind the length, up to the block's end, if all of them are there.
fn inside_of(bytes: &[u8]) -> Option<&[u8]>
    ensures { MatchOption result (EndsEarly bytes.now) (λ inside. IsInside bytes.now inside.now) }
{
    if bytes.len() < LENGTH_END {
        return None;
    }
    let len = BigEndian::read_u64(&bytes[MAGIC_LEN..]) as usize;
    let rest = &bytes[LENGTH_END..];
    if rest.len() < len {
        return None;
    }
    Some(&rest[..len])
}

// The parts as a block with memory of its own.
fn copy_of(alloc: Global, parts: Parts<'_>) -> Result<Block, BlockError>
    ensures { IfOk result (λ block. block ≡ block_of parts.entry) }
{
    Ok(match parts {
        Parts::Data {
            instant,
            schema,
            content,
        } => Block::Data {
            instant,
            schema: Bytes::from_slice(alloc, schema)?,
            content: Bytes::from_slice(alloc, content)?,
        },
        Parts::Delete { instant, content } => Block::Delete {
            instant,
            content: Bytes::from_slice(alloc, content)?,
        },
        Parts::Rollback { instant, target } => Block::Rollback { instant, target },
    })
}

fn block_at(alloc: Global, bytes: &[u8]) -> BlockRead
    ensures { Answers result (block_at bytes.now) }
{
    if !begins(bytes) {
        return BlockRead::Bad(0);
    }
    let Some(inside) = inside_of(bytes) else {
        return BlockRead::Torn;
    };
    let end = LENGTH_END + inside.len();
    match inside_at(inside) {
        Ok(parts) => match copy_of(alloc, parts) {
            Ok(block) => BlockRead::Whole(block, end),
            Err(_) => BlockRead::Memory,
        },
        Err(error) => BlockRead::Bad(error.offset(end)),
    }
}

/// What bytes, of which there is at least one, begin with. Bytes behind a whole block are not looked at.
pub fn read_block(alloc: Global, bytes: &[u8]) -> BlockRead
    requires { 0 < length bytes.now }
    // The answer is what the bytes begin with; `Memory` comes only where that is a whole block.
    ensures there { Answers result (block_at bytes.now) }
    // A whole block is in its one form.
    ensures whole { IfWhole result (λ block len. IsWritten bytes.now block len) }
    // A bad field begins at 0, where there is no magic, or behind the length and not behind the block's end.
    ensures bad { IfBad result (λ offset. IsBadOffset bytes.now offset) }
{
    block_at(alloc, bytes)
}
