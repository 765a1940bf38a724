// Blocks, and what reading one answers.
ghost use Rattle.std.specs.Prelude.{◌≡◌};
ghost use Rattle.log_block.specs.declared.block.BlockError.TheVariants.{Memory};

use hudi_base::{Bytes, InstantTime};
use std::alloc::AllocError;
use thiserror::Error;

/// A block of a log file. Its instant is the commit time of the write that made it.
#[derive(Drop)]
pub enum Block {
    /// Rows, as the bytes that a codec makes of them. The schema is a text in UTF-8 of less than 2^32 bytes.
    Data {
        instant: InstantTime,
        schema: Bytes,
        content: Bytes,
    },
    /// Keys whose rows are gone.
    Delete {
        instant: InstantTime,
        content: Bytes,
    },
    /// A command: readers ignore the blocks of the target instant.
    Rollback {
        instant: InstantTime,
        target: InstantTime,
    },
}

/// What stands at the beginning of bytes.
#[derive(Drop)]
pub enum BlockRead {
    /// This block, in its one form of that many bytes. Other bytes may follow it.
    Whole(Block, usize),
    /// A block may begin here, and the bytes end within it.
    Torn,
    /// No block stands here: the first field that is wrong begins at this offset.
    Bad(usize),
    /// A block stands here, and memory ran out while it was copied.
    Memory,
}

/// Why a block was not written.
#[derive(Debug, Drop, Error)]
pub enum BlockError {
    /// Out of memory, or the block has more bytes than memory has.
    #[error("out of memory")]
    Memory,
}

impl From<AllocError> for BlockError {
    ghost from_gives = { λ _ e. e ≡ Memory };

    fn from(_e: AllocError) -> BlockError {
        BlockError::Memory
    }
}
