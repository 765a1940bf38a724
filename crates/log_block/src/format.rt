//! The numbers and lengths of the log format.
ghost use Rattle.std.specs.Prelude.{◌≡◌};
ghost use Rattle.log_block.specs.Form.{type_number, type_of, type_with_number, entry_count, key_number};

use crate::block::Block;

/// What each block begins with.
pub const MAGIC: &[u8] = b"#HUDI#";

/// The number of bytes of the magic.
pub const MAGIC_LEN: usize = 6;

/// The offset behind a block's length, which comes after the magic and takes eight bytes.
pub const LENGTH_END: usize = 14;

/// The number of bytes of the version, the type, the content's length and the footer.
pub const FIXED_LEN: usize = 20;

/// The number of bytes of the size, which ends a block.
pub const SIZE_LEN: usize = 8;

/// The version of the format.
pub const VERSION: u32 = 1;

/// The number of entries of a footer: pairs of a key and a text, as a header has them.
pub const FOOTER_ENTRIES: u32 = 0;

/// The one command, a rollback.
pub const ROLLBACK: &[u8] = b"0";

/// The type of a block. Blocks of type 2, corrupt ones, are never written.
#[derive(Clone, Copy)]
pub enum BlockType {
    Command,
    Delete,
    Data,
}

const COMMAND: u32 = 0;

const DELETE: u32 = 1;

const DATA: u32 = 3;

impl BlockType {
    pub fn of(block: &Block) -> BlockType
        ensures { result ≡ type_of block.now }
    {
        match block {
            Block::Data { .. } => BlockType::Data,
            Block::Delete { .. } => BlockType::Delete,
            Block::Rollback { .. } => BlockType::Command,
        }
    }

    pub fn number(self) -> u32
        ensures { result ≡ type_number self }
    {
        match self {
            BlockType::Command => COMMAND,
            BlockType::Delete => DELETE,
            BlockType::Data => DATA,
        }
    }

    pub fn with_number(number: u32) -> Option<BlockType>
        ensures { result ≡ type_with_number number }
    {
        match number {
            COMMAND => Some(BlockType::Command),
            DELETE => Some(BlockType::Delete),
            DATA => Some(BlockType::Data),
            _ => None,
        }
    }

    /// The number of entries that the header of such a block has.
    pub fn entries(self) -> u32
        ensures { result ≡ entry_count self }
    {
        match self {
            BlockType::Command => 3,
            BlockType::Delete => 1,
            BlockType::Data => 2,
        }
    }
}

/// The key of an entry of a header, whose value is a text.
#[derive(Clone, Copy)]
pub enum HeaderKey {
    InstantTime,
    TargetInstantTime,
    Schema,
    CommandBlockType,
}

impl HeaderKey {
    pub fn number(self) -> u32
        ensures { result ≡ key_number self }
    {
        match self {
            HeaderKey::InstantTime => 0,
            HeaderKey::TargetInstantTime => 1,
            HeaderKey::Schema => 2,
            HeaderKey::CommandBlockType => 3,
        }
    }
}
