// A plain reader of the files of a table.
ghost use Rattle.std.specs.Prelude.{◌≤◌, length, IfSome};

use byteorder::{BigEndian, ByteOrder};
use hudi_base::Name;
use std::alloc::{AllocError, Global};
use store_mem::MemStore;

/// What stands in a log: how many whole blocks, and how many bytes behind them.
#[derive(Clone, Copy, PartialEq, Eq)]
pub(crate) struct LogFound {
    pub(crate) blocks: usize,
    pub(crate) rest: usize,
}

// How long the block is that bytes begin with: six bytes, a length in eight, and so many.
fn block_length(bytes: &[u8]) -> Option<usize>
    ensures { IfSome result (λ len. len ≤ length bytes.now) }
{
    if bytes.len() < 14 || !bytes.starts_with(b"#HUDI#") {
        return None;
    }
    let len = BigEndian::read_u64(&bytes[6..14]);
    if len > (bytes.len() - 14) as u64 {
        return None;
    }
    Some(14 + len as usize)
}

fn read_log(bytes: &[u8]) -> LogFound {
    let mut rest = bytes;
    for blocks in 0..bytes.len() {
        match block_length(rest) {
            Some(len) => rest = &rest[len..],
            None => return LogFound {
                blocks,
                rest: rest.len(),
            },
        }
    }
    LogFound {
        blocks: bytes.len(),
        rest: rest.len(),
    }
}

/// The log of this name, without blocks where there is none.
pub(crate) fn log_in(store: &MemStore, name: &Name) -> LogFound {
    match store.file(name) {
        Some(bytes) => read_log(bytes),
        None => LogFound { blocks: 0, rest: 0 },
    }
}

/// Whether the timeline has an instant of this time as completed.
pub(crate) fn is_completed(
    alloc: Global,
    store: &MemStore,
    time: &str,
) -> Result<bool, AllocError> {
    let mut name = String::from_str(alloc, ".hoodie/")?;
    name.push_str(time)?;
    name.push_str(".deltacommit")?;
    Ok(
        store
            .file(&Name::from_text(alloc, name.as_str())?)
            .is_some(),
    )
}
