// Contents of data blocks of keys, ranks and bodies, each behind its length.
use crate::folds;
use anyhow::{Result, bail};
use hudi_base::Bytes;
use plain_rows::PlainRows;
use std::alloc::Global;

/// What a command makes of contents: `fold` how many rows are left of theirs, and the sum of their ranks.
pub fn output_of(alloc: Global, command: &str, contents: &[u8]) -> Result<Bytes> {
    match command {
        "fold" => folds::told_of(alloc, &PlainRows::new(alloc)?, contents),
        _ => bail!("no such command"),
    }
}
