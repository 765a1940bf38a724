// Scanning a log.
ghost use Rattle.log_scan.specs.Texts.{Answers, scan_of};

use crate::{Scan, ScanError};
use hudi_base::Sequence;
use log_block::{BlockRead, read_block};
use std::alloc::Global;

/// The blocks of a log's text, and where it is torn. `BadLog` comes exactly where it is no log text; of the text of a log
/// alone, memory may be wanting.
pub fn scan(alloc: Global, bytes: &[u8]) -> Result<Scan, ScanError>
    ensures { Answers result (scan_of bytes.now) }
{
    let mut blocks = Sequence::new(alloc);
    let mut offset: usize = 0;
    while offset < bytes.len() {
        match read_block(alloc, &bytes[offset..]) {
            BlockRead::Whole(block, len) => {
                blocks.push(block)?;
                offset += len;
            }
            BlockRead::Torn => {
                return Ok(Scan {
                    blocks,
                    torn_at: Some(offset as u64),
                });
            }
            BlockRead::Bad(at) => return Err(ScanError::BadLog((offset + at) as u64)),
            BlockRead::Memory => return Err(ScanError::Memory),
        }
    }
    Ok(Scan {
        blocks,
        torn_at: None,
    })
}
