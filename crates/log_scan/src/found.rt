// What scanning a log comes to.
use hudi_base::Sequence;
use log_block::Block;
use std::alloc::AllocError;

/// The whole blocks of a log's text, in order, and the offset of the torn rest behind them, if there is one.
#[derive(Drop)]
pub struct Scan {
    pub blocks: Sequence<Block>,
    pub torn_at: Option<u64>,
}

/// Why a text was not scanned.
#[derive(Clone, Copy, Debug, PartialEq, Eq)]
pub enum ScanError {
    /// Behind whole blocks stands what is neither a block nor a torn one: its first bad field begins at this offset.
    BadLog(u64),
    /// There was not enough memory.
    Memory,
}

impl From<AllocError> for ScanError {
    ghost use Rattle.std.specs.Prelude.{◌≡◌};
    ghost use Rattle.log_scan.specs.declared.found.ScanError.TheVariants.{Memory};

    ghost from_gives = { λ _ e. e ≡ Memory };

    fn from(_: AllocError) -> ScanError {
        ScanError::Memory
    }
}
