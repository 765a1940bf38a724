// Why there is no tiling.
ghost use Rattle.std.specs.Prelude.{◌≡◌};
ghost use Rattle.key_index.specs.declared.tile_error.TileError.TheVariants.{Memory};

use std::alloc::{AllocError, AllocFailed};

/// Why groups don't become the tiling of a partition.
#[derive(Clone, Copy, Debug, PartialEq, Eq)]
pub enum TileError {
    /// Want of memory.
    Memory,
    /// Some slot would have no group, or more than one: this is the least.
    NotATiling(u16),
}

impl From<AllocError> for TileError {
    ghost from_gives = { λ _ error. error ≡ Memory };

    fn from(_: AllocError) -> TileError {
        TileError::Memory
    }
}

impl<T: Drop> From<AllocFailed<T>> for TileError {
    ghost from_gives = { λ _ error. error ≡ Memory };

    fn from(_: AllocFailed<T>) -> TileError {
        TileError::Memory
    }
}
