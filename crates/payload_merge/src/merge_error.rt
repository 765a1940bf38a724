// What may go wrong while writes are folded.
use std::alloc::{AllocError, AllocFailed};
use thiserror::Error;

/// The only error of this crate. What was changed before it is as it was.
#[derive(Clone, Copy, Debug, Error)]
pub enum MergeError {
    /// There was not enough memory.
    #[error("out of memory")]
    Memory,
}

impl From<AllocError> for MergeError {
    ghost use Rattle.std.specs.Prelude.{◌≡◌};
    ghost use Rattle.payload_merge.specs.declared.merge_error.MergeError.TheVariants.{Memory};

    ghost from_gives = { λ _ e. e ≡ Memory };

    fn from(_e: AllocError) -> MergeError {
        MergeError::Memory
    }
}

impl<T: Drop> From<AllocFailed<T>> for MergeError {
    ghost use Rattle.std.specs.Prelude.{◌≡◌};
    ghost use Rattle.payload_merge.specs.declared.merge_error.MergeError.TheVariants.{Memory};

    ghost from_gives = { λ _ e. e ≡ Memory };

    fn from(_e: AllocFailed<T>) -> MergeError {
        MergeError::Memory
    }
}
