// Why there is no name.
ghost use Rattle.std.specs.Prelude.{◌≡◌};
ghost use Rattle.file_names.specs.declared.name_error.NameError.TheVariants.{Memory};

use std::alloc::{AllocError, AllocFailed};

/// The only error is want of memory.
#[derive(Clone, Copy, Debug, PartialEq, Eq)]
pub enum NameError {
    Memory,
}

// `from_gives` says what `?` makes of the error, for the proofs of functions that use it.
impl From<AllocError> for NameError {
    ghost from_gives = { λ _ error. error ≡ Memory };

    fn from(_: AllocError) -> NameError {
        NameError::Memory
    }
}

impl<T: Drop> From<AllocFailed<T>> for NameError {
    ghost from_gives = { λ _ error. error ≡ Memory };

    fn from(_: AllocFailed<T>) -> NameError {
        NameError::Memory
    }
}
