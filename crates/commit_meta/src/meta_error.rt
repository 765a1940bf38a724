// Why there is no metadata, or no text of it.

use hudi_base::Name;
use std::alloc::{AllocError, AllocFailed};

/// Why bytes aren't the metadata of a file.
#[derive(Drop)]
pub enum MetaTextError {
    /// Want of memory.
    Memory,
    /// The member of the object that is missing, has a wrong value or is unknown: the first in byte order. It is the
    /// empty name where the bytes are no object, or aren't empty though they should be.
    BadMeta(Name),
}

impl From<AllocError> for MetaTextError {
    ghost use Rattle.std.specs.Prelude.{◌≡◌};
    ghost use Rattle.commit_meta.specs.declared.meta_error.MetaTextError.TheVariants.{Memory};

    ghost from_gives = { λ _ error. error ≡ Memory };

    fn from(_: AllocError) -> MetaTextError {
        MetaTextError::Memory
    }
}

impl<T: Drop> From<AllocFailed<T>> for MetaTextError {
    ghost use Rattle.std.specs.Prelude.{◌≡◌};
    ghost use Rattle.commit_meta.specs.declared.meta_error.MetaTextError.TheVariants.{Memory};

    ghost from_gives = { λ _ error. error ≡ Memory };

    fn from(_: AllocFailed<T>) -> MetaTextError {
        MetaTextError::Memory
    }
}
