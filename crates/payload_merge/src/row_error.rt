// What may go wrong between rows and bytes.
use std::alloc::{AllocError, AllocFailed};
use thiserror::Error;

/// Why a schema, a row or a content was refused. Each call says which of these it answers.
#[derive(Clone, Copy, Debug, Error)]
pub enum RowError {
    /// There was not enough memory.
    #[error("out of memory")]
    Memory,
    /// The schema's field at this place, from 0, is the first that isn't flat: its type isn't a boolean, int, long,
    /// bytes or string, or null or one of these, or its name begins with `_hoodie_`.
    #[error("field {0} isn't flat")]
    NotFlat(u32),
    /// The schema's field at this place, from 0, is the first whose member of the row is missing without being
    /// nullable or isn't of the field's type. Where each field has its member, and the row another one, it is the
    /// number of fields.
    #[error("the row doesn't fit field {0}")]
    Mismatch(u32),
    /// The record key is empty or longer than 1,000 bytes.
    #[error("bad record key")]
    NoKey,
    /// The partition is no path of a folder in the table.
    #[error("bad partition")]
    BadPartition,
    /// The ordering field is null.
    #[error("no ordering value")]
    NoOrdering,
    /// The body is longer than 65,536 bytes.
    #[error("row too large")]
    TooLarge,
    /// The content has no reading: the offset of the first byte of what can't be read. Of a row's cells it is the
    /// place of the first bad one, from 0.
    #[error("bad content at {0}")]
    BadContent(usize),
}

impl From<AllocError> for RowError {
    ghost use Rattle.std.specs.Prelude.{◌≡◌};
    ghost use Rattle.payload_merge.specs.declared.row_error.RowError.TheVariants.{Memory};

    ghost from_gives = { λ _ e. e ≡ Memory };

    fn from(_e: AllocError) -> RowError {
        RowError::Memory
    }
}

impl<T: Drop> From<AllocFailed<T>> for RowError {
    ghost use Rattle.std.specs.Prelude.{◌≡◌};
    ghost use Rattle.payload_merge.specs.declared.row_error.RowError.TheVariants.{Memory};

    ghost from_gives = { λ _ e. e ≡ Memory };

    fn from(_e: AllocFailed<T>) -> RowError {
        RowError::Memory
    }
}
