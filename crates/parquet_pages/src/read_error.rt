// Why a part of a page was not read.
use byte_fields::FieldError;
use std::alloc::{AllocError, AllocFailed};

// Want of memory, or an item that can't be read.
#[derive(Clone, Copy)]
pub(crate) enum ReadError {
    Memory,
    Field(FieldError),
}

impl From<FieldError> for ReadError {
    ghost use Rattle.std.specs.Prelude.{◌≡◌};
    ghost use Rattle.parquet_pages.specs.declared.read_error.ReadError.TheVariants.{Field};

    ghost from_gives = { λ error e. e ≡ Field error };

    fn from(error: FieldError) -> ReadError {
        ReadError::Field(error)
    }
}

impl From<AllocError> for ReadError {
    ghost use Rattle.std.specs.Prelude.{◌≡◌};
    ghost use Rattle.parquet_pages.specs.declared.read_error.ReadError.TheVariants.{Memory};

    ghost from_gives = { λ _ e. e ≡ Memory };

    fn from(_: AllocError) -> ReadError {
        ReadError::Memory
    }
}

impl<T: Drop> From<AllocFailed<T>> for ReadError {
    ghost use Rattle.std.specs.Prelude.{◌≡◌};
    ghost use Rattle.parquet_pages.specs.declared.read_error.ReadError.TheVariants.{Memory};

    ghost from_gives = { λ _ e. e ≡ Memory };

    fn from(_: AllocFailed<T>) -> ReadError {
        ReadError::Memory
    }
}
