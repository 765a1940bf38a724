// Why a value was not read or written.
ghost use Rattle.std.specs.Prelude.{◌≡◌};
ghost use Rattle.avro_value.specs.Decoding.{error_at};

use byte_fields::FieldError;
use std::alloc::{AllocError, AllocFailed};

/// Why a value was not read, or not written. Only want of memory keeps a value from being written.
#[derive(Clone, Copy, Debug, PartialEq, Eq)]
pub enum ValueError {
    /// There was not enough memory.
    Memory,
    /// The bytes end inside the primitive that begins at this offset.
    Short(usize),
    /// The primitive that begins at this offset breaks a rule, and none before it does.
    BadBytes(usize),
}

impl ValueError {
    // The error of a primitive, by its offset in so many bytes.
    pub(crate) fn at(error: FieldError, total: usize) -> ValueError
        ensures { result ≡ error_at total error }
    {
        let offset = error.offset(total);
        match error {
            FieldError::Short { .. } => ValueError::Short(offset),
            FieldError::Bad { .. } => ValueError::BadBytes(offset),
        }
    }
}

// Why a part of a value was not read.
#[derive(Clone, Copy)]
pub(crate) enum ReadError {
    Memory,
    Field(FieldError),
}

impl From<FieldError> for ReadError {
    ghost use Rattle.std.specs.Prelude.{◌≡◌};
    ghost use Rattle.avro_value.specs.declared.errors.ReadError.TheVariants.{Field};

    ghost from_gives = { λ error e. e ≡ Field error };

    fn from(error: FieldError) -> ReadError {
        ReadError::Field(error)
    }
}

impl From<AllocError> for ReadError {
    ghost use Rattle.std.specs.Prelude.{◌≡◌};
    ghost use Rattle.avro_value.specs.declared.errors.ReadError.TheVariants.{Memory};

    ghost from_gives = { λ _ e. e ≡ Memory };

    fn from(_e: AllocError) -> ReadError {
        ReadError::Memory
    }
}

impl<T: Drop> From<AllocFailed<T>> for ReadError {
    ghost use Rattle.std.specs.Prelude.{◌≡◌};
    ghost use Rattle.avro_value.specs.declared.errors.ReadError.TheVariants.{Memory};

    ghost from_gives = { λ _ e. e ≡ Memory };

    fn from(_e: AllocFailed<T>) -> ReadError {
        ReadError::Memory
    }
}
