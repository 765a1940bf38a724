// Why a footer or a header was not read or written.
ghost use Rattle.std.specs.Prelude.{◌≡◌};
ghost use Rattle.parquet_meta.specs.Answers.{meta_error};

use std::alloc::{AllocError, AllocFailed};
use thrift_compact::ThriftError;

/// Why a footer or a page header was not read or written.
#[derive(Clone, Copy, Debug, PartialEq, Eq)]
pub enum MetaError {
    /// Out of memory.
    Memory,
    /// The bytes have no reading. The item that is wrong begins at this offset: one that is outside the compact protocol or
    /// cut off, a field of a known id with another type, the stop byte of a struct without a required field, or the first
    /// byte after a footer.
    BadMeta(usize),
    /// The schema element at this index, counted from the root as 0, is the first after the root that isn't a plain column:
    /// it has children, is repeated, or has a physical type other than boolean, 32 bits, 64 bits and byte array.
    Unsupported(usize),
}

impl From<AllocError> for MetaError {
    ghost use Rattle.std.specs.Prelude.{◌≡◌};
    ghost use Rattle.parquet_meta.specs.declared.read_error.MetaError.TheVariants.{Memory};

    ghost from_gives = { λ _ e. e ≡ Memory };

    fn from(_: AllocError) -> MetaError {
        MetaError::Memory
    }
}

// Why a struct was not read: for want of memory, or because of an item.
#[derive(Clone, Copy)]
pub(crate) enum ReadError {
    Memory,
    Item(ThriftError),
}

impl From<ThriftError> for ReadError {
    ghost use Rattle.std.specs.Prelude.{◌≡◌};
    ghost use Rattle.parquet_meta.specs.declared.read_error.ReadError.TheVariants.{Item};

    ghost from_gives = { λ error e. e ≡ Item error };

    fn from(error: ThriftError) -> ReadError {
        ReadError::Item(error)
    }
}

impl From<AllocError> for ReadError {
    ghost use Rattle.std.specs.Prelude.{◌≡◌};
    ghost use Rattle.parquet_meta.specs.declared.read_error.ReadError.TheVariants.{Memory};

    ghost from_gives = { λ _ e. e ≡ Memory };

    fn from(_: AllocError) -> ReadError {
        ReadError::Memory
    }
}

impl<T: Drop> From<AllocFailed<T>> for ReadError {
    ghost use Rattle.std.specs.Prelude.{◌≡◌};
    ghost use Rattle.parquet_meta.specs.declared.read_error.ReadError.TheVariants.{Memory};

    ghost from_gives = { λ _ e. e ≡ Memory };

    fn from(_: AllocFailed<T>) -> ReadError {
        ReadError::Memory
    }
}

impl ReadError {
    // The error that callers see.
    pub(crate) fn into_meta_error(self) -> MetaError
        ensures { result ≡ meta_error self }
    {
        match self {
            ReadError::Memory => MetaError::Memory,
            ReadError::Item(error) => MetaError::BadMeta(error.offset()),
        }
    }
}
