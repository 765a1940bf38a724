// Why a content, or a part of it, was not read.
ghost use Rattle.std.specs.Prelude.{◌≡◌};
ghost use Rattle.block_contents.specs.Readers.{error_of_item, row_error};

use byte_fields::FieldError;
use payload_merge::RowError;
use std::alloc::{AllocError, AllocFailed};

/// Why a content, or a part of it, was not read: want of memory, or an item that is short or bad.
#[derive(Clone, Copy)]
pub enum ReadError {
    Memory,
    Field(FieldError),
}

impl ReadError {
    /// The same error of the item that begins with these bytes, of which the one that failed is a part.
    pub fn of_item(self, item: &[u8]) -> ReadError
        ensures { result ≡ error_of_item item.now self }
    {
        match self {
            ReadError::Memory => ReadError::Memory,
            ReadError::Field(error) => ReadError::Field(error.of_item(item)),
        }
    }

    /// The error of a content of so many bytes.
    pub fn of_content(self, total: usize) -> RowError
        ensures { result ≡ row_error total self }
    {
        match self {
            ReadError::Memory => RowError::Memory,
            ReadError::Field(error) => RowError::BadContent(error.offset(total)),
        }
    }
}

impl From<FieldError> for ReadError {
    ghost use Rattle.std.specs.Prelude.{◌≡◌};
    ghost use Rattle.block_contents.specs.declared.read_error.ReadError.TheVariants.{Field};

    ghost from_gives = { λ error e. e ≡ Field error };

    fn from(error: FieldError) -> ReadError {
        ReadError::Field(error)
    }
}

impl From<AllocError> for ReadError {
    ghost use Rattle.std.specs.Prelude.{◌≡◌};
    ghost use Rattle.block_contents.specs.declared.read_error.ReadError.TheVariants.{Memory};

    ghost from_gives = { λ _ e. e ≡ Memory };

    fn from(_e: AllocError) -> ReadError {
        ReadError::Memory
    }
}

impl<T: Drop> From<AllocFailed<T>> for ReadError {
    ghost use Rattle.std.specs.Prelude.{◌≡◌};
    ghost use Rattle.block_contents.specs.declared.read_error.ReadError.TheVariants.{Memory};

    ghost from_gives = { λ _ e. e ≡ Memory };

    fn from(_e: AllocFailed<T>) -> ReadError {
        ReadError::Memory
    }
}
