// Why cells were not read.
ghost use Rattle.std.specs.Prelude.{◌≡◌};

use byte_fields::FieldError;
use std::alloc::AllocError;

/// Why cells were not read: want of memory, or an item that is short or bad.
#[derive(Clone, Copy)]
pub enum ReadError {
    Memory,
    Field(FieldError),
}

impl From<FieldError> for ReadError {
    ghost use Rattle.std.specs.Prelude.{◌≡◌};
    ghost use Rattle.row_bodies.specs.declared.errors.ReadError.TheVariants.{Field};

    ghost from_gives = { λ error e. e ≡ Field error };

    fn from(error: FieldError) -> ReadError {
        ReadError::Field(error)
    }
}

impl From<AllocError> for ReadError {
    ghost use Rattle.std.specs.Prelude.{◌≡◌};
    ghost use Rattle.row_bodies.specs.declared.errors.ReadError.TheVariants.{Memory};

    ghost from_gives = { λ _ e. e ≡ Memory };

    fn from(_e: AllocError) -> ReadError {
        ReadError::Memory
    }
}
