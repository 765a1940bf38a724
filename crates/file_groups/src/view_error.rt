// Why there are no views.
use hudi_base::Name;
use std::alloc::{AllocError, AllocFailed};

/// Why files are not those of a partition's groups.
#[derive(Drop)]
pub enum ViewError {
    /// Want of memory.
    Memory,
    /// A file lies in this partition, which isn't that of the groups.
    NoTile(Name),
}

impl From<AllocError> for ViewError {
    ghost use Rattle.std.specs.Prelude.{◌≡◌};
    ghost use Rattle.file_groups.specs.declared.view_error.ViewError.TheVariants.{Memory};

    ghost from_gives = { λ _ error. error ≡ Memory };

    fn from(_: AllocError) -> ViewError {
        ViewError::Memory
    }
}

impl<T: Drop> From<AllocFailed<T>> for ViewError {
    ghost use Rattle.std.specs.Prelude.{◌≡◌};
    ghost use Rattle.file_groups.specs.declared.view_error.ViewError.TheVariants.{Memory};

    ghost from_gives = { λ _ error. error ≡ Memory };

    fn from(_: AllocFailed<T>) -> ViewError {
        ViewError::Memory
    }
}
