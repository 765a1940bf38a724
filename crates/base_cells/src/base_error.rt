// Why a base file was not read or written.
use std::alloc::{AllocError, AllocFailed};

/// Why bytes are no base file.
#[derive(Clone, Copy, Debug, PartialEq, Eq)]
pub enum BaseCause {
    /// There are fewer than 12 bytes, or the first or the last four aren't `PAR1`.
    Magic,
    /// The footer's length passes the beginning of the file.
    Footer,
    /// The footer has no reading. The place is that of its item which is wrong.
    Meta,
    /// The schema element at this index, counted from the root as 0, is the first that is nested, repeated or of a physical
    /// type that isn't supported.
    Unsupported(usize),
    /// The schema, a row group's chunks or the counts of rows aren't those of a file of the columns.
    Columns,
    /// A chunk is compressed, by this codec. The place is that of its first page, or 0 where that is negative.
    Compressed(i32),
    /// A chunk's first page lies outside the file, a page has no reading, or it has more cells than are left.
    Page,
    /// A page's values are in this encoding, which isn't PLAIN (0), or else the levels of an optional column are, and it
    /// isn't RLE (3).
    Encoding(i32),
    /// The cells of a row have no meaning, or a key comes twice. The place is that of the footer.
    Row,
}

/// Why a base file was not read or written.
#[derive(Clone, Copy, Debug, PartialEq, Eq)]
pub enum BaseError {
    /// Out of memory.
    Memory,
    /// The bytes are no base file, because of what stands at this place of them.
    BadBase(BaseCause, usize),
}

impl From<AllocError> for BaseError {
    ghost use Rattle.std.specs.Prelude.{◌≡◌};
    ghost use Rattle.base_cells.specs.declared.base_error.BaseError.TheVariants.{Memory};

    ghost from_gives = { λ _ e. e ≡ Memory };

    fn from(_: AllocError) -> BaseError {
        BaseError::Memory
    }
}

impl<T: Drop> From<AllocFailed<T>> for BaseError {
    ghost use Rattle.std.specs.Prelude.{◌≡◌};
    ghost use Rattle.base_cells.specs.declared.base_error.BaseError.TheVariants.{Memory};

    ghost from_gives = { λ _ e. e ≡ Memory };

    fn from(_: AllocFailed<T>) -> BaseError {
        BaseError::Memory
    }
}
