// Why a page was not read or written.
use parquet_meta::MetaError;
use std::alloc::AllocError;

/// Why a page or its levels were not read or written.
#[derive(Clone, Copy, Debug, PartialEq, Eq)]
pub enum PageError {
    /// Out of memory.
    Memory,
    /// The bytes have no reading. Of levels, the offset is that of the item that is wrong: the length, a run's header, a
    /// run's bytes, or the end of runs that are too few. Of a page, it is 0 where the header has no reading, and the
    /// header's length where the header isn't one of a data page of these bytes or the body has no reading.
    BadPage(usize),
    /// The page's values are in this encoding, which isn't PLAIN (0), or else the levels of an optional column are, and it
    /// isn't RLE (3).
    Encoding(i32),
}

impl From<AllocError> for PageError {
    ghost use Rattle.std.specs.Prelude.{◌≡◌};
    ghost use Rattle.parquet_pages.specs.declared.page_error.PageError.TheVariants.{Memory};

    ghost from_gives = { λ _ e. e ≡ Memory };

    fn from(_: AllocError) -> PageError {
        PageError::Memory
    }
}
