// Why there is no timeline.
ghost use Rattle.std.specs.Prelude.{◌≡◌};
ghost use Rattle.instant_line.specs.declared.line_error.LineError.TheVariants.{Memory};

use std::alloc::{AllocError, AllocFailed};

/// Why names aren't a timeline, or why there is no room in one.
#[derive(Clone, Copy, Debug, PartialEq, Eq)]
pub enum LineError {
    /// Want of memory.
    Memory,
    /// The name at this place in the list (from 0) is the first, in the order of the names, whose instant lacks the
    /// file of the state before, or whose time is that of another action's file before it.
    BrokenTimeline(usize),
}

impl From<AllocError> for LineError {
    ghost from_gives = { λ _ error. error ≡ Memory };

    fn from(_: AllocError) -> LineError {
        LineError::Memory
    }
}

impl<T: Drop> From<AllocFailed<T>> for LineError {
    ghost from_gives = { λ _ error. error ≡ Memory };

    fn from(_: AllocFailed<T>) -> LineError {
        LineError::Memory
    }
}
