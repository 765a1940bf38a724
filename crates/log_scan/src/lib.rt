//! The text of a log file: whole blocks, and then nothing, a torn rest, or what is no block.
//!
//! Its contract: `scan` answers the blocks and where the text is torn, or the offset at which it is no log text. It
//! stands on `log_block`.
#![tactic(auto)]

mod found;
mod laws;
mod scanning;

pub use found::{Scan, ScanError};
pub use laws::texts_are_scanned;
pub use scanning::scan;
