//! Base files: the rows of a file group at one instant, as a Parquet file.
//!
//! Its contract: `read_base` answers the rows for which the bytes are a base file, as `specs/BaseFiles` says, over any
//! `RowCodec`; where they are none it says why and where. `write_base` writes the one form of a file of cells that stand
//! for the rows. It stands on `base_cells` and `base_writer` for files of cells and on `payload_merge` for rows and their
//! codec.
#![tactic(auto)]

mod key_set;
mod reading;
mod writing;

pub use base_cells::{BaseCause, BaseError};
pub use reading::read_base;
pub use writing::write_base;
