//! The rows of a table of keys, ranks and bodies: the codec of the table `r1`, whose blocks have no schema of fields, and
//! its properties.
//!
//! Its contract is that of `RowCodec` and `TableCodec` for `PlainRows`: what is written of rows reads back as these,
//! a content stands for one list of rows or is refused at an offset, and a content lends its rows wherever it has
//! some. It stands on `payload_merge` and `table_jobs` for the traits, on `byte_fields` for fields and on `table_props`
//! for properties.
#![tactic(auto)]

mod cells;
mod codec;
mod new_rows;
mod own_rows;
mod owned;
mod props;
mod reading;
mod texts;
mod writing;

pub use codec::PlainRows;
pub use own_rows::are_own;
pub use props::properties;
