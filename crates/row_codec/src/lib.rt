//! The codec of a table with a flat schema: how its rows become the contents of data blocks, the cells of base files and
//! JSON, and are read back.
//!
//! Its contract is that of `payload_merge`'s `RowCodec`: what is written of rows is read back as these, and any content and
//! any cells stand for exactly one reading or are refused at their place. `json_of` gives the one text of a row. It
//! stands on `row_records` for data blocks, on `row_columns` for base files and on `row_values` for rows.
#![tactic(auto)]

mod codec_impl;
mod flat_codec;
mod json_output;
mod new_codec;
mod schema;
mod table_impl;

pub use flat_codec::FlatCodec;
