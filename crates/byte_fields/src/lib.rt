//! Fields of a few bytes, of which log blocks, Avro, Thrift and Parquet are made: numbers of a fixed width in either
//! byte order, varints and zigzag numbers, and bytes and texts behind their length.
//!
//! Its contract: a reader takes the bytes from a field on and gives the field's value and the bytes after it, exactly
//! as a definition in `specs/` says, or says that the bytes end inside an item or that an item is bad, and where that
//! item begins. It takes no memory. A writer adds the one written form at the end, or leaves what it was given as it
//! was; its only error is that memory has run out. It stands on `byteorder` for numbers of a fixed width.
#![tactic(auto)]

mod field_error;
mod laws;
mod numbers;
mod prefixed;
mod texts;
mod varints;

pub use field_error::FieldError;
pub use laws::{later_bytes, short_varints, varints_are_read, written_varints, zigzag_pairs};
pub use numbers::{
    after_u32, after_u64, i32_at, i64_at, put_i32, put_i64, put_u32, put_u64, u8_at, u32_at, u64_at,
};
pub use prefixed::{
    bytes_at, long_prefixed_at, put_long_prefixed, put_u32_prefixed, put_varint_prefixed,
    u32_prefixed_at, u64_then_bytes_at, varint_prefixed_at,
};
pub use texts::{long_text_at, utf8_text};
pub use varints::{
    MAX_VARINT_LEN, put_varint, put_zigzag, varint_at, varint_u32_at, zigzag_i16_at, zigzag_i32_at,
    zigzag_i64_at,
};
