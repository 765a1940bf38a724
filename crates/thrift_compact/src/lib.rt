//! The compact protocol of Apache Thrift: fields, lists, binaries and numbers, written and read one by one.
//!
//! Its contract: each call of the reader gives exactly what a definition in `specs/` reads from the bytes that are left,
//! or says which item they end in or which item is bad, and takes no memory. A call of the writer adds the one written
//! form, or leaves the writer as it was. What is read as fields is a struct of the protocol, and each struct is read:
//! laws say so of the definitions. It stands on `byte_fields` for varints and for bytes behind their length.
#![tactic(auto)]

mod heads;
mod laws;
mod reader;
mod skipping;
mod thrift_error;
pub mod types;
mod writer;

pub use laws::values_are_read;
pub use reader::TReader;
pub use thrift_error::ThriftError;
pub use writer::{Level, TWriter};
