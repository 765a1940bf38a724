//! What every layer of the table speaks of: bytes and names, times of instants, file groups, and the outside
//! (a store of files, a source, a sink and a clock) as traits whose meanings are written down.
//!
//! Its contract: a time and its seventeen digits determine each other, a drawn time is above the last one, and
//! the answers of the outside are those of the meanings in `specs/`. It stands on `jiff_core` for the calendar and on
//! `sqlite_items` for values that hold values.
#![tactic(auto)]

mod bytes;
mod civil_time;
mod clock;
mod column;
mod fault_count;
mod file_group;
mod gate;
mod instant_time;
mod name;
mod operation;
mod sequence;
mod store;
mod streams;
mod time_laws;
mod value;

pub use bytes::Bytes;
pub use clock::Clock;
pub use column::{Column, Columns};
pub use fault_count::FaultCount;
pub use file_group::{GroupRef, SlotRange, Target};
pub use gate::{Gate, Place};
pub use instant_time::{BadTime, InstantTime, TimeOver};
pub use name::Name;
pub use operation::Operation;
pub use sequence::Sequence;
pub use store::{Added, Fetched, FileSize, FileSizes, Gone, Listed, Made, Store};
pub use streams::{Got, Sent, Sink, Source};
pub use time_laws::times_and_texts_agree;
pub use value::{Pair, Pairs, Value, Values};
