//! The outside in memory: a store of files, a clock, a source and a sink, honest and telling everything, which fail
//! where they are asked to. They serve tests, and show that the traits of `hudi_base` can be met in full.
//!
//! Its contract: each call answers and leaves exactly what the definitions of `specs/` say, and so what the traits
//! say. It stands on `hudi_base`.
#![tactic(auto)]

mod calls;
mod clock;
mod content;
mod files;
mod history;
mod sink;
mod source;
mod store;

pub use clock::MemClock;
pub use sink::MemSink;
pub use source::MemSource;
pub use store::MemStore;
