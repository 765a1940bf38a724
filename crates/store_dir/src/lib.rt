//! The outside of the real program: a folder as a store of files, a reader as a source, a writer as a sink, and the
//! system's clock.
//!
//! Its contract: each adapter meets its trait of `hudi_base`, counts exactly its failures, and tells nothing of
//! content, since no clause can say what a disk or a terminal holds. What the clauses leave open is tested over real
//! files, by `store_dir_tests`. It stands on `hudi_base`.
#![tactic(auto)]

mod dir_store;
mod disk;
mod listing;
mod path;
mod streams;
mod system_clock;

pub use dir_store::DirStore;
pub use streams::{StdinSource, StdoutSink};
pub use system_clock::SystemClock;
