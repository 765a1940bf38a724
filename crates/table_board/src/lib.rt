//! A table over a store and a clock: each step of a job is decided, done and taken into the list of entries.
//!
//! Its contract: a step adds one entry that may come next, unless it wants memory, and does at most that entry's one
//! operation on the store. Over an honest store whose files stood for the table when the board was made, no entry is
//! damaged, and every image that a stop leaves of the store stands for the table after the entries up to it, or with
//! the step under way failed or done. It stands on `table_core`, whose tables decide, on `table_images` for the law of
//! images, and on `table_history` for the definitions.
#![tactic(auto)]

mod acting;
mod board;
mod copies;
mod journal;
mod preparing;
mod solo;

pub use board::Board;
pub use solo::Solo;
