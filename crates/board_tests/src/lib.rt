//! Tests of `table_board` and `table_open` over a store in memory: a table that is made, upserts step by step, a fault,
//! and what stops leave, by a plain reader of log files.
#![tactic(auto)]

#[cfg(test)]
mod driving;
#[cfg(test)]
mod making;
#[cfg(test)]
mod reading;
#[cfg(test)]
mod runs;
#[cfg(test)]
mod stops;
