//! Tests of `block_contents`, `row_values` and `row_bodies`: contents of delete blocks, rows that come in as JSON, and
//! cells of bodies, with their refusals, as tables.
#![tactic(auto)]

#[cfg(test)]
mod bodies;
#[cfg(test)]
mod deletes;
#[cfg(test)]
mod rows;
