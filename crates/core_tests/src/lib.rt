//! Tests of `table_core`: steps by hand over `decide`, `reserve` and `take`, and the marks of entries.
#![tactic(auto)]

#[cfg(test)]
mod driving;
#[cfg(test)]
mod lanes;
#[cfg(test)]
mod marks;
#[cfg(test)]
mod metadata;
#[cfg(test)]
mod steps;
#[cfg(test)]
mod telling;
#[cfg(test)]
mod tiles;
