//! Tests of `base_file` with the rows of `plain_rows`: files of no row, of one and of two row groups are written and read back,
//! and a key that comes twice is refused.
#![tactic(auto)]

#[cfg(test)]
mod files;
