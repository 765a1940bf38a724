//! Tests of `byte_fields` and `log_block`: vectors of the formats, as tables.
#![tactic(auto)]

#[cfg(test)]
mod blocks;
#[cfg(test)]
mod fields;
