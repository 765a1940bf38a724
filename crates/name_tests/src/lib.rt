//! Tests of `file_names`, `key_index` and `instant_line`: names of files both ways, slots and tilings, and timelines, as
//! tables.
#![tactic(auto)]

#[cfg(test)]
mod names;
#[cfg(test)]
mod tilings;
#[cfg(test)]
mod timelines;
