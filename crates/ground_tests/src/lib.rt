//! Tests of the ground that the other crates stand on: of `hudi_base`, and of the outside in memory, `store_mem`.
//! It holds nothing else.
#![tactic(auto)]

#[cfg(test)]
mod store;
#[cfg(test)]
mod streams;
#[cfg(test)]
mod times;
#[cfg(test)]
mod values;
