//! Tests of `parquet_pages`: definition levels and pages, both ways, and their refusals, as tables.
#![tactic(auto)]

#[cfg(test)]
mod levels;
#[cfg(test)]
mod pages;
