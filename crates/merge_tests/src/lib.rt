//! Tests of the payload rule and the folds, of what no clause says: that calls succeed where there is memory, and that
//! the clauses mean what they should. They stand apart so that `payload_merge` is proved once.
#![tactic(auto)]

#[cfg(test)]
mod folds;
#[cfg(test)]
mod payload_rule;
#[cfg(test)]
mod rows;
#[cfg(test)]
mod summaries;
