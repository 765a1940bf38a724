//! Tests of `commit_meta` and `file_groups`: metadata both ways, and the files of groups, as tables.
#![tactic(auto)]

#[cfg(test)]
mod groups;
#[cfg(test)]
mod metadata;
