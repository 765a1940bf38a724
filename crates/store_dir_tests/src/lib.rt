//! Tests of `store_dir`: what no clause says of a real folder, a real stream and the system's clock.
//!
//! Each test has a folder of its own below the system's temporary folder, and removes it at its end.
#![tactic(auto)]

#[cfg(test)]
mod calls;
#[cfg(test)]
mod clock;
#[cfg(test)]
mod logged_files;
#[cfg(test)]
mod odd_names;
#[cfg(test)]
mod store;
#[cfg(test)]
mod streams;
#[cfg(test)]
mod syncs;
#[cfg(test)]
mod test_folder;
