//! Whole runs over a store, a clock, a source and a sink in memory, as a table of cases.
//!
//! Each line of the standard input is a case, a JSON object: how the run begins, and how it must end. The program runs
//! it and prints `ok` and the case's name, or what came in place of what had to. `case.rt` says what the members mean.
#![tactic(auto)]

mod answer_store;
mod case;
mod compare;
mod members;
mod run;
mod turn_clock;

use crate::case::Case;
use crate::compare::difference;
use crate::run::run;
use anyhow::Result;
use std::alloc::Global;
use std::io::{BufRead, BufReader};

fn main(rt: HostRuntime) -> Result<()> {
    for line in BufReader::new(rt.alloc(), rt.reader())?.lines(rt.alloc()) {
        let line = line?;
        let verdict = judge(rt.alloc(), line.as_str())?;
        println!(rt; "{verdict}")?;
    }
    Ok(())
}

// What is printed for a case.
fn judge(alloc: Global, line: &str) -> Result<String> {
    let case = Case::from_line(alloc, line)?;
    let ended = run(alloc, &case)?;
    let name = case.name.as_str();
    match difference(alloc, &case.expected, &ended)? {
        Some(difference) => Ok(format!(in alloc; "{name}: {difference}")?),
        None => Ok(format!(in alloc; "ok {name}")?),
    }
}
