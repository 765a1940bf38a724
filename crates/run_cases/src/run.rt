// Running a case.
use crate::answer_store::AnswerStore;
use crate::case::{Answer, Case};
use crate::turn_clock::TurnClock;
use anyhow::Result;
use hudi_base::{Bytes, Name, Sequence, Store};
use script_run::hudi_run_solo;
use std::alloc::Global;
use store_mem::{MemSink, MemSource, MemStore};

// How many bytes a run may write.
const OUTPUT_CAPACITY: usize = 1_000_000;

/// How a run ended. A store that keeps nothing isn't given back.
#[derive(Drop)]
pub struct Ended {
    pub status: u8,
    pub text: Bytes,
    pub reads: u64,
    pub left: usize,
    pub store: Option<MemStore>,
}

/// Runs a case.
pub fn run(alloc: Global, case: &Case) -> Result<Ended> {
    match &case.answer {
        Some(answer) => run_answered(alloc, case, answer),
        None => {
            let (ended, store) = run_over(alloc, case, store_of(alloc, case)?)?;
            Ok(Ended {
                store: Some(store),
                ..ended
            })
        }
    }
}

// Runs a case over a store that answers as it is told to.
fn run_answered(alloc: Global, case: &Case, answer: &Answer) -> Result<Ended> {
    let store = AnswerStore::new(answer, case.existing_calls.as_slice(), case.listing_fails);
    let (ended, _) = run_over(alloc, case, store)?;
    Ok(ended)
}

// Runs a case over a store.
fn run_over<S: Store + Drop>(alloc: Global, case: &Case, store: S) -> Result<(Ended, S)> {
    let pieces = case.pieces.max(1);
    let script = case.script.copy(alloc)?;
    let mut input = MemSource::new(script, pieces, copy(alloc, &case.failing_reads)?);
    let failing = copy(alloc, &case.failing_writes)?;
    let mut output = MemSink::new(alloc, OUTPUT_CAPACITY, pieces, failing)?;
    let clock = TurnClock::new(&case.clock);
    let (status, store, _) = hudi_run_solo(
        alloc,
        &case.words,
        store,
        clock,
        &mut input,
        &mut output,
    );
    let ended = Ended {
        status,
        text: Bytes::from_slice(alloc, output.written())?,
        reads: input.calls(),
        left: input.bytes_left().len(),
        store: None,
    };
    Ok((ended, store))
}

// The store that a case begins with.
fn store_of(alloc: Global, case: &Case) -> Result<MemStore> {
    let mut files = Sequence::new(alloc);
    for name in &case.files {
        push_empty(alloc, &mut files, name.as_str())?;
    }
    let mut store = MemStore::with_files(alloc, files)?;
    store.plan_failures(copy(alloc, &case.failing_calls)?, case.prefix);
    Ok(store)
}

// Adds an empty file.
fn push_empty(alloc: Global, files: &mut Sequence<(Name, Bytes)>, name: &str) -> Result<()> {
    let name = Name::from_text(alloc, name)?;
    let bytes = Bytes::from_vec(Vec::new(alloc));
    files.push((name, bytes))?;
    Ok(())
}

fn copy(alloc: Global, numbers: &Sequence<u64>) -> Result<Sequence<u64>> {
    Ok(Sequence::from_vec(Vec::from_slice(alloc, numbers.as_slice())?))
}
