// Whether a run ended as it had to.
use crate::case::{Expected, Found};
use crate::run::Ended;
use anyhow::Result;
use std::alloc::Global;
use store_mem::MemStore;

/// The first thing that came otherwise, as a text.
pub fn difference(alloc: Global, expected: &Expected, ended: &Ended) -> Result<Option<String>> {
    if u64::from(ended.status) != expected.status {
        let status = ended.status;
        return Ok(Some(format!(in alloc; "status {status}")?));
    }
    if ended.text.as_slice() != expected.text.as_slice() {
        let text = std::str::from_utf8(ended.text.as_slice()).unwrap_or("no text");
        return Ok(Some(format!(in alloc; "text {text}")?));
    }
    if differs(expected.reads, ended.reads) {
        let reads = ended.reads;
        return Ok(Some(format!(in alloc; "{reads} reads")?));
    }
    if differs(expected.left, ended.left as u64) {
        let left = ended.left;
        return Ok(Some(format!(in alloc; "{left} bytes left")?));
    }
    match &ended.store {
        Some(store) => difference_of_store(alloc, expected, store),
        None => Ok(None),
    }
}

fn differs(expected: Option<u64>, found: u64) -> bool {
    expected.is_some_and(|expected| expected != found)
}

fn difference_of_store(
    alloc: Global,
    expected: &Expected,
    store: &MemStore,
) -> Result<Option<String>> {
    if differs(expected.calls, store.calls()) {
        let calls = store.calls();
        return Ok(Some(format!(in alloc; "{calls} calls")?));
    }
    match &expected.found {
        Some(found) => difference_of_files(alloc, found, store),
        None => Ok(None),
    }
}

// The first file that isn't as it must be.
fn difference_of_files(
    alloc: Global,
    expected: &[Found],
    store: &MemStore,
) -> Result<Option<String>> {
    let count = store.file_count();
    if count != expected.len() {
        return Ok(Some(format!(in alloc; "{count} files")?));
    }
    for found in expected {
        if store.file(&found.name) != Some(found.bytes.as_slice()) {
            let name = found.name.as_str();
            return Ok(Some(format!(in alloc; "file {name}")?));
        }
    }
    Ok(None)
}
