// Calls of a store, and their answers as texts.
use hudi_base::{Fetched, FileSizes, Listed, Name, Store};
use std::alloc::{Alloc, AllocError, Global};
use std::rt::Files;
use std::test::Fail;
use store_dir::DirStore;

/// A call of a store.
#[derive(Clone, Copy)]
pub enum Call {
    List,
    Read(&'static str, u64, u64),
    Create(&'static str, &'static str),
    Append(&'static str, &'static str),
    Remove(&'static str),
}

/// A folder as a store.
pub fn open<R: Files + Alloc + Clone + Drop>(
    rt: R,
    alloc: Global,
    folder: &str,
) -> Result<DirStore<R>, Fail> {
    if folder.is_empty() {
        return Err(Fail::new("no folder has an empty path"));
    }
    Ok(DirStore::new(rt, String::from_str(alloc, folder)?))
}

/// What a store answers to a call.
pub fn answer<S: Store>(alloc: Global, store: &mut S, call: &Call) -> Result<String, Fail> {
    match call {
        Call::List => list(alloc, store),
        Call::Read(name, at, len) => read(alloc, store, name, *at, *len),
        Call::Create(name, bytes) => create(alloc, store, name, bytes),
        Call::Append(name, bytes) => append(alloc, store, name, bytes),
        Call::Remove(name) => remove(alloc, store, name),
    }
}

// The names, each with its size.
fn list<S: Store>(alloc: Global, store: &mut S) -> Result<String, Fail> {
    match store.list(alloc) {
        Listed::Files(files) => Ok(lines(alloc, &files)?),
        Listed::Failed => Ok(String::from_str(alloc, "Failed")?),
        Listed::Memory => Ok(String::from_str(alloc, "Memory")?),
    }
}

fn lines(alloc: Global, files: &FileSizes) -> Result<String, AllocError> {
    let mut text = String::new(alloc);
    for file in files.as_slice() {
        let (name, size) = (file.name.as_str(), file.size);
        text.push_str(format!(in alloc; "{name} {size}, ")?.as_str())?;
    }
    Ok(text)
}

// The bytes.
fn read<S: Store>(
    alloc: Global,
    store: &mut S,
    name: &str,
    at: u64,
    len: u64,
) -> Result<String, Fail> {
    let name = Name::from_text(alloc, name)?;
    match store.read(alloc, &name, at, len) {
        Fetched::Piece(bytes) => Ok(String::from_str(
            alloc,
            std::str::from_utf8(bytes.as_slice())?,
        )?),
        Fetched::Absent => Ok(String::from_str(alloc, "Absent")?),
        Fetched::Failed => Ok(String::from_str(alloc, "Failed")?),
        Fetched::Memory => Ok(String::from_str(alloc, "Memory")?),
    }
}

fn create<S: Store>(alloc: Global, store: &mut S, name: &str, bytes: &str) -> Result<String, Fail> {
    let name = Name::from_text(alloc, name)?;
    let made = store.create(alloc, &name, bytes.as_bytes());
    Ok(format!(in alloc; "{made:?}")?)
}

fn append<S: Store>(alloc: Global, store: &mut S, name: &str, bytes: &str) -> Result<String, Fail> {
    let name = Name::from_text(alloc, name)?;
    let added = store.append(alloc, &name, bytes.as_bytes());
    Ok(format!(in alloc; "{added:?}")?)
}

fn remove<S: Store>(alloc: Global, store: &mut S, name: &str) -> Result<String, Fail> {
    let name = Name::from_text(alloc, name)?;
    let gone = store.remove(alloc, &name);
    Ok(format!(in alloc; "{gone:?}")?)
}
