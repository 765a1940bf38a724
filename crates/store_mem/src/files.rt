// Files by their names, and what an operation makes of them.
ghost use Rattle.std.specs.Prelude.{◌≡◌, ◌++◌, IfOk, OnOk, OnErr};
ghost use Rattle.std.specs.FinMap as map;
ghost use Rattle.hudi_base.specs.Files.{changed, content, sizes};
ghost use Rattle.store_mem.specs.Entries.{files_in};
ghost use Rattle.store_mem.specs.Files.{files_given};

use crate::content::Content;
use hudi_base::{Bytes, FileSize, FileSizes, Name, Operation, Sequence};
use std::alloc::{AllocError, Global};
use std::collections::BTreeMap;

/// What each file contains.
pub type Files = BTreeMap<Name, Content>;

/// The files of these names and bytes. Of one name the last stands.
pub fn given_files(alloc: Global, given: &[(Name, Bytes)]) -> Result<Files, AllocError>
    ensures { IfOk result (λ files. files_in files.entries ≡ files_given given.now) }
{
    let mut files = BTreeMap::new(alloc);
    for (name, bytes) in given {
        put(alloc, &mut files, name, bytes.as_slice())?;
    }
    Ok(files)
}

/// Does an operation.
pub fn change(alloc: Global, files: &mut Files, operation: &Operation) -> Result<(), AllocError>
    ensures ok { OnOk result (files_in files.new.entries ≡ changed (files_in files.old.entries) operation.now) }
    ensures err { OnErr result (files_in files.new.entries ≡ files_in files.old.entries) }
{
    match operation {
        Operation::Create(name, bytes) => put(alloc, files, name, bytes.as_slice()),
        Operation::Append(name, bytes) => extend(alloc, files, name, bytes.as_slice()),
        Operation::Remove(name) => {
            remove(files, name);
            Ok(())
        }
    }
}

// Makes a file with these bytes, in place of one of that name.
fn put(alloc: Global, files: &mut Files, name: &Name, bytes: &[u8]) -> Result<(), AllocError>
    ensures ok { OnOk result (files_in files.new.entries ≡ map.insert (files_in files.old.entries) name.now bytes.now) }
    ensures err { OnErr result (files_in files.new.entries ≡ files_in files.old.entries) }
{
    let name = name.copy(alloc)?;
    let content = Content::from_slice(alloc, bytes)?;
    files.insert(name, content)?;
    Ok(())
}

// Adds bytes at the end of a file, which it makes where it is absent.
fn extend(alloc: Global, files: &mut Files, name: &Name, bytes: &[u8]) -> Result<(), AllocError>
    ensures ok { OnOk result (files_in files.new.entries ≡ map.insert (files_in files.old.entries) name.now (content (files_in files.old.entries) name.now ++ bytes.now)) }
    ensures err { OnErr result (files_in files.new.entries ≡ files_in files.old.entries) }
{
    match files.get_mut(name) {
        Some(content) => {
            content.extend(bytes)?;
            Ok(())
        }
        None => {
            put(alloc, files, name, bytes)?;
            Ok(())
        }
    }
}

// Removes a file.
fn remove(files: &mut Files, name: &Name)
    ensures { files_in files.new.entries ≡ map.remove (files_in files.old.entries) name.now }
{
    files.remove(name);
}

/// The names and the sizes, in the order of the names.
pub fn sizes_of(alloc: Global, files: &Files) -> Result<FileSizes, AllocError>
    ensures { IfOk result (λ listing. listing ≡ sizes (files_in files.now.entries)) }
{
    let mut listing = Sequence::new(alloc);
    for (name, content) in files.iter() {
        listing.push(FileSize {
            name: name.copy(alloc)?,
            size: content.as_slice().len() as u64,
        })?;
    }
    Ok(listing)
}
