// All files below a folder.
ghost use Rattle.std.specs.Prelude.{◌≡◌, ◌∷◌, ◌++◌, [], IfOk, OnOk, IsSortedByKey};
ghost use Rattle.std.specs.Cmp.Lexicographic.{slice_cmp};
ghost use Rattle.std.specs.Ordering.{nat_cmp};

use crate::path::{name_in, path_of};
use hudi_base::{FileSize, Name};
use std::alloc::{Alloc, AllocError, Allocator, Global};
use std::fs::{self, DirEntry};
use std::io::{self, ErrorKind};
use std::rt::Files;

/// Files are made here before they get their names. What lies here isn't listed.
pub const TEMPORARY_FOLDER: &str = ".hoodie/.temp";

// The files found so far, and the names of the folders that are still to be read.
#[derive(Drop)]
struct Found {
    files: Vec<FileSize>,
    folders: Vec<String>,
}

/// All files below a folder and their sizes, in the order of their names. An absent folder has none. A link is a file,
/// and a file or folder whose name isn't UTF-8 is passed over.
pub fn files_below<R: Files + Alloc + Clone + Drop>(
    rt: &R,
    alloc: Global,
    root: &str,
) -> io::Result<Vec<FileSize>>
    ensures { IfOk result (λ files. IsSortedByKey (λ file. file.name) (slice_cmp nat_cmp) files.items) }
{
    let mut files = find_files(rt, alloc, root)?;
    files.sort_by(|a, b| a.name.cmp(&b.name))?;
    Ok(files)
}

// The files below a folder, in any order.
fn find_files<R: Files + Alloc + Clone + Drop>(
    rt: &R,
    alloc: Global,
    root: &str,
) -> io::Result<Vec<FileSize>> {
    let mut found = Found {
        files: Vec::new(alloc),
        folders: Vec::new(alloc),
    };
    if !fs::exists(rt, root)? {
        return Ok(found.files);
    }
    found.folders.push(String::new(alloc))?;
    for _ in 0..u64::MAX {
        match found.folders.pop() {
            Some(folder) => read_folder(rt, alloc, root, folder.as_str(), &mut found)?,
            None => break,
        }
    }
    Ok(found.files)
}

// Adds what lies in one folder of the store.
fn read_folder<R: Files + Alloc + Clone + Drop>(
    rt: &R,
    alloc: Global,
    root: &str,
    folder: &str,
    found: &mut Found,
) -> io::Result<()> {
    let path = path_of(alloc, root, folder)?;
    for entry in fs::read_dir(rt, path.as_str())? {
        match entry {
            Ok(entry) => add_entry(alloc, folder, &entry, found)?,
            // So the standard library answers for a name that isn't UTF-8.
            Err(error) if error.kind() == ErrorKind::InvalidFilename => {}
            Err(error) => return Err(error),
        }
    }
    Ok(())
}

// Adds one file or folder.
fn add_entry<R: Files, A: Allocator>(
    alloc: Global,
    folder: &str,
    entry: &DirEntry<R, A>,
    found: &mut Found,
) -> io::Result<()> {
    let name = name_in(alloc, folder, entry.file_name())?;
    let metadata = entry.metadata()?;
    if metadata.is_dir() {
        found.add_folder(name)?;
    } else {
        found.add_file(Name::from_text(alloc, name.as_str())?, metadata.len())?;
    }
    Ok(())
}

impl Found {
    fn add_file(&mut self, name: Name, size: u64) -> Result<(), AllocError>
        ensures { OnOk result (self.new.files.items ≡ self.old.files.items ++ record { name = name; size = size } ∷ []) }
    {
        self.files.push(FileSize { name, size })?;
        Ok(())
    }

    fn add_folder(&mut self, name: String) -> Result<(), AllocError> {
        if name.as_str() != TEMPORARY_FOLDER {
            self.folders.push(name)?;
        }
        Ok(())
    }
}
