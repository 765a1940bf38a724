// A folder as a store.
ghost use Rattle.std.specs.Prelude.{◌≡◌, ◌≢◌, ◌↔◌, [], IsTrue, string_bytes};
ghost use Rattle.std.specs.IoError.{error_kind};
ghost use Rattle.hudi_base.specs.Faults.{CountsFault};
ghost use Rattle.hudi_base.specs.Store.{Fetches, Lists};
ghost use Rattle.store_dir.specs.DirState.{DirState, tells_nothing};
ghost use Rattle.store_dir.specs.ExactCounts.{CountsOnlyFailure};

use crate::disk::{Disk, read_piece};
use crate::listing::{TEMPORARY_FOLDER, files_below};
use crate::path::path_of;
use hudi_base::{Added, Bytes, FaultCount, Fetched, Gone, Listed, Made, Name, Sequence, Store};
use std::alloc::{Alloc, AllocError, Global};
use std::io::{self, ErrorKind};
use std::marker::Model;
use std::rt::Files;

// A file that is made has this path below the folder until it is whole.
const TEMPORARY_FILE: &str = ".hoodie/.temp/new";

/// A folder. A file of the store is a file below it, with `/` between the folders of its name. An absent folder has
/// no files, and missing folders are made. It serves one owner: nobody else changes the folder meanwhile.
///
/// What answered without failing outlives a loss of power, as far as the system keeps what it has synced. Contracts
/// see the folder's path and the count of faults.
#[derive(Drop)]
pub struct DirStore<R: Files + Alloc + Clone + Drop> {
    disk: Disk<R>,
    folder: String,
    faults: FaultCount,
}

impl<R: Files + Alloc + Clone + Drop> Model for DirStore<R> {
    ghost use Rattle.std.specs.Prelude.{string_bytes};
    ghost use Rattle.store_dir.specs.DirState.{DirState};

    ghost Value = { DirState };

    ghost view = { λ store. record { folder = string_bytes store.folder; faults = store.faults } };
}

impl<R: Files + Alloc + Clone + Drop> DirStore<R> {
    /// The folder of this path, which may be absent. No folder has an empty path.
    pub fn new(rt: R, folder: String) -> DirStore<R>
        requires { string_bytes folder ≢ [] }
        ensures { result ≡ record { folder = string_bytes folder; faults = 0 } }
    {
        DirStore {
            disk: Disk::new(rt),
            folder,
            faults: FaultCount::new(),
        }
    }
}

impl<R: Files + Alloc + Clone + Drop> Store for DirStore<R> {
    ghost state = { λ store. record { told = tells_nothing; faults = store.faults } };

    ghost is_honest = { λ _. ⊥ };

    fn list(&mut self, alloc: Global) -> Listed
        ensures sorted { Lists tells_nothing result }
        ensures cause { CountsFault self.old.faults self.new.faults (result ≡ Listed.Failed) }
        ensures count { CountsOnlyFailure self.old.faults self.new.faults (result ≡ Listed.Failed) }
        ensures folder { self.new.folder ≡ self.old.folder }
    {
        match files_below(self.disk.files(), alloc, self.folder.as_str()) {
            Ok(files) => Listed::Files(Sequence::from_vec(files)),
            Err(error) if is_memory(&error) => Listed::Memory,
            Err(_) => {
                self.faults.raise();
                Listed::Failed
            }
        }
    }

    fn read(&mut self, alloc: Global, name: &Name, at: u64, len: u64) -> Fetched
        ensures bounded { Fetches tells_nothing name.now at len result }
        ensures cause { CountsFault self.old.faults self.new.faults (result ≡ Fetched.Failed) }
        ensures count { CountsOnlyFailure self.old.faults self.new.faults (result ≡ Fetched.Failed) }
        ensures folder { self.new.folder ≡ self.old.folder }
    {
        let Ok(path) = path_of(alloc, self.folder.as_str(), name.as_str()) else {
            return Fetched::Memory;
        };
        match read_piece(self.disk.files(), alloc, path.as_str(), at, len) {
            Ok(Some(bytes)) => Fetched::Piece(Bytes::from_vec(bytes)),
            Ok(None) => Fetched::Absent,
            Err(error) if is_memory(&error) => Fetched::Memory,
            Err(_) => {
                self.faults.raise();
                Fetched::Failed
            }
        }
    }

    fn create(&mut self, alloc: Global, name: &Name, bytes: &[u8]) -> Made
        ensures cause { CountsFault self.old.faults self.new.faults (result ≡ Made.Failed) }
        ensures count { CountsOnlyFailure self.old.faults self.new.faults (result ≡ Made.Failed) }
        ensures folder { self.new.folder ≡ self.old.folder }
    {
        let Ok(path) = path_of(alloc, self.folder.as_str(), name.as_str()) else {
            return Made::Memory;
        };
        let made = if bytes.is_empty() {
            self.disk.make_empty(alloc, path.as_str())
        } else {
            let Ok(temporary) = path_of(alloc, self.folder.as_str(), TEMPORARY_FILE) else {
                return Made::Memory;
            };
            self.disk
                .make_written(alloc, temporary.as_str(), path.as_str(), bytes)
        };
        match made {
            Ok(true) => Made::Created,
            Ok(false) => Made::Exists,
            Err(_) => {
                self.faults.raise();
                Made::Failed
            }
        }
    }

    fn append(&mut self, alloc: Global, name: &Name, bytes: &[u8]) -> Added
        ensures cause { CountsFault self.old.faults self.new.faults (result ≡ Added.Failed) }
        ensures count { CountsOnlyFailure self.old.faults self.new.faults (result ≡ Added.Failed) }
        ensures folder { self.new.folder ≡ self.old.folder }
    {
        let Ok(path) = path_of(alloc, self.folder.as_str(), name.as_str()) else {
            return Added::Memory;
        };
        match self.disk.append_bytes(alloc, path.as_str(), bytes) {
            Ok(()) => Added::Added,
            Err(_) => {
                self.faults.raise();
                Added::Failed
            }
        }
    }

    fn remove(&mut self, alloc: Global, name: &Name) -> Gone
        ensures cause { CountsFault self.old.faults self.new.faults (result ≡ Gone.Failed) }
        ensures count { CountsOnlyFailure self.old.faults self.new.faults (result ≡ Gone.Failed) }
        ensures folder { self.new.folder ≡ self.old.folder }
    {
        let Ok(path) = path_of(alloc, self.folder.as_str(), name.as_str()) else {
            return Gone::Memory;
        };
        match self.disk.remove_file(alloc, path.as_str()) {
            Ok(true) => Gone::Removed,
            Ok(false) => Gone::Absent,
            Err(_) => {
                self.faults.raise();
                Gone::Failed
            }
        }
    }

    fn faults(&self) -> u64 {
        self.faults.get()
    }

    // Operations aren't told, so nothing hangs on their number.
    fn done(&self) -> u64 {
        0
    }

    ghost replayed = { λ _. tt };
}

// Whether memory was wanting.
fn is_memory(error: &io::Error) -> bool
    ensures { IsTrue result ↔ (error_kind error.now ≡ ErrorKind.OutOfMemory) }
{
    error.kind() == ErrorKind::OutOfMemory
}
