// The store of files.
ghost use Rattle.std.specs.Prelude.{◌≡◌, ◌↔◌, IfSome, length};
ghost use Rattle.hudi_base.specs.Faults.{CountsFault};
ghost use Rattle.hudi_base.specs.Files.{IsReplay};
ghost use Rattle.hudi_base.specs.Store.{Appends, Creates, Fetches, Lists, Removes, StoreState};

use crate::{Bytes, Name, Sequence};
use std::alloc::Global;

/// A file and its number of bytes.
#[derive(Drop)]
pub struct FileSize {
    pub name: Name,
    pub size: u64,
}

/// Files, in the order of their names.
pub type FileSizes = Sequence<FileSize>;

/// What a listing answers.
#[derive(Drop)]
pub enum Listed {
    Files(FileSizes),
    Failed,
    Memory,
}

/// What a read answers.
#[derive(Drop)]
pub enum Fetched {
    Piece(Bytes),
    Absent,
    Failed,
    Memory,
}

/// What the creation of a file answers.
#[derive(Clone, Copy, Debug, PartialEq, Eq)]
pub enum Made {
    Created,
    Exists,
    Failed,
    Memory,
}

/// What an append answers.
#[derive(Clone, Copy, Debug, PartialEq, Eq)]
pub enum Added {
    Added,
    Failed,
    Memory,
}

/// What a removal answers.
#[derive(Clone, Copy, Debug, PartialEq, Eq)]
pub enum Gone {
    Removed,
    Absent,
    Failed,
    Memory,
}

/// A store of named files. `Failed` comes only where the count of faults rose, by one; `Memory` changes nothing.
///
/// It may tell its files, the operations that changed them and the files that it had before the first of these.
/// It may be honest: then making and removing a file are atomic, a failure of either changed nothing, an append
/// that failed leaves a prefix of its bytes, and what answered without failing stays.
pub trait Store {
    /// What is seen of it: its files, the operations done and the first files, each where it tells them, and its
    /// count of faults, up to the greatest `u64`.
    ghost state: { Self → StoreState };

    /// Whether it is honest. No call changes that.
    ghost is_honest: { Self → Type 0 };

    /// The files and their sizes, in the order of their names.
    fn list(&mut self, alloc: Global) -> Listed
        ensures answer { Lists (state self.old).told result }
        ensures same { (state self.new).told ≡ (state self.old).told }
        ensures honest { is_honest self.old ↔ is_honest self.new }
        ensures cause { CountsFault (state self.old).faults (state self.new).faults (result ≡ Listed.Failed) };

    /// The bytes of a file from the offset `at` on: `len` of them, or fewer where the file ends.
    fn read(&mut self, alloc: Global, name: &Name, at: u64, len: u64) -> Fetched
        ensures answer { Fetches (state self.old).told name.now at len result }
        ensures same { (state self.new).told ≡ (state self.old).told }
        ensures honest { is_honest self.old ↔ is_honest self.new }
        ensures cause { CountsFault (state self.old).faults (state self.new).faults (result ≡ Fetched.Failed) };

    /// Makes a file with these bytes, at once and whole.
    fn create(&mut self, alloc: Global, name: &Name, bytes: &[u8]) -> Made
        ensures answer { Creates (is_honest self.old) (state self.old).told (state self.new).told name.now bytes.now result }
        ensures honest { is_honest self.old ↔ is_honest self.new }
        ensures cause { CountsFault (state self.old).faults (state self.new).faults (result ≡ Made.Failed) };

    /// Adds bytes at the end of a file, and makes it where it is absent.
    fn append(&mut self, alloc: Global, name: &Name, bytes: &[u8]) -> Added
        ensures answer { Appends (is_honest self.old) (state self.old).told (state self.new).told name.now bytes.now result }
        ensures honest { is_honest self.old ↔ is_honest self.new }
        ensures cause { CountsFault (state self.old).faults (state self.new).faults (result ≡ Added.Failed) };

    /// Removes a file.
    fn remove(&mut self, alloc: Global, name: &Name) -> Gone
        ensures answer { Removes (is_honest self.old) (state self.old).told (state self.new).told name.now result }
        ensures honest { is_honest self.old ↔ is_honest self.new }
        ensures cause { CountsFault (state self.old).faults (state self.new).faults (result ≡ Gone.Failed) };

    /// How often it has failed. It takes no memory.
    fn faults(&self) -> u64
        ensures { result ≡ (state self.now).faults };

    /// How many operations were done, where they are told. It takes no memory.
    fn done(&self) -> u64
        ensures { IfSome (state self.now).told.operations (λ operations. result ≡ length operations) };

    /// The operations, in order, make the files of the first files.
    ghost replayed: { (store : Self) → IsReplay (state store).told };
}
