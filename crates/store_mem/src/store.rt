// A store in memory.
ghost use Rattle.std.specs.Prelude.{◌≡◌, ◌≢◌, ◌≤◌, [], length, take, IfOk, MatchOption, None, Some};
ghost use Rattle.std.specs.FinMap.{get, len};
ghost use Rattle.hudi_base.specs.Faults.{CountsFault, one_more};
ghost use Rattle.hudi_base.specs.Store.{Lists, Fetches, Creates, Appends, Removes};
ghost use Rattle.store_mem.specs.Calls.{no_calls};
ghost use Rattle.store_mem.specs.Files.{after_operations, no_operations, told_of};
ghost use Rattle.store_mem.specs.Stopped.{stopped};
ghost use Rattle.store_mem.specs.MemStore.{files_of, left_by, MemoryCreates, MemoryAppends, MemoryRemoves};

use crate::calls::Calls;
use crate::content::{piece, prefix};
use crate::history::History;
use hudi_base::{
    Added, Bytes, FaultCount, Fetched, Gone, Listed, Made, Name, Operation, Sequence, Store,
};
use std::alloc::{AllocError, Global};
use std::marker::Model;

/// A store of files in memory, honest and telling everything, which fails where it is asked to.
///
/// Each call of `create`, `append` and `remove` is a changing call and has a number, from 0, whatever it answers.
/// Those whose numbers are listed fail: a creation and a removal change nothing, and an append leaves the first
/// bytes of its piece (and is no operation where that is no byte). A call answers `Memory` where an allocation
/// fails, and then has changed nothing but the number of changing calls.
///
/// Contracts see the files that it was given, the operations done since, the changing calls with those that are to
/// fail, how many bytes a failing append leaves, and the number of failures.
#[derive(Drop)]
pub struct MemStore {
    history: History,
    changes: Calls,
    prefix: u64,
    faults: FaultCount,
}

impl Model for MemStore {
    ghost use Rattle.store_mem.specs.MemStore.{MemoryStore};

    ghost Value = { MemoryStore };

    ghost view = { λ store. record { history = store.history; changes = store.changes; prefix = store.prefix; faults = store.faults } };
}

impl MemStore {
    /// A store with no files, which never fails.
    pub fn new(alloc: Global) -> MemStore
        ensures { result ≡ record { history = no_operations []; changes = no_calls []; prefix = 0; faults = 0 } }
    {
        MemStore::with_failures(alloc, Sequence::new(alloc), 0)
    }

    /// A store with no files. The changing calls of these numbers, from 0, fail; a failing append leaves the first
    /// `prefix` bytes of its piece, or all where there are fewer.
    pub fn with_failures(alloc: Global, failing: Sequence<u64>, prefix: u64) -> MemStore
        ensures { result ≡ record { history = no_operations []; changes = no_calls failing; prefix = prefix; faults = 0 } }
    {
        MemStore {
            history: History::new(alloc),
            changes: Calls::new(failing),
            prefix,
            faults: FaultCount::new(),
        }
    }

    /// A store that begins with these files and never fails. Of one name the last stands. The only error is want of
    /// memory.
    pub fn with_files(alloc: Global, files: Sequence<(Name, Bytes)>) -> Result<MemStore, AllocError>
        ensures { IfOk result (λ store. store ≡ record { history = no_operations files; changes = no_calls []; prefix = 0; faults = 0 }) }
    {
        Ok(MemStore {
            history: History::with_files(alloc, files)?,
            changes: Calls::new(Sequence::new(alloc)),
            prefix: 0,
            faults: FaultCount::new(),
        })
    }

    /// From now on the changing calls of these numbers fail, counted from 0 anew; a failing append leaves the first
    /// `prefix` bytes of its piece, or all where there are fewer.
    pub fn plan_failures(&mut self, failing: Sequence<u64>, prefix: u64)
        ensures { self.new ≡ record self.old { changes = no_calls failing; prefix = prefix } }
    {
        self.changes = Calls::new(failing);
        self.prefix = prefix;
    }

    /// The bytes of a file, where there is one of that name.
    pub fn file(&self, name: &Name) -> Option<&[u8]>
        ensures { MatchOption result (get (files_of self.now) name.now ≡ None) (λ bytes. get (files_of self.now) name.now ≡ Some bytes.now) }
    {
        self.history.file(name)
    }

    /// How many files there are.
    pub fn file_count(&self) -> usize
        ensures { result ≡ len (files_of self.now) }
    {
        self.history.file_count()
    }

    /// The operations done, in order. One that a failing append left stands among them.
    pub fn operations(&self) -> &[Operation]
        ensures { result.now ≡ self.now.history.operations }
    {
        self.history.operations()
    }

    /// The store that is found after a stop: after the first `done` operations, and within the next one, of which the
    /// first `most` bytes have arrived where it is an append. It never fails.
    pub fn stopped(&self, alloc: Global, done: usize, most: u64) -> Result<MemStore, AllocError>
        requires { done ≤ length self.now.history.operations }
        ensures { IfOk result (λ left. left ≡
            record { history = stopped self.now.history done most; changes = no_calls []; prefix = 0; faults = 0 }) }
    {
        Ok(MemStore {
            history: self.history.stopped(alloc, done, most)?,
            changes: Calls::new(Sequence::new(alloc)),
            prefix: 0,
            faults: FaultCount::new(),
        })
    }

    /// How many changing calls there were, since the failures were planned, up to the greatest `u64`.
    pub fn calls(&self) -> u64
        ensures { result ≡ self.now.changes.count }
    {
        self.changes.count()
    }

    // Makes a file.
    fn create_file(&mut self, alloc: Global, name: &Name, bytes: &[u8]) -> Made
        ensures exact { MemoryCreates self.old self.new name.now bytes.now result }
        ensures cause { CountsFault self.old.faults self.new.faults (result ≡ Made.Failed) }
    {
        if self.changes.begin() {
            self.faults.raise();
            return Made::Failed;
        }
        if self.history.has(name) {
            return Made::Exists;
        }
        match self.history.create(alloc, name, bytes) {
            Ok(()) => Made::Created,
            Err(_) => Made::Memory,
        }
    }

    // Adds bytes at the end of a file, or a prefix of them where the call is to fail.
    fn append_to_file(&mut self, alloc: Global, name: &Name, bytes: &[u8]) -> Added
        ensures exact { MemoryAppends self.old self.new name.now bytes.now result }
        ensures cause { CountsFault self.old.faults self.new.faults (result ≡ Added.Failed) }
    {
        if self.changes.begin() {
            return self.fail_append(alloc, name, bytes);
        }
        match self.history.append(alloc, name, bytes) {
            Ok(()) => Added::Added,
            Err(_) => Added::Memory,
        }
    }

    // Leaves the prefix that a failing append leaves.
    fn fail_append(&mut self, alloc: Global, name: &Name, bytes: &[u8]) -> Added
        ensures failed { result ≡ Added.Failed → self.new ≡ record self.old { history = after_operations self.old.history (left_by name.now (take self.old.prefix bytes.now)); faults = one_more self.old.faults } }
        ensures memory { result ≡ Added.Memory → self.new ≡ self.old }
        ensures fails { result ≢ Added.Added }
        ensures cause { CountsFault self.old.faults self.new.faults (result ≡ Added.Failed) }
    {
        let left = prefix(bytes, self.prefix);
        if !left.is_empty() {
            if self.history.append(alloc, name, left).is_err() {
                return Added::Memory;
            }
        }
        self.faults.raise();
        Added::Failed
    }

    // Removes a file.
    fn remove_file(&mut self, alloc: Global, name: &Name) -> Gone
        ensures exact { MemoryRemoves self.old self.new name.now result }
        ensures cause { CountsFault self.old.faults self.new.faults (result ≡ Gone.Failed) }
    {
        if self.changes.begin() {
            self.faults.raise();
            return Gone::Failed;
        }
        if !self.history.has(name) {
            return Gone::Absent;
        }
        match self.history.remove(alloc, name) {
            Ok(()) => Gone::Removed,
            Err(_) => Gone::Memory,
        }
    }
}

impl Store for MemStore {
    ghost use Rattle.std.specs.Prelude.{refl};
    ghost use Rattle.store_mem.specs.MemStore.{state_of};

    ghost state = { state_of };

    ghost is_honest = { λ _. Unit {0} };

    ghost replayed = { λ _. refl };

    #[tactic(auto, using(crate::proofs::FilesLemmas::sizes_rise))]
    fn list(&mut self, alloc: Global) -> Listed
        ensures answer { Lists (told_of self.old.history) result }
        ensures same { self.new ≡ self.old }
        ensures never_fails { result ≢ Listed.Failed }
    {
        match self.history.sizes(alloc) {
            Ok(sizes) => Listed::Files(sizes),
            Err(_) => Listed::Memory,
        }
    }

    fn read(&mut self, alloc: Global, name: &Name, at: u64, len: u64) -> Fetched
        ensures answer { Fetches (told_of self.old.history) name.now at len result }
        ensures same { self.new ≡ self.old }
        ensures never_fails { result ≢ Fetched.Failed }
    {
        match self.history.file(name) {
            Some(bytes) => match Bytes::from_slice(alloc, piece(bytes, at, len)) {
                Ok(copied) => Fetched::Piece(copied),
                Err(_) => Fetched::Memory,
            },
            None => Fetched::Absent,
        }
    }

    #[tactic(auto, using(crate::proofs::MemStoreLemmas::answers_create))]
    fn create(&mut self, alloc: Global, name: &Name, bytes: &[u8]) -> Made
        ensures exact { MemoryCreates self.old self.new name.now bytes.now result }
        ensures answer { Creates (Unit {0}) (told_of self.old.history) (told_of self.new.history) name.now bytes.now result }
        ensures cause { CountsFault self.old.faults self.new.faults (result ≡ Made.Failed) }
    {
        self.create_file(alloc, name, bytes)
    }

    #[tactic(auto, using(crate::proofs::MemStoreLemmas::answers_append))]
    fn append(&mut self, alloc: Global, name: &Name, bytes: &[u8]) -> Added
        ensures exact { MemoryAppends self.old self.new name.now bytes.now result }
        ensures answer { Appends (Unit {0}) (told_of self.old.history) (told_of self.new.history) name.now bytes.now result }
        ensures cause { CountsFault self.old.faults self.new.faults (result ≡ Added.Failed) }
    {
        self.append_to_file(alloc, name, bytes)
    }

    #[tactic(auto, using(crate::proofs::MemStoreLemmas::answers_remove))]
    fn remove(&mut self, alloc: Global, name: &Name) -> Gone
        ensures exact { MemoryRemoves self.old self.new name.now result }
        ensures answer { Removes (Unit {0}) (told_of self.old.history) (told_of self.new.history) name.now result }
        ensures cause { CountsFault self.old.faults self.new.faults (result ≡ Gone.Failed) }
    {
        self.remove_file(alloc, name)
    }

    fn faults(&self) -> u64 {
        self.faults.get()
    }

    fn done(&self) -> u64 {
        self.history.operations().len() as u64
    }
}
