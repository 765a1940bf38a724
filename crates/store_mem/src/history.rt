// The files of a store, those that it was given and the operations done since.
ghost use Rattle.std.specs.Prelude.{◌≡◌, ◌∷◌, ◌++◌, [], ◌<◌, ◌≤◌, length, vec_len, vec_capacity, is_some, IfOk, OnOk, OnErr, MatchOption, None, Some};
ghost use Rattle.std.specs.FinMap.{get, len};
ghost use Rattle.hudi_base.specs.Files.{sizes};
ghost use Rattle.store_mem.specs.Files.{after_operations, files_made, no_operations};
ghost use Rattle.store_mem.specs.Stopped.{begun, stopped};

use crate::content::prefix;
use crate::files::{Files, change, given_files, sizes_of};
use hudi_base::{Bytes, FileSizes, Name, Operation, Sequence};
use std::alloc::{AllocError, Global};
use std::collections::BTreeMap;
use std::marker::Model;

/// Files, as operations made them of those that were given. Contracts see these and the operations.
#[derive(Drop)]
pub struct History {
    files: Files,
    given: Sequence<(Name, Bytes)>,
    operations: Vec<Operation>,
}

impl Model for History {
    ghost use Rattle.std.specs.Prelude.{◌≡◌};
    ghost use Rattle.hudi_base.specs.Files.{changed_all};
    ghost use Rattle.store_mem.specs.Entries.{files_in};
    ghost use Rattle.store_mem.specs.Files.{FileHistory, files_given};

    ghost Value = { FileHistory };

    ghost view = { λ history. record { given = history.given; operations = history.operations.items } };

    ghost invariant = { λ history. files_in history.files.entries ≡ changed_all (files_given history.given) history.operations.items };
}

impl History {
    /// No files, and no operations.
    pub fn new(alloc: Global) -> History
        ensures { result ≡ no_operations [] }
    {
        History {
            files: BTreeMap::new(alloc),
            given: Sequence::new(alloc),
            operations: Vec::new(alloc),
        }
    }

    /// These files, and no operations.
    pub fn with_files(alloc: Global, given: Sequence<(Name, Bytes)>) -> Result<History, AllocError>
        ensures { IfOk result (λ history. history ≡ no_operations given) }
    {
        Ok(History {
            files: given_files(alloc, given.as_slice())?,
            given,
            operations: Vec::new(alloc),
        })
    }

    /// Makes a file with these bytes.
    pub fn create(&mut self, alloc: Global, name: &Name, bytes: &[u8]) -> Result<(), AllocError>
        ensures ok { OnOk result (self.new ≡ after_operations self.old (Operation.Create name.now bytes.now ∷ [])) }
        ensures err { OnErr result (self.new ≡ self.old) }
    {
        let operation = Operation::Create(name.copy(alloc)?, Bytes::from_slice(alloc, bytes)?);
        self.add(alloc, operation)
    }

    /// Adds bytes at the end of a file, and makes it where it is absent.
    pub fn append(&mut self, alloc: Global, name: &Name, bytes: &[u8]) -> Result<(), AllocError>
        ensures ok { OnOk result (self.new ≡ after_operations self.old (Operation.Append name.now bytes.now ∷ [])) }
        ensures err { OnErr result (self.new ≡ self.old) }
    {
        let operation = Operation::Append(name.copy(alloc)?, Bytes::from_slice(alloc, bytes)?);
        self.add(alloc, operation)
    }

    /// Removes a file.
    pub fn remove(&mut self, alloc: Global, name: &Name) -> Result<(), AllocError>
        ensures ok { OnOk result (self.new ≡ after_operations self.old (Operation.Remove name.now ∷ [])) }
        ensures err { OnErr result (self.new ≡ self.old) }
    {
        let operation = Operation::Remove(name.copy(alloc)?);
        self.add(alloc, operation)
    }

    // Does one more operation.
    fn add(&mut self, alloc: Global, operation: Operation) -> Result<(), AllocError>
        ensures ok { OnOk result (self.new ≡ after_operations self.old (operation ∷ [])) }
        ensures err { OnErr result (self.new ≡ self.old) }
    {
        self.operations.reserve(1)?;
        change(alloc, &mut self.files, &operation)?;
        push_in_room(&mut self.operations, operation);
        Ok(())
    }

    // Does an operation again.
    fn redo(&mut self, alloc: Global, operation: &Operation) -> Result<(), AllocError>
        ensures ok { OnOk result (self.new ≡ after_operations self.old (operation.now ∷ [])) }
        ensures err { OnErr result (self.new ≡ self.old) }
    {
        match operation {
            Operation::Create(name, bytes) => self.create(alloc, name, bytes.as_slice()),
            Operation::Append(name, bytes) => self.append(alloc, name, bytes.as_slice()),
            Operation::Remove(name) => self.remove(alloc, name),
        }
    }

    // Does these operations again.
    fn redo_all(&mut self, alloc: Global, operations: &[Operation]) -> Result<(), AllocError>
        ensures { OnOk result (self.new ≡ after_operations self.old operations.now) }
    {
        for operation in operations {
            self.redo(alloc, operation)?;
        }
        Ok(())
    }

    // With so much of an operation as is done when a stop comes within it.
    fn with_begun(
        mut self,
        alloc: Global,
        next: &Operation,
        most: u64,
    ) -> Result<History, AllocError>
        ensures { IfOk result (λ left. left ≡ after_operations self (begun most next.now)) }
    {
        let Operation::Append(name, bytes) = next else {
            return Ok(self);
        };
        let left = prefix(bytes.as_slice(), most);
        if !left.is_empty() {
            self.append(alloc, name, left)?;
        }
        Ok(self)
    }

    /// What a stop leaves after the first `done` operations and within the next one, of which the first `most` bytes
    /// have arrived where it is an append.
    pub fn stopped(&self, alloc: Global, done: usize, most: u64) -> Result<History, AllocError>
        requires { done ≤ length self.now.operations }
        ensures { IfOk result (λ left. left ≡ stopped self.now done most) }
    {
        let mut left = History::with_files(alloc, copied(alloc, self.given.as_slice())?)?;
        left.redo_all(alloc, &self.operations[..done])?;
        match self.operations.get(done) {
            Some(next) => left.with_begun(alloc, next, most),
            None => Ok(left),
        }
    }

    /// The bytes of a file.
    pub fn file(&self, name: &Name) -> Option<&[u8]>
        ensures { MatchOption result (get (files_made self.now) name.now ≡ None) (λ bytes. get (files_made self.now) name.now ≡ Some bytes.now) }
    {
        match self.files.get(name) {
            Some(content) => Some(content.as_slice()),
            None => None,
        }
    }

    /// Whether there is a file of this name.
    pub fn has(&self, name: &Name) -> bool
        ensures { result ≡ is_some (get (files_made self.now) name.now) }
    {
        self.file(name).is_some()
    }

    /// How many files there are.
    pub fn file_count(&self) -> usize
        ensures { result ≡ len (files_made self.now) }
    {
        self.files.len()
    }

    /// The files and their sizes, in the order of their names.
    pub fn sizes(&self, alloc: Global) -> Result<FileSizes, AllocError>
        ensures { IfOk result (λ listing. listing ≡ sizes (files_made self.now)) }
    {
        sizes_of(alloc, &self.files)
    }

    /// The operations, in order.
    pub fn operations(&self) -> &[Operation]
        ensures { result.now ≡ self.now.operations }
    {
        &self.operations
    }
}

// A second owner of names and bytes.
fn copied(alloc: Global, files: &[(Name, Bytes)]) -> Result<Sequence<(Name, Bytes)>, AllocError>
    ensures { IfOk result (λ copied. copied ≡ files.now) }
{
    let mut copied = Sequence::new(alloc);
    for (name, bytes) in files {
        copied.push((name.copy(alloc)?, bytes.copy(alloc)?))?;
    }
    Ok(copied)
}

// Adds an operation where there is room for it.
fn push_in_room(operations: &mut Vec<Operation>, operation: Operation)
    requires { vec_len operations.old < vec_capacity operations.old }
    ensures { operations.new.items ≡ operations.old.items ++ operation ∷ [] }
{
    match operations.push(operation) {
        Ok(()) => {}
        Err(_) => unreachable!(),
    }
}
