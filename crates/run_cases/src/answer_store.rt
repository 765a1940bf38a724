// A store that answers listings and reads as it is told to, whatever was done to it.
ghost use Rattle.std.specs.Prelude.{◌≡◌, None};

use crate::case::Answer;
use hudi_base::{Added, FaultCount, Fetched, Gone, Listed, Made, Name, Sequence, Store};
use std::alloc::Global;

/// A store without files, which takes what it is given to no effect. It tells nothing and isn't honest.
#[derive(Drop)]
pub struct AnswerStore<'a> {
    answer: &'a Answer,
    existing: &'a [u64],
    listing_fails: bool,
    calls: u64,
    faults: FaultCount,
}

impl<'a> AnswerStore<'a> {
    /// A store that reads back this, and to which the files of the changing calls of some numbers exist.
    pub fn new(answer: &'a Answer, existing: &'a [u64], listing_fails: bool) -> AnswerStore<'a> {
        AnswerStore {
            answer,
            existing,
            listing_fails,
            calls: 0,
            faults: FaultCount::new(),
        }
    }

    // The number of a changing call, from 0.
    fn next_call(&mut self) -> u64
        ensures { self.new.faults ≡ self.old.faults }
    {
        let number = self.calls;
        self.calls = number.saturating_add(1);
        number
    }
}

impl Store for AnswerStore<'_> {
    ghost state = { λ store. record { told = record { files = None; operations = None; first = None }; faults = store.faults } };

    ghost is_honest = { λ _. ⊥ };

    fn list(&mut self, alloc: Global) -> Listed {
        if self.listing_fails {
            self.faults.raise();
            return Listed::Failed;
        }
        Listed::Files(Sequence::new(alloc))
    }

    fn read(&mut self, alloc: Global, _name: &Name, _at: u64, len: u64) -> Fetched {
        match self.answer {
            Answer::Piece(bytes) if bytes.as_slice().len() as u64 <= len => {
                match bytes.copy(alloc) {
                    Ok(piece) => Fetched::Piece(piece),
                    Err(_) => Fetched::Memory,
                }
            }
            Answer::Piece(_) | Answer::Absent => Fetched::Absent,
            Answer::Failed => {
                self.faults.raise();
                Fetched::Failed
            }
        }
    }

    fn create(&mut self, _alloc: Global, _name: &Name, _bytes: &[u8]) -> Made {
        let number = self.next_call();
        if self.existing.contains(&number) {
            return Made::Exists;
        }
        Made::Created
    }

    fn append(&mut self, _alloc: Global, _name: &Name, _bytes: &[u8]) -> Added {
        let _number = self.next_call();
        Added::Added
    }

    fn remove(&mut self, _alloc: Global, _name: &Name) -> Gone {
        let _number = self.next_call();
        Gone::Removed
    }

    fn faults(&self) -> u64 {
        self.faults.get()
    }

    fn done(&self) -> u64 {
        0
    }

    ghost replayed = { λ _. tt };
}
