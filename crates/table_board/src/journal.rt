// The entries of a table.
ghost use Rattle.std.specs.Prelude.{◌≡◌, ◌≢◌, ◌≤◌, ◌<◌, ◌+◌, ◌^◌, ◌∷◌, [], map, reverse, OnOk};
ghost use Rattle.table_board.specs.Owed.{owed_after};
ghost use Rattle.table_core.specs.Marks.{mark_of};

use std::alloc::{AllocError, Global};
use std::marker::Model;
use table_core::mark;
use table_history::{Entry, Mark, Reply, Step};

/// Entries with their marks, and room for the entries that are owed. Contracts see the entries, the last one first, how
/// many more are owed at most, and for how many there is room.
#[derive(Drop)]
pub(crate) struct Journal {
    entries: Vec<Entry>,
    marks: Vec<Mark>,
    owed: usize,
}

impl Model for Journal {
    ghost use Rattle.std.specs.Prelude.{◌≡◌, ◌≤◌, ◌-◌, min, map, reverse, vec_len, vec_capacity};
    ghost use Rattle.table_board.specs.Journals.{JournalState, HasMarks};

    ghost Value = { JournalState };

    ghost view = { λ journal. record {
      entries = reverse journal.entries.items;
      owed = journal.owed;
      room = min (vec_capacity journal.entries - vec_len journal.entries)
          (vec_capacity journal.marks - vec_len journal.marks);
    } };

    ghost invariant = { λ journal. HasMarks journal.entries.items journal.marks.items };
}

// How many entries are owed at most after one more.
fn owed_after(owed: usize, entry: &Entry) -> usize
    requires { owed_after entry.now.step entry.now.reply owed < 2 ^ 64 }
    ensures { result ≡ owed_after entry.now.step entry.now.reply owed }
{
    match (&entry.step, &entry.reply) {
        (Step::Begin {}, Reply::Began(_)) => owed + 1,
        (Step::Pin { .. }, Reply::Pinned(_)) => owed + 1,
        (Step::Finish { .. }, Reply::Completed(_)) => owed.saturating_sub(1),
        (Step::Unpin { .. }, Reply::Done) => owed.saturating_sub(1),
        (Step::Abandon { .. }, Reply::Done) => owed.saturating_sub(1),
        _ => owed,
    }
}

impl Journal {
    // No entries.
    pub(crate) fn new(alloc: Global) -> Journal
        ensures entries { result.entries ≡ [] }
        ensures owed { result.owed ≡ 0 }
    {
        Journal {
            entries: Vec::new(alloc),
            marks: Vec::new(alloc),
            owed: 0,
        }
    }

    // Makes room for an entry beside those that are owed, even if one more is owed after it. The only error is want of
    // memory.
    pub(crate) fn reserve(&mut self) -> Result<(), AllocError>
        ensures room { OnOk result (self.old.owed + 2 ≤ self.new.room) }
        ensures entries { self.new.entries ≡ self.old.entries }
        ensures owed { self.new.owed ≡ self.old.owed }
        ensures kept { self.old.room ≤ self.new.room }
    {
        let Some(wanted) = self.owed.checked_add(2) else {
            return Err(AllocError);
        };
        self.entries.reserve(wanted)?;
        self.marks.reserve(wanted)
    }

    // Adds an entry, after which there is still room for those that are owed. It takes no memory.
    pub(crate) fn push(&mut self, entry: Entry)
        requires known { entry.reply ≢ Reply.Memory }
        requires room { owed_after entry.step entry.reply self.old.owed + 1 ≤ self.old.room }
        ensures entries { self.new.entries ≡ entry ∷ self.old.entries }
        ensures owed { self.new.owed ≡ owed_after entry.step entry.reply self.old.owed }
        ensures room { self.new.room + 1 ≡ self.old.room }
    {
        let _capacity = self.entries.capacity();
        self.owed = owed_after(self.owed, &entry);
        self.marks.push_reserved(mark(&entry));
        self.entries.push_reserved(entry);
    }

    // The marks of the entries, the first one first.
    pub(crate) fn marks(&self) -> &[Mark]
        ensures { result.now ≡ map mark_of (reverse self.now.entries) }
    {
        &self.marks
    }

    pub(crate) fn into_marks(self) -> Vec<Mark>
        ensures { result.items ≡ map mark_of (reverse self.entries) }
    {
        self.marks
    }
}
