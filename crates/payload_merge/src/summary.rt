// The whole effect of the writes to one key, kept apart from the row that they will meet.
use crate::payload::{outranks, rank, row_left_by};
use crate::row::{Row, Write};

/// What writes to one key come to, one at least: their greatest rank, and the row that they leave where there was none.
/// A merge of a log keeps one for each key and lays it onto the row of the base file. Its calls take no memory.
#[derive(Drop)]
pub struct Summary {
    /// The greatest of the writes' ranks. A row that outranks it stays, whatever the writes leave by themselves.
    pub most: i64,
    /// What the writes leave where there was no row.
    pub value: Option<Row>,
}

impl Summary {
    ghost use Rattle.std.specs.Prelude.{◌≡◌};
    ghost use Rattle.payload_merge.specs.Summary.{HaveOneKey, row_onto, summary_of_write, summary_then};

    /// The summary of one write.
    pub fn of_write(w: Write) -> Summary
        ensures { result ≡ summary_of_write w }
    {
        Summary {
            most: rank(&w),
            value: row_left_by(w),
        }
    }

    /// The summary of these writes and then of later ones to the same key.
    pub fn then(self, later: Summary) -> Summary
        requires { HaveOneKey self.value later.value }
        ensures { result ≡ summary_then self later }
    {
        Summary {
            most: self.most.max(later.most),
            value: later.onto(self.value),
        }
    }

    /// The row of the key after the writes, where `cur` is the row that it had, if any.
    pub fn onto(self, cur: Option<Row>) -> Option<Row>
        requires { HaveOneKey cur self.value }
        ensures { result ≡ row_onto self cur }
    {
        let Some(present) = cur else {
            return self.value;
        };
        if outranks(present.rank, self.most) {
            return Some(present);
        }
        self.value
    }
}
