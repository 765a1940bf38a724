// The payload rule.
ghost use Rattle.std.specs.Prelude.{◌≡◌, ◌<ℤ◌, ◌↔◌, IsTrue};
ghost use Rattle.std.specs.Option.{ForSome};
ghost use Rattle.payload_merge.specs.Payload.{key_of, key_of_row, rank_of, row_after};

use crate::row::{Row, Write};

/// The row of a key after a write to it, where `cur` is the row that it has, if any. Both have one key. It takes
/// no memory.
pub fn apply(cur: Option<Row>, w: Write) -> Option<Row>
    requires { ForSome cur (λ row. key_of_row row ≡ key_of w) }
    ensures { result ≡ row_after cur w }
{
    let Some(present) = cur else {
        return row_left_by(w);
    };
    if outranks(present.rank, rank(&w)) {
        return Some(present);
    }
    row_left_by(w)
}

// What a write leaves where no present row outranks it: a put its row, a delete nothing.
pub(crate) fn row_left_by(w: Write) -> Option<Row>
    ensures { result ≡ row_after None w }
{
    match w {
        Write::Put(row) => Some(row),
        Write::Del { .. } => None,
    }
}

// The rank of a write.
pub(crate) fn rank(w: &Write) -> i64
    ensures { result ≡ rank_of w.now }
{
    match w {
        Write::Put(row) => row.rank,
        Write::Del { rank, .. } => *rank,
    }
}

// Whether a present row stays in spite of a write, given the rank of each.
pub(crate) fn outranks(present: i64, write: i64) -> bool
    ensures { IsTrue result ↔ (write <ℤ present) }
{
    present > write
}
