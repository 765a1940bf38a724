// Rows that the table may have.
ghost use Rattle.std.specs.Prelude.{All};
ghost use Rattle.std.specs.Bool.{OnTrue};
ghost use Rattle.plain_rows.specs.OwnRows.{IsOwn};

use crate::reading::{MOST_BODY_BYTES, MOST_KEY_BYTES};
use crate::texts::is_sized_text;
use payload_merge::Row;

fn is_own(row: &Row) -> bool
    ensures { OnTrue result (IsOwn row.now) }
{
    is_sized_text(1, MOST_KEY_BYTES, row.key.as_slice())
        && is_sized_text(0, MOST_BODY_BYTES, row.body.as_slice())
}

/// Whether all of the rows are the table's own: each has a key of 1 to 1,000 bytes and a body of at most 65,536, both of them
/// texts.
pub fn are_own(rows: &[Row]) -> bool
    ensures { OnTrue result (All IsOwn rows.now) }
{
    for row in rows {
        if !is_own(row) {
            return false;
        }
    }
    true
}
