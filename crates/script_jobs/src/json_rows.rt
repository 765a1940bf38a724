// The rows of an upsert.
ghost use Rattle.std.specs.Prelude.{◌≡◌};
ghost use Rattle.serde_json.specs.View.{view, items_view};
ghost use Rattle.script_jobs.specs.Rows.{are_objects, are_rows, is_item_count, rows_in};

use serde_json::Value as Json;
use table_forms::items_at;

// The greatest number of rows or keys of a line.
const MOST_ITEMS: usize = 100_000;

/// The rows of an upsert: 1 to 100,000 objects of JSON, which lie in their line.
#[derive(Drop)]
pub struct JsonRows {
    line: Json,
}

impl JsonRows {
    ghost use Rattle.std.specs.Prelude.{◌≡◌};
    ghost use Rattle.serde_json.specs.View.{view, items_view};
    ghost use Rattle.script_jobs.specs.Rows.{rows_in};
    ghost use Rattle.script_jobs.specs.RowViews.{rows_view};

    // The rows of a line.
    pub(crate) fn of_line(line: Json) -> JsonRows
        ensures { rows_view result ≡ rows_in (view line) }
    {
        JsonRows { line }
    }

    /// The rows, in their order.
    pub fn as_slice(&self) -> &[Json]
        ensures { items_view result.now ≡ rows_view self.now }
    {
        rows_in(&self.line)
    }
}

// The items of the member `rows`.
fn rows_in(line: &Json) -> &[Json]
    ensures { items_view result.now ≡ rows_in (view line.now) }
{
    match items_at("rows", line) {
        Some(rows) => rows,
        None => &[],
    }
}

/// Whether a line may have so many rows or keys.
pub(crate) fn is_item_count(count: usize) -> bool
    ensures { result ≡ is_item_count count }
{
    1 <= count && count <= MOST_ITEMS
}

#[tactic(auto, using(crate::proofs::RowParts::reading))]
fn are_objects(rows: &[Json]) -> bool
    ensures { result ≡ are_objects (items_view rows.now) }
{
    for row in rows {
        if !row.is_object() {
            return false;
        }
    }
    true
}

/// Whether a line has rows as an upsert has them.
#[tactic(auto, using(crate::proofs::RowParts::reading))]
pub(crate) fn has_rows(line: &Json) -> bool
    ensures { result ≡ are_rows (rows_in (view line.now)) }
{
    let rows = rows_in(line);
    is_item_count(rows.len()) && are_objects(rows)
}
