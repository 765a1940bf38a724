// The codec of a table.
ghost use Rattle.std.specs.Prelude.{◌≡◌, ◌<◌, ◌^◌, ℕ, Bool, List, Result, IfOk, IsUtf8, length};
ghost use Rattle.hudi_base.specs.declared.value.Value.{Value};
ghost use Rattle.payload_merge.specs.declared.row.Row.{Row};
ghost use Rattle.table_core.specs.declared.job_reply.RowCause.{RowCause};
ghost use Rattle.table_jobs.specs.NewRows.{AnswersNewRow, IsNewRow};
ghost use Rattle.table_props.specs.PropsTexts.{Told as Properties};

use hudi_base::{Bytes, Name, Value};
use payload_merge::{Row, RowCodec, RowError};
use std::alloc::Global;

/// How the rows of one table are written, with what else its blocks need of it: the table's name, which is in the ids
/// of its file groups, and the text that its data blocks have in the place of a schema.
///
/// `is_of` says whether it is the codec of a table with these properties; the name is theirs then.
///
/// `fits` says which values are of the table's schema, and `row_made` which row such a value makes, or why it makes none.
/// Nothing in that row is of an instant: a writer gives it its commit and its place.
pub trait TableCodec: RowCodec {
    ghost is_of: { Self → Properties → Type 0 };

    ghost table_name: { Self → List ℕ };

    ghost schema: { Self → List ℕ };

    ghost fits: { Self → Value → Type 0 };

    ghost row_made: { Self → Value → Result Row RowCause };

    ghost is_ordered: { Self → Bool };

    /// The table's name.
    fn table(&self) -> &Name
        ensures { result.now ≡ table_name self.now };

    /// The text of the schema. It takes no memory.
    fn schema_text(&self) -> &Bytes
        ensures text { result.now ≡ schema self.now }
        ensures utf8 { IsUtf8 result.now }
        ensures short { length result.now < 2 ^ 32 };

    /// The row that a value of the table's schema makes, with the first time and 0 where its commit and its place are to
    /// stand. `NoKey`, `BadPartition`, `NoOrdering` and `TooLarge` come exactly where it makes none for that cause; the
    /// only other error is want of memory.
    fn new_row(&self, alloc: Global, value: &Value) -> Result<Row, RowError>
        requires { fits self.now value.now }
        ensures { AnswersNewRow (row_made self.now value.now) result };

    /// Whether rows have an ordering field, by which writes are ranked. It takes no memory.
    fn is_ordered(&self) -> bool
        ensures { result ≡ is_ordered self.now };

    // A row that is made can be written, by any instant and at any place.
    ghost new_rows_are_own: { (codec : Self) (value : Value) → fits codec value →
        IfOk (row_made codec value) (IsNewRow (Self.own_row codec)) };

    ghost name_is_told: { (codec : Self) (props : Properties) → is_of codec props → table_name codec ≡ props.name };
}
