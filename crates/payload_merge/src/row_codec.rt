// How rows become the contents of data blocks and the cells of base files, and these rows.
ghost use Rattle.std.specs.Prelude.{◌≡◌, ◌<◌, ◌≤◌, ◌^◌, ◌++◌, ◌∷◌, ℕ, List, length, map, slice_get, All, IsTrue, IfOk, IfErr, Ok, Some};
ghost use Rattle.hudi_base.specs.declared.column.Column.{Column};
ghost use Rattle.hudi_base.specs.declared.value.Value.{Value};
ghost use Rattle.hudi_base.specs.declared.value.Value.TheVariants.{Text};
ghost use Rattle.column_cells.specs.Cells.{AreCellsOf, has_known_type};
ghost use Rattle.payload_merge.specs.declared.row.Row.{Row};
ghost use Rattle.payload_merge.specs.declared.row_error.RowError.TheVariants.{Memory};
ghost use Rattle.payload_merge.specs.Contents.{AreRowsOf, CellsReading, DataPlace, DataReading, data_writes};
ghost use Rattle.payload_merge.specs.RowCodec.{AnswersContent, AnswersLent};
ghost use Rattle.payload_merge.specs.RowRefs.{write_in};

use crate::row::{Row, Writes};
use crate::row_error::RowError;
use crate::row_refs::WriteRef;
use hudi_base::{Bytes, Columns, InstantTime, Name, Values};
use std::alloc::Global;

/// How the rows of one table are written into the contents of data blocks and into base files, and read back.
///
/// `block_rows` says for which rows a content stands at its place, and `base_row` for which row of a partition the cells
/// of a base file stand, which has `columns`. `own_row` says which rows the codec can write: those with a body of its
/// schema, no cell of which is longer than 65,536 bytes, that agrees with partition, key and rank. `lends` says which
/// contents hold their rows as they are kept in memory, so that these needn't be copied out: those that `data_block`
/// gives are among them. `file_column` is the place of the column that names the file group.
pub trait RowCodec {
    ghost columns: { Self → List Column };

    ghost file_column: { Self → ℕ };

    ghost block_rows: { Self → DataReading };

    ghost lends: { Self → DataPlace → List ℕ → Type 0 };

    ghost base_row: { Self → CellsReading };

    ghost own_row: { Self → Row → Type 0 };

    /// The content of a data block of the instant `t` in the file group with this file id, for rows that all lie in one
    /// partition. It reads back as these rows, and can be lent. The only error is want of memory.
    fn data_block(
        &self,
        alloc: Global,
        t: InstantTime,
        file_id: &Name,
        rows: &[Row],
    ) -> Result<Bytes, RowError>
        requires own { All (own_row self.now) rows.now }
        requires one_partition { (partition : List ℕ) × AreRowsOf t partition rows.now }
        requires counted { length rows.now < 2 ^ 32 }
        requires short_id { length file_id.now ≤ 65536 }
        ensures reads_back { IfOk result (λ content. (partition : List ℕ) → AreRowsOf t partition rows.now →
            block_rows self.now (record { instant = t; partition = partition; file_id = file_id.now }) content ≡ Ok rows.now) }
        ensures can_be_lent { IfOk result (λ content. (partition : List ℕ) → AreRowsOf t partition rows.now →
            lends self.now (record { instant = t; partition = partition; file_id = file_id.now }) content) }
        ensures memory_alone { IfErr result (λ error. error ≡ Memory) };

    /// The puts of the rows for which a content stands that was found in a data block of the instant `t`, in a file
    /// group of this partition and file id. `BadContent` comes exactly where it stands for none, with the offset that
    /// `block_rows` gives; the only other error is want of memory.
    fn block_writes(
        &self,
        alloc: Global,
        t: InstantTime,
        partition: &Name,
        file_id: &Name,
        content: &[u8],
    ) -> Result<Writes, RowError>
        ensures { let place : DataPlace = record { instant = t; partition = partition.now; file_id = file_id.now } in
            AnswersContent (data_writes (block_rows self.now) place content.now) result };

    /// The same writes, whose keys and bodies are lent from the content, exactly where `lends` says that they can be;
    /// else none, and `block_writes` has them. `BadContent` comes as it does there.
    fn lent_writes<'a>(
        &self,
        alloc: Global,
        t: InstantTime,
        partition: &Name,
        file_id: &Name,
        content: &'a [u8],
    ) -> Result<Option<Vec<WriteRef<'a>>>, RowError>
        ensures { let place : DataPlace = record { instant = t; partition = partition.now; file_id = file_id.now } in
            AnswersLent (λ writes. map (write_in partition.now) writes.items)
            (data_writes (block_rows self.now) place content.now) (lends self.now place content.now) result };

    /// The columns of a base file of these rows, in their order. It takes no memory.
    fn columns(&self) -> &Columns
        ensures { result.now ≡ columns self.now };

    /// The cells of a row in a base file of the file group with this file id: one for each column, of that column and no
    /// longer than a cell may be. They stand for the row. The only error is want of memory.
    fn cells(&self, alloc: Global, row: &Row, file_id: &Name) -> Result<Values, RowError>
        requires own { own_row self.now row.now }
        requires short_id { length file_id.now ≤ 65536 }
        ensures of_the_columns { IfOk result (AreCellsOf (columns self.now)) }
        ensures reads_back { IfOk result (λ cells. base_row self.now row.now.partition cells ≡ Ok row.now) }
        ensures names_the_file { IfOk result (λ cells. slice_get cells (file_column self.now) ≡ Some (Text file_id.now)) }
        ensures memory_alone { IfErr result (λ error. error ≡ Memory) };

    /// The row of this partition for which cells stand that were found in a base file. `BadContent` comes exactly where
    /// they stand for none, with the place of the first bad cell that `base_row` gives; the only other error is want of
    /// memory.
    fn row(&self, alloc: Global, partition: &Name, cells: &Values) -> Result<Row, RowError>
        ensures { AnswersContent (base_row self.now partition.now cells.now) result };

    // What is read can be written again, and carries the instant and the partition of its place.
    ghost own_rows_are_read: { (codec : Self) (place : DataPlace) (content : List ℕ) →
        IfOk (block_rows codec place content) (All (own_row codec)) };

    ghost rows_of_the_place_are_read: { (codec : Self) (place : DataPlace) (content : List ℕ) →
        IfOk (block_rows codec place content) (AreRowsOf place.instant place.partition) };

    ghost own_rows_are_in_bases: { (codec : Self) (partition : List ℕ) (cells : List Value) →
        IfOk (base_row codec partition cells) (λ row. own_row codec row × (row.partition ≡ partition)) };

    // The columns can be written, and one of them is that of the file, which is no part of a row's meaning.
    ghost types_are_known: { (codec : Self) → All (λ column. IsTrue (has_known_type column)) (columns codec) };

    ghost file_column_is_there: { (codec : Self) → file_column codec < length (columns codec) };

    ghost any_file_is_read: { (codec : Self) (partition file other : List ℕ) (before after : List Value) →
        length before ≡ file_column codec → length file ≤ 65536 → length other ≤ 65536 →
        base_row codec partition (before ++ Text file ∷ after) ≡ base_row codec partition (before ++ Text other ∷ after) };
}
